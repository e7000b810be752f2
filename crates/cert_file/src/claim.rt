//! What a certificate says.
use scenario::Scenario;
use split_trees::Tree;
use std::marker::Model;

/// What is claimed of a network.
#[derive(Clone, Copy, Debug, PartialEq, Eq)]
pub enum Claim {
    /// That it has a scenario.
    Yes,
    /// That it has none.
    No,
    /// That the search was given up.
    Budget,
}

/// How nodes are written: in the second version they have steps.
#[derive(Clone, Copy, Debug, PartialEq, Eq)]
pub(crate) enum Version {
    One,
    Two,
}

/// A certificate: the number of nodes of a network and the names of its base relations, what is claimed of it, and what
/// shows that.
#[derive(Debug, Drop)]
pub struct Cert {
    pub nodes: u32,
    pub relations: Vec<String>,
    pub claim: Claim,
    pub scenario: Option<Scenario>,
    pub tree: Tree,
}

impl Model for Cert {
    ghost use Rattle.std.specs.Prelude.{map};
    ghost use Rattle.std.specs.String.{string_bytes};
    ghost use Rattle.cert_file.specs.Certificate.{Certificate};

    ghost Value = { Certificate };

    ghost view = { λ a. record {
      nodes = a.nodes;
      relations = map string_bytes a.relations.items;
      claim = a.claim;
      scenario = a.scenario;
      tree = a.tree;
    } };
}
