use crate::held::Held;
use network_words::Net;
use std::marker::Model;

/// The facts that stand at a version, and the algebraic closure of the network that they state.
#[derive(Debug, Drop)]
pub struct Version {
    pub number: u64,
    pub facts: Vec<Held>,
    pub net: Net,
}

impl Model for Version {
    ghost use Rattle.session_versions.specs.Versions.{VersionState};

    ghost Value = { VersionState };

    ghost view = { λ v. record {
      number = v.number;
      facts = v.facts.items;
      net = v.net;
    } };
}
