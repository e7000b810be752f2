use crate::sight::Sight;
use atomic_table::{Badge, TableRule};
use calculus_table::{Calculus, Compose};
use network_words::Net;
use std::collections::LinkedList;

/// What a table was opened with: the nodes, the word of each edge, the whole weight and the calculus.
/// No value of it is ever made: proofs read it, through the badge that a table has for its key.
pub struct Opening {
    pub nodes: u32,
    pub words: LinkedList<u64>,
    pub weight: u32,
    pub calculus: Calculus,
}

/// Reads an opening off the network and the calculus that a table is opened with.
#[derive(Drop)]
pub(crate) struct Opener<'a, C> {
    pub(crate) net: &'a Net,
    pub(crate) c: &'a C,
    pub(crate) weight: u32,
}

/// The rule of a table that only tells its opening.
pub(crate) struct Telling;

impl<'a, C: Compose> TableRule<u8, Opening, Opener<'a, C>> for Telling {
    ghost use Rattle.edge_table.specs.Opening.{opening_over};

    ghost holds = { λ _ _. Unit {0} };

    ghost first = { λ opener. opening_over opener.net.now opener.weight (C.algebra opener.c.now) };
}

/// The rule of a table of edge words: its words and the actors of its passes are a machine of which the
/// bound holds.
pub struct EdgeRule;

impl TableRule<u8, Sight, Badge<Opening>> for EdgeRule {
    ghost use Rattle.edge_table.specs.Opening.{opening_of};
    ghost use Rattle.edge_table.specs.Rule.{IsKept, first_view};

    ghost holds = { λ key s. IsKept (opening_of key.views) s };

    ghost first = { λ key. first_view (opening_of key.views) };
}
