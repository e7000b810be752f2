use crate::open_net::OpenNet;
use crate::pass::Pass;
use network_words::Net;
use std::marker::Model;
use std::snapshot::Snapshot;

/// A token of a table that was closed, which only `OpenNet::close` makes. It takes no room: proofs read what the table
/// was opened with, its last pass, and the words that it was closed with.
#[derive(Drop)]
pub struct ClosedTable {
    pub(crate) table: Snapshot<OpenNet>,
    pub(crate) pass: Snapshot<Pass>,
    pub(crate) into: Snapshot<Net>,
}

impl Model for ClosedTable {
    ghost use Rattle.edge_table.specs.Opening.{ClosedState};

    ghost Value = { ClosedState };

    ghost view = { λ t. record {
      opening = t.table.value.opening;
      pass = t.pass.value;
      words = t.into.value.words;
    } };
}
