ghost use Rattle.std.specs.Prelude.{◌≡◌, ◌+◌, ◌<◌, ◌^◌, length, ◌∷◌, []};
ghost use Rattle.network_words.specs.NetFault.{first_fault};

use crate::net::NetFault;
use calculus_table::Rel;

/// A statement: the relation of node `i` to node `j` is a member of `rel`.
#[derive(Clone, Copy, Debug, PartialEq, Eq)]
pub struct Fact {
    pub i: u32,
    pub j: u32,
    pub rel: Rel,
}

/// The fault of the fact at place `at`, for this number of nodes.
fn fault_of(nodes: u32, at: u32, fact: Fact) -> Option<NetFault>
    ensures { result ≡ first_fault nodes at (fact ∷ []) }
{
    if fact.i >= nodes || fact.j >= nodes {
        Some(NetFault::NoNode { at })
    } else if fact.i == fact.j {
        Some(NetFault::SelfEdge { at })
    } else {
        None
    }
}

/// The first fault of the facts, for this number of nodes.
pub(crate) fn first_fault(nodes: u32, facts: &[Fact]) -> Option<NetFault>
    requires { length facts.now < 2 ^ 32 }
    ensures { result ≡ first_fault nodes 0 facts.now }
{
    for at in 0..facts.len() {
        let fault = fault_of(nodes, at as u32, facts[at]);
        if fault.is_some() {
            return fault;
        }
    }
    None
}
