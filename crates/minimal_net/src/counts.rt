//! What the labels of a network come to: how many there are of each kind, and the network that they leave.
ghost use Rattle.std.specs.Prelude.{◌≡◌, ◌^◌, ◌≤◌, length};
ghost use Rattle.network_words.specs.Edge.{edge_count};
ghost use Rattle.minimal_net.specs.declared.outcome.Outcome.TheVariants.{Held, Refuted, Open};
ghost use Rattle.minimal_net.specs.NetworkLabels.{count_of, left_of};

use crate::edge_labels::EdgeLabels;
use network_words::Net;

/// How many labels there are of each kind.
#[derive(Clone, Copy, Debug, PartialEq, Eq)]
pub struct Counts {
    pub held: u64,
    pub refuted: u64,
    pub undecided: u64,
}

/// How many of the labels are held, refuted and open.
pub fn count_labels(labels: &[EdgeLabels]) -> Counts
    requires few { length labels.now ≤ 2 ^ 25 }
    ensures held { result.held ≡ count_of Held labels.now }
    ensures refuted { result.refuted ≡ count_of Refuted labels.now }
    ensures undecided { result.undecided ≡ count_of Open labels.now }
{
    let mut counts = Counts {
        held: 0,
        refuted: 0,
        undecided: 0,
    };
    for edge in labels {
        counts.held += u64::from(edge.held.count());
        counts.refuted += u64::from(edge.refuted.count());
        counts.undecided += u64::from(edge.undecided.count());
    }
    counts
}

/// Takes the refuted base relations away from a network of which these are the labels.
pub fn leave(net: &mut Net, labels: &[EdgeLabels])
    requires { length labels.now ≡ edge_count net.old.nodes }
    ensures { net.new ≡ record net.old { words = left_of labels.now } }
{
    let _words = net.words();
    for edge in 0..net.edges() {
        net.set(edge, labels[edge as usize].left());
    }
}
