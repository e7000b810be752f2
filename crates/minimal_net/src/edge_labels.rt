//! The base relations of an edge's set, by their labels.
ghost use Rattle.std.specs.Prelude.{◌≡◌, ◌<◌};
ghost use Rattle.minimal_net.specs.NetworkLabels.{IsPut, left_in, no_labels};

use crate::outcome::Outcome;
use calculus_table::Rel;

/// The base relations of an edge's set, by their labels: each is in one of these sets.
#[derive(Clone, Copy, Debug, PartialEq, Eq)]
pub struct EdgeLabels {
    /// Those that some scenario of the network has at the edge.
    pub held: Rel,
    /// Those that none has.
    pub refuted: Rel,
    /// Those whose search spent the budget.
    pub undecided: Rel,
}

impl EdgeLabels {
    /// No base relation.
    pub(crate) fn none() -> EdgeLabels
        ensures { result ≡ no_labels }
    {
        EdgeLabels {
            held: Rel::EMPTY,
            refuted: Rel::EMPTY,
            undecided: Rel::EMPTY,
        }
    }

    /// Puts a base relation into the set of its outcome.
    pub(crate) fn put(&mut self, base: u32, outcome: Outcome)
        requires { base < 64 }
        ensures { IsPut base outcome self.old self.new }
    {
        let single = Rel::single(base);
        match outcome {
            Outcome::Held => self.held = self.held.union(single),
            Outcome::Refuted => self.refuted = self.refuted.union(single),
            Outcome::Open => self.undecided = self.undecided.union(single),
        }
    }

    /// The base relations that aren't refuted.
    pub fn left(&self) -> Rel
        ensures { result ≡ left_in self.now }
    {
        self.held.union(self.undecided)
    }
}
