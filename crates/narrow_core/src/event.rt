use network_words::Fact;

/// One step of one actor.
#[derive(Clone, Copy, Debug, PartialEq, Eq)]
pub enum Event {
    /// The actor states a fact: its edge is narrowed to the fact's set.
    Assert { actor: u32, fact: Fact },
    /// The actor reads the set of an edge.
    Read { actor: u32, edge: u32 },
    /// The actor narrows the set of `(i, k)` to the composition of what it has seen of `(i, j)` and of
    /// `(j, k)`.
    Narrow { actor: u32, i: u32, j: u32, k: u32 },
    /// A new actor, with the next number, takes the weight `left` and what the actor has seen.
    Split { actor: u32, left: u32 },
    /// The actor takes over the weight, the facts and the sights of the other, which is then spent.
    Join { actor: u32, other: u32 },
}
