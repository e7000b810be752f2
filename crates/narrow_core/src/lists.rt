ghost use Rattle.std.specs.Prelude.{◌≡◌, ◌++◌, IfOk};
ghost use Rattle.narrow_core.specs.Actor.{met_words};

use network_words::Fact;
use std::alloc::{AllocError, Global};

/// The facts of both lists, one list after the other.
pub(crate) fn chained(
    alloc: Global,
    first: &[Fact],
    second: &[Fact],
) -> Result<Vec<Fact>, AllocError>
    ensures { IfOk result (λ facts. facts.items ≡ first.now ++ second.now) }
{
    first.iter().chain(second).copied().collect(alloc)
}

/// The sets that two lists have in common, place by place.
pub(crate) fn met(alloc: Global, words: &[u64], others: &[u64]) -> Result<Vec<u64>, AllocError>
    ensures { IfOk result (λ met. met.items ≡ met_words words.now others.now) }
{
    words
        .iter()
        .zip(others)
        .map(|(x, y)| *x & *y)
        .collect(alloc)
}
