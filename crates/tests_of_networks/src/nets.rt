//! Sets and facts that the tests start from.
use crate::asserts::assert_same;
use calculus_table::Rel;
use network_words::Fact;
use std::process::Abort;

/// The relations of points on a line.
pub(crate) const BEFORE: u64 = 1;

pub(crate) const SAME: u64 = 2;

pub(crate) const AFTER: u64 = 4;

pub(crate) const ANY: u64 = BEFORE | SAME | AFTER;

/// The fact of these nodes and this set.
pub(crate) fn fact(i: u32, j: u32, word: u64) -> Fact {
    let rel = Rel::of(word);
    Fact { i, j, rel }
}

/// Fails unless the words are these.
pub(crate) fn assert_words(rt: &impl Abort, found: &[u64], expected: &[u64]) {
    assert_same(rt, found, expected);
}
