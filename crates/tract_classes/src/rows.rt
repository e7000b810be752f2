//! The map of a class: a bit for each set, in rows of 64.
//!
//! Row `k` has the number `r` where the set with the word `k * 64 + r` is a member. There are as many rows as the sets
//! of the calculus need, or none where they are too many.
ghost use Rattle.std.specs.Prelude.{◌≡◌, ℕ, ◌/◌, ◌++◌, ◌∷◌, [], List, IfOk, replicate};
ghost use Rattle.tract_classes.specs.Kept.{AreRowsOf};

use calculus_table::{Memory, Rel};
use std::alloc::Global;

/// The most base relations for whose sets there is a map. It has 8 KiB then.
pub(crate) const MAX_MAPPED: u32 = 16;

/// The row of a set.
#[inline]
pub(crate) fn row_of(word: u64) -> usize
    ensures { result ≡ word / 64 }
{
    (word / 64) as usize
}

/// How many rows the sets of so many base relations need; none where they are too many.
fn row_count(size: u32) -> usize {
    if size > MAX_MAPPED {
        return 0;
    }
    (1usize << size).div_ceil(64)
}

/// `count` rows without a set.
fn empty_rows(alloc: Global, count: usize) -> Result<Vec<Rel>, Memory>
    ensures { IfOk result (λ rows. rows.items ≡ replicate count 0) }
{
    let mut rows = Vec::new(alloc);
    for _row in 0..count {
        rows.push(Rel::EMPTY).map_err(|_| Memory)?;
    }
    Ok(rows)
}

/// Adds a set, where there is a row for it.
fn add(rows: &mut [Rel], word: u64)
    ensures { (sets : List ℕ) → AreRowsOf sets rows.old → AreRowsOf (sets ++ word ∷ []) rows.new }
{
    let row = row_of(word);
    if row < rows.len() {
        rows[row] = rows[row].union(Rel::single((word % 64) as u32));
    }
}

/// The rows of these sets.
pub(crate) fn rows_of(alloc: Global, sets: &[u64], size: u32) -> Result<Vec<Rel>, Memory>
    ensures { IfOk result (λ rows. AreRowsOf sets.now rows.items) }
{
    let mut rows = empty_rows(alloc, row_count(size))?;
    for word in sets {
        add(&mut rows, *word);
    }
    Ok(rows)
}
