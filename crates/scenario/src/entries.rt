//! The compositions of the base relations, as a table on the stack.
//!
//! A calculus composes sets, by going through their members. A scenario has single base relations alone, so that their
//! compositions are taken once, and a triple then costs one look-up. There are at most 64 base relations, so the table
//! has 32 KiB and takes no memory. Filling it costs one composition for each two base relations.
ghost use Rattle.std.specs.Prelude.{◌≡◌, ◌*◌, ◌<◌, length, slice_index};
ghost use Rattle.scenario.specs.Entries.{BeginsWithTable};

use calculus_table::{Compose, Rel, lawful};

/// As many places as two of 64 base relations have compositions.
pub(crate) const MAX_ENTRIES: usize = 4096;

/// The composition of two base relations, at its place in the table.
fn entry_at<C: Compose>(c: &C, e: u32) -> Rel
    requires { e < (C.algebra c.now).size * (C.algebra c.now).size }
    ensures { result ≡ slice_index (C.algebra c.now).table e }
{
    lawful(c);
    let size = c.size();
    c.compose(Rel::single(e / size), Rel::single(e % size))
}

/// Writes the table of the calculus, row by row, at the front of the list.
pub(crate) fn fill<C: Compose>(c: &C, entries: &mut [Rel])
    requires { length entries.old ≡ MAX_ENTRIES }
    ensures { BeginsWithTable (C.algebra c.now) entries.new }
{
    lawful(c);
    let size = c.size();
    for e in 0..size * size {
        entries[e as usize] = entry_at(c, e);
    }
}
