//! The words of a table and its opening: as it is opened, and as it is closed.
ghost use Rattle.std.specs.Prelude.{◌≡◌, ℕ, ◌<◌, ◌≤◌, ◌∷◌, [], length, take, IfOk, IsTrue, slice_index_or};
ghost use Rattle.std.specs.Slots.{slots_items, slots_len, IsFull};
ghost use Rattle.network_words.specs.Edge.{edge_count};
ghost use Rattle.edge_table.specs.Opening.{opening_over, padded};

use crate::rule::{Opener, Opening, Telling};
use atomic_table::{Badge, Closed, Table};
use calculus_table::{Compose, Memory, Rel};
use network_words::Net;
use std::alloc::Global;

/// The opening over a network, as a badge that proofs read. A table without words is opened for it, and
/// dropped.
pub(crate) fn opening<C: Compose>(
    alloc: Global,
    net: &Net,
    c: &C,
    weight: u32,
) -> Result<Badge<Opening>, Memory>
    ensures { IfOk result
        (λ badge. badge.views ≡ opening_over net.now weight (C.algebra c.now) ∷ []) }
{
    let opener = Opener { net, c, weight };
    match Table::<u8, Opening, Opener<'_, C>, Telling, Global>::of_words(alloc, &[], &opener) {
        Ok((_, seat)) => Ok(seat.into_badge()),
        Err(_) => Err(Memory),
    }
}

/// The words that a table begins with: those of the network, or one that is never used, if it has none.
pub(crate) fn words_of_table(net: &Net) -> &[u64]
    ensures { result.now ≡ padded net.now.words }
{
    if net.words().is_empty() {
        &[0]
    } else {
        net.words()
    }
}

/// Writes the words of a closed table into a network.
pub(crate) fn write_words(closed: &Closed<u8, Global>, into: &mut Net)
    requires full { IsFull closed.now.words }
    requires enough { edge_count into.old.nodes ≤ slots_len closed.now.words }
    ensures { into.new ≡ record into.old {
      words = take (edge_count into.old.nodes) (slots_items closed.now.words);
    } }
{
    // The proof needs what the words of every network keep.
    let _words = into.words();
    for edge in 0..into.edges() {
        into.set(edge, Rel::of(closed.word(edge as usize)));
    }
}
