//! The places of a table: one for each value of each nibble of a set.

ghost use Rattle.std.specs.Prelude.{◌≡◌, ℕ, ◌+◌, ◌*◌, ◌%◌, ◌<◌};
ghost use Rattle.calculus_table.specs.Calculus.{IsCalculus};
ghost use Rattle.calculus_table.specs.Rel.{IsWithin};
ghost use Rattle.calculus_table.specs.Composition.{full_of};
ghost use Rattle.compose_fast.specs.Nibbles.{set_of_place, composition_at, converse_of_place};

use calculus_table::{Compose, Rel};

/// The place for nibble `h` of a set, of whose word `rest` is what stands from that nibble on.
#[inline(always)]
pub(crate) fn place_of(rest: u64, h: u32) -> u32
    requires { h < 16 }
    ensures value { result ≡ 16 * h + rest % 16 }
    ensures below { result < 256 }
{
    16 * h + (rest & 15) as u32
}

/// The set of a place.
fn set_of_place(d: u32) -> Rel
    requires { d < 256 }
    ensures { result ≡ set_of_place d }
{
    Rel::of(u64::from(d % 16) << (4 * (d / 16)))
}

/// The composition of the base relation `r` with the set of a place, as far as that has base relations of the calculus.
pub(crate) fn composition_at<C: Compose>(c: &C, r: u32, d: u32) -> Rel
    requires calculus { IsCalculus (C.algebra c.now) }
    requires base { r < (C.algebra c.now).size }
    requires place { d < 256 }
    ensures { result ≡ composition_at (C.algebra c.now) r d }
{
    let set = set_of_place(d).meet(c.full());
    if set.is_empty() {
        return Rel::EMPTY;
    }
    c.compose(Rel::single(r), set)
}

/// The converse of the set of a place, as far as that has base relations of the calculus.
pub(crate) fn converse_of_place<C: Compose>(c: &C, d: u32) -> Rel
    requires { d < 256 }
    ensures { result ≡ converse_of_place (C.algebra c.now) d }
{
    let set = set_of_place(d).meet(c.full());
    if set.is_empty() {
        return Rel::EMPTY;
    }
    c.converse(set)
}
