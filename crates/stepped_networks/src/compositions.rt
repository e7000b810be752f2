//! Compositions by two look-ups.
//!
//! A set of at most eight base relations is a byte, and two nibbles. Composition distributes over unions, so that of
//! two sets is the union of two: of each nibble of the first with the second. There are 32 nibbles, 16 at either
//! place, and 256 bytes, and a table of 8 KB has the compositions of each nibble with each byte. So a composition
//! costs the same whatever the sets, without a loop, and a converse is one look-up likewise. A larger calculus
//! composes as `Fast` does: which of the two is asked once for all steps of a node, and not at each. So it does where
//! few steps are taken, since making the table takes as long as some thousand compositions. Most of its entries are
//! unions of two earlier ones.

ghost use Rattle.std.specs.Prelude.{◌≡◌, ℕ, ◌+◌, ◌*◌, ◌<◌, ◌≤◌, length, slice_index, IfOk};
ghost use Rattle.compose_fast.specs.Nibbles.{nibble};
ghost use Rattle.stepped_networks.specs.Compositions.{set_at, set_of_byte, pair_entry, converse_entry};

use calculus_table::{Compose, Memory, Rel, lawful};
use compose_fast::Fast;
use std::alloc::Global;
use std::marker::Model;

/// How many base relations a calculus has at most whose compositions are looked up.
const FEW: u32 = 8;

/// A calculus of few base relations, with the compositions of nibbles with bytes and the converses of bytes.
#[derive(Debug, Drop)]
pub(crate) struct Nibbles {
    calculus: Fast,
    pairs: Vec<u8>,
    converses: Vec<u8>,
}

impl Model for Nibbles {
    ghost use Rattle.calculus_table.specs.Algebra.{Algebra};
    ghost use Rattle.stepped_networks.specs.Compositions.{AreOfNibbles};

    ghost Value = { Algebra };

    ghost view = { λ a. a.calculus };

    ghost invariant = { λ a. AreOfNibbles a.calculus a.pairs.items a.converses.items };
}

/// The place of nibble `h` of a set.
#[inline(always)]
fn place_of(a: Rel, h: u32) -> usize
    requires { h < 2 }
    ensures value { result ≡ 16 * h + nibble a h }
    ensures below { result < 32 }
{
    16 * h as usize + (a.word() >> (4 * h) & 15) as usize
}

/// The set of a place, as far as that has base relations of the calculus.
fn set_at(c: &Fast, d: u32) -> Rel
    requires { d < 32 }
    ensures { result ≡ set_at c.now d }
{
    Rel::of(u64::from(d % 16) << (4 * (d / 16))).meet(c.full())
}

/// The set of a byte, as far as that has base relations of the calculus.
fn set_of_byte(c: &Fast, b: u32) -> Rel
    requires { b < 256 }
    ensures { result ≡ set_of_byte c.now b }
{
    Rel::of(u64::from(b)).meet(c.full())
}

/// The composition of a nibble with a byte, at its place in the table.
fn pair_entry(c: &Fast, e: u32) -> u8
    requires few { c.now.size ≤ 8 }
    requires below { e < 8192 }
    ensures { result ≡ pair_entry c.now e }
{
    c.compose(set_at(c, e / 256), set_of_byte(c, e % 256))
        .word() as u8
}

/// The composition of a nibble with a byte, at its place in the table, where those before it are known: the union of
/// the compositions with the two nibbles of the byte, if neither is empty.
fn next_pair_entry(c: &Fast, pairs: &[u8], e: u32) -> u8
    requires few { c.now.size ≤ 8 }
    requires below { e < 8192 }
    requires length_is { length pairs.now ≡ e }
    requires each { (d : ℕ) → d < e → slice_index pairs.now d ≡ pair_entry c.now d }
    ensures { result ≡ pair_entry c.now e }
{
    let low = e % 16;
    let high = e % 256 - low;
    if low == 0 || high == 0 {
        return pair_entry(c, e);
    }
    lawful(c);
    pairs[(e - high) as usize] | pairs[(e - low) as usize]
}

/// The converse of a byte.
fn converse_entry(c: &Fast, b: u32) -> u8
    requires few { c.now.size ≤ 8 }
    requires below { b < 256 }
    ensures { result ≡ converse_entry c.now b }
{
    c.converse(set_of_byte(c, b)).word() as u8
}

/// The compositions of each nibble with each byte.
fn pairs_of(alloc: Global, c: &Fast) -> Result<Vec<u8>, Memory>
    requires { c.now.size ≤ 8 }
    ensures length_is { IfOk result (λ pairs. length pairs.items ≡ 8192) }
    ensures each { IfOk result (λ pairs. (e : ℕ) → e < 8192 →
        slice_index pairs.items e ≡ pair_entry c.now e) }
{
    let mut pairs = Vec::new(alloc);
    for e in 0..8192 {
        let entry = next_pair_entry(c, &pairs, e);
        pairs.push(entry).map_err(|_| Memory)?;
    }
    Ok(pairs)
}

/// The converses of the bytes.
fn converses_of(alloc: Global, c: &Fast) -> Result<Vec<u8>, Memory>
    requires { c.now.size ≤ 8 }
    ensures length_is { IfOk result (λ converses. length converses.items ≡ 256) }
    ensures each { IfOk result (λ converses. (b : ℕ) → b < 256 →
        slice_index converses.items b ≡ converse_entry c.now b) }
{
    let mut converses = Vec::new(alloc);
    for b in 0..256 {
        converses.push(converse_entry(c, b)).map_err(|_| Memory)?;
    }
    Ok(converses)
}

impl Nibbles {
    ghost use Rattle.std.specs.Prelude.{◌≡◌, ◌<◌, ◌≤◌, IfOk};
    ghost use Rattle.calculus_table.specs.Rel.{IsWithin};
    ghost use Rattle.calculus_table.specs.Calculus.{IsCalculus};
    ghost use Rattle.calculus_table.specs.Composition.{full_of, composition, converse};
    ghost use Rattle.stepped_networks.specs.Compositions.{set_at};

    /// The tables of a calculus.
    fn of(alloc: Global, calculus: Fast) -> Result<Nibbles, Memory>
        requires { calculus.size ≤ 8 }
        ensures { IfOk result (λ nibbles. nibbles ≡ calculus) }
    {
        let pairs = pairs_of(alloc, &calculus)?;
        let converses = converses_of(alloc, &calculus)?;
        Ok(Nibbles {
            calculus,
            pairs,
            converses,
        })
    }

    /// The composition of the set of a place with a set.
    #[inline(always)]
    fn compose_place(&self, d: usize, b: Rel) -> Rel
        requires place { d < 32 }
        requires within { IsWithin b (full_of self.now) }
        ensures { result ≡ composition self.now (set_at self.now d) b }
    {
        Rel::of(u64::from(self.pairs[256 * d + b.word() as usize]))
    }

    /// The union of the compositions of the members of `a` with those of `b`.
    #[inline(always)]
    fn compose_sets(&self, a: Rel, b: Rel) -> Rel
        requires first { IsWithin a (full_of self.now) }
        requires second { IsWithin b (full_of self.now) }
        ensures value { result ≡ composition self.now a b }
        ensures calculus { IsCalculus self.now }
    {
        lawful(&self.calculus);
        let low = self.compose_place(place_of(a, 0), b);
        let high = self.compose_place(place_of(a, 1), b);
        low.union(high)
    }

    /// The set of the converses of the members.
    #[inline(always)]
    fn converse_set(&self, a: Rel) -> Rel
        requires { IsWithin a (full_of self.now) }
        ensures value { result ≡ converse self.now a }
        ensures calculus { IsCalculus self.now }
    {
        lawful(&self.calculus);
        Rel::of(u64::from(self.converses[a.word() as usize]))
    }
}

impl Compose for Nibbles {
    ghost algebra = { λ a. a };

    fn size(&self) -> u32 {
        lawful(&self.calculus);
        self.calculus.size()
    }

    fn identity(&self) -> u32 {
        self.calculus.identity()
    }

    fn full(&self) -> Rel {
        self.calculus.full()
    }

    #[inline(always)]
    fn converse(&self, a: Rel) -> Rel {
        self.converse_set(a)
    }

    #[inline(always)]
    fn compose(&self, a: Rel, b: Rel) -> Rel {
        self.compose_sets(a, b)
    }
}

/// How a calculus composes.
#[derive(Debug, Drop)]
pub(crate) enum Composer {
    Few(Nibbles),
    Many(Fast),
}

/// A calculus of few base relations or of many.
#[derive(Debug, Drop)]
pub(crate) struct Compositions {
    composer: Composer,
}

impl Model for Compositions {
    ghost use Rattle.calculus_table.specs.Algebra.{Algebra};
    ghost use Rattle.stepped_networks.specs.Composers.{algebra_of};

    ghost Value = { Algebra };

    ghost view = { λ a. algebra_of a.composer };
}

impl Compositions {
    ghost use Rattle.std.specs.Prelude.{◌≡◌, IfOk};
    ghost use Rattle.stepped_networks.specs.Composers.{algebra_of};

    /// The compositions of a calculus, for many steps or for few.
    pub(crate) fn of<C: Compose>(alloc: Global, c: &C, many: bool) -> Result<Compositions, Memory>
        ensures { IfOk result (λ compositions. compositions ≡ C.algebra c.now) }
    {
        let fast = Fast::of(alloc, c)?;
        if fast.size() > FEW || !many {
            return Ok(Compositions {
                composer: Composer::Many(fast),
            });
        }
        let nibbles = Nibbles::of(alloc, fast)?;
        Ok(Compositions {
            composer: Composer::Few(nibbles),
        })
    }

    /// How it composes.
    pub(crate) fn composer(&self) -> &Composer
        ensures { algebra_of result.now ≡ self.now }
    {
        &self.composer
    }

    /// The calculus.
    pub(crate) fn calculus(&self) -> &Fast
        ensures { result.now ≡ self.now }
    {
        match &self.composer {
            Composer::Few(nibbles) => &nibbles.calculus,
            Composer::Many(fast) => fast,
        }
    }
}
