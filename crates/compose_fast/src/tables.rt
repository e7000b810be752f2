//! Composition of one set with 16 others at once.
//!
//! The sets lie in planes: plane `p` has a byte for each set, its members `8 p .. 8 p + 7`. A calculus of up to 8
//! base relations needs one plane, of up to 16 two, of up to 32 four and of up to 64 eight; the number is a constant
//! `P` of the code, so that the loops over planes are unrolled. Up to 256 sets make a row, whose planes lie one after
//! another, 256 bytes each: so the rows of a few sets take little room, whatever the number of planes.
//!
//! For each base relation there is a table of 32 P bytes a plane: for each nibble of a set, its 16 values. The tables
//! of a set are the unions of those of its members, 2 P vectors a plane. What a set gives composed with 16 others is
//! then read by 2 P shuffles a plane (Mula 2016 tells the method for counting bits).
//!
//! With one plane a table has two vectors, and there are few sets: so those of all sets are made once, and that of a
//! set is then read in place of being made from those of its members.

ghost use Rattle.std.specs.Prelude.{◌≡◌, ◌≢◌, ℕ, ◌+◌, ◌*◌, ◌<◌, ◌≤◌, ◌↔◌, length, slice_index, bit_and, bit_or};
ghost use Rattle.calculus_table.specs.Rel.{Has, IsWithin};
ghost use Rattle.calculus_table.specs.Calculus.{IsCalculus};
ghost use Rattle.calculus_table.specs.Composition.{full_of};
ghost use Rattle.compose_fast.specs.Lanes.{HasLanes};
ghost use Rattle.compose_fast.specs.Nibbles.{byte, composition_at};
ghost use Rattle.compose_fast.specs.Planes.{IsTableOf, along_at, IsWithinAlong};

use crate::members::without;
use crate::nibbles::{composition_at, place_of};
use crate::room::filled;
use crate::vectors::{along, both, differing, either, load, store};
use calculus_table::{Compose, Memory, Rel, lawful};
use std::alloc::Global;
use std::marker::Model;
use std::simd::prelude::*;

/// Where the tables of all sets within the first eight base relations begin, after those of 64 base relations.
const SETS: usize = 131_072;

/// The tables of the base relations of a calculus, with those of all sets for one plane, and those of one set.
#[derive(Debug, Drop)]
pub struct Tables {
    bases: Vec<u8>,
    set: Vec<u8>,
}

impl Model for Tables {
    ghost use Rattle.std.specs.Prelude.{◌≡◌, length};
    ghost use Rattle.compose_fast.specs.Planes.{SetTables};

    ghost Value = { SetTables };

    ghost view = { λ a. record { bases = a.bases.items; set = a.set.items } };

    ghost invariant = { λ a. (length a.bases.items ≡ 139264) × (length a.set.items ≡ 2048) };
}

/// Writes the bytes of a set, byte `p` at `at + 256 p`.
#[inline(always)]
pub fn put_set<const P: usize>(bytes: &mut [u8], at: usize, a: Rel)
    requires few { P ≤ 8 }
    requires inside { at + 256 * P ≤ length bytes.old + 255 }
    ensures here { (p : ℕ) → p < P → slice_index bytes.new (256 * p + at) ≡ byte a p }
    ensures elsewhere { (e : ℕ) → ((p : ℕ) → p < P → e ≢ 256 * p + at)
        → slice_index bytes.new e ≡ slice_index bytes.old e }
{
    for p in 0..P {
        bytes[256 * p + at] = (a.word() >> (8 * p) & 255) as u8;
    }
}

/// Clears the 16-byte blocks of plane `p`.
fn clear_plane<const P: usize>(set: &mut [u8], p: usize)
    requires few { P ≤ 8 }
    requires plane { p < P }
    requires length_is { length set.old ≡ 2048 }
    ensures here { (d : ℕ) → d < 32 * P → slice_index set.new (256 * p + d) ≡ 0 }
    ensures before { (e : ℕ) → e < 256 * p → slice_index set.new e ≡ slice_index set.old e }
{
    for u in 0..2 * P {
        store(set, 256 * p + 16 * u, u8x16::splat(0));
    }
}

/// Clears the table of a set.
fn clear<const P: usize>(set: &mut [u8])
    requires few { P ≤ 8 }
    requires length_is { length set.old ≡ 2048 }
    ensures { (p d : ℕ) → p < P → d < 32 * P → slice_index set.new (256 * p + d) ≡ 0 }
{
    for p in 0..P {
        clear_plane::<P>(set, p);
    }
}

/// Adds plane `p` of the table of base relation `r`.
#[inline(always)]
fn add_plane<const P: usize>(set: &mut [u8], bases: &[u8], r: usize, p: usize)
    requires few { P ≤ 8 }
    requires base { r < 64 }
    requires plane { p < P }
    requires length_is { length set.old ≡ 2048 }
    requires bases_length { length bases.now ≡ 139264 }
    ensures here { (d : ℕ) → d < 32 * P →
        slice_index set.new (256 * p + d)
        ≡ bit_or (slice_index set.old (256 * p + d)) (slice_index bases.now (2048 * r + 256 * p + d)) }
    ensures before { (e : ℕ) → e < 256 * p → slice_index set.new e ≡ slice_index set.old e }
    ensures after { (e : ℕ) → 256 * p + 32 * P ≤ e → slice_index set.new e ≡ slice_index set.old e }
{
    for u in 0..2 * P {
        let at = 256 * p + 16 * u;
        let sum = either(load(set, at), load(bases, 2048 * r + at));
        store(set, at, sum);
    }
}

/// Adds the table of base relation `r`.
#[inline(always)]
fn add_base<const P: usize>(set: &mut [u8], bases: &[u8], r: usize)
    requires few { P ≤ 8 }
    requires base { r < 64 }
    requires length_is { length set.old ≡ 2048 }
    requires bases_length { length bases.now ≡ 139264 }
    ensures { (p d : ℕ) → p < P → d < 32 * P →
        slice_index set.new (256 * p + d)
        ≡ bit_or (slice_index set.old (256 * p + d)) (slice_index bases.now (2048 * r + 256 * p + d)) }
{
    for p in 0..P {
        add_plane::<P>(set, bases, r, p);
    }
}

/// Clears the table of 32 bytes from place `at` on.
fn clear_table(bases: &mut [u8], at: usize)
    requires { at + 32 ≤ length bases.old }
    ensures length_is { length bases.new ≡ length bases.old }
    ensures here { (d : ℕ) → d < 32 → slice_index bases.new (at + d) ≡ 0 }
    ensures before { (e : ℕ) → e < at → slice_index bases.new e ≡ slice_index bases.old e }
{
    store(bases, at, u8x16::splat(0));
    store(bases, at + 16, u8x16::splat(0));
}

/// Writes the table at `at`: the union of the one before it at `rest` and the one before it at `base`.
#[inline(always)]
fn join_tables(bases: &mut [u8], at: usize, rest: usize, base: usize)
    requires inside { at + 32 ≤ length bases.old }
    requires first { rest + 32 ≤ at }
    requires second { base + 32 ≤ at }
    ensures length_is { length bases.new ≡ length bases.old }
    ensures here { (d : ℕ) → d < 32 → slice_index bases.new (at + d)
        ≡ bit_or (slice_index bases.old (rest + d)) (slice_index bases.old (base + d)) }
    ensures before { (e : ℕ) → e < at → slice_index bases.new e ≡ slice_index bases.old e }
{
    let low = either(load(bases, rest), load(bases, base));
    let high = either(load(bases, rest + 16), load(bases, base + 16));
    store(bases, at, low);
    store(bases, at + 16, high);
}

/// Makes the tables of all sets within the first eight base relations, for one plane: each from that of the set without
/// its least member.
fn fill_sets<C: Compose>(bases: &mut [u8], c: &C)
    requires length_is { length bases.old ≡ 139264 }
    requires calculus { IsCalculus (C.algebra c.now) }
    requires bases { (r d : ℕ) → r < (C.algebra c.now).size → d < 32 →
        slice_index bases.old (2048 * r + d) ≡ byte (composition_at (C.algebra c.now) r d) 0 }
    ensures length_is { length bases.new ≡ length bases.old }
    ensures before { (e : ℕ) → e < 131072 → slice_index bases.new e ≡ slice_index bases.old e }
    ensures sets { (a : ℕ) → a < 256 → IsWithin a (full_of (C.algebra c.now)) →
        IsTableOf (C.algebra c.now) a bases.new (131072 + 32 * a) }
{
    let _calculus = c;
    clear_table(bases, SETS);
    for a in 1..256 {
        let set = Rel::of(a);
        let r = set.least();
        let rest = without(set, r);
        join_tables(
            bases,
            SETS + 32 * a as usize,
            SETS + 32 * rest.word() as usize,
            2048 * r as usize,
        );
    }
}

/// Copies the table of 32 bytes from place `at` on to the beginning.
#[inline(always)]
fn copy_table(set: &mut [u8], bases: &[u8], at: usize)
    requires inside { at + 32 ≤ length bases.now }
    requires room { 32 ≤ length set.old }
    ensures length_is { length set.new ≡ length set.old }
    ensures here { (d : ℕ) → d < 32 → slice_index set.new d ≡ slice_index bases.now (at + d) }
{
    let low = load(bases, at);
    let high = load(bases, at + 16);
    store(set, 0, low);
    store(set, 16, high);
}

/// Plane `p` of what the tables of a set give for the 16 sets from place `at` on.
#[inline(always)]
fn along_plane<const P: usize>(set: &[u8], bytes: &[u8], p: usize, at: usize) -> u8x16
    requires few { P ≤ 8 }
    requires plane { p < P }
    requires inside { at + 256 * P ≤ length bytes.now + 240 }
    requires set_length { length set.now ≡ 2048 }
    ensures { HasLanes 16 result (λ k. along_at set.now bytes.now P p (at + k)) }
{
    let mut all = u8x16::splat(0);
    for q in 0..P {
        let table = 256 * p + 32 * q;
        let low = load(set, table);
        let high = load(set, table + 16);
        all = either(all, along(low, high, load(bytes, 256 * q + at)));
    }
    all
}

/// A bit for each of the 16 sets from place `here` on that isn't within what the tables of a set give for the one as
/// far from `there` on.
#[inline(always)]
fn open_lanes<const P: usize>(set: &[u8], bytes: &[u8], here: usize, there: usize) -> u64
    requires few { P ≤ 8 }
    requires inside { here + 256 * P ≤ length bytes.now + 240 }
    requires inside_too { there + 256 * P ≤ length bytes.now + 240 }
    requires set_length { length set.now ≡ 2048 }
    ensures clear { (k : ℕ) → k < 16 → ¬ Has result k → IsWithinAlong set.now bytes.now P (here + k) (there + k) }
    ensures gap { (k : ℕ) → k < 16 → Has result k → ¬ IsWithinAlong set.now bytes.now P (here + k) (there + k) }
    ensures below { (k : ℕ) → Has result k → k < 16 }
{
    let mut gaps = 0;
    for p in 0..P {
        let v = load(bytes, 256 * p + here);
        gaps |= differing(both(v, along_plane::<P>(set, bytes, p, there)), v);
    }
    gaps
}

/// The tables of one set in one plane, to be held in two registers: what it gives composed with each lower nibble of a
/// set, and with each upper one.
#[derive(Drop)]
pub struct SetTable {
    low: u8x16,
    high: u8x16,
}

impl Model for SetTable {
    ghost use Rattle.std.specs.Prelude.{◌≡◌, ℕ, ◌++◌, List, length};

    ghost Value = { List ℕ };

    ghost view = { λ a. a.low ++ a.high };

    ghost invariant = { λ a. (length a.low ≡ 16) × (length a.high ≡ 16) };
}

impl SetTable {
    ghost use Rattle.std.specs.Prelude.{◌≡◌, ℕ, ◌+◌, ◌<◌, ◌≤◌, length};
    ghost use Rattle.calculus_table.specs.Rel.{Has};
    ghost use Rattle.compose_fast.specs.Planes.{IsWithinAlong};

    /// A bit for each of the 16 sets from place `here` on that isn't within the composition of the table's set with the
    /// one as far from `there` on.
    #[inline(always)]
    pub fn open_lanes(&self, bytes: &[u8], here: usize, there: usize) -> u64
        requires inside { here + 16 ≤ length bytes.now }
        requires inside_too { there + 16 ≤ length bytes.now }
        ensures clear { (k : ℕ) → k < 16 → ¬ Has result k → IsWithinAlong self.now bytes.now 1 (here + k) (there + k) }
        ensures gap { (k : ℕ) → k < 16 → Has result k → ¬ IsWithinAlong self.now bytes.now 1 (here + k) (there + k) }
        ensures below { (k : ℕ) → Has result k → k < 16 }
    {
        let v = load(bytes, here);
        let composed = along(self.low, self.high, load(bytes, there));
        differing(both(v, composed), v)
    }
}

impl Tables {
    ghost use Rattle.std.specs.Prelude.{◌≡◌, ℕ, ◌+◌, ◌*◌, ◌<◌, ◌≤◌, length, slice_index};
    ghost use Rattle.calculus_table.specs.Rel.{Has, IsWithin};
    ghost use Rattle.calculus_table.specs.Calculus.{IsCalculus};
    ghost use Rattle.calculus_table.specs.Composition.{full_of, composition};
    ghost use Rattle.compose_fast.specs.Nibbles.{byte};
    ghost use Rattle.compose_fast.specs.Planes.{AreBaseTables, AreTablesOf, IsWithinAlong};

    /// Room for the tables of a calculus of any size.
    pub fn new(alloc: Global) -> Result<Tables, Memory> {
        let bases = filled(alloc, 0, 544)?;
        let set = filled(alloc, 0, 8)?;
        Ok(Tables { bases, set })
    }

    /// Makes the tables of the base relations of `c`, and for one plane those of all sets.
    pub fn fill<C: Compose, const P: usize>(&mut self, c: &C)
        requires few { P ≤ 8 }
        ensures { AreBaseTables (C.algebra c.now) P self.new.bases }
    {
        lawful(c);
        let size = c.size();
        let bases = self.bases.as_mut_slice();
        for e in 0..256 * size {
            let r = e / 256;
            let d = e % 256;
            if (d as usize) < 32 * P {
                put_set::<P>(bases, (2048 * r + d) as usize, composition_at(c, r, d));
            }
        }
        if P == 1 {
            fill_sets(bases, c);
        }
    }

    /// The tables of all sets within the first eight base relations, one after another.
    pub(crate) fn sets(&self) -> &[u8]
        ensures length_is { length result.now ≡ 8192 }
        ensures each { (e : ℕ) → e < 8192 → slice_index result.now e ≡ slice_index self.now.bases (131072 + e) }
    {
        let (_bases, sets) = self.bases.split_at(SETS);
        sets
    }

    /// The tables of the set `a` in one plane.
    #[inline(always)]
    pub fn table_of<C: Compose>(&self, c: &C, a: Rel) -> SetTable
        requires enough { (C.algebra c.now).size ≤ 8 }
        requires within { IsWithin a (full_of (C.algebra c.now)) }
        requires bases { AreBaseTables (C.algebra c.now) 1 self.now.bases }
        ensures { AreTablesOf (C.algebra c.now) 1 a result }
    {
        let _calculus = c;
        let at = SETS + 32 * a.word() as usize;
        SetTable {
            low: load(&self.bases, at),
            high: load(&self.bases, at + 16),
        }
    }

    /// Makes the tables of the set `a`.
    #[inline(always)]
    pub fn take<C: Compose, const P: usize>(&mut self, c: &C, a: Rel)
        requires few { P ≤ 8 }
        requires within { IsWithin a (full_of (C.algebra c.now)) }
        requires bases { AreBaseTables (C.algebra c.now) P self.old.bases }
        ensures set { AreTablesOf (C.algebra c.now) P a self.new.set }
        ensures bases { self.new.bases ≡ self.old.bases }
    {
        lawful(c);
        let bases = self.bases.as_slice();
        let set = self.set.as_mut_slice();
        if P == 1 && a.word() < 256 {
            copy_table(set, bases, SETS + 32 * a.word() as usize);
            return;
        }
        clear::<P>(set);
        let mut left = a;
        while !left.is_empty() {
            let r = left.least();
            add_base::<P>(set, bases, r as usize);
            left = without(left, r);
        }
    }

    /// Byte `p` of the composition of the taken set `a` with `b`: the union of what the nibbles of `b` give.
    #[inline(always)]
    fn compose_byte<C: Compose, const P: usize>(&self, c: &C, a: Rel, b: Rel, p: usize) -> u8
        requires few { P ≤ 8 }
        requires plane { p < P }
        requires enough { (C.algebra c.now).size ≤ 8 * P }
        requires tables { AreTablesOf (C.algebra c.now) P a self.now.set }
        requires within { IsWithin b (full_of (C.algebra c.now)) }
        ensures { result ≡ byte (composition (C.algebra c.now) a b) p }
    {
        lawful(c);
        let mut all = 0;
        let mut rest = b.word();
        for h in 0..2 * P {
            all |= self.set[256 * p + place_of(rest, h as u32) as usize];
            rest >>= 4;
        }
        all
    }

    /// The composition of the taken set `a` with `b`.
    #[inline(always)]
    pub fn compose<C: Compose, const P: usize>(&self, c: &C, a: Rel, b: Rel) -> Rel
        requires few { P ≤ 8 }
        requires enough { (C.algebra c.now).size ≤ 8 * P }
        requires tables { AreTablesOf (C.algebra c.now) P a self.now.set }
        requires within { IsWithin b (full_of (C.algebra c.now)) }
        ensures { result ≡ composition (C.algebra c.now) a b }
    {
        lawful(c);
        let mut all = Rel::EMPTY;
        for p in 0..P {
            let byte = u64::from(self.compose_byte::<C, P>(c, a, b, p));
            all = all.union(Rel::of(byte << (8 * p)));
        }
        all
    }

    /// A bit for each of the 16 sets from place `here` on that isn't within the composition of the taken set with the
    /// one as far from `there` on, byte by byte.
    #[inline(always)]
    pub fn open_lanes<const P: usize>(&self, bytes: &[u8], here: usize, there: usize) -> u64
        requires few { P ≤ 8 }
        requires inside { here + 256 * P ≤ length bytes.now + 240 }
        requires inside_too { there + 256 * P ≤ length bytes.now + 240 }
        ensures clear { (k : ℕ) → k < 16 → ¬ Has result k
            → IsWithinAlong self.now.set bytes.now P (here + k) (there + k) }
        ensures gap { (k : ℕ) → k < 16 → Has result k
            → ¬ IsWithinAlong self.now.set bytes.now P (here + k) (there + k) }
        ensures below { (k : ℕ) → Has result k → k < 16 }
    {
        open_lanes::<P>(&self.set, bytes, here, there)
    }
}
