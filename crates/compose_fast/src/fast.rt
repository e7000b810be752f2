//! A calculus that composes and converts sets a nibble at a time.
//!
//! The composition of `a` and `b` is the union, over the members `r` of `a`, of what `r` gives composed with `b`;
//! that is the union of what it gives with each nibble of `b`, an entry of a table. So a composition costs two
//! look-ups for each member of `a` and each eight base relations of the calculus, and a converse two look-ups for
//! each eight. The tables have 16 entries for each nibble: 2 KiB for a base relation. Where there are no more than
//! eight base relations each set has such a table, of a byte an entry, and a composition costs two look-ups.

ghost use Rattle.std.specs.Prelude.{◌≡◌, ℕ, ◌+◌, ◌*◌, ◌/◌, ◌%◌, ◌<◌, ◌≤◌, length, slice_index, IfOk};
ghost use Rattle.calculus_table.specs.Algebra.{converse_at};
ghost use Rattle.compose_fast.specs.Nibbles.{row_entry, converse_of_place};
ghost use Rattle.compose_fast.specs.FastTables.{AreSetTables};

use crate::members::without;
use crate::nibbles::{composition_at, converse_of_place, place_of};
use crate::room::copied;
use crate::tables::Tables;
use calculus_table::{Calculus, Compose, Memory, Rel, lawful};
use std::alloc::Global;
use std::marker::Model;

/// A calculus with tables for composition and converse, and without the names of its base relations.
#[derive(Debug, Drop)]
pub struct Fast {
    size: u32,
    identity: u32,
    full: Rel,
    nibbles: u32,
    converses: Vec<u32>,
    entries: Vec<Rel>,
    rows: Vec<Rel>,
    places: Vec<Rel>,
    sets: Vec<u8>,
}

impl Model for Fast {
    ghost use Rattle.std.specs.Prelude.{◌≡◌};
    ghost use Rattle.calculus_table.specs.Algebra.{Algebra};
    ghost use Rattle.calculus_table.specs.Composition.{full_of};
    ghost use Rattle.compose_fast.specs.FastTables.{AreFastTables};

    ghost Value = { Algebra };

    ghost view = { λ a. record {
      size = a.size;
      identity = a.identity;
      converses = a.converses.items;
      table = a.entries.items;
    } };

    ghost invariant = { λ a. AreFastTables
        (record { size = a.size; identity = a.identity; converses = a.converses.items; table = a.entries.items })
        a.full a.nibbles a.rows.items a.places.items a.sets.items };
}

/// The converse of a base relation.
fn converse_at<C: Compose>(c: &C, r: u32) -> u32
    requires { r < (C.algebra c.now).size }
    ensures { result ≡ converse_at (C.algebra c.now) r }
{
    lawful(c);
    let converse = c.converse(Rel::single(r));
    converse.least()
}

/// The converses of the base relations.
fn converses_of<C: Compose>(alloc: Global, c: &C) -> Result<Vec<u32>, Memory>
    ensures { IfOk result (λ converses. converses.items ≡ (C.algebra c.now).converses) }
{
    lawful(c);
    let size = c.size();
    let mut converses = Vec::new(alloc);
    for r in 0..size {
        converses.push(converse_at(c, r)).map_err(|_| Memory)?;
    }
    Ok(converses)
}

/// The composition of two base relations, at its place in the table.
fn entry_at<C: Compose>(c: &C, e: u32) -> Rel
    requires { e < (C.algebra c.now).size * (C.algebra c.now).size }
    ensures { result ≡ slice_index (C.algebra c.now).table e }
{
    lawful(c);
    let size = c.size();
    c.compose(Rel::single(e / size), Rel::single(e % size))
}

/// The compositions of the base relations.
fn entries_of<C: Compose>(alloc: Global, c: &C) -> Result<Vec<Rel>, Memory>
    ensures { IfOk result (λ entries. entries.items ≡ (C.algebra c.now).table) }
{
    lawful(c);
    let size = c.size();
    let mut entries = Vec::new(alloc);
    for e in 0..size * size {
        entries.push(entry_at(c, e)).map_err(|_| Memory)?;
    }
    Ok(entries)
}

/// The composition of a base relation with the set of a place, at its place among the rows.
fn row_entry<C: Compose>(c: &C, e: u32) -> Rel
    requires { e < 256 * (C.algebra c.now).size }
    ensures { result ≡ row_entry (C.algebra c.now) e }
{
    lawful(c);
    composition_at(c, e / 256, e % 256)
}

/// The compositions of each base relation with the sets of the places.
fn rows_of<C: Compose>(alloc: Global, c: &C) -> Result<Vec<Rel>, Memory>
    ensures length_is { IfOk result (λ rows. length rows.items ≡ 256 * (C.algebra c.now).size) }
    ensures each { IfOk result (λ rows. (e : ℕ) → e < 256 * (C.algebra c.now).size →
        slice_index rows.items e ≡ row_entry (C.algebra c.now) e) }
{
    lawful(c);
    let size = c.size();
    let mut rows = Vec::new(alloc);
    for e in 0..256 * size {
        rows.push(row_entry(c, e)).map_err(|_| Memory)?;
    }
    Ok(rows)
}

/// The converses of the sets of the places.
fn converses_of_places<C: Compose>(alloc: Global, c: &C) -> Result<Vec<Rel>, Memory>
    ensures length_is { IfOk result (λ places. length places.items ≡ 256) }
    ensures each { IfOk result (λ places.
        (d : ℕ) → d < 256 → slice_index places.items d ≡ converse_of_place (C.algebra c.now) d) }
{
    let mut places = Vec::new(alloc);
    for d in 0..256 {
        places.push(converse_of_place(c, d)).map_err(|_| Memory)?;
    }
    Ok(places)
}

/// The tables of all sets, where there are no more than eight base relations.
fn sets_of<C: Compose>(alloc: Global, c: &C) -> Result<Vec<u8>, Memory>
    ensures { IfOk result (λ sets. AreSetTables (C.algebra c.now) sets.items) }
{
    if c.size() > 8 {
        return Ok(Vec::new(alloc));
    }
    let mut tables = Tables::new(alloc)?;
    tables.fill::<C, 1>(c);
    copied(alloc, tables.sets())
}

impl Fast {
    ghost use Rattle.std.specs.Prelude.{◌≡◌, ℕ, ◌+◌, ◌*◌, ◌<◌, IfOk};
    ghost use Rattle.calculus_table.specs.Rel.{IsWithin};
    ghost use Rattle.calculus_table.specs.Calculus.{IsCalculus};
    ghost use Rattle.compose_fast.specs.Nibbles.{nibble, converse_of_place};
    ghost use Rattle.calculus_table.specs.Composition.{full_of, row_composition, composition, converse};

    /// The tables of a calculus. What they mean is what the calculus means, without its names.
    pub fn new(alloc: Global, c: &Calculus) -> Result<Fast, Memory>
        ensures { IfOk result (λ fast. fast ≡ c.now.algebra) }
    {
        Fast::of(alloc, c)
    }

    /// The tables of what any value that composes means.
    pub fn of<C: Compose>(alloc: Global, c: &C) -> Result<Fast, Memory>
        ensures { IfOk result (λ fast. fast ≡ C.algebra c.now) }
    {
        lawful(c);
        let converses = converses_of(alloc, c)?;
        let entries = entries_of(alloc, c)?;
        let rows = rows_of(alloc, c)?;
        let places = converses_of_places(alloc, c)?;
        let sets = sets_of(alloc, c)?;
        let size = c.size();
        Ok(Fast {
            size,
            identity: c.identity(),
            full: c.full(),
            nibbles: (size + 3) / 4,
            converses,
            entries,
            rows,
            places,
            sets,
        })
    }

    /// The composition of the base relation `r` with a set.
    #[inline(always)]
    fn compose_base(&self, r: u32, b: Rel) -> Rel
        requires base { r < self.now.size }
        requires within { IsWithin b (full_of self.now) }
        ensures { result ≡ row_composition self.now r b }
    {
        let mut all = Rel::EMPTY;
        let mut rest = b.word();
        for h in 0..self.nibbles {
            all = all.union(self.rows[(256 * r + place_of(rest, h)) as usize]);
            rest >>= 4;
        }
        all
    }

    /// The composition of `a` and `b` by the table of `a`, where there are no more than eight base relations.
    #[inline(always)]
    fn compose_by_table(&self, a: Rel, b: Rel) -> Rel
        requires few { self.now.size ≤ 8 }
        requires first { IsWithin a (full_of self.now) }
        requires second { IsWithin b (full_of self.now) }
        ensures { result ≡ composition self.now a b }
    {
        let _ = &self.size;
        let table = 32 * a.word() as usize;
        let low = self.sets[table + (b.word() & 15) as usize];
        let high = self.sets[table + 16 + (b.word() >> 4) as usize];
        Rel::of(u64::from(low | high))
    }

    /// The union of the compositions of the members of `a` with those of `b`.
    fn compose_sets(&self, a: Rel, b: Rel) -> Rel
        requires first { IsWithin a (full_of self.now) }
        requires second { IsWithin b (full_of self.now) }
        ensures value { result ≡ composition self.now a b }
        ensures calculus { IsCalculus self.now }
    {
        if self.size <= 8 {
            return self.compose_by_table(a, b);
        }
        let mut all = Rel::EMPTY;
        let mut left = a;
        while !left.is_empty() {
            let r = left.least();
            all = all.union(self.compose_base(r, b));
            left = without(left, r);
        }
        all
    }

    /// The converses of the members in nibble `h` of a set.
    #[inline(always)]
    fn converse_of_nibble(&self, a: Rel, h: u32) -> Rel
        requires { h < 16 }
        ensures { result ≡ converse_of_place self.now (16 * h + nibble a h) }
    {
        self.places[place_of(a.word() >> (4 * h), h) as usize]
    }

    /// The set of the converses of the members. Up to eight base relations are in the first two nibbles.
    fn converse_set(&self, a: Rel) -> Rel
        requires { IsWithin a (full_of self.now) }
        ensures value { result ≡ converse self.now a }
        ensures calculus { IsCalculus self.now }
    {
        let low = self.converse_of_nibble(a, 0);
        let mut all = low.union(self.converse_of_nibble(a, 1));
        let mut rest = a.word() >> 8;
        let mut h = 2;
        while rest != 0 {
            all = all.union(self.places[place_of(rest, h) as usize]);
            rest >>= 4;
            h += 1;
        }
        all
    }
}

impl Compose for Fast {
    ghost algebra = { λ f. f };

    fn size(&self) -> u32 {
        self.size
    }

    fn identity(&self) -> u32 {
        self.identity
    }

    fn full(&self) -> Rel {
        self.full
    }

    fn converse(&self, a: Rel) -> Rel {
        self.converse_set(a)
    }

    fn compose(&self, a: Rel, b: Rel) -> Rel {
        self.compose_sets(a, b)
    }
}
