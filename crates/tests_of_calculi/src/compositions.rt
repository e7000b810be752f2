//! Fast compositions, which are those of the plain calculus.
ghost use Rattle.std.specs.Prelude.{◌≡◌, ℕ, ◌<◌, ◌≤◌, length, slice_index, IsTrue, IfOk};
ghost use Rattle.calculus_table.specs.Rel.{IsWithin};

use crate::asserts::assert_same;
use crate::calculi::{composed, turned};
use calculus_builtin::{allen, rcc8};
use calculus_table::{Calculus, Compose, Memory, Rel, TableFault};
use compose_fast::{Fast, Tables, first_difference, first_zero, or_rows, put_set};
use std::alloc::Global;
use std::process::Abort;
use std::test::Fail;

/// A linear congruential generator.
#[derive(Drop)]
struct Random {
    state: u64,
}

impl Random {
    /// The next word.
    fn next(&mut self) -> u64 {
        self.state = self
            .state
            .wrapping_mul(6_364_136_223_846_793_005)
            .wrapping_add(1_442_695_040_888_963_407);
        self.state ^ (self.state >> 32)
    }
}

/// Asserts that both compose and convert alike, on these sets as far as they have base relations.
fn assert_alike(rt: &impl Abort, plain: &Calculus, fast: &Fast, a: u64, b: u64) {
    let a = Rel::of(a).meet(plain.full());
    let b = Rel::of(b).meet(plain.full());
    assert_same(rt, composed(rt, fast, a, b), composed(rt, plain, a, b));
    assert_same(rt, turned(rt, fast, a), turned(rt, plain, a));
}

/// Two sets, and their composition.
const COMPOSITIONS: [(u64, u64, u64); 4] = [(8, 64, 103), (24, 2, 3), (0, 255, 0), (128, 90, 90)];

#[test]
fn composes_sets_of_regions_by_the_table(rt: HostRuntime) -> Result<(), Fail> {
    let fast = Fast::new(rt.alloc(), &rcc8(rt.alloc())?)?;
    for (a, b, expected) in COMPOSITIONS {
        let found = composed(&rt, &fast, Rel::of(a), Rel::of(b));
        assert_same(&rt, found.word(), expected);
    }
    assert_same(&rt, (fast.size(), fast.identity()), (8, 7));
    Ok(())
}

/// Asserts that a set composes alike with each set of eight base relations.
fn are_alike_from(rt: &impl Abort, plain: &Calculus, fast: &Fast, a: u64) {
    for b in 0..256 {
        assert_alike(rt, plain, fast, a, b);
    }
}

#[test]
fn composes_regions_like_the_plain_calculus(rt: HostRuntime) -> Result<(), Fail> {
    let plain = rcc8(rt.alloc())?;
    let fast = Fast::new(rt.alloc(), &plain)?;
    for a in 0..256 {
        are_alike_from(&rt, &plain, &fast, a);
    }
    Ok(())
}

#[test]
fn composes_intervals_like_the_plain_calculus(rt: HostRuntime) -> Result<(), Fail> {
    let plain = allen(rt.alloc())?;
    let fast = Fast::of(rt.alloc(), &Fast::new(rt.alloc(), &plain)?)?;
    let mut random = Random { state: 5 };
    for _ in 0..4000 {
        assert_alike(&rt, &plain, &fast, random.next(), random.next());
    }
    Ok(())
}

/// The composition of two base relations.
fn compose_bases(rt: &impl Abort, c: &Calculus, r: u32, s: u32) -> Rel {
    assert!(rt; r < 64 && s < 64);
    composed(rt, c, Rel::single(r), Rel::single(s))
}

/// The entry at place `e` of the table of the product of a calculus of eight base relations with itself, whose base
/// relation `8 r + s` is the pair `(r, s)`.
fn product_entry(rt: &impl Abort, c: &Calculus, e: u32) -> Rel {
    let (a, b) = (e / 64 % 64, e % 64);
    let first = compose_bases(rt, c, a / 8, b / 8);
    let second = compose_bases(rt, c, a % 8, b % 8);
    let mut word = 0;
    for r in 0..8 {
        if first.has(r) {
            word |= second.word() << (8 * r);
        }
    }
    Rel::of(word)
}

/// The table of the product of a calculus of eight base relations with itself.
fn product_table(rt: &impl Abort, alloc: Global, c: &Calculus) -> Result<Vec<Rel>, Fail> {
    let mut table = Vec::new(alloc);
    for e in 0..4096 {
        table.push(product_entry(rt, c, e))?;
    }
    Ok(table)
}

/// The converse of a base relation, one of the first eight.
fn converse_of(rt: &impl Abort, c: &Calculus, r: u32) -> u32
    ensures { result < 8 }
{
    assert!(rt; r < 64);
    let converse = turned(rt, c, Rel::single(r));
    assert!(rt; !converse.is_empty());
    converse.least() % 8
}

/// The converses of the product of a calculus of eight base relations with itself.
fn product_converses(rt: &impl Abort, alloc: Global, c: &Calculus) -> Result<Vec<u32>, Fail> {
    let mut converses = Vec::new(alloc);
    for r in 0..64 {
        converses.push(8 * converse_of(rt, c, r / 8) + converse_of(rt, c, r % 8))?;
    }
    Ok(converses)
}

/// 64 names that differ.
fn product_names(alloc: Global) -> Result<Vec<String>, Memory>
    ensures { IfOk result (λ names. length names.items ≡ 64) }
{
    let mut names = Vec::new(alloc);
    for r in 0..64u32 {
        let name = format!(in alloc; "{r}").map_err(|_| Memory)?;
        names.push(name).map_err(|_| Memory)?;
    }
    Ok(names)
}

/// Whether each is a base relation.
fn are_bases(converses: &[u32]) -> bool
    ensures { IsTrue result → (r : ℕ) → r < length converses.now → slice_index converses.now r < 64 }
{
    for r in converses {
        if *r >= 64 {
            return false;
        }
    }
    true
}

/// Whether each is a set of 64 base relations.
fn are_sets(table: &[Rel]) -> bool
    ensures { IsTrue result → (e : ℕ) → e < length table.now →
        IsWithin (slice_index table.now e) 18446744073709551615 }
{
    for set in table {
        if !set.within(Rel::of(u64::MAX)) {
            return false;
        }
    }
    true
}

/// The product of RCC-8 with itself: 64 pairs of relations.
fn product(rt: &impl Abort, alloc: Global) -> Result<Calculus, Fail> {
    let c = rcc8(alloc)?;
    let converses = product_converses(rt, alloc, &c)?;
    let table = product_table(rt, alloc, &c)?;
    let names = product_names(alloc)?;
    Ok(calculus_of(rt, alloc, names, &converses, &table)?)
}

/// The calculus of 64 base relations of these lists, of which the last is the identity.
fn calculus_of(
    rt: &impl Abort,
    alloc: Global,
    names: Vec<String>,
    converses: &[u32],
    table: &[Rel],
) -> Result<Calculus, TableFault>
    requires { length names.items ≡ 64 }
{
    assert!(rt; converses.len() == 64 && table.len() == 4096);
    assert!(rt; are_bases(converses) && are_sets(table));
    Calculus::new(alloc, names, 63, converses, table)
}

/// Asserts that both compose alike two drawn sets, and two of fewer base relations.
fn are_alike_here(rt: &impl Abort, plain: &Calculus, fast: &Fast, random: &mut Random) {
    let (a, b) = (random.next(), random.next());
    assert_alike(rt, plain, fast, a, b);
    let few = a & random.next() & random.next();
    assert_alike(rt, plain, fast, few, b & random.next());
}

#[test]
fn composes_64_base_relations_like_the_plain_calculus(rt: HostRuntime) -> Result<(), Fail> {
    let plain = product(&rt, rt.alloc())?;
    let fast = Fast::new(rt.alloc(), &plain)?;
    let mut random = Random { state: 7 };
    for _ in 0..2000 {
        are_alike_here(&rt, &plain, &fast, &mut random);
    }
    Ok(())
}

/// Draws two sets and writes them to this lane of the planes: whether the first is within the composition of `a` with
/// the second.
fn draws_within<const P: usize>(
    rt: &impl Abort,
    plain: &Calculus,
    a: Rel,
    random: &mut Random,
    planes: &mut [u8],
    lane: usize,
) -> bool
    requires few { P ≤ 8 }
    requires lane { lane < 16 }
    requires enough { length planes.old ≡ 4096 }
{
    let here = Rel::of(random.next() & random.next()).meet(plain.full());
    let there = Rel::of(random.next() & random.next()).meet(plain.full());
    put_set::<P>(planes, lane, here);
    put_set::<P>(planes, 256 * P + lane, there);
    here.within(composed(rt, plain, a, there))
}

/// Draws the sets of 16 lanes, and returns those whose first set isn't within the composition.
fn draw_lanes<const P: usize>(
    rt: &impl Abort,
    plain: &Calculus,
    a: Rel,
    random: &mut Random,
    planes: &mut [u8],
) -> u64
    requires few { P ≤ 8 }
    requires enough { length planes.old ≡ 4096 }
{
    let mut open = 0;
    for lane in 0..16u32 {
        if !draws_within::<P>(rt, plain, a, random, planes, lane as usize) {
            open |= 1 << lane;
        }
    }
    open
}

/// Asserts that the lanes that are clear are those whose set is within the composition of `a` with the other one.
fn assert_lanes<const P: usize>(
    rt: &impl Abort,
    alloc: Global,
    plain: &Calculus,
    random: &mut Random,
) -> Result<(), Memory> {
    assert!(rt; P <= 8);
    let a = Rel::of(random.next() | random.next()).meet(plain.full());
    let mut planes = [0; 4096];
    let wanted = draw_lanes::<P>(rt, plain, a, random, &mut planes);
    let mut tables = Tables::new(alloc)?;
    tables.fill::<Calculus, P>(plain);
    assert!(rt; a.within(plain.full()));
    tables.take::<Calculus, P>(plain, a);
    assert_same(rt, tables.open_lanes::<P>(&planes, 0, 256 * P), wanted);
    Ok(())
}

#[test]
fn finds_the_lanes_that_are_open(rt: HostRuntime) -> Result<(), Fail> {
    let regions = rcc8(rt.alloc())?;
    let intervals = allen(rt.alloc())?;
    let mut random = Random { state: 9 };
    for _ in 0..200 {
        assert_lanes::<1>(&rt, rt.alloc(), &regions, &mut random)?;
        assert_lanes::<2>(&rt, rt.alloc(), &intervals, &mut random)?;
        assert_lanes::<4>(&rt, rt.alloc(), &intervals, &mut random)?;
        assert_lanes::<8>(&rt, rt.alloc(), &intervals, &mut random)?;
    }
    Ok(())
}

/// The union of the rows whose bits the mask has.
fn union_of(rows: &[u64], mask: u64) -> u64 {
    let mut all = 0;
    for (r, row) in rows.iter().enumerate() {
        if mask >> (r % 64) & 1 == 1 {
            all |= *row;
        }
    }
    all
}

/// 64 words with few bits.
fn random_rows(alloc: Global, random: &mut Random) -> Result<Vec<u64>, Fail> {
    let mut rows = Vec::new(alloc);
    for _ in 0..64 {
        let more = random.next() & random.next();
        rows.push(random.next() & random.next() & more)?;
    }
    Ok(rows)
}

#[test]
fn joins_few_rows(rt: HostRuntime) {
    assert_same(&rt, or_rows(&[1, 2, 4, 8], 10), 10);
    assert_same(&rt, or_rows(&[], 0), 0);
}

#[test]
fn joins_rows(rt: HostRuntime) -> Result<(), Fail> {
    let mut random = Random { state: 3 };
    let rows = random_rows(rt.alloc(), &mut random)?;
    for length in 0..=64usize {
        let mask = random.next();
        let some = rows.get(..length).ok_or("rows")?;
        assert!(rt; some.len() <= 64);
        assert_same(&rt, or_rows(some, mask), union_of(some, mask));
    }
    Ok(())
}

#[test]
fn finds_the_first_difference_and_the_first_zero(rt: HostRuntime) {
    let found = first_difference(&[1, 2, 3, 4, 5], &[1, 2, 3, 4, 6]);
    assert_same(&rt, found, Some(4));
    assert_same(&rt, first_difference(&[], &[]), None);
    assert_same(&rt, first_zero(&[3, 0, 0]), Some(1));
}

const ONES: [u64; 67] = [1; 67];

#[test]
fn ones_have_no_difference_and_no_zero(rt: HostRuntime) -> Result<(), Fail> {
    for length in 0..=67usize {
        let ones = ONES.get(..length).ok_or("ones")?;
        assert_same(&rt, first_difference(ones, ones), None);
        assert_same(&rt, first_zero(ones), None);
    }
    Ok(())
}

/// Asserts that a zero at this place among so many ones is found.
fn finds_the_zero(rt: &impl Abort, length: usize, at: usize) {
    assert!(rt; length <= 67 && at < length);
    let mut other = ONES;
    other[at] = 0;
    other[66] = 0;
    let (changed, plain) = (&other[..length], &ONES[..length]);
    assert_same(rt, first_difference(changed, plain), Some(at));
    assert_same(rt, first_zero(changed), Some(at));
}

/// Asserts that a zero at any place among so many ones is found.
fn finds_each_zero(rt: &impl Abort, length: usize) {
    for at in 0..length {
        finds_the_zero(rt, length, at);
    }
}

#[test]
fn finds_the_first_of_two_zeros(rt: HostRuntime) {
    for length in 0..=67usize {
        finds_each_zero(&rt, length);
    }
}
