//! Sets as words, and tables of three base relations with the laws that they obey or break.
ghost use Rattle.std.specs.Prelude.{◌≡◌, IsTrue, IfOk, length};
ghost use Rattle.calculus_table.specs.Checked.{has_shape};

use crate::asserts::{assert_same, assert_same_in};
use crate::calculi::{can_be_shared, composed, turned};
use calculus_table::{Calculus, Compose, Rel, TableFault, place_of};
use std::alloc::Global;
use std::test::Fail;

/// Two words, their meet, their union, whether the first is within the second, and the first's count.
const WORDS: [(u64, u64, u64, u64, bool, u32); 6] = [
    (0, 0, 0, 0, true, 0),
    (0, 0b1010, 0, 0b1010, true, 0),
    (0b0110, 0b0011, 0b0010, 0b0111, false, 2),
    (0b0101, 0b1101, 0b0101, 0b1101, true, 2),
    (1 << 63, u64::MAX, 1 << 63, u64::MAX, true, 1),
    (u64::MAX, 1 << 63, 1 << 63, u64::MAX, false, 64),
];

#[test]
fn sets_are_the_bits_of_their_words(rt: HostRuntime) {
    for (a, b, meet, union, within, count) in WORDS {
        let (first, second) = (Rel::of(a), Rel::of(b));
        let both = (first.meet(second).word(), first.union(second).word());
        assert_same_in(&rt, both, (meet, union), (a, b));
        assert_same_in(&rt, first.within(second), within, (a, b));
        let own = (first.word(), first.count(), first.is_empty());
        assert_same_in(&rt, own, (a, count, a == 0), a);
    }
    assert!(rt; Rel::EMPTY.is_empty());
}

/// A word, a base relation, and whether the set has it.
const MEMBERS: [(u64, u32, bool); 6] = [
    (0b100, 2, true),
    (0b100, 1, false),
    (0b100, 3, false),
    (1 << 63, 63, true),
    (u64::MAX, 64, false),
    (1, u32::MAX, false),
];

#[test]
fn sets_have_their_members(rt: HostRuntime) {
    for (word, r, has) in MEMBERS {
        assert_same_in(&rt, Rel::of(word).has(r), has, (r, word));
    }
    let singles = (Rel::single(0).word(), Rel::single(63).word());
    assert_same(&rt, singles, (1, 1 << 63));
}

/// Ramsey's calculus of two colours: no triangle has one colour alone.
const RAMSEY: [u64; 9] = [1, 2, 4, 2, 5, 6, 4, 6, 3];

fn owned(alloc: Global, name: &str) -> Result<String, TableFault> {
    String::from_str(alloc, name).map_err(|_| TableFault::Memory)
}

/// The names, each of its own.
fn three_names(alloc: Global, names: [&str; 3]) -> Result<Vec<String>, TableFault>
    ensures { IfOk result (λ owned. length owned.items ≡ 3) }
{
    let [first, second, third] = names;
    let owned = [
        owned(alloc, first)?,
        owned(alloc, second)?,
        owned(alloc, third)?,
    ];
    Vec::from_array(alloc, owned).map_err(|_| TableFault::Memory)
}

/// The sets of the words.
fn sets_of(alloc: Global, words: &[u64]) -> Result<Vec<Rel>, TableFault>
    ensures { IfOk result (λ sets. sets.items ≡ words.now) }
{
    words
        .iter()
        .map(|word| Rel::of(*word))
        .collect(alloc)
        .map_err(|_| TableFault::Memory)
}

/// The calculus of three base relations, of which the first is the identity.
fn three_relations(
    alloc: Global,
    names: [&str; 3],
    conv: [u32; 3],
    words: [u64; 9],
) -> Result<Calculus, TableFault>
    requires { IsTrue (has_shape
        (record { size = 3; identity = 0; converses = conv; table = words })) }
{
    let names = three_names(alloc, names)?;
    let table = sets_of(alloc, &words)?;
    Calculus::new(alloc, names, 0, &conv, &table)
}

/// Ramsey's calculus.
fn ramsey(alloc: Global) -> Result<Calculus, TableFault> {
    three_relations(alloc, ["id", "a", "b"], [0, 1, 2], RAMSEY)
}

#[test]
fn a_lawful_table_is_a_calculus(rt: HostRuntime) -> Result<(), Fail> {
    let c = ramsey(rt.alloc())?;
    let shape = (c.size(), c.identity(), c.full().word(), c.names().len());
    assert_same(&rt, shape, (3, 0, 0b111, 3));
    assert_same(&rt, (c.find(b"c"), c.find(b"")), (None, None));
    let two = c.names().get(..2).ok_or("two names")?;
    assert_same(&rt, place_of(two, b"b"), None);
    Ok(())
}

#[test]
fn base_relations_have_their_names(rt: HostRuntime) -> Result<(), Fail> {
    let c = ramsey(rt.alloc())?;
    for (r, name) in [(0, "id"), (1, "a"), (2, "b")] {
        assert!(rt; r < c.size());
        assert_same(&rt, c.name(r), name);
        assert_same(&rt, c.find(name.as_bytes()), Some(r));
    }
    Ok(())
}

/// Two sets, and their composition.
const COMPOSITIONS: [(u64, u64, u64); 7] = [
    (0b010, 0b010, 0b101),
    (0b010, 0b100, 0b110),
    (0b100, 0b100, 0b011),
    (0b001, 0b110, 0b110),
    (0b011, 0b100, 0b110),
    (0b110, 0b110, 0b111),
    (0b000, 0b111, 0b000),
];

#[test]
fn sets_compose_by_the_table(rt: HostRuntime) -> Result<(), Fail> {
    let c = ramsey(rt.alloc())?;
    for (first, second, expected) in COMPOSITIONS {
        let (a, b) = (Rel::of(first), Rel::of(second));
        assert_same_in(
            &rt,
            composed(&rt, &c, a, b).word(),
            expected,
            (first, second),
        );
        assert_same_in(&rt, turned(&rt, &c, a), a, first);
    }
    Ok(())
}

#[test]
fn the_first_fault_is_named(rt: HostRuntime) {
    let twice = three_relations(rt.alloc(), ["id", "a", "id"], [0, 2, 2], RAMSEY);
    assert_same(&rt, twice.err(), Some(TableFault::NameTwice { at: 2 }));
    let words = [1, 2, 6, 2, 5, 6, 4, 6, 3];
    let one_way = three_relations(rt.alloc(), ["id", "a", "b"], [0, 2, 2], words);
    assert_same(&rt, one_way.err(), Some(TableFault::NotInvolution { r: 1 }));
}

#[test]
fn the_first_law_that_is_broken_is_named(rt: HostRuntime) {
    let words = [1, 2, 6, 2, 5, 2, 4, 6, 3];
    let moved = three_relations(rt.alloc(), ["id", "a", "b"], [0, 1, 2], words);
    assert_same(&rt, moved.err(), Some(TableFault::IdentityLaw { r: 2 }));
    let words = [1, 2, 4, 2, 5, 2, 4, 6, 1];
    let lopsided = three_relations(rt.alloc(), ["id", "a", "b"], [0, 1, 2], words);
    assert_same(
        &rt,
        lopsided.err(),
        Some(TableFault::ConverseLaw { r: 1, s: 2, t: 2 }),
    );
    let words = [1, 2, 4, 2, 5, 6, 4, 6, 1];
    let torn = three_relations(rt.alloc(), ["id", "a", "b"], [0, 1, 2], words);
    assert_same(
        &rt,
        torn.err(),
        Some(TableFault::CycleLaw { r: 1, s: 2, t: 2 }),
    );
}

#[test]
fn sets_and_calculi_are_shared_by_threads() {
    can_be_shared::<Rel>();
    can_be_shared::<Calculus>();
}
