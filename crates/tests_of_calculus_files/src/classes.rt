//! Classes of regions, of points and of intervals, their parts, and class files.
ghost use Rattle.std.specs.Prelude.{IsTrue};
ghost use Rattle.calculus_table.specs.Calculus.{EachBase};
ghost use Rattle.tract_classes.specs.Class.{HasBase};

use crate::asserts::{assert_same, assert_same_in};
use calculus_builtin::{allen, point, rcc8};
use calculus_table::{Calculus, Compose, Rel};
use named_sets::SetWriter;
use qsr_lex::MAX_TEXT;
use std::alloc::Global;
use std::process::Abort;
use std::test::Fail;
use tract_classes::{
    COMPOSITION, CONVERSE, Class, ClassFault, MEET, c8, h8, load, none, parts, q8,
};

/// Asserts that a class has so many members, the empty set and the first set among them, and the second set not.
fn has_members(rt: &impl Abort, class: &Class, len: u32, member: u64, other: u64) {
    let sizes = (class.len(), class.has(Rel::EMPTY));
    assert_same(rt, sizes, (len, true));
    let has = (class.has(Rel::of(member)), class.has(Rel::of(other)));
    assert_same_in(rt, has, (true, false), (member, other, len));
}

#[test]
fn built_in_classes_of_regions_have_their_members(rt: HostRuntime) -> Result<(), Fail> {
    has_members(&rt, &h8(rt.alloc())?, 148, 0b1001_1000, 0b1001_0000);
    has_members(&rt, &c8(rt.alloc())?, 158, 0b1001_0000, 0b0000_1010);
    has_members(&rt, &q8(rt.alloc())?, 160, 0b0000_1010, 0b1000_1000);
    Ok(())
}

/// How many base relations there are, how many members the class has, a set that is one, and a set that is none.
const SINGLES: [(u32, u32, u64, u64); 3] = [
    (8, 9, 0b1000_0000, 0b1100_0000),
    (17, 18, 1 << 16, 1 << 17),
    (64, 65, 1 << 63, u64::MAX),
];

#[test]
fn the_class_of_single_base_relations_has_its_members(rt: HostRuntime) -> Result<(), Fail> {
    for (size, len, member, other) in SINGLES {
        assert!(rt; size <= 64);
        has_members(&rt, &none(rt.alloc(), size)?, len, member, other);
    }
    Ok(())
}

/// Whether each base relation of the calculus is a member by itself.
fn has_bases(class: &Class, c: &Calculus) -> bool
    ensures { IsTrue result → EachBase c.now.algebra (HasBase class.now) }
{
    for r in 0..c.size() {
        if !class.has(Rel::single(r)) {
            return false;
        }
    }
    true
}

/// The parts of a set of the calculus, in a class that has each base relation of it.
fn parts_in(alloc: Global, class: &Class, c: &Calculus, set: Rel) -> Result<Vec<Rel>, Fail> {
    if !set.within(c.full()) {
        return Err(Fail::from("no set of the calculus"));
    }
    if !has_bases(class, c) {
        return Err(Fail::from("the class lacks a base relation"));
    }
    Ok(parts(alloc, class, set)?)
}

/// Asserts that the set has these parts in the class of regions.
fn has_parts(
    rt: &impl Abort,
    alloc: Global,
    class: &Class,
    set: u64,
    expected: &[u64],
) -> Result<(), Fail> {
    let found = parts_in(alloc, class, &rcc8(alloc)?, Rel::of(set))?;
    assert_same_in(rt, found.len(), expected.len(), set);
    for (part, word) in found.iter().zip(expected) {
        assert_same_in(rt, part.word(), *word, set);
    }
    Ok(())
}

/// A set, and its parts in H8.
const PARTS: [(u64, &[u64]); 5] = [
    (0b0000_0000, &[]),
    (0b1001_0010, &[0b0001_0010, 0b1000_0000]),
    (0b0010_1000, &[0b0000_1000, 0b0010_0000]),
    (0b0000_0110, &[0b0000_0110]),
    (0b1111_1111, &[0b1111_1111]),
];

#[test]
fn sets_have_parts(rt: HostRuntime) -> Result<(), Fail> {
    let class = h8(rt.alloc())?;
    for (set, expected) in PARTS {
        has_parts(&rt, rt.alloc(), &class, set, expected)?;
    }
    Ok(())
}

#[test]
fn sets_have_their_base_relations_as_parts(rt: HostRuntime) -> Result<(), Fail> {
    let class = none(rt.alloc(), 8)?;
    let expected = [0b10, 0b100, 0b1000_0000];
    has_parts(&rt, rt.alloc(), &class, 0b1000_0110, &expected)
}

/// How many members the class of a text has, or its fault.
fn loaded(alloc: Global, text: &str, c: &Calculus) -> Result<u32, ClassFault> {
    if text.len() > MAX_TEXT {
        return Err(ClassFault::Memory);
    }
    Ok(load(alloc, text.as_bytes(), c)?.len())
}

/// A text, and the number of members or the fault.
const FILES: [(&str, Result<u32, ClassFault>); 15] = [
    // the sets without a gap
    (
        "( < )\n( = )\n( > )\n( < = )\n( = > )\n( < = > )\n.\n",
        Ok(7),
    ),
    (
        "(<) # first\n\n(<)\n(=)(\n.",
        Err(ClassFault::Syntax { line: 4 }),
    ),
    ("( < )\n( x )\n.\n", Err(ClassFault::Syntax { line: 2 })),
    ("( < ) ( = )\n.\n", Err(ClassFault::Syntax { line: 1 })),
    ("", Err(ClassFault::Syntax { line: 1 })),
    ("( < )\n( = )", Err(ClassFault::Syntax { line: 3 })),
    (".\n\n( < )\n", Err(ClassFault::Syntax { line: 3 })),
    (".\n#\n\n", Err(ClassFault::LacksBase { r: 0 })),
    (
        "( = )\n( < )\n( < )\n.",
        Err(ClassFault::LacksBase { r: 2 }),
    ),
    ("( < = )\n.\n", Err(ClassFault::LacksBase { r: 0 })),
    ("( < )\n.\n", Err(ClassFault::LacksBase { r: 1 })),
    // {<, =} has the converse {=, >}
    (
        "( < )\n( = )\n( > )\n( < = )\n.\n",
        Err(ClassFault::NotClosed {
            a: 3,
            b: 0,
            op: CONVERSE,
        }),
    ),
    // < and > compose to all three
    (
        "( > )\n( = )\n( < )\n.\n",
        Err(ClassFault::NotClosed {
            a: 1,
            b: 4,
            op: COMPOSITION,
        }),
    ),
    ("( < )\n( = )\n( > )\n( < = > )\n( )\n.", Ok(5)),
    ("( < )\n\x07\n.", Err(ClassFault::Syntax { line: 2 })),
];

#[test]
fn class_files_are_read_or_refused(rt: HostRuntime) -> Result<(), Fail> {
    let c = point(rt.alloc())?;
    for (text, expected) in FILES {
        assert_same_in(&rt, loaded(rt.alloc(), text, &c), expected, text);
    }
    Ok(())
}

/// Asserts that a class file of base relations and of more sets has this fault.
fn has_fault(
    rt: &impl Abort,
    alloc: Global,
    c: &Calculus,
    sets: [&str; 2],
    fault: ClassFault,
) -> Result<(), Fail> {
    let [bases, more] = sets;
    let text = format!(in alloc; "{bases}{more}.\n")?;
    assert_same_in(rt, loaded(alloc, &text, c), Err(fault), more);
    Ok(())
}

/// The lines of the base relations of RCC-8.
const REGIONS: &str = "( DC )\n( EC )\n( PO )\n( TPP )\n( NTPP )\n( TPPi )\n( NTPPi )\n( EQ )\n";

/// More sets of regions, and the first two members whose intersection or composition is none.
const OPEN: [(&str, u64, u64, u32); 3] = [
    // compositions aren't looked at where an intersection is none
    ("( DC EC PO )\n( EC PO EQ )\n", 0b111, 0b1000_0110, MEET),
    // the second is the intersection of the two after it
    (
        "( DC EC PO )\n( EC PO EQ )\n( EC PO TPP EQ )\n( EC PO TPPi EQ )\n",
        0b111,
        0b1000_0110,
        MEET,
    ),
    // DC;DC is the full set, DC;EC is DC EC PO TPP NTPP, and EC;DC tells of it
    (
        "( DC EC PO TPP NTPP TPPi NTPPi EQ )\n",
        0b1,
        0b10,
        COMPOSITION,
    ),
];

#[test]
fn the_first_pair_that_leaves_the_class_is_named(rt: HostRuntime) -> Result<(), Fail> {
    let c = rcc8(rt.alloc())?;
    for (more, a, b, op) in OPEN {
        let fault = ClassFault::NotClosed { a, b, op };
        has_fault(&rt, rt.alloc(), &c, [REGIONS, more], fault)?;
    }
    Ok(())
}

/// The lines of the base relations of Allen's algebra.
const INTERVALS: &str =
    "( b )\n( m )\n( o )\n( fi )\n( di )\n( s )\n( eq )\n( si )\n( d )\n( f )\n( oi )\n( mi )\n( bi )\n";

#[test]
fn the_first_pair_of_intervals_that_leaves_the_class_is_named(rt: HostRuntime) -> Result<(), Fail> {
    let c = allen(rt.alloc())?;
    let all = "( b m o fi di s eq si d f oi mi bi )\n";
    // b;r is b for each r from b to si, and b;d is b m o s d
    let fault = ClassFault::NotClosed {
        a: 0b1,
        b: 0b1_0000_0000,
        op: COMPOSITION,
    };
    has_fault(&rt, rt.alloc(), &c, [INTERVALS, all], fault)
}

/// The class file of the sets of regions that are members.
fn file_of(alloc: Global, c: &Calculus, class: &Class) -> Result<String, Fail> {
    let mut writer = SetWriter::new(alloc, c)?;
    let mut text = String::new(alloc);
    for word in 0..256 {
        if class.has(Rel::of(word)) {
            writer.push_line(&mut text, Rel::of(word))?;
        }
    }
    text.push_str(".\n")?;
    Ok(text)
}

/// Asserts that the class file of a class is read.
fn is_closed(rt: &impl Abort, alloc: Global, c: &Calculus, class: &Class) -> Result<(), Fail> {
    let text = file_of(alloc, c, class)?;
    assert_same(rt, loaded(alloc, &text, c), Ok(class.len()));
    Ok(())
}

#[test]
fn built_in_classes_are_closed(rt: HostRuntime) -> Result<(), Fail> {
    let c = rcc8(rt.alloc())?;
    is_closed(&rt, rt.alloc(), &c, &h8(rt.alloc())?)?;
    is_closed(&rt, rt.alloc(), &c, &c8(rt.alloc())?)?;
    is_closed(&rt, rt.alloc(), &c, &q8(rt.alloc())?)?;
    Ok(())
}

/// The class file of the sets from one word up to another.
fn file_between(alloc: Global, c: &Calculus, from: u64, below: u64) -> Result<String, Fail> {
    let mut writer = SetWriter::new(alloc, c)?;
    let mut text = String::new(alloc);
    for word in from..below {
        writer.push_line(&mut text, Rel::of(word))?;
    }
    text.push_str(".\n")?;
    Ok(text)
}

/// The least word, the word after the greatest, and the fault.
const MANY: [(u64, u64, ClassFault); 3] = [
    // the sets of the first ten intervals' relations, whose bases lack the others
    (0, 1024, ClassFault::LacksBase { r: 10 }),
    (0, 1025, ClassFault::TooMany { line: 1025 }),
    (1, 1025, ClassFault::TooMany { line: 1024 }),
];

#[test]
fn a_class_has_1024_members_at_most(rt: HostRuntime) -> Result<(), Fail> {
    let c = allen(rt.alloc())?;
    for (from, below, fault) in MANY {
        let text = file_between(rt.alloc(), &c, from, below)?;
        assert_same(&rt, loaded(rt.alloc(), &text, &c), Err(fault));
    }
    Ok(())
}

/// Does nothing. Who calls it shows that its type can be shared by threads.
fn can_be_shared<T: Send + Sync>() {}

#[test]
fn classes_can_be_shared() {
    can_be_shared::<Class>();
}
