//! Which classes are of sets of a calculus, closed, and straight.
use crate::asserts::{assert_same, assert_same_in};
use calculus_builtin::{point, rcc8};
use calculus_table::Calculus;
use qsr_lex::MAX_TEXT;
use std::alloc::Global;
use std::test::Fail;
use tract_classes::{Class, are_sets_of, c8, h8, is_closed, is_straight, load, none, q8};

/// Whether the members are sets of base relations of the calculus, and whether the class is closed and straight.
fn tested(alloc: Global, class: &Class, c: &Calculus) -> (bool, bool, bool) {
    let sets = are_sets_of(class, c);
    let closed = is_closed(alloc, class, c);
    (sets, closed, sets && is_straight(class, c))
}

/// The class of regions with this name.
fn class_of(alloc: Global, name: &str) -> Result<Class, Fail> {
    match name {
        "h8" => Ok(h8(alloc)?),
        "c8" => Ok(c8(alloc)?),
        "q8" => Ok(q8(alloc)?),
        _ => Ok(none(alloc, 8)?),
    }
}

/// A class of regions, and whether it is closed and straight.
const REGIONS: [(&str, bool, bool); 4] = [
    ("h8", true, true),
    // EC, EC PO and NTPP EQ are closed, and NTPP isn't in EC;EC
    ("c8", true, false),
    ("q8", true, true),
    ("none", false, true),
];

#[test]
fn classes_of_regions_are_closed_or_straight(rt: HostRuntime) -> Result<(), Fail> {
    let c = rcc8(rt.alloc())?;
    for (name, closed, straight) in REGIONS {
        let class = class_of(rt.alloc(), name)?;
        let found = tested(rt.alloc(), &class, &c);
        assert_same_in(&rt, found, (true, closed, straight), name);
    }
    Ok(())
}

#[test]
fn a_class_of_regions_is_none_of_points(rt: HostRuntime) -> Result<(), Fail> {
    let class = none(rt.alloc(), 8)?;
    let found = tested(rt.alloc(), &class, &point(rt.alloc())?);
    assert_same(&rt, found, (false, false, false));
    Ok(())
}

/// The class file of all sets of points.
const POINTS: &str = "( < )\n( = )\n( > )\n( < = )\n( < > )\n( = > )\n( < = > )\n.\n";

#[test]
fn the_class_of_all_sets_of_points_is_closed_and_not_straight(rt: HostRuntime) -> Result<(), Fail> {
    let c = point(rt.alloc())?;
    assert!(rt; POINTS.len() <= MAX_TEXT);
    let Ok(class) = load(rt.alloc(), POINTS.as_bytes(), &c) else {
        return Err(Fail::from("the file is refused"));
    };
    // < =, = > and = are closed, and = isn't in <;=
    let found = tested(rt.alloc(), &class, &c);
    assert_same(&rt, found, (true, true, false));
    Ok(())
}
