//! Lists of base relations of regions and of intervals, and what the check says of them.
use crate::nets::put;
use calculus_builtin::{allen, rcc8};
use calculus_table::{Calculus, Compose};
use network_words::Net;
use scenario::{At, Scenario, check};
use std::alloc::Global;
use std::process::Abort;
use std::test::Fail;

const DC: u8 = 0;

const EC: u8 = 1;

const PO: u8 = 2;

const TPP: u8 = 3;

const NTPP: u8 = 4;

const TPPI: u8 = 5;

const NTPPI: u8 = 6;

const EQ: u8 = 7;

/// A network of so many nodes whose sets are full but for those that are given by edge.
fn net_with(alloc: Global, c: &Calculus, nodes: u32, given: &[(u32, u64)]) -> Result<Net, Fail> {
    let mut net = Net::new(alloc, nodes, c.full())?;
    for (edge, word) in given {
        put(&mut net, *edge, *word);
    }
    Ok(net)
}

/// What the check says of the list, in a network of so many nodes whose sets are full but for those that are given.
fn checked(
    alloc: Global,
    c: &Calculus,
    nodes: u32,
    given: &[(u32, u64)],
    bases: &[u8],
) -> Result<Result<(), At>, Fail> {
    let net = net_with(alloc, c, nodes, given)?;
    let bases = Vec::from_slice(alloc, bases)?;
    Ok(check(&net, c, &Scenario { bases }))
}

/// The base relations of the stretches 0 to 10, 10 to 20, 0 to 4, 5 to 6 and 4 to 12 of a line.
const LINE: [u8; 10] = [EC, TPPI, NTPPI, PO, DC, DC, PO, DC, EC, NTPP];

/// Nodes, the sets that aren't full, the base relations, what the check says.
type Case<'a> = (u32, &'a [(u32, u64)], &'a [u8], Result<(), At>);

/// What holds together.
const SCENARIOS: [Case; 6] = [
    (5, &[], &LINE, Ok(())),
    (5, &[(0, 0x02), (3, 0x05), (9, 0x10)], &LINE, Ok(())),
    (4, &[], &[EC, TPPI, NTPPI, DC, DC, DC], Ok(())),
    (3, &[], &[TPP, DC, NTPPI], Ok(())),
    (2, &[], &[EQ], Ok(())),
    (1, &[], &[], Ok(())),
];

/// Not one base relation for each edge, and then no base relation of the calculus.
const MISSHAPEN: [Case; 6] = [
    (1, &[], &[EQ], Err(At::Shape)),
    (2, &[], &[], Err(At::Shape)),
    (4, &[], &[EC, TPPI, NTPPI, DC, DC], Err(At::Shape)),
    (4, &[], &LINE, Err(At::Shape)),
    (2, &[], &[8], Err(At::Shape)),
    (3, &[(0, 0)], &[TPP, DC, 8], Err(At::Shape)),
];

/// The first edge outside its set, before a triple that doesn't compose.
const OUTSIDE: [Case; 4] = [
    (2, &[(0, 0x7f)], &[EQ], Err(At::Outside { i: 0, j: 1 })),
    (
        5,
        &[(3, 0x03), (8, 0x01)],
        &LINE,
        Err(At::Outside { i: 0, j: 4 }),
    ),
    (5, &[(9, 0x02)], &LINE, Err(At::Outside { i: 3, j: 4 })),
    (
        3,
        &[(2, 0xf7)],
        &[TPP, DC, TPP],
        Err(At::Outside { i: 1, j: 2 }),
    ),
];

/// The first triple that doesn't compose.
const UNCOMPOSED: [Case; 4] = [
    // within TPP;NTPPi, and not within NTPPi;TPP
    (
        3,
        &[],
        &[NTPPI, DC, TPP],
        Err(At::Triple { i: 0, j: 1, k: 2 }),
    ),
    // the first lies in the second, which is apart from two that lie in the first
    (
        5,
        &[],
        &[NTPP, TPPI, NTPPI, PO, DC, DC, PO, DC, EC, NTPP],
        Err(At::Triple { i: 0, j: 1, k: 2 }),
    ),
    // the third and the fourth are equal, which neither the first nor the last bears out
    (
        5,
        &[],
        &[EC, TPPI, NTPPI, PO, DC, DC, PO, EQ, EC, NTPP],
        Err(At::Triple { i: 0, j: 2, k: 3 }),
    ),
    // the last lies in the fourth, which none of the others bears out
    (
        5,
        &[],
        &[EC, TPPI, NTPPI, PO, DC, DC, PO, DC, EC, NTPPI],
        Err(At::Triple { i: 0, j: 3, k: 4 }),
    ),
];

/// Checks each list of base relations of regions.
fn assert_said(rt: &impl Abort, alloc: Global, table: &[Case]) -> Result<(), Fail> {
    let c = rcc8(alloc)?;
    for (nodes, given, bases, wanted) in table {
        let said = checked(alloc, &c, *nodes, given, bases)?;
        assert!(rt; said == *wanted, "of {bases:?} among {nodes} nodes");
    }
    Ok(())
}

#[test]
fn a_scenario_of_regions_is_within_its_network(rt: HostRuntime) -> Result<(), Fail> {
    assert_said(&rt, rt.alloc(), &SCENARIOS)
}

#[test]
fn each_edge_has_one_base_relation_of_the_calculus(rt: HostRuntime) -> Result<(), Fail> {
    assert_said(&rt, rt.alloc(), &MISSHAPEN)
}

#[test]
fn the_first_edge_outside_its_set_is_told(rt: HostRuntime) -> Result<(), Fail> {
    assert_said(&rt, rt.alloc(), &OUTSIDE)
}

#[test]
fn the_first_triple_that_does_not_compose_is_told(rt: HostRuntime) -> Result<(), Fail> {
    assert_said(&rt, rt.alloc(), &UNCOMPOSED)
}

/// What the check says of the base relations of 0 to 2, 2 to 5, 1 to 6 and 2 to 6, some replaced.
const INTERVALS: [([u8; 6], Result<(), At>); 4] = [
    ([1, 2, 1, 8, 5, 3], Ok(())),
    ([1, 2, 1, 8, 5, 13], Err(At::Shape)),
    ([1, 2, 0, 8, 5, 3], Err(At::Triple { i: 0, j: 1, k: 3 })),
    ([1, 2, 1, 8, 5, 0], Err(At::Triple { i: 0, j: 2, k: 3 })),
];

#[test]
fn tells_scenarios_of_intervals(rt: HostRuntime) -> Result<(), Fail> {
    let c = allen(rt.alloc())?;
    for (bases, wanted) in INTERVALS {
        let said = checked(rt.alloc(), &c, 4, &[], &bases)?;
        assert!(rt; said == wanted, "of {bases:?}");
    }
    Ok(())
}
