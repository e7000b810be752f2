//! Scenarios of Allen's algebra, and the intervals that realise them by ranks.
use crate::asserts::{assert_same, assert_same_in};
use allen_real::{Interval, realise};
use calculus_builtin::allen;
use calculus_table::Compose;
use network_words::Net;
use scenario::{Scenario, check};
use std::process::Abort;
use std::test::Fail;

const B: u8 = 0;

const M: u8 = 1;

const O: u8 = 2;

const DI: u8 = 4;

const EQ: u8 = 6;

const SI: u8 = 7;

const D: u8 = 8;

const OI: u8 = 10;

const BI: u8 = 12;

/// The intervals that realise the base relations of the edges of so many nodes, which are a scenario.
fn realised<R: Abort + AllocGlobal>(
    rt: &R,
    nodes: u32,
    bases: Vec<u8>,
) -> Result<Vec<Interval>, Fail> {
    let c = allen(rt.alloc())?;
    let net = Net::new(rt.alloc(), nodes, c.full())?;
    let s = Scenario { bases };
    assert!(rt; check(&net, &c, &s).is_ok());
    Ok(realise(rt.alloc(), &s, nodes)?)
}

/// Where an interval begins and ends.
type Ends = (u32, u32);

/// Where the interval of each node begins and ends.
fn ends<R: Abort + AllocGlobal>(rt: &R, intervals: &[Interval]) -> Result<Vec<Ends>, Fail> {
    let mut ends = Vec::new(rt.alloc());
    for x in intervals {
        ends.push((x.lo, x.hi))?;
    }
    Ok(ends)
}

/// The base relations of the edges, and the ends of the intervals.
type Case<'a> = (&'a [u8], &'a [Ends]);

/// Scenarios whose end points were put in order by hand.
const CASES: [Case; 9] = [
    (&[], &[(0, 1)]),
    (&[EQ], &[(0, 1), (0, 1)]),
    (&[B], &[(0, 1), (2, 3)]),
    // the first meets the second, which lies during the third
    (&[M, O, D], &[(0, 2), (2, 3), (1, 4)]),
    // one after another
    (&[B, B, B], &[(0, 1), (2, 3), (4, 5)]),
    (&[M, B, M], &[(0, 1), (1, 2), (2, 3)]),
    // each during the next
    (&[D, D, D], &[(2, 3), (1, 4), (0, 5)]),
    (&[EQ, EQ, EQ, EQ, EQ, EQ], &[(0, 1), (0, 1), (0, 1), (0, 1)]),
    // the stretches 0 to 10, 10 to 20, 0 to 4, 5 to 6 and 4 to 12 of a line
    (
        &[M, SI, DI, O, BI, BI, OI, B, M, D],
        &[(0, 4), (4, 6), (0, 1), (2, 3), (1, 5)],
    ),
];

#[test]
fn scenarios_are_realised_by_ranks(rt: HostRuntime) -> Result<(), Fail> {
    for (bases, wanted) in CASES {
        let nodes = wanted.len() as u32;
        let found = realised(&rt, nodes, Vec::from_slice(rt.alloc(), bases)?)?;
        assert_same_in(&rt, ends(&rt, &found)?.as_slice(), wanted, bases);
    }
    Ok(())
}

/// Two intervals in each base relation, from `b` to `bi`.
const PAIRS: [[Ends; 2]; 13] = [
    [(0, 1), (2, 3)],
    [(0, 1), (1, 2)],
    [(0, 2), (1, 3)],
    [(0, 2), (1, 2)],
    [(0, 3), (1, 2)],
    [(0, 1), (0, 2)],
    [(0, 1), (0, 1)],
    [(0, 2), (0, 1)],
    [(1, 2), (0, 3)],
    [(1, 2), (0, 2)],
    [(1, 3), (0, 2)],
    [(1, 2), (0, 1)],
    [(2, 3), (0, 1)],
];

#[test]
fn each_base_relation_has_two_intervals(rt: HostRuntime) -> Result<(), Fail> {
    for base in 0..13u8 {
        let found = realised(&rt, 2, vec![in rt.alloc(); base]?)?;
        let wanted = PAIRS[usize::from(base)];
        assert_same_in(&rt, ends(&rt, &found)?.as_slice(), &wanted, base);
    }
    Ok(())
}

#[test]
fn as_many_intervals_as_a_network_has_nodes(rt: HostRuntime) -> Result<(), Fail> {
    let found = realised(&rt, 256, vec![in rt.alloc(); B; 32_640]?)?;
    assert_same(&rt, found.len(), 256);
    for (node, x) in found.iter().enumerate() {
        assert_same(
            &rt,
            (x.lo as usize, x.hi as usize),
            (2 * node, 2 * node + 1),
        );
    }
    Ok(())
}
