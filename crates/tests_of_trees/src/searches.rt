//! Splits and searches of networks of regions, and of colourings of the edges of a graph (Ramsey 1930).
ghost use Rattle.std.specs.Prelude.{◌<◌, ◌≤◌, ◌^◌, IsTrue, length};
ghost use Rattle.calculus_table.specs.Calculus.{EachBase};
ghost use Rattle.tract_classes.specs.Class.{HasBase};
ghost use Rattle.split_search.specs.Verdicts.{nodes_of};

use crate::colours::{A, B, FAN, ramsey};
use crate::nets::{have_words, is_network, net_of, put};
use calculus_builtin::rcc8;
use calculus_table::{Calculus, Compose, Rel};
use closure_seq::close;
use network_words::Net;
use refutation::check as check_tree;
use scenario::{Scenario, check as check_scenario};
use split_search::{MAX_BUDGET, Verdict, ruled_split, solve};
use std::alloc::Global;
use std::process::Abort;
use std::test::Fail;
use tract_classes::{Class, h8, none};

const TPP: u64 = 1 << 3;

const TPPI: u64 = 1 << 5;

const ALL: u64 = 255;

/// The single base relations.
const EACH: [u64; 8] = [1, 2, 4, 8, 16, 32, 64, 128];

/// Whether the class has each base relation of the calculus.
pub(crate) fn has_bases(class: &Class, c: &Calculus) -> bool
    ensures { IsTrue result → EachBase c.now.algebra (HasBase class.now) }
{
    for r in 0..c.size() {
        if !class.has(Rel::single(r)) {
            return false;
        }
    }
    true
}

/// A split: the number of an edge, and the parts of its set.
type Split = (u32, Vec<Rel>);

/// The split of the closure of the network.
fn split_of(
    rt: &impl Abort,
    alloc: Global,
    c: &Calculus,
    class: &Class,
    net: &mut Net,
) -> Result<Option<Split>, Fail> {
    assert!(rt; is_network(net, c) && has_bases(class, c));
    close(alloc, net, c)?;
    assert!(rt; is_network(net, c));
    Ok(ruled_split(alloc, net, c, class)?)
}

/// Whether the split is of this edge into these parts, or none is expected and there is none.
fn is_split(split: &Option<Split>, expected: Option<(u32, &[u64])>) -> bool {
    match (split, expected) {
        (Some((edge, parts)), Some((first, sets))) => *edge == first && have_words(parts, sets),
        (None, None) => true,
        _ => false,
    }
}

/// A network, by its nodes and sets, with the edge that is split and its parts.
type SplitRow<'a> = (u32, &'a [u64], Option<(u32, &'a [u64])>);

/// Fails unless each network has its split.
fn assert_splits(
    rt: &impl Abort,
    alloc: Global,
    c: &Calculus,
    class: &Class,
    rows: &[SplitRow],
) -> Result<(), Fail> {
    for (nodes, words, expected) in rows {
        let mut net = net_of(alloc, c.full(), *nodes, words)?;
        let split = split_of(rt, alloc, c, class, &mut net)?;
        assert!(rt; is_split(&split, *expected), "of {words:?}");
    }
    Ok(())
}

const SPLITS_OF_REGIONS: [SplitRow; 5] = [
    (3, &[ALL, TPP | TPPI, TPP | TPPI], Some((1, &[TPP, TPPI]))),
    (3, &[TPP, ALL, ALL], Some((1, &EACH))),
    (2, &[0], None),
    (2, &[TPP], None),
    (1, &[], None),
];

const SPLITS_OF_COLOURS: [SplitRow; 4] = [
    (3, &[A | B, A | B, A | B], Some((0, &[A, B]))),
    (3, &[A, A | B, A | B], Some((1, &[A, B]))),
    (3, &[A, A, B], None),
    (3, &[A, A, A], None),
];

#[test]
fn splits_of_regions_are_ruled(rt: HostRuntime) -> Result<(), Fail> {
    let alloc = rt.alloc();
    assert_splits(&rt, alloc, &rcc8(alloc)?, &h8(alloc)?, &SPLITS_OF_REGIONS)
}

#[test]
fn splits_of_colours_are_ruled(rt: HostRuntime) -> Result<(), Fail> {
    let alloc = rt.alloc();
    assert_splits(
        &rt,
        alloc,
        &ramsey(alloc)?,
        &none(alloc, 3)?,
        &SPLITS_OF_COLOURS,
    )
}

/// What a verdict says.
#[derive(Clone, Copy, Debug, PartialEq, Eq)]
pub(crate) enum Said {
    Yes,
    No,
    Budget,
}

/// What a verdict says, and the number of splits.
pub(crate) fn says(verdict: &Verdict) -> (Said, u32)
    requires { length (nodes_of verdict.now) < 2 ^ 32 }
{
    match verdict {
        Verdict::Yes(_, tree) => (Said::Yes, tree.splits()),
        Verdict::No(tree) => (Said::No, tree.splits()),
        Verdict::Budget(tree) => (Said::Budget, tree.splits()),
    }
}

/// Searches a network, and has the scenario or the tree checked that comes with a yes or a no. Returns what is said and
/// the number of splits.
fn judge(
    rt: &impl Abort,
    alloc: Global,
    net: &Net,
    c: &Calculus,
    class: &Class,
    budget: u32,
) -> Result<(Said, u32), Fail> {
    assert!(rt; is_network(net, c) && has_bases(class, c) && budget <= MAX_BUDGET);
    let verdict = solve(alloc, net, c, class, budget)?;
    match &verdict {
        Verdict::Yes(scenario, _) => assert!(rt; check_scenario(net, c, scenario).is_ok()),
        Verdict::No(tree) => assert!(rt; check_tree(alloc, net, c, tree).is_ok()),
        Verdict::Budget(_) => {}
    }
    Ok(says(&verdict))
}

/// Both colours on each edge of five nodes, and of six.
const FIVE: [u64; 10] = [A | B; 10];

pub(crate) const SIX: [u64; 15] = [A | B; 15];

/// A network, by its nodes and sets, with the budget, what is said and the number of splits.
pub(crate) type SearchRow<'a> = (u32, &'a [u64], u32, Said, u32);

/// Fails unless each search ends so.
fn assert_searches(
    rt: &impl Abort,
    alloc: Global,
    c: &Calculus,
    class: &Class,
    rows: &[SearchRow],
) -> Result<(), Fail> {
    for (nodes, words, budget, said, splits) in rows {
        let net = net_of(alloc, c.full(), *nodes, words)?;
        let verdict = judge(rt, alloc, &net, c, class, *budget)?;
        assert!(rt; verdict == (*said, *splits), "of {words:?}");
    }
    Ok(())
}

pub(crate) const SEARCHES_OF_COLOURS: [SearchRow; 6] = [
    (5, &FIVE, 1023, Said::Yes, 5),
    (5, &FIVE, 4, Said::Budget, 4),
    (6, &SIX, 19, Said::No, 19),
    (6, &SIX, 18, Said::Budget, 18),
    (6, &SIX, 0, Said::Budget, 0),
    (6, &FAN, 1000, Said::No, 1),
];

pub(crate) const SEARCHES_OF_REGIONS: [SearchRow; 4] = [
    (2, &[TPP | TPPI], 1000, Said::Yes, 1),
    (2, &[TPP | TPPI], 0, Said::Budget, 0),
    (2, &[0], 1000, Said::No, 0),
    (1, &[], 1000, Said::Yes, 0),
];

#[test]
fn searches_of_colours_end_as_they_are_ruled(rt: HostRuntime) -> Result<(), Fail> {
    let alloc = rt.alloc();
    assert_searches(
        &rt,
        alloc,
        &ramsey(alloc)?,
        &none(alloc, 3)?,
        &SEARCHES_OF_COLOURS,
    )
}

#[test]
fn searches_of_regions_end_as_they_are_ruled(rt: HostRuntime) -> Result<(), Fail> {
    let alloc = rt.alloc();
    assert_searches(&rt, alloc, &rcc8(alloc)?, &h8(alloc)?, &SEARCHES_OF_REGIONS)
}

/// So many of the last digits of a number to a base.
fn digits(alloc: Global, number: u32, base: u32, count: u32) -> Result<Vec<u8>, Fail>
    requires some { 0 < base }
    requires few { base ≤ 256 }
{
    let mut digits = Vec::new(alloc);
    let mut rest = number;
    for _ in 0..count {
        digits.push((rest % base) as u8)?;
        rest /= base;
    }
    Ok(digits)
}

/// Whether one of so many lists of base relations is a scenario.
fn has_scenario(alloc: Global, net: &Net, c: &Calculus, size: u32, lists: u32) -> Result<bool, Fail>
    requires some { 0 < size }
    requires few { size ≤ 64 }
{
    for number in 0..lists {
        let bases = digits(alloc, number, size, net.edges())?;
        if check_scenario(net, c, &Scenario { bases }).is_ok() {
            return Ok(true);
        }
    }
    Ok(false)
}

/// The network whose sets are the digits of a number and one more, the greatest digit making the full set.
fn net_of_number(
    rt: &impl Abort,
    alloc: Global,
    c: &Calculus,
    nodes: u32,
    number: u32,
) -> Result<Net, Fail> {
    let full = c.full().word();
    assert!(rt; 0 < full && full <= 255);
    let mut net = Net::new(alloc, nodes, c.full())?;
    let digits = digits(alloc, number, full as u32, net.edges())?;
    let mut edge = 0u32;
    for digit in &digits {
        put(&mut net, edge, u64::from(*digit) + 1);
        edge = edge.wrapping_add(1);
    }
    Ok(net)
}

/// Searches the network, and tries so many lists of base relations on it.
fn assert_same(
    rt: &impl Abort,
    alloc: Global,
    c: &Calculus,
    class: &Class,
    net: &Net,
    lists: u32,
) -> Result<(), Fail> {
    let (said, _) = judge(rt, alloc, net, c, class, 1000)?;
    let size = c.size();
    assert!(rt; 0 < size && size <= 64);
    let has = has_scenario(alloc, net, c, size, lists)?;
    assert!(rt; said == if has { Said::Yes } else { Said::No });
    Ok(())
}

/// Searches so many networks, numbered in steps, and tries each list of base relations on them.
fn assert_tried(
    rt: &impl Abort,
    alloc: Global,
    c: &Calculus,
    class: &Class,
    (nodes, count, step, lists): (u32, u32, u32, u32),
) -> Result<(), Fail> {
    for k in 0..count {
        let net = net_of_number(rt, alloc, c, nodes, k.wrapping_mul(step))?;
        assert_same(rt, alloc, c, class, &net, lists)?;
    }
    Ok(())
}

#[test]
fn searches_of_colours_say_what_trying_each_list_says(rt: HostRuntime) -> Result<(), Fail> {
    let alloc = rt.alloc();
    assert_tried(
        &rt,
        alloc,
        &ramsey(alloc)?,
        &none(alloc, 3)?,
        (4, 60, 1961, 729),
    )
}

#[test]
fn searches_of_regions_say_what_trying_each_list_says(rt: HostRuntime) -> Result<(), Fail> {
    let alloc = rt.alloc();
    assert_tried(
        &rt,
        alloc,
        &rcc8(alloc)?,
        &h8(alloc)?,
        (3, 40, 414_533, 512),
    )
}
