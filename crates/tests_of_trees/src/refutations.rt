//! Trees over Ramsey's calculus of two colours: which refute, the first fault of those that don't, and the steps that
//! traced trees list.
ghost use Rattle.std.specs.Prelude.{◌<◌, ◌^◌, All, IfOk, IsTrue, length};
ghost use Rattle.network_words.specs.Network.{IsNetwork};
ghost use Rattle.split_trees.specs.Tree.{AreFewSteps};

use crate::asserts::assert_same;
use crate::colours::{A, B, FAN, ramsey};
use crate::nets::{have_words, is_network, net_of, sets_of};
use calculus_table::{Calculus, Compose};
use network_words::Net;
use refutation::{Kind, Node, Step, Steps, Tree, TreeFault, check, trace};
use std::alloc::Global;
use std::process::Abort;
use std::test::Fail;

/// A node: its kind, the edge's nodes, the parts, the children, and the steps, where it has a list.
type Row<'a> = (
    Kind,
    (u32, u32),
    &'a [u64],
    &'a [u32],
    Option<&'a [(u32, u32, u32)]>,
);

/// A list of these steps.
fn list_of(alloc: Global, rows: &[(u32, u32, u32)]) -> Result<Steps, Fail> {
    let mut steps = Vec::new(alloc);
    for (i, j, k) in rows {
        let (i, j, k) = (*i, *j, *k);
        steps.push(Step { i, j, k })?;
    }
    Ok(Steps::List(steps))
}

/// A list of these steps, or a sweep where there is none.
fn steps_of(alloc: Global, rows: Option<&[(u32, u32, u32)]>) -> Result<Steps, Fail> {
    match rows {
        Some(rows) => list_of(alloc, rows),
        None => Ok(Steps::Sweep),
    }
}

fn node_of(alloc: Global, row: &Row) -> Result<Node, Fail> {
    let (kind, (i, j), parts, children, steps) = *row;
    Ok(Node {
        kind,
        i,
        j,
        parts: sets_of(alloc, parts)?,
        children: Vec::from_slice(alloc, children)?,
        steps: steps_of(alloc, steps)?,
    })
}

fn tree_of(alloc: Global, rows: &[Row]) -> Result<Tree, Fail> {
    let mut nodes = Vec::new(alloc);
    for row in rows {
        nodes.push(node_of(alloc, row)?)?;
    }
    Ok(Tree { nodes })
}

fn has_few_steps(node: &Node) -> bool
    ensures { IsTrue result → AreFewSteps node.now.steps }
{
    match &node.steps {
        Steps::Sweep => true,
        Steps::List(steps) => steps.len() <= u32::MAX as usize,
    }
}

fn is_small(tree: &Tree) -> bool
    ensures few { IsTrue result → length tree.now < 2 ^ 32 }
    ensures steps { IsTrue result → All (λ node. AreFewSteps node.steps) tree.now }
{
    tree.nodes.len() <= u32::MAX as usize && tree.nodes.iter().all(|node| has_few_steps(node))
}

/// The network of these words over the calculus of colours.
fn coloured(
    rt: &impl Abort,
    alloc: Global,
    c: &Calculus,
    nodes: u32,
    words: &[u64],
) -> Result<Net, Fail>
    ensures { IfOk result (λ net. IsNetwork c.now.algebra net.nodes net.words) }
{
    let net = net_of(alloc, c.full(), nodes, words)?;
    assert!(rt; net.words() == words && is_network(&net, c));
    Ok(net)
}

/// The tree of these rows.
fn small_tree(rt: &impl Abort, alloc: Global, rows: &[Row]) -> Result<Tree, Fail>
    ensures few { IfOk result (λ tree. length tree < 2 ^ 32) }
    ensures steps { IfOk result (λ tree. All (λ node. AreFewSteps node.steps) tree) }
{
    let tree = tree_of(alloc, rows)?;
    assert!(rt; is_small(&tree));
    Ok(tree)
}

/// What the check says of the tree, and how many splits it has.
fn checked(
    rt: &impl Abort,
    alloc: Global,
    words: &[u64],
    nodes: u32,
    rows: &[Row],
) -> Result<(Result<(), TreeFault>, u32), Fail> {
    let c = ramsey(alloc)?;
    let net = coloured(rt, alloc, &c, nodes, words)?;
    let tree = small_tree(rt, alloc, rows)?;
    Ok((check(alloc, &net, &c, &tree), tree.splits()))
}

const NONE: (u32, u32) = (0, 0);

const EMPTY: Row = (Kind::Empty, NONE, &[], &[], None);

const OPEN: Row = (Kind::Open, NONE, &[], &[], None);

const FOUND: Row = (Kind::Found, NONE, &[], &[], None);

const LATER: Row = (Kind::Later, NONE, &[], &[], None);

const SPLIT: Row = (Kind::Split, (0, 5), &[A, B], &[1, 2], None);

const LISTED: Row = (
    Kind::Split,
    (0, 5),
    &[A, B],
    &[1, 2],
    Some(&[(1, 0, 3), (2, 0, 4)]),
);

const FIRST: Row = (
    Kind::Empty,
    NONE,
    &[],
    &[],
    Some(&[(1, 0, 5), (3, 0, 5), (3, 1, 5)]),
);

const SECOND: Row = (
    Kind::Empty,
    NONE,
    &[],
    &[],
    Some(&[(2, 0, 5), (4, 0, 5), (4, 2, 5)]),
);

/// A leaf that holds what doesn't count.
const HOLDING: Row = (Kind::Empty, (7, 3), &[9], &[5, 5], None);

/// The second leaf, by more steps than it takes.
const DETOUR: Row = (
    Kind::Empty,
    NONE,
    &[],
    &[],
    Some(&[(2, 0, 4), (2, 0, 5), (4, 0, 5), (4, 2, 5), (0, 1, 2)]),
);

const STEPLESS: Row = (Kind::Empty, NONE, &[], &[], Some(&[]));

/// A split that leaves part b out.
const HALF: Row = (Kind::Split, (0, 5), &[A], &[1], None);

/// A tree, and what the check says of it over the six nodes.
type Case<'a> = (&'a [Row<'a>], Result<(), TreeFault>);

/// Trees that refute: part a makes 1, 3 and 5 a triangle of b, part b makes 2, 4 and 5 a triangle of a.
const REFUTING: [Case; 4] = [
    (&[SPLIT, EMPTY, EMPTY], Ok(())),
    (&[LISTED, FIRST, SECOND], Ok(())),
    (&[LISTED, FIRST, EMPTY], Ok(())),
    (&[SPLIT, EMPTY, HOLDING], Ok(())),
];

/// Trees with a leaf with no empty set, as nothing is narrowed, or too little.
const NARROWED_TOO_LITTLE: [Case; 3] = [
    (&[EMPTY], Err(TreeFault::NotEmpty { node: 0 })),
    (
        &[
            LISTED,
            (Kind::Empty, NONE, &[], &[], Some(&[(1, 0, 5), (3, 0, 5)])),
            SECOND,
        ],
        Err(TreeFault::NotEmpty { node: 1 }),
    ),
    (
        &[LISTED, FIRST, STEPLESS],
        Err(TreeFault::NotEmpty { node: 2 }),
    ),
];

/// Trees with parts that don't have each base relation, or with a leaf of another kind, which comes after the faults of
/// nodes before it.
const OPEN_OR_UNCOVERED: [Case; 4] = [
    (&[HALF, EMPTY], Err(TreeFault::Uncovered { node: 0 })),
    (&[SPLIT, EMPTY, OPEN], Err(TreeFault::BadTree { node: 2 })),
    (&[SPLIT, OPEN, OPEN], Err(TreeFault::BadTree { node: 1 })),
    (&[HALF, OPEN], Err(TreeFault::Uncovered { node: 0 })),
];

/// Nodes that are no preorder list.
const OUT_OF_ORDER: [Case; 5] = [
    (&[], Err(TreeFault::BadTree { node: 0 })),
    (&[EMPTY, EMPTY], Err(TreeFault::BadTree { node: 1 })),
    (
        &[(Kind::Split, (0, 5), &[A, B], &[2, 1], None), EMPTY, EMPTY],
        Err(TreeFault::BadTree { node: 0 }),
    ),
    (&[SPLIT, EMPTY], Err(TreeFault::BadTree { node: 0 })),
    (
        &[
            (Kind::Split, (0, 5), &[6], &[1], None),
            (Kind::Split, (0, 5), &[A, B], &[2, 3], None),
            EMPTY,
        ],
        Err(TreeFault::BadTree { node: 1 }),
    ),
];

/// Trees with no split of an edge into as many parts as children.
const BAD_SPLITS: [Case; 4] = [
    (
        &[(Kind::Split, (5, 0), &[A, B], &[1, 2], None), EMPTY, EMPTY],
        Err(TreeFault::BadTree { node: 0 }),
    ),
    (
        &[(Kind::Split, (0, 6), &[A, B], &[1, 2], None), EMPTY, EMPTY],
        Err(TreeFault::BadTree { node: 0 }),
    ),
    (
        &[(Kind::Split, (0, 5), &[A], &[1, 2], None), EMPTY, EMPTY],
        Err(TreeFault::BadTree { node: 0 }),
    ),
    (
        &[(Kind::Split, (0, 5), &[], &[], None)],
        Err(TreeFault::BadTree { node: 0 }),
    ),
];

/// Trees with a step that isn't of three different nodes.
const BAD_STEPS: [Case; 2] = [
    (
        &[
            LISTED,
            (
                Kind::Empty,
                NONE,
                &[],
                &[],
                Some(&[(1, 0, 5), (3, 0, 5), (3, 1, 6)]),
            ),
            SECOND,
        ],
        Err(TreeFault::BadStep { node: 1, step: 2 }),
    ),
    (
        &[
            LISTED,
            (
                Kind::Empty,
                NONE,
                &[],
                &[],
                Some(&[(1, 0, 5), (3, 0, 5), (3, 3, 5)]),
            ),
            SECOND,
        ],
        Err(TreeFault::BadStep { node: 1, step: 2 }),
    ),
];

/// Trees with two faults: forms come before networks, and within forms the first node.
const BAD_FORMS: [Case; 2] = [
    (&[HALF, EMPTY, EMPTY], Err(TreeFault::BadTree { node: 2 })),
    (
        &[
            (Kind::Split, (0, 5), &[A, B], &[1, 2], Some(&[(1, 1, 2)])),
            EMPTY,
        ],
        Err(TreeFault::BadTree { node: 0 }),
    ),
];

/// Trees with a part beyond the calculus, with children that aren't the next nodes, or with a node too many.
const ODD: [Case; 5] = [
    (
        &[(Kind::Split, (0, 5), &[u64::MAX], &[1], None), EMPTY],
        Err(TreeFault::NotEmpty { node: 1 }),
    ),
    (
        &[(Kind::Split, (0, 5), &[A, B], &[1, 1], None), EMPTY, EMPTY],
        Err(TreeFault::BadTree { node: 0 }),
    ),
    (
        &[(Kind::Split, (0, 5), &[A, B], &[0, 2], None), EMPTY, EMPTY],
        Err(TreeFault::BadTree { node: 0 }),
    ),
    (
        &[(Kind::Split, (0, 5), &[A, B], &[1, 9], None), EMPTY, EMPTY],
        Err(TreeFault::BadTree { node: 0 }),
    ),
    (
        &[SPLIT, EMPTY, EMPTY, EMPTY],
        Err(TreeFault::BadTree { node: 3 }),
    ),
];

/// Checks each tree over the six nodes.
fn assert_said(rt: &impl Abort, alloc: Global, table: &[Case]) -> Result<(), Fail> {
    for (rows, wanted) in table {
        let (said, _splits) = checked(rt, alloc, &FAN, 6, rows)?;
        assert!(rt; said == *wanted, "of {} nodes", rows.len());
    }
    Ok(())
}

#[test]
fn trees_refute_whose_leaves_have_empty_sets(rt: HostRuntime) -> Result<(), Fail> {
    assert_said(&rt, rt.alloc(), &REFUTING)
}

#[test]
fn the_first_leaf_with_no_empty_set_is_told(rt: HostRuntime) -> Result<(), Fail> {
    assert_said(&rt, rt.alloc(), &NARROWED_TOO_LITTLE)
}

#[test]
fn the_first_node_that_refutes_nothing_is_told(rt: HostRuntime) -> Result<(), Fail> {
    assert_said(&rt, rt.alloc(), &OPEN_OR_UNCOVERED)
}

#[test]
fn nodes_stand_in_preorder(rt: HostRuntime) -> Result<(), Fail> {
    assert_said(&rt, rt.alloc(), &OUT_OF_ORDER)
}

#[test]
fn an_edge_is_split_into_as_many_parts_as_children(rt: HostRuntime) -> Result<(), Fail> {
    assert_said(&rt, rt.alloc(), &BAD_SPLITS)
}

#[test]
fn steps_are_of_three_different_nodes(rt: HostRuntime) -> Result<(), Fail> {
    assert_said(&rt, rt.alloc(), &BAD_STEPS)
}

#[test]
fn forms_come_before_networks(rt: HostRuntime) -> Result<(), Fail> {
    assert_said(&rt, rt.alloc(), &BAD_FORMS)
}

#[test]
fn odd_numbers_and_parts_are_told(rt: HostRuntime) -> Result<(), Fail> {
    assert_said(&rt, rt.alloc(), &ODD)
}

/// The search in five nodes, where both colours are open everywhere, up to the pentagon.
const PENTAGON: [Row; 11] = [
    (Kind::Split, (0, 1), &[A, B], &[1, 10], None),
    (Kind::Split, (0, 2), &[A, B], &[2, 9], None),
    (Kind::Split, (0, 3), &[A, B], &[3, 4], None),
    EMPTY,
    (Kind::Split, (0, 4), &[A, B], &[5, 6], None),
    EMPTY,
    (Kind::Split, (1, 3), &[A, B], &[7, 8], None),
    FOUND,
    LATER,
    LATER,
    LATER,
];

#[test]
fn a_found_leaf_refutes_nothing(rt: HostRuntime) -> Result<(), Fail> {
    let (said, splits) = checked(&rt, rt.alloc(), &[6; 10], 5, &PENTAGON)?;
    assert!(rt; said == Err(TreeFault::BadTree { node: 7 }));
    assert_same(&rt, splits, 5);
    Ok(())
}

/// The words, the nodes, the tree, and what the check says of it.
const LEAVES: [(&[u64], u32, &[Row], Result<(), TreeFault>); 6] = [
    (&[0], 2, &[EMPTY], Ok(())),
    (&[0], 2, &[STEPLESS], Ok(())),
    (&[A], 2, &[EMPTY], Err(TreeFault::NotEmpty { node: 0 })),
    (&[A], 2, &[STEPLESS], Err(TreeFault::NotEmpty { node: 0 })),
    (&[], 1, &[EMPTY], Err(TreeFault::NotEmpty { node: 0 })),
    (&[], 1, &[STEPLESS], Err(TreeFault::NotEmpty { node: 0 })),
];

#[test]
fn an_empty_set_needs_no_split(rt: HostRuntime) -> Result<(), Fail> {
    for (words, nodes, rows, wanted) in LEAVES {
        let (said, splits) = checked(&rt, rt.alloc(), words, nodes, rows)?;
        assert!(rt; said == wanted && splits == 0, "of {nodes} nodes");
    }
    Ok(())
}

/// The traced tree of the tree, as far as the check of it says that it refutes too.
fn traced(
    rt: &impl Abort,
    alloc: Global,
    words: &[u64],
    nodes: u32,
    rows: &[Row],
) -> Result<Result<Tree, TreeFault>, Fail> {
    let c = ramsey(alloc)?;
    let net = coloured(rt, alloc, &c, nodes, words)?;
    let tree = small_tree(rt, alloc, rows)?;
    let traced = trace(alloc, &net, &c, &tree);
    if let Ok(traced) = &traced {
        assert!(rt; is_small(traced));
        assert!(rt; check(alloc, &net, &c, traced).is_ok());
    }
    Ok(traced)
}

fn is_step(step: &Step, row: &(u32, u32, u32)) -> bool {
    (step.i, step.j, step.k) == *row
}

fn has_steps(node: &Node, rows: &[(u32, u32, u32)]) -> bool {
    match &node.steps {
        Steps::Sweep => false,
        Steps::List(steps) => {
            steps.len() == rows.len()
                && steps.iter().zip(rows).all(|(step, row)| is_step(step, row))
        }
    }
}

fn is_row(node: &Node, row: &Row) -> bool {
    let (kind, ends, parts, children, steps) = *row;
    node.kind == kind
        && (node.i, node.j) == ends
        && have_words(&node.parts, parts)
        && node.children.as_slice() == children
        && has_steps(node, steps.unwrap_or(&[]))
}

/// Traces the tree, and compares its nodes.
fn trace_to(
    rt: &impl Abort,
    alloc: Global,
    words: &[u64],
    nodes: u32,
    rows: &[Row],
    wanted: &[Row],
) -> Result<(), Fail> {
    let traced = traced(rt, alloc, words, nodes, rows)?;
    let tree = traced.ok().ok_or("refuted")?;
    assert!(rt; tree.nodes.len() == wanted.len());
    for (node, row) in tree.nodes.iter().zip(wanted) {
        assert!(rt; is_row(node, row), "{row:?}");
    }
    Ok(())
}

/// The tree by sweeps, by the ruled steps alone, and with more than it takes.
const TRACEABLE: [&[Row]; 3] = [
    &[SPLIT, EMPTY, EMPTY],
    &[LISTED, FIRST, SECOND],
    &[SPLIT, HOLDING, DETOUR],
];

#[test]
fn lists_the_ruled_steps_of_each_node(rt: HostRuntime) -> Result<(), Fail> {
    for rows in TRACEABLE {
        trace_to(&rt, rt.alloc(), &FAN, 6, rows, &[LISTED, FIRST, SECOND])?;
    }
    Ok(())
}

#[test]
fn no_step_is_listed_where_a_set_is_empty(rt: HostRuntime) -> Result<(), Fail> {
    trace_to(&rt, rt.alloc(), &[0], 2, &[EMPTY], &[STEPLESS])?;
    trace_to(&rt, rt.alloc(), &[A, 0, B], 3, &[EMPTY], &[STEPLESS])
}

/// Trees that the six nodes can't be traced along, and their faults.
const UNTRACEABLE: [(&[Row], TreeFault); 4] = [
    (&[], TreeFault::BadTree { node: 0 }),
    (&[EMPTY], TreeFault::NotEmpty { node: 0 }),
    (&[SPLIT, EMPTY, OPEN], TreeFault::BadTree { node: 2 }),
    (&[HALF, EMPTY], TreeFault::Uncovered { node: 0 }),
];

#[test]
fn tells_the_fault_of_a_tree_that_it_can_not_trace(rt: HostRuntime) -> Result<(), Fail> {
    for (rows, wanted) in UNTRACEABLE {
        let said = traced(&rt, rt.alloc(), &FAN, 6, rows)?.err();
        assert!(rt; said == Some(wanted), "of {} nodes", rows.len());
    }
    Ok(())
}
