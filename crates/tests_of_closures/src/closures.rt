//! Closures on one thread: of networks as published, and of chains; slices that are closed on copies; and paths of
//! closed networks, beside each level closed anew.
ghost use Rattle.std.specs.Prelude.{◌<◌, IsTrue};
ghost use Rattle.network_words.specs.Edge.{IsProperTriple};
ghost use Rattle.slice_copy.specs.Copies.{IsSettledCopy};

use crate::asserts::assert_same;
use crate::nets::{
    NTPP, TPP, assert_words, chain, is_network, net_of, next, put, put_chain, random_net,
};
use calculus_builtin::{allen, point, rcc8};
use calculus_table::{Calculus, Compose, Memory, Rel};
use closure_seq::{Change, ClosedPath, Work, close, close_with, close_within};
use compose_fast::Fast;
use network_words::Net;
use slice_copy::{Note, SliceCopy};
use std::alloc::Global;
use std::mem;
use std::process::Abort;
use std::test::Fail;

/// All base relations of regions.
const ALL: u64 = (1 << 8) - 1;

/// Closes the network in room of its own.
fn close_in_room(
    rt: &impl Abort,
    alloc: Global,
    c: &Calculus,
    net: &mut Net,
) -> Result<(), Memory> {
    assert!(rt; is_network(net, c));
    let mut work = Work::new(alloc, net.nodes())?;
    close_with(net, c, &mut work);
    Ok(())
}

/// Nodes, the sets of the edges, and those of the closure.
const CLOSURES: [(u32, &[u64], &[u64]); 5] = [
    (3, &[TPP, ALL, NTPP], &[TPP, NTPP, NTPP]),
    (3, &[ALL, 0, ALL], &[0, 0, 0]),
    (3, &[ALL, ALL, ALL], &[ALL, ALL, ALL]),
    (2, &[0], &[0]),
    (1, &[], &[]),
];

#[test]
fn closes_small_networks_as_published(rt: HostRuntime) -> Result<(), Fail> {
    let c = rcc8(rt.alloc())?;
    assert!(rt; c.full().word() == ALL);
    for (nodes, given, closed) in CLOSURES {
        let mut net = net_of(rt.alloc(), c.full(), nodes, given)?;
        assert_words(&rt, net.words(), given);
        close_in_room(&rt, rt.alloc(), &c, &mut net)?;
        assert_words(&rt, net.words(), closed);
    }
    Ok(())
}

/// Closes the network from the closure of another one.
fn close_from(
    rt: &impl Abort,
    alloc: Global,
    c: &Calculus,
    net: &mut Net,
    mut other: Net,
) -> Result<(), Memory> {
    assert!(rt; is_network(net, c));
    assert!(rt; is_network(&other, c));
    assert!(rt; other.nodes() == net.nodes());
    let mut work = Work::new(alloc, net.nodes())?;
    close_with(&mut other, c, &mut work);
    close_within(net, other.words(), c, &mut work);
    Ok(())
}

#[test]
fn closing_goes_on_from_closed_networks(rt: HostRuntime) -> Result<(), Fail> {
    let c = rcc8(rt.alloc())?;
    for (nodes, given, closed) in CLOSURES {
        // with every relation, and the closure itself, which the network needn't lie within
        let full = Net::new(rt.alloc(), nodes, c.full())?;
        for other in [full, net_of(rt.alloc(), c.full(), nodes, closed)?] {
            let mut net = net_of(rt.alloc(), c.full(), nodes, given)?;
            close_from(&rt, rt.alloc(), &c, &mut net, other)?;
            assert_words(&rt, net.words(), closed);
        }
    }
    Ok(())
}

/// Fails unless every set of the network is this one.
fn assert_all(rt: &impl Abort, net: &Net, word: u64) {
    assert!(rt; net.words().iter().all(|found| *found == word));
}

/// Fails unless the closure of a chain, each node of which has `word` to the next, has `word` between any two nodes.
fn assert_chain<C: Compose>(
    rt: &impl Abort,
    alloc: Global,
    c: &C,
    nodes: u32,
    word: u64,
) -> Result<(), Fail> {
    let mut net = chain(alloc, c.full(), nodes, word)?;
    assert!(rt; is_network(&net, c));
    close(alloc, &mut net, c)?;
    assert_all(rt, &net, word);
    Ok(())
}

/// The same of short chains and of long ones.
fn assert_chains<C: Compose>(rt: &impl Abort, alloc: Global, c: &C, word: u64) -> Result<(), Fail> {
    for nodes in [2, 3, 15, 16, 17, 31, 33] {
        assert_chain(rt, alloc, c, nodes, word)?;
    }
    Ok(())
}

#[test]
fn closes_chains_of_transitive_relations(rt: HostRuntime) -> Result<(), Fail> {
    let alloc = rt.alloc();
    assert_chains(&rt, alloc, &rcc8(alloc)?, NTPP)?;
    assert_chains(&rt, alloc, &allen(alloc)?, 1)?;
    assert_chains(&rt, alloc, &point(alloc)?, 1)
}

#[test]
fn closes_chains_with_fast_tables(rt: HostRuntime) -> Result<(), Fail> {
    let alloc = rt.alloc();
    let fast = Fast::new(alloc, &rcc8(alloc)?)?;
    assert_chains(&rt, alloc, &fast, TPP | NTPP)
}

/// Closes the rows of the copy as far as there is room for notes, and forgets these.
fn close_further(rt: &impl Abort, c: &Calculus, copy: &mut SliceCopy)
    requires { IsSettledCopy c.now.algebra copy.old }
    ensures { IsSettledCopy c.now.algebra copy.new }
{
    assert!(rt; copy.close_rows(c));
    copy.forget_notes();
}

/// Closes the network on a copy. Returns whether as many edges were looked at as an eighth of the square of its nodes.
fn looks_at_an_eighth(
    rt: &impl Abort,
    alloc: Global,
    c: &Calculus,
    net: &Net,
) -> Result<bool, Fail> {
    assert!(rt; is_network(net, c));
    let mut copy = SliceCopy::new(alloc, net.nodes())?;
    copy.begin(c, net.words(), 0, net.edges());
    for _ in 0..4 {
        close_further(rt, c, &mut copy);
    }
    assert!(rt; copy.is_idle());
    Ok(copy.is_due())
}

/// Nodes of which the first forty make a chain, and whether as many edges are looked at as an eighth of the square of
/// the nodes, 780 and 800. Each of the 780 edges within the chain becomes smaller, so each is looked at.
const LOOKS: [(u32, bool); 2] = [(79, true), (80, false)];

#[test]
fn looks_at_few_edges_more_than_once(rt: HostRuntime) -> Result<(), Fail> {
    let c = rcc8(rt.alloc())?;
    for (nodes, due) in LOOKS {
        let mut net = Net::new(rt.alloc(), nodes, c.full())?;
        put_chain(&mut net, 40, TPP | NTPP);
        assert_same(&rt, looks_at_an_eighth(&rt, rt.alloc(), &c, &net)?, due);
    }
    Ok(())
}

/// Narrows a network along the triple that was noted.
fn narrow_along(rt: &impl Abort, net: &mut Net, c: &Calculus, note: Note) {
    let (i, j, k) = (u32::from(note.i), u32::from(note.j), u32::from(note.k));
    assert!(rt; is_network(net, c) && is_triple(net.nodes(), i, j, k));
    let along = c.compose(net.get(c, i, j), net.get(c, j, k));
    net.narrow(c, i, k, along);
}

/// Whether these are three nodes.
fn is_triple(nodes: u32, i: u32, j: u32, k: u32) -> bool
    ensures { IsTrue result → IsProperTriple nodes i j k }
{
    i < nodes && j < nodes && k < nodes && i != j && j != k && i != k
}

/// Narrows a network along the triples that were noted, one after another.
fn narrow_along_all(rt: &impl Abort, net: &mut Net, c: &Calculus, notes: &[Note]) {
    for note in notes {
        narrow_along(rt, net, c, *note);
    }
}

/// Closes a slice of the network on a copy and narrows the network as was noted. Returns whether the slice is closed.
fn close_slice(
    rt: &impl Abort,
    c: &Calculus,
    copy: &mut SliceCopy,
    net: &mut Net,
    from: u32,
    to: u32,
) -> bool {
    assert!(rt; is_network(net, c) && net.nodes() == copy.nodes() && to <= net.edges());
    copy.begin(c, net.words(), from, to);
    if !copy.close_rows(c) {
        return false;
    }
    narrow_along_all(rt, net, c, copy.notes());
    assert!(rt; net.nodes() == copy.nodes());
    copy.matches(c, net.words())
}

/// Three slices of the edges of forty nodes.
const SLICES: [(u32, u32); 3] = [(0, 100), (100, 101), (101, 780)];

/// Closes one slice after another. Returns whether each is closed.
fn close_slices(rt: &impl Abort, c: &Calculus, copy: &mut SliceCopy, net: &mut Net) -> bool {
    let mut closed = true;
    for (from, to) in SLICES {
        closed &= close_slice(rt, c, copy, net, from, to);
    }
    closed
}

/// Closes the slices of the network ten times on one copy. Returns whether each is closed in the end. A slice may take
/// several turns, since there is room for so many notes alone.
fn close_by_turns(rt: &impl Abort, c: &Calculus, copy: &mut SliceCopy, net: &mut Net) -> bool {
    let mut closed = false;
    for _ in 0..10 {
        closed = close_slices(rt, c, copy, net);
    }
    closed
}

#[test]
fn slices_are_closed_on_copies(rt: HostRuntime) -> Result<(), Fail> {
    let c = rcc8(rt.alloc())?;
    let mut net = chain(rt.alloc(), c.full(), 40, TPP | NTPP)?;
    let mut copy = SliceCopy::new(rt.alloc(), 40)?;
    assert!(rt; close_by_turns(&rt, &c, &mut copy, &mut net));
    assert_all(&rt, &net, TPP | NTPP);
    Ok(())
}

/// A number below `bound`, of a row that looks random.
fn random(seed: &mut u64, bound: u32) -> u32
    requires { 0 < bound }
    ensures { result < bound }
{
    *seed = next(*seed);
    (*seed >> 33) as u32 % bound
}

/// Makes each empty set full.
fn fill_empty_sets(net: &mut Net) {
    for edge in 0..net.edges() {
        if is_empty_at(net, edge) {
            put(net, edge, u64::MAX);
        }
    }
}

/// Whether the edge is there and its set is empty.
fn is_empty_at(net: &Net, edge: u32) -> bool {
    edge < net.edges() && net.word(edge).is_empty()
}

/// Fails unless the top of the path has the set of this edge that `net` has.
fn assert_set(rt: &impl Abort, path: &ClosedPath, net: &Net, edge: u32) {
    assert!(rt; edge < net.edges() && edge < path.edges());
    assert!(rt; path.word(edge) == net.word(edge), "of edge {edge}");
}

/// Fails unless the top of the path has the sets of `net`, and is told to be empty where one is.
fn assert_top(rt: &impl Abort, path: &ClosedPath, net: &Net) {
    assert_same(rt, path.nodes(), net.nodes());
    for edge in 0..net.edges() {
        assert_set(rt, path, net, edge);
    }
    assert_same(rt, path.is_empty(), net.words().contains(&0));
}

/// Fails unless the changes of the top, undone from the last to the first, lead from the sets of `net` to those of
/// `below`.
fn assert_changes(rt: &impl Abort, path: &ClosedPath, mut net: Net, below: &Net) {
    assert!(rt; !path.is_first() && !path.is_empty());
    undo_all(rt, &mut net, path.changes());
    assert!(rt; net.words() == below.words());
}

/// Undoes the changes, from the last to the first.
fn undo_all(rt: &impl Abort, net: &mut Net, changes: &[Change]) {
    for change in changes.iter().rev() {
        undo(rt, net, change);
    }
}

/// Puts the set back that the change replaced.
fn undo(rt: &impl Abort, net: &mut Net, change: &Change) {
    assert!(rt; change.edge < net.edges());
    net.set(change.edge, change.old);
}

/// Narrows a random edge of the path to a random part of its set. Returns both.
fn narrow_at_random(
    rt: &impl Abort,
    path: &mut ClosedPath,
    seed: &mut u64,
) -> Result<(u32, Rel), Memory> {
    let edges = path.edges();
    assert!(rt; 0 < edges);
    let edge = random(seed, edges);
    let rel = path.word(edge).meet(Rel::of(*seed >> 20));
    assert!(rt; rel.within(path.word(edge)));
    path.narrow(edge, rel)?;
    Ok((edge, rel))
}

/// A copy of the network with another set of the edge, closed anew.
fn closed_with<C: Compose>(
    rt: &impl Abort,
    alloc: Global,
    c: &C,
    net: &Net,
    edge: u32,
    rel: Rel,
) -> Result<Net, Memory> {
    let mut next = net.copy()?;
    put(&mut next, edge, rel.word());
    assert!(rt; is_network(&next, c));
    close(alloc, &mut next, c)?;
    Ok(next)
}

/// A path, beside the networks of its levels, each closed anew: the top one and those below.
#[derive(Drop)]
struct Walk {
    path: ClosedPath,
    top: Net,
    below: Vec<Net>,
    seed: u64,
}

/// Walks down, where there is a level below the top. Returns whether there is.
fn down(walk: &mut Walk) -> bool {
    if walk.path.is_first() {
        return false;
    }
    let Some(last) = walk.below.pop() else {
        return false;
    };
    walk.path.back();
    walk.top = last;
    true
}

/// Narrows the path at random. Returns the network of its new top, closed anew.
fn above(rt: &impl Abort, alloc: Global, c: &Calculus, walk: &mut Walk) -> Result<Net, Memory> {
    let (edge, rel) = narrow_at_random(rt, &mut walk.path, &mut walk.seed)?;
    closed_with(rt, alloc, c, &walk.top, edge, rel)
}

/// Walks up at random. Returns whether the new top has an empty set.
fn up(rt: &impl Abort, alloc: Global, c: &Calculus, walk: &mut Walk) -> Result<bool, Memory> {
    let next = above(rt, alloc, c, walk)?;
    let emptied = walk.path.is_empty();
    if !emptied {
        assert_changes(rt, &walk.path, next.copy()?, &walk.top);
    }
    let before = mem::replace(&mut walk.top, next);
    walk.below.push(before).map_err(|_| Memory)?;
    Ok(emptied)
}

/// A network in which one edge of four has a random set, which isn't empty.
fn start_of(alloc: Global, c: &Calculus, nodes: u32, seed: u64) -> Result<Net, Memory> {
    let net = random_net(alloc, c.full(), nodes, 4, 0, seed);
    let mut net = net.map_err(|_| Memory)?;
    fill_empty_sets(&mut net);
    Ok(net)
}

/// A path of one level, the closure of this network.
fn walk_from(
    rt: &impl Abort,
    alloc: Global,
    c: &Calculus,
    mut top: Net,
    seed: u64,
) -> Result<Walk, Memory> {
    assert!(rt; is_network(&top, c));
    let path = ClosedPath::new(alloc, &top, c)?;
    close(alloc, &mut top, c)?;
    let below = Vec::new(alloc);
    Ok(Walk {
        path,
        top,
        below,
        seed,
    })
}

/// Walks up or down at random. Returns whether the new top has an empty set.
fn step(rt: &impl Abort, alloc: Global, c: &Calculus, walk: &mut Walk) -> Result<bool, Memory> {
    if random(&mut walk.seed, 5) >= 2 || !down(walk) {
        return up(rt, alloc, c, walk);
    }
    Ok(false)
}

/// Walks up and down a path at random, and closes each level anew beside it. Returns whether a level had an empty set.
fn walk_on(rt: &impl Abort, alloc: Global, c: &Calculus, walk: &mut Walk) -> Result<bool, Memory> {
    let mut emptied = false;
    for _ in 0..24 {
        emptied |= step(rt, alloc, c, walk)?;
        assert_top(rt, &walk.path, &walk.top);
    }
    Ok(emptied)
}

/// Walks over a random network. Returns whether a level had an empty set.
fn walk_over(
    rt: &impl Abort,
    alloc: Global,
    c: &Calculus,
    nodes: u32,
    seed: u64,
) -> Result<bool, Memory> {
    let start = start_of(alloc, c, nodes, seed)?;
    let mut walk = walk_from(rt, alloc, c, start, seed)?;
    walk_on(rt, alloc, c, &mut walk)
}

/// Walks over four networks of so many nodes. Returns whether a level had an empty set.
fn walk_often(
    rt: &impl Abort,
    alloc: Global,
    c: &Calculus,
    nodes: u32,
    seed: &mut u64,
) -> Result<bool, Memory> {
    let mut emptied = false;
    for _ in 0..4 {
        *seed = next(*seed);
        emptied |= walk_over(rt, alloc, c, nodes, *seed)?;
    }
    Ok(emptied)
}

/// Walks over networks of few nodes and of many, and fails unless a level had an empty set.
fn assert_walks(rt: &impl Abort, alloc: Global, c: &Calculus) -> Result<(), Memory> {
    let mut seed = 88_172_645_463_325_252;
    let mut emptied = false;
    for nodes in [2, 3, 4, 5, 7, 15, 16, 17, 18, 33] {
        emptied |= walk_often(rt, alloc, c, nodes, &mut seed)?;
    }
    assert!(rt; emptied);
    Ok(())
}

#[test]
fn paths_are_what_closing_anew_says(rt: HostRuntime) -> Result<(), Fail> {
    let alloc = rt.alloc();
    assert_walks(&rt, alloc, &rcc8(alloc)?)?;
    assert_walks(&rt, alloc, &allen(alloc)?)?;
    assert_walks(&rt, alloc, &point(alloc)?)?;
    Ok(())
}

fn is_send<T: Send>() {}

#[test]
fn room_and_paths_go_to_other_threads() {
    is_send::<Work>();
    is_send::<SliceCopy>();
    is_send::<ClosedPath>();
}
