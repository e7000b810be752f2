//! Networks over the calculus of points on a line: how many nodes and edges they have, how facts narrow them, and the
//! names of their nodes.
ghost use Rattle.std.specs.Prelude.{◌≡◌, ◌<◌, All, IfOk, IsTrue};
ghost use Rattle.calculus_table.specs.Rel.{IsWithin};
ghost use Rattle.calculus_table.specs.Composition.{full_of};

use crate::asserts::{assert_same, assert_same_in};
use crate::nets::{AFTER, ANY, BEFORE, SAME, assert_words, fact};
use calculus_builtin::point;
use calculus_table::{Calculus, Compose, Rel};
use network_words::{Fact, Net, NetFault, edge_between};
use std::alloc::{AllocError, Global};
use std::process::Abort;
use std::test::Fail;

/// Nodes and edges.
const SIZES: [(u32, u32); 5] = [(1, 0), (2, 1), (4, 6), (128, 8128), (256, 32640)];

/// Fails unless the network has so many edges, with a set for each, and the base relations of points.
fn assert_edges(rt: &impl Abort, net: &Net, edges: u32) {
    assert_same(rt, net.edges(), edges);
    assert_same(rt, net.words().len(), edges as usize);
    assert_same(rt, net.full(), Rel::of(ANY));
}

#[test]
fn networks_have_one_to_the_limit_of_nodes(rt: HostRuntime) -> Result<(), Fail> {
    for (nodes, edges) in SIZES {
        assert_edges(&rt, &Net::new(rt.alloc(), nodes, Rel::of(ANY))?, edges);
    }
    Ok(())
}

#[test]
fn other_numbers_of_nodes_are_refused(rt: HostRuntime) {
    for nodes in [0, 257, u32::MAX] {
        let refused = Net::new(rt.alloc(), nodes, Rel::of(ANY)).map(|net| net.nodes());
        assert_same(&rt, refused, Err(NetFault::Nodes));
    }
}

/// Four nodes of which nothing is known.
fn four_nodes(alloc: Global) -> Result<Net, NetFault>
    ensures { IfOk result (λ net. net.nodes ≡ 4) }
{
    Net::new(alloc, 4, Rel::of(ANY))
}

/// The nodes of an edge of four nodes, and its number.
const EDGES: [(u32, u32, u32); 6] = [
    (0, 1, 0),
    (0, 2, 1),
    (0, 3, 2),
    (1, 2, 3),
    (1, 3, 4),
    (2, 3, 5),
];

#[test]
fn edges_are_numbered_in_lexicographic_order(rt: HostRuntime) -> Result<(), Fail> {
    let net = four_nodes(rt.alloc())?;
    for (i, j, edge) in EDGES {
        assert!(rt; i < j && j < net.nodes());
        assert_same(&rt, net.edge(i, j), edge);
    }
    Ok(())
}

/// The nodes, the edge's nodes in either order, and its number.
const EITHER_ORDER: [(u32, u32, u32, u32); 4] = [
    (4, 3, 1, 4),
    (4, 1, 3, 4),
    (2, 1, 0, 0),
    (256, 255, 254, 32639),
];

#[test]
fn an_edge_has_one_number_in_either_order(rt: HostRuntime) {
    for (nodes, i, j, edge) in EITHER_ORDER {
        assert!(rt; nodes <= 256 && i < nodes && j < nodes && i != j);
        assert_same_in(&rt, edge_between(nodes, i, j), edge, (i, j, nodes));
    }
}

/// A fact: two nodes and a set.
type FactRow = (u32, u32, u64);

/// The facts of these rows.
fn facts_of(alloc: Global, rows: &[FactRow]) -> Result<Vec<Fact>, NetFault> {
    let mut facts = Vec::new(alloc);
    for (i, j, word) in rows {
        facts
            .push(fact(*i, *j, *word))
            .map_err(|_| NetFault::Memory)?;
    }
    Ok(facts)
}

/// Whether each fact has a set of the calculus.
fn are_of_the_calculus(c: &Calculus, facts: &[Fact]) -> bool
    ensures { IsTrue result
        → All (λ fact. IsWithin fact.rel (full_of c.now.algebra)) facts.now }
{
    let full = c.full();
    facts.iter().all(|fact| fact.rel.within(full))
}

/// Adds facts over the calculus to the network.
fn add_facts(rt: &impl Abort, c: &Calculus, net: &mut Net, facts: &[Fact]) -> Result<(), NetFault> {
    assert!(rt; facts.len() <= 3 && are_of_the_calculus(c, facts));
    net.add_facts(c, facts)
}

/// Adds the facts of these rows to the network.
fn add(rt: &impl Abort, alloc: Global, net: &mut Net, rows: &[FactRow]) -> Result<(), NetFault> {
    let c = point(alloc).map_err(|_| NetFault::Memory)?;
    let facts = facts_of(alloc, rows)?;
    add_facts(rt, &c, net, &facts)
}

/// Three facts of four nodes.
const FACTS: [FactRow; 3] = [(2, 0, BEFORE | SAME), (0, 2, SAME | AFTER), (1, 3, BEFORE)];

/// The sets of four nodes after these facts.
const NARROWED: [u64; 6] = [ANY, SAME | AFTER, ANY, ANY, BEFORE, ANY];

/// Four nodes, narrowed by the facts.
fn narrowed(rt: &impl Abort, alloc: Global) -> Result<Net, NetFault> {
    let mut net = four_nodes(alloc)?;
    add(rt, alloc, &mut net, &FACTS)?;
    Ok(net)
}

#[test]
fn facts_narrow_either_way_round(rt: HostRuntime) -> Result<(), Fail> {
    let net = narrowed(&rt, rt.alloc())?;
    assert_words(&rt, net.words(), &NARROWED);
    assert_words(&rt, net.copy()?.words(), &NARROWED);
    Ok(())
}

/// Facts, and the fault of the first that has one.
const FAULTY: [(&[FactRow], NetFault); 2] = [
    (
        &[(0, 1, BEFORE), (1, 1, SAME), (0, 9, SAME)],
        NetFault::SelfEdge { at: 1 },
    ),
    (&[(0, 9, SAME)], NetFault::NoNode { at: 0 }),
];

#[test]
fn the_first_faulty_fact_is_told_and_none_is_added(rt: HostRuntime) -> Result<(), Fail> {
    let mut net = narrowed(&rt, rt.alloc())?;
    for (rows, fault) in FAULTY {
        assert_same(&rt, add(&rt, rt.alloc(), &mut net, rows), Err(fault));
        assert_words(&rt, net.words(), &NARROWED);
    }
    Ok(())
}

/// Owned names.
fn names_of(alloc: Global, words: &[&str]) -> Result<Vec<String>, AllocError> {
    let mut names = Vec::new(alloc);
    for word in words {
        names.push(String::from_str(alloc, word)?)?;
    }
    Ok(names)
}

/// Gives the nodes these names.
fn name(rt: &impl Abort, alloc: Global, net: &mut Net, words: &[&str]) -> Result<(), NetFault>
    ensures { net.new.nodes ≡ net.old.nodes }
{
    let names = names_of(alloc, words).map_err(|_| NetFault::Memory)?;
    assert!(rt; names.len() == net.nodes() as usize);
    net.set_names(names)
}

/// Four nodes with names, given after others of which one comes twice.
fn named_nodes(rt: &impl Abort, alloc: Global) -> Result<Net, NetFault>
    ensures { IfOk result (λ net. net.nodes ≡ 4) }
{
    let mut net = four_nodes(alloc)?;
    let refused = name(rt, alloc, &mut net, &["a", "b", "a", "b"]);
    assert_same(rt, refused, Err(NetFault::NameTwice { at: 2 }));
    name(rt, alloc, &mut net, &["a", "b", "c", "d"])?;
    Ok(net)
}

#[test]
fn nodes_have_names(rt: HostRuntime) -> Result<(), Fail> {
    let nameless = four_nodes(rt.alloc())?;
    assert_same(&rt, nameless.name(0), None);
    let net = named_nodes(&rt, rt.alloc())?;
    assert_same(&rt, net.name(3), Some("d"));
    Ok(())
}

/// A name, and the node that has it.
const FOUND: [(&[u8], Option<u32>); 3] = [(b"c", Some(2)), (b"e", None), (b"\xFF", None)];

#[test]
fn nodes_are_found_by_their_names(rt: HostRuntime) -> Result<(), Fail> {
    let net = named_nodes(&rt, rt.alloc())?;
    for (name, node) in FOUND {
        assert_same(&rt, net.find(name), node);
    }
    assert_same(&rt, net.copy()?.find(b"b"), Some(1));
    Ok(())
}

fn are_shared<T: Send + Sync>(_value: &T) {}

#[test]
fn networks_are_shared_between_threads(rt: HostRuntime) -> Result<(), Fail> {
    let net = four_nodes(rt.alloc())?;
    are_shared(&net);
    Ok(())
}
