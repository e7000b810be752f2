//! The input that a demonstration makes for itself: rectangles and relations, drawn from a seed.
//!
//! The nodes are random rectangles. An edge has the relation of its two rectangles, unless a draw forgets it: then it
//! has all base relations, and a reasoner may find out how much of it follows from the others.
ghost use Rattle.std.specs.Prelude.{◌≡◌, ◌+◌, ◌*◌, ◌<◌, ◌≤◌, ℕ, length, pos, IfOk, OnOk};
ghost use Rattle.calculus_table.specs.Composition.{full_of};
ghost use Rattle.calculus_builtin.specs.Rcc8.{rcc8_algebra};
ghost use Rattle.network_words.specs.Edge.{edge_count, edge_at};
ghost use Rattle.network_words.specs.declared.TheConstants.{MAX_NODES};
ghost use Rattle.poly_exact.specs.Kept.{kept};
ghost use Rattle.geo_facts.specs.LineForm.{point_from};
ghost use Rattle.geo_facts.specs.Demo.{advance, state, drawn, rectangle_after, ring_of};
ghost use Rattle.geo_facts.specs.Demo.{AreDemoRings, IsDrawn, IsDemoTo, IsDemo};

use crate::relating::rcc8;
use calculus_table::{Memory, Rel};
use de9im::matrix;
use network_words::Net;
use poly_exact::{Point, Ring};
use std::alloc::Global;

/// The set of all base relations of RCC-8.
const ALL: u64 = 255;

/// The state of the generator.
#[derive(Drop)]
struct Draws {
    state: u32,
}

impl Draws {
    /// The next draw below `m`.
    fn below(&mut self, m: u32) -> u32
        requires { 0 < m }
        ensures state { self.new.state ≡ advance self.old.state }
        ensures value { result ≡ drawn m self.new.state }
        ensures below { result < m }
    {
        let next = (u64::from(self.state) * 1_664_525 + 1_013_904_223) % 4_294_967_296;
        self.state = next as u32;
        self.state / 65_536 % m
    }
}

/// What is drawn for an edge.
#[derive(Drop)]
struct Drawn {
    rel: Rel,
    /// 1 where the edge keeps its relation, 0 where it is forgotten.
    count: u32,
}

/// The network of a seed on so many nodes, and the number of its edges that aren't forgotten.
pub fn demo_net(alloc: Global, seed: u32, nodes: u32) -> Result<(Net, u32), Memory>
    requires some { 2 ≤ nodes }
    requires few { nodes ≤ MAX_NODES }
    ensures { IfOk result (λ r. IsDemo seed nodes r.0 r.1) }
{
    let mut draws = Draws { state: seed };
    let rings = draw_rings(alloc, &mut draws, nodes)?;
    let Ok(mut net) = Net::new(alloc, nodes, Rel::of(ALL)) else {
        return Err(Memory);
    };
    let count = draw_relations(&mut draws, &mut net, &rings)?;
    Ok((net, count))
}

/// The rings of the nodes.
fn draw_rings(alloc: Global, draws: &mut Draws, nodes: u32) -> Result<Vec<Ring>, Memory>
    ensures rings { IfOk result (λ rings. AreDemoRings draws.old.state nodes rings.items) }
    ensures state { OnOk result (draws.new.state ≡ state draws.old.state (4 * nodes)) }
{
    let mut rings = Vec::new(alloc);
    for node in 0..nodes {
        let ring = draw_ring(alloc, draws)?;
        let Ok(()) = rings.push(ring) else {
            return Err(Memory);
        };
    }
    Ok(rings)
}

/// The next rectangle, as a ring.
fn draw_ring(alloc: Global, draws: &mut Draws) -> Result<Ring, Memory>
    ensures ring { IfOk result (λ ring. ring ≡ kept (rectangle_after draws.old.state)) }
    ensures state { draws.new.state ≡ advance (advance (advance (advance draws.old.state))) }
{
    let left = draws.below(100);
    let bottom = draws.below(100);
    let right = left + (draws.below(40) + 1);
    let top = bottom + (draws.below(40) + 1);
    let points = [
        point(left, bottom),
        point(right, bottom),
        point(right, top),
        point(left, top),
    ];
    match Ring::new(alloc, &points) {
        Ok(ring) => Ok(ring),
        Err(_) => Err(Memory),
    }
}

/// The point of two coordinates.
fn point(x: u32, y: u32) -> Point
    ensures { result ≡ point_from (pos x) (pos y) }
{
    Point {
        x: i64::from(x),
        y: i64::from(y),
    }
}

/// Draws the relations of all edges, in edge order, and returns how many aren't forgotten.
fn draw_relations(draws: &mut Draws, net: &mut Net, rings: &[Ring]) -> Result<u32, Memory>
    requires rings { length rings.now ≡ net.old.nodes }
    ensures rest { net.new ≡ record net.old { words = net.new.words } }
    ensures length_is { length net.new.words ≡ length net.old.words }
    ensures drawn { IfOk result (λ count. (seed : ℕ) →
        AreDemoRings seed net.old.nodes rings.now → draws.old.state ≡ state seed (4 * net.old.nodes) →
        IsDemoTo seed net.old.nodes draws.new.state net.new.words count (edge_count net.old.nodes)) }
{
    let mut count = 0;
    for i in 0..net.nodes() {
        count = draw_row(draws, net, rings, i, count)?;
    }
    Ok(count)
}

/// Draws the relations of a node with the later ones. `count` is how many of the edges before aren't forgotten.
fn draw_row(
    draws: &mut Draws,
    net: &mut Net,
    rings: &[Ring],
    i: u32,
    count: u32,
) -> Result<u32, Memory>
    requires rings { length rings.now ≡ net.old.nodes }
    requires node { i < net.old.nodes }
    requires few { net.old.nodes ≤ MAX_NODES }
    requires count { count ≤ 256 * i }
    ensures rest { net.new ≡ record net.old { words = net.new.words } }
    ensures length_is { length net.new.words ≡ length net.old.words }
    ensures count { IfOk result (λ count. count ≤ 256 * (i + 1)) }
    ensures drawn { IfOk result (λ after. (seed : ℕ) →
        AreDemoRings seed net.old.nodes rings.now →
        IsDemoTo seed net.old.nodes draws.old.state net.old.words count (edge_at net.old.nodes i (i + 1)) →
        IsDemoTo seed net.old.nodes draws.new.state net.new.words after (edge_at net.old.nodes (i + 1) (i + 2))) }
{
    let mut kept = count;
    for j in i + 1..net.nodes() {
        let drawn = draw_relation(draws, &rings[i as usize], &rings[j as usize])?;
        net.set(net.edge(i, j), drawn.rel);
        kept += drawn.count;
    }
    Ok(kept)
}

/// The relation of two rings, or all base relations where the next draw forgets it.
fn draw_relation(draws: &mut Draws, a: &Ring, b: &Ring) -> Result<Drawn, Memory>
    ensures drawn { IfOk result (λ drawn. IsDrawn draws.old.state a.now b.now drawn.rel drawn.count) }
    ensures count { IfOk result (λ drawn. drawn.count ≤ 1) }
    ensures state { draws.new.state ≡ advance draws.old.state }
{
    if draws.below(4) == 0 {
        return Ok(Drawn {
            rel: Rel::of(ALL),
            count: 0,
        });
    }
    let Ok(m) = matrix(a, b) else {
        return Err(Memory);
    };
    Ok(Drawn {
        rel: rcc8(&m),
        count: 1,
    })
}
