//! The facts that polygons state of a network's nodes.
//!
//! The pairs of polygons are listed with the nodes of their names, and cut into at most 16 pieces, whose matrices are
//! computed at once: a matrix takes time, and shares nothing with any other. The facts of the pieces, one after
//! another, are those of all pairs.
ghost use Rattle.std.specs.Prelude.{◌≡◌, ◌≤◌, ◌<◌, ◌*◌, ◌++◌, ◌^◌, ℕ, List, length, map};
ghost use Rattle.std.specs.Prelude.{IfOk, IfErr, OnOk, MatchOption};
ghost use Rattle.std.specs.String.{string_bytes};
ghost use Rattle.std.specs.List.{All, AllZip};
ghost use Rattle.calculus_table.specs.Rel.{IsWithin};
ghost use Rattle.calculus_table.specs.Composition.{full_of};
ghost use Rattle.calculus_builtin.specs.Rcc8.{rcc8_algebra};
ghost use Rattle.network_words.specs.Edge.{IsProperPair};
ghost use Rattle.network_words.specs.declared.fact.Fact.{Fact};
ghost use Rattle.geo_facts.specs.declared.stating.TheConstants.{PIECES};
ghost use Rattle.std.specs.Fork.{slice_chunk};
ghost use Rattle.calculus_table.specs.Calculus.{AreDistinct};
ghost use Rattle.geo_facts.specs.PolygonFile.{named_ring, names_of};
ghost use Rattle.geo_facts.specs.Facts.{AreFactsOf, AreNodesTo, IsFactFaultOf, IsNoNode};
ghost use Rattle.geo_facts.specs.Pieces.{IsPlaced, pair_of, pairs_of, IsPairFact, AreJoined};

use crate::MAX_POLYGONS;
use crate::fault::FactFault;
use crate::polygon::Polygon;
use crate::relating::rcc8;
use calculus_table::Memory;
use de9im::matrix;
use network_words::{Fact, Net};
use std::alloc::Global;
use std::thread;
use std::thread::Threads;

/// The most pieces that are computed at once.
const PIECES: usize = 16;

/// A polygon, and the node of its name.
#[derive(Clone, Copy)]
pub(crate) struct Placed<'a> {
    polygon: &'a Polygon,
    node: u32,
}

/// Two polygons with their nodes.
#[derive(Clone, Copy)]
pub(crate) struct Pair<'a> {
    first: Placed<'a>,
    second: Placed<'a>,
}

/// For each pair of polygons, in order, the fact that the nodes of their names have the relation of their matrix.
pub fn facts<R: Threads + Sync>(
    rt: &R,
    alloc: Global,
    polygons: &[Polygon],
    net: &Net,
) -> Result<Vec<Fact>, FactFault>
    requires few { length polygons.now ≤ MAX_POLYGONS }
    requires distinct { AreDistinct (names_of (map named_ring polygons.now)) }
    ensures facts { IfOk result (λ facts.
        AreFactsOf net.now.names (map named_ring polygons.now) facts.items) }
    ensures few { IfOk result (λ facts. length facts.items < 2 ^ 32) }
    ensures within { IfOk result (λ facts.
        All (λ fact. IsWithin fact.rel (full_of rcc8_algebra)) facts.items) }
    ensures proper { IfOk result (λ facts.
        All (λ fact. IsProperPair net.now.nodes fact.i fact.j) facts.items) }
    ensures nodes { IfOk result (λ _.
        AreNodesTo net.now.names (names_of (map named_ring polygons.now)) (length polygons.now)) }
    ensures fault { IfErr result
        (IsFactFaultOf net.now.names (names_of (map named_ring polygons.now))) }
{
    let placed = place(alloc, polygons, net)?;
    let Ok(pairs) = list_pairs(alloc, &placed) else {
        return Err(FactFault::Memory);
    };
    let Ok(pieces) = compute(rt, alloc, &pairs) else {
        return Err(FactFault::Memory);
    };
    match join(alloc, &pieces) {
        Ok(facts) => Ok(facts),
        Err(Memory) => Err(FactFault::Memory),
    }
}

/// The polygons with the nodes of their names.
fn place<'a>(
    alloc: Global,
    polygons: &'a [Polygon],
    net: &Net,
) -> Result<Vec<Placed<'a>>, FactFault>
    requires { length polygons.now ≤ MAX_POLYGONS }
    ensures placed { IfOk result (λ placed.
        AllZip (IsPlaced net.now.nodes net.now.names) polygons.now placed.items) }
    ensures fault { IfErr result
        (IsFactFaultOf net.now.names (names_of (map named_ring polygons.now))) }
{
    let mut placed = Vec::new(alloc);
    for (at, polygon) in polygons.iter().enumerate() {
        let Some(found) = locate(polygon, net) else {
            return Err(FactFault::NoNode { at: at as u32 });
        };
        let Ok(()) = placed.push(found) else {
            return Err(FactFault::Memory);
        };
    }
    Ok(placed)
}

/// A polygon with the node of its name, where there is one.
fn locate<'a>(polygon: &'a Polygon, net: &Net) -> Option<Placed<'a>>
    ensures { MatchOption result (IsNoNode net.now.names (string_bytes polygon.now.name))
        (IsPlaced net.now.nodes net.now.names polygon.now) }
{
    let node = net.find(polygon.name.as_bytes())?;
    Some(Placed { polygon, node })
}

/// Each polygon with each later one, in order.
fn list_pairs<'a>(alloc: Global, placed: &[Placed<'a>]) -> Result<Vec<Pair<'a>>, Memory>
    ensures { IfOk result (λ pairs. pairs.items ≡ pairs_of placed.now) }
{
    let mut pairs = Vec::new(alloc);
    let mut rest = placed;
    while let [first, later @ ..] = rest {
        add_pairs(&mut pairs, *first, later)?;
        rest = later;
    }
    Ok(pairs)
}

/// Adds the pairs of a polygon with the later ones.
fn add_pairs<'a>(
    pairs: &mut Vec<Pair<'a>>,
    first: Placed<'a>,
    later: &[Placed<'a>],
) -> Result<(), Memory>
    ensures { OnOk result (pairs.new.items ≡ pairs.old.items ++ map (pair_of first.entry) later.now) }
{
    for second in later {
        let pair = Pair {
            first,
            second: *second,
        };
        pairs.push(pair).map_err(|_| Memory)?;
    }
    Ok(())
}

/// The facts of the pairs, in pieces that are computed at once.
fn compute<R: Threads + Sync>(
    rt: &R,
    alloc: Global,
    pairs: &[Pair<'_>],
) -> Result<Vec<Result<Vec<Fact>, Memory>>, Memory>
    requires { length pairs.now < 2 ^ 32 }
    ensures { IfOk result (λ pieces. (facts : List Fact) → AreJoined pieces.items facts →
        AllZip IsPairFact pairs.now facts) }
{
    let size = piece_size(pairs.len());
    let count = piece_count(pairs.len(), size);
    let piece = |k: usize| -> Result<Vec<Fact>, Memory>
        requires { (k * size ≤ length pairs.now) × (length pairs.now < 2 ^ 32) × (size < 2 ^ 32) }
        ensures { IfOk result (λ facts.
            AllZip IsPairFact (slice_chunk pairs.entry.now size k) facts.items) }
    { facts_of(alloc, cut(pairs, size, k)) };
    match thread::map_indices(rt, alloc, count, &piece) {
        Ok(pieces) => Ok(pieces),
        Err(_) => Err(Memory),
    }
}

/// How many pairs a piece has, where so many are cut into at most `PIECES`.
fn piece_size(pairs: usize) -> usize
    requires { pairs < 2 ^ 32 }
    ensures enough { pairs ≤ PIECES * result }
    ensures small { result ≤ pairs }
{
    (pairs + PIECES - 1) / PIECES
}

/// How many pieces of this size so many pairs make, the last of which may have fewer.
fn piece_count(pairs: usize, size: usize) -> usize
    requires pairs { pairs < 2 ^ 32 }
    requires size { pairs ≤ PIECES * size }
    requires small { size < 2 ^ 32 }
    ensures all { pairs ≤ result * size }
    ensures each { (k : ℕ) → k < result → k * size ≤ pairs }
    ensures few { result ≤ PIECES }
{
    if size == 0 {
        return 0;
    }
    (pairs + size - 1) / size
}

/// Piece number `k`, where each but the last has this size.
fn cut<'p, 'a>(pairs: &'p [Pair<'a>], size: usize, k: usize) -> &'p [Pair<'a>]
    requires from { k * size ≤ length pairs.now }
    requires pairs { length pairs.now < 2 ^ 32 }
    requires small { size < 2 ^ 32 }
    ensures { result.now ≡ slice_chunk pairs.now size k }
{
    let from = k * size;
    let to = pairs.len().min(from + size);
    &pairs[from..to]
}

/// The facts of some pairs.
fn facts_of(alloc: Global, pairs: &[Pair<'_>]) -> Result<Vec<Fact>, Memory>
    ensures { IfOk result (λ facts. AllZip IsPairFact pairs.now facts.items) }
{
    let mut facts = Vec::new(alloc);
    for pair in pairs {
        let fact = fact_of(pair)?;
        facts.push(fact).map_err(|_| Memory)?;
    }
    Ok(facts)
}

/// The fact of a pair.
fn fact_of(pair: &Pair<'_>) -> Result<Fact, Memory>
    ensures { IfOk result (IsPairFact pair.now) }
{
    let Ok(m) = matrix(&pair.first.polygon.ring, &pair.second.polygon.ring) else {
        return Err(Memory);
    };
    Ok(Fact {
        i: pair.first.node,
        j: pair.second.node,
        rel: rcc8(&m),
    })
}

/// The facts of the pieces, one after another.
fn join(alloc: Global, pieces: &[Result<Vec<Fact>, Memory>]) -> Result<Vec<Fact>, Memory>
    ensures { IfOk result (λ facts. AreJoined pieces.now facts.items) }
{
    let mut facts = Vec::new(alloc);
    let mut rest = pieces;
    while let [piece, later @ ..] = rest {
        let Ok(part) = piece else {
            return Err(Memory);
        };
        facts.extend_from_slice(part).map_err(|_| Memory)?;
        rest = later;
    }
    Ok(facts)
}
