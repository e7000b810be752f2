//! The scenario that polygons draw.
//!
//! The edges are cut into at most 16 pieces, whose matrices are computed at once: a matrix takes time, and
//! shares nothing with any other. The base relations of the pieces, one after another, are those of all
//! edges.
ghost use Rattle.std.specs.Prelude.{◌≡◌, ◌*◌, ◌^◌, ◌<◌, ◌≤◌, ℕ, List, IfOk, length, replicate};
ghost use Rattle.calculus_table.specs.Composition.{full_of};
ghost use Rattle.calculus_builtin.specs.Rcc8.{rcc8_algebra};
ghost use Rattle.network_words.specs.Edge.{edge_count};
ghost use Rattle.network_words.specs.Scenario.{IsScenario};
ghost use Rattle.network_words.specs.declared.TheConstants.{MAX_NODES};
ghost use Rattle.geo_sound.specs.declared.drawing.TheConstants.{PIECES};
ghost use Rattle.geo_sound.specs.Drawn.{rings_of, AreRelations};
ghost use Rattle.geo_sound.specs.Bases.{IsPiece, AreJoined, AreAllBases};

use crate::bases::bases_between;
use calculus_table::Memory;
use geo_facts::Polygon;
use scenario::Scenario;
use std::alloc::Global;
use std::thread;
use std::thread::Threads;

/// The most pieces that are computed at once.
const PIECES: usize = 16;

/// For each pair of polygons, in edge order, the number of the base relation of RCC-8 that their matrix says.
pub fn drawn<R: Threads + Sync>(
    rt: &R,
    alloc: Global,
    polygons: &[Polygon],
) -> Result<Scenario, Memory>
    requires some { 0 < length polygons.now }
    requires few { length polygons.now ≤ MAX_NODES }
    ensures relations { IfOk result (λ s. AreRelations (rings_of polygons.now) s) }
    ensures scenario { IfOk result (λ s. IsScenario rcc8_algebra (length polygons.now)
        (replicate (edge_count (length polygons.now)) (full_of rcc8_algebra)) s) }
{
    let pieces = compute(rt, alloc, polygons)?;
    let bases = join(alloc, &pieces)?;
    Ok(Scenario { bases })
}

/// The base relations of all edges, in pieces that are computed at once.
fn compute<R: Threads + Sync>(
    rt: &R,
    alloc: Global,
    polygons: &[Polygon],
) -> Result<Vec<Result<Vec<u8>, Memory>>, Memory>
    requires some { 0 < length polygons.now }
    requires few { length polygons.now ≤ MAX_NODES }
    ensures { IfOk result (λ pieces. (bases : List ℕ) → AreJoined pieces.items bases →
        AreAllBases (rings_of polygons.now) bases) }
{
    let edges = edges_of(polygons);
    let size = piece_size(edges);
    let count = piece_count(edges, size);
    let piece = |k: usize| -> Result<Vec<u8>, Memory>
        requires { (k * size ≤ edges) × (size ≤ edges) × (edges ≡ edge_count (length polygons.now))
            × (edges < 2 ^ 31) × (length polygons.now ≤ MAX_NODES) }
        ensures { IfOk result (λ bases.
            IsPiece (rings_of polygons.entry.now) edges size k bases.items) }
    { piece_of(alloc, polygons, edges, size, k) };
    match thread::map_indices(rt, alloc, count, &piece) {
        Ok(pieces) => Ok(pieces),
        Err(_) => Err(Memory),
    }
}

/// The number of edges.
fn edges_of(polygons: &[Polygon]) -> usize
    requires some { 0 < length polygons.now }
    requires few { length polygons.now ≤ MAX_NODES }
    ensures value { result ≡ edge_count (length polygons.now) }
    ensures short { result < 2 ^ 31 }
{
    let nodes = polygons.len();
    nodes * (nodes - 1) / 2
}

/// How many edges a piece has, where so many are cut into at most `PIECES`.
fn piece_size(edges: usize) -> usize
    requires { edges < 2 ^ 31 }
    ensures enough { edges ≤ PIECES * result }
    ensures small { result ≤ edges }
{
    (edges + PIECES - 1) / PIECES
}

/// How many pieces of this size so many edges make, the last of which may have fewer.
fn piece_count(edges: usize, size: usize) -> usize
    requires edges { edges < 2 ^ 31 }
    requires size { edges ≤ PIECES * size }
    requires small { size ≤ edges }
    ensures all { edges ≤ result * size }
    ensures each { (k : ℕ) → k < result → k * size ≤ edges }
    ensures few { result ≤ PIECES }
{
    if size == 0 {
        return 0;
    }
    (edges + size - 1) / size
}

/// The base relations of piece number `k`, where each but the last has this size.
fn piece_of(
    alloc: Global,
    polygons: &[Polygon],
    edges: usize,
    size: usize,
    k: usize,
) -> Result<Vec<u8>, Memory>
    requires few { length polygons.now ≤ MAX_NODES }
    requires edges { edges ≡ edge_count (length polygons.now) }
    requires short { edges < 2 ^ 31 }
    requires from { k * size ≤ edges }
    requires small { size ≤ edges }
    ensures { IfOk result (λ bases. IsPiece (rings_of polygons.now) edges size k bases.items) }
{
    let from = k * size;
    let to = edges.min(from + size);
    bases_between(alloc, polygons, from as u32, to as u32)
}

/// The base relations of the pieces, one after another.
fn join(alloc: Global, pieces: &[Result<Vec<u8>, Memory>]) -> Result<Vec<u8>, Memory>
    ensures { IfOk result (λ bases. AreJoined pieces.now bases.items) }
{
    let mut bases = Vec::new(alloc);
    let mut rest = pieces;
    while let [piece, later @ ..] = rest {
        let Ok(part) = piece else {
            return Err(Memory);
        };
        bases.extend_from_slice(part).map_err(|_| Memory)?;
        rest = later;
    }
    Ok(bases)
}
