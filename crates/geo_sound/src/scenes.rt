//! The network that polygons draw.
ghost use Rattle.std.specs.Prelude.{◌≡◌, ◌<◌, ◌≤◌, IfOk, length, map, replicate};
ghost use Rattle.std.specs.String.{string_bytes};
ghost use Rattle.calculus_table.specs.Calculus.{AreDistinct};
ghost use Rattle.calculus_table.specs.Composition.{full_of};
ghost use Rattle.calculus_builtin.specs.Rcc8.{rcc8_algebra};
ghost use Rattle.network_words.specs.Edge.{edge_count};
ghost use Rattle.network_words.specs.Closure.{IsClosed};
ghost use Rattle.network_words.specs.declared.TheConstants.{MAX_NODES};
ghost use Rattle.geo_facts.specs.PolygonFile.{named_ring, names_of};
ghost use Rattle.geo_sound.specs.Scene.{IsScene};

use crate::drawing::drawn;
use calculus_table::{Memory, Rel};
use geo_facts::Polygon;
use network_words::Net;
use scenario::make_atomic;
use std::alloc::Global;
use std::thread::Threads;

/// The set of all base relations of RCC-8.
const ALL: u64 = 255;

/// The network whose nodes have the polygons' names, and whose edges have the one relation of their polygons
/// each.
pub fn scene<R: Threads + Sync>(rt: &R, alloc: Global, polygons: &[Polygon]) -> Result<Net, Memory>
    requires some { 0 < length polygons.now }
    requires few { length polygons.now ≤ MAX_NODES }
    requires distinct { AreDistinct (names_of (map named_ring polygons.now)) }
    ensures scene { IfOk result (λ net. IsScene (map named_ring polygons.now) net) }
    ensures closed { IfOk result (λ net. IsClosed rcc8_algebra net.nodes net.words) }
{
    let scenario = drawn(rt, alloc, polygons)?;
    let mut net = named_net(alloc, polygons)?;
    make_atomic(&mut net, &scenario);
    Ok(net)
}

/// The network of which nothing is known but the names.
fn named_net(alloc: Global, polygons: &[Polygon]) -> Result<Net, Memory>
    requires { length polygons.now ≤ MAX_NODES }
    ensures { IfOk result (λ net. net ≡ record {
      nodes = length polygons.now;
      full = full_of rcc8_algebra;
      words = replicate (edge_count (length polygons.now)) (full_of rcc8_algebra);
      names = names_of (map named_ring polygons.now);
    }) }
{
    let names = names_of(alloc, polygons)?;
    let Ok(mut net) = Net::new(alloc, polygons.len() as u32, Rel::of(ALL)) else {
        return Err(Memory);
    };
    let Ok(()) = net.set_names(names) else {
        return Err(Memory);
    };
    Ok(net)
}

/// The names of the polygons.
fn names_of(alloc: Global, polygons: &[Polygon]) -> Result<Vec<String>, Memory>
    ensures names { IfOk result (λ names.
        map string_bytes names.items ≡ names_of (map named_ring polygons.now)) }
    ensures count { IfOk result (λ names. length names.items ≡ length polygons.now) }
{
    let mut names = Vec::new(alloc);
    for polygon in polygons {
        let name = polygon.name.clone().map_err(|_| Memory)?;
        names.push(name).map_err(|_| Memory)?;
    }
    Ok(names)
}
