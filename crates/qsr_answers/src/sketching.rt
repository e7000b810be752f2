//! The command `scene`: the network that polygons draw.
ghost use Rattle.std.specs.Prelude.{◌≡◌, ◌<◌, ◌≤◌, map, length, IfOk};
ghost use Rattle.std.specs.String.{string_bytes};
ghost use Rattle.calculus_table.specs.Calculus.{AreDistinct};
ghost use Rattle.network_words.specs.declared.TheConstants.{MAX_NODES};
ghost use Rattle.geo_facts.specs.PolygonFile.{named_ring, names_of};
ghost use Rattle.qsr_answers.specs.Scenes.{IsSceneText};

use calculus_builtin::rcc8;
use calculus_table::Memory;
use geo_facts::Polygon;
use geo_sound::{laws_of_scenes, scene};
use network_file::text;
use std::alloc::Global;
use std::thread::Threads;

/// The text of the network that the polygons draw.
pub fn scene_text<R: Threads + Sync>(
    rt: &R,
    alloc: Global,
    polygons: &[Polygon],
) -> Result<String, Memory>
    requires some { 0 < length polygons.now }
    requires few { length polygons.now ≤ MAX_NODES }
    requires distinct { AreDistinct (names_of (map named_ring polygons.now)) }
    ensures { IfOk result (λ text. IsSceneText (map named_ring polygons.now) (string_bytes text)) }
{
    laws_of_scenes();
    let net = scene(rt, alloc, polygons)?;
    let calculus = rcc8(alloc)?;
    text(alloc, &net, &calculus)
}
