//! The polygons that words name, and a pattern of matrices; and both, where words ask how polygons relate.
ghost use Rattle.std.specs.Prelude.{◌≡◌, ◌<◌, ◌≤◌, ◌∷◌, [], map, length, option_map, IfOk, IfErr, Ok};
ghost use Rattle.std.specs.String.{string_bytes};
ghost use Rattle.qsr_lex.specs.declared.TheConstants.{MAX_TEXT};
ghost use Rattle.qsr_inputs.specs.Stops.{HasCause, IsRefusalOrMemory};
ghost use Rattle.qsr_inputs.specs.Inputs.{PolygonsAsked, PolygonsIn, PolygonsOf, PatternAsked, RelatedOf, SomePolygons};
ghost use Rattle.qsr_inputs.specs.Inputs.{DrawnOf};
ghost use Rattle.qsr_inputs.specs.Told.{named_by_polygons};
ghost use Rattle.qsr_inputs.specs.Readings.{Fetches};

use crate::stops::{Stop, geo_stop, no_polygon_stop, pattern_stop};
use crate::texts::document;
use de9im::Pattern;
use geo_facts::{Polygon, read_polygons};
use qsr_outside::Shelf;
use qsr_words::{Relate, Scene};
use std::alloc::Global;
use std::marker::Model;

/// The polygons of a file, whose names differ.
#[derive(Drop)]
pub struct Polygons {
    pub list: Vec<Polygon>,
}

impl Model for Polygons {
    ghost use Rattle.std.specs.Prelude.{List, map};
    ghost use Rattle.geo_facts.specs.PolygonFile.{NamedRing, named_ring};
    ghost use Rattle.qsr_inputs.specs.Inputs.{AreOfFile};

    ghost Value = { List NamedRing };

    ghost view = { λ p. map named_ring p.list.items };

    ghost invariant = { λ p. AreOfFile (map named_ring p.list.items) };
}

/// Polygons, and the pattern that is asked for.
#[derive(Drop)]
pub struct Related {
    pub polygons: Polygons,
    pub pattern: Option<Pattern>,
}

impl Model for Related {
    ghost use Rattle.qsr_inputs.specs.Inputs.{Related};

    ghost Value = { Related };

    ghost view = { λ r. record { polygons = r.polygons; pattern = r.pattern } };
}

/// The polygons that the words name, and the pattern.
pub fn read_related<F: Shelf>(
    alloc: Global,
    shelf: &mut F,
    request: &Relate,
) -> Result<Related, Stop>
    ensures { Fetches F.documents F.faults F.given F.absent_openings
        (string_bytes request.now.polygons ∷ [])
        (λ documents. RelatedOf documents (string_bytes request.now.polygons)
        (option_map string_bytes request.now.pattern)) shelf.old shelf.new result }
{
    let polygons = polygons_of(alloc, shelf, request.polygons.as_str())?;
    let pattern = pattern_asked(&request.pattern)?;
    Ok(Related { polygons, pattern })
}

/// The polygons that the words name, one at least.
pub fn read_drawn<F: Shelf>(alloc: Global, shelf: &mut F, request: &Scene) -> Result<Polygons, Stop>
    ensures fetches { Fetches F.documents F.faults F.given F.absent_openings
        (string_bytes request.now.polygons ∷ [])
        (λ documents. DrawnOf documents (string_bytes request.now.polygons)) shelf.old shelf.new result }
    ensures some { IfOk result (λ polygons. 0 < length polygons) }
{
    let found = polygons_of(alloc, shelf, request.polygons.as_str())?;
    some_polygons(found)
}

/// The same polygons, where there is one at least.
fn some_polygons(polygons: Polygons) -> Result<Polygons, Stop>
    ensures value { IfOk result (λ found. SomePolygons polygons (Ok found)) }
    ensures some { IfOk result (λ found. 0 < length found) }
    ensures cause { IfErr result (HasCause (SomePolygons polygons)) }
    ensures refusal { IfErr result IsRefusalOrMemory }
{
    if polygons.list.is_empty() {
        return Err(no_polygon_stop());
    }
    Ok(polygons)
}

/// The polygons of the document of this name, or none where there is no name.
pub(crate) fn polygons_asked<F: Shelf>(
    alloc: Global,
    shelf: &mut F,
    name: &Option<String>,
) -> Result<Polygons, Stop>
    ensures { Fetches F.documents F.faults F.given F.absent_openings
        (named_by_polygons (option_map string_bytes name.now))
        (λ documents. PolygonsAsked documents (option_map string_bytes name.now))
        shelf.old shelf.new result }
{
    match name {
        Some(name) => polygons_of(alloc, shelf, name.as_str()),
        None => Ok(Polygons {
            list: Vec::new(alloc),
        }),
    }
}

/// The polygons of the document of this name.
pub(crate) fn polygons_of<F: Shelf>(
    alloc: Global,
    shelf: &mut F,
    name: &str,
) -> Result<Polygons, Stop>
    ensures { Fetches F.documents F.faults F.given F.absent_openings (name.now ∷ [])
        (λ documents. PolygonsOf documents name.now) shelf.old shelf.new result }
{
    let text = document(alloc, shelf, name)?;
    polygons_in(alloc, &text.bytes)
}

/// The polygons of a polygon file.
fn polygons_in(alloc: Global, bytes: &[u8]) -> Result<Polygons, Stop>
    requires { length bytes.now ≤ MAX_TEXT }
    ensures value { IfOk result (λ polygons. PolygonsIn bytes.now (Ok polygons)) }
    ensures cause { IfErr result (HasCause (PolygonsIn bytes.now)) }
    ensures refusal { IfErr result IsRefusalOrMemory }
{
    match read_polygons(alloc, bytes) {
        Ok(list) => Ok(Polygons { list }),
        Err(fault) => Err(geo_stop(fault)),
    }
}

/// The pattern of a word, where there is one.
pub(crate) fn pattern_asked(word: &Option<String>) -> Result<Option<Pattern>, Stop>
    ensures value { IfOk result (λ pattern.
        PatternAsked (option_map string_bytes word.now) (Ok pattern)) }
    ensures cause { IfErr result (HasCause (PatternAsked (option_map string_bytes word.now))) }
    ensures refusal { IfErr result IsRefusalOrMemory }
{
    let Some(text) = word else {
        return Ok(None);
    };
    match Pattern::read(text.as_bytes()) {
        Ok(pattern) => Ok(Some(pattern)),
        Err(wrong) => Err(pattern_stop(wrong.place)),
    }
}
