//! Reading polygon files.
//!
//! The lines are read in order, each once, and the first faulty one decides. Of a line the form is tested first, then
//! that it has no hole, that there aren't too many polygons, that its name is new and its ring closed, and last the
//! ring itself.
ghost use Rattle.std.specs.Prelude.{◌≡◌, ◌≢◌, ◌≤◌, ◌<◌, ◌^◌, map, length, IfOk, IfErr, Ok, true};
ghost use Rattle.qsr_lex.specs.Names.{is_name};
ghost use Rattle.qsr_lex.specs.declared.TheConstants.{MAX_TEXT};
ghost use Rattle.calculus_table.specs.Calculus.{AreDistinct};
ghost use Rattle.poly_exact.specs.Kept.{kept};
ghost use Rattle.poly_exact.specs.Built.{IsAccepted};
ghost use Rattle.geo_facts.specs.LineForm.{form_with};
ghost use Rattle.geo_facts.specs.PolygonFile.{named_ring, names_of, has_name, is_closed, said_by_line};
ghost use Rattle.geo_facts.specs.PolygonFile.{IsLineOf, IsLineFault, IsFileOf, IsGeoFaultOf, IsRingFaultAt};

use crate::MAX_POLYGONS;
use crate::fault::GeoFault;
use crate::line::{FormFault, PolygonLine, polygon_form};
use crate::polygon::Polygon;
use line_files::{FileLines, TextEnd};
use poly_exact::{Point, Ring, RingFault};
use qsr_lex::{TokenReader, name_text};
use std::alloc::Global;

/// The polygons of a polygon file of at most `MAX_TEXT` bytes, in the order of their lines.
pub fn read_polygons(alloc: Global, bytes: &[u8]) -> Result<Vec<Polygon>, GeoFault>
    requires { length bytes.now ≤ MAX_TEXT }
    ensures ok { IfOk result (λ polygons. IsFileOf bytes.now (map named_ring polygons.items)) }
    ensures distinct { IfOk result (λ polygons.
        AreDistinct (names_of (map named_ring polygons.items))) }
    ensures few { IfOk result (λ polygons. length polygons.items ≤ MAX_POLYGONS) }
    ensures fault { IfErr result (IsGeoFaultOf bytes.now) }
{
    let mut polygons = Vec::new(alloc);
    let mut lines = FileLines::new(bytes);
    while let Some(mut line) = lines.next_line() {
        let polygon = read_line(alloc, line.number, &mut line.tokens, &polygons)?;
        let Ok(()) = polygons.push(polygon) else {
            return Err(GeoFault::Memory);
        };
    }
    match lines.end() {
        TextEnd::BadLine { line } => Err(GeoFault::Syntax { line }),
        TextEnd::Whole { .. } => Ok(polygons),
    }
}

/// The polygon of a line, after those of earlier lines.
fn read_line(
    alloc: Global,
    line: u32,
    tokens: &mut TokenReader<'_>,
    before: &[Polygon],
) -> Result<Polygon, GeoFault>
    requires { length tokens.old ≤ MAX_TEXT }
    ensures ok { IfOk result (λ polygon.
        IsLineOf (map named_ring before.now) line tokens.old (named_ring polygon)) }
    ensures fault { IfErr result (λ fault. fault ≢ GeoFault.Memory →
        IsLineFault (map named_ring before.now) line tokens.old fault) }
{
    let said = read_form(alloc, line, tokens, before)?;
    let ring = ring_of(alloc, line, &said.points)?;
    let Ok(name) = String::from_str(alloc, name_text(said.name)) else {
        return Err(GeoFault::Memory);
    };
    Ok(Polygon { name, ring })
}

/// What a line says, before its ring is tested.
fn read_form<'a>(
    alloc: Global,
    line: u32,
    tokens: &mut TokenReader<'a>,
    before: &[Polygon],
) -> Result<PolygonLine<'a>, GeoFault>
    ensures ok { IfOk result (λ said.
        said_by_line (names_of (map named_ring before.now)) line tokens.old
        ≡ Ok (form_with said.name.now said.points.items said.hole)) }
    ensures is_name { IfOk result (λ said. is_name said.name.now ≡ true) }
    ensures few { IfOk result (λ said. length said.points.items ≤ length tokens.old) }
    ensures fault { IfErr result (λ fault. fault ≢ GeoFault.Memory →
        IsLineFault (map named_ring before.now) line tokens.old fault) }
{
    let said = match polygon_form(alloc, tokens) {
        Ok(said) => said,
        Err(FormFault::Form) => return Err(GeoFault::Syntax { line }),
        Err(FormFault::Memory) => return Err(GeoFault::Memory),
    };
    if said.hole {
        return Err(GeoFault::Hole { line });
    }
    if before.len() >= MAX_POLYGONS {
        return Err(GeoFault::ManyPolygons { line });
    }
    if has_name(before, said.name) {
        return Err(GeoFault::NameTwice { line });
    }
    if !is_closed(&said.points) {
        return Err(GeoFault::Open { line });
    }
    Ok(said)
}

/// Whether one of the polygons has this name.
fn has_name(polygons: &[Polygon], name: &[u8]) -> bool
    ensures { result ≡ has_name name.now (names_of (map named_ring polygons.now)) }
{
    match polygons {
        [] => false,
        [first, rest @ ..] => first.name.as_bytes() == name || has_name(rest, name),
    }
}

/// Whether the last point is the first.
fn is_closed(points: &[Point]) -> bool
    ensures { result ≡ is_closed points.now }
{
    points.is_empty() || points[0] == points[points.len() - 1]
}

/// The ring of the points of a line.
fn ring_of(alloc: Global, line: u32, points: &[Point]) -> Result<Ring, GeoFault>
    requires { length points.now < 2 ^ 32 }
    ensures ring { IfOk result (λ ring. ring ≡ kept points.now) }
    ensures accepted { IfOk result (λ _. IsAccepted points.now) }
    ensures fault { IfErr result (λ fault. fault ≢ GeoFault.Memory → IsRingFaultAt line points.now fault) }
{
    match Ring::new(alloc, points) {
        Ok(ring) => Ok(ring),
        Err(RingFault::Memory) => Err(GeoFault::Memory),
        Err(fault) => Err(GeoFault::Ring { line, fault }),
    }
}
