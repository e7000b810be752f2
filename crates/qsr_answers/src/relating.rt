//! The command `relate`: the matrix and the relation of each pair of polygons.
ghost use Rattle.std.specs.Prelude.{◌∷◌, [], ◌↔◌, IsTrue, map, IfOk, OnOk};
ghost use Rattle.std.specs.String.{string_bytes};
ghost use Rattle.geo_facts.specs.PolygonFile.{named_ring};
ghost use Rattle.geo_facts.specs.Facts.{ring_pair, ring_pairs};
ghost use Rattle.qsr_answers.specs.Relations.{IsAskedFor, IsRelationName, IsLineOf, IsTextOfPairs, IsGrownBy};

use calculus_table::Memory;
use de9im::{Matrix, Pattern, matches, matrix};
use geo_facts::{Polygon, rcc8};
use std::alloc::Global;

/// The lines of all pairs: each polygon with each later one.
pub fn text_of_pairs(
    alloc: Global,
    polygons: &[Polygon],
    pattern: &Option<Pattern>,
) -> Result<String, Memory>
    ensures { IfOk result (λ text. IsTextOfPairs pattern.now
        (ring_pairs (map named_ring polygons.now)) (string_bytes text)) }
{
    let mut text = String::new(alloc);
    let mut rest = polygons;
    while let [first, later @ ..] = rest {
        push_pairs(&mut text, alloc, first, later, pattern)?;
        rest = later;
    }
    Ok(text)
}

/// Appends the lines of a polygon with each later one.
fn push_pairs(
    text: &mut String,
    alloc: Global,
    first: &Polygon,
    later: &[Polygon],
    pattern: &Option<Pattern>,
) -> Result<(), Memory>
    ensures { OnOk result (IsGrownBy (string_bytes text.old) (string_bytes text.new)
        (IsTextOfPairs pattern.now (map (ring_pair (named_ring first.now)) (map named_ring later.now)))) }
{
    for second in later {
        push_pair(text, alloc, first, second, pattern)?;
    }
    Ok(())
}

/// Appends the line of a pair, where its matrix is asked for.
fn push_pair(
    text: &mut String,
    alloc: Global,
    first: &Polygon,
    second: &Polygon,
    pattern: &Option<Pattern>,
) -> Result<(), Memory>
    ensures { OnOk result (IsGrownBy (string_bytes text.old) (string_bytes text.new)
        (IsTextOfPairs pattern.now (ring_pair (named_ring first.now) (named_ring second.now) ∷ []))) }
{
    let Ok(matrix) = matrix(&first.ring, &second.ring) else {
        return Err(Memory);
    };
    if is_asked_for(pattern, &matrix) {
        push_line(text, alloc, first, second, &matrix)?;
    }
    Ok(())
}

/// Whether the matrix meets the pattern, where one is asked for.
fn is_asked_for(pattern: &Option<Pattern>, matrix: &Matrix) -> bool
    ensures { IsTrue result ↔ IsAskedFor pattern.now matrix.now }
{
    match pattern {
        Some(pattern) => matches(matrix, pattern),
        None => true,
    }
}

/// Appends the line of a pair: the two names, the matrix, and the relation.
fn push_line(
    text: &mut String,
    alloc: Global,
    first: &Polygon,
    second: &Polygon,
    matrix: &Matrix,
) -> Result<(), Memory>
    ensures { OnOk result (IsGrownBy (string_bytes text.old) (string_bytes text.new)
        (IsLineOf (ring_pair (named_ring first.now) (named_ring second.now)) matrix.now)) }
{
    let entries = match matrix.text(alloc) {
        Ok(entries) => entries,
        Err(_) => return Err(Memory),
    };
    let relation = relation_name(matrix);
    let Ok(()) = write!(
        text,
        "{} {} {entries} {relation}\n",
        first.name, second.name
    ) else {
        return Err(Memory);
    };
    Ok(())
}

/// The name of the base relation of RCC-8 that a matrix says.
fn relation_name(matrix: &Matrix) -> &'static str
    ensures { IsRelationName matrix.now result.now }
{
    match rcc8(matrix).least() {
        0 => "DC",
        1 => "EC",
        2 => "PO",
        3 => "TPP",
        4 => "NTPP",
        5 => "TPPi",
        6 => "NTPPi",
        _ => "EQ",
    }
}
