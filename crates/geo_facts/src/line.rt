//! The form of a line of a polygon file.
//!
//! The tokens are taken one after another, each once. Of a further ring nothing is kept but that it is there: a line
//! with one has another fault than a line without the form.
ghost use Rattle.std.specs.Prelude.{◌≡◌, ◌≤◌, ◌+◌, length, Some, None, true};
ghost use Rattle.std.specs.Prelude.{MatchOption, MatchBool, IfOk, IfSome, IsErrOf};
ghost use Rattle.qsr_lex.specs.Names.{is_name};
ghost use Rattle.geo_facts.specs.LineForm.{coordinate_at, point_at, ring_at, points_until_close, after_all_rings};
ghost use Rattle.geo_facts.specs.LineForm.{starts_with_comma, is_polygon_word, after_polygon, polygon_form, form_with};

use poly_exact::Point;
use qsr_lex::{TokenKind, TokenReader, signed};
use std::alloc::Global;

/// What the line of a polygon says.
#[derive(Drop)]
pub(crate) struct PolygonLine<'a> {
    pub(crate) name: &'a [u8],
    /// The points of the ring as they stand there.
    pub(crate) points: Vec<Point>,
    /// Whether further rings follow.
    pub(crate) hole: bool,
}

/// Why a line says nothing.
#[derive(Clone, Copy, PartialEq, Eq)]
pub(crate) enum FormFault {
    /// It hasn't the form.
    Form,
    /// Out of memory.
    Memory,
}

/// What a line says that has the form of a polygon.
pub(crate) fn polygon_form<'a>(
    alloc: Global,
    tokens: &mut TokenReader<'a>,
) -> Result<PolygonLine<'a>, FormFault>
    ensures form { IfOk result (λ line. polygon_form tokens.old
        ≡ Some (form_with line.name.now line.points.items line.hole)) }
    ensures is_name { IfOk result (λ line. is_name line.name.now ≡ true) }
    ensures few { IfOk result (λ line. length line.points.items ≤ length tokens.old) }
    ensures fault { IsErrOf result FormFault.Form → polygon_form tokens.old ≡ None }
{
    let Some(name) = tokens.name() else {
        return Err(FormFault::Form);
    };
    if !take_polygon(tokens) || !tokens.take_kind(TokenKind::Open) {
        return Err(FormFault::Form);
    }
    let points = read_ring(alloc, tokens)?;
    let hole = pass_rings(alloc, tokens)?;
    if !tokens.take_kind(TokenKind::Close) || !tokens.is_empty() {
        return Err(FormFault::Form);
    }
    Ok(PolygonLine { name, points, hole })
}

/// Moves past the word `POLYGON`, in any case, and returns whether it is next.
fn take_polygon(tokens: &mut TokenReader<'_>) -> bool
    ensures word { MatchBool result (after_polygon tokens.old ≡ Some tokens.new) (after_polygon tokens.old ≡ None) }
    ensures less { length tokens.new ≤ length tokens.old }
{
    match tokens.word() {
        Some(word) => is_polygon_word(word),
        None => false,
    }
}

/// Whether a word is `POLYGON` in any case.
fn is_polygon_word(word: &[u8]) -> bool
    ensures { result ≡ is_polygon_word word.now }
{
    word.eq_ignore_ascii_case(b"polygon")
}

/// The points of a ring in brackets.
fn read_ring(alloc: Global, tokens: &mut TokenReader<'_>) -> Result<Vec<Point>, FormFault>
    ensures ring { IfOk result (λ points. ring_at tokens.old ≡ Some (points.items, tokens.new)) }
    ensures few { IfOk result (λ points. length points.items + length tokens.new ≤ length tokens.old) }
    ensures fault { IsErrOf result FormFault.Form → ring_at tokens.old ≡ None }
{
    if !tokens.take_kind(TokenKind::Open) {
        return Err(FormFault::Form);
    }
    read_points(alloc, tokens)
}

/// The points up to a closing bracket, with a comma between.
fn read_points(alloc: Global, tokens: &mut TokenReader<'_>) -> Result<Vec<Point>, FormFault>
    ensures points { IfOk result (λ points. points_until_close tokens.old ≡ Some (points.items, tokens.new)) }
    ensures few { IfOk result (λ points. length points.items + length tokens.new ≤ length tokens.old) }
    ensures fault { IsErrOf result FormFault.Form → points_until_close tokens.old ≡ None }
{
    let mut points = Vec::new(alloc);
    while let Some(point) = read_point(tokens) {
        points.push(point).map_err(|_| FormFault::Memory)?;
        if tokens.take_kind(TokenKind::Close) {
            return Ok(points);
        }
        if !tokens.take_kind(TokenKind::Comma) {
            return Err(FormFault::Form);
        }
    }
    Err(FormFault::Form)
}

/// The point that comes next. Without one the reader stands somewhere in the line.
fn read_point(tokens: &mut TokenReader<'_>) -> Option<Point>
    ensures { MatchOption result (point_at tokens.old ≡ None)
        (λ point. point_at tokens.old ≡ Some (point, tokens.new)) }
{
    let x = read_coordinate(tokens)?;
    let y = read_coordinate(tokens)?;
    Some(Point { x, y })
}

/// The whole number that comes next. Without one the reader stands somewhere in the line.
fn read_coordinate(tokens: &mut TokenReader<'_>) -> Option<i64>
    ensures { MatchOption result (coordinate_at tokens.old ≡ None)
        (λ n. coordinate_at tokens.old ≡ Some (n, tokens.new)) }
{
    signed(tokens.word()?)
}

/// Moves past further rings, each after a comma, and returns whether there are any.
fn pass_rings(alloc: Global, tokens: &mut TokenReader<'_>) -> Result<bool, FormFault>
    ensures rings { IfOk result (λ hole. after_all_rings tokens.old ≡ Some tokens.new) }
    ensures hole { IfOk result (λ hole. hole ≡ starts_with_comma tokens.old) }
    ensures fault { IsErrOf result FormFault.Form → after_all_rings tokens.old ≡ None }
{
    let mut hole = false;
    while tokens.take_kind(TokenKind::Comma) {
        read_ring(alloc, tokens)?;
        hole = true;
    }
    Ok(hole)
}
