//! Sets of base relations, written by the names of their members.
//!
//! A set's line is made once and kept: the lines that are kept stand one after another in one text, and a set is hashed
//! to one of `PLACES` places, which says of which set a line is kept there and where it stands. Where that is another
//! set, the line is made anew and takes the place over. Texts of networks repeat few sets many times, so most lines
//! cost one copy, however many members a set has. No two sets of eight base relations meet at one place.
ghost use Rattle.std.specs.Prelude.{◌≡◌, ◌<◌, ◌++◌, [], length, replicate, codes, None, IfOk, OnOk, OnErr};
ghost use Rattle.std.specs.String.{string_bytes};
ghost use Rattle.named_sets.specs.Written.{member_text, set_text, set_line};
ghost use Rattle.named_sets.specs.Kept.{IsKept, AreKept};

use calculus_table::{Calculus, Compose, Memory, Rel};
use std::alloc::{AllocError, Global};
use std::marker::Model;

/// How many lines are kept.
const PLACES: usize = 256;

/// How many bytes the kept lines seldom have more than, over a small calculus.
const LINES_LEN: usize = 4096;

/// From how many bytes on the kept lines are forgotten, so that lines which take over places don't take memory.
const KEPT_LEN: usize = 65_536;

/// The set whose line is kept, and where its line stands among the kept ones.
#[derive(Clone, Copy)]
struct KeptLine {
    set: Rel,
    start: usize,
    end: usize,
}

/// Writes sets of base relations of one calculus.
#[derive(Drop)]
pub struct SetWriter<'a> {
    c: &'a Calculus,
    lines: String,
    places: Vec<Option<KeptLine>>,
}

impl<'a> Model for SetWriter<'a> {
    ghost use Rattle.std.specs.String.{string_bytes};
    ghost use Rattle.calculus_table.specs.Calculus.{NamedAlgebra};
    ghost use Rattle.named_sets.specs.Kept.{AreKept};

    ghost Value = { NamedAlgebra };

    ghost view = { λ w. w.c.now };

    ghost invariant = { λ w. AreKept w.c.now (string_bytes w.lines) w.places.items };
}

impl<'a> SetWriter<'a> {
    /// A writer of the sets of `c`.
    pub fn new(alloc: Global, c: &'a Calculus) -> Result<SetWriter<'a>, Memory>
        ensures { IfOk result (λ writer. writer ≡ c.now) }
    {
        let Ok(lines) = String::with_capacity(alloc, LINES_LEN) else {
            return Err(Memory);
        };
        let Ok(places) = empty_places(alloc) else {
            return Err(Memory);
        };
        Ok(SetWriter { c, lines, places })
    }

    /// Appends a set and an LF: the names of its members in brackets, in the order of the calculus, one space between
    /// tokens. Out of memory the text is as before.
    #[inline(always)]
    pub fn push_line(&mut self, text: &mut String, set: Rel) -> Result<(), Memory>
        ensures ok { OnOk result (string_bytes text.new ≡ string_bytes text.old ++ set_line self.old set) }
        ensures kept { OnErr result (string_bytes text.new ≡ string_bytes text.old) }
        ensures same { self.new ≡ self.old }
    {
        let place = place_of(set);
        if let Some(kept) = &self.places[place]
            && kept.set.word() == set.word()
        {
            return append(text, &self.lines[kept.start..kept.end]);
        }
        self.push_new_line(text, set)
    }

    /// Appends a set and an LF, and keeps the line.
    #[inline(never)]
    fn push_new_line(&mut self, text: &mut String, set: Rel) -> Result<(), Memory>
        ensures ok { OnOk result (string_bytes text.new ≡ string_bytes text.old ++ set_line self.old set) }
        ensures kept { OnErr result (string_bytes text.new ≡ string_bytes text.old) }
        ensures same { self.new ≡ self.old }
    {
        let kept = keep_line(&mut self.lines, &mut self.places, self.c, set)?;
        let KeptLine { start, end, .. } = kept;
        let place = place_of(set);
        self.places[place] = Some(KeptLine { set, start, end });
        append(text, &self.lines[start..end])
    }
}

/// The place of a set: the sum of its bytes, and what lower bytes carry over.
#[inline(always)]
fn place_of(set: Rel) -> usize
    ensures { result < PLACES }
{
    (set.word().wrapping_mul(0x0101_0101_0101_0101) >> 56) as usize
}

/// Makes the line of a set after the lines that are kept. Where that fails nothing is kept.
fn keep_line(
    lines: &mut String,
    places: &mut Vec<Option<KeptLine>>,
    c: &Calculus,
    set: Rel,
) -> Result<KeptLine, Memory>
    requires { AreKept c.now (string_bytes lines.old) places.old.items }
    ensures line { IfOk result (λ kept. IsKept c.now (string_bytes lines.new) kept) }
    ensures set { IfOk result (λ kept. kept.set ≡ set) }
    ensures kept { AreKept c.now (string_bytes lines.new) places.new.items }
{
    if lines.len() >= KEPT_LEN {
        forget(lines, places);
    }
    let start = lines.len();
    let Ok(()) = push_set(lines, c, set) else {
        forget(lines, places);
        return Err(Memory);
    };
    let end = lines.len();
    Ok(KeptLine { set, start, end })
}

/// Keeps no line.
fn forget(lines: &mut String, places: &mut Vec<Option<KeptLine>>)
    ensures lines { string_bytes lines.new ≡ [] }
    ensures places { places.new.items ≡ replicate (length places.old.items) None }
{
    lines.clear();
    places.fill(None);
}

/// As many places as there may be, at which no line is kept.
fn empty_places(alloc: Global) -> Result<Vec<Option<KeptLine>>, AllocError>
    ensures { IfOk result (λ places. places.items ≡ replicate 256 None) }
{
    let mut places = Vec::new(alloc);
    places.resize(PLACES, None)?;
    Ok(places)
}

/// Appends a text, or leaves the other as before.
fn append(text: &mut String, more: &str) -> Result<(), Memory>
    ensures ok { OnOk result (string_bytes text.new ≡ string_bytes text.old ++ more.now) }
    ensures kept { OnErr result (string_bytes text.new ≡ string_bytes text.old) }
{
    match text.push_str(more) {
        Ok(()) => Ok(()),
        Err(_) => Err(Memory),
    }
}

/// Appends the name of `r` and a space, where it is a member of the set.
fn push_member(text: &mut String, c: &Calculus, set: Rel, r: u32) -> Result<(), AllocError>
    requires { r < c.now.algebra.size }
    ensures { OnOk result (string_bytes text.new ≡ string_bytes text.old ++ member_text c.now.names set r) }
{
    if set.has(r) {
        text.push_str(c.name(r))?;
        text.push_str(" ")?;
    }
    Ok(())
}

/// Appends a set and an LF.
fn push_set(text: &mut String, c: &Calculus, set: Rel) -> Result<(), AllocError>
    ensures { OnOk result (string_bytes text.new ≡ string_bytes text.old ++ set_line c.now set) }
{
    text.push_str("( ")?;
    for r in 0..c.size() {
        push_member(text, c, set, r)?;
    }
    text.push_str(")\n")?;
    Ok(())
}
