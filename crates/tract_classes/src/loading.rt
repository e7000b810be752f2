//! Reading a class file.
//!
//! The lines are read in order, each once, and the first faulty one decides. The sets are kept in ascending order, so
//! a set that occurs again is found by halves, and the number of members is known at each line. After the end line the
//! class is tested.
ghost use Rattle.std.specs.Prelude.{◌≡◌, ℕ, ◌≤◌, length, IfOk, OnOk, IfErr, IfSome, Ok, Err};
ghost use Rattle.qsr_lex.specs.declared.TheConstants.{MAX_TEXT};
ghost use Rattle.calculus_table.specs.Rel.{IsWithin};
ghost use Rattle.tract_classes.specs.Class.{IsClosedClass, IsClassBelow, IsSetBelow};
ghost use Rattle.tract_classes.specs.ClassFile.{set_line, with_line, class_at_end, sets_from, class_of};
ghost use Rattle.tract_classes.specs.ClassFault.{FailsWith, IsClassFaultOf};

use crate::MAX_MEMBERS;
use crate::class::Class;
use crate::closed::check_closed;
use crate::fault::{ClassFault, end_fault};
use crate::sorted::insert;
use calculus_table::{Calculus, Compose, Rel};
use compose_fast::Fast;
use line_files::FileLines;
use named_sets::{BaseNames, read_set};
use qsr_lex::TokenReader;
use std::alloc::Global;

/// The class of a class file of at most `MAX_TEXT` bytes: the sets of its lines and the empty relation.
pub fn load(alloc: Global, bytes: &[u8], c: &Calculus) -> Result<Class, ClassFault>
    requires { length bytes.now ≤ MAX_TEXT }
    ensures ok { IfOk result (λ class. class_of c.now.names bytes.now ≡ Ok class) }
    ensures closed { IfOk result (IsClosedClass c.now.algebra) }
    ensures fault { IfErr result
        (IsClassFaultOf c.now.algebra (class_of c.now.names bytes.now)) }
{
    let bases = BaseNames::new(c.names());
    let members = read_members(alloc, bytes, &bases)?;
    let Ok(class) = Class::new(alloc, members, c.size()) else {
        return Err(ClassFault::Memory);
    };
    let Ok(fast) = Fast::new(alloc, c) else {
        return Err(ClassFault::Memory);
    };
    match check_closed(alloc, &class, &fast) {
        Ok(()) => Ok(class),
        Err(fault) => Err(fault),
    }
}

/// The sets of the lines and the empty relation.
fn read_members(alloc: Global, bytes: &[u8], bases: &BaseNames<'_>) -> Result<Vec<u64>, ClassFault>
    requires { length bytes.now ≤ MAX_TEXT }
    ensures ok { IfOk result (λ members. class_of bases.now bytes.now ≡ Ok members.items) }
    ensures class { IfOk result (λ members. IsClassBelow (length bases.now) members.items) }
    ensures fault { IfErr result (FailsWith (class_of bases.now bytes.now)) }
{
    let mut members = Vec::new(alloc);
    if members.push(0).is_err() {
        return Err(ClassFault::Memory);
    }
    let mut lines = FileLines::new(bytes);
    read_sets(&mut lines, bases, &mut members)?;
    Ok(members)
}

/// Adds the sets of the lines up to the end line, after which nothing may stand.
fn read_sets(
    lines: &mut FileLines<'_>,
    bases: &BaseNames<'_>,
    members: &mut Vec<u64>,
) -> Result<(), ClassFault>
    requires { IsClassBelow (length bases.now) members.old.items }
    ensures ok { OnOk result
        (sets_from bases.now lines.old.end lines.old.lines members.old.items
        ≡ Ok members.new.items) }
    ensures class { OnOk result (IsClassBelow (length bases.now) members.new.items) }
    ensures fault { IfErr result (FailsWith
        (sets_from bases.now lines.old.end lines.old.lines members.old.items)) }
{
    while let Some(mut line) = lines.next_line() {
        if line.tokens.is_end_line() {
            return read_end(lines, members);
        }
        read_line(line.number, &mut line.tokens, bases, members)?;
    }
    Err(end_fault(lines.end()))
}

/// Adds the set of a line, unless it is one too many.
fn read_line(
    line: u32,
    tokens: &mut TokenReader<'_>,
    bases: &BaseNames<'_>,
    members: &mut Vec<u64>,
) -> Result<(), ClassFault>
    requires { IsClassBelow (length bases.now) members.old.items }
    ensures ok { OnOk result
        (with_line bases.now line tokens.old members.old.items ≡ Ok members.new.items) }
    ensures class { OnOk result (IsClassBelow (length bases.now) members.new.items) }
    ensures fault { IfErr result
        (FailsWith (with_line bases.now line tokens.old members.old.items)) }
{
    let Some(set) = set_form(tokens, bases) else {
        return Err(ClassFault::Syntax { line });
    };
    let Ok(()) = insert(members, set.word()) else {
        return Err(ClassFault::Memory);
    };
    if members.len() > MAX_MEMBERS {
        return Err(ClassFault::TooMany { line });
    }
    Ok(())
}

/// The set of a line, if it is nothing but the names of base relations in brackets.
fn set_form(tokens: &mut TokenReader<'_>, bases: &BaseNames<'_>) -> Option<Rel>
    ensures value { result ≡ set_line bases.now tokens.old }
    ensures within { IfSome result (IsSetBelow (length bases.now)) }
{
    let set = read_set(tokens, bases)?;
    if tokens.is_empty() { set } else { None }
}

/// Nothing, if nothing stands after the end line.
fn read_end(lines: &mut FileLines<'_>, members: &Vec<u64>) -> Result<(), ClassFault>
    ensures ok { OnOk result
        (class_at_end lines.old.end lines.old.lines members.now.items ≡ Ok members.now.items) }
    ensures fault { IfErr result (λ fault.
        class_at_end lines.old.end lines.old.lines members.now.items ≡ Err fault) }
{
    match lines.extra_line() {
        Some(line) => Err(ClassFault::Syntax { line }),
        None => Ok(()),
    }
}
