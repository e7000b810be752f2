//! Numbers, names and lists of them, from JSON values.
ghost use Rattle.std.specs.Prelude.{◌≡◌, ◌<◌, ◌^◌, List, length, map, IfOk, IfErr, MatchResult, Result, Ok, Err};
ghost use Rattle.std.specs.String.{string_bytes};
ghost use Rattle.serde_json.specs.Data.{Data};
ghost use Rattle.serde_json.specs.View.{view};
ghost use Rattle.line_files.specs.Steps.{FailsExcept};
ghost use Rattle.cert_file.specs.Parts.{number_below, member_of, entry, has_count, entries, values, list_of};
ghost use Rattle.cert_file.specs.Parts.{name_of, base_of, node_number, set_of, number_at, step_of};
ghost use Rattle.cert_file.specs.declared.fault.Wrong.{Wrong};

use crate::fault::{WRONG, Wrong};
use calculus_table::Rel;
use qsr_lex::is_name;
use serde_json::Value;
use split_trees::Step;
use std::alloc::Global;

/// What is read from a JSON value.
pub(crate) trait FromJson: Sized + Copy {
    // What a JSON value stands for.
    ghost of: { Data → Result Self Wrong };

    /// Reads it.
    fn read(value: &Value) -> Result<Self, Wrong>
        ensures { result ≡ of (view value.now) };
}

impl FromJson for u8 {
    ghost of = { base_of };

    fn read(value: &Value) -> Result<u8, Wrong> {
        let number = number_below(value, 0x100)?;
        Ok(number as u8)
    }
}

impl FromJson for u32 {
    ghost of = { node_number };

    fn read(value: &Value) -> Result<u32, Wrong> {
        let number = number_below(value, 0x1_0000_0000)?;
        Ok(number as u32)
    }
}

impl FromJson for Rel {
    ghost of = { set_of };

    fn read(value: &Value) -> Result<Rel, Wrong> {
        match value.as_u64() {
            Some(word) => Ok(Rel::of(word)),
            None => Err(WRONG),
        }
    }
}

impl FromJson for Step {
    ghost of = { step_of };

    fn read(value: &Value) -> Result<Step, Wrong> {
        if !has_count(value, 3) {
            return Err(WRONG);
        }
        let i = number_at(value, 0)?;
        let j = number_at(value, 1)?;
        let k = number_at(value, 2)?;
        Ok(Step { i, j, k })
    }
}

/// The whole number less than `limit` that the value is.
pub(crate) fn number_below(value: &Value, limit: u64) -> Result<u64, Wrong>
    ensures value { result ≡ number_below limit (view value.now) }
    ensures below { IfOk result (λ n. n < limit) }
{
    match value.as_u64() {
        Some(number) if number < limit => Ok(number),
        _ => Err(WRONG),
    }
}

/// The value of a member of an object.
pub(crate) fn member<'v>(value: &'v Value, key: &str) -> Result<&'v Value, Wrong>
    ensures { MatchResult result (λ found. member_of key.now (view value.now) ≡ Ok (view found.now))
        (λ wrong. member_of key.now (view value.now) ≡ Err wrong) }
{
    match value.get(key) {
        Some(found) => Ok(found),
        None => Err(WRONG),
    }
}

/// The entry at a place of an array.
pub(crate) fn entry(value: &Value, place: usize) -> Result<&Value, Wrong>
    ensures { MatchResult result (λ found. entry place (view value.now) ≡ Ok (view found.now))
        (λ wrong. entry place (view value.now) ≡ Err wrong) }
{
    match value.get(place) {
        Some(found) => Ok(found),
        None => Err(WRONG),
    }
}

/// The number of a node, as the entry at a place.
pub(crate) fn number_at(value: &Value, place: usize) -> Result<u32, Wrong>
    ensures { result ≡ number_at place (view value.now) }
{
    let number = entry(value, place)?;
    u32::read(number)
}

/// Whether the value is an array of so many entries.
pub(crate) fn has_count(value: &Value, count: usize) -> bool
    ensures { result ≡ has_count count (view value.now) }
{
    match value.as_array() {
        Some(entries) => entries.len() == count,
        None => false,
    }
}

/// The entries of an array. There are always fewer than 2^32 in a text of fewer bytes; more would be out of memory.
pub(crate) fn entries(value: &Value) -> Result<&[Value], Wrong>
    ensures ok { IfOk result (λ found. entries (view value.now) ≡ Ok (map view found.now)) }
    ensures few { IfOk result (λ found. length found.now < 2 ^ 32) }
    ensures fault { IfErr result (FailsExcept Wrong.Memory (entries (view value.now))) }
{
    match value.as_array() {
        Some(entries) if entries.len() <= u32::MAX as usize => Ok(entries.as_slice()),
        Some(_) => Err(Wrong::Memory),
        None => Err(WRONG),
    }
}

/// The values of an array's entries.
pub(crate) fn list<T: FromJson>(alloc: Global, value: &Value) -> Result<Vec<T>, Wrong>
    ensures ok { IfOk result (λ list. list_of T.of (view value.now) ≡ Ok list.items) }
    ensures few { IfOk result (λ list. length list.items < 2 ^ 32) }
    ensures fault { IfErr result (FailsExcept Wrong.Memory (list_of T.of (view value.now))) }
{
    let entries = entries(value)?;
    let mut list = Vec::new(alloc);
    for (index, value) in entries.iter().enumerate() {
        let Ok(entry) = T::read(value) else {
            return Err(Wrong::At {
                index: index as u32,
            });
        };
        if list.push(entry).is_err() {
            return Err(Wrong::Memory);
        }
    }
    Ok(list)
}

/// The names of an array of names.
pub(crate) fn names(alloc: Global, value: &Value) -> Result<Vec<String>, Wrong>
    ensures ok { IfOk result (λ list.
        list_of name_of (view value.now) ≡ Ok (map string_bytes list.items)) }
    ensures fault { IfErr result (FailsExcept Wrong.Memory (list_of name_of (view value.now))) }
{
    let entries = entries(value)?;
    let mut list = Vec::new(alloc);
    for (index, value) in entries.iter().enumerate() {
        let Ok(name) = name(value) else {
            return Err(Wrong::At {
                index: index as u32,
            });
        };
        let Ok(owned) = String::from_str(alloc, name) else {
            return Err(Wrong::Memory);
        };
        if list.push(owned).is_err() {
            return Err(Wrong::Memory);
        }
    }
    Ok(list)
}

/// The name that the value is.
fn name(value: &Value) -> Result<&str, Wrong>
    ensures { MatchResult result (λ name. name_of (view value.now) ≡ Ok name.now)
        (λ wrong. name_of (view value.now) ≡ Err wrong) }
{
    match value.as_str() {
        Some(text) if is_name(text.as_bytes()) => Ok(text),
        _ => Err(WRONG),
    }
}
