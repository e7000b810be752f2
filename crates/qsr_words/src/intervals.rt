//! The words of `intervals`: optionally a class, a budget of splits, and a number of workers.
ghost use Rattle.std.specs.Prelude.{◌≡◌, IfOk, IfSome, map, option_map};
ghost use Rattle.std.specs.String.{string_bytes};
ghost use Rattle.clap.specs.Words.{app_of};
ghost use Rattle.qsr_words.specs.Asked.{intervals_app, intervals_asked, intervals_by};
ghost use Rattle.qsr_words.specs.Found.{values_of};
ghost use Rattle.qsr_words.specs.Requests.{intervals_of, IsIntervalSearch};

use crate::command::{found, option, value};
use crate::values::{budget, class, workers};
use calculus_table::Memory;
use clap::{ArgMatches, Command};
use std::alloc::{AllocError, Global};

/// A request to search for intervals of the network of the source, which is one over Allen's calculus.
#[derive(Debug, Drop)]
pub struct Intervals {
    /// The word for the class that guides the search: `none`, or else the name of a class file.
    pub class: String,
    /// How many splits may be made, at most 10,000.
    pub budget: u32,
    /// How many workers close the network first and then search it, from 1 to 64, where the words name a number.
    pub workers: Option<u32>,
}

/// What the words ask of `intervals`, if they are its.
pub(crate) fn read(alloc: Global, words: &[String]) -> Result<Option<Intervals>, Memory>
    ensures asked { IfOk result (λ intervals.
        option_map intervals_of intervals ≡ intervals_asked (map string_bytes words.now)) }
    ensures limits { IfOk result (λ intervals.
        IfSome intervals (λ i. IsIntervalSearch (intervals_of i))) }
{
    let Ok(command) = command(alloc) else {
        return Err(Memory);
    };
    match found(command, words)? {
        Some(found) => request(alloc, &found),
        None => Ok(None),
    }
}

/// The request of the values found, if they are all within the limits.
fn request(alloc: Global, found: &ArgMatches<'_>) -> Result<Option<Intervals>, Memory>
    ensures asked { IfOk result (λ intervals.
        option_map intervals_of intervals ≡ intervals_by (values_of found.now)) }
    ensures limits { IfOk result (λ intervals.
        IfSome intervals (λ i. IsIntervalSearch (intervals_of i))) }
{
    let Some(class) = class("allen", value(found, "class")) else {
        return Ok(None);
    };
    let Some(budget) = budget(value(found, "budget")) else {
        return Ok(None);
    };
    let Some(workers) = workers(value(found, "workers")) else {
        return Ok(None);
    };
    let Ok(class) = String::from_str(alloc, class) else {
        return Err(Memory);
    };
    Ok(Some(Intervals {
        class,
        budget,
        workers,
    }))
}

/// The command that reads the words of `intervals`.
fn command<'a>(alloc: Global) -> Result<Command<'a>, AllocError>
    ensures { IfOk result (λ command. app_of command ≡ intervals_app) }
{
    Command::new(alloc, "intervals")
        .arg(option(alloc, "class"))?
        .arg(option(alloc, "budget"))?
        .arg(option(alloc, "workers"))
}
