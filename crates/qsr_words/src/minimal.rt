//! The words of `minimal`: a calculus, and optionally a class, a budget of splits, and a number of workers.
ghost use Rattle.std.specs.Prelude.{◌≡◌, IfOk, IfSome, map, option_map};
ghost use Rattle.std.specs.String.{string_bytes};
ghost use Rattle.clap.specs.Words.{app_of};
ghost use Rattle.qsr_words.specs.Asked.{minimal_app, minimal_asked, minimal_by};
ghost use Rattle.qsr_words.specs.Found.{values_of};
ghost use Rattle.qsr_words.specs.Requests.{minimal_of, IsMinimalSearch};

use crate::command::{found, option, value, word};
use crate::values::{budget, class, workers};
use calculus_table::Memory;
use clap::{ArgMatches, Command};
use std::alloc::{AllocError, Global};

/// A request to search for the minimal network of the network of the source.
#[derive(Debug, Drop)]
pub struct Minimal {
    /// The word for the calculus: `rcc8`, `allen`, `point`, or else the name of a table file.
    pub calculus: String,
    /// The word for the class that guides the searches: `h8`, `c8` or `q8` over `rcc8`, `none`, or else the name of a
    /// class file.
    pub class: String,
    /// How many splits each search may make, at most 10,000.
    pub budget: u32,
    /// How many workers close the network first, from 1 to 64, where the words name a number.
    pub workers: Option<u32>,
}

/// What the words ask of `minimal`, if they are its.
pub(crate) fn read(alloc: Global, words: &[String]) -> Result<Option<Minimal>, Memory>
    ensures asked { IfOk result (λ minimal.
        option_map minimal_of minimal ≡ minimal_asked (map string_bytes words.now)) }
    ensures limits { IfOk result (λ minimal. IfSome minimal (λ m. IsMinimalSearch (minimal_of m))) }
{
    let Ok(command) = command(alloc) else {
        return Err(Memory);
    };
    match found(command, words)? {
        Some(found) => request(alloc, &found),
        None => Ok(None),
    }
}

/// The request of the values found, if they are all there and within the limits.
fn request(alloc: Global, found: &ArgMatches<'_>) -> Result<Option<Minimal>, Memory>
    ensures asked { IfOk result (λ minimal.
        option_map minimal_of minimal ≡ minimal_by (values_of found.now)) }
    ensures limits { IfOk result (λ minimal. IfSome minimal (λ m. IsMinimalSearch (minimal_of m))) }
{
    let Some(calculus) = value(found, "calculus") else {
        return Ok(None);
    };
    let Some(class) = class(calculus, value(found, "class")) else {
        return Ok(None);
    };
    let Some(budget) = budget(value(found, "budget")) else {
        return Ok(None);
    };
    let Some(workers) = workers(value(found, "workers")) else {
        return Ok(None);
    };
    let Ok(calculus) = String::from_str(alloc, calculus) else {
        return Err(Memory);
    };
    let Ok(class) = String::from_str(alloc, class) else {
        return Err(Memory);
    };
    Ok(Some(Minimal {
        calculus,
        class,
        budget,
        workers,
    }))
}

/// The command that reads the words of `minimal`.
fn command<'a>(alloc: Global) -> Result<Command<'a>, AllocError>
    ensures { IfOk result (λ command. app_of command ≡ minimal_app) }
{
    Command::new(alloc, "minimal")
        .arg(word(alloc, "calculus"))?
        .arg(option(alloc, "class"))?
        .arg(option(alloc, "budget"))?
        .arg(option(alloc, "workers"))
}
