//! The words of `solve`: a calculus, and optionally a class, polygons, a budget of splits, a number of workers, and
//! that the answer be a certificate.
ghost use Rattle.std.specs.Prelude.{◌≡◌, IfOk, IfSome, map, option_map};
ghost use Rattle.std.specs.String.{string_bytes};
ghost use Rattle.clap.specs.Words.{app_of};
ghost use Rattle.qsr_words.specs.Asked.{solve_app, solve_asked, solve_by};
ghost use Rattle.qsr_words.specs.Found.{values_of};
ghost use Rattle.qsr_words.specs.Requests.{solve_of, IsSearch};
ghost use Rattle.qsr_words.specs.Values.{search_of};

use crate::command::{flag, found, option, value, word};
use crate::values::{budget, class, is_flag_there, owned, polygons, workers};
use calculus_table::Memory;
use clap::{ArgMatches, Command};
use std::alloc::{AllocError, Global};

/// A request to search for a scenario of the network of the source and of polygons.
#[derive(Debug, Drop)]
pub struct Solve {
    /// The word for the calculus: `rcc8`, `allen`, `point`, or else the name of a table file.
    pub calculus: String,
    /// The word for the class that guides the search: `h8`, `c8` or `q8` over `rcc8`, `none`, or else the name of a
    /// class file.
    pub class: String,
    /// The name of a file of polygons whose relations are added to the network; over `rcc8` alone.
    pub polygons: Option<String>,
    /// How many splits may be made, at most 10,000.
    pub budget: u32,
    /// How many workers close the network first and then search it, from 1 to 64, where the words name a number.
    pub workers: Option<u32>,
    /// Whether the answer is a certificate, and not a verdict.
    pub cert: bool,
}

/// The values of the words of `solve`, as the fields of `Solve`.
#[derive(Drop)]
struct Values<'a> {
    calculus: &'a str,
    class: &'a str,
    polygons: Option<&'a str>,
    budget: u32,
    workers: Option<u32>,
    cert: bool,
}

/// What the words ask of `solve`, if they are its.
pub(crate) fn read(alloc: Global, words: &[String]) -> Result<Option<Solve>, Memory>
    ensures asked { IfOk result (λ solve.
        option_map solve_of solve ≡ solve_asked (map string_bytes words.now)) }
    ensures limits { IfOk result (λ solve. IfSome solve (λ s. IsSearch (solve_of s))) }
{
    let Ok(command) = command(alloc) else {
        return Err(Memory);
    };
    let Some(found) = found(command, words)? else {
        return Ok(None);
    };
    let Some(values) = values_found(&found) else {
        return Ok(None);
    };
    match values.request(alloc) {
        Ok(solve) => Ok(Some(solve)),
        Err(_) => Err(Memory),
    }
}

/// The values found, if they are all there and within the limits.
fn values_found<'a>(found: &ArgMatches<'a>) -> Option<Values<'a>>
    ensures asked { option_map search_of result ≡ solve_by (values_of found.now) }
    ensures limits { IfSome result (λ values. IsSearch (search_of values)) }
{
    let calculus = value(found, "calculus")?;
    Some(Values {
        calculus,
        class: class(calculus, value(found, "class"))?,
        polygons: polygons(calculus, value(found, "polygons"))?,
        budget: budget(value(found, "budget"))?,
        workers: workers(value(found, "workers"))?,
        cert: is_flag_there(value(found, "cert")),
    })
}

impl<'a> Values<'a> {
    /// The request of these values.
    fn request(&self, alloc: Global) -> Result<Solve, AllocError>
        ensures { IfOk result (λ solve. solve_of solve ≡ search_of self.now) }
    {
        Ok(Solve {
            calculus: String::from_str(alloc, self.calculus)?,
            class: String::from_str(alloc, self.class)?,
            polygons: owned(alloc, self.polygons)?,
            budget: self.budget,
            workers: self.workers,
            cert: self.cert,
        })
    }
}

/// The command that reads the words of `solve`.
fn command<'a>(alloc: Global) -> Result<Command<'a>, AllocError>
    ensures { IfOk result (λ command. app_of command ≡ solve_app) }
{
    Command::new(alloc, "solve")
        .arg(word(alloc, "calculus"))?
        .arg(option(alloc, "class"))?
        .arg(option(alloc, "polygons"))?
        .arg(option(alloc, "budget"))?
        .arg(option(alloc, "workers"))?
        .arg(flag(alloc, "cert"))
}
