//! The words of `serve`: a calculus, a number of nodes, and optionally a number of workers.
ghost use Rattle.std.specs.Prelude.{◌≡◌, IfOk, IfSome, map, option_map};
ghost use Rattle.std.specs.String.{string_bytes};
ghost use Rattle.clap.specs.Words.{app_of};
ghost use Rattle.qsr_words.specs.Asked.{serve_app, serve_asked, serve_by};
ghost use Rattle.qsr_words.specs.Found.{values_of};
ghost use Rattle.qsr_words.specs.Requests.{serve_of, AreServed};

use crate::command::{found, option, value, word};
use crate::values::{served_nodes, workers_beside};
use calculus_table::Memory;
use clap::{ArgMatches, Command};
use std::alloc::{AllocError, Global};

/// A request to answer the sessions of a script, which use one network at once.
#[derive(Debug, Drop)]
pub struct Serve {
    /// The word for the calculus: `rcc8`, `allen`, `point`, or else the name of a table file.
    pub calculus: String,
    /// How many nodes the network has, from 1 to 256.
    pub nodes: u32,
    /// How many workers narrow the network beside the sessions, and how many sessions go on at once, from 1 to 64.
    pub workers: u32,
}

/// What the words ask of `serve`, if they are its.
pub(crate) fn read(alloc: Global, words: &[String]) -> Result<Option<Serve>, Memory>
    ensures asked { IfOk result (λ serve.
        option_map serve_of serve ≡ serve_asked (map string_bytes words.now)) }
    ensures limits { IfOk result (λ serve. IfSome serve (λ s. AreServed (serve_of s))) }
{
    let Ok(command) = command(alloc) else {
        return Err(Memory);
    };
    match found(command, words)? {
        Some(found) => request(alloc, &found),
        None => Ok(None),
    }
}

/// The request of the values found, if they are all there and within the limits.
fn request(alloc: Global, found: &ArgMatches<'_>) -> Result<Option<Serve>, Memory>
    ensures asked { IfOk result (λ serve. option_map serve_of serve ≡ serve_by (values_of found.now)) }
    ensures limits { IfOk result (λ serve. IfSome serve (λ s. AreServed (serve_of s))) }
{
    let Some(calculus) = value(found, "calculus") else {
        return Ok(None);
    };
    let Some(nodes) = served_nodes(value(found, "nodes")) else {
        return Ok(None);
    };
    let Some(workers) = workers_beside(value(found, "workers")) else {
        return Ok(None);
    };
    let Ok(calculus) = String::from_str(alloc, calculus) else {
        return Err(Memory);
    };
    Ok(Some(Serve {
        calculus,
        nodes,
        workers,
    }))
}

/// The command that reads the words of `serve`.
fn command<'a>(alloc: Global) -> Result<Command<'a>, AllocError>
    ensures { IfOk result (λ command. app_of command ≡ serve_app) }
{
    Command::new(alloc, "serve")
        .arg(word(alloc, "calculus"))?
        .arg(word(alloc, "nodes"))?
        .arg(option(alloc, "workers"))
}
