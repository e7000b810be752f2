//! The words of `demo`: a seed and a number of nodes.
ghost use Rattle.std.specs.Prelude.{◌≡◌, IfOk, IfSome, map, option_map};
ghost use Rattle.std.specs.String.{string_bytes};
ghost use Rattle.clap.specs.Words.{app_of};
ghost use Rattle.qsr_words.specs.Asked.{demo_app, demo_asked, demo_by};
ghost use Rattle.qsr_words.specs.Found.{values_of};
ghost use Rattle.qsr_words.specs.Requests.{demo_of, IsDemo};

use crate::command::{found, value, word};
use crate::values::{demo_nodes, seed};
use calculus_table::Memory;
use clap::{ArgMatches, Command};
use std::alloc::{AllocError, Global};

/// A request to show a search at work, on the relations of rectangles that a seed makes.
#[derive(Debug, Drop)]
pub struct Demo {
    /// What the rectangles are made from; every number serves.
    pub seed: u32,
    /// How many rectangles there are, and nodes of the network, from 2 to 256.
    pub nodes: u32,
}

/// What the words ask of `demo`, if they are its.
pub(crate) fn read(alloc: Global, words: &[String]) -> Result<Option<Demo>, Memory>
    ensures asked { IfOk result (λ demo.
        option_map demo_of demo ≡ demo_asked (map string_bytes words.now)) }
    ensures limits { IfOk result (λ demo. IfSome demo (λ d. IsDemo (demo_of d))) }
{
    let Ok(command) = command(alloc) else {
        return Err(Memory);
    };
    match found(command, words)? {
        Some(found) => Ok(request(&found)),
        None => Ok(None),
    }
}

/// The request of the values found, if they are within the limits.
fn request(found: &ArgMatches<'_>) -> Option<Demo>
    ensures asked { option_map demo_of result ≡ demo_by (values_of found.now) }
    ensures limits { IfSome result (λ d. IsDemo (demo_of d)) }
{
    Some(Demo {
        seed: seed(value(found, "seed"))?,
        nodes: demo_nodes(value(found, "nodes"))?,
    })
}

/// The command that reads the words of `demo`.
fn command<'a>(alloc: Global) -> Result<Command<'a>, AllocError>
    ensures { IfOk result (λ command. app_of command ≡ demo_app) }
{
    Command::new(alloc, "demo")
        .arg(word(alloc, "seed"))?
        .arg(word(alloc, "nodes"))
}
