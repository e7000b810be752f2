//! The words of `check` and of `trace`: a calculus, a certificate, and optionally polygons.
ghost use Rattle.std.specs.Prelude.{◌≡◌, IfOk, IfSome, map, option_map};
ghost use Rattle.std.specs.String.{string_bytes};
ghost use Rattle.clap.specs.Words.{app_of};
ghost use Rattle.qsr_words.specs.Asked.{check_app, check_asked, check_by};
ghost use Rattle.qsr_words.specs.Found.{values_of};
ghost use Rattle.qsr_words.specs.Requests.{check_of, IsCheck};

use crate::command::{found, option, value, word};
use crate::values::{owned, polygons};
use calculus_table::Memory;
use clap::{ArgMatches, Command};
use std::alloc::{AllocError, Global};

/// A request to check or to trace a certificate for the network of the source and of polygons.
#[derive(Debug, Drop)]
pub struct Check {
    /// The word for the calculus: `rcc8`, `allen`, `point`, or else the name of a table file.
    pub calculus: String,
    /// The name of the certificate's file.
    pub certificate: String,
    /// The name of a file of polygons whose relations are added to the network; over `rcc8` alone.
    pub polygons: Option<String>,
}

/// What the words ask of `check` or of `trace`, if they are its.
pub(crate) fn read(alloc: Global, words: &[String]) -> Result<Option<Check>, Memory>
    ensures asked { IfOk result (λ check.
        option_map check_of check ≡ check_asked (map string_bytes words.now)) }
    ensures limits { IfOk result (λ check. IfSome check (λ c. IsCheck (check_of c))) }
{
    let Ok(command) = command(alloc) else {
        return Err(Memory);
    };
    match found(command, words)? {
        Some(found) => request(alloc, &found),
        None => Ok(None),
    }
}

/// The request of the values found, if they are all there and fit.
fn request(alloc: Global, found: &ArgMatches<'_>) -> Result<Option<Check>, Memory>
    ensures asked { IfOk result (λ check. option_map check_of check ≡ check_by (values_of found.now)) }
    ensures limits { IfOk result (λ check. IfSome check (λ c. IsCheck (check_of c))) }
{
    let Some(calculus) = value(found, "calculus") else {
        return Ok(None);
    };
    let Some(certificate) = value(found, "certificate") else {
        return Ok(None);
    };
    let Some(polygons) = polygons(calculus, value(found, "polygons")) else {
        return Ok(None);
    };
    match owned_request(alloc, calculus, certificate, polygons) {
        Ok(check) => Ok(Some(check)),
        Err(_) => Err(Memory),
    }
}

/// The request of these values.
fn owned_request(
    alloc: Global,
    calculus: &str,
    certificate: &str,
    polygons: Option<&str>,
) -> Result<Check, AllocError>
    ensures { IfOk result (λ check. check_of check ≡ record {
      calculus = calculus.now;
      certificate = certificate.now;
      polygons = option_map (λ text. text.now) polygons.entry;
    }) }
{
    Ok(Check {
        calculus: String::from_str(alloc, calculus)?,
        certificate: String::from_str(alloc, certificate)?,
        polygons: owned(alloc, polygons)?,
    })
}

/// The command that reads the words of `check` and of `trace`.
fn command<'a>(alloc: Global) -> Result<Command<'a>, AllocError>
    ensures { IfOk result (λ command. app_of command ≡ check_app) }
{
    Command::new(alloc, "check")
        .arg(word(alloc, "calculus"))?
        .arg(word(alloc, "certificate"))?
        .arg(option(alloc, "polygons"))
}
