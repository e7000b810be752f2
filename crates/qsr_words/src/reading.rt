//! Which command the words name.
ghost use Rattle.std.specs.Prelude.{◌≡◌, IfOk, map};
ghost use Rattle.std.specs.List.{list_any};
ghost use Rattle.std.specs.String.{string_bytes};
ghost use Rattle.qsr_words.specs.Asked.{asked_by, command_by, is_strange};
ghost use Rattle.qsr_words.specs.Requests.{asked_of, IsWithinLimits};

use crate::check::Check;
use crate::close::Close;
use crate::demo::Demo;
use crate::intervals::Intervals;
use crate::minimal::Minimal;
use crate::relate::Relate;
use crate::scene::Scene;
use crate::serve::Serve;
use crate::solve::Solve;
use crate::{check, close, demo, intervals, minimal, relate, scene, serve, solve};
use calculus_table::Memory;
use std::alloc::Global;

/// What the words ask for.
#[derive(Debug, Drop)]
pub enum Request {
    /// To close a network.
    Close(Close),
    /// To search for a scenario of a network.
    Solve(Solve),
    /// To search for intervals of a network over Allen's calculus.
    Intervals(Intervals),
    /// To search for the minimal network of a network.
    Minimal(Minimal),
    /// To check a certificate.
    Check(Check),
    /// To trace a certificate.
    Trace(Check),
    /// To relate each two polygons.
    Relate(Relate),
    /// To write the network that polygons draw.
    Scene(Scene),
    /// To answer the sessions of a script.
    Serve(Serve),
    /// To show a search at work.
    Demo(Demo),
    /// Nothing that there is: the usage line is the answer.
    Usage,
}

/// What the words ask for. They are the arguments without the program's name.
pub fn read(alloc: Global, words: &[String]) -> Result<Request, Memory>
    ensures asked { IfOk result (λ request. asked_of request ≡ asked_by (map string_bytes words.now)) }
    ensures limits { IfOk result IsWithinLimits }
{
    if has_strange(words) {
        return Ok(Request::Usage);
    }
    match words {
        [name, ..] => request_by(alloc, name.as_str(), words),
        [] => Ok(Request::Usage),
    }
}

/// What words ask for of which the first is this name.
fn request_by(alloc: Global, name: &str, words: &[String]) -> Result<Request, Memory>
    ensures asked { IfOk result (λ request.
        asked_of request ≡ command_by name.now (map string_bytes words.now)) }
    ensures limits { IfOk result IsWithinLimits }
{
    let request = match name {
        "close" => close::read(alloc, words)?.map(Request::Close),
        "solve" => solve::read(alloc, words)?.map(Request::Solve),
        "intervals" => intervals::read(alloc, words)?.map(Request::Intervals),
        "minimal" => minimal::read(alloc, words)?.map(Request::Minimal),
        "check" => check::read(alloc, words)?.map(Request::Check),
        "trace" => check::read(alloc, words)?.map(Request::Trace),
        "relate" => relate::read(alloc, words)?.map(Request::Relate),
        "scene" => scene::read(alloc, words)?.map(Request::Scene),
        "serve" => serve::read(alloc, words)?.map(Request::Serve),
        "demo" => demo::read(alloc, words)?.map(Request::Demo),
        _ => None,
    };
    Ok(request.unwrap_or(Request::Usage))
}

/// Whether no command takes one of the words.
fn has_strange(words: &[String]) -> bool
    ensures { result ≡ list_any (λ word. is_strange (string_bytes word)) words.now }
{
    words.iter().any(|word| is_strange(word.as_bytes()))
}

/// Whether no command takes the word: it is empty, a dash or two, or begins with a single dash.
fn is_strange(word: &[u8]) -> bool
    ensures { result ≡ is_strange word.now }
{
    match word {
        [] | b"-" | b"--" => true,
        [b'-', second, ..] => *second != b'-',
        _ => false,
    }
}
