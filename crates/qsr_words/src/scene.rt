//! The words of `scene`: polygons.
ghost use Rattle.std.specs.Prelude.{◌≡◌, IfOk, map, option_map};
ghost use Rattle.std.specs.String.{string_bytes};
ghost use Rattle.clap.specs.Words.{app_of};
ghost use Rattle.qsr_words.specs.Asked.{scene_app, scene_asked, scene_by};
ghost use Rattle.qsr_words.specs.Found.{values_of};
ghost use Rattle.qsr_words.specs.Requests.{scene_of};

use crate::command::{found, value, word};
use calculus_table::Memory;
use clap::{ArgMatches, Command};
use std::alloc::{AllocError, Global};

/// A request to write the network that the polygons of a file draw.
#[derive(Debug, Drop)]
pub struct Scene {
    /// The name of the file of polygons.
    pub polygons: String,
}

/// What the words ask of `scene`, if they are its.
pub(crate) fn read(alloc: Global, words: &[String]) -> Result<Option<Scene>, Memory>
    ensures { IfOk result (λ scene.
        option_map scene_of scene ≡ scene_asked (map string_bytes words.now)) }
{
    let Ok(command) = command(alloc) else {
        return Err(Memory);
    };
    match found(command, words)? {
        Some(found) => request(alloc, &found),
        None => Ok(None),
    }
}

/// The request of the values found, if they are all there.
fn request(alloc: Global, found: &ArgMatches<'_>) -> Result<Option<Scene>, Memory>
    ensures { IfOk result (λ scene. option_map scene_of scene ≡ scene_by (values_of found.now)) }
{
    let Some(polygons) = value(found, "polygons") else {
        return Ok(None);
    };
    match String::from_str(alloc, polygons) {
        Ok(polygons) => Ok(Some(Scene { polygons })),
        Err(_) => Err(Memory),
    }
}

/// The command that reads the words of `scene`.
fn command<'a>(alloc: Global) -> Result<Command<'a>, AllocError>
    ensures { IfOk result (λ command. app_of command ≡ scene_app) }
{
    Command::new(alloc, "scene").arg(word(alloc, "polygons"))
}
