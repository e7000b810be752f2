//! The calculus of a search with the class that guides it: one that is built in, or that of a class file.
ghost use Rattle.std.specs.Prelude.{◌≡◌, ◌≤◌, ◌∷◌, [], ◌++◌, true, length, codes, option_map, IfOk, IfErr, Ok};
ghost use Rattle.std.specs.Str.{bytes_eq};
ghost use Rattle.qsr_lex.specs.declared.TheConstants.{MAX_TEXT};
ghost use Rattle.calculus_builtin.specs.Rcc8.{rcc8_calculus};
ghost use Rattle.qsr_words.specs.Asked.{class_fits, is_rcc8_class};
ghost use Rattle.qsr_inputs.specs.Stops.{HasCause, IsRefusalOrMemory};
ghost use Rattle.qsr_inputs.specs.Parts.{Then};
ghost use Rattle.qsr_inputs.specs.Inputs.{CalculusAndClass, ClassFileOf, ClassOf, DocumentOf};
ghost use Rattle.qsr_inputs.specs.Inputs.{CanGuide, builtin_class};
ghost use Rattle.qsr_inputs.specs.Told.{named_by_calculus, named_by_class};
ghost use Rattle.qsr_inputs.specs.Readings.{Fetches};

use crate::inputs::calculus;
use crate::stops::{Stop, class_stop};
use crate::texts::document;
use calculus_table::{Calculus, Compose, Memory};
use qsr_outside::Shelf;
use std::alloc::Global;
use std::marker::Model;
use tract_classes::{Class, c8, h8, none, q8};

/// A calculus, and a class that guides a search over it.
#[derive(Debug, Drop)]
pub struct GuidedCalculus {
    pub calculus: Calculus,
    pub class: Class,
}

impl Model for GuidedCalculus {
    ghost use Rattle.qsr_inputs.specs.Inputs.{Guided};

    ghost Value = { Guided };

    ghost view = { λ g. record { calculus = g.calculus; class = g.class } };
}

/// The calculus of a word, and then the class of another over it. A class of RCC-8 that is built in goes with RCC-8
/// alone.
pub fn calculus_and_class<F: Shelf>(
    alloc: Global,
    shelf: &mut F,
    word: &str,
    class_word: &str,
) -> Result<GuidedCalculus, Stop>
    requires { class_fits word.now class_word.now ≡ true }
    ensures guided { Fetches F.documents F.faults F.given F.absent_openings
        (named_by_calculus word.now ++ named_by_class class_word.now)
        (λ documents. CalculusAndClass documents word.now class_word.now) shelf.old shelf.new result }
    ensures guides { IfOk result CanGuide }
    ensures rcc8 { IfOk result (λ guided.
        bytes_eq word.now (codes "rcc8") ≡ true → guided.calculus ≡ rcc8_calculus) }
{
    let calculus = calculus(alloc, shelf, word)?;
    let class = class(alloc, shelf, class_word, &calculus)?;
    Ok(GuidedCalculus { calculus, class })
}

/// The class of a word over a calculus: one that is built in, or that of the class file of this name. A class of RCC-8
/// that is built in goes with RCC-8 alone.
pub fn class<F: Shelf>(
    alloc: Global,
    shelf: &mut F,
    word: &str,
    c: &Calculus,
) -> Result<Class, Stop>
    requires { is_rcc8_class word.now ≡ true → c.now ≡ rcc8_calculus }
    ensures class { Fetches F.documents F.faults F.given F.absent_openings (named_by_class word.now)
        (λ documents. ClassOf documents word.now c.now) shelf.old shelf.new result }
    ensures guides { IfOk result (λ class. CanGuide (record { calculus = c.now; class = class })) }
{
    match builtin_class(alloc, word, c.size()) {
        Ok(Some(class)) => Ok(class),
        Ok(None) => class_file(alloc, shelf, word, c),
        Err(Memory) => Err(Stop::Memory),
    }
}

/// The class that is built in under this word, over so many base relations.
fn builtin_class(alloc: Global, word: &str, size: u32) -> Result<Option<Class>, Memory>
    requires { size ≤ 64 }
    ensures { IfOk result (λ found.
        found ≡ option_map (λ class. class size) (builtin_class word.now)) }
{
    if word == "h8" {
        return Ok(Some(h8(alloc)?));
    }
    if word == "c8" {
        return Ok(Some(c8(alloc)?));
    }
    if word == "q8" {
        return Ok(Some(q8(alloc)?));
    }
    if word == "none" {
        return Ok(Some(none(alloc, size)?));
    }
    Ok(None)
}

/// The class of the class file of this name, over a calculus.
fn class_file<F: Shelf>(
    alloc: Global,
    shelf: &mut F,
    name: &str,
    c: &Calculus,
) -> Result<Class, Stop>
    ensures class { Fetches F.documents F.faults F.given F.absent_openings (name.now ∷ [])
        (λ documents. Then (DocumentOf documents name.now) (ClassFileOf c.now)) shelf.old shelf.new result }
    ensures guides { IfOk result (λ class. CanGuide (record { calculus = c.now; class = class })) }
{
    let text = document(alloc, shelf, name)?;
    class_of(alloc, &text.bytes, c)
}

/// The class of a class file over a calculus.
fn class_of(alloc: Global, bytes: &[u8], c: &Calculus) -> Result<Class, Stop>
    requires { length bytes.now ≤ MAX_TEXT }
    ensures value { IfOk result (λ class. ClassFileOf c.now bytes.now (Ok class)) }
    ensures cause { IfErr result (HasCause (ClassFileOf c.now bytes.now)) }
    ensures guides { IfOk result (λ class. CanGuide (record { calculus = c.now; class = class })) }
    ensures refusal { IfErr result IsRefusalOrMemory }
{
    match tract_classes::load(alloc, bytes, c) {
        Ok(class) => Ok(class),
        Err(fault) => Err(class_stop(fault)),
    }
}
