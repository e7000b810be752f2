//! The values of the commands' options, and the usual ones where the words name none.
ghost use Rattle.std.specs.Prelude.{◌≡◌, ◌≤◌, true, IfOk, IfSome, option_map};
ghost use Rattle.std.specs.String.{string_bytes};
ghost use Rattle.qsr_words.specs.Asked.{number_within, workers_asked, workers_beside, budget_asked};
ghost use Rattle.qsr_words.specs.Asked.{is_rcc8_class, class_fits, class_asked, usual_class, polygons_fit};
ghost use Rattle.qsr_words.specs.Asked.{polygons_asked, seed_asked, nodes_asked, served_nodes_asked};
ghost use Rattle.qsr_words.specs.Asked.{is_flag_there};
ghost use Rattle.qsr_words.specs.Requests.{AreWorkers, AreWorkersIfNamed};

use crate::{
    MAX_BUDGET, MAX_DEMO_NODES, MAX_SEED, MAX_SERVED_NODES, MAX_WORKERS, MIN_DEMO_NODES,
    MIN_SERVED_NODES, MIN_WORKERS, USUAL_BUDGET, USUAL_WORKERS,
};
use qsr_lex::number;
use std::alloc::{AllocError, Global};

/// The value of a word that is a number from `least` to `most`.
fn number_within(word: &str, least: u32, most: u32) -> Option<u32>
    ensures value { result ≡ number_within least most word.now }
    ensures within { IfSome result (λ n. (least ≤ n) × (n ≤ most)) }
{
    let number = number(word.as_bytes())?;
    if u64::from(least) <= number && number <= u64::from(most) {
        Some(number as u32)
    } else {
        None
    }
}

/// The number of workers that a word names, and none where there is no word.
pub(crate) fn workers(word: Option<&str>) -> Option<Option<u32>>
    ensures value { result ≡ workers_asked (option_map (λ text. text.now) word.entry) }
    ensures within { IfSome result AreWorkersIfNamed }
{
    match word {
        Some(word) => Some(Some(number_within(word, MIN_WORKERS, MAX_WORKERS)?)),
        None => Some(None),
    }
}

/// The number of workers beside sessions that a word names, or the usual one where there is no word.
pub(crate) fn workers_beside(word: Option<&str>) -> Option<u32>
    ensures value { result ≡ workers_beside (option_map (λ text. text.now) word.entry) }
    ensures within { IfSome result AreWorkers }
{
    match word {
        Some(word) => number_within(word, MIN_WORKERS, MAX_WORKERS),
        None => Some(USUAL_WORKERS),
    }
}

/// The budget of splits that a word names, or the usual one where there is no word.
pub(crate) fn budget(word: Option<&str>) -> Option<u32>
    ensures value { result ≡ budget_asked (option_map (λ text. text.now) word.entry) }
    ensures within { IfSome result (λ n. n ≤ MAX_BUDGET) }
{
    match word {
        Some(word) => number_within(word, 0, MAX_BUDGET),
        None => Some(USUAL_BUDGET),
    }
}

/// The class that a word names for a calculus, or the usual one where there is no word.
pub(crate) fn class<'a>(calculus: &str, word: Option<&'a str>) -> Option<&'a str>
    ensures value { option_map (λ text. text.now) result
        ≡ class_asked calculus.now (option_map (λ text. text.now) word.entry) }
    ensures fits { IfSome result (λ class. class_fits calculus.now class.now ≡ true) }
{
    match word {
        Some(word) if !word.is_empty() && class_fits(calculus, word) => Some(word),
        Some(_) => None,
        None => Some(usual_class(calculus)),
    }
}

/// The polygons that a word names for a calculus, and none where there is no word.
pub(crate) fn polygons<'a>(calculus: &str, word: Option<&'a str>) -> Option<Option<&'a str>>
    ensures value { option_map (option_map (λ text. text.now)) result
        ≡ polygons_asked calculus.now (option_map (λ text. text.now) word.entry) }
    ensures fits { IfSome result (λ polygons.
        polygons_fit calculus.now (option_map (λ text. text.now) polygons) ≡ true) }
{
    match word {
        Some(word) if !word.is_empty() && calculus == "rcc8" => Some(Some(word)),
        Some(_) => None,
        None => Some(None),
    }
}

/// The seed that a word is.
pub(crate) fn seed(word: Option<&str>) -> Option<u32>
    ensures { result ≡ seed_asked (option_map (λ text. text.now) word.entry) }
{
    number_within(word?, 0, MAX_SEED)
}

/// The number of nodes of a demonstration that a word is.
pub(crate) fn demo_nodes(word: Option<&str>) -> Option<u32>
    ensures value { result ≡ nodes_asked (option_map (λ text. text.now) word.entry) }
    ensures within { IfSome result (λ n. (MIN_DEMO_NODES ≤ n) × (n ≤ MAX_DEMO_NODES)) }
{
    number_within(word?, MIN_DEMO_NODES, MAX_DEMO_NODES)
}

/// The number of nodes of the network that sessions use that a word is.
pub(crate) fn served_nodes(word: Option<&str>) -> Option<u32>
    ensures value { result ≡ served_nodes_asked (option_map (λ text. text.now) word.entry) }
    ensures within { IfSome result (λ n. (MIN_SERVED_NODES ≤ n) × (n ≤ MAX_SERVED_NODES)) }
{
    number_within(word?, MIN_SERVED_NODES, MAX_SERVED_NODES)
}

/// Whether an option without a value is there, by the value that `clap` gives it.
pub(crate) fn is_flag_there(value: Option<&str>) -> bool
    ensures { result ≡ is_flag_there (option_map (λ text. text.now) value.entry) }
{
    value == Some("true")
}

/// The text of its own, if there is one.
pub(crate) fn owned(alloc: Global, text: Option<&str>) -> Result<Option<String>, AllocError>
    ensures { IfOk result (λ owned. option_map string_bytes owned ≡ option_map (λ t. t.now) text.entry) }
{
    match text {
        Some(text) => Ok(Some(String::from_str(alloc, text)?)),
        None => Ok(None),
    }
}

/// The class of a search over a calculus where no word names one.
fn usual_class(calculus: &str) -> &'static str
    ensures value { result.now ≡ usual_class calculus.now }
    ensures fits { class_fits calculus.now result.now ≡ true }
{
    if calculus == "rcc8" { "h8" } else { "none" }
}

/// Whether a class goes with a calculus: one of RCC-8 that is built in goes with RCC-8 alone.
fn class_fits(calculus: &str, class: &str) -> bool
    ensures { result ≡ class_fits calculus.now class.now }
{
    calculus == "rcc8" || !is_rcc8_class(class)
}

/// Whether the word names a class of RCC-8 that is built in.
fn is_rcc8_class(class: &str) -> bool
    ensures { result ≡ is_rcc8_class class.now }
{
    class == "h8" || class == "c8" || class == "q8"
}
