ghost use Rattle.std.specs.Prelude.{◌≡◌, IfOk};
ghost use Rattle.std.specs.String.{string_bytes};
ghost use Rattle.qsr_answers.specs.Texts.{place_text, refusal_text, usage_text, not_accepted_text, accepted_text};

use qsr_inputs::{Place, Status};
use std::alloc::{AllocError, Global};

/// What is to be written, and how the run then ends.
#[derive(Debug, Drop)]
pub struct Answer {
    pub text: String,
    pub status: Status,
}

/// The answer to words that are no command.
pub fn usage(alloc: Global) -> Result<Answer, AllocError>
    ensures status { IfOk result (λ answer. answer.status ≡ Status.Usage) }
    ensures text { IfOk result (λ answer. string_bytes answer.text ≡ usage_text) }
{
    let text = String::from_str(alloc, "usage\n")?;
    Ok(Answer {
        text,
        status: Status::Usage,
    })
}

/// The numbers of a place, each after one space.
fn place_text(alloc: Global, place: Place) -> Result<String, AllocError>
    ensures { IfOk result (λ text. string_bytes text ≡ place_text place) }
{
    let mut text = String::new(alloc);
    if place.count > 0 {
        write!(text, " {}", place.a)?;
    }
    if place.count > 1 {
        write!(text, " {}", place.b)?;
    }
    if place.count > 2 {
        write!(text, " {}", place.c)?;
    }
    Ok(text)
}

/// The answer to an input that is refused.
pub fn refused(alloc: Global, number: u32, place: Place) -> Result<Answer, AllocError>
    ensures status { IfOk result (λ answer. answer.status ≡ Status.Refused number place) }
    ensures text { IfOk result (λ answer. string_bytes answer.text ≡ refusal_text number place) }
{
    let place_text = place_text(alloc, place)?;
    let text = format!(in alloc; "refused {number}{place_text}\n")?;
    Ok(Answer {
        text,
        status: Status::Refused { number, place },
    })
}

/// The answer where a certificate is accepted.
pub(crate) fn accepted(alloc: Global) -> Result<Answer, AllocError>
    ensures status { IfOk result (λ answer. answer.status ≡ Status.Done) }
    ensures text { IfOk result (λ answer. string_bytes answer.text ≡ accepted_text) }
{
    let text = String::from_str(alloc, "accepted\n")?;
    Ok(Answer {
        text,
        status: Status::Done,
    })
}

/// The answer where a certificate isn't accepted.
pub(crate) fn not_accepted(alloc: Global, number: u32, place: Place) -> Result<Answer, AllocError>
    ensures status { IfOk result (λ answer. answer.status ≡ Status.NotAccepted number place) }
    ensures text { IfOk result (λ answer.
        string_bytes answer.text ≡ not_accepted_text number place) }
{
    let place_text = place_text(alloc, place)?;
    let text = format!(in alloc; "not accepted {number}{place_text}\n")?;
    Ok(Answer {
        text,
        status: Status::NotAccepted { number, place },
    })
}
