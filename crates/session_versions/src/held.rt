ghost use Rattle.std.specs.Prelude.{◌≡◌, ◌==◌, not, filter, IfOk};
ghost use Rattle.std.specs.Option.{option_copied};
ghost use Rattle.session_versions.specs.HeldFacts.{facts_of, held_with};

use calculus_table::Memory;
use network_words::Fact;
use std::alloc::Global;
use std::marker::Model;

/// A fact that a session has stated, under the number that it got.
#[derive(Debug, Drop)]
pub struct Held {
    pub number: u64,
    pub session: String,
    pub fact: Fact,
}

impl Model for Held {
    ghost use Rattle.std.specs.String.{string_bytes};
    ghost use Rattle.session_versions.specs.HeldFacts.{HeldFact};

    ghost Value = { HeldFact };

    ghost view = { λ h. record {
      number = h.number;
      session = string_bytes h.session;
      fact = h.fact;
    } };
}

/// An equal fact.
fn copy(held: &Held) -> Result<Held, Memory>
    ensures { IfOk result (λ copy. copy ≡ held.now) }
{
    let Ok(session) = held.session.clone() else {
        return Err(Memory);
    };
    Ok(Held {
        number: held.number,
        session,
        fact: held.fact,
    })
}

/// Equal facts in the same order.
pub(crate) fn copies(alloc: Global, helds: &[Held]) -> Result<Vec<Held>, Memory>
    ensures { IfOk result (λ copies. copies.items ≡ helds.now) }
{
    let mut copies = Vec::with_capacity(alloc, helds.len()).map_err(|_| Memory)?;
    for held in helds {
        copies.push(copy(held)?).map_err(|_| Memory)?;
    }
    Ok(copies)
}

/// The facts without their numbers and sessions.
pub fn facts_alone(alloc: Global, helds: &[Held]) -> Result<Vec<Fact>, Memory>
    ensures { IfOk result (λ facts. facts.items ≡ facts_of helds.now) }
{
    let mut facts = Vec::with_capacity(alloc, helds.len()).map_err(|_| Memory)?;
    for held in helds {
        facts.push(held.fact).map_err(|_| Memory)?;
    }
    Ok(facts)
}

/// The fact with this number.
pub(crate) fn held_with(helds: &[Held], number: u64) -> Option<&Held>
    ensures { option_copied result ≡ held_with number helds.now }
{
    helds.iter().find(|held| held.number == number)
}

/// Drops the fact with this number.
pub(crate) fn take_out(helds: &mut Vec<Held>, number: u64)
    ensures { helds.new.items ≡ filter (λ held. not (held.number == number)) helds.old.items }
{
    helds.retain(|held| held.number != number);
}
