//! The lines of a session, taken one after another by its pass.
ghost use Rattle.std.specs.Prelude.{◌≡◌};
ghost use Rattle.std.specs.List.{All};
ghost use Rattle.calculus_table.specs.Rel.{IsWithin};
ghost use Rattle.calculus_table.specs.Composition.{full_of};
ghost use Rattle.network_words.specs.Network.{IsNetwork};
ghost use Rattle.narrow_core.specs.Machine.{IsProperFact};
ghost use Rattle.edge_table.specs.Opening.{IsPassOf, algebra_of};
ghost use Rattle.edge_table.specs.Passes.{Asserts, seen_between};
ghost use Rattle.session_phase.specs.Phase.{IsStepFor, asked_by, IsTaken, AreTaken};

use calculus_table::{Compose, Rel, lawful};
use closure_workers::News;
use edge_table::{OpenNet, Pass};
use network_words::Fact;
use session_scripts::What;

/// A line of a session: its place among the lines of the batch, what it asks for, and the set that it shows.
#[derive(Clone, Copy, Debug)]
pub struct Step {
    pub place: u32,
    pub what: What,
    pub set: Rel,
}

/// Takes the steps one after another.
pub(crate) fn take_steps<C: Compose>(
    table: &OpenNet,
    pass: &mut Pass,
    c: &C,
    news: &News,
    steps: &mut [Step],
)
    requires pass { IsPassOf table.now pass.old }
    requires calculus { C.algebra c.now ≡ algebra_of table.now.opening }
    requires network { IsNetwork (C.algebra c.now) table.now.opening.nodes pass.old.actor.seen }
    requires steps { All (IsStepFor (full_of (C.algebra c.now)) table.now.opening.nodes) steps.old }
    ensures pass { IsPassOf table.now pass.new }
    ensures taken { AreTaken (C.algebra c.now) table.now.opening.nodes (asked_by steps.old)
        pass.old.actor pass.new.actor steps.new }
{
    for step in steps.iter_mut() {
        *step = take_step(table, pass, c, news, *step);
    }
}

/// States the fact of a step, or looks at the set that it asks for. Returns the step with the set.
fn take_step<C: Compose>(table: &OpenNet, pass: &mut Pass, c: &C, news: &News, step: Step) -> Step
    requires pass { IsPassOf table.now pass.old }
    requires calculus { C.algebra c.now ≡ algebra_of table.now.opening }
    requires network { IsNetwork (C.algebra c.now) table.now.opening.nodes pass.old.actor.seen }
    requires step { IsStepFor (full_of (C.algebra c.now)) table.now.opening.nodes step }
    ensures pass { IsPassOf table.now pass.new }
    ensures taken { IsTaken (C.algebra c.now) table.now.opening.nodes step
        pass.old.actor pass.new.actor result }
{
    lawful(c);
    let what = step.what;
    match what {
        What::Assert(fact) => {
            state(table, pass, c, news, fact);
            step
        }
        What::Peek { i, j } => {
            let set = table.peek(pass, c, i, j);
            Step { set, ..step }
        }
        What::Withdraw { .. } | What::Ask { .. } | What::Refused { .. } => step,
    }
}

/// States a fact, and tells of the row in which its edge lies.
fn state<C: Compose>(table: &OpenNet, pass: &mut Pass, c: &C, news: &News, fact: Fact)
    requires pass { IsPassOf table.now pass.old }
    requires calculus { C.algebra c.now ≡ algebra_of table.now.opening }
    requires proper { IsProperFact table.now.opening.nodes (full_of (C.algebra c.now)) fact }
    ensures pass { IsPassOf table.now pass.new }
    ensures asserts { Asserts (C.algebra c.now) fact pass.old pass.new }
    ensures within { IsWithin (seen_between (C.algebra c.now) pass.new fact.i fact.j) fact.rel }
{
    let row = fact.i.min(fact.j);
    table.assert(pass, c, fact);
    news.tell(row);
}
