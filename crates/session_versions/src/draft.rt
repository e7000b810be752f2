use crate::held::{Held, held_with, take_out};
use calculus_table::Memory;
use network_words::Fact;
use std::marker::Model;

/// Why a fact can't be withdrawn.
#[derive(Clone, Copy, Debug, PartialEq, Eq)]
pub enum WithdrawFault {
    /// No fact has the number.
    NoFact,
    /// The fact is another session's.
    NotYours,
}

/// The facts of a version that is being made, in the order of their numbers, and the number that the next one gets.
#[derive(Debug, Drop)]
pub struct Draft {
    pub facts: Vec<Held>,
    pub next: u64,
}

impl Model for Draft {
    ghost use Rattle.session_versions.specs.HeldFacts.{AreNumbered};
    ghost use Rattle.session_versions.specs.Drafts.{DraftState};

    ghost Value = { DraftState };

    ghost view = { λ d. record { facts = d.facts.items; next = d.next } };

    ghost invariant = { λ d. AreNumbered d.facts.items d.next };
}

impl Draft {
    ghost use Rattle.std.specs.Prelude.{◌≡◌, ◌<◌, ◌^◌, Some, None, IfOk, IfErr, OnOk, OnErr};
    ghost use Rattle.session_versions.specs.HeldFacts.{AreNumbered, held_with};
    ghost use Rattle.session_versions.specs.Drafts.{withdraw_fault, withdrawing, adding};

    /// Takes a session's fact out. The other facts stay. If the fact can't be withdrawn the draft is as before.
    pub fn withdraw(&mut self, session: &str, fact: u64) -> Result<(), WithdrawFault>
        ensures ok { OnOk result (self.new ≡ withdrawing fact self.old) }
        ensures mine { OnOk result (withdraw_fault session.now (held_with fact self.old.facts) ≡ None) }
        ensures fault { IfErr result
            (λ e. withdraw_fault session.now (held_with fact self.old.facts) ≡ Some e) }
        ensures kept { OnErr result (self.new ≡ self.old) }
    {
        let Some(held) = held_with(&self.facts, fact) else {
            return Err(WithdrawFault::NoFact);
        };
        if held.session.as_bytes() != session.as_bytes() {
            return Err(WithdrawFault::NotYours);
        }
        take_out(&mut self.facts, fact);
        Ok(())
    }

    /// Puts a session's fact in after the others, and returns its number. If memory runs out the draft is as before.
    pub fn add(&mut self, session: &str, fact: Fact) -> Result<u64, Memory>
        requires { self.old.next < 2 ^ 63 }
        ensures ok { OnOk result (self.new ≡ adding session.now fact self.old) }
        ensures number { IfOk result (λ number. number ≡ self.old.next) }
        ensures kept { OnErr result (self.new ≡ self.old) }
    {
        let number = self.next;
        let session = String::from_str(*self.facts.allocator(), session).map_err(|_| Memory)?;
        let held = Held {
            number,
            session,
            fact,
        };
        self.facts.push(held).map_err(|_| Memory)?;
        self.next = number + 1;
        Ok(number)
    }

    /// Does nothing. A proof learns by it that the facts are numbered.
    pub fn numbered(&self)
        ensures { AreNumbered self.now.facts self.now.next }
    {
        let _next = &self.next;
    }
}
