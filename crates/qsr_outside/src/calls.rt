ghost use Rattle.std.specs.Prelude.{◌≡◌, ◌↔◌, ◌≤◌, Contains, IfOk, IsTrue};
ghost use Rattle.qsr_outside.specs.Counts.{count_after};
ghost use Rattle.qsr_outside.specs.InMemory.{no_calls};

use crate::failures::Memory;
use std::alloc::Global;
use std::marker::Model;

/// The calls of an object in memory: which are to fail, and how many there were.
#[derive(Drop)]
pub struct Calls {
    failing: Vec<u32>,
    made: u64,
    faults: u64,
}

impl Model for Calls {
    ghost use Rattle.qsr_outside.specs.InMemory.{CallsState};

    ghost Value = { CallsState };

    ghost view = { λ c. record { failing = c.failing.items; made = c.made; faults = c.faults } };
}

impl Calls {
    /// No call yet, where those with the given numbers, from 0, are to fail.
    pub fn new(alloc: Global, failing: &[u32]) -> Result<Self, Memory>
        ensures { IfOk result (λ c. c ≡ no_calls failing.now) }
    {
        let failing = Vec::from_slice(alloc, failing).map_err(|_| Memory)?;
        Ok(Calls {
            failing,
            made: 0,
            faults: 0,
        })
    }

    /// How many calls failed.
    pub fn faults(&self) -> u64
        ensures { result ≡ self.now.faults }
    {
        self.faults
    }

    /// Counts one more call, and returns whether it is to fail.
    pub fn begin(&mut self) -> bool
        ensures fails { IsTrue result ↔ Contains self.old.failing self.old.made }
        ensures counts { self.new ≡ record self.old { made = count_after self.old.made 1 } }
    {
        let number = self.made;
        self.made = self.made.saturating_add(1);
        self.failing.iter().any(|n| u64::from(*n) == number)
    }

    /// Counts a failed call.
    pub fn count_fault(&mut self)
        ensures counts { self.new ≡ record self.old { faults = count_after self.old.faults 1 } }
        ensures never_falls { self.old.faults ≤ self.new.faults }
    {
        self.faults = self.faults.saturating_add(1);
    }
}
