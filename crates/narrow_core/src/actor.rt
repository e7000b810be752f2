use crate::lists::{chained, met};
use calculus_table::{Memory, Rel};
use network_words::Fact;
use std::alloc::Global;
use std::marker::Model;

/// What one actor has stated and what it has seen.
#[derive(Debug, Drop)]
pub struct Actor {
    is_live: bool,
    weight: u32,
    mine: Vec<Fact>,
    seen: Vec<u64>,
}

impl Model for Actor {
    ghost use Rattle.narrow_core.specs.Actor.{ActorState};

    ghost Value = { ActorState };

    ghost view = { λ a. record {
      is_live = a.is_live;
      weight = a.weight;
      mine = a.mine.items;
      seen = a.seen.items;
    } };
}

impl Actor {
    ghost use Rattle.std.specs.Prelude.{◌≡◌, ◌+◌, ◌≤◌, ◌<◌, ◌^◌, length, IfOk, OnErr, OnOk};
    ghost use Rattle.narrow_core.specs.Actor.{ActorState, fresh, seeing, stating, giving, joining, spent};

    /// A live actor that has stated nothing.
    pub(crate) fn new(alloc: Global, weight: u32, seen: &[u64]) -> Result<Actor, Memory>
        ensures { IfOk result (λ a. a ≡ fresh weight seen.now) }
    {
        let seen = Vec::from_slice(alloc, seen).map_err(|_| Memory)?;
        Ok(Actor {
            is_live: true,
            weight,
            mine: Vec::new(alloc),
            seen,
        })
    }

    /// Whether the actor is live, and not spent.
    pub(crate) fn is_live(&self) -> bool
        ensures { result ≡ self.now.is_live }
    {
        self.is_live
    }

    /// The actor's part of the whole weight.
    pub fn weight(&self) -> u32
        ensures { result ≡ self.now.weight }
    {
        self.weight
    }

    /// The facts that the actor has stated.
    pub fn facts(&self) -> &[Fact]
        ensures { result.now ≡ self.now.mine }
    {
        &self.mine
    }

    /// The set that the actor has seen of each edge, in edge order.
    pub fn seen(&self) -> &[u64]
        ensures { result.now ≡ self.now.seen }
    {
        &self.seen
    }

    /// Narrows what the actor has seen of an edge to the set that the edge has.
    pub(crate) fn see(&mut self, edge: u32, rel: Rel)
        requires { edge < length self.old.seen }
        ensures { self.new ≡ seeing edge rel self.old }
    {
        self.seen[edge as usize] &= rel.word();
    }

    /// Adds a fact to those that the actor has stated.
    pub(crate) fn state(&mut self, fact: Fact) -> Result<(), Memory>
        ensures stated { OnOk result (self.new ≡ stating fact self.old) }
        ensures memory { OnErr result (self.new ≡ self.old) }
    {
        self.mine.push(fact).map_err(|_| Memory)
    }

    /// A new actor that takes the weight `left` and has seen the same.
    pub(crate) fn split(&self, left: u32) -> Result<Actor, Memory>
        ensures { IfOk result (λ a. a ≡ fresh left self.now.seen) }
    {
        Actor::new(*self.mine.allocator(), left, &self.seen)
    }

    /// Gives away the weight `left`.
    pub(crate) fn give(&mut self, left: u32)
        requires { left ≤ self.old.weight }
        ensures { self.new ≡ giving left self.old }
    {
        self.weight -= left;
    }

    /// This actor with all that the other has.
    pub(crate) fn joined(&self, other: &Actor) -> Result<Actor, Memory>
        requires { self.now.weight + other.now.weight < 2 ^ 32 }
        ensures { IfOk result (λ a. a ≡ joining self.now other.now) }
    {
        let alloc = *self.mine.allocator();
        let mine = chained(alloc, &self.mine, &other.mine).map_err(|_| Memory)?;
        let seen = met(alloc, &self.seen, &other.seen).map_err(|_| Memory)?;
        Ok(Actor {
            is_live: self.is_live,
            weight: self.weight + other.weight,
            mine,
            seen,
        })
    }

    /// Marks the actor as spent.
    pub(crate) fn spend(&mut self)
        ensures { self.new ≡ spent self.old }
    {
        self.is_live = false;
    }
}
