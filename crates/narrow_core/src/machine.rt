//! The machine: one state, which actors change event by event.
//!
//! An actor narrows an edge by the composition of what it has seen itself, which may be older than the
//! words. That loses no closed network: such a network is within all that any actor has seen, and
//! composition is monotone, so it is within every composition. What an actor has seen is never less
//! than the words, since words only become less. So between the events the words contain the closure of
//! what was stated and are within all that was stated and seen, and when one actor has all the weight,
//! it is alone: the closure of the words is that of the opening met with its facts. An event takes one
//! composition at most, and a list of events as many steps as it has events.
use crate::actor::Actor;
use crate::event::Event;
use calculus_table::{Compose, Memory, Rel, lawful};
use network_words::{Fact, Net, edge_between, relation_between};
use std::alloc::Global;
use std::marker::Model;

/// The machine: a network that several actors narrow, event by event.
#[derive(Debug, Drop)]
pub struct Core {
    opening: Vec<u64>,
    opening_weight: u32,
    net: Net,
    actors: Vec<Actor>,
}

impl Model for Core {
    ghost use Rattle.std.specs.Prelude.{◌<◌, ◌^◌};
    ghost use Rattle.narrow_core.specs.Machine.{CoreState, IsCore};

    ghost Value = { CoreState };

    ghost view = { λ a. record {
      nodes = a.net.nodes;
      full = a.net.full;
      opening = a.opening.items;
      opening_weight = a.opening_weight;
      words = a.net.words;
      actors = a.actors.items;
    } };

    ghost invariant = { λ a. record {
      core : IsCore (record {
        nodes = a.net.nodes;
        full = a.net.full;
        opening = a.opening.items;
        opening_weight = a.opening_weight;
        words = a.net.words;
        actors = a.actors.items;
      });
      fits : a.opening_weight < 2 ^ 32;
    } };
}

impl Core {
    ghost use Rattle.std.specs.Prelude.{◌≡◌, ℕ, ◌<◌, ◌↔◌, ◌^◌, length, take, slice_index, IfOk, OnErr, OnOk, IsTrue};
    ghost use Rattle.std.specs.Prelude.{Some, MatchOption};
    ghost use Rattle.calculus_table.specs.Rel.{IsWithin};
    ghost use Rattle.calculus_table.specs.Algebra.{Algebra};
    ghost use Rattle.calculus_table.specs.Composition.{full_of};
    ghost use Rattle.network_words.specs.Edge.{IsProperPair};
    ghost use Rattle.narrow_core.specs.Actor.{IsLiveAt};
    ghost use Rattle.narrow_core.specs.Machine.{CoreState, IsCore, IsProperFact, SameOpening, opened};
    ghost use Rattle.narrow_core.specs.Event.{IsAllowed, IsStep, HasLive, HasMore, MayAssert, MayRead, MayNarrow};
    ghost use Rattle.narrow_core.specs.Event.{MaySplit, MayJoin, Asserts, Reads, Narrows, Splits, Joins};
    ghost use Rattle.narrow_core.specs.Run.{IsRun, StopsAt, TakesMemory, WantsMemory};
    ghost use Rattle.narrow_core.specs.Bound.{Bound};

    /// The machine over `net`, with one live actor, number 0, that has the whole weight and has seen the
    /// network.
    pub fn new(alloc: Global, net: &Net, weight: u32) -> Result<Core, Memory>
        requires some { 0 < weight }
        requires within { (e : ℕ) → IsWithin (slice_index net.now.words e) net.now.full }
        ensures opened { IfOk result (λ core. core ≡ opened net.now weight) }
        ensures bound { IfOk result (λ core. (m : Algebra) → Bound m core) }
    {
        let opening = Vec::from_slice(alloc, net.words()).map_err(|_| Memory)?;
        let actor = Actor::new(alloc, weight, net.words())?;
        let mut actors = Vec::new(alloc);
        actors.push(actor).map_err(|_| Memory)?;
        Ok(Core {
            opening,
            opening_weight: weight,
            net: net.copy()?,
            actors,
        })
    }

    /// The sets of all edges at the opening, in edge order.
    pub fn opening(&self) -> &[u64]
        ensures { result.now ≡ self.now.opening }
    {
        &self.opening
    }

    /// The weight that the first actor had at the opening, and all live actors have together.
    pub fn opening_weight(&self) -> u32
        ensures { result ≡ self.now.opening_weight }
    {
        self.opening_weight
    }

    /// The sets of all edges as they stand, in edge order.
    pub fn words(&self) -> &[u64]
        ensures value { result.now ≡ self.now.words }
        ensures core { IsCore self.now }
    {
        self.net.words()
    }

    /// The live actor of this number.
    pub fn actor(&self, number: u32) -> Option<&Actor>
        ensures { MatchOption result
            (¬ HasLive self.now number)
            (λ a. IsLiveAt self.now.actors number a.now) }
    {
        let found = self.actors.get(number as usize)?;
        if found.is_live() { Some(found) } else { None }
    }

    /// Whether the event is allowed: its actor is live, its nodes differ and are there or its edge is, a
    /// fact's set is of base relations of the calculus, a split leaves some weight to each side, and a
    /// join names two live actors that differ.
    pub fn may(&self, event: &Event) -> bool
        ensures { IsTrue result ↔ IsAllowed self.now event.now }
    {
        match *event {
            Event::Assert { actor, fact } => self.is_live(actor) && self.is_proper(fact),
            Event::Read { actor, edge } => self.is_live(actor) && edge < self.net.edges(),
            Event::Narrow { actor, i, j, k } => {
                self.is_live(actor) && self.is_pair(i, j) && self.is_pair(j, k) && i != k
            }
            Event::Split { actor, left } => 0 < left && self.has_more(actor, left),
            Event::Join { actor, other } => {
                actor != other && self.is_live(actor) && self.is_live(other)
            }
        }
    }

    /// Makes one event. If it runs out of memory the machine is as before. Reading and narrowing take
    /// none.
    pub fn step<C: Compose>(&mut self, c: &C, event: &Event) -> Result<(), Memory>
        requires allowed { IsAllowed self.old event.now }
        requires full { self.old.full ≡ full_of (C.algebra c.now) }
        ensures stepped { OnOk result (IsStep (C.algebra c.now) event.now self.old self.new) }
        ensures bound { Bound (C.algebra c.now) self.old → Bound (C.algebra c.now) self.new }
        ensures memory { OnErr result (self.new ≡ self.old) }
        ensures takes { OnErr result (TakesMemory event.now) }
        ensures same { SameOpening self.old self.new }
    {
        lawful(c);
        // The proof needs what every machine keeps, which a use of its fields brings.
        let _net = &self.net;
        match *event {
            Event::Assert { actor, fact } => self.assert(c, actor, fact)?,
            Event::Read { actor, edge } => self.read(actor, edge),
            Event::Narrow { actor, i, j, k } => self.narrow(c, actor, i, j, k),
            Event::Split { actor, left } => self.split(actor, left)?,
            Event::Join { actor, other } => self.join(actor, other)?,
        }
        Ok(())
    }

    /// Makes the events in turn while the next one is allowed, and returns how many it made. If it runs
    /// out of memory the machine is where the first of them left it.
    pub fn run<C: Compose>(&mut self, c: &C, events: &[Event]) -> Result<u32, Memory>
        requires full { self.old.full ≡ full_of (C.algebra c.now) }
        requires few { length events.now < 2 ^ 32 }
        ensures ran { IfOk result (λ steps.
            IsRun (C.algebra c.now) (take steps events.now) self.old self.new) }
        ensures stops { IfOk result (λ steps. StopsAt events.now steps self.new) }
        ensures bound { Bound (C.algebra c.now) self.old → Bound (C.algebra c.now) self.new }
        ensures memory { OnErr result (WantsMemory (C.algebra c.now) events.now self.old self.new) }
        ensures same { SameOpening self.old self.new }
    {
        for (done, event) in events.iter().enumerate() {
            if !self.may(event) {
                return Ok(done as u32);
            }
            self.step(c, event)?;
        }
        Ok(events.len() as u32)
    }

    /// Whether there is a live actor of this number.
    fn is_live(&self, actor: u32) -> bool
        ensures { IsTrue result ↔ HasLive self.now actor }
    {
        self.actor(actor).is_some()
    }

    /// Whether the actor is live and has more than this weight.
    fn has_more(&self, actor: u32, weight: u32) -> bool
        ensures { IsTrue result ↔ HasMore self.now actor weight }
    {
        match self.actor(actor) {
            Some(found) => weight < found.weight(),
            None => false,
        }
    }

    /// Whether the nodes are there and differ.
    fn is_pair(&self, i: u32, j: u32) -> bool
        ensures { IsTrue result ↔ IsProperPair self.now.nodes i j }
    {
        i < self.net.nodes() && j < self.net.nodes() && i != j
    }

    /// Whether the fact is of two nodes that differ, and its set of base relations of the calculus.
    fn is_proper(&self, fact: Fact) -> bool
        ensures { IsTrue result ↔ IsProperFact self.now.nodes self.now.full fact }
    {
        self.is_pair(fact.i, fact.j) && fact.rel.within(self.net.full())
    }

    /// States a fact and narrows its edge to the fact's set.
    fn assert<C: Compose>(&mut self, c: &C, actor: u32, fact: Fact) -> Result<(), Memory>
        requires allowed { MayAssert self.old actor fact }
        requires full { self.old.full ≡ full_of (C.algebra c.now) }
        ensures asserted { OnOk result (Asserts (C.algebra c.now) actor fact self.old self.new) }
        ensures memory { OnErr result (self.new ≡ self.old) }
    {
        let Fact { i, j, rel } = fact;
        let edge = edge_between(self.net.nodes(), i, j);
        let actor = &mut self.actors[actor as usize];
        actor.state(fact)?;
        self.net.narrow(c, i, j, rel);
        actor.see(edge, self.net.word(edge));
        Ok(())
    }

    /// Sees the word of an edge.
    fn read(&mut self, actor: u32, edge: u32)
        requires { MayRead self.old actor edge }
        ensures { Reads actor edge self.old self.new }
    {
        self.actors[actor as usize].see(edge, self.net.word(edge));
    }

    /// Narrows the edge from `i` to `k` along `j`.
    fn narrow<C: Compose>(&mut self, c: &C, actor: u32, i: u32, j: u32, k: u32)
        requires allowed { MayNarrow self.old actor i j k }
        requires full { self.old.full ≡ full_of (C.algebra c.now) }
        ensures { Narrows (C.algebra c.now) actor i j k self.old self.new }
    {
        let nodes = self.net.nodes();
        let edge = edge_between(nodes, i, k);
        let actor = &mut self.actors[actor as usize];
        let first = relation_between(c, nodes, actor.seen(), i, j);
        let second = relation_between(c, nodes, actor.seen(), j, k);
        self.net.narrow(c, i, k, c.compose(first, second));
        actor.see(edge, self.net.word(edge));
    }

    /// Makes a new actor with the weight `left`.
    fn split(&mut self, actor: u32, left: u32) -> Result<(), Memory>
        requires { MaySplit self.old actor left }
        ensures split { OnOk result (Splits actor left self.old self.new) }
        ensures memory { OnErr result (self.new ≡ self.old) }
    {
        let actor = actor as usize;
        let new = self.actors[actor].split(left)?;
        self.actors.push(new).map_err(|_| Memory)?;
        self.actors[actor].give(left);
        Ok(())
    }

    /// Makes one actor of two.
    fn join(&mut self, actor: u32, other: u32) -> Result<(), Memory>
        requires { MayJoin self.old actor other }
        ensures joined { OnOk result (Joins actor other self.old self.new) }
        ensures memory { OnErr result (self.new ≡ self.old) }
    {
        let (actor, other) = (actor as usize, other as usize);
        let joined = self.actors[actor].joined(&self.actors[other])?;
        self.actors[actor] = joined;
        self.actors[other].spend();
        Ok(())
    }
}
