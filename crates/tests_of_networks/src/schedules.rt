//! Events of the machine of concurrent narrowing, over the calculus of points on a line: what they narrow, what actors
//! see, and which events they may make.
ghost use Rattle.std.specs.Prelude.{◌≡◌, ◌<◌, IfOk};
ghost use Rattle.calculus_table.specs.Composition.{full_of};

use crate::asserts::{assert_same, assert_same_in};
use crate::nets::{AFTER, ANY, BEFORE, SAME, assert_words, fact};
use calculus_builtin::point;
use calculus_table::{Calculus, Compose, Memory};
use narrow_core::{Core, Event};
use network_words::{Fact, Net};
use std::alloc::Global;
use std::process::Abort;
use std::test::Fail;

/// The machine over three nodes of which nothing is known.
fn open(alloc: Global, c: &Calculus, weight: u32) -> Result<Core, Memory>
    requires { 0 < weight }
    ensures { IfOk result (λ core. core.full ≡ full_of c.now.algebra) }
{
    match Net::new(alloc, 3, c.full()) {
        Ok(net) => Core::new(alloc, &net, weight),
        Err(_) => Err(Memory),
    }
}

fn asserted(actor: u32, i: u32, j: u32, word: u64) -> Event {
    Event::Assert {
        actor,
        fact: fact(i, j, word),
    }
}

fn narrowed(actor: u32, i: u32, j: u32, k: u32) -> Event {
    Event::Narrow { actor, i, j, k }
}

fn read(actor: u32, edge: u32) -> Event {
    Event::Read { actor, edge }
}

fn split(actor: u32, left: u32) -> Event {
    Event::Split { actor, left }
}

fn join(actor: u32, other: u32) -> Event {
    Event::Join { actor, other }
}

/// An event by its numbers: the actor, and then nodes and a set, an edge, a weight or the other actor.
#[derive(Clone, Copy)]
enum Row {
    Assert(u32, u32, u32, u64),
    Narrow(u32, u32, u32, u32),
    Read(u32, u32),
    Split(u32, u32),
    Join(u32, u32),
}

/// The event of these numbers.
fn event_of(row: Row) -> Event {
    match row {
        Row::Assert(actor, i, j, word) => asserted(actor, i, j, word),
        Row::Narrow(actor, i, j, k) => narrowed(actor, i, j, k),
        Row::Read(actor, edge) => read(actor, edge),
        Row::Split(actor, left) => split(actor, left),
        Row::Join(actor, other) => join(actor, other),
    }
}

/// The events of these rows.
fn events_of(alloc: Global, rows: &[Row]) -> Result<Vec<Event>, Memory> {
    let mut events = Vec::new(alloc);
    for row in rows {
        events.push(event_of(*row)).map_err(|_| Memory)?;
    }
    Ok(events)
}

/// The machine of this weight after the events, of which it makes this many.
fn after(
    rt: &impl Abort,
    alloc: Global,
    weight: u32,
    rows: &[Row],
    made: u32,
) -> Result<Core, Memory>
    requires { 0 < weight }
{
    let c = point(alloc)?;
    let events = events_of(alloc, rows)?;
    let mut core = open(alloc, &c, weight)?;
    assert!(rt; events.len() <= 6);
    let count = core.run(&c, &events)?;
    assert!(rt; count == made);
    Ok(core)
}

/// The weight of the live actor of this number, the facts that it stated, and what it has seen.
fn actor_of(core: &Core, number: u32) -> Option<(u32, &[Fact], &[u64])> {
    let actor = core.actor(number)?;
    Some((actor.weight(), actor.facts(), actor.seen()))
}

/// Two facts, and what follows of them along their node.
const ALONG: [Row; 3] = [
    Row::Assert(0, 0, 1, BEFORE),
    Row::Assert(0, 1, 2, SAME),
    Row::Narrow(0, 0, 1, 2),
];

#[test]
fn narrowing_composes_along_a_third_node(rt: HostRuntime) -> Result<(), Fail> {
    let core = after(&rt, rt.alloc(), 1, &ALONG, 3)?;
    assert_words(&rt, core.words(), &[BEFORE, BEFORE, SAME]);
    Ok(())
}

/// The same, where the pairs of the first fact and of the narrowing are the other way round.
const ROUND: [Row; 3] = [
    Row::Assert(0, 1, 0, AFTER),
    Row::Assert(0, 1, 2, SAME),
    Row::Narrow(0, 2, 1, 0),
];

#[test]
fn the_other_way_round_a_pair_has_the_converse(rt: HostRuntime) -> Result<(), Fail> {
    let core = after(&rt, rt.alloc(), 1, &ROUND, 3)?;
    assert_words(&rt, core.words(), &[BEFORE, BEFORE, SAME]);
    Ok(())
}

/// Two facts of actor 0, and a narrowing of actor 1, which hasn't seen them.
const UNSEEN: [Row; 4] = [
    Row::Split(0, 1),
    Row::Assert(0, 0, 1, BEFORE),
    Row::Assert(0, 1, 2, SAME),
    Row::Narrow(1, 0, 1, 2),
];

#[test]
fn an_actor_narrows_by_what_it_has_seen(rt: HostRuntime) -> Result<(), Fail> {
    let core = after(&rt, rt.alloc(), 2, &UNSEEN, 4)?;
    assert_words(&rt, core.words(), &[BEFORE, ANY, SAME]);
    Ok(())
}

/// Actor 1 reads what actor 0 stated, and narrows by it.
const SEEN: [Row; 6] = [
    Row::Split(0, 1),
    Row::Assert(0, 0, 1, BEFORE),
    Row::Assert(0, 1, 2, SAME),
    Row::Read(1, 0),
    Row::Read(1, 2),
    Row::Narrow(1, 0, 1, 2),
];

#[test]
fn an_actor_narrows_further_after_it_has_read(rt: HostRuntime) -> Result<(), Fail> {
    let core = after(&rt, rt.alloc(), 2, &SEEN, 6)?;
    assert_words(&rt, core.words(), &[BEFORE, BEFORE, SAME]);
    let (_, facts, seen) = actor_of(&core, 1).ok_or("actor 1 is live")?;
    assert_words(&rt, seen, &[BEFORE, BEFORE, SAME]);
    assert_same(&rt, facts.len(), 0);
    Ok(())
}

#[test]
fn no_actor_joins_itself(rt: HostRuntime) -> Result<(), Fail> {
    let _core = after(&rt, rt.alloc(), 1, &[Row::Join(0, 0)], 0)?;
    Ok(())
}

/// Actor 1 states a fact and is joined to actor 0. It reads no more.
const JOINED: [Row; 4] = [
    Row::Split(0, 1),
    Row::Assert(1, 0, 1, BEFORE),
    Row::Join(0, 1),
    Row::Read(1, 0),
];

#[test]
fn a_joined_actor_has_both_weights_and_all_facts(rt: HostRuntime) -> Result<(), Fail> {
    let core = after(&rt, rt.alloc(), 2, &JOINED, 3)?;
    let facts = [fact(0, 1, BEFORE)];
    let seen = [BEFORE, ANY, ANY];
    assert!(rt; actor_of(&core, 0) == Some((2, facts.as_slice(), seen.as_slice())));
    assert!(rt; core.actor(1).is_none());
    Ok(())
}

/// Actor 0 keeps the weight 2, actor 1 has the weight 2, and actor 2 is spent.
const SPENT: [Row; 3] = [Row::Split(0, 2), Row::Split(0, 1), Row::Join(0, 2)];

/// The machine with a spent actor.
fn with_a_spent_actor(rt: &impl Abort, alloc: Global) -> Result<Core, Memory> {
    after(rt, alloc, 4, &SPENT, 3)
}

/// Fails unless just this is said of the event.
fn assert_may(rt: &impl Abort, core: &Core, name: &str, event: &Event, allowed: bool) {
    assert_same_in(rt, core.may(event), allowed, name);
}

/// Name, actor, nodes, set, whether the actor may state this fact.
const FACTS: [(&str, u32, u32, u32, u64, bool); 7] = [
    ("a live actor", 1, 0, 2, BEFORE, true),
    ("the other way round", 0, 2, 0, ANY, true),
    ("a spent actor", 2, 0, 1, BEFORE, false),
    ("an absent actor", 3, 0, 1, BEFORE, false),
    ("one node twice", 0, 1, 1, BEFORE, false),
    ("an absent node", 0, 0, 3, BEFORE, false),
    ("a set beyond the calculus", 0, 0, 1, 1 << 3, false),
];

#[test]
fn only_live_actors_assert_proper_facts(rt: HostRuntime) -> Result<(), Fail> {
    let core = with_a_spent_actor(&rt, rt.alloc())?;
    for (name, actor, i, j, word, allowed) in FACTS {
        assert_may(&rt, &core, name, &asserted(actor, i, j, word), allowed);
    }
    Ok(())
}

/// Name, actor, edge, whether the actor may read it.
const READS: [(&str, u32, u32, bool); 4] = [
    ("the last edge", 1, 2, true),
    ("an edge out of range", 1, 3, false),
    ("a spent actor", 2, 0, false),
    ("an absent actor", u32::MAX, 0, false),
];

#[test]
fn only_live_actors_read_edges_in_range(rt: HostRuntime) -> Result<(), Fail> {
    let core = with_a_spent_actor(&rt, rt.alloc())?;
    for (name, actor, edge, allowed) in READS {
        assert_may(&rt, &core, name, &read(actor, edge), allowed);
    }
    Ok(())
}

/// Name, actor, three nodes, whether the actor may narrow along them.
const TRIPLES: [(&str, u32, u32, u32, u32, bool); 6] = [
    ("a live actor", 0, 2, 0, 1, true),
    ("from a node to itself", 0, 1, 0, 1, false),
    ("along its first node", 0, 1, 1, 2, false),
    ("along its last node", 0, 1, 2, 2, false),
    ("along an absent node", 0, 0, 3, 1, false),
    ("a spent actor", 2, 0, 1, 2, false),
];

#[test]
fn only_live_actors_narrow_along_nodes_that_differ(rt: HostRuntime) -> Result<(), Fail> {
    let core = with_a_spent_actor(&rt, rt.alloc())?;
    for (name, actor, i, j, k, allowed) in TRIPLES {
        assert_may(&rt, &core, name, &narrowed(actor, i, j, k), allowed);
    }
    Ok(())
}

/// Name, actor, weight of the new one, whether the actor may be split so.
const SPLITS: [(&str, u32, u32, bool); 4] = [
    ("weight on each side", 1, 1, true),
    ("nothing for the new one", 1, 0, false),
    ("nothing for the old one", 1, 2, false),
    ("a spent actor", 2, 1, false),
];

#[test]
fn only_live_actors_split_and_leave_weight_to_each_side(rt: HostRuntime) -> Result<(), Fail> {
    let core = with_a_spent_actor(&rt, rt.alloc())?;
    for (name, actor, left, allowed) in SPLITS {
        assert_may(&rt, &core, name, &split(actor, left), allowed);
    }
    Ok(())
}

/// Name, actor, the other, whether they may join.
const JOINS: [(&str, u32, u32, bool); 5] = [
    ("two live actors", 1, 0, true),
    ("one actor", 1, 1, false),
    ("a spent other", 1, 2, false),
    ("a spent actor", 2, 1, false),
    ("an absent other", 0, u32::MAX, false),
];

#[test]
fn only_two_live_actors_that_differ_join(rt: HostRuntime) -> Result<(), Fail> {
    let core = with_a_spent_actor(&rt, rt.alloc())?;
    for (name, actor, other, allowed) in JOINS {
        assert_may(&rt, &core, name, &join(actor, other), allowed);
    }
    Ok(())
}

/// The machine of weight 1 after one step makes this event.
fn stepped(rt: &impl Abort, alloc: Global, event: &Event) -> Result<Core, Memory> {
    let c = point(alloc)?;
    let mut core = open(alloc, &c, 1)?;
    assert!(rt; core.may(event));
    core.step(&c, event)?;
    Ok(core)
}

#[test]
fn one_step_makes_an_event(rt: HostRuntime) -> Result<(), Fail> {
    let core = stepped(&rt, rt.alloc(), &asserted(0, 0, 2, SAME))?;
    assert_words(&rt, core.words(), &[ANY, SAME, ANY]);
    assert_words(&rt, core.opening(), &[ANY, ANY, ANY]);
    assert_same(&rt, core.opening_weight(), 1);
    Ok(())
}
