//! Versions over two nodes of RCC-8, whose networks are closed as they stand.
ghost use Rattle.std.specs.Prelude.{◌≡◌, IfOk};
ghost use Rattle.std.specs.Bool.{OnTrue};
ghost use Rattle.session_versions.specs.HeldFacts.{facts_of};
ghost use Rattle.session_versions.specs.Versions.{AreProper, IsClosureOfFacts};

use crate::asserts::assert_same;
use calculus_builtin::rcc8;
use calculus_table::{Calculus, Compose, Memory, Rel};
use network_words::{Fact, Net};
use session_versions::{AskFault, Draft, Held, Store, WithdrawFault, facts_alone};
use std::alloc::Global;
use std::test::Fail;

const TPP: u64 = 8;

const NTPP: u64 = 16;

/// Whether each fact is of the nodes 0 and 1 and has a set of base relations of the calculus.
fn are_proper(c: &Calculus, helds: &[Held]) -> bool
    ensures { OnTrue result (AreProper c.now.algebra 2 helds.now) }
{
    let full = c.full();
    for held in helds {
        let Fact { i, j, rel } = held.fact;
        if i > 1 || j > 1 || i == j || !rel.within(full) {
            return false;
        }
    }
    true
}

/// The network of the facts.
fn network_of(alloc: Global, c: &Calculus, helds: &[Held]) -> Result<Net, Memory>
    requires { AreProper c.now.algebra 2 helds.now }
    ensures nodes { IfOk result (λ net. net.nodes ≡ 2) }
    ensures closure { IfOk result
        (λ net. IsClosureOfFacts c.now.algebra 2 (facts_of helds.now) net.words) }
{
    let Ok(mut net) = Net::new(alloc, 2, c.full()) else {
        return Err(Memory);
    };
    let facts = facts_alone(alloc, helds)?;
    if facts.len() >= 1000 {
        return Err(Memory);
    }
    let Ok(()) = net.add_facts(c, &facts) else {
        return Err(Memory);
    };
    Ok(net)
}

/// Makes a version of the draft, if it can be one.
fn commit(alloc: Global, store: &mut Store, c: &Calculus, draft: Draft) -> Result<u64, Memory>
    requires nodes { store.old.nodes ≡ 2 }
    requires calculus { store.old.calculus ≡ c.now.algebra }
    ensures nodes { store.new.nodes ≡ 2 }
    ensures calculus { store.new.calculus ≡ c.now.algebra }
{
    if !are_proper(c, &draft.facts) || draft.next < store.next_fact() || store.newest() >= 1000 {
        return Err(Memory);
    }
    let net = network_of(alloc, c, &draft.facts)?;
    Ok(store.commit(draft, net))
}

/// The number of the fact that a session states of the nodes 0 and 1.
fn stated(draft: &mut Draft, session: &str) -> Result<u64, Memory> {
    if draft.next >= 10 {
        return Err(Memory);
    }
    let rel = Rel::of(TPP);
    draft.add(session, Fact { i: 0, j: 1, rel })
}

/// A draft in which each of the sessions stated a fact.
fn draft_of(alloc: Global, c: &Calculus, sessions: &[&str]) -> Result<Draft, Memory> {
    let store = Store::new(alloc, 2, c)?;
    let mut draft = store.draft()?;
    for session in sessions {
        let _number = stated(&mut draft, *session)?;
    }
    Ok(draft)
}

#[test]
fn facts_are_numbered_from_one(rt: HostRuntime) -> Result<(), Fail> {
    let c = rcc8(rt.alloc())?;
    let mut draft = draft_of(rt.alloc(), &c, &[])?;
    for (session, number) in [("a", 1), ("b", 2), ("a", 3)] {
        assert_same(&rt, stated(&mut draft, session)?, number);
    }
    Ok(())
}

/// Session, number of the fact that it withdraws, what comes of it.
const WITHDRAWALS: [(&str, u64, Result<(), WithdrawFault>); 6] = [
    ("a", 2, Err(WithdrawFault::NotYours)),
    ("a", 1, Ok(())),
    ("a", 1, Err(WithdrawFault::NoFact)),
    ("b", 1, Err(WithdrawFault::NoFact)),
    ("a", 4, Err(WithdrawFault::NoFact)),
    ("b", 2, Ok(())),
];

#[test]
fn facts_are_withdrawn_by_those_who_stated_them(rt: HostRuntime) -> Result<(), Fail> {
    let c = rcc8(rt.alloc())?;
    let mut draft = draft_of(rt.alloc(), &c, &["a", "b", "a"])?;
    for (session, number, expected) in WITHDRAWALS {
        assert_same(&rt, draft.withdraw(session, number), expected);
    }
    assert_same(&rt, draft.facts.len(), 1);
    assert_same(&rt, stated(&mut draft, "b")?, 4);
    Ok(())
}

/// Makes the next version, and returns its number. Version 2 has the fact that node 1 is a proper part of node 0.
fn commit_next(alloc: Global, store: &mut Store, c: &Calculus) -> Result<u64, Memory>
    requires nodes { store.old.nodes ≡ 2 }
    requires calculus { store.old.calculus ≡ c.now.algebra }
    ensures nodes { store.new.nodes ≡ 2 }
    ensures calculus { store.new.calculus ≡ c.now.algebra }
{
    let mut draft = store.draft()?;
    if store.newest() == 1 && draft.next < 10 {
        let rel = Rel::of(TPP | NTPP);
        draft.add("a", Fact { i: 1, j: 0, rel })?;
    }
    commit(alloc, store, c, draft)
}

/// A store with so many versions after version 0.
fn store_of(alloc: Global, c: &Calculus, versions: u64) -> Result<Store, Memory>
    ensures nodes { IfOk result (λ store. store.nodes ≡ 2) }
    ensures calculus { IfOk result (λ store. store.calculus ≡ c.now.algebra) }
{
    let mut store = Store::new(alloc, 2, c)?;
    for _version in 0..versions {
        let _number = commit_next(alloc, &mut store, c)?;
    }
    Ok(store)
}

#[test]
fn every_relation_is_in_the_first_version(rt: HostRuntime) -> Result<(), Fail> {
    let c = rcc8(rt.alloc())?;
    let store = Store::new(rt.alloc(), 2, &c)?;
    assert_same(&rt, store.newest_words().word(0), c.full());
    assert_same(&rt, c.full(), Rel::of(255));
    Ok(())
}

#[test]
fn versions_are_numbered_from_one(rt: HostRuntime) -> Result<(), Fail> {
    let c = rcc8(rt.alloc())?;
    let mut store = Store::new(rt.alloc(), 2, &c)?;
    for number in 1..17 {
        assert_same(&rt, commit_next(rt.alloc(), &mut store, &c)?, number);
    }
    assert_same(&rt, store.newest(), 16);
    assert_same(&rt, store.next_fact(), 2);
    Ok(())
}

/// Version, the relation of node 0 to node 1.
const ANSWERS: [(u64, Result<u64, AskFault>); 6] = [
    (0, Err(AskFault::VersionGone)),
    (1, Ok(255)),
    (2, Ok(96)),
    (16, Ok(96)),
    (17, Err(AskFault::NotYet)),
    (u64::MAX, Err(AskFault::NotYet)),
];

#[test]
fn the_newest_sixteen_are_kept(rt: HostRuntime) -> Result<(), Fail> {
    let c = rcc8(rt.alloc())?;
    let store = store_of(rt.alloc(), &c, 16)?;
    for (version, expected) in ANSWERS {
        let answer = store.ask(&c, version, 0, 1).map(|rel| rel.word());
        assert_same(&rt, answer, expected);
    }
    Ok(())
}
