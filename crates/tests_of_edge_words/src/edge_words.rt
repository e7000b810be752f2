//! Tables of RCC-8 networks, narrowed by one thread and by several at once.
ghost use Rattle.std.specs.Prelude.{◌≡◌, ◌<◌, ◌≤◌, All, IfOk, IfSome, IsTrue};
ghost use Rattle.calculus_table.specs.Rel.{IsWithin};
ghost use Rattle.calculus_table.specs.Composition.{full_of};
ghost use Rattle.network_words.specs.Network.{IsNetwork};
ghost use Rattle.edge_table.specs.Opening.{IsPassOf, algebra_of};

use crate::asserts::assert_same;
use calculus_builtin::rcc8;
use calculus_table::{Calculus, Compose, Memory, Rel};
use closure_seq::close;
use edge_table::{ClosedTable, OpenNet, Pass, Snapshot, open};
use network_words::{Fact, Net};
use std::alloc::Global;
use std::process::Abort;
use std::test::Fail;
use std::thread::{Threads, join};

/// Regions that meet, and the proper parts, among the relations of regions.
const EC: u64 = 1 << 1;

const TPP: u64 = 1 << 3;

const NTPP: u64 = 1 << 4;

/// Whether each edge has a set of the calculus.
fn is_network(net: &Net, c: &Calculus) -> bool
    ensures { IsTrue result → IsNetwork c.now.algebra net.now.nodes net.now.words }
{
    let _nodes = net.nodes();
    let full = c.full();
    net.words().iter().all(|word| Rel::of(*word).within(full))
}

/// Fails unless the words are these.
fn assert_words(rt: &impl Abort, found: &[u64], expected: &[u64]) {
    assert_same(rt, found, expected);
}

/// The fact of these nodes and this set.
fn fact(i: u32, j: u32, word: u64) -> Fact {
    let rel = Rel::of(word);
    Fact { i, j, rel }
}

/// A table over a network of which nothing is known.
fn opened(alloc: Global, c: &Calculus, nodes: u32, weight: u32) -> Result<(OpenNet, Pass), Memory>
    requires some { 0 < weight }
    requires few { weight ≤ 4 }
    ensures nodes { IfOk result (λ t. t.0.opening.nodes ≡ nodes) }
    ensures weight { IfOk result (λ t. t.0.opening.weight ≡ weight) }
    ensures calculus { IfOk result (λ t. c.now.algebra ≡ algebra_of t.0.opening) }
    ensures pass { IfOk result (λ t. IsPassOf t.0 t.1) }
    ensures whole { IfOk result (λ t. t.1.actor.weight ≡ weight) }
{
    match Net::new(alloc, nodes, c.full()) {
        Ok(net) => open(alloc, &net, c, weight),
        Err(_) => Err(Memory),
    }
}

/// States the fact, if it is one of the table and the calculus.
fn state(table: &OpenNet, pass: &mut Pass, c: &Calculus, fact: Fact)
    requires pass { IsPassOf table.now pass.old }
    requires calculus { c.now.algebra ≡ algebra_of table.now.opening }
    ensures pass { IsPassOf table.now pass.new }
    ensures weight { pass.new.actor.weight ≡ pass.old.actor.weight }
{
    let nodes = table.nodes();
    let there = fact.i < nodes && fact.j < nodes && fact.i != fact.j;
    if there && fact.rel.within(c.full()) {
        table.assert(pass, c, fact);
    }
}

/// Narrows every triple of the table's nodes once by what the pass reads, in both directions.
fn narrow_all(table: &OpenNet, pass: &mut Pass, c: &Calculus)
    requires pass { IsPassOf table.now pass.old }
    requires calculus { c.now.algebra ≡ algebra_of table.now.opening }
    ensures pass { IsPassOf table.now pass.new }
    ensures weight { pass.new.actor.weight ≡ pass.old.actor.weight }
{
    for i in 0..table.nodes() {
        narrow_all_from(table, pass, c, i);
    }
}

/// Narrows every triple that begins with this node.
fn narrow_all_from(table: &OpenNet, pass: &mut Pass, c: &Calculus, i: u32)
    requires pass { IsPassOf table.now pass.old }
    requires calculus { c.now.algebra ≡ algebra_of table.now.opening }
    ensures pass { IsPassOf table.now pass.new }
    ensures weight { pass.new.actor.weight ≡ pass.old.actor.weight }
{
    for j in 0..table.nodes() {
        narrow_all_along(table, pass, c, i, j);
    }
}

/// Narrows every triple that begins with these two nodes.
fn narrow_all_along(table: &OpenNet, pass: &mut Pass, c: &Calculus, i: u32, j: u32)
    requires pass { IsPassOf table.now pass.old }
    requires calculus { c.now.algebra ≡ algebra_of table.now.opening }
    ensures pass { IsPassOf table.now pass.new }
    ensures weight { pass.new.actor.weight ≡ pass.old.actor.weight }
{
    for k in 0..table.nodes() {
        narrow(table, pass, c, i, j, k);
    }
}

/// Narrows along the triple, if it is one of the table's, and reads its last edge.
fn narrow(table: &OpenNet, pass: &mut Pass, c: &Calculus, i: u32, j: u32, k: u32)
    requires pass { IsPassOf table.now pass.old }
    requires calculus { c.now.algebra ≡ algebra_of table.now.opening }
    ensures pass { IsPassOf table.now pass.new }
    ensures weight { pass.new.actor.weight ≡ pass.old.actor.weight }
{
    let nodes = table.nodes();
    let there = i < nodes && j < nodes && k < nodes;
    if there && i != j && j != k && i != k {
        table.narrow(pass, c, i, j, k);
        table.peek(pass, c, k, i);
    }
}

/// States the facts one after another, and narrows all triples after each.
fn state_all(table: &OpenNet, mut pass: Pass, c: &Calculus, facts: &[Fact]) -> Pass
    requires pass { IsPassOf table.now pass }
    requires calculus { c.now.algebra ≡ algebra_of table.now.opening }
    ensures { IsPassOf table.now result }
{
    for fact in facts {
        state(table, &mut pass, c, *fact);
        narrow_all(table, &mut pass, c);
    }
    pass
}

/// Cuts a pass in two, if it has more than this weight.
fn cut(table: &OpenNet, pass: Pass, left: u32) -> Option<(Pass, Pass)>
    requires { IsPassOf table.now pass }
    ensures { IfSome result (λ passes. IsPassOf table.now passes.0 × IsPassOf table.now passes.1) }
{
    if left == 0 || pass.weight() <= left {
        return None;
    }
    Some(table.split(pass, left))
}

/// A table over a network of which nothing is known, whose pass is cut in two.
fn opened_for_two(
    alloc: Global,
    c: &Calculus,
    nodes: u32,
    weight: u32,
    left: u32,
) -> Option<(OpenNet, (Pass, Pass))>
    requires some { 0 < weight }
    requires few { weight ≤ 4 }
    ensures weight { IfSome result (λ t. t.0.opening.weight ≡ weight) }
    ensures calculus { IfSome result (λ t. c.now.algebra ≡ algebra_of t.0.opening) }
    ensures first { IfSome result (λ t. IsPassOf t.0 t.1.0) }
    ensures second { IfSome result (λ t. IsPassOf t.0 t.1.1) }
{
    let (table, pass) = opened(alloc, c, nodes, weight).ok()?;
    let passes = cut(&table, pass, left)?;
    Some((table, passes))
}

/// The words that the table is closed with, and its token, if the pass has this weight, which is the whole.
fn closed(alloc: Global, table: OpenNet, pass: Pass, weight: u32) -> Option<(Net, ClosedTable)>
    requires pass { IsPassOf table pass }
    requires whole { table.opening.weight ≡ weight }
    ensures network { IfSome result
        (λ t. IsNetwork (algebra_of table.opening) t.0.nodes t.0.words) }
    ensures token { IfSome result
        (λ t. (t.1.opening ≡ table.opening) × (t.1.pass ≡ pass) × (t.1.words ≡ t.0.words)) }
{
    let nodes = table.nodes();
    let mut net = Net::new(alloc, nodes, Rel::EMPTY).ok()?;
    if pass.weight() != weight || net.nodes() != nodes {
        return None;
    }
    let token = table.close(pass, &mut net);
    Some((net, token))
}

/// What a pass sees of the edge from 0 to 2 of three nodes: whether it sees less of it by narrowing
/// along 1, whether it does so again, and what it then sees.
fn narrow_twice(
    table: &OpenNet,
    pass: &mut Pass,
    c: &Calculus,
    snap: &mut Snapshot,
) -> Option<(bool, bool, u64)>
    requires pass { IsPassOf table.now pass.old }
    requires calculus { c.now.algebra ≡ algebra_of table.now.opening }
    ensures pass { IsPassOf table.now pass.new }
{
    if table.nodes() != 3 || snap.words().len() != 3 {
        return None;
    }
    table.refresh(pass, snap);
    let first = table.narrow_from(pass, c, snap, 0, 1, 2);
    let second = table.narrow_from(pass, c, snap, 0, 1, 2);
    let rel = table.narrow(pass, c, 0, 1, 2);
    Some((first, second, rel.word()))
}

/// Two threads state a fact each, and then one narrows: what it found, and the closed words.
fn narrowed_after_two<R: Threads + Sync>(
    rt: &R,
    alloc: Global,
    c: &Calculus,
    snap: &mut Snapshot,
) -> Option<((bool, bool, u64), Net)> {
    let (table, passes) = opened_for_two(alloc, c, 3, 2, 1)?;
    let (first, second) = in_two_threads(rt, &table, c, passes);
    let mut pass = table.join(first, second);
    let found = narrow_twice(&table, &mut pass, c, snap)?;
    let (net, _) = closed(alloc, table, pass, 2)?;
    Some((found, net))
}

/// Fails unless the narrowing finds the composition of the two facts at once, and closes the words.
fn assert_narrowed<R: Threads + Sync + Abort>(
    rt: &R,
    alloc: Global,
    c: &Calculus,
    snap: &mut Snapshot,
) -> Result<(), Fail> {
    let found = narrowed_after_two(rt, alloc, c, snap);
    let (found, net) = found.ok_or("the table was not closed")?;
    assert_same(rt, found, (true, false, NTPP));
    assert_words(rt, net.words(), &[TPP, NTPP, NTPP]);
    Ok(())
}

#[test]
fn two_threads_state_and_one_narrows(rt: HostRuntime) -> Result<(), Fail> {
    let c = rcc8(rt.alloc())?;
    let mut snap = Snapshot::new(rt.alloc(), 3)?;
    assert_narrowed(&rt, rt.alloc(), &c, &mut snap)?;
    assert_words(&rt, snap.words(), &[TPP, NTPP, NTPP]);
    Ok(())
}

/// One thread states that 0 is a tangential part of 1, the other that 1 is an inner part of 2.
fn in_two_threads<R: Threads + Sync>(
    rt: &R,
    table: &OpenNet,
    c: &Calculus,
    passes: (Pass, Pass),
) -> (Pass, Pass)
    requires first { IsPassOf table.now passes.0 }
    requires second { IsPassOf table.now passes.1 }
    requires calculus { c.now.algebra ≡ algebra_of table.now.opening }
    ensures { IsPassOf table.now result.0 × IsPassOf table.now result.1 }
{
    let (first, second) = passes;
    join(
        rt,
        move || -> Pass
            requires { IsPassOf table.now first × (c.now.algebra ≡ algebra_of table.now.opening) }
            ensures { IsPassOf table.entry.now result }
        { stated(table, first, c, fact(0, 1, TPP)) },
        move || -> Pass
            requires { IsPassOf table.now second × (c.now.algebra ≡ algebra_of table.now.opening) }
            ensures { IsPassOf table.entry.now result }
        { stated(table, second, c, fact(1, 2, NTPP)) },
    )
}

/// The pass after it has stated a fact.
fn stated(table: &OpenNet, mut pass: Pass, c: &Calculus, fact: Fact) -> Pass
    requires pass { IsPassOf table.now pass }
    requires calculus { c.now.algebra ≡ algebra_of table.now.opening }
    ensures { IsPassOf table.now result }
{
    state(table, &mut pass, c, fact);
    pass
}

/// What a second pass peeks at, after the first has stated a fact; whether a third then sees less, after one more fact
/// and after none; and which edge it finds less, and its set, after a last fact.
type Sight = (u64, bool, bool, (u32, u64));

/// What passes see that look at the facts of another one.
fn seen_by_others(alloc: Global, c: &Calculus, snap: &mut Snapshot) -> Option<Sight> {
    let (table, (first, second)) = opened_for_two(alloc, c, 3, 3, 1)?;
    let (first, third) = cut(&table, first, 1)?;
    state_and_look(&table, c, first, second, third, snap)
}

/// The first pass states facts, the second peeks at the pair of one, and the third reads every edge, and again until
/// one is less.
fn state_and_look(
    table: &OpenNet,
    c: &Calculus,
    mut first: Pass,
    mut second: Pass,
    mut third: Pass,
    snap: &mut Snapshot,
) -> Option<Sight>
    requires first { IsPassOf table.now first }
    requires second { IsPassOf table.now second }
    requires third { IsPassOf table.now third }
    requires calculus { c.now.algebra ≡ algebra_of table.now.opening }
{
    if table.nodes() != 3 || snap.words().len() != 3 {
        return None;
    }
    state(table, &mut first, c, fact(0, 1, TPP));
    let rel = table.peek(&mut second, c, 0, 1);
    table.refresh(&mut third, snap);
    state(table, &mut first, c, fact(1, 2, NTPP));
    let less = table.refresh_again(&mut third, snap);
    let same = table.refresh_again(&mut third, snap);
    state(table, &mut first, c, fact(0, 2, EC));
    let (edge, set) = table.next_lesser(&mut third, snap, 0, 3)?;
    Some((rel.word(), less, same, (edge, set.word())))
}

#[test]
fn passes_see_what_others_state(rt: HostRuntime) -> Result<(), Fail> {
    let c = rcc8(rt.alloc())?;
    let mut snap = Snapshot::new(rt.alloc(), 3)?;
    let found = seen_by_others(rt.alloc(), &c, &mut snap);
    assert_same(&rt, found, Some((TPP, true, false, (1, EC))));
    assert_words(&rt, snap.words(), &[TPP, EC, NTPP]);
    Ok(())
}

/// A table of one node, whose pass is cut in two and joined again.
fn cut_and_joined(alloc: Global, c: &Calculus) -> Option<Net> {
    let (table, (first, second)) = opened_for_two(alloc, c, 1, 2, 1)?;
    let pass = table.join(first, second);
    let (net, _) = closed(alloc, table, pass, 2)?;
    Some(net)
}

/// A table of two nodes, closed after this fact.
fn closed_after(alloc: Global, c: &Calculus, fact: Fact) -> Option<Net> {
    let (table, mut pass) = opened(alloc, c, 2, 1).ok()?;
    state(&table, &mut pass, c, fact);
    let (net, _) = closed(alloc, table, pass, 1)?;
    Some(net)
}

/// Fails unless a table was closed with these words.
fn assert_closed(rt: &impl Abort, net: Option<Net>, words: &[u64]) -> Result<(), Fail> {
    let net = net.ok_or("the table was not closed")?;
    assert_words(rt, net.words(), words);
    Ok(())
}

#[test]
fn small_tables_are_closed(rt: HostRuntime) -> Result<(), Fail> {
    let c = rcc8(rt.alloc())?;
    assert_closed(&rt, cut_and_joined(rt.alloc(), &c), &[])?;
    assert_closed(&rt, closed_after(rt.alloc(), &c, fact(1, 0, 0)), &[0])
}

/// Two threads state facts and narrow by them, on one table at once.
fn by_two<R: Threads + Sync>(
    rt: &R,
    table: &OpenNet,
    c: &Calculus,
    passes: (Pass, Pass),
    facts: &[Fact],
) -> Pass
    requires first { IsPassOf table.now passes.0 }
    requires second { IsPassOf table.now passes.1 }
    requires calculus { c.now.algebra ≡ algebra_of table.now.opening }
    ensures { IsPassOf table.now result }
{
    let (first, second) = passes;
    let (facts, others) = facts.split_at(facts.len() / 2);
    let (first, second) = join(
        rt,
        move || -> Pass
            requires { IsPassOf table.now first × (c.now.algebra ≡ algebra_of table.now.opening) }
            ensures { IsPassOf table.entry.now result }
        { state_all(table, first, c, facts) },
        move || -> Pass
            requires { IsPassOf table.now second × (c.now.algebra ≡ algebra_of table.now.opening) }
            ensures { IsPassOf table.entry.now result }
        { state_all(table, second, c, others) },
    );
    table.join(first, second)
}

/// Four threads state facts and narrow by them, on one table at once.
fn by_four<R: Threads + Sync>(
    rt: &R,
    table: &OpenNet,
    c: &Calculus,
    first: (Pass, Pass),
    second: (Pass, Pass),
    facts: &[Fact],
) -> Pass
    requires first { IsPassOf table.now first.0 × IsPassOf table.now first.1 }
    requires second { IsPassOf table.now second.0 × IsPassOf table.now second.1 }
    requires calculus { c.now.algebra ≡ algebra_of table.now.opening }
    ensures { IsPassOf table.now result }
{
    let (front, back) = facts.split_at(facts.len() / 2);
    let (first, second) = join(
        rt,
        move || -> Pass
            requires { IsPassOf table.now first.0
                × IsPassOf table.now first.1
                × (c.now.algebra ≡ algebra_of table.now.opening) }
            ensures { IsPassOf table.entry.now result }
        { by_two(rt, table, c, first, front) },
        move || -> Pass
            requires { IsPassOf table.now second.0
                × IsPassOf table.now second.1
                × (c.now.algebra ≡ algebra_of table.now.opening) }
            ensures { IsPassOf table.entry.now result }
        { by_two(rt, table, c, second, back) },
    );
    table.join(first, second)
}

/// The words of a table that four threads have narrowed by the facts.
fn narrowed_by_threads<R: Threads + Sync>(
    rt: &R,
    alloc: Global,
    c: &Calculus,
    facts: &[Fact],
) -> Option<Net>
    ensures { IfSome result (λ net. IsNetwork c.now.algebra net.nodes net.words) }
{
    let (table, (first, second)) = opened_for_two(alloc, c, 5, 4, 2)?;
    let first = cut(&table, first, 1)?;
    let second = cut(&table, second, 1)?;
    let pass = by_four(rt, &table, c, first, second, facts);
    let (net, _) = closed(alloc, table, pass, 4)?;
    Some(net)
}

/// Those words, closed once more.
fn closed_by_threads<R: Threads + Sync>(
    rt: &R,
    alloc: Global,
    c: &Calculus,
    facts: &[Fact],
) -> Result<Net, Fail> {
    let net = narrowed_by_threads(rt, alloc, c, facts);
    let mut net = net.ok_or("the table was not closed")?;
    close(alloc, &mut net, c)?;
    Ok(net)
}

/// Whether each fact has a set of the calculus.
fn are_of_the_calculus(c: &Calculus, facts: &[Fact]) -> bool
    ensures { IsTrue result
        → All (λ fact. IsWithin fact.rel (full_of c.now.algebra)) facts.now }
{
    let full = c.full();
    facts.iter().all(|fact| fact.rel.within(full))
}

/// The closure of the facts, on one thread.
fn closed_at_once(
    rt: &impl Abort,
    alloc: Global,
    c: &Calculus,
    facts: &[Fact],
) -> Result<Net, Fail> {
    assert!(rt; facts.len() <= 6 && are_of_the_calculus(c, facts));
    let mut net = Net::new(alloc, 5, c.full())?;
    net.add_facts(c, facts)?;
    assert!(rt; is_network(&net, c));
    close(alloc, &mut net, c)?;
    Ok(net)
}

/// Facts of five nodes.
fn six_facts() -> [Fact; 6] {
    [
        fact(0, 1, TPP),
        fact(2, 1, 1 << 6),
        fact(2, 3, NTPP | TPP | 4),
        fact(3, 4, 2),
        fact(4, 0, 255 - 4),
        fact(1, 3, TPP | NTPP),
    ]
}

/// Closes the facts by threads in each round, and fails unless the sets are always these.
fn assert_rounds<R: Threads + Sync + Abort>(
    rt: &R,
    alloc: Global,
    c: &Calculus,
    facts: &[Fact],
    expected: &[u64],
) -> Result<(), Fail> {
    for _ in 0..200 {
        let net = closed_by_threads(rt, alloc, c, facts)?;
        assert_words(rt, net.words(), expected);
    }
    Ok(())
}

#[test]
fn threads_that_narrow_at_once_lose_nothing(rt: HostRuntime) -> Result<(), Fail> {
    let c = rcc8(rt.alloc())?;
    let facts = six_facts();
    let expected = closed_at_once(&rt, rt.alloc(), &c, &facts)?;
    assert_rounds(&rt, rt.alloc(), &c, &facts, expected.words())
}

fn is_sent<T: Send>() {}

fn is_shared<T: Send + Sync>() {}

#[test]
fn tables_and_tokens_are_shared_and_passes_sent() {
    is_shared::<OpenNet>();
    is_shared::<ClosedTable>();
    is_sent::<Pass>();
    is_sent::<Snapshot>();
}
