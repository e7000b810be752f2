//! The words of a network, one atomic word for each edge, that passes narrow from any thread.
//!
//! Every step is one atomic instruction on one word: a load, or a `fetch_and` with a set. A step is an
//! event of the machine of `narrow_core`, whose actors are the passes, so the bound of that machine is
//! the rule of the table: it holds between any two steps of anyone. A word that a pass loads is what the
//! pass has then seen of the edge, since words only become less and never less than any pass has seen.
//! No call waits, and none takes memory but `open`: nothing is locked, and `fetch_and` is one
//! instruction. A narrowing costs one composition and one `fetch_and`, a refresh one load for each edge.
//! Each pass counts its loads and its `fetch_and`s, for proofs alone, so that the contracts tell what a
//! call costs and refuse a body that answers without a look at the table.
ghost use Rattle.std.specs.Prelude.{◌≡◌, ◌<◌, ◌≤◌, IfOk};
ghost use Rattle.network_words.specs.Network.{IsNetwork};
ghost use Rattle.narrow_core.specs.Actor.{fresh};
ghost use Rattle.edge_table.specs.Opening.{IsPassOf, opening_over};

use crate::MAX_WEIGHT;
use crate::closed::ClosedTable;
use crate::pass::Pass;
use crate::plays::{Given, Giving, Joining, Narrowing, Reading, Stated, Stating, Weighing};
use crate::rule::{EdgeRule, Opening};
use crate::sight::Sight;
use crate::snapshot::Snapshot;
use crate::words::{opening, words_of_table, write_words};
use atomic_table::{Badge, Table};
use calculus_table::{Compose, Memory, Rel, lawful};
use network_words::{Fact, Net, edge_between, oriented, relation_between};
use std::alloc::Global;
use std::marker::{Brand, Model};
use std::snapshot;

/// A table of edge words that passes narrow, from any thread.
#[derive(Drop)]
pub struct OpenNet {
    table: Table<u8, Sight, Badge<Opening>, EdgeRule, Global>,
    nodes: u32,
}

impl Model for OpenNet {
    ghost use Rattle.edge_table.specs.Opening.{OpenState, IsOpen, opening_of};

    ghost Value = { OpenState };

    ghost view = { λ t. record {
      id = t.table.shared.table_id;
      opening = opening_of t.table.shared.key.views;
    } };

    ghost invariant = { λ t. IsOpen t.nodes (record {
      id = t.table.shared.table_id;
      opening = opening_of t.table.shared.key.views;
    }) };
}

/// Opens a table with the words of `net`, and makes its first pass, which has the whole weight, has
/// stated and counted nothing and has seen the words.
pub fn open<C: Compose>(
    alloc: Global,
    net: &Net,
    c: &C,
    weight: u32,
) -> Result<(OpenNet, Pass), Memory>
    requires network { IsNetwork (C.algebra c.now) net.now.nodes net.now.words }
    requires some { 0 < weight }
    requires bounded { weight ≤ MAX_WEIGHT }
    ensures table { IfOk result
        (λ t. t.0.opening ≡ opening_over net.now weight (C.algebra c.now)) }
    ensures pass { IfOk result (λ t. IsPassOf t.0 t.1) }
    ensures actor { IfOk result (λ t. t.1.actor ≡ fresh weight net.now.words) }
    ensures counted { IfOk result (λ t. (t.1.loads ≡ 0) × (t.1.fetch_ands ≡ 0)) }
{
    lawful(c);
    let opening = opening(alloc, net, c, weight)?;
    let words = words_of_table(net);
    let Ok((table, seat)) = Table::of_words(alloc, words, &opening) else {
        return Err(Memory);
    };
    let pass = Pass {
        seat,
        weight,
        nodes: net.nodes(),
        full: c.full(),
    };
    let nodes = net.nodes();
    Ok((OpenNet { table, nodes }, pass))
}

impl OpenNet {
    ghost use Rattle.std.specs.Prelude.{◌≡◌, ◌≢◌, ℕ, ◌+◌, ◌<◌, ◌≤◌, ◌↔◌, IsTrue, IfOk, IfSome, None};
    ghost use Rattle.std.specs.Prelude.{length, sum, bit_and, slice_index, slice_set};
    ghost use Rattle.calculus_table.specs.Rel.{IsWithin};
    ghost use Rattle.calculus_table.specs.Composition.{full_of, composition};
    ghost use Rattle.network_words.specs.Edge.{edge_count, edge_between, IsProperPair, IsProperTriple};
    ghost use Rattle.network_words.specs.Network.{IsNetwork, Refines, relation_between, oriented};
    ghost use Rattle.network_words.specs.Closure.{IsClosedAt};
    ghost use Rattle.network_words.specs.declared.TheConstants.{MAX_NODES};
    ghost use Rattle.narrow_core.specs.Actor.{seeing, stating, giving, fresh, joining};
    ghost use Rattle.narrow_core.specs.Machine.{IsProperFact};
    ghost use Rattle.edge_table.specs.Opening.{IsPassOf, algebra_of, opening_over};
    ghost use Rattle.edge_table.specs.Passes.{seen_between, Reads, Asserts, Narrows, ReadsAndNarrows};
    ghost use Rattle.edge_table.specs.Passes.{ReadsSome, ReadsAll, AreClosedWords, edges_until};

    /// The number of nodes.
    pub fn nodes(&self) -> u32
        ensures value { result ≡ self.now.opening.nodes }
        ensures some { 0 < result }
        ensures bounded { result ≤ MAX_NODES }
    {
        self.nodes
    }

    /// States a fact: narrows the word of its edge to its set, by one `fetch_and`.
    pub fn assert<C: Compose>(&self, pass: &mut Pass, c: &C, fact: Fact)
        requires pass { IsPassOf self.now pass.old }
        requires calculus { C.algebra c.now ≡ algebra_of self.now.opening }
        requires proper { IsProperFact self.now.opening.nodes (full_of (C.algebra c.now)) fact }
        ensures pass { IsPassOf self.now pass.new }
        ensures asserts { Asserts (C.algebra c.now) fact pass.old pass.new }
        ensures within { IsWithin (seen_between (C.algebra c.now) pass.new fact.i fact.j) fact.rel }
    {
        lawful(c);
        let edge = edge_between(self.nodes, fact.i, fact.j);
        let operand = oriented(c, fact.i, fact.j, fact.rel);
        self.state::<Brand>(pass, fact, edge, operand.word());
    }

    /// The relation of node `i` to node `j` as its edge has it now, by one load.
    pub fn peek<C: Compose>(&self, pass: &mut Pass, c: &C, i: u32, j: u32) -> Rel
        requires pass { IsPassOf self.now pass.old }
        requires calculus { C.algebra c.now ≡ algebra_of self.now.opening }
        requires proper { IsProperPair self.now.opening.nodes i j }
        ensures pass { IsPassOf self.now pass.new }
        ensures reads { Reads (edge_between self.now.opening.nodes i j) pass.old pass.new }
        ensures value { result ≡ seen_between (C.algebra c.now) pass.new i j }
        ensures fresh { IsWithin result (seen_between (C.algebra c.now) pass.old i j) }
        ensures within { IsWithin result (full_of (C.algebra c.now)) }
    {
        let edge = edge_between(self.nodes, i, j);
        let found = self.load(pass, edge);
        oriented(c, i, j, Rel::of(found))
    }

    /// Narrows the relation of node `i` to node `k` along node `j`: by two loads and one `fetch_and`.
    pub fn narrow<C: Compose>(&self, pass: &mut Pass, c: &C, i: u32, j: u32, k: u32) -> Rel
        requires pass { IsPassOf self.now pass.old }
        requires calculus { C.algebra c.now ≡ algebra_of self.now.opening }
        requires proper { IsProperTriple self.now.opening.nodes i j k }
        ensures pass { IsPassOf self.now pass.new }
        ensures narrows { ReadsAndNarrows (C.algebra c.now) i j k pass.old pass.new }
        ensures value { result ≡ seen_between (C.algebra c.now) pass.new i k }
        ensures fresh { IsWithin result (seen_between (C.algebra c.now) pass.old i k) }
        ensures closed { IsClosedAt (C.algebra c.now) pass.new.nodes pass.new.actor.seen i j k }
    {
        lawful(c);
        let first = self.peek(pass, c, i, j);
        let second = self.peek(pass, c, j, k);
        let word = self.narrow_by(pass, c, i, j, k, c.compose(first, second));
        oriented(c, i, k, Rel::of(word))
    }

    /// Narrows the relation of node `i` to node `k` along node `j` by what the snapshot has, which is
    /// what the pass has seen: by one `fetch_and`, without a load. Returns whether the pass has then
    /// seen less of the pair than before.
    pub fn narrow_from<C: Compose>(
        &self,
        pass: &mut Pass,
        c: &C,
        snap: &mut Snapshot,
        i: u32,
        j: u32,
        k: u32,
    ) -> bool
        requires pass { IsPassOf self.now pass.old }
        requires calculus { C.algebra c.now ≡ algebra_of self.now.opening }
        requires proper { IsProperTriple self.now.opening.nodes i j k }
        requires snap { snap.old ≡ pass.old.actor.seen }
        ensures pass { IsPassOf self.now pass.new }
        ensures narrows { Narrows (C.algebra c.now) i j k pass.old pass.new }
        ensures snap { snap.new ≡ pass.new.actor.seen }
        ensures less { IsTrue result ↔ (seen_between (C.algebra c.now) pass.new i k
            ≢ seen_between (C.algebra c.now) pass.old i k) }
        ensures closed { IsClosedAt (C.algebra c.now) pass.new.nodes pass.new.actor.seen i j k }
    {
        lawful(c);
        // The proof needs what every pass keeps, which a use of its fields brings.
        let _weight = &pass.weight;
        let along = snap.compose(c, self.nodes, i, j, k);
        let word = self.narrow_by(pass, c, i, j, k, along);
        snap.take(edge_between(self.nodes, i, k), word)
    }

    /// Loads every word, in edge order. The snapshot is then what the pass has seen.
    pub fn refresh(&self, pass: &mut Pass, snap: &mut Snapshot)
        requires pass { IsPassOf self.now pass.old }
        requires snap { length snap.old ≡ edge_count self.now.opening.nodes }
        ensures pass { IsPassOf self.now pass.new }
        ensures reads { ReadsAll pass.old pass.new }
        ensures snap { snap.new ≡ pass.new.actor.seen }
        ensures network { IsNetwork (algebra_of self.now.opening) self.now.opening.nodes snap.new }
    {
        // The proof needs what every pass keeps, which a use of its fields brings.
        let _weight = &pass.weight;
        let edges = self.nodes * (self.nodes - 1) / 2;
        for edge in 0..edges {
            let word = self.load(pass, edge);
            snap.take(edge, word);
        }
    }

    /// Loads every word again, in edge order. Returns whether the pass has then seen less of some edge than before.
    pub fn refresh_again(&self, pass: &mut Pass, snap: &mut Snapshot) -> bool
        requires pass { IsPassOf self.now pass.old }
        requires snap { snap.old ≡ pass.old.actor.seen }
        ensures pass { IsPassOf self.now pass.new }
        ensures reads { ReadsAll pass.old pass.new }
        ensures less { IsTrue result ↔ (pass.new.actor.seen ≢ pass.old.actor.seen) }
        ensures sum { IsTrue result → sum pass.new.actor.seen < sum pass.old.actor.seen }
        ensures snap { snap.new ≡ pass.new.actor.seen }
        ensures network { IsNetwork (algebra_of self.now.opening) self.now.opening.nodes snap.new }
    {
        // The proof needs what every pass keeps, which a use of its fields brings.
        let _weight = &pass.weight;
        let mut less = false;
        for edge in 0..self.nodes * (self.nodes - 1) / 2 {
            let word = self.load(pass, edge);
            less |= snap.take(edge, word);
        }
        less
    }

    /// Loads the words of the edges from the number `from` up to but without `to` again, one load for each, until the
    /// pass has then seen less of one. Returns the number of that edge, and its set.
    pub fn next_lesser(
        &self,
        pass: &mut Pass,
        snap: &mut Snapshot,
        from: u32,
        to: u32,
    ) -> Option<(u32, Rel)>
        requires pass { IsPassOf self.now pass.old }
        requires snap { snap.old ≡ pass.old.actor.seen }
        requires below { to ≤ edge_count self.now.opening.nodes }
        ensures pass { IsPassOf self.now pass.new }
        ensures reads { ReadsSome (edges_until from to result) pass.old pass.new }
        ensures snap { snap.new ≡ pass.new.actor.seen }
        ensures among { IfSome result (λ less. (from ≤ less.0) × (less.0 < to)) }
        ensures less { IfSome result (λ less. less.1 ≢ slice_index snap.old less.0) }
        ensures seen { IfSome result (λ less. less.1 ≡ slice_index snap.new less.0) }
        ensures set { IfSome result (λ less. snap.new ≡ slice_set snap.old less.0 less.1) }
        ensures none { result ≡ None → snap.new ≡ snap.old }
    {
        // The proof needs what every pass keeps, which a use of its fields brings.
        let _weight = &pass.weight;
        for edge in from..to {
            let word = self.load(pass, edge);
            if snap.take(edge, word) {
                return Some((edge, Rel::of(word)));
            }
        }
        None
    }

    /// Two passes that have seen what this one has: the first keeps its facts, its counts and the rest
    /// of its weight, the second has the weight `left` and has stated and counted nothing. The load of
    /// this call isn't counted, since it tells nothing.
    pub fn split(&self, pass: Pass, left: u32) -> (Pass, Pass)
        requires pass { IsPassOf self.now pass }
        requires some { 0 < left }
        requires rest { left < pass.actor.weight }
        ensures passes { IsPassOf self.now result.0 × IsPassOf self.now result.1 }
        ensures first { result.0.actor ≡ giving left pass.actor }
        ensures second { result.1.actor ≡ fresh left pass.actor.seen }
        ensures counts { (result.0.loads ≡ pass.loads) × (result.0.fetch_ands ≡ pass.fetch_ands) }
        ensures no_counts { (result.1.loads ≡ 0) × (result.1.fetch_ands ≡ 0) }
    {
        self.cut::<Brand>(pass, left)
    }

    /// One pass with the weights and the counts of both, the facts of `a` and then those of `b`, and
    /// what both have seen. The loads of this call aren't counted, since they tell nothing.
    pub fn join(&self, a: Pass, b: Pass) -> Pass
        requires first { IsPassOf self.now a }
        requires second { IsPassOf self.now b }
        ensures pass { IsPassOf self.now result }
        ensures actor { result.actor ≡ joining a.actor b.actor }
        ensures loads { result.loads ≡ a.loads + b.loads }
        ensures fetch_ands { result.fetch_ands ≡ a.fetch_ands + b.fetch_ands }
    {
        let Pass {
            mut seat,
            weight,
            nodes,
            full,
        } = a;
        let Pass {
            seat: other,
            weight: more,
            nodes: _,
            full: _,
        } = b;
        let shared = &self.table.shared;
        shared.join_seat::<Joining>(&mut seat, other);
        let _word = shared.load::<Weighing>(&mut seat, 0);
        Pass {
            seat,
            weight: weight + more,
            nodes,
            full,
        }
    }

    /// Closes the table with its last pass, which has the whole weight, and writes its words into a
    /// network with the same nodes. The token tells of which table, which pass and which words.
    pub fn close(self, pass: Pass, into: &mut Net) -> ClosedTable
        requires pass { IsPassOf self pass }
        requires whole { pass.actor.weight ≡ self.opening.weight }
        requires nodes { into.old.nodes ≡ self.opening.nodes }
        ensures rest { into.new ≡ record into.old { words = into.new.words } }
        ensures words { AreClosedWords self.opening pass.actor into.new.words }
        ensures opening { result.opening ≡ self.opening }
        ensures last { result.pass ≡ pass }
        ensures closed { result.words ≡ into.new.words }
    {
        let opened = snapshot::Snapshot::of(&self);
        let last = snapshot::Snapshot::of(&pass);
        let OpenNet { table, nodes: _ } = self;
        let Pass {
            seat,
            weight: _,
            nodes: _,
            full: _,
        } = pass;
        let closed = table.close_with(seat);
        write_words(&closed, into);
        closed.free();
        ClosedTable {
            table: opened,
            pass: last,
            into: snapshot::Snapshot::of(into),
        }
    }

    /// Loads the word of an edge, which the pass has then seen.
    fn load(&self, pass: &mut Pass, edge: u32) -> u64
        requires pass { IsPassOf self.now pass.old }
        requires edge { edge < edge_count self.now.opening.nodes }
        ensures pass { IsPassOf self.now pass.new }
        ensures sees { pass.new ≡ record pass.old {
          actor = seeing edge result pass.old.actor;
          loads = pass.old.loads + 1;
        } }
        ensures shown { slice_index pass.new.actor.seen edge ≡ result }
        ensures within { IsWithin result (full_of (algebra_of self.now.opening)) }
    {
        self.table
            .shared
            .load::<Reading>(&mut pass.seat, edge as usize)
    }

    /// States a fact and narrows its edge's word by `operand`, the fact's set as the edge has it.
    fn state<F: Stated>(&self, pass: &mut Pass, fact: Fact, edge: u32, operand: u64)
        requires pass { IsPassOf self.now pass.old }
        requires fact { fact ≡ F.fact }
        requires proper { IsProperFact self.now.opening.nodes
            (full_of (algebra_of self.now.opening)) F.fact }
        requires edge { edge ≡ edge_between self.now.opening.nodes F.fact.i F.fact.j }
        requires operand { operand
            ≡ oriented (algebra_of self.now.opening) F.fact.i F.fact.j F.fact.rel }
        ensures pass { IsPassOf self.now pass.new }
        ensures asserts { Asserts (algebra_of self.now.opening) F.fact pass.old pass.new }
        ensures within { IsWithin (slice_index pass.new.actor.seen edge) operand }
    {
        let _fact = fact;
        self.table
            .shared
            .fetch_and::<Stating<F>>(&mut pass.seat, edge as usize, operand);
    }

    /// Narrows the word from `i` to `k` by `along`, the composition of what the pass has seen along `j`,
    /// and returns what is left of the word.
    fn narrow_by<C: Compose>(
        &self,
        pass: &mut Pass,
        c: &C,
        i: u32,
        j: u32,
        k: u32,
        along: Rel,
    ) -> u64
        requires pass { IsPassOf self.now pass.old }
        requires calculus { C.algebra c.now ≡ algebra_of self.now.opening }
        requires proper { IsProperTriple self.now.opening.nodes i j k }
        requires along { along ≡ composition (C.algebra c.now)
            (seen_between (C.algebra c.now) pass.old i j)
            (seen_between (C.algebra c.now) pass.old j k) }
        requires within { IsWithin along (full_of (C.algebra c.now)) }
        ensures pass { IsPassOf self.now pass.new }
        ensures narrows { Narrows (C.algebra c.now) i j k pass.old pass.new }
        ensures shown { slice_index pass.new.actor.seen
            (edge_between self.now.opening.nodes i k) ≡ result }
        ensures along { IsWithin result (oriented (C.algebra c.now) i k along) }
        ensures within { IsWithin result (full_of (C.algebra c.now)) }
    {
        let edge = edge_between(self.nodes, i, k);
        let operand = oriented(c, i, k, along).word();
        let found = self
            .table
            .shared
            .fetch_and::<Narrowing>(&mut pass.seat, edge as usize, operand);
        found & operand
    }

    /// Cuts a pass in two.
    fn cut<G: Given>(&self, pass: Pass, left: u32) -> (Pass, Pass)
        requires pass { IsPassOf self.now pass }
        requires weight { left ≡ G.weight }
        requires some { 0 < left }
        requires rest { left < pass.actor.weight }
        ensures passes { IsPassOf self.now result.0 × IsPassOf self.now result.1 }
        ensures first { result.0.actor ≡ giving left pass.actor }
        ensures second { result.1.actor ≡ fresh left pass.actor.seen }
        ensures counts { (result.0.loads ≡ pass.loads) × (result.0.fetch_ands ≡ pass.fetch_ands) }
        ensures no_counts { (result.1.loads ≡ 0) × (result.1.fetch_ands ≡ 0) }
    {
        let Pass {
            mut seat,
            weight,
            nodes,
            full,
        } = pass;
        let other = self.table.shared.split_seat::<Giving<G>>(&mut seat);
        let first = Pass {
            seat,
            weight: weight - left,
            nodes,
            full,
        };
        let second = Pass {
            seat: other,
            weight: left,
            nodes,
            full,
        };
        (first, second)
    }
}
