//! The sets of a network's pairs, taken from its words and stored into them again.

ghost use Rattle.std.specs.Prelude.{◌≡◌, ℕ, ◌+◌, ◌*◌, ◌<◌, ◌≤◌, ◌↔◌, length, slice_index, IsTrue};
ghost use Rattle.calculus_table.specs.Calculus.{IsCalculus};
ghost use Rattle.calculus_table.specs.Rel.{IsWithin};
ghost use Rattle.calculus_table.specs.Composition.{full_of, converse};
ghost use Rattle.network_words.specs.Edge.{edge_count, edge_at};
ghost use Rattle.network_words.specs.Network.{Network, IsNetwork, relation_between};
ghost use Rattle.compose_fast.specs.Planes.{AreBaseTables};
ghost use Rattle.edge_propagation.specs.Worklist.{Worklist, IsSized, IsBegun, set_of, with_pair};
ghost use Rattle.edge_propagation.specs.Propagation.{IsInStep, IsLoaded, IsStored};
ghost use Rattle.edge_propagation.specs.Propagation.{IsPlanes};

use crate::pairs::PairSets;
use calculus_table::{Compose, Rel, lawful};
use compose_fast::Tables;
use network_words::{Net, edge_between, relation_between};

/// The set of the identity.
fn identity_of<C: Compose>(c: &C) -> Rel
    ensures { IsWithin result (full_of (C.algebra c.now)) }
{
    lawful(c);
    Rel::single(c.identity())
}

/// The set of the converses of the members. For the full set, which most pairs have, that is the full set.
#[inline(always)]
fn converse_of<C: Compose>(c: &C, rel: Rel) -> Rel
    requires { IsWithin rel (full_of (C.algebra c.now)) }
    ensures value { result ≡ converse (C.algebra c.now) rel }
    ensures within { IsWithin result (full_of (C.algebra c.now)) }
{
    lawful(c);
    if rel == c.full() {
        return rel;
    }
    c.converse(rel)
}

/// Loads the sets of the pair `(i, j)`, both ways.
fn load_pair<C: Compose, const P: usize>(work: &mut PairSets, words: &[u64], c: &C, i: u32, j: u32)
    requires planes { work.old.planes ≡ P }
    requires enough { (C.algebra c.now).size ≤ 8 * P }
    requires network { IsNetwork (C.algebra c.now) work.old.nodes words.now }
    requires order { i < j }
    requires below { j < work.old.nodes }
    ensures value { work.new ≡ record work.old {
      sets = with_pair work.old.sets i j
          (relation_between (C.algebra c.now) work.old.nodes words.now i j)
          (relation_between (C.algebra c.now) work.old.nodes words.now j i);
    } }
    ensures sized { IsSized work.old }
{
    lawful(c);
    let rel = relation_between(c, work.nodes(), words, i, j);
    work.put::<P>(i, j, rel);
    work.put::<P>(j, i, converse_of(c, rel));
}

/// Loads the sets of the pairs of node `i` with greater ones, and the identity as that of `i` with itself.
fn load_row<C: Compose, const P: usize>(work: &mut PairSets, words: &[u64], c: &C, i: u32)
    requires planes { work.old.planes ≡ P }
    requires enough { (C.algebra c.now).size ≤ 8 * P }
    requires network { IsNetwork (C.algebra c.now) work.old.nodes words.now }
    requires below { i < work.old.nodes }
    requires before { IsLoaded (C.algebra c.now) work.old.nodes words.now work.old i }
    ensures nodes { work.new.nodes ≡ work.old.nodes }
    ensures planes { work.new.planes ≡ work.old.planes }
    ensures loaded { IsLoaded (C.algebra c.now) work.old.nodes words.now work.new (i + 1) }
{
    work.put::<P>(i, i, identity_of(c));
    let nodes = work.nodes();
    for j in i + 1..nodes {
        load_pair::<C, P>(work, words, c, i, j);
    }
}

/// Loads the sets of all pairs from the words of a network.
pub fn load<C: Compose, const P: usize>(work: &mut PairSets, words: &[u64], c: &C)
    requires planes { work.old.planes ≡ P }
    requires enough { (C.algebra c.now).size ≤ 8 * P }
    requires network { IsNetwork (C.algebra c.now) work.old.nodes words.now }
    ensures planes { work.new.planes ≡ P }
    ensures in_step { IsInStep (C.algebra c.now) work.old.nodes words.now work.new }
{
    let nodes = work.nodes();
    for i in 0..nodes {
        load_row::<C, P>(work, words, c, i);
    }
}

/// Stores the sets of the pairs of node `i` with greater ones.
fn store_row(net: &mut Net, work: &PairSets, i: u32)
    requires nodes { work.now.nodes ≡ net.old.nodes }
    requires below { i < net.old.nodes }
    requires before { IsStored net.old.nodes net.old.words work.now i }
    ensures rest { net.new ≡ record net.old { words = net.new.words } }
    ensures length_is { length net.new.words ≡ length net.old.words }
    ensures stored { IsStored net.old.nodes net.new.words work.now (i + 1) }
{
    let nodes = net.nodes();
    for j in i + 1..nodes {
        net.set(edge_between(nodes, i, j), work.set(i, j));
    }
}

/// Stores the sets of all pairs.
pub fn store(net: &mut Net, work: &PairSets)
    requires { work.now.nodes ≡ net.old.nodes }
    ensures rest { net.new ≡ record net.old { words = net.new.words } }
    ensures length_is { length net.new.words ≡ length net.old.words }
    ensures stored { IsStored net.old.nodes net.new.words work.now net.old.nodes }
{
    let nodes = net.nodes();
    for i in 0..nodes {
        store_row(net, work, i);
    }
}

/// Whether the words of node `i` with greater ones are the sets of their pairs.
fn is_row_stored<const P: usize>(words: &[u64], work: &PairSets, i: u32) -> bool
    requires planes { work.now.planes ≡ P }
    requires length_is { length words.now ≡ edge_count work.now.nodes }
    requires below { i < work.now.nodes }
    ensures { IsTrue result ↔ ((j : ℕ) → i < j → j < work.now.nodes →
        slice_index words.now (edge_at work.now.nodes i j) ≡ set_of work.now i j) }
{
    let nodes = work.nodes();
    for j in i + 1..nodes {
        if words[edge_between(nodes, i, j) as usize] != work.get::<P>(i, j).word() {
            return false;
        }
    }
    true
}

/// Whether the words are the sets of their pairs, in `P` planes.
fn are_rows_stored<const P: usize>(words: &[u64], work: &PairSets) -> bool
    requires planes { work.now.planes ≡ P }
    requires length_is { length words.now ≡ edge_count work.now.nodes }
    ensures { IsTrue result ↔ IsStored work.now.nodes words.now work.now work.now.nodes }
{
    let nodes = work.nodes();
    for i in 0..nodes {
        if !is_row_stored::<P>(words, work, i) {
            return false;
        }
    }
    true
}

/// Whether the words are the sets of their pairs.
pub fn is_stored(words: &[u64], work: &PairSets) -> bool
    requires planes { IsPlanes work.now.planes }
    requires length_is { length words.now ≡ edge_count work.now.nodes }
    ensures { IsTrue result ↔ IsStored work.now.nodes words.now work.now work.now.nodes }
{
    let planes = work.planes();
    if planes == 1 {
        are_rows_stored::<1>(words, work)
    } else if planes == 2 {
        are_rows_stored::<2>(words, work)
    } else if planes == 4 {
        are_rows_stored::<4>(words, work)
    } else {
        are_rows_stored::<8>(words, work)
    }
}

/// Loads the sets of all pairs into `P` planes, and makes the tables of the calculus.
fn load_with_tables<C: Compose, const P: usize>(
    work: &mut PairSets,
    tables: &mut Tables,
    words: &[u64],
    c: &C,
)
    requires few { P ≤ 8 }
    requires enough { (C.algebra c.now).size ≤ 8 * P }
    requires network { IsNetwork (C.algebra c.now) work.old.nodes words.now }
    ensures planes { work.new.planes ≡ P }
    ensures in_step { IsInStep (C.algebra c.now) work.old.nodes words.now work.new }
    ensures tables { AreBaseTables (C.algebra c.now) P tables.new.bases }
{
    lawful(c);
    tables.fill::<C, P>(c);
    work.set_planes(P);
    load::<C, P>(work, words, c);
}

/// Loads the sets of all pairs into `P` planes, makes the tables of the calculus, and queues the edges whose set isn't
/// full.
pub fn load_queued<C: Compose, const P: usize>(
    work: &mut PairSets,
    tables: &mut Tables,
    words: &[u64],
    c: &C,
)
    requires few { P ≤ 8 }
    requires enough { (C.algebra c.now).size ≤ 8 * P }
    requires network { IsNetwork (C.algebra c.now) work.old.nodes words.now }
    ensures planes { work.new.planes ≡ P }
    ensures in_step { IsInStep (C.algebra c.now) work.old.nodes words.now work.new }
    ensures begun { IsBegun work.new (full_of (C.algebra c.now)) work.new.nodes }
    ensures tables { AreBaseTables (C.algebra c.now) P tables.new.bases }
{
    load_with_tables::<C, P>(work, tables, words, c);
    work.push_lesser(c.full());
}

/// Loads the sets of all pairs into as many planes as the calculus needs, and makes its tables.
pub fn load_planes<C: Compose>(work: &mut PairSets, tables: &mut Tables, words: &[u64], c: &C)
    requires { IsNetwork (C.algebra c.now) work.old.nodes words.now }
    ensures calculus { IsCalculus (C.algebra c.now) }
    ensures planes { IsPlanes work.new.planes }
    ensures enough { (C.algebra c.now).size ≤ 8 * work.new.planes }
    ensures in_step { IsInStep (C.algebra c.now) work.old.nodes words.now work.new }
    ensures tables { AreBaseTables (C.algebra c.now) work.new.planes tables.new.bases }
{
    lawful(c);
    let size = c.size();
    if size <= 8 {
        load_with_tables::<C, 1>(work, tables, words, c);
    } else if size <= 16 {
        load_with_tables::<C, 2>(work, tables, words, c);
    } else if size <= 32 {
        load_with_tables::<C, 4>(work, tables, words, c);
    } else {
        load_with_tables::<C, 8>(work, tables, words, c);
    }
}
