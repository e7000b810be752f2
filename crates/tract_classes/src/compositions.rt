//! Whether a class that is closed under converse is closed under composition.
//!
//! The converse of `a;b` is the converse of `b` composed with that of `a`, so one of the two tells of both. With `a`
//! turned round there is one for each two members: the composition of the converse of `a` with `b`, for `a` from `b`
//! on. For one `b` it is the union of what the two bytes of `a` give, and each of those is looked up in a table of 256
//! entries made for `b`. So `n` members take some `n * n / 2` look-ups, and as many of whether the union is a member.
//!
//! That is for up to 16 base relations, for whose sets a class has a map. Beyond, and where the test fails, each pair
//! is looked at.
ghost use Rattle.std.specs.Prelude.{◌≡◌, ℕ, ◌+◌, ◌^◌, ◌<◌, ◌≤◌, ◌↔◌, IsTrue, MatchOption, slice_index, bit_or};
ghost use Rattle.calculus_table.specs.Rel.{IsWithin};
ghost use Rattle.calculus_table.specs.Composition.{full_of};
ghost use Rattle.tract_classes.specs.Class.{AreSetsOf, EachMember, EachPair, HasConverse, HasComposition};
ghost use Rattle.tract_classes.specs.ClassFault.{IsFirstPair};
ghost use Rattle.tract_classes.specs.Turned.{turned, EachFrom, IsTableOf, HasLookedUp};

use crate::class::Class;
use crate::pairs::first_without_composition;
use crate::rows::MAX_MAPPED;
use calculus_table::{Compose, Rel, lawful};

/// The composition of the converse of the base relation `r` with `b`; nothing, where there is no such base relation.
fn turned_base<C: Compose>(c: &C, b: Rel, r: u32) -> u64
    requires { IsWithin b (full_of (C.algebra c.now)) }
    ensures { result ≡ turned (C.algebra c.now) b (2 ^ r) }
{
    if r >= c.size() {
        return 0;
    }
    c.compose(c.converse(Rel::single(r)), b).word()
}

/// Makes the places of a table from `2^k` up to `2^(k+1)`: what those before have, and the set `word`.
fn add_base(table: &mut [u64; 256], k: u32, word: u64)
    requires { k < 8 }
    ensures before { (d : ℕ) → d < 2 ^ k → slice_index table.new d ≡ slice_index table.old d }
    ensures here { (d : ℕ) → d < 2 ^ k →
        slice_index table.new (2 ^ k + d) ≡ bit_or (slice_index table.old d) word }
{
    let half = 1usize << k;
    for d in 0..half {
        table[half + d] = table[d] | word;
    }
}

/// Makes the table of `b` for the base relations from `first` on.
fn fill<C: Compose>(table: &mut [u64; 256], c: &C, b: Rel, first: u32)
    requires within { IsWithin b (full_of (C.algebra c.now)) }
    requires first { first ≤ 8 }
    ensures { IsTableOf (C.algebra c.now) b first table.new }
{
    lawful(c);
    table[0] = 0;
    for k in 0..8 {
        add_base(table, k, turned_base(c, b, first + k));
    }
}

/// Whether each member from place `from` on gives a member, looked up in the tables.
#[inline(never)]
fn has_looked_up(class: &Class, low: &[u64; 256], high: &[u64; 256], from: usize) -> bool
    ensures { IsTrue result ↔ EachFrom class.now from (HasLookedUp class.now low.now high.now) }
{
    let members = class.members();
    for j in from..members.len() {
        let a = members[j];
        let word = low[(a & 255) as usize] | high[(a >> 8 & 255) as usize];
        if !class.has(Rel::of(word)) {
            return false;
        }
    }
    true
}

/// Whether the composition of each two members is a member.
fn has_each_composition<C: Compose>(class: &Class, c: &C) -> bool
    requires sets { AreSetsOf (C.algebra c.now) class.now }
    requires converse { EachMember class.now (HasConverse (C.algebra c.now) class.now) }
    requires few { (C.algebra c.now).size ≤ 16 }
    ensures { IsTrue result ↔ EachPair class.now (HasComposition (C.algebra c.now) class.now) }
{
    lawful(c);
    let members = class.members();
    let mut low = [0; 256];
    let mut high = [0; 256];
    for k in 0..members.len() {
        let b = Rel::of(members[k]);
        fill(&mut low, c, b, 0);
        fill(&mut high, c, b, 8);
        if !has_looked_up(class, &low, &high, k) {
            return false;
        }
    }
    true
}

/// The first two members whose composition is none.
pub(crate) fn first_missing_composition<C: Compose>(class: &Class, c: &C) -> Option<(u64, u64)>
    requires sets { AreSetsOf (C.algebra c.now) class.now }
    requires converse { EachMember class.now (HasConverse (C.algebra c.now) class.now) }
    ensures { MatchOption result
        (EachPair class.now (HasComposition (C.algebra c.now) class.now))
        (λ p. IsFirstPair class.now (HasComposition (C.algebra c.now) class.now) p.0 p.1) }
{
    if c.size() <= MAX_MAPPED && has_each_composition(class, c) {
        return None;
    }
    first_without_composition(class, c)
}
