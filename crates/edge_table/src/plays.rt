//! What each step on the words tells the pass that makes it.
ghost use Rattle.std.specs.Prelude.{bit_and};
ghost use Rattle.edge_table.specs.Rule.{Loads, Meets, States, Weighs, keeping, beginning, uniting, no_view};

use crate::sight::Sight;
use atomic_table::{Join, Play, Split};
use std::marker::{Brand, PhantomData};

/// A load: the pass sees the word, and has one more load.
pub(crate) struct Reading;

impl Play<u8, Sight> for Reading {
    ghost then = { λ step v found w. Loads step.word found v w };
}

/// A word narrowed: the pass sees what is left of it, and has one more `fetch_and`.
pub(crate) struct Narrowing;

impl Play<u8, Sight> for Narrowing {
    ghost then = { λ step v found w. Meets step.word (bit_and found step.first) v w };
}

/// A fact that a pass states.
pub(crate) trait Stated {
    ghost use Rattle.network_words.specs.declared.fact.Fact.{Fact};

    ghost fact: { Fact };
}

impl Stated for Brand {
    ghost fact = { record { i = 0; j = 0; rel = 0 } };
}

/// A word narrowed to the set of a fact: the pass states the fact and sees what is left, and has
/// one more `fetch_and`.
pub(crate) struct Stating<F> {
    fact: PhantomData<F>,
}

impl<F: Stated> Play<u8, Sight> for Stating<F> {
    ghost then = { λ step v found w. States F.fact step.word (bit_and found step.first) v w };
}

/// A load that tells only that the weight of the pass is within the limit, and isn't counted.
pub(crate) struct Weighing;

impl Play<u8, Sight> for Weighing {
    ghost then = { λ _ v _ w. Weighs v w };
}

/// A weight that a pass gives away.
pub(crate) trait Given {
    ghost use Rattle.std.specs.Prelude.{ℕ};

    ghost weight: { ℕ };
}

impl Given for Brand {
    ghost weight = { 0 };
}

/// A pass cut in two: the second has seen the same, and has stated and counted nothing.
pub(crate) struct Giving<G> {
    weight: PhantomData<G>,
}

impl<G: Given> Split<Sight> for Giving<G> {
    ghost left = { keeping G.weight };

    ghost right = { beginning G.weight };
}

/// Two passes made one, with the loads and `fetch_and`s of both.
pub(crate) struct Joining;

impl Join<Sight> for Joining {
    ghost both = { uniting };

    ghost spent = { no_view };
}
