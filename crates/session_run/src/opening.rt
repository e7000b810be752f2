//! The network that the sessions of a batch begin with, and the closed one above it that the workers go on from.
ghost use Rattle.std.specs.Prelude.{◌≡◌, ◌<◌, ◌≤◌, IfOk, MatchBool};
ghost use Rattle.network_words.specs.Network.{IsNetwork};
ghost use Rattle.network_words.specs.Closure.{IsClosed};
ghost use Rattle.network_words.specs.Facts.{IsNetworkOfFacts};
ghost use Rattle.network_words.specs.declared.TheConstants.{MAX_NODES};
ghost use Rattle.session_versions.specs.HeldFacts.{facts_of};
ghost use Rattle.session_versions.specs.Stores.{IsStore};
ghost use Rattle.session_versions.specs.Versions.{AreProper};

use calculus_table::{Compose, Memory, lawful};
use network_words::Net;
use session_versions::{Draft, Held, Store};
use std::alloc::Global;

/// The network that the facts of the draft state, where it has fewer facts than the newest version, and else the
/// network of that version.
pub(crate) fn opening<C: Compose>(
    alloc: Global,
    store: &Store,
    draft: &Draft,
    fewer: bool,
    c: &C,
) -> Result<Net, Memory>
    requires store { IsStore store.now }
    requires calculus { C.algebra c.now ≡ store.now.calculus }
    requires proper { AreProper store.now.calculus store.now.nodes draft.now.facts }
    ensures nodes { IfOk result (λ net. net.nodes ≡ store.now.nodes) }
    ensures words { IfOk result (λ net. MatchBool fewer
        (IsNetworkOfFacts store.now.calculus store.now.nodes (facts_of draft.now.facts) net.words)
        (net.words ≡ store.now.newest.net.words)) }
{
    if fewer {
        network_of(alloc, store.nodes(), &draft.facts, c)
    } else {
        store.newest_words().copy()
    }
}

/// A closed network that the opening lies within: that of the newest version, or where the draft has fewer facts the
/// one with every relation. The workers go on from it.
pub(crate) fn closed_above<C: Compose>(
    alloc: Global,
    store: &Store,
    fewer: bool,
    c: &C,
) -> Result<Net, Memory>
    requires store { IsStore store.now }
    requires calculus { C.algebra c.now ≡ store.now.calculus }
    ensures network { IfOk result (λ net. IsNetwork store.now.calculus store.now.nodes net.words) }
    ensures closed { IfOk result (λ net. IsClosed store.now.calculus store.now.nodes net.words) }
{
    lawful(c);
    if !fewer {
        return store.newest_words().copy();
    }
    let Ok(net) = Net::new(alloc, store.nodes(), c.full()) else {
        return Err(Memory);
    };
    Ok(net)
}

/// The network that facts state.
fn network_of<C: Compose>(alloc: Global, nodes: u32, helds: &[Held], c: &C) -> Result<Net, Memory>
    requires some { 0 < nodes }
    requires bounded { nodes ≤ MAX_NODES }
    requires proper { AreProper (C.algebra c.now) nodes helds.now }
    ensures nodes { IfOk result (λ net. net.nodes ≡ nodes) }
    ensures words { IfOk result (λ net.
        IsNetworkOfFacts (C.algebra c.now) nodes (facts_of helds.now) net.words) }
{
    let Ok(mut net) = Net::new(alloc, nodes, c.full()) else {
        return Err(Memory);
    };
    for held in helds {
        net.narrow(c, held.fact.i, held.fact.j, held.fact.rel);
    }
    Ok(net)
}
