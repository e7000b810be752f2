//! What a search comes to later: the networks of children that weren't made yet. Those who look ahead at them save the
//! search that work, where it comes to them.
//!
//! All this is a hint. The networks are those of the calculus, and nothing else is promised of them: a search
//! compares a network with that of its child before it takes over what somebody says of it.
ghost use Rattle.std.specs.Prelude.{◌≡◌, ◌≤◌, All, IfOk, IfSome, OnOk};
ghost use Rattle.network_words.specs.Network.{IsNetwork};
ghost use Rattle.split_search.specs.Walks.{IsLaterChild};

use crate::split::Split;
use crate::walking::Walk;
use calculus_table::{Compose, Memory, Rel, lawful};
use network_words::Net;
use std::alloc::Global;

/// A child to which a search comes later: its network, its number among the children of its split, and how many open
/// splits are above that.
#[derive(Debug, Drop)]
pub struct LaterChild {
    pub net: Net,
    pub number: usize,
    pub depth: usize,
}

/// The network with these sets, where they are sets of the calculus, and with that of one edge met with a part.
fn net_of<C: Compose>(
    alloc: Global,
    c: &C,
    nodes: u32,
    words: &[u64],
    edge: u32,
    part: Rel,
) -> Result<Net, Memory>
    ensures network { IfOk result (λ net. IsNetwork (C.algebra c.now) net.nodes net.words) }
    ensures nodes { IfOk result (λ net. net.nodes ≡ nodes) }
{
    lawful(c);
    let Ok(mut net) = Net::new(alloc, nodes, c.full()) else {
        return Err(Memory);
    };
    for other in 0..net.edges() {
        let word = match words.get(other as usize) {
            Some(word) => Rel::of(*word),
            None => c.full(),
        };
        let set = if other == edge { word.meet(part) } else { word };
        net.set(other, set.meet(c.full()));
    }
    Ok(net)
}

impl Walk<'_> {
    /// Whether some child had an empty set, so that it went back.
    pub fn has_gone_back(&self) -> bool {
        self.search.nodes.len() as u64 > u64::from(self.search.count)
    }

    /// The number of the child of the first split to which it goes down next, if it does.
    pub fn next_of_first(&self) -> Option<usize> {
        let splits = &self.search.open_splits;
        if splits.len() != 1 || self.stop.is_some() {
            return None;
        }
        let split = splits.first()?;
        if split.is_whole() {
            return None;
        }
        Some(split.children.len())
    }

    /// The number of the child of the first split from which it came back last, or in which it stopped.
    pub fn last_of_first(&self) -> Option<usize> {
        let splits = &self.search.open_splits;
        if splits.len() != 1 && self.stop.is_none() {
            return None;
        }
        let split = splits.first()?;
        split.children.len().checked_sub(1)
    }

    /// Whether a network is that of the child to which it comes next.
    pub fn is_at(&self, net: &Net) -> bool {
        let Some(split) = self.search.open_splits.last() else {
            return false;
        };
        let Some(part) = split.parts.get(split.children.len()) else {
            return false;
        };
        let edges = self.search.path.edges();
        if net.edges() != edges || split.edge >= edges || net.word(split.edge) != *part {
            return false;
        }
        for other in 0..edges {
            if other != split.edge && net.word(other) != self.search.path.word(other) {
                return false;
            }
        }
        true
    }

    /// Children that it comes to after its next one, so many at most: those of the last open split first. Where those
    /// of a split that were made have fewer nodes than `least` in the mean, its others are left out. They are a hint
    /// of what may be searched before its turn: none has to be there.
    pub fn later_children<C: Compose>(
        &self,
        alloc: Global,
        c: &C,
        most: usize,
        least: u64,
    ) -> Result<Vec<LaterChild>, Memory>
        ensures { IfOk result (λ later.
            All (IsLaterChild (C.algebra c.now) self.now.search.net.nodes) later.items) }
    {
        let mut later = Vec::new(alloc);
        let depth = self.search.open_splits.len();
        for level in (0..depth).rev() {
            if later.len() >= most {
                return Ok(later);
            }
            let skip = if level + 1 == depth { 1 } else { 0 };
            self.add_later(alloc, c, level, skip, most, least, &mut later)?;
        }
        Ok(later)
    }

    /// Whether the children of an open split that were made have fewer nodes than so many, in the mean.
    fn is_small(&self, split: &Split, least: u64) -> bool {
        let nodes = (self.search.nodes.len() as u64).saturating_sub(u64::from(split.node));
        nodes < least.saturating_mul(split.children.len() as u64 + 1)
    }

    /// Adds those of the children of one open split, but for the first so many that weren't made.
    fn add_later<C: Compose>(
        &self,
        alloc: Global,
        c: &C,
        level: usize,
        skip: usize,
        most: usize,
        least: u64,
        later: &mut Vec<LaterChild>,
    ) -> Result<(), Memory>
        requires { All (IsLaterChild (C.algebra c.now) self.now.search.net.nodes) later.old.items }
        ensures { OnOk result (All (IsLaterChild (C.algebra c.now) self.now.search.net.nodes) later.new.items) }
    {
        let Some(split) = self.search.open_splits.get(level) else {
            return Ok(());
        };
        let first = split.children.len().saturating_add(skip);
        if first >= split.parts.len()
            || self.is_small(split, least)
            || self.search.path.is_empty()
        {
            return Ok(());
        }
        let words = self.search.path.sets_at(alloc, level)?;
        let mut number = first;
        for part in split.parts.iter().skip(first) {
            if later.len() >= most {
                return Ok(());
            }
            let net = net_of(alloc, c, self.search.net.nodes(), &words, split.edge, *part)?;
            let Ok(()) = later.push(LaterChild {
                net,
                number,
                depth: level,
            }) else {
                return Err(Memory);
            };
            number = number.wrapping_add(1);
        }
        Ok(())
    }
}
