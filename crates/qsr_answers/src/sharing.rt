//! How many workers close a network, and search it. A number that the words name is obeyed. Where they name none,
//! four workers share the edges of a network out if that pays, and else one closes it on the thread that is there,
//! which starts no other.
//!
//! Sharing pays where the work is large and each worker does its part of it once: on a dense network of small sets
//! they sweep rows, and make few sets less. Elsewhere each takes the edges that became less off a queue of its own,
//! and composes again what the others have found. So three things are asked of a network, and the last two of every
//! sixteenth set of it, so that asking takes no time to speak of. `docs/PERFORMANCE.md` has the measures.
ghost use Rattle.std.specs.Prelude.{◌≡◌, ◌*◌, ◌≤◌, IfSome};
ghost use Rattle.calculus_table.specs.declared.TheConstants.{MAX_BASES};
ghost use Rattle.network_words.specs.declared.TheConstants.{MAX_NODES};
ghost use Rattle.qsr_words.specs.Requests.{AreWorkers, AreWorkersIfNamed};

use calculus_table::{Compose, Rel};
use network_words::Net;
use qsr_words::{MIN_WORKERS, USUAL_WORKERS};

/// The least work that is shared out: that of 249 nodes over 13 base relations, or of 147 over 64; over 8 none is. With
/// every pair stated, four workers took 0.84 to 0.97 of the time of one over 256 intervals, but 1.07 to 1.22 over 256
/// regions and 1.24 over 128 intervals, in whole runs of `close`.
const SHARED_WORK: u64 = 200_000_000;

/// Of the sets, one in so many is looked at.
const STRIDE: usize = 16;

/// The part of the base relations that the sets have in the mean, at most, where edges are shared out: five eighths.
/// Over 256 intervals four workers took less time than one where sets had up to four relations beside the true one, and
/// as long as one where they had half of all.
const SMALL_PART: (u64, u64) = (5, 8);

/// How many workers close the network: as many as are named, or else four where its edges are shared out, and one where
/// they aren't.
pub(crate) fn workers_for<C: Compose>(net: &Net, c: &C, named: Option<u32>) -> u32
    requires { AreWorkersIfNamed named }
    ensures named { IfSome named (λ workers. result ≡ workers) }
    ensures within { AreWorkers result }
{
    match named {
        Some(workers) => workers,
        None if is_shared(net, c) => USUAL_WORKERS,
        None => MIN_WORKERS,
    }
}

/// How many workers search a network: as many as are named, or else one. Where a search is long others that look ahead
/// of it may shorten it, and make a short one longer.
pub(crate) fn searchers_for(named: Option<u32>) -> u32
    requires { AreWorkersIfNamed named }
    ensures named { IfSome named (λ workers. result ≡ workers) }
    ensures within { AreWorkers result }
{
    match named {
        Some(workers) => workers,
        None => MIN_WORKERS,
    }
}

/// The least number of edges that is shared out to be labelled: that of nine nodes.
const SHARED_EDGES: u32 = 36;

/// How many workers label the base relations of the network's edges: as many as are named, or else four where there are
/// edges enough, and one where there aren't.
pub(crate) fn labellers_for(net: &Net, named: Option<u32>) -> u32
    requires { AreWorkersIfNamed named }
    ensures named { IfSome named (λ workers. result ≡ workers) }
    ensures within { AreWorkers result }
{
    match named {
        Some(workers) => workers,
        None if net.edges() >= SHARED_EDGES => USUAL_WORKERS,
        None => MIN_WORKERS,
    }
}

/// Whether it pays to share the edges of the network out: where there is work enough, and most edges are stated, by
/// small sets.
fn is_shared<C: Compose>(net: &Net, c: &C) -> bool {
    work(net.nodes(), c.size()) >= SHARED_WORK
        && are_mostly_stated(net.words(), c.full())
        && are_small(net.words(), c.size())
}

/// What closing takes, as far as the sizes tell: the cube of the number of nodes, times that of base relations.
fn work(nodes: u32, size: u32) -> u64
    requires nodes { nodes ≤ MAX_NODES }
    requires size { size ≤ MAX_BASES }
    ensures { result ≡ nodes * nodes * nodes * size }
{
    let nodes = u64::from(nodes);
    nodes * nodes * nodes * u64::from(size)
}

/// Whether more of the sets that are looked at are stated than have all base relations. On chains of 256 nodes, and
/// where each has twelve stated edges, four workers took 1.4 to 1.6 times as long as one.
fn are_mostly_stated(words: &[u64], full: Rel) -> bool {
    let looked = words.iter().step_by(STRIDE);
    let stated = looked.filter(|word| **word != full.word()).count();
    let rest = words.iter().step_by(STRIDE);
    let left = rest.filter(|word| **word == full.word()).count();
    stated > left
}

/// Whether the sets that are looked at have the small part of so many base relations in the mean, or less.
fn are_small(words: &[u64], size: u32) -> bool {
    let (part, whole) = SMALL_PART;
    let members = words.iter().step_by(STRIDE).fold(
        0,
        |sum: u64, word| sum.saturating_add(u64::from(word.count_ones())),
    );
    let looked = words.len().div_ceil(STRIDE) as u64;
    let most = looked.saturating_mul(u64::from(size));
    members.saturating_mul(whole) <= most.saturating_mul(part)
}
