ghost use Rattle.network_words.specs.declared.TheConstants.{MAX_NODES};

use calculus_table::{Compose, Memory, Rel};
use network_words::relation_between;
use std::alloc::Global;
use std::marker::Model;

/// The words of all edges as a pass has seen them, in edge order.
#[derive(Debug, Drop)]
pub struct Snapshot {
    pub(crate) words: Vec<u64>,
}

impl Model for Snapshot {
    ghost use Rattle.std.specs.Prelude.{ℕ, List};

    ghost Value = { List ℕ };

    ghost view = { λ s. s.words.items };
}

impl Snapshot {
    ghost use Rattle.std.specs.Prelude.{◌≡◌, ◌≢◌, ◌<◌, ◌≤◌, ◌↔◌, IsTrue, length, slice_index, slice_set, IfOk};
    ghost use Rattle.calculus_table.specs.Rel.{IsWithin};
    ghost use Rattle.calculus_table.specs.Composition.{full_of, composition};
    ghost use Rattle.network_words.specs.Edge.{IsProperTriple};
    ghost use Rattle.network_words.specs.Network.{IsNetwork, relation_between};

    /// A word for each of this many edges.
    pub fn new(alloc: Global, edges: u32) -> Result<Snapshot, Memory>
        ensures { IfOk result (λ snap. length snap ≡ edges) }
    {
        let words = vec![in alloc; 0; edges as usize].map_err(|_| Memory)?;
        Ok(Snapshot { words })
    }

    /// A snapshot of these words.
    pub fn of(alloc: Global, words: &[u64]) -> Result<Snapshot, Memory>
        ensures { IfOk result (λ snap. snap ≡ words.now) }
    {
        let words = words.to_vec(alloc).map_err(|_| Memory)?;
        Ok(Snapshot { words })
    }

    /// The words of all edges.
    pub fn words(&self) -> &[u64]
        ensures { result.now ≡ self.now }
    {
        &self.words
    }

    /// The composition of the relations from `i` to `j` and from `j` to `k`.
    pub(crate) fn compose<C: Compose>(&self, c: &C, nodes: u32, i: u32, j: u32, k: u32) -> Rel
        requires few { nodes ≤ MAX_NODES }
        requires proper { IsProperTriple nodes i j k }
        requires network { IsNetwork (C.algebra c.now) nodes self.now }
        ensures value { result ≡ composition (C.algebra c.now)
            (relation_between (C.algebra c.now) nodes self.now i j)
            (relation_between (C.algebra c.now) nodes self.now j k) }
        ensures within { IsWithin result (full_of (C.algebra c.now)) }
    {
        let first = relation_between(c, nodes, &self.words, i, j);
        let second = relation_between(c, nodes, &self.words, j, k);
        c.compose(first, second)
    }

    /// Takes over the word of an edge, and returns whether it is another than before.
    pub(crate) fn take(&mut self, edge: u32, word: u64) -> bool
        requires { edge < length self.old }
        ensures words { self.new ≡ slice_set self.old edge word }
        ensures changed { IsTrue result ↔ (word ≢ slice_index self.old edge) }
    {
        if word == self.words[edge as usize] {
            return false;
        }
        self.words[edge as usize] = word;
        true
    }
}
