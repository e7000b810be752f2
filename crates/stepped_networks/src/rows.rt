//! Where the rows of edges begin.
//!
//! The edge from `i` to `j`, where `i < j`, is the one with number `j - i - 1` in the row of `i`. So with one number
//! for each row, that at which it begins without `i`, the number of an edge takes one look-up and no multiplication.
//! That number would be less than nothing for the first row, so that a constant is added to it, and taken off again.

ghost use Rattle.std.specs.Prelude.{◌≡◌, ℕ, ◌<◌, ◌≤◌, length, slice_index, IfOk};
ghost use Rattle.network_words.specs.declared.TheConstants.{MAX_NODES};
ghost use Rattle.stepped_networks.specs.Rows.{row_shift};

use calculus_table::Memory;
use network_words::MAX_NODES;
use std::alloc::Global;
use std::marker::Model;

/// For each row of edges the number at which it begins, shifted.
#[derive(Debug, Drop)]
pub(crate) struct Rows {
    nodes: u32,
    shifts: Vec<u32>,
}

impl Model for Rows {
    ghost use Rattle.std.specs.Prelude.{ℕ};
    ghost use Rattle.stepped_networks.specs.Rows.{AreShifts};

    ghost Value = { ℕ };

    ghost view = { λ a. a.nodes };

    ghost invariant = { λ a. AreShifts a.nodes a.shifts.items };
}

/// What the number of an edge from `i` to `j` has more than `j`, shifted.
fn row_shift(nodes: u32, i: u32) -> u32
    requires few { nodes ≤ MAX_NODES }
    requires below { i < nodes }
    ensures { result ≡ row_shift nodes i }
{
    i * (2 * nodes - i - 1) / 2 + (MAX_NODES - i)
}

impl Rows {
    ghost use Rattle.std.specs.Prelude.{◌≡◌, ◌<◌, ◌≤◌, IfOk};
    ghost use Rattle.network_words.specs.Edge.{edge_at, edge_between, edge_count, IsProperPair};
    ghost use Rattle.network_words.specs.declared.TheConstants.{MAX_NODES};

    /// The rows of the edges among so many nodes.
    pub(crate) fn of(alloc: Global, nodes: u32) -> Result<Rows, Memory>
        requires { nodes ≤ MAX_NODES }
        ensures { IfOk result (λ rows. rows ≡ nodes) }
    {
        let mut shifts = Vec::new(alloc);
        for i in 0..nodes {
            shifts.push(row_shift(nodes, i)).map_err(|_| Memory)?;
        }
        Ok(Rows { nodes, shifts })
    }

    /// The number of the edge from `i` to `j`, where `i < j`.
    #[inline(always)]
    fn edge_at(&self, i: u32, j: u32) -> u32
        requires order { i < j }
        requires below { j < self.now }
        ensures value { result ≡ edge_at self.now i j }
        ensures below { result < edge_count self.now }
    {
        self.shifts[i as usize] + j - (MAX_NODES + 1)
    }

    /// The number of the edge between two nodes, in whichever order: without a branch, as `between` has it.
    #[inline(always)]
    pub(crate) fn edge(&self, i: u32, j: u32) -> u32
        requires { IsProperPair self.now i j }
        ensures value { result ≡ edge_between self.now i j }
        ensures below { result < edge_count self.now }
    {
        self.edge_at(i.min(j), i.max(j))
    }
}
