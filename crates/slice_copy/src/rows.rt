//! The rows in which the edges of a slice lie.
ghost use Rattle.std.specs.Prelude.{◌≤◌};
ghost use Rattle.network_words.specs.Edge.{edge_count};
ghost use Rattle.network_words.specs.declared.TheConstants.{MAX_NODES};
ghost use Rattle.slice_copy.specs.Copies.{AreRowsOf};

use edge_propagation::{Span, nodes_of_edge};

/// The rows in which the edges of a slice lie.
pub(crate) fn rows_of(nodes: u32, from: u32, to: u32) -> Span
    requires few { nodes ≤ MAX_NODES }
    requires below { to ≤ edge_count nodes }
    ensures { AreRowsOf nodes from to result }
{
    if to <= from {
        return Span { first: 0, end: 0 };
    }
    let first = nodes_of_edge(nodes, from).0;
    let last = nodes_of_edge(nodes, to - 1).0;
    Span {
        first,
        end: last + 1,
    }
}
