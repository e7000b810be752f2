//! The nodes of an edge, found from its number.

ghost use Rattle.std.specs.Prelude.{◌≡◌, ◌<◌, ◌≤◌};
ghost use Rattle.network_words.specs.Edge.{edge_count, edge_at};
ghost use Rattle.network_words.specs.declared.TheConstants.{MAX_NODES};

use network_words::edge_between;

/// The nodes of an edge, the lesser first. The last edges of the rows are in ascending order, so it looks for the first
/// row whose last edge isn't before the given one.
pub fn nodes_of_edge(nodes: u32, edge: u32) -> (u32, u32)
    requires few { nodes ≤ MAX_NODES }
    requires below { edge < edge_count nodes }
    ensures order { result.0 < result.1 }
    ensures below { result.1 < nodes }
    ensures edge { edge_at nodes result.0 result.1 ≡ edge }
{
    let last = nodes - 1;
    let mut i = 0;
    while edge_between(nodes, i, last) < edge {
        i += 1;
    }
    (i, last - (edge_between(nodes, i, last) - edge))
}
