//! The two nodes of an edge by its number.
//!
//! Edges are numbered row by row: node 0 with each later one, then node 1, and so on. So the rows are passed
//! over until the number lies in one. A matrix costs far more than that.
ghost use Rattle.std.specs.Prelude.{◌<◌, ◌≤◌};
ghost use Rattle.network_words.specs.Edge.{edge_count};
ghost use Rattle.network_words.specs.declared.TheConstants.{MAX_NODES};
ghost use Rattle.geo_sound.specs.Bases.{IsEdge};

/// The nodes of an edge, of which the first has the lower number.
#[derive(Clone, Copy)]
pub(crate) struct Ends {
    pub first: u32,
    pub second: u32,
}

/// The nodes of the edge with this number.
pub(crate) fn ends_of(nodes: u32, edge: u32) -> Ends
    requires few { nodes ≤ MAX_NODES }
    requires below { edge < edge_count nodes }
    ensures { IsEdge nodes edge result.first result.second }
{
    let mut first = 0;
    let mut left = edge;
    while left >= nodes - 1 - first {
        left -= nodes - 1 - first;
        first += 1;
    }
    Ends {
        first,
        second: first + 1 + left,
    }
}
