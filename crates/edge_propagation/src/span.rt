//! Ranges of nodes, and the pairs that belong to a range of rows.
//!
//! The pair `(i, k)` belongs to the row of the lesser of its nodes, as its edge does. So the nodes `k` of which the
//! pair with `i` belongs to some rows are again a range, and propagation along a row goes through that range alone.

ghost use Rattle.std.specs.Prelude.{◌≡◌, ℕ, ◌<◌, ◌≤◌};
ghost use Rattle.edge_propagation.specs.Propagation.{IsAmong, IsCharged, all_nodes};

/// The nodes from `first` up to but without `end`.
#[derive(Clone, Copy, Debug, PartialEq, Eq)]
pub struct Span {
    pub first: u32,
    pub end: u32,
}

/// All of so many nodes.
pub fn all_nodes(nodes: u32) -> Span
    ensures { result ≡ all_nodes nodes }
{
    Span {
        first: 0,
        end: nodes,
    }
}

/// The nodes `k` of which the pair with `i` belongs to the rows.
#[inline(always)]
pub fn charged_with(rows: Span, i: u32, nodes: u32) -> Span
    ensures charged { (k : ℕ) → k < nodes → IsCharged rows i k → IsAmong result k }
    ensures within { result.end ≤ nodes }
{
    let first = rows.first;
    if i < first {
        Span { first, end: 0 }
    } else if i < rows.end {
        Span { first, end: nodes }
    } else {
        Span {
            first,
            end: rows.end.min(nodes),
        }
    }
}
