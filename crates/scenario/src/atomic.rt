//! A scenario as a network: the set of each edge is its base relation alone (Renz and Nebel call it atomic).
ghost use Rattle.std.specs.Prelude.{◌≡◌, ℕ, ◌<◌, length, slice_index};
ghost use Rattle.network_words.specs.Edge.{edge_count};
ghost use Rattle.network_words.specs.Scenario.{as_network};

use crate::checking::Scenario;
use calculus_table::Rel;
use network_words::Net;

/// Leaves each edge of the network the base relation of the scenario alone. The nodes and their names stay.
pub fn make_atomic(net: &mut Net, scenario: &Scenario)
    requires length_is { length net.old.words ≡ edge_count net.old.nodes }
    requires each { length scenario.now ≡ edge_count net.old.nodes }
    requires below { (e : ℕ) → e < edge_count net.old.nodes → slice_index scenario.now e < 64 }
    ensures { net.new ≡ record net.old { words = as_network scenario.now } }
{
    for edge in 0..net.edges() {
        let base = scenario.bases[edge as usize];
        net.set(edge, Rel::single(u32::from(base)));
    }
}
