use crate::sight::Sight;
use atomic_table::Seat;
use calculus_table::Rel;
use std::marker::Model;

/// The right to narrow the words of one table, which one thread has at a time. What it has stated and
/// what it has seen, and how often it has loaded a word or made a `fetch_and`, are parts of the view of
/// its seat, which proofs alone have: they take no room.
#[derive(Drop)]
pub struct Pass {
    pub(crate) seat: Seat<u8, Sight>,
    pub(crate) weight: u32,
    pub(crate) nodes: u32,
    pub(crate) full: Rel,
}

impl Model for Pass {
    ghost use Rattle.edge_table.specs.Opening.{PassState, IsPass};

    ghost Value = { PassState };

    ghost view = { λ p. record {
      id = p.seat.table_id;
      nodes = p.nodes;
      full = p.full;
      actor = p.seat.me.0.actor;
      loads = p.seat.me.0.loads;
      fetch_ands = p.seat.me.0.fetch_ands;
    } };

    ghost invariant = { λ p. IsPass p.weight p.seat.me.1 (record {
      id = p.seat.table_id;
      nodes = p.nodes;
      full = p.full;
      actor = p.seat.me.0.actor;
      loads = p.seat.me.0.loads;
      fetch_ands = p.seat.me.0.fetch_ands;
    }) };
}

impl Pass {
    ghost use Rattle.std.specs.Prelude.{◌≡◌};

    /// The pass's part of the whole weight.
    pub fn weight(&self) -> u32
        ensures { result ≡ self.now.actor.weight }
    {
        self.weight
    }
}
