use calculus_table::Memory;
use compose_fast::Tables;
use edge_propagation::{PairSets, Proposals};
use std::alloc::Global;
use std::marker::Model;

/// Room for closing networks of one number of nodes, by any calculus.
#[derive(Debug, Drop)]
pub struct Work {
    pub(crate) pairs: PairSets,
    pub(crate) tables: Tables,
}

impl Model for Work {
    ghost use Rattle.edge_propagation.specs.Worklist.{Room};

    ghost Value = { Room };

    ghost view = { λ a. record { nodes = a.pairs.nodes } };
}

impl Work {
    ghost use Rattle.std.specs.Prelude.{◌≡◌, ◌<◌, ◌≤◌, IfOk};
    ghost use Rattle.network_words.specs.declared.TheConstants.{MAX_NODES};

    /// Room for networks of so many nodes.
    pub fn new(alloc: Global, nodes: u32) -> Result<Work, Memory>
        requires some { 0 < nodes }
        requires bounded { nodes ≤ MAX_NODES }
        ensures { IfOk result (λ work. work.nodes ≡ nodes) }
    {
        let pairs = PairSets::new(alloc, nodes, Proposals::least(alloc, nodes)?)?;
        let tables = Tables::new(alloc)?;
        Ok(Work { pairs, tables })
    }
}
