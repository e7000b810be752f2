//! The worked networks of the nodes on a way from the first node down, the last on top.
//!
//! Where every node closes its network, they are a path of closed networks, which costs what each split changes. Else
//! each is worked from the one under it, so that a step costs one composition and closing starts from scratch.

use crate::stepped::Stepped;
use calculus_table::{Compose, Memory, Rel};
use closure_seq::ClosedPath;
use network_words::Net;
use split_trees::Steps;
use std::alloc::Global;
use std::marker::Model;

/// Networks that are closed, or worked step by step.
#[derive(Debug, Drop)]
pub(crate) enum Worked {
    Closed(ClosedPath),
    Stepped(Stepped),
}

/// Networks above one another, each worked from the one under it.
#[derive(Debug, Drop)]
pub struct Networks {
    worked: Worked,
}

impl Model for Networks {
    ghost use Rattle.stepped_networks.specs.Networks.{NetworkStack};
    ghost use Rattle.stepped_networks.specs.Stacks.{stack_of};

    ghost Value = { NetworkStack };

    ghost view = { λ a. stack_of a.worked };
}

impl Networks {
    ghost use Rattle.std.specs.Prelude.{◌≡◌, ◌<◌, ◌↔◌, ◌∷◌, IfOk, OnOk, IsTrue, Contains, slice_index, length, true};
    ghost use Rattle.std.specs.Prelude.{false};
    ghost use Rattle.network_words.specs.Edge.{edge_count};
    ghost use Rattle.network_words.specs.Network.{IsNetwork};
    ghost use Rattle.split_trees.specs.Tree.{AreSteps, sweep};
    ghost use Rattle.split_trees.specs.Steps.{node_steps};
    ghost use Rattle.split_trees.specs.Refutes.{IsWorked, met_at};
    ghost use Rattle.stepped_networks.specs.Networks.{NetworkStack, IsStackOf};

    /// The network of the first node, where every node closes its network.
    pub fn closed<C: Compose>(alloc: Global, net: &Net, c: &C) -> Result<Networks, Memory>
        requires network { IsNetwork (C.algebra c.now) net.now.nodes net.now.words }
        ensures stack { IfOk result
            (IsStackOf (C.algebra c.now) net.now.nodes net.now.words sweep) }
    {
        let path = ClosedPath::new(alloc, net, c)?;
        Ok(Networks {
            worked: Worked::Closed(path),
        })
    }

    /// The network of the first node, where nodes may have steps, and have many of them or few.
    pub fn stepped<C: Compose>(
        alloc: Global,
        net: &Net,
        c: &C,
        steps: &Steps,
        many: bool,
    ) -> Result<Networks, Memory>
        requires network { IsNetwork (C.algebra c.now) net.now.nodes net.now.words }
        requires steps { AreSteps net.now.nodes (node_steps steps.now) }
        ensures stack { IfOk result
            (IsStackOf (C.algebra c.now) net.now.nodes net.now.words (node_steps steps.now)) }
        ensures closed { IfOk result (λ stack. stack.is_closed ≡ false) }
    {
        let stepped = Stepped::new(alloc, net, c, steps, many)?;
        Ok(Networks {
            worked: Worked::Stepped(stepped),
        })
    }

    /// The set of an edge of the top.
    pub fn word(&self, edge: u32) -> Rel
        requires { edge < edge_count self.now.nodes }
        ensures { result ≡ slice_index self.now.top edge }
    {
        match &self.worked {
            Worked::Closed(path) => path.word(edge),
            Worked::Stepped(stepped) => stepped.word(edge),
        }
    }

    /// Whether the top has an empty set.
    pub fn is_empty(&self) -> bool
        ensures { IsTrue result ↔ Contains self.now.top 0 }
    {
        match &self.worked {
            Worked::Closed(path) => path.is_empty(),
            Worked::Stepped(stepped) => stepped.is_empty(),
        }
    }

    /// Pushes a network: the top with the set of an edge intersected with a part, worked.
    pub fn enter(
        &mut self,
        alloc: Global,
        edge: u32,
        part: Rel,
        steps: &Steps,
    ) -> Result<(), Memory>
        requires below { edge < edge_count self.old.nodes }
        requires network { IsNetwork self.old.algebra self.old.nodes self.old.top }
        requires steps { AreSteps self.old.nodes (node_steps steps.now) }
        requires closed { self.old.is_closed ≡ true → node_steps steps.now ≡ sweep }
        ensures worked { OnOk result
            (IsWorked self.old.algebra self.old.nodes (node_steps steps.now)
            (met_at self.old.top edge part) self.new.top) }
        ensures stack { OnOk result (self.new ≡ record self.old {
          top = self.new.top;
          under = self.old.top ∷ self.old.under;
        }) }
    {
        match &mut self.worked {
            Worked::Closed(path) => {
                let met = path.word(edge).meet(part);
                path.narrow(edge, met)
            }
            Worked::Stepped(stepped) => stepped.enter(alloc, edge, part, steps),
        }
    }

    /// Pops the top.
    pub fn leave(&mut self)
        requires { 0 < length self.old.under }
        ensures { self.old ≡ record self.new {
          top = self.old.top;
          under = self.new.top ∷ self.new.under;
        } }
    {
        match &mut self.worked {
            Worked::Closed(path) => path.back(),
            Worked::Stepped(stepped) => stepped.leave(),
        }
    }
}
