//! The network of the source, narrowed by the facts that polygons have.
ghost use Rattle.std.specs.Prelude.{◌≡◌, IfOk, IfErr, Ok};
ghost use Rattle.network_words.specs.Network.{IsNetwork};
ghost use Rattle.qsr_inputs.specs.Stops.{HasCause, IsRefusalOrMemory};
ghost use Rattle.qsr_inputs.specs.Inputs.{PlacedNetwork, PlacedOn, IsOnRcc8};
ghost use Rattle.qsr_inputs.specs.Readings.{Reads};

use crate::inputs::network;
use crate::polygons::Polygons;
use crate::stops::{Stop, fact_stop};
use calculus_table::Calculus;
use geo_facts::facts;
use network_words::Net;
use qsr_outside::Source;
use std::alloc::Global;
use std::thread::Threads;

/// The network of the source, over a calculus, with polygons.
pub fn placed_network<R: Threads + Sync, S: Source>(
    rt: &R,
    alloc: Global,
    source: &mut S,
    calculus: &Calculus,
    polygons: &Polygons,
) -> Result<Net, Stop>
    requires { IsOnRcc8 calculus.now polygons.now }
    ensures source { Reads S.left S.faults S.given
        (λ bytes. PlacedNetwork bytes calculus.now polygons.now) source.old source.new result }
    ensures network { IfOk result (λ net.
        IsNetwork calculus.now.algebra net.nodes net.words) }
{
    let net = network(alloc, source, calculus)?;
    place(rt, alloc, net, calculus, polygons)
}

/// The network with polygons, each of which has the name of a node.
fn place<R: Threads + Sync>(
    rt: &R,
    alloc: Global,
    mut net: Net,
    calculus: &Calculus,
    polygons: &Polygons,
) -> Result<Net, Stop>
    requires network { IsNetwork calculus.now.algebra net.nodes net.words }
    requires rcc8 { IsOnRcc8 calculus.now polygons.now }
    ensures value { IfOk result (λ placed.
        PlacedOn calculus.now polygons.now net (Ok placed)) }
    ensures network { IfOk result (λ placed.
        IsNetwork calculus.now.algebra placed.nodes placed.words) }
    ensures cause { IfErr result (HasCause (PlacedOn calculus.now polygons.now net)) }
    ensures refusal { IfErr result IsRefusalOrMemory }
{
    let facts = match facts(rt, alloc, &polygons.list, &net) {
        Ok(facts) => facts,
        Err(fault) => return Err(fact_stop(fault)),
    };
    // each fact is of two nodes, so none is refused
    match net.add_facts(calculus, &facts) {
        Ok(()) => Ok(net),
        Err(_) => Err(Stop::Memory),
    }
}
