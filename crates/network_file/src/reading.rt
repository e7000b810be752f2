//! Reading network files.
//!
//! The lines are read in order, each once, and the first faulty one decides. The network has, from the first line on,
//! the full set on each pair; each fact intersects the set of its pair, so that in the end it is the network of the
//! facts whatever their order. Besides the network and its names nothing is kept: reading takes time linear in the
//! text.
ghost use Rattle.std.specs.Prelude.{◌≡◌, ◌≤◌, [], length, IfOk, IfErr, OnOk, Ok};
ghost use Rattle.qsr_lex.specs.declared.TheConstants.{MAX_TEXT};
ghost use Rattle.network_words.specs.Network.{IsNetwork};
ghost use Rattle.network_file.specs.NetworkFile.{FailsWith, nodes_line, names_line, read_network, IsNetworkOfContents};
ghost use Rattle.network_file.specs.NetworkFile.{IsFileOf};

use crate::facts::read_facts;
use crate::fault::{FileFault, end_fault, names_fault};
use crate::forms::{names_form, nodes_form};
use calculus_table::{Calculus, Compose};
use line_files::{FileLines, owned_names};
use named_sets::BaseNames;
use network_words::{MAX_NODES, Net, NetFault};
use std::alloc::Global;

/// Reads the network of a network file of at most `MAX_TEXT` bytes, over a calculus.
pub fn read(alloc: Global, bytes: &[u8], c: &Calculus) -> Result<Net, FileFault>
    requires { length bytes.now ≤ MAX_TEXT }
    ensures ok { IfOk result (IsFileOf c.now bytes.now) }
    // Its sets are sets of base relations of the calculus.
    ensures network { IfOk result (λ net. IsNetwork c.now.algebra net.nodes net.words) }
    // The fault is that of the text, unless it is out of memory.
    ensures fault { IfErr result (FailsWith (read_network c.now bytes.now)) }
{
    let bases = BaseNames::new(c.names());
    let mut lines = FileLines::new(bytes);
    let mut net = read_nodes(alloc, &mut lines, c)?;
    read_names(alloc, &mut lines, &mut net)?;
    read_facts(&mut lines, &bases, c, &mut net)?;
    Ok(net)
}

/// A network without names and facts, of as many nodes as the first line says.
fn read_nodes(alloc: Global, lines: &mut FileLines<'_>, c: &Calculus) -> Result<Net, FileFault>
    ensures ok { IfOk result (λ net.
        nodes_line lines.old.end lines.old.lines ≡ Ok (net.nodes, lines.new.lines)) }
    ensures end { IfOk result (λ _. lines.new.end ≡ lines.old.end) }
    ensures fresh { IfOk result (λ net. IsNetworkOfContents c.now
        (record { nodes = net.nodes; names = []; facts = [] }) net) }
    ensures fault { IfErr result (FailsWith (nodes_line lines.old.end lines.old.lines)) }
{
    let Some(mut line) = lines.next_line() else {
        return Err(end_fault(lines.end()));
    };
    let number = line.number;
    let Some(nodes) = nodes_form(&mut line.tokens) else {
        return Err(FileFault::Syntax { line: number });
    };
    if nodes == 0 || nodes > u64::from(MAX_NODES) {
        return Err(FileFault::Nodes { line: number });
    }
    match Net::new(alloc, nodes as u32, c.full()) {
        Ok(net) => Ok(net),
        Err(_) => Err(FileFault::Memory),
    }
}

/// Names the nodes, where the next line has names.
fn read_names(alloc: Global, lines: &mut FileLines<'_>, net: &mut Net) -> Result<(), FileFault>
    requires { net.old.names ≡ [] }
    ensures ok { OnOk result
        (names_line net.old.nodes lines.old.lines ≡ Ok (net.new.names, lines.new.lines)) }
    ensures end { OnOk result (lines.new.end ≡ lines.old.end) }
    ensures kept { OnOk result (net.new ≡ record net.old { names = net.new.names }) }
    ensures fault { IfErr result (FailsWith (names_line net.old.nodes lines.old.lines)) }
{
    let Some(mut line) = lines.next_line_of(b"names") else {
        return Ok(());
    };
    let number = line.number;
    let names = match names_form(alloc, net.nodes(), &mut line.tokens) {
        Ok(names) => names,
        Err(fault) => return Err(names_fault(number, fault)),
    };
    let Ok(names) = owned_names(alloc, &names) else {
        return Err(FileFault::Memory);
    };
    match net.set_names(names) {
        Ok(()) => Ok(()),
        Err(NetFault::NameTwice { .. }) => Err(FileFault::NameTwice { line: number }),
        Err(_) => Err(FileFault::Memory),
    }
}
