//! Network files over the calculus of points on a line: which are read, which are refused at which line, and the text
//! of a network.
use crate::asserts::{assert_same, assert_same_in};
use calculus_builtin::point;
use calculus_table::Calculus;
use network_file::FileFault::{NameTwice, NoEnd, NoNode, Nodes, SelfEdge, Syntax, Unknown};
use network_file::{FileFault, read, text};
use network_words::Net;
use qsr_lex::MAX_TEXT;
use std::alloc::Global;
use std::process::Abort;
use std::test::Fail;

/// Reads a text that is no longer than a text may be.
fn read_short(alloc: Global, file: &[u8], c: &Calculus) -> Result<Net, FileFault> {
    if file.len() > MAX_TEXT {
        return Err(FileFault::Memory);
    }
    read(alloc, file, c)
}

/// Reads such a text over the calculus of points.
fn read_points(alloc: Global, file: &[u8]) -> Result<Net, FileFault> {
    let c = point(alloc).map_err(|_| FileFault::Memory)?;
    read_short(alloc, file, &c)
}

/// A file, the nodes of its network, and the sets.
type Read<'a> = (&'a [u8], u32, &'a [u64]);

/// Fails unless the network that was read of the file has so many nodes, and these sets.
fn assert_net(rt: &impl Abort, file: &[u8], net: &Net, nodes: u32, words: &[u64]) {
    assert_same_in(rt, net.nodes(), nodes, file);
    assert_same_in(rt, net.words(), words, file);
}

/// Fails unless each file is read as its network.
fn are_read(rt: &impl Abort, alloc: Global, rows: &[Read]) -> Result<(), FileFault> {
    for (file, nodes, words) in rows {
        assert_net(rt, file, &read_points(alloc, file)?, *nodes, words);
    }
    Ok(())
}

/// Facts, each of which narrows its edge.
const FACTS: [Read; 8] = [
    (b"nodes 1\n.\n", 1, &[]),
    (b"nodes 3\n.", 3, &[7, 7, 7]),
    (b"nodes 3\n0 1 ( < )\n.\n", 3, &[1, 7, 7]),
    (b"nodes 3\n2 0 ( > = )\n.\n", 3, &[7, 3, 7]),
    (b"nodes 2\n0 1 ( < = )\n0 1 ( = > )\n.\n", 2, &[2]),
    (b"nodes 2\n1 0 ( < )\n0 1 ( < )\n.\n", 2, &[0]),
    (b"nodes 2\n0 1 ( )\n.\n", 2, &[0]),
    (b"nodes 2\n0 1 ( < < )\n.\n", 2, &[1]),
];

#[test]
fn facts_are_met(rt: HostRuntime) -> Result<(), Fail> {
    are_read(&rt, rt.alloc(), &FACTS)?;
    Ok(())
}

/// Zeros before numbers, other line ends, blanks, comments and names.
const LOOSE: [Read; 3] = [
    (b"nodes 002\r\n00 01(<)\r\n.\r\n", 2, &[1]),
    (b"# \x80\n\n \tnodes 2 # a\n0 1 (=)#)\n . # .\n# z", 2, &[2]),
    (
        b"nodes 2\nnames ( a names )\nnames a ( < )\n0 names ( > = )\n.\n",
        2,
        &[4],
    ),
];

#[test]
fn names_comments_and_loose_lines_are_read(rt: HostRuntime) -> Result<(), Fail> {
    are_read(&rt, rt.alloc(), &LOOSE)?;
    Ok(())
}

/// A file and its fault.
type Refused<'a> = (&'a [u8], FileFault);

/// Fails unless each file is refused with its fault.
fn are_refused(rt: &impl Abort, alloc: Global, rows: &[Refused]) {
    for (file, fault) in rows {
        assert_same_in(rt, read_points(alloc, file).err(), Some(*fault), file);
    }
}

/// No line of nodes, or too many or too few of them.
const FIRST_LINES: [Refused; 8] = [
    (b".\n", Syntax { line: 1 }),
    (b"nodes\n.\n", Syntax { line: 1 }),
    (b"nodes 2 2\n.\n", Syntax { line: 1 }),
    (b"nodes 1234567890123456789\n.\n", Syntax { line: 1 }),
    (b"nodes 0\n.\n", Nodes { line: 1 }),
    (b"nodes 123456789012345678\n", Nodes { line: 1 }),
    (b"\nnodes 256\n", NoEnd { lines: 2 }),
    (b"\nnodes 257\n", Nodes { line: 2 }),
];

#[test]
fn a_faulty_first_line_is_refused(rt: HostRuntime) {
    are_refused(&rt, rt.alloc(), &FIRST_LINES);
}

/// No list of as many different names as there are nodes, or one that comes too late.
const NAMES: [Refused; 6] = [
    (b"nodes 2\nnames ( a )\n.\n", Syntax { line: 2 }),
    (b"nodes 2\nnames ( a b c )\n.\n", Syntax { line: 2 }),
    (b"nodes 2\nnames ( a 1 )\n.\n", Syntax { line: 2 }),
    (b"nodes 2\nnames ( a b ) .\n", Syntax { line: 2 }),
    (b"nodes 2\nnames ( a a )\n.\n", NameTwice { line: 2 }),
    (
        b"nodes 2\n0 1 ( < )\nnames ( a b )\n.\n",
        Syntax { line: 3 },
    ),
];

#[test]
fn a_faulty_line_of_names_is_refused(rt: HostRuntime) {
    are_refused(&rt, rt.alloc(), &NAMES);
}

/// No two nodes and a set, or no such node or base relation.
const FAULTY_FACTS: [Refused; 12] = [
    (b"nodes 2\na 1 ( < )\n.\n", Syntax { line: 2 }),
    (b"nodes 2\n0 ( < )\n.\n", Syntax { line: 2 }),
    (b"nodes 2\n0 1 <\n.\n", Syntax { line: 2 }),
    (b"nodes 2\n0 1 ( < ) ( = )\n.\n", Syntax { line: 2 }),
    (b"nodes 2\n5 5 ( \"x )\n.\n", Syntax { line: 2 }),
    (b"nodes 2\n0 2 ( x )\n.\n", NoNode { line: 2 }),
    (b"nodes 2\n2 2 ( < )\n.\n", NoNode { line: 2 }),
    (b"nodes 2\n1 1 ( x )\n.\n", SelfEdge { line: 2 }),
    (b"nodes 2\n0 1 ( < x )\n.\n", Unknown { line: 2 }),
    (
        b"nodes 2\nnames ( a b )\na c ( x )\n.\n",
        Unknown { line: 3 },
    ),
    (
        b"nodes 2\nnames ( a b )\nc 2 ( < )\n.\n",
        Unknown { line: 3 },
    ),
    (
        b"nodes 2\nnames ( a b )\n2 c ( < )\n.\n",
        NoNode { line: 3 },
    ),
];

#[test]
fn a_faulty_fact_is_refused(rt: HostRuntime) {
    are_refused(&rt, rt.alloc(), &FAULTY_FACTS);
}

/// No end, more than one, or a byte that no text has.
const ENDS: [Refused; 9] = [
    (b"", NoEnd { lines: 0 }),
    (b"\n#\n", NoEnd { lines: 2 }),
    (b"nodes 2\n0 1 ( < )", NoEnd { lines: 2 }),
    (b"nodes 2\nnames ( a b )\n\n", NoEnd { lines: 3 }),
    (b"nodes 2\n. x\n", Syntax { line: 2 }),
    (b"nodes 2\n.\n.\n", Syntax { line: 3 }),
    (b"nodes 2\n.\n\x80\n", Syntax { line: 3 }),
    (
        b"nodes 2\n0 1 ( < ) \x80\n0 0 ( < )\n.\n",
        Syntax { line: 2 },
    ),
    (b"nodes 2\n0 0 ( < )\n\x80\n", SelfEdge { line: 2 }),
];

#[test]
fn a_faulty_end_or_a_hostile_byte_is_refused(rt: HostRuntime) {
    are_refused(&rt, rt.alloc(), &ENDS);
}

/// The text of the network that the file has.
fn printed(alloc: Global, file: &[u8]) -> Result<String, FileFault> {
    let c = point(alloc).map_err(|_| FileFault::Memory)?;
    let net = read_short(alloc, file, &c)?;
    text(alloc, &net, &c).map_err(|_| FileFault::Memory)
}

/// Files as networks are written.
const PRINTED: [&str; 3] = [
    "nodes 1\n.\n",
    "nodes 3\n0 1 ( < = > )\n0 2 ( )\n1 2 ( < > )\n.\n",
    "nodes 2\nnames ( a b.c )\n0 1 ( = )\n.\n",
];

#[test]
fn a_printed_network_is_read_again(rt: HostRuntime) -> Result<(), Fail> {
    for file in PRINTED {
        assert_same(&rt, printed(rt.alloc(), file.as_bytes())?.as_str(), file);
    }
    Ok(())
}

#[test]
fn the_greatest_network_has_32642_lines(rt: HostRuntime) -> Result<(), Fail> {
    let printed = printed(rt.alloc(), b"nodes 256\n.\n")?;
    assert_same(&rt, printed.as_str().lines().count(), 32_642);
    assert!(rt; printed.ends_with("\n254 255 ( < = > )\n.\n"));
    Ok(())
}

/// A file of one node, after so many empty lines that it has as many bytes as a text may have.
fn greatest_text(rt: &impl Abort, alloc: Global) -> Result<Vec<u8>, Fail> {
    let mut bytes = vec![in alloc; b'\n'; 16_777_207]?;
    bytes.extend_from_slice(b"nodes 1\n.")?;
    assert_same(rt, bytes.len(), 16_777_216);
    Ok(bytes)
}

#[test]
fn a_text_of_the_greatest_length_is_read(rt: HostRuntime) -> Result<(), Fail> {
    let bytes = greatest_text(&rt, rt.alloc())?;
    let net = read_points(rt.alloc(), &bytes)?;
    assert_same(&rt, net.nodes(), 1);
    Ok(())
}
