//! The canonical text of a network.
//!
//! Everything is appended to one text. The digits of a node's number are appended one by one, and the line of a set is
//! made once and copied wherever it recurs, so the line of an edge costs one copy.
ghost use Rattle.std.specs.Prelude.{◌≡◌, ◌≢◌, ◌<◌, ◌≤◌, [], ◌++◌, codes, OnOk, IfOk};
ghost use Rattle.std.specs.Fmt.{decimal};
ghost use Rattle.std.specs.String.{string_bytes};
ghost use Rattle.qsr_lex.specs.Printed.{word_text};
ghost use Rattle.network_words.specs.declared.TheConstants.{MAX_NODES};
ghost use Rattle.network_file.specs.NetworkText.{edge_line, row_text, names_text, network_text};

use calculus_table::{Calculus, Memory};
use named_sets::SetWriter;
use network_words::Net;
use std::alloc::{AllocError, Global};

/// How many bytes an edge's line seldom has more than, over a small calculus.
const LINE_LEN: usize = 48;

/// The canonical text of a network, whose sets are written by the names of `c`.
pub fn text(alloc: Global, net: &Net, c: &Calculus) -> Result<String, Memory>
    ensures { IfOk result (λ text. string_bytes text ≡ network_text c.now net.now) }
{
    let mut text = String::with_capacity(alloc, likely_len(net)).map_err(|_| Memory)?;
    let mut sets = SetWriter::new(alloc, c)?;
    push_network(&mut text, net, &mut sets)?;
    Ok(text)
}

/// About how many bytes the text has, so that it is seldom copied while it grows.
fn likely_len(net: &Net) -> usize {
    net.words()
        .len()
        .saturating_mul(LINE_LEN)
        .saturating_add(64)
}

/// Appends the header, the names, a line for each edge, and the end line.
fn push_network(text: &mut String, net: &Net, sets: &mut SetWriter<'_>) -> Result<(), Memory>
    ensures { OnOk result
        (string_bytes text.new ≡ string_bytes text.old ++ network_text sets.old net.now) }
{
    push_header(text, net).map_err(|_| Memory)?;
    for i in 0..net.nodes() {
        push_row(text, net, sets, i)?;
    }
    text.push_str(".\n").map_err(|_| Memory)?;
    Ok(())
}

/// Appends the line of the number of nodes and that of their names.
fn push_header(text: &mut String, net: &Net) -> Result<(), AllocError>
    ensures { OnOk result (string_bytes text.new ≡ string_bytes text.old
        ++ codes "nodes " ++ decimal net.now.nodes ++ codes "\n" ++ names_text net.now) }
{
    writeln!(text, "nodes {}", net.nodes())?;
    push_names(text, net)?;
    Ok(())
}

/// Appends the line of the nodes' names, where they have names.
fn push_names(text: &mut String, net: &Net) -> Result<(), AllocError>
    ensures { OnOk result
        (string_bytes text.new ≡ string_bytes text.old ++ names_text net.now) }
{
    let nodes = net.nodes();
    if net.name(0).is_none() {
        return Ok(());
    }
    text.push_str("names ( ")?;
    for node in 0..nodes {
        push_name(text, net, node)?;
    }
    text.push_str(")\n")?;
    Ok(())
}

/// Appends the name of a node and a space.
fn push_name(text: &mut String, net: &Net, node: u32) -> Result<(), AllocError>
    requires below { node < net.now.nodes }
    requires named { net.now.names ≢ [] }
    ensures { OnOk result
        (string_bytes text.new ≡ string_bytes text.old ++ word_text net.now.names node) }
{
    if let Some(name) = net.name(node) {
        write!(text, "{name} ")?;
    }
    Ok(())
}

/// Appends the lines of the edges from `i`.
fn push_row(text: &mut String, net: &Net, sets: &mut SetWriter<'_>, i: u32) -> Result<(), Memory>
    requires below { i < net.now.nodes }
    ensures text { OnOk result
        (string_bytes text.new ≡ string_bytes text.old ++ row_text sets.old net.now i) }
    ensures sets { sets.new ≡ sets.old }
{
    let nodes = net.nodes();
    for j in i + 1..nodes {
        push_edge(text, net, sets, i, j)?;
    }
    Ok(())
}

/// Appends the line of an edge.
fn push_edge(
    text: &mut String,
    net: &Net,
    sets: &mut SetWriter<'_>,
    i: u32,
    j: u32,
) -> Result<(), Memory>
    requires order { i < j }
    requires below { j < net.now.nodes }
    requires few { net.now.nodes ≤ MAX_NODES }
    ensures text { OnOk result
        (string_bytes text.new ≡ string_bytes text.old ++ edge_line sets.old net.now i j) }
    ensures sets { sets.new ≡ sets.old }
{
    let Ok(()) = push_nodes(text, i, j) else {
        return Err(Memory);
    };
    sets.push_line(text, net.word(net.edge(i, j)))?;
    Ok(())
}

/// Appends the numbers of two nodes, with a space after each.
#[inline(always)]
fn push_nodes(text: &mut String, i: u32, j: u32) -> Result<(), AllocError>
    requires { (i < 1000) × (j < 1000) }
    ensures { OnOk result (string_bytes text.new
        ≡ string_bytes text.old ++ decimal i ++ codes " " ++ decimal j ++ codes " ") }
{
    push_number(text, i)?;
    push_number(text, j)?;
    Ok(())
}

/// Appends the number of a node and a space.
#[inline(always)]
fn push_number(text: &mut String, node: u32) -> Result<(), AllocError>
    requires { node < 1000 }
    ensures { OnOk result
        (string_bytes text.new ≡ string_bytes text.old ++ decimal node ++ codes " ") }
{
    push_three_digits(text, node)?;
    text.push(' ')?;
    Ok(())
}

/// Appends a number of three digits at most.
#[inline(always)]
fn push_three_digits(text: &mut String, number: u32) -> Result<(), AllocError>
    requires { number < 1000 }
    ensures { OnOk result (string_bytes text.new ≡ string_bytes text.old ++ decimal number) }
{
    if number < 100 {
        return push_two_digits(text, number);
    }
    push_two_digits(text, number / 10)?;
    push_digit(text, number % 10)?;
    Ok(())
}

/// Appends a number of two digits at most.
#[inline(always)]
fn push_two_digits(text: &mut String, number: u32) -> Result<(), AllocError>
    requires { number < 100 }
    ensures { OnOk result (string_bytes text.new ≡ string_bytes text.old ++ decimal number) }
{
    if number < 10 {
        return push_digit(text, number);
    }
    push_digit(text, number / 10)?;
    push_digit(text, number % 10)?;
    Ok(())
}

/// Appends a number of one digit.
#[inline(always)]
fn push_digit(text: &mut String, number: u32) -> Result<(), AllocError>
    requires { number < 10 }
    ensures { OnOk result (string_bytes text.new ≡ string_bytes text.old ++ decimal number) }
{
    text.push(char::from(b'0' + number as u8))?;
    Ok(())
}
