//! Labels of the base relations of networks, and what they leave of the closure.
use crate::runs::expect_code;
use std::test::Fail;

/// The words, the network, the text that is written, and the exit code.
const LABELS: [(&[&str], &str, &str, u8); 9] = [
    (
        &["minimal", "rcc8"],
        "nodes 3\n0 1 ( TPP )\n1 2 ( NTPP )\n.\n",
        "labels 3 0 0\nnodes 3\n0 1 ( TPP )\n0 2 ( NTPP )\n1 2 ( NTPP )\n.\n",
        0,
    ),
    (
        &["minimal", "rcc8"],
        "nodes 1\n.\n",
        "labels 0 0 0\nnodes 1\n.\n",
        0,
    ),
    // a closure whose sets are empty has no labels
    (
        &["minimal", "rcc8", "--workers", "4"],
        "nodes 3\n0 1 ( NTPP )\n1 2 ( NTPP )\n0 2 ( DC )\n.\n",
        "labels 0 0 0\nnodes 3\n0 1 ( )\n0 2 ( )\n1 2 ( )\n.\n",
        1,
    ),
    // a closed network of points that isn't minimal, after van Beek (1990)
    (
        &["minimal", "point"],
        "nodes 4\n0 1 ( < = )\n0 2 ( < = )\n0 3 ( < = )\n1 2 ( < > )\n1 3 ( < = )\n2 3 ( < = )\n.\n",
        "labels 11 1 0\nnodes 4\n0 1 ( < = )\n0 2 ( < = )\n0 3 ( < )\n1 2 ( < > )\n1 3 ( < = )\n2 3 ( < = )\n.\n",
        0,
    ),
    (
        &["minimal", "rcc8", "--budget=0"],
        "nodes 2\n0 1 ( TPP DC )\n.\n",
        "labels 2 0 0\nnodes 2\n0 1 ( DC TPP )\n.\n",
        0,
    ),
    (
        &["minimal", "rcc8"],
        "nodes 2\n0 1 ( m )\n.\n",
        "refused 19 2\n",
        3,
    ),
    (&["minimal", "allen", "--class", "h8"], "", "usage\n", 2),
    (&["minimal"], "", "usage\n", 2),
    (&["minimal", "rcc8", "--cert"], "", "usage\n", 2),
];

#[test]
fn networks_are_labelled(rt: HostRuntime) -> Result<(), Fail> {
    for (words, source, text, code) in LABELS {
        expect_code(&rt, words, &[], source, text, code)?;
    }
    Ok(())
}

/// A calculus of two symmetric relations, in which of three things no two pairs more have the same one.
const RAMSEY: &[u8] = b"names ( id a b )
identity id
id :: id
a :: a
b :: b
id : id :: ( id )
id : a :: ( a )
id : b :: ( b )
a : id :: ( a )
a : a :: ( id b )
a : b :: ( a b )
b : id :: ( b )
b : a :: ( a b )
b : b :: ( id a )
.
";

/// Six things, each two of which have one of both: closing leaves all, and there is no scenario.
const SIX: &str = "nodes 6
0 1 ( a b )
0 2 ( a b )
0 3 ( a b )
0 4 ( a b )
0 5 ( a b )
1 2 ( a b )
1 3 ( a b )
1 4 ( a b )
1 5 ( a b )
2 3 ( a b )
2 4 ( a b )
2 5 ( a b )
3 4 ( a b )
3 5 ( a b )
4 5 ( a b )
.
";

/// The same without a base relation that is left, and with all.
const NONE_LEFT: &str = "labels 0 30 0
nodes 6
0 1 ( )
0 2 ( )
0 3 ( )
0 4 ( )
0 5 ( )
1 2 ( )
1 3 ( )
1 4 ( )
1 5 ( )
2 3 ( )
2 4 ( )
2 5 ( )
3 4 ( )
3 5 ( )
4 5 ( )
.
";

const ALL_OPEN: &str = "labels 0 0 30
nodes 6
0 1 ( a b )
0 2 ( a b )
0 3 ( a b )
0 4 ( a b )
0 5 ( a b )
1 2 ( a b )
1 3 ( a b )
1 4 ( a b )
1 5 ( a b )
2 3 ( a b )
2 4 ( a b )
2 5 ( a b )
3 4 ( a b )
3 5 ( a b )
4 5 ( a b )
.
";

#[test]
fn labels_are_refuted_or_open(rt: HostRuntime) -> Result<(), Fail> {
    let table = [("ramsey", RAMSEY)];
    let words = ["minimal", "ramsey"];
    expect_code(&rt, &words, &table, SIX, NONE_LEFT, 1)?;
    let words = ["minimal", "ramsey", "--budget", "0", "--workers", "2"];
    expect_code(&rt, &words, &table, SIX, ALL_OPEN, 7)
}

#[test]
fn a_faulty_class_is_refused_before_the_network_is_read(rt: HostRuntime) -> Result<(), Fail> {
    let words = ["minimal", "allen", "--class", "class"];
    let class: &[u8] = b"( b )\n( x )\n.\n";
    expect_code(&rt, &words, &[("class", class)], "", "refused 21 2\n", 3)
}
