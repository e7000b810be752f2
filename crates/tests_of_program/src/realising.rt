//! Intervals of networks over Allen's calculus, and the answers of networks that have none.
use crate::runs::expect_code;
use std::test::Fail;

/// The words, the network, the text that is written, and the exit code.
const INTERVALS: [(&[&str], &str, &str, u8); 9] = [
    (
        &["intervals"],
        "nodes 3\n0 1 ( m )\n1 2 ( d )\n0 2 ( b m o )\n.\n",
        "yes 0\n0 0 2\n1 2 3\n2 1 4\n",
        0,
    ),
    (
        &["intervals"],
        "nodes 2\nnames ( x y )\nx y ( eq )\n.\n",
        "yes 0\nx 0 1\ny 0 1\n",
        0,
    ),
    (
        &["intervals", "--workers", "4"],
        "nodes 2\n.\n",
        "yes 1\n0 0 1\n1 2 3\n",
        0,
    ),
    (&["intervals"], "nodes 1\n.\n", "yes 0\n0 0 1\n", 0),
    (
        &["intervals"],
        "nodes 3\n0 1 ( b )\n1 2 ( b )\n0 2 ( bi )\n.\n",
        "no 0\n",
        1,
    ),
    (
        &["intervals", "--budget=0"],
        "nodes 2\n.\n",
        "budget 0\n",
        7,
    ),
    (
        &["intervals"],
        "nodes 2\n0 1 ( TPP )\n.\n",
        "refused 19 2\n",
        3,
    ),
    (&["intervals", "--class", "h8"], "", "usage\n", 2),
    (&["intervals", "allen"], "", "usage\n", 2),
];

#[test]
fn networks_have_intervals(rt: HostRuntime) -> Result<(), Fail> {
    for (words, source, text, code) in INTERVALS {
        expect_code(&rt, words, &[], source, text, code)?;
    }
    Ok(())
}

#[test]
fn a_faulty_class_is_refused_before_the_network_is_read(rt: HostRuntime) -> Result<(), Fail> {
    let words = ["intervals", "--class", "class"];
    let class: &[u8] = b"( b )\n( x )\n.\n";
    expect_code(&rt, &words, &[("class", class)], "", "refused 21 2\n", 3)
}
