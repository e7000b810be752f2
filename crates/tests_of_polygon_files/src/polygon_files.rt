//! Polygon files and their faults, the relations of polygons, their facts, and drawn networks.
ghost use Rattle.std.specs.Prelude.{◌≤◌, IfOk, length, map};
ghost use Rattle.calculus_table.specs.Calculus.{AreDistinct};
ghost use Rattle.geo_facts.specs.PolygonFile.{named_ring, names_of};
ghost use Rattle.geo_facts.specs.declared.TheConstants.{MAX_POLYGONS};

use crate::asserts::{assert_same, assert_same_in};
use calculus_table::Rel;
use de9im::{Matrix, matrix};
use geo_facts::{FactFault, GeoFault, Polygon, demo_net, facts, rcc8, read_polygons};
use network_words::{Fact, MAX_NODES, Net};
use poly_exact::RingFault;
use qsr_lex::MAX_TEXT;
use std::alloc::Global;
use std::process::Abort;
use std::test::Fail;
use std::thread::Threads;

/// The names of the base relations, in the order of their numbers.
const NAMES: [&str; 8] = ["DC", "EC", "PO", "TPP", "NTPP", "TPPi", "NTPPi", "EQ"];

/// Squares and other polygons by their names.
const A: &str = "a POLYGON ((0 0, 10 0, 10 10, 0 10, 0 0))\n";

const B: &str = "b POLYGON ((0 0, 5 0, 5 5, 0 5, 0 0))\n";

const C: &str = "c POLYGON ((2 2, 4 2, 4 4, 2 4, 2 2))\n";

const D: &str = "d polygon ((10 10, 10 0, 5 0, 0 0, 0 10, 10 10))\n";

const E: &str = "e Polygon((10 10,20 10,20 20,10 20,10 10))\n";

const G: &str = "g POLYGON ((5 5, 15 5, 15 15, 5 15, 5 5))\n";

const Y: &str = "y POLYGON ((0 0, 0 0, 4 0, 4 0, 0 4, 0 0))\n";

const Z: &str = "z POLYGON ((0 0, 4.0 0, +0 4, -0 0.00)) # the same as y\n";

/// The polygons of a text.
fn polygons(alloc: Global, text: &str) -> Result<Vec<Polygon>, GeoFault>
    ensures few { IfOk result (λ polygons. length polygons.items ≤ MAX_POLYGONS) }
    ensures distinct { IfOk result (λ polygons. AreDistinct (names_of (map named_ring polygons.items))) }
{
    if text.len() > MAX_TEXT {
        return Err(GeoFault::Memory);
    }
    read_polygons(alloc, text.as_bytes())
}

/// A matrix and the relation that it says.
fn named(rt: &(impl Abort + AllocGlobal), m: &Matrix) -> Result<String, Fail> {
    let rel = rcc8(m);
    assert!(rt; rel.count() == 1);
    let name = NAMES
        .get(rel.least() as usize)
        .expect(rt, "a base relation");
    let text = m.text(rt.alloc()).ok().expect(rt, "memory");
    Ok(format!(in rt.alloc(); "{text} {name}")?)
}

/// The matrix and the relation of the first two polygons of a text.
fn related(rt: &(impl Abort + AllocGlobal), text: &str) -> Result<String, Fail> {
    let found = polygons(rt.alloc(), text)?;
    assert!(rt; found.len() == 2, "{text}");
    let m = matrix(&found[0].ring, &found[1].ring)
        .ok()
        .expect(rt, "memory");
    named(rt, &m)
}

/// Two polygons, their matrix and relation.
const RELATED: [(&str, &str, &str); 10] = [
    (A, B, "212F11FF2 TPPi"),
    (A, C, "212FF1FF2 NTPPi"),
    (C, B, "2FF1FF212 NTPP"),
    (B, A, "2FF11F212 TPP"),
    (A, D, "2FFF1FFF2 EQ"),
    (A, E, "FF2F01212 EC"),
    (D, E, "FF2F01212 EC"),
    (A, G, "212101212 PO"),
    (C, E, "FF2FF1212 DC"),
    (Y, Z, "2FFF1FFF2 EQ"),
];

#[test]
fn polygons_have_matrices_and_relations(rt: HostRuntime) -> Result<(), Fail> {
    for (first, second, expected) in RELATED {
        let text = format!(in rt.alloc(); "{first}{second}")?;
        assert_same_in(&rt, related(&rt, &text)?.as_str(), expected, text);
    }
    Ok(())
}

/// The fault of a text, or how many polygons it has.
fn read(alloc: Global, text: &str) -> Result<usize, GeoFault> {
    Ok(polygons(alloc, text)?.len())
}

/// A text, and the line that hasn't the form.
const FORMS: [(&str, u32); 14] = [
    ("z POLYGON EMPTY", 1),
    ("\nz POLYGON Z ((0 0, 9 0, 0 9, 0 0))", 2),
    ("z MULTIPOLYGON ((0 0, 9 0, 0 9, 0 0))", 1),
    ("z POLYGON (0 0, 9 0, 0 9, 0 0)", 1),
    ("z POLYGON (())", 1),
    ("z POLYGON ((0 0, 9 0, 0 9, 0 0) (1 1))", 1),
    ("z POLYGON ((0 0, 9 0, 0 9, 0 0), (1 1, 2 1, 1 2, 1 1", 1),
    ("z POLYGON ((0 0, 9 0, 0 9, 0 0), ())", 1),
    ("z POLYGON ((0 0, 9.5 0, 0 9, 0 0))", 1),
    ("z POLYGON ((0 0, 9 0 0, 0 9, 0 0))", 1),
    ("z POLYGON ((0 0, 9 0, 0 9, 0 0)) .", 1),
    ("7z POLYGON ((0 0, 9 0, 0 9, 0 0))", 1),
    ("POLYGON ((0 0, 9 0, 0 9, 0 0))", 1),
    ("# a plan\n\n.\n", 3),
];

#[test]
fn lines_have_the_form_of_a_polygon(rt: HostRuntime) -> Result<(), Fail> {
    for (text, line) in FORMS {
        let fault = GeoFault::Syntax { line };
        assert_same_in(&rt, read(rt.alloc(), text), Err(fault), text);
    }
    let text = format!(in rt.alloc(); "{A}{B}\x07\n{C}")?;
    let fault = GeoFault::Syntax { line: 3 };
    assert_same(&rt, read(rt.alloc(), &text), Err(fault));
    Ok(())
}

/// A text, and its fault.
const FAULTS: [(&str, GeoFault); 10] = [
    ("z POLYGON ((0 0, 9 0, 0 9))", GeoFault::Open { line: 1 }),
    (
        "z POLYGON ((0 0, 9 0, 0 9, 0 0), (1 1, 2 1, 1 2, 1 1))",
        GeoFault::Hole { line: 1 },
    ),
    ("z POLYGON ((0 0), (1 1))", GeoFault::Hole { line: 1 }),
    (
        "z POLYGON ((0 0, 10 10, 10 0, 0 10, 0 0))",
        GeoFault::Ring {
            line: 1,
            fault: RingFault::NotSimple { e: 0, f: 2 },
        },
    ),
    (
        "z POLYGON ((0 0, 4 0, 2 0, 0 4, 0 0))",
        GeoFault::Ring {
            line: 1,
            fault: RingFault::NotSimple { e: 0, f: 1 },
        },
    ),
    (
        "z POLYGON ((0 0, 1 0, 0 0))",
        GeoFault::Ring {
            line: 1,
            fault: RingFault::Few,
        },
    ),
    (
        "z POLYGON ((0 0))",
        GeoFault::Ring {
            line: 1,
            fault: RingFault::Few,
        },
    ),
    (
        "\nz POLYGON ((0 0, 100000001 0, 0 9, 0 0))",
        GeoFault::Ring {
            line: 2,
            fault: RingFault::Coordinate { k: 1 },
        },
    ),
    (
        "z POLYGON ((0 0, 9 0, 0 -999999999, 1 1))",
        GeoFault::Open { line: 1 },
    ),
    (
        "a POLYGON ((0 0, 9 0, 0 9, 0 0))\na POLYGON ((0 0, 1 1))",
        GeoFault::NameTwice { line: 2 },
    ),
];

#[test]
fn rings_have_faults(rt: HostRuntime) {
    for (text, fault) in FAULTS {
        assert_same_in(&rt, read(rt.alloc(), text), Err(fault), text);
    }
}

/// A line with 257 points on one line, and a last one.
fn many_points(alloc: Global) -> Result<String, Fail> {
    let mut text = String::from_str(alloc, "z POLYGON ((0 0")?;
    for x in 0..257 {
        write!(text, ", {x} 0")?;
    }
    text.push_str(", 0 0))")?;
    Ok(text)
}

#[test]
fn a_ring_has_256_vertices_at_most(rt: HostRuntime) -> Result<(), Fail> {
    let text = many_points(rt.alloc())?;
    let fault = GeoFault::Ring {
        line: 1,
        fault: RingFault::ManyVertices,
    };
    assert_same(&rt, read(rt.alloc(), &text), Err(fault));
    Ok(())
}

#[test]
fn the_first_faulty_line_decides(rt: HostRuntime) -> Result<(), Fail> {
    assert_same(&rt, read(rt.alloc(), ""), Ok(0));
    let text = format!(in rt.alloc(); "{A}# twice\n{A}{B}x")?;
    let fault = GeoFault::NameTwice { line: 3 };
    assert_same(&rt, read(rt.alloc(), &text), Err(fault));
    Ok(())
}

/// Small squares in a row, so many of them.
fn squares(alloc: Global, count: u32) -> Result<String, Fail> {
    let mut text = String::new(alloc);
    for k in 0..count {
        let x = u64::from(k) * 2;
        let line = format!(in alloc;
            "p{k} POLYGON (({x} 0, {} 0, {} 2, {x} 2, {x} 0))\n",
            x + 2,
            x + 2
        )?;
        text.push_str(&line)?;
    }
    Ok(text)
}

/// How many squares there are, what stands after them, and the fault.
const MANY: [(u32, &str, GeoFault); 3] = [
    (129, "", GeoFault::ManyPolygons { line: 129 }),
    (129, "z POLYGON", GeoFault::ManyPolygons { line: 129 }),
    (
        128,
        "p0 POLYGON ((0 0), (1 1))\n",
        GeoFault::Hole { line: 129 },
    ),
];

#[test]
fn a_file_has_128_polygons_at_most(rt: HostRuntime) -> Result<(), Fail> {
    assert_same(&rt, read(rt.alloc(), &squares(rt.alloc(), 128)?), Ok(128));
    for (count, end, fault) in MANY {
        let mut text = squares(rt.alloc(), count)?;
        text.push_str(end)?;
        assert_same_in(&rt, read(rt.alloc(), &text), Err(fault), (count, end));
    }
    Ok(())
}

/// The names `x`, `p0`, `p1` and so on, so many of them.
fn names_of_nodes(alloc: Global, nodes: u32) -> Result<Vec<String>, Fail> {
    let mut names = Vec::new(alloc);
    names.push(String::from_str(alloc, "x")?)?;
    for k in 1..nodes {
        names.push(format!(in alloc; "p{}", k - 1)?)?;
    }
    Ok(names)
}

/// A network without statements whose nodes have these names.
fn net(alloc: Global, nodes: u32) -> Result<Net, Fail> {
    let names = names_of_nodes(alloc, nodes)?;
    let mut net = Net::new(alloc, nodes, Rel::of(255)).map_err(|_| Fail::from("a network"))?;
    if names.len() == net.nodes() as usize {
        net.set_names(names).map_err(|_| Fail::from("names"))?;
    }
    Ok(net)
}

/// The facts of so many squares in a network of so many nodes.
fn stated<R: Threads + Sync + AllocGlobal>(
    rt: &R,
    count: u32,
    nodes: u32,
) -> Result<Result<Vec<Fact>, FactFault>, Fail> {
    let found = polygons(rt.alloc(), &squares(rt.alloc(), count)?)?;
    let net = net(rt.alloc(), nodes)?;
    Ok(facts(rt, rt.alloc(), &found, &net))
}

/// Adds the facts of square `i` and those after it, up to so many.
fn push_facts_of(expected: &mut Vec<Fact>, i: u32, count: u32) -> Result<(), Fail> {
    for j in 1..count {
        if i < j {
            let rel = Rel::single(if j - 1 == i { 1 } else { 0 });
            let (i, j) = (i + 1, j + 1);
            expected.push(Fact { i, j, rel })?;
        }
    }
    Ok(())
}

/// The facts of so many squares: neighbours meet, and others are apart.
fn expected_facts(alloc: Global, count: u32) -> Result<Vec<Fact>, Fail> {
    let mut expected = Vec::new(alloc);
    for i in 0..count {
        push_facts_of(&mut expected, i, count)?;
    }
    Ok(expected)
}

/// How many squares there are, and how many pairs of them, which are cut into no, 1, 1, 15 and 16 pieces, the last of
/// which may be short.
const PAIRS: [(u32, usize); 5] = [(1, 0), (2, 1), (3, 3), (6, 15), (13, 78)];

#[test]
fn each_pair_of_polygons_has_its_fact(rt: HostRuntime) -> Result<(), Fail> {
    for (count, pairs) in PAIRS {
        let found = stated(&rt, count, count.saturating_add(1))?;
        let found = found.ok().expect(&rt, "facts");
        assert_same(&rt, found.len(), pairs);
        let expected = expected_facts(rt.alloc(), count)?;
        assert!(rt; found == expected, "{count}");
    }
    Ok(())
}

/// The number of nodes, and the first of five polygons that is none of them.
const NO_NODES: [(u32, u32); 3] = [(4, 3), (1, 0), (5, 4)];

#[test]
fn a_polygon_that_is_no_node_is_named(rt: HostRuntime) -> Result<(), Fail> {
    for (nodes, at) in NO_NODES {
        let fault = stated(&rt, 5, nodes)?.err();
        assert_same(&rt, fault, Some(FactFault::NoNode { at }));
    }
    Ok(())
}

/// A seed, the number of nodes, the sets of the edges, and how many are kept, as computed by hand from the draws.
const DEMONSTRATIONS: [(u32, u32, &[u64], u32); 4] = [
    (0, 2, &[4], 1),
    (0, 4, &[4, 1, 1, 1, 255, 1], 5),
    (7, 5, &[4, 255, 1, 1, 4, 1, 1, 255, 4, 255], 7),
    (4_294_967_295, 3, &[255, 255, 1], 1),
];

#[test]
fn a_seed_draws_a_network(rt: HostRuntime) {
    for (seed, nodes, words, kept) in DEMONSTRATIONS {
        assert!(rt; nodes >= 2 && nodes <= MAX_NODES);
        let (net, count) = demo_net(rt.alloc(), seed, nodes).ok().expect(&rt, "memory");
        assert_same(&rt, (net.nodes(), count), (nodes, kept));
        assert_same_in(&rt, net.words(), words, seed);
    }
}

/// Does nothing. Who calls it shows that its type can be shared by threads.
fn can_be_shared<T: Send + Sync>() {}

#[test]
fn polygons_can_be_shared() {
    can_be_shared::<Polygon>();
}
