//! Why a text is no polygon file, and why polygons have no facts.
use poly_exact::RingFault;
use thiserror::Error;

/// Why a text is no polygon file. The first faulty line decides, and of a line the first of these.
#[derive(Clone, Copy, Debug, PartialEq, Eq, Error)]
pub enum GeoFault {
    /// The line isn't a name, the word `POLYGON` and a ring in double brackets.
    #[error("line {line} isn't the name and the ring of a polygon")]
    Syntax { line: u32 },
    /// The polygon has a further ring, and is well formed otherwise.
    #[error("line {line} has a polygon with a hole")]
    Hole { line: u32 },
    /// The line has one polygon too many.
    #[error("line {line} has one polygon too many")]
    ManyPolygons { line: u32 },
    /// An earlier polygon has this name.
    #[error("line {line} has the name of an earlier polygon")]
    NameTwice { line: u32 },
    /// The last point of the ring isn't its first.
    #[error("line {line} has a ring that isn't closed")]
    Open { line: u32 },
    /// The points of the line are no simple ring, for a cause other than memory.
    #[error("line {line} has no simple ring: {fault:?}")]
    Ring { line: u32, fault: RingFault },
    /// Out of memory.
    #[error("out of memory")]
    Memory,
}

/// Why polygons have no facts in a network.
#[derive(Clone, Copy, Debug, PartialEq, Eq, Error)]
pub enum FactFault {
    /// The name of the polygon at place `at`, from 0, is the name of no node. It is the first such polygon.
    #[error("polygon {at} has the name of no node")]
    NoNode { at: u32 },
    /// Out of memory.
    #[error("out of memory")]
    Memory,
}
