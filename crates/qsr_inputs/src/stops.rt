//! Why a command returns no answer, and the number with which each fault of an input is refused.
ghost use Rattle.std.specs.Prelude.{◌≡◌, Some};
ghost use Rattle.qsr_inputs.specs.Numbers.{class_refusal, file_refusal, load_refusal, table_refusal};
ghost use Rattle.qsr_inputs.specs.Numbers.{cert_refusal, fact_refusal, geo_refusal, ring_refusal};
ghost use Rattle.qsr_inputs.specs.Numbers.{no_polygon_refusal};
ghost use Rattle.qsr_inputs.specs.Numbers.{missing_place, no_place, place_of_one, place_of_two, place_of_three};
ghost use Rattle.qsr_inputs.specs.Stops.{stop_of, stop_of_reading};

use crate::statuses::Place;
use calculus_load::LoadFault;
use calculus_table::TableFault;
use cert_file::CertFault;
use geo_facts::{FactFault, GeoFault};
use network_file::FileFault;
use poly_exact::RingFault;
use qsr_outside::ReadStop;
use tract_classes::ClassFault;

/// Why a command returns no answer.
#[derive(Clone, Copy, Debug, PartialEq, Eq)]
pub enum Stop {
    /// An input is refused, for the numbered reason at this place.
    Refused { number: u32, place: Place },
    /// An input is longer than the limit.
    TooLong,
    /// A source or a shelf failed.
    ReadFault,
    /// Memory ran out.
    Memory,
}

/// The stop of a command whose input was not read to its end.
pub(crate) fn stop_of_reading(stop: ReadStop) -> Stop
    ensures { result ≡ stop_of_reading stop }
{
    match stop {
        ReadStop::ReadFault => Stop::ReadFault,
        ReadStop::TooLong => Stop::TooLong,
        ReadStop::Memory => Stop::Memory,
    }
}

/// The stop for a fault of a network file.
pub(crate) fn file_stop(fault: FileFault) -> Stop
    ensures { result ≡ stop_of (file_refusal fault) }
{
    match fault {
        FileFault::Nodes { line } => refused_at(14, line),
        FileFault::NoNode { line } => refused_at(15, line),
        FileFault::SelfEdge { line } => refused_at(16, line),
        FileFault::NameTwice { line } => refused_at(17, line),
        FileFault::Syntax { line } => refused_at(18, line),
        FileFault::Unknown { line } => refused_at(19, line),
        FileFault::NoEnd { lines } => refused_at(20, lines),
        FileFault::Memory => Stop::Memory,
    }
}

/// The stop for a fault of a table file.
pub(crate) fn load_stop(fault: LoadFault) -> Stop
    ensures { result ≡ stop_of (load_refusal fault) }
{
    match fault {
        LoadFault::Table(fault) => table_stop(fault),
        LoadFault::Syntax { line } => refused_at(9, line),
        LoadFault::Unknown { line } => refused_at(10, line),
        LoadFault::Missing { r, s } => Stop::Refused {
            number: 11,
            place: missing_place(r, s),
        },
        LoadFault::Twice { line } => refused_at(12, line),
        LoadFault::TooMany { line } => refused_at(13, line),
        LoadFault::Memory => Stop::Memory,
    }
}

/// The stop for a fault of a class file.
pub(crate) fn class_stop(fault: ClassFault) -> Stop
    ensures { result ≡ stop_of (class_refusal fault) }
{
    match fault {
        ClassFault::Syntax { line } => refused_at(21, line),
        ClassFault::LacksBase { r } => refused_at(22, r),
        ClassFault::NotClosed { a, b, op } => refused_at_three(23, a, b, u64::from(op)),
        ClassFault::TooMany { line } => refused_at(24, line),
        ClassFault::Memory => Stop::Memory,
    }
}

/// The stop for bytes that are no certificate.
pub(crate) fn cert_stop(fault: CertFault) -> Stop
    ensures { result ≡ stop_of (cert_refusal fault) }
{
    match fault {
        CertFault::NotJson => Stop::Refused {
            number: 31,
            place: Place::none(),
        },
        CertFault::Field { field, index } => refused_at_two(32, field, index),
        CertFault::Memory => Stop::Memory,
    }
}

/// The stop for a fault of a polygon file.
pub(crate) fn geo_stop(fault: GeoFault) -> Stop
    ensures { result ≡ stop_of (geo_refusal fault) }
{
    match fault {
        GeoFault::Syntax { line } => refused_at(38, line),
        GeoFault::Hole { line } => refused_at(39, line),
        GeoFault::Open { line } => refused_at(40, line),
        GeoFault::NameTwice { line } => refused_at(41, line),
        GeoFault::ManyPolygons { line } => refused_at(42, line),
        GeoFault::Ring { line, fault } => ring_stop(line, fault),
        GeoFault::Memory => Stop::Memory,
    }
}

/// The stop for a line whose points are no ring.
fn ring_stop(line: u32, fault: RingFault) -> Stop
    ensures { result ≡ stop_of (ring_refusal line fault) }
{
    match fault {
        RingFault::Few => refused_at(33, line),
        RingFault::Coordinate { k } => refused_at_two(34, line, k),
        RingFault::NotSimple { e, f } => {
            refused_at_three(35, u64::from(line), u64::from(e), u64::from(f))
        }
        RingFault::ManyVertices => refused_at(36, line),
        RingFault::Memory => Stop::Memory,
    }
}

/// The stop for a polygon file without a polygon.
pub(crate) fn no_polygon_stop() -> Stop
    ensures { result ≡ stop_of (Some no_polygon_refusal) }
{
    Stop::Refused {
        number: 52,
        place: Place::none(),
    }
}

/// The stop for a polygon whose name is no node's.
pub(crate) fn fact_stop(fault: FactFault) -> Stop
    ensures { result ≡ stop_of (fact_refusal fault) }
{
    match fault {
        FactFault::NoNode { at } => refused_at(43, at),
        FactFault::Memory => Stop::Memory,
    }
}

/// The stop for a text that is no pattern, by its first wrong byte.
pub(crate) fn pattern_stop(byte: u32) -> Stop
    ensures { result ≡ Stop.Refused 37 (place_of_one byte) }
{
    refused_at(37, byte)
}

/// The stop for a fault of a table of numbers.
fn table_stop(fault: TableFault) -> Stop
    ensures { result ≡ stop_of (table_refusal fault) }
{
    match fault {
        TableFault::NameTwice { at } => refused_at(4, at),
        TableFault::NotInvolution { r } => refused_at(5, r),
        TableFault::IdentityLaw { r } => refused_at(6, r),
        TableFault::ConverseLaw { r, s, t } => refused_at_bases(7, r, s, t),
        TableFault::CycleLaw { r, s, t } => refused_at_bases(8, r, s, t),
        TableFault::Memory => Stop::Memory,
    }
}

/// A refusal at a place of one number.
fn refused_at(number: u32, at: u32) -> Stop
    ensures { result ≡ Stop.Refused number (place_of_one at) }
{
    Stop::Refused {
        number,
        place: Place::at(u64::from(at)),
    }
}

/// A refusal at a place of two numbers.
fn refused_at_two(number: u32, a: u32, b: u32) -> Stop
    ensures { result ≡ Stop.Refused number (place_of_two a b) }
{
    Stop::Refused {
        number,
        place: Place::at_two(u64::from(a), u64::from(b)),
    }
}

/// A refusal at three base relations.
fn refused_at_bases(number: u32, r: u32, s: u32, t: u32) -> Stop
    ensures { result ≡ Stop.Refused number (place_of_three r s t) }
{
    refused_at_three(number, u64::from(r), u64::from(s), u64::from(t))
}

/// A refusal at a place of three numbers.
fn refused_at_three(number: u32, a: u64, b: u64, c: u64) -> Stop
    ensures { result ≡ Stop.Refused number (place_of_three a b c) }
{
    Stop::Refused {
        number,
        place: Place { count: 3, a, b, c },
    }
}

/// The place of a converse that is missing, or of a composition.
fn missing_place(r: u32, s: Option<u32>) -> Place
    ensures { result ≡ missing_place r s }
{
    match s {
        None => Place::at(u64::from(r)),
        Some(s) => Place::at_two(u64::from(r), u64::from(s)),
    }
}
