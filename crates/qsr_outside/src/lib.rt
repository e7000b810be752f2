//! The outside of the reasoner: where bytes come from and where they go.
//!
//! Sources, sinks, shelves and gates are traits whose ghost members are their meaning. Code above is
//! generic over them, and is proved against that meaning alone. Three forms in memory stand in for
//! real streams in tests.
#![tactic(auto)]

mod bytes_sink;
mod bytes_source;
mod calls;
mod failures;
mod fetching;
mod gates;
mod map_shelf;
mod reading;
mod shelves;
mod writing;

pub use bytes_sink::BytesSink;
pub use bytes_source::BytesSource;
pub use failures::{Failed, Memory};
pub use fetching::fetch;
pub use gates::{Gate, NoGate};
pub use map_shelf::MapShelf;
pub use reading::{ReadStop, Source, read_all};
pub use shelves::Shelf;
pub use writing::{Sink, WriteStop, write_all};
