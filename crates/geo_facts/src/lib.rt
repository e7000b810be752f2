//! Polygon files, the RCC-8 relations of polygons, and the facts that they state of a network's nodes.
//!
//! A polygon is a name and a simple ring, one line of a file each, as in well-known text (OGC 06-103r4). Two polygons
//! have the base relation of RCC-8 (Randell, Cui and Cohn 1992) that their DE-9IM matrix says, exactly; it is a fact of
//! the nodes of their names.
//!
//! ```text
//! let polygons = read_polygons(alloc, b"park POLYGON ((0 0, 9 0, 9 9, 0 0))")?;
//! net.add_facts(&c, &facts(rt, alloc, &polygons, &net)?)?;
//! let (net, kept) = demo_net(alloc, 7, 40)?;       // a network of random rectangles
//! ```
#![tactic(auto)]

mod demo;
mod fault;
mod laws;
mod line;
mod polygon;
mod reading;
mod relating;
mod stating;

pub use demo::demo_net;
pub use fault::{FactFault, GeoFault};
pub use laws::{
    laws_of_demo_nets, laws_of_polygon_facts, matrix_has_one_relation, polygon_file_has_one_answer,
};
pub use polygon::Polygon;
pub use reading::read_polygons;
pub use relating::rcc8;
pub use stating::facts;

/// The most polygons of a file.
pub const MAX_POLYGONS: usize = 128;
