//! What polygons draw is a scenario: their relations of RCC-8 agree along every third polygon.
//!
//! The table of RCC-8 says what follows for two regions from how both lie to a third. That it holds of drawn
//! polygons needs three facts of one ring: a point in or out of it has a box round it whose points are all in
//! or all out, every box round a point of its boundary has points in and out, and some point is in it. No
//! further geometry is used, so the table is that of all regions of which these hold.
//!
//! ```text
//! let scenario = drawn(rt, alloc, &polygons)?;     // a base relation for each pair, in edge order
//! let net = scene(rt, alloc, &polygons)?;          // the same as a network, with their names
//! ```
#![tactic(auto)]

mod bases;
mod drawing;
mod ends;
mod laws;
mod scenes;

pub use drawing::drawn;
pub use laws::{laws_of_drawings, laws_of_scenes};
pub use scenes::scene;
