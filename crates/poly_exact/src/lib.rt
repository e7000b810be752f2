//! Simple rings of whole-number vertices, and where points lie to them, exactly.
//!
//! A ring is a list of vertices, the last of which is joined to the first. A rational point is on it where it lies on
//! an edge, and in it where it is not on it and an odd number of edges crosses the ray from the point to the right. An
//! edge counts its lower end and not its upper one, so that a ray through a vertex is counted right, and level edges
//! never count.
//!
//! [`Ring::new`] drops repeated points and accepts exactly the simple rings of 3 to 256 vertices within the limits. A
//! ring keeps what those who compare rings ask for again and again: on which side of each edge its inside lies, and
//! rectangles round its edges. All of it is computed in 64 bits, without a fraction and without rounding.
#![tactic(auto)]

mod checks;
mod edges;
mod laws;
mod locations;
mod points;
mod rects;
mod rings;

pub use edges::{Meeting, are_apart, meet, reach_at, turn_at};
pub use laws::laws_of_rings;
pub use locations::{Location, locate};
pub use points::{Frac, HalfPoint, Point, orient};
pub use rects::{BLOCK, Rect, block_stop, is_off, next_index};
pub use rings::{Memory, Outline, Ring, RingFault, is_small};
