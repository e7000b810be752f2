//! What the commands read, each input from the words that name it, and how a run ends where one is refused.
//!
//! ```text
//! let searched = read_searched(alloc, &mut shelf, &request)?;      // the calculus, its class, the polygons
//! let net = placed_network(rt, alloc, &mut source, &searched.guided.calculus, &searched.polygons)?;
//! ```
//!
//! A fault of an input is a [`Stop`] with a number and a place, and the first input that has one decides.
#![tactic(auto)]

mod claims;
mod classes;
mod inputs;
mod placing;
mod polygons;
mod searches;
mod statuses;
mod stops;
mod texts;

pub use claims::{Claimed, read_claimed};
pub use classes::{GuidedCalculus, calculus_and_class, class};
pub use inputs::{calculus, network};
pub use placing::placed_network;
pub use polygons::{Polygons, Related, read_drawn, read_related};
pub use searches::{Searched, read_searched};
pub use statuses::{Place, Status};
pub use stops::Stop;
