//! What each command makes of its input: the text that is to be written, and the status of the run.
//!
//! ```text
//! let answer = closed_answer(rt, alloc, net, &calculus, named, &gate)?;        // the closure's text, and done or no
//! ```
//!
//! The input is had from `qsr_inputs`; nothing is read here, and nothing is written.
#![tactic(auto)]

mod answers;
mod checking;
mod closing;
mod demonstrating;
mod failures;
mod labelling;
mod realising;
mod relating;
mod searching;
mod sharing;
mod sketching;
mod solving;
mod tracing;

pub use answers::{Answer, refused, usage};
pub use checking::checked_answer;
pub use closing::closed_answer;
pub use demonstrating::demonstration;
pub use labelling::labelled_answer;
pub use realising::realised_answer;
pub use relating::text_of_pairs;
pub use sketching::scene_text;
pub use solving::solved_answer;
pub use tracing::traced_answer;
