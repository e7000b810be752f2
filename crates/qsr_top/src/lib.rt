//! The top call of the reasoner: from words and bytes to bytes and a status.
//!
//! ```text
//! let status = run(&rt, rt.alloc(), &words, &mut shelf, &mut source, &mut sink, &NoGate);
//! ExitCode::from(status.code())
//! ```
#![tactic(auto)]

mod laws;
mod running;

pub use laws::{output_is_one, polygons_agree};
pub use qsr_inputs::{Place, Status};
pub use running::run;
