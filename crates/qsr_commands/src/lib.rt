//! The commands: what each makes of its inputs, written whole, and the script of sessions, answered as it is read.
//!
//! ```text
//! let answer = close_answer(rt, alloc, &request, &mut shelf, &mut source, gate);
//! let status = write_answer(alloc, &mut sink, answer);
//! ```
#![tactic(auto)]

mod commands;
mod serving;
mod writing;

pub use commands::{
    check_answer, close_answer, demo_answer, intervals_answer, minimal_answer, relate_answer,
    scene_answer, solve_answer, trace_answer,
};
pub use serving::serve_script;
pub use writing::write_answer;
