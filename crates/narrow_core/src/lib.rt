//! Words that several actors narrow, as one state and a list of events.
//!
//! Threads that narrow the words of one network without a lock do it by single steps: a load, or an
//! "and" with a set. However their steps interleave, they are one list of [`Event`]s of a [`Core`].
//! `specs/Bound.antt` says what every allowed event keeps, and `laws_of_schedules` that every list of
//! events does:
//!
//! ```text
//! let mut core = Core::new(alloc, &net, 2)?;
//! let events = [Event::Split { actor: 0, left: 1 }, Event::Read { actor: 1, edge: 0 }];
//! let made = core.run(&c, &events)?;
//! ```
#![tactic(auto)]

mod actor;
mod event;
mod laws;
mod lists;
mod machine;

pub use actor::Actor;
pub use event::Event;
pub use laws::laws_of_schedules;
pub use machine::Core;
