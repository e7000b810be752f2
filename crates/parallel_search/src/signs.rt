//! What the workers of a round are told. A hint alone: nothing is promised of it, and no contract rests on it.

use std::sync::atomic::{AtomicBool, Ordering};

/// Whether a round ends.
#[derive(Drop)]
pub(crate) struct Signs {
    ended: AtomicBool,
}

impl Signs {
    /// Before the first round.
    pub(crate) fn new() -> Signs {
        Signs {
            ended: AtomicBool::new(true),
        }
    }

    /// A round begins.
    pub(crate) fn begin(&self) {
        self.ended.store(false, Ordering::SeqCst);
    }

    /// The round ends.
    pub(crate) fn end(&self) {
        self.ended.store(true, Ordering::SeqCst);
    }

    /// Whether it ends.
    pub(crate) fn is_ended(&self) -> bool {
        self.ended.load(Ordering::SeqCst)
    }
}
