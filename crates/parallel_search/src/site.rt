//! What all workers of one search share.

use crate::signs::Signs;
use calculus_table::Compose;
use qsr_outside::Gate;
use tract_classes::Class;

/// The calculus and the class of all networks that are searched, their number of nodes, a gate, and what the workers
/// tell each other.
#[derive(Drop)]
pub(crate) struct Site<'s, C: Compose, G: Gate> {
    pub(crate) c: &'s C,
    pub(crate) class: &'s Class,
    pub(crate) nodes: u32,
    pub(crate) gate: &'s G,
    pub(crate) signs: &'s Signs,
}

impl<C: Compose, G: Gate> Site<'_, C, G> {
    /// A child of the first split begins, if it has a number.
    pub(crate) fn begin_child(&self, number: Option<usize>) {
        self.pass(4000, number);
    }

    /// A child of the first split ends, if it has a number.
    pub(crate) fn end_child(&self, number: Option<usize>) {
        self.pass(5000, number);
    }

    /// Passes the point of the gate that is so much more than the number.
    fn pass(&self, base: u32, number: Option<usize>) {
        let Some(number) = number else {
            return;
        };
        if let Ok(number) = u32::try_from(number) {
            self.gate.pass(number.wrapping_add(base));
        }
    }
}
