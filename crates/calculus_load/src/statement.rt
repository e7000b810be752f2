//! What a line of a table file says.
use calculus_table::Rel;

/// What a line says, with none in place of the base relation of a name that none has.
#[derive(Clone, Copy, Debug, PartialEq, Eq)]
pub(crate) enum Statement {
    /// The converse of the first is the second.
    Converse(Option<u32>, Option<u32>),
    /// The composition of the first and the second is the set.
    Entry(Option<u32>, Option<u32>, Option<Rel>),
}
