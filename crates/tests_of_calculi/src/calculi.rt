//! What several tests do with a calculus.
use calculus_table::{Compose, Rel};
use std::process::Abort;

/// The composition of two sets, which have to be within the calculus.
pub(crate) fn composed<C: Compose>(rt: &impl Abort, c: &C, a: Rel, b: Rel) -> Rel {
    let full = c.full();
    assert!(rt; a.within(full) && b.within(full));
    c.compose(a, b)
}

/// The converse of a set, which has to be within the calculus.
pub(crate) fn turned<C: Compose>(rt: &impl Abort, c: &C, a: Rel) -> Rel {
    assert!(rt; a.within(c.full()));
    c.converse(a)
}

/// Does nothing. Who calls it shows that its type can be shared by threads.
pub(crate) fn can_be_shared<T: Send + Sync>() {}
