//! Assertions of what was found. Each stands for an `assert_eq!`, whose expansion is dear to prove wherever it stands.
use std::fmt::Debug;
use std::process::Abort;

/// Fails unless both are the same.
pub(crate) fn assert_same<T: PartialEq + Debug + Drop>(rt: &impl Abort, found: T, expected: T) {
    assert_eq!(rt; found, expected);
}
