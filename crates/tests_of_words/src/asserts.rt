//! Assertions of what was found. Each stands for an `assert_eq!`, whose expansion is dear to prove wherever it stands.
use std::fmt::Debug;
use std::process::Abort;

/// Fails in this case unless both are the same.
pub(crate) fn assert_same_in<T: PartialEq + Debug + Drop, K: Debug + Drop>(
    rt: &impl Abort,
    found: T,
    expected: T,
    case: K,
) {
    assert_eq!(rt; found, expected, "{case:?}");
}
