//! An assertion whose proof doesn't look into what it compares.

use std::fmt::Debug;
use std::process::Abort;

/// Asserts that a value is the one that is wanted.
pub(crate) fn assert_same<T: Copy + Debug + PartialEq>(rt: &impl Abort, found: T, wanted: T) {
    assert_eq!(rt; found, wanted);
}
