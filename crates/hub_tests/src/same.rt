//! How a test compares two values.
use std::process::Abort;

/// Ends the test if two values differ. It is a function because each assertion adds branches to the function that it is in, and the proof of a
/// function with many branches takes long. A library may not end a program, so each crate of tests has this function.
#[track_caller]
pub(crate) fn assert_same<T: PartialEq>(rt: &impl Abort, left: &T, right: &T) {
    assert!(rt; *left == *right);
}
