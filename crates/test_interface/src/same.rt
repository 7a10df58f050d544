//! What tests compare.

use std::fmt::Debug;
use std::process::Abort;

// A call's answer, and the expected one: in one function, since the proof of a comparison that
// shows both sides is dear.
pub(crate) fn same<T: PartialEq + Debug + Drop>(rt: &impl Abort, given: T, expected: T) {
    assert_eq!(rt; given, expected);
}

// The same, of something that a failure shows too.
pub(crate) fn same_of<T: PartialEq + Debug + Drop>(
    rt: &impl Abort,
    of: &impl Debug,
    given: T,
    expected: T,
) {
    assert_eq!(rt; given, expected, "of {of:?}");
}
