//! Assertions. Each is a function, so that it is proved once and not anew where a test calls it, for each row of a table.

use std::fmt::Debug;
use std::process::Abort;

/// Asserts this.
pub(crate) fn assert_true(rt: &impl Abort, fact: bool) {
    assert!(rt; fact);
}

/// Asserts that what was got is what is wanted. Both are shown where it isn't.
pub(crate) fn assert_equal<T: PartialEq + Debug + Drop>(rt: &impl Abort, got: T, want: T) {
    assert_eq!(rt; got, want);
}

/// Asserts that these bytes, shown as text, are those.
pub(crate) fn assert_text(rt: &impl Abort, got: &[u8], want: &[u8]) {
    assert_eq!(rt; str::from_utf8(got), str::from_utf8(want));
}
