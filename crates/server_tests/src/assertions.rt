//! Assertions. Each is a function, so that it is proved once and not anew where a test calls it, for each row of a table.

use crate::serving_common::End;
use std::process::Abort;

/// Asserts this.
pub(crate) fn assert_true(rt: &impl Abort, fact: bool) {
    assert!(rt; fact);
}

/// Asserts that so many were counted. Both numbers are shown where it isn't so.
pub(crate) fn assert_count(rt: &impl Abort, got: u64, want: u64) {
    assert_eq!(rt; got, want);
}

/// Asserts that so many at most were counted. Both numbers are shown where it isn't so.
pub(crate) fn assert_at_most(rt: &impl Abort, got: u64, most: u64) {
    assert!(rt; got <= most, "{got} of at most {most}");
}

/// Asserts that these bytes, shown as text, are those.
pub(crate) fn assert_text(rt: &impl Abort, got: &[u8], want: &[u8]) {
    assert_eq!(rt; str::from_utf8(got), str::from_utf8(want));
}

/// Asserts that a server ended so.
pub(crate) fn assert_ended(rt: &impl Abort, got: End, want: End) {
    assert_eq!(rt; got, want);
}
