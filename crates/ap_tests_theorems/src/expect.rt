//! Comparisons of texts.

use std::process::Abort;

/// Compares a text with what it should be.
pub(crate) fn expect(rt: &impl Abort, found: &[u8], wanted: &str, of: &str) {
    let found = str::from_utf8(found).unwrap_or("no text");
    assert_eq!(rt; found, wanted, "{of}");
}
