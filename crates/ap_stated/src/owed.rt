//! What an event owes.
use ap_list::Bytes;
use ap_term::Clause;

/// A clause that an event owes, and what is printed before its attempt's lines.
#[derive(Drop)]
pub struct Owed {
    pub heading: Bytes,
    pub clause: Clause,
}
