//! What the tests read and print: terms as text, as in Lisp, and clauses.
#![tactic(auto)]

mod reading;
mod writing;

pub use reading::{read, term, terms, value, written};
pub use writing::{put_term, shown, sides};
