//! The printed bytes of values, terms and clauses, as they stand in a session's text.
#![tactic(auto)]

mod atom;
mod term;
mod value;

pub use ap_term::{Bytes, Clause, NoMemory, Seq, Symbol, Term, Value};
pub use term::{print_clause, print_term};
pub use value::print_value;
