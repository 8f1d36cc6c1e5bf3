//! Terms that are kept once: a bank gives each distinct term a number, so that two terms are compared by their
//! numbers. Contracts see a bank as the list of its terms, which has none twice.
#![tactic(auto)]

mod bank;
mod node;
mod whole;

pub use ap_list::{NoMemory, Seq, SharedSeq};
pub use ap_term::Term;
pub use ap_value::{Symbol, Value};
pub use bank::Bank;
pub use node::{Node, TermId};
