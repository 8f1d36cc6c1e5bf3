//! Terms of ACL2 in translated form: variables, quoted constants and calls; clauses, substitutions and
//! the count of steps that a clause may spend.
#![tactic(auto)]

mod arguments;
mod atoms;
mod compare;
mod counts;
mod hashes;
mod instance;
mod kept;
mod matching;
mod order;
mod piece;
mod shape;
mod starts;
mod steps;
mod term;
mod terms;
mod tree;

pub use ap_value::{Boxed, Bytes, NoMemory, Seq, Shared, Symbol, Text, Value};
pub use arguments::Arguments;
pub use atoms::reads_back;
pub use instance::{is_among, is_symbol, pairs_of, subst, subst_all, vars};
pub use matching::{is_same, is_term_among, matches_are_least, one_way_match};
pub use order::{term_less, term_order_is_total, terms_print_apart};
pub use shape::Shape;
pub use steps::{Spent, Steps};
pub use term::{Clause, Subst};
pub use terms::{
    copy_symbols, copy_term, copy_terms, equality_of_terms, extend_terms, owned, same_term,
    same_terms, size,
};
pub use tree::Term;
