use crate::tree;
use ap_list::{Seq, SharedSeq};
use ap_value::{Symbol, Value};

/// What contracts see of a term in translated form: a variable, a quoted constant, or a call of a function by its
/// name. No value of it is made: code has `tree::Term`, whose model it is.
#[derive(Drop)]
pub enum Term {
    Var(Symbol),
    Quote(Value),
    Call(Symbol, SharedSeq<Term>),
}

/// A list of literals, read as their disjunction: it holds where one of them isn't `nil`.
#[derive(Debug, Drop)]
pub struct Clause(pub Seq<tree::Term>);

/// Variables and what replaces them, the first pair of a variable counting.
#[derive(Debug, Drop)]
pub struct Subst(pub Seq<(Symbol, tree::Term)>);
