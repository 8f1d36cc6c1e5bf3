use crate::arguments::Arguments;
use ap_value::{Symbol, Value};

/// What code sees of a term: a variable, a quoted constant, or a call of a function by its name.
#[cycle(term)]
#[derive(Debug, Drop)]
pub enum Shape {
    Var(Symbol),
    Quote(Value),
    Call(Symbol, Arguments),
}
