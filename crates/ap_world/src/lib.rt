//! The world: the functions, theorems and constants that a book has admitted so far, and the current
//! theory. Its type keeps that the world is sound.
#![tactic(auto, using(ap_term::proofs::Seen::trees))]

mod conjuncts;
mod constants;
mod entries;
mod entry;
mod including;
mod kinds;
pub mod laws;
pub mod masks;
mod names;
mod prescribing;
mod primitive;
mod recognisers;
mod runes;
mod same;
mod shapes;
mod tables;
mod theory;
mod world;

pub use ap_list::{Bytes, NoMemory, Seq};
pub use ap_term::{Clause, Subst, Term};
pub use ap_value::{Symbol, Value};
pub use conjuncts::push_conjuncts;
pub use constants::{
    equal_symbol, if_symbol, is_acl2, is_nil, is_nil_term, is_t, nil_term, not_symbol, t_term,
};
pub use entry::{
    Case, Defun, Entry, EntryRef, Function, Mask, Measure, RuleClass, Theorem, copy_cases,
    copy_entry, copy_function, copy_measure, copy_theorem,
};
pub use kinds::{Kind, Sign};
pub use primitive::{Primitive, primitive_of};
pub use recognisers::{are_distinct_variables, is_variable, recognised};
pub use same::{alike_entry, same_entry, same_theory, same_world};
pub use shapes::{Head, ShapeRef, head_of, is_equal, is_if, is_iff, is_implies, is_not, shape_of};
pub use theory::{Rune, RuneKind, Theory, copy_rune, copy_theory, same_rune};
pub use world::{AddError, World};
