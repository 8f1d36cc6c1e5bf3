//! The rewrite and linear rules of theorems, and the index by which those of a call's head are found.
//!
//! [`rules_of`] answers the rules of a theorem, or why it has none of a class that it asks for. [`index`] answers
//! the rules of a world by the heads of their left sides, and [`by_head`] those of one head, newest first;
//! [`linear_for`] answers the places of the linear rules that may bear on atoms, and [`linear_rule`] the one at a place.
//! [`Ruled`] is a world with its index, which grows with it. See the manual's topics `rewrite`,
//! `linear` and `rule-classes`.
#![tactic(auto)]

mod carrying;
mod finding;
mod group;
mod laws;
mod linear;
mod linears;
mod making;
mod refusing;
mod renaming;
mod rule;
mod shapes;
mod statement;
mod table;
mod worlds;

pub use ap_list::{NoMemory, Seq};
pub use ap_term::Term;
pub use ap_value::Symbol;
pub use ap_world::{RuleClass, World};
pub use finding::{linear_for, linear_rule};
pub use laws::{linear_rules_hold, permutative_renames, rules_are_parts};
pub use linear::LinearRule;
pub use linears::Linears;
pub use making::rules_of;
pub use refusing::RuleError;
pub use rule::RewriteRule;
pub use shapes::first_atoms;
pub use table::{Groups, RuleIndex, by_head};
pub use worlds::{Ruled, index};
