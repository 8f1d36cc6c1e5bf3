//! Conditional rewriting: what a term becomes by rules, definitions, types and facts, each step counted, as a
//! definition (`specs/Rewriting.antt`), and its laws ([`laws`]). [`literal`] rewrites a term under facts, and
//! [`simplify`] the literals of a clause in turn, with one [`Memo`] of what terms became, and splits what is left. See
//! the manual's topics `rewrite`, `introduction-to-the-theorem-prover` and "The Rewriter" in "Computer-Aided Reasoning"
//! (2000).
#![tactic(auto)]

mod arithmetic;
mod beginning;
mod bounding;
mod branching;
mod calls;
mod engines;
mod equating;
mod facts;
mod known;
pub mod laws;
mod linear_rules;
mod literals;
mod memos;
mod opening;
mod ordering;
mod refuting;
mod rewriter;
mod rewriting;
mod rows;
mod rules;
mod running;
mod settling;
mod shaping;
mod simplifying;
mod sizes;
mod table;

pub use beginning::memo;
pub use literals::{literal, literal_kept};
pub use memos::Memo;
pub use rewriter::{Place, Rewriter, Run};
pub use rewriting::rewrite;
pub use simplifying::simplify;
