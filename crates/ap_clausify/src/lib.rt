//! From terms to clauses, and clauses split at their `if`s: the first steps of a proof. See "Clausification"
//! and "Simplification" in "Computer-Aided Reasoning" (2000).
//!
//! [`flat`] answers the clause that a conjecture starts from. [`split`] answers the clauses without `if`
//! that a clause is split into, as the kernel's rows show that it is valid where they are.
#![tactic(auto)]

mod flattening;
mod leaves;
mod places;
mod scanning;
mod splitting;
mod states;

pub use ap_kernel::Reduction;
pub use ap_list::{NoMemory, Seq};
pub use ap_term::{Clause, Spent, Steps, Term};
pub use ap_world::World;
pub use flattening::flat;
pub use splitting::split;
pub use states::Split;
