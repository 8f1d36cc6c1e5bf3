//! Induction as a recursive function suggests it: which calls of a clause are candidates, and which of them
//! the induction goes by. See the manual's topic `induction`.
//!
//! [`scheme`] chooses it, and answers the kernel's row [`ap_kernel::induct`] by it. The laws say why the
//! clauses of an induction prove the clause. [`push_all_calls`] finds the calls in terms, for generalization too.
#![tactic(auto)]

mod candidates;
mod choosing;
mod counting;
mod found;
pub mod laws;
mod schemes;
mod symbols;

pub use ap_kernel::{Clause, Reduction, Term, World};
pub use ap_list::NoMemory;
pub use ap_world::Theory;
pub use choosing::push_all_calls;
pub use found::Scheme;
pub use schemes::{chosen, scheme};
