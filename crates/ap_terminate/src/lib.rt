//! Why a function's recursion ends: the calls of a function in its body, the cases in which it recurs, its
//! measure, and the clauses that must be valid for the measure to fall at each call. See the manual's topics
//! `measure`, `defun` and `induction-machine`.
//!
//! [`cases_of`] answers the cases of a body. [`measure_for`] answers the measure that is given, where it has
//! one to four components, or else the one that is chosen. [`obligations`] answers the clauses; a function
//! whose obligations are valid is total, as `ap_admit` shows.
#![tactic(auto)]

mod calls;
mod cases;
mod measures;
mod owed;

pub use ap_kernel::{Clause, Symbol, Term, World};
pub use ap_list::{NoMemory, Seq};
pub use ap_world::{Case, Defun, Measure};
pub use calls::has_no_call;
pub use cases::{cases_of, is_unnested};
pub use measures::{TerminateError, measure_for};
pub use owed::obligations;
