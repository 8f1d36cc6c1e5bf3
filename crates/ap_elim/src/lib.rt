//! Destructor elimination: a variable whose `car` or `cdr` a clause speaks of is taken apart into the cons of
//! two new variables. See the manual's topic `elim`.
//!
//! [`elim`] chooses the variable and the new names, and answers the kernel's row [`ap_kernel::eliminate`] by
//! them. [`new_name`] finds a new name for a variable, for generalization too.
#![tactic(auto)]

mod eliminating;
pub mod laws;
mod naming;

pub use ap_kernel::{Clause, Reduction, Term, World};
pub use ap_list::NoMemory;
pub use ap_world::Theory;
pub use eliminating::elim;
pub use naming::{new_name, vars_of};
