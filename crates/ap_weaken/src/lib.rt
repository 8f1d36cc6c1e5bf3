//! Clauses that say more than a clause, and prove it: cross-fertilization, generalization, irrelevance. See the
//! manual's topics `generalize` and `hints`.
//!
//! Each chooses by its definition and answers by the kernel's rows: [`fertilize`] by
//! [`ap_kernel::fertilise`], [`generalize`] by [`ap_kernel::generalise`], [`irrelevance`] by
//! [`ap_kernel::drop_literal`] and [`ap_kernel::chain`].
#![tactic(auto)]

mod fertilizing;
mod generalizing;
pub mod laws;
mod leaving;
mod parts;
mod sharing;

pub use ap_kernel::{Clause, Reduction, Term, TypeOracle, World};
pub use ap_list::NoMemory;
pub use fertilizing::fertilize;
pub use generalizing::generalize;
pub use leaving::irrelevance;
