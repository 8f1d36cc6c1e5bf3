//! The types that a term's value can have: a mask of the ten basic types, by the term's form and by facts.
//! See the manual's topic `type-set`.
//!
//! [`types_of`] answers exactly the table of types (`specs/Rows.antt`, `specs/Narrowing.antt`,
//! `specs/Typing.antt`), and that mask holds: wherever the facts hold, the type of the term's value is in
//! it. [`Types`] is the kernel's oracle by it. [`kept_mask`] answers the mask that a function keeps when it
//! is added to a world: reached from the empty mask by rounds of its body.
#![tactic(auto)]

mod base;
mod calls;
mod constants;
mod facts;
mod kept;
mod kinds;
pub mod laws;
mod oracle;
mod places;
mod rows;
mod rules;
mod scopes;
mod typing;

pub use ap_kernel::{Ctx, TypeOracle};
pub use ap_list::NoMemory;
pub use ap_term::Term;
pub use ap_value::Symbol;
pub use ap_world::{Mask, World};
pub use kept::kept_mask;
pub use oracle::{Types, types_of};
