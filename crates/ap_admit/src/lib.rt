//! Admission: a definition whose obligations are valid may be added to the world. See the manual's topics
//! `defun` and `measure`.
//!
//! [`admit`] adds it. The laws say why the world stays sound: under the tests of each case the measure of a
//! call's arguments is less, so that each call has a value.
#![tactic(auto)]

mod admitting;
pub mod laws;

pub use admitting::admit;
pub use ap_kernel::{Clause, Symbol, Term};
pub use ap_list::{NoMemory, Seq};
pub use ap_world::{Defun, Measure, World};
