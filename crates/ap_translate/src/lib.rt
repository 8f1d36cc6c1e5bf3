//! Terms as users write them: the macros of the language are replaced, names are looked up, and the
//! answer is a term in translated form or the first form that is none.
#![tactic(auto)]

mod arms;
mod build;
mod constant;
mod fault;
mod instance;
mod macros;
mod names;
mod parts;
mod plans;
mod scope;
mod shapes;
mod sizes;
mod table;
mod translator;
pub mod worlds;
mod written;

pub use ap_list::{Bytes, NoMemory, Seq};
pub use ap_reader::{Body, Form};
pub use ap_term::Term;
pub use ap_value::{Symbol, Value};
pub use ap_world::World;
pub use fault::{TransError, TransKind};
pub use names::{can_be_bound, may_name, may_name_constant};
pub use translator::translate;
pub use written::constant_value;
