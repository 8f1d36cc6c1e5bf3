//! The evaluator: the value of a term under an assignment, in 128 bits with every step checked.
#![tactic(auto)]

mod bindings;
mod kinds;
mod knowing;
pub mod laws;
mod machine;
mod parts;
mod primitives;
mod running;
mod spending;
mod stop;
mod texts;

pub use ap_list::{NoMemory, Seq};
pub use ap_value::{Symbol, Value};
pub use ap_world::{Term, World};
pub use bindings::Env;
pub use knowing::is_known;
pub use running::eval;
pub use stop::EvalStop;
