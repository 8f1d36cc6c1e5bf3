//! The ground world: the functions and rules that every book begins with.
#![tactic(auto)]

mod functions;
mod ground;
pub mod laws;
mod rows;
mod rules;
mod written;

pub use ap_list::NoMemory;
pub use ap_world::World;
pub use ground::ground_world;
