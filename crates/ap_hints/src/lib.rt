//! Hints: what a user tells the waterfall about a goal, by the goal's name. See the manual's topics `hints`,
//! `goal-spec`, `use`, `cases`, `expand`, `do-not`, `induct` and `do-not-induct`.
//!
//! [`hints_of`] reads the hints of an event in a world, or refuses them, and the law says of which goals they are and
//! what each says. Beside it stand what hints and the events have in common: what the parts of a form are beyond what
//! `ap_reader` tells, and changes of the current theory.
#![tactic(auto)]

mod changes;
mod fault;
mod forms;
mod hint;
pub mod laws;
mod reading;
mod runes;
mod said;
mod same;
mod settings;
mod terms;
mod uses;

pub use ap_list::{NoMemory, Seq};
pub use ap_names::GoalName;
pub use ap_reader::{Form, is_keyword, is_symbol, items, symbol};
pub use ap_term::{Subst, Term};
pub use ap_walk::Process;
pub use ap_world::{Theory, World};
pub use changes::{Changes, changed_theory, changes_by};
pub use fault::HintError;
pub use forms::{is_any_keyword, is_nil};
pub use hint::{Hint, Hints, no_hints};
pub use reading::hints_of;
pub use runes::{changed_runes, runes_named};
pub use same::same_hints;
