//! What the form of an event states: its shape, its terms, the function or theorem that it makes and the clauses that it
//! owes, or why it is refused. See the manual's topics `defun`, `defthm`, `rule-classes`, `hints` and `measure`.
//!
//! Nothing here proves or prints an event: [`stated_definition`] and [`stated_theorem`] say what an event puts into a world
//! once its obligations ([`owed_definition`], [`owed_theorem`]) are proved, [`add_definition`] and [`add_theorem`] put it
//! there. `ap_plain` does the attempts between, and `ap_events` does an event again that was proved before.
#![tactic(auto)]

mod classes;
mod definition;
mod forms;
mod hinting;
mod owed;
mod refusing;
mod shapes;
mod taken;
pub mod texts;
mod theorem;
mod translating;

pub use definition::{
    Terminating, add_definition, measure_text, owed_definition, stated_definition,
};
pub use forms::head;
pub use hinting::given_hints;
pub use owed::Owed;
pub use refusing::Refusal;
pub use shapes::{Constant, Definition, Statement, constant_in, definition_in, theorem_in};
pub use taken::is_taken;
pub use theorem::{add_theorem, owed_theorem, stated_theorem};
