//! One event of a book that holds no others: what it prints, and the world after it. A theorem, a function, a constant,
//! or a change of the current theory. See the manual's topics `defthm`, `rule-classes`, `hints`, `defun`, `measure`, `defconst`
//! and `in-theory`.
//!
//! [`work`] does an event in a world with the index of its rules, which goes on to the next event; `ap_events` calls it for
//! each event that stands in a book or within others. What an event is made of stands beside it, for those who do one again:
//! its shape, what it states, and what that puts into the world.
//!
//! An event with a name is done in four steps: what it states, which is where most refusals come from (`proposing`); its
//! hints; the attempts on what it owes; and what it puts into the world (`named` has these three).
//!
//! Nothing is kept from one event to the next: the caller has the world, which is left as it was where an event is refused.
#![tactic(auto)]

mod attempting;
mod changes;
mod constant;
mod end;
mod heads;
mod kinds;
mod laws;
mod limits;
mod lines;
mod named;
mod owing;
mod proposing;
mod prover;

pub use ap_attempt::{DropNote, Gate, NoGate, Place};
pub use ap_list::{Bytes, NoMemory, Seq};
pub use ap_reader::Form;
pub use ap_rules::Ruled;
pub use ap_stated::{Definition, Refusal, Statement, definition_in, head, texts, theorem_in};
pub use ap_world::World;
pub use changes::{Before, remember, theory_event};
pub use constant::constant_event;
pub use end::{Outcome, refused_alone, without_drops};
pub use heads::work;
pub use kinds::{Kind, kind_of};
pub use laws::events_are_sound;
pub use limits::Limits;
pub use proposing::{Proposal, proposed_definition, proposed_theorem, put};
