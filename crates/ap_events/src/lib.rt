//! Events of a book, and events within events: what they print, and the world after them. `local`, `progn` and
//! `encapsulate` hold events; `include-book` has the world of an earlier book; the others are `ap_plain`'s. See the
//! manual's topics `local`, `progn`, `encapsulate` and `include-book`.
//!
//! [`work`] does an event in a world with the index of its rules, which goes on to the next event, and [`work_again`] does
//! it a second time, without hints and proofs, in a world from which what is local is left out: `ap_session` calls the two,
//! for each form of a book, and [`held_in`] for a certificate. [`event`], [`event_again`] and [`include`] do one in a world
//! alone, and make the index first; tests call them.
//!
//! Nothing is kept from one event to the next: the caller has the world with its index, and the books that may be included
//! ([`KeptBook`]).
#![tactic(auto)]

mod again;
mod end;
mod first;
mod heads;
mod held;
mod joining;
mod kept;
mod laws;
mod nested;
mod nesting;
mod second;

pub use ap_attempt::{DropNote, Gate, NoGate, Place};
pub use ap_list::{Bytes, NoMemory, Seq};
pub use ap_plain::{Limits, Outcome};
pub use ap_reader::Form;
pub use ap_rules::Ruled;
pub use ap_world::World;
pub use end::EventEnd;
pub use heads::{event, event_again, include};
pub use held::{Held, held_in};
pub use joining::second_text;
pub use kept::KeptBook;
pub use laws::{
    again_is_covered, again_misses_a_name, nested_events_are_sound, singles_are_held, worlds_grow,
};
pub use nested::{work, work_again};
