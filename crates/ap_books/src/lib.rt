//! A book's course over any admitter of its forms: it is read whole, its first form names the package, and the
//! others are worked in order up to the first that is refused (the manual's topics `books` and `certify-book`).
//! What is printed of it is put as it comes. Nothing here speaks of worlds or proofs. Work that is spread over threads
//! under a bound of its own can't stand behind a trait's method: who has such work goes over the events of a book
//! ([`events_in`]) itself, by the same definitions, and puts what stands for no events by [`put_text`]. [`plan`] answers the
//! books that words name, and [`demo_book`] the text of a book to try the program on.
#![tactic(auto)]

mod admitter;
mod body;
mod demo;
mod events;
mod package;
mod planning;
mod reading;
mod texts;

pub use admitter::{Admitter, BookFault, BookSeen, Ended};
pub use ap_cert::is_book_name;
pub use body::{certify_book, put_text};
pub use demo::demo_book;
pub use events::{Events, events_in};
pub use planning::{PlanError, plan};
pub use reading::books_are_read_by_the_grammar;
pub use texts::{closing, opening};
