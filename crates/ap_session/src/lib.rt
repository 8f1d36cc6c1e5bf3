//! A session: a command's words worked over a library of books and a sink. It finds the command in the words, reads each
//! book that they name, does its events in two passes, puts what a session prints, and stores the certificate of each book
//! that is certified; or it works the demo's one book. See the manual's topics `books`, `certify-book` and `include-book`.
//!
//! [`certify`] is the one call: the program `acl2p` makes it over the current folder and standard output, and the crate
//! `ap_tests_session` over libraries and sinks in memory. It keeps nothing from one call to the next. Within a call it keeps
//! the last world with the index of its rules, the world of each certified book for those that include it, the books as they
//! were read, and what workers dropped; a [`Report`] hands the last two on, with the world and the [`Status`]. [`tell`] puts
//! the line that a fault leaves on standard error.
#![tactic(auto)]

mod admitting;
mod book;
mod certifier;
mod certs;
mod command;
mod demo;
mod fault;
mod laws;
mod putting;
mod report;
mod second;
mod start;
mod telling;
mod texts;

pub use ap_attempt::{DropNote, Gate, NoGate, Place};
pub use ap_books::BookSeen;
pub use ap_list::{Bytes, NoMemory, Seq};
pub use ap_outside::{Library, Sink, WriteFault};
pub use ap_world::World;
pub use certifier::certify;
pub use laws::{
    certified_books_are_done_again, command_lines_are_read_one_way, events_are_counted_once,
};
pub use report::{Report, Status};
pub use telling::tell;
