//! The forms of a text: lists, quotes, numbers, characters, strings and symbols, each with its
//! place. The grammar is that of the ACL2 reader on this fragment. What a form is at its top is read by
//! [`lend`], and by the readers beside it.
#![tactic(auto)]

mod fault;
mod form;
mod leaf;
mod name;
mod number;
mod reading;
mod strings;
mod text;
mod tops;

pub use fault::{ReadError, ReadKind};
pub use form::{Body, Form};
pub use text::{forms, one_answer};
pub use tops::{FormRef, is_keyword, is_symbol, items, lend, quoted, string, symbol};
