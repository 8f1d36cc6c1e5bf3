//! Tokens of a book's text: what stands between blanks and comments, lent from the text and never
//! copied. The grammar is that of the ACL2 reader on this fragment.
#![tactic(auto)]

mod bytes;
mod gap;
mod hash;
mod laws;
mod scan;
mod token;
mod tokens;

pub use hash::char_named;
pub use laws::next_law;
pub use token::{FaultKind, Kind, Token, TokenFault};
pub use tokens::{Tokens, over};
