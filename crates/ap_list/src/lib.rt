//! Containers that every crate shares: a list, and values and lists that several owners hold, which
//! contracts see as plain data, so that a tree of them is plain data too and a copy equals what it copies.
#![tactic(auto)]

mod boxed;
mod compared;
mod seq;
mod shared;
mod shared_compared;
mod shared_seq;
mod text;

pub use boxed::Boxed;
pub use seq::Seq;
pub use shared::Shared;
pub use shared_seq::SharedSeq;
pub use text::{Fixed, Text};

/// Want of memory: the one answer whose cause nothing states.
pub type NoMemory = std::alloc::AllocError;

/// A list of bytes: a text of a book, a name, what is printed.
pub type Bytes = Seq<u8>;
