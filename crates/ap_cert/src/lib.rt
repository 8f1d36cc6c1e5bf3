//! The certificate of a book: a text that names the book, the SHA-256 of its bytes, the books that it includes with
//! theirs, and the number of its events. Version 1 is these lines, each ended by a newline:
//!
//! ```text
//! acl2p certificate 1
//! book NAME
//! sha256 DIGEST
//! include NAME DIGEST
//! events NUMBER
//! end
//! ```
//!
//! There is a line `include` for each included book, in their order. A name is 1 to 64 of the characters
//! `a-z A-Z 0-9 - _`, a hyphen not first; a digest 64 lower-case hexadecimal digits; the number is below 2^32, in decimal
//! without a leading zero.
#![tactic(auto)]

mod cert;
mod digest;
mod fields;
mod laws;
mod lines;
mod reading;
mod writing;

pub use ap_value::{BookName, Bytes, NoMemory, Seq};
pub use cert::{Cert, CertError};
pub use digest::digest_of;
pub use fields::is_book_name;
pub use laws::certificates_read_one_way;
pub use reading::read_cert;
pub use writing::write_v1;
