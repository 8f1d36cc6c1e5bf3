//! Linear arithmetic: the search for a certificate, by elimination of atoms, and a test that there is none.
#![tactic(auto)]

mod atoms;
mod eliminating;
mod fitting;
pub mod laws;
mod marks;
mod mixing;
mod oracle;
mod rows;

pub use ap_kernel::LinearOracle;
pub use ap_list::{NoMemory, Seq};
pub use ap_poly::Poly;
pub use oracle::{Linear, refute};
