//! Polynomials of linear arithmetic: what literals on integers say, their sums and multiples.
//!
//! A [`Poly`] says that a constant plus integer multiples of atoms is at least 0. [`of_literal`] makes those of a
//! literal, [`add`] and [`scale`] make sums and multiples of them. That all these hold where they should, and that
//! polynomials don't all hold of which a weighted sum is a negative constant, are the laws of [`laws`].
#![tactic(auto, using(ap_term::proofs::Seen::trees))]

mod laws;
mod literal;
mod numbers;
mod parts;
mod poly;

pub use ap_list::{NoMemory, Seq};
pub use ap_term::Term;
pub use laws::{
    atoms_are_known, bounds_hold, constants_are_left, lin_certifies, literals_hold,
    polys_are_ordered, sums_hold,
};
pub use literal::of_literal;
pub use parts::is_before;
pub use poly::{Poly, add, scale};
