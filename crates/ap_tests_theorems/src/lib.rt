//! The tests of the kernel's rows on theorems, definitions, constants and inequalities, and of going back in a world; of
//! polynomials and the search for a certificate; of cases, measures and obligations; and of the choice of an induction and
//! the engines that leave other clauses.
#![tactic(auto)]

#[cfg(test)]
mod clauses;
#[cfg(test)]
mod definitions;
#[cfg(test)]
mod engines;
#[cfg(test)]
mod expect;
#[cfg(test)]
mod given;
#[cfg(test)]
mod inequalities;
#[cfg(test)]
mod polys;
#[cfg(test)]
mod recursion;
#[cfg(test)]
mod rows;
#[cfg(test)]
mod schemes;
#[cfg(test)]
mod search;
#[cfg(test)]
mod sums;
#[cfg(test)]
mod theorems;
#[cfg(test)]
mod worlds;
