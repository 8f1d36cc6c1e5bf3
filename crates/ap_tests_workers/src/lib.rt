//! The tests of the goal table, and of workers that share one.
#![tactic(auto)]

#[cfg(test)]
mod deals;
#[cfg(test)]
mod drops;
#[cfg(test)]
mod found;
mod gates;
#[cfg(test)]
mod jobs;
#[cfg(test)]
mod refusals;
#[cfg(test)]
mod shared;
#[cfg(test)]
mod shares;
#[cfg(test)]
mod tables;
mod tree;
#[cfg(test)]
mod trees;
#[cfg(test)]
mod waiting;
#[cfg(test)]
mod walks;
mod watching;

pub use gates::Holding;
