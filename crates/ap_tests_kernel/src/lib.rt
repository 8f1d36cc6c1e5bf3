//! The tests of the kernel, of types, of clauses and of the waterfall's step, a module each.
#![tactic(auto)]

#[cfg(test)]
mod clauses;
#[cfg(test)]
mod deep;
#[cfg(test)]
mod expect;
#[cfg(test)]
mod hints;
#[cfg(test)]
mod kept;
#[cfg(test)]
mod kernel;
#[cfg(test)]
mod known;
#[cfg(test)]
mod matches;
#[cfg(test)]
mod rows;
#[cfg(test)]
mod types;
#[cfg(test)]
mod waterfall;
