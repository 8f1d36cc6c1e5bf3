//! The tests of worlds, of the ground world, of running, of the rules of a theorem and of the linear rules of a world, of
//! translation and of hints, a module each.
#![tactic(auto)]

#[cfg(test)]
mod constants;
#[cfg(test)]
mod evaluation;
#[cfg(test)]
mod expect;
#[cfg(test)]
mod forms;
#[cfg(test)]
mod grounds;
#[cfg(test)]
mod hints;
#[cfg(test)]
mod linear_rules;
#[cfg(test)]
mod making;
#[cfg(test)]
mod showing;
#[cfg(test)]
mod translation;
#[cfg(test)]
mod worlds;
