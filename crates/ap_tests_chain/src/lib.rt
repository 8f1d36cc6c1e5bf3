//! Tests of the reduction of a whole attempt.
#![tactic(auto)]

#[cfg(test)]
mod attempts;
