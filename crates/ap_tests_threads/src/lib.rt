//! Tests that what an attempt works by crosses threads: terms, worlds, plans and tasks.
#![tactic(auto)]

#[cfg(test)]
mod crossing;
