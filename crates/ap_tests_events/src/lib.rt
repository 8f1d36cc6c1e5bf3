//! The tests of events: what a text's events print, and what is in the world behind them.
#![tactic(auto)]

#[cfg(test)]
mod again;
#[cfg(test)]
mod alone;
#[cfg(test)]
mod arithmetic;
#[cfg(test)]
mod events;
#[cfg(test)]
mod hints;
#[cfg(test)]
mod including;
#[cfg(test)]
mod induction;
#[cfg(test)]
mod processes;
#[cfg(test)]
mod rare;
#[cfg(test)]
mod recursion;
#[cfg(test)]
mod theories;
#[cfg(test)]
mod together;
#[cfg(test)]
mod working;
