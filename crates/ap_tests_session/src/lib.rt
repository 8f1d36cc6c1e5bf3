//! The tests of a session: what it prints, stores and answers over libraries and sinks in memory, with each fault in its
//! place.
#![tactic(auto)]

#[cfg(test)]
mod books;
#[cfg(test)]
mod hostile;
#[cfg(test)]
mod reverts;
#[cfg(test)]
mod running;
#[cfg(test)]
mod schedules;
#[cfg(test)]
mod sizes;
#[cfg(test)]
mod stores;
#[cfg(test)]
mod texts;
#[cfg(test)]
mod words;
#[cfg(test)]
mod workers;
