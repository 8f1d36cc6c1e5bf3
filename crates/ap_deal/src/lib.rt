//! Node numbers that workers deal to themselves and steal from one another: a deque for each worker, whose numbers
//! its owner and the thieves take in the order in which they were dealt. A number that was dealt once reaches one of
//! them at most.
#![tactic(auto)]

mod dealing;
mod hands;
mod laws;
mod making;
mod rule;

pub use hands::{Dealer, Hand, Stolen};
pub use laws::numbers_reach_one_handle;
pub use making::hand;
pub use rule::Log;
