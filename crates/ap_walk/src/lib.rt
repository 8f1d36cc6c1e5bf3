//! The serial waterfall of "Computer-Aided Reasoning" (2000) over tasks of any kind: it visits a task and
//! then its children in order, depth first, and ends at the first visit that stops the attempt, reverts
//! it to the original goal, or reaches the limit on goals. The same visits are a cut of the list of all
//! marks, so that walks of siblings that were made apart, as Rager, Hunt and Kaufmann (ITP 2013) make
//! them, can be put together.
#![tactic(auto)]

mod act;
mod counting;
mod cutting;
mod mark;
mod rule;
mod step;
mod theorems;
mod walking;

pub use act::{Act, Out, Process, Reason, Stepped};
pub use ap_list::{NoMemory, Seq};
pub use cutting::cut_from;
pub use mark::{Mark, Walked};
pub use rule::{End, Rule, Tally};
pub use step::Step;
pub use theorems::{
    all_marks_are_own_and_children, cut_again, cut_is_bounded, good_walk_makes_root_good,
    walk_is_bounded, walk_is_cut, walk_is_visit_and_children,
};
pub use walking::serial;
