//! An attempt on a goal, over any prover. The goal is walked, and what the walk pushes is proved by induction,
//! from the goal that was pushed first ("Computer-Aided Reasoning", 2000; the manual's topics
//! `hints-and-the-waterfall` and `otf-flg`). Each walk is made by one worker, or by several that speculate over
//! sibling subgoals. Nothing here speaks of terms or clauses.
#![tactic(auto)]

mod naming;
mod pool;
mod prover;
mod proving;
mod theorems;
mod turn;
mod verdict;
mod walking;

pub use ap_list::{NoMemory, Seq};
pub use ap_speculate::{Gate, NoGate, Place};
pub use ap_table::DropNote;
pub use naming::push_name;
pub use prover::Prover;
pub use proving::prove;
pub use theorems::{attempt_goes_turn_by_turn, pushes_are_named, pushes_have_less_rank};
pub use verdict::{Attempt, Verdict};
