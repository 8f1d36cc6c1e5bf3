//! Workers that share a goal table: speculation over sibling subgoals (Rager, Hunt and Kaufmann, ITP 2013). The walk that
//! they leave is the one that one worker makes, whatever the schedule; `ap_table` says why.
//!
//! # One worker's turn
//!
//! ```text
//!                   +--> one that it holds, for which its deque had no room
//!    next job ------+--> else by a number that it dealt itself, first in, first out     \ claimed by the number,
//!                   +--> else by one that it steals from the others' deques, in turn    / where the node is free
//!                   +--> else the first free node in serial order
//!        |
//!        | none: wait until the history is longer than it was before the search
//!        v
//!    look at each family above ---- one stops before the node ----------------------> drop it
//!        |
//!        | no stop is known
//!        v
//!    take the task's step
//!        |--- it splits in two or more, fewer than three families above ------------> expand, and deal the children
//!        |--- else walk on, with a look at each family before each step:
//!                   |--- a look reads a number below the place ---------------------> drop it
//!                   |--- the walk ends --------------------------------------------> put it
//! ```
//!
//! The turns of a worker end where the root is done, or where the table is halted: whoever is refused memory halts it, so
//! that nobody waits for that worker's node.
//!
//! # Workers and threads
//!
//! The caller is worker 0 and takes the first turn alone. Before each later turn a worker starts one thread more where there
//! are more goals to be worked than workers, up to the number that is asked for and 64 at most: it gives that half of the
//! deques that are left to it for workers, so that threads are started wherever a goal splits. Where the system gives no
//! thread, those that are there do the work. A worker joins each thread that it started. Where the root is then not done,
//! as after a want of memory, the caller makes a new table and works it alone.
//!
//! `ap_attempt` calls [`speculate_from`], with the root's step, which isn't taken again. It has gone down alone before, as
//! long as each task splits into one at most: so a walk that never splits comes here not at all.
//!
//! # What is kept, and by whom
//!
//! Nothing from one walk to the next. Within one the table has the nodes and the words; each worker has its side of a
//! deque (`ap_deal`), the thieves' sides of the others', and the job at hand, with the seats that the table cut for it. Two
//! numbers are shared besides, of goals and of workers that there are: threads are started by them and nothing else.
//!
//! A number in a deque is a hint and no right: it may have been claimed by another who came by serial order, and is then
//! passed over. A lost number costs nothing but order, since the first free node is found without deques.
//!
//! After its last turn a worker puts its deques under a lock of their own. Once all are joined the caller settles them: of
//! what an owner and the thieves got of a deque no number came oftener than it was dealt there.
//!
//! # The gate
//!
//! [`Gate`] is called before a job's first look and after its walk, with the worker's number and the goal's name. The
//! shipped one does nothing; tests hold workers there, so as to make the schedules that they ask about. It answers
//! nothing, so no clause depends on it.
#![tactic(auto)]

mod board;
mod counts;
mod gate;
mod gathering;
mod hands;
mod job;
mod looking;
mod owners;
mod sharing;
mod sides;
mod starting;
mod supply;
mod turn;
mod visiting;

pub use gate::{Gate, NoGate, Place};
pub use job::{JobEnd, run_job};
pub use sharing::{speculate, speculate_from};
