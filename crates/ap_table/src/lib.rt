//! The goal table: why many workers prove and print what one does. It is the speculation over sibling subgoals of Rager,
//! Hunt and Kaufmann (ITP 2013).
//!
//! # What it keeps
//!
//! A list of nodes, to which nodes are only added. A node has a task, the families above it from its own up to the root's
//! (a [`Link`] each: the number of the parent, and the place among its children), the number of its first child, and how
//! far it is. A family is the children of one node, and is known by that node's number. Each family has one word, of
//! `ap_word`: a number that only falls, and only to places by which the serial walk of the family truly ends. Beside these
//! stands, for each family, what its finished members come to ([`Sum`]), the list of the nodes that are free or claimed,
//! and the history: each step that was taken, in order, which is a ghost but for its length.
//!
//! # The six steps
//!
//! ```text
//!            claim               expand
//!    free ----------> claimed ----------> expanded - - - - -> closed   (by the finish or the drop below it by which
//!                        |                                              its walk is known)
//!                        |--- finish ---> put                          (with the walk of the job's task)
//!                        |--- drop -----> dropped                      (with a licence: a family above, and a place)
//!
//!    mark:  a family's word falls to the place by which the finished members show that the family stops
//!    look:  a word is read, which changes nothing, and is counted
//! ```
//!
//! 1. **Claim.** A worker takes a free node: the first in serial order ([`GoalTable::claim`]), or one by its number
//!    ([`GoalTable::claim_node`]). It gets a [`Job`]: the node's number, a copy of its task, the rule, and a seat
//!    ([`AncestorSeat`]) at the word of each family above the node, cut from those that the table keeps.
//! 2. **Expand.** Where the task splits in two or more, and fewer than three families stand above, its children become
//!    free nodes at the end of the list ([`GoalTable::expand`]).
//! 3. **Finish.** Else the worker walks the task as one worker would, with a look at each seat before each step, and puts
//!    the walk ([`GoalTable::put`]). The table asks that each seat has looked once for each mark and saw no stop before its
//!    place; so what is put is what the serial walk makes there.
//! 4. **Drop.** A look that reads a number below the seat's own place is the licence to give the job up
//!    ([`GoalTable::put_drop`]): an earlier sibling of the node, or of one above it, stops the walk. Nothing of the node is
//!    in the answer, whatever its walk would have been.
//! 5. **Mark.** Once a node is finished, each family above that is known to stop is marked. Each family all of whose
//!    members up to its stop are finished closes its parent, and that may close the next one above.
//! 6. **Look.** A worker's reading of a word, outside the lock.
//!
//! The root is done where it is put or closed. Then [`TableState::finish`] joins the pieces to one walk, and gives a
//! [`DropNote`] for each drop.
//!
//! # Why it is right
//!
//! The laws ([`core_is_sound`] and the others of `laws.rt`) speak of every list of allowed steps, in any order and by any
//! actors. A finished node has the walk that one worker makes of its task (`full`); a word holds no number below the true
//! stop; so a dropped node lies behind a sibling at which that walk stops. No step looks at which worker takes it or when:
//! therefore nothing in the answer can depend on the schedule, and only the notes of drops differ from run to run.
//!
//! # Who calls it
//!
//! `ap_speculate` alone: many workers through [`GoalTable`], which has a lock around a [`TableState`] and wakes those who
//! wait; or one through a [`TableState`] of its own. A job goes back to the table that it is from: another one is answered
//! as a stranger's, and nothing changes.
#![tactic(auto)]

mod gathering;
mod kept;
mod laws;
mod link;
mod live;
mod making;
mod marking;
mod nodes;
mod noting;
mod seating;
mod seats;
mod settling;
mod state;
mod stored;
mod table;
mod telling;

pub use laws::{
    closing_is_by_the_known_stop, core_is_sound, known_stops_are_true, live_nodes_stay_in_order,
    nodes_are_claimed_once, pieces_make_the_walk, stopped_walks_end,
};
pub use link::{DropNote, License, Link};
pub use seats::AncestorSeat;
pub use state::{TableState, first};
pub use stored::{Claim, Entry, Grown, Job, Stage, Stored, Sum, Taken, Told};
pub use table::{GoalTable, begin};
