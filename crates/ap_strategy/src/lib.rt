//! One step of the waterfall of ACL2 (the manual's topic `hints-and-the-waterfall`; "Computer-Aided
//! Reasoning", 2000) on a goal: the hint for its name says what is done with it; or it is simplified, or it is pushed,
//! or the attempt stops at it. Each
//! clause that a goal is simplified to comes from the kernel's rows: a clause is tidied; a literal that solves a
//! variable replaces it; or else each literal is rewritten, with linear arithmetic, and what is left is split and tidied.
//!
//! Which plan a task is worked by, and so its world and hints, is said by a brand in the task's type. So tasks of one
//! type are told apart by their goals alone, and a worker that gets a task back needn't compare worlds.
#![tactic(auto)]

mod clauses;
mod depth;
mod fresh;
mod hinting;
mod later;
mod oracles;
mod plan;
mod reducing;
mod same;
mod simplifying;
mod step;
mod stepping;
mod task;

pub use ap_hints::Hints;
pub use ap_list::{NoMemory, Seq};
pub use ap_names::GoalName;
pub use ap_rules::Ruled;
pub use ap_term::{Clause, Term};
pub use ap_walk::{Process, Step, Stepped};
pub use ap_world::{Theory, World};
pub use clauses::copy_clause;
pub use oracles::Oracles;
pub use plan::{Plan, Planned, Settings, copy_settings, first_settings};
pub use step::Acl2Step;
pub use task::{Task, clause_task, copy_task, induct_task, root_task, same_task};
