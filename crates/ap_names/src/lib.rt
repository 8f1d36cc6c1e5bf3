//! The names of goals, as the ACL2 manual's topic `goal-spec` gives them: `Goal`, `Goal'`,
//! `Subgoal 2.1''`, `*1.1`, `Subgoal *1.1/3'4'`.
#![tactic(auto)]

mod name;
mod parsing;
mod print;
mod reading;

pub use ap_list::{Bytes, NoMemory, Seq};
pub use name::{GoalName, is_name, same_name};
pub use parsing::parse;
pub use reading::printing_has_one_reading;
