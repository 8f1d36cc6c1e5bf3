//! The reduction of an attempt that is proved: from its root's clause to no clause, by the kernel's rows alone.
//! The reductions of its goals are chained along the tree of goals, not step after step, so that no derivation is
//! deeper than the goals are.
#![tactic(auto)]

mod closing;
mod finding;
mod marks;

pub use ap_kernel::Reduction;
pub use ap_list::{NoMemory, Seq};
pub use ap_strategy::{Acl2Step, Clause, Planned, Task};
pub use ap_walk::{Mark, Walked};
pub use closing::whole_reduction;
