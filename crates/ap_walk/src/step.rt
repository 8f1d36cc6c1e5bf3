ghost use Rattle.std.specs.Prelude.{◌≡◌, ◌<◌, ◌↔◌, ℕ, List, IsTrue, IfOk};
ghost use Rattle.ap_list.specs.Lists.{Each};
ghost use Rattle.ap_names.specs.Names.{Name};
ghost use Rattle.ap_walk.specs.Visits.{out_children, IsSplit, Tells};
ghost use Rattle.ap_walk.specs.declared.act.Stepped.{Stepped};

use crate::act::Stepped;
use ap_list::NoMemory;
use ap_names::GoalName;
use std::alloc::Global;

/// The waterfall's step on tasks of one kind. A task holds all that its step depends on: what comes of
/// it, whether it is good (for a clause: valid), its name and the depth that is left below it are
/// meanings of the task alone.
pub trait Step {
    type Task: Drop;

    /// What comes of a task.
    ghost step_of: { Self.Task → Stepped Self.Task };

    /// What a proof of the task establishes.
    ghost good: { Self.Task → Type 0 };

    /// The name of the task's goal.
    ghost name: { Self.Task → Name };

    /// How far the tree below the task may reach.
    ghost depth: { Self.Task → ℕ };

    /// Takes one step of a task. The only error is want of memory.
    fn step(&self, alloc: Global, task: &Self::Task) -> Result<Stepped<Self::Task>, NoMemory>
        ensures { IfOk result (λ stepped. stepped ≡ step_of task.now) };

    /// A copy of a task. The only error is want of memory.
    fn copy_task(&self, alloc: Global, task: &Self::Task) -> Result<Self::Task, NoMemory>
        ensures { IfOk result (λ copy. copy ≡ task.now) };

    /// Whether two tasks are equal. Takes no memory.
    fn same_task(&self, a: &Self::Task, b: &Self::Task) -> bool
        ensures { IsTrue result ↔ (a.now ≡ b.now) };

    /// The name of a task's goal, as the manual's topic `goal-spec` gives it. The only error is want of
    /// memory.
    fn name_of(&self, alloc: Global, task: &Self::Task) -> Result<GoalName, NoMemory>
        ensures { IfOk result (λ given. given ≡ name task.now) };

    // The process is Push exactly where the task is pushed, and Stop exactly where the attempt stops.
    ghost tells: { (task : Self.Task) → Tells (step_of task).act.process (step_of task).out };

    // Children have less depth.
    ghost deeper: { (task : Self.Task) → Each (λ child. depth child < depth task) (out_children (step_of task).out) };

    // Where all children of a split task are good the task is good.
    ghost whole: { (task : Self.Task) → IsSplit (step_of task).out → Each good (out_children (step_of task).out) → good task };
}
