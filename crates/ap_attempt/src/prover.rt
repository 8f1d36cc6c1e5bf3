ghost use Rattle.std.specs.Prelude.{◌≡◌, ◌≤◌, ◌<◌, ℕ, Bool, IfOk};
ghost use Rattle.ap_list.specs.Lists.{Each};
ghost use Rattle.ap_names.specs.Names.{pushed_of};
ghost use Rattle.ap_walk.specs.declared.act.Out.{Out};
ghost use Rattle.ap_walk.specs.Visits.{out_children};

use ap_list::NoMemory;
use ap_walk::Step;
use std::alloc::Global;

/// A waterfall that can prove what it pushes. The induction of a task and the original of a root are
/// meanings of the tasks alone.
pub trait Prover: Step {
    /// The induction of a task that was pushed as number `k`: the task whose walk is to prove it.
    ghost inducted: { Self.Task → ℕ → Self.Task };

    /// What an attempt on a root reverts to: its goal as it came, which waits to be proved by induction.
    ghost original_of: { Self.Task → Self.Task };

    /// How many inductions may stand within each other below a task.
    ghost rank: { Self.Task → ℕ };

    /// Whether no induction may be made.
    ghost refuses_induction: { Self → Bool };

    /// The induction of a task that a walk pushed as number `k`, from 1. The only error is want of memory.
    fn induct_task(&self, alloc: Global, task: &Self::Task, k: u32) -> Result<Self::Task, NoMemory>
        requires { 1 ≤ k }
        ensures { IfOk result (λ induction. induction ≡ inducted task.now k) };

    /// The task that an attempt on a root reverts to. The only error is want of memory.
    fn original(&self, alloc: Global, root: &Self::Task) -> Result<Self::Task, NoMemory>
        ensures { IfOk result (λ original. original ≡ original_of root.now) };

    /// Whether a hint forbids induction (the manual's topic `do-not-induct`). Takes no memory.
    fn do_not_induct(&self) -> bool
        ensures { result ≡ refuses_induction self.now };

    // An induction has the name of the pushed goal: `*2` where `Goal'` was pushed as number 2, `*1.2` where
    // `Subgoal *1/3` was.
    ghost named: { (task : Self.Task) (k : ℕ) → 1 ≤ k → Self.name (inducted task k) ≡ pushed_of (Self.name task) k };

    // An original has its root's name.
    ghost original_named: { (root : Self.Task) → Self.name (original_of root) ≡ Self.name root };

    // A task's children have no greater rank.
    ghost ranked: { (task : Self.Task) → Each (λ child. rank child ≤ rank task) (out_children (Self.step_of task).out) };

    // The induction of a task that is pushed has less rank.
    ghost falling: { (task : Self.Task) (k : ℕ) → 1 ≤ k → (Self.step_of task).out ≡ Out.Push → rank (inducted task k) < rank task };

    // Where the induction of a task is good the task is good.
    ghost by_induction: { (task : Self.Task) (k : ℕ) → 1 ≤ k → Self.good (inducted task k) → Self.good task };

    // Where the original of a root is good the root is good.
    ghost by_original: { (root : Self.Task) → Self.good (original_of root) → Self.good root };
}
