ghost use Rattle.std.specs.Prelude.{◌≡◌, ◌≤◌, ◌<◌, ℕ, Bool, IfOk};
ghost use Rattle.ap_list.specs.Lists.{Each};
ghost use Rattle.ap_names.specs.Names.{pushed_of};
ghost use Rattle.ap_walk.specs.declared.act.Out.{Out};
ghost use Rattle.ap_walk.specs.Visits.{out_children};

use ap_attempt::Prover;
use ap_list::NoMemory;
use ap_names::GoalName;
use ap_strategy::{Acl2Step, Planned, Task, induct_task};
use ap_walk::{Step, Stepped};
use std::alloc::Global;

/// A waterfall whose pushed tasks have inductions. The induction of a task is a meaning of the task alone.
pub trait Inducts: Step {
    /// The induction of a task that was pushed as number `k`.
    ghost inducted: { Self.Task → ℕ → Self.Task };

    /// How many inductions may stand within each other below a task.
    ghost rank: { Self.Task → ℕ };

    /// Whether no induction may be made.
    ghost forbids: { Self → Bool };

    /// The induction of a task that a walk pushed as number `k`, from 1. The only error is want of memory.
    fn induct(&self, alloc: Global, task: &Self::Task, k: u32) -> Result<Self::Task, NoMemory>
        requires { 1 ≤ k }
        ensures { IfOk result (λ induction. induction ≡ inducted task.now k) };

    /// Whether a hint forbids induction (the manual's topic `do-not-induct`). Takes no memory.
    fn forbids_induction(&self) -> bool
        ensures { result ≡ forbids self.now };

    // An induction has the name of the pushed goal.
    ghost called: { (task : Self.Task) (k : ℕ) → 1 ≤ k → Self.name (inducted task k) ≡ pushed_of (Self.name task) k };

    // A task's children have no greater rank.
    ghost same_rank: { (task : Self.Task) → Each (λ child. rank child ≤ rank task) (out_children (Self.step_of task).out) };

    // The induction of a task that is pushed has less rank.
    ghost less_rank: { (task : Self.Task) (k : ℕ) → 1 ≤ k → (Self.step_of task).out ≡ Out.Push → rank (inducted task k) < rank task };

    // Where the induction of a task is good the task is good.
    ghost shows: { (task : Self.Task) (k : ℕ) → 1 ≤ k → Self.good (inducted task k) → Self.good task };
}

impl<'a, J: Planned> Inducts for Acl2Step<'a, J> {
    ghost use Rattle.std.proofs.Common.{refl};
    ghost use Rattle.ap_strategy.specs.Goals.{inducted};
    ghost use Rattle.ap_strategy.specs.Laws.{by_induction};
    ghost use Rattle.ap_strategy.specs.Ranks.{rank_of, ranked, falling};

    ghost inducted = { inducted };

    ghost rank = { rank_of };

    ghost forbids = { λ s. s.plan.now.hints.do_not_induct };

    ghost called = { λ task k some. refl };

    ghost same_rank = { ranked };

    ghost less_rank = { falling };

    ghost shows = { λ task k some good. by_induction task k good };

    fn induct(&self, alloc: Global, task: &Task<'a, J>, k: u32) -> Result<Task<'a, J>, NoMemory> {
        induct_task(alloc, task, k)
    }

    fn forbids_induction(&self) -> bool {
        self.do_not_induct()
    }
}

/// A waterfall that proves what it pushes by induction, unless a hint forbids it, and that reverts to the goal as it
/// came.
#[derive(Drop)]
pub struct Proving<S> {
    pub step: S,
}

impl<S: Step> Step for Proving<S> {
    type Task = S::Task;

    ghost step_of = { S.step_of };

    ghost good = { S.good };

    ghost name = { S.name };

    ghost depth = { S.depth };

    ghost tells = { S.tells };

    ghost deeper = { S.deeper };

    ghost whole = { S.whole };

    fn step(&self, alloc: Global, task: &S::Task) -> Result<Stepped<S::Task>, NoMemory> {
        self.step.step(alloc, task)
    }

    fn copy_task(&self, alloc: Global, task: &S::Task) -> Result<S::Task, NoMemory> {
        self.step.copy_task(alloc, task)
    }

    fn same_task(&self, a: &S::Task, b: &S::Task) -> bool {
        self.step.same_task(a, b)
    }

    fn name_of(&self, alloc: Global, task: &S::Task) -> Result<GoalName, NoMemory> {
        self.step.name_of(alloc, task)
    }
}

impl<S: Inducts> Prover for Proving<S> {
    ghost use Rattle.std.proofs.Common.{refl};

    ghost inducted = { S.inducted };

    ghost original_of = { λ root. root };

    ghost rank = { S.rank };

    ghost refuses_induction = { λ p. S.forbids p.step };

    ghost named = { S.called };

    ghost original_named = { λ root. refl };

    ghost ranked = { S.same_rank };

    ghost falling = { S.less_rank };

    ghost by_induction = { S.shows };

    ghost by_original = { λ root good. good };

    fn induct_task(&self, alloc: Global, task: &S::Task, k: u32) -> Result<S::Task, NoMemory> {
        self.step.induct(alloc, task, k)
    }

    fn original(&self, alloc: Global, root: &S::Task) -> Result<S::Task, NoMemory> {
        self.step.copy_task(alloc, root)
    }

    fn do_not_induct(&self) -> bool {
        self.step.forbids_induction()
    }
}
