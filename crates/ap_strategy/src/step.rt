ghost use Rattle.std.specs.Prelude.{◌≡◌, IfOk, IfSome, IsTrue};
ghost use Rattle.std.specs.Option.{option_map};
ghost use Rattle.ap_world.specs.Sound.{known, HasFunctions};
ghost use Rattle.ap_hints.specs.Known.{KnownHints};
ghost use Rattle.ap_kernel.specs.Reductions.{Reduces};
ghost use Rattle.ap_strategy.specs.Goals.{defs_of, root_goal};
ghost use Rattle.ap_strategy.specs.Leads.{said_once, reduction_of};

use crate::depth::fits;
use crate::plan::{Plan, Planned};
use crate::reducing::reduction_of;
use crate::stepping::step_of;
use crate::task::{Task, copy_task, root_task, same_task};
use ap_kernel::Reduction;
use ap_list::NoMemory;
use ap_names::GoalName;
use ap_term::Term;
use ap_walk::{Step, Stepped};
use std::alloc::{AllocError, Global};
use std::marker::PhantomData;

/// The waterfall of one plan, over the tasks of its brand.
#[derive(Drop)]
pub struct Acl2Step<'a, J: Planned> {
    plan: &'a Plan,
    /// Whether a goal's clause shares its calls with what it was made from.
    shares: bool,
    of: PhantomData<J>,
}

impl<'a, J: Planned> Acl2Step<'a, J> {
    /// The waterfall of a plan, which is the brand's, for so many workers. Each step is the same for any number: with 0
    /// or 1 it copies a goal's clause at a count, with more call by call, so that the workers don't wait for each other
    /// at the counts of its parts. Takes no memory.
    pub fn new(plan: &'a Plan, workers: u32) -> Acl2Step<'a, J>
        requires brand { plan.now ≡ J.plan }
        ensures { result.plan.now ≡ plan.now }
    {
        Acl2Step {
            plan,
            shares: workers <= 1,
            of: PhantomData,
        }
    }

    /// The plan. Takes no memory.
    pub fn plan(&self) -> &'a Plan
        ensures { result.now ≡ self.now.plan.now }
    {
        self.plan
    }

    /// Whether the plan's hints say that nothing is to be proved by induction. Takes no memory.
    pub fn do_not_induct(&self) -> bool
        ensures { result ≡ self.now.plan.now.hints.do_not_induct }
    {
        self.plan.hints.do_not_induct
    }

    /// The task that the attempt on a term starts from. The only error is want of memory.
    pub fn root(&self, alloc: Global, term: &Term) -> Result<Task<'a, J>, NoMemory>
        requires brand { self.now.plan.now ≡ J.plan }
        requires functions { HasFunctions (defs_of self.now.plan.now) }
        requires term { IsTrue (known (defs_of self.now.plan.now) term.now) }
        requires hints { KnownHints self.now.plan.now.world.entries self.now.plan.now.hints }
        ensures { IfOk result (λ t. t ≡ root_goal self.now.plan.now term.now) }
    {
        root_task(alloc, self.plan, term)
    }

    /// From a task's clause to the clauses of its step's children, by the kernel's rows. Simplification leaves later equal
    /// clauses out of the children; here each stands as often as the rows lead to it. `None` exactly where the step
    /// pushes the task or stops at it. The only error is want of memory, as at the step.
    pub fn reduce(&self, alloc: Global, task: &Task<'a, J>) -> Result<Option<Reduction>, NoMemory>
        ensures made { IfOk result (λ o. option_map said_once o ≡ reduction_of task.now) }
        ensures stands { IfOk result (λ o. IfSome o (Reduces task.now.plan.world)) }
    {
        if !fits(&task.clause) {
            return Err(AllocError);
        }
        reduction_of(alloc, task, self.shares)
    }
}

impl<'a, J: Planned> Step for Acl2Step<'a, J> {
    ghost use Rattle.ap_strategy.specs.Steps.{step_of, depth_of, IsGood};
    ghost use Rattle.ap_strategy.specs.Laws as laws;

    type Task = Task<'a, J>;

    ghost step_of = { step_of };

    ghost good = { IsGood };

    ghost name = { λ g. g.name };

    ghost depth = { depth_of };

    ghost tells = { laws.tells };

    ghost deeper = { laws.deeper };

    ghost whole = { laws.whole };

    /// A clause that the stack doesn't hold is want of memory.
    fn step(&self, alloc: Global, task: &Task<'a, J>) -> Result<Stepped<Task<'a, J>>, NoMemory> {
        if !fits(&task.clause) {
            return Err(AllocError);
        }
        step_of(alloc, task, self.shares)
    }

    fn copy_task(&self, alloc: Global, task: &Task<'a, J>) -> Result<Task<'a, J>, NoMemory> {
        copy_task(alloc, task)
    }

    fn same_task(&self, a: &Task<'a, J>, b: &Task<'a, J>) -> bool {
        same_task(a, b)
    }

    fn name_of(&self, alloc: Global, task: &Task<'a, J>) -> Result<GoalName, NoMemory> {
        task.name.copy(alloc)
    }
}
