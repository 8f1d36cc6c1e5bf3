//! The goal table under a lock. Nothing is known of what is under a lock but what its type keeps, so a call says
//! that there was a table of that type at which it did its one step, or its one look, and not which table. Workers
//! wait for each other by the history's length: each call that makes it longer wakes who waits, a claim one and the
//! others all, since a claim leaves no more to do. No clause says that a waiter wakes.
ghost use Rattle.std.specs.Prelude.{◌≡◌, ◌≤◌, true, false, length, IsTrue, ◌↔◌};
ghost use Rattle.ap_walk.specs.Visits.{out_children};
ghost use Rattle.ap_walk.specs.Walks.{full};
ghost use Rattle.ap_table.specs.Steps.{Claims, ClaimsAt, Grows, Puts, Drops};
ghost use Rattle.ap_list.specs.Lists.{Each};
ghost use Rattle.ap_table.specs.Seated.{HasLooked};
ghost use Rattle.ap_table.specs.Locked.{OneStep, OneLook, Waits, WasAllowed};
ghost use Rattle.ap_table.specs.Worded.{WasOf, FoundWas};

use crate::link::License;
use crate::state::{TableState, first};
use crate::stored::{Claim, Grown, Job, Taken};
use ap_list::NoMemory;
use ap_walk::{Rule, Step, Stepped, Walked};
use std::alloc::Global;
use std::sync::{Condvar, Mutex, Wait};

/// What lies under the lock: the table, and whether it was halted.
#[derive(Drop)]
struct Held<S: Step> {
    state: TableState<S>,
    halted: bool,
}

/// A goal table that workers share. Each call takes the lock, does one step of the table and lets go, or looks at
/// it. A worker that finds nothing to do waits here until there is more.
#[derive(Drop)]
pub struct GoalTable<S: Step> {
    held: Mutex<Held<S>>,
    moved: Condvar,
}

/// A table that isn't halted.
fn begun<S: Step>(state: TableState<S>) -> Held<S>
    ensures state { result.state ≡ state }
    ensures runs { result.halted ≡ false }
{
    Held {
        state,
        halted: false,
    }
}

/// A table of one free node, the root, under a rule. It isn't halted. The only error is want of memory.
pub fn begin<S: Step>(
    alloc: Global,
    step: &S,
    task: S::Task,
    rule: Rule,
) -> Result<GoalTable<S>, NoMemory> {
    let state = first(alloc, step, task, rule)?;
    Ok(GoalTable {
        held: Mutex::new(begun(state)),
        moved: Condvar::new(),
    })
}

impl<S: Step> Held<S> {
    /// Marks the table halted.
    fn halt(&mut self)
        ensures state { self.new.state ≡ self.old.state }
        ensures halted { self.new.halted ≡ true }
    {
        self.halted = true;
    }

    /// Whether the table was halted.
    fn was_halted(&self) -> bool
        ensures { result ≡ self.now.halted }
    {
        self.halted
    }

    /// The history's length, of a table each of whose steps was allowed.
    fn length(&self) -> u64
        ensures is { result ≡ length self.now.state.run.history }
        ensures allowed { WasAllowed S.step_of S.depth self.now.state.run }
    {
        self.state.recall_allowed();
        self.state.history().len() as u64
    }

    /// Whether a worker that has seen so much of the history waits on. It looks at one node.
    fn waits(&self, seen: u64) -> bool
        ensures { IsTrue result ↔ Waits S.step_of S.depth seen self.now.state.run self.now.halted }
    {
        self.length() <= seen && !self.state.is_done() && !self.halted
    }
}

impl<S: Step> GoalTable<S> {
    /// Claims the first free node in serial order, and wakes one who waits; or no node is free.
    pub fn claim(&self, rt: &impl Wait) -> Claim<S::Task>
        ensures step { OneStep S.step_of S.depth (λ old new. Claims S.step_of S.depth old new result) }
        ensures of { FoundWas S.step_of S.depth result }
    {
        let mut guard = self.held.lock(rt);
        let state = &mut guard.state;
        let claim = state.claim_step();
        state.recall_allowed();
        if let Claim::Found(_) = &claim {
            self.moved.notify_one();
        }
        claim
    }

    /// Claims this node, and wakes one who waits; or it isn't there or isn't free.
    pub fn claim_node(&self, rt: &impl Wait, node: u32) -> Claim<S::Task>
        ensures step { OneStep S.step_of S.depth (λ old new. ClaimsAt S.step_of S.depth old new node result) }
        ensures of { FoundWas S.step_of S.depth result }
    {
        let mut guard = self.held.lock(rt);
        let state = &mut guard.state;
        let claim = state.claim_node_step(node);
        state.recall_allowed();
        if let Claim::Found(_) = &claim {
            self.moved.notify_one();
        }
        claim
    }

    /// Puts the children of a job's task into the table, and wakes all who wait. A stranger is a job that isn't the
    /// table's, or one whose node has three families above it, or there would be more than 1,000,000 nodes.
    pub fn expand(
        &self,
        rt: &impl Wait,
        alloc: Global,
        step: &S,
        job: Job<S::Task>,
        stepped: Stepped<S::Task>,
    ) -> Grown<S::Task>
        requires stepped { stepped ≡ S.step_of job.task }
        requires many { 2 ≤ length (out_children stepped.out) }
        ensures { OneStep S.step_of S.depth (λ old new. Grows S.step_of S.depth old new job stepped result) }
    {
        let mut guard = self.held.lock(rt);
        let state = &mut guard.state;
        let grown = state.expand_step(alloc, step, job, stepped);
        state.recall_allowed();
        if let Grown::Family { .. } = &grown {
            self.moved.notify_all();
        }
        grown
    }

    /// Puts the walk of a job's task, once each of the job's seats has made a look for each of the walk's marks at the
    /// word of its family, and has seen no stop before its place; marks each family above it that is known to stop then, and wakes all
    /// who wait. A stranger is a job that isn't the table's, or one whose node can still be expanded.
    pub fn put(
        &self,
        rt: &impl Wait,
        step: &S,
        job: Job<S::Task>,
        walked: Walked<S::Task>,
    ) -> Taken<S::Task>
        requires walked { walked ≡ full S.step_of S.depth job.rule job.task }
        requires words { Each (WasOf S.step_of S.depth) job.seats }
        requires looked { Each (HasLooked (length walked.marks)) job.seats }
        ensures { OneStep S.step_of S.depth (λ old new. Puts S.step_of S.depth old new job result) }
    {
        let mut guard = self.held.lock(rt);
        let state = &mut guard.state;
        let taken = state.keep_walk(step, job, walked);
        state.recall_allowed();
        if let Taken::Kept = &taken {
            self.moved.notify_all();
        }
        taken
    }

    /// Drops a job's node, and wakes all who wait. A stranger is a job that isn't the table's, or the licence isn't
    /// one for its node.
    pub fn put_drop(
        &self,
        rt: &impl Wait,
        step: &S,
        job: Job<S::Task>,
        license: License,
    ) -> Taken<S::Task>
        ensures { OneStep S.step_of S.depth (λ old new. Drops S.step_of S.depth old new job license result) }
    {
        let mut guard = self.held.lock(rt);
        let state = &mut guard.state;
        let taken = state.drop_step(step, job, license);
        state.recall_allowed();
        if let Taken::Kept = &taken {
            self.moved.notify_all();
        }
        taken
    }

    /// The history's length at one moment.
    pub fn length(&self, rt: &impl Wait) -> u64
        ensures { OneLook S.step_of S.depth (λ run. result ≡ length run.history) }
    {
        let guard = self.held.lock(rt);
        let held = &*guard;
        held.length()
    }

    /// Waits until the history is longer than `seen`, the root is done or the table is halted; answers the
    /// history's length then. Past a claim alone it may wait on. The lock is free while it waits. A worker asks for
    /// the length first and then looks for work: where it finds none and waits with that length, it misses no step
    /// that came between.
    pub fn wait_more(&self, rt: &impl Wait, seen: u64) -> u64
        ensures { OneLook S.step_of S.depth (λ run. result ≡ length run.history) }
    {
        let guard = self
            .moved
            .wait_while(rt, self.held.lock(rt), |held| held.waits(seen));
        let held = &*guard;
        held.length()
    }

    /// Marks the table halted and wakes all who wait. A worker that was refused memory calls it, so that nobody
    /// waits for its node. Steps are taken as before.
    pub fn halt(&self, rt: &impl Wait) {
        let mut guard = self.held.lock(rt);
        guard.halt();
        self.moved.notify_all();
    }

    /// Whether the table was halted.
    pub fn halted(&self, rt: &impl Wait) -> bool {
        self.held.lock(rt).was_halted()
    }

    /// The state, once nobody shares the table any more. Each of its steps was allowed.
    pub fn into_state(self) -> TableState<S>
        ensures { WasAllowed S.step_of S.depth result.run }
    {
        let GoalTable { held, .. } = self;
        let Held { state, .. } = held.into_inner();
        state.recall_allowed();
        state
    }
}
