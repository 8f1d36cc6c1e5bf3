//! What a worker does with a job at a table: at one that it shares, or at a state that is its own.
ghost use Rattle.std.specs.Prelude.{◌≡◌, ◌≤◌, ℕ, Some, length};
ghost use Rattle.std.specs.List.{slice_get};
ghost use Rattle.ap_list.specs.Lists.{Each};
ghost use Rattle.ap_walk.specs.Visits.{out_children};
ghost use Rattle.ap_walk.specs.Walks.{full};
ghost use Rattle.ap_word.specs.Seats.{TableId};
ghost use Rattle.ap_table.specs.Seated.{HasLooked};
ghost use Rattle.ap_table.specs.Steps.{Grows, Puts, Drops};
ghost use Rattle.ap_table.specs.Locked.{OneStep};
ghost use Rattle.ap_table.specs.Shown.{Run};
ghost use Rattle.ap_table.specs.Worded.{IsOf, WasWord, WasOf};
ghost use Rattle.ap_speculate.specs.Boards.{ComesBack, LooksAt};

use ap_table::{GoalTable, Grown, Job, License, TableState, Taken};
use ap_walk::{Step, Stepped, Walked};
use std::alloc::Global;
use std::sync::Wait;

/// A table at which one worker works.
pub(crate) trait Board<S: Step> {
    /// That a call did a step of this kind: at a state of one's own the step led from the one to the other, at a table
    /// that is shared it was some step of it.
    ghost did: { Self → (Run S.Task → Run S.Task → Type 0) → Self → Type 0 };

    /// That this is the word of a family: the one that is kept of it in a state of one's own, or, at a table that is
    /// shared, one that was.
    ghost word: { Self → ℕ → TableId → Type 0 };

    /// Puts the children of a job's task into the table.
    fn expand(
        &mut self,
        alloc: Global,
        step: &S,
        job: Job<S::Task>,
        stepped: Stepped<S::Task>,
    ) -> Grown<S::Task>
        requires stepped { stepped ≡ S.step_of job.task }
        requires many { 2 ≤ length (out_children stepped.out) }
        ensures done { did self.old (λ a b. Grows S.step_of S.depth a b job stepped result) self.new }
        ensures back { ComesBack job result }
        ensures words { (k : ℕ) (t : TableId) → word self.old k t → word self.new k t };

    /// Puts the walk of a job's task.
    fn put(&mut self, step: &S, job: Job<S::Task>, walked: Walked<S::Task>) -> Taken<S::Task>
        requires walked { walked ≡ full S.step_of S.depth job.rule job.task }
        requires words { Each (LooksAt (word self.old)) job.seats }
        requires looked { Each (HasLooked (length walked.marks)) job.seats }
        ensures { did self.old (λ a b. Puts S.step_of S.depth a b job result) self.new };

    /// Drops a job's node.
    fn put_drop(&mut self, step: &S, job: Job<S::Task>, license: License) -> Taken<S::Task>
        ensures { did self.old (λ a b. Drops S.step_of S.depth a b job license result) self.new };
}

/// A table that workers share.
#[derive(Drop)]
pub(crate) struct Shared<'a, S: Step, R> {
    pub(crate) rt: &'a R,
    pub(crate) table: &'a GoalTable<S>,
}

impl<'a, S: Step, R: Wait> Board<S> for Shared<'a, S, R> {
    ghost did = { λ _ does _. OneStep S.step_of S.depth does };

    ghost word = { λ _ k t. WasWord S.step_of S.depth k t };

    #[tactic(auto, using(crate::proofs::Handing::shared_back))]
    fn expand(
        &mut self,
        alloc: Global,
        step: &S,
        job: Job<S::Task>,
        stepped: Stepped<S::Task>,
    ) -> Grown<S::Task>
        requires stepped { stepped ≡ S.step_of job.task }
        requires many { 2 ≤ length (out_children stepped.out) }
        ensures done { OneStep S.step_of S.depth (λ a b. Grows S.step_of S.depth a b job stepped result) }
        ensures back { ComesBack job result }
        ensures words { (k : ℕ) (t : TableId) → WasWord S.step_of S.depth k t → WasWord S.step_of S.depth k t }
    {
        self.table.expand(self.rt, alloc, step, job, stepped)
    }

    fn put(&mut self, step: &S, job: Job<S::Task>, walked: Walked<S::Task>) -> Taken<S::Task>
        requires walked { walked ≡ full S.step_of S.depth job.rule job.task }
        requires words { Each (WasOf S.step_of S.depth) job.seats }
        requires looked { Each (HasLooked (length walked.marks)) job.seats }
        ensures { OneStep S.step_of S.depth (λ a b. Puts S.step_of S.depth a b job result) }
    {
        self.table.put(self.rt, step, job, walked)
    }

    fn put_drop(&mut self, step: &S, job: Job<S::Task>, license: License) -> Taken<S::Task>
        ensures { OneStep S.step_of S.depth (λ a b. Drops S.step_of S.depth a b job license result) }
    {
        self.table.put_drop(self.rt, step, job, license)
    }
}

impl<S: Step> Board<S> for TableState<S> {
    ghost did = { λ old does new. does old.run new.run };

    ghost word = { λ s k t. slice_get s.words k ≡ Some (Some t) };

    #[tactic(auto, using(crate::proofs::Handing::grows_back))]
    fn expand(
        &mut self,
        alloc: Global,
        step: &S,
        job: Job<S::Task>,
        stepped: Stepped<S::Task>,
    ) -> Grown<S::Task>
        requires stepped { stepped ≡ S.step_of job.task }
        requires many { 2 ≤ length (out_children stepped.out) }
        ensures done { Grows S.step_of S.depth self.old.run self.new.run job stepped result }
        ensures back { ComesBack job result }
        ensures words { (k : ℕ) (t : TableId) → slice_get self.old.words k ≡ Some (Some t) → slice_get self.new.words k ≡ Some (Some t) }
    {
        self.expand_step(alloc, step, job, stepped)
    }

    fn put(&mut self, step: &S, job: Job<S::Task>, walked: Walked<S::Task>) -> Taken<S::Task>
        requires walked { walked ≡ full S.step_of S.depth job.rule job.task }
        requires words { Each (IsOf self.old.words) job.seats }
        requires looked { Each (HasLooked (length walked.marks)) job.seats }
        ensures { Puts S.step_of S.depth self.old.run self.new.run job result }
    {
        self.put_step(step, job, walked)
    }

    fn put_drop(&mut self, step: &S, job: Job<S::Task>, license: License) -> Taken<S::Task>
        ensures { Drops S.step_of S.depth self.old.run self.new.run job license result }
    {
        self.drop_step(step, job, license)
    }
}
