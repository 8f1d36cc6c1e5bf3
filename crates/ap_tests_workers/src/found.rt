//! A job that a goal table under a lock handed out.
use ap_table::Job;
use ap_walk::Step;
use std::marker::Model;

/// Its seats look at words that were their families'.
#[derive(Drop)]
pub(crate) struct Found<S: Step> {
    pub(crate) job: Job<S::Task>,
}

impl<S: Step> Model for Found<S> {
    ghost use Rattle.ap_list.specs.Lists.{Each};
    ghost use Rattle.ap_table.specs.declared.stored.Job.{Job};
    ghost use Rattle.ap_table.specs.Worded.{WasOf};

    ghost Value = { Job S.Task };

    ghost view = { λ f. f.job };

    ghost invariant = { λ f. Each (WasOf S.step_of S.depth) f.job.seats };
}
