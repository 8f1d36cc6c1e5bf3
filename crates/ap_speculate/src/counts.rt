//! How many goals and workers there are.
use crate::supply::Children;
use std::sync::atomic::AtomicU64;
use std::sync::atomic::Ordering::SeqCst;

/// How many goals were made to be worked at a table, and how many workers there are.
#[derive(Drop)]
pub(crate) struct Counts {
    goals: AtomicU64,
    workers: AtomicU64,
}

impl Counts {
    /// One goal, the root, and one worker.
    pub(crate) fn new() -> Counts {
        Counts {
            goals: AtomicU64::new(1),
            workers: AtomicU64::new(1),
        }
    }

    /// Adds a node's children to the goals, in place of the node.
    pub(crate) fn add_goals(&self, children: Option<Children>) {
        if let Some(Children { count, .. }) = children {
            self.goals
                .fetch_add((count as u64).saturating_sub(1), SeqCst);
        }
    }

    /// Counts one worker more, where there are more goals than workers. Answers whether it did.
    pub(crate) fn add_worker(&self) -> bool {
        let goals = self.goals.load(SeqCst);
        if self.workers.load(SeqCst) >= goals {
            return false;
        }
        if self.workers.fetch_add(1, SeqCst) < goals {
            return true;
        }
        self.workers.fetch_sub(1, SeqCst);
        false
    }
}
