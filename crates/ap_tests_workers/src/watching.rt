//! A watch over one kind of call of a step with one task: how often it came, and which of these calls are refused memory.

use crate::tree::Task;
use ap_walk::NoMemory;
use std::alloc::AllocError;
use std::sync::atomic::AtomicU64;
use std::sync::atomic::Ordering::SeqCst;

/// A kind of call of a step.
#[derive(Clone, Copy, PartialEq, Debug)]
pub(crate) enum Call {
    Step,
    Copy,
    Name,
    Compare,
}

/// Counts the calls of one kind with one task, and refuses memory to so many of them, behind those before.
#[derive(Drop)]
pub(crate) struct Watch {
    call: Call,
    task: Task,
    after: u64,
    times: u64,
    pub(crate) came: AtomicU64,
}

impl Watch {
    /// Refuses memory to so many calls, behind so many to which it doesn't.
    pub(crate) fn refusing(call: Call, task: Task, after: u64, times: u64) -> Watch {
        Watch {
            call,
            task,
            after,
            times,
            came: AtomicU64::new(0),
        }
    }

    /// Counts alone.
    pub(crate) fn refusing_none(call: Call, task: Task) -> Watch {
        Watch::refusing(call, task, 0, 0)
    }

    /// Whether a call was refused memory.
    pub(crate) fn has_refused(&self) -> bool {
        self.came.load(SeqCst) > self.after
    }

    /// Counts a call, where it is one that is watched. Answers whether memory is refused to it.
    pub(crate) fn refuses(&self, call: Call, task: &Task) -> bool {
        if call != self.call || *task != self.task {
            return false;
        }
        let before = self.came.fetch_add(1, SeqCst);
        before >= self.after && before - self.after < self.times
    }

    /// Counts a call in the same way. An error where memory is refused to it.
    pub(crate) fn pass(&self, call: Call, task: &Task) -> Result<(), NoMemory> {
        if self.refuses(call, task) {
            return Err(AllocError);
        }
        Ok(())
    }
}
