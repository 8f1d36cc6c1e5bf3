//! Workers that are refused memory while they work: all stop, and nobody waits for a node that is given up.

use crate::tree::{Counting, Task, fresh_step, watching_step};
use crate::walks::{DEEP, initial, same_walk, worked};
use crate::watching::{Call, Watch};
use ap_speculate::NoGate;
use ap_walk::{NoMemory, Walked, serial};
use std::alloc::Global;
use std::process::Abort;
use std::sync::Wait;
use std::thread::Threads;

/// How often each walk is made.
const TIMES: u32 = 2;

/// Where memory is refused: a kind of call, the level and the number of its task, and behind how many of such calls.
type Refusal = (Call, u32, u32, u64);

/// A task below the root is copied twice when its family is made, and once more when it is walked.
const REFUSALS: &[Refusal] = &[
    (Call::Step, 4, 11, 0),
    (Call::Step, 2, 100, 0),
    (Call::Step, 1, 297, 0),
    (Call::Step, 0, 892, 0),
    (Call::Copy, 3, 33, 0),
    (Call::Copy, 3, 35, 1),
    (Call::Copy, 1, 299, 0),
    (Call::Copy, 1, 323, 1),
    (Call::Copy, 1, 316, 2),
    (Call::Name, 3, 34, 0),
    (Call::Name, 1, 297, 0),
];

/// The step that refuses memory there, so often.
fn refusing(refusal: Refusal, times: u64) -> Counting {
    let (call, level, number, after) = refusal;
    let task = Task { level, number };
    watching_step(Watch::refusing(call, task, after, times))
}

/// Works the root by so many workers, to whom memory is refused each time: the answer is want of memory.
fn expect_refused<R: Threads + Wait + Sync + Abort>(
    rt: &R,
    alloc: Global,
    refusal: Refusal,
    workers: u32,
) {
    let step = refusing(refusal, u64::MAX);
    let rule = initial(true, 1000);
    let Err(_) = worked(rt, alloc, &step, DEEP, rule, workers, &NoGate) else {
        panic!(rt; "memory was refused, and there is an answer");
    };
    assert!(rt; step.watch.has_refused());
}

#[test]
fn all_workers_stop_where_memory_is_refused(rt: HostRuntime) {
    for refusal in REFUSALS {
        for workers in [1, 2, 8] {
            for _ in 0..TIMES {
                expect_refused(&rt, rt.alloc(), *refusal, workers);
            }
        }
    }
}

/// Works the root in the same way, where memory is refused once: all workers stop, and one works the root alone.
fn expect_worked<R: Threads + Wait + Sync + Abort>(
    rt: &R,
    alloc: Global,
    refusal: Refusal,
    workers: u32,
    wanted: &Walked<Task>,
) -> Result<(), NoMemory> {
    let step = refusing(refusal, 1);
    let rule = initial(true, 1000);
    let walked = worked(rt, alloc, &step, DEEP, rule, workers, &NoGate)?;
    assert!(rt; step.watch.has_refused());
    assert!(rt; same_walk(&walked, wanted));
    Ok(())
}

#[test]
fn what_is_refused_once_is_worked_alone(rt: HostRuntime) -> Result<(), NoMemory> {
    let wanted = serial(rt.alloc(), &fresh_step(), &DEEP, initial(true, 1000))?;
    for refusal in REFUSALS {
        for workers in [1, 2, 8] {
            for _ in 0..TIMES {
                expect_worked(&rt, rt.alloc(), *refusal, workers, &wanted)?;
            }
        }
    }
    Ok(())
}
