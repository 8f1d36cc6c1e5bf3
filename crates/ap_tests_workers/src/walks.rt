//! What workers put together is what the serial walk gives.
ghost use Rattle.std.specs.Prelude.{◌≤◌};

use crate::gates::Holding;
use crate::tree::{Counting, Task, fresh_step};
use ap_speculate::{Gate, NoGate, speculate};
use ap_walk::{End, Mark, NoMemory, Reason, Rule, Walked, serial};
use std::alloc::Global;
use std::process::Abort;
use std::sync::Wait;
use std::sync::atomic::Ordering::SeqCst;
use std::thread::Threads;

/// How often each walk is made.
const TIMES: u32 = 20;

/// A root with three children, each of which splits into no tasks.
const THREE: Task = Task {
    level: 1,
    number: 0,
};

/// A root with families within families, of which the innermost lie below three others. Nothing below it stops.
pub(crate) const DEEP: Task = Task {
    level: 4,
    number: 11,
};

/// The rule of an initial walk.
pub(crate) fn initial(otf: bool, goal_limit: u32) -> Rule
    requires limited { (1 ≤ goal_limit) × (goal_limit ≤ 200002) }
{
    Rule {
        initial: true,
        otf,
        revert: 2,
        goal_limit,
    }
}

/// The walk that workers make of a root.
pub(crate) fn worked<G: Gate + Sync, R: Threads + Wait + Sync>(
    rt: &R,
    alloc: Global,
    step: &Counting,
    root: Task,
    rule: Rule,
    workers: u32,
    gate: &G,
) -> Result<Walked<Task>, NoMemory> {
    let state = speculate(rt, alloc, step, &root, rule, workers, gate)?;
    let (walked, _) = state.finish(alloc, step)?;
    Ok(walked)
}

/// Whether two marks are equal.
fn same_mark(a: &Mark<Task>, b: &Mark<Task>) -> bool {
    a.task == b.task && a.act == b.act && a.children == b.children
}

/// Whether two walks are equal.
pub(crate) fn same_walk(a: &Walked<Task>, b: &Walked<Task>) -> bool {
    let marks = a.marks.as_slice();
    let others = b.marks.as_slice();
    if marks.len() != others.len() || a.tally != b.tally || a.end != b.end {
        return false;
    }
    for (mark, other) in marks.iter().zip(others) {
        if !same_mark(mark, other) {
            return false;
        }
    }
    true
}

/// Compares the walks of a root, of so many marks and with this end.
fn expect_serial<R: Threads + Wait + Abort + Sync>(
    rt: &R,
    alloc: Global,
    root: Task,
    rule: Rule,
    wanted: (usize, End),
) -> Result<(), NoMemory> {
    let step = fresh_step();
    let serial = serial(alloc, &step, &root, rule)?;
    assert_eq!(rt; (serial.marks.len(), serial.end), wanted);
    for workers in [1, 2, 3, 8, 64] {
        for _ in 0..TIMES {
            let walked = worked(rt, alloc, &step, root, rule, workers, &NoGate)?;
            assert!(rt; same_walk(&walked, &serial));
        }
    }
    Ok(())
}

/// Each row: a root's level and number, and its rule's switch and limit; and how many marks its walk has, and its end.
const ROWS: &[(u32, u32, bool, u32, (usize, End))] = &[
    (4, 11, true, 1000, (49, End::Through)),
    (4, 11, false, 1000, (32, End::Revert)),
    // Early.
    (4, 111, false, 1000, (30, End::Stopped(Reason::NoScheme))),
    // Late.
    (4, 15, true, 1000, (47, End::Stopped(Reason::NoScheme))),
    (4, 11, true, 25, (25, End::Limit)),
];

#[test]
fn walks_are_the_serial_ones(rt: HostRuntime) -> Result<(), NoMemory> {
    for (level, number, otf, limit, wanted) in ROWS {
        let root = Task {
            level: *level,
            number: *number,
        };
        let rule = initial(*otf, (*limit).clamp(1, 1000));
        expect_serial(&rt, rt.alloc(), root, rule, *wanted)?;
    }
    Ok(())
}

/// Works a root by so many workers, where nothing is dropped: as many steps are taken as tasks are visited.
fn expect_one_step_each<R: Threads + Wait + Sync + Abort>(
    rt: &R,
    alloc: Global,
    root: Task,
    workers: u32,
    wanted: usize,
) -> Result<(), NoMemory> {
    let step = fresh_step();
    let rule = initial(true, 1000);
    let walked = worked(rt, alloc, &step, root, rule, workers, &NoGate)?;
    assert_eq!(rt; (walked.marks.len(), walked.end), (wanted, End::Through));
    assert_eq!(rt; step.calls.load(SeqCst), wanted as u64);
    Ok(())
}

/// A node below three families isn't expanded. Were it tried, the table would refuse it, and its step be taken again.
#[test]
fn a_claimed_task_and_one_below_three_families_are_stepped_once(
    rt: HostRuntime,
) -> Result<(), NoMemory> {
    for _ in 0..TIMES {
        expect_one_step_each(&rt, rt.alloc(), THREE, 2, 4)?;
    }
    for workers in [1, 2, 2, 3, 3, 8, 8] {
        expect_one_step_each(&rt, rt.alloc(), DEEP, workers, 49)?;
    }
    Ok(())
}

/// Works the root with three children by two workers, of which one is held at the first child until the second is done.
fn expect_two_at_a_time<R: Threads + Wait + Sync + Abort>(
    rt: &R,
    alloc: Global,
) -> Result<(), NoMemory> {
    let step = fresh_step();
    let gate = Holding::new();
    let walked = worked(rt, alloc, &step, THREE, initial(false, 100), 2, &gate)?;
    assert_eq!(rt; (walked.marks.len(), walked.end), (4, End::Through));
    assert!(rt; gate.has_held());
    assert!(rt; !gate.is_used_up());
    Ok(())
}

#[test]
fn two_children_are_worked_at_a_time(rt: HostRuntime) -> Result<(), NoMemory> {
    for _ in 0..TIMES {
        expect_two_at_a_time(&rt, rt.alloc())?;
    }
    Ok(())
}
