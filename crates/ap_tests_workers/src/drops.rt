//! A job that is begun, and then to be dropped, is dropped, and that is noted.

use crate::gates::Stopping;
use crate::jobs::{RULE, STOPPED};
use crate::tree::{Task, watching_step};
use crate::watching::{Call, Watch};
use ap_speculate::speculate;
use ap_table::{DropNote, License};
use ap_walk::{End, NoMemory, Reason};
use std::alloc::Global;
use std::process::Abort;
use std::sync::Wait;
use std::thread::Threads;

/// How often it is done.
const TIMES: u32 = 20;

/// The last of the three children. The table compares it with its own only when it is handed in.
const LAST: Task = Task {
    level: 0,
    number: 47,
};

/// Compares a note with the number of the dropped goal. What stops is `Subgoal 3`, the first of the root's children.
fn expect_note(rt: &impl Abort, note: &DropNote, dropped: u32) {
    let wanted = License {
        family: 0,
        index: 0,
    };
    assert_eq!(rt; note.license, wanted);
    assert_eq!(rt; note.dropped.path.as_slice(), [dropped].as_slice());
    assert_eq!(rt; note.stopped.path.as_slice(), [3].as_slice());
}

/// Compares the notes of what was dropped: the last child, before it was begun, and then the second.
fn expect_notes(rt: &impl Abort, notes: &[DropNote]) {
    let [last, second] = notes else {
        panic!(rt; "two drops are to be noted");
    };
    expect_note(rt, last, 1);
    expect_note(rt, second, 2);
}

/// Works a root by two workers. One of them has begun the second child when the other finds that the first one stops; that
/// one goes on to the last child, finds it behind the stop and hands it in, and only then does the gate let the second go on.
fn expect_drops<R: Threads + Wait + Sync + Abort>(rt: &R, alloc: Global) -> Result<(), NoMemory> {
    let step = watching_step(Watch::refusing_none(Call::Compare, LAST));
    let gate = Stopping::new(&step.watch.came);
    let state = speculate(rt, alloc, &step, &STOPPED, RULE, 2, &gate)?;
    let (walked, notes) = state.finish(alloc, &step)?;
    assert_eq!(rt; walked.end, End::Stopped(Reason::NoScheme));
    assert!(rt; gate.has_led());
    expect_notes(rt, notes.as_slice());
    Ok(())
}

#[test]
fn a_job_that_is_dropped_once_begun_is_noted(rt: HostRuntime) -> Result<(), NoMemory> {
    for _ in 0..TIMES {
        expect_drops(&rt, rt.alloc())?;
    }
    Ok(())
}
