//! Workers that wait for each other at the goal table: the history's length, and what ends a wait.

use crate::found::Found;
use crate::shared::{RULE, claim, claim_three, drop_refused, expand_root, finished, put, put_kept};
use crate::trees::{Tree, Trees};
use ap_table::*;
use ap_walk::{End, NoMemory};
use std::alloc::Global;
use std::process::Abort;
use std::sync::Wait;
use std::thread;
use std::thread::Threads;
use std::time::{Clock, Duration};

/// Long enough for a second thread to come to its wait, in milliseconds.
const MOMENT: u64 = 50;

/// Compares the length, which whoever saw none of the steps is answered at once.
fn expect_length(rt: &(impl Abort + Wait), table: &GoalTable<Trees>, wanted: u64) {
    assert_eq!(rt;
        (table.length(rt), table.wait_more(rt, 0)),
        (wanted, wanted)
    );
}

/// Claims the root and expands it, each of which is told by the length.
fn expand_told(
    rt: &(impl Abort + Wait),
    alloc: Global,
    table: &GoalTable<Trees>,
) -> Result<(), NoMemory> {
    assert_eq!(rt; table.length(rt), 0);
    let root = claim(rt, table, 0);
    expect_length(rt, table, 1);
    expand_root(rt, alloc, table, root)?;
    expect_length(rt, table, 2);
    Ok(())
}

/// Claims three nodes and puts them, each of which is told by the length; what isn't dropped doesn't change it.
fn put_told(
    rt: &(impl Abort + Wait),
    alloc: Global,
    table: &GoalTable<Trees>,
) -> Result<(), NoMemory> {
    let (a, b, c) = claim_three(rt, table);
    assert_eq!(rt; table.length(rt), 5);
    put_kept(rt, alloc, table, a)?;
    assert_eq!(rt; table.length(rt), 6);
    let b = drop_refused(rt, table, b);
    assert_eq!(rt; table.length(rt), 6);
    put_kept(rt, alloc, table, c)?;
    assert_eq!(rt; table.wait_more(rt, 6), 8);
    let b = drop_refused(rt, table, b);
    put_kept(rt, alloc, table, b)
}

/// Compares what a table ends with.
fn expect_end(rt: &impl Abort, alloc: Global, state: TableState<Trees>) -> Result<(), NoMemory> {
    assert_eq!(rt; state.history().len(), 10);
    let (walked, notes) = finished(rt, alloc, state)?;
    assert_eq!(rt;
        (walked.marks.len(), walked.end, notes.len()),
        (4, End::Revert, 0)
    );
    Ok(())
}

#[test]
fn the_length_tells_each_step_and_the_state_is_what_they_left(
    rt: HostRuntime,
) -> Result<(), NoMemory> {
    let alloc = rt.alloc();
    let table = begin(alloc, &Trees, Tree::Three, RULE)?;
    expand_told(&rt, alloc, &table)?;
    put_told(&rt, alloc, &table)?;
    expect_end(&rt, alloc, table.into_state())
}

#[test]
fn nobody_waits_once_the_root_is_done(rt: HostRuntime) -> Result<(), NoMemory> {
    let alloc = rt.alloc();
    let table = begin(alloc, &Trees, Tree::Left, RULE)?;
    let root = claim(&rt, &table, 0);
    assert!(rt; put(&rt, alloc, &table, root)?);
    assert_eq!(rt; (table.wait_more(&rt, 2), table.wait_more(&rt, 99)), (2, 2));
    Ok(())
}

/// What a second thread is answered that waits for more than it saw, and what a part of the first answers meanwhile.
fn woken<T: Drop, F: FnOnce() -> T + Drop, R: Threads + Wait + Clock + Sync>(
    rt: &R,
    table: &GoalTable<Trees>,
    seen: u64,
    part: F,
) -> Result<(u64, T), NoMemory>
    requires { F.IsAlwaysCallable part }
{
    thread::scope(
        thread::scope_env(),
        rt,
        |scope| -> Result<(u64, T), NoMemory>
            requires { F.IsAlwaysCallable part }
        {
            let child = scope.spawn(move || table.wait_more(rt, seen))?;
            thread::sleep(rt, Duration::from_millis(MOMENT));
            let answer = part();
            Ok((child.join(rt), answer))
        },
    )
}

/// Claims the root while a second thread waits for a first step.
fn claim_while_waited<R: Abort + Threads + Wait + Clock + Sync>(
    rt: &R,
    table: &GoalTable<Trees>,
) -> Result<Found<Trees>, NoMemory> {
    let (found, root) = woken(rt, table, 0, || claim(rt, table, 0))?;
    assert_eq!(rt; found, 1);
    Ok(root)
}

/// Expands the root, by its job, while a second thread waits for a second step.
fn expand_while_waited<R: Abort + Threads + Wait + Clock + Sync>(
    rt: &R,
    alloc: Global,
    table: &GoalTable<Trees>,
    root: Found<Trees>,
) -> Result<(), NoMemory> {
    let (found, done) = woken(rt, table, 1, || expand_root(rt, alloc, table, root))?;
    done?;
    assert_eq!(rt; found, 2);
    Ok(())
}

/// Puts a job while a second thread waits for more than it saw, which is answered this.
fn put_while_waited<R: Abort + Threads + Wait + Clock + Sync>(
    rt: &R,
    alloc: Global,
    table: &GoalTable<Trees>,
    job: Found<Trees>,
    seen: u64,
    wanted: u64,
) -> Result<(), NoMemory> {
    let (found, kept) = woken(rt, table, seen, || put(rt, alloc, table, job))?;
    assert!(rt; kept?);
    assert_eq!(rt; found, wanted);
    Ok(())
}

#[test]
fn steps_wake_who_waits(rt: HostRuntime) -> Result<(), NoMemory> {
    let alloc = rt.alloc();
    let table = begin(alloc, &Trees, Tree::Three, RULE)?;
    expand_while_waited(&rt, alloc, &table, claim_while_waited(&rt, &table)?)?;
    put_while_waited(&rt, alloc, &table, claim(&rt, &table, 1), 3, 4)?;
    let b = claim(&rt, &table, 2);
    put_kept(&rt, alloc, &table, claim(&rt, &table, 3))?;
    put_while_waited(&rt, alloc, &table, b, 99, 10)
}

#[test]
fn a_halt_wakes_who_waits(rt: HostRuntime) -> Result<(), NoMemory> {
    let table = begin(rt.alloc(), &Trees, Tree::Three, RULE)?;
    assert!(rt; !table.halted(&rt));
    let (found, ()) = woken(&rt, &table, 99, || table.halt(&rt))?;
    assert_eq!(rt; found, 0);
    assert!(rt; table.halted(&rt));
    assert_eq!(rt; table.wait_more(&rt, 99), 0);
    Ok(())
}
