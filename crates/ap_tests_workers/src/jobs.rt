//! One job, on one thread.
ghost use Rattle.std.specs.Prelude.{◌≡◌, ◌≤◌, IsTrue, length};
ghost use Rattle.ap_tests_workers.specs.Held.{SeatsOf};
ghost use Rattle.ap_walk.specs.Visits.{out_children};

use crate::gates::Passed;
use crate::tree::{Counting, Task, fresh_step};
use crate::walks::same_walk;
use ap_speculate::{JobEnd, run_job};
use ap_table::{Claim, Grown, Job, License, TableState, Taken, first};
use ap_walk::{NoMemory, Out, Rule, Step, Stepped, serial};
use std::alloc::Global;
use std::process::Abort;
use std::sync::Wait;

pub(crate) const RULE: Rule = Rule {
    initial: true,
    otf: false,
    revert: 2,
    goal_limit: 100,
};

/// A root with three children, of which the first one stops the attempt.
pub(crate) const STOPPED: Task = Task {
    level: 1,
    number: 15,
};

/// The job of the node that is claimed next.
fn claim(rt: &impl Abort, state: &mut TableState<Counting>, node: u32) -> Job<Task>
    ensures words { state.new.words ≡ state.old.words }
    ensures of { SeatsOf state.new.words result }
{
    let Claim::Found(job) = state.claim_step() else {
        panic!(rt; "no node is free");
    };
    assert_eq!(rt; job.node, node);
    job
}

/// Whether a task splits into two or more.
fn splits(stepped: &Stepped<Task>) -> bool
    ensures { IsTrue result → 2 ≤ length (out_children stepped.now.out) }
{
    match &stepped.out {
        Out::Split(children) => children.len() >= 2,
        _ => false,
    }
}

/// Whether a node was expanded.
fn is_family(grown: Grown<Task>) -> bool {
    match grown {
        Grown::Family { .. } => true,
        _ => false,
    }
}

/// Expands the root into its children.
fn expand(
    rt: &impl Abort,
    alloc: Global,
    step: &Counting,
    state: &mut TableState<Counting>,
) -> Result<(), NoMemory> {
    let root = claim(rt, state, 0);
    let stepped = step.step(alloc, &root.task)?;
    if !splits(&stepped) {
        panic!(rt; "a task that doesn't split into two or more");
    }
    let grown = state.expand_step(alloc, step, root, stepped);
    assert!(rt; is_family(grown), "no family");
    Ok(())
}

/// A table of the root and its children.
fn expanded(
    rt: &impl Abort,
    alloc: Global,
    step: &Counting,
) -> Result<TableState<Counting>, NoMemory> {
    let mut state = first(alloc, step, STOPPED, RULE)?;
    expand(rt, alloc, step, &mut state)?;
    Ok(state)
}

/// Works a job and puts its walk. Answers whether it was kept.
fn put<R: Wait>(
    rt: &R,
    alloc: Global,
    step: &Counting,
    state: &mut TableState<Counting>,
    job: Job<Task>,
    gate: &Passed,
) -> Result<bool, NoMemory>
    requires { SeatsOf state.old.words job }
{
    let mut job = job;
    let JobEnd::Done(walked) = run_job(rt, alloc, step, &mut job, 0, gate)? else {
        return Ok(false);
    };
    match state.put_step(step, job, walked) {
        Taken::Kept => Ok(true),
        Taken::Stranger(_) => Ok(false),
    }
}

/// Works a job before which nothing is marked: its walk is the serial one.
fn expect_walked<R: Wait + Abort>(
    rt: &R,
    alloc: Global,
    step: &Counting,
    job: &mut Job<Task>,
    gate: &Passed,
) -> Result<(), NoMemory> {
    let JobEnd::Done(walked) = run_job(rt, alloc, step, job, 0, gate)? else {
        panic!(rt; "nothing is marked, and it was dropped");
    };
    assert!(rt; same_walk(&walked, &serial(alloc, step, &job.task, RULE)?));
    Ok(())
}

/// Works a job before which the family stops. Answers its licence.
fn dropped<R: Wait + Abort>(
    rt: &R,
    alloc: Global,
    step: &Counting,
    job: &mut Job<Task>,
    gate: &Passed,
) -> Result<License, NoMemory> {
    let JobEnd::Dropped(license) = run_job(rt, alloc, step, job, 0, gate)? else {
        panic!(rt; "the family stops before it, and it was walked");
    };
    Ok(license)
}

/// Works the third job, which lies behind the stop, and drops it.
fn drop_last<R: Wait + Abort>(
    rt: &R,
    alloc: Global,
    step: &Counting,
    state: &mut TableState<Counting>,
    mut job: Job<Task>,
    gate: &Passed,
) -> Result<(), NoMemory> {
    let license = dropped(rt, alloc, step, &mut job, gate)?;
    let wanted = License {
        family: 0,
        index: 0,
    };
    assert_eq!(rt; license, wanted);
    assert_eq!(rt; gate.counts(), (3, 2));
    let Taken::Kept = state.drop_step(step, job, license) else {
        panic!(rt; "it wasn't dropped");
    };
    Ok(())
}

/// Claims the three children, works the second, puts the first, which stops, and drops the third.
fn work_children<R: Wait + Abort>(
    rt: &R,
    alloc: Global,
    step: &Counting,
    state: &mut TableState<Counting>,
    gate: &Passed,
) -> Result<(), NoMemory> {
    let a = claim(rt, state, 1);
    let mut b = claim(rt, state, 2);
    let c = claim(rt, state, 3);
    expect_walked(rt, alloc, step, &mut b, gate)?;
    assert!(rt; put(rt, alloc, step, state, a, gate)?);
    drop_last(rt, alloc, step, state, c, gate)
}

#[test]
fn a_job_behind_a_stop_is_dropped(rt: HostRuntime) -> Result<(), NoMemory> {
    let step = fresh_step();
    let gate = Passed::new();
    let mut state = expanded(&rt, rt.alloc(), &step)?;
    work_children(&rt, rt.alloc(), &step, &mut state, &gate)
}
