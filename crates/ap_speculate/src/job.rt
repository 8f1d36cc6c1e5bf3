//! One job of a worker.
ghost use Rattle.std.specs.Prelude.{◌≡◌, IfOk, IfNone, IfSome};
ghost use Rattle.ap_list.specs.Lists.{AnyOf};
ghost use Rattle.ap_speculate.specs.Jobs.{Both, Stays, LookedOn, ReadBelow, JobStays, IsDone, IsDropped, SeatsDone, SeatsDropped};

use crate::gate::{Gate, Place};
use crate::looking::look_at_all;
use crate::visiting::{leave, mark_of, visit};
use ap_table::{AncestorSeat, Job, License};
use ap_walk::{End, NoMemory, Rule, Seq, Step, Stepped, Tally, Walked};
use std::alloc::Global;
use std::mem;
use std::sync::Wait;

/// How a job ends: its task is walked, or a family above it is known to stop before it.
#[derive(Drop)]
pub enum JobEnd<T> {
    Done(Walked<T>),
    Dropped(License),
}

/// A task's step: the one that was taken before, or else a new one.
pub(crate) fn step_of<S: Step>(
    alloc: Global,
    step: &S,
    task: &S::Task,
    taken: Option<Stepped<S::Task>>,
) -> Result<Stepped<S::Task>, NoMemory>
    requires { IfSome taken (λ s. s ≡ S.step_of task.now) }
    ensures { IfOk result (λ s. s ≡ S.step_of task.now) }
{
    match taken {
        Some(stepped) => Ok(stepped),
        None => step.step(alloc, task),
    }
}

/// The walk of a task, whose step may have been taken before, with a look at each seat before each step.
fn walk<S: Step>(
    alloc: Global,
    step: &S,
    task: S::Task,
    first: Option<Stepped<S::Task>>,
    rule: Rule,
    seats: &mut [AncestorSeat],
) -> Result<JobEnd<S::Task>, NoMemory>
    requires { IfSome first (λ s. s ≡ S.step_of task) }
    ensures stays { Both Stays seats.old seats.new }
    ensures done { IfOk result (SeatsDone S.step_of S.depth rule task seats.old seats.new) }
    ensures dropped { IfOk result (SeatsDropped seats.new) }
{
    let mut so_far = Walked {
        marks: Seq::new(alloc),
        tally: Tally {
            pushes: 0,
            goals: 0,
        },
        end: End::Through,
    };
    let mut taken = first;
    let mut left = Vec::new(alloc);
    left.push(task)?;
    while let Some(task) = left.pop() {
        if let Some(license) = look_at_all(seats) {
            return Ok(JobEnd::Dropped(license));
        }
        let Stepped { act, out } = step_of(alloc, step, &task, taken.take())?;
        let mark = mark_of(task, act, &out);
        visit(alloc, rule, &mut so_far, mark)?;
        let End::Through = so_far.end else {
            return Ok(JobEnd::Done(so_far));
        };
        leave(&mut left, out)?;
    }
    Ok(JobEnd::Done(so_far))
}

/// Looks at the word of each family above a job's node, once or up to the first that tells to drop the job.
pub(crate) fn look_at_job<T>(alloc: Global, job: &mut Job<T>) -> Option<License>
    ensures stays { JobStays job.old job.new }
    ensures looked { IfNone result (Both (LookedOn 1) job.old.seats job.new.seats) }
    ensures dropped { IfSome result (λ l. AnyOf (ReadBelow l) job.new.seats) }
{
    let mut seats = mem::replace(&mut job.seats, Seq::new(alloc)).into_vec();
    let license = look_at_all(seats.as_mut_slice());
    job.seats = Seq::from_vec(seats);
    license
}

/// The walk of a job's task, which takes the job's seats out and puts them back.
fn walk_job<S: Step>(
    alloc: Global,
    step: &S,
    job: &mut Job<S::Task>,
    first: Option<Stepped<S::Task>>,
) -> Result<JobEnd<S::Task>, NoMemory>
    requires { IfSome first (λ s. s ≡ S.step_of job.old.task) }
    ensures stays { JobStays job.old job.new }
    ensures done { IfOk result (IsDone S.step_of S.depth job.old job.new) }
    ensures dropped { IfOk result (IsDropped job.new) }
{
    let task = step.copy_task(alloc, &job.task)?;
    let mut seats = mem::replace(&mut job.seats, Seq::new(alloc)).into_vec();
    let end = walk(alloc, step, task, first, job.rule, seats.as_mut_slice());
    job.seats = Seq::from_vec(seats);
    end
}

/// Works a job, whose task's step may have been taken before, as `run_job` does.
pub(crate) fn run_stepped<S: Step, G: Gate, R: Wait>(
    rt: &R,
    alloc: Global,
    step: &S,
    job: &mut Job<S::Task>,
    first: Option<Stepped<S::Task>>,
    worker: u32,
    gate: &G,
) -> Result<JobEnd<S::Task>, NoMemory>
    requires { IfSome first (λ s. s ≡ S.step_of job.old.task) }
    ensures stays { JobStays job.old job.new }
    ensures done { IfOk result (IsDone S.step_of S.depth job.old job.new) }
    ensures dropped { IfOk result (IsDropped job.new) }
{
    let goal = step.name_of(alloc, &job.task)?.print(alloc)?;
    gate.pass(rt, worker, goal.as_slice(), Place::Begin);
    let end = walk_job(alloc, step, job, first)?;
    if let JobEnd::Done(_) = &end {
        gate.pass(rt, worker, goal.as_slice(), Place::Done);
    }
    Ok(end)
}

/// Works a job as worker number `worker`: walks its task as `serial` does, and looks at the word of each family
/// above it before each step. A look that reads a number below the seat's place ends it at once, and is the
/// licence to drop the job. It passes the gate before the first look, and again just before it answers a walk.
/// The only error is want of memory.
pub fn run_job<S: Step, G: Gate, R: Wait>(
    rt: &R,
    alloc: Global,
    step: &S,
    job: &mut Job<S::Task>,
    worker: u32,
    gate: &G,
) -> Result<JobEnd<S::Task>, NoMemory>
    ensures stays { JobStays job.old job.new }
    ensures done { IfOk result (IsDone S.step_of S.depth job.old job.new) }
    ensures dropped { IfOk result (IsDropped job.new) }
{
    run_stepped(rt, alloc, step, job, None, worker, gate)
}
