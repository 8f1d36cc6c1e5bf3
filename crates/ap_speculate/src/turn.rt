//! A worker's turns.
ghost use Rattle.std.specs.Prelude.{◌≡◌, ◌≤◌, ◌<◌, ◌↔◌, IsTrue, IfOk, OnOk, IfSome, length};
ghost use Rattle.ap_list.specs.Lists.{Each};
ghost use Rattle.ap_walk.specs.Visits.{out_children};
ghost use Rattle.ap_speculate.specs.Boards.{LooksAt, IsEnded, IsHandedBack};
ghost use Rattle.ap_speculate.specs.Turns.{IsTurn};

use crate::board::{Board, Shared};
use crate::counts::Counts;
use crate::gate::Gate;
use crate::job::{JobEnd, look_at_job, run_stepped, step_of};
use crate::owners::Deques;
use crate::supply::{Children, Supply};
use ap_table::{GoalTable, Grown, Job};
use ap_walk::{NoMemory, Out, Step, Stepped};
use std::alloc::{AllocError, Global};
use std::sync::Wait;

/// A node with so many families above it isn't expanded.
const MOST_FAMILIES: usize = 3;

/// Whether a task splits into two tasks or more.
fn splits<T>(stepped: &Stepped<T>) -> bool
    ensures { IsTrue result ↔ 2 ≤ length (out_children stepped.now.out) }
{
    match &stepped.out {
        Out::Split(children) => children.len() >= 2,
        Out::Push | Out::Stop(_) => false,
    }
}

/// Whether a job's node is to be expanded, by its task's step: the task splits into two tasks or more, and fewer than
/// three families are above the node.
fn expands<T>(job: &Job<T>, stepped: &Stepped<T>) -> bool
    ensures { IsTrue result ↔ (length job.now.seats < 3) × (2 ≤ length (out_children stepped.now.out)) }
{
    job.seats.len() < MOST_FAMILIES && splits(stepped)
}

/// Walks a claimed job, whose task's step may have been taken before, and puts the walk or drops the job. A job that the
/// table refuses is given up. Answers no children.
fn walk_claimed<S: Step, B: Board<S>, G: Gate, R: Wait>(
    rt: &R,
    alloc: Global,
    step: &S,
    board: &mut B,
    job: Job<S::Task>,
    first: Option<Stepped<S::Task>>,
    worker: u32,
    gate: &G,
) -> Result<Option<Children>, NoMemory>
    requires words { Each (LooksAt (B.word board.old)) job.seats }
    requires first { IfSome first (λ s. s ≡ S.step_of job.task) }
    ensures { OnOk result (IsEnded S.step_of S.depth B.did board.old board.new job) }
{
    let mut job = job;
    match run_stepped(rt, alloc, step, &mut job, first, worker, gate)? {
        JobEnd::Done(walked) => board.put(step, job, walked),
        JobEnd::Dropped(license) => board.put_drop(step, job, license),
    };
    Ok(None)
}

/// Works a claimed job, whose task's step may have been taken before: drops it where a family above it is known to stop before it; expands it where its task splits
/// into two or more and fewer than three families are above it; or else walks it. Answers the children that are in the
/// table then. The only error is want of memory.
pub(crate) fn work_claimed<S: Step, B: Board<S>, G: Gate, R: Wait>(
    rt: &R,
    alloc: Global,
    step: &S,
    board: &mut B,
    job: Job<S::Task>,
    first: Option<Stepped<S::Task>>,
    worker: u32,
    gate: &G,
) -> Result<Option<Children>, NoMemory>
    requires words { Each (LooksAt (B.word board.old)) job.seats }
    requires first { IfSome first (λ s. s ≡ S.step_of job.task) }
    ensures { OnOk result (IsHandedBack S.step_of S.depth B.did board.old board.new job) }
{
    let mut job = job;
    if let Some(license) = look_at_job(alloc, &mut job) {
        board.put_drop(step, job, license);
        return Ok(None);
    }
    let stepped = step_of(alloc, step, &job.task, first)?;
    if !expands(&job, &stepped) {
        return walk_claimed(rt, alloc, step, board, job, Some(stepped), worker, gate);
    }
    match board.expand(alloc, step, job, stepped) {
        Grown::Family { first, count, .. } => Ok(Some(Children { first, count })),
        Grown::Stranger(job, _) => walk_claimed(rt, alloc, step, board, job, None, worker, gate),
        Grown::NoMemory(..) => Err(AllocError),
    }
}

/// A task's step, where that was taken of an equal task.
fn known_step<S: Step>(
    step: &S,
    known: Option<(S::Task, Stepped<S::Task>)>,
    task: &S::Task,
) -> Option<Stepped<S::Task>>
    requires { IfSome known (λ k. k.1 ≡ S.step_of k.0) }
    ensures { IfSome result (λ s. s ≡ S.step_of task.now) }
{
    let (other, stepped) = known?;
    if step.same_task(&other, task) {
        return Some(stepped);
    }
    None
}

/// One turn at a table: works the next job, by its task's step where that is known, and deals its children, or waits
/// until there is more. Answers whether there may be another turn: not where the root is done.
fn turn<S: Step, D: Deques, G: Gate, R: Wait>(
    rt: &R,
    alloc: Global,
    step: &S,
    table: &GoalTable<S>,
    supply: &mut Supply<S, D>,
    counts: &Counts,
    known: Option<(S::Task, Stepped<S::Task>)>,
    worker: u32,
    gate: &G,
) -> Result<bool, NoMemory>
    requires { IfSome known (λ k. k.1 ≡ S.step_of k.0) }
    ensures { IfOk result (IsTurn S.step_of S.depth) }
{
    let seen = table.length(rt);
    let Some(job) = supply.next_job(rt, table) else {
        return Ok(table.wait_more(rt, seen) > seen);
    };
    let first = known_step(step, known, &job.task);
    let mut board = Shared { rt, table };
    let children = work_claimed(rt, alloc, step, &mut board, job, first, worker, gate)?;
    counts.add_goals(children);
    supply.deal(rt, table, children)?;
    Ok(true)
}

/// Takes one turn, unless the table is halted. Answers whether there may be another one. A worker that is refused memory
/// halts the table.
pub(crate) fn goes_on<S: Step, D: Deques, G: Gate, R: Wait>(
    rt: &R,
    alloc: Global,
    step: &S,
    table: &GoalTable<S>,
    supply: &mut Supply<S, D>,
    counts: &Counts,
    known: Option<(S::Task, Stepped<S::Task>)>,
    worker: u32,
    gate: &G,
) -> bool
    requires { IfSome known (λ k. k.1 ≡ S.step_of k.0) }
{
    if table.halted(rt) {
        return false;
    }
    match turn(rt, alloc, step, table, supply, counts, known, worker, gate) {
        Ok(more) => more,
        Err(_) => {
            table.halt(rt);
            false
        }
    }
}

/// The same where no task's step is known.
pub(crate) fn goes_on_as<S: Step, D: Deques, G: Gate, R: Wait>(
    rt: &R,
    alloc: Global,
    step: &S,
    table: &GoalTable<S>,
    supply: &mut Supply<S, D>,
    counts: &Counts,
    worker: u32,
    gate: &G,
) -> bool {
    goes_on(rt, alloc, step, table, supply, counts, None, worker, gate)
}
