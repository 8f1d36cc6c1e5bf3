//! Workers that share a goal table.
ghost use Rattle.std.specs.Prelude.{◌≡◌, IfOk, IfSome};
ghost use Rattle.ap_list.specs.Lists.{Each};
ghost use Rattle.ap_speculate.specs.Sides.{owned, sided, IsSettled};
ghost use Rattle.ap_table.specs.Calls.{IsRootDone};

use crate::counts::Counts;
use crate::gate::Gate;
use crate::gathering::{first_hands, settle_left};
use crate::hands::Left;
use crate::owners::{Deques, Owner};
use crate::sides::deal_in;
use crate::starting::{leave, work};
use crate::supply::Supply;
use crate::turn::{goes_on, work_claimed};
use ap_deal::{Dealer, Hand};
use ap_table::{Claim, GoalTable, TableState, begin, first};
use ap_walk::{NoMemory, Rule, Step, Stepped};
use std::alloc::Global;
use std::marker::Brand;
use std::sync::{Mutex, Wait};
use std::thread::Threads;
use std::{mem, thread};

/// The most workers at one table.
const MOST_WORKERS: u32 = 64;

/// Works at a table with other workers, once the caller took the first turn. Every worker leaves its deques, and every
/// thread is joined.
fn work_with_others<
    S: Step + Sync,
    D: Deques + Send + Sync,
    G: Gate + Sync,
    R: Threads + Wait + Sync,
>(
    rt: &R,
    alloc: Global,
    step: &S,
    table: &GoalTable<S>,
    left: &Mutex<Left<D>>,
    supply: Supply<S, D>,
    spare: Vec<Owner<D>>,
    counts: &Counts,
    gate: &G,
)
where
    S::Task: Send,
{
    thread::scope(thread::scope_env(), rt, |scope| {
        work(
            scope, rt, alloc, step, table, left, supply, spare, counts, 0, gate,
        )
    })
}

/// Works at a table by the workers of some deques, of which the caller is the first. It takes the first turn alone, by
/// the root's step where that is known. Once the workers are joined, what they left of the deques is settled. Answers
/// the owners' sides, in order, where they are all there and there was memory.
fn work_by<S: Step + Sync, D: Deques + Send + Sync, G: Gate + Sync, R: Threads + Wait + Sync>(
    rt: &R,
    alloc: Global,
    step: &S,
    table: &GoalTable<S>,
    known: Option<(S::Task, Stepped<S::Task>)>,
    deques: (Vec<Hand>, Vec<Dealer>),
    gate: &G,
) -> Option<Vec<Hand>>
where
    S::Task: Send,
    requires known { IfSome known (λ k. k.1 ≡ S.step_of k.0) }
    requires owns { owned deques.0.items ≡ D.all }
    requires row { sided deques.1.items ≡ D.all }
    ensures same { IfSome result (λ v. owned v.items ≡ owned deques.0.items) }
    ensures settled { IfSome result (λ v. Each IsSettled v.items) }
{
    let (owns, dealers) = deques;
    let many = dealers.len();
    let (hands, spare) = first_hands::<D>(alloc, owns, dealers)?;
    let mut supply = Supply::new(alloc, hands);
    let counts = Counts::new();
    let left = Mutex::new(Left::<D>::new(alloc));
    if goes_on(rt, alloc, step, table, &mut supply, &counts, known, 0, gate) {
        work_with_others(rt, alloc, step, table, &left, supply, spare, &counts, gate);
    } else {
        leave(rt, &left, supply.into_hands(), spare);
    }
    settle_left(alloc, left.into_inner(), many)
}

/// Works at a table by so many workers, and answers the owners' sides of their deques, where these were settled. Where
/// the deques can't be made nobody works.
fn work_together<S: Step + Sync, G: Gate + Sync, R: Threads + Wait + Sync>(
    rt: &R,
    alloc: Global,
    step: &S,
    table: &GoalTable<S>,
    known: Option<(S::Task, Stepped<S::Task>)>,
    workers: u32,
    gate: &G,
) -> Option<Vec<Hand>>
where
    S::Task: Send,
    requires { IfSome known (λ k. k.1 ≡ S.step_of k.0) }
    ensures { IfSome result (λ v. Each IsSettled v.items) }
{
    let deques = deal_in(alloc, workers.clamp(1, MOST_WORKERS)).ok()?;
    work_by::<S, Brand, G, R>(rt, alloc, step, table, known, deques, gate)
}

/// Works at a table of one's own until its root is done.
fn work_alone<S: Step, G: Gate, R: Wait>(
    rt: &R,
    alloc: Global,
    step: &S,
    task: &S::Task,
    rule: Rule,
    gate: &G,
) -> Result<TableState<S>, NoMemory>
    ensures { IfOk result (λ s. IsRootDone S.step_of S.depth s.run task.now rule) }
{
    let root = step.copy_task(alloc, task)?;
    let mut state = first(alloc, step, root, rule)?;
    for _ in rt.forever() {
        if state.root_done(step, task, rule) {
            return Ok(state);
        }
        if let Claim::Found(job) = state.claim_step() {
            work_claimed(rt, alloc, step, &mut state, job, None, 0, gate)?;
        }
    }
    unreachable!()
}

/// The goal table of a task, whose step may be known, worked by up to 64 workers until its root is done.
fn speculate_by<S: Step + Sync, G: Gate + Sync, R: Threads + Wait + Sync>(
    rt: &R,
    alloc: Global,
    step: &S,
    task: &S::Task,
    known: Option<(S::Task, Stepped<S::Task>)>,
    rule: Rule,
    workers: u32,
    gate: &G,
) -> Result<TableState<S>, NoMemory>
where
    S::Task: Send,
    requires { IfSome known (λ k. k.1 ≡ S.step_of k.0) }
    ensures done { IfOk result (λ s. IsRootDone S.step_of S.depth s.run task.now rule) }
{
    let root = step.copy_task(alloc, task)?;
    let table = begin(alloc, step, root, rule)?;
    let settled = work_together(rt, alloc, step, &table, known, workers, gate);
    mem::drop(settled);
    let shared = table.into_state();
    if shared.root_done(step, task, rule) {
        return Ok(shared);
    }
    mem::drop(shared);
    work_alone(rt, alloc, step, task, rule, gate)
}

/// The goal table of a task, worked by up to 64 workers until its root is done. The caller is worker 0, and each other
/// worker has a thread, where one can be made; every thread is joined. Where the workers leave the root undone, as
/// where memory was refused to one of them, the caller works a new table alone. The only error is want of memory.
pub fn speculate<S: Step + Sync, G: Gate + Sync, R: Threads + Wait + Sync>(
    rt: &R,
    alloc: Global,
    step: &S,
    task: &S::Task,
    rule: Rule,
    workers: u32,
    gate: &G,
) -> Result<TableState<S>, NoMemory>
where
    S::Task: Send,
    ensures done { IfOk result (λ s. IsRootDone S.step_of S.depth s.run task.now rule) }
{
    speculate_by(rt, alloc, step, task, None, rule, workers, gate)
}

/// The same by the task's step, which isn't taken again.
pub fn speculate_from<S: Step + Sync, G: Gate + Sync, R: Threads + Wait + Sync>(
    rt: &R,
    alloc: Global,
    step: &S,
    task: &S::Task,
    stepped: Stepped<S::Task>,
    rule: Rule,
    workers: u32,
    gate: &G,
) -> Result<TableState<S>, NoMemory>
where
    S::Task: Send,
    requires stepped { stepped ≡ S.step_of task.now }
    ensures done { IfOk result (λ s. IsRootDone S.step_of S.depth s.run task.now rule) }
{
    let root = step.copy_task(alloc, task)?;
    let known = Some((root, stepped));
    speculate_by(rt, alloc, step, task, known, rule, workers, gate)
}
