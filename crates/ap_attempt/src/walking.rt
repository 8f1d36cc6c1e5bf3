//! A walk by workers.
ghost use Rattle.std.specs.Prelude.{◌≡◌, ◌≤◌, ◌∷◌, [], false, length, IfOk, IfSome, IfNone};
ghost use Rattle.ap_list.specs.Lists.{Each};
ghost use Rattle.ap_walk.specs.Visits.{Tells, out_children, visit_of};
ghost use Rattle.ap_walk.specs.Tallies.{zero_tally};
ghost use Rattle.ap_walk.specs.Walks.{cut, full, walk};
ghost use Rattle.ap_attempt.specs.Drops.{IsLicensed};

use ap_list::{NoMemory, Seq};
use ap_speculate::{Gate, speculate_from};
use ap_table::DropNote;
use ap_walk::{Mark, Out, Rule, Step, Stepped, Tally, Walked, cut_from, serial};
use std::alloc::Global;
use std::sync::Wait;
use std::thread::Threads;

/// Whether a task splits into two tasks or more, so that there is work for a second worker.
fn splits<T>(stepped: &Stepped<T>) -> bool
    ensures { result ≡ false → length (out_children stepped.now.out) ≤ 1 }
{
    match &stepped.out {
        Out::Split(children) => children.len() >= 2,
        Out::Push | Out::Stop(_) => false,
    }
}

/// The mark of a task that splits into one task at most, and what it splits into.
fn mark_and_children<T: Drop>(alloc: Global, task: T, stepped: Stepped<T>) -> (Mark<T>, Seq<T>)
    requires tells { Tells stepped.act.process stepped.out }
    requires few { length (out_children stepped.out) ≤ 1 }
    ensures mark { result.0 ≡ visit_of task stepped }
    ensures children { result.1 ≡ out_children stepped.out }
{
    let Stepped { act, out } = stepped;
    let (count, below) = match out {
        Out::Split(children) => (children.len() as u32, children),
        Out::Push => (0, Seq::new(alloc)),
        Out::Stop(reason) => (reason.number(), Seq::new(alloc)),
    };
    let mark = Mark {
        task,
        act,
        children: count,
    };
    (mark, below)
}

/// The only one of tasks, where there is one.
fn only<T: Drop>(tasks: Seq<T>) -> Option<T>
    requires { length tasks ≤ 1 }
    ensures none { IfNone result (tasks ≡ []) }
    ensures some { IfSome result (λ task. tasks ≡ task ∷ []) }
{
    let mut tasks = tasks;
    tasks.pop()
}

/// A walk of these marks, cut where it ends.
fn walked<T: Drop>(marks: Seq<Mark<T>>, rule: Rule) -> Walked<T>
    ensures { result ≡ cut rule zero_tally marks }
{
    let start = Tally {
        pushes: 0,
        goals: 0,
    };
    cut_from(start, marks, rule)
}

/// The walk of a task, whose step was taken, by workers that share a goal table, and the notes of what they dropped.
fn walk_together<S: Step + Sync, G: Gate + Sync, R: Threads + Wait + Sync>(
    rt: &R,
    alloc: Global,
    step: &S,
    task: &S::Task,
    stepped: Stepped<S::Task>,
    rule: Rule,
    workers: u32,
    gate: &G,
) -> Result<(Walked<S::Task>, Seq<DropNote>), NoMemory>
where
    S::Task: Send,
    requires stepped { stepped ≡ S.step_of task.now }
    ensures walked { IfOk result (λ end. end.0 ≡ full S.step_of S.depth rule task.now) }
    ensures licensed { IfOk result (λ end. Each (IsLicensed S.step_of S.depth S.name (record { root = task.now; rule = rule; walked = end.0 })) end.1) }
{
    let state = speculate_from(rt, alloc, step, task, stepped, rule, workers, gate)?;
    state.recall_allowed();
    state.finish(alloc, step)
}

/// The walk of a task by so many workers, from the first task on that splits into two or more, where only children
/// lead to it; and the notes of what these dropped.
#[cycle(shared)]
fn walk_shared<S: Step + Sync, G: Gate + Sync, R: Threads + Wait + Sync>(
    rt: &R,
    alloc: Global,
    step: &S,
    task: S::Task,
    rule: Rule,
    workers: u32,
    gate: &G,
) -> Result<(Walked<S::Task>, Seq<DropNote>), NoMemory>
where
    S::Task: Send,
    ensures walked { IfOk result (λ end. end.0 ≡ full S.step_of S.depth rule task) }
    ensures licensed { IfOk result (λ end. Each (IsLicensed S.step_of S.depth S.name (record { root = task; rule = rule; walked = end.0 })) end.1) }
{
    let stepped = step.step(alloc, &task)?;
    if splits(&stepped) {
        return walk_together(rt, alloc, step, &task, stepped, rule, workers, gate);
    }
    follow(rt, alloc, step, task, stepped, rule, workers, gate)
}

/// The same of a task that splits into one task at most, by its step, which isn't taken again.
#[cycle(shared)]
fn follow<S: Step + Sync, G: Gate + Sync, R: Threads + Wait + Sync>(
    rt: &R,
    alloc: Global,
    step: &S,
    task: S::Task,
    stepped: Stepped<S::Task>,
    rule: Rule,
    workers: u32,
    gate: &G,
) -> Result<(Walked<S::Task>, Seq<DropNote>), NoMemory>
where
    S::Task: Send,
    requires stepped { stepped ≡ S.step_of task }
    requires few { length (out_children stepped.out) ≤ 1 }
    ensures walked { IfOk result (λ end. end.0 ≡ full S.step_of S.depth rule task) }
    ensures licensed { IfOk result (λ end. Each (IsLicensed S.step_of S.depth S.name (record { root = task; rule = rule; walked = end.0 })) end.1) }
{
    let (mark, children) = mark_and_children(alloc, task, stepped);
    let mut marks = Seq::new(alloc);
    marks.push(mark)?;
    let Some(child) = only(children) else {
        return Ok((walked(marks, rule), Seq::new(alloc)));
    };
    let (below, notes) = walk_shared(rt, alloc, step, child, rule, workers, gate)?;
    marks.append(below.marks)?;
    Ok((walked(marks, rule), notes))
}

/// The walk of a task by so many workers, and the notes of what they dropped, in the order in which they did. The
/// caller goes on alone as long as each task splits into one at most, since no two goals could be worked at a time, and
/// wholly with 0 or 1 workers, where nothing is dropped. The only error is want of memory.
pub(crate) fn walk_by<S: Step + Sync, G: Gate + Sync, R: Threads + Wait + Sync>(
    rt: &R,
    alloc: Global,
    step: &S,
    task: &S::Task,
    rule: Rule,
    workers: u32,
    gate: &G,
) -> Result<(Walked<S::Task>, Seq<DropNote>), NoMemory>
where
    S::Task: Send,
    ensures walked { IfOk result (λ end. end.0 ≡ walk S.step_of S.depth rule task.now zero_tally) }
    ensures few { IfOk result (λ end. length end.0.marks ≤ rule.goal_limit) }
    ensures licensed { IfOk result (λ end. Each (IsLicensed S.step_of S.depth S.name (record { root = task.now; rule = rule; walked = end.0 })) end.1) }
    ensures alone { IfOk result (λ end. workers ≤ 1 → end.1 ≡ []) }
{
    if workers <= 1 {
        return Ok((serial(alloc, step, task, rule)?, Seq::new(alloc)));
    }
    let task = step.copy_task(alloc, task)?;
    walk_shared(rt, alloc, step, task, rule, workers, gate)
}
