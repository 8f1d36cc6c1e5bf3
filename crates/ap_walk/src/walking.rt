ghost use Rattle.std.specs.Prelude.{◌≡◌, ◌≤◌, length, OnOk, IfOk};
ghost use Rattle.ap_list.specs.Lists.{Each};
ghost use Rattle.ap_walk.specs.Tallies.{IsOpen, zero_tally};
ghost use Rattle.ap_walk.specs.Walks.{and_then, walk, full};
ghost use Rattle.ap_walk.specs.Laws.{pushed, StopsAt};

use crate::act::Stepped;
use crate::counting::{children_of, counted_out, end_of_out, mark_of};
use crate::mark::Walked;
use crate::rule::{End, Rule, Tally};
use crate::step::Step;
use ap_list::{NoMemory, Seq};
use std::alloc::Global;

/// Walks a task from where a walk that went through has come, and adds its visits to that walk. It calls
/// itself once for each level of tasks, and not for each goal.
fn walk_on<S: Step>(
    alloc: Global,
    step: &S,
    rule: Rule,
    task: S::Task,
    so_far: &mut Walked<S::Task>,
) -> Result<(), NoMemory>
    requires through { so_far.old.end ≡ End.Through }
    requires opened { IsOpen rule so_far.old.tally }
    ensures walked { OnOk result (so_far.new ≡ and_then so_far.old (walk S.step_of S.depth rule task)) }
    ensures opened { OnOk result (so_far.new.end ≡ End.Through → IsOpen rule so_far.new.tally) }
{
    let Stepped { act, out } = step.step(alloc, &task)?;
    so_far.tally = counted_out(so_far.tally, &out);
    so_far.end = end_of_out(rule, so_far.tally, &out);
    so_far.marks.push(mark_of(task, act, &out))?;
    for child in children_of(alloc, out).into_vec() {
        let End::Through = so_far.end else {
            break;
        };
        walk_on(alloc, step, rule, child, so_far)?;
    }
    Ok(())
}

/// The serial walk of a task from the empty tally. It visits a task and then its children in order, each
/// with all that is below it. It ends after the first visit at which the attempt stops; or a second task
/// was pushed, where the walk is the initial one of its attempt and `:otf-flg` isn't set (the manual's
/// topic `otf-flg`); or the goals are the limit. The only error is want of memory.
pub fn serial<S: Step>(
    alloc: Global,
    step: &S,
    task: &S::Task,
    rule: Rule,
) -> Result<Walked<S::Task>, NoMemory>
    ensures walked { IfOk result (λ w. w ≡ walk S.step_of S.depth rule task.now zero_tally) }
    ensures whole { IfOk result (λ w. w ≡ full S.step_of S.depth rule task.now) }
    ensures few { IfOk result (λ w. length w.marks ≤ rule.goal_limit) }
    ensures stops { IfOk result (λ w. StopsAt rule w) }
    ensures good { IfOk result (λ w. w.end ≡ End.Through → Each S.good (pushed w.marks) → S.good task.now) }
{
    let task = step.copy_task(alloc, task)?;
    let mut so_far = Walked {
        marks: Seq::new(alloc),
        tally: Tally {
            pushes: 0,
            goals: 0,
        },
        end: End::Through,
    };
    walk_on(alloc, step, rule, task, &mut so_far)?;
    Ok(so_far)
}
