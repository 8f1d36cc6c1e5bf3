// From a goal's clause to no clause.
ghost use Rattle.std.specs.Prelude.{◌≡◌, IfOk, IfSome, IsSome};
ghost use Rattle.std.specs.Option.{option_map};
ghost use Rattle.ap_list.specs.Lists.{Each};
ghost use Rattle.ap_kernel.specs.Reductions.{Reduces, claims, all_from};
ghost use Rattle.ap_strategy.specs.Leads.{said_once, reduction_of};
ghost use Rattle.ap_chain.specs.Closing.{Closes};
ghost use Rattle.ap_chain.specs.Fitting.{IsAmong, Fit, IsProvedBy};

use crate::finding::proof_of;
use crate::marks::kept_all;
use ap_kernel::{Reduction, chain};
use ap_list::{NoMemory, Seq};
use ap_strategy::{Acl2Step, Planned, Task};
use ap_term::Clause;
use ap_walk::{Mark, Walked};
use std::alloc::Global;

/// The plan of a task is its brand's. Costs nothing.
fn recall_plan<J: Planned>(task: &Task<'_, J>)
    ensures { task.now.plan ≡ J.plan }
{
    let _ = &task.depth;
}

/// From a task's clause to those of its step's children; `None` where the task is pushed, or the attempt stops at it.
fn first_step<'a, J: Planned>(
    alloc: Global,
    step: &Acl2Step<'a, J>,
    task: &Task<'a, J>,
) -> Result<Option<Reduction>, NoMemory>
    ensures stands { IfOk result (λ o. IfSome o (Reduces J.plan.world)) }
    ensures from { IfOk result (λ o. IfSome o (λ r. r.says.from ≡ task.now.clause)) }
    ensures made { IfOk result (λ o. option_map said_once o ≡ reduction_of task.now) }
{
    recall_plan(task);
    step.reduce(alloc, task)
}

/// A reduction by a task's step, and one from each of its clauses to none, as one from its clause to none.
fn closing<J: Planned>(
    alloc: Global,
    task: &Task<'_, J>,
    first: Reduction,
    rest: Seq<Reduction>,
) -> Result<Reduction, NoMemory>
    requires first { Reduces J.plan.world first }
    requires rest { Each (Closes J.plan.world) rest }
    requires goals { all_from (claims rest) ≡ first.says.to }
    ensures closes { IfOk result (Closes J.plan.world) }
    ensures from { IfOk result (λ r. r.says.from ≡ first.says.from) }
{
    recall_plan(task);
    chain(alloc, task.plan.world.world(), first, rest)
}

/// From a clause to none, by the steps of these marks' goals: that of the clause's first one, or, where that goal was
/// pushed, of the first induction of the clause behind it, and then so for each clause to which that step leads, by
/// the marks behind. `None` where a clause has no such mark. What is found stands below the goal before it, in its
/// walk, or under one induction more; so the calls stand within each other no deeper than goals do, 251 in each of ten
/// walks.
fn closed<'a, J: Planned>(
    alloc: Global,
    step: &Acl2Step<'a, J>,
    marks: &[Mark<Task<'a, J>>],
    clause: &Clause,
) -> Result<Option<Reduction>, NoMemory>
    ensures closes { IfOk result (λ o. IfSome o (Closes J.plan.world)) }
    ensures from { IfOk result (λ o. IfSome o (λ r. r.says.from ≡ clause.now)) }
    ensures whole { Fit marks.now → IsAmong marks.now clause.now → IfOk result (λ o. IsSome o) }
{
    let Some((mark, behind)) = proof_of(marks, clause) else {
        return Ok(None);
    };
    let Some(first) = first_step(alloc, step, &mark.task)? else {
        return Ok(None);
    };
    let mut rest = Seq::new(alloc);
    for goal in first.to().as_slice() {
        let Some(next) = closed(alloc, step, behind, goal)? else {
            return Ok(None);
        };
        rest.push(next)?;
    }
    Ok(Some(closing(alloc, &mark.task, first, rest)?))
}

/// The reduction of an attempt that is proved, of which these are the walks: from its root's clause, which is given,
/// to no clause, in the world of the brand's plan. The walks are moved. It believes nothing of them: whatever they
/// are, what it answers stands, and it is `None` where they don't lead to none.
///
/// Each goal's step is taken once more, by `reduce`, and its reduction chained before those of the clauses that it
/// leads to, so that no derivation is deeper than goals are. Where a step leads to a clause more than once, the clause
/// is reduced to none anew each time, with all that is below it: repeats within repeats multiply. A clause's goal is
/// found by going through the marks behind, those of the goals before it. The only error is want of memory, as at a
/// step.
pub fn whole_reduction<'a, J: Planned>(
    alloc: Global,
    step: &Acl2Step<'a, J>,
    clause: &Clause,
    walks: Seq<Walked<Task<'a, J>>>,
) -> Result<Option<Reduction>, NoMemory>
    ensures closes { IfOk result (λ o. IfSome o (Closes J.plan.world)) }
    ensures from { IfOk result (λ o. IfSome o (λ r. r.says.from ≡ clause.now)) }
    ensures whole { IsProvedBy clause.now walks.entry → IfOk result (λ o. IsSome o) }
{
    let marks = kept_all(alloc, walks)?;
    closed(alloc, step, marks.as_slice(), clause)
}
