// What a goal's clause is reduced to by the goal's step.
ghost use Rattle.std.specs.Prelude.{◌≡◌, ◌<◌, [], IfOk, IfSome, Some, false, true};
ghost use Rattle.std.specs.Option.{option_map};
ghost use Rattle.ap_hints.specs.Known.{KnownHint};
ghost use Rattle.ap_kernel.specs.Reductions.{Reduces};
ghost use Rattle.ap_strategy.specs.Goals.{hinted, hint_for};
ghost use Rattle.ap_strategy.specs.Leads.{said_once, once_made, to_children, reduction_of};
ghost use Rattle.ap_strategy.specs.Steps.{later, unrepeated, open_step, pushed_or_open, hint_step, clause_step, induct_step};

use crate::clauses::{copy_clause, copy_clauses, is_alone, without_repeats};
use crate::fresh::own_clause;
use crate::hinting::{by_hint, hint_for, makes_goals};
use crate::later::first_that_applies;
use crate::plan::Planned;
use crate::simplifying::reduce;
use crate::task::{Task, hinted};
use ap_hints::Hint;
use ap_induct::scheme;
use ap_kernel::Reduction;
use ap_list::{NoMemory, Seq};
use ap_term::{Clause, Term};
use std::alloc::Global;

/// The clauses of a reduction, without later equal ones.
fn clauses_once(alloc: Global, r: &Reduction) -> Result<Seq<Clause>, NoMemory>
    ensures { IfOk result (λ cs. cs ≡ unrepeated [] r.now.says.to) }
{
    let clauses = copy_clauses(alloc, r.to().as_slice())?;
    without_repeats(alloc, clauses)
}

/// By the first process behind simplification that applies.
fn by_later<J: Planned>(alloc: Global, task: &Task<'_, J>) -> Result<Option<Reduction>, NoMemory>
    ensures made { IfOk result (λ o. option_map said_once o ≡ option_map (once_made task.now.clause) (later task.now)) }
    ensures stands { IfOk result (λ o. IfSome o (Reduces task.now.plan.world)) }
{
    let Some((_process, reduction)) = first_that_applies(alloc, task)? else {
        return Ok(None);
    };
    Ok(Some(reduction))
}

/// By simplification, where that doesn't miss; else by a later process.
fn by_opening<J: Planned>(
    alloc: Global,
    task: &Task<'_, J>,
    shares: bool,
) -> Result<Option<Reduction>, NoMemory>
    ensures made { IfOk result (λ o. option_map said_once o ≡ to_children task.now.clause (open_step task.now).out) }
    ensures stands { IfOk result (λ o. IfSome o (Reduces task.now.plan.world)) }
{
    task.recall_goal();
    let clause = own_clause(alloc, &task.clause, shares)?;
    let Some(reduction) = reduce(alloc, task.plan, &task.settings, clause)? else {
        return by_later(alloc, task);
    };
    if is_alone(&task.clause, clauses_once(alloc, &reduction)?.as_slice()) {
        return by_later(alloc, task);
    }
    Ok(Some(reduction))
}

/// As above, unless the task's hint has a call to induct by: then the task is pushed.
fn unless_pushed<J: Planned>(
    alloc: Global,
    task: &Task<'_, J>,
    scheme: &Option<Term>,
    shares: bool,
) -> Result<Option<Reduction>, NoMemory>
    ensures made { IfOk result (λ o. option_map said_once o ≡ to_children task.now.clause (pushed_or_open task.now scheme.now).out) }
    ensures stands { IfOk result (λ o. IfSome o (Reduces task.now.plan.world)) }
{
    match scheme {
        Some(_) => Ok(None),
        None => by_opening(alloc, task, shares),
    }
}

/// By the hint that a task's settings hold.
fn with_hint<J: Planned>(
    alloc: Global,
    task: &Task<'_, J>,
    hint: &Hint,
    shares: bool,
) -> Result<Option<Reduction>, NoMemory>
    requires hint { KnownHint task.now.plan.world.entries hint.now }
    ensures made { IfOk result (λ o. option_map said_once o ≡ to_children task.now.clause (hint_step task.now (Some hint.now)).out) }
    ensures stands { IfOk result (λ o. IfSome o (Reduces task.now.plan.world)) }
{
    if !makes_goals(hint) {
        return unless_pushed(alloc, task, &hint.scheme, shares);
    }
    task.recall_goal();
    let clause = copy_clause(alloc, &task.clause)?;
    let reduction = by_hint(alloc, task.plan.world.world(), hint, clause)?;
    Ok(Some(reduction))
}

/// By the hint of a task's own name, if there is one.
fn by_own_hint<J: Planned>(
    alloc: Global,
    task: &Task<'_, J>,
    shares: bool,
) -> Result<Option<Reduction>, NoMemory>
    ensures made { IfOk result (λ o. option_map said_once o ≡ to_children task.now.clause (hint_step (hinted task.now) (hint_for task.now.plan task.now.name)).out) }
    ensures stands { IfOk result (λ o. IfSome o (Reduces task.now.plan.world)) }
{
    task.recall_goal();
    let Some(hint) = hint_for(task.plan, &task.name) else {
        return by_opening(alloc, task, shares);
    };
    let with = hinted(alloc, task)?;
    let reduction = with_hint(alloc, &with, hint, shares)?;
    Ok(reduction)
}

/// What the clause of a task that isn't an induction is reduced to.
fn of_clause<J: Planned>(
    alloc: Global,
    task: &Task<'_, J>,
    shares: bool,
) -> Result<Option<Reduction>, NoMemory>
    ensures made { IfOk result (λ o. option_map said_once o ≡ to_children task.now.clause (clause_step task.now task.now.clause.0).out) }
    ensures stands { IfOk result (λ o. IfSome o (Reduces task.now.plan.world)) }
{
    if task.clause.0.is_empty() {
        return Ok(None);
    }
    if task.depth >= 250 {
        return Ok(None);
    }
    by_own_hint(alloc, task, shares)
}

/// What the clause of an induction is reduced to.
fn of_induction<J: Planned>(
    alloc: Global,
    task: &Task<'_, J>,
) -> Result<Option<Reduction>, NoMemory>
    ensures made { IfOk result (λ o. option_map said_once o ≡ to_children task.now.clause (induct_step task.now).out) }
    ensures stands { IfOk result (λ o. IfSome o (Reduces task.now.plan.world)) }
{
    if task.name.induction.len() > 9 {
        return Ok(None);
    }
    task.recall_goal();
    let w = task.plan.world.world();
    let theory = &task.settings.theory;
    w.recall_sound();
    w.recall_distinct_names();
    let Some(found) = scheme(alloc, w, theory, &task.clause, task.scheme.as_ref())? else {
        return Ok(None);
    };
    Ok(Some(found.reduction))
}

/// From a task's clause to the clauses of its step's children. `None` exactly where the step pushes the task or stops at it.
#[tactic(auto, unfolding(crate::specs::Leads::reduction_of, crate::specs::Steps::step_of))]
pub(crate) fn reduction_of<J: Planned>(
    alloc: Global,
    task: &Task<'_, J>,
    shares: bool,
) -> Result<Option<Reduction>, NoMemory>
    ensures made { IfOk result (λ o. option_map said_once o ≡ reduction_of task.now) }
    ensures stands { IfOk result (λ o. IfSome o (Reduces task.now.plan.world)) }
{
    if task.induct {
        return of_induction(alloc, task);
    }
    of_clause(alloc, task, shares)
}
