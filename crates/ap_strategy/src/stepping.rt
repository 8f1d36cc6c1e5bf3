ghost use Rattle.std.specs.Prelude.{◌≡◌, ◌+◌, ◌^◌, ◌<◌, ◌≤◌, IfOk, IfSome, map, length, false, true};
ghost use Rattle.std.specs.Option.{option_map};
ghost use Rattle.ap_list.specs.Lists.{Each};
ghost use Rattle.ap_names.specs.Names.{is_pushed};
ghost use Rattle.ap_hints.specs.Known.{KnownHint};
ghost use Rattle.ap_kernel.specs.Reductions.{KnownClause};
ghost use Rattle.ap_induct.specs.Choosing.{scheme_of};
ghost use Rattle.ap_strategy.specs.Goals.{defs_of, hint_for, hinted};
ghost use Rattle.ap_strategy.specs.Steps.{child, seen_below, counted_down, children, cases_in, done, later, missed_step, open_step, pushed_or_open, hint_step, clause_step, induct_step, step_of};

use crate::clauses::{copy_clause, is_alone};
use crate::fresh::own_clause;
use crate::hinting::{hint_for, hint_goals, makes_goals};
use crate::later::later;
use crate::plan::{Planned, copy_settings};
use crate::simplifying::simplify;
use crate::task::{Task, hinted};
use ap_hints::Hint;
use ap_induct::scheme;
use ap_list::{NoMemory, Seq};
use ap_names::GoalName;
use ap_term::{Clause, Term};
use ap_walk::{Act, Out, Process, Reason, Stepped};
use std::alloc::Global;
use std::marker::PhantomData;

/// A task below another one, with a name and a clause of its own, told whether it is below a checkpoint. It is no
/// induction, and no call is given for one.
fn child<'a, J: Planned>(
    alloc: Global,
    task: &Task<'a, J>,
    under: bool,
    name: GoalName,
    clause: Clause,
) -> Result<Task<'a, J>, NoMemory>
    requires above { task.now.depth < 250 }
    requires unpushed { is_pushed name ≡ false }
    requires primes { name.primes ≤ task.now.depth + 1 }
    requires clause { KnownClause (defs_of task.now.plan) clause }
    ensures { IfOk result (λ t. t ≡ child (seen_below under task.now) (name, clause)) }
{
    let settings = copy_settings(alloc, &task.settings)?;
    Ok(Task {
        plan: task.plan,
        name,
        clause,
        depth: task.depth + 1,
        under,
        settings,
        induct: false,
        scheme: None,
        of: PhantomData,
    })
}

/// Several tasks below another one, numbered from their count down to 1.
fn counted_down<'a, J: Planned>(
    alloc: Global,
    task: &Task<'a, J>,
    under: bool,
    clauses: Seq<Clause>,
) -> Result<Seq<Task<'a, J>>, NoMemory>
    requires above { task.now.depth < 250 }
    requires few { length clauses < 2 ^ 32 }
    requires clauses { Each (KnownClause (defs_of task.now.plan)) clauses }
    ensures { IfOk result (λ ts. ts ≡ map (child (seen_below under task.now)) (counted_down task.now.name clauses)) }
{
    let mut number = clauses.len() as u32;
    let mut out = Seq::new(alloc);
    for clause in clauses.into_vec() {
        let name = task.name.child(alloc, number)?;
        out.push(child(alloc, task, under, name, clause)?)?;
        number -= 1;
    }
    Ok(out)
}

/// The tasks that a task splits into: an only one adds a prime to the name.
fn children<'a, J: Planned>(
    alloc: Global,
    task: &Task<'a, J>,
    under: bool,
    clauses: Seq<Clause>,
) -> Result<Seq<Task<'a, J>>, NoMemory>
    requires above { task.now.depth < 250 }
    requires plain { task.now.induct ≡ false }
    requires few { length clauses < 2 ^ 32 }
    requires clauses { Each (KnownClause (defs_of task.now.plan)) clauses }
    ensures { IfOk result (λ ts. ts ≡ children (seen_below under task.now) clauses) }
{
    if clauses.len() != 1 {
        return counted_down(alloc, task, under, clauses);
    }
    let mut clauses = clauses;
    let mut out = Seq::new(alloc);
    if let Some(clause) = clauses.pop() {
        let name = task.name.primed(alloc)?;
        out.push(child(alloc, task, under, name, clause)?)?;
    }
    Ok(out)
}

/// A step: its process, whether simplification missed, whether it met the limit on steps, and what comes of the task.
fn done<'a, J: Planned>(
    process: Process,
    missed: bool,
    limited: bool,
    out: Out<Task<'a, J>>,
) -> Stepped<Task<'a, J>>
    ensures { result ≡ done process missed limited out.entry }
{
    Stepped {
        act: Act {
            process,
            missed,
            limited,
        },
        out,
    }
}

/// The step of a task that simplification left as it was, or whose steps ran out: by a later process, or else it
/// is pushed.
fn missed_step<'a, J: Planned>(
    alloc: Global,
    task: &Task<'a, J>,
    limited: bool,
) -> Result<Stepped<Task<'a, J>>, NoMemory>
    requires above { task.now.depth < 250 }
    requires plain { task.now.induct ≡ false }
    ensures { IfOk result (λ s. s ≡ missed_step task.now limited (later task.now)) }
{
    let Some((process, clauses)) = later(alloc, task)? else {
        return Ok(done(Process::Push, true, limited, Out::Push));
    };
    Ok(done(
        process,
        true,
        limited,
        Out::Split(children(alloc, task, true, clauses)?),
    ))
}

/// Simplifies a task; where its clause stays the same, or the steps run out, that is a miss. Where calls aren't to be
/// shared it begins with a clause whose calls are its own.
fn open_step<'a, J: Planned>(
    alloc: Global,
    task: &Task<'a, J>,
    shares: bool,
) -> Result<Stepped<Task<'a, J>>, NoMemory>
    requires above { task.now.depth < 250 }
    requires plain { task.now.induct ≡ false }
    ensures { IfOk result (λ s. s ≡ open_step task.now) }
{
    let clause = own_clause(alloc, &task.clause, shares)?;
    let Some(clauses) = simplify(alloc, task.plan, &task.settings, clause)? else {
        return missed_step(alloc, task, true);
    };
    if is_alone(&task.clause, clauses.as_slice()) {
        return missed_step(alloc, task, false);
    }
    Ok(done(
        Process::Simplify,
        false,
        false,
        Out::Split(children(alloc, task, task.under, clauses)?),
    ))
}

/// Pushes a task whose hint has a call to induct by; else simplifies it.
fn pushed_or_open<'a, J: Planned>(
    alloc: Global,
    task: &Task<'a, J>,
    scheme: &Option<Term>,
    shares: bool,
) -> Result<Stepped<Task<'a, J>>, NoMemory>
    requires above { task.now.depth < 250 }
    requires plain { task.now.induct ≡ false }
    ensures { IfOk result (λ s. s ≡ pushed_or_open task.now scheme.now) }
{
    match scheme {
        Some(_) => Ok(done(Process::Push, false, false, Out::Push)),
        None => open_step(alloc, task, shares),
    }
}

/// The step of a task whose settings hold its hint.
fn hint_step<'a, J: Planned>(
    alloc: Global,
    task: &Task<'a, J>,
    hint: &Hint,
    shares: bool,
) -> Result<Stepped<Task<'a, J>>, NoMemory>
    requires above { task.now.depth < 250 }
    requires plain { task.now.induct ≡ false }
    requires hint { KnownHint task.now.plan.world.entries hint.now }
    ensures { IfOk result (λ s. s ≡ hint_step task.now (Some hint.now)) }
{
    if !makes_goals(hint) {
        return pushed_or_open(alloc, task, &hint.scheme, shares);
    }
    task.recall_goal();
    let clause = copy_clause(alloc, &task.clause)?;
    let clauses = hint_goals(alloc, task.plan.world.world(), hint, clause)?;
    Ok(done(
        Process::Hint,
        false,
        false,
        Out::Split(children(alloc, task, task.under, clauses)?),
    ))
}

/// The step of a task by its own name's hint, if there is one.
fn hinted_step<'a, J: Planned>(
    alloc: Global,
    task: &Task<'a, J>,
    shares: bool,
) -> Result<Stepped<Task<'a, J>>, NoMemory>
    requires above { task.now.depth < 250 }
    requires plain { task.now.induct ≡ false }
    ensures { IfOk result (λ s. s ≡ hint_step (hinted task.now) (hint_for task.now.plan task.now.name)) }
{
    task.recall_goal();
    let Some(hint) = hint_for(task.plan, &task.name) else {
        return open_step(alloc, task, shares);
    };
    let with = hinted(alloc, task)?;
    let stepped = hint_step(alloc, &with, hint, shares)?;
    Ok(stepped)
}

/// The step of a task that isn't an induction.
fn clause_step<'a, J: Planned>(
    alloc: Global,
    task: &Task<'a, J>,
    shares: bool,
) -> Result<Stepped<Task<'a, J>>, NoMemory>
    requires plain { task.now.induct ≡ false }
    ensures { IfOk result (λ s. s ≡ clause_step task.now task.now.clause.0) }
{
    if task.clause.0.is_empty() {
        return Ok(done(Process::Stop, true, false, Out::Stop(Reason::EmptyClause)));
    }
    if task.depth >= 250 {
        return Ok(done(Process::Stop, false, false, Out::Stop(Reason::PathDepth)));
    }
    hinted_step(alloc, task, shares)
}

/// The clauses of the induction of a task, if there is one.
fn cases<J: Planned>(alloc: Global, task: &Task<'_, J>) -> Result<Option<Seq<Clause>>, NoMemory>
    ensures made { IfOk result (λ o. o ≡ option_map cases_in (scheme_of (defs_of task.now.plan) task.now.settings.theory task.now.clause task.now.scheme)) }
    ensures known { IfOk result (λ o. IfSome o (Each (KnownClause (defs_of task.now.plan)))) }
    ensures few { IfOk result (λ o. IfSome o (λ cs. length cs < 2 ^ 32)) }
{
    task.recall_goal();
    let w = task.plan.world.world();
    let theory = &task.settings.theory;
    let Some(found) = scheme(alloc, w, theory, &task.clause, task.scheme.as_ref())? else {
        return Ok(None);
    };
    let (_, clauses) = found.reduction.into_parts();
    Ok(Some(clauses))
}

/// The step of a task that is an induction: its cases, unless it is under too many inductions or has no scheme.
fn induct_step<'a, J: Planned>(
    alloc: Global,
    task: &Task<'a, J>,
) -> Result<Stepped<Task<'a, J>>, NoMemory>
    requires induction { task.now.induct ≡ true }
    ensures { IfOk result (λ s. s ≡ induct_step task.now) }
{
    if task.name.induction.len() > 9 {
        return Ok(done(
            Process::Stop,
            false,
            false,
            Out::Stop(Reason::InductionDepth),
        ));
    }
    let Some(clauses) = cases(alloc, task)? else {
        return Ok(done(Process::Stop, false, false, Out::Stop(Reason::NoScheme)));
    };
    Ok(done(
        Process::Induct,
        false,
        false,
        Out::Split(counted_down(alloc, task, task.under, clauses)?),
    ))
}

/// The step of a task.
#[tactic(auto, unfolding(crate::specs::Steps::step_of))]
pub(crate) fn step_of<'a, J: Planned>(
    alloc: Global,
    task: &Task<'a, J>,
    shares: bool,
) -> Result<Stepped<Task<'a, J>>, NoMemory>
    ensures { IfOk result (λ s. s ≡ step_of task.now) }
{
    if task.induct {
        return induct_step(alloc, task);
    }
    clause_step(alloc, task, shares)
}
