// The processes behind simplification, in their order.
ghost use Rattle.std.specs.Prelude.{◌≡◌, ◌<◌, ◌^◌, IfOk, IfSome, Some, length, map};
ghost use Rattle.std.specs.Option.{option_map};
ghost use Rattle.ap_list.specs.Lists.{Each};
ghost use Rattle.ap_walk.specs.declared.act.Process.{Process};
ghost use Rattle.ap_kernel.specs.Reductions.{KnownClause};
ghost use Rattle.ap_kernel.specs.Solving.{any_true};
ghost use Rattle.ap_strategy.specs.Goals.{defs_of};
ghost use Rattle.ap_strategy.specs.Leads.{LeadsFrom, made_of};
ghost use Rattle.ap_strategy.specs.Steps.{process_number, is_process, is_skipped, made_by, by_elim, by_fertilize, by_generalize, by_irrelevance, later};

use crate::oracles::Oracles;
use crate::plan::Planned;
use crate::task::Task;
use ap_elim::elim;
use ap_kernel::Reduction;
use ap_list::{NoMemory, Seq};
use ap_term::Clause;
use ap_walk::Process;
use ap_weaken::{fertilize, generalize, irrelevance};
use std::alloc::Global;

/// A process, and what it reduces a goal's clause to.
pub(crate) type Applied = (Process, Reduction);

/// A process, and the clauses that it makes of a goal's clause.
pub(crate) type Made = (Process, Seq<Clause>);

/// The place of a process in the waterfall.
fn process_number(process: Process) -> u32
    ensures { result ≡ process_number process }
{
    match process {
        Process::Hint => 0,
        Process::Simplify => 1,
        Process::Elim => 2,
        Process::Fertilize => 3,
        Process::Generalize => 4,
        Process::Irrelevance => 5,
        Process::Induct => 6,
        Process::Push => 7,
        Process::Stop => 8,
    }
}

/// Whether two processes are one.
fn is_process(p: Process, q: Process) -> bool
    ensures { result ≡ is_process p q }
{
    process_number(p) == process_number(q)
}

/// Whether a process is one of some. Takes no memory.
fn is_among(process: Process, others: &[Process]) -> bool
    ensures { result ≡ any_true (map (is_process process) others.now) }
{
    for other in others {
        if is_process(process, *other) {
            return true;
        }
    }
    false
}

/// Whether a hint says that a process is skipped. Takes no memory.
fn is_skipped<J: Planned>(task: &Task<'_, J>, process: Process) -> bool
    ensures { result ≡ is_skipped task.now process }
{
    is_among(process, task.settings.skip.as_slice())
}

/// A process with what it reduces a clause to, where it applies.
fn applied(process: Process, reduction: Option<Reduction>) -> Option<Applied>
    ensures made { option_map made_of result ≡ option_map (made_by process) (option_map (λ r. r.says) reduction) }
    ensures kept { IfSome result (λ p. reduction ≡ Some p.1) }
{
    Some((process, reduction?))
}

/// A process with the clauses that it makes.
fn made_of(applied: Option<Applied>) -> Option<Made>
    ensures { result ≡ option_map made_of applied }
{
    let (process, reduction) = applied?;
    let (_, clauses) = reduction.into_parts();
    Some((process, clauses))
}

/// Elimination, unless it is skipped.
fn by_elim<J: Planned>(alloc: Global, task: &Task<'_, J>) -> Result<Option<Applied>, NoMemory>
    ensures made { IfOk result (λ o. option_map made_of o ≡ by_elim task.now) }
    ensures leads { IfOk result (λ o. IfSome o (λ p. LeadsFrom task.now p.1)) }
{
    if is_skipped(task, Process::Elim) {
        return Ok(None);
    }
    task.recall_goal();
    let w = task.plan.world.world();
    let made = elim(alloc, w, &task.settings.theory, &task.clause)?;
    Ok(applied(Process::Elim, made))
}

/// Cross-fertilization, unless it is skipped.
fn by_fertilize<J: Planned>(alloc: Global, task: &Task<'_, J>) -> Result<Option<Applied>, NoMemory>
    ensures made { IfOk result (λ o. option_map made_of o ≡ by_fertilize task.now) }
    ensures leads { IfOk result (λ o. IfSome o (λ p. LeadsFrom task.now p.1)) }
{
    if is_skipped(task, Process::Fertilize) {
        return Ok(None);
    }
    task.recall_goal();
    let made = fertilize(alloc, task.plan.world.world(), &task.clause)?;
    Ok(applied(Process::Fertilize, made))
}

/// Generalization, unless it is skipped.
fn by_generalize<J: Planned>(alloc: Global, task: &Task<'_, J>) -> Result<Option<Applied>, NoMemory>
    ensures made { IfOk result (λ o. option_map made_of o ≡ by_generalize task.now) }
    ensures leads { IfOk result (λ o. IfSome o (λ p. LeadsFrom task.now p.1)) }
{
    if is_skipped(task, Process::Generalize) {
        return Ok(None);
    }
    task.recall_goal();
    let made = generalize(alloc, task.plan.world.world(), &Oracles, &task.clause)?;
    Ok(applied(Process::Generalize, made))
}

/// The dropping of what is irrelevant, unless it is skipped.
fn by_irrelevance<J: Planned>(
    alloc: Global,
    task: &Task<'_, J>,
) -> Result<Option<Applied>, NoMemory>
    ensures made { IfOk result (λ o. option_map made_of o ≡ by_irrelevance task.now) }
    ensures leads { IfOk result (λ o. IfSome o (λ p. LeadsFrom task.now p.1)) }
{
    if is_skipped(task, Process::Irrelevance) {
        return Ok(None);
    }
    task.recall_goal();
    let made = irrelevance(alloc, task.plan.world.world(), &task.clause)?;
    Ok(applied(Process::Irrelevance, made))
}

/// The first of these that applies, and what it reduces the task's clause to. `None` where none applies.
pub(crate) fn first_that_applies<J: Planned>(
    alloc: Global,
    task: &Task<'_, J>,
) -> Result<Option<Applied>, NoMemory>
    ensures made { IfOk result (λ o. option_map made_of o ≡ later task.now) }
    ensures leads { IfOk result (λ o. IfSome o (λ p. LeadsFrom task.now p.1)) }
{
    if let Some(made) = by_elim(alloc, task)? {
        return Ok(Some(made));
    }
    if let Some(made) = by_fertilize(alloc, task)? {
        return Ok(Some(made));
    }
    if let Some(made) = by_generalize(alloc, task)? {
        return Ok(Some(made));
    }
    by_irrelevance(alloc, task)
}

/// The first process behind simplification that applies to a task, and the clauses that it makes, by the
/// kernel's rows. `None` where none applies.
pub(crate) fn later<J: Planned>(alloc: Global, task: &Task<'_, J>) -> Result<Option<Made>, NoMemory>
    ensures made { IfOk result (λ o. o ≡ later task.now) }
    ensures known { IfOk result (λ o. IfSome o (λ p. Each (KnownClause (defs_of task.now.plan)) p.1)) }
    ensures few { IfOk result (λ o. IfSome o (λ p. length p.1 < 2 ^ 32)) }
{
    task.recall_goal();
    task.plan.world.world().recall_sound();
    let first = first_that_applies(alloc, task)?;
    let made = made_of(first);
    Ok(made)
}
