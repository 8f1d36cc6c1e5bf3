//! What an event owes: clauses, and the attempts on them.
ghost use Rattle.std.specs.Prelude.{◌≡◌, ◌++◌, ◌+◌, ◌≤◌, [], IfOk, OnOk};
ghost use Rattle.ap_list.specs.Lists.{Each};
ghost use Rattle.ap_world.specs.Meaning.{Valid};
ghost use Rattle.ap_world.specs.Sound.{HasFunctions};
ghost use Rattle.ap_world.specs.World.{function_of};
ghost use Rattle.ap_attempt.specs.declared.verdict.Verdict.{Verdict};
ghost use Rattle.ap_kernel.specs.Reductions.{KnownClause};
ghost use Rattle.ap_hints.specs.Known.{KnownHints};
ghost use Rattle.ap_strategy.specs.Goals.{defs_of};
ghost use Rattle.ap_plain.specs.Attempts.{plan_for, tried, Tries};

use crate::attempting::{Crew, Trial, attempt_clause};
use crate::limits::Limits;
use ap_attempt::{Gate, Verdict};
use ap_hints::Hints;
use ap_list::{Bytes, NoMemory, Seq};
use ap_rules::Ruled;
use ap_stated::Owed;
use ap_strategy::Plan;
use ap_term::Clause;
use ap_walk::Rule;
use ap_world::World;
use std::alloc::{AllocError, Global};
use std::mem;
use std::sync::Wait;
use std::thread::Threads;

/// No attempt so far.
fn no_trial(alloc: Global) -> Trial
    ensures { result ≡ record { lines = []; verdict = Verdict.Qed; goals = 0; drops = [] } }
{
    Trial {
        lines: Bytes::new(alloc),
        verdict: Verdict::Qed,
        goals: 0,
        drops: Seq::new(alloc),
    }
}

/// Adds an attempt to those before it. More goals than a machine word counts is taken for want of memory.
fn add_trial(all: &mut Trial, heading: &[u8], trial: Trial) -> Result<(), NoMemory>
    ensures { OnOk result (all.new ≡ record { lines = all.old.lines ++ heading.now ++ trial.lines; verdict = trial.verdict; goals = all.old.goals + trial.goals; drops = all.old.drops ++ trial.drops }) }
{
    all.lines.extend(heading)?;
    all.lines.extend(trial.lines.as_slice())?;
    all.drops.append(trial.drops)?;
    all.verdict = trial.verdict;
    let Some(goals) = all.goals.checked_add(trial.goals) else {
        return Err(AllocError);
    };
    all.goals = goals;
    Ok(())
}

/// Tries clauses in their order, each attempt's first walk by this rule, up to the first whose attempt fails. Where none
/// fails, they are valid.
fn try_each<R: Threads + Wait + Sync, G: Gate + Sync>(
    crew: &Crew<'_, R, G>,
    alloc: Global,
    plan: &Plan,
    rule: Rule,
    owed: &[Owed],
) -> Result<Trial, NoMemory>
    requires functions { HasFunctions (defs_of plan.now) }
    requires known { Each (λ o. KnownClause (defs_of plan.now) o.clause) owed.now }
    requires hints { KnownHints plan.now.world.entries plan.now.hints }
    ensures tried { IfOk result (Tries (tried rule plan.now owed.now)) }
    ensures valid { IfOk result (λ t. t.verdict ≡ Verdict.Qed → Each (λ o. Valid (defs_of plan.now) o.clause.0) owed.now) }
    ensures alone { IfOk result (λ t. crew.now.workers ≤ 1 → t.drops ≡ []) }
{
    let mut all = no_trial(alloc);
    for one in owed {
        let trial = attempt_clause(crew, alloc, plan, rule, &one.clause)?;
        add_trial(&mut all, one.heading.as_slice(), trial)?;
        if let Verdict::Failed(_) = all.verdict {
            return Ok(all);
        }
    }
    Ok(all)
}

/// Tries clauses of a world by hints, as [`try_each`] does. The world is moved into the plan and back.
pub(crate) fn try_owed<R: Threads + Wait + Sync, G: Gate + Sync>(
    crew: &Crew<'_, R, G>,
    alloc: Global,
    w: &mut Ruled,
    limits: &Limits,
    rule: Rule,
    hints: Hints,
    owed: &[Owed],
) -> Result<Trial, NoMemory>
    requires functions { HasFunctions (function_of w.old.entries) }
    requires known { Each (λ o. KnownClause (function_of w.old.entries) o.clause) owed.now }
    requires hints { KnownHints w.old.entries hints }
    ensures same { w.new ≡ w.old }
    ensures tried { IfOk result (Tries (tried rule (plan_for limits.now w.old hints) owed.now)) }
    ensures valid { IfOk result (λ t. t.verdict ≡ Verdict.Qed → Each (λ o. Valid (function_of w.old.entries) o.clause.0) owed.now) }
    ensures alone { IfOk result (λ t. crew.now.workers ≤ 1 → t.drops ≡ []) }
{
    let bare = Ruled::of(alloc, World::bare(alloc))?;
    let plan = Plan {
        world: mem::replace(w, bare),
        hints,
        step_limit: limits.steps,
    };
    let trial = try_each(crew, alloc, &plan, rule, owed);
    *w = plan.world;
    trial
}
