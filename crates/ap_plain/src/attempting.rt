//! Attempts on clauses.
ghost use Rattle.std.specs.Prelude.{◌≡◌, ◌++◌, ◌+◌, ◌<◌, ◌≤◌, ◌^◌, [], IfOk, true};
ghost use denote.Param.Send.{IsSend, IsSync};
ghost use Rattle.ap_term.specs.contracts.tree.Term as terms;
ghost use Rattle.ap_value.specs.contracts.value.Value as values;
ghost use Rattle.ap_world.specs.Meaning.{Valid};
ghost use Rattle.ap_world.specs.Sound.{HasFunctions, Sound};
ghost use Rattle.ap_world.specs.World.{are_distinct};
ghost use Rattle.ap_attempt.specs.Laws.{mark_count};
ghost use Rattle.ap_kernel.specs.Reductions.{KnownClause};
ghost use Rattle.ap_hints.specs.Known.{KnownHints};
ghost use Rattle.ap_strategy.specs.Goals.{defs_of, clause_goal};
ghost use Rattle.ap_strategy.specs.Steps.{IsGood};
ghost use Rattle.ap_plain.specs.Attempts.{first_rule, unproved_text, tried_from, Tries};
ghost use Rattle.ap_plain.specs.Lines.{walks_text};

use crate::limits::Limits;
use crate::lines::{checkpoint_lines, walk_lines};
use crate::prover::Proving;
use ap_attempt::{DropNote, Gate, Verdict, prove};
use ap_list::{Bytes, NoMemory, Seq};
use ap_strategy::{Acl2Step, Plan, Planned, Task, clause_task, copy_clause};
use ap_term::{Clause, Term};
use ap_value::Value;
use ap_walk::{Rule, Walked};
use std::alloc::Global;
use std::marker::Brand;
use std::sync::Wait;
use std::thread::Threads;

/// Who works the attempts: so many workers, which pass a gate.
#[derive(Drop)]
pub(crate) struct Crew<'a, R, G> {
    pub rt: &'a R,
    pub workers: u32,
    pub gate: &'a G,
}

/// What attempts came to: their lines, with the checkpoints of one that failed, how many goals they visited, and what was
/// dropped in them.
#[derive(Drop)]
pub struct Trial {
    pub lines: Bytes,
    pub verdict: Verdict,
    pub goals: usize,
    pub drops: Seq<DropNote>,
}

/// The rule of an attempt's first walk, by whether its event asks for `:otf-flg`.
pub(crate) fn first_rule(limits: &Limits, otf: bool) -> Rule
    ensures { result ≡ first_rule limits.now otf }
{
    Rule {
        initial: true,
        otf,
        revert: limits.revert,
        goal_limit: limits.goals,
    }
}

/// The lines of an attempt: where it failed its checkpoints follow those of its walks.
fn attempt_lines<J: Planned>(
    alloc: Global,
    verdict: Verdict,
    walks: &[Walked<Task<'_, J>>],
) -> Result<Bytes, NoMemory>
    requires { mark_count walks.now + 1 < 2 ^ 32 }
    ensures { IfOk result (λ text. text ≡ walks_text walks.now ++ unproved_text verdict walks.now) }
{
    let mut text = walk_lines(alloc, walks)?;
    if let Verdict::Failed(_) = verdict {
        text.extend(checkpoint_lines(alloc, walks)?.as_slice())?;
    }
    Ok(text)
}

/// How many goals walks visited: their marks.
fn goal_count<J: Planned>(walks: &[Walked<Task<'_, J>>]) -> usize
    requires { mark_count walks.now + 1 < 2 ^ 32 }
    ensures { result ≡ mark_count walks.now }
{
    let mut count = 0;
    let mut left = walks;
    while let [walked, rest @ ..] = left {
        count += walked.marks.len();
        left = rest;
    }
    count
}

/// That a type may cross to another thread and be shared, as a fact of the caller's proof. Costs nothing.
fn crosses<T: Send + Sync>()
    ensures send { IsSend T.row }
    ensures sync { IsSync T.row }
{}

/// That terms and values may cross. Costs nothing.
fn terms_cross()
    ensures term_send { IsSend terms.the_row }
    ensures term_sync { IsSync terms.the_row }
    ensures value_sync { IsSync values.the_row }
{
    crosses::<Term>();
    crosses::<Value>();
}

/// Works the attempt that starts from a task, its first walk by this rule. Where it doesn't fail, the task is good.
#[tactic(auto, unfolding(crate::specs::Attempts::tried_from))]
fn attempt_from<J: Planned + Send + Sync, R: Threads + Wait + Sync, G: Gate + Sync>(
    crew: &Crew<'_, R, G>,
    alloc: Global,
    rule: Rule,
    root: Task<'_, J>,
) -> Result<Trial, NoMemory>
    ensures tried { IfOk result (Tries (tried_from rule root.entry)) }
    ensures good { IfOk result (λ t. t.verdict ≡ Verdict.Qed → IsGood root.entry) }
    ensures alone { IfOk result (λ t. crew.now.workers ≤ 1 → t.drops ≡ []) }
{
    terms_cross();
    let prover = Proving {
        step: Acl2Step::new(root.plan, crew.workers),
    };
    let done = prove(crew.rt, alloc, &prover, root, rule, crew.workers, crew.gate)?;
    let lines = attempt_lines(alloc, done.verdict, done.walks.as_slice())?;
    let goals = goal_count(done.walks.as_slice());
    Ok(Trial {
        lines,
        verdict: done.verdict,
        goals,
        drops: done.drops,
    })
}

/// Tries a clause, which is moved, by the brand's plan. Where it doesn't fail, the goal is good.
fn attempt_as<J: Planned + Send + Sync, R: Threads + Wait + Sync, G: Gate + Sync>(
    crew: &Crew<'_, R, G>,
    alloc: Global,
    plan: &Plan,
    rule: Rule,
    clause: Clause,
) -> Result<Trial, NoMemory>
    requires brand { plan.now ≡ J.plan }
    requires functions { HasFunctions (defs_of plan.now) }
    requires known { KnownClause (defs_of plan.now) clause }
    requires hints { KnownHints plan.now.world.entries plan.now.hints }
    ensures tried { IfOk result (Tries (tried_from rule (clause_goal plan.now clause))) }
    ensures good { IfOk result (λ t. t.verdict ≡ Verdict.Qed → IsGood (clause_goal plan.now clause)) }
    ensures alone { IfOk result (λ t. crew.now.workers ≤ 1 → t.drops ≡ []) }
{
    let root: Task<'_, J> = clause_task(alloc, plan, clause)?;
    attempt_from(crew, alloc, rule, root)
}

/// A plan's world is sound, and its names are distinct. Costs nothing.
fn recall_sound(plan: &Plan)
    ensures sound { Sound plan.now.world.entries }
    ensures distinct { are_distinct plan.now.world.entries ≡ true }
{
    let world = plan.world.world();
    world.recall_sound();
    world.recall_distinct_names();
}

/// Tries to prove a clause of a plan's world, which is moved. Where it doesn't fail, the clause is valid. The brand of
/// the attempt's tasks is picked here: it is the plan.
fn attempt_moved<R: Threads + Wait + Sync, G: Gate + Sync>(
    crew: &Crew<'_, R, G>,
    alloc: Global,
    plan: &Plan,
    rule: Rule,
    clause: Clause,
) -> Result<Trial, NoMemory>
    requires functions { HasFunctions (defs_of plan.now) }
    requires known { KnownClause (defs_of plan.now) clause }
    requires hints { KnownHints plan.now.world.entries plan.now.hints }
    ensures tried { IfOk result (Tries (tried_from rule (clause_goal plan.now clause))) }
    ensures valid { IfOk result (λ t. t.verdict ≡ Verdict.Qed → Valid (defs_of plan.now) clause.0) }
    ensures alone { IfOk result (λ t. crew.now.workers ≤ 1 → t.drops ≡ []) }
{
    recall_sound(plan);
    attempt_as::<Brand, R, G>(crew, alloc, plan, rule, clause)
}

/// Tries to prove a clause of a plan's world. Where it doesn't fail, the clause is valid.
pub(crate) fn attempt_clause<R: Threads + Wait + Sync, G: Gate + Sync>(
    crew: &Crew<'_, R, G>,
    alloc: Global,
    plan: &Plan,
    rule: Rule,
    clause: &Clause,
) -> Result<Trial, NoMemory>
    requires functions { HasFunctions (defs_of plan.now) }
    requires known { KnownClause (defs_of plan.now) clause.now }
    requires hints { KnownHints plan.now.world.entries plan.now.hints }
    ensures tried { IfOk result (Tries (tried_from rule (clause_goal plan.now clause.now))) }
    ensures valid { IfOk result (λ t. t.verdict ≡ Verdict.Qed → Valid (defs_of plan.now) clause.now.0) }
    ensures alone { IfOk result (λ t. crew.now.workers ≤ 1 → t.drops ≡ []) }
{
    let clause = copy_clause(alloc, clause)?;
    attempt_moved(crew, alloc, plan, rule, clause)
}
