ghost use Rattle.std.specs.Prelude.{◌≡◌, ◌+◌, ◌≤◌, ◌<◌, ◌^◌, [], ◌∷◌, ◌++◌, length, IfOk, OnOk};
ghost use Rattle.ap_walk.specs.Laws.{pushed};
ghost use Rattle.ap_attempt.specs.Attempts.{attempt, inductions, next_turn, rule_after, walks_of, with_pool};
ghost use Rattle.ap_attempt.specs.Drops.{Divided};
ghost use Rattle.ap_attempt.specs.Laws.{EachAfterFirst, IsLater, mark_count};

use crate::pool::Pool;
use crate::prover::Prover;
use crate::turn::{Next, Turn};
use crate::verdict::{Attempt, Verdict};
use crate::walking::walk_by;
use ap_list::{NoMemory, Seq};
use ap_speculate::Gate;
use ap_table::DropNote;
use ap_walk::{End, Mark, Process, Reason, Rule, Walked};
use std::alloc::Global;
use std::sync::Wait;
use std::thread::Threads;

/// The rule of the walk after one that was under a rule and visited so many goals, where goals are left.
fn rule_after(rule: Rule, goals: u32) -> Option<Rule>
    ensures { result ≡ rule_after rule goals }
{
    let goal_limit = rule.goal_limit.saturating_sub(goals);
    if goal_limit == 0 {
        return None;
    }
    Some(Rule {
        initial: false,
        otf: rule.otf,
        revert: rule.revert,
        goal_limit,
    })
}

/// The inductions of the tasks that a walk pushed.
fn inductions<P: Prover>(
    alloc: Global,
    prover: &P,
    marks: &[Mark<P::Task>],
) -> Result<Seq<P::Task>, NoMemory>
    requires { length marks.now + 1 < 2 ^ 32 }
    ensures { IfOk result (λ tasks. tasks ≡ inductions P.inducted 1 (pushed marks.now)) }
{
    let mut tasks = Seq::new(alloc);
    let mut number = 1;
    for mark in marks {
        if let Process::Push = mark.act.process {
            tasks.push(prover.induct_task(alloc, &mark.task, number)?)?;
            number += 1;
        }
    }
    Ok(tasks)
}

/// What is done with a pool.
fn with_pool<T: Drop>(refuses: bool, left: Option<Rule>, pool: Pool<T>) -> Next<T>
    ensures { result ≡ with_pool refuses left pool }
{
    let mut rest = pool;
    let Some(task) = rest.take_first() else {
        return Next::Done(Verdict::Qed);
    };
    if refuses {
        return Next::Done(Verdict::Failed(Reason::DoNotInduct));
    }
    match left {
        None => Next::Done(Verdict::Failed(Reason::GoalLimit)),
        Some(rule) => Next::Walk(Turn { task, rule, rest }),
    }
}

/// What follows a walk of an attempt on a root, where `rest` waited.
fn next_turn<P: Prover>(
    alloc: Global,
    prover: &P,
    root: &P::Task,
    rule: Rule,
    walked: &Walked<P::Task>,
    rest: Pool<P::Task>,
) -> Result<Next<P::Task>, NoMemory>
    requires { length walked.now.marks + 1 < 2 ^ 32 }
    ensures { IfOk result (λ next. next ≡ next_turn P.inducted (P.original_of root.now) (P.refuses_induction prover.now) rule walked.now rest) }
{
    let mut pool = rest;
    match walked.end {
        End::Through => pool.put_before(inductions(alloc, prover, walked.marks.as_slice())?)?,
        End::Revert => {
            let original = prover.original(alloc, root)?;
            pool = Pool::of(alloc, prover.induct_task(alloc, &original, 1)?)?;
        }
        End::Limit => return Ok(Next::Done(Verdict::Failed(Reason::GoalLimit))),
        End::Stopped(reason) => return Ok(Next::Done(Verdict::Failed(reason))),
    }
    let left = rule_after(rule, walked.tally.goals);
    Ok(with_pool(prover.do_not_induct(), left, pool))
}

/// The walks that an attempt made so far, and the notes of what was dropped in them.
#[derive(Drop)]
struct Made<T> {
    walks: Seq<Walked<T>>,
    drops: Seq<DropNote>,
}

impl<T: Drop> Made<T> {
    /// Adds a walk, and the notes of what was dropped in it.
    fn add(&mut self, walked: Walked<T>, drops: Seq<DropNote>) -> Result<(), NoMemory>
        ensures walks { OnOk result (self.new.walks ≡ self.old.walks ++ walked ∷ []) }
        ensures drops { OnOk result (self.new.drops ≡ self.old.drops ++ drops) }
    {
        self.walks.push(walked)?;
        self.drops.append(drops)
    }
}

/// An attempt on a goal. The root is walked under the rule. Where a walk stops for a reason, the attempt fails
/// for that; where it comes to the limit on goals, it fails with `GoalLimit`. Where the root's walk reverts,
/// the pool is the induction of the root's original as number 1; else it is the inductions of what was
/// pushed, in order. The attempt is `Qed` where the pool is empty. Else it fails with `DoNotInduct` where the
/// prover refuses induction, and else with `GoalLimit` where no goals are left. Else the first of the pool is
/// walked, under a rule that isn't initial and has the goals that are left as its limit, and what it pushes
/// stands before the rest of the pool. So it goes on.
///
/// Each walk is made by so many workers, up to 64, and is the same whatever their number. With 0 or 1 of them
/// nothing is dropped; the code walks it alone then, starts no thread and passes no gate, which no clause says.
/// The only error is want of memory.
pub fn prove<P: Prover + Sync, G: Gate + Sync, R: Threads + Wait + Sync>(
    rt: &R,
    alloc: Global,
    prover: &P,
    root: P::Task,
    rule: Rule,
    workers: u32,
    gate: &G,
) -> Result<Attempt<P::Task>, NoMemory>
where
    P::Task: Send,
    ensures attempt { let course = attempt P.step_of P.depth P.inducted (P.original_of root) (P.refuses_induction prover.now) rule root in IfOk result (λ done. (done.verdict ≡ course.verdict) × (done.walks ≡ walks_of course)) }
    ensures drops { let course = attempt P.step_of P.depth P.inducted (P.original_of root) (P.refuses_induction prover.now) rule root in IfOk result (λ done. Divided P.step_of P.depth P.name done.drops course.walks) }
    ensures alone { IfOk result (λ done. workers ≤ 1 → done.drops ≡ []) }
    ensures good { IfOk result (λ done. done.verdict ≡ Verdict.Qed → P.good root) }
    ensures few { IfOk result (λ done. mark_count done.walks ≤ rule.goal_limit) }
    ensures later { IfOk result (λ done. EachAfterFirst (IsLater P.step_of P.depth) done.walks) }
{
    let mut made = Made {
        walks: Seq::new(alloc),
        drops: Seq::new(alloc),
    };
    let task = prover.copy_task(alloc, &root)?;
    let mut turn = Turn {
        task,
        rule,
        rest: Pool::new(alloc),
    };
    loop {
        let Turn { task, rule, rest } = turn;
        let (walked, drops) = walk_by(rt, alloc, prover, &task, rule, workers, gate)?;
        let next = next_turn(alloc, prover, &root, rule, &walked, rest)?;
        made.add(walked, drops)?;
        match next {
            Next::Walk(after) => turn = after,
            Next::Done(verdict) => {
                let Made { walks, drops } = made;
                return Ok(Attempt {
                    verdict,
                    walks,
                    drops,
                });
            }
        }
    }
}
