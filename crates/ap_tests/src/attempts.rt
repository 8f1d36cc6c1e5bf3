ghost use Rattle.std.specs.Prelude.{◌≡◌, ◌≤◌, ◌∷◌, [], IfOk, true, false};
ghost use Rattle.ap_names.specs.Names.{child_of};

use crate::expect::expect;
use ap_attempt::*;
use ap_names::{GoalName, same_name};
use ap_walk::{Act, End, Out, Process, Reason, Rule, Step, Stepped, Walked};
use std::alloc::{AllocError, Global};
use std::process::Abort;
use std::sync::Wait;
use std::thread::Threads;

/// What comes of a goal.
#[derive(Clone, Copy, PartialEq)]
enum Kind {
    /// Splits into none.
    Easy,
    /// Stops, for want of an induction.
    Stuck,
    /// Is pushed. Its induction is stuck.
    Lone,
    /// Is pushed. Its induction is easy.
    Late,
    /// Is pushed. Its induction splits into two late ones.
    Nest,
    /// Splits into two late ones.
    Twice,
    /// Splits into a nest and a late one. What it reverts to is late.
    Pair,
}

#[derive(Drop)]
struct Goal {
    name: GoalName,
    kind: Kind,
}

/// A prover of such goals.
#[derive(Clone, Copy)]
struct Given {
    refuses: bool,
}

impl Step for Given {
    ghost use Rattle.std.specs.Prelude.{ℕ, [], ◌∷◌, true, false};
    ghost use Rattle.std.proofs.Common.{rules, arith};
    ghost use Rattle.ap_names.specs.Names.{Name, child_of};
    ghost use Rattle.ap_walk.specs.declared.act.Reason.{Reason};
    ghost use Rattle.ap_walk.specs.declared.act.Process.{Process};
    ghost use Rattle.ap_walk.specs.declared.act.Stepped.{Stepped};
    ghost use Rattle.ap_walk.specs.declared.act.Out.{Out};
    ghost use Rattle.ap_walk.specs.Visits.{Tells, IsSplit, out_children};
    ghost use Rattle.ap_list.specs.Lists.{Each};
    ghost use Rattle.ap_tests.specs.declared.attempts.Goal.{Goal};
    ghost use Rattle.ap_tests.specs.declared.attempts.Kind.{Kind};
    ghost use Rattle.ap_tests.specs.declared.attempts.Kind.TheVariants.{Easy, Stuck, Lone, Late, Nest, Twice, Pair};

    type Task = Goal;

    ghost step_of = { λ goal. elim goal.kind as (λ _. Stepped Goal) [
      | Easy ↦ record { act = record { process = Process.Simplify; missed = false; limited = false }; out = Out.Split [] }
      | Stuck ↦ record { act = record { process = Process.Stop; missed = true; limited = false }; out = Out.Stop Reason.NoScheme }
      | Lone ↦ record { act = record { process = Process.Push; missed = true; limited = false }; out = Out.Push }
      | Late ↦ record { act = record { process = Process.Push; missed = true; limited = false }; out = Out.Push }
      | Nest ↦ record { act = record { process = Process.Push; missed = true; limited = false }; out = Out.Push }
      | Twice ↦ record { act = record { process = Process.Simplify; missed = false; limited = false }; out = Out.Split (record { name = child_of goal.name 2; kind = Late } ∷ record { name = child_of goal.name 1; kind = Late } ∷ []) }
      | Pair ↦ record { act = record { process = Process.Simplify; missed = false; limited = false }; out = Out.Split (record { name = child_of goal.name 2; kind = Nest } ∷ record { name = child_of goal.name 1; kind = Late } ∷ []) }
    ] };

    ghost good = { λ _. Unit {0} };

    ghost name = { λ goal. goal.name };

    ghost depth = { λ goal. elim goal.kind as (λ _. ℕ) [ Easy ↦ 0 | Stuck ↦ 0 | Lone ↦ 0 | Late ↦ 0 | Nest ↦ 0 | Twice ↦ 1 | Pair ↦ 1 ] };

    ghost tells = { λ goal. Prim.search rules };

    ghost deeper = { λ goal. Prim.grind arith };

    ghost whole = { λ _ _ _. tt };

    fn step(&self, alloc: Global, task: &Goal) -> Result<Stepped<Goal>, NoMemory> {
        match task.kind {
            Kind::Easy => Ok(split(Seq::new(alloc))),
            Kind::Stuck => Ok(missed(Process::Stop, Out::Stop(Reason::NoScheme))),
            Kind::Lone | Kind::Late | Kind::Nest => Ok(missed(Process::Push, Out::Push)),
            Kind::Twice => Ok(split(children(alloc, task, Kind::Late)?)),
            Kind::Pair => Ok(split(children(alloc, task, Kind::Nest)?)),
        }
    }

    fn copy_task(&self, alloc: Global, task: &Goal) -> Result<Goal, NoMemory> {
        let name = task.name.copy(alloc)?;
        let kind = task.kind;
        Ok(Goal { name, kind })
    }

    fn same_task(&self, a: &Goal, b: &Goal) -> bool {
        a.kind == b.kind && same_name(&a.name, &b.name)
    }

    fn name_of(&self, alloc: Global, task: &Goal) -> Result<GoalName, NoMemory> {
        task.name.copy(alloc)
    }
}

impl Prover for Given {
    ghost use Rattle.std.specs.Prelude.{ℕ, refl};
    ghost use Rattle.std.proofs.Common.{arith};
    ghost use Rattle.ap_names.specs.Names.{pushed_of};
    ghost use Rattle.ap_tests.specs.declared.attempts.Kind.{Kind};
    ghost use Rattle.ap_tests.specs.declared.attempts.Kind.TheVariants.{Easy, Stuck, Lone, Late, Nest, Twice, Pair};

    ghost inducted = { λ goal k. record { name = pushed_of goal.name k; kind = elim goal.kind as (λ _. Kind) [ Easy ↦ Easy | Stuck ↦ Stuck | Lone ↦ Stuck | Late ↦ Easy | Nest ↦ Twice | Twice ↦ Twice | Pair ↦ Pair ] } };

    ghost original_of = { λ root. record { name = root.name; kind = Late } };

    // An induction of a nest pushes late goals, whose inductions push nothing.
    ghost rank = { λ goal. elim goal.kind as (λ _. ℕ) [ Easy ↦ 0 | Stuck ↦ 0 | Lone ↦ 1 | Late ↦ 1 | Nest ↦ 2 | Twice ↦ 1 | Pair ↦ 2 ] };

    ghost refuses_induction = { λ given. given.refuses };

    ghost named = { λ _ _ _. refl };

    ghost original_named = { λ _. refl };

    ghost ranked = { λ goal. Prim.grind arith };

    ghost falling = { λ goal k some pushed. Prim.grind arith };

    ghost by_induction = { λ _ _ _ _. tt };

    ghost by_original = { λ _ _. tt };

    fn induct_task(&self, alloc: Global, task: &Goal, k: u32) -> Result<Goal, NoMemory> {
        let name = task.name.pushed(alloc, k)?;
        match task.kind {
            Kind::Lone => Ok(Goal {
                name,
                kind: Kind::Stuck,
            }),
            Kind::Late => Ok(Goal {
                name,
                kind: Kind::Easy,
            }),
            Kind::Nest => Ok(Goal {
                name,
                kind: Kind::Twice,
            }),
            Kind::Easy | Kind::Stuck | Kind::Twice | Kind::Pair => Ok(Goal {
                name,
                kind: task.kind,
            }),
        }
    }

    fn original(&self, alloc: Global, root: &Goal) -> Result<Goal, NoMemory> {
        let name = root.name.copy(alloc)?;
        Ok(Goal {
            name,
            kind: Kind::Late,
        })
    }

    fn do_not_induct(&self) -> bool {
        self.refuses
    }
}

/// The two children of a goal.
fn children(alloc: Global, goal: &Goal, first: Kind) -> Result<Seq<Goal>, NoMemory>
    ensures { IfOk result (λ goals. goals ≡ record { name = child_of goal.now.name 2; kind = first } ∷ record { name = child_of goal.now.name 1; kind = Kind.Late } ∷ []) }
{
    let mut goals = Seq::new(alloc);
    goals.push(Goal {
        name: goal.name.child(alloc, 2)?,
        kind: first,
    })?;
    goals.push(Goal {
        name: goal.name.child(alloc, 1)?,
        kind: Kind::Late,
    })?;
    Ok(goals)
}

/// The step of a goal that splits.
fn split(children: Seq<Goal>) -> Stepped<Goal>
    ensures { result ≡ record { act = record { process = Process.Simplify; missed = false; limited = false }; out = Out.Split children } }
{
    Stepped {
        act: Act {
            process: Process::Simplify,
            missed: false,
            limited: false,
        },
        out: Out::Split(children),
    }
}

/// The step of a goal that no process changed.
fn missed(process: Process, out: Out<Goal>) -> Stepped<Goal>
    ensures { result ≡ record { act = record { process = process; missed = true; limited = false }; out = out } }
{
    Stepped {
        act: Act {
            process,
            missed: true,
            limited: false,
        },
        out,
    }
}

/// The name `Goal`.
fn root_name(alloc: Global) -> GoalName {
    GoalName {
        induction: Seq::new(alloc),
        case: None,
        path: Seq::new(alloc),
        primes: 0,
    }
}

/// The rule of the first walk.
fn first(otf: bool, goal_limit: u32) -> Rule
    requires low { 1 ≤ goal_limit }
    requires high { goal_limit ≤ 200002 }
{
    Rule {
        initial: true,
        otf,
        revert: 2,
        goal_limit,
    }
}

/// What is expected of a walk: the name at which it begins, its number of marks, and its end.
type Walk = (&'static str, usize, End);

/// Compares a walk with what is expected.
fn expect_walk(
    rt: &impl Abort,
    alloc: Global,
    walked: &Walked<Goal>,
    wanted: &Walk,
) -> Result<(), NoMemory> {
    let marks = walked.marks.as_slice();
    assert_eq!(rt; (marks.len(), walked.end), (wanted.1, wanted.2));
    if let [mark, ..] = marks {
        expect(rt, mark.task.name.print(alloc)?.as_slice(), wanted.0);
    }
    Ok(())
}

/// Compares the walks of an attempt with what is expected.
fn expect_walks(
    rt: &impl Abort,
    alloc: Global,
    walks: &[Walked<Goal>],
    wanted: &[Walk],
) -> Result<(), NoMemory> {
    assert!(rt; walks.len() == wanted.len(), "walks");
    for (walked, row) in walks.iter().zip(wanted) {
        expect_walk(rt, alloc, walked, row)?;
    }
    Ok(())
}

/// An attempt: the kind of its goal, whether no induction may be made, and its first rule's switch and limit.
#[derive(Clone, Copy)]
struct Trial(Kind, bool, bool, u32);

/// Makes an attempt by so many workers.
fn attempt<R: Threads + Wait + Sync>(
    rt: &R,
    alloc: Global,
    trial: Trial,
    workers: u32,
) -> Result<Attempt<Goal>, NoMemory> {
    let Trial(kind, refuses, otf, limit) = trial;
    if limit < 1 || limit > 200002 {
        return Err(AllocError);
    }
    let name = root_name(alloc);
    prove(
        rt,
        alloc,
        &Given { refuses },
        Goal { name, kind },
        first(otf, limit),
        workers,
        &NoGate,
    )
}

/// What is expected of an attempt: its verdict, and its walks.
type Row = (Trial, Verdict, &'static [Walk]);

/// Compares an attempt by so many workers with what is expected.
fn expect_row<R: Threads + Wait + Sync + Abort>(
    rt: &R,
    alloc: Global,
    trial: Trial,
    verdict: Verdict,
    walks: &[Walk],
    workers: u32,
) -> Result<(), NoMemory> {
    let done = attempt(rt, alloc, trial, workers)?;
    assert!(rt; done.verdict == verdict, "the verdict");
    expect_walks(rt, alloc, done.walks.as_slice(), walks)
}

/// Compares attempts by so many workers with what is expected.
fn expect_rows<R: Threads + Wait + Sync + Abort>(
    rt: &R,
    alloc: Global,
    rows: &[Row],
    workers: u32,
) -> Result<(), NoMemory> {
    for (trial, verdict, walks) in rows {
        expect_row(rt, alloc, *trial, *verdict, *walks, workers)?;
    }
    Ok(())
}

const NONE_LEFT: Verdict = Verdict::Failed(Reason::GoalLimit);

const NO_SCHEME: Verdict = Verdict::Failed(Reason::NoScheme);

const FORBIDDEN: Verdict = Verdict::Failed(Reason::DoNotInduct);

const ROWS: &[Row] = &[
    // A second push reverts to the original.
    (
        Trial(Kind::Twice, false, false, 10),
        Verdict::Qed,
        &[("Goal", 3, End::Revert), ("*1", 1, End::Through)],
    ),
    (
        Trial(Kind::Twice, false, false, 5),
        Verdict::Qed,
        &[("Goal", 3, End::Revert), ("*1", 1, End::Through)],
    ),
    (
        Trial(Kind::Twice, false, false, 4),
        NONE_LEFT,
        &[("Goal", 3, End::Revert), ("*1", 1, End::Limit)],
    ),
    // A push without an induction fails.
    (
        Trial(Kind::Lone, false, false, 10),
        NO_SCHEME,
        &[
            ("Goal", 1, End::Through),
            ("*1", 1, End::Stopped(Reason::NoScheme)),
        ],
    ),
    (
        Trial(Kind::Stuck, false, false, 10),
        NO_SCHEME,
        &[("Goal", 1, End::Stopped(Reason::NoScheme))],
    ),
    // Goals run out.
    (
        Trial(Kind::Twice, false, false, 1),
        NONE_LEFT,
        &[("Goal", 1, End::Limit)],
    ),
    (
        Trial(Kind::Easy, false, false, 1),
        NONE_LEFT,
        &[("Goal", 1, End::Limit)],
    ),
    (
        Trial(Kind::Twice, false, false, 3),
        NONE_LEFT,
        &[("Goal", 3, End::Revert)],
    ),
    (
        Trial(Kind::Late, false, false, 2),
        NONE_LEFT,
        &[("Goal", 1, End::Through), ("*1", 1, End::Limit)],
    ),
    // A hint forbids induction.
    (
        Trial(Kind::Late, true, false, 10),
        FORBIDDEN,
        &[("Goal", 1, End::Through)],
    ),
    (
        Trial(Kind::Easy, true, false, 10),
        Verdict::Qed,
        &[("Goal", 1, End::Through)],
    ),
    (
        Trial(Kind::Twice, true, false, 3),
        FORBIDDEN,
        &[("Goal", 3, End::Revert)],
    ),
    // Pushes of a pushed goal come before the rest.
    (
        Trial(Kind::Pair, false, true, 10),
        Verdict::Qed,
        &[
            ("Goal", 3, End::Through),
            ("*1", 3, End::Through),
            ("*1.1", 1, End::Through),
            ("*1.2", 1, End::Through),
            ("*2", 1, End::Through),
        ],
    ),
    (
        Trial(Kind::Pair, false, true, 9),
        NONE_LEFT,
        &[
            ("Goal", 3, End::Through),
            ("*1", 3, End::Through),
            ("*1.1", 1, End::Through),
            ("*1.2", 1, End::Through),
            ("*2", 1, End::Limit),
        ],
    ),
];

/// Each row: workers, and how often their attempts are made.
const WORKERS: &[(u32, u32)] = &[(1, 1), (2, 20), (8, 20)];

#[test]
fn attempts_end_as_the_rows_say_by_one_and_by_several_workers(
    rt: HostRuntime,
) -> Result<(), NoMemory> {
    for (workers, times) in WORKERS {
        for _ in 0..*times {
            expect_rows(&rt, rt.alloc(), ROWS, *workers)?;
        }
    }
    Ok(())
}

/// The case 3 of the induction 1.
fn case_name(alloc: Global) -> Result<GoalName, NoMemory> {
    let pushed = root_name(alloc).pushed(alloc, 1)?;
    pushed.child(alloc, 3)
}

/// The name of the push 2 of that case.
fn case_push(alloc: Global) -> Result<GoalName, NoMemory> {
    let name = case_name(alloc)?;
    let kind = Kind::Late;
    push_name(alloc, &Given { refuses: false }, &Goal { name, kind }, 2)
}

#[test]
fn a_push_is_named_by_its_number(rt: HostRuntime) -> Result<(), NoMemory> {
    let name = case_push(rt.alloc())?;
    expect(&rt, name.print(rt.alloc())?.as_slice(), "*1.2");
    Ok(())
}
