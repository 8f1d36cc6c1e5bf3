//! Walks by the waterfall's step, by a table.
ghost use Rattle.std.specs.Prelude.{◌≡◌, ◌≤◌, IfOk};
ghost use Rattle.ap_world.specs.Sound.{HasFunctions};
ghost use Rattle.ap_hints.specs.Known.{KnownHints};
ghost use Rattle.ap_strategy.specs.Goals.{defs_of};

use crate::expect::expect;
use ap_eval::is_known;
use ap_ground::ground_world;
use ap_ground::laws::ground_has_its_functions;
use ap_hints::no_hints;
use ap_list::{Boxed, Bytes, NoMemory, Seq};
use ap_print::print_clause;
use ap_rules::Ruled;
use ap_strategy::{Acl2Step, Plan, Planned, Task, induct_task};
use ap_term::Term;
use ap_tests_terms::{sides, term};
use ap_walk::{Act, Mark, Out, Process, Reason, Rule, Step, Stepped, Walked, serial};
use std::alloc::{AllocError, Global};
use std::marker::Brand;
use std::process::Abort;

/// Each row: the steps that a clause may spend and a conjecture; and what is visited in its walk, each goal's name, the kind of
/// step with the number of children or of the reason, and the clause.
const ROWS: &str =
    r#"9 (implies (equal x y) (equal y x)) => Goal simplify 1 (OR (NOT (EQUAL X Y)) (EQUAL Y X)); Goal' simplify 0 (EQUAL Y Y)
14 (if (equal (equal x y) (equal z w)) (equal u v) 'nil) => Goal simplify 2 (IF (EQUAL (EQUAL X Y) (EQUAL Z W)) (EQUAL U V) 'NIL); Subgoal 2 push 0 (OR (NOT (EQUAL (EQUAL X Y) (EQUAL Z W))) (EQUAL U V)); Subgoal 1 push 0 (EQUAL (EQUAL X Y) (EQUAL Z W))
9 'nil => Goal simplify 1 'NIL; Goal' empty 2 NIL
9 (equal x y) => Goal push 0 (EQUAL X Y)
11 (if x (if y z w) u) => Goal simplify 3 (IF X (IF Y Z W) U); Subgoal 3 irrelevance 1 (OR (NOT X) (NOT Y) Z); Subgoal 3' push 0 Z; Subgoal 2 irrelevance 1 (OR (NOT X) Y W); Subgoal 2' push 0 (OR Y W); Subgoal 1 push 0 (OR X U)
10 (if x (if y z w) u) => Goal limited 0 (IF X (IF Y Z W) U)
9 (if x (equal y y) (if x z x)) => Goal simplify 1 (IF X (EQUAL Y Y) (IF X Z X)); Goal' push 0 X
9 (implies (not (not (equal x (cons y z)))) (implies (equal w x) (consp w))) => Goal simplify 1 (OR (NOT (EQUAL X (CONS Y Z))) (NOT (EQUAL W X)) (CONSP W)); Goal' simplify 1 (OR (NOT (EQUAL W (CONS Y Z))) (CONSP W)); Goal'' simplify 0 (CONSP (CONS Y Z))
0 (implies (consp x) (implies (not (consp x)) y)) => Goal simplify 0 (OR (NOT (CONSP X)) (CONSP X) Y)"#;

/// A plan of the ground world.
fn first_plan(alloc: Global, step_limit: u32) -> Result<Plan, NoMemory>
    ensures functions { IfOk result (λ p. HasFunctions (defs_of p)) }
    ensures hints { IfOk result (λ p. KnownHints p.world.entries p.hints) }
{
    ground_has_its_functions();
    let world = Ruled::of(alloc, ground_world(alloc)?)?;
    Ok(Plan {
        world,
        hints: no_hints(alloc),
        step_limit,
    })
}

/// The task of a term, which is one of the plan's world.
pub(crate) fn root<'a, J: Planned>(
    alloc: Global,
    plan: &'a Plan,
    t: &Term,
) -> Result<Task<'a, J>, NoMemory>
    requires brand { plan.now ≡ J.plan }
    requires functions { HasFunctions (defs_of plan.now) }
    requires hints { KnownHints plan.now.world.entries plan.now.hints }
{
    if is_known(plan.world.world(), t) {
        Acl2Step::new(plan, 1).root(alloc, t)
    } else {
        Err(AllocError)
    }
}

/// The word for what a step did.
fn kind(act: Act) -> &'static [u8] {
    match (act.process, act.missed, act.limited) {
        (Process::Simplify, false, false) => b"simplify",
        (Process::Irrelevance, true, false) => b"irrelevance",
        (Process::Push, true, false) => b"push",
        (Process::Push, true, true) => b"limited",
        (Process::Stop, true, false) => b"empty",
        _ => b"other",
    }
}

/// Writes a mark.
fn put_mark<J: Planned>(
    alloc: Global,
    text: &mut Bytes,
    mark: &Mark<Task<'_, J>>,
) -> Result<(), NoMemory> {
    let task = &mark.task;
    text.append(task.name.print(alloc)?)?;
    text.push(b' ')?;
    text.extend(kind(mark.act))?;
    text.extend(format!(in alloc; " {} ", mark.children)?.as_bytes())?;
    text.append(print_clause(alloc, &task.clause)?)
}

/// Marks as text.
fn marks_told<J: Planned>(alloc: Global, marks: &[Mark<Task<'_, J>>]) -> Result<Bytes, NoMemory> {
    let mut text = Seq::new(alloc);
    for mark in marks {
        if !text.is_empty() {
            text.extend(b"; ")?;
        }
        put_mark(alloc, &mut text, mark)?;
    }
    Ok(text)
}

/// The walk of a conjecture.
fn walk<'a, J: Planned>(
    alloc: Global,
    plan: &'a Plan,
    conjecture: &Term,
) -> Result<Walked<Task<'a, J>>, NoMemory>
    requires brand { plan.now ≡ J.plan }
    requires functions { HasFunctions (defs_of plan.now) }
    requires hints { KnownHints plan.now.world.entries plan.now.hints }
{
    let task: Boxed<Task<'a, J>> = Boxed::new(alloc, root(alloc, plan, conjecture)?)?;
    let rule = Rule {
        initial: true,
        otf: true,
        revert: 2,
        goal_limit: 100,
    };
    serial(alloc, &Acl2Step::new(plan, 1), task.get(), rule)
}

/// What is visited in the walk of a conjecture.
fn walk_told<J: Planned>(alloc: Global, plan: &Plan, conjecture: &Term) -> Result<Bytes, NoMemory>
    requires brand { plan.now ≡ J.plan }
    requires functions { HasFunctions (defs_of plan.now) }
    requires hints { KnownHints plan.now.world.entries plan.now.hints }
{
    let walked: Walked<Task<'_, J>> = walk(alloc, plan, conjecture)?;
    marks_told(alloc, walked.marks.as_slice())
}

/// The same where a clause may spend so many steps.
fn planned_told(alloc: Global, steps: u32, conjecture: &Term) -> Result<Bytes, NoMemory> {
    let plan = first_plan(alloc, steps)?;
    walk_told::<Brand>(alloc, &plan, conjecture)
}

/// The same of a row.
fn row_told(alloc: Global, row: &str) -> Result<Bytes, NoMemory> {
    let (steps, text) = row.split_once(' ').unwrap_or((row, ""));
    let conjecture = term(alloc, text)?;
    planned_told(alloc, steps.parse().unwrap_or(0), &conjecture)
}

#[test]
fn goals_are_walked_as_the_rows_say(rt: HostRuntime) -> Result<(), NoMemory> {
    assert_eq!(rt; ROWS.lines().count(), 9);
    for line in ROWS.lines() {
        let found = row_told(rt.alloc(), sides(line).0)?;
        expect(&rt, found.as_slice(), sides(line).1, line);
    }
    Ok(())
}

/// The task of the term that is written.
pub(crate) fn written_task<'a, J: Planned>(
    alloc: Global,
    plan: &'a Plan,
    text: &str,
) -> Result<Task<'a, J>, NoMemory>
    requires brand { plan.now ≡ J.plan }
    requires functions { HasFunctions (defs_of plan.now) }
    requires hints { KnownHints plan.now.world.entries plan.now.hints }
{
    let t = term(alloc, text)?;
    root(alloc, plan, &t)
}

/// The induction of the last of some tasks.
fn last_induction<'a, J: Planned>(
    alloc: Global,
    tasks: &[Task<'a, J>],
    count: u32,
) -> Result<Task<'a, J>, NoMemory>
    requires { 1 ≤ count }
{
    match tasks.last() {
        Some(task) => induct_task(alloc, task, count),
        None => Err(AllocError),
    }
}

/// The task of `(EQUAL X Y)`, and eleven inductions, each of the task before it.
fn inductions<'a, J: Planned>(alloc: Global, plan: &'a Plan) -> Result<Seq<Task<'a, J>>, NoMemory>
    requires brand { plan.now ≡ J.plan }
    requires functions { HasFunctions (defs_of plan.now) }
    requires hints { KnownHints plan.now.world.entries plan.now.hints }
{
    let mut tasks = Seq::new(alloc);
    tasks.push(written_task(alloc, plan, "(EQUAL X Y)")?)?;
    for count in 1..12 {
        let next = last_induction(alloc, tasks.as_slice(), count)?;
        tasks.push(next)?;
    }
    Ok(tasks)
}

/// What a step stops with.
fn stop<J: Planned>(stepped: &Stepped<Task<'_, J>>) -> Option<Reason> {
    match &stepped.out {
        Out::Stop(reason) if !stepped.act.missed && !stepped.act.limited => Some(*reason),
        _ => None,
    }
}

/// What the step of a task stops with.
fn reason<J: Planned>(alloc: Global, task: &Task<'_, J>) -> Result<Option<Reason>, NoMemory> {
    let stepped = Acl2Step::new(task.plan, 1).step(alloc, task)?;
    Ok(stop(&stepped))
}

fn expect_reasons<J: Planned>(
    rt: &impl Abort,
    alloc: Global,
    tasks: &[Task<'_, J>],
) -> Result<(), NoMemory> {
    for (count, task) in tasks.iter().enumerate().skip(1) {
        let wanted = if count < 10 {
            Reason::NoScheme
        } else {
            Reason::InductionDepth
        };
        let found = reason(alloc, task)?;
        assert!(rt; found == Some(wanted), "{count}");
    }
    Ok(())
}

fn expect_inductions<J: Planned, R: Abort>(
    rt: &R,
    alloc: Global,
    plan: &Plan,
) -> Result<(), NoMemory>
    requires brand { plan.now ≡ J.plan }
    requires functions { HasFunctions (defs_of plan.now) }
    requires hints { KnownHints plan.now.world.entries plan.now.hints }
{
    let tasks: Seq<Task<'_, J>> = inductions(alloc, plan)?;
    assert!(rt; tasks.len() == 12);
    expect_reasons(rt, alloc, tasks.as_slice())
}

/// A conjecture that is proved by induction: appending is associative.
const ASSOCIATIVE: &str =
    "(EQUAL (BINARY-APPEND (BINARY-APPEND X Y) Z) (BINARY-APPEND X (BINARY-APPEND Y Z)))";

/// The names of tasks, with a comma between two.
fn task_names<J: Planned>(alloc: Global, tasks: &[Task<'_, J>]) -> Result<Bytes, NoMemory> {
    let mut text = Seq::new(alloc);
    for task in tasks {
        if !text.is_empty() {
            text.extend(b", ")?;
        }
        text.append(task.name.print(alloc)?)?;
    }
    Ok(text)
}

/// The names of the cases that a step made, where it is an induction's.
fn case_names<J: Planned>(
    alloc: Global,
    stepped: &Stepped<Task<'_, J>>,
) -> Result<Bytes, NoMemory> {
    match (stepped.act.process, &stepped.out) {
        (Process::Induct, Out::Split(cases)) => task_names(alloc, cases.as_slice()),
        _ => Ok(Bytes::new(alloc)),
    }
}

/// The names of the cases that the step of a task makes.
fn cases_of<J: Planned>(alloc: Global, task: &Task<'_, J>) -> Result<Bytes, NoMemory> {
    let stepped = Acl2Step::new(task.plan, 1).step(alloc, task)?;
    case_names(alloc, &stepped)
}

/// The same of the induction of a task.
fn induction_cases<J: Planned>(alloc: Global, task: &Task<'_, J>) -> Result<Bytes, NoMemory> {
    let induction = Boxed::new(alloc, induct_task(alloc, task, 1)?)?;
    cases_of(alloc, induction.get())
}

/// How many clauses a task's clause is reduced to, where its step splits it.
fn clauses_left<J: Planned>(alloc: Global, task: &Task<'_, J>) -> Result<Option<usize>, NoMemory> {
    match Acl2Step::new(task.plan, 1).reduce(alloc, task)? {
        Some(reduction) => Ok(Some(reduction.to().len())),
        None => Ok(None),
    }
}

/// The same of the induction of a task.
fn induction_clauses<J: Planned>(
    alloc: Global,
    task: &Task<'_, J>,
) -> Result<Option<usize>, NoMemory> {
    let induction = Boxed::new(alloc, induct_task(alloc, task, 1)?)?;
    clauses_left(alloc, induction.get())
}

fn expect_cases<J: Planned>(
    rt: &impl Abort,
    alloc: Global,
    task: &Task<'_, J>,
) -> Result<(), NoMemory> {
    let names = induction_cases(alloc, task)?;
    expect(
        rt,
        names.as_slice(),
        "Subgoal *1/2, Subgoal *1/1",
        "the cases",
    );
    assert!(rt; induction_clauses(alloc, task)? == Some(2), "their clauses");
    Ok(())
}

fn expect_split<J: Planned, R: Abort>(rt: &R, alloc: Global, plan: &Plan) -> Result<(), NoMemory>
    requires brand { plan.now ≡ J.plan }
    requires functions { HasFunctions (defs_of plan.now) }
    requires hints { KnownHints plan.now.world.entries plan.now.hints }
{
    let task: Boxed<Task<'_, J>> = Boxed::new(alloc, written_task(alloc, plan, ASSOCIATIVE)?)?;
    expect_cases(rt, alloc, task.get())
}

/// Whether a copy is the same task.
fn is_copied<J: Planned>(alloc: Global, task: &Task<'_, J>) -> Result<bool, NoMemory> {
    let step = Acl2Step::new(task.plan, 1);
    let copy = Boxed::new(alloc, step.copy_task(alloc, task)?)?;
    Ok(step.same_task(task, copy.get()))
}

/// Whether the induction of a task is another task.
fn is_other<J: Planned>(alloc: Global, task: &Task<'_, J>) -> Result<bool, NoMemory> {
    let induction = Boxed::new(alloc, induct_task(alloc, task, 1)?)?;
    Ok(!Acl2Step::new(task.plan, 1).same_task(task, induction.get()))
}

/// The name of a task, as the step gives it.
fn task_name<J: Planned>(alloc: Global, task: &Task<'_, J>) -> Result<Bytes, NoMemory> {
    let name = Acl2Step::new(task.plan, 1).name_of(alloc, task)?;
    name.print(alloc)
}

/// The name of the induction of a task.
fn induction_name<J: Planned>(alloc: Global, task: &Task<'_, J>) -> Result<Bytes, NoMemory> {
    let induction = Boxed::new(alloc, induct_task(alloc, task, 1)?)?;
    task_name(alloc, induction.get())
}

fn expect_tasks<J: Planned>(
    rt: &impl Abort,
    alloc: Global,
    task: &Task<'_, J>,
) -> Result<(), NoMemory> {
    assert!(rt; is_copied(alloc, task)?, "a copy");
    assert!(rt; is_other(alloc, task)?, "an induction");
    let name = induction_name(alloc, task)?;
    expect(rt, name.as_slice(), "*1", "its name");
    assert!(rt; clauses_left(alloc, task)? == None, "it is pushed");
    Ok(())
}

fn expect_copy<J: Planned, R: Abort>(rt: &R, alloc: Global, plan: &Plan) -> Result<(), NoMemory>
    requires brand { plan.now ≡ J.plan }
    requires functions { HasFunctions (defs_of plan.now) }
    requires hints { KnownHints plan.now.world.entries plan.now.hints }
{
    let task: Boxed<Task<'_, J>> = Boxed::new(
        alloc,
        written_task(alloc, plan, "(EQUAL X (CONS Y '1))")?,
    )?;
    expect_tasks(rt, alloc, task.get())
}

fn expect_all<J: Planned, R: Abort>(rt: &R, alloc: Global, plan: &Plan) -> Result<(), NoMemory>
    requires brand { plan.now ≡ J.plan }
    requires functions { HasFunctions (defs_of plan.now) }
    requires hints { KnownHints plan.now.world.entries plan.now.hints }
{
    expect_inductions::<J, R>(rt, alloc, plan)?;
    expect_split::<J, R>(rt, alloc, plan)?;
    expect_copy::<J, R>(rt, alloc, plan)
}

#[test]
fn inductions_stop_or_split_and_are_other_tasks(rt: HostRuntime) -> Result<(), NoMemory> {
    let plan = first_plan(rt.alloc(), 9)?;
    expect_all::<Brand, _>(&rt, rt.alloc(), &plan)
}
