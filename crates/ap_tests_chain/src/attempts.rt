//! Reductions of attempts, by a table.
ghost use Rattle.std.specs.Prelude.{◌≡◌, IfOk};
ghost use Rattle.ap_world.specs.Sound.{HasFunctions};
ghost use Rattle.ap_hints.specs.Known.{KnownHints};
ghost use Rattle.ap_strategy.specs.Goals.{defs_of};

use ap_chain::whole_reduction;
use ap_eval::is_known;
use ap_ground::ground_world;
use ap_ground::laws::ground_has_its_functions;
use ap_hints::no_hints;
use ap_list::{Boxed, NoMemory, Seq};
use ap_rules::Ruled;
use ap_strategy::{Acl2Step, Plan, Planned, Task, copy_task, induct_task};
use ap_term::Term;
use ap_tests_terms::{sides, term};
use ap_walk::{End, Mark, Process, Rule, Walked, serial};
use std::alloc::{AllocError, Global};
use std::marker::Brand;

/// Each row: a conjecture; and how its attempt goes: how many walks it makes, and whether there is a reduction of its
/// clause to none.
const ROWS: &str =
    r#"(implies (not (not (equal x (cons y z)))) (implies (equal w x) (consp w))) => 1, closed
(if x (equal y y) (if x z (equal x x))) => 1, closed
(equal (binary-append (binary-append x y) z) (binary-append x (binary-append y z))) => 2, closed
(if (equal (binary-append (binary-append x y) z) (binary-append x (binary-append y z))) (equal (binary-append (binary-append x y) y) (binary-append x (binary-append y y))) 'nil) => 2, closed
(if (equal (binary-append (binary-append x y) z) (binary-append x (binary-append y z))) (equal (binary-append (binary-append u y) z) (binary-append u (binary-append y z))) 'nil) => 3, closed
(equal x y) => 2, open
"#;

/// A plan of the ground world.
fn first_plan(alloc: Global) -> Result<Plan, NoMemory>
    ensures functions { IfOk result (λ p. HasFunctions (defs_of p)) }
    ensures hints { IfOk result (λ p. KnownHints p.world.entries p.hints) }
{
    ground_has_its_functions();
    let world = Ruled::of(alloc, ground_world(alloc)?)?;
    Ok(Plan {
        world,
        hints: no_hints(alloc),
        step_limit: 20_000,
    })
}

/// The task of a term, which is one of the plan's world.
fn root<'a, J: Planned>(alloc: Global, plan: &'a Plan, t: &Term) -> Result<Task<'a, J>, NoMemory>
    requires brand { plan.now ≡ J.plan }
    requires functions { HasFunctions (defs_of plan.now) }
    requires hints { KnownHints plan.now.world.entries plan.now.hints }
{
    if is_known(plan.world.world(), t) {
        Acl2Step::new(plan, 1).root(alloc, t)
    } else {
        Err(AllocError)
    }
}

/// The walk of a task; the first one of an attempt reverts at two pushes.
fn walk<'a, J: Planned>(
    alloc: Global,
    task: &Task<'a, J>,
    initial: bool,
) -> Result<Walked<Task<'a, J>>, NoMemory> {
    let rule = Rule {
        initial,
        otf: false,
        revert: 2,
        goal_limit: 100,
    };
    serial(alloc, &Acl2Step::new(task.plan, 1), task, rule)
}

/// The inductions of the goals that were pushed, the last one first.
fn inductions<'a, J: Planned>(
    alloc: Global,
    marks: &[Mark<Task<'a, J>>],
) -> Result<Seq<Task<'a, J>>, NoMemory> {
    let mut out = Seq::new(alloc);
    for mark in marks.iter().rev() {
        if let Process::Push = mark.act.process {
            out.push(induct_task(alloc, &mark.task, 1)?)?;
        }
    }
    Ok(out)
}

/// What is to be walked after a walk of a root's attempt: where it reverts, the induction of the root.
fn next_tasks<'a, J: Planned>(
    alloc: Global,
    root: &Task<'a, J>,
    walked: &Walked<Task<'a, J>>,
) -> Result<Seq<Task<'a, J>>, NoMemory> {
    match walked.end {
        End::Through => inductions(alloc, walked.marks.as_slice()),
        End::Revert => {
            let mut out = Seq::new(alloc);
            out.push(induct_task(alloc, root, 1)?)?;
            Ok(out)
        }
        _ => Ok(Seq::new(alloc)),
    }
}

/// The walks of an attempt on a root, ten at most.
fn walks_of<'a, J: Planned>(
    alloc: Global,
    root: &Task<'a, J>,
) -> Result<Seq<Walked<Task<'a, J>>>, NoMemory> {
    let mut pool = Seq::new(alloc);
    pool.push(copy_task(alloc, root)?)?;
    let mut walks = Seq::new(alloc);
    for count in 0..10 {
        let Some(task) = pool.pop() else {
            return Ok(walks);
        };
        let task = Boxed::new(alloc, task)?;
        let walked = walk(alloc, task.get(), count == 0)?;
        pool.append(next_tasks(alloc, root, &walked)?)?;
        walks.push(walked)?;
    }
    Ok(walks)
}

/// Whether walks have a reduction of a root's clause to none.
fn ending<'a, J: Planned>(
    alloc: Global,
    root: &Task<'a, J>,
    walks: Seq<Walked<Task<'a, J>>>,
) -> Result<&'static str, NoMemory> {
    let step = Acl2Step::new(root.plan, 1);
    let found = whole_reduction(alloc, &step, &root.clause, walks)?;
    match &found {
        Some(reduction) if reduction.to().is_empty() => Ok("closed"),
        Some(_) => Ok("left"),
        None => Ok("open"),
    }
}

/// How the attempt on a root goes.
fn root_told<J: Planned>(alloc: Global, root: &Task<'_, J>) -> Result<String, NoMemory> {
    let walks = walks_of(alloc, root)?;
    let count = walks.len();
    let ending = ending(alloc, root, walks)?;
    format!(in alloc; "{count}, {ending}")
}

/// How the attempt on a conjecture goes.
fn told<J: Planned>(alloc: Global, plan: &Plan, text: &str) -> Result<String, NoMemory>
    requires brand { plan.now ≡ J.plan }
    requires functions { HasFunctions (defs_of plan.now) }
    requires hints { KnownHints plan.now.world.entries plan.now.hints }
{
    let conjecture = term(alloc, text)?;
    let task: Boxed<Task<'_, J>> = Boxed::new(alloc, root(alloc, plan, &conjecture)?)?;
    root_told(alloc, task.get())
}

/// The rows, as attempts go.
fn rows_told<J: Planned>(alloc: Global, plan: &Plan) -> Result<String, NoMemory>
    requires brand { plan.now ≡ J.plan }
    requires functions { HasFunctions (defs_of plan.now) }
    requires hints { KnownHints plan.now.world.entries plan.now.hints }
{
    let mut out = String::new(alloc);
    for row in ROWS.lines() {
        let text = sides(row).0;
        let found = told::<J>(alloc, plan, text)?;
        out.push_str(text)?;
        out.push_str(" => ")?;
        out.push_str(found.as_str())?;
        out.push_str("\n")?;
    }
    Ok(out)
}

#[test]
fn attempts_are_reduced_as_the_rows_say(rt: HostRuntime) -> Result<(), NoMemory> {
    let plan = first_plan(rt.alloc())?;
    let found = rows_told::<Brand>(rt.alloc(), &plan)?;
    assert_eq!(rt; found.as_str(), ROWS);
    Ok(())
}
