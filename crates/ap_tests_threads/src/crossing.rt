//! A world that another thread reads and drops, and a task of the waterfall that another thread walks.
ghost use Rattle.std.specs.Prelude.{◌≡◌, IfOk};
ghost use denote.Param.Send.{IsSend, IsSync};
ghost use Rattle.ap_term.specs.contracts.tree.Term as terms;
ghost use Rattle.ap_value.specs.contracts.value.Value as values;
ghost use Rattle.ap_world.specs.Sound.{HasFunctions};
ghost use Rattle.ap_hints.specs.Known.{KnownHints};
ghost use Rattle.ap_strategy.specs.Goals.{defs_of};

use ap_eval::is_known;
use ap_ground::ground_world;
use ap_ground::laws::ground_has_its_functions;
use ap_hints::no_hints;
use ap_list::{NoMemory, Seq};
use ap_rules::Ruled;
use ap_speculate::speculate;
use ap_strategy::{Acl2Step, Plan, Planned, Task};
use ap_term::Term;
use ap_tests_workers::Holding;
use ap_value::{Value, acl2};
use ap_walk::{Rule, Step, serial};
use ap_world::World;
use std::alloc::{AllocError, Global};
use std::marker::Brand;
use std::sync::Wait;
use std::test::Fail;
use std::thread;
use std::thread::Threads;

/// That a type may cross, as a fact of the caller's proof. Costs nothing.
fn shown<T: Send + Sync>()
    ensures send { IsSend T.row }
    ensures sync { IsSync T.row }
{}

/// That terms and values may cross. Costs nothing.
fn terms_shown()
    ensures term_send { IsSend terms.the_row }
    ensures term_sync { IsSync terms.the_row }
    ensures value_send { IsSend values.the_row }
    ensures value_sync { IsSync values.the_row }
{
    shown::<Term>();
    shown::<Value>();
}

/// The number of a world's entries, which another thread counts, and which drops the world.
fn counted_elsewhere(rt: &impl Threads, w: World) -> Result<usize, NoMemory> {
    terms_shown();
    let child = thread::spawn(rt, move || w.count())?;
    Ok(child.join(rt))
}

#[test]
fn a_world_is_read_and_dropped_elsewhere(rt: HostRuntime) -> Result<(), Fail> {
    let here = ground_world(rt.alloc())?;
    let there = ground_world(rt.alloc())?;
    assert!(rt; counted_elsewhere(&rt, there)? == here.count());
    Ok(())
}

/// The rule of the walks.
const RULE: Rule = Rule {
    initial: true,
    otf: true,
    revert: 2,
    goal_limit: 100,
};

/// How many tasks the walk of a task visits. Task and walk are dropped.
fn visits<S: Step>(alloc: Global, step: &S, task: S::Task) -> Result<usize, NoMemory> {
    let walked = serial(alloc, step, &task, RULE)?;
    Ok(walked.marks.len())
}

/// The same by another thread, for any step whose tasks may cross.
fn visits_elsewhere<S: Step + Sync, R: Threads + Wait + Sync>(
    rt: &R,
    alloc: Global,
    step: &S,
    task: S::Task,
) -> Result<usize, NoMemory>
where
    S::Task: Send,
{
    thread::scope(
        thread::scope_env(),
        rt,
        |scope| -> Result<usize, NoMemory> {
            let child = scope.spawn(move || visits(alloc, step, task))?;
            child.join(rt)
        },
    )
}

/// `(IF X (IF Y Z W) V)`, a conjecture that splits into three goals, of which two have hypotheses that are
/// irrelevant.
fn conjecture(alloc: Global) -> Result<Term, NoMemory> {
    let inner = choice(
        alloc,
        variable(alloc, b"Y")?,
        variable(alloc, b"Z")?,
        variable(alloc, b"W")?,
    )?;
    choice(alloc, variable(alloc, b"X")?, inner, variable(alloc, b"V")?)
}

fn variable(alloc: Global, name: &[u8]) -> Result<Term, NoMemory> {
    Ok(Term::var(acl2(alloc, name)?))
}

fn choice(alloc: Global, test: Term, yes: Term, no: Term) -> Result<Term, NoMemory> {
    let mut parts = Seq::new(alloc);
    parts.push(test)?;
    parts.push(yes)?;
    parts.push(no)?;
    Term::call(alloc, acl2(alloc, b"IF")?, parts)
}

/// A plan of the ground world.
fn first_plan(alloc: Global) -> Result<Plan, NoMemory>
    ensures functions { IfOk result (λ p. HasFunctions (defs_of p)) }
    ensures hints { IfOk result (λ p. KnownHints p.world.entries p.hints) }
{
    ground_has_its_functions();
    let world = Ruled::of(alloc, ground_world(alloc)?)?;
    Ok(Plan {
        world,
        hints: no_hints(alloc),
        step_limit: 100,
    })
}

/// The task of a term, which is one of the plan's world.
fn root<'a, J: Planned>(alloc: Global, plan: &'a Plan, t: &Term) -> Result<Task<'a, J>, NoMemory>
    requires brand { plan.now ≡ J.plan }
    requires functions { HasFunctions (defs_of plan.now) }
    requires hints { KnownHints plan.now.world.entries plan.now.hints }
{
    if is_known(plan.world.world(), t) {
        Acl2Step::new(plan, 2).root(alloc, t)
    } else {
        Err(AllocError)
    }
}

/// How many goals the waterfall visits in the walk of the conjecture, by another thread. Where the brand may cross, a
/// task of its plan may.
fn waterfall_elsewhere<J: Planned + Send + Sync, R: Threads + Wait + Sync>(
    rt: &R,
    alloc: Global,
    plan: &Plan,
) -> Result<usize, NoMemory>
    requires brand { plan.now ≡ J.plan }
    requires functions { HasFunctions (defs_of plan.now) }
    requires hints { KnownHints plan.now.world.entries plan.now.hints }
{
    terms_shown();
    let task: Task<'_, J> = root(alloc, plan, &conjecture(alloc)?)?;
    visits_elsewhere(rt, alloc, &Acl2Step::new(plan, 2), task)
}

#[test]
fn a_goal_is_walked_and_dropped_elsewhere(rt: HostRuntime) -> Result<(), Fail> {
    let plan = first_plan(rt.alloc())?;
    assert!(rt; waterfall_elsewhere::<Brand, _>(&rt, rt.alloc(), &plan)? == 6);
    Ok(())
}

/// How many goals the waterfall visits in the walk of the conjecture, worked by two workers that pass a gate.
fn waterfall_by_two<J: Planned + Send + Sync, R: Threads + Wait + Sync>(
    rt: &R,
    alloc: Global,
    plan: &Plan,
    gate: &Holding,
) -> Result<usize, NoMemory>
    requires brand { plan.now ≡ J.plan }
    requires functions { HasFunctions (defs_of plan.now) }
    requires hints { KnownHints plan.now.world.entries plan.now.hints }
{
    terms_shown();
    let step: Acl2Step<'_, J> = Acl2Step::new(plan, 2);
    let task: Task<'_, J> = root(alloc, plan, &conjecture(alloc)?)?;
    let state = speculate(rt, alloc, &step, &task, RULE, 2, gate)?;
    let (walked, _) = state.finish(alloc, &step)?;
    Ok(walked.marks.len())
}

/// Two goals of a real attempt are worked at a time: `Subgoal 3` waits at the gate until `Subgoal 2` is done.
#[test]
fn two_goals_are_worked_at_a_time(rt: HostRuntime) -> Result<(), Fail> {
    let plan = first_plan(rt.alloc())?;
    for _ in 0..20 {
        let gate = Holding::new();
        assert!(rt; waterfall_by_two::<Brand, _>(&rt, rt.alloc(), &plan, &gate)? == 6);
        assert!(rt; gate.has_held());
        assert!(rt; !gate.is_used_up());
    }
    Ok(())
}
