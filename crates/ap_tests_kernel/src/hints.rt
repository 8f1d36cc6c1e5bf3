//! The waterfall's step on a goal that has a hint.
ghost use Rattle.std.specs.Prelude.{◌≡◌, IsTrue, IfOk, IfSome};
ghost use Rattle.ap_list.specs.Lists.{Each};
ghost use Rattle.ap_world.specs.Holding.{KnownPairs};
ghost use Rattle.ap_world.specs.Sound.{HasFunctions};
ghost use Rattle.ap_world.specs.World.{function_of};
ghost use Rattle.ap_hints.specs.Known.{KnownTerm, KnownUse, KnownHint, KnownHints};
ghost use Rattle.ap_strategy.specs.Goals.{defs_of};

use crate::expect::expect;
use crate::waterfall::{root, written_task};
use ap_eval::is_known;
use ap_ground::ground_world;
use ap_ground::laws::ground_has_its_functions;
use ap_hints::{Hint, Hints};
use ap_list::{Boxed, Bytes, NoMemory, Seq};
use ap_names::GoalName;
use ap_print::print_clause;
use ap_rules::Ruled;
use ap_strategy::{Acl2Step, Plan, Planned, Task, induct_task};
use ap_term::{Subst, Term};
use ap_tests_terms::term;
use ap_value::{Symbol, acl2};
use ap_walk::{Act, Out, Process, Step, Stepped};
use ap_world::{Rune, RuneKind, Theory, World};
use std::alloc::{AllocError, Global};
use std::marker::Brand;
use std::process::Abort;

/// A hint that says nothing, for `Goal` with so many primes.
fn blank(alloc: Global, primes: u32) -> Hint {
    let goal = GoalName {
        induction: Seq::new(alloc),
        case: None,
        path: Seq::new(alloc),
        primes,
    };
    Hint {
        goal,
        theory: None,
        expand: Seq::new(alloc),
        skip: Seq::new(alloc),
        uses: Seq::new(alloc),
        cases: Seq::new(alloc),
        scheme: None,
    }
}

/// Whether the terms that stand for variables are terms of the world.
fn are_pairs(w: &World, pairs: &[(Symbol, Term)]) -> bool
    ensures { IsTrue result → KnownPairs (function_of w.now.entries) pairs.now }
{
    for (_, t) in pairs {
        if !is_known(w, t) {
            return false;
        }
    }
    true
}

/// Whether a theorem that is used is the world's, and what replaces its variables is too.
fn is_use(w: &World, name: &Symbol, s: &Subst) -> bool
    ensures { IsTrue result → KnownUse w.now.entries (name.now, s.now) }
{
    match w.lookup_thm(name) {
        Some(_) => are_pairs(w, s.0.as_slice()),
        None => false,
    }
}

/// Whether theorems that are used are the world's, and what replaces their variables is too.
fn are_uses(w: &World, uses: &[(Symbol, Subst)]) -> bool
    ensures { IsTrue result → Each (KnownUse w.now.entries) uses.now }
{
    for (name, s) in uses {
        if !is_use(w, name, s) {
            return false;
        }
    }
    true
}

/// Whether a term is one of the world, where there is one.
fn is_scheme(w: &World, scheme: &Option<Term>) -> bool
    ensures { IsTrue result → IfSome scheme.now (KnownTerm w.now.entries) }
{
    match scheme {
        Some(t) => is_known(w, t),
        None => true,
    }
}

/// Whether terms are terms of the world.
fn are_terms(w: &World, ts: &[Term]) -> bool
    ensures { IsTrue result → Each (KnownTerm w.now.entries) ts.now }
{
    for t in ts {
        if !is_known(w, t) {
            return false;
        }
    }
    true
}

/// Whether a hint speaks of the world, with few cases.
fn is_hint(w: &World, hint: &Hint) -> bool
    ensures { IsTrue result → KnownHint w.now.entries hint.now }
{
    are_terms(w, hint.expand.as_slice())
        && are_uses(w, hint.uses.as_slice())
        && are_terms(w, hint.cases.as_slice())
        && hint.cases.len() < 100
        && is_scheme(w, &hint.scheme)
}

/// The ground world, and the index of its rules.
fn first_ruled(alloc: Global) -> Result<Ruled, NoMemory>
    ensures { IfOk result (λ w. HasFunctions (function_of w.entries)) }
{
    ground_has_its_functions();
    let world = ground_world(alloc)?;
    Ruled::of(alloc, world)
}

/// A plan of the ground world with one hint.
fn plan(alloc: Global, hint: Hint) -> Result<Plan, NoMemory>
    ensures functions { IfOk result (λ p. HasFunctions (defs_of p)) }
    ensures hints { IfOk result (λ p. KnownHints p.world.entries p.hints) }
{
    let world = first_ruled(alloc)?;
    with_hint(alloc, world, hint)
}

/// The plan of a world with one hint.
fn with_hint(alloc: Global, world: Ruled, hint: Hint) -> Result<Plan, NoMemory>
    requires { HasFunctions (function_of world.entries) }
    ensures functions { IfOk result (λ p. HasFunctions (defs_of p)) }
    ensures hints { IfOk result (λ p. KnownHints p.world.entries p.hints) }
{
    if !is_hint(world.world(), &hint) {
        return Err(AllocError);
    }
    let mut list = Seq::new(alloc);
    list.push(hint)?;
    let hints = Hints {
        list,
        do_not_induct: false,
    };
    Ok(Plan {
        world,
        hints,
        step_limit: 100,
    })
}

/// The word for what a step did.
fn kind(act: Act) -> &'static [u8] {
    match (act.process, act.missed, act.limited) {
        (Process::Hint, false, false) => b"hint",
        (Process::Push, false, false) => b"pushed",
        (Process::Push, true, false) => b"missed",
        (Process::Induct, false, false) => b"inducted",
        _ => b"other",
    }
}

/// What a step did, and the names and the clauses of the goals that it made.
fn told<J: Planned>(alloc: Global, stepped: &Stepped<Task<'_, J>>) -> Result<Bytes, NoMemory> {
    let mut text = Seq::new(alloc);
    text.extend(kind(stepped.act))?;
    if let Out::Split(tasks) = &stepped.out {
        for task in tasks.as_slice() {
            text.extend(b"; ")?;
            text.append(task.name.print(alloc)?)?;
            text.push(b' ')?;
            text.append(print_clause(alloc, &task.clause)?)?;
        }
    }
    Ok(text)
}

/// The same of a task's step.
fn task_told<J: Planned>(alloc: Global, task: &Task<'_, J>) -> Result<Bytes, NoMemory> {
    let stepped = Acl2Step::new(task.plan, 1).step(alloc, task)?;
    told(alloc, &stepped)
}

/// The same of the induction of a task.
fn inducted_told<J: Planned>(alloc: Global, task: &Task<'_, J>) -> Result<Bytes, NoMemory> {
    let induction = Boxed::new(alloc, induct_task(alloc, task, 1)?)?;
    task_told(alloc, induction.get())
}

/// What the step of `Goal`, or of its induction, does under a plan, with the names and the clauses of the goals that it makes.
fn step_told<J: Planned>(
    alloc: Global,
    plan: &Plan,
    conjecture: &Term,
    is_induction: bool,
) -> Result<Bytes, NoMemory>
    requires brand { plan.now ≡ J.plan }
    requires functions { HasFunctions (defs_of plan.now) }
    requires hints { KnownHints plan.now.world.entries plan.now.hints }
{
    let task: Boxed<Task<'_, J>> = Boxed::new(alloc, root(alloc, plan, conjecture)?)?;
    if is_induction {
        inducted_told(alloc, task.get())
    } else {
        task_told(alloc, task.get())
    }
}

/// A theorem of the ground world whose variable X is replaced.
fn instance(alloc: Global, name: &[u8], text: &str) -> Result<(Symbol, Subst), NoMemory> {
    let mut pairs = Seq::new(alloc);
    pairs.push((acl2(alloc, b"X")?, term(alloc, text)?))?;
    Ok((acl2(alloc, name)?, Subst(pairs)))
}

/// Two theorems of the ground world, an instance of each.
fn instances(alloc: Global) -> Result<Seq<(Symbol, Subst)>, NoMemory> {
    let mut uses = Seq::new(alloc);
    uses.push(instance(alloc, b"CAR-CDR-ELIM", "Y")?)?;
    uses.push(instance(alloc, b"UNICITY-OF-0", "(CAR Y)")?)?;
    Ok(uses)
}

/// A hint for `Goal` by these.
fn by_instances(alloc: Global) -> Result<Hint, NoMemory> {
    let uses = instances(alloc)?;
    let mut hint = blank(alloc, 0);
    hint.uses = uses;
    Ok(hint)
}

/// A hint for a goal with so many primes, by whether X is a cons.
fn by_cases(alloc: Global, primes: u32) -> Result<Hint, NoMemory> {
    let mut cases = Seq::new(alloc);
    cases.push(term(alloc, "(CONSP X)")?)?;
    let mut hint = blank(alloc, primes);
    hint.cases = cases;
    Ok(hint)
}

/// A hint for `Goal` to induct by a call.
fn by_call(alloc: Global) -> Result<Hint, NoMemory> {
    let call = term(alloc, "(LEN X)")?;
    let mut hint = blank(alloc, 0);
    hint.scheme = Some(call);
    Ok(hint)
}

/// What a hint says.
#[derive(Clone, Copy)]
enum Says {
    /// Instances of two theorems.
    Uses,
    /// Cases, for a goal with so many primes.
    Cases(u32),
    /// A call to induct by.
    Call,
}

/// The hint that says so.
fn hint_of(alloc: Global, says: Says) -> Result<Hint, NoMemory> {
    match says {
        Says::Uses => by_instances(alloc),
        Says::Cases(primes) => by_cases(alloc, primes),
        Says::Call => by_call(alloc),
    }
}

/// Each row: what a hint says, whether the step is of `Goal` or of its induction, the conjecture, and what the step does.
const ROWS: &[(Says, bool, &str, &str)] = &[
    // Instances stand first in an only child.
    (
        Says::Uses,
        false,
        "(consp y)",
        "hint; Goal' (OR (NOT (IMPLIES (CONSP Y) (EQUAL (CONS (CAR Y) (CDR Y)) Y))) (NOT (EQUAL (BINARY-+ '0 (CAR Y)) (FIX (CAR Y)))) (CONSP Y))",
    ),
    // Cases are numbered down.
    (
        Says::Cases(0),
        false,
        "(equal x y)",
        "hint; Subgoal 2 (OR (NOT (CONSP X)) (EQUAL X Y)); Subgoal 1 (OR (CONSP X) (EQUAL X Y))",
    ),
    // A hint for another goal says nothing.
    (Says::Cases(1), false, "(equal x y)", "missed"),
    // A call pushes at once, and is inducted by.
    (Says::Call, false, "(equal x x)", "pushed"),
    (
        Says::Call,
        true,
        "(equal x x)",
        "inducted; Subgoal *1/2 (OR (NOT (CONSP X)) (NOT (EQUAL (CDR X) (CDR X))) (EQUAL X X)); Subgoal *1/1 (OR (CONSP X) (EQUAL X X))",
    ),
];

/// What a row's step does.
fn row_told(
    alloc: Global,
    says: Says,
    is_induction: bool,
    conjecture: &str,
) -> Result<Bytes, NoMemory> {
    let plan = plan(alloc, hint_of(alloc, says)?)?;
    written_told(alloc, &plan, is_induction, conjecture)
}

/// The same under a plan.
fn written_told(
    alloc: Global,
    plan: &Plan,
    is_induction: bool,
    conjecture: &str,
) -> Result<Bytes, NoMemory>
    requires functions { HasFunctions (defs_of plan.now) }
    requires hints { KnownHints plan.now.world.entries plan.now.hints }
{
    let goal = term(alloc, conjecture)?;
    step_told::<Brand>(alloc, plan, &goal, is_induction)
}

#[test]
fn steps_follow_their_hints_as_the_rows_say(rt: HostRuntime) -> Result<(), NoMemory> {
    for (says, is_induction, conjecture, wanted) in ROWS {
        let found = row_told(rt.alloc(), *says, *is_induction, *conjecture)?;
        expect(&rt, found.as_slice(), *wanted, *conjecture);
    }
    Ok(())
}

/// A theory without a rune.
fn without_len(alloc: Global) -> Result<Theory, NoMemory> {
    let mut runes = Seq::new(alloc);
    runes.push(Rune::Definition(acl2(alloc, b"LEN")?))?;
    Theory::disabling(alloc, runes)
}

/// A hint for `Goal` by whether X is a cons, in that theory.
fn by_cases_without(alloc: Global) -> Result<Hint, NoMemory> {
    let theory = without_len(alloc)?;
    let mut hint = by_cases(alloc, 0)?;
    hint.theory = Some(theory);
    Ok(hint)
}

/// Whether a task is in the theory of that hint.
fn is_without<J: Planned>(alloc: Global, task: &Task<'_, J>) -> Result<bool, NoMemory> {
    let name = acl2(alloc, b"LEN")?;
    Ok(!task.settings.theory.is_enabled(RuneKind::Definition, &name))
}

/// Whether all the goals that a step made are.
fn are_without<J: Planned>(
    alloc: Global,
    stepped: &Stepped<Task<'_, J>>,
) -> Result<bool, NoMemory> {
    let Out::Split(tasks) = &stepped.out else {
        return Ok(false);
    };
    for task in tasks.as_slice() {
        if !is_without(alloc, task)? {
            return Ok(false);
        }
    }
    Ok(true)
}

/// Whether the goals that the step of a task makes are in that theory.
fn are_below_without<J: Planned>(alloc: Global, task: &Task<'_, J>) -> Result<bool, NoMemory> {
    let stepped = Acl2Step::new(task.plan, 1).step(alloc, task)?;
    are_without(alloc, &stepped)
}

/// Whether the induction of a task is.
fn is_inducted_without<J: Planned>(alloc: Global, task: &Task<'_, J>) -> Result<bool, NoMemory> {
    let induction = Boxed::new(alloc, induct_task(alloc, task, 1)?)?;
    is_without(alloc, induction.get())
}

fn expect_without<J: Planned>(
    rt: &impl Abort,
    alloc: Global,
    task: &Task<'_, J>,
) -> Result<(), NoMemory> {
    assert!(rt; !is_without(alloc, task)?, "above");
    assert!(rt; are_below_without(alloc, task)?, "below");
    assert!(rt; is_inducted_without(alloc, task)?, "in the induction");
    Ok(())
}

fn expect_theory<J: Planned, R: Abort>(rt: &R, alloc: Global, plan: &Plan) -> Result<(), NoMemory>
    requires brand { plan.now ≡ J.plan }
    requires functions { HasFunctions (defs_of plan.now) }
    requires hints { KnownHints plan.now.world.entries plan.now.hints }
{
    let task: Boxed<Task<'_, J>> = Boxed::new(alloc, written_task(alloc, plan, "(EQUAL X Y)")?)?;
    expect_without(rt, alloc, task.get())
}

#[test]
fn a_theory_holds_below_and_in_the_induction(rt: HostRuntime) -> Result<(), NoMemory> {
    let plan = plan(rt.alloc(), by_cases_without(rt.alloc())?)?;
    expect_theory::<Brand, _>(&rt, rt.alloc(), &plan)
}
