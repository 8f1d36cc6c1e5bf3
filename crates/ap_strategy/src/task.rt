ghost use Rattle.std.specs.Prelude.{◌≡◌, ◌≤◌, ◌↔◌, IfOk, IsTrue};
ghost use Rattle.ap_world.specs.Sound.{known, HasFunctions};
ghost use Rattle.ap_names.specs.Names.{root};
ghost use Rattle.ap_hints.specs.Known.{KnownHints};
ghost use Rattle.ap_kernel.specs.Reductions.{KnownClause};
ghost use Rattle.ap_strategy.specs.Goals.{IsGoal, defs_of, clause_goal, root_goal, hinted, inducted};

use crate::clauses::{copy_scheme, same_terms};
use crate::hinting::{scheme_of_hint, settings_with_hint};
use crate::plan::{Plan, Planned, Settings, copy_settings, first_settings};
use crate::same::same_settings;
use ap_clausify::flat;
use ap_list::{NoMemory, Seq};
use ap_names::{GoalName, same_name};
use ap_term::{Clause, Term, copy_terms, same_term};
use std::alloc::Global;
use std::marker::{Model, PhantomData};

/// A goal of the waterfall, with all that its step depends on: the plan that it is worked by; its name and
/// its clause; how many clauses stand above it; whether a checkpoint does; what holds for it and all below;
/// whether it is the induction of a pushed goal; and the call that it is by, where one is given.
///
/// Its type keeps what its step needs. The plan's world has the functions of the ground world, and each call
/// in the task's terms and in the plan's hints is of a primitive or of a function of that world, with its number of
/// arguments. Each theorem that the hints use is one of that world.
/// `depth` is at most 250, and the name has no more primes than that. Where `induct` is true the name is a
/// pushed goal's, and `depth` is 0; where it is false the name is none.
///
/// `J` is a brand, which says which plan it is: all tasks of one type are worked by the one plan `J.plan`. So two of
/// them are told apart by their goals alone, and no test compares worlds or hints.
#[derive(Drop)]
pub struct Task<'a, J: Planned> {
    pub plan: &'a Plan,
    pub name: GoalName,
    pub clause: Clause,
    pub depth: u32,
    pub under: bool,
    pub settings: Settings,
    pub induct: bool,
    pub scheme: Option<Term>,
    pub of: PhantomData<J>,
}

impl<'a, J: Planned> Model for Task<'a, J> {
    ghost use Rattle.std.specs.Prelude.{◌≡◌};
    ghost use Rattle.std.specs.Coded.{codes};
    ghost use Rattle.ap_term.specs.contracts.term.Term as term;
    ghost use Rattle.ap_value.specs.contracts.value.Value as value;
    ghost use Rattle.ap_strategy.specs.Goals.{Goal, IsGoal};

    ghost Value = { Goal };

    ghost coded = { Prim.hlevel (codes, term.the_row.coded, value.the_row.coded) };

    ghost view = { λ t. record { plan = t.plan.now; name = t.name; clause = t.clause; depth = t.depth; under = t.under; settings = t.settings; induct = t.induct; scheme = t.scheme } };

    ghost invariant = { λ t. IsGoal (record { plan = t.plan.now; name = t.name; clause = t.clause; depth = t.depth; under = t.under; settings = t.settings; induct = t.induct; scheme = t.scheme }) × (t.plan.now ≡ J.plan) };
}

impl<'a, J: Planned> Task<'a, J> {
    /// What every task keeps, for a proof that sees a task as a whole. Costs nothing.
    pub fn recall_goal(&self)
        ensures { IsGoal self.now }
    {
        let _ = &self.depth;
    }
}

/// The name `Goal`.
fn root_name(alloc: Global) -> GoalName
    ensures { result ≡ root }
{
    GoalName {
        induction: Seq::new(alloc),
        case: None,
        path: Seq::new(alloc),
        primes: 0,
    }
}

/// The task that the attempt on a clause, which is moved, starts from: its name is `Goal`. The plan is the brand's. The only
/// error is want of memory.
pub fn clause_task<'a, J: Planned>(
    alloc: Global,
    plan: &'a Plan,
    clause: Clause,
) -> Result<Task<'a, J>, NoMemory>
    requires brand { plan.now ≡ J.plan }
    requires functions { HasFunctions (defs_of plan.now) }
    requires known { KnownClause (defs_of plan.now) clause }
    requires hints { KnownHints plan.now.world.entries plan.now.hints }
    ensures { IfOk result (λ t. t ≡ clause_goal plan.now clause) }
{
    let settings = first_settings(alloc, plan)?;
    Ok(Task {
        plan,
        name: root_name(alloc),
        clause,
        depth: 0,
        under: false,
        settings,
        induct: false,
        scheme: None,
        of: PhantomData,
    })
}

/// The task that the attempt on a term starts from: that of the term's clause.
pub fn root_task<'a, J: Planned>(
    alloc: Global,
    plan: &'a Plan,
    term: &Term,
) -> Result<Task<'a, J>, NoMemory>
    requires brand { plan.now ≡ J.plan }
    requires functions { HasFunctions (defs_of plan.now) }
    requires term { IsTrue (known (defs_of plan.now) term.now) }
    requires hints { KnownHints plan.now.world.entries plan.now.hints }
    ensures { IfOk result (λ t. t ≡ root_goal plan.now term.now) }
{
    plan.world.world().recall_sound();
    let clause = flat(alloc, term)?;
    clause_task(alloc, plan, clause)
}

/// A copy of a task. The plan isn't copied. The only error is want of memory.
pub fn copy_task<'a, J: Planned>(alloc: Global, task: &Task<'a, J>) -> Result<Task<'a, J>, NoMemory>
    ensures { IfOk result (λ t. t ≡ task.now) }
{
    let name = task.name.copy(alloc)?;
    let clause = Clause(copy_terms(alloc, task.clause.0.as_slice())?);
    let settings = copy_settings(alloc, &task.settings)?;
    let scheme = copy_scheme(alloc, &task.scheme)?;
    Ok(Task {
        plan: task.plan,
        name,
        clause,
        depth: task.depth,
        under: task.under,
        settings,
        induct: task.induct,
        scheme,
        of: PhantomData,
    })
}

/// A copy of a task's name and clause.
fn labelled<J: Planned>(alloc: Global, task: &Task<'_, J>) -> Result<(GoalName, Clause), NoMemory>
    ensures { IfOk result (λ p. (p.0 ≡ task.now.name) × (p.1 ≡ task.now.clause)) }
{
    let name = task.name.copy(alloc)?;
    let clause = Clause(copy_terms(alloc, task.clause.0.as_slice())?);
    Ok((name, clause))
}

/// The settings of a task with what its own name's hint says, and its scheme.
fn hinted_settings<J: Planned>(
    alloc: Global,
    task: &Task<'_, J>,
) -> Result<(Settings, Option<Term>), NoMemory>
    ensures { IfOk result (λ p. (p.0 ≡ (hinted task.now).settings) × (p.1 ≡ task.now.scheme)) }
{
    task.recall_goal();
    let settings = settings_with_hint(alloc, task.plan, &task.name, &task.settings)?;
    let scheme = copy_scheme(alloc, &task.scheme)?;
    Ok((settings, scheme))
}

/// A copy of a task with what its own name's hint says in its settings.
pub(crate) fn hinted<'a, J: Planned>(
    alloc: Global,
    task: &Task<'a, J>,
) -> Result<Task<'a, J>, NoMemory>
    ensures { IfOk result (λ t. t ≡ hinted task.now) }
{
    let (name, clause) = labelled(alloc, task)?;
    let (settings, scheme) = hinted_settings(alloc, task)?;
    Ok(Task {
        plan: task.plan,
        name,
        clause,
        depth: task.depth,
        under: task.under,
        settings,
        induct: task.induct,
        scheme,
        of: PhantomData,
    })
}

/// The induction of a task that its walk pushed as number `k`, from 1: the goal has the pushed goal's name, new
/// paths begin at it, and the hint of the goal that was pushed holds for it. The only error is want of memory.
pub fn induct_task<'a, J: Planned>(
    alloc: Global,
    task: &Task<'a, J>,
    k: u32,
) -> Result<Task<'a, J>, NoMemory>
    requires { 1 ≤ k }
    ensures { IfOk result (λ t. t ≡ inducted task.now k) }
{
    let name = task.name.pushed(alloc, k)?;
    let clause = Clause(copy_terms(alloc, task.clause.0.as_slice())?);
    let settings = settings_with_hint(alloc, task.plan, &task.name, &task.settings)?;
    let scheme = scheme_of_hint(alloc, task.plan, &task.name)?;
    Ok(Task {
        plan: task.plan,
        name,
        clause,
        depth: 0,
        under: false,
        settings,
        induct: true,
        scheme,
        of: PhantomData,
    })
}

/// Whether two terms are one, or neither is there. Takes no memory.
fn same_scheme(a: &Option<Term>, b: &Option<Term>) -> bool
    ensures { IsTrue result ↔ (a.now ≡ b.now) }
{
    match (a, b) {
        (None, None) => true,
        (Some(a), Some(b)) => same_term(a, b),
        _ => false,
    }
}

/// Whether two tasks are one, in all that they hold. The plans aren't looked at: both are the one that the brand of
/// their type is, so the world and the hints cost nothing here. Takes no memory.
pub fn same_task<J: Planned>(a: &Task<'_, J>, b: &Task<'_, J>) -> bool
    ensures { IsTrue result ↔ (a.now ≡ b.now) }
{
    a.depth == b.depth
        && a.under == b.under
        && a.induct == b.induct
        && same_name(&a.name, &b.name)
        && same_terms(a.clause.0.as_slice(), b.clause.0.as_slice())
        && same_scheme(&a.scheme, &b.scheme)
        && same_settings(&a.settings, &b.settings)
}
