// What a hint says of a goal: the settings that hold for it and all below, and what is made of its clause.
ghost use Rattle.std.specs.Prelude.{◌≡◌, ◌<◌, ◌^◌, [], ◌∷◌, length, map, IfOk, Some, unwrap_or};
ghost use Rattle.std.specs.Option.{option_copied};
ghost use Rattle.ap_list.specs.Lists.{Each};
ghost use Rattle.ap_world.specs.World.{function_of, theorem_of};
ghost use Rattle.ap_hints.specs.Known.{KnownUse, KnownHint};
ghost use Rattle.ap_kernel.specs.Standing.{DefinesNot};
ghost use Rattle.ap_kernel.specs.Reductions.{KnownClause, Reduces, claims};
ghost use Rattle.ap_term.specs.declared.term.Clause.{Clause};
ghost use Rattle.ap_strategy.specs.Goals.{hint_among, hint_for, with_hint, scheme_by};
ghost use Rattle.ap_strategy.specs.Leads.{used_from};
ghost use Rattle.ap_strategy.specs.Steps.{makes_goals, used_in, hint_goals, reduced_to};

use crate::clauses::{copy_clause, copy_scheme};
use crate::plan::{Plan, Settings, copy_settings};
use ap_hints::Hint;
use ap_kernel::{Reduction, cases, chain, keep, then, use_fact};
use ap_list::{NoMemory, Seq};
use ap_names::{GoalName, is_name};
use ap_term::{Clause, Subst, Term, copy_terms};
use ap_value::Symbol;
use ap_world::{Theory, World, copy_theory};
use std::alloc::Global;

/// The first of some hints that is for a name. Takes no memory.
fn hint_among<'a>(hints: &'a [Hint], name: &GoalName) -> Option<&'a Hint>
    ensures { option_copied result ≡ hint_among hints.now name.now }
{
    for hint in hints {
        if is_name(&hint.goal, name) {
            return Some(hint);
        }
    }
    None
}

/// The hint of a name. Takes no memory.
pub(crate) fn hint_for<'a>(plan: &'a Plan, name: &GoalName) -> Option<&'a Hint>
    ensures { option_copied result ≡ hint_for plan.now name.now }
{
    hint_among(plan.hints.list.as_slice(), name)
}

/// The theory that a hint says, or else the one that holds. Takes no memory.
fn theory_by<'a>(hint: &'a Hint, settings: &'a Settings) -> &'a Theory
    ensures { result.now ≡ unwrap_or hint.now.theory settings.now.theory }
{
    match &hint.theory {
        Some(theory) => theory,
        None => &settings.theory,
    }
}

/// Settings with what a hint says beside them.
fn with_hint(alloc: Global, hint: &Hint, settings: &Settings) -> Result<Settings, NoMemory>
    ensures { IfOk result (λ s. s ≡ with_hint (Some hint.now) settings.now) }
{
    let theory = copy_theory(alloc, theory_by(hint, settings))?;
    let mut expand = copy_terms(alloc, settings.expand.as_slice())?;
    expand.append(copy_terms(alloc, hint.expand.as_slice())?)?;
    let mut skip = Seq::from_slice(alloc, settings.skip.as_slice())?;
    skip.append(Seq::from_slice(alloc, hint.skip.as_slice())?)?;
    Ok(Settings {
        theory,
        expand,
        skip,
    })
}

/// Settings with what the hint of a name says, if there is one.
pub(crate) fn settings_with_hint(
    alloc: Global,
    plan: &Plan,
    name: &GoalName,
    settings: &Settings,
) -> Result<Settings, NoMemory>
    ensures { IfOk result (λ s. s ≡ with_hint (hint_for plan.now name.now) settings.now) }
{
    match hint_for(plan, name) {
        Some(hint) => with_hint(alloc, hint, settings),
        None => copy_settings(alloc, settings),
    }
}

/// The call that the hint of a name says an induction is to be by.
pub(crate) fn scheme_of_hint(
    alloc: Global,
    plan: &Plan,
    name: &GoalName,
) -> Result<Option<Term>, NoMemory>
    ensures { IfOk result (λ o. o ≡ scheme_by (hint_for plan.now name.now)) }
{
    let Some(hint) = hint_for(plan, name) else {
        return Ok(None);
    };
    copy_scheme(alloc, &hint.scheme)
}

/// Whether a hint has theorems to use, or cases. Takes no memory.
pub(crate) fn makes_goals(hint: &Hint) -> bool
    ensures { result ≡ makes_goals hint.now }
{
    !hint.uses.is_empty() || !hint.cases.is_empty()
}

/// A reduction to one clause, which is moved, and on to that clause with the negated instance of a theorem before it.
fn with_use(
    alloc: Global,
    w: &World,
    r: Reduction,
    fact: &(Symbol, Subst),
) -> Result<Reduction, NoMemory>
    requires ground { DefinesNot (function_of w.now.entries) }
    requires stands { Reduces w.now r }
    requires fact { KnownUse w.now.entries fact.now }
    ensures stands { IfOk result (λ q. Reduces w.now q) }
    ensures made { (d : Clause) → r.says.to ≡ d ∷ [] → IfOk result (λ q. q.says ≡ reduced_to r.says.from (used_in (theorem_of w.now.entries fact.now.0) fact.now.1 d ∷ [])) }
{
    let [clause] = r.to().as_slice() else {
        return Ok(r);
    };
    let next = use_fact(alloc, w, copy_clause(alloc, clause)?, &fact.0, &fact.1)?;
    let answer = then(alloc, w, r, next)?;
    Ok(answer)
}

/// From a clause to itself with the negated instances of theorems before it, the first of them first.
fn with_uses(
    alloc: Global,
    w: &World,
    c: Clause,
    uses: &[(Symbol, Subst)],
) -> Result<Reduction, NoMemory>
    requires ground { DefinesNot (function_of w.now.entries) }
    requires clause { KnownClause (function_of w.now.entries) c }
    requires uses { Each (KnownUse w.now.entries) uses.now }
    ensures stands { IfOk result (λ r. Reduces w.now r) }
    ensures made { IfOk result (λ r. r.says ≡ used_from w.now.entries uses.now c) }
{
    let mut reduction = keep(alloc, w, c)?;
    let mut at = uses.len();
    while at > 0 {
        at -= 1;
        reduction = with_use(alloc, w, reduction, &uses[at])?;
    }
    Ok(reduction)
}

/// The same from each of some clauses.
fn all_with_uses(
    alloc: Global,
    w: &World,
    clauses: &[Clause],
    uses: &[(Symbol, Subst)],
) -> Result<Seq<Reduction>, NoMemory>
    requires ground { DefinesNot (function_of w.now.entries) }
    requires clauses { Each (KnownClause (function_of w.now.entries)) clauses.now }
    requires uses { Each (KnownUse w.now.entries) uses.now }
    ensures stand { IfOk result (λ rs. Each (Reduces w.now) rs) }
    ensures made { IfOk result (λ rs. claims rs ≡ map (used_from w.now.entries uses.now) clauses.now) }
{
    let mut out = Seq::new(alloc);
    for clause in clauses {
        let reduction = with_uses(alloc, w, copy_clause(alloc, clause)?, uses)?;
        out.push(reduction)?;
    }
    Ok(out)
}

/// From a clause to what a hint makes of it, by the kernel's rows: its cases, in each of which the instances are assumed.
pub(crate) fn by_hint(
    alloc: Global,
    w: &World,
    hint: &Hint,
    c: Clause,
) -> Result<Reduction, NoMemory>
    requires ground { DefinesNot (function_of w.now.entries) }
    requires clause { KnownClause (function_of w.now.entries) c }
    requires hint { KnownHint w.now.entries hint.now }
    ensures stands { IfOk result (λ r. Reduces w.now r) }
    ensures made { IfOk result (λ r. r.says ≡ reduced_to c (hint_goals w.now.entries hint.now c)) }
{
    let cases = cases(alloc, w, c, &hint.cases)?;
    let each = all_with_uses(alloc, w, cases.to().as_slice(), hint.uses.as_slice())?;
    let answer = chain(alloc, w, cases, each)?;
    Ok(answer)
}

/// What a hint makes of a clause.
pub(crate) fn hint_goals(
    alloc: Global,
    w: &World,
    hint: &Hint,
    c: Clause,
) -> Result<Seq<Clause>, NoMemory>
    requires ground { DefinesNot (function_of w.now.entries) }
    requires clause { KnownClause (function_of w.now.entries) c }
    requires hint { KnownHint w.now.entries hint.now }
    ensures made { IfOk result (λ ds. ds ≡ hint_goals w.now.entries hint.now c) }
    ensures known { IfOk result (λ ds. Each (KnownClause (function_of w.now.entries)) ds) }
    ensures few { IfOk result (λ ds. length ds < 2 ^ 32) }
{
    let (_, goals) = by_hint(alloc, w, hint, c)?.into_parts();
    Ok(goals)
}
