ghost use Rattle.std.specs.Prelude.{◌≡◌, [], ◌∷◌, false, IfOk};
ghost use Rattle.ap_value.specs.Values.{symbol_eq};
ghost use Rattle.ap_term.specs.declared.term.Term.TheVariants.{Var, Call};
ghost use Rattle.ap_world.specs.Names.{consp_name, cons_name, car_name, cdr_name};
ghost use Rattle.ap_world.specs.Clauses.{not_of};
ghost use Rattle.ap_world.specs.World.{function_of};
ghost use Rattle.ap_kernel.specs.Standing.{DefinesNot};
ghost use Rattle.ap_kernel.specs.Reductions.{KnownClause, Reduces};
ghost use Rattle.ap_kernel.specs.Solving.{occurs_in};
ghost use Rattle.ap_kernel.specs.Deriving.{node};
ghost use Rattle.ap_kernel.specs.declared.derivations.Row.TheVariants.{Eliminate};
ghost use Rattle.ap_kernel.specs.Eliminating.{call_on, consp_term, taken_apart, reduced, without_first, elim_goals, eliminated};

use crate::choices::not_term;
use crate::derivations::{Derivation, Row};
use crate::generalising::call_on;
use crate::hints::before;
use crate::lists::{one_clause, two, two_clauses};
use crate::reductions::Reduction;
use crate::swapping::swapped_all;
use ap_list::{NoMemory, Seq, Shared};
use ap_term::{Clause, Term, copy_term, copy_terms, is_same};
use ap_value::{Symbol, acl2, copy_symbol};
use ap_world::World;
use std::alloc::Global;

/// `(car v)`
#[tactic(auto, unfolding(ap_world::specs::Names::car_name))]
fn car_term(alloc: Global, v: &Symbol) -> Result<Term, NoMemory>
    ensures { IfOk result (λ u. u ≡ call_on car_name v.now) }
{
    let head = acl2(alloc, b"CAR")?;
    call_on(alloc, head, v)
}

/// `(cdr v)`
#[tactic(auto, unfolding(ap_world::specs::Names::cdr_name))]
fn cdr_term(alloc: Global, v: &Symbol) -> Result<Term, NoMemory>
    ensures { IfOk result (λ u. u ≡ call_on cdr_name v.now) }
{
    let head = acl2(alloc, b"CDR")?;
    call_on(alloc, head, v)
}

/// `(consp v)`
#[tactic(auto, unfolding(ap_world::specs::Names::consp_name))]
fn consp_term(alloc: Global, v: &Symbol) -> Result<Term, NoMemory>
    ensures { IfOk result (λ u. u ≡ consp_term v.now) }
{
    let head = acl2(alloc, b"CONSP")?;
    call_on(alloc, head, v)
}

/// `(cons a b)` of two variables.
#[tactic(auto, unfolding(ap_world::specs::Names::cons_name))]
fn cons_term(alloc: Global, a: &Symbol, b: &Symbol) -> Result<Term, NoMemory>
    ensures { IfOk result (λ u. u ≡ Call cons_name (Var a.now ∷ Var b.now ∷ [])) }
{
    let head = acl2(alloc, b"CONS")?;
    let first = copy_symbol(alloc, a)?;
    let second = copy_symbol(alloc, b)?;
    let parts = two(alloc, Term::var(first), Term::var(second))?;
    Term::call(alloc, head, parts)
}

/// `(car v)` with the variable that it becomes.
fn car_pair(alloc: Global, v: &Symbol, a: &Symbol) -> Result<(Term, Term), NoMemory>
    ensures { IfOk result (λ p. p ≡ (call_on car_name v.now, Var a.now)) }
{
    let by = copy_symbol(alloc, a)?;
    let part = car_term(alloc, v)?;
    Ok((part, Term::var(by)))
}

/// `(cdr v)` with the variable that it becomes.
fn cdr_pair(alloc: Global, v: &Symbol, b: &Symbol) -> Result<(Term, Term), NoMemory>
    ensures { IfOk result (λ p. p ≡ (call_on cdr_name v.now, Var b.now)) }
{
    let by = copy_symbol(alloc, b)?;
    let part = cdr_term(alloc, v)?;
    Ok((part, Term::var(by)))
}

/// `v` with the cons that it becomes.
fn cons_pair(alloc: Global, v: &Symbol, a: &Symbol, b: &Symbol) -> Result<(Term, Term), NoMemory>
    ensures { IfOk result (λ p. p ≡ (Var v.now, Call cons_name (Var a.now ∷ Var b.now ∷ []))) }
{
    let whole = copy_symbol(alloc, v)?;
    let by = cons_term(alloc, a, b)?;
    Ok((Term::var(whole), by))
}

/// What `(car v)`, `(cdr v)` and other `v` become: the first new variable, the second, and their cons.
fn taken_apart(
    alloc: Global,
    v: &Symbol,
    a: &Symbol,
    b: &Symbol,
) -> Result<Seq<(Term, Term)>, NoMemory>
    ensures { IfOk result (λ s. s ≡ taken_apart v.now a.now b.now) }
{
    let mut pairs = Seq::new(alloc);
    pairs.push(car_pair(alloc, v, a)?)?;
    pairs.push(cdr_pair(alloc, v, b)?)?;
    pairs.push(cons_pair(alloc, v, a, b)?)?;
    Ok(pairs)
}

/// The literals without the first one that is this term, where there is one.
fn without_first(alloc: Global, u: &Term, terms: &[Term]) -> Result<Option<Seq<Term>>, NoMemory>
    ensures { IfOk result (λ o. o ≡ without_first u.now terms.now) }
{
    let mut out = Seq::new(alloc);
    let mut left = terms;
    while let [t, rest @ ..] = left {
        if is_same(u, t) {
            out.append(copy_terms(alloc, rest)?)?;
            return Ok(Some(out));
        }
        out.push(copy_term(alloc, t)?)?;
        left = rest;
    }
    Ok(None)
}

/// The literals that are reduced: those without `(not (consp v))`, where that is one of them.
fn known_pair(alloc: Global, v: &Symbol, literals: &[Term]) -> Result<Option<Seq<Term>>, NoMemory>
    ensures { IfOk result (λ o. o ≡ without_first (not_of (consp_term v.now)) literals.now) }
{
    let test = not_term(alloc, consp_term(alloc, v)?)?;
    without_first(alloc, &test, literals)
}

/// The clause with the pairs' seconds for their firsts.
fn reduced(alloc: Global, pairs: &[(Term, Term)], literals: &[Term]) -> Result<Clause, NoMemory>
    ensures { IfOk result (λ c. c.0 ≡ reduced pairs.now literals.now) }
{
    let literals = swapped_all(alloc, pairs, literals)?;
    Ok(Clause(literals))
}

/// The clause with `(consp v)` before it.
fn with_test(alloc: Global, v: &Symbol, literals: &[Term]) -> Result<Clause, NoMemory>
    ensures { IfOk result (λ c. c.0 ≡ consp_term v.now ∷ literals.now) }
{
    let test = consp_term(alloc, v)?;
    let literals = before(alloc, test, literals)?;
    Ok(Clause(literals))
}

/// The two clauses.
fn both_goals(
    alloc: Global,
    v: &Symbol,
    pairs: &[(Term, Term)],
    literals: &[Term],
) -> Result<Seq<Clause>, NoMemory>
    ensures { IfOk result (λ cs. cs ≡ record { 0 = consp_term v.now ∷ literals.now } ∷ record { 0 = reduced pairs.now literals.now } ∷ []) }
{
    let tested = with_test(alloc, v, literals)?;
    let swapped = reduced(alloc, pairs, literals)?;
    two_clauses(alloc, tested, swapped)
}

/// The one clause or the two.
fn elim_goals(
    alloc: Global,
    v: &Symbol,
    pairs: &[(Term, Term)],
    literals: &[Term],
) -> Result<Seq<Clause>, NoMemory>
    ensures { IfOk result (λ cs. cs ≡ elim_goals pairs.now v.now literals.now (without_first (not_of (consp_term v.now)) literals.now)) }
{
    match known_pair(alloc, v, literals)? {
        Some(rest) => one_clause(alloc, reduced(alloc, pairs, rest.as_slice())?),
        None => both_goals(alloc, v, pairs, literals),
    }
}

/// How a variable is taken apart.
fn eliminate_why(
    alloc: Global,
    c: &Shared<Clause>,
    v: &Symbol,
    a: Symbol,
    b: Symbol,
) -> Result<Shared<Derivation>, NoMemory>
    ensures { IfOk result (λ d. d ≡ node (Eliminate c.now v.now a b) []) }
{
    let c = c.share()?;
    let v = copy_symbol(alloc, v)?;
    let answer = Derivation::leaf(alloc, Row::Eliminate(c, v, a, b))?;
    Ok(answer)
}

/// From a clause to two: the clause with `(consp v)` before it, and the clause with the first new variable
/// for `(car v)`, the second for `(cdr v)`, and their cons for other `v`. Where `(not (consp v))` is a
/// literal, it is left out of the second, which is then the only one. It copies what it doesn't change, since
/// the reduction owns all clauses.
pub fn eliminate(
    alloc: Global,
    w: &World,
    c: Clause,
    v: &Symbol,
    a: Symbol,
    b: Symbol,
) -> Result<Reduction, NoMemory>
    requires ground { DefinesNot (function_of w.now.entries) }
    requires clause { KnownClause (function_of w.now.entries) c }
    requires first { occurs_in a c.0 ≡ false }
    requires second { occurs_in b c.0 ≡ false }
    requires apart { symbol_eq b a ≡ false }
    ensures stands { IfOk result (λ r. Reduces w.now r) }
    ensures made { IfOk result (λ r. r.says ≡ eliminated c v.now a b) }
{
    w.recall_sound();
    let pairs = taken_apart(alloc, v, &a, &b)?;
    let goals = elim_goals(alloc, v, pairs.as_slice(), c.0.as_slice())?;
    let from = Shared::new(alloc, c)?;
    let why = eliminate_why(alloc, &from, v, a, b)?;
    Ok(Reduction::made(from, goals, why))
}
