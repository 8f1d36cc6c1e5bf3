ghost use Rattle.std.specs.Prelude.{◌≡◌, [], IfOk, IsTrue, MatchOption};
ghost use Rattle.ap_world.specs.World.{function_of};
ghost use Rattle.ap_world.specs.Shapes.{shape_of};
ghost use Rattle.ap_kernel.specs.Standing.{DefinesNot};
ghost use Rattle.ap_kernel.specs.Reductions.{KnownClause, Reduces};
ghost use Rattle.ap_kernel.specs.Deriving.{node};
ghost use Rattle.ap_kernel.specs.declared.derivations.Row.TheVariants.{Tidy};
ghost use Rattle.ap_kernel.specs.Tidying.{negated_bare, is_bare, is_plain, plain, tidied, is_opposed, decides, holds_by_itself, negates, is_denied, closes, tidy_goals, tidy_made};

use crate::assuming::is_constant;
use crate::choices::{bare, not_term};
use crate::derivations::{Derivation, Row};
use crate::equations::truth_term;
use crate::reductions::Reduction;
use ap_list::{NoMemory, Seq, Shared};
use ap_term::{Clause, Term, copy_term, is_same, is_term_among};
use ap_world::{ShapeRef, World, is_nil, shape_of};
use std::alloc::Global;

/// The negation of a term that is no call of `not`.
fn negated_bare(alloc: Global, t: &Term) -> Result<Term, NoMemory>
    ensures { IfOk result (λ u. u ≡ negated_bare (shape_of t.now) t.now) }
{
    match shape_of(t) {
        ShapeRef::Constant(v) => Ok(truth_term(is_nil(v))),
        _ => not_term(alloc, copy_term(alloc, t)?),
    }
}

/// Whether a term is neither a constant nor a negation. Takes no memory.
fn is_bare(t: &Term) -> bool
    ensures { result ≡ is_bare (shape_of t.now) }
{
    match shape_of(t) {
        ShapeRef::Constant(_) | ShapeRef::Not(_) => false,
        _ => true,
    }
}

/// Whether a literal is in plain form at sight. Takes no memory.
fn is_plain(t: &Term) -> bool
    ensures { result ≡ is_plain (shape_of t.now) }
{
    match shape_of(t) {
        ShapeRef::Not(a) => is_bare(a),
        _ => true,
    }
}

/// A literal with `(not (not a))` taken for `a`, and the negation of a constant for its constant.
#[tactic(auto, using(crate::proofs::PlainForm::plain_is))]
fn plain(alloc: Global, t: &Term) -> Result<Term, NoMemory>
    ensures { IfOk result (λ u. u ≡ plain t.now) }
{
    if is_plain(t) {
        return copy_term(alloc, t);
    }
    let (term, odd) = bare(t);
    if odd {
        negated_bare(alloc, term)
    } else {
        copy_term(alloc, term)
    }
}

/// Whether a term is the negation of one of a list. Takes no memory.
fn is_opposed(terms: &[Term], t: &Term) -> bool
    ensures { result ≡ is_opposed terms.now (shape_of t.now) }
{
    match shape_of(t) {
        ShapeRef::Not(a) => is_term_among(a, terms),
        _ => false,
    }
}

/// Whether a term is the negation of another. Takes no memory.
fn negates(t: &Term, u: &Term) -> bool
    ensures { result ≡ negates (shape_of t.now) u.now }
{
    match shape_of(t) {
        ShapeRef::Not(a) => is_same(a, u),
        _ => false,
    }
}

/// Whether one of a list is the negation of a term. Takes no memory.
fn is_denied(terms: &[Term], t: &Term) -> bool
    ensures { result ≡ is_denied terms.now t.now }
{
    for u in terms {
        if negates(u, t) {
            return true;
        }
    }
    false
}

/// Whether a clause with some literals and this one holds by itself for this one. Takes no memory.
fn closes(terms: &[Term], t: &Term) -> bool
    ensures { result ≡ closes terms.now t.now }
{
    is_constant(true, t) || is_opposed(terms, t) || is_denied(terms, t)
}

/// The literals in plain form, without `'NIL` and without those that stand before. `None` where a clause of
/// these holds by itself, as soon as a literal shows it.
fn tidied(alloc: Global, terms: &[Term]) -> Result<Option<Seq<Term>>, NoMemory>
    ensures { IfOk result (λ o. MatchOption o (IsTrue (holds_by_itself (tidied terms.now))) (λ out. out ≡ tidied terms.now)) }
{
    let mut out = Seq::with_capacity(alloc, terms.len())?;
    for t in terms {
        let literal = plain(alloc, t)?;
        if !is_constant(false, &literal) && !is_term_among(&literal, out.as_slice()) {
            if closes(out.as_slice(), &literal) {
                return Ok(None);
            }
            out.push(literal)?;
        }
    }
    Ok(Some(out))
}

/// Whether a clause has a constant other than `nil`, or a literal and its negation. Takes no memory.
fn holds_by_itself(terms: &[Term]) -> bool
    ensures { result ≡ holds_by_itself terms.now }
{
    for t in terms {
        if is_constant(true, t) || is_opposed(terms, t) {
            return true;
        }
    }
    false
}

/// The clauses that tidying leaves of a clause's literals.
fn tidy_goals(alloc: Global, terms: &[Term]) -> Result<Seq<Clause>, NoMemory>
    ensures { IfOk result (λ cs. cs ≡ tidy_goals (tidied terms.now)) }
{
    let mut goals = Seq::new(alloc);
    if let Some(literals) = tidied(alloc, terms)? {
        if !holds_by_itself(literals.as_slice()) {
            goals.push(Clause(literals))?;
        }
    }
    Ok(goals)
}

/// How a clause is tidied.
fn tidy_why(alloc: Global, c: &Shared<Clause>) -> Result<Shared<Derivation>, NoMemory>
    ensures { IfOk result (λ d. d ≡ node (Tidy c.now) []) }
{
    let c = c.share()?;
    let answer = Derivation::leaf(alloc, Row::Tidy(c))?;
    Ok(answer)
}

/// From a clause to its plain form, in which `(not (not a))` is `a`, the negation of a constant is that
/// constant, and `'NIL` and the literals that stand before are left out; or to no clause, where that has a
/// constant other than `nil`, or a literal and its negation. It copies the literals that it keeps, since
/// the reduction owns both clauses.
pub fn tidy(alloc: Global, w: &World, c: Clause) -> Result<Reduction, NoMemory>
    requires ground { DefinesNot (function_of w.now.entries) }
    requires clause { KnownClause (function_of w.now.entries) c }
    ensures stands { IfOk result (λ r. Reduces w.now r) }
    ensures made { IfOk result (λ r. r.says ≡ tidy_made c) }
{
    w.recall_sound();
    let goals = tidy_goals(alloc, c.0.as_slice())?;
    let from = Shared::new(alloc, c)?;
    let why = tidy_why(alloc, &from)?;
    Ok(Reduction::made(from, goals, why))
}
