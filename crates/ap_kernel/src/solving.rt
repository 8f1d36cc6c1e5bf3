ghost use Rattle.std.specs.Prelude.{◌≡◌, [], ◌∷◌, IfOk, IsTrue, is_some, map, Some};
ghost use Rattle.std.specs.Option.{option_map};
ghost use Rattle.ap_term.specs.declared.term.Term.{out-Term};
ghost use Rattle.ap_world.specs.World.{function_of};
ghost use Rattle.ap_kernel.specs.Standing.{DefinesNot};
ghost use Rattle.ap_kernel.specs.Reductions.{KnownClause, Reduces, to_one};
ghost use Rattle.ap_kernel.specs.Deriving.{node};
ghost use Rattle.ap_kernel.specs.declared.derivations.Row.TheVariants.{UseEquality};
ghost use Rattle.ap_kernel.specs.Solving.{occurs, occurs_in, side_solved, sides_solved, solved_by, solved_made};

use crate::derivations::{Derivation, Row};
use crate::lists::copied_pair;
use crate::literals::{put_at, to_one};
use crate::reductions::Reduction;
use ap_list::{NoMemory, Seq, Shared};
use ap_term::{Clause, Shape, Subst, Term, is_symbol, subst_all};
use ap_value::Symbol;
use ap_world::{ShapeRef, World, shape_of};
use std::alloc::Global;

/// Whether a variable occurs in a term. Takes no memory.
#[cycle(occurring)]
#[tactic(auto, using(ap_term::proofs::Seen::trees))]
pub(crate) fn occurs(x: &Symbol, t: &Term) -> bool
    ensures { result ≡ occurs x.now t.now }
{
    match &t.shape {
        Shape::Var(y) => is_symbol(x, y),
        Shape::Quote(_) => false,
        Shape::Call(_, ts) => occurs_in(x, ts.as_slice()),
    }
}

#[cycle(occurring)]
pub fn occurs_in(x: &Symbol, ts: &[Term]) -> bool
    ensures { result ≡ occurs_in x.now ts.now }
{
    for t in ts {
        if occurs(x, t) {
            return true;
        }
    }
    false
}

/// A side that is a variable, with the other side, where it doesn't occur in that. Takes no memory.
#[tactic(auto, using(ap_term::proofs::Seen::trees))]
fn side_solved<'a>(a: &'a Term, b: &'a Term) -> Option<(&'a Symbol, &'a Term)>
    ensures { option_map (λ p. (p.0.now, p.1.now)) result ≡ side_solved (out-Term a.now) b.now }
{
    match &a.shape {
        Shape::Var(x) => {
            if occurs(x, b) {
                return None;
            }
            Some((x, b))
        }
        Shape::Quote(_) => None,
        Shape::Call(_, _) => None,
    }
}

/// The side of an equation that is solved, with the other side: the left one where it is. Takes no memory.
fn sides_solved<'a>(a: &'a Term, b: &'a Term) -> Option<(&'a Symbol, &'a Term)>
    ensures { option_map (λ p. (p.0.now, p.1.now)) result ≡ sides_solved a.now b.now }
{
    match side_solved(a, b) {
        Some(solved) => Some(solved),
        None => side_solved(b, a),
    }
}

/// The variable that a literal solves, and what replaces it. Takes no memory.
fn solved_by(t: &Term) -> Option<(&Symbol, &Term)>
    ensures { option_map (λ p. (p.0.now, p.1.now)) result ≡ solved_by t.now }
{
    match shape_of(t) {
        ShapeRef::Not(a) => match shape_of(a) {
            ShapeRef::Equal(l, r) => sides_solved(l, r),
            _ => None,
        },
        _ => None,
    }
}

/// Whether [`use_equality`] takes the literal at a place: it is the negation of an equation of which a side
/// is a variable that doesn't occur in the other. Takes no memory.
pub fn is_solvable(c: &Clause, index: usize) -> bool
    ensures { result ≡ is_some (solved_made c.now index) }
{
    match c.0.get(index) {
        Some(literal) => solved_by(literal).is_some(),
        None => false,
    }
}

/// One variable and a copy of what replaces it.
fn replacement(alloc: Global, x: &Symbol, by: &Term) -> Result<Subst, NoMemory>
    ensures { IfOk result (λ s. s.0 ≡ (x.now, by.now) ∷ []) }
{
    let pair = copied_pair(alloc, x, by)?;
    let pairs = Vec::from_array(alloc, [pair])?;
    Ok(Subst(Seq::from_vec(pairs)))
}

/// The other literals with the variable replaced that the literal at a place solves, if it does.
fn solved_literals(alloc: Global, c: &Clause, index: usize) -> Result<Option<Seq<Term>>, NoMemory>
    ensures { IfOk result (λ o. option_map (λ ts. to_one c.now ts) o ≡ solved_made c.now index) }
{
    let Some(literal) = c.0.get(index) else {
        return Ok(None);
    };
    let Some((x, by)) = solved_by(literal) else {
        return Ok(None);
    };
    let others = put_at(alloc, c.0.as_slice(), index, Seq::new(alloc))?;
    let pair = replacement(alloc, x, by)?;
    Ok(Some(subst_all(alloc, others.as_slice(), &pair)?))
}

/// How a variable is replaced that a literal solves.
fn solve_why(
    alloc: Global,
    c: &Shared<Clause>,
    index: usize,
) -> Result<Shared<Derivation>, NoMemory>
    ensures { IfOk result (λ d. d ≡ node (UseEquality c.now index) []) }
{
    let c = c.share()?;
    let answer = Derivation::leaf(alloc, Row::UseEquality(c, index))?;
    Ok(answer)
}

/// From a clause to the clause without the literal at a place, the negation of an equation, and with a
/// variable that is one of its sides replaced by the other side, in which it doesn't occur. Where both sides
/// are variables, the left one is replaced. It copies the other literals, since the reduction owns both
/// clauses.
pub fn use_equality(
    alloc: Global,
    w: &World,
    c: Clause,
    index: usize,
) -> Result<Reduction, NoMemory>
    requires ground { DefinesNot (function_of w.now.entries) }
    requires clause { KnownClause (function_of w.now.entries) c }
    requires solved { IsTrue (is_some (solved_made c index)) }
    ensures stands { IfOk result (λ r. Reduces w.now r) }
    ensures made { IfOk result (λ r. solved_made c index ≡ Some r.says) }
{
    w.recall_sound();
    let Some(literals) = solved_literals(alloc, &c, index)? else {
        unreachable!()
    };
    let from = Shared::new(alloc, c)?;
    let why = solve_why(alloc, &from, index)?;
    let answer = to_one(alloc, from, literals, why)?;
    Ok(answer)
}
