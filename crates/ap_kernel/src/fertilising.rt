ghost use Rattle.std.specs.Prelude.{◌≡◌, ◌<◌, [], ◌∷◌, IfOk, IsTrue, is_some, Some, length};
ghost use Rattle.std.specs.Option.{option_map};
ghost use Rattle.ap_world.specs.Shapes.{shape_of};
ghost use Rattle.ap_world.specs.World.{function_of};
ghost use Rattle.ap_kernel.specs.Standing.{DefinesNot};
ghost use Rattle.ap_kernel.specs.Reductions.{KnownClause, Reduces, put_at, others, to_one};
ghost use Rattle.ap_kernel.specs.Equations.{equal_of};
ghost use Rattle.ap_kernel.specs.Swapping.{swapped};
ghost use Rattle.ap_kernel.specs.Deriving.{node};
ghost use Rattle.ap_kernel.specs.declared.derivations.Row.TheVariants.{Fertilise};
ghost use Rattle.ap_kernel.specs.Fertilising.{is_constant_shape, sides_of, negated_sides, side_replaced, literal_fertilised, fertilised, fertilise_made};
ghost use Rattle.ap_kernel.specs.Splits.{and_then};

use crate::derivations::{Derivation, Row};
use crate::equations::equal_term;
use crate::lists::{one, one_pair};
use crate::literals::{put_at, to_one};
use crate::reductions::Reduction;
use crate::swapping::{contains, swapped};
use ap_list::{NoMemory, Seq, Shared};
use ap_term::{Clause, Term, copy_term};
use ap_world::{ShapeRef, World, shape_of};
use std::alloc::Global;

/// Whether a term is a constant. Takes no memory.
fn is_constant_shape(t: &Term) -> bool
    ensures { result ≡ is_constant_shape (shape_of t.now) }
{
    matches!(shape_of(t), ShapeRef::Constant(_))
}

/// The sides of an equation. Takes no memory.
pub fn sides_of(t: &Term) -> Option<(&Term, &Term)>
    ensures { option_map (λ p. (p.0.now, p.1.now)) result ≡ sides_of (shape_of t.now) }
{
    match shape_of(t) {
        ShapeRef::Equal(a, b) => Some((a, b)),
        _ => None,
    }
}

/// The sides of an equation of which a literal is the negation, where neither is a constant. Takes no memory.
pub fn negated_sides(t: &Term) -> Option<(&Term, &Term)>
    ensures { option_map (λ p. (p.0.now, p.1.now)) result ≡ negated_sides (shape_of t.now) }
{
    let ShapeRef::Not(equation) = shape_of(t) else {
        return None;
    };
    let (a, b) = sides_of(equation)?;
    if is_constant_shape(a) || is_constant_shape(b) {
        return None;
    }
    Some((a, b))
}

/// A term with another one in every place of a part.
fn with_other(alloc: Global, part: &Term, by: &Term, t: &Term) -> Result<Term, NoMemory>
    ensures { IfOk result (λ u. u ≡ swapped ((part.now, by.now) ∷ []) t.now) }
{
    let part = copy_term(alloc, part)?;
    let by = copy_term(alloc, by)?;
    let pairs = one_pair(alloc, part, by)?;
    swapped(alloc, pairs.as_slice(), t)
}

/// The equation of `l` and `r` with `a` for `b` in `r`.
fn with_right(alloc: Global, a: &Term, b: &Term, l: &Term, r: &Term) -> Result<Term, NoMemory>
    ensures { IfOk result (λ u. u ≡ equal_of l.now (swapped ((b.now, a.now) ∷ []) r.now)) }
{
    let left = copy_term(alloc, l)?;
    let right = with_other(alloc, b, a, r)?;
    equal_term(alloc, left, right)
}

/// The equation of `l` and `r` with `b` for `a` in `l`.
fn with_left(alloc: Global, a: &Term, b: &Term, l: &Term, r: &Term) -> Result<Term, NoMemory>
    ensures { IfOk result (λ u. u ≡ equal_of (swapped ((a.now, b.now) ∷ []) l.now) r.now) }
{
    let left = with_other(alloc, a, b, l)?;
    let right = copy_term(alloc, r)?;
    equal_term(alloc, left, right)
}

/// The equation of `l` and `r` with `a` for `b` in `r`, or else with `b` for `a` in `l`.
fn side_replaced(
    alloc: Global,
    a: &Term,
    b: &Term,
    l: &Term,
    r: &Term,
) -> Result<Option<Term>, NoMemory>
    ensures { IfOk result (λ o. o ≡ side_replaced (a.now, b.now) (l.now, r.now)) }
{
    if contains(r, b) {
        return Ok(Some(with_right(alloc, a, b, l, r)?));
    }
    if contains(l, a) {
        return Ok(Some(with_left(alloc, a, b, l, r)?));
    }
    Ok(None)
}

/// A literal that is an equation, with the equation of `a` and `b` used in one side, if it can be.
fn literal_fertilised(
    alloc: Global,
    a: &Term,
    b: &Term,
    literal: &Term,
) -> Result<Option<Term>, NoMemory>
    ensures { IfOk result (λ o. o ≡ literal_fertilised (a.now, b.now) literal.now) }
{
    match sides_of(literal) {
        Some((l, r)) => side_replaced(alloc, a, b, l, r),
        None => Ok(None),
    }
}

/// The literals with another one at the second place, and without the one at the first.
fn fertilised(
    alloc: Global,
    literals: &[Term],
    i: usize,
    j: usize,
    changed: Term,
) -> Result<Seq<Term>, NoMemory>
    requires first { i < length literals.now }
    requires second { j < length literals.now }
    ensures { IfOk result (λ ts. ts ≡ others i (put_at j (changed ∷ []) literals.now)) }
{
    let changed = one(alloc, changed)?;
    let literals = put_at(alloc, literals, j, changed)?;
    put_at(alloc, literals.as_slice(), i, Seq::new(alloc))
}

/// What the literal at the second place becomes by the one at the first, if it does.
fn literal_changed(alloc: Global, c: &Clause, i: usize, j: usize) -> Result<Option<Term>, NoMemory>
    ensures { IfOk result (λ o. and_then o (λ u. Some (fertilised c.now i j u)) ≡ fertilise_made c.now i j) }
{
    let Some(hypothesis) = c.0.get(i) else {
        return Ok(None);
    };
    let Some((a, b)) = negated_sides(hypothesis) else {
        return Ok(None);
    };
    match c.0.get(j) {
        Some(literal) => literal_fertilised(alloc, a, b, literal),
        None => Ok(None),
    }
}

/// How an equation among the hypotheses is used in another.
fn fertilise_why(
    alloc: Global,
    c: &Shared<Clause>,
    i: usize,
    j: usize,
) -> Result<Shared<Derivation>, NoMemory>
    ensures { IfOk result (λ d. d ≡ node (Fertilise c.now i j) []) }
{
    let c = c.share()?;
    let answer = Derivation::leaf(alloc, Row::Fertilise(c, i, j))?;
    Ok(answer)
}

/// From a clause to the clause without the literal at the first place, which is the negation of an equation
/// whose sides are no constants, and with that equation used in the literal at the second place, an equation
/// too: there the left side stands for the right one in the right side, or else the right one for the left
/// one in the left side, in every place. It copies the other literals, since the reduction owns both clauses.
pub fn fertilise(
    alloc: Global,
    w: &World,
    c: Clause,
    i: usize,
    j: usize,
) -> Result<Reduction, NoMemory>
    requires ground { DefinesNot (function_of w.now.entries) }
    requires clause { KnownClause (function_of w.now.entries) c }
    requires applies { IsTrue (is_some (fertilise_made c i j)) }
    ensures stands { IfOk result (λ r. Reduces w.now r) }
    ensures made { IfOk result (λ r. fertilise_made c i j ≡ Some r.says) }
{
    w.recall_sound();
    let Some(changed) = literal_changed(alloc, &c, i, j)? else {
        unreachable!()
    };
    let literals = fertilised(alloc, c.0.as_slice(), i, j, changed)?;
    let from = Shared::new(alloc, c)?;
    let why = fertilise_why(alloc, &from, i, j)?;
    let answer = to_one(alloc, from, literals, why)?;
    Ok(answer)
}
