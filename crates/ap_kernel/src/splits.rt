ghost use Rattle.std.specs.Prelude.{◌≡◌, ◌∷◌, [], ◌<◌, IfOk, IsTrue, length, is_some, Some};
ghost use Rattle.std.specs.Option.{option_map, option_copied};
ghost use Rattle.ap_term.specs.declared.term.Term.TheVariants.{Call};
ghost use Rattle.ap_term.specs.Terms.{subst_of};
ghost use Rattle.ap_world.specs.Clauses.{negate};
ghost use Rattle.ap_world.specs.World.{function_of};
ghost use Rattle.ap_world.specs.Shapes.{shape_of};
ghost use Rattle.ap_kernel.specs.Standing.{DefinesNot};
ghost use Rattle.ap_kernel.specs.Reductions.{KnownClause, Reduces, put_at};
ghost use Rattle.ap_kernel.specs.Deriving.{node};
ghost use Rattle.ap_kernel.specs.declared.derivations.Row.TheVariants.{SplitIf};
ghost use Rattle.ap_kernel.specs.Splits.{part_at, with_part, choice_at, choice_in, split_made};

use crate::choices::not_term;
use crate::derivations::{Derivation, Row};
use crate::lists::{one, two, two_clauses};
use crate::literals::put_at;
use crate::reductions::Reduction;
use ap_list::{NoMemory, Seq, Shared};
use ap_term::{Clause, Shape, Subst, Term, copy_term, subst};
use ap_value::{Symbol, copy_symbol};
use ap_world::{ShapeRef, World, shape_of};
use std::alloc::Global;

/// The part of a term that the places of arguments lead to, the outermost first. Takes no memory.
#[tactic(auto, using(ap_term::proofs::Seen::trees))]
fn part_at<'a>(t: &'a Term, at: &[u32]) -> Option<&'a Term>
    ensures { option_copied result ≡ part_at at.now t.now }
{
    let [place, rest @ ..] = at else {
        return Some(t);
    };
    let Shape::Call(_, arguments) = &t.shape else {
        return None;
    };
    part_at(arguments.get(*place as usize)?, rest)
}

/// The parts of the `if` at a place of a term, where there is one. Takes no memory.
fn choice_at<'a>(t: &'a Term, at: &[u32]) -> Option<(&'a Term, &'a Term, &'a Term)>
    ensures { option_map (λ p. (p.0.now, p.1.now, p.2.now)) result ≡ choice_at at.now t.now }
{
    match shape_of(part_at(t, at)?) {
        ShapeRef::If(a, b, c) => Some((a, b, c)),
        _ => None,
    }
}

/// The call of `f` on copies of arguments, of which the one at a place is another one, which is moved.
fn with_argument(
    alloc: Global,
    f: &Symbol,
    arguments: &[Term],
    place: usize,
    put: Term,
) -> Result<Term, NoMemory>
    requires { place < length arguments.now }
    ensures { IfOk result (λ u. u ≡ Call f.now (put_at place (put ∷ []) arguments.now)) }
{
    let put = one(alloc, put)?;
    let arguments = put_at(alloc, arguments, place, put)?;
    let head = copy_symbol(alloc, f)?;
    Term::call(alloc, head, arguments)
}

/// A copy of a term in which the part at a place is a copy of another one.
#[tactic(auto, using(ap_term::proofs::Seen::trees))]
fn with_part(alloc: Global, t: &Term, at: &[u32], part: &Term) -> Result<Option<Term>, NoMemory>
    ensures { IfOk result (λ o. o ≡ with_part at.now part.now t.now) }
{
    let [place, rest @ ..] = at else {
        return Ok(Some(copy_term(alloc, part)?));
    };
    let Shape::Call(f, arguments) = &t.shape else {
        return Ok(None);
    };
    let place = *place as usize;
    let Some(argument) = arguments.get(place) else {
        return Ok(None);
    };
    let Some(changed) = with_part(alloc, argument, rest, part)? else {
        return Ok(None);
    };
    let whole = with_argument(alloc, f, arguments.as_slice(), place, changed)?;
    Ok(Some(whole))
}

/// The negation: of `(not a)` it is `a`, of another term the call of `not` on it.
pub fn negated(alloc: Global, t: &Term) -> Result<Term, NoMemory>
    ensures { IfOk result (λ u. u ≡ negate t.now) }
{
    match shape_of(t) {
        ShapeRef::Not(a) => copy_term(alloc, a),
        _ => not_term(alloc, copy_term(alloc, t)?),
    }
}

/// The negation of the instance of a term.
pub(crate) fn negated_instance(alloc: Global, t: &Term, s: &Subst) -> Result<Term, NoMemory>
    ensures { IfOk result (λ u. u ≡ negate (subst_of s.now.0 t.now)) }
{
    let instance = subst(alloc, t, s)?;
    negated(alloc, &instance)
}

/// The literals with two in the place of one.
fn with_two(
    alloc: Global,
    literals: &[Term],
    index: usize,
    first: Term,
    second: Term,
) -> Result<Clause, NoMemory>
    requires { index < length literals.now }
    ensures { IfOk result (λ c. c.0 ≡ put_at index (first ∷ second ∷ []) literals.now) }
{
    let put = two(alloc, first, second)?;
    let literals = put_at(alloc, literals, index, put)?;
    Ok(Clause(literals))
}

/// The case of a literal where its test is true, with its branch there.
fn true_case(
    alloc: Global,
    literals: &[Term],
    index: usize,
    test: &Term,
    yes: Term,
) -> Result<Clause, NoMemory>
    requires { index < length literals.now }
    ensures { IfOk result (λ c. c.0 ≡ put_at index (negate test.now ∷ yes ∷ []) literals.now) }
{
    let negation = negated(alloc, test)?;
    with_two(alloc, literals, index, negation, yes)
}

/// The case of a literal where its test is false, with its branch there.
fn false_case(
    alloc: Global,
    literals: &[Term],
    index: usize,
    test: &Term,
    no: Term,
) -> Result<Clause, NoMemory>
    requires { index < length literals.now }
    ensures { IfOk result (λ c. c.0 ≡ put_at index (test.now ∷ no ∷ []) literals.now) }
{
    let test = copy_term(alloc, test)?;
    with_two(alloc, literals, index, test, no)
}

/// The two cases of a literal, its test and its branches: of the branch where the test is true first.
fn two_cases(
    alloc: Global,
    literals: &[Term],
    index: usize,
    test: &Term,
    yes: Term,
    no: Term,
) -> Result<Seq<Clause>, NoMemory>
    requires { index < length literals.now }
    ensures { IfOk result (λ cs. cs ≡ record { 0 = put_at index (negate test.now ∷ yes ∷ []) literals.now } ∷ record { 0 = put_at index (test.now ∷ no ∷ []) literals.now } ∷ []) }
{
    let first = true_case(alloc, literals, index, test, yes)?;
    let second = false_case(alloc, literals, index, test, no)?;
    two_clauses(alloc, first, second)
}

/// The two cases of an `if` within a literal, where there is one.
fn cases_at(
    alloc: Global,
    c: &Clause,
    index: usize,
    at: &[u32],
) -> Result<Option<Seq<Clause>>, NoMemory>
    ensures { IfOk result (λ o. option_map (λ cs. record { from = c.now; to = cs }) o ≡ split_made c.now index at.now) }
{
    let Some(literal) = c.0.get(index) else {
        return Ok(None);
    };
    let Some((test, yes, no)) = choice_at(literal, at) else {
        return Ok(None);
    };
    let Some(yes) = with_part(alloc, literal, at, yes)? else {
        return Ok(None);
    };
    let Some(no) = with_part(alloc, literal, at, no)? else {
        return Ok(None);
    };
    let cases = two_cases(alloc, c.0.as_slice(), index, test, yes, no)?;
    Ok(Some(cases))
}

/// Whether the places of arguments lead to an `if` in the literal at a place. Takes no memory.
pub fn is_choice_in(c: &Clause, index: usize, at: &Seq<u32>) -> bool
    ensures { result ≡ is_some (choice_in c.now index at.now) }
{
    match c.0.get(index) {
        Some(literal) => choice_at(literal, at.as_slice()).is_some(),
        None => false,
    }
}

/// How a clause is split.
fn split_why(
    alloc: Global,
    c: &Shared<Clause>,
    index: usize,
    at: &Seq<u32>,
) -> Result<Shared<Derivation>, NoMemory>
    ensures { IfOk result (λ d. d ≡ node (SplitIf c.now index at.now) []) }
{
    let c = c.share()?;
    let at = Seq::from_slice(alloc, at.as_slice())?;
    let answer = Derivation::leaf(alloc, Row::SplitIf(c, index, at))?;
    Ok(answer)
}

/// From a clause to two, for an `if` within one of its literals: the first has the negation of the test
/// before that literal and in it the first branch in the place of the `if`, the second the test and the
/// second branch. The places of arguments lead to the `if`, the outermost first. It copies the literals for
/// both, since the reduction owns all three clauses.
pub fn split_if(
    alloc: Global,
    w: &World,
    c: Clause,
    index: usize,
    at: &Seq<u32>,
) -> Result<Reduction, NoMemory>
    requires ground { DefinesNot (function_of w.now.entries) }
    requires clause { KnownClause (function_of w.now.entries) c }
    requires choice { IsTrue (is_some (choice_in c index at.now)) }
    ensures stands { IfOk result (λ r. Reduces w.now r) }
    ensures made { IfOk result (λ r. split_made c index at.now ≡ Some r.says) }
{
    w.recall_sound();
    let Some(cases) = cases_at(alloc, &c, index, at.as_slice())? else {
        unreachable!()
    };
    let from = Shared::new(alloc, c)?;
    let why = split_why(alloc, &from, index, at)?;
    Ok(Reduction::made(from, cases, why))
}
