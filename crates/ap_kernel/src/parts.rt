ghost use Rattle.std.specs.Prelude.{◌≡◌, ◌+◌, ◌<◌, ◌++◌, IfOk, IfErr, IfSome, OnOk, Some, length, slice_get};
ghost use Rattle.std.specs.Option.{option_copied, option_map};
ghost use Rattle.ap_term.specs.declared.term.Term.{out-Term};
ghost use Rattle.ap_term.specs.Terms.{term_size, subst_of};
ghost use Rattle.ap_world.specs.Clauses.{conjuncts};
ghost use Rattle.ap_world.specs.Rules.{stated, sides};
ghost use Rattle.ap_world.specs.Shapes.{shape_of};
ghost use Rattle.ap_kernel.specs.Applying.{mode_in, joined_parts, implied_parts, seen_sides};

use crate::objects::Mode;
use ap_list::{NoMemory, Seq};
use ap_term::{Shape, Subst, Term, subst};
use ap_world::{
    ShapeRef, is_equal, is_iff, is_implies, is_nil_term, is_not, nil_term, push_conjuncts,
    shape_of, t_term,
};
use std::alloc::Global;

/// What a conjunct of a theorem's conclusion says: that two terms are equal, that both are `nil` or both not,
/// that a term is `nil`, or that it isn't.
#[derive(Clone, Copy)]
enum Reading<'a> {
    Equal(&'a Term, &'a Term),
    Iff(&'a Term, &'a Term),
    Nil(&'a Term),
    True(&'a Term),
}

/// The parts `a` and `b` of `(if a b 'NIL)`.
fn joined_parts(t: &Term) -> Option<(&Term, &Term)>
    ensures is { option_map (λ p. (p.0.now, p.1.now)) result ≡ joined_parts (shape_of t.now) }
    ensures smaller { IfSome result (λ p. (term_size p.0.now < term_size t.now) × (term_size p.1.now < term_size t.now)) }
{
    match shape_of(t) {
        ShapeRef::If(a, b, c) => {
            if is_nil_term(c) {
                return Some((a, b));
            }
            None
        }
        _ => None,
    }
}

/// The parts `h` and `c` of `(implies h c)`.
#[tactic(auto, using(ap_term::proofs::Seen::trees))]
fn implied_parts(t: &Term) -> Option<(&Term, &Term)>
    ensures is { option_map (λ p. (p.0.now, p.1.now)) result ≡ implied_parts (out-Term t.now) }
    ensures smaller { IfSome result (λ p. (term_size p.0.now < term_size t.now) × (term_size p.1.now < term_size t.now)) }
{
    match &t.shape {
        Shape::Call(f, ts) => match (is_implies(f), ts.as_slice()) {
            (true, [h, c]) => Some((h, c)),
            _ => None,
        },
        Shape::Var(_) => None,
        Shape::Quote(_) => None,
    }
}

/// Adds the hypotheses of a theorem's term: those of `(implies h c)` are `h`'s conjuncts and `c`'s.
fn push_hypotheses(alloc: Global, out: &mut Seq<Term>, t: &Term) -> Result<(), NoMemory>
    ensures { OnOk result (out.new ≡ out.old ++ (stated t.now).0) }
{
    match implied_parts(t) {
        Some((h, c)) => {
            push_conjuncts(alloc, out, h)?;
            push_hypotheses(alloc, out, c)
        }
        None => Ok(()),
    }
}

/// The hypotheses of a theorem's term. The only error is want of memory.
pub fn hypotheses(alloc: Global, t: &Term) -> Result<Seq<Term>, NoMemory>
    ensures { IfOk result (λ hs. hs ≡ (stated t.now).0) }
{
    let mut out = Seq::new(alloc);
    push_hypotheses(alloc, &mut out, t)?;
    Ok(out)
}

/// The conclusion of a theorem's term: that of `(implies h c)` is `c`'s, and another term is its own. Takes no
/// memory.
pub fn conclusion(t: &Term) -> &Term
    ensures { result.now ≡ (stated t.now).1 }
{
    match implied_parts(t) {
        Some((_, c)) => conclusion(c),
        None => t,
    }
}

/// The conjunct of a term at a place, or how far the place is past its conjuncts.
fn conjunct(t: &Term, place: usize) -> Result<&Term, usize>
    ensures found { IfOk result (λ u. slice_get (conjuncts t.now) place ≡ Some u.now) }
    ensures past { IfErr result (λ left. length (conjuncts t.now) + left ≡ place) }
{
    match joined_parts(t) {
        Some((a, b)) => match conjunct(a, place) {
            Ok(u) => Ok(u),
            Err(left) => conjunct(b, left),
        },
        None => {
            if place == 0 {
                return Ok(t);
            }
            Err(place - 1)
        }
    }
}

/// The conjunct of a theorem's conclusion at a place, if it has so many. Takes no memory.
pub fn conclusion_part(t: &Term, place: u32) -> Option<&Term>
    ensures { option_copied result ≡ slice_get (conjuncts (stated t.now).1) place }
{
    match conjunct(conclusion(t), place as usize) {
        Ok(u) => Some(u),
        Err(_) => None,
    }
}

/// How a conjunct is read.
#[tactic(auto, using(ap_term::proofs::Seen::trees))]
fn read(t: &Term) -> Reading<'_>
    ensures { seen_sides result ≡ sides t.now }
{
    match &t.shape {
        Shape::Call(f, ts) => match (is_equal(f), is_iff(f), is_not(f), ts.as_slice()) {
            (true, _, _, [a, b]) => Reading::Equal(a, b),
            (false, true, _, [a, b]) => Reading::Iff(a, b),
            (false, false, true, [a]) => Reading::Nil(a),
            _ => Reading::True(t),
        },
        Shape::Var(_) => Reading::True(t),
        Shape::Quote(_) => Reading::True(t),
    }
}

/// How the sides agree.
fn mode_of(reading: Reading<'_>) -> Mode
    ensures { result ≡ mode_in (seen_sides reading.entry).0 }
{
    match reading {
        Reading::Equal(_, _) => Mode::Equal,
        Reading::Iff(_, _) => Mode::Iff,
        Reading::Nil(_) => Mode::Equal,
        Reading::True(_) => Mode::Iff,
    }
}

/// The left side, lent.
fn left_of(reading: Reading<'_>) -> &Term
    ensures { result.now ≡ (seen_sides reading.entry).1 }
{
    match reading {
        Reading::Equal(a, _) => a,
        Reading::Iff(a, _) => a,
        Reading::Nil(a) => a,
        Reading::True(u) => u,
    }
}

/// The instance of the right side.
#[tactic(auto, using(ap_term::proofs::Seen::trees, ap_world::proofs::Written::subst_quote))]
fn right_instance(alloc: Global, reading: Reading<'_>, s: &Subst) -> Result<Term, NoMemory>
    ensures { IfOk result (λ u. u ≡ subst_of s.now.0 (seen_sides reading.entry).2) }
{
    match reading {
        Reading::Equal(_, b) => subst(alloc, b, s),
        Reading::Iff(_, b) => subst(alloc, b, s),
        Reading::Nil(_) => Ok(nil_term()),
        Reading::True(_) => Ok(t_term()),
    }
}

/// How the instances of a conjunct's sides agree, and these.
pub(crate) fn instances(
    alloc: Global,
    conjunct: &Term,
    s: &Subst,
) -> Result<(Mode, Term, Term), NoMemory>
    ensures mode { IfOk result (λ p. p.0 ≡ mode_in (sides conjunct.now).0) }
    ensures left { IfOk result (λ p. p.1 ≡ subst_of s.now.0 (sides conjunct.now).1) }
    ensures right { IfOk result (λ p. p.2 ≡ subst_of s.now.0 (sides conjunct.now).2) }
{
    let reading = read(conjunct);
    let left = subst(alloc, left_of(reading), s)?;
    let right = right_instance(alloc, reading, s)?;
    Ok((mode_of(reading), left, right))
}
