ghost use Rattle.std.specs.Prelude.{◌≡◌, map};
ghost use Rattle.ap_term.specs.declared.term.Term.{out-Term};
ghost use Rattle.ap_world.specs.Shapes.{shape_of};
ghost use Rattle.ap_kernel.specs.Solving.{any_true};
ghost use Rattle.ap_weaken.specs.Generalize.{is_in_two, arguments_of, both_have, is_in_sides, atom_of, is_in_both, is_shared};

use ap_kernel::{ShapeRef, contains, is_comparison, shape_of, some_contains};
use ap_term::{Shape, Term};

/// Whether a term is a part of two literals. Takes no memory.
fn is_in_two(t: &Term, literals: &[Term]) -> bool
    ensures { result ≡ is_in_two t.now literals.now }
{
    let mut left = literals;
    while let [u, rest @ ..] = left {
        if contains(u, t) {
            return some_contains(rest, t);
        }
        left = rest;
    }
    false
}

/// The arguments of a call; another term has none. Takes no memory.
#[tactic(auto, using(ap_term::proofs::Seen::trees))]
fn arguments_of(t: &Term) -> &[Term]
    ensures { result.now ≡ arguments_of (out-Term t.now) }
{
    match &t.shape {
        Shape::Call(_, ts) => ts.as_slice(),
        Shape::Var(_) => &[],
        Shape::Quote(_) => &[],
    }
}

/// Whether a term is a part of both of two terms. Takes no memory.
fn both_have(t: &Term, sides: &[Term]) -> bool
    ensures { result ≡ both_have t.now sides.now }
{
    match sides {
        [a, b] => contains(a, t) && contains(b, t),
        _ => false,
    }
}

/// Whether it is a part of both sides of an `equal` or a `<`. Takes no memory.
fn is_in_sides(t: &Term, atom: &Term) -> bool
    ensures { result ≡ is_in_sides t.now atom.now }
{
    is_comparison(atom) && both_have(t, arguments_of(atom))
}

/// A literal without its negation. Takes no memory.
fn atom_of(literal: &Term) -> &Term
    ensures { result.now ≡ atom_of (shape_of literal.now) literal.now }
{
    match shape_of(literal) {
        ShapeRef::Not(a) => a,
        _ => literal,
    }
}

/// Whether a term is a part of both sides of one of some literals, negated or not. Takes no memory.
fn is_in_both(t: &Term, literals: &[Term]) -> bool
    ensures { result ≡ any_true (map (is_in_both t.now) literals.now) }
{
    for u in literals {
        if is_in_sides(t, atom_of(u)) {
            return true;
        }
    }
    false
}

/// Whether a term is a part of two literals, or of both sides of one. Takes no memory.
pub(crate) fn is_shared(t: &Term, literals: &[Term]) -> bool
    ensures { result ≡ is_shared t.now literals.now }
{
    is_in_two(t, literals) || is_in_both(t, literals)
}
