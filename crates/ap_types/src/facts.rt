ghost use Rattle.std.specs.Prelude.{◌≡◌};
ghost use Rattle.ap_value.specs.Values.{val_of};
ghost use Rattle.ap_term.specs.declared.term.Term.{out-Term};
ghost use Rattle.ap_term.specs.Equal.{term_eq};
ghost use Rattle.ap_world.specs.Primitives.{prim_of};
ghost use Rattle.ap_world.specs.Shapes.{shape_of};
ghost use Rattle.ap_world.specs.Narrowing.{signed, by_itself, by_recogniser, by_kind, by_pair, by_parts, leaves, cut};
ghost use Rattle.ap_types.specs.Sides.{by_value, by_side};

use crate::constants::{is_zero_value, kind_of};
use crate::kinds::{bit, without};
use crate::rows::is_single;
use ap_kernel::is_same;
use ap_term::{Shape, Term};
use ap_value::{Symbol, Value};
use ap_world::{Kind, Primitive, masks, primitive_of, recognised};

/// The types where the sign is true, the others where it is false.
fn signed(sign: bool, mask: u16) -> u16
    ensures { result ≡ signed sign mask }
{
    if sign { mask } else { without(mask) }
}

/// What a fact on the term itself leaves.
fn by_itself(t: &Term, fact: &Term, sign: bool) -> u16
    ensures { result ≡ by_itself t.now fact.now sign }
{
    if is_same(fact, t) {
        signed(sign, without(masks::NIL))
    } else {
        masks::ALL
    }
}

/// What a recogniser leaves.
fn by_recogniser(sign: bool, types: Option<u16>) -> u16
    ensures { result ≡ by_recogniser sign types }
{
    match types {
        Some(types) => signed(sign, types),
        None => masks::ALL,
    }
}

/// What an equation with a constant of this type leaves.
fn by_kind(sign: bool, kind: Kind) -> u16
    ensures { result ≡ by_kind sign kind }
{
    if sign {
        return bit(kind);
    }
    if is_single(kind) {
        return without(bit(kind));
    }
    masks::ALL
}

/// What an equation or an inequality with a value leaves of its other side: an inequality with 0 leaves this mask or
/// takes it away.
fn by_value(sign: bool, head: Option<Primitive>, mask: u16, v: &Value) -> u16
    ensures { result ≡ by_value sign head mask (val_of v.now) }
{
    match head {
        Some(Primitive::Equal) => by_kind(sign, kind_of(v)),
        Some(Primitive::Less) => {
            if is_zero_value(v) {
                signed(sign, mask)
            } else {
                masks::ALL
            }
        }
        _ => masks::ALL,
    }
}

/// What an equation or an inequality, of which `a` is one side and `b` the other, leaves of a term that is `a`, where `b`
/// is a constant. Whether it is one costs least, and is asked first; the head costs most, and is asked last.
#[tactic(auto, using(ap_term::proofs::Seen::trees))]
fn by_side(t: &Term, sign: bool, f: &Symbol, mask: u16, a: &Term, b: &Term) -> u16
    ensures { result ≡ by_side (term_eq a.now t.now) sign (prim_of f.now) mask (shape_of b.now) }
{
    match &b.shape {
        Shape::Quote(v) => {
            if is_same(a, t) {
                by_value(sign, primitive_of(f), mask, v)
            } else {
                masks::ALL
            }
        }
        _ => masks::ALL,
    }
}

/// What an equation or an inequality leaves.
#[tactic(auto, using(crate::proofs::Sides::by_both))]
fn by_pair(t: &Term, sign: bool, f: &Symbol, a: &Term, b: &Term) -> u16
    ensures { result ≡ by_pair t.now sign (prim_of f.now) a.now b.now }
{
    by_side(t, sign, f, 4, a, b) & by_side(t, sign, f, 2, b, a)
}

/// What a fact on a part of which the term is leaves.
#[tactic(auto, using(ap_term::proofs::Seen::trees))]
fn by_parts(t: &Term, sign: bool, fact: &Term) -> u16
    ensures { result ≡ by_parts t.now sign (out-Term fact.now) }
{
    match &fact.shape {
        Shape::Call(f, ts) => match ts.as_slice() {
            [a] => {
                if is_same(a, t) {
                    by_recogniser(sign, recognised(f))
                } else {
                    masks::ALL
                }
            }
            [a, b] => by_pair(t, sign, f, a, b),
            _ => masks::ALL,
        },
        _ => masks::ALL,
    }
}

/// The types that a fact leaves of a term's.
fn leaves(t: &Term, fact: &Term, sign: bool) -> u16
    ensures { result ≡ leaves t.now fact.now sign }
{
    by_itself(t, fact, sign) & by_parts(t, sign, fact)
}

/// A mask of a term cut by the facts on it.
pub(crate) fn cut(facts: &[(Term, bool)], t: &Term, mask: u16) -> u16
    ensures { result ≡ cut facts.now t.now mask }
{
    let mut out = mask;
    for (fact, sign) in facts {
        out = out & leaves(t, fact, *sign);
    }
    out
}
