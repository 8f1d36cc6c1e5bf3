ghost use Rattle.std.specs.Prelude.{◌≡◌};
ghost use Rattle.ap_world.specs.Shapes.{shape_of};
ghost use Rattle.ap_world.specs.Kinds.{bit, union_from, union};
ghost use Rattle.ap_world.specs.Rows.{tested, test_types, plus_row, times_row, minus_row, less_row, is_single, equal_row, cons_row, car_row, cdr_row, char_code_row, row_one, row_two, over_one, over_two, coerce_by, coerce_types};

use crate::constants::is_list_name;
use crate::kinds::{bit, kinds, meets, sign_bit, sign_of, without};
use ap_term::{Shape, Term};
use ap_value::{Symbol, is_named};
use ap_world::{Kind, Primitive, Sign, masks, recognised};

/// The types for which a call of this name gives `t`, where it tests types.
#[tactic(auto, unfolding(ap_world::specs::Names::not_name))]
pub(crate) fn tested(name: &Symbol) -> Option<u16>
    ensures { result ≡ tested name.now }
{
    if is_named(name, b"NOT") {
        return Some(masks::NIL);
    }
    recognised(name)
}

/// `t` where the mask has a type that is tested for, `nil` where it has another.
pub(crate) fn test_types(types: u16, mask: u16) -> u16
    ensures { result ≡ test_types types mask }
{
    let yes = if meets(mask, types) { masks::T } else { 0 };
    let no = if meets(mask, without(types)) {
        masks::NIL
    } else {
        0
    };
    yes | no
}

/// `(binary-+ x y)`, by signs.
fn plus_row(a: Sign, b: Sign) -> u16
    ensures { result ≡ plus_row a b }
{
    match (a, b) {
        (Sign::Zero, s) | (s, Sign::Zero) => sign_bit(s),
        (Sign::Positive, Sign::Positive) => masks::POSITIVE,
        (Sign::Negative, Sign::Negative) => masks::NEGATIVE,
        _ => masks::INTEGERS,
    }
}

/// `(binary-* x y)`, by signs.
fn times_row(a: Sign, b: Sign) -> u16
    ensures { result ≡ times_row a b }
{
    match (a, b) {
        (Sign::Zero, _) | (_, Sign::Zero) => masks::ZERO,
        (Sign::Positive, s) | (s, Sign::Positive) => sign_bit(s),
        (Sign::Negative, Sign::Negative) => masks::POSITIVE,
    }
}

/// `(unary-- x)`, by the sign.
fn minus_row(a: Sign) -> u16
    ensures { result ≡ minus_row a }
{
    match a {
        Sign::Zero => masks::ZERO,
        Sign::Positive => masks::NEGATIVE,
        Sign::Negative => masks::POSITIVE,
    }
}

/// `(< x y)`, by signs.
fn less_row(a: Sign, b: Sign) -> u16
    ensures { result ≡ less_row a b }
{
    match (a, b) {
        (Sign::Negative, Sign::Negative) | (Sign::Positive, Sign::Positive) => masks::NIL
            | masks::T,
        (Sign::Negative, _) | (Sign::Zero, Sign::Positive) => masks::T,
        (Sign::Zero, _) | (Sign::Positive, _) => masks::NIL,
    }
}

/// Whether a type has one value alone: zero, `nil`, `t`.
pub(crate) fn is_single(kind: Kind) -> bool
    ensures { result ≡ is_single kind }
{
    meets(bit(kind), masks::ZERO + masks::TRUTHS)
}

/// `(equal x y)`.
fn equal_row(a: Kind, b: Kind) -> u16
    ensures { result ≡ equal_row a b }
{
    if !meets(bit(a), bit(b)) {
        return masks::NIL;
    }
    if is_single(a) {
        masks::T
    } else {
        masks::NIL | masks::T
    }
}

/// `(cons x y)`, by the type of y.
fn cons_row(kind: Kind) -> u16
    ensures { result ≡ cons_row kind }
{
    match kind {
        Kind::Nil | Kind::Proper => masks::PROPER,
        _ => masks::IMPROPER,
    }
}

/// `(car x)`.
fn car_row(kind: Kind) -> u16
    ensures { result ≡ car_row kind }
{
    match kind {
        Kind::Proper | Kind::Improper => masks::ALL,
        _ => masks::NIL,
    }
}

/// `(cdr x)`.
fn cdr_row(kind: Kind) -> u16
    ensures { result ≡ cdr_row kind }
{
    match kind {
        Kind::Proper => masks::TRUE_LISTS,
        Kind::Improper => without(masks::TRUE_LISTS),
        _ => masks::NIL,
    }
}

/// `(char-code x)`.
fn char_code_row(kind: Kind) -> u16
    ensures { result ≡ char_code_row kind }
{
    match kind {
        Kind::Character => masks::NATURALS,
        _ => masks::ZERO,
    }
}

/// A primitive of one argument of this type.
fn row_one(p: Primitive, kind: Kind) -> u16
    ensures { result ≡ row_one p kind }
{
    match p {
        Primitive::Car => car_row(kind),
        Primitive::Cdr => cdr_row(kind),
        Primitive::Minus => minus_row(sign_of(kind)),
        Primitive::CharCode => char_code_row(kind),
        Primitive::CodeChar => masks::CHARACTERS,
        Primitive::SymbolName => masks::STRINGS,
        _ => masks::ALL,
    }
}

/// A primitive of two arguments of these types.
fn row_two(p: Primitive, a: Kind, b: Kind) -> u16
    ensures { result ≡ row_two p a b }
{
    match p {
        Primitive::Equal => equal_row(a, b),
        Primitive::Less => less_row(sign_of(a), sign_of(b)),
        Primitive::Plus => plus_row(sign_of(a), sign_of(b)),
        Primitive::Times => times_row(sign_of(a), sign_of(b)),
        Primitive::Cons => cons_row(b),
        _ => masks::ALL,
    }
}

/// The union over the types of a mask, from these types on.
fn one_from(p: Primitive, kinds: &[Kind], mask: u16) -> u16
    ensures { result ≡ union_from (row_one p) kinds.now mask 0 }
{
    let mut out = 0;
    for kind in kinds {
        let row = if meets(mask, bit(*kind)) {
            row_one(p, *kind)
        } else {
            0
        };
        out = out | row;
    }
    out
}

/// A primitive of one argument with this mask.
pub(crate) fn over_one(p: Primitive, mask: u16) -> u16
    ensures { result ≡ over_one p mask }
{
    one_from(p, &kinds(), mask)
}

/// The union over the types of the second argument's mask, from these types on.
fn second_from(p: Primitive, first: Kind, kinds: &[Kind], mask: u16) -> u16
    ensures { result ≡ union_from (row_two p first) kinds.now mask 0 }
{
    let mut out = 0;
    for kind in kinds {
        let row = if meets(mask, bit(*kind)) {
            row_two(p, first, *kind)
        } else {
            0
        };
        out = out | row;
    }
    out
}

/// A primitive of two arguments, the first of this type, the second with this mask.
fn over_second(p: Primitive, first: Kind, mask: u16) -> u16
    ensures { result ≡ union (row_two p first) mask }
{
    second_from(p, first, &kinds(), mask)
}

/// The union over the types of both masks, from these types of the first on.
fn both_from(p: Primitive, kinds: &[Kind], a: u16, b: u16) -> u16
    ensures { result ≡ union_from (λ j. union (row_two p j) b) kinds.now a 0 }
{
    let mut out = 0;
    for kind in kinds {
        let row = if meets(a, bit(*kind)) {
            over_second(p, *kind, b)
        } else {
            0
        };
        out = out | row;
    }
    out
}

/// A primitive of two arguments with these masks.
pub(crate) fn over_two(p: Primitive, a: u16, b: u16) -> u16
    ensures { result ≡ over_two p a b }
{
    both_from(p, &kinds(), a, b)
}

/// `(coerce x y)`, by y.
#[tactic(auto, using(ap_term::proofs::Seen::trees))]
fn coerce_by(t: &Term) -> u16
    ensures { result ≡ coerce_by (shape_of t.now) }
{
    match &t.shape {
        Shape::Quote(v) => {
            if is_list_name(v) {
                masks::TRUE_LISTS
            } else {
                masks::STRINGS
            }
        }
        _ => masks::TRUE_LISTS + masks::STRINGS,
    }
}

/// `coerce` by its arguments.
pub(crate) fn coerce_types(arguments: &[Term]) -> u16
    ensures { result ≡ coerce_types arguments.now }
{
    match arguments {
        [_, kind] => coerce_by(kind),
        _ => masks::ALL,
    }
}
