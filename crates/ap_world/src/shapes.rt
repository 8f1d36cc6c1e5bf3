ghost use Rattle.std.specs.Prelude.{◌≡◌, IfOk, [], ◌∷◌};
ghost use Rattle.ap_value.specs.Values.{acl2, symbol_eq};
ghost use Rattle.ap_world.specs.Names.{if_name, not_name, equal_name, cons_name, implies_name, iff_name};
ghost use Rattle.ap_world.specs.Shapes.{head_of, call_shape, shape_of};
ghost use Rattle.ap_world.specs.Lent.{seen, seen_head};

use ap_term::{Shape, Term};
use ap_value::{Symbol, Value, is_named};

/// What the head of a call is, of those that proofs and types look at.
#[derive(Clone, Copy, Debug)]
pub enum Head {
    If,
    Not,
    Equal,
    Cons,
    Other,
}

/// A term by what its head is, its parts lent.
#[derive(Clone, Copy)]
pub enum ShapeRef<'a> {
    Constant(&'a Value),
    If(&'a Term, &'a Term, &'a Term),
    Not(&'a Term),
    Equal(&'a Term, &'a Term),
    Cons(&'a Term, &'a Term),
    Other,
}

/// Whether a symbol is `if`. Takes no memory.
#[tactic(auto, unfolding(crate::specs::Names::if_name))]
pub fn is_if(symbol: &Symbol) -> bool
    ensures { result ≡ symbol_eq symbol.now if_name }
{
    is_named(symbol, b"IF")
}

/// Whether a symbol is `not`. Takes no memory.
#[tactic(auto, unfolding(crate::specs::Names::not_name))]
pub fn is_not(symbol: &Symbol) -> bool
    ensures { result ≡ symbol_eq symbol.now not_name }
{
    is_named(symbol, b"NOT")
}

/// Whether a symbol is `equal`. Takes no memory.
#[tactic(auto, unfolding(crate::specs::Names::equal_name))]
pub fn is_equal(symbol: &Symbol) -> bool
    ensures { result ≡ symbol_eq symbol.now equal_name }
{
    is_named(symbol, b"EQUAL")
}

/// Whether a symbol is `cons`. Takes no memory.
#[tactic(auto, unfolding(crate::specs::Names::cons_name))]
fn is_cons(symbol: &Symbol) -> bool
    ensures { result ≡ symbol_eq symbol.now cons_name }
{
    is_named(symbol, b"CONS")
}

/// Whether a symbol is `implies`. Takes no memory.
#[tactic(auto, unfolding(crate::specs::Names::implies_name))]
pub fn is_implies(symbol: &Symbol) -> bool
    ensures { result ≡ symbol_eq symbol.now implies_name }
{
    is_named(symbol, b"IMPLIES")
}

/// Whether a symbol is `iff`. Takes no memory.
#[tactic(auto, unfolding(crate::specs::Names::iff_name))]
pub fn is_iff(symbol: &Symbol) -> bool
    ensures { result ≡ symbol_eq symbol.now iff_name }
{
    is_named(symbol, b"IFF")
}

/// What a head is. Takes no memory.
#[tactic(auto, unfolding(crate::specs::Shapes::head_of))]
pub fn head_of(symbol: &Symbol) -> Head
    ensures { seen_head result ≡ head_of symbol.now }
{
    if is_if(symbol) {
        return Head::If;
    }
    if is_not(symbol) {
        return Head::Not;
    }
    if is_equal(symbol) {
        return Head::Equal;
    }
    if is_cons(symbol) {
        return Head::Cons;
    }
    Head::Other
}

/// A call of one argument.
#[tactic(auto, using(crate::proofs::Heads::one_negation, crate::proofs::Heads::one_other))]
fn of_one<'a>(f: &Symbol, a: &'a Term) -> ShapeRef<'a>
    ensures { seen result ≡ call_shape (head_of f.now) (a.now ∷ []) }
{
    if is_not(f) {
        ShapeRef::Not(a)
    } else {
        ShapeRef::Other
    }
}

/// A call of two arguments.
#[tactic(auto, using(crate::proofs::Heads::two_equation, crate::proofs::Heads::two_pair, crate::proofs::Heads::two_other))]
fn of_two<'a>(f: &Symbol, a: &'a Term, b: &'a Term) -> ShapeRef<'a>
    ensures { seen result ≡ call_shape (head_of f.now) (a.now ∷ b.now ∷ []) }
{
    if is_equal(f) {
        ShapeRef::Equal(a, b)
    } else if is_cons(f) {
        ShapeRef::Cons(a, b)
    } else {
        ShapeRef::Other
    }
}

/// A call of three arguments.
#[tactic(auto, using(crate::proofs::Heads::three_choice, crate::proofs::Heads::three_other))]
fn of_three<'a>(f: &Symbol, a: &'a Term, b: &'a Term, c: &'a Term) -> ShapeRef<'a>
    ensures { seen result ≡ call_shape (head_of f.now) (a.now ∷ b.now ∷ c.now ∷ []) }
{
    if is_if(f) {
        ShapeRef::If(a, b, c)
    } else {
        ShapeRef::Other
    }
}

/// A term by what its head is, its parts lent: only the heads that take so many arguments are looked for. Takes no
/// memory.
pub fn shape_of(t: &Term) -> ShapeRef<'_>
    ensures { seen result ≡ shape_of t.now }
{
    match &t.shape {
        Shape::Var(_) => ShapeRef::Other,
        Shape::Quote(v) => ShapeRef::Constant(v),
        Shape::Call(f, ts) => match ts.as_slice() {
            [a] => of_one(f, a),
            [a, b] => of_two(f, a, b),
            [a, b, c] => of_three(f, a, b, c),
            _ => ShapeRef::Other,
        },
    }
}
