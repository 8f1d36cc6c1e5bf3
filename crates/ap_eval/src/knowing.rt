// The condition of the evaluator, as a test.
ghost use Rattle.std.specs.Prelude.{◌≡◌, map};
ghost use Rattle.ap_list.specs.Lists.{all_true};
ghost use Rattle.ap_world.specs.Primitives.{prim_of, prim_arity};
ghost use Rattle.ap_world.specs.Sound.{takes, is_head, known};
ghost use Rattle.ap_world.specs.World.{function_of};

use ap_term::{Shape, Term};
use ap_value::Symbol;
use ap_world::{Primitive, World, primitive_of};

/// The number of arguments of a primitive.
fn arity(p: Primitive) -> usize
    ensures { result ≡ prim_arity p }
{
    match p {
        Primitive::If => 3,
        Primitive::Equal | Primitive::Cons | Primitive::Plus | Primitive::Times => 2,
        Primitive::Less | Primitive::Coerce => 2,
        Primitive::Consp | Primitive::Integerp | Primitive::Symbolp => 1,
        Primitive::Stringp | Primitive::Characterp | Primitive::Car | Primitive::Cdr => 1,
        Primitive::Minus | Primitive::CharCode | Primitive::CodeChar => 1,
        Primitive::SymbolName => 1,
    }
}

/// Whether a function of the world takes so many arguments.
fn is_taken(w: &World, f: &Symbol, count: usize) -> bool
    ensures { result ≡ takes (function_of w.now.entries f.now) count }
{
    match w.lookup_fun(f) {
        Some(function) => function.formals.len() == count,
        None => false,
    }
}

/// Whether a name is that of a primitive or a function with so many arguments.
fn is_callable(w: &World, f: &Symbol, count: usize) -> bool
    ensures { result ≡ is_head (function_of w.now.entries) f.now (prim_of f.now) count }
{
    match primitive_of(f) {
        Some(p) => arity(p) == count,
        None => is_taken(w, f, count),
    }
}

/// Whether each call in a term is of a primitive or a function of the world, with its number of
/// arguments. Takes no memory.
#[cycle(knowing)]
#[tactic(auto, using(ap_term::proofs::Seen::trees))]
pub fn is_known(w: &World, t: &Term) -> bool
    ensures { result ≡ known (function_of w.now.entries) t.now }
{
    match &t.shape {
        Shape::Var(_) | Shape::Quote(_) => true,
        Shape::Call(f, terms) => is_callable(w, f, terms.len()) && are_known(w, terms.as_slice()),
    }
}

#[cycle(knowing)]
fn are_known(w: &World, terms: &[Term]) -> bool
    ensures { result ≡ all_true (map (known (function_of w.now.entries)) terms.now) }
{
    for term in terms {
        if !is_known(w, term) {
            return false;
        }
    }
    true
}
