ghost use Rattle.std.specs.Prelude.{◌≡◌, ◌≤◌, drop};
ghost use Rattle.ap_reader.specs.Faults.{Gives, at_place};
ghost use Rattle.ap_reader.specs.Numbers.{integer_of, shape_of};
ghost use Rattle.ap_reader.specs.Leaves.{base_of, fitted, atom_of, leaf_of};

use crate::fault::{ReadError, ReadKind, fault_at};
use crate::form::Body;
use crate::name::symbol;
use crate::number::{Shape, integer, shape_at};
use crate::strings::{code, unquoted};
use std::alloc::Global;

/// A token that is a form alone.
#[derive(Clone, Copy)]
pub enum Leaf {
    Text,
    Character,
    Based,
    Atom,
}

/// The bytes from a place on; none where there are fewer.
fn after(text: &[u8], n: usize) -> &[u8]
    ensures { result.now ≡ drop n text.now }
{
    if n <= text.len() { &text[n..] } else { &[] }
}

fn base_at(text: &[u8]) -> u128
    ensures value { result ≡ base_of text.now }
    ensures some { 1 ≤ result }
{
    match text {
        [b'x', ..] => 16,
        [b'X', ..] => 16,
        [b'o', ..] => 8,
        [b'O', ..] => 8,
        _ => 2,
    }
}

fn number(place: usize, base: u128, text: &[u8]) -> Result<Body, ReadError>
    requires { 1 ≤ base }
    ensures { Gives (λ b. b) result (at_place place (fitted (integer_of base text.now))) }
{
    match integer(base, text) {
        Some(n) => Ok(Body::Int(n)),
        None => Err(fault_at(place, ReadKind::IntegerTooWide)),
    }
}

fn atom(alloc: Global, place: usize, text: &[u8]) -> Result<Body, ReadError>
    ensures { Gives (λ b. b) result (at_place place (atom_of (shape_of text.now) text.now)) }
{
    match shape_at(text) {
        Shape::Integer => number(place, 10, text),
        Shape::Fraction => Err(fault_at(place, ReadKind::NotInteger)),
        Shape::Dots => Err(fault_at(place, ReadKind::BadDot)),
        Shape::Name => Ok(Body::Sym(symbol(alloc, place, text)?)),
    }
}

/// What the bytes of a token are.
#[tactic(auto, unfolding(crate::specs::Leaves::leaf_of))]
pub(crate) fn body_of(
    alloc: Global,
    leaf: Leaf,
    place: usize,
    text: &[u8],
) -> Result<Body, ReadError>
    ensures { Gives (λ b. b) result (at_place place (leaf_of leaf text.now)) }
{
    match leaf {
        Leaf::Text => Ok(Body::Str(unquoted(alloc, after(text, 1))?)),
        Leaf::Character => Ok(Body::Chr(code(place, after(text, 2))?)),
        Leaf::Based => number(place, base_at(after(text, 1)), after(text, 2)),
        Leaf::Atom => atom(alloc, place, text),
    }
}
