ghost use Rattle.std.specs.Prelude.{◌≡◌, ℕ, Option, [], ◌∷◌, ◌++◌, Some, None, map, IsTrue};
ghost use Rattle.ap_term.specs.Compared.{EndsPart, Decided, IsEnd, FirstIs};
ghost use Rattle.ap_term.specs.Starts.{value_opens, arguments_text};
ghost use Rattle.ap_term.specs.Printed.{value_text, rest_text, term_text};

use crate::piece::{compare_pieces, compare_symbols, plain_piece, same_end};
use crate::shape::Shape;
use crate::starts::{
    compare_dot_with, compare_term_starts, compare_value_starts, compare_with_dot, ends_list,
    rest_byte,
};
use crate::terms::same_term;
use crate::tree::Term;
use ap_value::Value;
use std::cmp::Ordering;

/// How two closing parentheses compare, each with the byte after it.
fn compare_closed(x: Option<u8>, y: Option<u8>) -> Ordering
    ensures { Decided result (41 ∷ []) x (41 ∷ []) y }
{
    compare_pieces(plain_piece(b")", x), plain_piece(b")", y))
}

/// How the rest of a list that goes on compares with one that doesn't.
fn compare_with_tail(first: &Value, rest: &Value, tail: &Value) -> Ordering
    requires { value_opens tail.now ≡ None }
    ensures { (x y : Option ℕ) → Decided result (32 ∷ (value_text first.now ++ rest_text rest.now)) x (rest_text tail.now) y }
{
    if ends_list(tail) {
        Ordering::Less
    } else {
        compare_with_dot(first, rest_byte(rest))
    }
}

/// How the rest of a list that doesn't go on compares with one that does.
fn compare_tail_with(tail: &Value, first: &Value, rest: &Value) -> Ordering
    requires { value_opens tail.now ≡ None }
    ensures { (x y : Option ℕ) → Decided result (rest_text tail.now) x (32 ∷ (value_text first.now ++ rest_text rest.now)) y }
{
    if ends_list(tail) {
        Ordering::Greater
    } else {
        compare_dot_with(first, rest_byte(rest))
    }
}

/// How the rests of two lists compare that don't go on.
fn compare_tails(a: &Value, x: Option<u8>, b: &Value, y: Option<u8>) -> Ordering
    requires left { value_opens a.now ≡ None }
    requires right { value_opens b.now ≡ None }
    ensures { Decided result (rest_text a.now) x (rest_text b.now) y }
{
    match (ends_list(a), ends_list(b)) {
        (true, true) => compare_closed(x, y),
        (true, false) => Ordering::Greater,
        (false, true) => Ordering::Less,
        (false, false) => match compare_value_starts(a, Some(b')'), b, Some(b')')) {
            Ordering::Equal => compare_closed(x, y),
            order => order,
        },
    }
}

/// How two values compare by their printed bytes, each with the byte after it.
#[cycle(values)]
fn compare_value(a: &Value, x: Option<u8>, b: &Value, y: Option<u8>) -> Ordering
    requires left { EndsPart x }
    requires right { EndsPart y }
    ensures { Decided result (value_text a.now) x (value_text b.now) y }
{
    match (a, b) {
        (Value::Cons(p, ps), Value::Cons(q, qs)) => {
            let (p, ps, q, qs) = (p.get(), ps.get(), q.get(), qs.get());
            let left = rest_byte(ps);
            let right = rest_byte(qs);
            match compare_value(p, Some(left), q, Some(right)) {
                Ordering::Equal => compare_rest(ps, x, qs, y),
                order => order,
            }
        }
        _ => compare_value_starts(a, x, b, y),
    }
}

/// How two values compare as the rests of lists, each with the byte after it.
#[cycle(values)]
fn compare_rest(a: &Value, x: Option<u8>, b: &Value, y: Option<u8>) -> Ordering
    ensures { Decided result (rest_text a.now) x (rest_text b.now) y }
{
    match (a, b) {
        (Value::Cons(p, ps), Value::Cons(q, qs)) => {
            let (p, ps, q, qs) = (p.get(), ps.get(), q.get(), qs.get());
            let left = rest_byte(ps);
            let right = rest_byte(qs);
            match compare_value(p, Some(left), q, Some(right)) {
                Ordering::Equal => compare_rest(ps, x, qs, y),
                order => order,
            }
        }
        (Value::Cons(p, ps), _) => compare_with_tail(p.get(), ps.get(), b),
        (_, Value::Cons(q, qs)) => compare_tail_with(a, q.get(), qs.get()),
        _ => compare_tails(a, x, b, y),
    }
}

/// Whether two terms are one, and so are the bytes after them: then they compare as equal without being printed.
fn are_same(a: &Term, x: Option<u8>, b: &Term, y: Option<u8>) -> bool
    ensures { IsTrue result → Decided Ordering.Equal (term_text a.now) x (term_text b.now) y }
{
    same_end(x, y) && same_term(a, b)
}

/// The byte after a head or an argument that these arguments follow.
fn arguments_byte(xs: &[Term]) -> u8
    ensures end { IsEnd result }
    ensures first { FirstIs result (arguments_text (map term_text xs.now)) }
{
    match xs {
        [] => b')',
        [_, ..] => b' ',
    }
}

/// How two terms compare by their printed bytes, each with the byte after it.
#[cycle(terms)]
#[tactic(auto, using(crate::proofs::Seen::trees))]
pub fn compare_term(a: &Term, x: Option<u8>, b: &Term, y: Option<u8>) -> Ordering
    requires left { EndsPart x }
    requires right { EndsPart y }
    ensures { Decided result (term_text a.now) x (term_text b.now) y }
{
    if are_same(a, x, b, y) {
        return Ordering::Equal;
    }
    match (&a.shape, &b.shape) {
        (Shape::Quote(v), Shape::Quote(w)) => compare_value(v, x, w, y),
        (Shape::Call(f, xs), Shape::Call(g, ys)) => {
            let (xs, ys) = (xs.as_slice(), ys.as_slice());
            let left = arguments_byte(xs);
            let right = arguments_byte(ys);
            match compare_symbols(f, Some(left), g, Some(right)) {
                Ordering::Equal => compare_arguments(xs, x, ys, y),
                order => order,
            }
        }
        _ => compare_term_starts(a, x, b, y),
    }
}

/// How the arguments of two calls compare, with the parenthesis and the byte after them.
#[cycle(terms)]
#[tactic(auto, using(crate::proofs::Seen::trees))]
fn compare_arguments(xs: &[Term], x: Option<u8>, ys: &[Term], y: Option<u8>) -> Ordering
    ensures { Decided result (arguments_text (map term_text xs.now)) x (arguments_text (map term_text ys.now)) y }
{
    for i in 0..xs.len().min(ys.len()) {
        let left = arguments_byte(&xs[i + 1..]);
        let right = arguments_byte(&ys[i + 1..]);
        let order = compare_term(&xs[i], Some(left), &ys[i], Some(right));
        if order.is_ne() {
            return order;
        }
    }
    match ys.len().cmp(&xs.len()) {
        Ordering::Equal => compare_closed(x, y),
        order => order,
    }
}
