ghost use Rattle.std.specs.Prelude.{◌≡◌, [], ◌∷◌, ◌++◌, Some, None, ◌↔◌, ◌⊎◌, true, false};
ghost use Rattle.std.specs.Fmt.{signed_decimal};
ghost use Rattle.ap_term.specs.Compared.{follow, EndsPart, Decided, IsWhole, IsStart, start_of, OpensApart, IsEnd, FirstIs};
ghost use Rattle.ap_term.specs.Starts.{value_opens, term_opens, integer_of, IsTail};
ghost use Rattle.ap_term.specs.Printed.{character_text, quoted, value_text, rest_text, term_text, is_nil, dotted_rest};
ghost use Rattle.ap_term.specs.Pieces.{piece_text};

use crate::piece::{Piece, compare_pieces, plain_piece, symbol_piece};
use crate::shape::Shape;
use crate::tree::Term;
use ap_value::{Symbol, Value};
use itoa::Buffer;
use std::cmp::Ordering;
use std::slice;

/// An integer, and 0 for another value.
fn integer(v: &Value) -> i128
    ensures { result ≡ integer_of v.now }
{
    match v {
        Value::Int(n) => *n,
        Value::Chr(_) | Value::Str(_) | Value::Sym(_) | Value::Cons(_, _) => 0,
    }
}

/// An integer in decimal.
fn digits(n: i128, buffer: &mut Buffer) -> &[u8]
    ensures text { result.now ≡ signed_decimal n }
    ensures whole { IsWhole (signed_decimal n) }
{
    buffer.format(n).as_bytes()
}

/// The bytes of a character and the byte after it.
#[tactic(auto, unfolding(crate::specs::Printed::character_text, crate::specs::Printed::character_name))]
fn character_piece(code: &u8, after: Option<u8>) -> Piece<'_>
    ensures { piece_text result ≡ character_text code.now ++ follow after [] }
{
    let name: &[u8] = match *code {
        32 => b"Space",
        10 => b"Newline",
        9 => b"Tab",
        12 => b"Page",
        127 => b"Rubout",
        _ => slice::from_ref(code),
    };
    Piece {
        lead: b"#\\",
        body: name,
        close: None,
        pending: false,
        after,
    }
}

/// The bytes of a string and the byte after it.
fn string_piece(codes: &[u8], after: Option<u8>) -> Piece<'_>
    ensures { piece_text result ≡ quoted 34 codes.now ++ follow after [] }
{
    Piece {
        lead: b"\"",
        body: codes,
        close: Some(b'"'),
        pending: false,
        after,
    }
}

/// The text of a value that is no cons, or the parenthesis that opens one, and the byte after it.
fn value_start<'a>(v: &'a Value, digits: &'a [u8], after: Option<u8>) -> Piece<'a>
    requires digits { digits.now ≡ signed_decimal (integer_of v.now) }
    requires whole { IsWhole digits.now }
    ensures text { piece_text result ≡ start_of (value_opens v.now) (value_text v.now) ++ follow after [] }
    ensures start { IsStart (value_opens v.now) (value_text v.now) }
{
    match v {
        Value::Int(_) => plain_piece(digits, after),
        Value::Chr(code) => character_piece(code, after),
        Value::Str(codes) => string_piece(codes.as_slice(), after),
        Value::Sym(symbol) => symbol_piece(symbol, after),
        Value::Cons(_, _) => plain_piece(b"(", after),
    }
}

/// How two values compare, each with the byte after it, where they aren't two conses.
pub fn compare_value_starts(a: &Value, x: Option<u8>, b: &Value, y: Option<u8>) -> Ordering
    requires left { EndsPart x }
    requires right { EndsPart y }
    requires apart { OpensApart (value_opens a.now) (value_opens b.now) }
    ensures { Decided result (value_text a.now) x (value_text b.now) y }
{
    let mut left = Buffer::new();
    let mut right = Buffer::new();
    let p = value_start(a, digits(integer(a), &mut left), x);
    let q = value_start(b, digits(integer(b), &mut right), y);
    compare_pieces(p, q)
}

/// How a value and the byte after it compare with a dot between spaces, which no value prints as.
pub fn compare_with_dot(v: &Value, end: u8) -> Ordering
    requires { IsEnd end }
    ensures order { Decided result (value_text v.now) (Some end) (46 ∷ []) (Some 32) }
    ensures apart { result ≡ Ordering.Equal → ⊥ }
{
    let mut buffer = Buffer::new();
    let p = value_start(v, digits(integer(v), &mut buffer), Some(end));
    compare_pieces(p, plain_piece(b".", Some(b' ')))
}

/// How a dot between spaces compares with a value and the byte after it.
pub fn compare_dot_with(v: &Value, end: u8) -> Ordering
    requires { IsEnd end }
    ensures order { Decided result (46 ∷ []) (Some 32) (value_text v.now) (Some end) }
    ensures apart { result ≡ Ordering.Equal → ⊥ }
{
    let mut buffer = Buffer::new();
    let q = value_start(v, digits(integer(v), &mut buffer), Some(end));
    compare_pieces(plain_piece(b".", Some(b' ')), q)
}

/// The name of a variable, or the byte that opens a constant or a call, and the byte after it.
#[tactic(auto, using(crate::proofs::Seen::trees))]
fn term_start(t: &Term, after: Option<u8>) -> Piece<'_>
    ensures text { piece_text result ≡ start_of (term_opens t.now) (term_text t.now) ++ follow after [] }
    ensures start { IsStart (term_opens t.now) (term_text t.now) }
{
    match &t.shape {
        Shape::Var(x) => symbol_piece(x, after),
        Shape::Quote(_) => plain_piece(b"'", after),
        Shape::Call(_, _) => plain_piece(b"(", after),
    }
}

/// How two terms compare, each with the byte after it, where they aren't two constants or two calls.
pub fn compare_term_starts(a: &Term, x: Option<u8>, b: &Term, y: Option<u8>) -> Ordering
    requires left { EndsPart x }
    requires right { EndsPart y }
    requires apart { OpensApart (term_opens a.now) (term_opens b.now) }
    ensures { Decided result (term_text a.now) x (term_text b.now) y }
{
    compare_pieces(term_start(a, x), term_start(b, y))
}

/// Whether a symbol is `nil`, which ends a list.
#[tactic(auto, unfolding(crate::specs::Printed::is_nil))]
fn is_nil(symbol: &Symbol) -> bool
    ensures { result ≡ is_nil symbol.now }
{
    !symbol.keyword && symbol.name.as_slice() == b"NIL".as_slice()
}

/// Whether a value that is no cons ends a list, and doesn't stand after a dot.
#[tactic(auto, unfolding(crate::specs::Printed::dotted_rest))]
pub fn ends_list(v: &Value) -> bool
    requires { value_opens v.now ≡ None }
    ensures { IsTail result (rest_text v.now) (value_text v.now) }
{
    match v {
        Value::Sym(symbol) => is_nil(symbol),
        Value::Int(_) | Value::Chr(_) | Value::Str(_) | Value::Cons(_, _) => false,
    }
}

/// The first byte of a value as the rest of a list.
#[tactic(auto, unfolding(crate::specs::Printed::dotted_rest))]
pub fn rest_byte(v: &Value) -> u8
    ensures end { IsEnd result }
    ensures first { FirstIs result (rest_text v.now) }
{
    match v {
        Value::Sym(symbol) if is_nil(symbol) => b')',
        Value::Sym(_) | Value::Int(_) | Value::Chr(_) | Value::Str(_) | Value::Cons(_, _) => b' ',
    }
}
