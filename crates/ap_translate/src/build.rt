ghost use Rattle.std.specs.Prelude.{◌≡◌, ◌<◌, ◌∷◌, ◌++◌, [], IfOk, IfSome, length, true};
ghost use Rattle.ap_value.specs.Values.{acl2};
ghost use Rattle.ap_term.specs.declared.term.Term.TheVariants.{Call};
ghost use Rattle.ap_world.specs.Names.{not_name};
ghost use Rattle.ap_translate.specs.Kept.{kept_made, piece_size, few_pieces, as_piece, list_pieces, ArePieces, kept_pieced, quote_pieced, kept_quoted};
ghost use Rattle.ap_translate.specs.Macros.{fits};
ghost use Rattle.ap_translate.specs.Rows.{nil_term, t_term, integer_term, call_1, call_2, if_term, and_term, or_term, join_of, chained, joined, summed, built_few, built, turn_name, accessed, only, plus_literal, accessed_one, made, admits, piece_term, pieced};
ghost use Rattle.ap_translate.specs.Sizes.{more_by};

use crate::constant::{nil, quote_symbol};
use crate::macros::Macro;
use crate::names::acl2;
use crate::sizes::{more_nodes, small};
use ap_list::{Bytes, NoMemory, Seq};
use ap_term::{Term, copy_term};
use ap_value::{Symbol, Value};
use std::alloc::Global;

/// How a macro joins the term of an argument with that of those behind it.
#[derive(Clone, Copy)]
pub enum Join {
    And,
    Or,
    Plus,
    Times,
    Cons,
    Append,
}

/// The constant `nil`.
pub(crate) fn nil_term(alloc: Global) -> Result<Term, NoMemory>
    ensures { IfOk result (λ u. u ≡ nil_term) }
{
    Ok(Term::quote(nil(alloc)?))
}

/// The constant `t`.
#[tactic(auto, unfolding(ap_world::specs::Names::t_name))]
fn t_term(alloc: Global) -> Result<Term, NoMemory>
    ensures { IfOk result (λ u. u ≡ t_term) }
{
    Ok(Term::quote(Value::Sym(acl2(alloc, b"T")?)))
}

/// A call of the function of package `ACL2` with this name.
fn called(alloc: Global, name: &[u8], arguments: Seq<Term>) -> Result<Term, NoMemory>
    ensures { IfOk result (λ u. u ≡ Call (acl2 name.now) arguments) }
{
    let head = acl2(alloc, name)?;
    Term::call(alloc, head, arguments)
}

/// One term as a list.
fn one(alloc: Global, a: Term) -> Result<Seq<Term>, NoMemory>
    ensures { IfOk result (λ us. us ≡ a ∷ []) }
{
    let terms = vec![in alloc; a]?;
    Ok(Seq::from_vec(terms))
}

/// Two terms as a list.
fn two(alloc: Global, a: Term, b: Term) -> Result<Seq<Term>, NoMemory>
    ensures { IfOk result (λ us. us ≡ a ∷ b ∷ []) }
{
    let terms = vec![in alloc; a, b]?;
    Ok(Seq::from_vec(terms))
}

/// Three terms as a list.
fn three(alloc: Global, a: Term, b: Term, c: Term) -> Result<Seq<Term>, NoMemory>
    ensures { IfOk result (λ us. us ≡ a ∷ b ∷ c ∷ []) }
{
    let terms = vec![in alloc; a, b, c]?;
    Ok(Seq::from_vec(terms))
}

/// A call of one argument.
pub(crate) fn call_1(alloc: Global, name: &[u8], a: Term) -> Result<Term, NoMemory>
    ensures { IfOk result (λ u. u ≡ call_1 (acl2 name.now) a) }
{
    let arguments = one(alloc, a)?;
    called(alloc, name, arguments)
}

/// A call of two arguments.
pub(crate) fn call_2(alloc: Global, name: &[u8], a: Term, b: Term) -> Result<Term, NoMemory>
    ensures { IfOk result (λ u. u ≡ call_2 (acl2 name.now) a b) }
{
    let arguments = two(alloc, a, b)?;
    called(alloc, name, arguments)
}

/// `(if a b c)`
#[tactic(auto, unfolding(ap_world::specs::Names::if_name))]
pub(crate) fn if_term(alloc: Global, a: Term, b: Term, c: Term) -> Result<Term, NoMemory>
    ensures { IfOk result (λ u. u ≡ if_term a b c) }
{
    let arguments = three(alloc, a, b, c)?;
    called(alloc, b"IF", arguments)
}

/// `(if a b 'NIL)`
fn and_term(alloc: Global, a: Term, b: Term) -> Result<Term, NoMemory>
    ensures { IfOk result (λ u. u ≡ and_term a b) }
{
    let end = nil_term(alloc)?;
    if_term(alloc, a, b, end)
}

/// `(if a a b)`
pub(crate) fn or_term(alloc: Global, a: Term, b: Term) -> Result<Term, NoMemory>
    ensures { IfOk result (λ u. u ≡ or_term a b) }
{
    let same = copy_term(alloc, &a)?;
    if_term(alloc, a, same, b)
}

/// One term before those behind it.
#[tactic(auto, unfolding(ap_world::specs::Names::plus_name, ap_world::specs::Names::times_name, ap_world::specs::Names::cons_name, ap_world::specs::Names::append_name))]
fn join_term(alloc: Global, join: Join, a: Term, b: Term) -> Result<Term, NoMemory>
    ensures { IfOk result (λ u. u ≡ join_of join a b) }
{
    match join {
        Join::And => and_term(alloc, a, b),
        Join::Or => or_term(alloc, a, b),
        Join::Plus => call_2(alloc, b"BINARY-+", a, b),
        Join::Times => call_2(alloc, b"BINARY-*", a, b),
        Join::Cons => call_2(alloc, b"CONS", a, b),
        Join::Append => call_2(alloc, b"BINARY-APPEND", a, b),
    }
}

/// The terms in front of a last one.
#[tactic(auto, using(crate::proofs::Chains::chained_last))]
fn chained(alloc: Global, join: Join, terms: Seq<Term>, last: Term) -> Result<Term, NoMemory>
    ensures { IfOk result (λ u. u ≡ chained (join_of join) terms last) }
{
    let mut left = terms;
    let mut chain = last;
    while let Some(term) = left.pop() {
        chain = join_term(alloc, join, term, chain)?;
    }
    Ok(chain)
}

/// The terms joined, or `empty` where there is none.
#[tactic(auto, using(crate::proofs::Chains::joined_last))]
fn joined(alloc: Global, join: Join, terms: Seq<Term>, empty: Term) -> Result<Term, NoMemory>
    ensures { IfOk result (λ u. u ≡ joined (join_of join) empty terms) }
{
    let mut left = terms;
    match left.pop() {
        None => Ok(empty),
        Some(last) => chained(alloc, join, left, last),
    }
}

/// A sum or a product: one term alone stands behind the unit.
#[tactic(auto, using(crate::proofs::Chains::summed_last))]
fn summed(alloc: Global, join: Join, terms: Seq<Term>, unit: i128) -> Result<Term, NoMemory>
    ensures { IfOk result (λ u. u ≡ summed (join_of join) (integer_term unit) terms) }
{
    let unit = Term::quote(Value::Int(unit));
    let mut left = terms;
    match left.pop() {
        None => Ok(unit),
        Some(last) => {
            if left.is_empty() {
                join_term(alloc, join, unit, last)
            } else {
                chained(alloc, join, left, last)
            }
        }
    }
}

/// `(not (f a b))`
#[tactic(auto, unfolding(ap_world::specs::Names::not_name))]
fn not_2(alloc: Global, name: &[u8], a: Term, b: Term) -> Result<Term, NoMemory>
    ensures { IfOk result (λ u. u ≡ call_1 not_name (call_2 (acl2 name.now) a b)) }
{
    let inner = call_2(alloc, name, a, b)?;
    call_1(alloc, b"NOT", inner)
}

/// What a macro's one argument makes.
#[tactic(auto, unfolding(ap_world::specs::Names::minus_name, ap_world::specs::Names::plus_name))]
fn from_one(alloc: Global, found: Macro, a: Term) -> Result<Term, NoMemory>
    ensures { IfOk result (λ u. u ≡ built_few found (a ∷ [])) }
{
    match found {
        Macro::Minus => call_1(alloc, b"UNARY--", a),
        Macro::Increment => call_2(alloc, b"BINARY-+", Term::quote(Value::Int(1)), a),
        Macro::Decrement => call_2(alloc, b"BINARY-+", Term::quote(Value::Int(-1)), a),
        _ => nil_term(alloc),
    }
}

/// What a macro's two arguments make.
#[tactic(auto, unfolding(ap_world::specs::Names::minus_name, ap_world::specs::Names::plus_name, ap_world::specs::Names::less_name, ap_world::specs::Names::equal_name))]
fn from_two(alloc: Global, found: Macro, a: Term, b: Term) -> Result<Term, NoMemory>
    ensures { IfOk result (λ u. u ≡ built_few found (a ∷ b ∷ [])) }
{
    match found {
        Macro::Minus => {
            let b = call_1(alloc, b"UNARY--", b)?;
            call_2(alloc, b"BINARY-+", a, b)
        }
        Macro::Greater => call_2(alloc, b"<", b, a),
        Macro::AtMost => not_2(alloc, b"<", b, a),
        Macro::AtLeast => not_2(alloc, b"<", a, b),
        Macro::Differs => not_2(alloc, b"EQUAL", a, b),
        _ => nil_term(alloc),
    }
}

/// What a macro's one or two arguments make.
fn from_few(alloc: Global, found: Macro, terms: Seq<Term>) -> Result<Term, NoMemory>
    requires { length terms < 3 }
    ensures { IfOk result (λ u. u ≡ built_few found terms) }
{
    let mut left = terms;
    let Some(last) = left.pop() else {
        return nil_term(alloc);
    };
    match left.pop() {
        None => from_one(alloc, found, last),
        Some(first) => from_two(alloc, found, first, last),
    }
}

/// What a macro's arguments make, where it takes so many.
fn built(alloc: Global, found: Macro, terms: Seq<Term>) -> Result<Term, NoMemory>
    requires { fits found (length terms) ≡ true }
    ensures { IfOk result (λ u. u ≡ built found terms) }
{
    match found {
        Macro::And => {
            let empty = t_term(alloc)?;
            joined(alloc, Join::And, terms, empty)
        }
        Macro::Or => {
            let empty = nil_term(alloc)?;
            joined(alloc, Join::Or, terms, empty)
        }
        Macro::Plus => summed(alloc, Join::Plus, terms, 0),
        Macro::Times => summed(alloc, Join::Times, terms, 1),
        Macro::List => {
            let end = nil_term(alloc)?;
            chained(alloc, Join::Cons, terms, end)
        }
        Macro::ListStar => {
            let empty = nil_term(alloc)?;
            joined(alloc, Join::Cons, terms, empty)
        }
        Macro::Append => {
            let empty = nil_term(alloc)?;
            joined(alloc, Join::Append, terms, empty)
        }
        _ => from_few(alloc, found, terms),
    }
}

/// The `car` or `cdr` of a term.
#[tactic(auto, unfolding(ap_world::specs::Names::car_name, ap_world::specs::Names::cdr_name))]
fn turned(alloc: Global, turn: u8, term: Term) -> Result<Term, NoMemory>
    ensures { IfOk result (λ u. u ≡ call_1 (turn_name turn) term) }
{
    if turn == b'A' {
        call_1(alloc, b"CAR", term)
    } else {
        call_1(alloc, b"CDR", term)
    }
}

/// The nested `car`s and `cdr`s of a term.
fn nested(alloc: Global, path: &[u8], term: Term) -> Result<Term, NoMemory>
    ensures { IfOk result (λ u. u ≡ accessed path.now term) }
{
    match path {
        [] => Ok(term),
        [turn, rest @ ..] => {
            let inner = nested(alloc, rest, term)?;
            turned(alloc, *turn, inner)
        }
    }
}

/// What is made of one term alone; there is no other.
fn only(terms: Seq<Term>) -> Option<Term>
    ensures { result ≡ only terms }
{
    let mut left = terms;
    let last = left.pop()?;
    if left.is_empty() { Some(last) } else { None }
}

/// The nested `car`s and `cdr`s of one term.
fn accessed_one(alloc: Global, path: &[u8], terms: Seq<Term>) -> Result<Term, NoMemory>
    ensures { IfOk result (λ u. u ≡ accessed_one path.now terms) }
{
    match only(terms) {
        Some(term) => nested(alloc, path, term),
        None => nil_term(alloc),
    }
}

/// The sum of an integer and one term.
#[tactic(auto, unfolding(ap_world::specs::Names::plus_name))]
fn plus_literal(alloc: Global, n: i128, terms: Seq<Term>) -> Result<Term, NoMemory>
    ensures { IfOk result (λ u. u ≡ plus_literal n terms) }
{
    match only(terms) {
        Some(term) => call_2(alloc, b"BINARY-+", Term::quote(Value::Int(n)), term),
        None => nil_term(alloc),
    }
}

/// How a term is made of the terms of forms.
#[derive(Drop)]
pub enum Maker {
    /// By a macro whose arguments are terms.
    Macro(Macro),
    /// As the sum of an integer and one term.
    Literal(i128),
    /// As nested `car`s and `cdr`s of one term, by their `A`s and `D`s.
    Path(Bytes),
    /// As a call.
    Call(Symbol),
}

/// What is made of terms.
fn from_terms(alloc: Global, maker: Maker, terms: Seq<Term>) -> Result<Term, NoMemory>
    requires { admits maker (length terms) ≡ true }
    ensures { IfOk result (λ u. u ≡ made maker terms) }
{
    match maker {
        Maker::Macro(found) => built(alloc, found, terms),
        Maker::Literal(n) => plus_literal(alloc, n, terms),
        Maker::Path(path) => accessed_one(alloc, path.as_slice(), terms),
        Maker::Call(head) => Term::call(alloc, head, terms),
    }
}

/// What is made of terms, where it has at most 4,096 nodes.
pub(crate) fn made_of(
    alloc: Global,
    maker: Maker,
    terms: Option<Seq<Term>>,
) -> Result<Option<Term>, NoMemory>
    requires { IfSome terms (λ us. admits maker (length us) ≡ true) }
    ensures { IfOk result (λ o. o ≡ kept_made maker terms) }
{
    match terms {
        None => Ok(None),
        Some(terms) => {
            let term = from_terms(alloc, maker, terms)?;
            Ok(small(term))
        }
    }
}

/// A part of a backquoted list: one element, or a list that is spliced in.
#[derive(Drop)]
pub struct Piece {
    pub spliced: bool,
    pub term: Term,
}

/// One part of a backquoted list before those behind it.
#[tactic(auto, unfolding(ap_world::specs::Names::append_name, ap_world::specs::Names::cons_name))]
fn join_piece(alloc: Global, piece: Piece, rest: Term) -> Result<Term, NoMemory>
    ensures { IfOk result (λ u. u ≡ piece_term piece rest) }
{
    if piece.spliced {
        call_2(alloc, b"BINARY-APPEND", piece.term, rest)
    } else {
        call_2(alloc, b"CONS", piece.term, rest)
    }
}

/// The list of the parts.
#[tactic(auto, using(crate::proofs::Chains::pieces_last))]
pub(crate) fn pieced(alloc: Global, pieces: Seq<Piece>) -> Result<Term, NoMemory>
    ensures { IfOk result (λ u. u ≡ pieced pieces) }
{
    let mut left = pieces;
    let mut chain = nil_term(alloc)?;
    while let Some(piece) = left.pop() {
        chain = join_piece(alloc, piece, chain)?;
    }
    Ok(chain)
}

/// The list of the parts, where it has at most 4,096 nodes.
pub(crate) fn pieced_of(alloc: Global, pieces: Option<Seq<Piece>>) -> Result<Option<Term>, NoMemory>
    ensures { IfOk result (λ o. o ≡ kept_pieced pieces) }
{
    match pieces {
        None => Ok(None),
        Some(pieces) => {
            let term = pieced(alloc, pieces)?;
            Ok(small(term))
        }
    }
}

/// The list `(QUOTE X)` of one part.
#[tactic(auto, unfolding(ap_world::specs::Names::cons_name))]
fn quote_pieced(alloc: Global, piece: Piece) -> Result<Term, NoMemory>
    ensures { IfOk result (λ u. u ≡ quote_pieced piece) }
{
    let mut pieces = Seq::new(alloc);
    pieces.push(piece)?;
    let rest = pieced(alloc, pieces)?;
    let head = Term::quote(quote_symbol(alloc)?);
    call_2(alloc, b"CONS", head, rest)
}

/// The list `(QUOTE X)` of one part, where it has at most 4,096 nodes.
pub(crate) fn quoted_of(alloc: Global, piece: Option<Piece>) -> Result<Option<Term>, NoMemory>
    ensures { IfOk result (λ o. o ≡ kept_quoted piece) }
{
    match piece {
        None => Ok(None),
        Some(piece) => {
            let term = quote_pieced(alloc, piece)?;
            Ok(small(term))
        }
    }
}

/// A term as a part of a backquoted list.
pub(crate) fn as_piece(spliced: bool, term: Option<Term>) -> Option<Piece>
    ensures { result ≡ as_piece spliced term }
{
    match term {
        Some(term) => Some(Piece { spliced, term }),
        None => None,
    }
}

/// The parts of a backquoted list, and the number of their nodes.
#[derive(Drop)]
pub(crate) struct Pieces {
    pub(crate) pieces: Seq<Piece>,
    pub(crate) nodes: u64,
}

/// No parts.
pub(crate) fn no_pieces(alloc: Global) -> Pieces
    ensures none { result.pieces ≡ [] }
    ensures counted { ArePieces result }
{
    Pieces {
        pieces: Seq::new(alloc),
        nodes: 0,
    }
}

/// One part more, where they have at most 4,096 nodes together.
pub(crate) fn add_piece(
    all: Option<Pieces>,
    next: Option<Piece>,
) -> Result<Option<Pieces>, NoMemory>
    requires { IfSome all ArePieces }
    ensures value { IfOk result (λ o. list_pieces o ≡ more_by piece_size (list_pieces all) next) }
    ensures counted { IfOk result (λ o. IfSome o ArePieces) }
{
    let (Some(all), Some(next)) = (all, next) else {
        return Ok(None);
    };
    push_piece(all, next)
}

/// One part more, where they have at most 4,096 nodes together.
fn push_piece(all: Pieces, next: Piece) -> Result<Option<Pieces>, NoMemory>
    requires { ArePieces all }
    ensures value { IfOk result (λ o. list_pieces o ≡ few_pieces (all.pieces ++ next ∷ [])) }
    ensures counted { IfOk result (λ o. IfSome o ArePieces) }
{
    let Pieces { mut pieces, nodes } = all;
    match more_nodes(nodes, &next.term) {
        None => Ok(None),
        Some(nodes) => {
            pieces.push(next)?;
            Ok(Some(Pieces { pieces, nodes }))
        }
    }
}

/// The parts alone.
pub(crate) fn pieces_of(all: Option<Pieces>) -> Option<Seq<Piece>>
    ensures { result ≡ list_pieces all }
{
    match all {
        Some(all) => Some(all.pieces),
        None => None,
    }
}
