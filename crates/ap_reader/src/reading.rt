ghost use Rattle.std.specs.Prelude.{◌≡◌, ◌<◌, ◌≤◌, false, length, IfOk, IfSome};
ghost use Rattle.ap_tokens.specs.Gaps.{at};
ghost use Rattle.ap_tokens.specs.Tokens.{seen, next_of};
ghost use Rattle.ap_reader.specs.Faults.{Gives};
ghost use Rattle.ap_reader.specs.Heads.{head_of, item_of, is_close, under, token_in};
ghost use Rattle.ap_reader.specs.Reading.{closing_of, after_token, marked_by, list_by, lists, body_by, reader_of, form_of, tail_of, items_of, token_at, forms_from};

use crate::fault::{ReadError, ReadKind, broken_at, fault_at};
use crate::form::{Body, Form};
use crate::leaf::{Leaf, body_of};
use ap_tokens::{Kind, Token, Tokens, over};
use ap_value::{Boxed, NoMemory, Seq};
use std::alloc::Global;

/// A mark before a form.
#[derive(Clone, Copy)]
pub enum Mark {
    Quote,
    Backquote,
    Comma,
    CommaAt,
}

/// What a token begins.
#[derive(Clone, Copy)]
pub enum Head {
    Leaf(Leaf),
    Under(Mark),
    Open,
    Close,
    Dot,
}

fn head_at(kind: Kind) -> Head
    ensures { result ≡ head_of kind }
{
    match kind {
        Kind::LeftParen => Head::Open,
        Kind::RightParen => Head::Close,
        Kind::Quote => Head::Under(Mark::Quote),
        Kind::Backquote => Head::Under(Mark::Backquote),
        Kind::Comma => Head::Under(Mark::Comma),
        Kind::CommaAt => Head::Under(Mark::CommaAt),
        Kind::Text => Head::Leaf(Leaf::Text),
        Kind::Character => Head::Leaf(Leaf::Character),
        Kind::Based => Head::Leaf(Leaf::Based),
        Kind::Atom => Head::Leaf(Leaf::Atom),
        Kind::Dot => Head::Dot,
    }
}

/// What a token is to a list.
#[derive(Clone, Copy)]
pub enum Item {
    /// The list ends.
    Close,
    /// The dot before the last form.
    Dot,
    /// A form begins, or nothing that may stand here.
    Form,
}

/// What a token is to a list in which a form stands already, or none.
fn item_at(some: bool, kind: Kind) -> Item
    ensures { result ≡ item_of some (head_of kind) }
{
    match head_at(kind) {
        Head::Close => Item::Close,
        Head::Dot if some => Item::Dot,
        _ => Item::Form,
    }
}

fn is_close(kind: Kind) -> bool
    ensures { result ≡ is_close (head_of kind) }
{
    match head_at(kind) {
        Head::Close => true,
        _ => false,
    }
}

fn under(alloc: Global, mark: Mark, form: Form) -> Result<Body, NoMemory>
    ensures { IfOk result (λ b. b ≡ under mark form) }
{
    let form = Boxed::new(alloc, form)?;
    Ok(match mark {
        Mark::Quote => Body::Quoted(form),
        Mark::Backquote => Body::Quasi(form),
        Mark::Comma => Body::Comma(form),
        Mark::CommaAt => Body::CommaAt(form),
    })
}

/// The next token, where one must come in what began at this place.
fn token_in<'a>(tokens: &mut Tokens<'a>, place: usize) -> Result<Token<'a>, ReadError>
    ensures value { Gives (λ t. (seen t, tokens.new)) result (token_in place (next_of tokens.old)) }
    ensures shorter { IfOk result (λ _. length tokens.new.rest < length tokens.old.rest) }
{
    match tokens.next() {
        Ok(Some(token)) => Ok(token),
        Ok(None) => Err(fault_at(place, ReadKind::OpenList)),
        Err(fault) => Err(broken_at(fault)),
    }
}

/// The parenthesis after the last form of a dotted list.
fn closing<'a>(tokens: &mut Tokens<'a>, place: usize, dot: usize) -> Result<(), ReadError>
    ensures value { Gives (λ _. tokens.new) result (closing_of place dot tokens.old) }
    ensures shorter { IfOk result (λ _. length tokens.new.rest ≤ length tokens.old.rest) }
{
    let token = token_in(tokens, place)?;
    if is_close(token.kind) {
        Ok(())
    } else {
        Err(fault_at(dot, ReadKind::BadDot))
    }
}

/// A form, from its first token on. So many more may be nested in it.
#[cycle(reading)]
fn form<'a>(
    alloc: Global,
    tokens: &mut Tokens<'a>,
    token: Token<'a>,
    left: usize,
) -> Result<Form, ReadError>
    ensures value { Gives (λ f. (f, tokens.new)) result (form_of left (seen token.entry) tokens.old) }
    ensures shorter { IfOk result (λ _. length tokens.new.rest ≤ length tokens.old.rest) }
{
    let place = token.start;
    let body = body(alloc, tokens, token, left)?;
    Ok(Form { place, body })
}

#[cycle(reading)]
fn body<'a>(
    alloc: Global,
    tokens: &mut Tokens<'a>,
    token: Token<'a>,
    left: usize,
) -> Result<Body, ReadError>
    ensures value { Gives (λ b. (b, tokens.new)) result (body_by (head_of token.entry.kind) (reader_of left) (seen token.entry) tokens.old) }
    ensures shorter { IfOk result (λ _. length tokens.new.rest ≤ length tokens.old.rest) }
{
    match head_at(token.kind) {
        Head::Leaf(leaf) => body_of(alloc, leaf, token.start, token.text),
        Head::Under(mark) => marked(alloc, tokens, token.start, mark, left),
        Head::Open => list(alloc, tokens, token.start, left),
        Head::Close => Err(fault_at(token.start, ReadKind::StrayClose)),
        Head::Dot => Err(fault_at(token.start, ReadKind::BadDot)),
    }
}

/// The form after a mark at this place.
#[cycle(reading)]
#[tactic(auto, using(crate::proofs::Readers::readers))]
fn marked<'a>(
    alloc: Global,
    tokens: &mut Tokens<'a>,
    place: usize,
    mark: Mark,
    left: usize,
) -> Result<Body, ReadError>
    ensures value { Gives (λ b. (b, tokens.new)) result (marked_by (reader_of left) mark place tokens.old) }
    ensures shorter { IfOk result (λ _. length tokens.new.rest ≤ length tokens.old.rest) }
{
    if left == 0 {
        return Err(fault_at(place, ReadKind::TooDeep));
    }
    let token = token_in(tokens, place)?;
    let form = form(alloc, tokens, token, left - 1)?;
    let body = under(alloc, mark, form)?;
    Ok(body)
}

/// The list that begins at this place.
#[cycle(reading)]
#[tactic(auto, using(crate::proofs::Readers::readers))]
fn list<'a>(
    alloc: Global,
    tokens: &mut Tokens<'a>,
    place: usize,
    left: usize,
) -> Result<Body, ReadError>
    ensures value { Gives (λ b. (b, tokens.new)) result (list_by (reader_of left) place tokens.old) }
    ensures shorter { IfOk result (λ _. length tokens.new.rest ≤ length tokens.old.rest) }
{
    if left == 0 {
        return Err(fault_at(place, ReadKind::TooDeep));
    }
    items(alloc, tokens, place, left - 1)
}

/// The forms of a list that began at this place, up to its end.
#[cycle(reading)]
#[tactic(auto, using(crate::proofs::Loops::loops))]
fn items<'a>(
    alloc: Global,
    tokens: &mut Tokens<'a>,
    place: usize,
    left: usize,
) -> Result<Body, ReadError>
    ensures value { Gives (λ b. (b, tokens.new)) result (lists (items_of left false place tokens.old)) }
    ensures shorter { IfOk result (λ _. length tokens.new.rest ≤ length tokens.old.rest) }
{
    let mut out = Seq::new(alloc);
    let mut some = false;
    loop {
        let token = token_in(tokens, place)?;
        match item_at(some, token.kind) {
            Item::Close => return Ok(Body::List(out)),
            Item::Dot => {
                let last = tail(alloc, tokens, place, token.start, left)?;
                let last = Boxed::new(alloc, last)?;
                return Ok(Body::Dotted(out, last));
            }
            Item::Form => {
                let form = form(alloc, tokens, token, left)?;
                out.push(form)?;
                some = true;
            }
        }
    }
}

/// The last form of a list that began at this place, after its dot, and the list's end.
#[cycle(reading)]
#[tactic(auto, unfolding(crate::specs::Reading::tail_by))]
fn tail<'a>(
    alloc: Global,
    tokens: &mut Tokens<'a>,
    place: usize,
    dot: usize,
    left: usize,
) -> Result<Form, ReadError>
    ensures value { Gives (λ f. (f, tokens.new)) result (tail_of left place dot tokens.old) }
    ensures shorter { IfOk result (λ _. length tokens.new.rest ≤ length tokens.old.rest) }
{
    let token = token_in(tokens, place)?;
    match item_at(true, token.kind) {
        Item::Close => Err(fault_at(dot, ReadKind::BadDot)),
        Item::Dot => Err(fault_at(dot, ReadKind::BadDot)),
        Item::Form => {
            let form = form(alloc, tokens, token, left)?;
            closing(tokens, place, dot)?;
            Ok(form)
        }
    }
}

/// The next token, or none at the end.
fn next_token<'a>(tokens: &mut Tokens<'a>) -> Result<Option<Token<'a>>, ReadError>
    ensures value { Gives (λ o. after_token o tokens.new) result (token_at (next_of tokens.old)) }
    ensures shorter { IfOk result (λ o. IfSome o (λ _. length tokens.new.rest < length tokens.old.rest)) }
{
    match tokens.next() {
        Ok(token) => Ok(token),
        Err(fault) => Err(broken_at(fault)),
    }
}

/// The forms of a text.
#[tactic(auto, using(crate::proofs::Loops::loops))]
pub(crate) fn all(alloc: Global, text: &[u8]) -> Result<Seq<Form>, ReadError>
    ensures { Gives (λ fs. fs) result (forms_from (at 0 text.now)) }
{
    let mut tokens = over(text);
    let mut out = Seq::new(alloc);
    while let Some(token) = next_token(&mut tokens)? {
        let form = form(alloc, &mut tokens, token, 400)?;
        out.push(form)?;
    }
    Ok(out)
}
