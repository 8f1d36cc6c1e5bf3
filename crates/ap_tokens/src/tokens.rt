ghost use Rattle.std.specs.Prelude.{◌≡◌, ◌+◌, ◌<◌, ◌≤◌, length, IfOk, IfSome};
ghost use Rattle.ap_tokens.specs.Gaps.{at};
ghost use Rattle.ap_tokens.specs.Tokens.{lead_of, comma_of, text_of, atom_of, token_of, Answers};

use crate::gap::gap_end;
use crate::hash::hashed_from;
use crate::scan::{atom_len, string_len};
use crate::token::{FaultKind, Kind, Token, TokenFault};
use std::marker::Model;

/// What a token is, as far as its first byte says.
#[derive(Clone, Copy)]
pub enum Lead {
    LeftParen,
    RightParen,
    Quote,
    Backquote,
    Comma,
    Text,
    Hash,
    Atom,
}

#[tactic(auto, unfolding(crate::specs::Tokens::lead_of))]
fn lead_at(first: u8) -> Lead
    ensures { result ≡ lead_of first }
{
    match first {
        b'(' => Lead::LeftParen,
        b')' => Lead::RightParen,
        b'\'' => Lead::Quote,
        b'`' => Lead::Backquote,
        b',' => Lead::Comma,
        b'"' => Lead::Text,
        b'#' => Lead::Hash,
        _ => Lead::Atom,
    }
}

/// A comma, alone or with an `@`.
fn comma_at(rest: &[u8]) -> (Kind, usize)
    ensures value { result ≡ comma_of rest.now }
    ensures within { result.1 ≤ 1 + length rest.now }
    ensures some { 0 < result.1 }
{
    match rest {
        [b'@', ..] => (Kind::CommaAt, 2),
        _ => (Kind::Comma, 1),
    }
}

fn text_at(rest: &[u8]) -> Result<(Kind, usize), FaultKind>
    ensures value { result ≡ text_of rest.now }
    ensures within { IfOk result (λ token. token.1 ≤ 1 + length rest.now) }
    ensures some { IfOk result (λ token. 0 < token.1) }
{
    match string_len(rest) {
        Some(n) => Ok((Kind::Text, 1 + n)),
        None => Err(FaultKind::OpenString),
    }
}

fn atom_at(first: u8, rest: &[u8]) -> Result<(Kind, usize), FaultKind>
    ensures value { result ≡ atom_of first rest.now }
    ensures within { IfOk result (λ token. token.1 ≤ 1 + length rest.now) }
    ensures some { IfOk result (λ token. 0 < token.1) }
{
    match atom_len(first == b'|', first == b'\\', rest) {
        Some(n) if n == 0 && first == b'.' => Ok((Kind::Dot, 1)),
        Some(n) => Ok((Kind::Atom, 1 + n)),
        None => Err(FaultKind::OpenBar),
    }
}

/// The kind and the length of the token that begins with this byte.
#[tactic(auto, unfolding(crate::specs::Tokens::token_of))]
fn token_at(first: u8, rest: &[u8]) -> Result<(Kind, usize), FaultKind>
    ensures value { result ≡ token_of first rest.now }
    ensures within { IfOk result (λ token. token.1 ≤ 1 + length rest.now) }
    ensures some { IfOk result (λ token. 0 < token.1) }
{
    match lead_at(first) {
        Lead::LeftParen => Ok((Kind::LeftParen, 1)),
        Lead::RightParen => Ok((Kind::RightParen, 1)),
        Lead::Quote => Ok((Kind::Quote, 1)),
        Lead::Backquote => Ok((Kind::Backquote, 1)),
        Lead::Comma => Ok(comma_at(rest)),
        Lead::Text => text_at(rest),
        Lead::Hash => hashed_from(rest),
        Lead::Atom => atom_at(first, rest),
    }
}

/// What is left of a text, from a place on.
#[derive(Drop)]
pub struct Tokens<'a> {
    place: usize,
    rest: &'a [u8],
}

impl<'a> Model for Tokens<'a> {
    ghost use Rattle.std.specs.Prelude.{◌+◌, ◌^◌, ◌<◌, length};
    ghost use Rattle.ap_tokens.specs.Gaps.{At};

    ghost Value = { At };

    ghost view = { λ t. record { place = t.place; rest = t.rest.now } };

    ghost invariant = { λ t. t.place + length t.rest.now < 2 ^ 64 };
}

/// The tokens of a text, from its first byte on. Takes no memory.
pub fn over(text: &[u8]) -> Tokens<'_>
    ensures { result ≡ at 0 text.now }
{
    Tokens {
        place: 0,
        rest: text,
    }
}

impl<'a> Tokens<'a> {
    /// The next token, or `None` where only blanks and comments are left. After a fault the place
    /// stays, so that every later call answers the same fault. Takes no memory.
    #[tactic(auto, unfolding(crate::specs::Tokens::next_of))]
    pub fn next(&mut self) -> Result<Option<Token<'a>>, TokenFault>
        ensures answer { Answers result self.old self.new }
        ensures shorter { IfOk result (λ o. IfSome o (λ _. length self.new.rest < length self.old.rest)) }
    {
        let (start, left) = gap_end(self.place, self.rest)?;
        let Some((first, rest)) = left.split_first() else {
            return Ok(None);
        };
        match token_at(*first, rest) {
            Ok((kind, n)) => {
                let (text, rest) = left.split_at(n);
                self.place = start + n;
                self.rest = rest;
                Ok(Some(Token { start, text, kind }))
            }
            Err(kind) => Err(TokenFault { place: start, kind }),
        }
    }
}
