ghost use Rattle.std.specs.Prelude.{◌≡◌, [], ◌∷◌, ◌++◌, MatchOption, IsTrue};
ghost use Rattle.ap_term.specs.Compared.{bytes_order, follow, EndsPart, Decided};
ghost use Rattle.ap_term.specs.Printed.{symbol_text};
ghost use Rattle.ap_term.specs.Pieces.{piece_text};

use crate::atoms::reads_back;
use ap_value::{Symbol, same_symbol};
use std::cmp::Ordering;

/// The bytes of an atom and the byte after it, one after another: the first ones, then a body, which may
/// be closed by a byte and then has backslashes.
#[derive(Clone, Copy)]
pub struct Piece<'a> {
    pub lead: &'a [u8],
    pub body: &'a [u8],
    pub close: Option<u8>,
    pub pending: bool,
    pub after: Option<u8>,
}

/// Takes the next byte of a piece.
fn next(piece: &mut Piece<'_>) -> Option<u8>
    ensures { MatchOption result (piece_text piece.old ≡ []) (λ c. piece_text piece.old ≡ c ∷ piece_text piece.new) }
{
    if let [c, rest @ ..] = piece.lead {
        piece.lead = rest;
        return Some(*c);
    }
    let [c, rest @ ..] = piece.body else {
        return next_end(piece);
    };
    if let Some(close) = piece.close
        && !piece.pending
        && (*c == close || *c == b'\\')
    {
        piece.pending = true;
        return Some(b'\\');
    }
    piece.pending = false;
    piece.body = rest;
    Some(*c)
}

/// Takes the closing byte of a piece, or the byte after it.
fn next_end(piece: &mut Piece<'_>) -> Option<u8>
    requires lead { piece.old.lead.now ≡ [] }
    requires body { piece.old.body.now ≡ [] }
    ensures { MatchOption result (piece_text piece.old ≡ []) (λ c. piece_text piece.old ≡ c ∷ piece_text piece.new) }
{
    if let Some(close) = piece.close {
        piece.close = None;
        return Some(close);
    }
    let after = piece.after;
    piece.after = None;
    after
}

/// How the bytes of two pieces compare.
#[tactic(auto, using(crate::proofs::Compares::steps))]
pub fn compare_pieces(mut p: Piece<'_>, mut q: Piece<'_>) -> Ordering
    ensures { result ≡ bytes_order (piece_text p.entry) (piece_text q.entry) }
{
    loop {
        let c = next(&mut p);
        let d = next(&mut q);
        match (c, d) {
            (None, None) => return Ordering::Equal,
            (None, Some(_)) => return Ordering::Less,
            (Some(_), None) => return Ordering::Greater,
            (Some(c), Some(d)) => {
                if c != d {
                    return c.cmp(&d);
                }
            }
        }
    }
}

/// The bytes of a text that stands as it is, and the byte after it.
pub fn plain_piece(text: &[u8], after: Option<u8>) -> Piece<'_>
    ensures { piece_text result ≡ text.now ++ follow after [] }
{
    Piece {
        lead: b"",
        body: text,
        close: None,
        pending: false,
        after,
    }
}

/// The bytes of a symbol and the byte after it.
#[tactic(auto, unfolding(crate::specs::Printed::symbol_text, crate::specs::Printed::colon_text))]
pub fn symbol_piece(symbol: &Symbol, after: Option<u8>) -> Piece<'_>
    ensures { piece_text result ≡ symbol_text symbol.now ++ follow after [] }
{
    let plain = reads_back(symbol);
    let lead: &[u8] = match (symbol.keyword, plain) {
        (false, false) => b"|",
        (false, true) => b"",
        (true, false) => b":|",
        (true, true) => b":",
    };
    let close = if plain { None } else { Some(b'|') };
    Piece {
        lead,
        body: symbol.name.as_slice(),
        close,
        pending: false,
        after,
    }
}

/// Whether what stands after two parts is one byte, or nothing.
pub(crate) fn same_end(x: Option<u8>, y: Option<u8>) -> bool
    ensures { IsTrue result → x ≡ y }
{
    match (x, y) {
        (Some(c), Some(d)) => c == d,
        (None, None) => true,
        _ => false,
    }
}

/// How two symbols compare, each with the byte after it.
#[tactic(auto, using(crate::proofs::Compares::symbols_compared))]
pub fn compare_symbols(a: &Symbol, x: Option<u8>, b: &Symbol, y: Option<u8>) -> Ordering
    requires left { EndsPart x }
    requires right { EndsPart y }
    ensures { Decided result (symbol_text a.now) x (symbol_text b.now) y }
{
    if same_end(x, y) && same_symbol(a, b) {
        return Ordering::Equal;
    }
    compare_pieces(symbol_piece(a, x), symbol_piece(b, y))
}
