ghost use Rattle.std.specs.Prelude.{◌≡◌, ◌≤◌, length, false, IfSome};
ghost use Rattle.ap_tokens.specs.Scans.{line_len, run_len, string_len, comment_len, mark_of, atom_len, part_of};

use crate::bytes::ends_atom;

/// How far a line goes, with the line feed that ends it.
#[tactic(auto, using(crate::proofs::Steps::steps))]
pub fn line_len(text: &[u8]) -> usize
    ensures value { result ≡ line_len text.now }
    ensures within { result ≤ length text.now }
{
    let mut n = 0;
    while n < text.len() {
        n += 1;
        if text[n - 1] == b'\n' {
            return n;
        }
    }
    n
}

/// How far it is to a blank or a byte that ends an atom.
#[tactic(auto, using(crate::proofs::Steps::steps))]
pub fn run_len(text: &[u8]) -> usize
    ensures value { result ≡ run_len text.now }
    ensures within { result ≤ length text.now }
{
    let mut n = 0;
    while n < text.len() {
        if ends_atom(text[n]) {
            return n;
        }
        n += 1;
    }
    n
}

/// How far a string goes after its first quote, with the quote that ends it.
#[tactic(auto, using(crate::proofs::Steps::steps))]
pub fn string_len(text: &[u8]) -> Option<usize>
    ensures value { result ≡ string_len false text.now }
    ensures within { IfSome result (λ n. n ≤ length text.now) }
{
    let (mut taken, mut n) = (false, 0);
    while n < text.len() {
        let byte = text[n];
        n += 1;
        if taken {
            taken = false;
        } else {
            if byte == b'"' {
                return Some(n);
            }
            taken = byte == b'\\';
        }
    }
    None
}

/// What stands at a place of a block comment.
#[derive(Clone, Copy)]
pub enum Mark {
    /// `|#`
    Close,
    /// `#|`
    Open,
    /// Any other byte.
    Byte,
}

fn mark_at(text: &[u8]) -> Mark
    ensures { result ≡ mark_of text.now }
{
    match text {
        [b'|', b'#', ..] => Mark::Close,
        [b'#', b'|', ..] => Mark::Open,
        _ => Mark::Byte,
    }
}

/// How far a block comment goes after its `#|`, with the `|#` that ends it.
#[tactic(auto, using(crate::proofs::Steps::steps))]
pub fn comment_len(text: &[u8]) -> Option<usize>
    ensures value { result ≡ comment_len 0 text.now }
    ensures within { IfSome result (λ n. n ≤ length text.now) }
{
    let (mut deep, mut n) = (0usize, 0);
    while n < text.len() {
        match mark_at(&text[n..]) {
            Mark::Close => {
                n += 2;
                if deep == 0 {
                    return Some(n);
                }
                deep -= 1;
            }
            Mark::Open => {
                n += 2;
                deep += 1;
            }
            Mark::Byte => n += 1,
        }
    }
    None
}

/// What a byte is to an atom, within bars or not.
#[derive(Clone, Copy)]
pub enum Part {
    /// A backslash, which takes the next byte as it is.
    Escape,
    Bar,
    /// The byte that ends the atom and isn't of it.
    Stop,
    Plain,
}

fn part_at(bar: bool, byte: u8) -> Part
    ensures { result ≡ part_of bar byte }
{
    if byte == b'\\' {
        Part::Escape
    } else if byte == b'|' {
        Part::Bar
    } else if !bar && ends_atom(byte) {
        Part::Stop
    } else {
        Part::Plain
    }
}

/// How far an atom goes, from a place within bars or not, after a backslash or not.
#[tactic(auto, using(crate::proofs::Steps::steps))]
pub fn atom_len(within_bars: bool, escaped: bool, text: &[u8]) -> Option<usize>
    ensures value { result ≡ atom_len within_bars escaped text.now }
    ensures within { IfSome result (λ n. n ≤ length text.now) }
{
    let (mut bar, mut taken, mut n) = (within_bars, escaped, 0);
    while n < text.len() {
        let byte = text[n];
        n += 1;
        if taken {
            taken = false;
        } else {
            match part_at(bar, byte) {
                Part::Escape => taken = true,
                Part::Bar => bar = !bar,
                Part::Stop => return Some(n - 1),
                Part::Plain => {}
            }
        }
    }
    if bar || taken { None } else { Some(n) }
}
