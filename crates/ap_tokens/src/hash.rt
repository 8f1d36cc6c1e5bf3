ghost use Rattle.std.specs.Prelude.{◌≡◌, ◌+◌, ◌<◌, ◌≤◌, length, IfOk};
ghost use Rattle.ap_tokens.specs.Hashes.{hash_of, is_digit_of, digits_of, some_digits_of, is_number_of, same_letters, char_name, character_of, based_of, hashed_of};

use crate::scan::run_len;
use crate::token::{FaultKind, Kind};

/// The base of a number after `#`.
#[derive(Clone, Copy, Debug, PartialEq, Eq)]
pub enum Base {
    Two,
    Eight,
    Sixteen,
}

/// What a `#` begins, by the byte after it.
#[derive(Clone, Copy)]
pub enum Hash {
    Character,
    Number(Base),
    Bad,
}

fn hash_at(text: &[u8]) -> Hash
    ensures { result ≡ hash_of text.now }
{
    match text {
        [b'\\', ..] => Hash::Character,
        [b'x', ..] | [b'X', ..] => Hash::Number(Base::Sixteen),
        [b'o', ..] | [b'O', ..] => Hash::Number(Base::Eight),
        [b'b', ..] | [b'B', ..] => Hash::Number(Base::Two),
        _ => Hash::Bad,
    }
}

#[tactic(auto, unfolding(crate::specs::Hashes::is_digit_of))]
fn is_digit_of(base: Base, byte: u8) -> bool
    ensures { result ≡ is_digit_of base byte }
{
    match base {
        Base::Two => byte == b'0' || byte == b'1',
        Base::Eight => b'0' <= byte && byte <= b'7',
        Base::Sixteen => {
            b'0' <= byte && byte <= b'9'
                || b'A' <= byte && byte <= b'F'
                || b'a' <= byte && byte <= b'f'
        }
    }
}

#[tactic(auto, using(crate::proofs::Steps::steps))]
fn digits_of(base: Base, text: &[u8]) -> bool
    ensures { result ≡ digits_of base text.now }
{
    for byte in text {
        if !is_digit_of(base, *byte) {
            return false;
        }
    }
    true
}

fn some_digits_of(base: Base, text: &[u8]) -> bool
    ensures { result ≡ some_digits_of base text.now }
{
    !text.is_empty() && digits_of(base, text)
}

/// Whether a text is an optional sign and digits of a base.
fn is_number_of(base: Base, text: &[u8]) -> bool
    ensures { result ≡ is_number_of base text.now }
{
    match text {
        [] => false,
        [b'+', digits @ ..] => some_digits_of(base, digits),
        [b'-', digits @ ..] => some_digits_of(base, digits),
        digits => digits_of(base, digits),
    }
}

fn same_letters(a: &[u8], b: &[u8]) -> bool
    ensures { result ≡ same_letters a.now b.now }
{
    a.eq_ignore_ascii_case(b)
}

/// The code of the character that a name of several letters names: the manual's topic `characters` has
/// these five names. Letters may be in either case.
#[tactic(auto, unfolding(crate::specs::Hashes::char_name))]
pub fn char_named(name: &[u8]) -> Option<u8>
    ensures { result ≡ char_name name.now }
{
    if same_letters(name, b"space") {
        return Some(32);
    }
    if same_letters(name, b"newline") {
        return Some(10);
    }
    if same_letters(name, b"tab") {
        return Some(9);
    }
    if same_letters(name, b"page") {
        return Some(12);
    }
    if same_letters(name, b"rubout") {
        return Some(127);
    }
    None
}

/// What follows `#\`, with the length of the whole token.
fn character_from(text: &[u8]) -> Result<(Kind, usize), FaultKind>
    ensures value { result ≡ character_of text.now }
    ensures within { IfOk result (λ token. token.1 ≤ 2 + length text.now) }
    ensures some { IfOk result (λ token. 0 < token.1) }
{
    let Some((_, rest)) = text.split_first() else {
        return Err(FaultKind::BadHash);
    };
    let n = run_len(rest);
    if n == 0 || char_named(&text[..1 + n]).is_some() {
        Ok((Kind::Character, 3 + n))
    } else {
        Err(FaultKind::BadCharName)
    }
}

/// What follows `#x`, `#o` or `#b`, with the length of the whole token.
fn number_from(base: Base, text: &[u8]) -> Result<(Kind, usize), FaultKind>
    ensures value { result ≡ based_of base text.now }
    ensures within { IfOk result (λ token. token.1 ≤ 2 + length text.now) }
    ensures some { IfOk result (λ token. 0 < token.1) }
{
    let n = run_len(text);
    if is_number_of(base, &text[..n]) {
        Ok((Kind::Based, 2 + n))
    } else {
        Err(FaultKind::BadHash)
    }
}

/// What follows a `#` that begins no comment, with the length of the whole token.
#[tactic(auto, unfolding(crate::specs::Hashes::hashed_of))]
pub fn hashed_from(text: &[u8]) -> Result<(Kind, usize), FaultKind>
    ensures value { result ≡ hashed_of text.now }
    ensures within { IfOk result (λ token. token.1 ≤ 1 + length text.now) }
    ensures some { IfOk result (λ token. 0 < token.1) }
{
    match hash_at(text) {
        Hash::Character => character_from(&text[1..]),
        Hash::Number(base) => number_from(base, &text[1..]),
        Hash::Bad => Err(FaultKind::BadHash),
    }
}
