ghost use Rattle.std.specs.Prelude.{◌≡◌, ◌↔◌, IsTrue, MatchOption, decimal};
ghost use Rattle.std.specs.List.{list_all};
ghost use Rattle.hex.specs.Hex.{encode_lower};
ghost use Rattle.ap_cert.specs.Cert.{IsDigest, IsIncluded, is_name_byte, begins_well, is_book_name, book_line, digest_line, include_line, events_line};
ghost use Rattle.ap_cert.specs.Reads.{Reads, ReadsNone, Heads, HeadsNone, IsName, IsCount, included, book_and_digest};

use crate::lines::{after, cut, is_same};
use hex::FromHex;
use itoa::Buffer;
use std::str;

/// Whether a byte may stand in a name: a letter, a digit, a hyphen or an underscore.
fn is_name_byte(byte: u8) -> bool
    ensures { result ≡ is_name_byte byte }
{
    (97 <= byte && byte <= 122)
        || (65 <= byte && byte <= 90)
        || (48 <= byte && byte <= 57)
        || byte == 45
        || byte == 95
}

/// Whether a name has a first byte and that isn't a hyphen.
fn begins_well(name: &[u8]) -> bool
    ensures { result ≡ begins_well name.now }
{
    match name {
        [] => false,
        [first, ..] => *first != 45,
    }
}

/// Whether each byte may stand in a name.
fn are_name_bytes(name: &[u8]) -> bool
    ensures { result ≡ list_all is_name_byte name.now }
{
    name.iter().all(|byte| is_name_byte(*byte))
}

/// Whether a text is a book's name: 1 to 64 of the bytes `a-z A-Z 0-9 - _`, a hyphen not first. Takes no memory.
#[tactic(auto, unfolding(crate::specs::Cert::is_book_name))]
pub fn is_book_name(name: &[u8]) -> bool
    ensures { result ≡ is_book_name name.now }
{
    begins_well(name) && name.len() <= 64 && are_name_bytes(name)
}

/// Whether a digest is written so, in lower case.
fn is_written(digest: &[u8; 32], digits: &[u8]) -> bool
    ensures { IsTrue result ↔ (digits.now ≡ encode_lower digest.now) }
{
    let mut written = [0u8; 64];
    hex::encode_to_slice(digest.as_slice(), &mut written).unwrap();
    is_same(digits, &written)
}

/// The digest that 64 lower-case hexadecimal digits are.
fn digest(digits: &[u8]) -> Option<[u8; 32]>
    ensures { MatchOption result (ReadsNone IsDigest encode_lower digits.now) (λ d. Reads IsDigest encode_lower digits.now d) }
{
    let digest = <[u8; 32] as FromHex>::from_hex(digits).ok()?;
    if is_written(&digest, digits) {
        Some(digest)
    } else {
        None
    }
}

/// Whether a number is written so, in decimal without a leading zero.
fn is_decimal(count: u32, digits: &[u8]) -> bool
    ensures { IsTrue result ↔ (digits.now ≡ decimal count) }
{
    let mut buffer = Buffer::new();
    is_same(digits, buffer.format(count).as_bytes())
}

/// The number that digits are in decimal without a leading zero.
fn count(digits: &[u8]) -> Option<u32>
    ensures { MatchOption result (ReadsNone IsCount decimal digits.now) (λ n. Reads IsCount decimal digits.now n) }
{
    let Ok(text) = str::from_utf8(digits) else {
        return None;
    };
    let count: u32 = text.parse().ok()?;
    if is_decimal(count, digits) {
        Some(count)
    } else {
        None
    }
}

/// The book's name on a line `book NAME`.
fn book_of(line: &[u8]) -> Option<&[u8]>
    ensures { MatchOption result (ReadsNone IsName book_line line.now) (λ name. Reads IsName book_line line.now name.now) }
{
    let name = after(line, b"book ")?;
    if is_book_name(name) { Some(name) } else { None }
}

/// The digest on a line `sha256 DIGEST`.
fn sha256_of(line: &[u8]) -> Option<[u8; 32]>
    ensures { MatchOption result (ReadsNone IsDigest digest_line line.now) (λ d. Reads IsDigest digest_line line.now d) }
{
    digest(after(line, b"sha256 ")?)
}

/// The included book on a line `include NAME DIGEST`, without the word.
fn named_digest(line: &[u8]) -> Option<(&[u8], [u8; 32])>
    ensures { MatchOption result (ReadsNone IsIncluded book_and_digest line.now) (λ p. Reads IsIncluded book_and_digest line.now (included p.0.now p.1)) }
{
    let (name, digits) = cut(line, b' ')?;
    if !is_book_name(name) {
        return None;
    }
    let digest = digest(digits)?;
    Some((name, digest))
}

/// The included book on a line `include NAME DIGEST`.
fn include_of(line: &[u8]) -> Option<(&[u8], [u8; 32])>
    ensures { MatchOption result (ReadsNone IsIncluded include_line line.now) (λ p. Reads IsIncluded include_line line.now (included p.0.now p.1)) }
{
    named_digest(after(line, b"include ")?)
}

/// The number on a line `events NUMBER`.
fn events_of(line: &[u8]) -> Option<u32>
    ensures { MatchOption result (ReadsNone IsCount events_line line.now) (λ n. Reads IsCount events_line line.now n) }
{
    count(after(line, b"events ")?)
}

/// The book's name where a text begins with its line, and what stands after it.
pub(crate) fn book_field(text: &[u8]) -> Option<(&[u8], &[u8])>
    ensures { MatchOption result (HeadsNone IsName book_line text.now) (λ p. Heads IsName book_line text.now p.0.now p.1.now) }
{
    let (line, rest) = cut(text, b'\n')?;
    let name = book_of(line)?;
    Some((name, rest))
}

/// The digest where a text begins with its line, and what stands after it.
pub(crate) fn digest_field(text: &[u8]) -> Option<([u8; 32], &[u8])>
    ensures { MatchOption result (HeadsNone IsDigest digest_line text.now) (λ p. Heads IsDigest digest_line text.now p.0 p.1.now) }
{
    let (line, rest) = cut(text, b'\n')?;
    let digest = sha256_of(line)?;
    Some((digest, rest))
}

/// An included book where a text begins with its line, and what stands after it.
pub(crate) fn include_field(text: &[u8]) -> Option<(&[u8], [u8; 32], &[u8])>
    ensures { MatchOption result (HeadsNone IsIncluded include_line text.now) (λ p. Heads IsIncluded include_line text.now (included p.0.now p.1) p.2.now) }
{
    let (line, rest) = cut(text, b'\n')?;
    let (name, digest) = include_of(line)?;
    Some((name, digest, rest))
}

/// The number of events where a text begins with its line, and what stands after it.
pub(crate) fn events_field(text: &[u8]) -> Option<(u32, &[u8])>
    ensures { MatchOption result (HeadsNone IsCount events_line text.now) (λ p. Heads IsCount events_line text.now p.0 p.1.now) }
{
    let (line, rest) = cut(text, b'\n')?;
    let count = events_of(line)?;
    Some((count, rest))
}
