ghost use Rattle.std.specs.Prelude.{◌≡◌, ◌∷◌, ◌++◌, ◌⊎◌, ℕ, List, IfOk, IfErr, MatchOption};
ghost use Rattle.sha2.specs.Sha256.{sha256};
ghost use Rattle.ap_cert.specs.declared.cert.Cert.{Cert};
ghost use Rattle.ap_cert.specs.declared.cert.CertError.{CertError};
ghost use Rattle.ap_cert.specs.Cert.{IsCert, Refuses, WellWritten, head_line};
ghost use Rattle.ap_cert.specs.Reads.{Reads, ReadsNone, IsCount, IsFront, FrontNone, IsIncludes, Differs, Answers, included, tail_text, body_text};

use crate::cert::{Cert, CertError};
use crate::digest::digest_of;
use crate::fields::{book_field, digest_field, events_field, include_field};
use crate::lines::{after, is_same, split_line};
use ap_value::{BookName, Bytes, NoMemory, Seq};
use std::alloc::Global;

/// What stands after the first line of a certificate of version 1.
fn body_of(text: &[u8]) -> Result<&[u8], CertError>
    ensures ok { IfOk result (λ body. text.now ≡ head_line ++ 10 ∷ body.now) }
    ensures err { IfErr result (λ e. (book : List ℕ) → Refuses e text.now book) }
{
    let (line, rest) = split_line(text);
    let Some(version) = after(line, b"acl2p certificate ") else {
        return Err(CertError::NotCert);
    };
    if !is_same(version, b"1") {
        return Err(CertError::Version);
    }
    rest.ok_or(CertError::Truncated)
}

/// An included book.
fn included(alloc: Global, name: &[u8], digest: [u8; 32]) -> Result<(BookName, [u8; 32]), NoMemory>
    ensures { IfOk result (λ book. book ≡ included name.now digest) }
{
    let name = BookName(Bytes::from_slice(alloc, name)?);
    Ok((name, digest))
}

/// The included books that a text begins with, in their order, and what stands after them.
fn includes_of<'a>(
    alloc: Global,
    text: &'a [u8],
) -> Result<(Seq<(BookName, [u8; 32])>, &'a [u8]), NoMemory>
    ensures { IfOk result (λ p. IsIncludes text.now p.0 p.1.now) }
{
    let mut includes = Seq::new(alloc);
    let mut rest = text;
    loop {
        let Some(found) = include_field(rest) else {
            return Ok((includes, rest));
        };
        let (name, digest, left) = found;
        let include = included(alloc, name, digest)?;
        includes.push(include)?;
        rest = left;
    }
}

/// The book's name and digest that a text begins with, and what stands after them.
fn front_of(text: &[u8]) -> Option<(&[u8], [u8; 32], &[u8])>
    ensures { MatchOption result (FrontNone text.now) (λ p. IsFront text.now p.0.now p.1 p.2.now) }
{
    let (name, rest) = book_field(text)?;
    let (digest, rest) = digest_field(rest)?;
    Some((name, digest, rest))
}

/// The number of events, where a text is the last two lines.
fn tail_of(text: &[u8]) -> Option<u32>
    ensures { MatchOption result (ReadsNone IsCount tail_text text.now) (λ n. Reads IsCount tail_text text.now n) }
{
    let (events, rest) = events_field(text)?;
    if is_same(rest, b"end\n") {
        Some(events)
    } else {
        None
    }
}

/// A certificate of these parts.
fn cert(
    alloc: Global,
    name: &[u8],
    digest: [u8; 32],
    includes: Seq<(BookName, [u8; 32])>,
    events: u32,
) -> Result<Cert, NoMemory>
    ensures { IfOk result (λ c. c ≡ record { book = record { 0 = name.now }; digest = digest; includes = includes; events = events }) }
{
    let book = BookName(Bytes::from_slice(alloc, name)?);
    Ok(Cert {
        book,
        digest,
        includes,
        events,
    })
}

/// The certificate that a text is behind its first line.
fn cert_of(alloc: Global, text: &[u8]) -> Result<Option<Cert>, NoMemory>
    ensures { IfOk result (λ o. MatchOption o (ReadsNone WellWritten body_text text.now) (λ c. Reads WellWritten body_text text.now c)) }
{
    let Some(front) = front_of(text) else {
        return Ok(None);
    };
    let (name, digest, rest) = front;
    let (includes, rest) = includes_of(alloc, rest)?;
    let Some(events) = tail_of(rest) else {
        return Ok(None);
    };
    Ok(Some(cert(alloc, name, digest, includes, events)?))
}

/// The certificate, where it names the digest that the book's bytes have.
fn matched(cert: Cert, book: &[u8]) -> Result<Cert, CertError>
    ensures ok { IfOk result (λ c. (c ≡ cert) × (cert.digest ≡ sha256 book.now)) }
    ensures err { IfErr result (λ e. Differs cert.digest (sha256 book.now) e) }
{
    let found = digest_of(book);
    if cert.digest == found {
        Ok(cert)
    } else {
        Err(CertError::HashDiffers {
            named: cert.digest,
            found,
        })
    }
}

/// What a text and a book's bytes are answered.
fn answer(alloc: Global, text: &[u8], book: &[u8]) -> Result<Cert, CertError>
    ensures { Answers result text.now book.now }
{
    let body = body_of(text)?;
    let Some(cert) = cert_of(alloc, body)? else {
        return Err(CertError::Truncated);
    };
    matched(cert, book)
}

/// The certificate that a text is, where it names the digest that the book's bytes have. Its memory and time are linear
/// in the two texts. What is told of another text is the first that holds in the order of [`CertError`]'s variants.
pub fn read_cert(alloc: Global, text: &[u8], book: &[u8]) -> Result<Cert, CertError>
    ensures found { IfOk result (λ c. IsCert text.now c × (c.digest ≡ sha256 book.now)) }
    ensures only { (c : Cert) → IsCert text.now c → c.digest ≡ sha256 book.now → (result ≡ Ok c) ⊎ (result ≡ Err CertError.NoMemory) }
    ensures fault { IfErr result (λ e. (e ≡ CertError.NoMemory) ⊎ Refuses e text.now book.now) }
    ensures only_fault { (e : CertError) → Refuses e text.now book.now → (result ≡ Err e) ⊎ (result ≡ Err CertError.NoMemory) }
{
    answer(alloc, text, book)
}
