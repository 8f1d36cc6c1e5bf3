//! The certificate that a certified book leaves.
ghost use Rattle.std.specs.Prelude.{◌≡◌, [], IfOk, OnOk};
ghost use Rattle.ap_books.specs.Bodies.{forms_by, forms_of};
ghost use Rattle.ap_cert.specs.Cert.{cert_text};
ghost use Rattle.ap_events.specs.Held.{held_in};
ghost use Rattle.ap_session.specs.Certs.{seen_in, read_digest, digest_in, is_listed, with_include, with_includes, cert_by, cert_of};

use ap_books::{BookSeen, Events};
use ap_cert::{Cert, digest_of, write_v1};
use ap_events::{Held, held_in};
use ap_list::{Bytes, NoMemory, Seq};
use ap_outside::BookRead;
use ap_value::BookName;
use std::alloc::{AllocError, Global};

/// What a book's events hold; one that isn't read has none.
pub(crate) fn held_of(alloc: Global, events: &Result<Events, Bytes>) -> Result<Held, NoMemory>
    ensures { IfOk result (λ held. held ≡ held_in (forms_by events.now)) }
{
    match events {
        Ok(events) => held_in(alloc, events.as_slice()),
        Err(_) => held_in(alloc, &[]),
    }
}

/// The digest of a book. Takes no memory.
fn read_digest(read: &BookRead) -> [u8; 32]
    ensures { result ≡ read_digest read.now }
{
    match read {
        BookRead::Found(book) => digest_of(book.0.as_slice()),
        BookRead::Absent => digest_of(&[]),
        BookRead::TooLong => digest_of(&[]),
    }
}

/// The digest of the first of these books that has a name. Takes no memory.
fn digest_in(books: &[BookSeen], name: &[u8]) -> Option<[u8; 32]>
    ensures { result ≡ digest_in (seen_in books.now) name.now }
{
    for book in books {
        if name == book.name.0.as_slice() {
            return Some(read_digest(&book.read));
        }
    }
    None
}

/// Whether a book is listed. Takes no memory.
fn is_listed(includes: &[(BookName, [u8; 32])], name: &[u8]) -> bool
    ensures { result ≡ is_listed includes.now name.now }
{
    includes.iter().any(|book| book.0.0.as_slice() == name)
}

/// Lists an included book, where it isn't listed.
fn add_include(
    alloc: Global,
    before: &[BookSeen],
    includes: &mut Seq<(BookName, [u8; 32])>,
    name: &[u8],
) -> Result<(), NoMemory>
    ensures { OnOk result (includes.new ≡ with_include (seen_in before.now) includes.old name.now) }
{
    if is_listed(includes.as_slice(), name) {
        return Ok(());
    }
    match digest_in(before, name) {
        Some(digest) => includes.push((BookName(Bytes::from_slice(alloc, name)?), digest)),
        None => Ok(()),
    }
}

/// The books of these names, each once, with their digests.
fn includes_of(
    alloc: Global,
    before: &[BookSeen],
    names: &[Bytes],
) -> Result<Seq<(BookName, [u8; 32])>, NoMemory>
    ensures { IfOk result (λ includes. includes ≡ with_includes (seen_in before.now) names.now []) }
{
    let mut includes = Seq::new(alloc);
    for name in names {
        add_include(alloc, before, &mut includes, name.as_slice())?;
    }
    Ok(includes)
}

/// The certificate of a book behind others, by what its events hold. More events than it has room for are taken for want
/// of memory.
fn cert_by(
    alloc: Global,
    before: &[BookSeen],
    book: &BookSeen,
    held: &Held,
) -> Result<Cert, NoMemory>
    ensures { IfOk result (λ c. c ≡ cert_by (seen_in before.now) book.now.name.0 book.now.read held.now) }
{
    let Ok(events) = u32::try_from(held.events) else {
        return Err(AllocError);
    };
    let name = BookName(Bytes::from_slice(alloc, book.name.0.as_slice())?);
    let includes = includes_of(alloc, before, held.books.as_slice())?;
    Ok(Cert {
        book: name,
        digest: read_digest(&book.read),
        includes,
        events,
    })
}

/// The text of a book's certificate, by what its events hold.
pub(crate) fn cert_text(
    alloc: Global,
    before: &[BookSeen],
    book: &BookSeen,
    held: &Held,
) -> Result<Bytes, NoMemory>
    requires { held.now ≡ held_in (forms_of book.now.read) }
    ensures { IfOk result (λ t. t ≡ cert_text (cert_of (seen_in before.now) book.now.name.0 book.now.read)) }
{
    let cert = cert_by(alloc, before, book, held)?;
    write_v1(alloc, &cert)
}
