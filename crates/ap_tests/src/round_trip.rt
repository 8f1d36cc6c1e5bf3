//! Certificates are written and read back.

use crate::texts::{BOOK, DIGEST, OF_NOTHING, TEXT, read, with_front};
use ap_cert::{BookName, Bytes, Cert, CertError, NoMemory, Seq, digest_of, read_cert, write_v1};
use std::alloc::Global;
use std::process::Abort;
use std::test::Fail;

/// Books that are included, each with its digest.
const BOOKS: &[(&str, [u8; 32])] = &[("lists", OF_NOTHING), ("a-b_C9", DIGEST), ("lists", DIGEST)];

/// What stands behind the first three lines where these three books are included.
const INCLUDES: &str =
    "include lists e3b0c44298fc1c149afbf4c8996fb92427ae41e4649b934ca495991b7852b855
include a-b_C9 9a95ea139f2a507659c0b1a144b09abfd09af04dd84ed81cbecce0fad3bcfe1b
include lists 9a95ea139f2a507659c0b1a144b09abfd09af04dd84ed81cbecce0fad3bcfe1b
events 3
end
";

/// What stands behind the first three lines where the name of the one included book is as long as a name may be.
const LONG_NAME: &str =
    "include 0123456789012345678901234567890123456789012345678901234567890123 e3b0c44298fc1c149afbf4c8996fb92427ae41e4649b934ca495991b7852b855\nevents 7\nend\n";

fn named(alloc: Global, name: &str) -> Result<BookName, NoMemory> {
    Ok(BookName(Bytes::from_slice(alloc, name.as_bytes())?))
}

/// These books, to be included.
fn including(
    alloc: Global,
    books: &[(&str, [u8; 32])],
) -> Result<Seq<(BookName, [u8; 32])>, NoMemory> {
    let mut includes = Seq::new(alloc);
    for (name, digest) in books {
        includes.push((named(alloc, name)?, *digest))?;
    }
    Ok(includes)
}

/// The book's certificate, with these included books and so many events.
fn of_book(
    alloc: Global,
    includes: Seq<(BookName, [u8; 32])>,
    events: u32,
) -> Result<Cert, NoMemory> {
    Ok(Cert {
        book: named(alloc, "refl")?,
        digest: digest_of(BOOK),
        includes,
        events,
    })
}

/// The text of the book's certificate, where it includes these books and has so many events.
fn written(alloc: Global, books: &[(&str, [u8; 32])], events: u32) -> Result<Bytes, NoMemory> {
    let cert = of_book(alloc, including(alloc, books)?, events)?;
    write_v1(alloc, &cert)
}

/// Whether a certificate is the book's, with so many included books and events.
fn is_of_book(cert: &Cert, includes: usize, events: u32) -> bool {
    let sizes = cert.includes.len() == includes && cert.events == events;
    sizes && cert.book.0.as_slice() == b"refl".as_slice() && cert.digest == DIGEST
}

/// Whether an included book at a place is this one.
fn is_included(cert: &Cert, place: usize, name: &str, digest: &[u8; 32]) -> bool {
    match cert.includes.get(place) {
        Some(book) => book.0.0.as_slice() == name.as_bytes() && book.1 == *digest,
        None => false,
    }
}

/// Asserts that a certificate is the book's with so many events, and includes these books in this order.
fn assert_includes(rt: &impl Abort, cert: &Cert, books: &[(&str, [u8; 32])], events: u32) {
    assert!(rt; is_of_book(cert, books.len(), events));
    for (place, (name, digest)) in books.iter().enumerate() {
        assert!(rt; is_included(cert, place, name, digest), "{place}");
    }
}

/// Whether what stands behind the first three lines is read as the book's certificate, with so many included books and
/// events, and written as it stands.
fn is_read(alloc: Global, rest: &str, includes: usize, events: u32) -> Result<bool, CertError> {
    let text = with_front(alloc, rest)?;
    let (cert, same) = read(alloc, text.as_slice())?;
    Ok(same && is_of_book(&cert, includes, events))
}

#[test]
fn digests_are_what_sha256sum_prints(rt: HostRuntime) {
    assert!(rt; digest_of(BOOK) == DIGEST);
    assert!(rt; digest_of(b"") == OF_NOTHING);
}

#[test]
fn a_certificate_is_written_and_read_back(rt: HostRuntime) -> Result<(), Fail> {
    let alloc = rt.alloc();
    let text = written(alloc, &[], 1)?;
    assert!(rt; text.as_slice() == TEXT.as_bytes());
    let back = read_cert(alloc, text.as_slice(), BOOK)?;
    assert!(rt; is_of_book(&back, 0, 1));
    Ok(())
}

/// Asserts that the book's certificate with these included books is read back as it was written.
fn assert_read_back(
    rt: &impl Abort,
    alloc: Global,
    books: &[(&str, [u8; 32])],
) -> Result<(), CertError> {
    let text = written(alloc, books, 3)?;
    let (back, same) = read(alloc, text.as_slice())?;
    assert!(rt; same);
    assert_includes(rt, &back, books, 3);
    Ok(())
}

/// Whether the certificate with the three included books is written as these lines.
fn is_written_so(alloc: Global) -> Result<bool, NoMemory> {
    let text = written(alloc, BOOKS, 3)?;
    let wanted = with_front(alloc, INCLUDES)?;
    Ok(text.as_slice() == wanted.as_slice())
}

#[test]
fn included_books_keep_their_order(rt: HostRuntime) -> Result<(), Fail> {
    let alloc = rt.alloc();
    assert_read_back(&rt, alloc, &BOOKS[..1])?;
    assert!(rt; is_written_so(alloc)?);
    assert_read_back(&rt, alloc, BOOKS)?;
    Ok(())
}

#[test]
fn numbers_and_names_are_read_to_their_limits(rt: HostRuntime) -> Result<(), Fail> {
    for (rest, includes, events) in [
        ("events 0\nend\n", 0, 0),
        ("events 4294967295\nend\n", 0, 4294967295),
        (LONG_NAME, 1, 7),
    ] {
        assert!(rt; is_read(rt.alloc(), rest, includes, events)?, "{rest}");
    }
    Ok(())
}
