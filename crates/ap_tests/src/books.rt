//! A book's course, by a table.
use crate::expect::expect;
use crate::numbering::Numbering;
use ap_books::{BookFault, BookSeen, certify_book, closing};
use ap_list::{Bytes, NoMemory, Seq};
use ap_outside::{BookBytes, BookRead, MemorySink};
use ap_value::BookName;
use std::alloc::Global;
use std::process::Abort;
use std::sync::Wait;
use std::test::Fail;
use std::thread::Threads;

/// What is read of a book that may be absent; one of more than 1,000 bytes is too long.
fn read(alloc: Global, text: Option<&[u8]>) -> Result<BookRead, NoMemory> {
    let Some(text) = text else {
        return Ok(BookRead::Absent);
    };
    let bytes = Bytes::from_slice(alloc, text)?;
    if bytes.len() > 1000 {
        return Ok(BookRead::TooLong);
    }
    Ok(BookRead::Found(BookBytes(bytes)))
}

/// The same with the name `b`.
fn seen(alloc: Global, text: Option<&[u8]>) -> Result<BookSeen, NoMemory> {
    let name = BookName(Bytes::from_slice(alloc, b"b")?);
    let read = read(alloc, text)?;
    Ok(BookSeen { name, read })
}

/// Works a book, whose forms are numbered from 65 and refused at `last`. Answers how that ended, and the number that
/// comes next.
fn worked<R: Threads + Wait + Sync>(
    rt: &R,
    alloc: Global,
    book: &BookSeen,
    last: u8,
    sink: &mut MemorySink,
) -> (Result<bool, BookFault>, u8) {
    let mut admitter = Numbering { next: 65, last };
    let ended = certify_book(rt, alloc, book, &mut admitter, sink);
    (ended, admitter.next)
}

/// A book's text, the number at which its form is refused, and the puts that fail; what is put, whether the book is certified,
/// and the number that comes next.
type Row = (
    Option<&'static [u8]>,
    u8,
    &'static [u32],
    &'static str,
    Result<bool, BookFault>,
    u8,
);

const FOUR: Option<&[u8]> = Some(b"(in-package \"ACL2\") (a) b 3 \"c\"");

const TWO: Option<&[u8]> = Some(b"(in-package \"ACL2\") a b");

const NO_PACKAGE: &str = "Book b\nIN-PACKAGE refused 12 NoInPackage\n";

const CUT: Result<bool, BookFault> = Err(BookFault::Write);

const ROWS: &[Row] = &[
    // Forms behind the package are worked in order, and a refused one is the last.
    (FOUR, 255, &[], "Book b\nABCD.", Ok(true), 69),
    (FOUR, 66, &[], "Book b\nAB", Ok(false), 67),
    (
        Some(b"(in-package \"ACL2\")"),
        255,
        &[],
        "Book b\n.",
        Ok(true),
        65,
    ),
    // Nothing is worked without the package.
    (Some(b""), 255, &[], NO_PACKAGE, Ok(false), 65),
    (
        Some(b"(a) (in-package \"ACL2\")"),
        255,
        &[],
        NO_PACKAGE,
        Ok(false),
        65,
    ),
    (
        Some(b"(in-package \"acl2\") (a)"),
        255,
        &[],
        NO_PACKAGE,
        Ok(false),
        65,
    ),
    (
        Some(b"(in-package \"ACL2\" 1) (a)"),
        255,
        &[],
        NO_PACKAGE,
        Ok(false),
        65,
    ),
    (
        Some(b"in-package \"ACL2\""),
        255,
        &[],
        NO_PACKAGE,
        Ok(false),
        65,
    ),
    // Nothing is worked of a book that isn't read.
    (None, 255, &[], "Book b\nAbsent\n", Ok(false), 65),
    (
        Some(&[b';'; 1001]),
        255,
        &[],
        "Book b\nToo long\n",
        Ok(false),
        65,
    ),
    (
        Some(b"(in-package \"ACL2\") (a"),
        255,
        &[],
        "Book b\nRead error 6 OpenList at 20\n",
        Ok(false),
        65,
    ),
    // A fault of the sink ends the book.
    (TWO, 255, &[1], "", CUT, 65),
    (TWO, 255, &[2], "Book b\n", CUT, 66),
    (TWO, 255, &[3], "Book b\nA", CUT, 67),
    (TWO, 255, &[4], "Book b\nAB", CUT, 67),
];

/// Compares how a book's course went with its row.
fn expect_row<R: Threads + Wait + Sync + Abort>(
    rt: &R,
    alloc: Global,
    row: &Row,
) -> Result<(), NoMemory> {
    let (text, last, failing, put, ended, next) = *row;
    let mut sink = MemorySink::new(alloc, Seq::from_slice(alloc, failing)?);
    let book = seen(alloc, text)?;
    let found = worked(rt, alloc, &book, last, &mut sink);
    assert!(rt; found == (ended, next), "{put}");
    expect(rt, sink.content(), put);
    Ok(())
}

#[test]
fn books_are_worked_as_the_rows_say(rt: HostRuntime) -> Result<(), Fail> {
    for row in ROWS {
        expect_row(&rt, rt.alloc(), row)?;
    }
    Ok(())
}

#[test]
fn the_closing_line_tells_the_verdict(rt: HostRuntime) -> Result<(), Fail> {
    expect(
        &rt,
        closing(rt.alloc(), b"b", true)?.as_slice(),
        "Book b certified\n",
    );
    expect(
        &rt,
        closing(rt.alloc(), b"b", false)?.as_slice(),
        "Book b not certified\n",
    );
    Ok(())
}
