//! A book that ends anywhere, and a sink that takes little or fails within a piece: what is put, what is stored and how the
//! session ends.
use crate::running::{Ended, NONE, only, run, run_short, sees, text_of};
use ap_session::{NoGate, Status};
use std::alloc::Global;
use std::num::NonZeroUsize;
use std::process::Abort;
use std::sync::Wait;
use std::test::Fail;
use std::thread::Threads;

/// A function on lists and its theorem, as they stand in a file.
const APP: &[u8] = b"(in-package \"ACL2\")
(defun app (x y) (if (consp x) (cons (car x) (app (cdr x) y)) y))
(defthm app-assoc (equal (app (app x y) z) (app x (app y z))))
";

/// The string of its first line: it is open behind its first place, and up to its last one.
const STRING: (usize, usize) = (12, 18);

/// How many bytes its events end at, with what is put where it ends there or behind the next line's end.
const WHOLE: [(usize, &str); 3] = [
    (19, "Book app / Book app certified"),
    (
        85,
        "Book app / DEFUN APP / Measure (ACL2-COUNT X) / Obligation 1 / Goal simplify 0 / DEFUN APP admitted / Book app certified",
    ),
    (148, WHOLE_TEXT),
];

/// What is put of all of it.
const WHOLE_TEXT: &str =
    "Book app / DEFUN APP / Measure (ACL2-COUNT X) / Obligation 1 / Goal simplify 0 / DEFUN APP admitted / DEFTHM APP-ASSOC / Goal push *1 / *1 induct 2 (APP X Y) / Subgoal *1/2 simplify 0 / Subgoal *1/1 simplify 0 / DEFTHM APP-ASSOC proved / Book app certified";

/// The place of the last parenthesis that nothing closes, in a text that has none in a string.
fn open_list(text: &[u8]) -> Option<usize> {
    let mut place = text.len();
    let mut closed = 0usize;
    for byte in text.iter().rev() {
        place = place.saturating_sub(1);
        if *byte == b')' {
            closed = closed.saturating_add(1);
        } else if *byte == b'(' {
            if closed == 0 {
                return Some(place);
            }
            closed = closed.saturating_sub(1);
        }
    }
    None
}

/// Asserts the status and the lines of a book of these bytes.
fn puts<R: Abort + Threads + Wait + Sync>(
    rt: &R,
    alloc: Global,
    book: &[u8],
    status: Status,
    lines: &str,
) -> Result<(), Fail> {
    let text = text_of(alloc, lines)?;
    let ended = run(rt, alloc, "app", only(alloc, "app", book)?, NONE, &NoGate)?;
    sees(rt, &ended, status, text.as_slice())
}

/// Asserts that a book of these bytes is refused by this line.
fn is_refused<R: Abort + Threads + Wait + Sync>(
    rt: &R,
    alloc: Global,
    book: &[u8],
    line: &str,
) -> Result<(), Fail> {
    let lines = format!(in alloc; "Book app / {line} / Book app not certified")?;
    puts(rt, alloc, book, Status::NotCertified, lines.as_str())
}

/// Asserts what is put of the first bytes of the book, so many: by where the text is cut.
fn is_cut_at<R: Abort + Threads + Wait + Sync>(
    rt: &R,
    alloc: Global,
    length: usize,
) -> Result<(), Fail> {
    let book = &APP[..length.min(APP.len())];
    if length == 0 {
        return is_refused(rt, alloc, book, "IN-PACKAGE refused 12 NoInPackage");
    }
    if STRING.0 < length && length < STRING.1 {
        return is_refused(rt, alloc, book, "Read error 1 OpenString at 12");
    }
    if let Some(place) = open_list(book) {
        let line = format!(in alloc; "Read error 6 OpenList at {place}")?;
        return is_refused(rt, alloc, book, line.as_str());
    }
    let mut lines = "";
    for (end, put) in WHOLE {
        if end <= length {
            lines = put;
        }
    }
    puts(rt, alloc, book, Status::Certified, lines)
}

#[test]
fn a_book_that_ends_anywhere_is_read_as_far_as_it_goes(rt: HostRuntime) -> Result<(), Fail> {
    assert_eq!(&rt; APP.len(), 149);
    for length in 0..150 {
        is_cut_at(&rt, rt.alloc(), length)?;
    }
    Ok(())
}

/// Asserts the status and the text of a session, and whether the book's certificate is stored.
fn left<R: Abort>(
    rt: &R,
    ended: &Ended,
    status: Status,
    text: &[u8],
    stored: bool,
) -> Result<(), Fail> {
    assert_eq!(rt; ended.stored("app.cert").is_some(), stored);
    sees(rt, ended, status, text)
}

/// Asserts that a sink that takes so many bytes at a call gets the whole text.
fn gets_all<R: Abort + Threads + Wait + Sync>(
    rt: &R,
    alloc: Global,
    most: NonZeroUsize,
    text: &[u8],
) -> Result<(), Fail> {
    let ended = run_short(rt, alloc, "app", only(alloc, "app", APP)?, most, 0)?;
    left(rt, &ended, Status::Certified, text, true)
}

/// Asserts that a sink that takes a byte at a call, and fails at this one, has the bytes before it; and that the certificate
/// is stored where these are all that stands before the last line.
fn gets_part<R: Abort + Threads + Wait + Sync>(
    rt: &R,
    alloc: Global,
    call: u32,
    part: &[u8],
    before_last: usize,
) -> Result<(), Fail> {
    let files = only(alloc, "app", APP)?;
    let ended = run_short(rt, alloc, "app", files, NonZeroUsize::MIN, call)?;
    left(
        rt,
        &ended,
        Status::WriteFault,
        part,
        before_last <= part.len(),
    )
}

#[test]
fn a_sink_that_takes_little_gets_all_up_to_the_call_that_fails(
    rt: HostRuntime,
) -> Result<(), Fail> {
    let text = text_of(rt.alloc(), WHOLE_TEXT)?;
    for more in [0, 1, 6, 63] {
        gets_all(
            &rt,
            rt.alloc(),
            NonZeroUsize::MIN.saturating_add(more),
            text.as_slice(),
        )?;
    }
    let before_last = text.len().saturating_sub(b"Book app certified\n".len());
    let mut call = 0u32;
    for (taken, _) in text.as_slice().iter().enumerate() {
        call = call.saturating_add(1);
        let part = &text.as_slice()[..taken];
        gets_part(&rt, rt.alloc(), call, part, before_last)?;
    }
    Ok(())
}
