//! What is stored of a book that is certified, by whom and when.
use crate::running::{Ended, NONE, sees, session, text_of};
use ap_session::{NoGate, Status};
use std::alloc::Global;
use std::process::Abort;
use std::sync::Wait;
use std::test::Fail;
use std::thread::Threads;

/// What is asked for, which call of the library fails, a file, and what is stored in it; nothing where it isn't.
type Stored = (&'static str, u32, &'static str, &'static [u8]);

const STORED: [Stored; 6] = [
    (
        "refl",
        0,
        "refl.cert",
        b"acl2p certificate 1\nbook refl\nsha256 be899e77109c580c5dcb9c41207e46f3e3e5afd9b1862e2b27bd03ad6b065e7a\nevents 1\nend\n",
    ),
    (
        "refl a | refl: (defthm refl (equal x x) :rule-classes nil) | a: (defun f (x) x)",
        3,
        "refl.cert",
        b"acl2p certificate 1\nbook refl\nsha256 be899e77109c580c5dcb9c41207e46f3e3e5afd9b1862e2b27bd03ad6b065e7a\nevents 1\nend\n",
    ),
    ("a | a: (defun f (x) x)", 2, "a.cert", b""),
    ("a | a: (defun f (x) x) (defun f (x) x)", 0, "a.cert", b""),
    (
        "a | a: (local (defun g (x) x)) (defun f (x) (g x))",
        0,
        "a.cert",
        b"",
    ),
    (
        "a u | a: (defun f (x) x) | u: (include-book \"a\") (local (include-book \"a\")) (progn (local (defun g (x) x)) (encapsulate () (defun h (x) x) (defconst *c* 3)))",
        0,
        "u.cert",
        b"acl2p certificate 1\nbook u\nsha256 c8774a14e8ec6d3957a2f366671dfe4f0acb9c9fec578ff82835ff3f497e806c\ninclude a c159457df1e97b5b23919e164936796a1868c65652b072062c9a825222f69bd4\nevents 5\nend\n",
    ),
];

/// Asserts what is stored in a file behind a session; nothing where it isn't there.
fn has<R: Abort>(rt: &R, ended: &Ended, name: &str, text: &[u8]) -> Result<(), Fail> {
    match ended.stored(name) {
        Some(found) => assert_eq!(rt; found, text),
        None => assert!(rt; text.is_empty()),
    }
    Ok(())
}

/// Asserts what a row says.
fn stores<R: Abort + Threads + Wait + Sync>(
    rt: &R,
    alloc: Global,
    stored: &Stored,
) -> Result<(), Fail> {
    let (asked, failing, name, text) = *stored;
    let ended = session(rt, alloc, asked, (failing, 0), &NoGate)?;
    has(rt, &ended, name, text)
}

#[test]
fn a_certified_book_leaves_its_certificate(rt: HostRuntime) -> Result<(), Fail> {
    for stored in &STORED {
        stores(&rt, rt.alloc(), stored)?;
    }
    Ok(())
}

/// A session of a book of 300 events, each of which enables nothing.
fn many_events(alloc: Global) -> Result<String, Fail> {
    let mut books = String::from_str(alloc, "many | many: ")?;
    for _ in 0..300 {
        books.push_str("(in-theory (enable)) ")?;
    }
    Ok(books)
}

#[test]
fn a_certificate_counts_more_events_than_a_byte(rt: HostRuntime) -> Result<(), Fail> {
    let alloc = rt.alloc();
    let asked = many_events(alloc)?;
    let ended = session(&rt, alloc, asked.as_str(), NONE, &NoGate)?;
    let text =
        b"acl2p certificate 1\nbook many\nsha256 e33fec22c9d0a9f4ccc39dd2f9a90f3191cd9cd1eacdfeeb436f52db8acf39fe\nevents 300\nend\n";
    has(&rt, &ended, "many.cert", text)
}

/// Two books, the first of one event and the second of two.
const TWO: &str =
    "refl app | refl: (defthm refl (equal x x) :rule-classes nil) | app: (defun app (x y) (if (consp x) (cons (car x) (app (cdr x) y)) y)) (defthm app-assoc (equal (app (app x y) z) (app x (app y z))))";

/// What they put, piece by piece: each book's first line, its events' texts, and its last line.
const PIECES: [&str; 7] = [
    "Book refl",
    "DEFTHM REFL / Goal simplify 0 / DEFTHM REFL proved",
    "Book refl certified",
    "Book app",
    "DEFUN APP / Measure (ACL2-COUNT X) / Obligation 1 / Goal simplify 0 / DEFUN APP admitted",
    "DEFTHM APP-ASSOC / Goal push *1 / *1 induct 2 (APP X Y) / Subgoal *1/2 simplify 0 / Subgoal *1/1 simplify 0 / DEFTHM APP-ASSOC proved",
    "Book app certified",
];

/// Which call of the library and which of the sink fails, the status, how many pieces are put, and whether the first book's
/// certificate is stored, and the second one's.
type Cut = ((u32, u32), Status, usize, (bool, bool));

const CUTS: [Cut; 12] = [
    (NONE, Status::Certified, 7, (true, true)),
    ((0, 1), Status::WriteFault, 0, (false, false)),
    ((0, 2), Status::WriteFault, 1, (false, false)),
    ((0, 3), Status::WriteFault, 2, (true, false)),
    ((0, 4), Status::WriteFault, 3, (true, false)),
    ((0, 5), Status::WriteFault, 4, (true, false)),
    ((0, 6), Status::WriteFault, 5, (true, false)),
    ((0, 7), Status::WriteFault, 6, (true, true)),
    ((1, 0), Status::ReadFault, 0, (false, false)),
    ((2, 0), Status::WriteFault, 2, (false, false)),
    ((3, 0), Status::ReadFault, 3, (true, false)),
    ((4, 0), Status::WriteFault, 6, (true, false)),
];

/// The first pieces as one text.
fn first_pieces(alloc: Global, count: usize) -> Result<Vec<u8>, Fail> {
    let mut text = Vec::new(alloc);
    for piece in PIECES.iter().take(count) {
        text.extend_from_slice(text_of(alloc, piece)?.as_slice())?;
    }
    Ok(text)
}

/// Asserts the status, what is put, and which certificates are stored.
fn is_cut<R: Abort>(rt: &R, alloc: Global, ended: &Ended, cut: &Cut) -> Result<(), Fail> {
    let (_, status, pieces, stored) = *cut;
    let first = ended.stored("refl.cert").is_some();
    let second = ended.stored("app.cert").is_some();
    assert_eq!(rt; (first, second), stored);
    sees(rt, ended, status, first_pieces(alloc, pieces)?.as_slice())
}

/// Asserts what is put and stored under these options where these calls fail.
fn cuts<R: Abort + Threads + Wait + Sync>(
    rt: &R,
    alloc: Global,
    options: &str,
    cut: &Cut,
) -> Result<(), Fail> {
    let asked = format!(in alloc; "{options}{TWO}")?;
    let ended = session(rt, alloc, asked.as_str(), cut.0, &NoGate)?;
    is_cut(rt, alloc, &ended, cut)
}

#[test]
fn a_certificate_is_stored_before_the_last_line(rt: HostRuntime) -> Result<(), Fail> {
    for cut in &CUTS {
        cuts(&rt, rt.alloc(), "", cut)?;
        cuts(&rt, rt.alloc(), "--workers 4 ", cut)?;
    }
    Ok(())
}
