//! One way to certify books that stand in memory, and what is told of it.
use ap_outside::{MemoryLibrary, MemorySink};
use ap_session::{Bytes, Gate, NoGate, Seq, Status, certify};
use std::alloc::Global;
use std::num::NonZeroUsize;
use std::process::Abort;
use std::sync::Wait;
use std::test::Fail;
use std::thread::Threads;

/// Names with the bytes that stand there.
pub(crate) type Files = Seq<(Bytes, Bytes)>;

/// The book of a row that has none.
const REFL: &str = "refl: (defthm refl (equal x x) :rule-classes nil)";

/// No call of the library and none of the sink fails: their calls are counted from 1.
pub(crate) const NONE: (u32, u32) = (0, 0);

/// The books and what is put, in memory.
#[derive(Drop)]
struct Outside {
    library: MemoryLibrary,
    sink: MemorySink,
}

/// What a session came to: its status, how many books it lists and how many drops it tells, and the books and what is put
/// behind it.
#[derive(Drop)]
pub(crate) struct Ended {
    pub(crate) status: Status,
    pub(crate) books: usize,
    pub(crate) drops: usize,
    outside: Outside,
}

impl Ended {
    /// What is put.
    pub(crate) fn text(&self) -> &[u8] {
        self.outside.sink.content()
    }

    /// How many lines are put.
    pub(crate) fn lines(&self) -> usize {
        self.text().iter().filter(|byte| **byte == 10).count()
    }

    /// What stands in a file, and nothing where it isn't there.
    pub(crate) fn stored(&self, name: &str) -> Option<&[u8]> {
        self.outside.library.stored(name)
    }
}

/// A library and a sink, of which these calls fail. The sink takes at most so many bytes at a call.
fn outside_of(
    alloc: Global,
    files: Files,
    failing: (u32, u32),
    most: NonZeroUsize,
) -> Result<Outside, Fail> {
    let library = MemoryLibrary::new(files, Seq::from_slice(alloc, &[failing.0])?);
    Ok(Outside {
        library,
        sink: MemorySink::short(alloc, most, Seq::from_slice(alloc, &[failing.1])?),
    })
}

/// The words of a line.
fn words_of(alloc: Global, line: &str) -> Result<Vec<String>, Fail> {
    let mut words = Vec::new(alloc);
    for word in line.split(" ") {
        if !word.is_empty() {
            words.push(String::from_str(alloc, word)?)?;
        }
    }
    Ok(words)
}

/// Certifies what these words name, over these books and this sink.
fn ended_of<R: Threads + Wait + Sync, G: Gate + Sync>(
    rt: &R,
    alloc: Global,
    words: &[String],
    mut outside: Outside,
    gate: &G,
) -> Ended {
    let report = certify(
        rt,
        alloc,
        words,
        &mut outside.library,
        &mut outside.sink,
        gate,
    );
    Ended {
        status: report.status,
        books: report.books.len(),
        drops: report.drops.len(),
        outside,
    }
}

/// Certifies what a line's words name of these files, while these calls of the library and of the sink fail.
pub(crate) fn run<R: Threads + Wait + Sync, G: Gate + Sync>(
    rt: &R,
    alloc: Global,
    line: &str,
    files: Files,
    failing: (u32, u32),
    gate: &G,
) -> Result<Ended, Fail> {
    let outside = outside_of(alloc, files, failing, NonZeroUsize::MAX)?;
    let words = words_of(alloc, line)?;
    Ok(ended_of(rt, alloc, words.as_slice(), outside, gate))
}

/// Certifies what a line's words name of these files, into a sink that takes at most so many bytes at a call and fails at
/// one.
pub(crate) fn run_short<R: Threads + Wait + Sync>(
    rt: &R,
    alloc: Global,
    line: &str,
    files: Files,
    most: NonZeroUsize,
    failing: u32,
) -> Result<Ended, Fail> {
    let outside = outside_of(alloc, files, (0, failing), most)?;
    let words = words_of(alloc, line)?;
    Ok(ended_of(rt, alloc, words.as_slice(), outside, &NoGate))
}

/// Asserts the status and what is put.
pub(crate) fn sees<R: Abort>(
    rt: &R,
    ended: &Ended,
    status: Status,
    text: &[u8],
) -> Result<(), Fail> {
    assert_eq!(rt; ended.status, status);
    assert_eq!(rt; ended.text(), text);
    Ok(())
}

/// The book of this name and these bytes alone.
pub(crate) fn only(alloc: Global, name: &str, bytes: &[u8]) -> Result<Files, Fail> {
    let mut files = Seq::new(alloc);
    add(alloc, name, bytes, &mut files)?;
    Ok(files)
}

/// One more book, of this name and these bytes.
fn add(alloc: Global, name: &str, bytes: &[u8], files: &mut Files) -> Result<(), Fail> {
    let file = format!(in alloc; "{name}.lisp")?;
    files.push((
        Bytes::from_slice(alloc, file.as_bytes())?,
        Bytes::from_slice(alloc, bytes)?,
    ))?;
    Ok(())
}

/// One more book, of this name and these events behind its first line.
pub(crate) fn add_book(
    alloc: Global,
    name: &str,
    events: &str,
    files: &mut Files,
) -> Result<(), Fail> {
    let text = format!(in alloc; "(in-package \"ACL2\")\n{events}")?;
    add(alloc, name, text.as_bytes(), files)
}

/// The book of this name and these events behind its first line alone.
pub(crate) fn book_of(alloc: Global, name: &str, events: &str) -> Result<Files, Fail> {
    let mut files = Seq::new(alloc);
    add_book(alloc, name, events, &mut files)?;
    Ok(files)
}

/// These books, `NAME: EVENTS`, which stand between bars.
pub(crate) fn books_of(alloc: Global, books: &str) -> Result<Files, Fail> {
    let mut files = Seq::new(alloc);
    for book in books.split(" | ") {
        if let Some((name, events)) = book.split_once(": ") {
            add_book(alloc, name, events, &mut files)?;
        }
    }
    Ok(files)
}

/// What stands before and behind a mark in a row, or the row and what stands for the rest where it has no mark.
pub(crate) fn parted<'a>(row: &'a str, mark: &str, rest: &'a str) -> (&'a str, &'a str) {
    match row.split_once(mark) {
        Some(parts) => parts,
        None => (row, rest),
    }
}

/// Certifies what a row's words name of its books, `WORDS | NAME: EVENTS | NAME: EVENTS`, while these calls of the library
/// and of the sink fail. A row without books has the book `refl`.
pub(crate) fn session<R: Threads + Wait + Sync, G: Gate + Sync>(
    rt: &R,
    alloc: Global,
    row: &str,
    failing: (u32, u32),
    gate: &G,
) -> Result<Ended, Fail> {
    let (words, books) = parted(row, " | ", REFL);
    run(rt, alloc, words, books_of(alloc, books)?, failing, gate)
}

/// Certifies what each row of a table asks for, and asserts the status and the lines that are put, which stand behind an
/// arrow and between strokes, or are these where a row has none.
pub(crate) fn sessions_print<R: Abort + Threads + Wait + Sync>(
    rt: &R,
    alloc: Global,
    table: &str,
    status: Status,
    lines: &str,
    rows: u32,
) -> Result<(), Fail> {
    let mut count = 0u32;
    for row in table.lines() {
        count = count.saturating_add(1);
        let (asked, lines) = parted(row, " => ", lines);
        session_prints(rt, alloc, asked, status, lines, &NoGate)?;
    }
    assert_eq!(rt; count, rows);
    Ok(())
}

/// Certifies what a row asks for, and asserts the status and the lines that are put.
pub(crate) fn session_prints<R: Abort + Threads + Wait + Sync, G: Gate + Sync>(
    rt: &R,
    alloc: Global,
    asked: &str,
    status: Status,
    lines: &str,
    gate: &G,
) -> Result<(), Fail> {
    let text = text_of(alloc, lines)?;
    let ended = session(rt, alloc, asked, NONE, gate)?;
    sees(rt, &ended, status, text.as_slice())
}

/// A text of these lines, which stand between strokes.
pub(crate) fn text_of(alloc: Global, lines: &str) -> Result<Vec<u8>, Fail> {
    let mut text = Vec::new(alloc);
    for line in lines.split(" / ") {
        text.extend_from_slice(line.as_bytes())?;
        text.push(10)?;
    }
    Ok(text)
}

/// Certifies the book `b` of these bytes, and asserts what is put.
pub(crate) fn prints<R: Abort + Threads + Wait + Sync>(
    rt: &R,
    alloc: Global,
    book: &[u8],
    text: &[u8],
) -> Result<(), Fail> {
    let certified = text.ends_with(b" certified\n") && !text.ends_with(b"not certified\n");
    let status = if certified {
        Status::Certified
    } else {
        Status::NotCertified
    };
    let ended = run(rt, alloc, "b", only(alloc, "b", book)?, NONE, &NoGate)?;
    sees(rt, &ended, status, text)
}
