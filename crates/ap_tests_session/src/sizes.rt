//! Books at the limits of size: nesting, nodes of a term, goals below the first, bytes.
use crate::running::prints;
use std::alloc::Global;
use std::process::Abort;
use std::sync::Wait;
use std::test::Fail;
use std::thread::Threads;

/// So many of a byte between two texts.
fn between(
    alloc: Global,
    before: &[u8],
    byte: u8,
    count: usize,
    after: &[u8],
) -> Result<Vec<u8>, Fail> {
    let mut out = Vec::from_slice(alloc, before)?;
    for _ in 0..count {
        out.push(byte)?;
    }
    out.extend_from_slice(after)?;
    Ok(out)
}

/// Asserts what is printed of a book with so many parentheses open.
fn nested<R: Abort + Threads + Wait + Sync>(
    rt: &R,
    alloc: Global,
    count: usize,
    text: &[u8],
) -> Result<(), Fail> {
    let book = between(alloc, b"(in-package \"ACL2\")\n", b'(', count, b"")?;
    prints(rt, alloc, book.as_slice(), text)
}

#[test]
fn four_hundred_lists_may_stand_within_each_other(rt: HostRuntime) -> Result<(), Fail> {
    let alloc = rt.alloc();
    let deep = b"Book b\nRead error 10 TooDeep at 420\nBook b not certified\n";
    nested(&rt, alloc, 401, deep)?;
    let open = b"Book b\nRead error 6 OpenList at 419\nBook b not certified\n";
    nested(&rt, alloc, 400, open)
}

/// A theorem on two strings of the same length.
fn strings(alloc: Global, count: usize) -> Result<Vec<u8>, Fail> {
    let first = b"(in-package \"ACL2\")\n(defthm a (equal \"";
    let half = between(alloc, first, b'a', count, b"\" \"")?;
    between(
        alloc,
        half.as_slice(),
        b'a',
        count,
        b"\") :rule-classes nil)",
    )
}

/// Asserts what is printed of a theorem on two strings of so many characters.
fn equal_strings<R: Abort + Threads + Wait + Sync>(
    rt: &R,
    alloc: Global,
    count: usize,
    text: &[u8],
) -> Result<(), Fail> {
    let book = strings(alloc, count)?;
    prints(rt, alloc, book.as_slice(), text)
}

/// A theorem on a list of a hundred thousand symbols.
fn long_list(alloc: Global) -> Result<Vec<u8>, Fail> {
    let first = b"(in-package \"ACL2\")\n(defthm a (equal x '(";
    let mut list = Vec::from_slice(alloc, first)?;
    for _ in 0..100_000 {
        list.extend_from_slice(b"a ")?;
    }
    list.extend_from_slice(b")) :rule-classes nil)")?;
    Ok(list)
}

#[test]
fn a_term_of_more_than_4096_nodes_is_too_large(rt: HostRuntime) -> Result<(), Fail> {
    let alloc = rt.alloc();
    let proved = b"Book b\nDEFTHM A\nGoal simplify 0\nDEFTHM A proved\nBook b certified\n";
    equal_strings(&rt, alloc, 2046, proved)?;
    let refused = b"Book b\nDEFTHM A\nDEFTHM A refused 4.5 TermTooLarge\nBook b not certified\n";
    equal_strings(&rt, alloc, 2047, refused)?;
    let list = long_list(alloc)?;
    prints(&rt, alloc, list.as_slice(), refused)
}

/// A theorem of so many hypotheses, each an equation of two variables of its own.
fn equations(alloc: Global, count: u32) -> Result<Vec<u8>, Fail> {
    let first = b"(in-package \"ACL2\")\n(defthm d (implies (and";
    let mut book = Vec::from_slice(alloc, first)?;
    for k in 0..count {
        book.extend_from_slice(format!(in alloc; " (equal x{k} y{k})")?.as_bytes())?;
    }
    book.extend_from_slice(b") z) :rule-classes nil)")?;
    Ok(book)
}

/// The name of the goal so many steps below the first.
fn primed(alloc: Global, steps: u32) -> Result<String, Fail> {
    let name = match steps {
        0 => "Goal",
        1 => "Goal'",
        2 => "Goal''",
        3 => "Goal'''",
        _ => return Ok(format!(in alloc; "Goal'{steps}'")?),
    };
    Ok(String::from_str(alloc, name)?)
}

/// The lines of so many goals, each of which has one child, and what follows them.
fn steps(alloc: Global, count: u32, end: &[u8]) -> Result<Vec<u8>, Fail> {
    let mut text = Vec::from_slice(alloc, b"Book b\nDEFTHM D\n")?;
    for k in 0..count {
        text.extend_from_slice(primed(alloc, k)?.as_bytes())?;
        text.extend_from_slice(b" simplify 1\n")?;
    }
    text.extend_from_slice(end)?;
    Ok(text)
}

/// Asserts what is printed of a theorem of so many hypotheses: so many goals, each of which has one child, and this behind.
fn stops<R: Abort + Threads + Wait + Sync>(
    rt: &R,
    alloc: Global,
    count: u32,
    end: &[u8],
) -> Result<(), Fail> {
    let text = steps(alloc, count, end)?;
    let book = equations(alloc, count)?;
    prints(rt, alloc, book.as_slice(), text.as_slice())
}

#[test]
fn an_attempt_stops_250_goals_below_the_first(rt: HostRuntime) -> Result<(), Fail> {
    let alloc = rt.alloc();
    let pushed =
        b"Goal'249' push *1\n*1 noscheme\nCheckpoints before induction\nGoal'249': Z\nDEFTHM D refused 8.1 NoScheme\nBook b not certified\n";
    stops(&rt, alloc, 249, pushed)?;
    let deep = b"Goal'250' deep\nDEFTHM D refused 8.4 PathDepth\nBook b not certified\n";
    stops(&rt, alloc, 250, deep)
}

/// Asserts what is printed of a book of so many blanks.
fn blank<R: Abort + Threads + Wait + Sync>(
    rt: &R,
    alloc: Global,
    count: usize,
    text: &[u8],
) -> Result<(), Fail> {
    let book = between(alloc, b"", b' ', count, b"")?;
    prints(rt, alloc, book.as_slice(), text)
}

#[test]
fn a_book_of_one_byte_more_is_too_long(rt: HostRuntime) -> Result<(), Fail> {
    let text = b"Book b\nToo long\nBook b not certified\n";
    blank(&rt, rt.alloc(), 4_194_305, text)
}
