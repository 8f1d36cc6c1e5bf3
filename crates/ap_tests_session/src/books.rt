//! Several books: what one includes of those before it, and how many there may be.
use crate::running::{Ended, Files, NONE, add_book, run, sees, sessions_print, text_of};
use crate::words::USAGE;
use ap_session::{NoGate, Seq, Status};
use std::alloc::Global;
use std::process::Abort;
use std::sync::Wait;
use std::test::Fail;
use std::thread::Threads;

/// Sessions whose books are all certified: a book includes those before it, and sees nothing of theirs that is local.
const INCLUDED: &str =
    r##"a u | a: (defun f (x) x) | u: (include-book "a") (defthm ff (equal (f x) x) :rule-classes nil) => Book a / DEFUN F / DEFUN F admitted / Book a certified / Book u / INCLUDE-BOOK a admitted / DEFTHM FF / Goal simplify 0 / DEFTHM FF proved / Book u certified
a u v | a: (defun f (x) x) | u: (include-book "a") (include-book "a") | v: (include-book "u") (local (include-book "a")) (defun g (x) (f x)) => Book a / DEFUN F / DEFUN F admitted / Book a certified / Book u / INCLUDE-BOOK a admitted / INCLUDE-BOOK a admitted / Book u certified / Book v / INCLUDE-BOOK u admitted / INCLUDE-BOOK a admitted / DEFUN G / DEFUN G admitted / Book v certified
a b u | a: (local (defun g (x) x)) (defun h (x) x) (local (defthm hh (equal (h x) x))) | b: (defun h (x) x) (defun k (x) x) | u: (include-book "a") (include-book "b") (defun g (x y) (k x)) => Book a / DEFUN G / DEFUN G admitted / DEFUN H / DEFUN H admitted / DEFTHM HH / Goal simplify 0 / DEFTHM HH proved / Book a certified / Book b / DEFUN H / DEFUN H admitted / DEFUN K / DEFUN K admitted / Book b certified / Book u / INCLUDE-BOOK a admitted / INCLUDE-BOOK b admitted / DEFUN G / DEFUN G admitted / Book u certified
a | a: (local (defthm lemma (equal (car (cons x y)) x) :rule-classes nil)) (defthm b (equal (cdr (cons x y)) y) :hints (("Goal" :use lemma)) :rule-classes nil) => Book a / DEFTHM LEMMA / Goal simplify 0 / DEFTHM LEMMA proved / DEFTHM B / Goal hint 1 / Goal' simplify 0 / DEFTHM B proved / Book a certified
a u | a: (defund f (x) (equal x x)) (encapsulate () (local (in-theory (enable f))) (defthm f-true (f x))) | u: (encapsulate () (local (include-book "a")) (defun g (x) x)) (defun f (x) x) => Book a / DEFUN F / DEFUN F admitted / IN-THEORY admitted / DEFTHM F-TRUE / Goal simplify 0 / DEFTHM F-TRUE proved / Book a certified / Book u / INCLUDE-BOOK a admitted / DEFUN G / DEFUN G admitted / DEFUN F / DEFUN F admitted / Book u certified"##;

/// Sessions in which a book isn't certified: one that isn't there to be included, two that clash, a theory that is
/// included, and a local book.
const UNINCLUDED: &str =
    r##"u a | u: (include-book "a") | a: (defun f (x) x) => Book u / INCLUDE-BOOK a refused 9 NoSuchBook / Book u not certified / Book a / DEFUN F / DEFUN F admitted / Book a certified
a u | a: (defun f (x) x) (defun f (x) x) | u: (include-book "a") => Book a / DEFUN F / DEFUN F admitted / DEFUN F / DEFUN F refused 3 NameTaken / Book a not certified / Book u / INCLUDE-BOOK a refused 9 NoSuchBook / Book u not certified
a u | a: (local (defun g (x) x)) (defun h (x) (g x)) | u: (include-book "a") => Book a / DEFUN G / DEFUN G admitted / DEFUN H / DEFUN H admitted / Second pass / DEFUN H refused 4.1 UnknownName / Book a not certified / Book u / INCLUDE-BOOK a refused 9 NoSuchBook / Book u not certified
a b u | a: (defun f (x) x) | b: (defun f (x) (cons x x)) | u: (include-book "a") (include-book "b") => Book a / DEFUN F / DEFUN F admitted / Book a certified / Book b / DEFUN F / DEFUN F admitted / Book b certified / Book u / INCLUDE-BOOK a admitted / INCLUDE-BOOK b refused 3 NameTaken / Book u not certified
a u | a: (defund q (x) (equal x x)) | u: (include-book "a") (defthm q-holds (q x)) => Book a / DEFUN Q / DEFUN Q admitted / Book a certified / Book u / INCLUDE-BOOK a admitted / DEFTHM Q-HOLDS / Goal push *1 / *1 noscheme / Checkpoints before induction / Goal: (Q X) / DEFTHM Q-HOLDS refused 8.1 NoScheme / Book u not certified
a u | a: (defun f (x) x) | u: (local (include-book "a")) (defthm ff (equal (f x) x) :rule-classes nil) => Book a / DEFUN F / DEFUN F admitted / Book a certified / Book u / INCLUDE-BOOK a admitted / DEFTHM FF / Goal simplify 0 / DEFTHM FF proved / Second pass / DEFTHM FF refused 4.1 UnknownName / Book u not certified"##;

#[test]
fn a_book_includes_the_certified_ones_before_it(rt: HostRuntime) -> Result<(), Fail> {
    let alloc = rt.alloc();
    sessions_print(&rt, alloc, INCLUDED, Status::Certified, "", 5)?;
    sessions_print(&rt, alloc, UNINCLUDED, Status::NotCertified, "", 6)
}

/// The names of so many books.
fn names_of(alloc: Global, count: u32) -> Result<String, Fail> {
    let mut names = String::new(alloc);
    for k in 0..count {
        names.push_str(format!(in alloc; " b{k}")?.as_str())?;
    }
    Ok(names)
}

/// So many books of one text.
fn library_of(alloc: Global, count: u32) -> Result<Files, Fail> {
    let mut files = Seq::new(alloc);
    for k in 0..count {
        let name = format!(in alloc; "b{k}")?;
        add_book(alloc, name.as_str(), "(defun f (x) x)", &mut files)?;
    }
    Ok(files)
}

/// The texts of so many of these books, one behind the other.
fn texts_of(alloc: Global, count: u32) -> Result<Vec<u8>, Fail> {
    let mut text = Vec::new(alloc);
    for k in 0..count {
        let book = format!(in alloc;
            "Book b{k}\nDEFUN F\nDEFUN F admitted\nBook b{k} certified\n"
        )?;
        text.extend_from_slice(book.as_bytes())?;
    }
    Ok(text)
}

/// Certifies so many of these books.
fn many<R: Threads + Wait + Sync>(rt: &R, alloc: Global, count: u32) -> Result<Ended, Fail> {
    let names = names_of(alloc, count)?;
    let files = library_of(alloc, count)?;
    run(rt, alloc, names.as_str(), files, NONE, &NoGate)
}

/// Asserts how many books are listed, the status and what is put.
fn lists<R: Abort>(
    rt: &R,
    ended: &Ended,
    books: usize,
    status: Status,
    text: &[u8],
) -> Result<(), Fail> {
    assert_eq!(rt; ended.books, books);
    sees(rt, ended, status, text)
}

#[test]
fn up_to_64_books_are_worked_in_order_each_from_the_ground_world(
    rt: HostRuntime,
) -> Result<(), Fail> {
    let text = texts_of(rt.alloc(), 64)?;
    let ended = many(&rt, rt.alloc(), 64)?;
    lists(&rt, &ended, 64, Status::Certified, text.as_slice())
}

#[test]
fn of_65_books_none_is_read(rt: HostRuntime) -> Result<(), Fail> {
    let text = text_of(rt.alloc(), USAGE)?;
    let ended = many(&rt, rt.alloc(), 65)?;
    lists(&rt, &ended, 0, Status::Usage, text.as_slice())
}
