use ap_books::{PlanError, demo_book, plan};
use ap_list::NoMemory;
use std::alloc::Global;
use std::test::Fail;

/// Words, and how they are wrong, by the number of their fault: twice, too many, no name; 0 is none.
const ROWS: [(&[&str], u8); 8] = [
    (&[], 0),
    (&["app"], 0),
    (&["app", "rev-2", "_u"], 0),
    (&["app", "rev", "app"], 1),
    (&["app", "app", "a.b"], 1),
    (&["app", "-x", "app"], 3),
    (&[""], 3),
    (&["a b"], 3),
];

/// The number of what is wrong with words, and how many books they name.
fn planned(alloc: Global, words: &[String]) -> Result<(u8, usize), NoMemory> {
    match plan(alloc, words) {
        Ok(names) => Ok((0, names.len())),
        Err(PlanError::Twice(_)) => Ok((1, 0)),
        Err(PlanError::TooMany(_)) => Ok((2, 0)),
        Err(PlanError::BadName(_)) => Ok((3, 0)),
        Err(PlanError::NoMemory) => Err(std::alloc::AllocError),
    }
}

/// The same of words that are written.
fn planned_as(alloc: Global, words: &[&str]) -> Result<(u8, usize), NoMemory> {
    let mut given = Vec::new(alloc);
    for word in words {
        given.push(String::from_str(alloc, word)?)?;
    }
    planned(alloc, given.as_slice())
}

/// The same of so many words, each the name of another book.
fn numbered(alloc: Global, books: u32) -> Result<(u8, usize), NoMemory> {
    let mut words = Vec::new(alloc);
    for k in 0..books {
        words.push(format!(in alloc; "book{k}")?)?;
    }
    planned(alloc, words.as_slice())
}

#[test]
fn words_name_1_to_64_books_once_each(rt: HostRuntime) -> Result<(), Fail> {
    for (words, fault) in &ROWS {
        let books = if *fault == 0 { words.len() } else { 0 };
        assert_eq!(rt; planned_as(rt.alloc(), *words)?, (*fault, books));
    }
    assert_eq!(rt; numbered(rt.alloc(), 64)?, (0, 64));
    assert_eq!(rt; numbered(rt.alloc(), 65)?, (2, 0));
    Ok(())
}

const DEMO: &[u8] = b"(in-package \"ACL2\")
(defun d-1 (x) (if (consp x) (cons (car x) (d-1 (cdr x))) nil))
(defthm d-1-same (implies (true-listp x) (equal (d-1 x) x)))
(defun d-2 (x) (if (consp x) (cons (car x) (d-2 (cdr x))) nil))
(defthm d-2-same (implies (true-listp x) (equal (d-2 x) x)))
";

#[test]
fn the_demo_copies_lists(rt: HostRuntime) -> Result<(), Fail> {
    let book = demo_book(rt.alloc(), 2)?;
    assert!(rt; book.as_slice() == DEMO);
    Ok(())
}
