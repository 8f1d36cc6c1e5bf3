use ap_term::{NoMemory, Steps, Term, copy_term, same_term, size, term_less};
use ap_tests_terms::term;
use std::alloc::Global;
use std::test::Fail;

/// Each row: a term, its nodes, and its place in the order of the rows' terms.
const ROWS: &[(&str, u64, u32)] = &[
    ("x", 1, 1),
    ("\"abc\"", 4, 0),
    ("(cons x 1)", 3, 2),
    ("(equal x 1)", 3, 4),
    ("(cons x 2)", 3, 3),
];

/// A copy of the term that is written.
fn copied(alloc: Global, text: &str) -> Result<Term, NoMemory> {
    let t = term(alloc, text)?;
    copy_term(alloc, &t)
}

/// The nodes of a term, whether another one is the same, and whether the first comes first.
type Answers = (Option<u64>, bool, Option<bool>);

fn answers(a: &Term, b: &Term) -> Answers {
    (size(a), same_term(a, b), term_less(a, b))
}

/// The same of a copy of one row's term and of another row's term.
fn compared(alloc: Global, a: &str, b: &str) -> Result<Answers, NoMemory> {
    let a = copied(alloc, a)?;
    Ok(answers(&a, &term(alloc, b)?))
}

#[test]
fn terms_are_copied_compared_and_counted(rt: HostRuntime) -> Result<(), Fail> {
    for (a, count, place) in ROWS {
        for (b, _, other) in ROWS {
            let found = compared(rt.alloc(), *a, *b)?;
            assert_eq!(rt;
                found,
                (Some(*count), place == other, Some(place < other)),
                "{a} {b}"
            );
        }
    }
    Ok(())
}

#[test]
fn steps_run_out(rt: HostRuntime) {
    let mut steps = Steps { left: 1 };
    assert!(rt; steps.tick().is_ok());
    assert!(rt; steps.tick().is_err());
    assert_eq!(rt; steps.left, 0);
}
