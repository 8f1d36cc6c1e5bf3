//! What comes rarely: what is too large, too deep or too costly is passed over, and the proof goes on. None of it is want of
//! memory.
use crate::working::printed_by;
use std::alloc::Global;
use std::test::Fail;

/// A theorem's name, and a term: a text, a piece so many times, a text, a piece as often, and a text. The theorem is that
/// the term, consed onto `y`, leaves `y` in front.
#[derive(Clone, Copy)]
struct Row {
    name: &'static str,
    before: &'static str,
    piece: (&'static str, usize),
    within: &'static str,
    close: &'static str,
    behind: &'static str,
}

/// Functions and a rule, by which a term of 2,200 nodes becomes one of 4,400.
const DOUBLING: &str = "(defun dup (x) (cons x x))
(defun twice (x) (cons x x))
(defthm twice-is (equal (twice x) (cons x x)))
(in-theory (disable twice))
";

const DOUBLED: &str = "DEFUN DUP
DEFUN DUP admitted
DEFUN TWICE
DEFUN TWICE admitted
DEFTHM TWICE-IS
Goal simplify 0
DEFTHM TWICE-IS proved
IN-THEORY admitted
";

/// An integer past 128 bits; a constant of more than 2,000 nodes, which running spends; a string of more than 4,096 nodes;
/// a body and a right side of more; and a term below 200 others.
const ROWS: &[Row] = &[
    Row {
        name: "WIDE",
        before: "(+ 170141183460469231731687303715884105727",
        piece: (" 1", 1),
        within: "",
        close: "",
        behind: ")",
    },
    Row {
        name: "SPENT",
        before: "(cdr '(",
        piece: ("a ", 1100),
        within: "",
        close: "",
        behind: "))",
    },
    Row {
        name: "LARGE",
        before: "(symbol-name '",
        piece: ("a", 4200),
        within: "",
        close: "",
        behind: ")",
    },
    Row {
        name: "BODY",
        before: "(dup (cons y '(",
        piece: ("a ", 1100),
        within: "",
        close: "",
        behind: ")))",
    },
    Row {
        name: "RIGHT",
        before: "(twice (cons y '(",
        piece: ("a ", 1100),
        within: "",
        close: "",
        behind: ")))",
    },
    Row {
        name: "DEEP",
        before: "",
        piece: ("(car ", 200),
        within: "x",
        close: ")",
        behind: "",
    },
];

/// Adds a piece so many times.
fn put(text: &mut String, piece: &str, count: usize) -> Result<(), Fail> {
    for _ in 0..count {
        text.push_str(piece)?;
    }
    Ok(())
}

/// Adds a row's theorem.
fn put_row(text: &mut String, row: &Row) -> Result<(), Fail> {
    text.push_str("(defthm ")?;
    text.push_str(row.name)?;
    text.push_str(" (equal (car (cons y ")?;
    text.push_str(row.before)?;
    put(text, row.piece.0, row.piece.1)?;
    text.push_str(row.within)?;
    put(text, row.close, row.piece.1)?;
    text.push_str(row.behind)?;
    text.push_str(")) y) :rule-classes nil)\n")?;
    Ok(())
}

/// The theorems of all rows, and what they print.
fn rows(alloc: Global) -> Result<(String, String), Fail> {
    let mut text = String::from_str(alloc, DOUBLING)?;
    let mut wanted = String::from_str(alloc, DOUBLED)?;
    for row in ROWS {
        put_row(&mut text, row)?;
        let name = row.name;
        let lines = format!(in alloc; "DEFTHM {name}\nGoal simplify 0\nDEFTHM {name} proved\n")?;
        wanted.push_str(lines.as_str())?;
    }
    Ok((text, wanted))
}

#[test]
fn what_is_too_large_or_too_deep_stays_as_it_is(rt: HostRuntime) -> Result<(), Fail> {
    let (text, wanted) = rows(rt.alloc())?;
    let printed = printed_by(&rt, rt.alloc(), text.as_str())?;
    assert_eq!(rt; printed.as_slice(), wanted.as_bytes());
    Ok(())
}

/// Rules of which each leads from one hypothesis to the next, and two theorems, for which ten and eleven of these are
/// relieved within each other.
fn chains(alloc: Global) -> Result<String, Fail> {
    let mut text = String::from_str(alloc, "(defun p (n x) (declare (ignore n)) x)\n")?;
    for k in 0..11u32 {
        let next = k.saturating_add(1);
        let rule = format!(in alloc; "(defthm r{k} (implies (p {next} x) (p {k} x)))\n")?;
        text.push_str(rule.as_str())?;
    }
    text.push_str(
        "(in-theory (disable p))
(defthm ten (implies (p 10 x) (p 0 x)) :rule-classes nil)
(defthm eleven (implies (p 11 x) (p 0 x)) :rule-classes nil)",
    )?;
    Ok(text)
}

const CHAINED: &str = "DEFTHM R10 proved
IN-THEORY admitted
DEFTHM TEN
Goal simplify 0
DEFTHM TEN proved
DEFTHM ELEVEN
Goal push *1
*1 noscheme
Checkpoints before induction
Goal: (OR (NOT (P '11 X)) (P '0 X))
DEFTHM ELEVEN refused 8.1 NoScheme
";

#[test]
fn ten_hypotheses_are_relieved_within_each_other(rt: HostRuntime) -> Result<(), Fail> {
    let text = chains(rt.alloc())?;
    let printed = printed_by(&rt, rt.alloc(), text.as_str())?;
    assert!(rt; printed.as_slice().ends_with(CHAINED.as_bytes()));
    Ok(())
}

/// A theorem with so many hypotheses, each of which has two polynomials.
fn put_equations(text: &mut String, alloc: Global, name: &str, count: u32) -> Result<(), Fail> {
    let head = format!(in alloc; "(defthm {name} (implies (and")?;
    text.push_str(head.as_str())?;
    for k in 0..count {
        let equation = format!(in alloc; " (equal (car x{k}) (cdr x{k}))")?;
        text.push_str(equation.as_str())?;
    }
    text.push_str(") (or (< (size y) 9) (equal z z))) :rule-classes nil)\n")?;
    Ok(())
}

const SIZES: &str = "(defun size (x) (if (consp x) 2 5))
(defthm size-small (< (size x) 7) :rule-classes :linear)
(in-theory (disable size))
";

const SIZED: &str = "DEFTHM ROOM
Goal simplify 0
DEFTHM ROOM proved
DEFTHM FULL
Goal simplify 0
DEFTHM FULL proved
";

#[test]
fn a_linear_rule_without_room_is_passed_over(rt: HostRuntime) -> Result<(), Fail> {
    let mut text = String::from_str(rt.alloc(), SIZES)?;
    put_equations(&mut text, rt.alloc(), "room", 14)?;
    put_equations(&mut text, rt.alloc(), "full", 16)?;
    let printed = printed_by(&rt, rt.alloc(), text.as_str())?;
    assert!(rt; printed.as_slice().ends_with(SIZED.as_bytes()));
    Ok(())
}

/// A function whose name begins with no letter, and a theorem with two calls of it.
const LETTERLESS: &str = "(defun |1f| (x) (if (consp x) (cons 1 (|1f| (cdr x))) x))
(defun p (x) x)
(defun q (x) x)
(in-theory (disable p q |1f|))
(defthm v (implies (p (|1f| x)) (q (|1f| x))) :rule-classes nil)
";

const LETTERLESS_END: &str = "IN-THEORY admitted
DEFTHM V
Goal generalize 1
Goal' push *1
*1 noscheme
Checkpoints before induction
Goal: (OR (NOT (P (|1f| X))) (Q (|1f| X)))
DEFTHM V refused 8.1 NoScheme
";

#[test]
fn a_call_of_a_name_without_a_letter_is_generalized(rt: HostRuntime) -> Result<(), Fail> {
    let printed = printed_by(&rt, rt.alloc(), LETTERLESS)?;
    assert!(rt; printed.as_slice().ends_with(LETTERLESS_END.as_bytes()));
    Ok(())
}
