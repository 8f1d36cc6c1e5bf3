//! Cases, measures and obligations, by tables of definitions.

use crate::definitions::defun;
use crate::expect::expect;
use ap_list::{Bytes, NoMemory, Seq};
use ap_print::print_term;
use ap_term::{Term, copy_terms};
use ap_terminate::{TerminateError, measure_for, obligations};
use ap_tests_terms::shown;
use ap_value::{Symbol, copy_symbol};
use ap_world::{Case, Defun, Measure, World};
use std::alloc::Global;
use std::test::Fail;

const APP: &str = "(app (x y) none (if (endp x) y (cons (car x) (app (cdr x) y))))";

const REV: &str =
    "(rev (x) none (if (endp x) 'nil (binary-append (rev (cdr x)) (cons (car x) 'nil))))";

const LX: &str = "(lx (m n) ((nfix m) (nfix n))
  (if (zp m) 0 (if (zp n) (lx (binary-+ -1 m) 5) (lx m (binary-+ -1 n)))))";

const ACK: &str = "(ack (m n) none
  (if (zp m) (binary-+ 1 n)
    (if (zp n) (ack (binary-+ -1 m) 1) (ack (binary-+ -1 m) (ack m (binary-+ -1 n))))))";

const FOREVER: &str = "(f (x) none (binary-+ 1 (f x)))";

const GIVEN: &str = "(f (x) ((acl2-count x)) (binary-+ 1 (f x)))";

const FIVE: &str = "(f (x) (x x x x x) (if (endp x) x (f (cdr x))))";

const NO_COMPONENT: &str = "(f (x) () (if (endp x) x (f (cdr x))))";

const NESTED_AND_FIVE: &str = "(f (x) (x x x x x) (if (endp x) x (f (f (cdr x)))))";

const BY_THE_TEST: &str = "(f (x) none (if (f (cdr x)) x (cons x x)))";

const IN_THE_TEST: &str = "(f (x) none (if (f (cdr x)) (f (cdr x)) x))";

const TWO: &str = "(f (x) none (if (consp x) (cons (f (car x)) (cons (f (cdr x)) (f (car x)))) x))";

const KEPT: &str =
    "(f (x y) none (if (consp x) (if (consp y) (f x (cdr y)) (f (cdr x) (cdr y))) y))";

const DEAD: &str = "(f (x) none (if 't x (f x)))";

/// A call of the function.
fn call(alloc: Global, name: &Symbol, arguments: &[Term]) -> Result<Term, NoMemory> {
    Term::call(
        alloc,
        copy_symbol(alloc, name)?,
        copy_terms(alloc, arguments)?,
    )
}

/// The tests of a case.
fn put_tests(alloc: Global, text: &mut Bytes, tests: &[Term]) -> Result<(), NoMemory> {
    for test in tests {
        text.append(print_term(alloc, test)?)?;
        text.push(b' ')?;
    }
    Ok(())
}

/// What a call of the function prints as.
fn call_text(alloc: Global, name: &Symbol, arguments: &[Term]) -> Result<Bytes, NoMemory> {
    let made = call(alloc, name, arguments)?;
    print_term(alloc, &made)
}

/// The calls of a case.
fn put_calls(
    alloc: Global,
    text: &mut Bytes,
    name: &Symbol,
    calls: &[Seq<Term>],
) -> Result<(), NoMemory> {
    for arguments in calls {
        text.push(b' ')?;
        text.append(call_text(alloc, name, arguments.as_slice())?)?;
    }
    Ok(())
}

/// A case as text: its tests, a mark, and its calls.
fn put_case(alloc: Global, text: &mut Bytes, name: &Symbol, case: &Case) -> Result<(), NoMemory> {
    if !text.is_empty() {
        text.extend(b"; ")?;
    }
    put_tests(alloc, text, case.tests.as_slice())?;
    text.push(b':')?;
    put_calls(alloc, text, name, case.calls.as_slice())
}

/// The cases as text.
fn cases(alloc: Global, d: &Defun) -> Result<Bytes, NoMemory> {
    let mut text = Seq::new(alloc);
    for case in d.cases.as_slice() {
        put_case(alloc, &mut text, &d.name, case)?;
    }
    Ok(text)
}

/// The word of a refusal.
fn refusal(error: TerminateError) -> &'static [u8] {
    match error {
        TerminateError::NoMeasure => b"NoMeasure",
        TerminateError::NestedRecursion => b"NestedRecursion",
        TerminateError::BadMeasure => b"BadMeasure",
        TerminateError::NoMemory => b"NoMemory",
    }
}

/// The obligations by a measure as text.
fn owed_by(alloc: Global, d: &Defun, m: &Measure) -> Result<Bytes, NoMemory> {
    let clauses = obligations(alloc, d, m)?;
    shown(alloc, clauses.as_slice())
}

/// The same by the definition's measure, or the refusal.
fn owed(alloc: Global, w: &World, d: &Defun) -> Result<Bytes, NoMemory> {
    match measure_for(alloc, w, d) {
        Ok(m) => owed_by(alloc, d, &m),
        Err(error) => Bytes::from_slice(alloc, refusal(error)),
    }
}

/// What is told of a definition.
#[derive(Clone, Copy)]
enum Told {
    Cases,
    /// The obligations, or the refusal.
    Owed,
}

/// What is told of a definition that is written.
fn found(alloc: Global, of: Told, text: &str) -> Result<Bytes, NoMemory> {
    let d = defun(alloc, text)?;
    match of {
        Told::Cases => cases(alloc, &d),
        Told::Owed => owed(alloc, &World::bare(alloc), &d),
    }
}

const FALLS: &str = "(OR (ENDP X) (< (ACL2-COUNT (CDR X)) (ACL2-COUNT X)))";

/// Each row: what is told of a definition, and that.
const ROWS: &[(Told, &str, &str)] = &[
    // A test tells cases apart where a branch calls.
    (
        Told::Cases,
        APP,
        "(ENDP X) :; (NOT (ENDP X)) : (APP (CDR X) Y)",
    ),
    (
        Told::Cases,
        LX,
        "(ZP M) :; (NOT (ZP M)) (ZP N) : (LX (BINARY-+ '-1 M) '5); (NOT (ZP M)) (NOT (ZP N)) : (LX M (BINARY-+ '-1 N))",
    ),
    // A call in a test alone makes one case.
    (Told::Cases, BY_THE_TEST, ": (F (CDR X))"),
    // A case has each call once.
    (
        Told::Cases,
        TWO,
        "(CONSP X) : (F (CAR X)) (F (CDR X)); (NOT (CONSP X)) :",
    ),
    // The count of the first formal that suits falls.
    (Told::Owed, APP, FALLS),
    (Told::Owed, REV, FALLS),
    (
        Told::Owed,
        TWO,
        "(OR (NOT (CONSP X)) (< (ACL2-COUNT (CAR X)) (ACL2-COUNT X))); (OR (NOT (CONSP X)) (< (ACL2-COUNT (CDR X)) (ACL2-COUNT X)))",
    ),
    // A given measure is natural and falls component by component.
    (
        Told::Owed,
        LX,
        "(NATP (NFIX M)); (NATP (NFIX N)); (OR (ZP M) (NOT (ZP N)) (IF (< (NFIX (BINARY-+ '-1 M)) (NFIX M)) 'T (IF (EQUAL (NFIX (BINARY-+ '-1 M)) (NFIX M)) (< (NFIX '5) (NFIX N)) 'NIL))); (OR (ZP M) (ZP N) (IF (< (NFIX M) (NFIX M)) 'T (IF (EQUAL (NFIX M) (NFIX M)) (< (NFIX (BINARY-+ '-1 N)) (NFIX N)) 'NIL)))",
    ),
    // Nested recursion is refused first.
    (Told::Owed, ACK, "NestedRecursion"),
    (Told::Owed, IN_THE_TEST, "NestedRecursion"),
    (Told::Owed, NESTED_AND_FIVE, "NestedRecursion"),
    // A measure has one to four components.
    (Told::Owed, FIVE, "BadMeasure"),
    (Told::Owed, NO_COMPONENT, "BadMeasure"),
    // A formal is tested and changed in each case.
    (Told::Owed, FOREVER, "NoMeasure"),
    (Told::Owed, BY_THE_TEST, "NoMeasure"),
    (Told::Owed, DEAD, "NoMeasure"),
    (
        Told::Owed,
        KEPT,
        "(OR (NOT (CONSP X)) (NOT (CONSP Y)) (< (ACL2-COUNT (CDR Y)) (ACL2-COUNT Y))); (OR (NOT (CONSP X)) (CONSP Y) (< (ACL2-COUNT (CDR Y)) (ACL2-COUNT Y)))",
    ),
    (
        Told::Owed,
        GIVEN,
        "(NATP (ACL2-COUNT X)); (< (ACL2-COUNT X) (ACL2-COUNT X))",
    ),
];

#[test]
fn definitions_have_the_cases_and_the_obligations_of_the_table(
    rt: HostRuntime,
) -> Result<(), Fail> {
    for (of, text, wanted) in ROWS {
        let found = found(rt.alloc(), *of, *text)?;
        expect(&rt, found.as_slice(), *wanted, *text);
    }
    Ok(())
}
