//! What the evaluator answers, by tables.

use crate::expect::expect;
use ap_eval::{Env, EvalStop, eval, is_known};
use ap_ground::ground_world;
use ap_list::{Bytes, NoMemory, Seq};
use ap_print::{print_term, print_value};
use ap_term::Term;
use ap_tests_terms::term;
use ap_value::{Value, acl2};
use ap_world::World;
use std::alloc::{AllocError, Global};
use std::process::Abort;

/// Each row: the units that a call runs with, the call, and what is answered: a value, the call at which an integer
/// leaves 128 bits, or why it stopped. `X` is 5, and `L` a string of 4,095 letters.
const ROWS: &[(u32, &str, &str)] = &[
    (
        100,
        "(equal (coerce \"ab\" 'list) (coerce \"ab\" 'list))",
        "T",
    ),
    (100, "(equal 3 #\\a)", "NIL"),
    (100, "(consp (cons 1 2))", "T"),
    (100, "(consp 1)", "NIL"),
    (100, "(integerp 0)", "T"),
    (100, "(integerp #\\a)", "NIL"),
    (100, "(symbolp 'nil)", "T"),
    (100, "(symbolp \"A\")", "NIL"),
    (100, "(stringp \"\")", "T"),
    (100, "(stringp 'a)", "NIL"),
    (100, "(characterp #\\a)", "T"),
    (100, "(characterp \"a\")", "NIL"),
    (100, "(cons 1 2)", "(1 . 2)"),
    (100, "(car (cons 1 2))", "1"),
    (100, "(car 3)", "NIL"),
    (100, "(cdr (cons 1 2))", "2"),
    (100, "(cdr \"ab\")", "NIL"),
    (100, "(+ 2 -3)", "-1"),
    (100, "(+ 2 #\\a)", "2"),
    (
        100,
        "(+ 1 170141183460469231731687303715884105727)",
        "(BINARY-+ '1 '170141183460469231731687303715884105727)",
    ),
    (
        100,
        "(+ -170141183460469231731687303715884105728 -1)",
        "(BINARY-+ '-170141183460469231731687303715884105728 '-1)",
    ),
    (
        100,
        "(+ -170141183460469231731687303715884105728 170141183460469231731687303715884105727)",
        "-1",
    ),
    (100, "(binary-* -2 3)", "-6"),
    (100, "(binary-* 'a 3)", "0"),
    (100, "(unary-- 5)", "-5"),
    (100, "(unary-- #\\a)", "0"),
    (100, "(< 1 2)", "T"),
    (100, "(< 'a -1)", "NIL"),
    (100, "(< -1 'a)", "T"),
    (100, "(char-code #\\a)", "97"),
    (100, "(char-code 97)", "0"),
    (100, "(char-code (code-char 255))", "255"),
    (100, "(char-code (code-char 256))", "0"),
    (100, "(symbol-name 'abc)", "\"ABC\""),
    (100, "(symbol-name 3)", "\"\""),
    (100, "(coerce (coerce \"ab\" 'list) 'string)", "\"ab\""),
    (100, "(coerce \"ab\" 'string)", "\"\""),
    (100, "(coerce \"ab\" 'list)", "(#\\a #\\b)"),
    (
        3,
        "(if 'nil (+ 1 170141183460469231731687303715884105727) 7)",
        "7",
    ),
    (
        3,
        "(if 'a 7 (+ 1 170141183460469231731687303715884105727))",
        "7",
    ),
    (2, "(if 7 'b 7)", "Spent"),
    (2, "(car 3)", "NIL"),
    (1, "(car 3)", "Spent"),
    (5, "(not 'nil)", "T"),
    (4, "(not 'nil)", "Spent"),
    (100, "(not 3)", "NIL"),
    (3, "(+ x 1)", "6"),
    (2, "(symbolp y)", "T"),
    (4098, "(stringp l)", "T"),
    (5000, "(cons l 1)", "Large"),
    (
        2,
        "(cons 1 (+ 1 170141183460469231731687303715884105727))",
        "Spent",
    ),
];

/// A string of so many letters.
fn long_text(alloc: Global, count: usize) -> Result<Value, NoMemory> {
    let codes = vec![in alloc; 97u8; count]?;
    Value::string(alloc, Bytes::from_vec(codes))
}

/// The assignment of 5 to `X`, and of a long string to `L`.
fn given(alloc: Global) -> Result<Env, NoMemory> {
    let mut pairs = Seq::new(alloc);
    pairs.push((acl2(alloc, b"X")?, Value::Int(5)))?;
    pairs.push((acl2(alloc, b"L")?, long_text(alloc, 4095)?))?;
    Ok(Env(pairs))
}

/// What the evaluator answers, if the term is known.
fn run(alloc: Global, w: &World, t: &Term, units: u32) -> Result<Value, EvalStop> {
    let env = given(alloc)?;
    if is_known(w, t) {
        eval(alloc, w, t, &env, units)
    } else {
        Err(EvalStop::NoMemory)
    }
}

/// Why running stopped, as text.
fn stop_text(alloc: Global, stop: EvalStop) -> Result<Bytes, NoMemory> {
    match stop {
        EvalStop::Wide { call, .. } => print_term(alloc, &call),
        EvalStop::Spent => Bytes::from_slice(alloc, b"Spent"),
        EvalStop::Large => Bytes::from_slice(alloc, b"Large"),
        EvalStop::NoMemory => Err(AllocError),
    }
}

/// What a call is answered, as text.
fn answered(alloc: Global, w: &World, t: &Term, units: u32) -> Result<Bytes, NoMemory> {
    match run(alloc, w, t, units) {
        Ok(v) => print_value(alloc, &v),
        Err(stop) => stop_text(alloc, stop),
    }
}

/// The same of a text's call.
fn found(alloc: Global, w: &World, text: &str, units: u32) -> Result<Bytes, NoMemory> {
    let t = term(alloc, text)?;
    answered(alloc, w, &t, units)
}

fn expect_rows(rt: &impl Abort, alloc: Global, w: &World) -> Result<(), NoMemory> {
    for (units, text, wanted) in ROWS {
        let found = found(alloc, w, *text, *units)?;
        expect(rt, found.as_slice(), *wanted, *text);
    }
    Ok(())
}

/// `(UNARY-- (UNARY-- .. '1))`, so many calls deep.
fn nested(alloc: Global, calls: u32) -> Result<Term, NoMemory> {
    let mut term = Term::quote(Value::Int(1));
    for _ in 0..calls {
        term = minus(alloc, term)?;
    }
    Ok(term)
}

fn minus(alloc: Global, term: Term) -> Result<Term, NoMemory> {
    let mut terms = Seq::new(alloc);
    terms.push(term)?;
    Term::call(alloc, acl2(alloc, b"UNARY--")?, terms)
}

/// What two thousand nested calls are answered.
fn deep_answer(alloc: Global, w: &World, units: u32) -> Result<Bytes, NoMemory> {
    let term = nested(alloc, 2000)?;
    answered(alloc, w, &term, units)
}

fn expect_deep(rt: &impl Abort, alloc: Global, w: &World) -> Result<(), NoMemory> {
    for (units, wanted) in [(2001, "1"), (2000, "Spent")] {
        expect(rt, deep_answer(alloc, w, units)?.as_slice(), wanted, "deep");
    }
    Ok(())
}

#[test]
fn each_call_is_answered_and_two_thousand_nested_ones_have_a_value(
    rt: HostRuntime,
) -> Result<(), NoMemory> {
    let world = ground_world(rt.alloc())?;
    expect_rows(&rt, rt.alloc(), &world)?;
    expect_deep(&rt, rt.alloc(), &world)
}
