//! The tables on the kernel, on clauses and on terms: a word and forms a line, and behind ` => ` what is answered.
ghost use Rattle.ap_world.specs.World.{function_of};
ghost use Rattle.ap_kernel.specs.Standing.{DefinesNot};

use crate::expect::expect;
use crate::known::first_world;
use crate::{clauses, kernel, matches};
use ap_list::{Bytes, NoMemory};
use ap_term::{Shape, Term};
use ap_tests_terms::{sides, terms};
use ap_world::World;
use std::alloc::{AllocError, Global};
use std::process::Abort;

/// Each row: what is done with the clause of these literals, which is so at its first literal or at the first argument of
/// that; and the clauses that it is reduced to.
const REDUCTIONS: &str = r#"tidy 'nil x => X
tidy x y x => (OR X Y)
tidy (not (not x)) y => (OR X Y)
tidy x y (not x) => 
tidy x 't => 
tidy x (not 'nil) => 
tidy x (not 't) => X
tidy (not (not (not x))) (not (not x)) => 
solve (not (equal x y)) (equal x (cons y z)) => (EQUAL Y (CONS Y Z))
solve (not (equal (cons y z) x)) (consp x) => (CONSP (CONS Y Z))
solve (not (equal x (cons x y))) (consp x) => none
split (consp (if x y z)) w => (OR (NOT X) (CONSP Y) W); (OR X (CONSP Z) W)
split (consp (if (not x) y z)) w => (OR X (CONSP Y) W); (OR (NOT X) (CONSP Z) W)
split (consp x) w => none
drop x y => Y"#;

/// Each row: the steps there are, and literals; those that are left, the clause, and those that it is split into.
const SPLITS: &str =
    r#"in 9 (if x (if y z w) u) v => 5 left of (OR (IF X (IF Y Z W) U) V): (OR (NOT X) (NOT Y) Z V); (OR (NOT X) Y W V); (OR X U V)
in 4 (if x (if y z w) u) v => 0 left of (OR (IF X (IF Y Z W) U) V): (OR (NOT X) (NOT Y) Z V); (OR (NOT X) Y W V); (OR X U V)
in 3 (if x (if y z w) u) v => spent
in 0 (if x (if y z w) u) v => spent
in 4 v (consp (if x y (if z u w))) => 0 left of (OR V (CONSP (IF X Y (IF Z U W)))): (OR V (NOT X) (CONSP Y)); (OR V X (NOT Z) (CONSP U)); (OR V X Z (CONSP W))
in 6 (if (if x y z) u v) => 0 left of (IF (IF X Y Z) U V): (OR (NOT X) (NOT Y) U); (OR (NOT X) Y V); (OR X (NOT Z) U); (OR X Z V)
in 5 (if (if x y z) u v) => spent
in 2 (if (not x) y z) => 0 left of (IF (NOT X) Y Z): (OR X Y); (OR (NOT X) Z)
in 6 (if x y z) (if u v w) => 0 left of (OR (IF X Y Z) (IF U V W)): (OR (NOT X) Y (NOT U) V); (OR (NOT X) Y U W); (OR X Z (NOT U) V); (OR X Z U W)
in 6 (cons (if x y z) (if u v w)) => 0 left of (CONS (IF X Y Z) (IF U V W)): (OR (NOT X) (NOT U) (CONS Y V)); (OR (NOT X) U (CONS Y W)); (OR X (NOT U) (CONS Z V)); (OR X U (CONS Z W))
in 0 x (consp y) => 0 left of (OR X (CONSP Y)): (OR X (CONSP Y))
in 0 '3 x x => 0 left of (OR '3 X X): 
in 2 (if x x y) 'nil y => 0 left of (OR (IF X X Y) 'NIL Y): (OR X Y)
in 1 => 1 left of NIL: NIL"#;

/// Each row: a term, and its clause.
const FLATS: &str =
    r#"flat (implies (if (p x) (not (q x)) 'nil) (r x)) => (OR (NOT (P X)) (Q X) (R X))
flat (implies x (implies y z)) => (OR (NOT X) (NOT Y) Z)
flat (implies (implies x y) z) => (OR (NOT (IMPLIES X Y)) Z)
flat (implies (if (if x y 'nil) (if z u v) 'nil) w) => (OR (NOT X) (NOT Y) (NOT (IF Z U V)) W)
flat (implies (not x) y) => (OR X Y)
flat (if x y 'nil) => (IF X Y 'NIL)
flat (implies (if x y 't) z) => (OR (NOT (IF X Y 'T)) Z)
flat x => X
flat '1 => '1"#;

/// Each row: a fact behind its sign, and where it leads; that with an equation, and where this leads; the same with a term,
/// which leads to itself; an `if` behind a mode, and where it leads; and a term that is assumed, and then that it isn't.
const EQUIVALENCES: &str = r#"true (consp x) => IFF (CONSP X) 'T
false (consp x) => EQUAL (CONSP X) 'NIL
same (consp x) (consp x) => IFF (CONSP X) (CONSP X)
true 't (equal x x) => EQUAL (EQUAL X X) 'T
true (equal y x) (equal x y) => EQUAL (EQUAL X Y) 'T
false (equal y x) (equal x y) => EQUAL (EQUAL X Y) 'NIL
true (equal x y) (equal x y) => none
true 't (consp x) => none
true 't (equal (cons x y) (cons z w)) => EQUAL (EQUAL (CONS X Y) (CONS Z W)) (IF (EQUAL X Z) (EQUAL Y W) 'NIL)
true 't (equal '(1 . 2) (cons x y)) => EQUAL (EQUAL '(1 . 2) (CONS X Y)) (IF (EQUAL '1 X) (EQUAL '2 Y) 'NIL)
false (equal (cons z w) (cons x y)) (equal (cons x y) (cons z w)) => EQUAL (EQUAL (CONS X Y) (CONS Z W)) 'NIL
equal (if 't x y) => EQUAL (IF 'T X Y) X
equal (if 1 x y) => EQUAL (IF '1 X Y) X
equal (if 'nil x y) => EQUAL (IF 'NIL X Y) Y
equal (if x y y) => EQUAL (IF X Y Y) Y
equal (if (not x) y z) => EQUAL (IF (NOT X) Y Z) (IF X Z Y)
equal (if (not (not x)) y z) => EQUAL (IF (NOT (NOT X)) Y Z) (IF X Y Z)
iff (if x 't 'nil) => IFF (IF X 'T 'NIL) X
equal (if x 't 'nil) => EQUAL (IF X 'T 'NIL) (IF X 'T 'NIL)
equal (if (consp x) 't 'nil) => EQUAL (IF (CONSP X) 'T 'NIL) (CONSP X)
equal (if (not (consp x)) 'nil 't) => EQUAL (IF (NOT (CONSP X)) 'NIL 'T) (CONSP X)
equal (if x 'nil 't) => EQUAL (IF X 'NIL 'T) (NOT X)
equal (if (not x) 't 'nil) => EQUAL (IF (NOT X) 'T 'NIL) (NOT X)
iff (if x y z) => IFF (IF X Y Z) (IF X Y Z)
assume (consp x) => (CONSP X) and not (CONSP X)"#;

/// Each row: a pattern, a term and the pairs to begin with, and the match; pairs and terms, and their instances; and a term, and
/// its variables.
const TERMS: &str = r#"match (f x x) (f (g y) (g y)) => X (G Y)
match (f x x) (f (g y) (g z)) => none
match (f x y) (f 1 2) x 1 => X '1 Y '2
match (f x y) (f 1 2) x 2 => none
match (f x y) (f 1 2) z x => Z X X '1 Y '2
match (cons x y) '(1 . 2) => none
match (cons x y) (cons 1 2) => X '1 Y '2
match '(1 . 2) '(1 . 2) => 
match (f x y) (f x z) => X X Y Z
match (f y (g x y)) (f 2 (g 1 2)) => Y '2 X '1
match (f x) (g x) => none
match (f x) (f x y) => none
match (f x y) (f x) => none
match (f x) x => none
match x (f x) => X (F X)
instances (pairs x 1 y x x 2) x y z (f y (g x)) 't => '1 X Z (F X (G '1)) 'T
instances (pairs) x (f x) => X (F X)
vars (f y (g x y) '(1 . 2) (h z x)) => Y X Z
vars 't => 
vars x => X"#;

/// Each table, and how many lines it has.
const TABLES: &[(&str, usize)] = &[
    (REDUCTIONS, 15),
    (SPLITS, 14),
    (FLATS, 9),
    (EQUIVALENCES, 25),
    (TERMS, 20),
];

/// The instances of terms by the pairs that a call's arguments are.
fn instances_by(alloc: Global, pairs: &Term, ts: &[Term]) -> Result<Bytes, NoMemory> {
    match &pairs.shape {
        Shape::Call(_, parts) => matches::instances(alloc, parts.as_slice(), ts),
        _ => Err(AllocError),
    }
}

/// What a row on terms answers.
fn of_terms(alloc: Global, word: &str, row: &[Term]) -> Result<Bytes, NoMemory> {
    match (word, row) {
        ("flat", [t]) => clauses::flattened(alloc, t),
        ("match", [pattern, t, start @ ..]) => matches::matched(alloc, pattern, t, start),
        ("instances", [pairs, ts @ ..]) => instances_by(alloc, pairs, ts),
        ("vars", [t]) => matches::variables(alloc, t),
        ("assume", [t]) => kernel::assumed(alloc, t),
        _ => Err(AllocError),
    }
}

/// What a row on the kernel answers.
fn of_kernel(alloc: Global, w: &World, word: &str, row: &[Term]) -> Result<Bytes, NoMemory>
    requires ground { DefinesNot (function_of w.now.entries) }
{
    let sign = word == "true";
    match (word, row) {
        ("equal" | "iff", [t]) => kernel::shaped(alloc, w, word == "iff", t),
        ("true" | "false", [t]) => kernel::fact_leads(alloc, w, sign, t),
        ("true" | "false", [fact, t]) => kernel::led(alloc, w, sign, fact, t),
        ("same", [fact, t]) => kernel::same(alloc, w, fact, t),
        _ => of_terms(alloc, word, row),
    }
}

/// What a row answers.
fn answered(alloc: Global, w: &World, word: &str, row: &[Term]) -> Result<Bytes, NoMemory>
    requires ground { DefinesNot (function_of w.now.entries) }
{
    match (word, row) {
        ("tidy" | "solve" | "split" | "drop", literals) => {
            clauses::reduced(alloc, w, word, literals)
        }
        ("in", [left, literals @ ..]) => clauses::halved(alloc, w, left, literals),
        _ => of_kernel(alloc, w, word, row),
    }
}

/// The same as it is written.
fn found(alloc: Global, w: &World, line: &str) -> Result<Bytes, NoMemory>
    requires ground { DefinesNot (function_of w.now.entries) }
{
    let (word, text) = sides(line).0.split_once(' ').unwrap_or((line, ""));
    let row = terms(alloc, text)?;
    answered(alloc, w, word, row.as_slice())
}

fn expect_lines(rt: &impl Abort, alloc: Global, w: &World, table: &str) -> Result<(), NoMemory>
    requires ground { DefinesNot (function_of w.now.entries) }
{
    for line in table.lines() {
        let found = found(alloc, w, line)?;
        expect(rt, found.as_slice(), sides(line).1, line);
    }
    Ok(())
}

fn expect_tables(rt: &impl Abort, alloc: Global, w: &World) -> Result<(), NoMemory>
    requires ground { DefinesNot (function_of w.now.entries) }
{
    for (table, count) in TABLES {
        assert_eq!(rt; table.lines().count(), *count);
        expect_lines(rt, alloc, w, *table)?;
    }
    Ok(())
}

#[test]
fn each_row_is_answered_as_it_says(rt: HostRuntime) -> Result<(), NoMemory> {
    let world = first_world(rt.alloc())?;
    expect_tables(&rt, rt.alloc(), &world)
}
