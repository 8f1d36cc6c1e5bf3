//! The tables: a word and forms a line, and behind ` => ` the equivalence that is answered.
ghost use Rattle.ap_world.specs.World.{function_of};
ghost use Rattle.ap_kernel.specs.Standing.{DefinesNot};

use crate::given::{expect, first_world};
use crate::inequalities::{equated, refuted};
use crate::theorems::{by_theorem, folded, opened};
use ap_kernel::{Equiv, World};
use ap_reader::Form;
use ap_tests_terms::{read, sides};
use std::alloc::Global;
use std::process::Abort;

/// Each row: a part, h, a term for `x` and the facts that are true. The part of the theorem `(implies h h)` is
/// applied where the facts are its hypotheses.
const APPLICATIONS: &str =
    r#"0 (if (equal (car x) y) (consp x) 'nil) z (equal (car z) y) (consp z) => (EQUAL (CAR Z) Y)
1 (if (equal (car x) y) (consp x) 'nil) z (equal (car z) y) (consp z) => (IFF (CONSP Z) 'T)
2 (if (equal (car x) y) (consp x) 'nil) z (equal (car z) y) (consp z) => none
0 (if (equal (car x) y) (consp x) 'nil) z (equal (car z) y) => none
0 (if (equal (car x) y) (consp x) 'nil) z (consp z) (equal (car z) y) => none
0 (if (equal (car x) y) (consp x) 'nil) z (equal (car z) y) (consp z) (consp z) => none
0 (if (equal (car x) y) (consp x) 'nil) z (equal (car x) y) (consp x) => none
0 (iff (car x) (cdr x)) (cons y y) (iff (car (cons y y)) (cdr (cons y y))) => (IFF (CAR (CONS Y Y)) (CDR (CONS Y Y)))
0 (not (consp x)) 1 (not (consp 1)) => (EQUAL (CONSP '1) 'NIL)
1 (if (consp x) (consp y) 't) z (if (consp z) (consp y) 't) => none"#;

/// Each row: a call that is opened to its body's instance or folded to its value; a literal behind its sign, with a fact that
/// is true, under which polynomials refute it; or two terms neither of which is less.
const GROUND: &str =
    r#"open (binary-append (car x) z) => (EQUAL (BINARY-APPEND (CAR X) Z) (IF (ENDP (CAR X)) Z (CONS (CAR (CAR X)) (BINARY-APPEND (CDR (CAR X)) Z))))
open (cons x y) => none
open x => none
fold (binary-* 3 4) => (EQUAL (BINARY-* '3 '4) '12)
fold (cons 'a 1) => (EQUAL (CONS 'A '1) '(A . 1))
fold (binary-* 3 x) => none
fold 3 => none
- (< y x) (< y x) => (EQUAL (< Y X) 'T)
+ (< x y) (< y x) => (EQUAL (< X Y) 'NIL)
+ (equal x 3) (< x 3) => (EQUAL (EQUAL X '3) 'NIL)
+ (< x x) 't => (EQUAL (< X X) 'NIL)
- (< 3 5) 't => (EQUAL (< '3 '5) 'T)
- (< x y) (< y x) => none
+ (< y x) (< 0 x) => none
+ (consp x) (< 5 3) => none
neither (len x) (len y) => (EQUAL (EQUAL (LEN X) (LEN Y)) 'T)
neither (len x) 0 => (EQUAL (EQUAL (LEN X) '0) 'T)
neither (len x) y => none
neither x 3 => none"#;

/// What a row on the ground world answers.
fn on_ground(rt: &impl Abort, alloc: Global, w: &World, word: &str, row: &[Form]) -> Option<Equiv>
    requires ground { DefinesNot (function_of w.now.entries) }
{
    match (word, row) {
        ("open", [t]) => opened(rt, alloc, w, t),
        ("fold", [t]) => folded(rt, alloc, w, t),
        ("neither", [a, b]) => equated(rt, alloc, w, a, b),
        (_, [t, fact]) => refuted(rt, alloc, w, t, word == "+", fact),
        _ => None,
    }
}

/// Compares what a row on the ground world answers with what its line says.
fn expect_row(rt: &impl Abort, alloc: Global, w: &World, line: &str)
    requires ground { DefinesNot (function_of w.now.entries) }
{
    let (word, text) = sides(line).0.split_once(' ').unwrap_or((line, ""));
    let row = read(alloc, text);
    let found = on_ground(rt, alloc, w, word, row.as_slice());
    expect(rt, alloc, line, found);
}

/// Compares what the part of a theorem that a line names answers with what the line says.
fn expect_part(rt: &impl Abort, alloc: Global, line: &str) {
    let (part, text) = sides(line).0.split_once(' ').unwrap_or((line, ""));
    let row = read(alloc, text);
    let found = by_theorem(rt, alloc, part.parse().unwrap_or(9), row.as_slice());
    expect(rt, alloc, line, found);
}

/// Compares the answers on the ground world with the table.
fn expect_rows(rt: &impl Abort, alloc: Global) {
    let w = first_world(rt, alloc);
    for line in GROUND.lines() {
        expect_row(rt, alloc, &w, line);
    }
}

#[test]
fn the_rows_lead_where_they_say(rt: HostRuntime) {
    assert_eq!(rt;
        (APPLICATIONS.lines().count(), GROUND.lines().count()),
        (10, 19)
    );
    for line in APPLICATIONS.lines() {
        expect_part(&rt, rt.alloc(), line);
    }
    expect_rows(&rt, rt.alloc());
}
