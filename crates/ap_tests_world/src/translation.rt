use crate::expect::expect;
use crate::forms::{one_form, refusal, symbol, word};
use ap_ground::ground_world;
use ap_list::{Bytes, NoMemory, Seq};
use ap_print::print_term;
use ap_reader::Form;
use ap_term::{Term, size};
use ap_tests_terms::sides;
use ap_translate::{TransError, translate};
use ap_value::{Symbol, Value};
use ap_world::World;
use std::alloc::Global;
use std::process::Abort;

/// A form, and its term as it prints. Each variable may stand, and `*k*` is `(1 . 2)`.
const TERMS: &str = r#"12 => '12
#\a => '#\a
"ab" => '"ab"
:key => ':KEY
t => 'T
nil => 'NIL
() => 'NIL
'x => 'X
(quote x) => 'X
'(a . 1) => '(A . 1)
''a => '(QUOTE A)
'() => 'NIL
'((a) b) => '((A) B)
*k* => '(1 . 2)
x => X
** => **
(and) => 'T
(and a) => A
(and a b) => (IF A B 'NIL)
(and a b c) => (IF A (IF B C 'NIL) 'NIL)
(or) => 'NIL
(or a) => A
(or a b) => (IF A A B)
(or a b c) => (IF A A (IF B B C))
(cond) => 'NIL
(cond (a)) => (IF A A 'NIL)
(cond (a b)) => (IF A B 'NIL)
(cond (a b) (t c)) => (IF A B C)
(cond (a) (b c) (t d) 5) => (IF A A (IF B C D))
(cond (t)) => (IF 'T 'T 'NIL)
(cond (t b)) => B
(let ((v e)) (cons v w)) => (CONS E W)
(let ((x y) (y x)) (cons x y)) => (CONS Y X)
(let () x) => X
(let nil x) => X
(let ((v 1)) (declare (ignore v)) (declare) w) => W
(let ((v 1)) (let ((v (+ v v))) v)) => (BINARY-+ '1 '1)
(let ((x (car y))) (let ((y 1)) (cons x y))) => (CONS (CAR Y) '1)
(let* ((x y) (y x)) (cons x y)) => (CONS Y Y)
(let* () x) => X
(let* ((a 1) (b (cons a a))) (cons b a)) => (CONS (CONS '1 '1) '1)
((lambda (v w) (cons w v)) a b) => (CONS B A)
((lambda (v) (declare (ignorable v)) (cons v x)) (car x)) => (CONS (CAR X) X)
((lambda () 3)) => '3
((lambda nil 3)) => '3
(+) => '0
(+ a) => (BINARY-+ '0 A)
(+ a b) => (BINARY-+ A B)
(+ a b c) => (BINARY-+ A (BINARY-+ B C))
(*) => '1
(* a) => (BINARY-* '1 A)
(* a b) => (BINARY-* A B)
(* a b c d) => (BINARY-* A (BINARY-* B (BINARY-* C D)))
(- a) => (UNARY-- A)
(- 5) => (UNARY-- '5)
(- a 5) => (BINARY-+ '-5 A)
(- a -5) => (BINARY-+ '5 A)
(- a b) => (BINARY-+ A (UNARY-- B))
(- a '5) => (BINARY-+ A (UNARY-- '5))
(- a 170141183460469231731687303715884105727) => (BINARY-+ '-170141183460469231731687303715884105727 A)
(- a -170141183460469231731687303715884105728) => (BINARY-+ A (UNARY-- '-170141183460469231731687303715884105728))
(> a b) => (< B A)
(<= a b) => (NOT (< B A))
(>= a b) => (NOT (< A B))
(/= a b) => (NOT (EQUAL A B))
(< a b) => (< A B)
(1+ a) => (BINARY-+ '1 A)
(1- a) => (BINARY-+ '-1 A)
(list) => 'NIL
(list a b) => (CONS A (CONS B 'NIL))
(list* a) => A
(list* a b c) => (CONS A (CONS B C))
(append) => 'NIL
(append a) => A
(append a b c) => (BINARY-APPEND A (BINARY-APPEND B C))
(caar x) => (CAR (CAR X))
(cadr x) => (CAR (CDR X))
(cdar x) => (CDR (CAR X))
(cddadr x) => (CDR (CDR (CAR (CDR X))))
(first x) => (CAR X)
(second x) => (CAR (CDR X))
(rest x) => (CDR X)
`a => 'A
`() => 'NIL
`(a ,b) => (CONS 'A (CONS B 'NIL))
`(a ,@b) => (CONS 'A (BINARY-APPEND B 'NIL))
`(,@a b) => (BINARY-APPEND A (CONS 'B 'NIL))
`((1) ,@(list x) "s") => (CONS (CONS '1 'NIL) (BINARY-APPEND (CONS X 'NIL) (CONS '"s" 'NIL)))
`(a ',x) => (CONS 'A (CONS (CONS 'QUOTE (CONS X 'NIL)) 'NIL))
`,(car `(,x)) => (CAR (CONS X 'NIL))
`(and a) => (CONS 'AND (CONS 'A 'NIL))
(not (len x)) => (NOT (LEN X))
(if a b c) => (IF A B C)
(length "") => (LENGTH '"")
(acl2::car |x|) => (CAR |x|)"#;

/// A form, and the number of its first refusal with the place. Each variable may stand.
const REFUSALS: &str = r#"(quote . x) => 4 at 0
(cond (t b) . x) => 4 at 0
(+ . x) => 4 at 0
(foo . x) => 4 at 0
(foo x) => 1 at 0
*c* => 1 at 0
(lambda (x) x) => 1 at 0
(:car x) => 1 at 0
(nil x) => 1 at 0
(() x) => 1 at 0
(caaaaar x) => 1 at 0
(car x y) => 2 at 0
(if a b) => 2 at 0
(len) => 2 at 0
(quote) => 3 at 0
(quote a b) => 3 at 0
(cond (a) 5) => 3 at 0
(cond ()) => 3 at 0
(cond (a b c)) => 3 at 0
(cond (t b c)) => 3 at 0
(let ((v 1))) => 3 at 0
(let ((v)) v) => 3 at 0
(let ((1 2)) x) => 3 at 0
(let x x) => 3 at 0
(let ((v 1)) v v) => 3 at 0
(let ((v . 1)) v) => 3 at 0
(let* ((v 1) w) v) => 3 at 0
((lambda (v) v)) => 3 at 0
((lambda (v) v) 1 2) => 3 at 0
((lambda v v) 1) => 3 at 0
((lambda (v)) 1) => 3 at 0
((car x) y) => 3 at 0
(5 x) => 3 at 0
(-) => 3 at 0
(- a b c) => 3 at 0
(> a) => 3 at 0
(<= a b c) => 3 at 0
(>= a) => 3 at 0
(/=) => 3 at 0
(1+) => 3 at 0
(1- a b) => 3 at 0
(list*) => 3 at 0
(cadr) => 3 at 0
(first x y) => 3 at 0
`(a `(b)) => 3 at 4
`,@x => 3 at 1
'(a `b) => 3 at 4
(car (1+)) => 3 at 5
(and . x) => 4 at 0
(cons x (car . y)) => 4 at 8
`(a (b . ,c)) => 4 at 4
(let ((t 1)) x) => 6 at 7
(let ((nil 1)) x) => 6 at 7
(let ((() 1)) x) => 6 at 7
(let ((:v 1)) x) => 6 at 7
(let ((*k* 1)) x) => 6 at 7
(let ((v 1) (v 2)) v) => 6 at 13
(let* ((v 1) (v 2)) v) => 6 at 14
((lambda (v v) v) 1 2) => 6 at 12
,x => 7 at 0
(car ,@x) => 7 at 5
'(a ,b) => 7 at 4
`(a ,(b ,c)) => 1 at 5
`(a ,(car ,c)) => 7 at 10
(cons (foo) (bar x)) => 1 at 6
(foo (cons)) => 1 at 0
(cons *c* (car)) => 1 at 6
(list (car) ,x) => 2 at 6
(cond ((foo)) 5) => 3 at 0
(cond (a (foo)) (t (car))) => 1 at 9
(cond (t b) ((foo))) => B
(let ((v (foo)) (t 1)) (car)) => 1 at 9
(let ((v 1)) (foo v)) => 1 at 13
(let ((v (foo))) w) => 1 at 9
((lambda (v) (foo)) (car)) => 1 at 13
((lambda (v) v) (car)) => 2 at 16"#;

/// The same where `x` alone is bound.
const BOUND: &str = r#"x => X
y => 1 at 0
(let ((y x)) y) => X
(let ((z y)) x) => 1 at 9
(let ((y x) (z y)) z) => 1 at 15
(let* ((y x) (z y)) z) => X
((lambda (y) (cons x y)) (car x)) => (CONS X (CAR X))
((lambda (y) z) w) => 1 at 13
'(y z) => '(Y Z)
`(y ,x) => (CONS 'Y (CONS X 'NIL))
`(y ,y) => 1 at 5
(let ((z 1)) (let ((w z)) (cons w x))) => (CONS '1 X)"#;

/// The same of large terms; `small`: it has a term of exactly 4,096 nodes.
const LARGE: &str =
    r#"(let* ((a (cons x x)) (b (cons a a)) (c (cons b b)) (d (cons c c)) (e (cons d d)) (f (cons e e)) (g (cons f f)) (h (cons g g)) (i (cons h h)) (j (cons i i)) (k (cons j j))) (car k)) => small
(let* ((a (cons x x)) (b (cons a a)) (c (cons b b)) (d (cons c c)) (e (cons d d)) (f (cons e e)) (g (cons f f)) (h (cons g g)) (i (cons h h)) (j (cons i i)) (k (cons j j))) (car (cdr k))) => 5 at 0
(let* ((a (cons x x)) (b (cons a a)) (c (cons b b)) (d (cons c c)) (e (cons d d)) (f (cons e e)) (g (cons f f)) (h (cons g g)) (i (cons h h)) (j (cons i i)) (k (cons j j))) (cons k (foo))) => 1 at 181
(let* ((a (cons x x)) (b (cons a a)) (c (cons b b)) (d (cons c c)) (e (cons d d)) (f (cons e e)) (g (cons f f)) (h (cons g g)) (i (cons h h)) (j (cons i i)) (k (cons j j))) (let ((z (cons k k))) x)) => X
(let* ((a (cons x x)) (b (cons a a)) (c (cons b b)) (d (cons c c)) (e (cons d d)) (f (cons e e)) (g (cons f f)) (h (cons g g)) (i (cons h h)) (j (cons i i)) (k (cons j j))) (let ((z (cons k (foo)))) x)) => 1 at 190
(let* ((a (cons x x)) (b (cons a a)) (c (cons b b)) (d (cons c c)) (e (cons d d)) (f (cons e e)) (g (cons f f)) (h (cons g g)) (i (cons h h)) (j (cons i i)) (k (cons j j))) (or (cdr k) x)) => 5 at 0
(let* ((a (cons x x)) (b (cons a a)) (c (cons b b)) (d (cons c c)) (e (cons d d)) (f (cons e e)) (g (cons f f)) (h (cons g g)) (i (cons h h)) (j (cons i i)) (k (cons j j))) (let ((z (cons k k))) (car z))) => 5 at 0"#;

/// `(1 . 2)`
fn pair(alloc: Global) -> Result<Value, NoMemory> {
    Value::cons(alloc, Value::Int(1), Value::Int(2))
}

/// The ground world with the constant `*k*`.
fn world_with_constant(alloc: Global) -> Result<World, NoMemory> {
    let name = symbol(alloc, "*K*")?;
    let value = pair(alloc)?;
    let mut world = ground_world(alloc)?;
    let _ = world.add_constant(alloc, name, value);
    Ok(world)
}

/// What a term prints as, or the word for one of 4,096 nodes.
fn shown(alloc: Global, term: &Term) -> Result<Bytes, NoMemory> {
    if size(term) == Some(4096) {
        return word(alloc, "small");
    }
    print_term(alloc, term)
}

/// What a form's answer prints as.
fn answer(
    alloc: Global,
    world: &World,
    form: &Form,
    bound: Option<&Seq<Symbol>>,
) -> Result<Bytes, NoMemory> {
    match translate(alloc, world, form, bound) {
        Ok(term) => shown(alloc, &term),
        Err(error) => refusal(alloc, &error),
    }
}

/// The same of a text's one form.
fn answered(
    alloc: Global,
    world: &World,
    text: &str,
    bound: Option<&Seq<Symbol>>,
) -> Result<Bytes, NoMemory> {
    match one_form(alloc, text) {
        Some(form) => answer(alloc, world, &form, bound),
        None => word(alloc, "not one form"),
    }
}

/// Compares the answer to each line's form with what the line says.
fn expect_lines(
    rt: &impl Abort,
    alloc: Global,
    world: &World,
    table: &str,
    bound: Option<&Seq<Symbol>>,
) -> Result<(), NoMemory> {
    for line in table.lines() {
        let found = answered(alloc, world, sides(line).0, bound)?;
        expect(rt, found.as_slice(), sides(line).1, line);
    }
    Ok(())
}

/// `x` alone
fn one_variable(alloc: Global) -> Result<Seq<Symbol>, NoMemory> {
    let mut bound = Seq::new(alloc);
    bound.push(symbol(alloc, "X")?)?;
    Ok(bound)
}

/// A form in which `open` stands 400 times, each with its closing parenthesis behind `x`.
fn nested(alloc: Global, open: &[u8]) -> Result<Bytes, NoMemory> {
    let mut text = Seq::new(alloc);
    for _ in 0..400u32 {
        text.extend(open)?;
    }
    text.push(b'x')?;
    for _ in 0..400u32 {
        text.push(b')')?;
    }
    Ok(text)
}

/// The nodes of a form's term.
fn nodes(alloc: Global, world: &World, form: &Form) -> Option<u64> {
    match translate(alloc, world, form, None) {
        Ok(term) => size(&term),
        Err(_) => None,
    }
}

/// The nodes of the term of a text's one form.
fn text_nodes(alloc: Global, world: &World, text: &str) -> Option<u64> {
    match one_form(alloc, text) {
        Some(form) => nodes(alloc, world, &form),
        None => None,
    }
}

/// The nodes of the term of the form in which `open` stands 400 times.
fn nested_nodes(alloc: Global, world: &World, open: &[u8]) -> Result<Option<u64>, NoMemory> {
    let text = nested(alloc, open)?;
    Ok(text_nodes(alloc, world, str::from_utf8(text.as_slice()).unwrap_or("")))
}

/// Each row: what stands 400 times, and the nodes of the term.
const NESTED: &[(&[u8], u64)] = &[(b"(list ", 801), (b"(let nil ", 1), (b"(let* nil ", 1)];

/// Each table in which any variable may stand, and how many lines it has.
const TABLES: &[(&str, usize)] = &[(TERMS, 95), (REFUSALS, 76), (LARGE, 7)];

fn expect_tables(rt: &impl Abort, alloc: Global, world: &World) -> Result<(), NoMemory> {
    for (table, count) in TABLES {
        assert_eq!(rt; table.lines().count(), *count);
        expect_lines(rt, alloc, world, *table, None)?;
    }
    Ok(())
}

/// The same of the table where `x` alone is bound.
fn expect_bound(rt: &impl Abort, alloc: Global, world: &World) -> Result<(), NoMemory> {
    assert_eq!(rt; BOUND.lines().count(), 12);
    let bound = one_variable(alloc)?;
    expect_lines(rt, alloc, world, BOUND, Some(&bound))
}

/// Compares the nodes of the terms of the deepest forms of a text with their rows.
fn expect_nested(rt: &impl Abort, alloc: Global, world: &World) -> Result<(), NoMemory> {
    for (open, count) in NESTED {
        let found = nested_nodes(alloc, world, *open)?;
        assert!(rt; found == Some(*count), "{count}");
    }
    Ok(())
}

#[test]
fn each_form_is_its_term_or_its_first_refusal(rt: HostRuntime) -> Result<(), NoMemory> {
    let world = world_with_constant(rt.alloc())?;
    expect_tables(&rt, rt.alloc(), &world)?;
    expect_bound(&rt, rt.alloc(), &world)?;
    expect_nested(&rt, rt.alloc(), &world)
}
