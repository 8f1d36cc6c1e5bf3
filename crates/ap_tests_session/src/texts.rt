//! What is printed of a book: each fault of reading, each refusal, and what is admitted.
use crate::running::{NONE, book_of, prints, run, sees, text_of};
use ap_session::{NoGate, Status};
use std::alloc::Global;
use std::process::Abort;
use std::sync::Wait;
use std::test::Fail;
use std::thread::Threads;

/// Each fault of reading, and each refusal: what stands after a book's first line, and the line that it prints.
const REFUSED: &str = r##""ab => Read error 1 OpenString at 20
#| x => Read error 2 OpenComment at 20
 |ab => Read error 3 OpenBar at 21
#y => Read error 4 BadHash at 20
#\Spac => Read error 5 BadCharName at 20
(a (b) => Read error 6 OpenList at 20
a) => Read error 7 StrayClose at 21
1. => Read error 8 NotInteger at 20
(defthm w (equal x 170141183460469231731687303715884105728)) => Read error 9 IntegerTooWide at 39
(. a) => Read error 11 BadDot at 21
x:y => Read error 12 BadPackage at 20
3 => FORM refused 1 NotSupported
() => FORM refused 1 NotSupported
'x => FORM refused 1 NotSupported
((f) x) => FORM refused 1 NotSupported
(3 . x) => FORM refused 1 NotSupported
(in-package "ACL2") => IN-PACKAGE refused 1 NotSupported
(defthmd 3 (equal x x)) => DEFTHM refused 2 BadEvent
(defund f (3) x) => DEFUN refused 2 BadEvent
(in-theory) => IN-THEORY refused 2 BadEvent
(in-theory (enable car) (disable car)) => IN-THEORY refused 2 BadEvent
(in-theory (enable . car)) => IN-THEORY refused 2 BadEvent
(in-theory (e/d (not))) => IN-THEORY refused 2 BadEvent
(in-theory (current-theory :here)) => IN-THEORY refused 2 BadEvent
(in-theory (enable foo)) => IN-THEORY refused 4.1 UnknownName
(in-theory (disable car)) => IN-THEORY refused 4.1 UnknownName
(in-theory (enable (:rewrite not))) => IN-THEORY refused 4.1 UnknownName
(in-theory (enable not 3)) => IN-THEORY refused 4.1 UnknownName
(local . 3) => LOCAL refused 2 BadEvent
(local) => LOCAL refused 2 BadEvent
(local (defun f (x) x) (defun g (x) x)) => LOCAL refused 2 BadEvent
(local 3) => FORM refused 1 NotSupported
(progn . 3) => PROGN refused 2 BadEvent
(progn (progn (foo))) => FOO refused 1 NotSupported
(encapsulate) => ENCAPSULATE refused 2 BadEvent
(encapsulate t (defun f (x) x)) => ENCAPSULATE refused 2 BadEvent
(encapsulate ((f (x) t)) (local (defun f (x) x))) => ENCAPSULATE refused 2 BadEvent
(include-book) => INCLUDE-BOOK refused 2 BadEvent
(include-book b) => INCLUDE-BOOK refused 2 BadEvent
(include-book "b" "c") => INCLUDE-BOOK refused 2 BadEvent
(include-book "b") => INCLUDE-BOOK b refused 9 NoSuchBook
(progn (defun f (x) x) (encapsulate () (local (progn (defun f (x) x))) (defun g (x) x))) => DEFUN F / DEFUN F admitted / DEFUN F / DEFUN F refused 3 NameTaken
(encapsulate () (local (defun g (x) x)) (defthm gg (equal (g x) x))) => DEFUN G / DEFUN G admitted / DEFTHM GG / Goal simplify 0 / DEFTHM GG proved / Second pass / DEFTHM GG refused 4.1 UnknownName
(progn (encapsulate () (local (defconst *c* 3)) (progn (defun f () *c*)))) => DEFCONST *C* admitted / DEFUN F / DEFUN F admitted / Second pass / DEFUN F refused 4.1 UnknownName
(local (defun g (x) x)) (defthm gg (equal (g x) x)) => DEFUN G / DEFUN G admitted / DEFTHM GG / Goal simplify 0 / DEFTHM GG proved / Second pass / DEFTHM GG refused 4.1 UnknownName
(local (defun g (x) x)) (defun h (x) (g x)) (defun k (x) (h x)) (progn (defun m (x) (k x))) => DEFUN G / DEFUN G admitted / DEFUN H / DEFUN H admitted / DEFUN K / DEFUN K admitted / DEFUN M / DEFUN M admitted / Second pass / DEFUN H refused 4.1 UnknownName
(local (defun g (x) x)) (in-theory (disable g)) => DEFUN G / DEFUN G admitted / IN-THEORY admitted / Second pass / IN-THEORY refused 4.1 UnknownName
(local (defun g (x) x)) (defun h (x) (g x)) (defun g (x) x) => DEFUN G / DEFUN G admitted / DEFUN H / DEFUN H admitted / DEFUN G / DEFUN G refused 3 NameTaken
(defund q (x) (equal x x)) (encapsulate () (local (defthm q-holds (q x) :hints (("Goal" :in-theory (enable q))))) (defthm q-of-car (q (car y)))) (defthm q-of-all (q y) :rule-classes nil) => DEFUN Q / DEFUN Q admitted / DEFTHM Q-HOLDS / Goal simplify 0 / DEFTHM Q-HOLDS proved / DEFTHM Q-OF-CAR / Goal simplify 0 / DEFTHM Q-OF-CAR proved / DEFTHM Q-OF-ALL / Goal push *1 / *1 noscheme / Checkpoints before induction / Goal: (Q Y) / DEFTHM Q-OF-ALL refused 8.1 NoScheme
(encapsulate () (local (defthm cc (equal (car (cons x y)) x))) (defthm b (equal x x) :rule-classes nil)) (defthm c (equal x x) :hints (("Goal" :use cc)) :rule-classes nil) => DEFTHM CC / Goal simplify 0 / DEFTHM CC proved / DEFTHM B / Goal simplify 0 / DEFTHM B proved / DEFTHM C / DEFTHM C refused 6.4 BadInstance
(|a b|) => |a b| refused 1 NotSupported
(:key) => :KEY refused 1 NotSupported
(defthm) => DEFTHM refused 2 BadEvent
(defthm a) => DEFTHM refused 2 BadEvent
(defthm a x . y) => DEFTHM refused 2 BadEvent
(defthm 3 (equal x x)) => DEFTHM refused 2 BadEvent
(defthm nil (equal x x)) => DEFTHM refused 2 BadEvent
(defthm :a (equal x x)) => DEFTHM refused 2 BadEvent
(defthm *a* (equal x x)) => DEFTHM refused 2 BadEvent
(defthm let* (equal x x)) => DEFTHM refused 2 BadEvent
(defthm second (equal x x)) => DEFTHM refused 2 BadEvent
(defthm 1- (equal x x)) => DEFTHM refused 2 BadEvent
(defthm cdddar (equal x x)) => DEFTHM refused 2 BadEvent
(defthm a x nil) => DEFTHM refused 2 BadEvent
(defthm a x :rule-classes) => DEFTHM refused 2 BadEvent
(defthm a x :otf-flg 3) => DEFTHM refused 2 BadEvent
(defthm a x :otf-flg) => DEFTHM refused 2 BadEvent
(defthm a x :otf-flg t :otf-flg t) => DEFTHM refused 2 BadEvent
(defthm a x :otf-flg 't) => DEFTHM refused 2 BadEvent
(defthm a x :rule-classes nil :rule-classes nil) => DEFTHM refused 2 BadEvent
(defthm a x :rule-classes rewrite) => DEFTHM refused 2 BadEvent
(defthm a x :hints nil :rule-classes (:rewrite :elim)) => DEFTHM refused 2 BadEvent
(defthm a (equal x x)) => DEFTHM A / DEFTHM A refused 5.1 LhsVariable
(defthm a (equal x x) :rule-classes :linear) => DEFTHM A / DEFTHM A refused 5.4 NotInequality
(defthm a (equal x x) :rule-classes (:type-prescription :rewrite)) => DEFTHM A / DEFTHM A refused 5.1 LhsVariable
(defthm a (equal 'b (car x))) => DEFTHM A / DEFTHM A refused 5.2 LhsConstant
(defthm a (equal (car x) (cdr y))) => DEFTHM A / DEFTHM A refused 5.3 FreeInRhs
(defthm a (consp x) :rule-classes :type-prescription) => DEFTHM A / DEFTHM A refused 5.5 NotTypeForm
(defthm a (equal x x) :hints (("Subgoal 0")) :rule-classes nil) => DEFTHM A / DEFTHM A refused 6.1 BadGoalName
(defun) => DEFUN refused 2 BadEvent
(defun f (x)) => DEFUN refused 2 BadEvent
(defun f x x) => DEFUN refused 2 BadEvent
(defun f (3) 3) => DEFUN refused 2 BadEvent
(defun *f* (x) x) => DEFUN refused 2 BadEvent
(defun cond (x) x) => DEFUN refused 2 BadEvent
(defun f (x) x :hints nil) => DEFUN refused 2 BadEvent
(defun f (x) (declare (ignore x)) "doc" x) => DEFUN refused 2 BadEvent
(defun f (x) (declare (ignore x)) (declare (ignore x)) 1) => DEFUN refused 2 BadEvent
(defun f (x) (declare (optimize speed)) x) => DEFUN refused 2 BadEvent
(defun f (x) (declare (xargs :guard t) (xargs :measure x)) x) => DEFUN refused 2 BadEvent
(defun f (x) (declare (xargs :guard t :guard t)) x) => DEFUN refused 2 BadEvent
(defun f (x) (declare (xargs :mode :logic)) x) => DEFUN refused 2 BadEvent
(defun f (x) (declare (xargs :guard)) x) => DEFUN refused 2 BadEvent
(defun f (x) (declare (xargs :verify-guards 3)) x) => DEFUN refused 2 BadEvent
(defun f (x) (declare (xargs :otf-flg 3)) x) => DEFUN refused 2 BadEvent
(defun f (x) (declare (xargs :otf-flg t :otf-flg nil)) x) => DEFUN refused 2 BadEvent
(defun f (x) (declare (xargs :hints t)) x) => DEFUN F / DEFUN F refused 6.2 UnknownKeyword
(defun f (x) (+ 1 (f x))) => DEFUN F / DEFUN F refused 7.1 NoMeasure
(defun ack (m n) (if (zp m) (+ 1 n) (if (zp n) (ack (- m 1) 1) (ack (- m 1) (ack m (- n 1)))))) => DEFUN ACK / DEFUN ACK refused 7.2 NestedRecursion
(defun f (x) (declare (xargs :measure (lex))) (+ 1 (f x))) => DEFUN F / DEFUN F refused 7.3 BadMeasure
(defun f (x) (declare (xargs :measure 1)) (+ 1 (f x))) => DEFUN F / Measure '1 / Obligation 1 / Goal simplify 0 / Obligation 2 / Goal simplify 1 / Goal' empty / Checkpoints before induction / Goal': NIL / DEFUN F refused 8.2 EmptyClause
(defun f (x) (declare (xargs :verify-guards t :guard (g x))) x) => DEFUN F / DEFUN F refused 11 GuardsAsked
(defun car (x) x) => DEFUN CAR / DEFUN CAR refused 3 NameTaken
(defun f (x x) x) => DEFUN F / DEFUN F refused 4.6 NotAVariable
(defun f (t) (g t)) => DEFUN F / DEFUN F refused 4.6 NotAVariable
(defun f (x *c*) x) => DEFUN F / DEFUN F refused 4.6 NotAVariable
(defun f (x ()) x) => DEFUN F / DEFUN F refused 4.6 NotAVariable
(defun f (x) y) => DEFUN F / DEFUN F refused 4.1 UnknownName
(defun f (x) (declare)) => DEFUN F / DEFUN F refused 4.1 UnknownName
(defun f (x) (declare (xargs :guard (car x x))) (g x)) => DEFUN F / DEFUN F refused 4.2 WrongArity
(defun f (x) (declare (xargs :measure (car x x))) (let ((x)) x)) => DEFUN F / DEFUN F refused 4.3 BadForm
(defun f (x) (declare (xargs :measure (lex x (car x x)))) x) => DEFUN F / DEFUN F refused 4.2 WrongArity
(defun f (x) (car . x)) => DEFUN F / DEFUN F refused 4.4 DottedForm
(defconst *c*) => DEFCONST refused 2 BadEvent
(defconst c 3) => DEFCONST refused 2 BadEvent
(defconst ** 3) => DEFCONST refused 2 BadEvent
(defconst *c* x) => DEFCONST refused 2 BadEvent
(defconst *c* (car 'x)) => DEFCONST refused 2 BadEvent
(defconst *c* `x) => DEFCONST refused 2 BadEvent
(defconst *c* 3 4) => DEFCONST refused 2 BadEvent
(defconst *c* '(a ,b)) => DEFCONST *C* refused 4.7 CommaOutside
(defconst *c* 1) (defconst *c* 1) => DEFCONST *C* admitted / DEFCONST *C* refused 3 NameTaken
(defun f (x) x) (defthm f (equal x x) :rule-classes nil) => DEFUN F / DEFUN F admitted / DEFTHM F / DEFTHM F refused 3 NameTaken
(defthm if (equal x (f x)) :rule-classes nil) => DEFTHM IF / DEFTHM IF refused 3 NameTaken
(defthm q (equal (foo x) x) :rule-classes nil) => DEFTHM Q / DEFTHM Q refused 4.1 UnknownName
(defthm a (equal x x x) :rule-classes nil) => DEFTHM A / DEFTHM A refused 4.2 WrongArity
(defthm a (equal *c* *c*) :rule-classes nil) => DEFTHM A / DEFTHM A refused 4.1 UnknownName
(defthm a (equal '(a ,b) '(a ,b)) :rule-classes nil) => DEFTHM A / DEFTHM A refused 4.7 CommaOutside
(defthm e nil :rule-classes nil) => DEFTHM E / Goal simplify 1 / Goal' empty / Checkpoints before induction / Goal': NIL / DEFTHM E refused 8.2 EmptyClause
(defthm h2 (if (equal (equal x y) (equal z w)) (equal u v) nil) :rule-classes nil) => DEFTHM H2 / Goal simplify 2 / Subgoal 2 push *1 / Subgoal 1 push *2 / Revert 2 / *1 noscheme / Checkpoints before induction / Subgoal 2: (OR (NOT (EQUAL (EQUAL X Y) (EQUAL Z W))) (EQUAL U V)) / Subgoal 1: (EQUAL (EQUAL X Y) (EQUAL Z W)) / DEFTHM H2 refused 8.1 NoScheme
(defthm a (if x y z) :rule-classes nil) => DEFTHM A / Goal simplify 2 / Subgoal 2 irrelevance 1 / Subgoal 2' push *1 / Subgoal 1 push *2 / Revert 2 / *1 noscheme / Checkpoints before induction / Subgoal 2: (OR (NOT X) Y) / Subgoal 1: (OR X Z) / DEFTHM A refused 8.1 NoScheme
(defthm a (implies (equal x (car y)) (consp x)) :rule-classes nil) => DEFTHM A / Goal simplify 1 / Goal' elim 2 / Subgoal 2 simplify 1 / Subgoal 2' push *1 / Subgoal 1 push *2 / Revert 2 / *1 noscheme / Checkpoints before induction / Goal': (CONSP (CAR Y)) / DEFTHM A refused 8.1 NoScheme
(defthm a (equal x y) :rule-classes nil) => DEFTHM A / Goal push *1 / *1 noscheme / Checkpoints before induction / Goal: (EQUAL X Y) / DEFTHM A refused 8.1 NoScheme
(defthm refl (equal x x) :rule-classes nil) (defthm refl (equal x x) :rule-classes nil) => DEFTHM REFL / Goal simplify 0 / DEFTHM REFL proved / DEFTHM REFL / DEFTHM REFL refused 3 NameTaken
(defthm not (equal x y) :rule-classes nil) (defthm b (equal x x) :rule-classes nil) => DEFTHM NOT / DEFTHM NOT refused 3 NameTaken
(defthm COERCE (equal x x) :rule-classes nil) => DEFTHM COERCE / DEFTHM COERCE refused 3 NameTaken
(defthm MAKE-CHARACTER-LIST (equal x x) :rule-classes nil) => DEFTHM MAKE-CHARACTER-LIST / DEFTHM MAKE-CHARACTER-LIST refused 3 NameTaken
(defthm COERCE-INVERSE (equal x x) :rule-classes nil) => DEFTHM COERCE-INVERSE / DEFTHM COERCE-INVERSE refused 3 NameTaken
(defthm NOT (equal x x) :rule-classes nil) => DEFTHM NOT / DEFTHM NOT refused 3 NameTaken"##;

/// What is admitted: events behind a book's first line, and the lines that they print.
const ADMITTED: &str = r##"(defun f (x) x) => DEFUN F / DEFUN F admitted
(defun |f g| () nil) => DEFUN |f g| / DEFUN |f g| admitted
(defun f (x y) "A text." (declare (ignore y) (xargs :verify-guards nil :guard (natp x))) (+ x 1)) => DEFUN F / DEFUN F admitted
(defun f (x) "A body.") => DEFUN F / DEFUN F admitted
(defun f (x) (declare (xargs :measure (lex (acl2-count x) 3))) (and x 1)) => DEFUN F / DEFUN F admitted
(defun f (x) (declare (xargs :measure (if (consp x) 1 0))) (if (consp x) (f nil) x)) => DEFUN F / Measure (IF (CONSP X) '1 '0) / Obligation 1 / Goal simplify 0 / Obligation 2 / Goal simplify 0 / DEFUN F admitted
(defun f (x) (* x x)) (defun g (x) (f (f x))) => DEFUN F / DEFUN F admitted / DEFUN G / DEFUN G admitted
(defun f (x) (declare (xargs :hints nil)) x) => DEFUN F / DEFUN F admitted
(defun f (x) (declare (xargs :otf-flg t :hints nil)) x) => DEFUN F / DEFUN F admitted
(defthmd a (equal x x) :otf-flg nil :rule-classes nil) => DEFTHM A / Goal simplify 0 / DEFTHM A proved
(defthm a (equal x x) :hints () :rule-classes nil) => DEFTHM A / Goal simplify 0 / DEFTHM A proved
(defun f (x) x) (defthm a (equal (f y) (f y)) :rule-classes nil) => DEFUN F / DEFUN F admitted / DEFTHM A / Goal simplify 0 / DEFTHM A proved
(defconst *c* 'x) => DEFCONST *C* admitted
(defconst *c* (quote (a . b))) => DEFCONST *C* admitted
(defconst *c* -3) => DEFCONST *C* admitted
(defconst *c* #\a) (defconst *d* "s") => DEFCONST *C* admitted / DEFCONST *D* admitted
(defconst *c* :key) (defconst *d* t) (defconst *e* ()) => DEFCONST *C* admitted / DEFCONST *D* admitted / DEFCONST *E* admitted
(defconst *c* '(1 2)) (defthm a (equal *c* '(1 2)) :rule-classes nil) => DEFCONST *C* admitted / DEFTHM A / Goal simplify 0 / DEFTHM A proved
(defthmd a (equal (car x) (car x)) :rule-classes ()) => DEFTHM A / Goal simplify 0 / DEFTHM A proved
(defund f (x) x) (in-theory (e/d (f (:executable-counterpart f)) (not))) => DEFUN F / DEFUN F admitted / IN-THEORY admitted
(in-theory (enable)) => IN-THEORY admitted
(progn) (encapsulate ()) (encapsulate nil) (progn (defun f (x) x)) => DEFUN F / DEFUN F admitted
(local (defun f (x) x)) (defthm a (equal x x) :hints (("Goal" :in-theory (disable f))) :rule-classes nil) => DEFUN F / DEFUN F admitted / DEFTHM A / Goal simplify 0 / DEFTHM A proved
(encapsulate () (progn (local (progn (defun g (x) x))) (defun h (x) x))) (defun g (x y) (h x)) => DEFUN G / DEFUN G admitted / DEFUN H / DEFUN H admitted / DEFUN G / DEFUN G admitted
(defun f (x) x) (encapsulate () (local (in-theory (disable f))) (defund g (x) x)) (defthm a (equal (f x) x)) => DEFUN F / DEFUN F admitted / IN-THEORY admitted / DEFUN G / DEFUN G admitted / DEFTHM A / Goal simplify 0 / DEFTHM A proved
(encapsulate () (local (encapsulate () (local (defun f (x) x)) (defun g (x) x))) (defun f (x) x) (encapsulate () (local (defun k (x) x)) (defun h (x) x))) (defun g (x) (h x)) (defun k (x) x) => DEFUN F / DEFUN F admitted / DEFUN G / DEFUN G admitted / DEFUN F / DEFUN F admitted / DEFUN K / DEFUN K admitted / DEFUN H / DEFUN H admitted / DEFUN G / DEFUN G admitted / DEFUN K / DEFUN K admitted
(defthm a (equal `x `x) :rule-classes nil) => DEFTHM A / Goal simplify 0 / DEFTHM A proved
(defthm s (implies (equal x y) (equal y x)) :rule-classes nil) => DEFTHM S / Goal simplify 1 / Goal' simplify 0 / DEFTHM S proved
(defthm a (implies (and p q) (or q r)) :rule-classes nil) => DEFTHM A / Goal simplify 0 / DEFTHM A proved
(defthm a (if x (equal x x) (not x)) :rule-classes nil) => DEFTHM A / Goal simplify 0 / DEFTHM A proved
(defthm a (implies (equal x (car y)) (consp (cons x z))) :rule-classes nil) => DEFTHM A / Goal simplify 1 / Goal' simplify 0 / DEFTHM A proved"##;

/// The text of the book `b` that ends so: its first line, these lines, which stand between strokes, and the last line.
fn book_text(alloc: Global, lines: &str, status: Status) -> Result<Vec<u8>, Fail> {
    let last = if status == Status::Certified {
        "certified"
    } else {
        "not certified"
    };
    let lines = format!(in alloc; "Book b / {lines} / Book b {last}")?;
    text_of(alloc, lines.as_str())
}

/// Certifies the book `b` of these events, and asserts the status and the lines between its first and its last one.
fn book_prints<R: Abort + Threads + Wait + Sync>(
    rt: &R,
    alloc: Global,
    events: &str,
    lines: &str,
    status: Status,
) -> Result<(), Fail> {
    let text = book_text(alloc, lines, status)?;
    let files = book_of(alloc, "b", events)?;
    let ended = run(rt, alloc, "b", files, NONE, &NoGate)?;
    sees(rt, &ended, status, text.as_slice())
}

/// Certifies the book of each row of a table, and asserts what it prints.
fn books_print<R: Abort + Threads + Wait + Sync>(
    rt: &R,
    alloc: Global,
    table: &str,
    status: Status,
    rows: u32,
) -> Result<(), Fail> {
    let mut count = 0u32;
    for row in table.lines() {
        if let Some((events, lines)) = row.split_once(" => ") {
            count = count.saturating_add(1);
            book_prints(rt, alloc, events, lines, status)?;
        }
    }
    assert_eq!(rt; count, rows);
    Ok(())
}

#[test]
fn each_fault_and_refusal_is_printed(rt: HostRuntime) -> Result<(), Fail> {
    books_print(&rt, rt.alloc(), REFUSED, Status::NotCertified, 139)
}

#[test]
fn what_is_admitted_is_printed(rt: HostRuntime) -> Result<(), Fail> {
    books_print(&rt, rt.alloc(), ADMITTED, Status::Certified, 31)
}

/// The equations that are proved with their two sides the same, each named in its own way: constants in each of their
/// forms.
const PROVED: &[u8] = b"(in-package \"ACL2\") ; a comment
(defthm a (equal 3 '#b11) :rule-classes nil)
(defthm |a b| (equal (quote a) 'a) :rule-classes ())
(defthm ** (equal \"s\" '\"s\") :rule-classes nil)
#| another |# (defthm caddddr (equal () 'nil) :rule-classes nil)
(defthm if (equal x x) :rule-classes nil)";

const PROVED_TEXT: &[u8] = b"Book b
DEFTHM A
Goal simplify 0
DEFTHM A proved
DEFTHM |a b|
Goal simplify 0
DEFTHM |a b| proved
DEFTHM **
Goal simplify 0
DEFTHM ** proved
DEFTHM CADDDDR
Goal simplify 0
DEFTHM CADDDDR proved
DEFTHM IF
DEFTHM IF refused 3 NameTaken
Book b not certified
";

/// What is printed of a book whose first form names no package.
const NO_PACKAGE: &[u8] = b"Book b\nIN-PACKAGE refused 12 NoInPackage\nBook b not certified\n";

/// Whole books, and what is printed of them: a book begins with its package, in letters of any case, and is read whole.
const WHOLE: [(&[u8], &[u8]); 7] = [
    (b"", NO_PACKAGE),
    (
        b"(defthm refl (equal x x) :rule-classes nil)\n(in-package \"ACL2\")\n",
        NO_PACKAGE,
    ),
    (b"(in-package ACL2)", NO_PACKAGE),
    (
        b"(in-package \"ACL2\")\n(defthm refl (equal x x) :rule-classes nil)\n(defthm a (equal x",
        b"Book b\nRead error 6 OpenList at 74\nBook b not certified\n",
    ),
    (
        b"(IN-package \"ACL2\")(DefThm same nil:Rule-Classes NIL)",
        b"Book b\nRead error 12 BadPackage at 32\nBook b not certified\n",
    ),
    (
        b"(IN-package \"ACL2\")(DefThm same (EQUAL(if x t NIL)(If X T nil)):Rule-Classes NIL)",
        b"Book b\nDEFTHM SAME\nGoal simplify 0\nDEFTHM SAME proved\nBook b certified\n",
    ),
    (PROVED, PROVED_TEXT),
];

#[test]
fn a_book_begins_with_its_package_and_is_read_whole(rt: HostRuntime) -> Result<(), Fail> {
    for (book, text) in WHOLE {
        prints(&rt, rt.alloc(), book, text)?;
    }
    Ok(())
}
