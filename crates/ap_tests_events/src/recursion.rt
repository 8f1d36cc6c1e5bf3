use crate::events::{expect_told, world_behind};
use std::test::Fail;

const EVENTS: &str = r#"(defun f (x) (+ 1 (f x)))
(defun f (x) (if t x (f x)))
(defun ack (m n) (if (zp m) (+ 1 n) (if (zp n) (ack (- m 1) 1) (ack (- m 1) (ack m (- n 1))))))
(defun f (x) (declare (xargs :measure (lex))) (if (f x) (f (cdr x)) 0))
(defun f (x) (declare (xargs :measure (lex))) (if (consp x) (f (cdr x)) 0))
(defun f (x) (declare (xargs :measure 1)) (+ 1 (f x)))
(defun f (x) (declare (xargs :measure (if (consp x) 1 0))) (if (consp x) (f x) 0))
(defun f (x) (declare (xargs :guard (f x) :measure 0)) (f x x))
(defun f (x) (declare (xargs :guard (consp x) :measure (f x))) (if (consp x) (f nil) 0))
(defun f (x) (declare (xargs :guard (consp x) :measure (f x))) (if (consp x) (f nil nil) 0))
(defun f (x) (declare (xargs :verify-guards t)) (f x))
(defun len (x) (len x))
(defun f (x) (declare (xargs :measure (if (consp x) 1 0))) (if (consp x) (f nil) 0))
(defund g (x y) "text" (declare (ignore y) (xargs :guard (consp x) :verify-guards nil :measure (lex 1 (if (consp x) 1 0)))) (if (consp x) (list (g nil y) (g (f 3) x)) t))
(defun plain (x) (declare (xargs :measure (lex))) (f x))
(defun f (x) (f x))
(defthm opened (equal (f (cons x y)) 0) :rule-classes nil)
"#;

const PRINTED: &str = "DEFUN F
DEFUN F refused 7.1 NoMeasure
DEFUN F
DEFUN F refused 7.1 NoMeasure
DEFUN ACK
DEFUN ACK refused 7.2 NestedRecursion
DEFUN F
DEFUN F refused 7.2 NestedRecursion
DEFUN F
DEFUN F refused 7.3 BadMeasure
DEFUN F
Measure '1
Obligation 1
Goal simplify 0
Obligation 2
Goal simplify 1
Goal' empty
Checkpoints before induction
Goal': NIL
DEFUN F refused 8.2 EmptyClause
DEFUN F
Measure (IF (CONSP X) '1 '0)
Obligation 1
Goal simplify 0
Obligation 2
Goal simplify 1
Goal' push *1
*1 noscheme
Checkpoints before induction
Goal': (NOT (CONSP X))
DEFUN F refused 8.1 NoScheme
DEFUN F
DEFUN F refused 4.1 UnknownName
DEFUN F
DEFUN F refused 4.1 UnknownName
DEFUN F
DEFUN F refused 4.2 WrongArity
DEFUN F
DEFUN F refused 11 GuardsAsked
DEFUN LEN
DEFUN LEN refused 3 NameTaken
DEFUN F
Measure (IF (CONSP X) '1 '0)
Obligation 1
Goal simplify 0
Obligation 2
Goal simplify 0
DEFUN F admitted
DEFUN G
Measure (LEX '1 (IF (CONSP X) '1 '0))
Obligation 1
Goal simplify 0
Obligation 2
Goal simplify 0
Obligation 3
Goal simplify 0
Obligation 4
Goal simplify 0
DEFUN G admitted
DEFUN PLAIN
DEFUN PLAIN admitted
DEFUN F
DEFUN F refused 3 NameTaken
DEFTHM OPENED
Goal simplify 0
DEFTHM OPENED proved
";

/// A function, and the types that its calls may have, or that there is none: 1 zero, 16 `t`, 64 a proper cons.
const FUNCTIONS: &str = "F 1
G 80
PLAIN 1
ACK none";

#[test]
fn functions_that_call_themselves_are_admitted_by_their_measure(
    rt: HostRuntime,
) -> Result<(), Fail> {
    let world = world_behind(&rt, rt.alloc(), EVENTS, PRINTED)?;
    expect_told(&rt, rt.alloc(), &world, FUNCTIONS)
}
