//! Each process behind simplification by itself: the text of theorems of functions that are disabled, so that nothing
//! is rewritten.
use crate::working::worked_within;
use ap_events::Bytes;
use std::alloc::Global;
use std::sync::Wait;
use std::test::Fail;
use std::thread::Threads;

const FUNCTIONS: &str = r#"(defund p (x) x)
(defund q (x) x)
(defund r (x) x)
(defun app (x y) (if (consp x) (cons (car x) (app (cdr x) y)) y))
(defun dup (x) (if (consp x) (cons (car x) (dup (cdr x))) nil))
(in-theory (enable p q r))
(defthm r-of-q (equal (r (q x)) (p x)))
(in-theory (disable p q r))
"#;

const FUNCTIONS_PRINTED: &str = "DEFUN P
DEFUN P admitted
DEFUN Q
DEFUN Q admitted
DEFUN R
DEFUN R admitted
DEFUN APP
Measure (ACL2-COUNT X)
Obligation 1
Goal simplify 0
DEFUN APP admitted
DEFUN DUP
Measure (ACL2-COUNT X)
Obligation 1
Goal simplify 0
DEFUN DUP admitted
IN-THEORY admitted
DEFTHM R-OF-Q
Goal simplify 0
DEFTHM R-OF-Q proved
IN-THEORY admitted
";

/// Whether a theorem prints this behind the functions, with attempts of at most so many goals.
fn prints<R: Threads + Wait + Sync>(
    rt: &R,
    alloc: Global,
    theorem: &str,
    goals: u32,
    expected: &str,
) -> Result<bool, Fail> {
    let text = format!(in alloc; "{FUNCTIONS}{theorem}")?;
    let wanted = format!(in alloc; "{FUNCTIONS_PRINTED}{expected}")?;
    let mut printed = Bytes::new(alloc);
    worked_within(rt, alloc, &text, goals, &mut printed)?;
    Ok(printed.as_slice() == wanted.as_bytes())
}

/// The first variable that is taken apart is eliminated.
const ELIMINATED: &str = "DEFTHM E1
Goal elim 2
Subgoal 2 simplify 0
Subgoal 1 push *1
*1 noscheme
Checkpoints before induction
Goal: (OR (NOT (P (CAR X))) (Q (CDR X)))
DEFTHM E1 refused 8.1 NoScheme
";

/// A hypothesis that it is a cons leaves one child.
const ELIMINATED_CONS: &str = "DEFTHM E2
Goal elim 1
Goal' push *1
*1 noscheme
Checkpoints before induction
Goal: (OR (NOT (CONSP X)) (NOT (P (CAR X))) (Q X))
DEFTHM E2 refused 8.1 NoScheme
";

/// A name that is taken is passed over.
const ELIMINATED_NEW: &str = "DEFTHM E3
Goal elim 1
Goal' irrelevance 1
Goal'' push *1
*1 induct 2 (APP X3 X1)
Subgoal *1/2 simplify 1
Subgoal *1/2' elim 1
Subgoal *1/2'' generalize 1
Subgoal *1/2''' push *1.1
Subgoal *1/1 simplify 1
Subgoal *1/1' push *1.2
*1.1 noscheme
Checkpoints before induction
Goal: (OR (NOT (CONSP X)) (NOT (P (CAR X))) (Q (APP (CDR X) X1)))
Checkpoints under induction
Subgoal *1/2': (OR (NOT (CONSP X3)) (NOT (Q (APP (CDR X3) X1))) (Q (CONS (CAR X3) (APP (CDR X3) X1))))
Subgoal *1/1': (OR (CONSP X3) (Q X1))
DEFTHM E3 refused 8.1 NoScheme
";

/// An equation is used in the left side.
const FERTILIZED_LEFT: &str = "DEFTHM F1
Goal fertilize 1
Goal' simplify 0
DEFTHM F1 proved
";

/// An equation is used in the right side first.
const FERTILIZED_RIGHT: &str = "DEFTHM F2
Goal fertilize 1
Goal' simplify 0
DEFTHM F2 proved
";

/// An equation with a constant is not used.
const NOT_FERTILIZED: &str = "DEFTHM F3
Goal push *1
*1 noscheme
Checkpoints before induction
Goal: (OR (NOT (EQUAL (P X) 'A)) (EQUAL (R (P X)) (P Y)))
DEFTHM F3 refused 8.1 NoScheme
";

/// The smallest common call is generalized first.
const GENERALIZED: &str = "DEFTHM G1
Goal generalize 1
Goal' generalize 1
Goal'' push *1
*1 noscheme
Checkpoints before induction
Goal: (OR (NOT (P (APP (APP X Y) Z))) (Q (APP (APP X Y) Z)))
DEFTHM G1 refused 8.1 NoScheme
";

/// A call that is a truth is not generalized.
const NOT_GENERALIZED: &str = "DEFTHM G2
Goal push *1
*1 induct 3 (TRUE-LISTP X)
Subgoal *1/3 simplify 0
Subgoal *1/2 simplify 0
Subgoal *1/1 simplify 1
Subgoal *1/1' push *1.1
*1.1 noscheme
Checkpoints before induction
Goal: (OR (NOT (P (TRUE-LISTP X))) (Q (TRUE-LISTP X)))
Checkpoints under induction
Subgoal *1/1': (OR (CONSP X) (NOT (P (EQUAL X 'NIL))) (Q (EQUAL X 'NIL)))
DEFTHM G2 refused 8.1 NoScheme
";

/// What a call answers restricts its variable.
const RESTRICTED: &str = "DEFTHM G3
Goal generalize 1
Goal' push *1
*1 induct 4 (TRUE-LISTP D1)
Goal limit
Checkpoints before induction
Goal: (OR (NOT (P (DUP X))) (Q (DUP X)))
DEFTHM G3 refused 8.3 GoalLimit
";

/// A part that says nothing of the rest is left out.
const LEFT_OUT: &str = "DEFTHM I1
Goal irrelevance 1
Goal' push *1
*1 noscheme
Checkpoints before induction
Goal: (OR (NOT (P X)) (NOT (Q Y)) (EQUAL (CONS X Z) (P Z)))
DEFTHM I1 refused 8.1 NoScheme
";

/// Where all parts are irrelevant none is left out.
const ALL_IRRELEVANT: &str = "DEFTHM I2
Goal push *1
*1 noscheme
Checkpoints before induction
Goal: (OR (NOT (P X)) (Q Y))
DEFTHM I2 refused 8.1 NoScheme
";

/// Theorems, with how many goals an attempt may visit at most, and what they print.
const ROWS: [(&str, u32, &str); 11] = [
    (
        "(defthm e1 (implies (p (car x)) (q (cdr x))))",
        100,
        ELIMINATED,
    ),
    (
        "(defthm e2 (implies (and (consp x) (p (car x))) (q x)))",
        100,
        ELIMINATED_CONS,
    ),
    (
        "(defthm e3 (implies (and (consp x) (p (car x))) (q (app (cdr x) x1))))",
        100,
        ELIMINATED_NEW,
    ),
    (
        "(defthm f1 (implies (equal (p y) (q x)) (equal (r (p y)) (p x))))",
        100,
        FERTILIZED_LEFT,
    ),
    (
        "(defthm f2 (implies (equal (p y) (p x)) (equal (q (p y)) (q (p x)))))",
        100,
        FERTILIZED_RIGHT,
    ),
    (
        "(defthm f3 (implies (equal (p x) 'a) (equal (r (p x)) (p y))) :rule-classes nil)",
        100,
        NOT_FERTILIZED,
    ),
    (
        "(defthm g1 (implies (p (app (app x y) z)) (q (app (app x y) z))))",
        100,
        GENERALIZED,
    ),
    (
        "(defthm g2 (implies (p (true-listp x)) (q (true-listp x))))",
        100,
        NOT_GENERALIZED,
    ),
    (
        "(defthm g3 (implies (p (dup x)) (q (dup x))))",
        3,
        RESTRICTED,
    ),
    (
        "(defthm i1 (implies (and (p x) (q y)) (equal (cons x z) (p z))))",
        100,
        LEFT_OUT,
    ),
    ("(defthm i2 (implies (p x) (q y)))", 100, ALL_IRRELEVANT),
];

#[test]
fn each_process_by_itself_leaves_what_it_says(rt: HostRuntime) -> Result<(), Fail> {
    for (theorem, goals, expected) in ROWS {
        assert!(rt; prints(&rt, rt.alloc(), theorem, goals, expected)?);
    }
    Ok(())
}
