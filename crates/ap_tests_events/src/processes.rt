//! The processes behind simplification: a table of events and of what they print, and the test of this and of hints.
use crate::hints;
use crate::working::printed_by;
use std::alloc::Global;
use std::process::Abort;
use std::sync::Wait;
use std::test::Fail;
use std::thread::Threads;

const REVERSED: &str = r#"(defun app (x y) (if (consp x) (cons (car x) (app (cdr x) y)) y))
(defun rev (x) (if (consp x) (app (rev (cdr x)) (cons (car x) nil)) nil))
(defthm rev-rev (implies (true-listp x) (equal (rev (rev x)) x)))
"#;

const REVERSED_PRINTED: &str = "DEFUN APP
Measure (ACL2-COUNT X)
Obligation 1
Goal simplify 0
DEFUN APP admitted
DEFUN REV
Measure (ACL2-COUNT X)
Obligation 1
Goal simplify 0
DEFUN REV admitted
DEFTHM REV-REV
Goal push *1
*1 induct 3 (TRUE-LISTP X)
Subgoal *1/3 simplify 0
Subgoal *1/2 simplify 1
Subgoal *1/2' elim 1
Subgoal *1/2'' fertilize 1
Subgoal *1/2''' generalize 1
Subgoal *1/2'4' irrelevance 1
Subgoal *1/2'5' push *1.1
Subgoal *1/1 simplify 0
*1.1 induct 2 (APP R1 (CONS X1 'NIL))
Subgoal *1.1/2 simplify 1
Subgoal *1.1/2' elim 1
Subgoal *1.1/2'' fertilize 1
Subgoal *1.1/2''' simplify 0
Subgoal *1.1/1 simplify 0
DEFTHM REV-REV proved
";

const ANNIHILATED: &str = r#"(defun app (x y) (if (consp x) (cons (car x) (app (cdr x) y)) y))
(defthm app-nil (implies (true-listp x) (equal (app x nil) x)))
(defthm twice (implies (and (true-listp a) (consp a)) (equal (app (app a nil) nil) a)))
"#;

const ANNIHILATED_PRINTED: &str = "DEFUN APP
Measure (ACL2-COUNT X)
Obligation 1
Goal simplify 0
DEFUN APP admitted
DEFTHM APP-NIL
Goal push *1
*1 induct 3 (TRUE-LISTP X)
Subgoal *1/3 simplify 0
Subgoal *1/2 simplify 1
Subgoal *1/2' elim 1
Subgoal *1/2'' simplify 0
Subgoal *1/1 simplify 0
DEFTHM APP-NIL proved
DEFTHM TWICE
Goal simplify 0
DEFTHM TWICE proved
";

const UNTRUE: &str = r#"(defun app (x y) (if (consp x) (cons (car x) (app (cdr x) y)) y))
(defun rev (x) (if (consp x) (app (rev (cdr x)) (cons (car x) nil)) nil))
(defthm rb (equal (rev (rev x)) x))
"#;

const UNTRUE_PRINTED: &str = "DEFUN APP
Measure (ACL2-COUNT X)
Obligation 1
Goal simplify 0
DEFUN APP admitted
DEFUN REV
Measure (ACL2-COUNT X)
Obligation 1
Goal simplify 0
DEFUN REV admitted
DEFTHM RB
Goal push *1
*1 induct 2 (REV X)
Subgoal *1/2 simplify 1
Subgoal *1/2' elim 1
Subgoal *1/2'' fertilize 1
Subgoal *1/2''' generalize 1
Subgoal *1/2'4' push *1.1
Subgoal *1/1 simplify 1
Subgoal *1/1' push *1.2
*1.1 induct 2 (APP R1 (CONS X1 'NIL))
Subgoal *1.1/2 simplify 1
Subgoal *1.1/2' elim 1
Subgoal *1.1/2'' fertilize 1
Subgoal *1.1/2''' simplify 0
Subgoal *1.1/1 simplify 0
*1.2 noscheme
Checkpoints before induction
Goal: (EQUAL (REV (REV X)) X)
Checkpoints under induction
Subgoal *1/2': (OR (NOT (CONSP X)) (NOT (EQUAL (REV (REV (CDR X))) (CDR X))) (EQUAL (REV (APP (REV (CDR X)) (CONS (CAR X) 'NIL))) X))
Subgoal *1/1': (OR (CONSP X) (EQUAL 'NIL X))
Subgoal *1.1/2': (OR (NOT (CONSP R1)) (NOT (EQUAL (REV (APP (CDR R1) (CONS X1 'NIL))) (CONS X1 (REV (CDR R1))))) (EQUAL (APP (REV (APP (CDR R1) (CONS X1 'NIL))) (CONS (CAR R1) 'NIL)) (CONS X1 (APP (REV (CDR R1)) (CONS (CAR R1) 'NIL)))))
DEFTHM RB refused 8.1 NoScheme
";

/// Events, and what they print: a proof goes through each process and a second induction; elimination makes way for the
/// induction hypothesis; and what is below a checkpoint is none.
const ROWS: [(&str, &str); 3] = [
    (REVERSED, REVERSED_PRINTED),
    (ANNIHILATED, ANNIHILATED_PRINTED),
    (UNTRUE, UNTRUE_PRINTED),
];

/// Compares what each row's events print with what is wanted.
fn print_all<R: Threads + Wait + Sync + Abort>(
    rt: &R,
    alloc: Global,
    rows: &[(&str, &str)],
) -> Result<(), Fail> {
    for (events, wanted) in rows {
        let printed = printed_by(rt, alloc, events)?;
        assert_eq!(rt; printed.as_slice(), wanted.as_bytes());
    }
    Ok(())
}

#[test]
fn processes_and_hints_do_what_they_say(rt: HostRuntime) -> Result<(), Fail> {
    print_all(&rt, rt.alloc(), &ROWS)?;
    print_all(&rt, rt.alloc(), &hints::ROWS)
}
