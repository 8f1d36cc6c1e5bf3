use crate::events::{expect_told, world_behind};
use std::test::Fail;

const EVENTS: &str = r#"(defun app (x y) (if (consp x) (cons (car x) (app (cdr x) y)) y))
(defthm app-assoc (equal (app (app x y) z) (app x (app y z))))
(defun rev (x) (if (consp x) (app (rev (cdr x)) (cons (car x) nil)) nil))
(defun lx (x y) (declare (ignore z) (xargs :measure (lex (acl2-count x) (acl2-count y)))) (if (consp x) (lx (cdr x) (cons x y)) (if (consp y) (lx x (cdr y)) 0)))
(defthm app-comm (equal (app x y) (app y x)))
"#;

const PRINTED: &str = "DEFUN APP
Measure (ACL2-COUNT X)
Obligation 1
Goal simplify 0
DEFUN APP admitted
DEFTHM APP-ASSOC
Goal push *1
*1 induct 2 (APP X Y)
Subgoal *1/2 simplify 0
Subgoal *1/1 simplify 0
DEFTHM APP-ASSOC proved
DEFUN REV
Measure (ACL2-COUNT X)
Obligation 1
Goal simplify 0
DEFUN REV admitted
DEFUN LX
Measure (LEX (ACL2-COUNT X) (ACL2-COUNT Y))
Obligation 1
Goal simplify 0
Obligation 2
Goal simplify 0
Obligation 3
Goal simplify 0
Obligation 4
Goal simplify 0
DEFUN LX admitted
DEFTHM APP-COMM
Goal push *1
*1 induct 2 (APP X Y)
Subgoal *1/2 simplify 1
Subgoal *1/2' elim 1
Subgoal *1/2'' fertilize 1
Subgoal *1/2''' push *1.1
Subgoal *1/1 simplify 1
Subgoal *1/1' push *1.2
*1.1 induct 2 (APP Y X2)
Subgoal *1.1/2 simplify 2
Goal limit
Checkpoints before induction
Goal: (EQUAL (APP X Y) (APP Y X))
Checkpoints under induction
Subgoal *1/2': (OR (NOT (CONSP X)) (NOT (EQUAL (APP (CDR X) Y) (APP Y (CDR X)))) (EQUAL (CONS (CAR X) (APP (CDR X) Y)) (APP Y X)))
Subgoal *1/1': (OR (CONSP X) (EQUAL Y (APP Y X)))
DEFTHM APP-COMM refused 8.3 GoalLimit
";

/// A function, and the types that its calls may have: any, since `app` may give any, or 1 zero.
const FUNCTIONS: &str = "APP 1023
REV 1023
LX 1";

#[test]
fn functions_on_lists_are_admitted_and_theorems_about_them_inducted(
    rt: HostRuntime,
) -> Result<(), Fail> {
    let world = world_behind(&rt, rt.alloc(), EVENTS, PRINTED)?;
    expect_told(&rt, rt.alloc(), &world, FUNCTIONS)
}
