//! Hints: a table of events and of what they print.

const FORBIDDEN: &str = r#"(defun app (x y) (if (consp x) (cons (car x) (app (cdr x) y)) y))
(defthm app-assoc (equal (app (app x y) z) (app x (app y z))) :hints (("Goal" :do-not-induct t)))
"#;

const FORBIDDEN_PRINTED: &str = "DEFUN APP
Measure (ACL2-COUNT X)
Obligation 1
Goal simplify 0
DEFUN APP admitted
DEFTHM APP-ASSOC
Goal push *1
Checkpoints before induction
Goal: (EQUAL (APP (APP X Y) Z) (APP X (APP Y Z)))
DEFTHM APP-ASSOC refused 8.6 DoNotInduct
";

const MISNAMED: &str = r#"(defun app (x y) (if (consp x) (cons (car x) (app (cdr x) y)) y))
(defthm h (equal (app (app x y) z) (app x (app y z))) :hints (("Subgoal 0" :expand ((app x y)))))
"#;

const MISNAMED_PRINTED: &str = "DEFUN APP
Measure (ACL2-COUNT X)
Obligation 1
Goal simplify 0
DEFUN APP admitted
DEFTHM H
DEFTHM H refused 6.1 BadGoalName
";

const USED: &str = r#"(defund q (x) (equal x x))
(defthm qa (q a) :rule-classes nil :hints (("Goal" :in-theory (enable q))))
(defthm qb (q b) :rule-classes nil :hints (("Goal" :use ((:instance qa (a b))))))
"#;

const USED_PRINTED: &str = "DEFUN Q
DEFUN Q admitted
DEFTHM QA
Goal simplify 0
DEFTHM QA proved
DEFTHM QB
Goal hint 1
Goal' simplify 0
DEFTHM QB proved
";

const CASES: &str = r#"(defund p (x) x)
(defthm b7 (and (p x) (p y) (p z)) :hints (("Subgoal 3" :cases ((p w)))))
"#;

const CASES_PRINTED: &str = "DEFUN P
DEFUN P admitted
DEFTHM B7
Goal simplify 3
Subgoal 3 hint 2
Subgoal 3.2 push *1
Subgoal 3.1 push *2
Revert 2
*1 noscheme
Checkpoints before induction
Subgoal 3.2: (OR (NOT (P W)) (NOT (P X)) (NOT (P Y)) (P Z))
Subgoal 3.1: (OR (P W) (NOT (P X)) (NOT (P Y)) (P Z))
DEFTHM B7 refused 8.1 NoScheme
";

const ENABLED: &str = r#"(defund p (x) x)
(defund q (x) (equal x x))
(defthm b8 (and (p x) (p y) (q v) (q u) (p z)) :hints (("Subgoal 4" :in-theory (enable q)) ("Subgoal 3" :in-theory (enable q))))
"#;

const ENABLED_PRINTED: &str = "DEFUN P
DEFUN P admitted
DEFUN Q
DEFUN Q admitted
DEFTHM B8
Goal simplify 5
Subgoal 5 push *1
Subgoal 4 simplify 0
Subgoal 3 simplify 0
Subgoal 2 push *2
Revert 2
*1 noscheme
Checkpoints before induction
Subgoal 5: (OR (NOT (P X)) (NOT (P Y)) (NOT (Q V)) (NOT (Q U)) (P Z))
Subgoal 2: (OR (NOT (P X)) (P Y))
DEFTHM B8 refused 8.1 NoScheme
";

const OPENED: &str = r#"(defund q (x) (equal x x))
(defund n0 (x) (not (equal x x)))
(defthm b19 (and (q x) (n0 y)) :hints (("Subgoal 2" :in-theory (enable q n0))))
"#;

const OPENED_PRINTED: &str = "DEFUN Q
DEFUN Q admitted
DEFUN N0
DEFUN N0 admitted
DEFTHM B19
Goal simplify 2
Subgoal 2 simplify 1
Subgoal 2' empty
Checkpoints before induction
Subgoal 2': NIL
DEFTHM B19 refused 8.2 EmptyClause
";

/// One goal for each key, a hint for a name that never comes, and hints of nothing.
const KEYS: &str = r#"(defund p (x) x)
(defund q (x) (equal x x))
(defun app (x y) (if (consp x) (cons (car x) (app (cdr x) y)) y))
(defthm qa (q a) :rule-classes nil :hints (("Goal" :in-theory (enable q))))
(defthm named (q a) :rule-classes nil :hints (("Goal" :use qa)))
(defthm listed (q a) :rule-classes nil :hints (("Goal" :use (qa (:instance qa (a (p a)))))))
(defthm split (q a) :rule-classes nil :hints (("Goal" :cases ((p a) (q a)) :in-theory (enable q))))
(defthm opened (equal (app x y) (if (consp x) (cons (car x) (app (cdr x) y)) y)) :rule-classes nil :hints (("Goal" :expand ((app x y)))))
(defthm opened-alone (equal (app x y) (if (consp x) (cons (car x) (app (cdr x) y)) y)) :rule-classes nil :hints (("Goal" :expand (app x y))))
(defthm kept (equal (car x) (p x)) :rule-classes nil :hints (("Goal" :do-not '(eliminate-destructors generalize))))
(defthm inducted (q (app x y)) :rule-classes nil :hints (("Goal" :induct (app x y) :in-theory (enable q))))
(defthm unfounded (p x) :rule-classes nil :hints (("Goal" :induct (p x))))
(defthm never (equal x x) :rule-classes nil :hints (("Subgoal *1/7.3''" :cases ((p x)))))
(defthm none (equal x x) :rule-classes nil :hints nil)
(defthm empty (equal x x) :hints () :rule-classes nil)
(defthm silent (equal x x) :rule-classes nil :hints (("Goal")))
"#;

const KEYS_PRINTED: &str = "DEFUN P
DEFUN P admitted
DEFUN Q
DEFUN Q admitted
DEFUN APP
Measure (ACL2-COUNT X)
Obligation 1
Goal simplify 0
DEFUN APP admitted
DEFTHM QA
Goal simplify 0
DEFTHM QA proved
DEFTHM NAMED
Goal hint 1
Goal' simplify 0
DEFTHM NAMED proved
DEFTHM LISTED
Goal hint 1
Goal' simplify 0
DEFTHM LISTED proved
DEFTHM SPLIT
Goal hint 3
Subgoal 3 simplify 0
Subgoal 2 simplify 0
Subgoal 1 simplify 0
DEFTHM SPLIT proved
DEFTHM OPENED
Goal simplify 0
DEFTHM OPENED proved
DEFTHM OPENED-ALONE
Goal simplify 0
DEFTHM OPENED-ALONE proved
DEFTHM KEPT
Goal push *1
*1 noscheme
Checkpoints before induction
Goal: (EQUAL (CAR X) (P X))
DEFTHM KEPT refused 8.1 NoScheme
DEFTHM INDUCTED
Goal push *1
*1 induct 2 (APP X Y)
Subgoal *1/2 simplify 0
Subgoal *1/1 simplify 0
DEFTHM INDUCTED proved
DEFTHM UNFOUNDED
Goal push *1
*1 noscheme
DEFTHM UNFOUNDED refused 8.1 NoScheme
DEFTHM NEVER
Goal simplify 0
DEFTHM NEVER proved
DEFTHM NONE
Goal simplify 0
DEFTHM NONE proved
DEFTHM EMPTY
Goal simplify 0
DEFTHM EMPTY proved
DEFTHM SILENT
Goal simplify 0
DEFTHM SILENT proved
";

/// Each refusal, and the first of several.
const REFUSED: &str = r#"(defund p (x) x)
(defund q (x) (equal x x))
(defthm qa (q a) :rule-classes nil :hints (("Goal" :in-theory (enable q))))
(defthm a1 (p x) :hints (("Subgoal 0" :cases ((p y)))))
(defthm a2 (p x) :hints ((goal :cases ((p y)))))
(defthm b1 (p x) :hints (("Goal" :cases)))
(defthm b2 (p x) :hints (("Goal" :induct x)))
(defthm b3 (p x) :hints 5)
(defthm b4 (p x) :hints (("Subgoal 1" :do-not-induct t)))
(defthm b5 (p x) :hints (("Goal" :do-not (generalize))))
(defthm c1 (p x) :hints (("Goal" :in-theory (enable nowhere))))
(defthm c2 (p x) :hints (("Goal" :in-theory (disable (:rewrite qa)))))
(defthm d1 (p x) :hints (("Goal" :use nowhere)))
(defthm d2 (p x) :hints (("Goal" :use ((:instance qa (b x))))))
(defthm d3 (p x) :hints (("Goal" :expand ((nowhere x)))))
(defthm e1 (p x) :hints (("Goal" :cases ((p x))) ("goal" :cases ((p y)))))
(defthm e2 (p x) :hints (("Goal" :cases ((p x)) :cases ((p y)))))
(defthm earliest (p x) :hints (("Goal" :use nowhere) ("Subgoal 0" :nope t)))
(defthm ruled (equal (p x) (q y)) :hints 5)
"#;

const REFUSED_PRINTED: &str = "DEFUN P
DEFUN P admitted
DEFUN Q
DEFUN Q admitted
DEFTHM QA
Goal simplify 0
DEFTHM QA proved
DEFTHM A1
DEFTHM A1 refused 6.1 BadGoalName
DEFTHM A2
DEFTHM A2 refused 6.1 BadGoalName
DEFTHM B1
DEFTHM B1 refused 6.2 UnknownKeyword
DEFTHM B2
DEFTHM B2 refused 6.2 UnknownKeyword
DEFTHM B3
DEFTHM B3 refused 6.2 UnknownKeyword
DEFTHM B4
DEFTHM B4 refused 6.2 UnknownKeyword
DEFTHM B5
DEFTHM B5 refused 6.2 UnknownKeyword
DEFTHM C1
DEFTHM C1 refused 6.3 UnknownRune
DEFTHM C2
DEFTHM C2 refused 6.3 UnknownRune
DEFTHM D1
DEFTHM D1 refused 6.4 BadInstance
DEFTHM D2
DEFTHM D2 refused 6.4 BadInstance
DEFTHM D3
DEFTHM D3 refused 6.4 BadInstance
DEFTHM E1
DEFTHM E1 refused 6.5 Repeated
DEFTHM E2
DEFTHM E2 refused 6.5 Repeated
DEFTHM EARLIEST
DEFTHM EARLIEST refused 6.4 BadInstance
DEFTHM RULED
DEFTHM RULED refused 5.3 FreeInRhs
";

/// Hints of functions: they hold for each obligation, and are tested behind the measure, also where nothing is owed.
const OWED: &str = r#"(defund lower (x) (cdr x))
(defun down (x) (declare (xargs :hints (("Goal" :in-theory (enable lower))))) (if (consp x) (if (consp (car x)) (down (lower x)) (cons 1 (down (lower x)))) 0))
(defun stuck (x) (declare (xargs :measure (if (consp x) 1 0) :hints (("Goal" :do-not-induct t)))) (if (consp x) (stuck x) 0))
(defun endless (x) (declare (xargs :hints 5)) (+ 1 (endless x)))
(defun lost (x) (declare (xargs :hints (("Goal" :use nowhere)))) (if (consp x) (lost (cdr x)) 0))
(defun plain (x) (declare (xargs :hints (("Goal" :nope t)))) x)
(defund plain (x) (declare (xargs :hints (("Goal" :cases ((consp x)))))) x)
"#;

const OWED_PRINTED: &str = "DEFUN LOWER
DEFUN LOWER admitted
DEFUN DOWN
Measure (ACL2-COUNT X)
Obligation 1
Goal simplify 0
Obligation 2
Goal simplify 0
DEFUN DOWN admitted
DEFUN STUCK
Measure (IF (CONSP X) '1 '0)
Obligation 1
Goal simplify 0
Obligation 2
Goal simplify 1
Goal' push *1
Checkpoints before induction
Goal': (NOT (CONSP X))
DEFUN STUCK refused 8.6 DoNotInduct
DEFUN ENDLESS
DEFUN ENDLESS refused 7.1 NoMeasure
DEFUN LOST
DEFUN LOST refused 6.4 BadInstance
DEFUN PLAIN
DEFUN PLAIN refused 6.2 UnknownKeyword
DEFUN PLAIN
DEFUN PLAIN admitted
";

/// Events, and what they print: a goal has the hint for its name, and those below what it sets; induction is forbidden, and
/// names that no goal has are refused; each key of a hint does what it says; hints that are wrong are refused before any
/// proof; and hints of a function hold for what it owes.
pub(crate) const ROWS: [(&str, &str); 9] = [
    (CASES, CASES_PRINTED),
    (ENABLED, ENABLED_PRINTED),
    (OPENED, OPENED_PRINTED),
    (USED, USED_PRINTED),
    (FORBIDDEN, FORBIDDEN_PRINTED),
    (MISNAMED, MISNAMED_PRINTED),
    (KEYS, KEYS_PRINTED),
    (REFUSED, REFUSED_PRINTED),
    (OWED, OWED_PRINTED),
];
