//! The revert count of the words, and `:otf-flg`.
use crate::running::sessions_print;
use crate::words::USAGE;
use ap_session::Status;
use std::test::Fail;

/// Walks of three goals that are pushed, which revert at the second: by the words, and by what the event says.
const TWO: &str = "b | b: (defund p (x) x) (defthm b6 (and (p x) (p y) (p z)))
--workers 8 b | b: (defund p (x) x) (defthm b6 (and (p x) (p y) (p z)))
--revert 2 b | b: (defund p (x) x) (defthm b6 (and (p x) (p y) (p z)))
b | b: (defund p (x) x) (defthm b6 (and (p x) (p y) (p z)) :otf-flg ())";

const AT_TWO: &str =
    "Book b / DEFUN P / DEFUN P admitted / DEFTHM B6 / Goal simplify 3 / Subgoal 3 push *1 / Subgoal 2 push *2 / Revert 2 / *1 noscheme / Checkpoints before induction / Subgoal 3: (OR (NOT (P X)) (NOT (P Y)) (P Z)) / Subgoal 2: (OR (NOT (P X)) (P Y)) / DEFTHM B6 refused 8.1 NoScheme / Book b not certified";

/// Those that revert at the third.
const THREE: &str = "--revert 3 b | b: (defund p (x) x) (defthm b6 (and (p x) (p y) (p z)))
--workers 8 --revert 3 b | b: (defund p (x) x) (defthm b6 (and (p x) (p y) (p z)))
--revert 3 b | b: (defund p (x) x) (defthm b6 (and (p x) (p y) (p z)) :otf-flg ())";

const AT_THREE: &str =
    "Book b / DEFUN P / DEFUN P admitted / DEFTHM B6 / Goal simplify 3 / Subgoal 3 push *1 / Subgoal 2 push *2 / Subgoal 1 push *3 / Revert 3 / *1 noscheme / Checkpoints before induction / Subgoal 3: (OR (NOT (P X)) (NOT (P Y)) (P Z)) / Subgoal 2: (OR (NOT (P X)) (P Y)) / Subgoal 1: (P X) / DEFTHM B6 refused 8.1 NoScheme / Book b not certified";

/// Those that never revert.
const NEVER: &str =
    "--revert 4 --goals 50 b | b: (defund p (x) x) (defthm b6 (and (p x) (p y) (p z)))
--steps 50 --revert 100 b | b: (defund p (x) x) (defthm b6 (and (p x) (p y) (p z)))
b | b: (defund p (x) x) (defthm b6 (and (p x) (p y) (p z)) :otf-flg t)
--workers 8 b | b: (defund p (x) x) (defthm b6 (and (p x) (p y) (p z)) :otf-flg t)
--revert 3 b | b: (defund p (x) x) (defthm b6 (and (p x) (p y) (p z)) :otf-flg t)";

const AT_NONE: &str =
    "Book b / DEFUN P / DEFUN P admitted / DEFTHM B6 / Goal simplify 3 / Subgoal 3 push *1 / Subgoal 2 push *2 / Subgoal 1 push *3 / *1 noscheme / Checkpoints before induction / Subgoal 3: (OR (NOT (P X)) (NOT (P Y)) (P Z)) / Subgoal 2: (OR (NOT (P X)) (P Y)) / Subgoal 1: (P X) / DEFTHM B6 refused 8.1 NoScheme / Book b not certified";

/// Events whose walks push two goals, theorems and obligations: in turn one that sets `:otf-flg`, and one behind it that
/// doesn't, so that it reverts.
const IN_TURN: &str =
    "b | b: (defun size (x) (if (consp x) (+ 1 (size (cdr x))) 0)) (in-theory (disable (:type-prescription size))) (defthm a (natp (size x)) :rule-classes nil :otf-flg t) (defthm b (natp (size x)) :rule-classes nil) (defun f (x) (declare (xargs :measure (size x) :otf-flg t)) (if (consp x) (f (cdr x)) x)) (defun g (x) (declare (xargs :measure (size x))) (if (consp x) (g (cdr x)) x)) (defthm c (natp (size x)) :rule-classes nil :otf-flg t) (defun h (x) (declare (xargs :measure (size x))) (if (consp x) (h (cdr x)) x)) (defun k (x) (declare (xargs :measure (size x) :otf-flg t)) (if (consp x) (k (cdr x)) x)) (defthm d (natp (size x)) :rule-classes nil)
--workers 8 b | b: (defun size (x) (if (consp x) (+ 1 (size (cdr x))) 0)) (in-theory (disable (:type-prescription size))) (defthm a (natp (size x)) :rule-classes nil :otf-flg t) (defthm b (natp (size x)) :rule-classes nil) (defun f (x) (declare (xargs :measure (size x) :otf-flg t)) (if (consp x) (f (cdr x)) x)) (defun g (x) (declare (xargs :measure (size x))) (if (consp x) (g (cdr x)) x)) (defthm c (natp (size x)) :rule-classes nil :otf-flg t) (defun h (x) (declare (xargs :measure (size x))) (if (consp x) (h (cdr x)) x)) (defun k (x) (declare (xargs :measure (size x) :otf-flg t)) (if (consp x) (k (cdr x)) x)) (defthm d (natp (size x)) :rule-classes nil)";

const AT_EACH_OTHER: &str =
    "Book b / DEFUN SIZE / Measure (ACL2-COUNT X) / Obligation 1 / Goal simplify 0 / DEFUN SIZE admitted / IN-THEORY admitted / DEFTHM A / Goal simplify 2 / Subgoal 2 simplify 1 / Subgoal 2' push *1 / Subgoal 1 push *2 / *1 induct 2 (SIZE X) / Subgoal *1/2 simplify 0 / Subgoal *1/1 simplify 0 / *2 induct 2 (SIZE X) / Subgoal *2/2 simplify 0 / Subgoal *2/1 simplify 0 / DEFTHM A proved / DEFTHM B / Goal simplify 2 / Subgoal 2 simplify 1 / Subgoal 2' push *1 / Subgoal 1 push *2 / Revert 2 / *1 induct 2 (SIZE X) / Subgoal *1/2 simplify 0 / Subgoal *1/1 simplify 0 / DEFTHM B proved / DEFUN F / Measure (SIZE X) / Obligation 1 / Goal simplify 2 / Subgoal 2 simplify 1 / Subgoal 2' push *1 / Subgoal 1 push *2 / *1 induct 2 (SIZE X) / Subgoal *1/2 simplify 0 / Subgoal *1/1 simplify 0 / *2 induct 2 (SIZE X) / Subgoal *2/2 simplify 0 / Subgoal *2/1 simplify 0 / Obligation 2 / Goal simplify 0 / DEFUN F admitted / DEFUN G / Measure (SIZE X) / Obligation 1 / Goal simplify 2 / Subgoal 2 simplify 1 / Subgoal 2' push *1 / Subgoal 1 push *2 / Revert 2 / *1 induct 2 (SIZE X) / Subgoal *1/2 simplify 0 / Subgoal *1/1 simplify 0 / Obligation 2 / Goal simplify 0 / DEFUN G admitted / DEFTHM C / Goal simplify 2 / Subgoal 2 simplify 1 / Subgoal 2' push *1 / Subgoal 1 push *2 / *1 induct 2 (SIZE X) / Subgoal *1/2 simplify 0 / Subgoal *1/1 simplify 0 / *2 induct 2 (SIZE X) / Subgoal *2/2 simplify 0 / Subgoal *2/1 simplify 0 / DEFTHM C proved / DEFUN H / Measure (SIZE X) / Obligation 1 / Goal simplify 2 / Subgoal 2 simplify 1 / Subgoal 2' push *1 / Subgoal 1 push *2 / Revert 2 / *1 induct 2 (SIZE X) / Subgoal *1/2 simplify 0 / Subgoal *1/1 simplify 0 / Obligation 2 / Goal simplify 0 / DEFUN H admitted / DEFUN K / Measure (SIZE X) / Obligation 1 / Goal simplify 2 / Subgoal 2 simplify 1 / Subgoal 2' push *1 / Subgoal 1 push *2 / *1 induct 2 (SIZE X) / Subgoal *1/2 simplify 0 / Subgoal *1/1 simplify 0 / *2 induct 2 (SIZE X) / Subgoal *2/2 simplify 0 / Subgoal *2/1 simplify 0 / Obligation 2 / Goal simplify 0 / DEFUN K admitted / DEFTHM D / Goal simplify 2 / Subgoal 2 simplify 1 / Subgoal 2' push *1 / Subgoal 1 push *2 / Revert 2 / *1 induct 2 (SIZE X) / Subgoal *1/2 simplify 0 / Subgoal *1/1 simplify 0 / DEFTHM D proved / Book b certified";

#[test]
fn a_walk_reverts_at_the_count_of_the_words_and_never_where_its_event_says_so(
    rt: HostRuntime,
) -> Result<(), Fail> {
    let alloc = rt.alloc();
    sessions_print(&rt, alloc, TWO, Status::NotCertified, AT_TWO, 4)?;
    sessions_print(&rt, alloc, THREE, Status::NotCertified, AT_THREE, 3)?;
    sessions_print(&rt, alloc, NEVER, Status::NotCertified, AT_NONE, 5)?;
    sessions_print(&rt, alloc, IN_TURN, Status::Certified, AT_EACH_OTHER, 2)
}

/// Words that are no command.
const WRONG: &str = "--revert 0 b
--revert 1 b
--revert 02 b
--revert 101 b
--revert b
--revert
--revert 2 --revert 2 b
b --revert 2
--revert 2 --demo 1
--demo 1 --revert 2";

#[test]
fn a_revert_count_is_2_to_100_and_given_once_for_books(rt: HostRuntime) -> Result<(), Fail> {
    sessions_print(&rt, rt.alloc(), WRONG, Status::Usage, USAGE, 10)
}
