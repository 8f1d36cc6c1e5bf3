//! Four workers under many schedules: what is put is what the rows say.
use crate::running::{parted, session_prints};
use ap_session::{Gate, Place, Status};
use ap_tests_workers::Holding;
use std::alloc::Global;
use std::process::Abort;
use std::sync::Wait;
use std::sync::atomic::AtomicU64;
use std::sync::atomic::Ordering::SeqCst;
use std::test::Fail;
use std::thread::Threads;
use std::time::Duration;

/// How long a worker gives its processor away at a time, in microseconds. It sleeps, since `thread::yield_now` waits for
/// milliseconds on a busy machine.
const A_YIELD: u64 = 1;

/// A gate that lets other threads go first: at its k-th pass `(31 * schedule + 17 * k) mod 64` times. `never` stays 0.
#[derive(Drop)]
struct ScheduledGate {
    schedule: u64,
    passes: AtomicU64,
    never: AtomicU64,
}

impl ScheduledGate {
    fn new(schedule: u64) -> ScheduledGate {
        ScheduledGate {
            schedule,
            passes: AtomicU64::new(0),
            never: AtomicU64::new(0),
        }
    }

    /// Counts a pass, and says how often it yields.
    fn turns(&self) -> u64 {
        let pass = self.passes.fetch_add(1, SeqCst).wrapping_add(1);
        let sum = self
            .schedule
            .wrapping_mul(31)
            .wrapping_add(pass.wrapping_mul(17));
        sum % 64
    }
}

impl Gate for ScheduledGate {
    fn pass<R: Wait>(&self, rt: &R, _worker: u32, _goal: &[u8], _place: Place) {
        for _ in 0..self.turns() {
            self.never
                .park_timeout(rt, 0, Duration::from_micros(A_YIELD));
        }
    }
}

/// Four workers at a proof by two inductions, at walks that revert before all goals are worked, one of them in the cases of
/// a hint, and at one that a goal stops which can't be proved.
const ROWS: &str =
    r##"--workers 4 rr | rr: (defun app (x y) (if (consp x) (cons (car x) (app (cdr x) y)) y)) (defun rev (x) (if (consp x) (app (rev (cdr x)) (cons (car x) nil)) nil)) (defthm rev-rev (implies (true-listp x) (equal (rev (rev x)) x))) => Book rr / DEFUN APP / Measure (ACL2-COUNT X) / Obligation 1 / Goal simplify 0 / DEFUN APP admitted / DEFUN REV / Measure (ACL2-COUNT X) / Obligation 1 / Goal simplify 0 / DEFUN REV admitted / DEFTHM REV-REV / Goal push *1 / *1 induct 3 (TRUE-LISTP X) / Subgoal *1/3 simplify 0 / Subgoal *1/2 simplify 1 / Subgoal *1/2' elim 1 / Subgoal *1/2'' fertilize 1 / Subgoal *1/2''' generalize 1 / Subgoal *1/2'4' irrelevance 1 / Subgoal *1/2'5' push *1.1 / Subgoal *1/1 simplify 0 / *1.1 induct 2 (APP R1 (CONS X1 'NIL)) / Subgoal *1.1/2 simplify 1 / Subgoal *1.1/2' elim 1 / Subgoal *1.1/2'' fertilize 1 / Subgoal *1.1/2''' simplify 0 / Subgoal *1.1/1 simplify 0 / DEFTHM REV-REV proved / Book rr certified
--workers 4 s6 | s6: (defund p (x) x) (defthm b6 (and (p x) (p y) (p z))) => Book s6 / DEFUN P / DEFUN P admitted / DEFTHM B6 / Goal simplify 3 / Subgoal 3 push *1 / Subgoal 2 push *2 / Revert 2 / *1 noscheme / Checkpoints before induction / Subgoal 3: (OR (NOT (P X)) (NOT (P Y)) (P Z)) / Subgoal 2: (OR (NOT (P X)) (P Y)) / DEFTHM B6 refused 8.1 NoScheme / Book s6 not certified
--workers 4 s7 | s7: (defund p (x) x) (defthm b7 (and (p x) (p y) (p z)) :hints (("Subgoal 3" :cases ((p w))))) => Book s7 / DEFUN P / DEFUN P admitted / DEFTHM B7 / Goal simplify 3 / Subgoal 3 hint 2 / Subgoal 3.2 push *1 / Subgoal 3.1 push *2 / Revert 2 / *1 noscheme / Checkpoints before induction / Subgoal 3.2: (OR (NOT (P W)) (NOT (P X)) (NOT (P Y)) (P Z)) / Subgoal 3.1: (OR (P W) (NOT (P X)) (NOT (P Y)) (P Z)) / DEFTHM B7 refused 8.1 NoScheme / Book s7 not certified
--workers 4 s8 | s8: (defund p (x) x) (defund q (x) (equal x x)) (defthm b8 (and (p x) (p y) (q v) (q u) (p z)) :hints (("Subgoal 4" :in-theory (enable q)) ("Subgoal 3" :in-theory (enable q)))) => Book s8 / DEFUN P / DEFUN P admitted / DEFUN Q / DEFUN Q admitted / DEFTHM B8 / Goal simplify 5 / Subgoal 5 push *1 / Subgoal 4 simplify 0 / Subgoal 3 simplify 0 / Subgoal 2 push *2 / Revert 2 / *1 noscheme / Checkpoints before induction / Subgoal 5: (OR (NOT (P X)) (NOT (P Y)) (NOT (Q V)) (NOT (Q U)) (P Z)) / Subgoal 2: (OR (NOT (P X)) (P Y)) / DEFTHM B8 refused 8.1 NoScheme / Book s8 not certified
--workers 4 s19 | s19: (defund q (x) (equal x x)) (defund n0 (x) (not (equal x x))) (defthm b19 (and (q x) (n0 y)) :hints (("Subgoal 2" :in-theory (enable q n0)))) => Book s19 / DEFUN Q / DEFUN Q admitted / DEFUN N0 / DEFUN N0 admitted / DEFTHM B19 / Goal simplify 2 / Subgoal 2 simplify 1 / Subgoal 2' empty / Checkpoints before induction / Subgoal 2': NIL / DEFTHM B19 refused 8.2 EmptyClause / Book s19 not certified"##;

/// Asserts what a row puts by workers that pass a gate.
fn puts_under<R: Abort + Threads + Wait + Sync, G: Gate + Sync>(
    rt: &R,
    alloc: Global,
    row: &str,
    gate: &G,
) -> Result<(), Fail> {
    let (asked, lines) = parted(row, " => ", "");
    let status = if lines.ends_with("not certified") {
        Status::NotCertified
    } else {
        Status::Certified
    };
    session_prints(rt, alloc, asked, status, lines, gate)
}

/// Asserts what each row puts under a schedule.
fn all_put<R: Abort + Threads + Wait + Sync>(
    rt: &R,
    alloc: Global,
    schedule: u64,
) -> Result<(), Fail> {
    for row in ROWS.lines() {
        puts_under(rt, alloc, row, &ScheduledGate::new(schedule))?;
    }
    Ok(())
}

/// Asserts what each row puts under fifty schedules, from this one on.
fn all_put_under<R: Abort + Threads + Wait + Sync>(
    rt: &R,
    alloc: Global,
    first: u64,
) -> Result<(), Fail> {
    for more in 0..50 {
        all_put(rt, alloc, first.saturating_add(more))?;
    }
    Ok(())
}

#[test]
fn four_workers_put_what_the_rows_say_under_schedules_from_0(rt: HostRuntime) -> Result<(), Fail> {
    all_put_under(&rt, rt.alloc(), 0)
}

#[test]
fn four_workers_put_what_the_rows_say_under_schedules_from_50(rt: HostRuntime) -> Result<(), Fail> {
    all_put_under(&rt, rt.alloc(), 50)
}

#[test]
fn four_workers_put_what_the_rows_say_under_schedules_from_100(
    rt: HostRuntime,
) -> Result<(), Fail> {
    all_put_under(&rt, rt.alloc(), 100)
}

#[test]
fn four_workers_put_what_the_rows_say_under_schedules_from_150(
    rt: HostRuntime,
) -> Result<(), Fail> {
    all_put_under(&rt, rt.alloc(), 150)
}

/// Asserts what a row puts with so many workers, which pass a gate that holds `Subgoal 3` until `Subgoal 2` is done: one
/// passes none, and several come to it where the goal is walked.
fn puts_by<R: Abort + Threads + Wait + Sync>(
    rt: &R,
    alloc: Global,
    row: &str,
    workers: u32,
) -> Result<(), Fail> {
    let (_, rest) = parted(row, "--workers 4 ", row);
    let row = format!(in alloc; "--workers {workers} {rest}")?;
    let gate = Holding::new();
    puts_under(rt, alloc, row.as_str(), &gate)?;
    let is_held = workers > 1 && (rest.starts_with("s6") || rest.starts_with("s8"));
    assert_eq!(rt; gate.has_held(), is_held);
    assert!(rt; !gate.is_used_up());
    Ok(())
}

#[test]
fn any_workers_put_what_the_rows_say(rt: HostRuntime) -> Result<(), Fail> {
    for workers in [1, 2, 8, 64] {
        for row in ROWS.lines() {
            puts_by(&rt, rt.alloc(), row, workers)?;
        }
    }
    Ok(())
}
