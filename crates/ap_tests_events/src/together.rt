//! Two goals of a theorem worked at a time.
use crate::working::{after, first_world, parts};
use ap_events::{Bytes, Limits, NoMemory, event};
use ap_reader::forms;
use ap_tests_workers::Holding;
use std::alloc::{AllocError, Global};
use std::process::Abort;
use std::sync::Wait;
use std::test::Fail;
use std::thread::Threads;

const EVENTS: &str = "(defund p (x) x)
(defthm b6 (and (p x) (p y) (p z)))
";

const PRINTED: &str = "DEFTHM B6
Goal simplify 3
Subgoal 3 push *1
Subgoal 2 push *2
Revert 2
*1 noscheme
Checkpoints before induction
Subgoal 3: (OR (NOT (P X)) (NOT (P Y)) (P Z))
Subgoal 2: (OR (NOT (P X)) (P Y))
DEFTHM B6 refused 8.1 NoScheme
";

/// A goal that has one child, whose hint has 16 cases.
const BELOW: &str = "(defund p (x) x)
(defthm h (implies (equal x (car y)) (equal (p x) (car y))) :rule-classes nil :hints ((\"Goal'\" :cases ((p a0) (p a1) (p a2) (p a3) (p a4) (p a5) (p a6) (p a7) (p a8) (p a9) (p a10) (p a11) (p a12) (p a13) (p a14)) :in-theory (enable p))))
";

const PRINTED_BELOW: &str = "DEFTHM H
Goal simplify 1
Goal' hint 16
Subgoal 16 simplify 0
Subgoal 15 simplify 0
Subgoal 14 simplify 0
Subgoal 13 simplify 0
Subgoal 12 simplify 0
Subgoal 11 simplify 0
Subgoal 10 simplify 0
Subgoal 9 simplify 0
Subgoal 8 simplify 0
Subgoal 7 simplify 0
Subgoal 6 simplify 0
Subgoal 5 simplify 0
Subgoal 4 simplify 0
Subgoal 3 simplify 0
Subgoal 2 simplify 0
Subgoal 1 simplify 0
DEFTHM H proved
";

/// What the second of two events prints, which two workers work that pass a gate.
fn printed_by_two<R: Threads + Wait + Sync>(
    rt: &R,
    alloc: Global,
    events: &str,
    gate: &Holding,
) -> Result<Bytes, NoMemory> {
    let Ok(events) = forms(alloc, events.as_bytes()) else {
        return Err(AllocError);
    };
    let [first, second] = events.as_slice() else {
        return Err(AllocError);
    };
    let Some(limits) = Limits::new(1000, 100, 2) else {
        return Err(AllocError);
    };
    let mut before = Bytes::new(alloc);
    let world = after(rt, alloc, first_world(alloc)?, first, &limits, &mut before)?;
    let (_, text) = parts(event(rt, alloc, world, second, &limits, 2, gate)?);
    Ok(text)
}

/// Asserts that `Subgoal 3` waits at the gate until `Subgoal 2` is done, and that what is printed is what one worker
/// prints, 20 times.
fn worked_at_a_time<R: Abort + Threads + Wait + Sync>(
    rt: &R,
    alloc: Global,
    events: &str,
    printed: &str,
) -> Result<(), Fail> {
    for _ in 0..20 {
        let gate = Holding::new();
        let text = printed_by_two(rt, alloc, events, &gate)?;
        assert_eq!(rt; text.as_slice(), printed.as_bytes());
        assert!(rt; gate.has_held());
        assert!(rt; !gate.is_used_up());
    }
    Ok(())
}

#[test]
fn two_goals_of_a_theorem_are_worked_at_a_time(rt: HostRuntime) -> Result<(), Fail> {
    worked_at_a_time(&rt, rt.alloc(), EVENTS, PRINTED)
}

#[test]
fn two_cases_below_an_only_child_are_worked_at_a_time(rt: HostRuntime) -> Result<(), Fail> {
    worked_at_a_time(&rt, rt.alloc(), BELOW, PRINTED_BELOW)
}
