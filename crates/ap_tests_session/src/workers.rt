//! Several workers: what they print, and what is told of the drops.
use crate::running::{Ended, NONE, session};
use ap_session::{Gate, NoGate, Place, Status};
use std::alloc::Global;
use std::process::Abort;
use std::sync::Wait;
use std::sync::atomic::AtomicU64;
use std::sync::atomic::Ordering::SeqCst;
use std::test::Fail;
use std::thread::Threads;
use std::time::Duration;

/// A book of a theorem whose goal splits into two that are pushed, so that the walk reverts, and one that is proved.
const SPLIT: &str =
    "b: (defthm s (implies (equal x y) (equal y x)) :rule-classes nil) (defthm h (if (equal (equal x y) (equal z w)) (equal u v) nil) :rule-classes nil)";

/// A session of that book under these words.
fn printed<R: Abort + Threads + Wait + Sync>(
    rt: &R,
    alloc: Global,
    options: &str,
) -> Result<Ended, Fail> {
    let row = format!(in alloc; "{options} b | {SPLIT}")?;
    let ended = session(rt, alloc, row.as_str(), NONE, &NoGate)?;
    assert_eq!(rt; ended.status, Status::NotCertified);
    assert_eq!(rt; ended.books, 1);
    Ok(ended)
}

/// Asserts that two workers print what one prints.
fn quiet<R: Abort + Threads + Wait + Sync>(
    rt: &R,
    alloc: Global,
    serial: &[u8],
) -> Result<(), Fail> {
    let ended = printed(rt, alloc, "--workers 2")?;
    assert_eq!(rt; ended.text(), serial);
    Ok(())
}

/// Asserts that a session printed this text of so many lines, and then a line for each drop.
fn has_told<R: Abort>(rt: &R, ended: &Ended, serial: &[u8], lines: usize) -> Result<(), Fail> {
    assert!(rt; ended.text().starts_with(serial));
    assert_eq!(rt; ended.lines().checked_sub(lines), Some(ended.drops));
    Ok(())
}

/// Asserts that two workers print what one prints, which has so many lines, and then what was dropped.
fn told<R: Abort + Threads + Wait + Sync>(
    rt: &R,
    alloc: Global,
    serial: &[u8],
    lines: usize,
) -> Result<(), Fail> {
    let ended = printed(rt, alloc, "--workers 2 --trace")?;
    has_told(rt, &ended, serial, lines)
}

#[test]
fn two_workers_print_what_one_prints_and_then_what_was_dropped(
    rt: HostRuntime,
) -> Result<(), Fail> {
    let alloc = rt.alloc();
    let serial = printed(&rt, alloc, "--trace")?;
    assert_eq!(rt; serial.drops, 0);
    for _ in 0..20 {
        quiet(&rt, alloc, serial.text())?;
        told(&rt, alloc, serial.text(), serial.lines())?;
    }
    Ok(())
}

/// How often a goal is held back at most, and how long each time, in microseconds.
const MOST_TURNS: u32 = 10_000;

const A_TURN: u64 = 500;

/// How long the last goal waits behind the first, in microseconds, so that the first one's walk is put meanwhile.
const A_WHILE: u64 = 20_000;

/// Holds `Subgoal 3` back until `Subgoal 1` has come, and `Subgoal 1` until a while after `Subgoal 3` is done: so
/// `Subgoal 1` is begun while nothing stops it, and goes on when `Subgoal 2` has stopped the walk. Each word is 0 until
/// that is so, and 1 then; `never` stays 0.
#[derive(Drop)]
struct Behind {
    last_came: AtomicU64,
    first_is_done: AtomicU64,
    never: AtomicU64,
}

impl Behind {
    fn new() -> Behind {
        Behind {
            last_came: AtomicU64::new(0),
            first_is_done: AtomicU64::new(0),
            never: AtomicU64::new(0),
        }
    }
}

/// Sets a word.
fn set(word: &AtomicU64) {
    word.store(1, SeqCst);
    word.wake_one();
}

/// Waits until a word is set, or all turns are used up.
fn hold<R: Wait>(rt: &R, word: &AtomicU64) {
    for _ in 0..MOST_TURNS {
        if word.load(SeqCst) == 1 {
            return;
        }
        word.park_timeout(rt, 0, Duration::from_micros(A_TURN));
    }
}

impl Gate for Behind {
    fn pass<R: Wait>(&self, rt: &R, _worker: u32, goal: &[u8], place: Place) {
        let is_first = goal == b"Subgoal 3".as_slice();
        match place {
            Place::Begin => {
                if is_first {
                    hold(rt, &self.last_came);
                } else if goal == b"Subgoal 1".as_slice() {
                    set(&self.last_came);
                    hold(rt, &self.first_is_done);
                    self.never
                        .park_timeout(rt, 0, Duration::from_micros(A_WHILE));
                }
            }
            Place::Done => {
                if is_first {
                    set(&self.first_is_done);
                }
            }
        }
    }
}

/// What two workers are asked for, with a theorem of three goals, of which the first two are pushed, so that the walk
/// reverts before the third.
const THREE: &str =
    "--trace --workers 2 b | b: (defund p (x) x) (defthm b6 (and (p x) (p y) (p z)) :rule-classes nil)";

const THREE_TEXT: &[u8] = b"Book b
DEFUN P
DEFUN P admitted
DEFTHM B6
Goal simplify 3
Subgoal 3 push *1
Subgoal 2 push *2
Revert 2
*1 noscheme
Checkpoints before induction
Subgoal 3: (OR (NOT (P X)) (NOT (P Y)) (P Z))
Subgoal 2: (OR (NOT (P X)) (P Y))
DEFTHM B6 refused 8.1 NoScheme
Book b not certified
";

const THREE_DROP: &[u8] = b"Dropped Subgoal 1 after Subgoal 2\n";

/// Whether a session ended with a status and, behind the book's text, with this.
fn ends<R: Abort>(rt: &R, ended: &Ended, status: Status, told: &[u8]) -> Result<bool, Fail> {
    assert!(rt; ended.text().starts_with(THREE_TEXT));
    let is_all = ended.text().len() == THREE_TEXT.len().saturating_add(told.len());
    Ok(ended.status == status && is_all && ended.text().ends_with(told))
}

/// Whether a session by two workers, which pass the gate, ends so while this call of the sink fails.
fn tells<R: Abort + Threads + Wait + Sync>(
    rt: &R,
    alloc: Global,
    failing: u32,
    status: Status,
    told: &[u8],
) -> Result<bool, Fail> {
    let ended = session(rt, alloc, THREE, (0, failing), &Behind::new())?;
    ends(rt, &ended, status, told)
}

/// Whether one of twenty sessions ends with a status and, behind the book's text, with this. A goal is dropped in nearly
/// each; it isn't where the worker that stops the walk is held up for longer than the gate waits.
fn some_tells<R: Abort + Threads + Wait + Sync>(
    rt: &R,
    alloc: Global,
    failing: u32,
    ended: Status,
    told: &[u8],
) -> Result<bool, Fail> {
    for _ in 0..20 {
        if tells(rt, alloc, failing, ended, told)? {
            return Ok(true);
        }
    }
    Ok(false)
}

#[test]
fn what_a_stop_drops_is_told_behind_the_text(rt: HostRuntime) -> Result<(), Fail> {
    let alloc = rt.alloc();
    assert!(rt; some_tells(&rt, alloc, 0, Status::NotCertified, THREE_DROP)?);
    assert!(rt; some_tells(&rt, alloc, 5, Status::WriteFault, b"")?);
    Ok(())
}
