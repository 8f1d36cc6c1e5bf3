//! A gate that counts who passes, one that holds a job until another is done, one that holds a worker until others have
//! begun as many jobs, and one that holds a job until it is to be dropped.

use ap_speculate::{Gate, Place};
use std::sync::Wait;
use std::sync::atomic::AtomicU64;
use std::sync::atomic::Ordering::SeqCst;
use std::time::Duration;

/// Counts how often each place was passed.
#[derive(Drop)]
pub(crate) struct Passed {
    begun: AtomicU64,
    done: AtomicU64,
}

impl Passed {
    pub(crate) fn new() -> Passed {
        Passed {
            begun: AtomicU64::new(0),
            done: AtomicU64::new(0),
        }
    }

    /// How many jobs were begun, and how many were done.
    pub(crate) fn counts(&self) -> (u64, u64) {
        (self.begun.load(SeqCst), self.done.load(SeqCst))
    }
}

impl Gate for Passed {
    fn pass<R: Wait>(&self, _rt: &R, _worker: u32, _goal: &[u8], place: Place) {
        match place {
            Place::Begin => self.begun.fetch_add(1, SeqCst),
            Place::Done => self.done.fetch_add(1, SeqCst),
        };
    }
}

/// For how many turns a job is held at most.
const MOST_TURNS: u32 = 10_000;

/// How long a turn lasts at most, in microseconds: so that on a busy machine the other worker comes to its job within the
/// turns.
const A_TURN: u64 = 500;

/// Waits until a word isn't 0 any more, for 10,000 turns at most. Answers whether it isn't.
fn has_come<R: Wait>(rt: &R, word: &AtomicU64) -> bool {
    for _ in 0..MOST_TURNS {
        if word.load(SeqCst) != 0 {
            return true;
        }
        word.park_timeout(rt, 0, Duration::from_micros(A_TURN));
    }
    false
}

/// Holds `Subgoal 3`, the first of a task's three children, back until `Subgoal 2`, the second, is done, for 10,000 turns
/// at most. So one worker alone uses up all turns. Each word is 0 until that is so, and 1 then.
#[derive(Drop)]
pub struct Holding {
    third_came: AtomicU64,
    second_is_done: AtomicU64,
    used_up: AtomicU64,
}

impl Holding {
    /// A gate that nobody has passed.
    pub fn new() -> Holding {
        Holding {
            third_came: AtomicU64::new(0),
            second_is_done: AtomicU64::new(0),
            used_up: AtomicU64::new(0),
        }
    }

    /// Whether `Subgoal 3` came to the gate.
    pub fn has_held(&self) -> bool {
        self.third_came.load(SeqCst) == 1
    }

    /// Whether all turns were used up.
    pub fn is_used_up(&self) -> bool {
        self.used_up.load(SeqCst) == 1
    }

    /// Waits until `Subgoal 2` is done.
    fn hold<R: Wait>(&self, rt: &R) {
        if !has_come(rt, &self.second_is_done) {
            self.used_up.store(1, SeqCst);
        }
    }
}

impl Gate for Holding {
    fn pass<R: Wait>(&self, rt: &R, _worker: u32, goal: &[u8], place: Place) {
        match place {
            Place::Begin => {
                if goal == b"Subgoal 3".as_slice() {
                    self.third_came.store(1, SeqCst);
                    self.hold(rt);
                }
            }
            Place::Done => {
                if goal == b"Subgoal 2".as_slice() {
                    self.second_is_done.store(1, SeqCst);
                    self.second_is_done.wake_one();
                }
            }
        }
    }
}

/// How many jobs a worker begins before it is held, and how many each of the others has to begin until then.
const MANY: u64 = 16;

const ENOUGH: u64 = 8;

/// Counts the jobs that each of four workers begins, and holds one that began 16 before its next until each began eight,
/// for 10,000 turns at most. The last two words are 0 until all did, and until turns were used up, and 1 then.
#[derive(Drop)]
pub(crate) struct Sharing {
    first: AtomicU64,
    second: AtomicU64,
    third: AtomicU64,
    fourth: AtomicU64,
    all_did: AtomicU64,
    used_up: AtomicU64,
}

impl Sharing {
    /// A gate that nobody has passed.
    pub(crate) fn new() -> Sharing {
        Sharing {
            first: AtomicU64::new(0),
            second: AtomicU64::new(0),
            third: AtomicU64::new(0),
            fourth: AtomicU64::new(0),
            all_did: AtomicU64::new(0),
            used_up: AtomicU64::new(0),
        }
    }

    /// How many jobs each worker began.
    pub(crate) fn counts(&self) -> (u64, u64, u64, u64) {
        (
            self.first.load(SeqCst),
            self.second.load(SeqCst),
            self.third.load(SeqCst),
            self.fourth.load(SeqCst),
        )
    }

    /// Whether all turns were used up.
    pub(crate) fn is_used_up(&self) -> bool {
        self.used_up.load(SeqCst) == 1
    }

    /// Counts a job of a worker. Answers how many it had begun before.
    fn count(&self, worker: u32) -> u64 {
        let word = match worker {
            0 => &self.first,
            1 => &self.second,
            2 => &self.third,
            _ => &self.fourth,
        };
        word.fetch_add(1, SeqCst)
    }

    /// Whether each worker began enough.
    fn have_enough(&self) -> bool {
        let (a, b, c, d) = self.counts();
        a >= ENOUGH && b >= ENOUGH && c >= ENOUGH && d >= ENOUGH
    }
}

impl Gate for Sharing {
    fn pass<R: Wait>(&self, rt: &R, worker: u32, _goal: &[u8], place: Place) {
        let Place::Begin = place else {
            return;
        };
        let before = self.count(worker);
        if self.have_enough() {
            self.all_did.store(1, SeqCst);
            self.all_did.wake_all();
        }
        if before >= MANY && !has_come(rt, &self.all_did) {
            self.used_up.store(1, SeqCst);
        }
    }
}

/// Leads two workers at a task whose first child, `Subgoal 3`, stops: that is held back until the second, `Subgoal 2`, has
/// begun; and that one until a word isn't 0 any more, which is to be so once the stop is known. Each word is 0 until then.
#[derive(Drop)]
pub(crate) struct Stopping<'a> {
    stop_is_known: &'a AtomicU64,
    second_came: AtomicU64,
    used_up: AtomicU64,
}

impl<'a> Stopping<'a> {
    /// A gate that nobody has passed, with the word that tells that the stop is known.
    pub(crate) fn new(stop_is_known: &'a AtomicU64) -> Stopping<'a> {
        Stopping {
            stop_is_known,
            second_came: AtomicU64::new(0),
            used_up: AtomicU64::new(0),
        }
    }

    /// Whether the second child began, and nobody used up all turns.
    pub(crate) fn has_led(&self) -> bool {
        self.second_came.load(SeqCst) == 1 && self.used_up.load(SeqCst) == 0
    }

    /// Waits until a word isn't 0 any more.
    fn hold<R: Wait>(&self, rt: &R, word: &AtomicU64) {
        if !has_come(rt, word) {
            self.used_up.store(1, SeqCst);
        }
    }
}

impl<'a> Gate for Stopping<'a> {
    fn pass<R: Wait>(&self, rt: &R, _worker: u32, goal: &[u8], place: Place) {
        let Place::Begin = place else {
            return;
        };
        if goal == b"Subgoal 3".as_slice() {
            self.hold(rt, &self.second_came);
        }
        if goal == b"Subgoal 2".as_slice() {
            self.second_came.store(1, SeqCst);
            self.second_came.wake_one();
            self.hold(rt, self.stop_is_known);
        }
    }
}
