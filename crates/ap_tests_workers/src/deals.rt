//! Deques of node numbers, and the order in which a worker takes what it dealt.

use crate::trees::{Tree, Trees};
use crate::walks::initial;
use ap_deal::{Dealer, Hand, Stolen, hand};
use ap_speculate::{Gate, Place, speculate};
use std::sync::Wait;
use std::sync::atomic::AtomicU64;
use std::sync::atomic::Ordering::SeqCst;
use std::test::Fail;
use std::thread;

/// The number that a theft got.
fn number(stolen: Stolen) -> Option<u32> {
    match stolen {
        Stolen::Number(node) => Some(node),
        Stolen::Empty => None,
        Stolen::Again => None,
    }
}

#[test]
fn numbers_come_as_they_were_dealt(rt: HostRuntime) -> Result<(), Fail> {
    let (mut own, mut thief) = hand(rt.alloc())?;
    for node in [3u32, 7, 9] {
        assert_eq!(rt; own.deal(node), Ok(()));
    }
    assert_eq!(rt; number(thief.steal()), Some(3));
    assert_eq!(rt; own.take_own(), Some(7));
    assert_eq!(rt; own.take_own(), Some(9));
    assert_eq!(rt; own.take_own(), None);
    assert_eq!(rt; number(thief.steal()), None);
    let mut other = thief.split()?;
    assert_eq!(rt; own.deal(11), Ok(()));
    assert_eq!(rt; number(other.steal()), Some(11));
    Ok(())
}

/// How many numbers a thief gets in so many tries.
fn stolen(thief: Dealer, tries: u32) -> u32 {
    let mut thief = thief;
    let mut count = 0u32;
    for _ in 0..tries {
        if number(thief.steal()).is_some() {
            count = count.saturating_add(1);
        }
    }
    count
}

/// How many numbers the owner gets in so many tries.
fn taken(own: &mut Hand, tries: u32) -> u32 {
    let mut count = 0u32;
    for _ in 0..tries {
        if own.take_own().is_some() {
            count = count.saturating_add(1);
        }
    }
    count
}

#[test]
fn two_threads_get_each_number_once(rt: HostRuntime) -> Result<(), Fail> {
    let (mut own, thief) = hand(rt.alloc())?;
    for node in 0..1000u32 {
        assert_eq!(rt; own.deal(node), Ok(()));
    }
    let theirs = thread::spawn(&rt, move || stolen(thief, 100_000))?;
    let mine = taken(&mut own, 100_000);
    assert_eq!(rt; mine.saturating_add(theirs.join(&rt)), 1000);
    Ok(())
}

/// Tells in which order goals passed before their jobs, by one digit for each: its name's length.
#[derive(Drop)]
struct Listing {
    order: AtomicU64,
}

impl Gate for Listing {
    fn pass<R: Wait>(&self, _rt: &R, _worker: u32, goal: &[u8], place: Place) {
        let Place::Begin = place else {
            return;
        };
        let so_far = self.order.load(SeqCst);
        let more = so_far.wrapping_mul(10).wrapping_add(goal.len() as u64);
        self.order.store(more, SeqCst);
    }
}

/// A worker takes first what it dealt first: the root's second child, which splits into none, is begun before the first
/// one's children. A worker that took the first free node would begin these before it.
#[test]
fn a_worker_takes_what_it_dealt_in_order(rt: HostRuntime) -> Result<(), Fail> {
    let gate = Listing {
        order: AtomicU64::new(0),
    };
    let rule = initial(true, 100);
    let state = speculate(&rt, rt.alloc(), &Trees, &Tree::Uneven, rule, 1, &gate)?;
    state.finish(rt.alloc(), &Trees)?;
    assert_eq!(rt; gate.order.load(SeqCst), 567);
    Ok(())
}
