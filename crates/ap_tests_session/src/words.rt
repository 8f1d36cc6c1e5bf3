//! The words of a command: what they ask for, and what a fault leaves.
use crate::running::{sees, session, sessions_print};
use ap_outside::MemorySink;
use ap_session::{NoGate, Seq, Status, tell};
use std::alloc::Global;
use std::process::Abort;
use std::sync::Wait;
use std::test::Fail;
use std::thread::Threads;

/// The lines of the usage text.
pub(crate) const USAGE: &str =
    "usage: acl2p [--workers N] [--steps N] [--goals N] [--revert N] [--trace] BOOK .. /        acl2p [--workers N] --demo N";

/// Words that leave the book `refl` steps and goals enough, and what each of them prints.
const ENOUGH: &str = "refl
--goals 2 refl
--goals 100000 refl
--steps 3 --goals 2 refl
--workers 64 refl
--trace --goals 2 --workers 1 --steps 3 refl";

const CERTIFIED: &str =
    "Book refl / DEFTHM REFL / Goal simplify 0 / DEFTHM REFL proved / Book refl certified";

/// Words of which a book isn't certified: one that isn't there, and those of which a limit is reached, the last but one by a
/// rule that leads from a call to the same call on a part of its argument.
const SHORT: &str = "gone => Book gone / Absent / Book gone not certified
gone refl => Book gone / Absent / Book gone not certified / Book refl / DEFTHM REFL / Goal simplify 0 / DEFTHM REFL proved / Book refl certified
--goals 1 refl => Book refl / DEFTHM REFL / Goal simplify 0 / Goal limit / DEFTHM REFL refused 8.3 GoalLimit / Book refl not certified
--steps 2 refl => Book refl / DEFTHM REFL / Goal steplimit / Goal push *1 / *1 noscheme / Checkpoints before induction / Goal: (EQUAL X X) / DEFTHM REFL refused 8.1 NoScheme / Book refl not certified
--steps 50 loop | loop: (defun g (x) (equal x x)) (defthm g1 (equal (g x) (g (car x)))) (defthm g2 (equal (g x) t)) => Book loop / DEFUN G / DEFUN G admitted / DEFTHM G1 / Goal simplify 0 / DEFTHM G1 proved / DEFTHM G2 / Goal steplimit / Goal push *1 / *1 noscheme / Checkpoints before induction / Goal: (EQUAL (G X) 'T) / DEFTHM G2 refused 8.1 NoScheme / Book loop not certified
--goals 1 --steps 1000000 refl => Book refl / DEFTHM REFL / Goal simplify 0 / Goal limit / DEFTHM REFL refused 8.3 GoalLimit / Book refl not certified";

/// Words that are no command: none at all in the first line, and in the last ones those of the demo.
const NO_COMMAND: &str = "
refl refl
-refl
re.fl refl
--goals 100001 refl
--goals 0 refl
--goals 02 refl
--steps 1000001 refl
--steps 3 --steps 3 refl
--workers 0 refl
--workers 65 refl
--workers 01 refl
--workers 2 --workers 2 refl
--workers 2
--trace --trace refl
--trace
refl --trace
--demo 0
--demo 1001
--demo 01
--demo
--workers 8 --demo
--demo 1 refl
refl --demo 1
--demo 1 --trace
--demo 1 --steps 5
--goals 5 --demo 1
--demo 1 --demo 1";

/// The words of the demo, and its one line.
const DEMO: &str = "--demo 150 => Demo 150 events 300 goals 1200 certified
--demo 1
--workers 8 --demo 1
--demo 1 --workers 8";

#[test]
fn the_words_say_what_is_worked(rt: HostRuntime) -> Result<(), Fail> {
    let alloc = rt.alloc();
    sessions_print(&rt, alloc, ENOUGH, Status::Certified, CERTIFIED, 6)?;
    sessions_print(&rt, alloc, SHORT, Status::NotCertified, "", 6)?;
    sessions_print(&rt, alloc, NO_COMMAND, Status::Usage, USAGE, 28)
}

#[test]
fn the_demo_prints_one_line(rt: HostRuntime) -> Result<(), Fail> {
    let line = "Demo 1 events 2 goals 8 certified";
    sessions_print(&rt, rt.alloc(), DEMO, Status::Certified, line, 4)
}

/// Words, which call of the library and which of the sink fails, the status, and what is put.
type Fault = (&'static str, (u32, u32), Status, &'static [u8]);

/// What a fault leaves. The demo reads nothing.
const FAULTS: [Fault; 6] = [
    (
        "gone refl",
        (2, 0),
        Status::ReadFault,
        b"Book gone\nAbsent\nBook gone not certified\n",
    ),
    ("refl", (1, 0), Status::ReadFault, b""),
    ("refl", (0, 2), Status::WriteFault, b"Book refl\n"),
    (
        "refl",
        (0, 3),
        Status::WriteFault,
        b"Book refl\nDEFTHM REFL\nGoal simplify 0\nDEFTHM REFL proved\n",
    ),
    (
        "--demo 1",
        (1, 0),
        Status::Certified,
        b"Demo 1 events 2 goals 8 certified\n",
    ),
    ("--demo 1", (0, 1), Status::WriteFault, b""),
];

/// Asserts what a fault leaves.
fn leaves<R: Abort + Threads + Wait + Sync>(
    rt: &R,
    alloc: Global,
    fault: &Fault,
) -> Result<(), Fail> {
    let (words, failing, status, text) = *fault;
    let ended = session(rt, alloc, words, failing, &NoGate)?;
    sees(rt, &ended, status, text)
}

#[test]
fn each_fault_has_its_cause(rt: HostRuntime) -> Result<(), Fail> {
    for fault in &FAULTS {
        leaves(&rt, rt.alloc(), fault)?;
    }
    Ok(())
}

/// Asserts what stands on standard error.
fn tells(rt: &impl Abort, alloc: Global, status: Status, text: &[u8]) -> Result<(), Fail> {
    let mut errors = MemorySink::new(alloc, Seq::new(alloc));
    assert!(rt; tell(status, &mut errors).is_ok());
    assert_eq!(rt; errors.content(), text);
    Ok(())
}

#[test]
fn each_fault_is_told(rt: HostRuntime) -> Result<(), Fail> {
    tells(&rt, rt.alloc(), Status::Usage, b"")?;
    tells(&rt, rt.alloc(), Status::ReadFault, b"acl2p: read fault\n")?;
    tells(&rt, rt.alloc(), Status::WriteFault, b"acl2p: write fault\n")?;
    tells(&rt, rt.alloc(), Status::NoMemory, b"acl2p: no memory\n")
}
