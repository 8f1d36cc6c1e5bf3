use crate::expect::expect;
use ap_list::Bytes;
use ap_names::{GoalName, NoMemory, Seq, parse, same_name};
use std::alloc::{AllocError, Global};
use std::process::Abort;
use std::test::Fail;

fn root(alloc: Global) -> GoalName {
    GoalName {
        induction: Seq::new(alloc),
        case: None,
        path: Seq::new(alloc),
        primes: 0,
    }
}

/// The goal with these numbers that is pushed below the root, or the root where there are none.
fn pushed(alloc: Global, numbers: &[u32]) -> Result<GoalName, NoMemory> {
    let mut name = root(alloc);
    for k in numbers {
        if *k > 0 {
            name = name.pushed(alloc, *k)?;
        }
    }
    Ok(name)
}

/// The goal that a move leads to: a prime for 0, a child for each other number.
fn moved(alloc: Global, name: &GoalName, k: u32) -> Result<GoalName, NoMemory> {
    if k > 0 {
        return name.child(alloc, k);
    }
    if name.is_pushed() || name.primes >= 250 {
        return Err(AllocError);
    }
    name.primed(alloc)
}

/// What the goal prints as that the moves lead to from a pushed one.
fn printed(alloc: Global, numbers: &[u32], moves: &[u32]) -> Result<Bytes, NoMemory> {
    let mut name = pushed(alloc, numbers)?;
    for k in moves {
        name = moved(alloc, &name, *k)?;
    }
    name.print(alloc)
}

/// Each row: the numbers of a pushed goal, the moves from it, and what the goal prints as.
const ROWS: &[(&[u32], &[u32], &str)] = &[
    (&[], &[], "Goal"),
    (&[], &[0, 2], "Subgoal 2"),
    (&[], &[2, 0], "Subgoal 2'"),
    (&[], &[2, 0, 1], "Subgoal 2.1"),
    (&[], &[2, 1, 0, 0], "Subgoal 2.1''"),
    (&[], &[0, 0, 0], "Goal'''"),
    (&[], &[0, 0, 0, 0], "Goal'4'"),
    (&[1, 2], &[], "*1.2"),
    (&[1], &[3], "Subgoal *1/3"),
    (&[1, 1], &[3], "Subgoal *1.1/3"),
    (&[1, 1], &[3, 12, 0], "Subgoal *1.1/3.12'"),
];

/// Whether a copy of a name is the same, and whether the name is that of the root.
fn is_copied(alloc: Global, name: &GoalName) -> Result<(bool, bool), NoMemory> {
    let copied = name.copy(alloc)?;
    Ok((same_name(name, &copied), same_name(name, &root(alloc))))
}

/// The same of a pushed goal's name.
fn is_pushed_copied(alloc: Global, numbers: &[u32]) -> Result<(bool, bool), NoMemory> {
    let name = pushed(alloc, numbers)?;
    is_copied(alloc, &name)
}

/// What the name prints as that a text is read as.
fn read(alloc: Global, text: &[u8]) -> Result<Option<Bytes>, NoMemory> {
    match parse(alloc, text)? {
        Some(name) => Ok(Some(name.print(alloc)?)),
        None => Ok(None),
    }
}

/// Each row: a text, and what the name prints as that it is read as, or nothing where it is no name's.
const TEXTS: &[(&str, &str)] = &[
    ("goal", "Goal"),
    ("goal'", "Goal'"),
    ("GOAL'''", "Goal'''"),
    ("Goal'4'", "Goal'4'"),
    ("Goal''''", ""),
    ("Goal'3'", ""),
    ("Goal'04'", ""),
    ("Goal'4", ""),
    ("Goal ", ""),
    (" Goal", ""),
    ("", ""),
    ("Subgoal", ""),
    ("Subgoal ", ""),
    ("Subgoal 0", ""),
    ("Subgoal 02", ""),
    ("Subgoal 2.", ""),
    ("Subgoal 2..1", ""),
    ("Subgoal  2", ""),
    ("Subgoal +2", ""),
    ("subgoal 2.10''", "Subgoal 2.10''"),
    ("Subgoal 4294967295", "Subgoal 4294967295"),
    ("Subgoal 4294967296", ""),
    ("Goal'4294967296'", ""),
    ("*1.2", "*1.2"),
    ("*", ""),
    ("*0", ""),
    ("*1.", ""),
    ("*1'", ""),
    ("*1/2", ""),
    ("Subgoal *1", ""),
    ("Subgoal *1/", ""),
    ("Subgoal *1/0", ""),
    ("SUBGOAL *1/2.3'", "Subgoal *1/2.3'"),
    ("Subgoal *1.1/3'4'", "Subgoal *1.1/3'4'"),
    ("Subgoal *1/2/3", ""),
];

/// A text with its letters in upper or in lower case.
fn cased(alloc: Global, text: &[u8], upper: bool) -> Result<Bytes, NoMemory> {
    let mut cased = Seq::new(alloc);
    for byte in text {
        cased.push(if upper {
            byte.to_ascii_uppercase()
        } else {
            byte.to_ascii_lowercase()
        })?;
    }
    Ok(cased)
}

/// What the name prints as that a text is read as, with its letters in upper or in lower case.
fn read_cased(alloc: Global, text: &[u8], upper: bool) -> Result<Option<Bytes>, NoMemory> {
    let text_cased = cased(alloc, text, upper)?;
    read(alloc, text_cased.as_slice())
}

/// Compares what a text is read as with what it should be.
fn expect_read(rt: &impl Abort, found: Option<Bytes>, wanted: &str) {
    match found {
        Some(printed) => expect(rt, printed.as_slice(), wanted),
        None => assert_eq!(rt; "", wanted),
    }
}

/// Compares what a goal prints as, which is read back in upper and in lower case, with its row.
fn expect_printed(
    rt: &impl Abort,
    alloc: Global,
    printed: &[u8],
    text: &str,
) -> Result<(), NoMemory> {
    expect(rt, printed, text);
    for upper in [false, true] {
        expect_read(rt, read_cased(alloc, printed, upper)?, text);
    }
    Ok(())
}

#[test]
fn names_print_as_the_manual_has_them_and_are_read_back(rt: HostRuntime) -> Result<(), Fail> {
    for (numbers, moves, text) in ROWS {
        let printed = printed(rt.alloc(), *numbers, *moves)?;
        expect_printed(&rt, rt.alloc(), printed.as_slice(), *text)?;
        let copied = is_pushed_copied(rt.alloc(), *numbers)?;
        assert_eq!(rt; copied, (true, numbers.is_empty()));
    }
    Ok(())
}

#[test]
fn texts_are_read_as_names(rt: HostRuntime) -> Result<(), Fail> {
    for (text, wanted) in TEXTS {
        expect_read(&rt, read(rt.alloc(), text.as_bytes())?, *wanted);
    }
    Ok(())
}
