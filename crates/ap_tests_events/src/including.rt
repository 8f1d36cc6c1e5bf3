ghost use Rattle.std.specs.Prelude.{IfOk};
ghost use Rattle.ap_world.specs.Sound.{HasFunctions};
ghost use Rattle.ap_world.specs.World.{function_of};

use crate::working::{after, first_world, parts, told};
use ap_events::{Bytes, Limits, NoMemory, World, include};
use ap_reader::forms;
use std::alloc::{AllocError, Global};
use std::process::Abort;
use std::sync::Wait;
use std::test::Fail;
use std::thread::Threads;

/// The events of a world, those of a book that it includes, and what is printed.
#[derive(Clone, Copy)]
struct Row {
    here: &'static str,
    book: &'static str,
    printed: &'static str,
    /// A function, and the types of its calls behind the event, if it is there.
    told: (&'static str, &'static str),
}

const ADMITTED: &str = "INCLUDE-BOOK b admitted\n";

const TAKEN: &str = "INCLUDE-BOOK b refused 3 NameTaken\n";

const ROWS: &[Row] = &[
    Row {
        here: "(in-theory (disable iff))",
        book: "(defun f (x) (consp x))",
        printed: ADMITTED,
        told: ("F", "F 24"),
    },
    Row {
        here: "(defun f (x) x)",
        book: "(defun f (x) x)",
        printed: ADMITTED,
        told: ("F", "F 1023"),
    },
    Row {
        here: "(defun f (x) x)",
        book: "(defun f (y) y)",
        printed: TAKEN,
        told: ("F", "F 1023"),
    },
    Row {
        here: "(defthm f (equal x x) :rule-classes nil)",
        book: "(defun g (x) x)",
        printed: ADMITTED,
        told: ("G", "G 1023"),
    },
    Row {
        here: "(defthm f (equal x x) :rule-classes nil)",
        book: "(defun f (x) x)",
        printed: TAKEN,
        told: ("F", "F none"),
    },
];

/// The world behind one event, or behind none where the text has none.
fn world_of<R: Threads + Wait + Sync>(rt: &R, alloc: Global, text: &str) -> Result<World, NoMemory>
    ensures { IfOk result (λ w. HasFunctions (function_of w.entries)) }
{
    let Some(limits) = Limits::new(1000, 10, 2) else {
        return Err(AllocError);
    };
    let Ok(list) = forms(alloc, text.as_bytes()) else {
        return Err(AllocError);
    };
    let world = first_world(alloc)?;
    match list.as_slice() {
        [form, ..] => after(rt, alloc, world, form, &limits, &mut Bytes::new(alloc)),
        [] => Ok(world),
    }
}

/// The world that includes a book's, and what that prints.
fn included<R: Threads + Wait + Sync>(
    rt: &R,
    alloc: Global,
    here: &str,
    book: &str,
) -> Result<(World, Bytes), NoMemory> {
    let w = world_of(rt, alloc, here)?;
    let kept = world_of(rt, alloc, book)?;
    Ok(parts(include(alloc, w, b"b", &kept)?))
}

/// Compares what a row's event prints and leaves.
fn expect<R: Threads + Wait + Sync + Abort>(rt: &R, alloc: Global, row: &Row) -> Result<(), Fail> {
    let (world, text) = included(rt, alloc, row.here, row.book)?;
    assert_eq!(rt; text.as_slice(), row.printed.as_bytes());
    let line = told(alloc, &world, row.told.0)?;
    assert_eq!(rt; line.as_bytes(), row.told.1.as_bytes());
    Ok(())
}

#[test]
fn a_world_includes_a_book_unless_one_of_its_names_is_anothers(
    rt: HostRuntime,
) -> Result<(), Fail> {
    for row in ROWS {
        expect(&rt, rt.alloc(), row)?;
    }
    Ok(())
}
