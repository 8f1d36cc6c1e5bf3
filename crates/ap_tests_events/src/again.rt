//! Events done again without what is local: what that prints, and the world behind it.
ghost use Rattle.std.specs.Prelude.{◌≡◌, [], Some, IfOk};
ghost use Rattle.ap_world.specs.Sound.{HasFunctions};
ghost use Rattle.ap_world.specs.World.{function_of};
ghost use Rattle.ap_events.specs.Books.{worked};

use crate::working::{first_world, parts, told};
use ap_events::{Bytes, EventEnd, Form, Limits, NoGate, NoMemory, World, event, event_again};
use ap_reader::forms;
use std::alloc::{AllocError, Global};
use std::process::Abort;
use std::sync::Wait;
use std::test::Fail;
use std::thread::Threads;

/// A form that is admitted first, what it prints when it is done again in the world before, and a function with the types of
/// its calls behind that, if it is there.
#[derive(Clone, Copy)]
struct Row {
    form: &'static str,
    printed: &'static str,
    told: (&'static str, &'static str),
}

const ROWS: &[Row] = &[
    Row {
        form: "(progn (local (defun h (x) x)) (defun g (x) x))",
        printed: "",
        told: ("G", "G 1023"),
    },
    Row {
        form: "(progn (local (defun h (x) x)) (defun g (x) x))",
        printed: "",
        told: ("H", "H none"),
    },
    Row {
        form: "(progn (local (defun h (x) x)) (defun g (x) x) (defun k (x) (h (g x))))",
        printed: "DEFUN K refused 4.1 UnknownName\n",
        told: ("G", "G none"),
    },
    Row {
        form: "(progn (local (defun h (x) x)) (defun g (x) x) (defthm h-is (equal (h x) x) :rule-classes nil))",
        printed: "DEFTHM H-IS refused 4.1 UnknownName\n",
        told: ("G", "G none"),
    },
    Row {
        form: "(progn (local (defun h (x) x)) (local (defthm h-is (equal (h x) x) :rule-classes nil)) (defun g (x) x) (in-theory (disable (:definition h))))",
        printed: "IN-THEORY refused 4.1 UnknownName\n",
        told: ("G", "G none"),
    },
    Row {
        form: "(progn (local (defconst *two* 2)) (defun g (x) (declare (xargs :measure *two*)) x))",
        printed: "DEFUN G refused 4.1 UnknownName\n",
        told: ("G", "G none"),
    },
    Row {
        form: "(encapsulate () (local (defun h (x) x)) (local (defthm h-is (equal (h x) x) :rule-classes nil)) (defun g (x) (consp x)) (defthm g-is (equal (g x) (g x)) :rule-classes nil :hints ((\"Goal\" :use h-is))))",
        printed: "",
        told: ("G", "G 24"),
    },
];

/// Does an event again in a world in which it is admitted, with attempts within these limits.
fn redone(
    alloc: Global,
    w: World,
    form: &Form,
    from: &World,
    limits: &Limits,
) -> Result<EventEnd, NoMemory>
    requires functions { HasFunctions (function_of w.entries) }
    requires source { HasFunctions (function_of from.now.entries) }
    requires admitted { (worked limits.now [] w form.now).next ≡ Some from.now }
{
    let _ = limits;
    from.recall_sound();
    event_again(alloc, w, form, from)
}

/// What an event prints when it is done again, and the world behind that; or the same of the first time, where it isn't
/// admitted.
fn again<R: Threads + Wait + Sync>(
    rt: &R,
    alloc: Global,
    form: &Form,
    limits: &Limits,
) -> Result<(World, Bytes), NoMemory> {
    let before = first_world(alloc)?;
    match event(rt, alloc, before, form, limits, 1, &NoGate)? {
        EventEnd::Admitted(from, _, _) => {
            let end = redone(alloc, first_world(alloc)?, form, &from, limits)?;
            Ok(parts(end))
        }
        EventEnd::Refused(same, text, _) => Ok((same, text)),
    }
}

/// The same of a form's text.
fn again_by_text<R: Threads + Wait + Sync>(
    rt: &R,
    alloc: Global,
    text: &str,
) -> Result<(World, Bytes), NoMemory> {
    let Some(limits) = Limits::new(1000, 10, 2) else {
        return Err(AllocError);
    };
    let Ok(list) = forms(alloc, text.as_bytes()) else {
        return Err(AllocError);
    };
    let [form] = list.as_slice() else {
        return Err(AllocError);
    };
    again(rt, alloc, form, &limits)
}

/// Compares what a row's event prints and leaves.
fn expect<R: Threads + Wait + Sync + Abort>(rt: &R, alloc: Global, row: &Row) -> Result<(), Fail> {
    let (world, text) = again_by_text(rt, alloc, row.form)?;
    assert_eq!(rt; text.as_slice(), row.printed.as_bytes());
    let line = told(alloc, &world, row.told.0)?;
    assert_eq!(rt; line.as_bytes(), row.told.1.as_bytes());
    Ok(())
}

#[test]
fn an_event_is_done_again_unless_it_speaks_of_what_is_local(rt: HostRuntime) -> Result<(), Fail> {
    for row in ROWS {
        expect(&rt, rt.alloc(), row)?;
    }
    Ok(())
}
