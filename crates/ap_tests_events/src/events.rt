use crate::working::{told, worked};
use ap_events::{Bytes, NoMemory, World};
use ap_value::acl2;
use std::alloc::Global;
use std::process::Abort;
use std::sync::Wait;
use std::test::Fail;
use std::thread::Threads;

const EVENTS: &str = r#"(defconst *two* 2)
(defconst *two* '(a . b))
(defconst two 2)
(defun twice (x) (+ x x))
(defun four (x y) "text" (declare (ignore y) (xargs :guard (consp x))) (list (twice *two*) x))
(defun test (x) (if (consp x) t (if (equal x "s") 0 nil)))
(defun *no* (x) x)
(defun same (x x) x)
(defun guarded (x) (declare (xargs :verify-guards t)) x)
(defthm halves (equal (twice x) (twice x)) :rule-classes nil)
(in-theory (enable twice))
(in-theory twice)
'x
"#;

const PRINTED: &str = "DEFCONST *TWO* admitted
DEFCONST *TWO* refused 3 NameTaken
DEFCONST refused 2 BadEvent
DEFUN TWICE
DEFUN TWICE admitted
DEFUN FOUR
DEFUN FOUR admitted
DEFUN TEST
DEFUN TEST admitted
DEFUN refused 2 BadEvent
DEFUN SAME
DEFUN SAME refused 4.6 NotAVariable
DEFUN GUARDED
DEFUN GUARDED refused 11 GuardsAsked
DEFTHM HALVES
Goal simplify 0
DEFTHM HALVES proved
IN-THEORY admitted
IN-THEORY refused 2 BadEvent
FORM refused 1 NotSupported
";

/// A function, and the types that its calls may have, or that there is none: 1 zero, 2 positive, 4 negative, 8 `nil`, 16 `t`, 64 a
/// proper cons.
const FUNCTIONS: &str = "TWICE 7
FOUR 64
TEST 25
SAME none
GUARDED none";

/// The world behind a text's events, which print what is wanted.
pub(crate) fn world_behind<R: Threads + Wait + Sync + Abort>(
    rt: &R,
    alloc: Global,
    events: &str,
    wanted: &str,
) -> Result<World, NoMemory> {
    let mut printed = Bytes::new(alloc);
    let world = worked(rt, alloc, events, &mut printed)?;
    assert_eq!(rt; printed.as_slice(), wanted.as_bytes());
    Ok(world)
}

/// Compares the functions of a world with their lines.
pub(crate) fn expect_told(
    rt: &impl Abort,
    alloc: Global,
    w: &World,
    lines: &str,
) -> Result<(), Fail> {
    for line in lines.lines() {
        let name = line.split(' ').next().unwrap_or("");
        assert_eq!(rt; told(alloc, w, name)?.as_str(), line);
    }
    Ok(())
}

/// Whether the constant is there, and the theorem.
fn are_there(alloc: Global, w: &World) -> Result<(bool, bool), NoMemory> {
    let two = acl2(alloc, b"*TWO*")?;
    let halves = acl2(alloc, b"HALVES")?;
    Ok((
        w.lookup_const(&two).is_some(),
        w.lookup_thm(&halves).is_some(),
    ))
}

#[test]
fn definitions_and_constants_are_admitted_and_found(rt: HostRuntime) -> Result<(), Fail> {
    let world = world_behind(&rt, rt.alloc(), EVENTS, PRINTED)?;
    assert_eq!(rt; are_there(rt.alloc(), &world)?, (true, true));
    expect_told(&rt, rt.alloc(), &world, FUNCTIONS)
}
