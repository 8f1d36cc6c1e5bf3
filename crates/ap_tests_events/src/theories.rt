ghost use Rattle.std.specs.Prelude.{IfOk};
ghost use Rattle.ap_world.specs.Sound.{HasFunctions};
ghost use Rattle.ap_world.specs.World.{function_of};

use ap_events::{Bytes, Form, Limits, NoGate, NoMemory, Ruled, work};
use ap_ground::ground_world;
use ap_ground::laws::ground_has_its_functions;
use ap_reader::forms;
use ap_rules::by_head;
use ap_value::acl2;
use ap_world::{Rune, RuneKind};
use std::alloc::{AllocError, Global};
use std::process::Abort;
use std::sync::Wait;
use std::thread::Threads;

/// Theorems whose hypotheses say what they conclude, so that they are proved whatever is enabled.
const EVENTS: &str = r#"(in-theory (disable iff))
(defund p (x) x)
(defund q (x) (equal x x))
(defun r (x) x)
(defthm three (implies (and (equal (p x) (q x)) (consp (p x)) (not (q y))) (and (equal (p x) (q x)) (consp (p x)) (not (q y)))))
(defthm same (implies (iff (q x) (p x)) (iff (q x) (p x))))
(defthm none (implies (consp (p x)) (consp (p x))) :rule-classes nil)
(defthm less (implies (< (p x) (q x)) (< (p x) (q x))) :rule-classes (:linear :rewrite))
(defthmd late (implies (consp (q x)) (consp (q x))) :rule-classes :rewrite)
(defthm kept (implies (consp (r x)) (consp (r x))) :rule-classes (:rewrite))
(in-theory (e/d (q) (r)))
(in-theory (enable (:definition r)))
(in-theory (disable kept (:executable-counterpart q)))
(in-theory (enable kept))
(in-theory (disable none (:linear less)))
(in-theory (disable (:linear kept)))
(in-theory (enable q nowhere))
(in-theory (disable three (:definition three)))
(defthm free (equal (p x) (q y)))
"#;

const PRINTED: &str = "IN-THEORY admitted
DEFUN P
DEFUN P admitted
DEFUN Q
DEFUN Q admitted
DEFUN R
DEFUN R admitted
DEFTHM THREE
Goal simplify 0
DEFTHM THREE proved
DEFTHM SAME
Goal simplify 0
DEFTHM SAME proved
DEFTHM NONE
Goal simplify 0
DEFTHM NONE proved
DEFTHM LESS
Goal simplify 0
DEFTHM LESS proved
DEFTHM LATE
Goal simplify 0
DEFTHM LATE proved
DEFTHM KEPT
Goal simplify 0
DEFTHM KEPT proved
IN-THEORY admitted
IN-THEORY admitted
IN-THEORY admitted
IN-THEORY admitted
IN-THEORY admitted
IN-THEORY refused 4.1 UnknownName
IN-THEORY refused 4.1 UnknownName
IN-THEORY refused 4.1 UnknownName
DEFTHM FREE
DEFTHM FREE refused 5.3 FreeInRhs
";

/// Heads, each with the theorems of its rules, newest first.
const RULES: &str = "P THREE
Q SAME THREE
CONSP KEPT LATE THREE
< LESS
R";

/// The runes that are disabled behind the events.
const DISABLED: &str = "(Definition IFF)
(Induction IFF)
(Definition P)
(Induction P)
(Rewrite LATE)
(Induction R)
(Executable Q)
(Linear LESS)
";

/// Does the events of a text one after another, past refused ones.
fn all_events<R: Threads + Wait + Sync>(
    rt: &R,
    alloc: Global,
    w: &mut Ruled,
    list: &[Form],
    limits: &Limits,
    printed: &mut Bytes,
) -> Result<(), NoMemory>
    requires { HasFunctions (function_of w.old.entries) }
{
    for form in list {
        let outcome = work(rt, alloc, w, &[], form, limits, 1, &NoGate)?;
        printed.extend(outcome.text.as_slice())?;
    }
    Ok(())
}

/// The world that every book begins with, and the index of its rules.
fn first_world(alloc: Global) -> Result<Ruled, NoMemory>
    ensures { IfOk result (λ w. HasFunctions (function_of w.entries)) }
{
    ground_has_its_functions();
    let world = ground_world(alloc)?;
    Ruled::of(alloc, world)
}

/// The world behind the events, with what they print.
fn worked<R: Threads + Wait + Sync>(
    rt: &R,
    alloc: Global,
    printed: &mut Bytes,
) -> Result<Ruled, NoMemory> {
    let Some(limits) = Limits::new(10000, 10, 2) else {
        return Err(AllocError);
    };
    let Ok(list) = forms(alloc, EVENTS.as_bytes()) else {
        return Err(AllocError);
    };
    let mut world = first_world(alloc)?;
    all_events(rt, alloc, &mut world, list.as_slice(), &limits, printed)?;
    Ok(world)
}

/// A line on a head: the theorems of its rules, newest first.
fn ruled(alloc: Global, w: &Ruled, head: &str) -> Result<Bytes, NoMemory> {
    let symbol = acl2(alloc, head.as_bytes())?;
    let mut line = Bytes::from_slice(alloc, head.as_bytes())?;
    for rule in by_head(w.rules(), &symbol) {
        line.extend(b" ")?;
        line.extend(rule.theorem.name.as_slice())?;
    }
    Ok(line)
}

/// A kind of runes in a word.
fn word(kind: RuneKind) -> &'static str {
    match kind {
        RuneKind::Definition => "Definition",
        RuneKind::Executable => "Executable",
        RuneKind::TypePrescription => "TypePrescription",
        RuneKind::Induction => "Induction",
        RuneKind::Rewrite => "Rewrite",
        RuneKind::Linear => "Linear",
        RuneKind::Elim => "Elim",
    }
}

/// Writes the line of a rune.
fn put_rune(text: &mut Bytes, rune: &Rune) -> Result<(), NoMemory> {
    text.extend(b"(")?;
    text.extend(word(rune.kind()).as_bytes())?;
    text.extend(b" ")?;
    text.extend(rune.symbol().name.as_slice())?;
    text.extend(b")\n")
}

/// A line for each rune that is disabled.
fn disabled(alloc: Global, w: &Ruled) -> Result<Bytes, NoMemory> {
    let mut text = Bytes::new(alloc);
    for rune in w.world().theory().disabled() {
        put_rune(&mut text, rune)?;
    }
    Ok(text)
}

/// Compares the rules of each head with their line, and the runes that are disabled with theirs.
fn expect_rules(rt: &impl Abort, alloc: Global, w: &Ruled) -> Result<(), NoMemory> {
    for line in RULES.lines() {
        let head = line.split(' ').next().unwrap_or("");
        assert_eq!(rt; ruled(alloc, w, head)?.as_slice(), line.as_bytes());
    }
    assert_eq!(rt; disabled(alloc, w)?.as_slice(), DISABLED.as_bytes());
    Ok(())
}

/// The world behind the events, which print what is wanted.
fn world_behind<R: Threads + Wait + Sync + Abort>(
    rt: &R,
    alloc: Global,
) -> Result<Ruled, NoMemory> {
    let mut printed = Bytes::new(alloc);
    let world = worked(rt, alloc, &mut printed)?;
    assert_eq!(rt; printed.as_slice(), PRINTED.as_bytes());
    Ok(world)
}

#[test]
fn theorems_give_their_rules_and_names_are_enabled_and_disabled(
    rt: HostRuntime,
) -> Result<(), NoMemory> {
    let world = world_behind(&rt, rt.alloc())?;
    expect_rules(&rt, rt.alloc(), &world)
}
