//! Second passes: events done again, from which what is local is left out.
ghost use Rattle.std.specs.Prelude.{◌≡◌, List, [], take, IfOk, OnErr, OnOk};
ghost use Rattle.ap_world.specs.declared.entry.Entry.{Entry};
ghost use Rattle.ap_world.specs.Sound.{HasFunctions, Sound};
ghost use Rattle.ap_world.specs.World.{function_of};
ghost use Rattle.ap_plain.specs.Ends.{Did};
ghost use Rattle.ap_events.specs.Backing.{Backed};
ghost use Rattle.ap_events.specs.Books.{again_event};
ghost use Rattle.ap_events.specs.Joining.{Begins, RanAgain, Ran, back_in};
ghost use Rattle.ap_events.specs.Nested.{agains, all};

use crate::again::again_event;
use crate::joining::{join, nothing, second_text, settle, too_deep};
use crate::kept::KeptBook;
use crate::nesting::{Nesting, nesting_of};
use ap_list::{Bytes, NoMemory};
use ap_plain::{Before, Outcome, remember};
use ap_reader::Form;
use ap_rules::Ruled;
use std::alloc::Global;

/// Does a form again in which at most so many events hold each other.
#[cycle(again)]
pub(crate) fn again_in(
    alloc: Global,
    w: &mut Ruled,
    earlier: &[KeptBook],
    depth: u32,
    f: &Form,
) -> Result<Outcome, NoMemory>
    requires functions { HasFunctions (function_of w.old.entries) }
    requires backed { (U : List Entry) × Backed (agains (again_event earlier.now) depth f.now w.old) w.old U }
    ensures done { IfOk result (Did (agains (again_event earlier.now) depth f.now w.old) w.old w.new) }
    ensures alone { IfOk result (λ e. e.drops ≡ []) }
    ensures error { OnErr result (w.new ≡ w.old) }
{
    if depth == 0 {
        return too_deep(alloc, f);
    }
    match nesting_of(f) {
        Nesting::Plain => again_event(alloc, w, earlier, f),
        Nesting::Hidden(_event) => Ok(nothing(alloc)),
        Nesting::Group(forms) => again_all(alloc, w, earlier, depth - 1, forms),
        Nesting::Closed(forms) => again_all(alloc, w, earlier, depth - 1, forms),
    }
}

/// Does forms again, one after another, up to the first that is refused. The world is then one on the way.
#[cycle(again)]
fn again_each(
    alloc: Global,
    w: &mut Ruled,
    earlier: &[KeptBook],
    depth: u32,
    forms: &[Form],
) -> Result<Outcome, NoMemory>
    requires functions { HasFunctions (function_of w.old.entries) }
    requires backed { (U : List Entry) × Backed (all (agains (again_event earlier.now) depth) forms.now w.old) w.old U }
    ensures done { IfOk result (Ran (all (agains (again_event earlier.now) depth) forms.now w.old) w.new) }
    ensures alone { IfOk result (λ e. e.drops ≡ []) }
    ensures grown { Begins w.old w.new }
{
    let mut done = nothing(alloc);
    for form in forms {
        let next = again_in(alloc, w, earlier, depth, form)?;
        join(&mut done, next)?;
        if !done.admitted {
            return Ok(done);
        }
    }
    Ok(done)
}

/// Does forms again, one after another. Where one is refused, or memory is wanting, the world is as it was.
#[cycle(again)]
pub(crate) fn again_all(
    alloc: Global,
    w: &mut Ruled,
    earlier: &[KeptBook],
    depth: u32,
    forms: &[Form],
) -> Result<Outcome, NoMemory>
    requires functions { HasFunctions (function_of w.old.entries) }
    requires backed { (U : List Entry) × Backed (all (agains (again_event earlier.now) depth) forms.now w.old) w.old U }
    ensures done { IfOk result (Did (all (agains (again_event earlier.now) depth) forms.now w.old) w.old w.new) }
    ensures alone { IfOk result (λ e. e.drops ≡ []) }
    ensures error { OnErr result (w.new ≡ w.old) }
{
    w.world().recall_sound();
    let before = remember(alloc, w)?;
    let done = again_each(alloc, w, earlier, depth, forms);
    settle(w, before, done)
}

/// Goes back and does the forms of an `encapsulate` again. Answers what that prints where it is refused: the world is
/// then the one that it went back to, and so it is where memory is wanting.
pub(crate) fn second_pass(
    alloc: Global,
    w: &mut Ruled,
    earlier: &[KeptBook],
    depth: u32,
    forms: &[Form],
    before: Before,
) -> Result<Option<Bytes>, NoMemory>
    requires sound { Sound (take before.count w.old.entries) }
    requires functions { HasFunctions (function_of (take before.count w.old.entries)) }
    requires backed { (U : List Entry) × Backed (all (agains (again_event earlier.now) depth) forms.now (back_in before w.old)) (back_in before w.old) U }
    ensures done { IfOk result (RanAgain (all (agains (again_event earlier.now) depth) forms.now (back_in before w.old)) (back_in before w.old) w.new) }
    ensures error { OnErr result (w.new ≡ back_in before w.old) }
{
    w.back_to(before.count, before.theory);
    let done = again_all(alloc, w, earlier, depth, forms)?;
    if done.admitted {
        return Ok(None);
    }
    let text = second_text(alloc, done.text.as_slice())?;
    Ok(Some(text))
}
