//! First passes: events done with their hints and their proofs.
ghost use Rattle.std.specs.Prelude.{◌≡◌, ◌≤◌, List, [], codes, take, true, IfOk, OnErr};
ghost use Rattle.ap_term.specs.Printed.{symbol_text};
ghost use Rattle.ap_world.specs.declared.entry.Entry.{Entry};
ghost use Rattle.ap_world.specs.Sound.{HasFunctions, Sound};
ghost use Rattle.ap_world.specs.World.{function_of};
ghost use Rattle.ap_plain.specs.Ends.{Did, Done};
ghost use Rattle.ap_plain.specs.Events.{event_of};
ghost use Rattle.ap_events.specs.Backing.{Backed};
ghost use Rattle.ap_events.specs.Books.{again_event, asked_first, asks_of, first_event};
ghost use Rattle.ap_events.specs.Joining.{Begins, Ran, back_in};
ghost use Rattle.ap_events.specs.Nested.{agains, all, closing_by, firsts};

use crate::again::is_holder;
use crate::joining::{ended_by, join, nothing, refused_head, settle, too_deep};
use crate::kept::{KeptBook, have_distinct_names, include_event};
use crate::nesting::{Nesting, nesting_of};
use crate::second::second_pass;
use ap_attempt::Gate;
use ap_list::NoMemory;
use ap_plain::{Before, Limits, Outcome, Refusal, head, remember, work};
use ap_reader::Form;
use ap_rules::Ruled;
use ap_value::{Symbol, is_named};
use std::alloc::Global;
use std::sync::Wait;
use std::thread::Threads;

/// Who does events: so many workers, which pass a gate, within limits.
#[derive(Drop)]
pub(crate) struct Crew<'a, R, G> {
    pub rt: &'a R,
    pub limits: &'a Limits,
    pub workers: u32,
    pub gate: &'a G,
}

/// Does an event that holds no others and includes no book.
fn plain<R: Threads + Wait + Sync, G: Gate + Sync>(
    crew: &Crew<'_, R, G>,
    alloc: Global,
    w: &mut Ruled,
    f: &Form,
) -> Result<Outcome, NoMemory>
    requires functions { HasFunctions (function_of w.old.entries) }
    ensures done { IfOk result (Did (event_of crew.now.limits.now w.old f.now) w.old w.new) }
    ensures alone { IfOk result (λ e. crew.now.workers ≤ 1 → e.drops ≡ []) }
    ensures error { OnErr result (w.new ≡ w.old) }
{
    work(crew.rt, alloc, w, f, crew.limits, crew.workers, crew.gate)
}

/// Does an event that holds no others, by the symbol at its head.
fn asked_first<R: Threads + Wait + Sync, G: Gate + Sync>(
    crew: &Crew<'_, R, G>,
    alloc: Global,
    w: &mut Ruled,
    earlier: &[KeptBook],
    f: &Form,
    head: &Symbol,
) -> Result<Outcome, NoMemory>
    requires functions { HasFunctions (function_of w.old.entries) }
    ensures done { IfOk result (Did (asked_first crew.now.limits.now earlier.now f.now w.old head.now (asks_of head.now)) w.old w.new) }
    ensures alone { IfOk result (λ e. crew.now.workers ≤ 1 → e.drops ≡ []) }
    ensures error { OnErr result (w.new ≡ w.old) }
{
    if is_named(head, b"INCLUDE-BOOK") {
        include_event(alloc, w, earlier, f)
    } else if is_holder(head) {
        refused_head(alloc, head, Refusal::BadEvent)
    } else {
        plain(crew, alloc, w, f)
    }
}

/// Does an event that holds no others. Where it is refused, or memory is wanting, the world is as it was.
#[tactic(auto, unfolding(crate::specs::Books::first_event))]
fn first_event<R: Threads + Wait + Sync, G: Gate + Sync>(
    crew: &Crew<'_, R, G>,
    alloc: Global,
    w: &mut Ruled,
    earlier: &[KeptBook],
    f: &Form,
) -> Result<Outcome, NoMemory>
    requires functions { HasFunctions (function_of w.old.entries) }
    ensures done { IfOk result (Did (first_event crew.now.limits.now earlier.now f.now w.old) w.old w.new) }
    ensures alone { IfOk result (λ e. crew.now.workers ≤ 1 → e.drops ≡ []) }
    ensures error { OnErr result (w.new ≡ w.old) }
{
    match head(f) {
        Some(head) => asked_first(crew, alloc, w, earlier, f, head),
        None => plain(crew, alloc, w, f),
    }
}

/// Ends an `encapsulate` by its second pass, where its first one is admitted: the world goes back, and its forms are
/// done again. Where that is refused, or memory is wanting, the world is the one that it went back to.
fn close(
    alloc: Global,
    w: &mut Ruled,
    earlier: &[KeptBook],
    depth: u32,
    forms: &[Form],
    before: Before,
    first: Outcome,
) -> Result<Outcome, NoMemory>
    requires sound { Sound (take before.count w.old.entries) }
    requires functions { HasFunctions (function_of (take before.count w.old.entries)) }
    requires backed { first.admitted ≡ true → (U : List Entry) × Backed (all (agains (again_event earlier.now) depth) forms.now (back_in before w.old)) (back_in before w.old) U }
    ensures done { IfOk result (λ o. (d : Done) → Did d (back_in before w.old) w.old first → Did (closing_by d d.next (all (agains (again_event earlier.now) depth) forms.now (back_in before w.old))) (back_in before w.old) w.new o) }
    ensures alone { IfOk result (λ o. o.drops ≡ first.drops) }
    ensures error { OnErr result (w.new ≡ back_in before w.old) }
{
    if !first.admitted {
        return Ok(first);
    }
    let second = second_pass(alloc, w, earlier, depth, forms, before)?;
    ended_by(first, second)
}

/// Does a form in which at most so many events hold each other.
#[cycle(first)]
pub(crate) fn first_in<R: Threads + Wait + Sync, G: Gate + Sync>(
    crew: &Crew<'_, R, G>,
    alloc: Global,
    w: &mut Ruled,
    earlier: &[KeptBook],
    depth: u32,
    f: &Form,
) -> Result<Outcome, NoMemory>
    requires functions { HasFunctions (function_of w.old.entries) }
    ensures done { IfOk result (Did (firsts (first_event crew.now.limits.now earlier.now) (again_event earlier.now) depth f.now w.old) w.old w.new) }
    ensures alone { IfOk result (λ e. crew.now.workers ≤ 1 → e.drops ≡ []) }
    ensures error { OnErr result (w.new ≡ w.old) }
{
    if depth == 0 {
        return too_deep(alloc, f);
    }
    match nesting_of(f) {
        Nesting::Plain => first_event(crew, alloc, w, earlier, f),
        Nesting::Hidden(event) => first_in(crew, alloc, w, earlier, depth - 1, event),
        Nesting::Group(forms) => first_all(crew, alloc, w, earlier, depth - 1, forms),
        Nesting::Closed(forms) => first_closed(crew, alloc, w, earlier, depth - 1, forms),
    }
}

/// Does forms one after another, up to the first that is refused. The world is then one on the way.
#[cycle(first)]
fn first_each<R: Threads + Wait + Sync, G: Gate + Sync>(
    crew: &Crew<'_, R, G>,
    alloc: Global,
    w: &mut Ruled,
    earlier: &[KeptBook],
    depth: u32,
    forms: &[Form],
) -> Result<Outcome, NoMemory>
    requires functions { HasFunctions (function_of w.old.entries) }
    ensures done { IfOk result (Ran (all (firsts (first_event crew.now.limits.now earlier.now) (again_event earlier.now) depth) forms.now w.old) w.new) }
    ensures alone { IfOk result (λ e. crew.now.workers ≤ 1 → e.drops ≡ []) }
    ensures grown { Begins w.old w.new }
{
    let mut done = nothing(alloc);
    for form in forms {
        let next = first_in(crew, alloc, w, earlier, depth, form)?;
        join(&mut done, next)?;
        if !done.admitted {
            return Ok(done);
        }
    }
    Ok(done)
}

/// Does forms one after another. Where one is refused, or memory is wanting, the world is as it was.
#[cycle(first)]
fn first_all<R: Threads + Wait + Sync, G: Gate + Sync>(
    crew: &Crew<'_, R, G>,
    alloc: Global,
    w: &mut Ruled,
    earlier: &[KeptBook],
    depth: u32,
    forms: &[Form],
) -> Result<Outcome, NoMemory>
    requires functions { HasFunctions (function_of w.old.entries) }
    ensures done { IfOk result (Did (all (firsts (first_event crew.now.limits.now earlier.now) (again_event earlier.now) depth) forms.now w.old) w.old w.new) }
    ensures alone { IfOk result (λ e. crew.now.workers ≤ 1 → e.drops ≡ []) }
    ensures error { OnErr result (w.new ≡ w.old) }
{
    w.world().recall_sound();
    let before = remember(alloc, w)?;
    let done = first_each(crew, alloc, w, earlier, depth, forms);
    settle(w, before, done)
}

/// Does the forms of an `encapsulate`, and then does them again from the world before it, which gives the next world.
/// No world is copied. Where a form is refused, or memory is wanting, the world is as it was.
#[cycle(first)]
fn first_closed<R: Threads + Wait + Sync, G: Gate + Sync>(
    crew: &Crew<'_, R, G>,
    alloc: Global,
    w: &mut Ruled,
    earlier: &[KeptBook],
    depth: u32,
    forms: &[Form],
) -> Result<Outcome, NoMemory>
    requires functions { HasFunctions (function_of w.old.entries) }
    ensures done { IfOk result (Did (closing_by (all (firsts (first_event crew.now.limits.now earlier.now) (again_event earlier.now) depth) forms.now w.old) (all (firsts (first_event crew.now.limits.now earlier.now) (again_event earlier.now) depth) forms.now w.old).next (all (agains (again_event earlier.now) depth) forms.now w.old)) w.old w.new) }
    ensures alone { IfOk result (λ e. crew.now.workers ≤ 1 → e.drops ≡ []) }
    ensures error { OnErr result (w.new ≡ w.old) }
{
    have_distinct_names(earlier);
    w.world().recall_sound();
    let before = remember(alloc, w)?;
    let first = first_all(crew, alloc, w, earlier, depth, forms)?;
    w.world().recall_sound();
    close(alloc, w, earlier, depth, forms, before, first)
}
