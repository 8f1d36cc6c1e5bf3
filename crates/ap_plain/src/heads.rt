//! One event, by its head.
ghost use Rattle.std.specs.Prelude.{◌≡◌, ◌≤◌, [], Some, None, cond, IfOk, OnErr, false};
ghost use Rattle.ap_world.specs.Sound.{HasFunctions};
ghost use Rattle.ap_world.specs.World.{Shown, function_of};
ghost use Rattle.ap_term.specs.Printed.{symbol_text};
ghost use Rattle.ap_plain.specs.Drops.{DividedWalks};
ghost use Rattle.ap_plain.specs.Ends.{goals_in, walks_in, refused_alone, Did};
ghost use Rattle.ap_stated.specs.declared.refusing.Refusal.{Refusal};
ghost use Rattle.ap_plain.specs.Events.{kind_of, theorem_event, definition_event, event_by, headed_event, event_with, event_of};
ghost use Rattle.ap_stated.specs.Shapes.{statement_of, definition_of};

use crate::attempting::Crew;
use crate::changes::theory_event;
use crate::constant::constant_event;
use crate::end::{Outcome, refused_alone};
use crate::kinds::{Kind, kind_of};
use crate::limits::Limits;
use crate::named::{Asked, proposed_event};
use crate::proposing::{proposed_definition, proposed_theorem};
use ap_attempt::Gate;
use ap_list::NoMemory;
use ap_reader::Form;
use ap_rules::Ruled;
use ap_stated::{Refusal, definition_in, head, texts, theorem_in};
use ap_value::Symbol;
use std::alloc::Global;
use std::sync::Wait;
use std::thread::Threads;

/// Does the event of a theorem, which is enabled or not.
#[tactic(auto, unfolding(crate::specs::Events::theorem_event))]
fn theorem_event<R: Threads + Wait + Sync, G: Gate + Sync>(
    crew: &Crew<'_, R, G>,
    alloc: Global,
    w: &mut Ruled,
    f: &Form,
    limits: &Limits,
    enabled: bool,
) -> Result<Outcome, NoMemory>
    requires functions { HasFunctions (function_of w.old.entries) }
    ensures done { IfOk result (Did (theorem_event limits.now w.old enabled (statement_of f.now)) w.old w.new) }
    ensures alone { IfOk result (λ e. crew.now.workers ≤ 1 → e.drops ≡ []) }
    ensures error { OnErr result (w.new ≡ w.old) }
{
    let Some(statement) = theorem_in(f) else {
        return refused_alone(alloc, b"DEFTHM", Refusal::BadEvent);
    };
    let title = texts::title(alloc, b"DEFTHM", statement.name)?;
    let stated = proposed_theorem(alloc, w, &statement)?;
    let asked = Asked {
        title: title.as_slice(),
        hints: statement.choices.hints,
        otf: statement.choices.otf,
        enabled,
    };
    proposed_event(crew, alloc, w, limits, &asked, stated)
}

/// Does the event of a function, which is enabled or not.
#[tactic(auto, unfolding(crate::specs::Events::definition_event))]
fn definition_event<R: Threads + Wait + Sync, G: Gate + Sync>(
    crew: &Crew<'_, R, G>,
    alloc: Global,
    w: &mut Ruled,
    f: &Form,
    limits: &Limits,
    enabled: bool,
) -> Result<Outcome, NoMemory>
    requires functions { HasFunctions (function_of w.old.entries) }
    ensures done { IfOk result (Did (definition_event limits.now w.old enabled (definition_of f.now)) w.old w.new) }
    ensures alone { IfOk result (λ e. crew.now.workers ≤ 1 → e.drops ≡ []) }
    ensures error { OnErr result (w.new ≡ w.old) }
{
    let Some(definition) = definition_in(f) else {
        return refused_alone(alloc, b"DEFUN", Refusal::BadEvent);
    };
    let title = texts::title(alloc, b"DEFUN", definition.name)?;
    let stated = proposed_definition(alloc, w, &definition)?;
    let asked = Asked {
        title: title.as_slice(),
        hints: definition.xargs.hints,
        otf: definition.xargs.otf,
        enabled,
    };
    proposed_event(crew, alloc, w, limits, &asked, stated)
}

/// Does an event of a kind.
#[tactic(auto, unfolding(crate::specs::Events::event_by))]
fn event_by<R: Threads + Wait + Sync, G: Gate + Sync>(
    crew: &Crew<'_, R, G>,
    alloc: Global,
    w: &mut Ruled,
    f: &Form,
    limits: &Limits,
    kind: Kind,
) -> Result<Outcome, NoMemory>
    requires functions { HasFunctions (function_of w.old.entries) }
    ensures done { IfOk result (Did (event_by limits.now w.old f.now kind) w.old w.new) }
    ensures alone { IfOk result (λ e. crew.now.workers ≤ 1 → e.drops ≡ []) }
    ensures error { OnErr result (w.new ≡ w.old) }
{
    match kind {
        Kind::Theorem => theorem_event(crew, alloc, w, f, limits, true),
        Kind::DisabledTheorem => theorem_event(crew, alloc, w, f, limits, false),
        Kind::Function => definition_event(crew, alloc, w, f, limits, true),
        Kind::DisabledFunction => definition_event(crew, alloc, w, f, limits, false),
        Kind::Constant => constant_event(alloc, w, f),
        Kind::Theory => theory_event(alloc, w, f),
    }
}

/// An event that isn't built.
fn unsupported(alloc: Global, head: &Symbol) -> Result<Outcome, NoMemory>
    ensures done { IfOk result (λ e. (w : Shown) → Did (refused_alone (symbol_text head.now) Refusal.NotSupported) w w e) }
    ensures alone { IfOk result (λ e. e.drops ≡ []) }
{
    let title = texts::printed(alloc, head)?;
    refused_alone(alloc, title.as_slice(), Refusal::NotSupported)
}

/// Does an event, by the symbol at its head.
#[tactic(auto, unfolding(crate::specs::Events::headed_event))]
fn headed_event<R: Threads + Wait + Sync, G: Gate + Sync>(
    crew: &Crew<'_, R, G>,
    alloc: Global,
    w: &mut Ruled,
    f: &Form,
    limits: &Limits,
    head: &Symbol,
) -> Result<Outcome, NoMemory>
    requires functions { HasFunctions (function_of w.old.entries) }
    ensures done { IfOk result (Did (headed_event limits.now w.old f.now head.now (kind_of head.now)) w.old w.new) }
    ensures alone { IfOk result (λ e. crew.now.workers ≤ 1 → e.drops ≡ []) }
    ensures error { OnErr result (w.new ≡ w.old) }
{
    match kind_of(head) {
        Some(kind) => event_by(crew, alloc, w, f, limits, kind),
        None => unsupported(alloc, head),
    }
}

/// Does an event by a crew.
#[tactic(auto, unfolding(crate::specs::Events::event_of, crate::specs::Events::event_with))]
fn event_of<R: Threads + Wait + Sync, G: Gate + Sync>(
    crew: &Crew<'_, R, G>,
    alloc: Global,
    w: &mut Ruled,
    f: &Form,
    limits: &Limits,
) -> Result<Outcome, NoMemory>
    requires functions { HasFunctions (function_of w.old.entries) }
    ensures done { IfOk result (Did (event_of limits.now w.old f.now) w.old w.new) }
    ensures alone { IfOk result (λ e. crew.now.workers ≤ 1 → e.drops ≡ []) }
    ensures error { OnErr result (w.new ≡ w.old) }
{
    match head(f) {
        Some(head) => headed_event(crew, alloc, w, f, limits, head),
        None => refused_alone(alloc, b"FORM", Refusal::NotSupported),
    }
}

/// Does an event in a world with the index of its rules, by the form that states it: `defthm`, `defthmd`, `defun`,
/// `defund`, `defconst` or `in-theory`. Answers what it prints, whether it is admitted, how many goals its attempts
/// visited, and what was dropped in them. Up to 64 workers make the attempts; with one worker nothing is dropped, and
/// the code starts no thread, which no clause says. Where the event is admitted the world is the next one; where it is
/// refused, or where memory is wanting, the world is as it was. It costs what the event costs, whatever the world has
/// already. The only error is want of memory, for which more goals than a machine word counts is taken too.
pub fn work<R: Threads + Wait + Sync, G: Gate + Sync>(
    rt: &R,
    alloc: Global,
    w: &mut Ruled,
    f: &Form,
    limits: &Limits,
    workers: u32,
    gate: &G,
) -> Result<Outcome, NoMemory>
    requires { HasFunctions (function_of w.old.entries) }
    ensures text { IfOk result (λ e. e.text ≡ (event_of limits.now w.old f.now).text) }
    ensures next { IfOk result (λ e. (event_of limits.now w.old f.now).next ≡ cond e.admitted (Some w.new) None) }
    ensures refused { IfOk result (λ e. e.admitted ≡ false → w.new ≡ w.old) }
    ensures goals { IfOk result (λ e. e.goals ≡ goals_in (event_of limits.now w.old f.now).told) }
    ensures drops { IfOk result (λ e. DividedWalks e.drops (walks_in (event_of limits.now w.old f.now).told)) }
    ensures alone { IfOk result (λ e. workers ≤ 1 → e.drops ≡ []) }
    ensures error { OnErr result (w.new ≡ w.old) }
    ensures ground { HasFunctions (function_of w.new.entries) }
{
    let crew = Crew { rt, workers, gate };
    event_of(&crew, alloc, w, f, limits)
}
