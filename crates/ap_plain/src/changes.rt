//! Changes of the current theory: the event `in-theory`, and what `defund` and `defthmd` disable.
ghost use Rattle.std.specs.Prelude.{◌≡◌, [], IfOk, OnOk, OnErr, length, option_map, take};
ghost use Rattle.ap_world.specs.Sound.{Sound};
ghost use Rattle.ap_hints.specs.Changes.{as_changed, changed_theory};
ghost use Rattle.ap_plain.specs.Changes.{changes_of, changed_event, theory_event};
ghost use Rattle.ap_plain.specs.Ends.{Did};
ghost use Rattle.ap_plain.specs.Proposals.{without_name};

use crate::end::{Outcome, refused_alone, without_drops};
use ap_hints::{Changes, changed_runes, changed_theory, changes_by, runes_named};
use ap_list::NoMemory;
use ap_reader::{Form, items};
use ap_rules::Ruled;
use ap_stated::{Refusal, texts};
use ap_translate::TransKind;
use ap_value::Symbol;
use ap_world::{Theory, World, copy_theory};
use std::alloc::Global;

/// What an `in-theory` changes, or `None` where it isn't `(in-theory (enable R ..))`, or the same with
/// `(disable R ..)` or `(e/d (R ..) (R ..))`. Whether each R is known isn't looked at.
fn changes_in(form: &Form) -> Option<Changes<'_>>
    ensures { option_map as_changed result ≡ changes_of form.now }
{
    match items(form) {
        Some([_, theory]) => changes_by(theory),
        _ => None,
    }
}

/// Ends the event of a theory, which is then the current one, or of one that isn't known.
#[tactic(auto, unfolding(crate::specs::Changes::changed_event))]
fn changed_event(alloc: Global, w: &mut Ruled, theory: Option<Theory>) -> Result<Outcome, NoMemory>
    ensures done { IfOk result (Did (changed_event w.old theory) w.old w.new) }
    ensures alone { IfOk result (λ e. e.drops ≡ []) }
    ensures error { OnErr result (w.new ≡ w.old) }
{
    let Some(theory) = theory else {
        let refusal = Refusal::Translation(TransKind::UnknownName);
        return refused_alone(alloc, b"IN-THEORY", refusal);
    };
    let text = texts::said_line(alloc, b"IN-THEORY", b" admitted")?;
    w.set_theory(theory);
    Ok(without_drops(alloc, text, true))
}

/// Does the event of changes. Where memory is wanting the world is as it was.
fn change(alloc: Global, w: &mut Ruled, changes: &Changes<'_>) -> Result<Outcome, NoMemory>
    ensures done { IfOk result (Did (changed_event w.old (changed_theory w.old (as_changed changes.now))) w.old w.new) }
    ensures alone { IfOk result (λ e. e.drops ≡ []) }
    ensures error { OnErr result (w.new ≡ w.old) }
{
    let theory = changed_theory(alloc, w.world(), changes)?;
    changed_event(alloc, w, theory)
}

/// Does the event `in-theory`: it is refused where it isn't `(in-theory (enable R ..))`, or the same with `disable` or
/// `e/d`, and where an R isn't known. Where it is refused, or memory is wanting, the world is as it was. See the
/// manual's topic `in-theory`.
#[tactic(auto, unfolding(crate::specs::Changes::theory_event))]
pub fn theory_event(alloc: Global, w: &mut Ruled, f: &Form) -> Result<Outcome, NoMemory>
    ensures done { IfOk result (Did (theory_event w.old (changes_of f.now)) w.old w.new) }
    ensures alone { IfOk result (λ e. e.drops ≡ []) }
    ensures error { OnErr result (w.new ≡ w.old) }
{
    match changes_in(f) {
        Some(changes) => change(alloc, w, &changes),
        None => refused_alone(alloc, b"IN-THEORY", Refusal::BadEvent),
    }
}

/// The current theory with a name's runes disabled; an unknown name has none.
fn theory_without(alloc: Global, w: &World, name: &Symbol) -> Result<Theory, NoMemory>
    ensures { IfOk result (λ h. h ≡ (without_name name.now w.now).theory) }
{
    let theory = w.theory();
    match runes_named(alloc, w, name)? {
        Some(runes) => changed_runes(alloc, &[], runes.as_slice(), theory),
        None => changed_runes(alloc, &[], &[], theory),
    }
}

/// What a world goes back to: its first entries, by their number, and a theory.
#[derive(Drop)]
pub struct Before {
    pub count: usize,
    pub theory: Theory,
}

/// A world as it is now, to go back to. No entry is copied. The only error is want of memory.
pub fn remember(alloc: Global, w: &Ruled) -> Result<Before, NoMemory>
    ensures { IfOk result (λ b. (b.count ≡ length w.now.entries) × (b.theory ≡ w.now.theory)) }
{
    let world = w.world();
    let theory = copy_theory(alloc, world.theory())?;
    Ok(Before {
        count: world.count(),
        theory,
    })
}

/// Disables a name. Where memory is wanting the world goes back.
pub(crate) fn disable(
    alloc: Global,
    w: &mut Ruled,
    name: &Symbol,
    before: Before,
) -> Result<(), NoMemory>
    requires sound { Sound (take before.count w.old.entries) }
    ensures ok { OnOk result (w.new ≡ without_name name.now w.old) }
    ensures err { OnErr result (w.new ≡ record { entries = take before.count w.old.entries; theory = before.theory }) }
{
    match theory_without(alloc, w.world(), name) {
        Ok(theory) => {
            w.set_theory(theory);
            Ok(())
        }
        Err(error) => {
            w.back_to(before.count, before.theory);
            Err(error)
        }
    }
}
