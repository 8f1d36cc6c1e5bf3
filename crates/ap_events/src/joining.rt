//! Events one after another, and going back where one of them is refused.
ghost use Rattle.std.specs.Prelude.{◌≡◌, ◌≢◌, ◌++◌, [], codes, false, true, take, IfOk, OnOk, OnErr};
ghost use Rattle.ap_term.specs.Printed.{symbol_text};
ghost use Rattle.ap_world.specs.Sound.{Sound};
ghost use Rattle.ap_world.specs.World.{Shown};
ghost use Rattle.ap_plain.specs.Ends.{Done, Did, refused_alone};
ghost use Rattle.ap_stated.specs.Texts.{line};
ghost use Rattle.ap_events.specs.Books.{silent};
ghost use Rattle.ap_events.specs.Joining.{no_outcome, with_outcome, silenced, ended_by, back_in};
ghost use Rattle.ap_events.specs.Nested.{too_deep};

use ap_list::{Bytes, NoMemory};
use ap_plain::{Before, Outcome, Refusal, head, refused_alone, texts, without_drops};
use ap_reader::Form;
use ap_rules::Ruled;
use ap_value::Symbol;
use std::alloc::{AllocError, Global};

/// What no event comes to. Takes no memory.
pub(crate) fn nothing(alloc: Global) -> Outcome
    ensures { result ≡ no_outcome }
{
    without_drops(alloc, Bytes::new(alloc), true)
}

/// Adds what an event came to to what those before it did. More goals than a machine word counts is taken for want of
/// memory.
pub(crate) fn join(all: &mut Outcome, next: Outcome) -> Result<(), NoMemory>
    ensures { OnOk result (all.new ≡ with_outcome all.old next) }
{
    let Some(goals) = all.goals.checked_add(next.goals) else {
        return Err(AllocError);
    };
    all.text.extend(next.text.as_slice())?;
    all.drops.append(next.drops)?;
    all.goals = goals;
    all.admitted = next.admitted;
    Ok(())
}

/// Ends events that were done one after another: where one is refused, or memory was wanting, the world goes back.
pub(crate) fn settle(
    w: &mut Ruled,
    before: Before,
    done: Result<Outcome, NoMemory>,
) -> Result<Outcome, NoMemory>
    requires { Sound (take before.count w.old.entries) }
    ensures same { result ≡ done }
    ensures admitted { IfOk done (λ o. o.admitted ≡ true → w.new ≡ w.old) }
    ensures refused { IfOk done (λ o. o.admitted ≡ false → w.new ≡ back_in before w.old) }
    ensures error { OnErr done (w.new ≡ back_in before w.old) }
{
    match done {
        Ok(outcome) => {
            if !outcome.admitted {
                w.back_to(before.count, before.theory);
            }
            Ok(outcome)
        }
        Err(error) => {
            w.back_to(before.count, before.theory);
            Err(error)
        }
    }
}

/// What an event came to, without its text where it is admitted. Takes no memory.
pub(crate) fn silent(alloc: Global, outcome: Outcome) -> Outcome
    ensures { result ≡ silenced outcome }
{
    if !outcome.admitted {
        return outcome;
    }
    Outcome {
        text: Bytes::new(alloc),
        admitted: true,
        goals: outcome.goals,
        drops: outcome.drops,
    }
}

/// What a second pass prints that is refused, of an `encapsulate` or of a book, by the text of its events.
pub fn second_text(alloc: Global, text: &[u8]) -> Result<Bytes, NoMemory>
    ensures { IfOk result (λ t. t ≡ line (codes "Second pass") ++ text.now) }
{
    let mut all = Bytes::from_slice(alloc, b"Second pass\n")?;
    all.extend(text)?;
    Ok(all)
}

/// Ends a first pass by its second one, which has a text where it is refused.
pub(crate) fn ended_by(mut first: Outcome, second: Option<Bytes>) -> Result<Outcome, NoMemory>
    ensures made { IfOk result (λ o. o ≡ ended_by first second) }
    ensures error { OnErr result (second ≢ None) }
{
    let Some(text) = second else {
        return Ok(first);
    };
    first.text.extend(text.as_slice())?;
    first.admitted = false;
    Ok(first)
}

/// An event that is refused by the symbol at its head.
pub(crate) fn refused_head(
    alloc: Global,
    head: &Symbol,
    refusal: Refusal,
) -> Result<Outcome, NoMemory>
    ensures done { IfOk result (λ e. (w : Shown) → Did (refused_alone (symbol_text head.now) refusal) w w e) }
    ensures alone { IfOk result (λ e. e.drops ≡ []) }
{
    let title = texts::printed(alloc, head)?;
    refused_alone(alloc, title.as_slice(), refusal)
}

/// An event in which too many others are nested.
pub(crate) fn too_deep(alloc: Global, f: &Form) -> Result<Outcome, NoMemory>
    ensures done { IfOk result (λ e. (w : Shown) → Did (too_deep f.now) w w e) }
    ensures alone { IfOk result (λ e. e.drops ≡ []) }
{
    match head(f) {
        Some(head) => refused_head(alloc, head, Refusal::NotSupported),
        None => refused_alone(alloc, b"FORM", Refusal::NotSupported),
    }
}
