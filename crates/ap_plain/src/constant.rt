//! The event of a constant.
ghost use Rattle.std.specs.Prelude.{◌≡◌, [], IfOk, OnOk, OnErr, false, option_map};
ghost use Rattle.ap_world.specs.declared.entry.Entry.TheVariants as entry;
ghost use Rattle.ap_world.specs.World.{added, has_name};
ghost use Rattle.ap_translate.specs.Written.{written};
ghost use Rattle.ap_plain.specs.Constants.{constant_title, valued_constant, stated_constant, written_constant, constant_event};
ghost use Rattle.ap_plain.specs.Ends.{Did};
ghost use Rattle.ap_stated.specs.Shapes.{constant_of};

use crate::end::{Outcome, refused_alone, without_drops};
use ap_list::NoMemory;
use ap_reader::Form;
use ap_rules::Ruled;
use ap_stated::{Constant, Refusal, constant_in, is_taken, texts};
use ap_translate::{TransError, constant_value};
use ap_value::{Symbol, Value, copy_symbol};
use ap_world::AddError;
use std::alloc::{AllocError, Global};

/// Adds a constant whose name is free. Where memory is wanting the world is as it was.
fn add_constant(alloc: Global, w: &mut Ruled, name: &Symbol, value: Value) -> Result<(), NoMemory>
    requires free { has_name w.old.entries name.now ≡ false }
    ensures ok { OnOk result (w.new ≡ added w.old (entry.Constant name.now value)) }
    ensures err { OnErr result (w.new ≡ w.old) }
{
    let name = copy_symbol(alloc, name)?;
    match w.add_constant(alloc, name, value) {
        Ok(()) => Ok(()),
        Err(AddError::NoMemory) => Err(AllocError),
        Err(AddError::NameTaken) => unreachable!(),
    }
}

/// Does the event of a constant whose name is free, by its title.
fn admit(
    alloc: Global,
    w: &mut Ruled,
    title: &[u8],
    name: &Symbol,
    value: Value,
) -> Result<Outcome, NoMemory>
    requires title { title.now ≡ constant_title name.now }
    requires free { has_name w.old.entries name.now ≡ false }
    ensures done { IfOk result (Did (valued_constant w.old name.now (Ok value)) w.old w.new) }
    ensures alone { IfOk result (λ e. e.drops ≡ []) }
    ensures error { OnErr result (w.new ≡ w.old) }
{
    let text = texts::said_line(alloc, title, b" admitted")?;
    add_constant(alloc, w, name, value)?;
    Ok(without_drops(alloc, text, true))
}

/// Does the event of a constant, by its value or by why it has none. A name that is taken is refused first.
fn state(
    alloc: Global,
    w: &mut Ruled,
    name: &Symbol,
    value: Result<Value, Refusal>,
) -> Result<Outcome, NoMemory>
    ensures done { IfOk result (Did (valued_constant w.old name.now (stated_constant w.old name.now value)) w.old w.new) }
    ensures alone { IfOk result (λ e. e.drops ≡ []) }
    ensures error { OnErr result (w.new ≡ w.old) }
{
    let title = texts::title(alloc, b"DEFCONST", name)?;
    if is_taken(w, name) {
        return refused_alone(alloc, title.as_slice(), Refusal::NameTaken);
    }
    match value {
        Ok(value) => admit(alloc, w, title.as_slice(), name, value),
        Err(refusal) => refused_alone(alloc, title.as_slice(), refusal),
    }
}

/// Does the event of a constant, by what it states.
#[tactic(auto, unfolding(crate::specs::Constants::written_constant))]
fn written_constant(
    alloc: Global,
    w: &mut Ruled,
    stated: &Constant<'_>,
) -> Result<Outcome, NoMemory>
    ensures done { IfOk result (Did (written_constant w.old stated.now.name.now (written stated.now.value.now)) w.old w.new) }
    ensures alone { IfOk result (λ e. e.drops ≡ []) }
    ensures error { OnErr result (w.new ≡ w.old) }
{
    match constant_value(alloc, stated.value) {
        Ok(Some(value)) => state(alloc, w, stated.name, Ok(value)),
        Ok(None) => refused_alone(alloc, b"DEFCONST", Refusal::BadEvent),
        Err(TransError::NoMemory) => Err(AllocError),
        Err(TransError::Fault { kind, .. }) => {
            state(alloc, w, stated.name, Err(Refusal::Translation(kind)))
        }
    }
}

/// Does a constant's event, `defconst`: it is refused where its shape is bad, its name is taken, or its value isn't one
/// that is written. Where it is refused, or memory is wanting, the world is as it was. See the manual's topic `defconst`.
#[tactic(auto, unfolding(crate::specs::Constants::constant_event))]
pub fn constant_event(alloc: Global, w: &mut Ruled, f: &Form) -> Result<Outcome, NoMemory>
    ensures done { IfOk result (Did (constant_event w.old (constant_of f.now)) w.old w.new) }
    ensures alone { IfOk result (λ e. e.drops ≡ []) }
    ensures error { OnErr result (w.new ≡ w.old) }
{
    match constant_in(f) {
        Some(stated) => written_constant(alloc, w, &stated),
        None => refused_alone(alloc, b"DEFCONST", Refusal::BadEvent),
    }
}
