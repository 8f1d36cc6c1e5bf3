//! Functions: what an event states, what that owes, and the function in the world.
ghost use Rattle.std.specs.Prelude.{◌≡◌, [], cond, is_some, Some, None, IfErr, IfOk, OnOk, OnErr, false};
ghost use Rattle.ap_list.specs.Lists.{Each};
ghost use Rattle.ap_world.specs.declared.entry.Entry.TheVariants as entry;
ghost use Rattle.ap_world.specs.Meaning.{Valid};
ghost use Rattle.ap_world.specs.Recursion.{measure_of};
ghost use Rattle.ap_world.specs.Sound.{HasFunctions, Sound};
ghost use Rattle.ap_world.specs.World.{added, function_of, has_name};
ghost use Rattle.ap_world.specs.KeptTypes.{kept_types};
ghost use Rattle.ap_stated.specs.Definitions.{unmeasured, terminating, formed_definition, stated_definition, numbered, owed_by, measure_text, function_by, function_in, Ends, IsDefinition};
ghost use Rattle.ap_stated.specs.Shapes.{as_defined};
ghost use Rattle.ap_stated.specs.Texts.{obligation_line};

use crate::owed::Owed;
use crate::refusing::{Refusal, as_translated};
use crate::shapes::Definition;
use crate::taken::is_taken;
use crate::texts;
use crate::translating::translated;
use ap_list::{Bytes, NoMemory, Seq};
use ap_rules::Ruled;
use ap_term::{Clause, copy_terms};
use ap_terminate::{TerminateError, has_no_call, measure_for, obligations};
use ap_types::kept_mask;
use ap_world::{AddError, Case, Defun, Function, Mask, Measure};
use std::alloc::{AllocError, Global};

/// A definition that ends: the measure by which it does, if it calls itself.
#[derive(Drop)]
pub struct Terminating {
    pub definition: Defun,
    pub measure: Option<Measure>,
}

/// The measure of a definition that calls itself, or why it has none.
fn measure(alloc: Global, w: &Ruled, d: &Defun) -> Result<Result<Measure, TerminateError>, NoMemory>
    ensures made { IfOk result (λ r. IfOk r (λ m. measure_of d.now ≡ Some m.0)) }
    ensures none { IfOk result (λ r. IfErr r (λ e. (measure_of d.now ≡ None) × (unmeasured d.now ≡ e))) }
{
    match measure_for(alloc, w.world(), d) {
        Ok(m) => Ok(Ok(m)),
        Err(TerminateError::NestedRecursion) => Ok(Err(TerminateError::NestedRecursion)),
        Err(TerminateError::BadMeasure) => Ok(Err(TerminateError::BadMeasure)),
        Err(TerminateError::NoMeasure) => Ok(Err(TerminateError::NoMeasure)),
        Err(TerminateError::NoMemory) => Err(AllocError),
    }
}

/// A definition with its measure, if it calls itself; it is refused where it calls itself and has none.
fn with_measure(
    alloc: Global,
    w: &Ruled,
    d: Defun,
) -> Result<Result<Terminating, Refusal>, NoMemory>
    ensures made { IfOk result (λ r. r ≡ terminating d) }
    ensures same { IfOk result (λ r. IfOk r (λ t. t.definition ≡ d)) }
    ensures ends { IfOk result (λ r. IfOk r (λ t. Ends d t.measure)) }
{
    if has_no_call(&d.name, &d.body) {
        return Ok(Ok(Terminating {
            definition: d,
            measure: None,
        }));
    }
    match measure(alloc, w, &d)? {
        Ok(m) => Ok(Ok(Terminating {
            definition: d,
            measure: Some(m),
        })),
        Err(error) => Ok(Err(Refusal::Termination(error))),
    }
}

/// The definition that an event states, where its name is free.
fn untaken(
    alloc: Global,
    w: &mut Ruled,
    definition: &Definition<'_>,
) -> Result<Result<Terminating, Refusal>, NoMemory>
    requires functions { HasFunctions (function_of w.old.entries) }
    requires free { has_name w.old.entries definition.now.name.now ≡ false }
    ensures same { w.new ≡ w.old }
    ensures made { IfOk result (λ r. r ≡ formed_definition w.old (as_defined definition.now)) }
    ensures stands { IfOk result (λ r. IfOk r (IsDefinition w.old)) }
{
    match as_translated(translated(alloc, w, definition))? {
        Ok(d) => with_measure(alloc, w, d),
        Err(refusal) => Ok(Err(refusal)),
    }
}

/// The definition that an event states in a world, with its measure, or why it is refused: guards are to be verified, its
/// name is taken, a part of it is no term, or it calls itself and has no measure. The world is as it was.
pub fn stated_definition(
    alloc: Global,
    w: &mut Ruled,
    definition: &Definition<'_>,
) -> Result<Result<Terminating, Refusal>, NoMemory>
    requires functions { HasFunctions (function_of w.old.entries) }
    ensures same { w.new ≡ w.old }
    ensures made { IfOk result (λ r. r ≡ stated_definition w.old (as_defined definition.now)) }
    ensures stands { IfOk result (λ r. IfOk r (IsDefinition w.old)) }
{
    if definition.xargs.verify {
        return Ok(Err(Refusal::GuardsAsked));
    }
    if is_taken(w, definition.name) {
        return Ok(Err(Refusal::NameTaken));
    }
    untaken(alloc, w, definition)
}

/// An obligation that has this number.
fn obligation(alloc: Global, k: usize, clause: &Clause) -> Result<Owed, NoMemory>
    ensures { IfOk result (λ o. o ≡ record { heading = obligation_line k; clause = clause.now }) }
{
    let heading = texts::obligation_line(alloc, k)?;
    let clause = Clause(copy_terms(alloc, clause.0.as_slice())?);
    Ok(Owed { heading, clause })
}

/// Obligations, each with the line of its number.
fn numbered(alloc: Global, clauses: &[Clause]) -> Result<Seq<Owed>, NoMemory>
    ensures { IfOk result (λ os. os ≡ numbered 1 clauses.now) }
{
    let mut owed = Seq::new(alloc);
    for i in 0..clauses.len() {
        owed.push(obligation(alloc, i + 1, &clauses[i])?)?;
    }
    Ok(owed)
}

/// What a definition owes by its measure.
fn owed_by(alloc: Global, d: &Defun, m: &Measure) -> Result<Seq<Owed>, NoMemory>
    ensures { IfOk result (λ os. os ≡ owed_by d.now (Some m.now)) }
{
    let clauses = obligations(alloc, d, m)?;
    numbered(alloc, clauses.as_slice())
}

/// What a definition owes: nothing, or its obligations by its measure.
pub fn owed_definition(alloc: Global, t: &Terminating) -> Result<Seq<Owed>, NoMemory>
    ensures { IfOk result (λ os. os ≡ owed_by t.now.definition t.now.measure) }
{
    match &t.measure {
        Some(m) => owed_by(alloc, &t.definition, m),
        None => Ok(Seq::new(alloc)),
    }
}

/// What a definition prints before its obligations: the line of its measure, if it has one.
pub fn measure_text(alloc: Global, t: &Terminating) -> Result<Bytes, NoMemory>
    ensures { IfOk result (λ text. text ≡ measure_text t.now.measure) }
{
    match &t.measure {
        Some(m) => texts::measure_line(alloc, m.0.as_slice()),
        None => Ok(Bytes::new(alloc)),
    }
}

/// The mask that a definition's body gives back in a world.
fn kept(alloc: Global, w: &Ruled, d: &Defun) -> Result<Mask, NoMemory>
    ensures sound { Sound w.now.entries }
    ensures mask { IfOk result (λ k. k ≡ record { 0 = kept_types w.now d.now.name d.now.body }) }
{
    let world = w.world();
    world.recall_sound();
    kept_mask(alloc, world, &d.name, &d.body)
}

/// The cases that a function keeps: those of its definition, where it has a measure.
fn kept_cases(alloc: Global, cases: Seq<Case>, measure: &Option<Measure>) -> Seq<Case>
    ensures { result ≡ cond (is_some measure.now) cases [] }
{
    match measure {
        Some(_) => cases,
        None => Seq::new(alloc),
    }
}

/// The function of a definition: it keeps its measure, and the cases where it has one.
fn made_function(alloc: Global, t: Terminating, mask: Mask) -> Function
    ensures { result ≡ function_by t.definition t.measure mask }
{
    let Terminating {
        definition,
        measure,
    } = t;
    let Defun {
        name,
        formals,
        body,
        measure: _,
        cases,
    } = definition;
    let cases = kept_cases(alloc, cases, &measure);
    Function {
        name,
        formals,
        body,
        measure,
        cases,
        mask,
    }
}

/// Adds the function of a definition that was stated in the world, and whose obligations are valid. Where memory is
/// wanting the world is as it was.
pub fn add_definition(alloc: Global, w: &mut Ruled, t: Terminating) -> Result<(), NoMemory>
    requires functions { HasFunctions (function_of w.old.entries) }
    requires stated { IsDefinition w.old t }
    requires valid { Each (λ o. Valid (function_of w.old.entries) o.clause.0) (owed_by t.definition t.measure) }
    ensures ok { OnOk result (w.new ≡ added w.old (entry.Function (function_in w.old t))) }
    ensures err { OnErr result (w.new ≡ w.old) }
{
    let mask = kept(alloc, w, &t.definition)?;
    match w.add_function(alloc, made_function(alloc, t, mask)) {
        Ok(()) => Ok(()),
        Err(AddError::NoMemory) => Err(AllocError),
        Err(AddError::NameTaken) => unreachable!(),
    }
}
