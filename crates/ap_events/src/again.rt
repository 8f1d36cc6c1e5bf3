//! One event that holds no others, done again: without hints and without proofs. Nothing is printed where it is
//! admitted, and the refused line alone where not.
ghost use Rattle.std.specs.Prelude.{◌≡◌, List, [], codes, IfOk, OnErr, Ok, Some};
ghost use Rattle.ap_term.specs.Printed.{symbol_text};
ghost use Rattle.ap_world.specs.declared.entry.Entry.{Entry};
ghost use Rattle.ap_world.specs.Sound.{HasFunctions};
ghost use Rattle.ap_world.specs.World.{function_of};
ghost use Rattle.ap_plain.specs.Changes.{changes_of, theory_event};
ghost use Rattle.ap_plain.specs.Constants.{constant_event};
ghost use Rattle.ap_plain.specs.Ends.{Did, admitted};
ghost use Rattle.ap_plain.specs.Events.{kind_of};
ghost use Rattle.ap_plain.specs.Proposals.{IsStated, put};
ghost use Rattle.ap_stated.specs.Shapes.{as_defined, as_stated, constant_of, definition_of, statement_of};
ghost use Rattle.ap_events.specs.Backing.{Backed};
ghost use Rattle.ap_events.specs.Books.{again_event, asked_again, asks_of, book_of, definition_again, include_event, is_holder, kind_again, known_again, put_again, silent, theorem_again};

use crate::joining::{nothing, refused_head, silent};
use crate::kept::{KeptBook, include_event};
use ap_list::NoMemory;
use ap_plain::{
    Definition, Kind, Outcome, Proposal, Refusal, Statement, constant_event, definition_in, head,
    kind_of, proposed_definition, proposed_theorem, put, refused_alone, texts, theorem_in,
    theory_event,
};
use ap_reader::Form;
use ap_rules::Ruled;
use ap_value::{Symbol, is_named};
use std::alloc::Global;

/// Puts what is stated into the world, where a sound list of entries has what is made.
fn make_again(
    alloc: Global,
    w: &mut Ruled,
    enabled: bool,
    proposal: Proposal,
) -> Result<Outcome, NoMemory>
    requires functions { HasFunctions (function_of w.old.entries) }
    requires stated { IsStated w.old proposal }
    requires backed { (U : List Entry) × Backed (admitted (put enabled w.old proposal) [] []) w.old U }
    ensures done { IfOk result (Did (admitted (put enabled w.old proposal) [] []) w.old w.new) }
    ensures alone { IfOk result (λ e. e.drops ≡ []) }
    ensures error { OnErr result (w.new ≡ w.old) }
{
    w.world().recall_sound();
    put(alloc, w, enabled, proposal)?;
    Ok(nothing(alloc))
}

/// Does an event with a name again, by what it states or by why that is refused.
fn put_again(
    alloc: Global,
    w: &mut Ruled,
    title: &[u8],
    enabled: bool,
    stated: Result<Proposal, Refusal>,
) -> Result<Outcome, NoMemory>
    requires functions { HasFunctions (function_of w.old.entries) }
    requires stated { IfOk stated (IsStated w.old) }
    requires backed { (U : List Entry) × Backed (put_again w.old title.now enabled stated) w.old U }
    ensures done { IfOk result (Did (put_again w.old title.now enabled stated) w.old w.new) }
    ensures alone { IfOk result (λ e. e.drops ≡ []) }
    ensures error { OnErr result (w.new ≡ w.old) }
{
    match stated {
        Ok(proposal) => make_again(alloc, w, enabled, proposal),
        Err(refusal) => refused_alone(alloc, title, refusal),
    }
}

/// Does a theorem's event again, by what it states.
#[tactic(auto, unfolding(crate::specs::Books::theorem_again))]
fn stated_again(
    alloc: Global,
    w: &mut Ruled,
    statement: &Statement<'_>,
    enabled: bool,
) -> Result<Outcome, NoMemory>
    requires functions { HasFunctions (function_of w.old.entries) }
    requires backed { (U : List Entry) × Backed (theorem_again w.old enabled (Some (as_stated statement.now))) w.old U }
    ensures done { IfOk result (Did (theorem_again w.old enabled (Some (as_stated statement.now))) w.old w.new) }
    ensures alone { IfOk result (λ e. e.drops ≡ []) }
    ensures error { OnErr result (w.new ≡ w.old) }
{
    let title = texts::title(alloc, b"DEFTHM", statement.name)?;
    let stated = proposed_theorem(alloc, w, statement)?;
    put_again(alloc, w, title.as_slice(), enabled, stated)
}

/// Does the event of a theorem again, which is enabled or not.
#[tactic(auto, unfolding(crate::specs::Books::theorem_again))]
fn theorem_again(alloc: Global, w: &mut Ruled, f: &Form, enabled: bool) -> Result<Outcome, NoMemory>
    requires functions { HasFunctions (function_of w.old.entries) }
    requires backed { (U : List Entry) × Backed (theorem_again w.old enabled (statement_of f.now)) w.old U }
    ensures done { IfOk result (Did (theorem_again w.old enabled (statement_of f.now)) w.old w.new) }
    ensures alone { IfOk result (λ e. e.drops ≡ []) }
    ensures error { OnErr result (w.new ≡ w.old) }
{
    match theorem_in(f) {
        Some(statement) => stated_again(alloc, w, &statement, enabled),
        None => refused_alone(alloc, b"DEFTHM", Refusal::BadEvent),
    }
}

/// Does a definition's event again, by what it defines.
#[tactic(auto, unfolding(crate::specs::Books::definition_again))]
fn defined_again(
    alloc: Global,
    w: &mut Ruled,
    definition: &Definition<'_>,
    enabled: bool,
) -> Result<Outcome, NoMemory>
    requires functions { HasFunctions (function_of w.old.entries) }
    requires backed { (U : List Entry) × Backed (definition_again w.old enabled (Some (as_defined definition.now))) w.old U }
    ensures done { IfOk result (Did (definition_again w.old enabled (Some (as_defined definition.now))) w.old w.new) }
    ensures alone { IfOk result (λ e. e.drops ≡ []) }
    ensures error { OnErr result (w.new ≡ w.old) }
{
    let title = texts::title(alloc, b"DEFUN", definition.name)?;
    let stated = proposed_definition(alloc, w, definition)?;
    put_again(alloc, w, title.as_slice(), enabled, stated)
}

/// Does the event of a function again, which is enabled or not.
#[tactic(auto, unfolding(crate::specs::Books::definition_again))]
fn definition_again(
    alloc: Global,
    w: &mut Ruled,
    f: &Form,
    enabled: bool,
) -> Result<Outcome, NoMemory>
    requires functions { HasFunctions (function_of w.old.entries) }
    requires backed { (U : List Entry) × Backed (definition_again w.old enabled (definition_of f.now)) w.old U }
    ensures done { IfOk result (Did (definition_again w.old enabled (definition_of f.now)) w.old w.new) }
    ensures alone { IfOk result (λ e. e.drops ≡ []) }
    ensures error { OnErr result (w.new ≡ w.old) }
{
    match definition_in(f) {
        Some(definition) => defined_again(alloc, w, &definition, enabled),
        None => refused_alone(alloc, b"DEFUN", Refusal::BadEvent),
    }
}

/// Does the event of a constant again.
fn constant_again(alloc: Global, w: &mut Ruled, f: &Form) -> Result<Outcome, NoMemory>
    ensures done { IfOk result (Did (silent (constant_event w.old (constant_of f.now))) w.old w.new) }
    ensures alone { IfOk result (λ e. e.drops ≡ []) }
    ensures error { OnErr result (w.new ≡ w.old) }
{
    let done = constant_event(alloc, w, f)?;
    Ok(silent(alloc, done))
}

/// Does the event of a theory again.
fn theory_again(alloc: Global, w: &mut Ruled, f: &Form) -> Result<Outcome, NoMemory>
    ensures done { IfOk result (Did (silent (theory_event w.old (changes_of f.now))) w.old w.new) }
    ensures alone { IfOk result (λ e. e.drops ≡ []) }
    ensures error { OnErr result (w.new ≡ w.old) }
{
    let done = theory_event(alloc, w, f)?;
    Ok(silent(alloc, done))
}

/// Includes a book again.
fn book_again(
    alloc: Global,
    w: &mut Ruled,
    earlier: &[KeptBook],
    f: &Form,
) -> Result<Outcome, NoMemory>
    ensures done { IfOk result (Did (silent (include_event earlier.now w.old (book_of f.now))) w.old w.new) }
    ensures alone { IfOk result (λ e. e.drops ≡ []) }
    ensures error { OnErr result (w.new ≡ w.old) }
{
    let done = include_event(alloc, w, earlier, f)?;
    Ok(silent(alloc, done))
}

/// Does an event of a kind again.
#[tactic(auto, unfolding(crate::specs::Books::kind_again))]
fn kind_again(alloc: Global, w: &mut Ruled, f: &Form, kind: Kind) -> Result<Outcome, NoMemory>
    requires functions { HasFunctions (function_of w.old.entries) }
    requires backed { (U : List Entry) × Backed (kind_again w.old f.now kind) w.old U }
    ensures done { IfOk result (Did (kind_again w.old f.now kind) w.old w.new) }
    ensures alone { IfOk result (λ e. e.drops ≡ []) }
    ensures error { OnErr result (w.new ≡ w.old) }
{
    match kind {
        Kind::Theorem => theorem_again(alloc, w, f, true),
        Kind::DisabledTheorem => theorem_again(alloc, w, f, false),
        Kind::Function => definition_again(alloc, w, f, true),
        Kind::DisabledFunction => definition_again(alloc, w, f, false),
        Kind::Constant => constant_again(alloc, w, f),
        Kind::Theory => theory_again(alloc, w, f),
    }
}

/// Does an event that isn't a book's again, by the symbol at its head.
fn known_again(alloc: Global, w: &mut Ruled, f: &Form, head: &Symbol) -> Result<Outcome, NoMemory>
    requires functions { HasFunctions (function_of w.old.entries) }
    requires backed { (U : List Entry) × Backed (known_again w.old f.now head.now (kind_of head.now)) w.old U }
    ensures done { IfOk result (Did (known_again w.old f.now head.now (kind_of head.now)) w.old w.new) }
    ensures alone { IfOk result (λ e. e.drops ≡ []) }
    ensures error { OnErr result (w.new ≡ w.old) }
{
    match kind_of(head) {
        Some(kind) => kind_again(alloc, w, f, kind),
        None => refused_head(alloc, head, Refusal::NotSupported),
    }
}

/// Whether a symbol is at the head of what holds events. Takes no memory.
pub(crate) fn is_holder(head: &Symbol) -> bool
    ensures { result ≡ is_holder head.now }
{
    is_named(head, b"LOCAL") || is_named(head, b"PROGN") || is_named(head, b"ENCAPSULATE")
}

/// Does an event again, by the symbol at its head.
fn asked_again(
    alloc: Global,
    w: &mut Ruled,
    earlier: &[KeptBook],
    f: &Form,
    head: &Symbol,
) -> Result<Outcome, NoMemory>
    requires functions { HasFunctions (function_of w.old.entries) }
    requires backed { (U : List Entry) × Backed (asked_again earlier.now f.now w.old head.now (asks_of head.now)) w.old U }
    ensures done { IfOk result (Did (asked_again earlier.now f.now w.old head.now (asks_of head.now)) w.old w.new) }
    ensures alone { IfOk result (λ e. e.drops ≡ []) }
    ensures error { OnErr result (w.new ≡ w.old) }
{
    if is_named(head, b"INCLUDE-BOOK") {
        book_again(alloc, w, earlier, f)
    } else if is_holder(head) {
        refused_head(alloc, head, Refusal::BadEvent)
    } else {
        known_again(alloc, w, f, head)
    }
}

/// Does an event again that holds no others, in a world with the index of its rules, without hints and without
/// proofs: a sound list of entries has what is made. Nothing is printed where it is admitted, and the refused line
/// alone where not. Where it is refused, or memory is wanting, the world is as it was.
#[tactic(auto, unfolding(crate::specs::Books::again_event))]
pub(crate) fn again_event(
    alloc: Global,
    w: &mut Ruled,
    earlier: &[KeptBook],
    f: &Form,
) -> Result<Outcome, NoMemory>
    requires functions { HasFunctions (function_of w.old.entries) }
    requires backed { (U : List Entry) × Backed (again_event earlier.now f.now w.old) w.old U }
    ensures done { IfOk result (Did (again_event earlier.now f.now w.old) w.old w.new) }
    ensures alone { IfOk result (λ e. e.drops ≡ []) }
    ensures error { OnErr result (w.new ≡ w.old) }
{
    match head(f) {
        Some(head) => asked_again(alloc, w, earlier, f, head),
        None => refused_alone(alloc, b"FORM", Refusal::NotSupported),
    }
}
