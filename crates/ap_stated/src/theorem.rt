//! Theorems: what an event states, and the theorem in the world.
ghost use Rattle.std.specs.Prelude.{◌≡◌, None, IfOk, IsTrue, OnOk, OnErr};
ghost use Rattle.ap_list.specs.Lists.{Each};
ghost use Rattle.ap_world.specs.declared.entry.Entry.TheVariants as entry;
ghost use Rattle.ap_world.specs.Meaning.{Valid};
ghost use Rattle.ap_world.specs.Sound.{known, HasFunctions};
ghost use Rattle.ap_world.specs.World.{added, function_of};
ghost use Rattle.ap_rules.specs.Refused.{refusal};
ghost use Rattle.ap_translate.specs.Table.{translated};
ghost use Rattle.ap_stated.specs.Refusals.{as_translated};
ghost use Rattle.ap_stated.specs.Shapes.{as_stated};
ghost use Rattle.ap_stated.specs.Theorems.{theorem_of, ruled, stated_theorem, owed_theorem, IsTheorem};

use crate::classes::classes_of;
use crate::owed::Owed;
use crate::refusing::{Refusal, as_translated};
use crate::shapes::Statement;
use crate::taken::is_taken;
use ap_clausify::flat;
use ap_list::{Bytes, NoMemory, Seq};
use ap_reader::Form;
use ap_rules::{RuleError, Ruled, rules_of};
use ap_term::Term;
use ap_translate::translate;
use ap_value::copy_symbol;
use ap_world::{AddError, Theorem};
use std::alloc::{AllocError, Global};

/// The term that a theorem's form is, or why it is none.
fn term_of(alloc: Global, w: &Ruled, form: &Form) -> Result<Result<Term, Refusal>, NoMemory>
    requires functions { HasFunctions (function_of w.now.entries) }
    ensures made { IfOk result (λ r. r ≡ as_translated (translated w.now.entries None form.now)) }
    ensures known { IfOk result (λ r. IfOk r (λ u. IsTrue (known (function_of w.now.entries) u))) }
{
    as_translated(translate(alloc, w.world(), form, None))
}

/// The theorem that a statement makes of its term.
fn theorem_of(alloc: Global, statement: &Statement<'_>, term: Term) -> Result<Theorem, NoMemory>
    ensures { IfOk result (λ t. t ≡ theorem_of (as_stated statement.now) term) }
{
    let classes = classes_of(alloc, statement.choices.classes)?;
    let name = copy_symbol(alloc, statement.name)?;
    Ok(Theorem {
        name,
        term,
        classes,
    })
}

/// Why a theorem gives no rules of its classes, if it gives none.
fn rule_refusal(alloc: Global, theorem: &Theorem) -> Result<Option<RuleError>, NoMemory>
    ensures { IfOk result (λ o. o ≡ refusal theorem.now.name theorem.now.term theorem.now.classes) }
{
    match rules_of(alloc, &theorem.name, &theorem.term, &theorem.classes) {
        Ok(_) => Ok(None),
        Err(RuleError::NoMemory) => Err(AllocError),
        Err(error) => Ok(Some(error)),
    }
}

/// A theorem, unless it gives no rules of its classes.
fn ruled(alloc: Global, theorem: Theorem) -> Result<Result<Theorem, Refusal>, NoMemory>
    ensures made { IfOk result (λ r. r ≡ ruled theorem) }
    ensures same { IfOk result (λ r. IfOk r (λ t. t ≡ theorem)) }
{
    match rule_refusal(alloc, &theorem)? {
        None => Ok(Ok(theorem)),
        Some(error) => Ok(Err(Refusal::Rule(error))),
    }
}

/// The theorem of a statement whose name is free.
fn classified(
    alloc: Global,
    statement: &Statement<'_>,
    term: Term,
) -> Result<Result<Theorem, Refusal>, NoMemory>
    ensures made { IfOk result (λ r. r ≡ ruled (theorem_of (as_stated statement.now) term)) }
    ensures same { IfOk result (λ r. IfOk r (λ t. t ≡ theorem_of (as_stated statement.now) term)) }
{
    let theorem = theorem_of(alloc, statement, term)?;
    ruled(alloc, theorem)
}

/// The theorem that an event states in a world, or why it is refused: its name is taken, its term is none of the world,
/// or it gives no rules of its classes.
pub fn stated_theorem(
    alloc: Global,
    w: &Ruled,
    statement: &Statement<'_>,
) -> Result<Result<Theorem, Refusal>, NoMemory>
    requires functions { HasFunctions (function_of w.now.entries) }
    ensures made { IfOk result (λ r. r ≡ stated_theorem w.now (as_stated statement.now)) }
    ensures stands { IfOk result (λ r. IfOk r (IsTheorem w.now)) }
{
    if is_taken(w, statement.name) {
        return Ok(Err(Refusal::NameTaken));
    }
    match term_of(alloc, w, statement.term)? {
        Ok(term) => classified(alloc, statement, term),
        Err(refusal) => Ok(Err(refusal)),
    }
}

/// What a theorem owes: its clause.
pub fn owed_theorem(alloc: Global, theorem: &Theorem) -> Result<Seq<Owed>, NoMemory>
    ensures { IfOk result (λ os. os ≡ owed_theorem theorem.now) }
{
    let clause = flat(alloc, &theorem.term)?;
    let mut owed = Seq::new(alloc);
    owed.push(Owed {
        heading: Bytes::new(alloc),
        clause,
    })?;
    Ok(owed)
}

/// Adds a theorem that was stated in the world, and whose clause is valid. Where memory is wanting the world is as it
/// was.
pub fn add_theorem(alloc: Global, w: &mut Ruled, theorem: Theorem) -> Result<(), NoMemory>
    requires functions { HasFunctions (function_of w.old.entries) }
    requires stated { IsTheorem w.old theorem }
    requires valid { Each (λ o. Valid (function_of w.old.entries) o.clause.0) (owed_theorem theorem) }
    ensures ok { OnOk result (w.new ≡ added w.old (entry.Theorem theorem)) }
    ensures err { OnErr result (w.new ≡ w.old) }
{
    w.world().recall_sound();
    let Theorem {
        name,
        term,
        classes,
    } = theorem;
    match w.add_theorem(alloc, name, term, classes) {
        Ok(()) => Ok(()),
        Err(AddError::NoMemory) => Err(AllocError),
        Err(AddError::NameTaken) => unreachable!(),
    }
}
