//! Proposals: what an event with a name states once its tests are passed, and what that puts into the world.
ghost use Rattle.std.specs.Prelude.{◌≡◌, IfOk, OnOk, OnErr, false};
ghost use Rattle.ap_list.specs.Lists.{Each};
ghost use Rattle.ap_world.specs.Meaning.{Valid};
ghost use Rattle.ap_world.specs.Sound.{HasFunctions};
ghost use Rattle.ap_world.specs.World.{added, function_of};
ghost use Rattle.ap_plain.specs.Proposals.{proposed_theorem, proposed_definition, opening_of, owed_of, said_of, name_of, entry_in, put, IsStated};
ghost use Rattle.ap_stated.specs.Shapes.{as_stated, as_defined};

use crate::changes::{disable, remember};
use ap_list::{Bytes, NoMemory, Seq};
use ap_rules::Ruled;
use ap_stated::{
    Definition, Owed, Refusal, Statement, Terminating, add_definition, add_theorem, measure_text,
    owed_definition, owed_theorem, stated_definition, stated_theorem,
};
use ap_value::{Symbol, copy_symbol};
use ap_world::Theorem;
use std::alloc::Global;

/// What an event with a name states, once its tests are passed.
#[derive(Drop)]
pub enum Proposal {
    Theorem(Theorem),
    Function(Terminating),
}

/// The theorem that an event states in a world, or why it is refused: its name is taken, its term is none of the world, or
/// it gives no rules of its classes. The only error is want of memory.
pub fn proposed_theorem(
    alloc: Global,
    w: &Ruled,
    statement: &Statement<'_>,
) -> Result<Result<Proposal, Refusal>, NoMemory>
    requires functions { HasFunctions (function_of w.now.entries) }
    ensures made { IfOk result (λ r. r ≡ proposed_theorem w.now (as_stated statement.now)) }
    ensures stands { IfOk result (λ r. IfOk r (IsStated w.now)) }
{
    match stated_theorem(alloc, w, statement)? {
        Ok(theorem) => Ok(Ok(Proposal::Theorem(theorem))),
        Err(refusal) => Ok(Err(refusal)),
    }
}

/// The definition that an event states in a world, with its measure, or why it is refused: guards are to be verified, its
/// name is taken, a part of it is no term, or it calls itself and has no measure. The world is as it was. The only error
/// is want of memory.
pub fn proposed_definition(
    alloc: Global,
    w: &mut Ruled,
    definition: &Definition<'_>,
) -> Result<Result<Proposal, Refusal>, NoMemory>
    requires functions { HasFunctions (function_of w.old.entries) }
    ensures same { w.new ≡ w.old }
    ensures made { IfOk result (λ r. r ≡ proposed_definition w.old (as_defined definition.now)) }
    ensures stands { IfOk result (λ r. IfOk r (IsStated w.old)) }
{
    match stated_definition(alloc, w, definition)? {
        Ok(terminating) => Ok(Ok(Proposal::Function(terminating))),
        Err(refusal) => Ok(Err(refusal)),
    }
}

/// What a proposal owes.
pub(crate) fn owed_of(alloc: Global, proposal: &Proposal) -> Result<Seq<Owed>, NoMemory>
    ensures { IfOk result (λ os. os ≡ owed_of proposal.now) }
{
    match proposal {
        Proposal::Theorem(theorem) => owed_theorem(alloc, theorem),
        Proposal::Function(definition) => owed_definition(alloc, definition),
    }
}

/// The lines before a proposal's attempts.
pub(crate) fn opening_of(alloc: Global, proposal: &Proposal) -> Result<Bytes, NoMemory>
    ensures { IfOk result (λ text. text ≡ opening_of proposal.now) }
{
    match proposal {
        Proposal::Theorem(_) => Ok(Bytes::new(alloc)),
        Proposal::Function(definition) => measure_text(alloc, definition),
    }
}

/// What is said of a proposal that is put into the world.
pub(crate) fn said_of(proposal: &Proposal) -> &'static [u8]
    ensures { result.now ≡ said_of proposal.now }
{
    match proposal {
        Proposal::Theorem(_) => b" proved",
        Proposal::Function(_) => b" admitted",
    }
}

/// A proposal's name, lent.
fn name_of(proposal: &Proposal) -> &Symbol
    ensures { result.now ≡ name_of proposal.now }
{
    match proposal {
        Proposal::Theorem(theorem) => &theorem.name,
        Proposal::Function(terminating) => &terminating.definition.name,
    }
}

/// Adds what was stated in the world, and whose clauses are valid. Where memory is wanting the world is as it was.
fn add(alloc: Global, w: &mut Ruled, proposal: Proposal) -> Result<(), NoMemory>
    requires functions { HasFunctions (function_of w.old.entries) }
    requires stated { IsStated w.old proposal }
    requires valid { Each (λ o. Valid (function_of w.old.entries) o.clause.0) (owed_of proposal) }
    ensures ok { OnOk result (w.new ≡ added w.old (entry_in w.old proposal)) }
    ensures err { OnErr result (w.new ≡ w.old) }
{
    match proposal {
        Proposal::Theorem(theorem) => add_theorem(alloc, w, theorem),
        Proposal::Function(definition) => add_definition(alloc, w, definition),
    }
}

/// The same, and disables its name.
fn add_disabled(alloc: Global, w: &mut Ruled, proposal: Proposal) -> Result<(), NoMemory>
    requires functions { HasFunctions (function_of w.old.entries) }
    requires stated { IsStated w.old proposal }
    requires valid { Each (λ o. Valid (function_of w.old.entries) o.clause.0) (owed_of proposal) }
    ensures ok { OnOk result (w.new ≡ put false w.old proposal) }
    ensures err { OnErr result (w.new ≡ w.old) }
{
    w.world().recall_sound();
    let name = copy_symbol(alloc, name_of(&proposal))?;
    let before = remember(alloc, w)?;
    add(alloc, w, proposal)?;
    disable(alloc, w, &name, before)
}

/// Puts what was stated in the world into it, enabled or not, where the clauses that it owes are valid. Where memory is
/// wanting the world is as it was; there is no other error.
pub fn put(alloc: Global, w: &mut Ruled, enabled: bool, proposal: Proposal) -> Result<(), NoMemory>
    requires functions { HasFunctions (function_of w.old.entries) }
    requires stated { IsStated w.old proposal }
    requires valid { Each (λ o. Valid (function_of w.old.entries) o.clause.0) (owed_of proposal) }
    ensures ok { OnOk result (w.new ≡ put enabled w.old proposal) }
    ensures err { OnErr result (w.new ≡ w.old) }
{
    if enabled {
        add(alloc, w, proposal)
    } else {
        add_disabled(alloc, w, proposal)
    }
}
