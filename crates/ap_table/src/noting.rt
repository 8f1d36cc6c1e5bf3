//! The notes of what was dropped.
ghost use Rattle.std.specs.Prelude.{◌≡◌, ◌<◌, Some, length, IfOk};
ghost use Rattle.std.specs.List.{slice_get};
ghost use Rattle.ap_table.specs.declared.stored.Stored.{Stored};
ghost use Rattle.ap_table.specs.Ended.{AreNotes, CanNote, CanNoteAll, IsKeptNote};

use crate::link::{DropNote, License};
use crate::stored::{Entry, Stored};
use ap_list::{NoMemory, Seq};
use ap_names::GoalName;
use ap_walk::Step;
use std::alloc::Global;

/// The name of a node's goal.
fn name_at<S: Step>(
    alloc: Global,
    step: &S,
    nodes: &Vec<Stored<S::Task>>,
    i: usize,
) -> Result<GoalName, NoMemory>
    requires { i < length nodes.now.items }
    ensures { IfOk result (λ given. (c : Stored S.Task) → slice_get nodes.now.items i ≡ Some c → given ≡ S.name c.task) }
{
    step.name_of(alloc, &nodes[i].task)
}

/// The note of a node that was dropped by a licence.
fn note<S: Step>(
    alloc: Global,
    step: &S,
    nodes: &Vec<Stored<S::Task>>,
    node: u32,
    license: License,
) -> Result<DropNote, NoMemory>
    requires { CanNote nodes.now.items node license }
    ensures { IfOk result (λ d. IsKeptNote S.name nodes.now.items node license d) }
{
    let first = nodes[license.family as usize].first;
    let sibling = first as usize + license.index as usize;
    let dropped = name_at(alloc, step, nodes, node as usize)?;
    let stopped = name_at(alloc, step, nodes, sibling)?;
    Ok(DropNote {
        dropped,
        stopped,
        license,
    })
}

/// The notes of the drops of a history, in their order.
pub(crate) fn notes<S: Step>(
    alloc: Global,
    step: &S,
    nodes: &Vec<Stored<S::Task>>,
    history: &[Entry],
) -> Result<Seq<DropNote>, NoMemory>
    requires { CanNoteAll nodes.now.items history.now }
    ensures { IfOk result (λ ds. AreNotes (IsKeptNote S.name nodes.now.items) history.now ds) }
{
    let mut notes = Seq::new(alloc);
    for place in 0..history.len() {
        if let Entry::Dropped(node, license) = history[place] {
            let one = note(alloc, step, nodes, node, license)?;
            notes.push(one)?;
        }
    }
    Ok(notes)
}
