//! The end of a table: the pieces of the kept walks, put together in serial order. The nodes are taken from the
//! last to the first, so that the pieces of a node's children stand ready before it comes; each is moved and
//! none is copied.
ghost use Rattle.std.specs.Prelude.{◌≡◌, ◌⊎◌, ◌∷◌, ◌++◌, ◌+◌, ◌-◌, ◌≤◌, ◌<◌, [], ℕ, true, IfOk, OnOk, Some, None, Option, List, length};
ghost use Rattle.std.specs.List.{slice_get};
ghost use Rattle.ap_walk.specs.Visits.{Visit};
ghost use Rattle.ap_table.specs.Live.{done_at};
ghost use Rattle.ap_table.specs.Sums.{HasKids};
ghost use Rattle.ap_table.specs.Ended.{own_marks, marks_at, slots_front, piece_of, Trees, MakesUp};

use crate::stored::{Stage, Stored};
use ap_list::{NoMemory, Seq};
use ap_walk::Mark;
use std::alloc::Global;
use std::mem;

/// What a slot holds. It is empty then.
fn taken<T: Drop>(slots: &mut Vec<Option<Seq<Mark<T>>>>, i: usize) -> Option<Seq<Mark<T>>>
    requires { i < length slots.old.items }
    ensures is { slice_get slots.old.items i ≡ Some result }
    ensures others { (j : ℕ) → (j ≡ i → ⊥) → slice_get slots.new.items j ≡ slice_get slots.old.items j }
    ensures long { length slots.new.items ≡ length slots.old.items }
{
    let slot = &mut slots[i];
    mem::replace(slot, None)
}

/// Puts the pieces of consecutive nodes, up to the first that has none, behind others. The slot of each stands
/// before that of the node before it; the first one's is the last below `top`.
fn join<T: Drop>(
    slots: &mut Vec<Option<Seq<Mark<T>>>>,
    top: usize,
    count: usize,
    marks: Seq<Mark<T>>,
) -> Result<Seq<Mark<T>>, NoMemory>
    requires fits { count ≤ top }
    requires there { 0 < count → top ≤ length slots.old.items }
    ensures marks { IfOk result (λ all. all ≡ marks ++ slots_front slots.old.items top count) }
    ensures others { (j : ℕ) → (j + count < top) ⊎ (top ≤ j) → slice_get slots.new.items j ≡ slice_get slots.old.items j }
    ensures long { length slots.new.items ≡ length slots.old.items }
{
    let mut marks = marks;
    for place in 0..count {
        let Some(more) = taken(slots, top - place - 1) else {
            return Ok(marks);
        };
        marks.append(more)?;
    }
    Ok(marks)
}

/// A node's own mark alone, or none.
fn own_alone<T: Drop>(alloc: Global, own: Option<Mark<T>>) -> Result<Seq<Mark<T>>, NoMemory>
    ensures { IfOk result (λ marks. marks ≡ own_marks own) }
{
    let mut marks = Seq::new(alloc);
    if let Some(mark) = own {
        marks.push(mark)?;
    }
    Ok(marks)
}

/// What is kept of a node, where it is done: its walk where it was put, else its own mark and the pieces of its
/// children up to the first that isn't done. The slots are those of the nodes behind it, of so many in all.
fn piece<T: Drop>(
    alloc: Global,
    slots: &mut Vec<Option<Seq<Mark<T>>>>,
    total: usize,
    node: Stored<T>,
) -> Result<Option<Seq<Mark<T>>>, NoMemory>
    requires fits { HasKids node.stage → node.first + node.count ≤ total }
    requires there { HasKids node.stage → 0 < node.count → total ≤ length slots.old.items + node.first }
    ensures piece { IfOk result (λ own. own ≡ piece_of slots.old.items total node) }
    ensures others { (j : ℕ) → (HasKids node.stage → (j + node.first + node.count < total) ⊎ (total ≤ j + node.first)) → slice_get slots.new.items j ≡ slice_get slots.old.items j }
    ensures long { length slots.new.items ≡ length slots.old.items }
{
    let Stored {
        own,
        first,
        count,
        stage,
        ..
    } = node;
    match stage {
        Stage::Put(walked) => Ok(Some(walked.marks)),
        Stage::Closed(_) => {
            let marks = own_alone(alloc, own)?;
            let top = total - first as usize;
            let marks = join(slots, top, count as usize, marks)?;
            Ok(Some(marks))
        }
        _ => Ok(None),
    }
}

/// The marks that are kept of the root and of the nodes below it.
pub(crate) fn pieces<T: Drop>(
    alloc: Global,
    nodes: Vec<Stored<T>>,
) -> Result<Seq<Mark<T>>, NoMemory>
    requires trees { Trees nodes.items }
    requires makes { MakesUp nodes.items }
    requires root { (c : Stored T) × (slice_get nodes.items 0 ≡ Some c) × (c.path ≡ []) × (done_at nodes.items 0 ≡ true) }
    ensures { IfOk result (λ marks. marks ≡ marks_at nodes.items 4 0) }
{
    let mut nodes = nodes;
    let total = nodes.len();
    let mut slots = Vec::new(alloc);
    for place in 0..total {
        let Some(node) = nodes.pop() else {
            unreachable!()
        };
        let own = piece(alloc, &mut slots, total, node)?;
        slots.push(own)?;
    }
    let Some(marks) = taken(&mut slots, total - 1) else {
        unreachable!()
    };
    Ok(marks)
}
