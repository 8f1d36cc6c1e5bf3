//! One visit of a walk, and what is left to visit.
ghost use Rattle.std.specs.Prelude.{◌≡◌, ◌++◌, reverse, OnOk};
ghost use Rattle.ap_walk.specs.Visits.{Tells, child_count, out_children, visit_of};
ghost use Rattle.ap_walk.specs.Tallies.{IsOpen};
ghost use Rattle.ap_walk.specs.Walks.{before, one_mark};

use ap_walk::{Act, End, Mark, NoMemory, Out, Rule, Seq, Walked, cut_from};
use std::alloc::Global;

/// What a mark tells of its children.
fn count_of<T>(out: &Out<T>) -> u32
    ensures { result ≡ child_count out.now }
{
    match out {
        Out::Split(children) => u32::try_from(children.len()).unwrap_or(u32::MAX),
        Out::Push => 0,
        Out::Stop(reason) => reason.number(),
    }
}

/// The mark of a task whose step this was.
pub(crate) fn mark_of<T>(task: T, act: Act, out: &Out<T>) -> Mark<T>
    requires { Tells act.process out.now }
    ensures { result ≡ visit_of task (record { act = act; out = out.now }) }
{
    let children = count_of(out);
    Mark {
        task,
        act,
        children,
    }
}

/// Adds a visit to a walk. The cut of its one mark tells what it counts, and whether the walk ends there.
pub(crate) fn visit<T: Drop>(
    alloc: Global,
    rule: Rule,
    so_far: &mut Walked<T>,
    mark: Mark<T>,
) -> Result<(), NoMemory>
    requires { IsOpen rule so_far.old.tally }
    ensures walked { OnOk result (so_far.new ≡ before so_far.old.marks (one_mark rule so_far.old.tally mark)) }
    ensures opened { OnOk result (so_far.new.end ≡ End.Through → IsOpen rule so_far.new.tally) }
{
    let mut alone = Seq::new(alloc);
    alone.push(mark)?;
    let Walked { marks, tally, end } = cut_from(so_far.tally, alone, rule);
    so_far.marks.append(marks)?;
    so_far.tally = tally;
    so_far.end = end;
    Ok(())
}

/// Puts what came of a task before the tasks that are left, of which the next one stands last.
pub(crate) fn leave<T: Drop>(left: &mut Vec<T>, out: Out<T>) -> Result<(), NoMemory>
    ensures { OnOk result (reverse left.new.items ≡ out_children out ++ reverse left.old.items) }
{
    let Out::Split(children) = out else {
        return Ok(());
    };
    let mut children = children.into_vec();
    children.reverse();
    left.append(&mut children)
}
