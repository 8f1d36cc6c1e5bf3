//! The marks of a put: each family above the node whose stop is known.
ghost use Rattle.std.specs.Prelude.{◌≡◌, ◌≢◌, ◌≤◌, ◌<◌, ◌↔◌, ◌+◌, ◌++◌, IsTrue, length, min, Some, vec_capacity};
ghost use Rattle.std.specs.List.{slice_get};
ghost use Rattle.ap_walk.specs.Visits.{out_children};
ghost use Rattle.ap_walk.specs.Walks.{full};
ghost use Rattle.ap_word.specs.Stops.{NONE};
ghost use Rattle.ap_table.specs.declared.link.Link.{Link};
ghost use Rattle.ap_table.specs.declared.stored.Stored.{Stored};
ghost use Rattle.ap_table.specs.Shown.{alter};
ghost use Rattle.ap_table.specs.Settled.{told_stop, mark_nodes, mark_list, split_count};

use crate::link::Link;
use crate::making::has_room;
use crate::stored::{Entry, Stored};
use ap_walk::{Process, Rule, Step, Walked};

/// Sets the word of a family.
fn set_word<T: Drop>(nodes: &mut Vec<Stored<T>>, i: usize, word: u64)
    requires { i < length nodes.old.items }
    ensures { nodes.new.items ≡ alter nodes.old.items i (λ c. record c { word = word }) }
{
    let node = &mut nodes[i];
    node.word = word;
}

/// The family at a place of a node's path.
fn link_at<T>(nodes: &Vec<Stored<T>>, i: usize, at: usize) -> Option<Link>
    requires { i < length nodes.now.items }
    ensures { (c : Stored T) → slice_get nodes.now.items i ≡ Some c → result ≡ slice_get c.path at }
{
    nodes[i].path.get(at).copied()
}

/// Marks the family at a place of a node's path, where it is known to stop.
pub(crate) fn mark_one<T: Drop>(
    nodes: &mut Vec<Stored<T>>,
    history: &mut Vec<Entry>,
    i: usize,
    at: usize,
)
    requires there { i < length nodes.old.items }
    requires family { (c : Stored T) (l : Link) → slice_get nodes.old.items i ≡ Some c → slice_get c.path at ≡ Some l → l.family < length nodes.old.items }
    requires small { (c : Stored T) (l : Link) → slice_get nodes.old.items i ≡ Some c → slice_get c.path at ≡ Some l → told_stop (slice_get nodes.old.items l.family) ≢ NONE → told_stop (slice_get nodes.old.items l.family) < 4294967296 }
    requires room { length history.old.items < vec_capacity history.old }
    ensures nodes { (c : Stored T) → slice_get nodes.old.items i ≡ Some c → nodes.new.items ≡ mark_nodes nodes.old.items (slice_get c.path at) }
    ensures history { (c : Stored T) → slice_get nodes.old.items i ≡ Some c → history.new.items ≡ history.old.items ++ mark_list nodes.old.items (slice_get c.path at) }
    ensures capacity { vec_capacity history.new ≡ vec_capacity history.old }
{
    let Some(link) = link_at(nodes, i, at) else {
        return;
    };
    let family = link.family as usize;
    let stop = nodes[family].told.stop;
    if stop == u64::MAX {
        return;
    }
    set_word(nodes, family, stop);
    history.push_reserved(Entry::Marked(link.family, stop as u32));
}

/// How many children a first mark tells: none where the task was pushed or the walk stopped.
fn split_count(process: Process, children: u32) -> u32
    ensures { result ≡ split_count process children }
{
    match process {
        Process::Push => 0,
        Process::Stop => 0,
        _ => children,
    }
}

/// How many children the step of a task has, by the first mark of its walk.
fn child_count<S: Step>(rule: Rule, walked: &Walked<S::Task>) -> u32
    requires { (t : S.Task) × (walked.now ≡ full S.step_of S.depth rule t) }
    ensures { (t : S.Task) → walked.now ≡ full S.step_of S.depth rule t → result ≡ min (length (out_children (S.step_of t).out)) 4294967295 }
{
    let Some(mark) = walked.marks.get(0) else {
        return 0;
    };
    split_count(mark.act.process, mark.children)
}

/// Whether a node can still be expanded, by the first mark of its task's walk.
pub(crate) fn can_expand<S: Step>(
    rule: Rule,
    nodes: &Vec<Stored<S::Task>>,
    i: usize,
    walked: &Walked<S::Task>,
) -> bool
    requires there { i < length nodes.now.items }
    requires walk { (c : Stored S.Task) → slice_get nodes.now.items i ≡ Some c → walked.now ≡ full S.step_of S.depth rule c.task }
    ensures { IsTrue result ↔ ((c : Stored S.Task) × (slice_get nodes.now.items i ≡ Some c) × (2 ≤ length (out_children (S.step_of c.task).out)) × (length c.path < 3) × (length nodes.now.items + length (out_children (S.step_of c.task).out) ≤ 1000000)) }
{
    let count = child_count::<S>(rule, walked);
    if count < 2 {
        return false;
    }
    has_room(nodes, i, count as usize)
}
