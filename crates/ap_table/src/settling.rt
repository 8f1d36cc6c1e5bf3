//! A finished node tells its family, which may close the node above it, and so on up to the root.
ghost use Rattle.std.specs.Prelude.{◌≡◌, ◌≤◌, ◌<◌, ℕ, List, Some, length};
ghost use Rattle.std.specs.List.{slice_get};
ghost use Rattle.ap_table.specs.declared.link.Link.{Link};
ghost use Rattle.ap_table.specs.declared.stored.Stored.{Stored};
ghost use Rattle.ap_table.specs.declared.stored.Stage.TheVariants as stage;
ghost use Rattle.ap_table.specs.Core.{Node};
ghost use Rattle.ap_table.specs.Shown.{alter};
ghost use Rattle.ap_table.specs.Sums.{closed_sum, closes_at, Within, WordsBut};
ghost use Rattle.ap_table.specs.Settled.{Ready, Settles, SettlesOne};

use crate::link::Link;
use crate::making::set_stage;
use crate::stored::{Stage, Stored, Told};
use crate::telling::counted;
use ap_walk::{Rule, Step, Tally};

/// The nearest family above a node, and the node's place in it.
fn nearest<T>(nodes: &Vec<Stored<T>>, i: usize) -> Option<Link>
    requires { i < length nodes.now.items }
    ensures { (c : Stored T) → slice_get nodes.now.items i ≡ Some c → result ≡ slice_get c.path 0 }
{
    nodes[i].path.get(0).copied()
}

/// Whether a node can be closed by what its children tell.
fn can_close<T>(nodes: &Vec<Stored<T>>, p: usize, told: Told) -> bool
    requires { p < length nodes.now.items }
    ensures { (c : Stored T) → slice_get nodes.now.items p ≡ Some c → result ≡ closes_at c told }
{
    let node = &nodes[p];
    let Stage::Expanded = &node.stage else {
        return false;
    };
    told.front == node.count || told.stop < told.front as u64
}

/// The tally of a node that is closed, where its walk goes through.
fn closed_sum(rule: Rule, told: Told) -> Option<Tally>
    requires { (told.sum.pushes ≤ told.sum.goals) × (told.sum.goals < rule.goal_limit) }
    ensures { result ≡ closed_sum rule told }
{
    if told.stop != u64::MAX {
        return None;
    }
    if told.sum.goals + 1 >= rule.goal_limit as u64 {
        return None;
    }
    Some(Tally {
        pushes: told.sum.pushes as u32,
        goals: told.sum.goals as u32 + 1,
    })
}

/// Keeps what a node's children tell.
fn set_told<T: Drop>(nodes: &mut Vec<Stored<T>>, i: usize, told: Told)
    requires { i < length nodes.old.items }
    ensures { nodes.new.items ≡ alter nodes.old.items i (λ c. record c { told = told }) }
{
    let node = &mut nodes[i];
    node.told = told;
}

/// Tells the nearest family above a node that it is finished. Answers the node above, where this closes it,
/// with its tally.
fn settle_one<S: Step>(
    rule: Rule,
    nodes: &mut Vec<Stored<S::Task>>,
    i: usize,
    sum: Option<Tally>,
) -> Option<(usize, Option<Tally>)>
    requires { (ns : List (Node S.Task)) × Ready S.step_of S.depth rule ns nodes.old.items i sum }
    ensures { SettlesOne S.step_of S.depth rule nodes.old.items nodes.new.items i sum result }
{
    let Some(link) = nearest(nodes, i) else {
        return None;
    };
    let p = link.family as usize;
    let node = &nodes[p];
    let told = counted(
        rule, nodes, node.first, node.count, node.told, link.place, sum,
    );
    let closes = can_close(nodes, p, told);
    set_told(nodes, p, told);
    if !closes {
        return None;
    }
    let sum = closed_sum(rule, told);
    set_stage(nodes, p, Stage::Closed(sum));
    Some((p, sum))
}

/// Tells the families above a node that it is finished, and closes the nodes that this closes. There are
/// three families at most.
pub(crate) fn settle<S: Step>(
    rule: Rule,
    nodes: &mut Vec<Stored<S::Task>>,
    i: usize,
    sum: Option<Tally>,
)
    requires ready { (ns : List (Node S.Task)) × Ready S.step_of S.depth rule ns nodes.old.items i sum }
    requires words { (path : List Link) × WordsBut path nodes.old.items × ((c : Stored S.Task) → slice_get nodes.old.items i ≡ Some c → Within c.path path) }
    requires levels { (c : Stored S.Task) → slice_get nodes.old.items i ≡ Some c → length c.path ≤ 3 }
    ensures { Settles S.step_of S.depth rule nodes.old.items nodes.new.items i sum }
{
    let Some((parent, sum)) = settle_one::<S>(rule, nodes, i, sum) else {
        return;
    };
    let Some((next, sum)) = settle_one::<S>(rule, nodes, parent, sum) else {
        return;
    };
    settle_one::<S>(rule, nodes, next, sum);
}
