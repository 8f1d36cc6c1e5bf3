//! Single steps on the kept nodes.
ghost use Rattle.std.specs.Prelude.{◌≡◌, true, ℕ, ◌+◌, ◌*◌, ◌<◌, ◌≤◌, ◌↔◌, ◌∷◌, ◌++◌, List, length, IsTrue, IfOk, OnOk, OnErr, Some, vec_len, vec_capacity};
ghost use Rattle.std.specs.List.{slice_get};
ghost use Rattle.ap_table.specs.declared.stored.Stored.{Stored};
ghost use Rattle.ap_table.specs.declared.stored.Stage.TheVariants as stage;
ghost use Rattle.ap_table.specs.Shown.{alter, fresh, kept_root};
ghost use Rattle.ap_word.specs.Stops.{NONE};
ghost use Rattle.ap_table.specs.Sound.{Names};
ghost use Rattle.ap_table.specs.Sums.{nothing_told};
ghost use Rattle.ap_table.specs.Live.{done_at, free_at};
ghost use Rattle.ap_list.specs.Lists.{AnyOf};

use crate::link::{License, Link};
use crate::stored::{Entry, NodeJob, Stage, Stored, Sum, Told};
use crate::telling::nothing_told;
use ap_list::{NoMemory, Seq};
use ap_walk::{Mark, Rule, Step};
use std::alloc::Global;
use std::mem;

/// Whether two rules are equal.
pub(crate) fn same_rule(a: Rule, b: Rule) -> bool
    ensures { IsTrue result ↔ a ≡ b }
{
    a == b
}

/// Whether the job's node is claimed, with the same task.
pub(crate) fn is_job<S: Step>(
    step: &S,
    nodes: &Vec<Stored<S::Task>>,
    job: &NodeJob<S::Task>,
) -> bool
    ensures { IsTrue result ↔ ((c : Stored S.Task) × (slice_get nodes.now.items job.now.node ≡ Some c) × (c.stage ≡ stage.Claimed) × (job.now.task ≡ c.task)) }
{
    let i = job.node as usize;
    if i >= nodes.len() {
        return false;
    }
    let node = &nodes[i];
    let Stage::Claimed = &node.stage else {
        return false;
    };
    step.same_task(&job.task, &node.task)
}

/// Claims a free node. Answers its job's copy of the task.
pub(crate) fn set_claimed<T: Drop>(nodes: &mut Vec<Stored<T>>, i: usize) -> T
    requires { free_at nodes.old.items i ≡ true }
    ensures copy { (c : Stored T) → slice_get nodes.old.items i ≡ Some c → c.stage ≡ stage.Free result }
    ensures nodes { nodes.new.items ≡ alter nodes.old.items i (λ c. record c { stage = stage.Claimed }) }
{
    let node = &mut nodes[i];
    let Stage::Free(copy) = mem::replace(&mut node.stage, Stage::Claimed) else {
        unreachable!()
    };
    copy
}

/// Whether a node is there and done.
pub(crate) fn is_done<T>(nodes: &Vec<Stored<T>>, i: usize) -> bool
    ensures { result ≡ done_at nodes.now.items i }
{
    if i >= nodes.len() {
        return false;
    }
    match &nodes[i].stage {
        Stage::Put(_) => true,
        Stage::Closed(_) => true,
        _ => false,
    }
}

/// The kept root.
pub(crate) fn root_node<S: Step>(
    alloc: Global,
    step: &S,
    task: &S::Task,
) -> Result<Stored<S::Task>, NoMemory>
    ensures { IfOk result (λ c. c ≡ kept_root task.now) }
{
    let copy = step.copy_task(alloc, task)?;
    let task = step.copy_task(alloc, task)?;
    Ok(Stored {
        task,
        path: Seq::from_vec(Vec::new(alloc)),
        own: None,
        first: 0,
        count: 0,
        stage: Stage::Free(copy),
        word: u64::MAX,
        told: nothing_told(),
    })
}

/// Whether a node may be expanded into so many children.
pub(crate) fn has_room<T>(nodes: &Vec<Stored<T>>, i: usize, count: usize) -> bool
    ensures { IsTrue result ↔ ((c : Stored T) × (slice_get nodes.now.items i ≡ Some c) × (length c.path < 3) × (length nodes.now.items + count ≤ 1000000)) }
{
    if i >= nodes.len() {
        return false;
    }
    if nodes.len() > 1000000 {
        return false;
    }
    if count > 1000000 - nodes.len() {
        return false;
    }
    nodes[i].path.len() < 3
}

/// A path with one family more.
fn longer_path(alloc: Global, link: Link, path: &[Link]) -> Result<Seq<Link>, NoMemory>
    ensures { IfOk result (λ p. p ≡ link ∷ path.now) }
{
    let mut items = Vec::new(alloc);
    items.push(link)?;
    items.extend_from_slice(path)?;
    Ok(Seq::from_vec(items))
}

/// The kept nodes of a family. Each has two copies of its task, its own and its job's.
pub(crate) fn fresh_nodes<S: Step>(
    alloc: Global,
    step: &S,
    tasks: &[S::Task],
    family: u32,
    path: &[Link],
) -> Result<Vec<Stored<S::Task>>, NoMemory>
    requires { length tasks.now ≤ 1000000 }
    ensures { IfOk result (λ v. v.items ≡ fresh family path.now 0 tasks.now) }
{
    let mut nodes = Vec::new(alloc);
    for place in 0..tasks.len() {
        let task = step.copy_task(alloc, &tasks[place])?;
        let copy = step.copy_task(alloc, &tasks[place])?;
        let path = longer_path(
            alloc,
            Link {
                family,
                place: place as u32,
            },
            path,
        )?;
        nodes.push(Stored {
            task,
            path,
            own: None,
            first: 0,
            count: 0,
            stage: Stage::Free(copy),
            word: u64::MAX,
            told: Told {
                stop: u64::MAX,
                front: 0,
                sum: Sum {
                    pushes: 0,
                    goals: 0,
                    ended: 0,
                },
            },
        })?;
    }
    Ok(nodes)
}

/// Room for the entries of all nodes and for the live ones, and then the new nodes.
pub(crate) fn grow<T: Drop>(
    nodes: &mut Vec<Stored<T>>,
    live: &mut Vec<u32>,
    history: &mut Vec<Entry>,
    more: Vec<Stored<T>>,
) -> Result<(), NoMemory>
    requires { length nodes.old.items + length more.items ≤ 1000000 }
    ensures nodes { OnOk result (nodes.new.items ≡ nodes.old.items ++ more.items) }
    ensures capacity { OnOk result (5 * (length nodes.old.items + length more.items) ≤ vec_capacity history.new) }
    ensures kept { OnErr result ((nodes.new.items ≡ nodes.old.items) × (vec_capacity history.old ≤ vec_capacity history.new)) }
    ensures history { history.new.items ≡ history.old.items }
    ensures live { live.new.items ≡ live.old.items }
    ensures spare { OnOk result (length live.new.items + length more.items ≤ vec_capacity live.new) }
{
    let mut more = more;
    live.reserve(more.len())?;
    history.reserve(5 * (nodes.len() + more.len()))?;
    nodes.append(&mut more)
}

/// Makes a node expanded. It keeps its own mark.
pub(crate) fn set_expanded<T: Drop>(
    nodes: &mut Vec<Stored<T>>,
    i: usize,
    own: Mark<T>,
    first: u32,
    count: u32,
)
    requires { i < length nodes.old.items }
    ensures { nodes.new.items ≡ alter nodes.old.items i (λ c. record c { own = Some own; first = first; count = count; stage = stage.Expanded; word = NONE; told = nothing_told }) }
{
    let node = &mut nodes[i];
    node.own = Some(own);
    node.first = first;
    node.count = count;
    node.stage = Stage::Expanded;
    node.word = u64::MAX;
    node.told = Told {
        stop: u64::MAX,
        front: 0,
        sum: Sum {
            pushes: 0,
            goals: 0,
            ended: 0,
        },
    };
}

/// Puts a stage in the place of another.
pub(crate) fn set_stage<T: Drop>(nodes: &mut Vec<Stored<T>>, i: usize, to: Stage<T>)
    requires { i < length nodes.old.items }
    ensures { nodes.new.items ≡ alter nodes.old.items i (λ c. record c { stage = to }) }
{
    let node = &mut nodes[i];
    node.stage = to;
}

/// Whether a licence names this family, below the place there.
fn is_named(link: &Link, license: License) -> bool
    ensures { IsTrue result ↔ Names license link.now }
{
    if link.family != license.family {
        return false;
    }
    license.index < link.place
}

/// Whether a licence names a family of a path, below the place there.
fn names(path: &[Link], license: License) -> bool
    ensures { IsTrue result ↔ AnyOf (Names license) path.now }
{
    for (i, link) in path.iter().enumerate() {
        if is_named(link, license) {
            return true;
        }
    }
    false
}

/// Whether a licence is one for a node, by the word of its family.
pub(crate) fn is_licensed<T>(nodes: &Vec<Stored<T>>, i: usize, license: License) -> bool
    ensures small { license.index < 4294967296 }
    ensures tells { IsTrue result ↔ (((c : Stored T) × (slice_get nodes.now.items i ≡ Some c) × AnyOf (Names license) c.path) × ((m : Stored T) × (slice_get nodes.now.items license.family ≡ Some m) × (m.word ≤ license.index))) }
{
    let f = license.family as usize;
    if i >= nodes.len() {
        return false;
    }
    if f >= nodes.len() {
        return false;
    }
    if nodes[f].word > license.index as u64 {
        return false;
    }
    names(nodes[i].path.as_slice(), license)
}
