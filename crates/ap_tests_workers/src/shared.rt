//! The goal table under its lock, on one thread.

use crate::found::Found;
use crate::tables::{family_of, looked, splits};
use crate::trees::{Tree, Trees};
use ap_table::*;
use ap_walk::{End, NoMemory, Rule, Seq, Step, Walked, serial};
use std::alloc::Global;
use std::process::Abort;
use std::sync::Wait;

/// An initial walk without the switch.
pub(crate) const RULE: Rule = Rule {
    initial: true,
    otf: false,
    revert: 2,
    goal_limit: 100,
};

/// The job of the node that is claimed next.
pub(crate) fn claim(rt: &(impl Abort + Wait), table: &GoalTable<Trees>, node: u32) -> Found<Trees> {
    let Claim::Found(job) = table.claim(rt) else {
        panic!(rt; "no node is free");
    };
    assert_eq!(rt; job.node, node);
    Found { job }
}

/// Expands the root, by its job, into three children.
pub(crate) fn expand_root(
    rt: &(impl Abort + Wait),
    alloc: Global,
    table: &GoalTable<Trees>,
    found: Found<Trees>,
) -> Result<(), NoMemory> {
    let Found { job } = found;
    let stepped = Trees.step(alloc, &job.task)?;
    if !splits(&stepped) {
        panic!(rt; "a task that doesn't split into two or more");
    }
    let grown = table.expand(rt, alloc, &Trees, job, stepped);
    assert_eq!(rt; family_of(grown), Some((0, 1, 3)));
    Ok(())
}

/// Puts the serial walk of a job's task, after a look for each of its marks. Answers whether it was kept.
pub(crate) fn put(
    rt: &(impl Abort + Wait),
    alloc: Global,
    table: &GoalTable<Trees>,
    found: Found<Trees>,
) -> Result<bool, NoMemory> {
    let Found { job } = found;
    let walked = serial(alloc, &Trees, &job.task, job.rule)?;
    let seen = looked(job, walked.marks.len())?;
    let Some(job) = seen else {
        panic!(rt; "the family stops before the job");
    };
    match table.put(rt, &Trees, job, walked) {
        Taken::Kept => Ok(true),
        Taken::Stranger(_) => Ok(false),
    }
}

/// Puts the serial walk of a job's task, which is kept.
pub(crate) fn put_kept(
    rt: &(impl Abort + Wait),
    alloc: Global,
    table: &GoalTable<Trees>,
    found: Found<Trees>,
) -> Result<(), NoMemory> {
    assert!(rt; put(rt, alloc, table, found)?);
    Ok(())
}

/// Claims three nodes, behind which none is free.
pub(crate) fn claim_three(
    rt: &(impl Abort + Wait),
    table: &GoalTable<Trees>,
) -> (Found<Trees>, Found<Trees>, Found<Trees>) {
    let a = claim(rt, table, 1);
    let b = claim(rt, table, 2);
    let c = claim(rt, table, 3);
    let Claim::Nothing = table.claim(rt) else {
        panic!(rt; "a node is free");
    };
    (a, b, c)
}

/// Asks to drop a job's node by the root's children, where none of them has a stop. Answers the job.
pub(crate) fn drop_refused(
    rt: &(impl Abort + Wait),
    table: &GoalTable<Trees>,
    found: Found<Trees>,
) -> Found<Trees> {
    let Found { job } = found;
    let license = License {
        family: 0,
        index: 1,
    };
    let Taken::Stranger(job) = table.put_drop(rt, &Trees, job, license) else {
        panic!(rt; "it was dropped");
    };
    Found { job }
}

/// What a table ends with, whose root is done.
pub(crate) fn finished(
    rt: &impl Abort,
    alloc: Global,
    state: TableState<Trees>,
) -> Result<(Walked<Tree>, Seq<DropNote>), NoMemory> {
    if !state.root_done(&Trees, &Tree::Three, RULE) {
        panic!(rt; "the root isn't done");
    }
    state.finish(alloc, &Trees)
}
