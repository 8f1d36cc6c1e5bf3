ghost use Rattle.std.specs.Prelude.{◌≡◌, ℕ, ◌≤◌, List, [], ◌∷◌, ◌++◌, length, IfOk, IsTrue, ◌↔◌};

use crate::gathering::pieces;
use crate::link::{DropNote, License, Link};
use crate::live::{first_free, give_way, is_free, take_out};
use crate::making::{
    fresh_nodes, grow, has_room, is_done, is_job, is_licensed, root_node, same_rule, set_claimed,
    set_expanded, set_stage,
};
use crate::marking::{can_expand, mark_one};
use crate::noting::notes;
use crate::settling::settle;
use crate::stored::{Entry, NodeClaim, NodeGrown, NodeJob, NodeTaken, Stage, Stored};
use crate::telling::through_tally;
use ap_list::{NoMemory, Seq};
use ap_walk::{Mark, Out, Rule, Step, Stepped, Tally, Walked, cut_from};
use std::alloc::Global;
use std::marker::Model;

/// A goal table, with the list of the steps that were taken. Its nodes are what these steps leave, and each
/// step was allowed.
#[derive(Drop)]
pub(crate) struct Nodes<S: Step> {
    root: S::Task,
    rule: Rule,
    nodes: Vec<Stored<S::Task>>,
    live: Vec<u32>,
    history: Vec<Entry>,
}

impl<S: Step> Model for Nodes<S> {
    ghost use Rattle.std.specs.Prelude.{vec_capacity, reverse};
    ghost use Rattle.ap_table.specs.Shown.{Run, IsTable};

    ghost Value = { Run S.Task };

    ghost view = { λ s. record { root = s.root; rule = s.rule; history = s.history.items } };

    ghost invariant = { λ s. IsTable S.step_of S.depth (record { root = s.root; rule = s.rule; history = s.history.items }) s.nodes.items (reverse s.live.items) (vec_capacity s.history) };
}

/// A table of one free node, the root, under a rule. The only error is want of memory.
pub(crate) fn first_nodes<S: Step>(
    alloc: Global,
    step: &S,
    task: S::Task,
    rule: Rule,
) -> Result<Nodes<S>, NoMemory>
    ensures { IfOk result (λ s. s ≡ record { root = task; rule = rule; history = [] }) }
{
    let node = root_node(alloc, step, &task)?;
    let mut nodes = Vec::new(alloc);
    nodes.push(node)?;
    let mut live = Vec::new(alloc);
    live.push(0)?;
    let mut history = Vec::new(alloc);
    history.reserve(5)?;
    Ok(Nodes {
        root: task,
        rule,
        nodes,
        live,
        history,
    })
}

impl<S: Step> Nodes<S> {
    ghost use Rattle.ap_walk.specs.Visits.{out_children};
    ghost use Rattle.ap_walk.specs.Walks.{full};
    ghost use Rattle.ap_table.specs.Calls.{NodeClaims, NodeClaimsAt, NodeGrows, NodePuts, NodeDrops, IsRootDone, CanGrow};
    ghost use Rattle.ap_table.specs.Ended.{HasEnded, Ends};
    ghost use Rattle.ap_table.specs.Locked.{WasAllowed};
    ghost use Rattle.std.specs.Prelude.{IfSome, None, Some};
    ghost use Rattle.std.specs.List.{slice_get};
    ghost use Rattle.ap_table.specs.Core.{Node};
    ghost use Rattle.ap_table.specs.Shown.{nodes_of};

    /// Claims the first free node in serial order.
    pub fn claim_step(&mut self) -> NodeClaim<S::Task>
        ensures { NodeClaims S.step_of S.depth self.old self.new result }
    {
        let Some(node) = first_free(&self.nodes, self.live.as_slice()) else {
            return NodeClaim::Nothing;
        };
        let task = set_claimed(&mut self.nodes, node as usize);
        self.history.push_reserved(Entry::Claimed(node));
        NodeClaim::Found(NodeJob {
            task,
            rule: self.rule,
            node,
        })
    }

    /// Claims this node, or it isn't there or isn't free.
    pub fn claim_node_step(&mut self, node: u32) -> NodeClaim<S::Task>
        ensures { NodeClaimsAt S.step_of S.depth self.old self.new node result }
    {
        if !is_free(&self.nodes, node) {
            return NodeClaim::Nothing;
        }
        let task = set_claimed(&mut self.nodes, node as usize);
        self.history.push_reserved(Entry::Claimed(node));
        NodeClaim::Found(NodeJob {
            task,
            rule: self.rule,
            node,
        })
    }

    /// Whether the root is done.
    pub fn is_done(&self) -> bool
        ensures { IsTrue result ↔ HasEnded S.step_of S.depth self.now }
    {
        is_done(&self.nodes, 0)
    }

    /// Whether the root is done, and its task and the table's rule are these.
    pub fn root_done(&self, step: &S, task: &S::Task, rule: Rule) -> bool
        ensures { IsTrue result ↔ IsRootDone S.step_of S.depth self.now task.now rule }
    {
        if !same_rule(self.rule, rule) {
            return false;
        }
        if !step.same_task(&self.root, task) {
            return false;
        }
        self.is_done()
    }

    /// The steps that were taken, in their order.
    pub fn history(&self) -> &[Entry]
        ensures { result.now ≡ self.now.history }
    {
        self.history.as_slice()
    }

    /// Each step that was taken was allowed, which the type keeps.
    pub fn recall_allowed(&self)
        ensures { WasAllowed S.step_of S.depth self.now }
    {
        let _rule = self.rule;
    }

    /// The families above a node, if it is there.
    pub(crate) fn path(&self, node: u32) -> Option<&[Link]>
        ensures there { IfSome result (λ p. (n : Node S.Task) × (slice_get (nodes_of S.step_of S.depth self.now) node ≡ Some n) × (n.path ≡ p.now)) }
        ensures none { result ≡ None → length (nodes_of S.step_of S.depth self.now) ≤ node }
    {
        let i = node as usize;
        if i >= self.nodes.len() {
            return None;
        }
        Some(self.nodes[i].path.as_slice())
    }

    /// Whether a node may be expanded into so many children.
    pub(crate) fn can_grow(&self, node: u32, count: usize) -> bool
        ensures { IsTrue result ↔ CanGrow S.step_of S.depth self.now node count }
    {
        has_room(&self.nodes, node as usize, count)
    }

    /// Puts the children of a job's task into the table. A stranger is a job that isn't the table's, or one
    /// whose node has three families above it, or there would be more than 1,000,000 nodes. What is handed
    /// in comes back where nothing is changed.
    pub fn expand_step(
        &mut self,
        alloc: Global,
        step: &S,
        job: NodeJob<S::Task>,
        stepped: Stepped<S::Task>,
    ) -> NodeGrown<S::Task>
        requires stepped { stepped ≡ S.step_of job.task }
        requires many { 2 ≤ length (out_children stepped.out) }
        ensures { NodeGrows S.step_of S.depth self.old self.new job stepped result }
    {
        if !same_rule(self.rule, job.rule) {
            return NodeGrown::Stranger(job, stepped);
        }
        if !is_job(step, &self.nodes, &job) {
            return NodeGrown::Stranger(job, stepped);
        }
        let Out::Split(children) = &stepped.out else {
            return NodeGrown::Stranger(job, stepped);
        };
        let count = children.len();
        let i = job.node as usize;
        if !has_room(&self.nodes, i, count) {
            return NodeGrown::Stranger(job, stepped);
        }
        let path = self.nodes[i].path.as_slice();
        let Ok(more) = fresh_nodes(alloc, step, children.as_slice(), job.node, path) else {
            return NodeGrown::NoMemory(job, stepped);
        };
        let first = self.nodes.len() as u32;
        let Ok(()) = grow(&mut self.nodes, &mut self.live, &mut self.history, more) else {
            return NodeGrown::NoMemory(job, stepped);
        };
        let family = job.node;
        let own = Mark {
            task: job.task,
            act: stepped.act,
            children: count as u32,
        };
        set_expanded(&mut self.nodes, i, own, first, count as u32);
        give_way(&mut self.live, family, first, count as u32);
        self.history.push_reserved(Entry::Expanded(family));
        NodeGrown::Family {
            family,
            first,
            count: count as u32,
        }
    }

    /// Puts the walk of a job's task, closes the nodes above that this closes, and marks each family above the
    /// node that is known to stop then. A stranger is a job that isn't the table's, or one whose node can still
    /// be expanded.
    pub fn put_step(
        &mut self,
        step: &S,
        job: NodeJob<S::Task>,
        walked: Walked<S::Task>,
    ) -> NodeTaken<S::Task>
        requires { walked ≡ full S.step_of S.depth job.rule job.task }
        ensures { NodePuts S.step_of S.depth self.old self.new job result }
    {
        if !same_rule(self.rule, job.rule) {
            return NodeTaken::Stranger(job);
        }
        if !is_job(step, &self.nodes, &job) {
            return NodeTaken::Stranger(job);
        }
        let i = job.node as usize;
        if can_expand::<S>(self.rule, &self.nodes, i, &walked) {
            return NodeTaken::Stranger(job);
        }
        let sum = through_tally(walked.end, walked.tally);
        set_stage(&mut self.nodes, i, Stage::Put(walked));
        settle::<S>(self.rule, &mut self.nodes, i, sum);
        take_out(&mut self.live, job.node);
        self.history.push_reserved(Entry::Put(job.node));
        mark_one(&mut self.nodes, &mut self.history, i, 0);
        mark_one(&mut self.nodes, &mut self.history, i, 1);
        mark_one(&mut self.nodes, &mut self.history, i, 2);
        NodeTaken::Kept
    }

    /// Drops a job's node. A stranger is a job that isn't the table's, or the licence isn't one for its node.
    pub fn drop_step(
        &mut self,
        step: &S,
        job: NodeJob<S::Task>,
        license: License,
    ) -> NodeTaken<S::Task>
        ensures { NodeDrops S.step_of S.depth self.old self.new job license result }
    {
        if !same_rule(self.rule, job.rule) {
            return NodeTaken::Stranger(job);
        }
        if !is_job(step, &self.nodes, &job) {
            return NodeTaken::Stranger(job);
        }
        let i = job.node as usize;
        if !is_licensed(&self.nodes, i, license) {
            return NodeTaken::Stranger(job);
        }
        set_stage(&mut self.nodes, i, Stage::Dropped(license));
        take_out(&mut self.live, job.node);
        self.history
            .push_reserved(Entry::Dropped(job.node, license));
        NodeTaken::Kept
    }

    /// Ends a table whose root is done: the serial walk of the root's task, and the notes of what was dropped,
    /// in the order in which it was. The marks are those that the table keeps, and no step is taken again. The
    /// only error is want of memory.
    pub fn finish(
        self,
        alloc: Global,
        step: &S,
    ) -> Result<(Walked<S::Task>, Seq<DropNote>), NoMemory>
        requires { HasEnded S.step_of S.depth self }
        ensures { IfOk result (λ end. Ends S.step_of S.depth S.name self end.0 end.1) }
    {
        let notes = notes(alloc, step, &self.nodes, self.history.as_slice())?;
        let marks = pieces(alloc, self.nodes)?;
        let start = Tally {
            pushes: 0,
            goals: 0,
        };
        Ok((cut_from(start, marks, self.rule), notes))
    }
}
