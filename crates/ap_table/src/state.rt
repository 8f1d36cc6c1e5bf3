//! A goal table: the nodes with the list of the steps that were taken, and the seats of the families' words.
ghost use Rattle.std.specs.Prelude.{◌≡◌, ◌+◌, ◌≤◌, [], ◌∷◌, length, Some, None, IfOk, IsTrue, ◌↔◌, vec_capacity};
ghost use Rattle.std.specs.List.{slice_get};
ghost use Rattle.ap_word.specs.Words.{made};
ghost use Rattle.ap_table.specs.Core.{Node};
ghost use Rattle.ap_table.specs.Shown.{nodes_of};
ghost use Rattle.ap_table.specs.Seated.{AreRows, AreSeated, true_family};
ghost use Rattle.ap_table.specs.Steps.{AreSeats};

use crate::link::{DropNote, License};
use crate::nodes::{Nodes, first_nodes};
use crate::seating::{adopt, give_all, mark_words, new_family, take_seats};
use crate::seats::{AncestorSeat, Beside, KeptSeat};
use crate::stored::{Claim, Entry, Grown, Job, NodeClaim, NodeGrown, NodeJob, NodeTaken, Taken};
use ap_list::{NoMemory, Seq};
use ap_walk::{Out, Rule, Step, Stepped, Walked};
use std::alloc::Global;
use std::marker::Model;

/// A goal table, with the list of the steps that were taken. Its nodes are what these steps leave, and each
/// step was allowed. It keeps one seat of each family's word, which knows the family's true tallies and whose
/// number is the core's word.
#[derive(Drop)]
pub struct TableState<S: Step> {
    nodes: Nodes<S>,
    seats: Vec<Beside>,
}

impl<S: Step> Model for TableState<S> {
    ghost use Rattle.ap_table.specs.Worded.{Worded, words_of, IsKept};

    ghost Value = { Worded S.Task };

    ghost view = { λ s. record { run = s.nodes; words = words_of s.seats.items } };

    ghost invariant = { λ s. IsKept S.step_of S.depth s.nodes s.seats.items };
}

/// A table of one free node, the root, under a rule. The only error is want of memory.
pub fn first<S: Step>(
    alloc: Global,
    step: &S,
    task: S::Task,
    rule: Rule,
) -> Result<TableState<S>, NoMemory>
    ensures run { IfOk result (λ s. s.run ≡ record { root = task; rule = rule; history = [] }) }
    ensures words { IfOk result (λ s. s.words ≡ None ∷ []) }
{
    let nodes = first_nodes(alloc, step, task, rule)?;
    let mut seats = Vec::new(alloc);
    seats.push(Beside {
        job: Some(Seq::new(alloc)),
        kept: None,
    })?;
    Ok(TableState { nodes, seats })
}

/// A job of a node's job and the seats that belong to it.
fn with_seats<T>(job: NodeJob<T>, seats: Seq<AncestorSeat>) -> Job<T>
    ensures { result ≡ record { task = job.task; rule = job.rule; node = job.node; seats = seats } }
{
    let NodeJob { task, rule, node } = job;
    Job {
        task,
        rule,
        node,
        seats,
    }
}

/// A job's node job, and its seats.
fn parts<T>(job: Job<T>) -> (NodeJob<T>, Seq<AncestorSeat>)
    ensures { (result.0 ≡ record { task = job.task; rule = job.rule; node = job.node }) × (result.1 ≡ job.seats) }
{
    let Job {
        task,
        rule,
        node,
        seats,
    } = job;
    (NodeJob { task, rule, node }, seats)
}

/// Whether a job's seats give just the families above its node, each once and with the place there.
fn is_seated<S: Step>(nodes: &Nodes<S>, job: &Job<S::Task>) -> bool
    ensures { IsTrue result ↔ AreSeats S.step_of S.depth nodes.now job.now }
{
    let Some(path) = nodes.path(job.node) else {
        return false;
    };
    give_all(job.seats.as_slice(), path)
}

/// The seat of the word of a job's children, and what is kept beside these, for a node that is there.
fn family_of<S: Step>(
    alloc: Global,
    nodes: &Nodes<S>,
    seats: &mut Vec<Beside>,
    job: &Job<S::Task>,
    count: usize,
) -> Result<(KeptSeat, Vec<Beside>), NoMemory>
    requires seated { AreSeated S.step_of S.depth nodes.now.rule (nodes_of S.step_of S.depth nodes.now) seats.old.items }
    requires there { AreSeats S.step_of S.depth nodes.now job.now }
    requires few { count ≤ 1000000 }
    ensures same { seats.new.items ≡ seats.old.items }
    ensures own { IfOk result (λ r. r.0.view ≡ made (true_family S.step_of S.depth job.now.rule job.now.task)) }
    ensures rows { IfOk result (λ r. (n : Node S.Task) → slice_get (nodes_of S.step_of S.depth nodes.now) job.now.node ≡ Some n → AreRows seats.old.items n.path job.now.node r.0 r.1.items) }
    ensures long { IfOk result (λ r. length r.1.items ≡ count) }
    ensures room { IfOk result (λ r. length seats.new.items + count ≤ vec_capacity seats.new) }
{
    let Some(path) = nodes.path(job.node) else {
        unreachable!()
    };
    new_family::<S>(alloc, seats, &job.task, job.rule, job.node, path, count)
}

impl<S: Step> TableState<S> {
    ghost use Rattle.ap_walk.specs.Visits.{out_children};
    ghost use Rattle.ap_walk.specs.Walks.{full};
    ghost use Rattle.ap_table.specs.Calls.{IsRootDone};
    ghost use Rattle.ap_table.specs.Steps.{Claims, ClaimsAt, Grows, Puts, Drops};
    ghost use Rattle.ap_list.specs.Lists.{Each};
    ghost use Rattle.ap_table.specs.Seated.{HasLooked};
    ghost use Rattle.ap_table.specs.Ended.{HasEnded, Ends};
    ghost use Rattle.ap_table.specs.Locked.{WasAllowed};
    ghost use Rattle.ap_table.specs.Worded.{IsOf, WordsStay, FoundOf};

    /// Claims the first free node in serial order.
    pub fn claim_step(&mut self) -> Claim<S::Task>
        ensures claims { Claims S.step_of S.depth self.old.run self.new.run result }
        ensures words { self.new.words ≡ self.old.words }
        ensures of { FoundOf self.old.words result }
    {
        match self.nodes.claim_step() {
            NodeClaim::Nothing => Claim::Nothing,
            NodeClaim::Found(job) => {
                let seats = take_seats(&mut self.seats, job.node as usize);
                Claim::Found(with_seats(job, seats))
            }
        }
    }

    /// Claims this node, or it isn't there or isn't free. It looks at one node.
    pub fn claim_node_step(&mut self, node: u32) -> Claim<S::Task>
        ensures claims { ClaimsAt S.step_of S.depth self.old.run self.new.run node result }
        ensures words { self.new.words ≡ self.old.words }
        ensures of { FoundOf self.old.words result }
    {
        match self.nodes.claim_node_step(node) {
            NodeClaim::Nothing => Claim::Nothing,
            NodeClaim::Found(job) => {
                let seats = take_seats(&mut self.seats, job.node as usize);
                Claim::Found(with_seats(job, seats))
            }
        }
    }

    /// Whether the root is done. It looks at one node.
    pub fn is_done(&self) -> bool
        ensures { IsTrue result ↔ HasEnded S.step_of S.depth self.now.run }
    {
        self.nodes.is_done()
    }

    /// Whether the root is done, and its task and the table's rule are these.
    pub fn root_done(&self, step: &S, task: &S::Task, rule: Rule) -> bool
        ensures { IsTrue result ↔ IsRootDone S.step_of S.depth self.now.run task.now rule }
    {
        self.nodes.root_done(step, task, rule)
    }

    /// The steps that were taken, in their order.
    pub fn history(&self) -> &[Entry]
        ensures { result.now ≡ self.now.run.history }
    {
        self.nodes.history()
    }

    /// Each step that was taken was allowed, which the type keeps.
    pub fn recall_allowed(&self)
        ensures { WasAllowed S.step_of S.depth self.now.run }
    {
        self.nodes.recall_allowed();
    }

    /// Puts the children of a job's task into the table, with a seat for each family above each child. A stranger
    /// is a job that isn't the table's, or one whose node has three families above it, or there would be more than
    /// 1,000,000 nodes. What is handed in comes back where nothing is changed.
    pub fn expand_step(
        &mut self,
        alloc: Global,
        step: &S,
        job: Job<S::Task>,
        stepped: Stepped<S::Task>,
    ) -> Grown<S::Task>
        requires stepped { stepped ≡ S.step_of job.task }
        requires many { 2 ≤ length (out_children stepped.out) }
        ensures grows { Grows S.step_of S.depth self.old.run self.new.run job stepped result }
        ensures words { WordsStay self.old.words self.new.words }
    {
        if !is_seated(&self.nodes, &job) {
            return Grown::Stranger(job, stepped);
        }
        let Out::Split(children) = &stepped.out else {
            return Grown::Stranger(job, stepped);
        };
        let count = children.len();
        if !self.nodes.can_grow(job.node, count) {
            return Grown::Stranger(job, stepped);
        }
        let Ok((own, rows)) = family_of(alloc, &self.nodes, &mut self.seats, &job, count) else {
            return Grown::NoMemory(job, stepped);
        };
        let (job, seats) = parts(job);
        match self.nodes.expand_step(alloc, step, job, stepped) {
            NodeGrown::Stranger(job, stepped) => {
                Grown::Stranger(with_seats(job, seats), stepped)
            }
            NodeGrown::NoMemory(job, stepped) => {
                Grown::NoMemory(with_seats(job, seats), stepped)
            }
            NodeGrown::Family {
                family,
                first,
                count,
            } => {
                adopt(&mut self.seats, family as usize, own, rows);
                Grown::Family {
                    family,
                    first,
                    count,
                }
            }
        }
    }

    /// Puts the walk of a job's task, whichever words its seats looked at: a lock knows them of a table alone that
    /// was there before.
    pub(crate) fn keep_walk(
        &mut self,
        step: &S,
        job: Job<S::Task>,
        walked: Walked<S::Task>,
    ) -> Taken<S::Task>
        requires walked { walked ≡ full S.step_of S.depth job.rule job.task }
        requires looked { Each (HasLooked (length walked.marks)) job.seats }
        ensures puts { Puts S.step_of S.depth self.old.run self.new.run job result }
        ensures words { self.new.words ≡ self.old.words }
    {
        if !is_seated(&self.nodes, &job) {
            return Taken::Stranger(job);
        }
        let (job, seats) = parts(job);
        let from = self.nodes.history().len();
        match self.nodes.put_step(step, job, walked) {
            NodeTaken::Stranger(job) => Taken::Stranger(with_seats(job, seats)),
            NodeTaken::Kept => {
                mark_words(&self.nodes, &mut self.seats, from + 1);
                Taken::Kept
            }
        }
    }

    /// Puts the walk of a job's task, once each of the job's seats has made a look for each of the walk's marks
    /// at the word that is kept of its family, and has seen no stop before its place. Closes the nodes above that this closes, and marks each family above
    /// the node that is known to stop then. A stranger is a job that isn't the table's, or one whose node can still
    /// be expanded.
    pub fn put_step(
        &mut self,
        step: &S,
        job: Job<S::Task>,
        walked: Walked<S::Task>,
    ) -> Taken<S::Task>
        requires walked { walked ≡ full S.step_of S.depth job.rule job.task }
        requires words { Each (IsOf self.old.words) job.seats }
        requires looked { Each (HasLooked (length walked.marks)) job.seats }
        ensures puts { Puts S.step_of S.depth self.old.run self.new.run job result }
        ensures words { self.new.words ≡ self.old.words }
    {
        self.keep_walk(step, job, walked)
    }

    /// Drops a job's node. A stranger is a job that isn't the table's, or the licence isn't one for its node.
    pub fn drop_step(&mut self, step: &S, job: Job<S::Task>, license: License) -> Taken<S::Task>
        ensures drops { Drops S.step_of S.depth self.old.run self.new.run job license result }
        ensures words { self.new.words ≡ self.old.words }
    {
        if !is_seated(&self.nodes, &job) {
            return Taken::Stranger(job);
        }
        let (job, seats) = parts(job);
        match self.nodes.drop_step(step, job, license) {
            NodeTaken::Stranger(job) => Taken::Stranger(with_seats(job, seats)),
            NodeTaken::Kept => Taken::Kept,
        }
    }

    /// Ends a table whose root is done: the serial walk of the root's task, and the notes of what was dropped,
    /// in the order in which it was. The marks are those that the table keeps, and no step is taken again. The
    /// only error is want of memory.
    pub fn finish(
        self,
        alloc: Global,
        step: &S,
    ) -> Result<(Walked<S::Task>, Seq<DropNote>), NoMemory>
        requires { HasEnded S.step_of S.depth self.run }
        ensures { IfOk result (λ end. Ends S.step_of S.depth S.name self.run end.0 end.1) }
    {
        let TableState { nodes, .. } = self;
        nodes.finish(alloc, step)
    }
}
