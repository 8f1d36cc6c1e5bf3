use crate::link::{License, Link};
use crate::seats::AncestorSeat;
use ap_list::Seq;
use ap_walk::{Mark, Rule, Stepped, Tally, Walked};

/// One step that was taken, as numbers alone: a node was claimed, expanded, put or dropped by a licence, or
/// the word of a family was marked by a place.
#[derive(Clone, Copy, Debug, PartialEq, Eq)]
pub enum Entry {
    Claimed(u32),
    Expanded(u32),
    Put(u32),
    Dropped(u32, License),
    Marked(u32, u32),
}

/// How far a node is. A free node has the copy of its task that its job gets. A closed one has the tally of
/// its walk where that goes through.
#[derive(Drop)]
pub enum Stage<T> {
    Free(T),
    Claimed,
    Expanded,
    Put(Walked<T>),
    Closed(Option<Tally>),
    Dropped(License),
}

/// What some siblings count: the pushes and goals of those whose walks go through, and how many ended.
#[derive(Clone, Copy, Debug)]
pub struct Sum {
    pub pushes: u64,
    pub goals: u64,
    pub ended: u64,
}

/// What the finished children of a node tell: the least place by which they stop the family, or `u64::MAX`;
/// how many from the first on are finished, as far as was looked; and what the children before that stop
/// come to.
#[derive(Clone, Copy, Debug)]
pub struct Told {
    pub stop: u64,
    pub front: u32,
    pub sum: Sum,
}

/// A node as it is kept: the families above it, its own first; its own mark, once it is expanded; and where
/// its children stand. `word` is where their family stops, as far as is marked.
#[derive(Drop)]
pub struct Stored<T> {
    pub task: T,
    pub path: Seq<Link>,
    pub own: Option<Mark<T>>,
    pub first: u32,
    pub count: u32,
    pub stage: Stage<T>,
    pub word: u64,
    pub told: Told,
}

/// A node to be worked: its task, the rule of its walk, and a seat for each family above it.
#[derive(Drop)]
pub struct Job<T> {
    pub task: T,
    pub rule: Rule,
    pub node: u32,
    pub seats: Seq<AncestorSeat>,
}

/// The job of the first free node in serial order, or none is free.
#[derive(Drop)]
pub enum Claim<T> {
    Found(Job<T>),
    Nothing,
}

/// What an expansion answers: the family, the number of the first child and the number of children; or the
/// job isn't the table's or there is no room for the children; or there is no memory.
#[derive(Drop)]
pub enum Grown<T> {
    Family { family: u32, first: u32, count: u32 },
    Stranger(Job<T>, Stepped<T>),
    NoMemory(Job<T>, Stepped<T>),
}

/// Whether a table took what it was handed; if not, the job comes back.
#[derive(Drop)]
pub enum Taken<T> {
    Kept,
    Stranger(Job<T>),
}

/// A node to be worked, without its seats: its task, and the rule of its walk.
#[derive(Drop)]
pub(crate) struct NodeJob<T> {
    pub task: T,
    pub rule: Rule,
    pub node: u32,
}

/// The job of the first free node in serial order, or none is free.
#[derive(Drop)]
pub(crate) enum NodeClaim<T> {
    Found(NodeJob<T>),
    Nothing,
}

/// What an expansion of the nodes answers: the family, the number of the first child and the number of children; or the
/// job isn't the table's or there is no room for the children; or there is no memory.
#[derive(Drop)]
pub(crate) enum NodeGrown<T> {
    Family { family: u32, first: u32, count: u32 },
    Stranger(NodeJob<T>, Stepped<T>),
    NoMemory(NodeJob<T>, Stepped<T>),
}

/// Whether the nodes took what they were handed; if not, the job comes back.
#[derive(Drop)]
pub(crate) enum NodeTaken<T> {
    Kept,
    Stranger(NodeJob<T>),
}
