use crate::pool::Pool;
use crate::verdict::Verdict;
use ap_walk::Rule;

/// A task that is to be walked, the rule of its walk, and what waits behind it. The rule's limit is the
/// number of goals that are left.
#[derive(Drop)]
pub struct Turn<T> {
    pub task: T,
    pub rule: Rule,
    pub rest: Pool<T>,
}

/// What an attempt does next: it takes a turn, or it is done.
#[derive(Drop)]
pub enum Next<T> {
    Walk(Turn<T>),
    Done(Verdict),
}
