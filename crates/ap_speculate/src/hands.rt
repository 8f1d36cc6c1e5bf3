//! What a worker has of the deques, and what workers leave of them.
ghost use Rattle.std.specs.Prelude.{◌<◌, ◌≤◌, IfSome, vec_len};

use crate::owners::{Deques, Owner, Row};
use ap_walk::NoMemory;
use std::alloc::Global;

/// A worker's own deque, and a thief's side of each one. By that of its own deque it gets nothing, since it takes from
/// that first.
#[derive(Drop)]
pub(crate) struct Hands<D: Deques> {
    pub(crate) own: Owner<D>,
    pub(crate) others: Row<D>,
}

/// What a worker begins with: its hands, and the deques of those that it may begin.
#[derive(Drop)]
pub(crate) struct Begun<D: Deques> {
    pub(crate) hands: Hands<D>,
    pub(crate) spare: Vec<Owner<D>>,
}

/// What workers left of the deques: the owners' sides, and of each worker its thief's sides.
#[derive(Drop)]
pub(crate) struct Left<D: Deques> {
    pub(crate) owners: Vec<Owner<D>>,
    pub(crate) rows: Vec<Row<D>>,
}

impl<D: Deques> Left<D> {
    /// Nothing.
    pub(crate) fn new(alloc: Global) -> Left<D> {
        Left {
            owners: Vec::new(alloc),
            rows: Vec::new(alloc),
        }
    }

    /// Adds what a worker has, and the deques of those that it didn't begin. The only error is want of memory.
    pub(crate) fn add(&mut self, hands: Hands<D>, spare: Vec<Owner<D>>) -> Result<(), NoMemory> {
        let Hands { own, others } = hands;
        let mut spare = spare;
        self.rows.push(others)?;
        self.owners.push(own)?;
        self.owners.append(&mut spare)
    }
}

/// Takes the last half of some deques off, and of these the first, where there is any and there is memory.
pub(crate) fn take_half<D: Deques>(spare: &mut Vec<Owner<D>>) -> Option<(Owner<D>, Vec<Owner<D>>)>
    ensures fewer { vec_len spare.new ≤ vec_len spare.old }
    ensures less { IfSome result (λ r. vec_len r.1 < vec_len spare.old) }
{
    let at = spare.len() / 2;
    let Ok(mut half) = spare.split_off(at) else {
        return None;
    };
    if half.is_empty() {
        return None;
    }
    let own = half.remove(0);
    Some((own, half))
}
