//! Sides of the deques of nodes' numbers, each of which is known to be of a deque at the table.
ghost use Rattle.std.specs.Prelude.{◌≡◌, Some, slice_get};
ghost use Rattle.ap_speculate.specs.Sides.{hand_deque, sided};

use ap_deal::{Dealer, Hand};
use std::marker::{Brand, PhantomData};

/// The deques at a table, in the order of the workers. Each call that works at one picks them.
pub(crate) trait Deques {
    ghost use Rattle.std.specs.Prelude.{List};
    ghost use Rattle.ap_speculate.specs.Sides.{Deque};

    ghost all: { List Deque };
}

impl Deques for Brand {
    ghost use Rattle.std.specs.Prelude.{[]};

    ghost all = { [] };
}

/// The owner's side of the deque with a number.
#[derive(Drop)]
pub(crate) struct Owner<D: Deques> {
    pub(crate) at: usize,
    pub(crate) hand: Hand,
    pub(crate) of: PhantomData<D>,
    ghost is: { slice_get D.all at ≡ Some (hand_deque hand) },
}

/// A thief's side of each deque, in the order of the workers.
#[derive(Drop)]
pub(crate) struct Row<D: Deques> {
    pub(crate) dealers: Vec<Dealer>,
    pub(crate) of: PhantomData<D>,
    ghost is: { sided dealers.items ≡ D.all },
}

impl<D: Deques> Owner<D> {
    /// Deals a number. One for which there is no room comes back.
    pub(crate) fn deal(&mut self, node: u32) -> Result<(), u32> {
        self.hand.deal(node)
    }

    /// Takes the number that was dealt first.
    pub(crate) fn take_own(&mut self) -> Option<u32> {
        self.hand.take_own()
    }
}
