//! A new deque.
ghost use Rattle.std.specs.Prelude.{◌≡◌, IfOk};
ghost use Rattle.ap_deal.specs.Deals.{blank};
ghost use Rattle.ap_deal.specs.Hands.{hand_log, dealer_log, IsOf};

use crate::hands::{Dealer, Hand};
use crate::rule::{Fair, Log};
use ap_list::NoMemory;
use crossbeam_deque::Worker;
use std::alloc::Global;

/// The first slots of a deque.
const FIRST: usize = 64;

/// A deque in which nothing was dealt, by its owner's side and one thief's. The only error is want of memory.
pub fn hand(alloc: Global) -> Result<(Hand, Dealer), NoMemory>
    ensures same { IfOk result (λ r. IsOf r.0 r.1) }
    ensures blank { IfOk result (λ r. (hand_log r.0 ≡ blank) × (dealer_log r.1 ≡ blank)) }
{
    let worker: Worker<u32, Global, Log, Fair> = Worker::fifo_as(alloc, FIRST)?;
    let stealer = worker.stealer()?;
    let pass = stealer.pass();
    let capacity = FIRST;
    Ok((Hand { worker, capacity }, Dealer { stealer, pass }))
}
