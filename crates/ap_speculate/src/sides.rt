//! The deques of nodes' numbers: how they are made, and how they are settled.
ghost use Rattle.std.specs.Prelude.{◌≡◌, ℕ, ◌+◌, ◌<◌, length, IfOk};
ghost use Rattle.ap_list.specs.Lists.{Each};
ghost use Rattle.ap_speculate.specs.Sides.{owned, sided, dealt_by, got_by, stolen_by, stolen_in, AreRows, IsSettled};

use ap_deal::{Dealer, Hand, hand};
use ap_walk::NoMemory;
use std::alloc::Global;

/// The deques of so many workers: the owners' sides, and a thief's side of each. The only error is want of memory.
pub(crate) fn deal_in(alloc: Global, workers: u32) -> Result<(Vec<Hand>, Vec<Dealer>), NoMemory>
    ensures { IfOk result (λ r. sided r.1.items ≡ owned r.0.items) }
{
    let mut owns = Vec::new(alloc);
    let mut row = Vec::new(alloc);
    for _ in 0..workers {
        let (own, thief) = hand(alloc)?;
        owns.push(own)?;
        row.push(thief)?;
    }
    Ok((owns, row))
}

/// A further thief's side of each deque. The only error is want of memory.
pub(crate) fn sides(alloc: Global, thieves: &mut Vec<Dealer>) -> Result<Vec<Dealer>, NoMemory>
    ensures same { sided thieves.new.items ≡ sided thieves.old.items }
    ensures made { IfOk result (λ v. sided v.items ≡ sided thieves.old.items) }
{
    let mut made = Vec::new(alloc);
    for thief in thieves.iter_mut() {
        made.push(thief.split()?)?;
    }
    Ok(made)
}

/// Settles a thief's side of each deque with its owner's: what these got counts as got by the owners, and each of them
/// is settled.
fn settle_row(owns: &mut Vec<Hand>, row: Vec<Dealer>)
    requires { sided row.items ≡ owned owns.old.items }
    ensures same { owned owns.new.items ≡ owned owns.old.items }
    ensures dealt { (x : ℕ) → dealt_by x owns.new.items ≡ dealt_by x owns.old.items }
    ensures got { (x : ℕ) → got_by x owns.new.items ≡ got_by x owns.old.items + stolen_by x row.items }
    ensures settled { Each IsSettled owns.new.items }
{
    let mut row = row;
    while let Some(dealer) = row.pop() {
        let at = row.len();
        owns[at].settle(dealer);
    }
}

/// Settles what workers left: each owner's side with each thief's side of its deque.
pub(crate) fn settle_all(owns: Vec<Hand>, rows: Vec<Vec<Dealer>>) -> Vec<Hand>
    requires rows { AreRows (owned owns.items) rows.items }
    requires some { 0 < length rows.items }
    ensures same { owned result.items ≡ owned owns.items }
    ensures dealt { (x : ℕ) → dealt_by x result.items ≡ dealt_by x owns.items }
    ensures got { (x : ℕ) → got_by x result.items ≡ got_by x owns.items + stolen_in x rows.items }
    ensures settled { Each IsSettled result.items }
{
    let mut owns = owns;
    let mut rows = rows;
    while let Some(row) = rows.pop() {
        settle_row(&mut owns, row);
    }
    owns
}
