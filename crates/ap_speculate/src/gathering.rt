//! The deques at a table: how each side is told to be of one, and how they are brought together again.
ghost use Rattle.std.specs.Prelude.{◌≡◌, ◌<◌, Some, IfSome, length, vec_len, take, slice_get};
ghost use Rattle.ap_list.specs.Lists.{Each};
ghost use Rattle.ap_speculate.specs.Sides.{hand_deque, owned, sided, AreRows, IsSettled};

use crate::hands::{Hands, Left};
use crate::owners::{Deques, Owner, Row};
use crate::sides::{settle_all, sides};
use ap_deal::{Dealer, Hand};
use ap_walk::NoMemory;
use std::alloc::Global;
use std::marker::PhantomData;

/// The owner's side of the deque with a number.
fn owner<D: Deques>(at: usize, hand: Hand) -> Owner<D>
    requires { slice_get D.all at ≡ Some (hand_deque hand) }
{
    Owner {
        at,
        hand,
        of: PhantomData,
    }
}

/// The owners' sides of all deques, each with its number. The only error is want of memory.
fn numbered<D: Deques>(alloc: Global, hands: Vec<Hand>) -> Result<Vec<Owner<D>>, NoMemory>
    requires { owned hands.items ≡ D.all }
{
    let mut hands = hands;
    let mut owners = Vec::new(alloc);
    while let Some(hand) = hands.pop() {
        owners.push(owner(hands.len(), hand))?;
    }
    owners.reverse();
    Ok(owners)
}

/// What the first worker begins with, by both sides of all deques, and the deques of those that it may begin. There is
/// nothing where there is no deque or no memory.
pub(crate) fn first_hands<D: Deques>(
    alloc: Global,
    owns: Vec<Hand>,
    dealers: Vec<Dealer>,
) -> Option<(Hands<D>, Vec<Owner<D>>)>
    requires owns { owned owns.items ≡ D.all }
    requires row { sided dealers.items ≡ D.all }
{
    let mut spare = numbered::<D>(alloc, owns).ok()?;
    if spare.is_empty() {
        return None;
    }
    let own = spare.remove(0);
    let others = Row {
        dealers,
        of: PhantomData,
    };
    Some((Hands { own, others }, spare))
}

/// A further thief's side of each deque. The only error is want of memory.
pub(crate) fn further_row<D: Deques>(alloc: Global, row: &mut Row<D>) -> Result<Row<D>, NoMemory> {
    let dealers = sides(alloc, &mut row.dealers)?;
    Ok(Row {
        dealers,
        of: PhantomData,
    })
}

/// Where the owner's side of the deque with a number stands.
fn place_of<D: Deques>(owners: &Vec<Owner<D>>, at: usize) -> Option<usize>
    ensures { IfSome result (λ place. place < vec_len owners.now) }
{
    for place in 0..owners.len() {
        if owners[place].at == at {
            return Some(place);
        }
    }
    None
}

/// Takes the owner's side of the deque with a number out, where it is there.
fn take_owner<D: Deques>(owners: &mut Vec<Owner<D>>, at: usize) -> Option<Hand>
    ensures { IfSome result (λ h. slice_get D.all at ≡ Some (hand_deque h)) }
{
    let place = place_of(owners, at)?;
    let owner = owners.swap_remove(place);
    if owner.at != at {
        return None;
    }
    Some(owner.hand)
}

/// The owners' sides of the first so many deques, in order, where they are there and there is memory.
fn in_order<D: Deques>(alloc: Global, owners: Vec<Owner<D>>, many: usize) -> Option<Vec<Hand>>
    ensures { IfSome result (λ v. owned v.items ≡ take many D.all) }
{
    let mut owners = owners;
    let mut hands = Vec::new(alloc);
    for at in 0..many {
        let hand = take_owner(&mut owners, at)?;
        let Ok(()) = hands.push(hand) else {
            return None;
        };
    }
    Some(hands)
}

/// Thieves' sides, as many rows as there are, where there is memory.
fn rows_of<D: Deques>(alloc: Global, rows: Vec<Row<D>>) -> Option<Vec<Vec<Dealer>>>
    ensures { IfSome result (λ v. AreRows D.all v.items) }
{
    let mut rows = rows;
    let mut made = Vec::new(alloc);
    while let Some(row) = rows.pop() {
        let Ok(()) = made.push(row.dealers) else {
            return None;
        };
    }
    Some(made)
}

/// Settles what workers left of so many deques, which are all: each owner's side with each thief's side of its deque.
/// Answers the owners' sides, in order; nothing is settled where one of them isn't there, or no worker left its thief's
/// sides, or there is no memory.
pub(crate) fn settle_left<D: Deques>(alloc: Global, left: Left<D>, many: usize) -> Option<Vec<Hand>>
    requires { many ≡ length D.all }
    ensures same { IfSome result (λ v. owned v.items ≡ D.all) }
    ensures settled { IfSome result (λ v. Each IsSettled v.items) }
{
    let Left { owners, rows } = left;
    let owns = in_order(alloc, owners, many)?;
    let rows = rows_of(alloc, rows)?;
    if rows.is_empty() {
        return None;
    }
    Some(settle_all(owns, rows))
}
