//! The list of the nodes that are free or claimed. It is kept from its end: the node that comes first in
//! serial order stands last. So a claim passes the claimed nodes that come before the first free one, and
//! no others.
ghost use Rattle.std.specs.Prelude.{◌≡◌, ◌≢◌, ◌+◌, ◌≤◌, ◌<◌, ◌∷◌, ◌++◌, [], List, length, take, drop, reverse, IfSome, None, vec_capacity};
ghost use Rattle.ap_list.specs.Lists.{Each};
ghost use Rattle.ap_table.specs.Order.{numbers, replace};
ghost use Rattle.ap_table.specs.Live.{free_at, IsBusy, FirstFree};

use crate::stored::{Stage, Stored};

/// Whether a node is free.
pub(crate) fn is_free<T>(nodes: &Vec<Stored<T>>, node: u32) -> bool
    ensures { result ≡ free_at nodes.now.items node }
{
    let i = node as usize;
    if i >= nodes.len() {
        return false;
    }
    match &nodes[i].stage {
        Stage::Free(_) => true,
        _ => false,
    }
}

/// The first free node of the list.
pub(crate) fn first_free<T>(nodes: &Vec<Stored<T>>, live: &[u32]) -> Option<u32>
    ensures found { IfSome result (λ k. FirstFree nodes.now.items live.now k) }
    ensures none { result ≡ None → Each (IsBusy nodes.now.items) live.now }
{
    let mut at = live.len();
    while at > 0 {
        at -= 1;
        let node = live[at];
        if is_free(nodes, node) {
            return Some(node);
        }
    }
    None
}

/// Where a node stands in the list.
fn stand(live: &[u32], node: u32) -> Option<usize>
    ensures found { IfSome result (λ at. (at < length live.now) × (live.now ≡ take at live.now ++ node ∷ drop (at + 1) live.now) × Each (λ x. x ≢ node) (drop (at + 1) live.now)) }
    ensures none { result ≡ None → Each (λ x. x ≢ node) live.now }
{
    let mut at = live.len();
    while at > 0 {
        at -= 1;
        if live[at] == node {
            return Some(at);
        }
    }
    None
}

/// Takes a node out of the list.
pub(crate) fn take_out(live: &mut Vec<u32>, node: u32)
    ensures { reverse live.new.items ≡ replace (reverse live.old.items) node [] }
{
    if let Some(at) = stand(live.as_slice(), node) {
        live.remove(at);
    }
}

/// Puts consecutive numbers at the end, the last one first.
fn push_numbers(live: &mut Vec<u32>, first: u32, count: u32)
    requires small { first + count ≤ 1000000 }
    requires room { length live.old.items + count ≤ vec_capacity live.old }
    ensures { live.new.items ≡ live.old.items ++ reverse (numbers first count) }
{
    let mut i = count;
    while i > 0 {
        i -= 1;
        live.push_reserved(first + i);
    }
}

/// Puts so many that stand from a place on behind those that follow them.
fn turn(items: &mut [u32], at: usize, many: usize)
    requires { at + many ≤ length items.old }
    ensures { items.new ≡ take at items.old ++ (drop many (drop at items.old) ++ take many (drop at items.old)) }
{
    items[at..].rotate_left(many);
}

/// Puts the children of a node where it stood.
pub(crate) fn give_way(live: &mut Vec<u32>, node: u32, first: u32, count: u32)
    requires small { first + count ≤ 1000000 }
    requires room { length live.old.items + count ≤ vec_capacity live.old }
    ensures { reverse live.new.items ≡ replace (reverse live.old.items) node (numbers first count) }
{
    let Some(at) = stand(live.as_slice(), node) else {
        return;
    };
    live.remove(at);
    let before = live.len() - at;
    push_numbers(live, first, count);
    turn(live.as_mut_slice(), at, before);
}
