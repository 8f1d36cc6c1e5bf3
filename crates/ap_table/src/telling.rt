//! What the finished children of a node tell of where their family stops.
ghost use Rattle.std.specs.Prelude.{◌≡◌, ◌+◌, ◌≤◌, ◌<◌, true, false, length, min, Some, None, ◌⊎◌};
ghost use Rattle.std.specs.List.{slice_get};
ghost use Rattle.ap_list.specs.Lists.{Each};
ghost use Rattle.ap_word.specs.Stops.{reaches};
ghost use Rattle.ap_table.specs.Core.{numbers_of};
ghost use Rattle.ap_table.specs.Laws.{FrontDone};
ghost use Rattle.ap_table.specs.Sums.{IsTold, sum_at, kept_sum, sums_of, weight, InGoals, sum_first, sum_stops, nothing_told, through_tally};

use crate::stored::{Stage, Stored, Sum, Told};
use ap_walk::{End, Rule, Tally};

/// What no finished child tells.
pub(crate) fn nothing_told() -> Told
    ensures { result ≡ nothing_told }
{
    Told {
        stop: u64::MAX,
        front: 0,
        sum: Sum {
            pushes: 0,
            goals: 0,
            ended: 0,
        },
    }
}

/// The tally of a walk that goes through.
pub(crate) fn through_tally(end: End, tally: Tally) -> Option<Tally>
    ensures { result ≡ through_tally end tally }
{
    match end {
        End::Through => Some(tally),
        _ => None,
    }
}

/// What a node comes to, where it is finished.
fn node_sum<T>(nodes: &Vec<Stored<T>>, i: usize) -> Option<Option<Tally>>
    ensures { result ≡ kept_sum (slice_get nodes.now.items i) }
{
    if i >= nodes.len() {
        return None;
    }
    match &nodes[i].stage {
        Stage::Put(walked) => Some(through_tally(walked.end, walked.tally)),
        Stage::Closed(sum) => Some(*sum),
        _ => None,
    }
}

/// What a sibling counts.
fn weight(sum: Option<Option<Tally>>) -> Sum
    ensures is { result ≡ weight sum }
    ensures small { (result.pushes < 4294967296) × (result.goals < 4294967296) × (result.ended ≤ 1) }
{
    match sum {
        None => Sum {
            pushes: 0,
            goals: 0,
            ended: 0,
        },
        Some(None) => Sum {
            pushes: 0,
            goals: 0,
            ended: 1,
        },
        Some(Some(tally)) => Sum {
            pushes: tally.pushes as u64,
            goals: tally.goals as u64,
            ended: 0,
        },
    }
}

/// Whether a walk under this rule reverts at so many pushes.
fn does_revert(rule: Rule, pushes: u64) -> bool
    ensures { result ≡ reaches (numbers_of rule).revert pushes }
{
    if !rule.initial {
        return false;
    }
    if rule.otf {
        return false;
    }
    pushes >= rule.revert as u64
}

/// Whether siblings that come to this end the walk of their family.
fn does_stop(rule: Rule, sum: Sum) -> bool
    ensures { result ≡ sum_stops rule sum }
{
    if sum.ended >= 1 {
        return true;
    }
    if does_revert(rule, sum.pushes) {
        return true;
    }
    sum.goals >= rule.goal_limit as u64
}

/// From what the first siblings come to, down to the first of them that don't stop the family.
fn lower<T>(
    rule: Rule,
    nodes: &Vec<Stored<T>>,
    first: u32,
    count: u32,
    from: u32,
    sum: Sum,
) -> (u32, Sum)
    requires within { from ≤ count }
    requires small { first + count ≤ 1000000 }
    requires sum { sum ≡ sum_first (sums_of None nodes.now.items first count) from }
    ensures within { result.0 ≤ from }
    ensures sum { result.1 ≡ sum_first (sums_of None nodes.now.items first count) result.0 }
    ensures before { sum_stops rule result.1 ≡ false }
    ensures stop { result.0 < from → sum_stops rule (sum_first (sums_of None nodes.now.items first count) (result.0 + 1)) ≡ true }
{
    let mut at = from;
    let mut sum = sum;
    while at > 0 {
        if !does_stop(rule, sum) {
            return (at, sum);
        }
        at -= 1;
        let less = weight(node_sum(nodes, (first + at) as usize));
        sum.pushes -= less.pushes;
        sum.goals -= less.goals;
        sum.ended -= less.ended;
    }
    (at, sum)
}

/// How many siblings from the first on are finished.
fn advanced<T>(nodes: &Vec<Stored<T>>, first: u32, count: u32, front: u32) -> u32
    requires within { front ≤ count }
    requires small { first + count ≤ 1000000 }
    requires done { FrontDone (sums_of None nodes.now.items first count) front }
    ensures within { result ≤ count }
    ensures done { FrontDone (sums_of None nodes.now.items first count) result }
    ensures next { (result ≡ count) ⊎ (slice_get (sums_of None nodes.now.items first count) result ≡ Some None) }
{
    let mut at = front;
    while at < count {
        let None = node_sum(nodes, (first + at) as usize) else {
            at += 1;
            continue;
        };
        return at;
    }
    at
}

/// The lesser of a stop and the number of siblings.
fn least(stop: u64, count: u32) -> u32
    ensures { result ≡ min stop count }
{
    if stop < count as u64 {
        return stop as u32;
    }
    count
}

/// The stop after siblings were gone down to a place.
fn stop_after(at: u32, from: u32, stop: u64) -> u64
    ensures { ((at < from) × (result ≡ at)) ⊎ ((from ≤ at) × (result ≡ stop)) }
{
    if at < from {
        return at as u64;
    }
    stop
}

/// Two sums in one.
fn plus(a: Sum, b: Sum) -> Sum
    requires small { (a.pushes < 4294967296) × (a.goals < 4294967296) × (a.ended < 1) }
    requires also { (b.pushes < 4294967296) × (b.goals < 4294967296) × (b.ended ≤ 1) }
    ensures { result ≡ record { pushes = a.pushes + b.pushes; goals = a.goals + b.goals; ended = a.ended + b.ended } }
{
    Sum {
        pushes: a.pushes + b.pushes,
        goals: a.goals + b.goals,
        ended: a.ended + b.ended,
    }
}

/// What the children of a node tell once the one at a place is finished too.
pub(crate) fn counted<T>(
    rule: Rule,
    nodes: &Vec<Stored<T>>,
    first: u32,
    count: u32,
    told: Told,
    place: u32,
    sum: Option<Tally>,
) -> Told
    requires small { first + count ≤ 1000000 }
    requires place { place < count }
    requires sum { sum_at None nodes.now.items (first + place) ≡ Some sum }
    requires each { Each InGoals (sums_of None nodes.now.items first count) }
    requires told { IsTold rule (sums_of (Some (first + place)) nodes.now.items first count) told }
    ensures told { IsTold rule (sums_of None nodes.now.items first count) result }
    ensures falls { result.stop ≤ told.stop }
    ensures next { (result.front ≡ count) ⊎ (slice_get (sums_of None nodes.now.items first count) result.front ≡ Some None) }
{
    let front = advanced(nodes, first, count, told.front);
    if place as u64 >= told.stop {
        return Told {
            stop: told.stop,
            front,
            sum: told.sum,
        };
    }
    let from = least(told.stop, count);
    let whole = plus(told.sum, weight(Some(sum)));
    let (at, sum) = lower(rule, nodes, first, count, from, whole);
    Told {
        stop: stop_after(at, from, told.stop),
        front,
        sum,
    }
}
