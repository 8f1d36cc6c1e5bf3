ghost use Rattle.std.specs.Prelude.{◌≡◌, ◌+◌, ◌^◌, ◌<◌};
ghost use Rattle.ap_walk.specs.Visits.{Tells, out_children, child_count, reason_of, visit_of};
ghost use Rattle.ap_walk.specs.Tallies.{can_revert, end_at, end_after, tally_after, tally_at, tally_by, mark_end, is_push, is_stop};

use crate::act::{Act, Out, Process, Reason};
use crate::mark::Mark;
use crate::rule::{End, Rule, Tally};
use ap_list::Seq;
use std::alloc::Global;

/// The reason that has a number, 1 to 6.
#[tactic(auto, unfolding(crate::specs::Visits::reason_of))]
fn reason_at(number: u32) -> Reason
    ensures { result ≡ reason_of number }
{
    match number {
        1 => Reason::NoScheme,
        2 => Reason::EmptyClause,
        3 => Reason::GoalLimit,
        4 => Reason::PathDepth,
        5 => Reason::InductionDepth,
        _ => Reason::DoNotInduct,
    }
}

/// Whether pushes revert a walk under this rule.
fn reverts(rule: Rule) -> bool
    ensures { result ≡ can_revert rule }
{
    rule.initial && !rule.otf
}

/// How a walk that didn't stop goes on from a tally.
#[tactic(auto, unfolding(crate::specs::Tallies::end_at))]
pub fn end_of(rule: Rule, tally: Tally) -> End
    ensures { result ≡ end_at rule tally }
{
    if reverts(rule) && tally.pushes >= rule.revert {
        End::Revert
    } else if tally.goals >= rule.goal_limit {
        End::Limit
    } else {
        End::Through
    }
}

/// The tally after one more visit.
fn counted(tally: Tally, pushed: bool) -> Tally
    requires pushes { tally.pushes + 1 < 2 ^ 32 }
    requires goals { tally.goals + 1 < 2 ^ 32 }
    ensures { result ≡ tally_by pushed tally }
{
    let pushes = if pushed {
        tally.pushes + 1
    } else {
        tally.pushes
    };
    Tally {
        pushes,
        goals: tally.goals + 1,
    }
}

/// The tally after the visit of a task of which this came.
pub fn counted_out<T>(tally: Tally, out: &Out<T>) -> Tally
    requires pushes { tally.pushes + 1 < 2 ^ 32 }
    requires goals { tally.goals + 1 < 2 ^ 32 }
    ensures { result ≡ tally_after out.now tally }
{
    match out {
        Out::Push => counted(tally, true),
        Out::Split(_) | Out::Stop(_) => counted(tally, false),
    }
}

/// How a walk ends at a task of which this came, and whose visit left this tally.
pub fn end_of_out<T>(rule: Rule, tally: Tally, out: &Out<T>) -> End
    ensures { result ≡ end_after rule out.now tally }
{
    match out {
        Out::Stop(reason) => End::Stopped(*reason),
        Out::Split(_) | Out::Push => end_of(rule, tally),
    }
}

/// The tally after a mark.
pub fn counted_mark<T>(tally: Tally, mark: &Mark<T>) -> Tally
    requires pushes { tally.pushes + 1 < 2 ^ 32 }
    requires goals { tally.goals + 1 < 2 ^ 32 }
    ensures { result ≡ tally_at mark.now tally }
{
    counted(tally, is_push(mark.act.process))
}

/// How a walk ends at a mark that left this tally.
pub fn end_of_mark<T>(rule: Rule, tally: Tally, mark: &Mark<T>) -> End
    ensures { result ≡ mark_end rule mark.now tally }
{
    if is_stop(mark.act.process) {
        End::Stopped(reason_at(mark.children))
    } else {
        end_of(rule, tally)
    }
}

fn is_push(process: Process) -> bool
    ensures { result ≡ is_push process }
{
    matches!(process, Process::Push)
}

fn is_stop(process: Process) -> bool
    ensures { result ≡ is_stop process }
{
    matches!(process, Process::Stop)
}

/// What a mark tells of its children.
fn count_of<T>(out: &Out<T>) -> u32
    ensures { result ≡ child_count out.now }
{
    match out {
        Out::Split(children) => u32::try_from(children.len()).unwrap_or(u32::MAX),
        Out::Push => 0,
        Out::Stop(reason) => reason.number(),
    }
}

/// The mark of a task whose step this was.
pub fn mark_of<T>(task: T, act: Act, out: &Out<T>) -> Mark<T>
    requires { Tells act.process out.now }
    ensures { result ≡ visit_of task (record { act = act; out = out.now }) }
{
    let children = count_of(out);
    Mark {
        task,
        act,
        children,
    }
}

/// The tasks that a task splits into.
pub fn children_of<T: Drop>(alloc: Global, out: Out<T>) -> Seq<T>
    ensures { result ≡ out_children out }
{
    match out {
        Out::Split(children) => children,
        Out::Push | Out::Stop(_) => Seq::new(alloc),
    }
}
