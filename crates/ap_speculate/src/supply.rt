//! Where a worker finds its next job.
ghost use Rattle.std.specs.Prelude.{◌≡◌, ◌⊎◌, List, IfSome, IfNone};
ghost use Rattle.ap_table.specs.Locked.{OneStep};
ghost use Rattle.ap_table.specs.Steps.{Claims};
ghost use Rattle.ap_table.specs.declared.stored.Claim.TheVariants as claim;
ghost use Rattle.ap_speculate.specs.Turns.{WasClaimed};
ghost use Rattle.ap_speculate.specs.Sides.{sided};

use crate::gathering::further_row;
use crate::hands::Hands;
use crate::owners::{Deques, Row};
use ap_deal::{Dealer, Stolen};
use ap_table::{Claim, GoalTable, Job};
use ap_walk::{NoMemory, Step};
use std::alloc::Global;
use std::marker::Model;
use std::sync::Wait;

/// The numbers of a node's children, which are consecutive.
#[derive(Clone, Copy)]
pub(crate) struct Children {
    pub(crate) first: u32,
    pub(crate) count: u32,
}

/// A worker's deques, and the jobs that it claimed for want of room in its own.
#[derive(Drop)]
pub(crate) struct Supply<S: Step, D: Deques> {
    hands: Hands<D>,
    held: Vec<Job<S::Task>>,
}

impl<S: Step, D: Deques> Model for Supply<S, D> {
    ghost use Rattle.std.specs.Prelude.{List};
    ghost use Rattle.ap_list.specs.Lists.{Each};
    ghost use Rattle.ap_table.specs.declared.stored.Job.{Job};
    ghost use Rattle.ap_speculate.specs.Turns.{WasClaimed};

    ghost Value = { List (Job S.Task) };

    ghost view = { λ s. s.held.items };

    ghost invariant = { λ s. Each (WasClaimed S.step_of S.depth) s.held.items };
}

/// The job of a node whose number a worker has, where that is free.
fn claim_number<S: Step, R: Wait>(
    rt: &R,
    table: &GoalTable<S>,
    number: Option<u32>,
) -> Option<Job<S::Task>>
    ensures { IfSome result (WasClaimed S.step_of S.depth) }
{
    let Some(node) = number else {
        return None;
    };
    match table.claim_node(rt, node) {
        Claim::Found(job) => Some(job),
        Claim::Nothing => None,
    }
}

/// The number that a theft got.
fn number_of(stolen: Stolen) -> Option<u32> {
    match stolen {
        Stolen::Number(node) => Some(node),
        Stolen::Empty | Stolen::Again => None,
    }
}

/// A job by a number that another worker dealt. Each is asked once, in order.
fn steal_job<S: Step, R: Wait>(
    rt: &R,
    table: &GoalTable<S>,
    others: &mut Vec<Dealer>,
) -> Option<Job<S::Task>>
    ensures same { sided others.new.items ≡ sided others.old.items }
    ensures found { IfSome result (WasClaimed S.step_of S.depth) }
{
    for dealer in others.iter_mut() {
        if let Some(job) = claim_number(rt, table, number_of(dealer.steal())) {
            return Some(job);
        }
    }
    None
}

/// The job of the first free node.
fn scan<S: Step, R: Wait>(rt: &R, table: &GoalTable<S>) -> Option<Job<S::Task>>
    ensures found { IfSome result (WasClaimed S.step_of S.depth) }
    ensures none { IfNone result (OneStep S.step_of S.depth (λ old new. Claims S.step_of S.depth old new claim.Nothing)) }
{
    match table.claim(rt) {
        Claim::Found(job) => Some(job),
        Claim::Nothing => None,
    }
}

impl<S: Step, D: Deques> Supply<S, D> {
    /// What a worker begins with.
    pub(crate) fn new(alloc: Global, hands: Hands<D>) -> Supply<S, D> {
        Supply {
            hands,
            held: Vec::new(alloc),
        }
    }

    /// A job that is held.
    fn held_job(&mut self) -> Option<Job<S::Task>>
        ensures { IfSome result (WasClaimed S.step_of S.depth) }
    {
        self.held.pop()
    }

    /// The next job: one that is held, or by a number of the worker's own deque, or by one of another's, or else of the
    /// first free node. Each deque is asked for one number.
    pub(crate) fn next_job<R: Wait>(&mut self, rt: &R, table: &GoalTable<S>) -> Option<Job<S::Task>>
        ensures found { IfSome result (WasClaimed S.step_of S.depth) }
        ensures none { IfNone result (OneStep S.step_of S.depth (λ old new. Claims S.step_of S.depth old new claim.Nothing)) }
    {
        if let Some(job) = self.held_job() {
            return Some(job);
        }
        if let Some(job) = claim_number(rt, table, self.hands.own.take_own()) {
            return Some(job);
        }
        if let Some(job) = steal_job(rt, table, &mut self.hands.others.dealers) {
            return Some(job);
        }
        scan(rt, table)
    }

    /// Claims a node at once and holds its job. The only error is want of memory.
    fn hold<R: Wait>(&mut self, rt: &R, table: &GoalTable<S>, node: u32) -> Result<(), NoMemory> {
        let Some(job) = claim_number(rt, table, Some(node)) else {
            return Ok(());
        };
        self.held.push(job)?;
        Ok(())
    }

    /// Deals the numbers of a node's children, where it has any, in serial order. The node of one for which the deque has
    /// no room is claimed at once. The only error is want of memory.
    pub(crate) fn deal<R: Wait>(
        &mut self,
        rt: &R,
        table: &GoalTable<S>,
        children: Option<Children>,
    ) -> Result<(), NoMemory> {
        let Some(Children { first, count }) = children else {
            return Ok(());
        };
        for node in first..first.saturating_add(count) {
            if let Err(back) = self.hands.own.deal(node) {
                self.hold(rt, table, back)?;
            }
        }
        Ok(())
    }

    /// A thief's side of each deque, for a further worker. The only error is want of memory.
    pub(crate) fn sides(&mut self, alloc: Global) -> Result<Row<D>, NoMemory> {
        further_row(alloc, &mut self.hands.others)
    }

    /// The worker's deques, when it has taken its last turn.
    pub(crate) fn into_hands(self) -> Hands<D> {
        let Supply { hands, .. } = self;
        hands
    }
}
