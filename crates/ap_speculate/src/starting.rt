//! A worker, and the threads that it starts.
ghost use Rattle.std.specs.Prelude.{◌<◌, ◌≤◌, IfSome, vec_len};
ghost use denote.Param.Send.{IsSend, IsSync};

use crate::counts::Counts;
use crate::gate::Gate;
use crate::hands::{Begun, Hands, Left, take_half};
use crate::owners::{Deques, Owner};
use crate::supply::Supply;
use crate::turn::goes_on_as;
use ap_table::GoalTable;
use ap_walk::Step;
use ap_word::{FamilyWord, WordSeat};
use std::alloc::Global;
use std::sync::{Mutex, Wait};
use std::thread::{Builder, JoinHandle, Scope, Threads};

/// The stack of a worker's thread, whatever the system gives threads. Its pages are taken only where they are reached.
const WORKER_STACK: usize = 256 * 1024 * 1024;

/// Which of these types may cross to another thread, and which may be shared among threads, as facts of the caller's
/// proof. Costs nothing.
fn may_cross<
    W: Send + Sync,
    V: Send,
    H: Send,
    O: Send,
    L: Sync,
    T: Send,
    S: Sync,
    G: Sync,
    R: Sync,
>()
    ensures word { IsSend W.row }
    ensures shared_word { IsSync W.row }
    ensures seat { IsSend V.row }
    ensures hands { IsSend H.row }
    ensures own { IsSend O.row }
    ensures left { IsSync L.row }
    ensures task { IsSend T.row }
    ensures step { IsSync S.row }
    ensures gate { IsSync G.row }
    ensures handle { IsSync R.row }
{}

/// What a further worker begins with, where there are more goals than workers, and a deque is spare for it: that gets the
/// last half of the spare ones. There is none where there is no memory.
fn further<S: Step, D: Deques>(
    alloc: Global,
    supply: &mut Supply<S, D>,
    spare: &mut Vec<Owner<D>>,
    counts: &Counts,
) -> Option<Begun<D>>
    ensures fewer { vec_len spare.new ≤ vec_len spare.old }
    ensures less { IfSome result (λ b. vec_len b.spare < vec_len spare.old) }
{
    if spare.is_empty() {
        return None;
    }
    if !counts.add_worker() {
        return None;
    }
    let Ok(others) = supply.sides(alloc) else {
        return None;
    };
    let (own, half) = take_half(spare)?;
    Some(Begun {
        hands: Hands { own, others },
        spare: half,
    })
}

/// The number of a further worker: behind it stand those that the worker who starts it may still begin.
fn number_after<D: Deques>(worker: u32, spare: &Vec<Owner<D>>) -> u32 {
    let behind = u32::try_from(spare.len()).unwrap_or(u32::MAX);
    worker.saturating_add(1).saturating_add(behind)
}

/// Leaves a worker's deques, and those of workers that it didn't begin, where there is memory.
pub(crate) fn leave<D: Deques, R: Wait>(
    rt: &R,
    left: &Mutex<Left<D>>,
    hands: Hands<D>,
    spare: Vec<Owner<D>>,
) {
    let mut guard = left.lock(rt);
    let _ = guard.add(hands, spare);
}

/// Joins threads, in the order in which they were started.
fn join_all<R: Threads>(rt: &R, threads: Vec<JoinHandle<()>>) {
    for thread in threads {
        thread.join(rt);
    }
}

/// Works at a table until its root is done or the table is halted. Before each turn the worker starts a thread for a
/// further one, as long as there are more goals than workers and deques are spare: that gets half of these, by which it
/// starts threads itself. Where a thread can't be made the workers that are there do the work. After its last turn the
/// worker leaves its deques. Every thread is joined.
#[cycle(work)]
pub(crate) fn work<
    's,
    E,
    S: Step + Sync,
    D: Deques + Send + Sync,
    G: Gate + Sync,
    R: Threads + Wait + Sync,
>(
    scope: &'s Scope<'s, E>,
    rt: &'s R,
    alloc: Global,
    step: &'s S,
    table: &'s GoalTable<S>,
    left: &'s Mutex<Left<D>>,
    supply: Supply<S, D>,
    spare: Vec<Owner<D>>,
    counts: &'s Counts,
    worker: u32,
    gate: &'s G,
)
where
    S::Task: Send,
{
    may_cross::<FamilyWord, WordSeat, Hands<D>, Owner<D>, Mutex<Left<D>>, S::Task, S, G, R>();
    let mut supply = supply;
    let mut spare = spare;
    let mut threads = Vec::new(alloc);
    for _ in rt.forever() {
        if let Some(begun) = further(alloc, &mut supply, &mut spare, counts) {
            let next = number_after(worker, &spare);
            if threads.reserve(1).is_ok() {
                let started = Builder::new().stack_size(WORKER_STACK).spawn_scoped(
                    scope,
                    move ||
                        requires { IsSync R.row × IsSync S.row × IsSync G.row × IsSend S.Task.row }
                    {
                        let Begun { hands, spare } = begun;
                        let supply = Supply::new(alloc, hands);
                        work(
                            scope, rt, alloc, step, table, left, supply, spare, counts, next, gate,
                        )
                    },
                );
                if let Ok(thread) = started {
                    threads.push_reserved(thread);
                }
            }
            continue;
        }
        if !goes_on_as(rt, alloc, step, table, &mut supply, counts, worker, gate) {
            break;
        }
    }
    leave(rt, left, supply.into_hands(), spare);
    join_all(rt, threads);
}
