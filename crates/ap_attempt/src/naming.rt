ghost use Rattle.std.specs.Prelude.{◌≡◌, ◌≤◌, IfOk};
ghost use Rattle.ap_names.specs.Names.{pushed_of};

use crate::prover::Prover;
use ap_list::NoMemory;
use ap_names::GoalName;
use std::alloc::Global;

/// The name that a task is pushed as, where it is the `k`-th that its walk pushes, from 1: `*k`, or `*1.k` in
/// the proof of `*1`. It is the name of the task's induction. The only error is want of memory.
pub fn push_name<P: Prover>(
    alloc: Global,
    prover: &P,
    task: &P::Task,
    k: u32,
) -> Result<GoalName, NoMemory>
    requires { 1 ≤ k }
    ensures name { IfOk result (λ name. name ≡ pushed_of (P.name task.now) k) }
    ensures induction { IfOk result (λ name. name ≡ P.name (P.inducted task.now k)) }
{
    prover.name_of(alloc, task)?.pushed(alloc, k)
}
