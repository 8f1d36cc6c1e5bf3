//! Trees of tasks that are computed from their roots' numbers.
ghost use Rattle.std.specs.Prelude.{◌≡◌, ◌%◌, ◌*◌, ◌<◌, IfOk};
ghost use Rattle.ap_tests_workers.specs.Trees.{leaf, kids, split, step_at};

use crate::watching::{Call, Watch};
use ap_names::GoalName;
use ap_walk::*;
use std::alloc::Global;
use std::sync::atomic::AtomicU64;
use std::sync::atomic::Ordering::SeqCst;

/// A task with so many levels below it. Of a task with three children the first is `Subgoal 3` and the last `Subgoal 1`.
#[derive(Clone, Copy, PartialEq, Debug)]
pub(crate) struct Task {
    pub(crate) level: u32,
    pub(crate) number: u32,
}

/// A task with 64 equal cases, or one of these.
#[derive(Clone, Copy, PartialEq, Debug)]
pub(crate) enum Cased {
    /// Splits into 64 cases.
    Whole,
    /// Splits into no tasks, by some work.
    Case,
}

/// The step of a task by its level and number, which counts its calls, and watches those of one kind with one task.
#[derive(Drop)]
pub(crate) struct Counting {
    pub(crate) calls: AtomicU64,
    pub(crate) watch: Watch,
}

/// A step that wasn't called yet, and refuses nothing.
pub(crate) fn fresh_step() -> Counting {
    let root = Task {
        level: 0,
        number: 0,
    };
    watching_step(Watch::refusing_none(Call::Step, root))
}

/// A step that wasn't called yet, with this watch.
pub(crate) fn watching_step(watch: Watch) -> Counting {
    Counting {
        calls: AtomicU64::new(0),
        watch,
    }
}

impl Step for Counting {
    ghost use Rattle.std.specs.Prelude.{[], ◌∷◌, ◌-◌, None};
    ghost use Rattle.ap_tests_workers.specs.Laws.{tells, deeper};

    type Task = Task;

    ghost step_of = { λ t. step_at t.level t.number };

    ghost good = { λ _. Unit {0} };

    ghost name = { λ t. record { induction = []; case = None; path = (3 - t.number % 3) ∷ []; primes = 0 } };

    ghost depth = { λ t. t.level };

    ghost tells = { λ t. tells t.level t.number };

    ghost deeper = { λ t. deeper t.level t.number };

    ghost whole = { λ _ _ _. tt };

    fn step(&self, alloc: Global, task: &Task) -> Result<Stepped<Task>, NoMemory> {
        self.calls.fetch_add(1, SeqCst);
        self.watch.pass(Call::Step, task)?;
        if task.level == 0 {
            return Ok(leaf(alloc, task.number % 16));
        }
        let level = task.level - 1;
        let number = task.number % 1000 * 3;
        branch(alloc, level, task.number % 4, number)
    }

    fn copy_task(&self, _alloc: Global, task: &Task) -> Result<Task, NoMemory> {
        self.watch.pass(Call::Copy, task)?;
        Ok(*task)
    }

    fn same_task(&self, a: &Task, b: &Task) -> bool {
        self.watch.refuses(Call::Compare, a);
        *a == *b
    }

    fn name_of(&self, alloc: Global, task: &Task) -> Result<GoalName, NoMemory> {
        self.watch.pass(Call::Name, task)?;
        Ok(GoalName {
            induction: Seq::new(alloc),
            case: None,
            path: Seq::from_slice(alloc, &[3 - task.number % 3])?,
            primes: 0,
        })
    }
}

/// What comes of a task with no level below it.
fn leaf(alloc: Global, kind: u32) -> Stepped<Task>
    ensures { result ≡ leaf kind }
{
    match kind {
        3 | 9 => Stepped {
            act: Act {
                process: Process::Push,
                missed: true,
                limited: false,
            },
            out: Out::Push,
        },
        13 => Stepped {
            act: Act {
                process: Process::Stop,
                missed: true,
                limited: false,
            },
            out: Out::Stop(Reason::NoScheme),
        },
        _ => Stepped {
            act: Act {
                process: Process::Simplify,
                missed: false,
                limited: false,
            },
            out: Out::Split(Seq::new(alloc)),
        },
    }
}

/// What comes of a task with levels below it.
fn branch(alloc: Global, level: u32, kind: u32, number: u32) -> Result<Stepped<Task>, NoMemory>
    requires { number < 1000000 }
    ensures { IfOk result (λ s. s ≡ split (kids level kind number)) }
{
    let a = Task { level, number };
    let b = Task {
        level,
        number: number + 1,
    };
    let c = Task {
        level,
        number: number + 2,
    };
    let children = match kind {
        1 => Seq::from_slice(alloc, &[a, b])?,
        2 => Seq::from_slice(alloc, &[a])?,
        _ => Seq::from_slice(alloc, &[a, b, c])?,
    };
    Ok(Stepped {
        act: Act {
            process: Process::Simplify,
            missed: false,
            limited: false,
        },
        out: Out::Split(children),
    })
}
