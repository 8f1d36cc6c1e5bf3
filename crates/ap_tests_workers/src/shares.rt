//! How a task's equal cases are shared among workers.
ghost use Rattle.std.specs.Prelude.{◌≡◌, true, false};
ghost use Rattle.ap_walk.specs.declared.act.Process.{Process};
ghost use Rattle.ap_walk.specs.declared.act.Out.{Out};

use crate::gates::Sharing;
use crate::tree::Cased;
use crate::walks::initial;
use ap_names::GoalName;
use ap_speculate::speculate;
use ap_walk::*;
use std::alloc::Global;
use std::process::Abort;
use std::sync::Wait;
use std::sync::atomic::AtomicU64;
use std::sync::atomic::Ordering::SeqCst;
use std::thread::Threads;

/// The step of these tasks. What the work comes to is added up, and tells nothing.
#[derive(Drop)]
struct Cases {
    worked: AtomicU64,
}

/// How many rounds the work of a case has.
const ROUNDS: u32 = 20_000;

/// Some work.
fn work() -> u64 {
    let mut word = 1u64;
    for round in 0..ROUNDS {
        word = word
            .wrapping_mul(6_364_136_223_846_793_005)
            .wrapping_add(round as u64);
    }
    word
}

impl Step for Cases {
    ghost use Rattle.std.specs.Prelude.{[], None};
    ghost use Rattle.ap_tests_workers.specs.Cases.{step_of, levels, all_below};
    ghost use Rattle.ap_tests_workers.specs.declared.tree.Cased.TheVariants.{Whole, Case};

    type Task = Cased;

    ghost step_of = { step_of };

    ghost good = { λ _. Unit {0} };

    ghost name = { λ _. record { induction = []; case = None; path = []; primes = 0 } };

    ghost depth = { levels };

    ghost tells = { elim [ Whole ↦ ((λ e. Prim.cc), (λ e. Prim.cc)) | Case ↦ ((λ e. Prim.cc), (λ e. Prim.cc)) ] };

    ghost deeper = { elim [ Whole ↦ all_below 64 | Case ↦ tt ] };

    ghost whole = { λ _ _ _. tt };

    fn step(&self, alloc: Global, task: &Cased) -> Result<Stepped<Cased>, NoMemory> {
        match *task {
            Cased::Whole => Ok(split(Seq::from_vec(vec![in alloc; Cased::Case; 64]?))),
            Cased::Case => {
                self.worked.fetch_add(work(), SeqCst);
                Ok(split(Seq::new(alloc)))
            }
        }
    }

    fn copy_task(&self, _alloc: Global, task: &Cased) -> Result<Cased, NoMemory> {
        Ok(*task)
    }

    fn same_task(&self, a: &Cased, b: &Cased) -> bool {
        *a == *b
    }

    fn name_of(&self, alloc: Global, _task: &Cased) -> Result<GoalName, NoMemory> {
        Ok(GoalName {
            induction: Seq::new(alloc),
            case: None,
            path: Seq::new(alloc),
            primes: 0,
        })
    }
}

/// The step of a task that splits.
fn split(children: Seq<Cased>) -> Stepped<Cased>
    ensures { result ≡ record { act = record { process = Process.Simplify; missed = false; limited = false }; out = Out.Split children } }
{
    Stepped {
        act: Act {
            process: Process::Simplify,
            missed: false,
            limited: false,
        },
        out: Out::Split(children),
    }
}

/// Works the task with 64 cases by four workers, each of which begins an eighth of them or more.
fn expect_shares<R: Threads + Wait + Sync + Abort>(rt: &R, alloc: Global) -> Result<(), NoMemory> {
    let step = Cases {
        worked: AtomicU64::new(0),
    };
    let gate = Sharing::new();
    let rule = initial(false, 1000);
    let state = speculate(rt, alloc, &step, &Cased::Whole, rule, 4, &gate)?;
    let (walked, _) = state.finish(alloc, &step)?;
    assert_eq!(rt; (walked.marks.len(), walked.end), (65, End::Through));
    assert!(rt; !gate.is_used_up());
    let (a, b, c, d) = gate.counts();
    assert_eq!(rt; a.wrapping_add(b).wrapping_add(c).wrapping_add(d), 64);
    assert!(rt; a >= 8 && b >= 8 && c >= 8 && d >= 8);
    Ok(())
}

/// A worker that began 16 of 64 equal cases waits before its next until each of the four began eight. So each is there,
/// finds one case after another while others are held, and none keeps cases from it. By which shares workers go that run
/// unhindered is the machine's to say, and no test of this kind tells it.
#[test]
fn each_of_four_workers_begins_an_eighth_of_the_cases(rt: HostRuntime) -> Result<(), NoMemory> {
    for _ in 0..5 {
        expect_shares(&rt, rt.alloc())?;
    }
    Ok(())
}
