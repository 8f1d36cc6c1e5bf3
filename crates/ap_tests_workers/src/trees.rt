//! Trees that are given as data, by their roots.
ghost use Rattle.std.specs.Prelude.{◌≡◌, IfOk, true, false};

use ap_names::GoalName;
use ap_walk::*;
use std::alloc::Global;

#[derive(Clone, Copy, PartialEq, Debug)]
pub(crate) enum Tree {
    /// Splits into no tasks.
    Empty,
    /// Is pushed.
    Left,
    /// Is pushed.
    Right,
    /// Splits into `Left` and `Right`.
    Pair,
    /// Splits into `Pair`.
    Over,
    /// Splits into `Left`, `Empty` and `Right`.
    Three,
    /// Splits into `Over`, `Empty` and `Left`.
    Deep,
    /// Splits into `Pair` and `Empty`.
    Uneven,
}

pub(crate) struct Trees;

impl Step for Trees {
    ghost use Rattle.std.specs.Prelude.{ℕ, [], ◌∷◌, true, false, None};
    ghost use Rattle.std.proofs.Common.{rules, arith};
    ghost use Rattle.ap_walk.specs.declared.act.Process.{Process};
    ghost use Rattle.ap_walk.specs.declared.act.Out.{Out};
    ghost use Rattle.ap_tests_workers.specs.declared.trees.Tree.TheVariants.{Empty, Left, Right, Pair, Over, Three, Deep, Uneven};

    type Task = Tree;

    ghost step_of = { elim [
      | Empty ↦ record { act = record { process = Process.Simplify; missed = false; limited = false }; out = Out.Split [] }
      | Left ↦ record { act = record { process = Process.Push; missed = true; limited = false }; out = Out.Push }
      | Right ↦ record { act = record { process = Process.Push; missed = true; limited = false }; out = Out.Push }
      | Pair ↦ record { act = record { process = Process.Simplify; missed = false; limited = false }; out = Out.Split (Left ∷ Right ∷ []) }
      | Over ↦ record { act = record { process = Process.Simplify; missed = false; limited = false }; out = Out.Split (Pair ∷ []) }
      | Three ↦ record { act = record { process = Process.Simplify; missed = false; limited = false }; out = Out.Split (Left ∷ Empty ∷ Right ∷ []) }
      | Deep ↦ record { act = record { process = Process.Simplify; missed = false; limited = false }; out = Out.Split (Over ∷ Empty ∷ Left ∷ []) }
      | Uneven ↦ record { act = record { process = Process.Simplify; missed = false; limited = false }; out = Out.Split (Pair ∷ Empty ∷ []) }
    ] };

    ghost good = { λ _. Unit {0} };

    ghost name = { elim [
      | Empty ↦ record { induction = []; case = None; path = []; primes = 1 }
      | Left ↦ record { induction = []; case = None; path = []; primes = 2 }
      | Right ↦ record { induction = []; case = None; path = []; primes = 3 }
      | Pair ↦ record { induction = []; case = None; path = []; primes = 4 }
      | Over ↦ record { induction = []; case = None; path = []; primes = 5 }
      | Three ↦ record { induction = []; case = None; path = []; primes = 6 }
      | Deep ↦ record { induction = []; case = None; path = []; primes = 7 }
      | Uneven ↦ record { induction = []; case = None; path = []; primes = 8 }
    ] };

    ghost depth = { elim [ Empty ↦ 0 | Left ↦ 0 | Right ↦ 0 | Pair ↦ 1 | Over ↦ 2 | Three ↦ 1 | Deep ↦ 3 | Uneven ↦ 2 ] };

    ghost tells = { elim [
      | Empty ↦ ((λ e. Prim.cc), (λ e. Prim.cc))
      | Left ↦ Prim.search rules
      | Right ↦ Prim.search rules
      | Pair ↦ ((λ e. Prim.cc), (λ e. Prim.cc))
      | Over ↦ ((λ e. Prim.cc), (λ e. Prim.cc))
      | Three ↦ ((λ e. Prim.cc), (λ e. Prim.cc))
      | Deep ↦ ((λ e. Prim.cc), (λ e. Prim.cc))
      | Uneven ↦ ((λ e. Prim.cc), (λ e. Prim.cc))
    ] };

    ghost deeper = { elim [
      | Empty ↦ tt
      | Left ↦ tt
      | Right ↦ tt
      | Pair ↦ (Prim.omega arith, (Prim.omega arith, tt))
      | Over ↦ (Prim.omega arith, tt)
      | Three ↦ (Prim.omega arith, (Prim.omega arith, (Prim.omega arith, tt)))
      | Deep ↦ (Prim.omega arith, (Prim.omega arith, (Prim.omega arith, tt)))
      | Uneven ↦ (Prim.omega arith, (Prim.omega arith, tt))
    ] };

    ghost whole = { λ _ _ _. tt };

    fn step(&self, alloc: Global, task: &Tree) -> Result<Stepped<Tree>, NoMemory> {
        match *task {
            Tree::Empty => split(alloc, &[]),
            Tree::Left | Tree::Right => Ok(pushed()),
            Tree::Pair => split(alloc, &[Tree::Left, Tree::Right]),
            Tree::Over => split(alloc, &[Tree::Pair]),
            Tree::Three => split(alloc, &[Tree::Left, Tree::Empty, Tree::Right]),
            Tree::Deep => split(alloc, &[Tree::Over, Tree::Empty, Tree::Left]),
            Tree::Uneven => split(alloc, &[Tree::Pair, Tree::Empty]),
        }
    }

    fn copy_task(&self, _alloc: Global, task: &Tree) -> Result<Tree, NoMemory> {
        Ok(*task)
    }

    fn same_task(&self, a: &Tree, b: &Tree) -> bool {
        *a == *b
    }

    fn name_of(&self, alloc: Global, task: &Tree) -> Result<GoalName, NoMemory> {
        Ok(GoalName {
            induction: Seq::new(alloc),
            case: None,
            path: Seq::new(alloc),
            primes: match *task {
                Tree::Empty => 1,
                Tree::Left => 2,
                Tree::Right => 3,
                Tree::Pair => 4,
                Tree::Over => 5,
                Tree::Three => 6,
                Tree::Deep => 7,
                Tree::Uneven => 8,
            },
        })
    }
}

/// The step of a task that splits.
fn split(alloc: Global, children: &[Tree]) -> Result<Stepped<Tree>, NoMemory>
    ensures { IfOk result (λ s. s ≡ record { act = record { process = Process.Simplify; missed = false; limited = false }; out = Out.Split children.now }) }
{
    let children = Seq::from_slice(alloc, children)?;
    Ok(Stepped {
        act: Act {
            process: Process::Simplify,
            missed: false,
            limited: false,
        },
        out: Out::Split(children),
    })
}

/// The step of a task that is pushed.
fn pushed() -> Stepped<Tree>
    ensures { result ≡ record { act = record { process = Process.Push; missed = true; limited = false }; out = Out.Push } }
{
    Stepped {
        act: Act {
            process: Process::Push,
            missed: true,
            limited: false,
        },
        out: Out::Push,
    }
}
