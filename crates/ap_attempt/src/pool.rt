ghost use Rattle.std.specs.Prelude.{◌≡◌, [], ◌∷◌, ◌++◌, MatchOption, IfOk, OnOk};

use ap_list::{NoMemory, Seq};
use std::alloc::Global;
use std::marker::Model;

/// The tasks that wait, as a list whose first is to be walked first.
#[derive(Drop)]
pub struct Pool<T> {
    /// The same list from its end, so that the first is taken off the end.
    waiting: Seq<T>,
}

impl<T> Model for Pool<T> {
    ghost use Rattle.std.specs.Prelude.{List, reverse};

    ghost Value = { List T };

    ghost view = { λ p. reverse p.waiting };
}

impl<T> Pool<T> {
    /// A pool in which nothing waits.
    pub fn new(alloc: Global) -> Pool<T>
        ensures { result ≡ [] }
    {
        Pool {
            waiting: Seq::new(alloc),
        }
    }

    /// Takes the first task, or `None` where none waits.
    pub fn take_first(&mut self) -> Option<T>
        ensures { MatchOption result (self.old ≡ []) (λ first. self.old ≡ first ∷ self.new) }
    {
        self.waiting.pop()
    }
}

impl<T: Drop> Pool<T> {
    /// A pool in which one task waits.
    pub fn of(alloc: Global, task: T) -> Result<Pool<T>, NoMemory>
        ensures { IfOk result (λ pool. pool ≡ task ∷ []) }
    {
        let mut waiting = Seq::new(alloc);
        waiting.push(task)?;
        Ok(Pool { waiting })
    }

    /// Puts tasks, in their order, before those that wait.
    pub fn put_before(&mut self, tasks: Seq<T>) -> Result<(), NoMemory>
        ensures { OnOk result (self.new ≡ tasks ++ self.old) }
    {
        let mut tasks = tasks.into_vec();
        tasks.reverse();
        self.waiting.append(Seq::from_vec(tasks))
    }
}
