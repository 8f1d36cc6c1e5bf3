ghost use Rattle.std.specs.Prelude.{◌≡◌, ◌<◌, ◌≤◌, ◌↔◌, false, IsTrue, IfOk};
ghost use Rattle.ap_names.specs.Names.{child_of, primed_of, pushed_of, is_pushed, name_eq};
ghost use Rattle.ap_names.specs.Printed.{name_text};

use crate::print::{put_induction, put_place, put_primes};
use ap_list::{Bytes, NoMemory, Seq};
use std::alloc::Global;
use std::marker::Model;

/// The name of a goal: the numbers of the induction that it is under, its case of that induction, its
/// place among the subgoals of that case, and its primes. Each number in `induction`, `case` and `path`
/// is at least 1. `case` is `None` where `induction` is empty. Where `induction` isn't empty and `case`
/// is `None`, which is the name of a pushed goal, `path` is empty and `primes` is 0.
#[derive(Debug, Drop)]
pub struct GoalName {
    pub induction: Seq<u32>,
    pub case: Option<u32>,
    pub path: Seq<u32>,
    pub primes: u32,
}

impl Model for GoalName {
    ghost use Rattle.ap_names.specs.Names.{Name, IsName};

    ghost Value = { Name };

    ghost view = { λ n. record { induction = n.induction; case = n.case; path = n.path; primes = n.primes } };

    ghost invariant = { λ n. IsName (record { induction = n.induction; case = n.case; path = n.path; primes = n.primes }) };
}

/// A copy of a list of numbers.
fn copy_numbers(alloc: Global, numbers: &Seq<u32>) -> Result<Seq<u32>, NoMemory>
    ensures { IfOk result (λ copy. copy ≡ numbers.now) }
{
    Seq::from_slice(alloc, numbers.as_slice())
}

impl GoalName {
    /// Whether the name is a pushed goal's, as `*1.1`. Takes no memory.
    pub fn is_pushed(&self) -> bool
        ensures { result ≡ is_pushed self.now }
    {
        !self.induction.is_empty() && self.case.is_none()
    }

    /// The name of the `k`-th of several children: `Subgoal 2` for `Goal` and for `Goal'`,
    /// `Subgoal 2.1` for `Subgoal 2'`, and the case `Subgoal *1/3` for the pushed goal `*1`.
    pub fn child(&self, alloc: Global, k: u32) -> Result<GoalName, NoMemory>
        requires { 1 ≤ k }
        ensures { IfOk result (λ name. name ≡ child_of self.now k) }
    {
        let induction = copy_numbers(alloc, &self.induction)?;
        if self.is_pushed() {
            return Ok(GoalName {
                induction,
                case: Some(k),
                path: Seq::new(alloc),
                primes: 0,
            });
        }
        let mut path = copy_numbers(alloc, &self.path)?;
        path.push(k)?;
        Ok(GoalName {
            induction,
            case: self.case,
            path,
            primes: 0,
        })
    }

    /// The name of an only child, which has one prime more.
    pub fn primed(&self, alloc: Global) -> Result<GoalName, NoMemory>
        requires few { self.now.primes < 250 }
        requires unpushed { is_pushed self.now ≡ false }
        ensures { IfOk result (λ name. name ≡ primed_of self.now) }
    {
        let induction = copy_numbers(alloc, &self.induction)?;
        let path = copy_numbers(alloc, &self.path)?;
        Ok(GoalName {
            induction,
            case: self.case,
            path,
            primes: self.primes + 1,
        })
    }

    /// The name of the `k`-th goal that is pushed in the proof of what this name is under: `*1` for
    /// names under no induction, `*1.2` for `*1` and those under it.
    pub fn pushed(&self, alloc: Global, k: u32) -> Result<GoalName, NoMemory>
        requires { 1 ≤ k }
        ensures { IfOk result (λ name. name ≡ pushed_of self.now k) }
    {
        let mut induction = copy_numbers(alloc, &self.induction)?;
        induction.push(k)?;
        Ok(GoalName {
            induction,
            case: None,
            path: Seq::new(alloc),
            primes: 0,
        })
    }

    /// The printed bytes of the name.
    pub fn print(&self, alloc: Global) -> Result<Bytes, NoMemory>
        ensures { IfOk result (λ text. text ≡ name_text self.now) }
    {
        let mut text = Seq::new(alloc);
        let path = self.path.as_slice();
        match self.induction.as_slice().split_first() {
            None => put_place(&mut text, path)?,
            Some((first, rest)) => put_induction(&mut text, *first, rest, self.case, path)?,
        }
        put_primes(&mut text, self.primes)?;
        Ok(text)
    }

    /// A copy of a name.
    pub fn copy(&self, alloc: Global) -> Result<GoalName, NoMemory>
        ensures { IfOk result (λ copy. copy ≡ self.now) }
    {
        let induction = copy_numbers(alloc, &self.induction)?;
        let path = copy_numbers(alloc, &self.path)?;
        Ok(GoalName {
            induction,
            case: self.case,
            path,
            primes: self.primes,
        })
    }
}

/// Whether two names are one. Takes no memory.
pub fn same_name(a: &GoalName, b: &GoalName) -> bool
    ensures { IsTrue result ↔ (a.now ≡ b.now) }
{
    a.primes == b.primes
        && a.case == b.case
        && a.induction.as_slice() == b.induction.as_slice()
        && a.path.as_slice() == b.path.as_slice()
}

/// The same, as the test that definitions choose by. Takes no memory.
pub fn is_name(a: &GoalName, b: &GoalName) -> bool
    ensures { result ≡ name_eq a.now b.now }
{
    same_name(a, b)
}
