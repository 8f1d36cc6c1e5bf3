// Where a clause's goal stands among marks.
ghost use Rattle.std.specs.Prelude.{◌≡◌, ◌<◌, [], ◌∷◌, length, IfSome, MatchOption};
ghost use Rattle.ap_world.specs.Recursion.{args_eq};
ghost use Rattle.ap_chain.specs.Marks.{is_for, from_goal, from_split};
ghost use Rattle.ap_chain.specs.Fitting.{IsAmong, Fit, Goes};

use ap_strategy::{Planned, Task};
use ap_term::{Clause, same_terms};
use ap_walk::{Mark, Process};

/// Whether two clauses are one, as the test that definitions choose by. Takes no memory.
fn same_clause(a: &Clause, b: &Clause) -> bool
    ensures { result ≡ args_eq a.now.0 b.now.0 }
{
    same_terms(a.0.as_slice(), b.0.as_slice())
}

/// Whether a mark is one of this clause, and of an induction where `induct` says so.
fn is_for<J: Planned>(mark: &Mark<Task<'_, J>>, clause: &Clause, induct: bool) -> bool
    ensures { result ≡ is_for clause.now induct mark.now }
{
    same_clause(clause, &mark.task.clause) && (!induct || mark.task.induct)
}

/// The marks from the first one on that is of this clause, and of an induction where `induct` says so. Takes no
/// memory.
fn from_goal<'m, 'a, J: Planned>(
    marks: &'m [Mark<Task<'a, J>>],
    clause: &Clause,
    induct: bool,
) -> &'m [Mark<Task<'a, J>>]
    ensures { result.now ≡ from_goal clause.now induct marks.now }
{
    let mut left = marks;
    while let [mark, behind @ ..] = left {
        if is_for(mark, clause, induct) {
            return left;
        }
        left = behind;
    }
    left
}

/// The marks from the first one on that is of this clause; where that goal was pushed, from the first induction of the
/// clause behind it. Takes no memory.
fn from_split<'m, 'a, J: Planned>(
    marks: &'m [Mark<Task<'a, J>>],
    clause: &Clause,
) -> &'m [Mark<Task<'a, J>>]
    ensures { result.now ≡ from_split clause.now marks.now }
{
    let found = from_goal(marks, clause, false);
    let [mark, behind @ ..] = found else {
        return found;
    };
    match mark.act.process {
        Process::Push => from_goal(behind, clause, true),
        _ => found,
    }
}

/// The first of some marks and those behind it. Takes no memory.
fn parted<'m, 'a, J: Planned>(
    marks: &'m [Mark<Task<'a, J>>],
) -> Option<(&'m Mark<Task<'a, J>>, &'m [Mark<Task<'a, J>>])>
    ensures { MatchOption result (marks.now ≡ []) (λ p. marks.now ≡ p.0.now ∷ p.1.now) }
{
    match marks {
        [mark, behind @ ..] => Some((mark, behind)),
        [] => None,
    }
}

/// The mark with whose goal's step a clause's proof begins, and those behind it. It is the first mark of the clause;
/// where that goal was pushed, it is the first induction of the clause behind it. Takes no memory.
pub(crate) fn proof_of<'m, 'a, J: Planned>(
    marks: &'m [Mark<Task<'a, J>>],
    clause: &Clause,
) -> Option<(&'m Mark<Task<'a, J>>, &'m [Mark<Task<'a, J>>])>
    ensures short { IfSome result (λ p. length p.1.now < length marks.now) }
    ensures first { IfSome result (λ p. p.0.now.task.clause ≡ clause.now) }
    ensures goes { Fit marks.now → IsAmong marks.now clause.now → MatchOption result ⊥ (λ p. Goes p.0.now p.1.now) }
{
    parted(from_split(marks, clause))
}
