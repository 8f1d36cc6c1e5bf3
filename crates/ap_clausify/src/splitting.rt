ghost use Rattle.std.specs.Prelude.{◌≡◌, ℕ, ◌+◌, ◌*◌, ◌<◌, ◌++◌, ◌∷◌, [], IfOk, IfSome, Some, None, slice_get, length, true, false};
ghost use Rattle.std.specs.Bool.{OnTrue, OnFalse};
ghost use Rattle.std.specs.Option.{option_map};
ghost use Rattle.ap_world.specs.World.{function_of};
ghost use Rattle.ap_kernel.specs.Standing.{DefinesNot};
ghost use Rattle.ap_kernel.specs.Reductions.{KnownClause, Reduces, claims, chained};
ghost use Rattle.ap_kernel.specs.Tidying.{tidy_made};
ghost use Rattle.ap_clausify.specs.Leaves.{clause_leaves};
ghost use Rattle.ap_clausify.specs.Places.{first_choice};
ghost use Rattle.ap_clausify.specs.Scanning.{IsTidy, Ready};
ghost use Rattle.ap_clausify.specs.Vanishing.{Vanishes};
ghost use Rattle.ap_clausify.specs.Splitting.{split_of, settled_left, steps_left};
ghost use Rattle.ap_clausify.specs.Frames.{Waits, Linked, due, resumed, origin, outcome, at_hand, comes, IsAtHand, Goes, weight};

use crate::leaves::clause_leaves;
use crate::places::Place;
use crate::scanning::{Scanned, scan};
use crate::states::{Case, Frame, Split, State, Task, Turn};
use ap_kernel::{Reduction, chain, keep, split_if, tidy};
use ap_list::{NoMemory, Seq};
use ap_term::{Clause, Steps, copy_terms};
use ap_world::World;
use std::alloc::Global;

/// What a clause is reduced to whose cases are all done.
fn joined(alloc: Global, w: &World, frame: Frame) -> Result<Reduction, NoMemory>
    requires waits { Waits w.now frame }
    requires none { slice_get frame.split.says.to (length frame.done) ≡ None }
    ensures stands { IfOk result (λ r. Reduces w.now r) }
    ensures made { IfOk result (λ r. r.says ≡ chained frame.split.says (claims frame.done)) }
{
    let Frame { split, done, .. } = frame;
    chain(alloc, w, split, done)
}

/// A case of a clause that waits, as one that is to be split.
fn case_of(alloc: Global, frame: &Frame, case: &Clause) -> Result<Case, NoMemory>
    ensures { IfOk result (λ k. k ≡ record { clause = case.now; cursor = frame.now.literal; tidy = frame.now.tidy }) }
{
    let clause = Clause(copy_terms(alloc, case.0.as_slice())?);
    Ok(Case {
        clause,
        cursor: frame.literal,
        tidy: frame.tidy,
    })
}

/// Goes on with a clause whose next case is due: makes it, which spends a step, or joins what all are
/// reduced to. `Out` where no step is left.
fn go_on(
    alloc: Global,
    w: &World,
    mut frames: Seq<Frame>,
    frame: Frame,
    steps: &mut Steps,
) -> Result<Turn, NoMemory>
    requires linked { Linked w.now frames frame.split.says.from }
    requires waits { Waits w.now frame }
    ensures { IfOk result (λ t. Goes w.now frames frame.split.says.from (due frame steps.old.left) (2 * steps.old.left + (length frames + 1)) t steps.new.left) }
{
    let Some(case) = frame.split.to().get(frame.done.len()) else {
        let reduction = joined(alloc, w, frame)?;
        let task = Task::Done(reduction);
        return Ok(Turn::On(State { frames, task }));
    };
    if steps.tick().is_err() {
        return Ok(Turn::Out);
    }
    let next = case_of(alloc, &frame, case)?;
    frames.push(frame)?;
    let task = Task::Open(next);
    Ok(Turn::On(State { frames, task }))
}

/// Spends the steps of splitting a clause wholly at once: two for each clause that it is split into but one.
/// Answers whether there are as many; where there aren't, none is left. The literals before the cursor have no `if`.
fn spend_wholly(c: &Clause, cursor: usize, steps: &mut Steps) -> bool
    requires ready { Ready c.now cursor false }
    ensures spent { OnTrue result (steps.new.left + 2 * clause_leaves c.now ≡ steps.old.left + 2) }
    ensures out { OnFalse result (steps.old.left + 2 < 2 * clause_leaves c.now) }
    ensures none { OnFalse result (steps.new.left ≡ 0) }
{
    let left = steps.left;
    let others = clause_leaves(c, cursor, left / 2 + 2) - 1;
    let enough = others <= left / 2;
    if enough {
        steps.left = left - 2 * others;
    } else {
        steps.left = 0;
    }
    enough
}

/// Ends with a clause that is split wholly into clauses that hold by themselves: it is reduced to none by its
/// own literals, and the steps of splitting it are spent. `Out` where there aren't as many.
fn vanish(
    alloc: Global,
    w: &World,
    frames: Seq<Frame>,
    c: Clause,
    cursor: usize,
    steps: &mut Steps,
) -> Result<Turn, NoMemory>
    requires ground { DefinesNot (function_of w.now.entries) }
    requires linked { Linked w.now frames c }
    requires clause { KnownClause (function_of w.now.entries) c }
    requires ready { Ready c cursor false }
    requires vanishes { Vanishes c }
    ensures { IfOk result (λ t. Goes w.now frames c (settled_left (split_of steps.old.left c)) (2 * steps.old.left + (length frames + 1)) t steps.new.left) }
{
    if !spend_wholly(&c, cursor, steps) {
        return Ok(Turn::Out);
    }
    let reduction = tidy(alloc, w, c)?;
    let task = Task::Done(reduction);
    Ok(Turn::On(State { frames, task }))
}

/// A clause tidied, or none where it then holds by itself. One that is known to be tidy is kept.
fn settle(alloc: Global, w: &World, c: Clause, is_tidy: bool) -> Result<Reduction, NoMemory>
    requires ground { DefinesNot (function_of w.now.entries) }
    requires clause { KnownClause (function_of w.now.entries) c }
    requires tidy { is_tidy ≡ true → IsTidy c.0 }
    ensures stands { IfOk result (λ r. Reduces w.now r) }
    ensures made { IfOk result (λ r. r.says ≡ tidy_made c) }
{
    if is_tidy {
        let kept = keep(alloc, w, c)?;
        return Ok(kept);
    }
    let tidied = tidy(alloc, w, c)?;
    Ok(tidied)
}

/// A clause that waits from now on, split at its first `if`.
fn framed(alloc: Global, w: &World, c: Clause, place: Place, tidy: bool) -> Result<Frame, NoMemory>
    requires ground { DefinesNot (function_of w.now.entries) }
    requires clause { KnownClause (function_of w.now.entries) c }
    requires choice { first_choice c ≡ Some (place.literal, place.at) }
    requires ready { Ready c place.literal tidy }
    ensures waits { IfOk result (λ f. Waits w.now f) }
    ensures from { IfOk result (λ f. f.split.says.from ≡ c) }
    ensures due { IfOk result (λ f. (n : ℕ) → settled_left (split_of n c) ≡ due f n) }
{
    let literal = place.literal;
    let split = split_if(alloc, w, c, literal, &place.at)?;
    Ok(Frame {
        split,
        done: Seq::new(alloc),
        literal,
        tidy,
    })
}

/// Begins to split a clause.
fn open(
    alloc: Global,
    w: &World,
    frames: Seq<Frame>,
    case: Case,
    steps: &mut Steps,
) -> Result<Turn, NoMemory>
    requires ground { DefinesNot (function_of w.now.entries) }
    requires linked { Linked w.now frames case.clause }
    requires clause { KnownClause (function_of w.now.entries) case.clause }
    requires ready { Ready case.clause case.cursor case.tidy }
    ensures { IfOk result (λ t. Goes w.now frames case.clause (settled_left (split_of steps.old.left case.clause)) (2 * steps.old.left + (length frames + 1)) t steps.new.left) }
{
    let Case {
        clause: c,
        cursor,
        tidy,
    } = case;
    match scan(alloc, &c, cursor, tidy)? {
        Scanned::Whole(is_tidy) => {
            let task = Task::Done(settle(alloc, w, c, is_tidy)?);
            Ok(Turn::On(State { frames, task }))
        }
        Scanned::Closed(at) => vanish(alloc, w, frames, c, at, steps),
        Scanned::Choice(place, is_tidy) => {
            let frame = framed(alloc, w, c, place, is_tidy)?;
            go_on(alloc, w, frames, frame, steps)
        }
    }
}

/// Hands what a case is reduced to, to the clause that waits for it.
fn close(
    alloc: Global,
    w: &World,
    frames: Seq<Frame>,
    mut frame: Frame,
    r: Reduction,
    steps: &mut Steps,
) -> Result<Turn, NoMemory>
    requires linked { Linked w.now frames frame.split.says.from }
    requires waits { Waits w.now frame }
    requires stands { Reduces w.now r }
    requires case { slice_get frame.split.says.to (length frame.done) ≡ Some r.says.from }
    ensures { IfOk result (λ t. Goes w.now frames frame.split.says.from (resumed frame (Some (r.says.to, steps.old.left))) (2 * steps.old.left + (length frames + 1)) t steps.new.left) }
{
    frame.done.push(r)?;
    let turn = go_on(alloc, w, frames, frame, steps)?;
    Ok(turn)
}

/// Goes on with what is at hand.
fn advance(alloc: Global, w: &World, state: State, steps: &mut Steps) -> Result<Turn, NoMemory>
    requires ground { DefinesNot (function_of w.now.entries) }
    requires linked { Linked w.now state.frames (at_hand state.task) }
    requires holds { IsAtHand w.now state.task }
    ensures { IfOk result (λ t. Goes w.now state.frames (at_hand state.task) (comes state.task steps.old.left) (2 * steps.old.left + (length state.frames + weight state.task)) t steps.new.left) }
{
    let State { mut frames, task } = state;
    match task {
        Task::Open(case) => {
            let turn = open(alloc, w, frames, case, steps)?;
            Ok(turn)
        }
        Task::Done(r) => match frames.pop() {
            Some(frame) => {
                let turn = close(alloc, w, frames, frame, r, steps)?;
                Ok(turn)
            }
            None => Ok(Turn::Through(r)),
        },
    }
}

/// The clauses without `if` that a clause is split into, each tidied, or left out where it then holds by itself;
/// the clause is shown to be valid where they are. The first literal with an `if` is split first, at the first `if` in preorder whose test has none:
/// the first of the two clauses has the test's negation before the literal, and the branch that is taken
/// where the test holds in the place of the `if`; the second has the test, and the other branch. Each is
/// split in its turn, the first wholly before the second is made. Each clause that is made spends a step;
/// there is no reduction exactly where the steps run out, and then none is left. The only error is want of
/// memory, which a call of more than 2^32 arguments is taken for.
///
/// A clause isn't split where some literals before its first `if` close it: one that is a constant other than
/// `nil`, or two of which one negates the other, in plain form at sight. All that it would be split into holds
/// by itself then, so what splitting it would spend is spent at once, two steps for each clause but one.
///
/// The memory is linear in the literals of the clauses that are made, and so is the time, but that each literal
/// without `if` is compared with those before it. The call's own stack doesn't grow with the
/// number of splits, but with the depth of a term.
pub fn split(alloc: Global, w: &World, c: Clause, steps: &mut Steps) -> Result<Split, NoMemory>
    requires ground { DefinesNot (function_of w.now.entries) }
    requires clause { KnownClause (function_of w.now.entries) c }
    ensures made { IfOk result (λ s. option_map (λ r. r.says) s.reduction ≡ option_map (λ p. record { from = c; to = p.0 }) (settled_left (split_of steps.old.left c))) }
    ensures steps { IfOk result (λ s. steps.new.left ≡ steps_left (split_of steps.old.left c)) }
    ensures stands { IfOk result (λ s. IfSome s.reduction (λ r. Reduces w.now r)) }
{
    let mut state = State {
        frames: Seq::new(alloc),
        task: Task::Open(Case {
            clause: c,
            cursor: 0,
            tidy: true,
        }),
    };
    loop {
        match advance(alloc, w, state, steps)? {
            Turn::On(next) => state = next,
            Turn::Through(r) => return Ok(Split { reduction: Some(r) }),
            Turn::Out => return Ok(Split { reduction: None }),
        }
    }
}
