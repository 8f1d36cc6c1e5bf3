// The literals of a clause, one after another, and what is left of it, split.
ghost use Rattle.std.specs.Prelude.{◌≡◌, ◌+◌, ◌<◌, ◌∷◌, [], IfOk, IfSome, List, Some, length, take, drop, slice_get, true};
ghost use Rattle.std.specs.Option.{option_map};
ghost use Rattle.ap_term.specs.declared.term.Term.{Term};
ghost use Rattle.ap_term.specs.Metered.{mapped};
ghost use Rattle.ap_world.specs.World.{function_of};
ghost use Rattle.ap_world.specs.Shapes.{is_constant};
ghost use Rattle.ap_kernel.specs.Standing.{DefinesNot, Stands};
ghost use Rattle.ap_kernel.specs.Reductions.{KnownClause, Reduces, put_at, others, all_false, to_one, rewritten};
ghost use Rattle.ap_clausify.specs.Splitting.{settled_left, steps_left};
ghost use Rattle.ap_rewrite.specs.Literals.{rewrite_literal, rewrite_literals, rewritten_to, split_left, simplify_of};
ghost use Rattle.ap_rewrite.specs.Answering.{defs_in, Ready, setting_of, got, IsFor};
ghost use Rattle.ap_rewrite.specs.Simplifying.{got_reduced, literals_left, HasPlace, FitsLiteral, LeavesTrue};

use crate::literals::literal_kept;
use crate::memos::{Memo, PASSED_OVER};
use crate::rewriter::Rewriter;
use ap_clausify::split;
use ap_kernel::{
    Equiv, LinearOracle, NoMemory, Reduction, TypeOracle, World, is_constant, keep, others_false,
    rewrite_literal, then, tidy,
};
use ap_term::{Clause, Steps, copy_terms};
use std::alloc::Global;

/// A copy of the first clause that is left.
fn first_left(alloc: Global, q: &Reduction) -> Result<Clause, NoMemory>
    requires { 0 < length q.now.says.to }
    ensures { IfOk result (λ c. literals_left q.now.says.to ≡ Some c.0) }
{
    let clauses = q.to().as_slice();
    let literals = copy_terms(alloc, clauses[0].0.as_slice())?;
    Ok(Clause(literals))
}

/// What the literal at a place of a clause leads to while the others are assumed false. `None` where the steps run
/// out.
fn literal_at<O: TypeOracle + LinearOracle>(
    r: &Rewriter<'_, O>,
    memo: &mut Memo<'_>,
    steps: &mut Steps,
    c: &Clause,
    place: usize,
) -> Result<Option<Equiv>, NoMemory>
    requires ready { Ready r.now }
    requires clause { KnownClause (defs_in r.now) c.now }
    requires place { place < length c.now.0 }
    requires same { IsFor r.now memo.old }
    ensures is { IfOk result (λ o. (u : Term) → slice_get c.now.0 place ≡ Some u → got o steps.new.left ≡ rewrite_literal (setting_of r.now) (take place c.now.0) (drop (place + 1) c.now.0) u steps.old.left) }
    ensures stands { IfOk result (λ o. IfSome o (λ q. Stands r.now.w.now q)) }
    ensures place { IfOk result (λ o. IfSome o (λ q. slice_get c.now.0 place ≡ Some q.says.lhs)) }
    ensures facts { IfOk result (λ o. IfSome o (λ q. q.says.ctx.0 ≡ all_false (others place c.now.0))) }
    ensures kept { memo.new ≡ memo.old }
{
    let ctx = others_false(r.alloc, c.0.as_slice(), place)?;
    let t = &c.0.as_slice()[place];
    let found = literal_kept(
        memo, r.alloc, r.w, r.rules, r.theory, r.expand, r.oracle, &ctx, steps, t,
    )?;
    Ok(found)
}

/// What the literal at a place of the clause that is left leads to while the others are assumed false. `None` where the
/// steps run out.
fn literal_left<O: TypeOracle + LinearOracle>(
    r: &Rewriter<'_, O>,
    memo: &mut Memo<'_>,
    steps: &mut Steps,
    so_far: &Reduction,
    place: usize,
) -> Result<Option<Equiv>, NoMemory>
    requires ready { Ready r.now }
    requires stands { Reduces r.now.w.now so_far.now }
    requires place { HasPlace so_far.now.says place }
    requires same { IsFor r.now memo.old }
    ensures is { IfOk result (λ o. (us : List Term) (u : Term) → so_far.now.says.to ≡ record { 0 = us } ∷ [] → slice_get us place ≡ Some u → got o steps.new.left ≡ rewrite_literal (setting_of r.now) (take place us) (drop (place + 1) us) u steps.old.left) }
    ensures stands { IfOk result (λ o. IfSome o (λ q. Stands r.now.w.now q)) }
    ensures fits { IfOk result (λ o. IfSome o (FitsLiteral so_far.now.says place)) }
    ensures kept { memo.new ≡ memo.old }
{
    let clauses = so_far.to().as_slice();
    let found = literal_at(r, memo, steps, &clauses[0], place)?;
    Ok(found)
}

/// From a clause to the one that is left once a literal of it becomes what it leads to.
fn with_literal(
    alloc: Global,
    w: &World,
    so_far: Reduction,
    place: usize,
    q: Equiv,
) -> Result<Reduction, NoMemory>
    requires ground { DefinesNot (function_of w.now.entries) }
    requires stands { Reduces w.now so_far }
    requires place { HasPlace so_far.says place }
    requires leads { Stands w.now q }
    requires fits { FitsLiteral so_far.says place q }
    ensures made { IfOk result (λ p. (us : List Term) → so_far.says.to ≡ record { 0 = us } ∷ [] → p.says ≡ to_one so_far.says.from (put_at place (q.says.rhs ∷ []) us)) }
    ensures stands { IfOk result (λ p. Reduces w.now p) }
{
    let c = first_left(alloc, &so_far)?;
    let next = rewrite_literal(alloc, w, c, place, q)?;
    let both = then(alloc, w, so_far, next)?;
    Ok(both)
}

/// The literal at a place of the clause that is left so far is rewritten. `None` where the steps run out. Where the
/// literal doesn't change nothing is made.
fn advance<O: TypeOracle + LinearOracle>(
    r: &Rewriter<'_, O>,
    memo: &mut Memo<'_>,
    steps: &mut Steps,
    so_far: Reduction,
    place: usize,
) -> Result<Option<Reduction>, NoMemory>
    requires ready { Ready r.now }
    requires stands { Reduces r.now.w.now so_far }
    requires place { HasPlace so_far.says place }
    requires same { IsFor r.now memo.old }
    ensures is { IfOk result (λ o. (us : List Term) (u : Term) → so_far.says.to ≡ record { 0 = us } ∷ [] → slice_get us place ≡ Some u → got_reduced o steps.new.left ≡ mapped (λ v. to_one so_far.says.from (put_at place (v ∷ []) us)) (rewrite_literal (setting_of r.now) (take place us) (drop (place + 1) us) u steps.old.left)) }
    ensures stands { IfOk result (λ o. IfSome o (Reduces r.now.w.now)) }
    ensures kept { memo.new ≡ memo.old }
{
    let Some(q) = literal_left(r, memo, steps, &so_far, place)? else {
        return Ok(None);
    };
    if q.is_unchanged() {
        return Ok(Some(so_far));
    }
    let next = with_literal(r.alloc, r.w, so_far, place, q)?;
    Ok(Some(next))
}

/// Whether the literal at a place of the clause that is left is a constant other than `nil`. Takes no memory.
fn is_proved(q: &Reduction, place: usize) -> bool
    requires { HasPlace q.now.says place }
    ensures { (us : List Term) (v : Term) → q.now.says.to ≡ record { 0 = us } ∷ [] → slice_get us place ≡ Some v → result ≡ is_constant true v }
{
    let clauses = q.to().as_slice();
    let literals = clauses[0].0.as_slice();
    is_constant(true, &literals[place])
}

/// From a clause to none, where the one that is left holds by itself.
fn close(alloc: Global, w: &World, q: Reduction) -> Result<Reduction, NoMemory>
    requires ground { DefinesNot (function_of w.now.entries) }
    requires stands { Reduces w.now q }
    requires holds { LeavesTrue q.says }
    ensures stands { IfOk result (λ p. Reduces w.now p) }
    ensures made { IfOk result (λ p. p.says ≡ record { from = q.says.from; to = [] }) }
{
    let c = first_left(alloc, &q)?;
    let none = tidy(alloc, w, c)?;
    let closed = then(alloc, w, q, none)?;
    Ok(closed)
}

/// From a clause to the one in which each literal, from left to right, is rewritten while the others are assumed
/// false; to none where one becomes a constant other than `nil`. `None` where the steps run out.
fn rewrite_literals<O: TypeOracle + LinearOracle>(
    r: &Rewriter<'_, O>,
    memo: &mut Memo<'_>,
    steps: &mut Steps,
    c: Clause,
) -> Result<Option<Reduction>, NoMemory>
    requires ready { Ready r.now }
    requires clause { KnownClause (defs_in r.now) c }
    requires same { IsFor r.now memo.old }
    ensures is { IfOk result (λ o. got_reduced o steps.new.left ≡ mapped (rewritten_to c) (rewrite_literals (setting_of r.now) [] c.0 steps.old.left)) }
    ensures stands { IfOk result (λ o. IfSome o (Reduces r.now.w.now)) }
    ensures kept { memo.new ≡ memo.old }
{
    let count = c.0.len();
    let mut so_far = keep(r.alloc, r.w, c)?;
    for place in 0..count {
        let Some(next) = advance(r, memo, steps, so_far, place)? else {
            return Ok(None);
        };
        so_far = next;
        if is_proved(&so_far, place) {
            let closed = close(r.alloc, r.w, so_far)?;
            return Ok(Some(closed));
        }
    }
    Ok(Some(so_far))
}

/// What is left is split, where a clause is left, and each clause tidied. `None` where the steps run out.
fn split_left(
    alloc: Global,
    w: &World,
    q: Reduction,
    steps: &mut Steps,
) -> Result<Option<Reduction>, NoMemory>
    requires ground { DefinesNot (function_of w.now.entries) }
    requires stands { Reduces w.now q }
    requires one { q.says ≡ rewritten_to q.says.from (literals_left q.says.to) }
    ensures stands { IfOk result (λ o. IfSome o (Reduces w.now)) }
    ensures made { IfOk result (λ o. option_map (λ p. p.says) o ≡ option_map (λ p. record { from = q.says.from; to = p.0 }) (settled_left (split_left (literals_left q.says.to) steps.old.left))) }
    ensures steps { IfOk result (λ o. steps.new.left ≡ steps_left (split_left (literals_left q.says.to) steps.old.left)) }
{
    if q.to().is_empty() {
        return Ok(Some(q));
    }
    let c = first_left(alloc, &q)?;
    let Some(next) = split(alloc, w, c, steps)?.reduction else {
        return Ok(None);
    };
    let both = then(alloc, w, q, next)?;
    Ok(Some(both))
}

/// What the literals of a clause are rewritten to, from left to right, each while the others are assumed false; what
/// is left is then split, by the steps that are left, and each clause tidied. `None` exactly where the steps run out, and
/// then none is left. The only error is want of memory. See the manual's topic `rewrite`.
pub fn simplify<O: TypeOracle + LinearOracle>(
    r: &Rewriter<'_, O>,
    steps: &mut Steps,
    c: Clause,
) -> Result<Option<Reduction>, NoMemory>
    requires ready { Ready r.now }
    requires clause { KnownClause (defs_in r.now) c }
    ensures stands { IfOk result (λ o. IfSome o (Reduces r.now.w.now)) }
    ensures made { IfOk result (λ o. option_map (λ q. q.says) o ≡ option_map (λ p. record { from = c; to = p.0 }) (settled_left (simplify_of (setting_of r.now) steps.old.left c))) }
    ensures steps { IfOk result (λ o. steps.new.left ≡ steps_left (simplify_of (setting_of r.now) steps.old.left c)) }
{
    let mut memo = Memo::new(r.alloc, r.w, r.theory, r.expand, PASSED_OVER);
    let Some(q) = rewrite_literals(r, &mut memo, steps, c)? else {
        steps.left = 0;
        return Ok(None);
    };
    let answer = split_left(r.alloc, r.w, q, steps)?;
    Ok(answer)
}
