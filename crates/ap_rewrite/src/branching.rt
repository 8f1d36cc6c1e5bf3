// An `if` and a negation, whose parts are rewritten one level deeper.
ghost use Rattle.std.specs.Prelude.{◌≡◌, ◌&&◌, IsTrue, IfOk, IfSome, Some, None, true, false, cond};
ghost use Rattle.ap_world.specs.Assume.{assume};
ghost use Rattle.ap_world.specs.Clauses.{not_of};
ghost use Rattle.ap_world.specs.Facts.{KnownFacts};
ghost use Rattle.ap_world.specs.Sound.{known};
ghost use Rattle.ap_kernel.specs.Answers.{if_of, is_unchanged};
ghost use Rattle.ap_kernel.specs.declared.objects.Mode.TheVariants.{Iff};
ghost use Rattle.ap_rewrite.specs.Settings.{under};
ghost use Rattle.ap_rewrite.specs.Rewriting.{truth_of, shaped, negated, both, branches, rewrite_if, rewrite_not};
ghost use Rattle.ap_rewrite.specs.Answering.{defs_in, Ready, setting_of, inner_of, seen_at, got, got_branches, in_branches, From, FromBranches, Here, IsLevel};

use crate::rewriter::{Below, Level, Place, Rewriter, Run, deeper};
use crate::rows::{follow, join, negate, plainest, simplest};
use crate::sizes::truth_of;
use ap_kernel::{
    Ctx, Equiv, Mode, NoMemory, Term, TypeOracle, assume, assumed_facts_hold, choose_branch,
};

/// What both branches of an `if` lead to.
#[derive(Drop)]
pub(crate) struct BothBranches {
    pub yes: Equiv,
    pub no: Equiv,
}

/// A term under what another's sign adds to the facts.
fn under<O: TypeOracle, F: Below>(
    l: &Level<'_, '_, O, F>,
    steps: &mut Run<'_>,
    mode: Mode,
    at: &Place<'_>,
    a: &Term,
    sign: bool,
    t: &Term,
) -> Result<Option<Equiv>, NoMemory>
    requires level { IsLevel (F.may l.now.below.now) (F.gives l.now.below.now) l.now.r.now l.now.levels }
    requires facts { KnownFacts (defs_in l.now.r.now) at.now.ctx.now.0 }
    requires test { IsTrue (known (defs_in l.now.r.now) a.now) }
    requires term { IsTrue (known (defs_in l.now.r.now) t.now) }
    requires here { Here l.now.r.now at.now steps.old.memo }
    ensures is { IfOk result (λ o. got o steps.new.left ≡ inner_of l.now.r.now l.now.levels mode (under (seen_at at.now) a.now sign) t.now steps.old.left) }
    ensures from { IfOk result (λ o. IfSome o (From l.now.r.now.w.now mode (record { 0 = assume at.now.ctx.now.0 a.now sign }) t.now)) }
    ensures kept { steps.new.memo ≡ steps.old.memo }
{
    assumed_facts_hold();
    let ctx = assume(l.r.alloc, at.ctx, a, sign)?;
    let place = Place {
        ctx: &ctx,
        closed: at.closed,
        chain: at.chain,
    };
    steps.memo.enter(l.r.alloc, &place)?;
    let found = deeper(l, steps, mode, &place, t);
    steps.memo.leave();
    found
}

/// Whether none of an `if`'s parts changed. Takes no memory.
fn are_unchanged(test: &Equiv, found: &BothBranches) -> bool
    ensures { result ≡ (is_unchanged test.now && (is_unchanged found.now.yes && is_unchanged found.now.no)) }
{
    test.is_unchanged() && found.yes.is_unchanged() && found.no.is_unchanged()
}

/// From an `if` to the `if` of what its parts lead to, and on to its simplest shape.
fn shape_rejoined<O: TypeOracle>(
    r: &Rewriter<'_, O>,
    ctx: &Ctx,
    mode: Mode,
    test: Equiv,
    found: BothBranches,
) -> Result<Equiv, NoMemory>
    requires ready { Ready r.now }
    requires facts { KnownFacts (defs_in r.now) ctx.now.0 }
    requires test { From r.now.w.now Iff ctx.now test.says.lhs test }
    requires open { truth_of test.says.rhs ≡ None }
    requires found { FromBranches r.now.w.now mode ctx.now test.says.rhs found.yes.says.lhs found.no.says.lhs found }
    ensures is { IfOk result (λ q. q.says.rhs ≡ shaped (setting_of r.now) mode ctx.now.0 test.says.rhs found.yes.says.rhs found.no.says.rhs) }
    ensures from { IfOk result (From r.now.w.now mode ctx.now (if_of test.says.lhs found.yes.says.lhs found.no.says.lhs)) }
{
    let BothBranches { yes, no } = found;
    let whole = join(r, ctx, mode, test, yes, no)?;
    let more = simplest(r, ctx, mode, whole.rhs())?;
    let q = follow(r, ctx, mode, whole, more)?;
    Ok(q)
}

/// From an `if` to the `if` of what its parts lead to, and on to its simplest shape. Where none of the parts changed
/// that is the shape of the `if` as it stands.
fn shape_whole<O: TypeOracle>(
    r: &Rewriter<'_, O>,
    ctx: &Ctx,
    mode: Mode,
    t: &Term,
    test: Equiv,
    found: BothBranches,
) -> Result<Equiv, NoMemory>
    requires ready { Ready r.now }
    requires facts { KnownFacts (defs_in r.now) ctx.now.0 }
    requires term { t.now ≡ if_of test.says.lhs found.yes.says.lhs found.no.says.lhs }
    requires known { IsTrue (known (defs_in r.now) t.now) }
    requires test { From r.now.w.now Iff ctx.now test.says.lhs test }
    requires open { truth_of test.says.rhs ≡ None }
    requires found { FromBranches r.now.w.now mode ctx.now test.says.rhs found.yes.says.lhs found.no.says.lhs found }
    ensures is { IfOk result (λ q. q.says.rhs ≡ shaped (setting_of r.now) mode ctx.now.0 test.says.rhs found.yes.says.rhs found.no.says.rhs) }
    ensures from { IfOk result (From r.now.w.now mode ctx.now (if_of test.says.lhs found.yes.says.lhs found.no.says.lhs)) }
{
    let same = are_unchanged(&test, &found);
    if same {
        let q = simplest(r, ctx, mode, t)?;
        return Ok(q);
    }
    shape_rejoined(r, ctx, mode, test, found)
}

/// What both branches of an `if` lead to, each under the test's sign. `None` where the steps run out.
fn in_branches<O: TypeOracle, F: Below>(
    l: &Level<'_, '_, O, F>,
    steps: &mut Run<'_>,
    mode: Mode,
    at: &Place<'_>,
    a: &Term,
    b: &Term,
    c: &Term,
) -> Result<Option<BothBranches>, NoMemory>
    requires level { IsLevel (F.may l.now.below.now) (F.gives l.now.below.now) l.now.r.now l.now.levels }
    requires facts { KnownFacts (defs_in l.now.r.now) at.now.ctx.now.0 }
    requires test { IsTrue (known (defs_in l.now.r.now) a.now) }
    requires yes { IsTrue (known (defs_in l.now.r.now) b.now) }
    requires no { IsTrue (known (defs_in l.now.r.now) c.now) }
    requires here { Here l.now.r.now at.now steps.old.memo }
    ensures is { IfOk result (λ o. got_branches o steps.new.left ≡ in_branches (inner_of l.now.r.now l.now.levels) mode (seen_at at.now) a.now b.now c.now steps.old.left) }
    ensures from { IfOk result (λ o. IfSome o (FromBranches l.now.r.now.w.now mode at.now.ctx.now a.now b.now c.now)) }
    ensures kept { steps.new.memo ≡ steps.old.memo }
{
    let Some(yes) = under(l, steps, mode, at, a, true, b)? else {
        return Ok(None);
    };
    let Some(no) = under(l, steps, mode, at, a, false, c)? else {
        return Ok(None);
    };
    Ok(Some(BothBranches { yes, no }))
}

/// An `if` whose test has become no constant: both branches under its test.
pub fn both<O: TypeOracle, F: Below>(
    l: &Level<'_, '_, O, F>,
    steps: &mut Run<'_>,
    mode: Mode,
    at: &Place<'_>,
    t: &Term,
    test: Equiv,
    b: &Term,
    c: &Term,
) -> Result<Option<Equiv>, NoMemory>
    requires level { IsLevel (F.may l.now.below.now) (F.gives l.now.below.now) l.now.r.now l.now.levels }
    requires facts { KnownFacts (defs_in l.now.r.now) at.now.ctx.now.0 }
    requires term { t.now ≡ if_of test.says.lhs b.now c.now }
    requires test { From l.now.r.now.w.now Iff at.now.ctx.now test.says.lhs test }
    requires open { truth_of test.says.rhs ≡ None }
    requires yes { IsTrue (known (defs_in l.now.r.now) b.now) }
    requires no { IsTrue (known (defs_in l.now.r.now) c.now) }
    requires here { Here l.now.r.now at.now steps.old.memo }
    ensures is { IfOk result (λ o. got o steps.new.left ≡ both (setting_of l.now.r.now) (inner_of l.now.r.now l.now.levels) mode (seen_at at.now) test.says.rhs b.now c.now steps.old.left) }
    ensures from { IfOk result (λ o. IfSome o (From l.now.r.now.w.now mode at.now.ctx.now (if_of test.says.lhs b.now c.now))) }
    ensures kept { steps.new.memo ≡ steps.old.memo }
{
    let Some(found) = in_branches(l, steps, mode, at, test.rhs(), b, c)? else {
        return Ok(None);
    };
    let whole = shape_whole(l.r, at.ctx, mode, t, test, found)?;
    Ok(Some(whole))
}

/// From an `if` to the branch that the constant chooses to which its test leads, where the branches stay.
pub fn choose<O: TypeOracle>(
    r: &Rewriter<'_, O>,
    ctx: &Ctx,
    mode: Mode,
    test: Equiv,
    sign: bool,
    b: &Term,
    c: &Term,
) -> Result<Equiv, NoMemory>
    requires ready { Ready r.now }
    requires facts { KnownFacts (defs_in r.now) ctx.now.0 }
    requires test { From r.now.w.now Iff ctx.now test.says.lhs test }
    requires sign { truth_of test.says.rhs ≡ Some sign }
    requires yes { IsTrue (known (defs_in r.now) b.now) }
    requires no { IsTrue (known (defs_in r.now) c.now) }
    ensures is { IfOk result (λ q. q.says.rhs ≡ cond sign b.now c.now) }
    ensures from { IfOk result (From r.now.w.now mode ctx.now (if_of test.says.lhs b.now c.now)) }
{
    let q = choose_branch(r.alloc, r.w, mode, test, sign, b, c)?;
    Ok(q)
}

/// On from where an equivalence leads: that term is rewritten in its turn.
pub fn go_on<O: TypeOracle, F: Below>(
    l: &Level<'_, '_, O, F>,
    steps: &mut Run<'_>,
    mode: Mode,
    at: &Place<'_>,
    first: Equiv,
) -> Result<Option<Equiv>, NoMemory>
    requires level { IsLevel (F.may l.now.below.now) (F.gives l.now.below.now) l.now.r.now l.now.levels }
    requires facts { KnownFacts (defs_in l.now.r.now) at.now.ctx.now.0 }
    requires first { From l.now.r.now.w.now mode at.now.ctx.now first.says.lhs first }
    requires here { Here l.now.r.now at.now steps.old.memo }
    ensures is { IfOk result (λ o. got o steps.new.left ≡ inner_of l.now.r.now l.now.levels mode (seen_at at.now) first.says.rhs steps.old.left) }
    ensures from { IfOk result (λ o. IfSome o (From l.now.r.now.w.now mode at.now.ctx.now first.says.lhs)) }
    ensures kept { steps.new.memo ≡ steps.old.memo }
{
    let Some(more) = deeper(l, steps, mode, at, first.rhs())? else {
        return Ok(None);
    };
    let q = follow(l.r, at.ctx, mode, first, more)?;
    Ok(Some(q))
}

/// An `if` by what its test has become: the branch that a constant chooses, or both.
fn branches<O: TypeOracle, F: Below>(
    l: &Level<'_, '_, O, F>,
    steps: &mut Run<'_>,
    mode: Mode,
    at: &Place<'_>,
    t: &Term,
    test: Equiv,
    b: &Term,
    c: &Term,
) -> Result<Option<Equiv>, NoMemory>
    requires level { IsLevel (F.may l.now.below.now) (F.gives l.now.below.now) l.now.r.now l.now.levels }
    requires facts { KnownFacts (defs_in l.now.r.now) at.now.ctx.now.0 }
    requires term { t.now ≡ if_of test.says.lhs b.now c.now }
    requires test { From l.now.r.now.w.now Iff at.now.ctx.now test.says.lhs test }
    requires yes { IsTrue (known (defs_in l.now.r.now) b.now) }
    requires no { IsTrue (known (defs_in l.now.r.now) c.now) }
    requires here { Here l.now.r.now at.now steps.old.memo }
    ensures is { IfOk result (λ o. got o steps.new.left ≡ branches (setting_of l.now.r.now) (inner_of l.now.r.now l.now.levels) mode (seen_at at.now) test.says.rhs (truth_of test.says.rhs) b.now c.now steps.old.left) }
    ensures from { IfOk result (λ o. IfSome o (From l.now.r.now.w.now mode at.now.ctx.now (if_of test.says.lhs b.now c.now))) }
    ensures kept { steps.new.memo ≡ steps.old.memo }
{
    match truth_of(test.rhs()) {
        None => both(l, steps, mode, at, t, test, b, c),
        Some(sign) => {
            let first = choose(l.r, at.ctx, mode, test, sign, b, c)?;
            go_on(l, steps, mode, at, first)
        }
    }
}

/// An `if`: its test under `iff`, then the branch that the test's constant chooses, or both branches under the
/// test.
pub fn rewrite_if<O: TypeOracle, F: Below>(
    l: &Level<'_, '_, O, F>,
    steps: &mut Run<'_>,
    mode: Mode,
    at: &Place<'_>,
    t: &Term,
    a: &Term,
    b: &Term,
    c: &Term,
) -> Result<Option<Equiv>, NoMemory>
    requires level { IsLevel (F.may l.now.below.now) (F.gives l.now.below.now) l.now.r.now l.now.levels }
    requires facts { KnownFacts (defs_in l.now.r.now) at.now.ctx.now.0 }
    requires term { t.now ≡ if_of a.now b.now c.now }
    requires test { IsTrue (known (defs_in l.now.r.now) a.now) }
    requires yes { IsTrue (known (defs_in l.now.r.now) b.now) }
    requires no { IsTrue (known (defs_in l.now.r.now) c.now) }
    requires here { Here l.now.r.now at.now steps.old.memo }
    ensures is { IfOk result (λ o. got o steps.new.left ≡ rewrite_if (setting_of l.now.r.now) (inner_of l.now.r.now l.now.levels) mode (seen_at at.now) a.now b.now c.now steps.old.left) }
    ensures from { IfOk result (λ o. IfSome o (From l.now.r.now.w.now mode at.now.ctx.now (if_of a.now b.now c.now))) }
    ensures kept { steps.new.memo ≡ steps.old.memo }
{
    let Some(test) = deeper(l, steps, Mode::Iff, at, a)? else {
        return Ok(None);
    };
    branches(l, steps, mode, at, t, test, b, c)
}

/// From a negation to the negation of what its argument leads to, and on to what that is.
fn turned_anew<O: TypeOracle>(
    r: &Rewriter<'_, O>,
    ctx: &Ctx,
    mode: Mode,
    q: Equiv,
) -> Result<Equiv, NoMemory>
    requires ready { Ready r.now }
    requires facts { KnownFacts (defs_in r.now) ctx.now.0 }
    requires argument { From r.now.w.now Iff ctx.now q.says.lhs q }
    ensures is { IfOk result (λ a. a.says.rhs ≡ negated (setting_of r.now) mode ctx.now.0 q.says.rhs (truth_of q.says.rhs)) }
    ensures from { IfOk result (From r.now.w.now mode ctx.now (not_of q.says.lhs)) }
{
    let first = negate(r, ctx, mode, q)?;
    let more = plainest(r, ctx, mode, first.rhs())?;
    let answer = follow(r, ctx, mode, first, more)?;
    Ok(answer)
}

/// From a negation to what it is by what its argument leads to. Where the argument didn't change that is what the
/// negation is as it stands.
fn turned<O: TypeOracle>(
    r: &Rewriter<'_, O>,
    ctx: &Ctx,
    mode: Mode,
    t: &Term,
    q: Equiv,
) -> Result<Equiv, NoMemory>
    requires ready { Ready r.now }
    requires facts { KnownFacts (defs_in r.now) ctx.now.0 }
    requires term { t.now ≡ not_of q.says.lhs }
    requires known { IsTrue (known (defs_in r.now) t.now) }
    requires argument { From r.now.w.now Iff ctx.now q.says.lhs q }
    ensures is { IfOk result (λ a. a.says.rhs ≡ negated (setting_of r.now) mode ctx.now.0 q.says.rhs (truth_of q.says.rhs)) }
    ensures from { IfOk result (From r.now.w.now mode ctx.now (not_of q.says.lhs)) }
{
    let same = q.is_unchanged();
    if same {
        let answer = plainest(r, ctx, mode, t)?;
        return Ok(answer);
    }
    turned_anew(r, ctx, mode, q)
}

/// A negation: its argument under `iff`, and then what the negation is by what that has become.
pub fn rewrite_not<O: TypeOracle, F: Below>(
    l: &Level<'_, '_, O, F>,
    steps: &mut Run<'_>,
    mode: Mode,
    at: &Place<'_>,
    t: &Term,
    a: &Term,
) -> Result<Option<Equiv>, NoMemory>
    requires level { IsLevel (F.may l.now.below.now) (F.gives l.now.below.now) l.now.r.now l.now.levels }
    requires facts { KnownFacts (defs_in l.now.r.now) at.now.ctx.now.0 }
    requires term { t.now ≡ not_of a.now }
    requires argument { IsTrue (known (defs_in l.now.r.now) a.now) }
    requires here { Here l.now.r.now at.now steps.old.memo }
    ensures is { IfOk result (λ o. got o steps.new.left ≡ rewrite_not (setting_of l.now.r.now) (inner_of l.now.r.now l.now.levels) mode (seen_at at.now) a.now steps.old.left) }
    ensures from { IfOk result (λ o. IfSome o (From l.now.r.now.w.now mode at.now.ctx.now (not_of a.now))) }
    ensures kept { steps.new.memo ≡ steps.old.memo }
{
    let Some(q) = deeper(l, steps, Mode::Iff, at, a)? else {
        return Ok(None);
    };
    let answer = turned(l.r, at.ctx, mode, t, q)?;
    Ok(Some(answer))
}
