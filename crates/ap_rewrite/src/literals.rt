// A literal of a clause, as deep as it stands itself.
ghost use Rattle.std.specs.Prelude.{◌≡◌, IsTrue, IfOk, IfSome, []};
ghost use Rattle.ap_world.specs.Facts.{KnownFacts};
ghost use Rattle.ap_world.specs.Sound.{known};
ghost use Rattle.ap_world.specs.World.{function_of};
ghost use Rattle.ap_rules.specs.Index.{IsIndex};
ghost use Rattle.ap_kernel.specs.Standing.{DefinesNot};
ghost use Rattle.ap_kernel.specs.declared.objects.Mode.TheVariants.{Iff};
ghost use Rattle.ap_rewrite.specs.InWorld.{world_setting};
ghost use Rattle.ap_rewrite.specs.Rewriting.{rewrite_of};
ghost use Rattle.ap_rewrite.specs.Answering.{defs_in, Ready, setting_of, seen_at, got, steps_after, From, IsFor};

use crate::memos::{Memo, PASSED_OVER};
use crate::rewriter::{Place, Rewriter, Run};
use crate::rewriting::rewrite;
use ap_kernel::{Ctx, Equiv, LinearOracle, Mode, NoMemory, Seq, Term, TypeOracle, World};
use ap_rules::RuleIndex;
use ap_term::Steps;
use ap_world::Theory;
use std::alloc::Global;
use std::mem;

/// A term as deep as it stands itself, where the run's memo is for the rewriter: it stands at the place while the term
/// is rewritten.
fn rewrite_there<O: TypeOracle + LinearOracle>(
    r: &Rewriter<'_, O>,
    steps: &mut Run<'_>,
    at: &Place<'_>,
    t: &Term,
) -> Result<Option<Equiv>, NoMemory>
    requires ready { Ready r.now }
    requires facts { KnownFacts (defs_in r.now) at.now.ctx.now.0 }
    requires term { IsTrue (known (defs_in r.now) t.now) }
    requires same { IsFor r.now steps.old.memo }
    ensures is { IfOk result (λ o. got o steps.new.left ≡ rewrite_of (setting_of r.now) Iff (seen_at at.now) t.now steps.old.left) }
    ensures steps { IfOk result (λ o. steps.new.left ≡ steps_after (rewrite_of (setting_of r.now) Iff (seen_at at.now) t.now steps.old.left)) }
    ensures from { IfOk result (λ o. IfSome o (From r.now.w.now Iff at.now.ctx.now t.now)) }
    ensures kept { steps.new.memo ≡ steps.old.memo }
{
    steps.memo.enter(r.alloc, at)?;
    let found = rewrite(r, steps, 200, Mode::Iff, at, t);
    steps.memo.leave();
    found
}

/// The same as [`literal`], with a memo for this world, theory and list: what terms became is known again, in this call
/// and in later ones, and charged what it cost.
pub fn literal_kept<O: TypeOracle + LinearOracle>(
    memo: &mut Memo<'_>,
    alloc: Global,
    w: &World,
    rules: &RuleIndex,
    theory: &Theory,
    expand: &Seq<Term>,
    oracle: &O,
    ctx: &Ctx,
    steps: &mut Steps,
    t: &Term,
) -> Result<Option<Equiv>, NoMemory>
    requires ground { DefinesNot (function_of w.now.entries) }
    requires index { IsIndex rules.now w.now.entries }
    requires facts { KnownFacts (function_of w.now.entries) ctx.now.0 }
    requires term { IsTrue (known (function_of w.now.entries) t.now) }
    requires world { memo.old.world ≡ w.now }
    requires theory { memo.old.theory ≡ theory.now }
    requires expand { memo.old.expand ≡ expand.now }
    ensures is { IfOk result (λ o. got o steps.new.left ≡ rewrite_of (world_setting w.now theory.now expand.now) Iff (record { facts = ctx.now.0; closed = []; chain = 0 }) t.now steps.old.left) }
    ensures steps { IfOk result (λ o. steps.new.left ≡ steps_after (rewrite_of (world_setting w.now theory.now expand.now) Iff (record { facts = ctx.now.0; closed = []; chain = 0 }) t.now steps.old.left)) }
    ensures from { IfOk result (λ o. IfSome o (From w.now Iff ctx.now t.now)) }
    ensures kept { memo.new ≡ memo.old }
{
    let r = Rewriter {
        alloc,
        w,
        rules,
        theory,
        expand,
        oracle,
    };
    let at = Place {
        ctx,
        closed: &[],
        chain: 0,
    };
    let bare = memo.bare(alloc);
    let mut run = Run {
        left: steps.left,
        memo: mem::replace(memo, bare),
    };
    let found = rewrite_there(&r, &mut run, &at, t);
    let Run { left, memo: back } = run;
    steps.left = left;
    *memo = back;
    found
}

/// What a literal is rewritten to under facts, under `iff`: with the rules of the world that the theory enables, linear
/// ones among them, the definitions that it enables, the calls that are to be opened, and the types and the
/// certificates of linear arithmetic that the oracle tells. Each term that is rewritten spends a step; one at level 200
/// stays as it is. `None` exactly where the steps run out, and then none is left. The only error is want of memory. See
/// the manual's topic `rewrite`.
pub fn literal<O: TypeOracle + LinearOracle>(
    alloc: Global,
    w: &World,
    rules: &RuleIndex,
    theory: &Theory,
    expand: &Seq<Term>,
    oracle: &O,
    ctx: &Ctx,
    steps: &mut Steps,
    t: &Term,
) -> Result<Option<Equiv>, NoMemory>
    requires ground { DefinesNot (function_of w.now.entries) }
    requires index { IsIndex rules.now w.now.entries }
    requires facts { KnownFacts (function_of w.now.entries) ctx.now.0 }
    requires term { IsTrue (known (function_of w.now.entries) t.now) }
    ensures is { IfOk result (λ o. got o steps.new.left ≡ rewrite_of (world_setting w.now theory.now expand.now) Iff (record { facts = ctx.now.0; closed = []; chain = 0 }) t.now steps.old.left) }
    ensures steps { IfOk result (λ o. steps.new.left ≡ steps_after (rewrite_of (world_setting w.now theory.now expand.now) Iff (record { facts = ctx.now.0; closed = []; chain = 0 }) t.now steps.old.left)) }
    ensures from { IfOk result (λ o. IfSome o (From w.now Iff ctx.now t.now)) }
{
    let mut memo = Memo::new(alloc, w, theory, expand, PASSED_OVER);
    literal_kept(
        &mut memo, alloc, w, rules, theory, expand, oracle, ctx, steps, t,
    )
}
