// What polynomials that can't all hold say of a comparison.
ghost use Rattle.std.specs.Prelude.{◌≡◌, ◌++◌, IsTrue, IfOk, IfSome, OnOk, length, replicate, take};
ghost use Rattle.std.specs.Option.{option_map};
ghost use Rattle.ap_term.specs.Terms.{subst_of};
ghost use Rattle.ap_world.specs.Sound.{known};
ghost use Rattle.ap_world.specs.World.{function_of};
ghost use Rattle.ap_world.specs.Facts.{KnownFacts};
ghost use Rattle.ap_poly.specs.Elimination.{lin};
ghost use Rattle.ap_poly.specs.Literals.{of_literal};
ghost use Rattle.ap_kernel.specs.Linear.{is_comparison, PolysHold, refuted_made};
ghost use Rattle.ap_kernel.specs.Reasons.{AllGiven};
ghost use Rattle.ap_kernel.specs.Standing.{Stands};
ghost use Rattle.ap_kernel.specs.declared.linear.Why.TheVariants.{Theorem};
ghost use Rattle.ap_rewrite.specs.Leading.{said_of};
ghost use Rattle.ap_rewrite.specs.Linear.{most_polys};

use crate::rules::Reliefs;
use ap_kernel::{
    Ctx, Equiv, LinearOracle, NoMemory, Seq, Term, Why, World, by_certificate, subst, theorem_why,
};
use ap_poly::{Poly, of_literal};
use ap_rules::LinearRule;
use std::alloc::Global;

/// From a comparison to the truth that its sign denies, where the first 32 of the polynomials, which hold wherever
/// the facts hold and it has that sign, can't all hold: the oracle finds a certificate.
pub(crate) fn refute<L: LinearOracle>(
    alloc: Global,
    w: &World,
    linear: &L,
    ctx: &Ctx,
    t: &Term,
    sign: bool,
    polys: Seq<Poly>,
    whys: Seq<Why>,
) -> Result<Option<Equiv>, NoMemory>
    requires facts { KnownFacts (function_of w.now.entries) ctx.now.0 }
    requires term { IsTrue (known (function_of w.now.entries) t.now) }
    requires comparison { IsTrue (is_comparison t.now) }
    requires polys { PolysHold (function_of w.now.entries) ctx.now t.now sign polys }
    requires reasons { AllGiven w.now ctx.now t.now sign polys whys }
    ensures stands { IfOk result (λ o. IfSome o (λ q. Stands w.now q)) }
    ensures made { IfOk result (λ o. said_of o ≡ option_map (λ by. refuted_made ctx.now t.now sign) (lin (take most_polys polys))) }
{
    let mut first = polys;
    first.truncate(32);
    let mut reasons = whys;
    reasons.truncate(32);
    let Some(by) = linear.refute(alloc, w, &first)? else {
        return Ok(None);
    };
    let q = by_certificate(alloc, w, ctx, t, sign, first, reasons, by)?;
    Ok(Some(q))
}

/// Adds the reason by a linear rule's theorem, so often.
fn push_theorem(
    alloc: Global,
    whys: &mut Seq<Why>,
    g: &LinearRule,
    found: &Reliefs,
    count: usize,
) -> Result<(), NoMemory>
    ensures { OnOk result (whys.new ≡ whys.old ++ replicate count (Theorem g.now.theorem found.now.pairs found.now.shown)) }
{
    for _ in 0..count {
        let why = theorem_why(alloc, &g.theorem, &found.pairs, found.shown.as_slice())?;
        whys.push(why)?;
    }
    Ok(())
}

/// The polynomials with those of an instance of a linear rule's conclusion behind them, and the reasons with theirs.
pub(crate) fn with_instance(
    alloc: Global,
    polys: Seq<Poly>,
    whys: &mut Seq<Why>,
    g: &LinearRule,
    found: &Reliefs,
) -> Result<Seq<Poly>, NoMemory>
    ensures polys { IfOk result (λ ps. ps ≡ polys ++ of_literal (subst_of found.now.pairs.0 g.now.concl) g.now.sign) }
    ensures whys { OnOk result (whys.new ≡ whys.old ++ replicate (length (of_literal (subst_of found.now.pairs.0 g.now.concl) g.now.sign)) (Theorem g.now.theorem found.now.pairs found.now.shown)) }
{
    let instance = subst(alloc, &g.concl, &found.pairs)?;
    let more = of_literal(alloc, &instance, g.sign)?;
    push_theorem(alloc, whys, g, found, more.len())?;
    let mut all = polys;
    all.append(more)?;
    Ok(all)
}
