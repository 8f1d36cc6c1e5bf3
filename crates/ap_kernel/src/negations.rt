ghost use Rattle.std.specs.Prelude.{◌≡◌, [], IsTrue, IfOk};
ghost use Rattle.ap_world.specs.Sound.{known};
ghost use Rattle.ap_world.specs.World.{function_of};
ghost use Rattle.ap_world.specs.Clauses.{not_of};
ghost use Rattle.ap_world.specs.Facts.{KnownFacts};
ghost use Rattle.ap_world.specs.Typing.{types};
ghost use Rattle.ap_kernel.specs.Standing.{DefinesNot, Stands};
ghost use Rattle.ap_kernel.specs.Masks.{MaskHolds};
ghost use Rattle.ap_kernel.specs.Choices.{is_truth, double_not_made};
ghost use Rattle.ap_kernel.specs.Deriving.{node};
ghost use Rattle.ap_kernel.specs.declared.derivations.Row.TheVariants.{DoubleNot};

use crate::choices::not_term;
use crate::derivations::{Derivation, Row};
use crate::objects::{Ctx, Equiv, Mode};
use ap_list::{NoMemory, Shared};
use ap_term::{Term, copy_term};
use ap_world::{Mask, World};
use std::alloc::Global;

/// `(not (not t))`
fn twice_negated(alloc: Global, t: &Term) -> Result<Term, NoMemory>
    ensures { IfOk result (λ u. u ≡ not_of (not_of t.now)) }
{
    let once = not_term(alloc, copy_term(alloc, t)?)?;
    not_term(alloc, once)
}

/// How two calls of `not` are taken off.
fn double_why(
    alloc: Global,
    ctx: &Ctx,
    mode: Mode,
    t: &Term,
    mask: Mask,
) -> Result<Shared<Derivation>, NoMemory>
    ensures { IfOk result (λ d. d ≡ node (DoubleNot ctx.now mode t.now mask) []) }
{
    let ctx = ctx.share()?;
    let t = copy_term(alloc, t)?;
    let answer = Derivation::leaf(alloc, Row::DoubleNot(ctx, mode, t, mask))?;
    Ok(answer)
}

/// From `(not (not t))` to `t`, under `iff`, or under equality where the mask of `t` has no value but `t` and
/// `nil`. The mask is what the definition of types gives. It copies the term once for each side.
pub fn double_not(
    alloc: Global,
    w: &World,
    ctx: &Ctx,
    mode: Mode,
    t: &Term,
    mask: Mask,
) -> Result<Equiv, NoMemory>
    requires ground { DefinesNot (function_of w.now.entries) }
    requires facts { KnownFacts (function_of w.now.entries) ctx.now.0 }
    requires term { IsTrue (known (function_of w.now.entries) t.now) }
    requires mask { MaskHolds (function_of w.now.entries) ctx.now.0 t.now mask }
    requires exact { mask.0 ≡ types w.now ctx.now.0 t.now }
    requires truth { IsTrue (is_truth mode mask) }
    ensures stands { IfOk result (λ q. Stands w.now q) }
    ensures made { IfOk result (λ q. q.says ≡ double_not_made ctx.now mode t.now) }
{
    w.recall_sound();
    let why = double_why(alloc, ctx, mode, t, mask)?;
    let ctx = ctx.share()?;
    let lhs = twice_negated(alloc, t)?;
    let rhs = copy_term(alloc, t)?;
    Ok(Equiv::made(ctx, mode, lhs, rhs, Some(why)))
}
