ghost use Rattle.std.specs.Prelude.{◌≡◌, IsTrue, IfOk};
ghost use Rattle.ap_world.specs.Sound.{known};
ghost use Rattle.ap_world.specs.World.{function_of};
ghost use Rattle.ap_world.specs.Facts.{KnownFacts};
ghost use Rattle.ap_kernel.specs.Standing.{Stands};
ghost use Rattle.ap_kernel.specs.declared.objects.Mode.TheVariants.{Equal};
ghost use Rattle.ap_kernel.specs.Answers.{refl_made, trans_made, weakened};

use crate::derivations::{Derivation, Row};
use crate::objects::{Ctx, Equiv, Mode};
use ap_list::NoMemory;
use ap_term::{Term, copy_term};
use ap_world::World;
use std::alloc::Global;

/// From a term to itself. It copies the term once for each side, since an equivalence owns both.
pub fn refl(alloc: Global, w: &World, ctx: &Ctx, mode: Mode, t: &Term) -> Result<Equiv, NoMemory>
    requires facts { KnownFacts (function_of w.now.entries) ctx.now.0 }
    requires term { IsTrue (known (function_of w.now.entries) t.now) }
    ensures stands { IfOk result (λ q. Stands w.now q) }
    ensures made { IfOk result (λ q. q.says ≡ refl_made ctx.now mode t.now) }
{
    w.recall_sound();
    let ctx = ctx.share()?;
    let side = copy_term(alloc, t)?;
    let answer = Equiv::of_one(alloc, ctx, mode, side)?;
    Ok(answer)
}

/// From the left side of the first to the right side of the second, where the first leads to what the
/// second begins with. Where the sides of one are known to be one term, it is the other one.
pub fn trans(alloc: Global, w: &World, a: Equiv, b: Equiv) -> Result<Equiv, NoMemory>
    requires a { Stands w.now a }
    requires b { Stands w.now b }
    requires facts { a.says.ctx ≡ b.says.ctx }
    requires mode { a.says.mode ≡ b.says.mode }
    requires middle { a.says.rhs ≡ b.says.lhs }
    ensures stands { IfOk result (λ q. Stands w.now q) }
    ensures made { IfOk result (λ q. q.says ≡ trans_made a.says b.says) }
{
    w.recall_sound();
    if b.is_unchanged() {
        return Ok(a);
    }
    if a.is_unchanged() {
        return Ok(b);
    }
    let (a, first) = a.into_made(alloc)?;
    let (b, second) = b.into_made(alloc)?;
    let why = Derivation::of_two(alloc, Row::Trans, first, second)?;
    Ok(Equiv::made(a.ctx, a.mode, a.lhs, b.rhs, Some(why)))
}

/// Equality as equivalence under `iff`.
pub fn weaken_mode(alloc: Global, w: &World, a: Equiv) -> Result<Equiv, NoMemory>
    requires a { Stands w.now a }
    requires mode { a.says.mode ≡ Equal }
    ensures stands { IfOk result (λ q. Stands w.now q) }
    ensures made { IfOk result (λ q. q.says ≡ weakened a.says) }
{
    w.recall_sound();
    if a.is_unchanged() {
        let (ctx, _, lhs, rhs) = a.into_parts();
        return Ok(Equiv::made(ctx, Mode::Iff, lhs, rhs, None));
    }
    let (a, first) = a.into_made(alloc)?;
    let why = Derivation::of_one(alloc, Row::WeakenMode, first)?;
    Ok(Equiv::made(a.ctx, Mode::Iff, a.lhs, a.rhs, Some(why)))
}
