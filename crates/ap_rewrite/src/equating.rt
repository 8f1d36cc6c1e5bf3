// Equations, which are led on by their sides, by a fact, or part by part.
ghost use Rattle.std.specs.Prelude.{◌≡◌, IsTrue, IfOk, IfSome};
ghost use Rattle.std.specs.Option.{option_map};
ghost use Rattle.ap_world.specs.Sound.{known};
ghost use Rattle.ap_world.specs.World.{function_of};
ghost use Rattle.ap_world.specs.Facts.{KnownFacts};
ghost use Rattle.ap_kernel.specs.Equations.{equation_leads};
ghost use Rattle.ap_kernel.specs.Opening.{is_quoted};
ghost use Rattle.ap_kernel.specs.Standing.{Stands};
ghost use Rattle.ap_rewrite.specs.Leading.{leads_made, said_of};

use crate::settling::in_mode;
use ap_kernel::{Ctx, Equiv, Mode, NoMemory, Term, World, cons_equal, equation_leads};
use ap_term::Shape;
use std::alloc::Global;

/// Whether a term is a constant. Takes no memory.
#[tactic(auto, using(ap_term::proofs::Seen::trees))]
pub fn is_quoted(t: &Term) -> bool
    ensures { result ≡ is_quoted t.now }
{
    match &t.shape {
        Shape::Quote(_) => true,
        Shape::Var(_) => false,
        Shape::Call(_, _) => false,
    }
}

/// From an equation to where it leads, before that is rewritten in its turn: to `'T` where its sides are one term;
/// to what the first fact on it turned round says; to the equations of the parts of two conses.
pub fn equated(
    alloc: Global,
    w: &World,
    ctx: &Ctx,
    mode: Mode,
    t: &Term,
) -> Result<Option<Equiv>, NoMemory>
    requires facts { KnownFacts (function_of w.now.entries) ctx.now.0 }
    requires term { IsTrue (known (function_of w.now.entries) t.now) }
    ensures stands { IfOk result (λ o. IfSome o (λ q. Stands w.now q)) }
    ensures made { IfOk result (λ o. said_of o ≡ option_map (leads_made ctx.now mode t.now) (equation_leads ctx.now.0 t.now)) }
{
    let leads = equation_leads(ctx, t);
    if leads {
        let first = cons_equal(alloc, w, ctx, t)?;
        let q = in_mode(alloc, w, first, mode)?;
        return Ok(Some(q));
    }
    Ok(None)
}
