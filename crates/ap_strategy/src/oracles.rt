// What rewriting asks others: types, and certificates of linear arithmetic.
ghost use Rattle.std.specs.Prelude.{◌≡◌, IsTrue, IfOk, IfSome};
ghost use Rattle.ap_world.specs.Sound.{known};
ghost use Rattle.ap_world.specs.World.{function_of};
ghost use Rattle.ap_world.specs.Facts.{KnownFacts};
ghost use Rattle.ap_world.specs.Typing.{types};
ghost use Rattle.ap_poly.specs.Elimination.{lin};
ghost use Rattle.ap_poly.specs.Holding.{IsCertificate};
ghost use Rattle.ap_kernel.specs.Masks.{MaskHolds};
ghost use Rattle.ap_kernel.specs.Standing.{DefinesNot};

use ap_kernel::{Ctx, LinearOracle, TypeOracle, World};
use ap_linear::refute;
use ap_list::{NoMemory, Seq};
use ap_poly::Poly;
use ap_term::Term;
use ap_types::types_of;
use ap_world::Mask;
use std::alloc::Global;

/// The kernel's oracles: types by `ap_types`, certificates by `ap_linear`.
#[derive(Clone, Copy, Drop)]
pub struct Oracles;

impl TypeOracle for Oracles {
    fn mask(&self, alloc: Global, w: &World, ctx: &Ctx, t: &Term) -> Result<Mask, NoMemory>
        requires ground { DefinesNot (function_of w.now.entries) }
        requires facts { KnownFacts (function_of w.now.entries) ctx.now.0 }
        requires term { IsTrue (known (function_of w.now.entries) t.now) }
        ensures made { IfOk result (λ m. m ≡ record { 0 = types w.now ctx.now.0 t.now }) }
        ensures holds { IfOk result (λ m. MaskHolds (function_of w.now.entries) ctx.now.0 t.now m) }
    {
        types_of(alloc, w, ctx, t)
    }
}

impl LinearOracle for Oracles {
    fn refute(
        &self,
        alloc: Global,
        w: &World,
        polys: &Seq<Poly>,
    ) -> Result<Option<Seq<u64>>, NoMemory>
        ensures first { IfOk result (λ o. o ≡ lin polys.now) }
        ensures certifies { IfOk result (λ o. IfSome o (λ by. IsCertificate polys.now by)) }
    {
        refute(alloc, w, polys)
    }
}
