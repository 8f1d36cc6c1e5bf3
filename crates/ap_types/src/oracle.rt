ghost use Rattle.std.specs.Prelude.{◌≡◌, IsTrue, IfOk};
ghost use Rattle.ap_world.specs.Sound.{known};
ghost use Rattle.ap_world.specs.World.{function_of};
ghost use Rattle.ap_world.specs.Facts.{KnownFacts};
ghost use Rattle.ap_world.specs.Typing.{types};
ghost use Rattle.ap_kernel.specs.Standing.{DefinesNot};
ghost use Rattle.ap_kernel.specs.Masks.{MaskHolds};

use crate::base::Base;
use crate::calls::Setting;
use crate::scopes::Scopes;
use crate::typing::types_at;
use ap_kernel::{Ctx, TypeOracle};
use ap_list::NoMemory;
use ap_term::Term;
use ap_world::{Mask, World};
use std::alloc::Global;

/// The types that a term's value can have wherever the facts hold: those of the term's form, cut by the
/// facts on the term. The kept mask of a function is used where its type-prescription rune is enabled in
/// the world's current theory, cut by the world's enabled type-prescription theorems about the function.
/// Linear in the term's size times the facts that are in force at its parts, of which none is copied; of
/// the world only the functions that are called and the theorems about them are looked up. See the manual's
/// topics `type-set` and `type-prescription`.
pub fn types_of(alloc: Global, w: &World, ctx: &Ctx, t: &Term) -> Result<Mask, NoMemory>
    requires ground { DefinesNot (function_of w.now.entries) }
    requires facts { KnownFacts (function_of w.now.entries) ctx.now.0 }
    requires term { IsTrue (known (function_of w.now.entries) t.now) }
    ensures made { IfOk result (λ m. m ≡ record { 0 = types w.now ctx.now.0 t.now }) }
    ensures holds { IfOk result (λ m. MaskHolds (function_of w.now.entries) ctx.now.0 t.now m) }
{
    w.recall_sound();
    let setting = Setting {
        alloc,
        w,
        base: Base::new(ctx.facts(), t),
        own: None,
    };
    let mut scopes = Scopes::new(alloc);
    Ok(Mask(types_at(&setting, &mut scopes, t)?))
}

/// The kernel's oracle of types, by [`types_of`].
#[derive(Clone, Copy, Drop)]
pub struct Types;

impl TypeOracle for Types {
    fn mask(&self, alloc: Global, w: &World, ctx: &Ctx, t: &Term) -> Result<Mask, NoMemory>
        requires ground { DefinesNot (function_of w.now.entries) }
        requires facts { KnownFacts (function_of w.now.entries) ctx.now.0 }
        requires term { IsTrue (known (function_of w.now.entries) t.now) }
        ensures made { IfOk result (λ m. m ≡ record { 0 = types w.now ctx.now.0 t.now }) }
        ensures holds { IfOk result (λ m. MaskHolds (function_of w.now.entries) ctx.now.0 t.now m) }
    {
        types_of(alloc, w, ctx, t)
    }
}
