ghost use Rattle.std.specs.Prelude.{◌≡◌, [], IsTrue, IfOk, pos};
ghost use Rattle.ap_value.specs.Values.{val_of, value_eq, int};
ghost use Rattle.ap_world.specs.Sound.{known};
ghost use Rattle.ap_world.specs.World.{function_of};
ghost use Rattle.ap_world.specs.Facts.{KnownFacts};
ghost use Rattle.ap_world.specs.Typing.{types};
ghost use Rattle.ap_kernel.specs.Standing.{DefinesNot, Stands};
ghost use Rattle.ap_kernel.specs.Deriving.{node};
ghost use Rattle.ap_kernel.specs.declared.derivations.Row.TheVariants.{ByType};
ghost use Rattle.ap_kernel.specs.Masks.{MaskHolds, types_of_others, has_only, leads_to, typed_mode, typed_made};

use crate::derivations::{Derivation, Row};
use crate::objects::{Ctx, Equiv, Mode};
use ap_list::{NoMemory, Shared};
use ap_term::{Term, copy_term};
use ap_value::{Value, copy, same};
use ap_world::{Mask, World, is_nil, is_t, masks};
use std::alloc::Global;

/// What says which types a term's value can have. The kernel doesn't trust it: what it answers is proved
/// by whoever implements it.
pub trait TypeOracle {
    /// The mask that the definition of types gives the term under the facts in the world, with the world's
    /// current theory. It holds of the term: wherever the facts hold, the type of its value is in the mask.
    fn mask(&self, alloc: Global, w: &World, ctx: &Ctx, t: &Term) -> Result<Mask, NoMemory>
        requires ground { DefinesNot (function_of w.now.entries) }
        requires facts { KnownFacts (function_of w.now.entries) ctx.now.0 }
        requires term { IsTrue (known (function_of w.now.entries) t.now) }
        ensures made { IfOk result (λ m. m ≡ record { 0 = types w.now ctx.now.0 t.now }) }
        ensures holds { IfOk result (λ m. MaskHolds (function_of w.now.entries) ctx.now.0 t.now m) };
}

/// Whether a value is zero. Takes no memory.
fn is_zero(v: &Value) -> bool
    ensures { result ≡ value_eq (val_of v.now) (int (pos 0)) }
{
    let zero = Value::Int(0);
    same(v, &zero)
}

/// The types that have another value than this one.
fn types_of_others(v: &Value) -> u16
    ensures { result ≡ types_of_others (val_of v.now) }
{
    if is_nil(v) {
        return masks::ALL ^ masks::NIL;
    }
    if is_t(v) {
        return masks::ALL ^ masks::T;
    }
    if is_zero(v) {
        return masks::ALL ^ masks::ZERO;
    }
    masks::ALL
}

/// How a term leads to the one value, by its mask.
fn typed_mode(mask: Mask, value: &Value) -> Mode
    ensures { result ≡ typed_mode mask (val_of value.now) }
{
    if mask.0 & types_of_others(value) == 0 {
        Mode::Equal
    } else {
        Mode::Iff
    }
}

/// How a term is led to a value by its mask.
fn type_why(
    alloc: Global,
    ctx: &Ctx,
    t: &Term,
    mask: Mask,
    value: &Value,
) -> Result<Shared<Derivation>, NoMemory>
    ensures { IfOk result (λ d. d ≡ node (ByType ctx.now t.now mask value.now) []) }
{
    let ctx = ctx.share()?;
    let value = copy(alloc, value)?;
    let t = copy_term(alloc, t)?;
    let answer = Derivation::leaf(alloc, Row::ByType(ctx, t, mask, value))?;
    Ok(answer)
}

/// From a term to the one value that its mask leaves, under equality; or, where the mask excludes `nil`, to
/// a value other than `nil`, under `iff`. The mask is what the definition of types gives. It copies the term,
/// since an equivalence owns its sides.
pub fn by_type(
    alloc: Global,
    w: &World,
    ctx: &Ctx,
    t: &Term,
    mask: Mask,
    value: Value,
) -> Result<Equiv, NoMemory>
    requires facts { KnownFacts (function_of w.now.entries) ctx.now.0 }
    requires term { IsTrue (known (function_of w.now.entries) t.now) }
    requires mask { MaskHolds (function_of w.now.entries) ctx.now.0 t.now mask }
    requires exact { mask.0 ≡ types w.now ctx.now.0 t.now }
    requires value { IsTrue (leads_to mask (val_of value)) }
    ensures stands { IfOk result (λ q. Stands w.now q) }
    ensures made { IfOk result (λ q. q.says ≡ typed_made ctx.now t.now mask value) }
{
    w.recall_sound();
    let mode = typed_mode(mask, &value);
    let why = type_why(alloc, ctx, t, mask, &value)?;
    let answer = Equiv::from_copy(alloc, ctx, mode, t, Term::quote(value), why)?;
    Ok(answer)
}
