// What a term leads to by itself: a constant, and what its mask settles.
ghost use Rattle.std.specs.Prelude.{◌≡◌, ◌&&◌, IsTrue, IfOk, IfSome, true, cond, not, unwrap_or, Some, None, []};
ghost use Rattle.std.specs.Option.{option_map};
ghost use Rattle.ap_value.specs.Values.{val_of, value_eq};
ghost use Rattle.ap_value.specs.declared.value.Value.{Sym};
ghost use Rattle.ap_term.specs.declared.term.Term.{Quote};
ghost use Rattle.ap_term.specs.Equal.{term_eq};
ghost use Rattle.ap_world.specs.Names.{nil_name, t_name};
ghost use Rattle.ap_world.specs.Primitives.{nil};
ghost use Rattle.ap_world.specs.Meaning.{HasValue};
ghost use Rattle.ap_world.specs.Sound.{known};
ghost use Rattle.ap_world.specs.World.{function_of};
ghost use Rattle.ap_world.specs.Recursion.{t_constant};
ghost use Rattle.ap_world.specs.Facts.{KnownFacts};
ghost use Rattle.ap_world.specs.Typing.{types};
ghost use Rattle.ap_world.specs.Units.{metered};
ghost use Rattle.ap_world.specs.Shapes.{is_constant};
ghost use Rattle.ap_poly.specs.Bounds.{lacks};
ghost use Rattle.ap_kernel.specs.declared.objects.Mode.TheVariants.{Iff};
ghost use Rattle.ap_kernel.specs.Opening.{is_constant_call};
ghost use Rattle.ap_kernel.specs.Standing.{DefinesNot, Stands};
ghost use Rattle.ap_kernel.specs.Rows.{gives_value};
ghost use Rattle.ap_kernel.specs.Masks.{MaskHolds, leads_to, typed_mode};
ghost use Rattle.ap_rewrite.specs.Leading.{leads_made, said_of, Serves, plain_in};
ghost use Rattle.ap_rewrite.specs.Rewriting.{is_iff, constant_in, by_mask, changed, settled};

use ap_kernel::{
    Ctx, Equiv, Mask, Mode, NoMemory, Term, TypeOracle, Value, World, by_type, fold, is_nil, refl,
    t_term, trans, weaken_mode,
};
use ap_term::is_same;
use ap_types::types_of;
use ap_value::{Fixed, named};
use ap_world::masks;
use std::alloc::Global;

/// The value `t`. Takes no memory.
#[tactic(auto, unfolding(ap_world::specs::Names::t_name))]
pub(crate) fn t_value() -> Value
    ensures { result ≡ Sym t_name }
{
    Value::Sym(named(Fixed::T))
}

/// The value `nil`. Takes no memory.
#[tactic(auto, unfolding(ap_world::specs::Names::nil_name))]
pub(crate) fn nil_value() -> Value
    ensures { result ≡ Sym nil_name }
{
    Value::Sym(named(Fixed::Nil))
}

/// Whether only `nil` or not counts. Takes no memory.
pub fn is_iff(mode: Mode) -> bool
    ensures { result ≡ is_iff mode }
{
    match mode {
        Mode::Equal => false,
        Mode::Iff => true,
    }
}

/// Whether an equivalence under the one mode is to be weakened to serve as one under the other.
fn is_weaker(has: Mode, wanted: Mode) -> bool
    ensures { result ≡ (is_iff wanted && not (is_iff has)) }
{
    is_iff(wanted) && !is_iff(has)
}

/// The same equivalence under another mode that it serves under: equality serves under both. It copies nothing.
pub fn in_mode(alloc: Global, w: &World, q: Equiv, mode: Mode) -> Result<Equiv, NoMemory>
    requires stands { Stands w.now q }
    requires serves { Serves q.says.mode mode }
    ensures stands { IfOk result (λ r. Stands w.now r) }
    ensures made { IfOk result (λ r. r.says ≡ leads_made q.says.ctx mode q.says.lhs q.says.rhs) }
{
    let has = q.mode();
    let weaker = is_weaker(has, mode);
    if weaker {
        let r = weaken_mode(alloc, w, q)?;
        return Ok(r);
    }
    Ok(q)
}

/// From a constant that isn't `nil` to `'T`, under `iff`: by its types, where it isn't `'T`.
fn constant_truth(alloc: Global, w: &World, ctx: &Ctx, t: &Term) -> Result<Equiv, NoMemory>
    requires ground { DefinesNot (function_of w.now.entries) }
    requires facts { KnownFacts (function_of w.now.entries) ctx.now.0 }
    requires constant { IsTrue (is_constant true t.now) }
    ensures stands { IfOk result (λ q. Stands w.now q) }
    ensures made { IfOk result (λ q. q.says ≡ leads_made ctx.now Iff t.now t_constant) }
{
    let truth = t_term();
    let same = is_same(t, &truth);
    if same {
        let q = refl(alloc, w, ctx, Mode::Iff, t)?;
        return Ok(q);
    }
    let mask = types_of(alloc, w, ctx, t)?;
    let first = by_type(alloc, w, ctx, t, mask, t_value())?;
    let q = in_mode(alloc, w, first, Mode::Iff)?;
    Ok(q)
}

/// Whether a constant becomes `'T` under a mode: under `iff` each that isn't `nil`.
pub(crate) fn becomes_true(mode: Mode, v: &Value) -> bool
    ensures { result ≡ (is_iff mode && not (value_eq (val_of v.now) nil)) }
{
    is_iff(mode) && !is_nil(v)
}

/// From a constant to what it is under a mode: under `iff` one that isn't `nil` becomes `'T`.
pub fn constant_equiv(
    alloc: Global,
    w: &World,
    ctx: &Ctx,
    mode: Mode,
    t: &Term,
    v: &Value,
) -> Result<Equiv, NoMemory>
    requires ground { DefinesNot (function_of w.now.entries) }
    requires facts { KnownFacts (function_of w.now.entries) ctx.now.0 }
    requires constant { t.now ≡ Quote v.now }
    ensures stands { IfOk result (λ q. Stands w.now q) }
    ensures made { IfOk result (λ q. q.says ≡ leads_made ctx.now mode t.now (constant_in mode v.now)) }
{
    let becomes = becomes_true(mode, v);
    if becomes {
        let truth = constant_truth(alloc, w, ctx, t)?;
        return Ok(truth);
    }
    let same = refl(alloc, w, ctx, mode, t)?;
    Ok(same)
}

/// From a call of constants to its value, under either mode.
pub(crate) fn value_equiv(
    alloc: Global,
    w: &World,
    ctx: &Ctx,
    mode: Mode,
    t: &Term,
    value: Value,
) -> Result<Equiv, NoMemory>
    requires facts { KnownFacts (function_of w.now.entries) ctx.now.0 }
    requires term { IsTrue (known (function_of w.now.entries) t.now) }
    requires constants { IsTrue (is_constant_call t.now) }
    requires value { HasValue (function_of w.now.entries) t.now [] (val_of value) }
    requires run { IsTrue (gives_value value (metered (function_of w.now.entries) t.now [] 2000)) }
    ensures stands { IfOk result (λ q. Stands w.now q) }
    ensures made { IfOk result (λ q. q.says ≡ leads_made ctx.now mode t.now (Quote value)) }
{
    let first = fold(alloc, w, ctx, t, value)?;
    let q = in_mode(alloc, w, first, mode)?;
    Ok(q)
}

/// Where a term leads under `iff` to a constant that isn't `nil`, on to `'T`.
pub fn to_true(alloc: Global, w: &World, q: Equiv) -> Result<Equiv, NoMemory>
    requires ground { DefinesNot (function_of w.now.entries) }
    requires stands { Stands w.now q }
    requires mode { q.says.mode ≡ Iff }
    requires constant { IsTrue (is_constant true q.says.rhs) }
    ensures stands { IfOk result (λ r. Stands w.now r) }
    ensures made { IfOk result (λ r. r.says ≡ leads_made q.says.ctx Iff q.says.lhs t_constant) }
{
    let more = constant_truth(alloc, w, q.ctx(), q.rhs())?;
    let r = trans(alloc, w, q, more)?;
    Ok(r)
}

/// Whether a mask has none of these types.
pub fn lacks(mask: Mask, types: u16) -> bool
    ensures { result ≡ lacks mask.0 types }
{
    mask.0 & types == 0
}

/// The constant that a mask settles a term to: under `iff` `'T` where it excludes `nil`; else the one value
/// that it leaves.
fn settled_value(mode: Mode, mask: Mask) -> Option<Value>
    ensures is { option_map Quote result ≡ by_mask mode mask.0 }
    ensures leads { IfSome result (λ v. IsTrue (leads_to mask (val_of v))) }
    ensures serves { IfSome result (λ v. Serves (typed_mode mask (val_of v)) mode) }
{
    if is_iff(mode) && lacks(mask, masks::NIL) {
        return Some(t_value());
    }
    if lacks(mask, masks::ALL ^ masks::NIL) {
        return Some(nil_value());
    }
    if lacks(mask, masks::ALL ^ masks::T) {
        return Some(t_value());
    }
    if lacks(mask, masks::ALL ^ masks::ZERO) {
        return Some(Value::Int(0));
    }
    None
}

/// From a term to a value that its mask leads to, under a mode that it serves under.
fn typed(
    alloc: Global,
    w: &World,
    ctx: &Ctx,
    mode: Mode,
    t: &Term,
    mask: Mask,
    value: Value,
) -> Result<Equiv, NoMemory>
    requires facts { KnownFacts (function_of w.now.entries) ctx.now.0 }
    requires term { IsTrue (known (function_of w.now.entries) t.now) }
    requires mask { MaskHolds (function_of w.now.entries) ctx.now.0 t.now mask }
    requires exact { mask.0 ≡ types w.now ctx.now.0 t.now }
    requires value { IsTrue (leads_to mask (val_of value)) }
    requires serves { Serves (typed_mode mask (val_of value)) mode }
    ensures stands { IfOk result (λ q. Stands w.now q) }
    ensures made { IfOk result (λ q. q.says ≡ leads_made ctx.now mode t.now (Quote value)) }
{
    let first = by_type(alloc, w, ctx, t, mask, value)?;
    let q = in_mode(alloc, w, first, mode)?;
    Ok(q)
}

/// From a term to the value that it is settled to, where there is one, and else to itself.
fn settled_to(
    alloc: Global,
    w: &World,
    ctx: &Ctx,
    mode: Mode,
    t: &Term,
    mask: Mask,
    found: Option<Value>,
) -> Result<Equiv, NoMemory>
    requires facts { KnownFacts (function_of w.now.entries) ctx.now.0 }
    requires term { IsTrue (known (function_of w.now.entries) t.now) }
    requires mask { MaskHolds (function_of w.now.entries) ctx.now.0 t.now mask }
    requires exact { mask.0 ≡ types w.now ctx.now.0 t.now }
    requires value { IfSome found (λ v. IsTrue (leads_to mask (val_of v))) }
    requires serves { IfSome found (λ v. Serves (typed_mode mask (val_of v)) mode) }
    ensures stands { IfOk result (λ q. Stands w.now q) }
    ensures made { IfOk result (λ q. q.says ≡ leads_made ctx.now mode t.now (unwrap_or (option_map Quote found) t.now)) }
{
    match found {
        Some(value) => typed(alloc, w, ctx, mode, t, mask, value),
        None => refl(alloc, w, ctx, mode, t),
    }
}

/// From a term to what its mask settles, which may be the term itself. The oracle is asked once.
pub fn settled<O: TypeOracle>(
    alloc: Global,
    w: &World,
    oracle: &O,
    ctx: &Ctx,
    mode: Mode,
    t: &Term,
) -> Result<Equiv, NoMemory>
    requires ground { DefinesNot (function_of w.now.entries) }
    requires facts { KnownFacts (function_of w.now.entries) ctx.now.0 }
    requires term { IsTrue (known (function_of w.now.entries) t.now) }
    ensures stands { IfOk result (λ q. Stands w.now q) }
    ensures made { IfOk result (λ q. q.says ≡ leads_made ctx.now mode t.now (settled (plain_in w.now w.now.theory) mode ctx.now.0 t.now)) }
{
    let mask = oracle.mask(alloc, w, ctx, t)?;
    let found = settled_value(mode, mask);
    let q = settled_to(alloc, w, ctx, mode, t, mask, found)?;
    Ok(q)
}

/// An equivalence, where its right side is another term.
fn changed(t: &Term, q: Equiv) -> Option<Equiv>
    ensures is { said_of result ≡ cond (term_eq t.now q.says.rhs) None (Some q.says) }
    ensures same { IfSome result (λ r. r ≡ q) }
{
    let same = is_same(t, q.rhs());
    if same {
        return None;
    }
    Some(q)
}

/// From a term to what its mask settles, where that is another term. The oracle is asked once.
pub fn settle<O: TypeOracle>(
    alloc: Global,
    w: &World,
    oracle: &O,
    ctx: &Ctx,
    mode: Mode,
    t: &Term,
) -> Result<Option<Equiv>, NoMemory>
    requires ground { DefinesNot (function_of w.now.entries) }
    requires facts { KnownFacts (function_of w.now.entries) ctx.now.0 }
    requires term { IsTrue (known (function_of w.now.entries) t.now) }
    ensures stands { IfOk result (λ o. IfSome o (λ q. Stands w.now q)) }
    ensures made { IfOk result (λ o. said_of o ≡ option_map (leads_made ctx.now mode t.now) (changed t.now (settled (plain_in w.now w.now.theory) mode ctx.now.0 t.now))) }
{
    let mask = oracle.mask(alloc, w, ctx, t)?;
    match settled_value(mode, mask) {
        Some(value) => {
            let q = typed(alloc, w, ctx, mode, t, mask, value)?;
            let other = changed(t, q);
            Ok(other)
        }
        None => Ok(None),
    }
}
