// What an `if` and a negation lead to, whose parts are rewritten already.
ghost use Rattle.std.specs.Prelude.{◌≡◌, IsTrue, IfOk, None};
ghost use Rattle.ap_value.specs.Values.{val_of, value_eq};
ghost use Rattle.ap_term.specs.declared.term.Term.{Term, Quote};
ghost use Rattle.ap_world.specs.Primitives.{nil, truth};
ghost use Rattle.ap_world.specs.Clauses.{not_of};
ghost use Rattle.ap_world.specs.Sound.{known};
ghost use Rattle.ap_world.specs.World.{function_of};
ghost use Rattle.ap_world.specs.Facts.{KnownFacts};
ghost use Rattle.ap_world.specs.Shapes.{negation};
ghost use Rattle.ap_kernel.specs.Answers.{if_of};
ghost use Rattle.ap_kernel.specs.Choices.{is_truth};
ghost use Rattle.ap_kernel.specs.Equations.{truth_constant};
ghost use Rattle.ap_kernel.specs.Standing.{DefinesNot, Stands};
ghost use Rattle.ap_rewrite.specs.Leading.{leads_made, plain_in};
ghost use Rattle.ap_rewrite.specs.Rewriting.{truth_of, shaped, unwrapped, negated};

use crate::settling::{in_mode, lacks, nil_value, t_value};
use ap_kernel::{
    Ctx, Equiv, Mask, Mode, NoMemory, ShapeRef, Term, TypeOracle, Value, World, bare_test, by_type,
    double_not, if_shape, is_nil, refl, shape_of,
};
use ap_types::types_of;
use ap_world::masks;
use std::alloc::Global;

/// From an `if` whose test is no constant to its simplest shape. The oracle is asked of its test, without the
/// calls of `not` around it.
pub fn shaped<O: TypeOracle>(
    alloc: Global,
    w: &World,
    oracle: &O,
    ctx: &Ctx,
    mode: Mode,
    t: &Term,
) -> Result<Equiv, NoMemory>
    requires ground { DefinesNot (function_of w.now.entries) }
    requires facts { KnownFacts (function_of w.now.entries) ctx.now.0 }
    requires term { IsTrue (known (function_of w.now.entries) t.now) }
    requires choice { (a : Term) × (b : Term) × (c : Term) × (t.now ≡ if_of a b c) × (truth_of a ≡ None) }
    ensures stands { IfOk result (λ q. Stands w.now q) }
    ensures made { IfOk result (λ q. (a b c : Term) → t.now ≡ if_of a b c → q.says ≡ leads_made ctx.now mode t.now (shaped (plain_in w.now w.now.theory) mode ctx.now.0 a b c)) }
{
    let mask = oracle.mask(alloc, w, ctx, bare_test(t))?;
    let q = if_shape(alloc, w, ctx, mode, t, mask)?;
    Ok(q)
}

/// What the negation of a value is.
fn negation_of(v: &Value) -> Value
    ensures value { val_of result ≡ truth (value_eq (val_of v.now) nil) }
    ensures constant { Quote result ≡ truth_constant (value_eq (val_of v.now) nil) }
{
    let empty = is_nil(v);
    if empty {
        return t_value();
    }
    nil_value()
}

/// From the negation of a constant to `'T` or `'NIL`, by its types: that running gives it within 2,000 units isn't so
/// of every constant.
pub(crate) fn not_constant(
    alloc: Global,
    w: &World,
    ctx: &Ctx,
    mode: Mode,
    t: &Term,
    v: &Value,
) -> Result<Equiv, NoMemory>
    requires ground { DefinesNot (function_of w.now.entries) }
    requires facts { KnownFacts (function_of w.now.entries) ctx.now.0 }
    requires negation { t.now ≡ not_of (Quote v.now) }
    ensures stands { IfOk result (λ q. Stands w.now q) }
    ensures made { IfOk result (λ q. q.says ≡ leads_made ctx.now mode t.now (truth_constant (value_eq (val_of v.now) nil))) }
{
    let value = negation_of(v);
    let mask = types_of(alloc, w, ctx, t)?;
    let first = by_type(alloc, w, ctx, t, mask, value)?;
    let q = in_mode(alloc, w, first, mode)?;
    Ok(q)
}

/// Whether only `nil` or not counts, or the mask has no value but `t` and `nil`.
fn is_truth(mode: Mode, mask: Mask) -> bool
    ensures { result ≡ is_truth mode mask }
{
    match mode {
        Mode::Equal => lacks(mask, masks::ALL ^ masks::TRUTHS),
        Mode::Iff => true,
    }
}

/// From the negation of a negation to what it is.
fn not_not<O: TypeOracle>(
    alloc: Global,
    w: &World,
    oracle: &O,
    ctx: &Ctx,
    mode: Mode,
    t: &Term,
    z: &Term,
) -> Result<Equiv, NoMemory>
    requires ground { DefinesNot (function_of w.now.entries) }
    requires facts { KnownFacts (function_of w.now.entries) ctx.now.0 }
    requires term { IsTrue (known (function_of w.now.entries) t.now) }
    requires negation { t.now ≡ not_of (not_of z.now) }
    ensures stands { IfOk result (λ q. Stands w.now q) }
    ensures made { IfOk result (λ q. q.says ≡ leads_made ctx.now mode t.now (unwrapped (plain_in w.now w.now.theory) mode ctx.now.0 (not_of z.now) (negation z.now))) }
{
    let mask = oracle.mask(alloc, w, ctx, z)?;
    let counts = is_truth(mode, mask);
    if counts {
        let q = double_not(alloc, w, ctx, mode, z, mask)?;
        return Ok(q);
    }
    let same = refl(alloc, w, ctx, mode, t)?;
    Ok(same)
}

/// From a negation to what it is by its argument.
fn negated_by<O: TypeOracle>(
    alloc: Global,
    w: &World,
    oracle: &O,
    ctx: &Ctx,
    mode: Mode,
    t: &Term,
    a: &Term,
) -> Result<Equiv, NoMemory>
    requires ground { DefinesNot (function_of w.now.entries) }
    requires facts { KnownFacts (function_of w.now.entries) ctx.now.0 }
    requires term { IsTrue (known (function_of w.now.entries) t.now) }
    requires negation { t.now ≡ not_of a.now }
    ensures stands { IfOk result (λ q. Stands w.now q) }
    ensures made { IfOk result (λ q. q.says ≡ leads_made ctx.now mode t.now (negated (plain_in w.now w.now.theory) mode ctx.now.0 a.now (truth_of a.now))) }
{
    match shape_of(a) {
        ShapeRef::Constant(v) => {
            let constant = not_constant(alloc, w, ctx, mode, t, v)?;
            Ok(constant)
        }
        ShapeRef::Not(z) => {
            let twice = not_not(alloc, w, oracle, ctx, mode, t, z)?;
            Ok(twice)
        }
        _ => {
            let same = refl(alloc, w, ctx, mode, t)?;
            Ok(same)
        }
    }
}

/// The argument of a negation.
pub(crate) fn argument_of(t: &Term) -> &Term
    requires { (a : Term) × (t.now ≡ not_of a) }
    ensures { t.now ≡ not_of result.now }
{
    match shape_of(t) {
        ShapeRef::Not(a) => a,
        _ => unreachable!(),
    }
}

/// From a negation to what it is by what its argument is: a constant turned round; of `(not z)` it is `z` where
/// only `nil` or not counts, or where the types of `z` are `t` and `nil` alone; else it stays.
pub fn negated<O: TypeOracle>(
    alloc: Global,
    w: &World,
    oracle: &O,
    ctx: &Ctx,
    mode: Mode,
    t: &Term,
) -> Result<Equiv, NoMemory>
    requires ground { DefinesNot (function_of w.now.entries) }
    requires facts { KnownFacts (function_of w.now.entries) ctx.now.0 }
    requires term { IsTrue (known (function_of w.now.entries) t.now) }
    requires negation { (a : Term) × (t.now ≡ not_of a) }
    ensures stands { IfOk result (λ q. Stands w.now q) }
    ensures made { IfOk result (λ q. (a : Term) → t.now ≡ not_of a → q.says ≡ leads_made ctx.now mode t.now (negated (plain_in w.now w.now.theory) mode ctx.now.0 a (truth_of a))) }
{
    let argument = argument_of(t);
    let q = negated_by(alloc, w, oracle, ctx, mode, t, argument)?;
    Ok(q)
}
