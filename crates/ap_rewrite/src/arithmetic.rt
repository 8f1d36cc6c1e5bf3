// What linear arithmetic decides of a comparison.
ghost use Rattle.std.specs.Prelude.{◌≡◌, IsTrue, IfOk, IfSome, true};
ghost use Rattle.ap_term.specs.declared.term.Term.{Call};
ghost use Rattle.ap_world.specs.Facts.{KnownFacts};
ghost use Rattle.ap_world.specs.Sound.{known};
ghost use Rattle.ap_kernel.specs.Linear.{is_comparison, less_of};
ghost use Rattle.ap_kernel.specs.Equations.{equal_of};
ghost use Rattle.ap_rewrite.specs.Linear.{refuted, by_truth, by_less, by_orders, by_equal, by_equation, by_arithmetic};
ghost use Rattle.ap_rewrite.specs.Refuting.{Refutes, Squeezes, IntegersWithin};
ghost use Rattle.ap_rewrite.specs.Answering.{defs_in, where_applied, setting_of, inner_of, seen_at, got_if, got_any, From, Here, IsLevel};
ghost use Rattle.ap_kernel.specs.declared.objects.Mode.TheVariants.{Equal};

use crate::bounding::{Begun, begin, integers};
use crate::laws::arithmetic_is_sound;
use crate::linear_rules::used_each;
use crate::refuting::refute;
use crate::rewriter::{Below, Level, Place, Run, Tried, from_found};
use crate::settling::in_mode;
use ap_kernel::{
    Equiv, LinearOracle, Mask, Mode, NoMemory, Seq, Symbol, Term, TypeOracle, both_not_less,
};
use ap_rules::linear_for;
use ap_term::copy_term;
use ap_value::{Fixed, named};
use ap_world::{Primitive, primitive_of};
use std::alloc::Global;

/// From a comparison to the truth that its sign denies, where the first 32 of the polynomials that the definition
/// lists can't all hold.
fn refuted<O: TypeOracle + LinearOracle, F: Below>(
    l: &Level<'_, '_, O, F>,
    steps: &mut Run<'_>,
    at: &Place<'_>,
    t: &Term,
    sign: bool,
) -> Result<Option<Tried<Equiv>>, NoMemory>
    requires level { IsLevel (F.may l.now.below.now) (F.gives l.now.below.now) l.now.r.now l.now.levels }
    requires facts { KnownFacts (defs_in l.now.r.now) at.now.ctx.now.0 }
    requires term { IsTrue (known (defs_in l.now.r.now) t.now) }
    requires comparison { IsTrue (is_comparison t.now) }
    requires here { Here l.now.r.now at.now steps.old.memo }
    ensures is { IfOk result (λ o. got_if o steps.new.left ≡ refuted (setting_of l.now.r.now) (inner_of l.now.r.now l.now.levels) (seen_at at.now) t.now sign steps.old.left) }
    ensures refutes { IfOk result (λ o. IfSome o (λ a. IfSome (where_applied a) (Refutes l.now.r.now.w.now at.now.ctx.now t.now sign))) }
    ensures kept { steps.new.memo ≡ steps.old.memo }
{
    arithmetic_is_sound();
    l.r.w.recall_sound();
    l.r.w.recall_distinct_names();
    let Begun {
        polys,
        mut whys,
        atoms,
    } = begin(l.r, at.ctx, t, sign)?;
    let places = linear_for(l.r.alloc, l.r.rules, atoms.as_slice())?;
    let Some(all) = used_each(
        l,
        steps,
        at,
        places.as_slice(),
        atoms.as_slice(),
        polys,
        &mut whys,
    )?
    else {
        return Ok(None);
    };
    let found = refute(l.r.alloc, l.r.w, l.r.oracle, at.ctx, t, sign, all, whys)?;
    Ok(Some(from_found(found)))
}

/// `(< a b)`.
#[tactic(auto, unfolding(ap_world::specs::Names::less_name))]
fn less_term(alloc: Global, a: &Term, b: &Term) -> Result<Term, NoMemory>
    ensures { IfOk result (λ u. u ≡ less_of a.now b.now) }
{
    let mut sides = Seq::new(alloc);
    sides.push(copy_term(alloc, a)?)?;
    sides.push(copy_term(alloc, b)?)?;
    Term::call(alloc, named(Fixed::Less), sides)
}

/// A comparison is `'NIL` where it is refuted.
fn by_truth<O: TypeOracle + LinearOracle, F: Below>(
    l: &Level<'_, '_, O, F>,
    steps: &mut Run<'_>,
    at: &Place<'_>,
    t: &Term,
) -> Result<Option<Tried<Equiv>>, NoMemory>
    requires level { IsLevel (F.may l.now.below.now) (F.gives l.now.below.now) l.now.r.now l.now.levels }
    requires facts { KnownFacts (defs_in l.now.r.now) at.now.ctx.now.0 }
    requires term { IsTrue (known (defs_in l.now.r.now) t.now) }
    requires comparison { IsTrue (is_comparison t.now) }
    requires here { Here l.now.r.now at.now steps.old.memo }
    ensures is { IfOk result (λ o. got_any o steps.new.left ≡ by_truth (setting_of l.now.r.now) (inner_of l.now.r.now l.now.levels) (seen_at at.now) t.now steps.old.left) }
    ensures from { IfOk result (λ o. IfSome o (λ a. IfSome (where_applied a) (From l.now.r.now.w.now Equal at.now.ctx.now t.now))) }
    ensures kept { steps.new.memo ≡ steps.old.memo }
{
    refuted(l, steps, at, t, true)
}

/// `(< a b)`: `'T` where its negation is refuted, else `'NIL` where it is.
fn by_less<O: TypeOracle + LinearOracle, F: Below>(
    l: &Level<'_, '_, O, F>,
    steps: &mut Run<'_>,
    at: &Place<'_>,
    t: &Term,
) -> Result<Option<Tried<Equiv>>, NoMemory>
    requires level { IsLevel (F.may l.now.below.now) (F.gives l.now.below.now) l.now.r.now l.now.levels }
    requires facts { KnownFacts (defs_in l.now.r.now) at.now.ctx.now.0 }
    requires term { IsTrue (known (defs_in l.now.r.now) t.now) }
    requires comparison { IsTrue (is_comparison t.now) }
    requires here { Here l.now.r.now at.now steps.old.memo }
    ensures is { IfOk result (λ o. got_any o steps.new.left ≡ by_less (setting_of l.now.r.now) (inner_of l.now.r.now l.now.levels) (seen_at at.now) t.now steps.old.left) }
    ensures from { IfOk result (λ o. IfSome o (λ a. IfSome (where_applied a) (From l.now.r.now.w.now Equal at.now.ctx.now t.now))) }
    ensures kept { steps.new.memo ≡ steps.old.memo }
{
    match refuted(l, steps, at, t, false)? {
        None => Ok(None),
        Some(Tried::Applied(q)) => Ok(Some(Tried::Applied(q))),
        Some(Tried::PassedBy) => by_truth(l, steps, at, t),
    }
}

/// From `(< a b)` to `'NIL`, where it is refuted.
fn less_refuted<O: TypeOracle + LinearOracle, F: Below>(
    l: &Level<'_, '_, O, F>,
    steps: &mut Run<'_>,
    at: &Place<'_>,
    a: &Term,
    b: &Term,
) -> Result<Option<Tried<Equiv>>, NoMemory>
    requires level { IsLevel (F.may l.now.below.now) (F.gives l.now.below.now) l.now.r.now l.now.levels }
    requires facts { KnownFacts (defs_in l.now.r.now) at.now.ctx.now.0 }
    requires left { IsTrue (known (defs_in l.now.r.now) a.now) }
    requires right { IsTrue (known (defs_in l.now.r.now) b.now) }
    requires here { Here l.now.r.now at.now steps.old.memo }
    ensures is { IfOk result (λ o. got_if o steps.new.left ≡ refuted (setting_of l.now.r.now) (inner_of l.now.r.now l.now.levels) (seen_at at.now) (less_of a.now b.now) true steps.old.left) }
    ensures refutes { IfOk result (λ o. IfSome o (λ q. IfSome (where_applied q) (Refutes l.now.r.now.w.now at.now.ctx.now (less_of a.now b.now) true))) }
    ensures kept { steps.new.memo ≡ steps.old.memo }
{
    let less = less_term(l.r.alloc, a, b)?;
    let found = refuted(l, steps, at, &less, true)?;
    Ok(found)
}

/// Two integers by their types, of which the first isn't less: whether the second isn't either, so that they are equal.
fn other_order<O: TypeOracle + LinearOracle, F: Below>(
    l: &Level<'_, '_, O, F>,
    steps: &mut Run<'_>,
    at: &Place<'_>,
    a: &Term,
    b: &Term,
    masks: (Mask, Mask),
    first: Equiv,
) -> Result<Option<Tried<Equiv>>, NoMemory>
    requires level { IsLevel (F.may l.now.below.now) (F.gives l.now.below.now) l.now.r.now l.now.levels }
    requires facts { KnownFacts (defs_in l.now.r.now) at.now.ctx.now.0 }
    requires left { IsTrue (known (defs_in l.now.r.now) a.now) }
    requires right { IsTrue (known (defs_in l.now.r.now) b.now) }
    requires within { IntegersWithin l.now.r.now.w.now at.now.ctx.now.0 a.now b.now masks.0 masks.1 }
    requires first { Refutes l.now.r.now.w.now at.now.ctx.now (less_of a.now b.now) true first }
    requires here { Here l.now.r.now at.now steps.old.memo }
    ensures is { IfOk result (λ o. got_if o steps.new.left ≡ refuted (setting_of l.now.r.now) (inner_of l.now.r.now l.now.levels) (seen_at at.now) (less_of b.now a.now) true steps.old.left) }
    ensures squeezes { IfOk result (λ o. IfSome o (λ q. IfSome (where_applied q) (Squeezes l.now.r.now.w.now at.now.ctx.now a.now b.now))) }
    ensures kept { steps.new.memo ≡ steps.old.memo }
{
    match less_refuted(l, steps, at, b, a)? {
        None => Ok(None),
        Some(Tried::PassedBy) => Ok(Some(Tried::PassedBy)),
        Some(Tried::Applied(second)) => {
            let (left, right) = masks;
            let q = both_not_less(l.r.alloc, l.r.w, at.ctx, first, second, left, right)?;
            Ok(Some(Tried::Applied(q)))
        }
    }
}

/// Whether neither of two integers by their types is less: the second order is tried only where the first is refuted.
fn by_orders<O: TypeOracle + LinearOracle, F: Below>(
    l: &Level<'_, '_, O, F>,
    steps: &mut Run<'_>,
    at: &Place<'_>,
    a: &Term,
    b: &Term,
    masks: (Mask, Mask),
) -> Result<Option<Tried<Equiv>>, NoMemory>
    requires level { IsLevel (F.may l.now.below.now) (F.gives l.now.below.now) l.now.r.now l.now.levels }
    requires facts { KnownFacts (defs_in l.now.r.now) at.now.ctx.now.0 }
    requires left { IsTrue (known (defs_in l.now.r.now) a.now) }
    requires right { IsTrue (known (defs_in l.now.r.now) b.now) }
    requires within { IntegersWithin l.now.r.now.w.now at.now.ctx.now.0 a.now b.now masks.0 masks.1 }
    requires here { Here l.now.r.now at.now steps.old.memo }
    ensures is { IfOk result (λ o. got_if o steps.new.left ≡ by_orders (setting_of l.now.r.now) (inner_of l.now.r.now l.now.levels) (seen_at at.now) a.now b.now steps.old.left) }
    ensures squeezes { IfOk result (λ o. IfSome o (λ q. IfSome (where_applied q) (Squeezes l.now.r.now.w.now at.now.ctx.now a.now b.now))) }
    ensures kept { steps.new.memo ≡ steps.old.memo }
{
    match less_refuted(l, steps, at, a, b)? {
        None => Ok(None),
        Some(Tried::PassedBy) => Ok(Some(Tried::PassedBy)),
        Some(Tried::Applied(first)) => other_order(l, steps, at, a, b, masks, first),
    }
}

/// `(equal a b)` of two integers: `'T` where neither is less, else `'NIL` where it is refuted.
fn by_equal<O: TypeOracle + LinearOracle, F: Below>(
    l: &Level<'_, '_, O, F>,
    steps: &mut Run<'_>,
    at: &Place<'_>,
    t: &Term,
    a: &Term,
    b: &Term,
    masks: (Mask, Mask),
) -> Result<Option<Tried<Equiv>>, NoMemory>
    requires level { IsLevel (F.may l.now.below.now) (F.gives l.now.below.now) l.now.r.now l.now.levels }
    requires facts { KnownFacts (defs_in l.now.r.now) at.now.ctx.now.0 }
    requires term { IsTrue (known (defs_in l.now.r.now) t.now) }
    requires equation { t.now ≡ equal_of a.now b.now }
    requires left { IsTrue (known (defs_in l.now.r.now) a.now) }
    requires right { IsTrue (known (defs_in l.now.r.now) b.now) }
    requires within { IntegersWithin l.now.r.now.w.now at.now.ctx.now.0 a.now b.now masks.0 masks.1 }
    requires here { Here l.now.r.now at.now steps.old.memo }
    ensures is { IfOk result (λ o. got_any o steps.new.left ≡ by_equal (setting_of l.now.r.now) (inner_of l.now.r.now l.now.levels) (seen_at at.now) t.now a.now b.now steps.old.left) }
    ensures from { IfOk result (λ o. IfSome o (λ a'. IfSome (where_applied a') (From l.now.r.now.w.now Equal at.now.ctx.now t.now))) }
    ensures kept { steps.new.memo ≡ steps.old.memo }
{
    match by_orders(l, steps, at, a, b, masks)? {
        None => Ok(None),
        Some(Tried::Applied(q)) => Ok(Some(Tried::Applied(q))),
        Some(Tried::PassedBy) => by_truth(l, steps, at, t),
    }
}

/// `(equal a b)`, where both are integers by their types.
fn by_equation<O: TypeOracle + LinearOracle, F: Below>(
    l: &Level<'_, '_, O, F>,
    steps: &mut Run<'_>,
    at: &Place<'_>,
    t: &Term,
    a: &Term,
    b: &Term,
) -> Result<Option<Tried<Equiv>>, NoMemory>
    requires level { IsLevel (F.may l.now.below.now) (F.gives l.now.below.now) l.now.r.now l.now.levels }
    requires facts { KnownFacts (defs_in l.now.r.now) at.now.ctx.now.0 }
    requires term { IsTrue (known (defs_in l.now.r.now) t.now) }
    requires equation { t.now ≡ equal_of a.now b.now }
    requires here { Here l.now.r.now at.now steps.old.memo }
    ensures is { IfOk result (λ o. got_any o steps.new.left ≡ by_equation (setting_of l.now.r.now) (inner_of l.now.r.now l.now.levels) (seen_at at.now) t.now a.now b.now steps.old.left) }
    ensures from { IfOk result (λ o. IfSome o (λ a'. IfSome (where_applied a') (From l.now.r.now.w.now Equal at.now.ctx.now t.now))) }
    ensures kept { steps.new.memo ≡ steps.old.memo }
{
    match integers(l.r, at.ctx, a, b)? {
        Some(masks) => by_equal(l, steps, at, t, a, b, masks),
        None => Ok(Some(Tried::PassedBy)),
    }
}

/// A comparison, by what it is.
fn compared<O: TypeOracle + LinearOracle, F: Below>(
    l: &Level<'_, '_, O, F>,
    steps: &mut Run<'_>,
    at: &Place<'_>,
    t: &Term,
    f: &Symbol,
    us: &[Term],
) -> Result<Option<Tried<Equiv>>, NoMemory>
    requires level { IsLevel (F.may l.now.below.now) (F.gives l.now.below.now) l.now.r.now l.now.levels }
    requires facts { KnownFacts (defs_in l.now.r.now) at.now.ctx.now.0 }
    requires term { IsTrue (known (defs_in l.now.r.now) t.now) }
    requires call { t.now ≡ Call f.now us.now }
    requires here { Here l.now.r.now at.now steps.old.memo }
    ensures is { IfOk result (λ o. got_any o steps.new.left ≡ by_arithmetic (setting_of l.now.r.now) (inner_of l.now.r.now l.now.levels) (seen_at at.now) f.now us.now steps.old.left) }
    ensures from { IfOk result (λ o. IfSome o (λ a. IfSome (where_applied a) (From l.now.r.now.w.now Equal at.now.ctx.now t.now))) }
    ensures kept { steps.new.memo ≡ steps.old.memo }
{
    let [a, b] = us else {
        return Ok(Some(Tried::PassedBy));
    };
    match primitive_of(f) {
        Some(Primitive::Less) => by_less(l, steps, at, t),
        Some(Primitive::Equal) => by_equation(l, steps, at, t, a, b),
        _ => Ok(Some(Tried::PassedBy)),
    }
}

/// What linear arithmetic decides of a call, under a mode: of `<`, and of `equal` where both sides are integers by
/// their types. See the manual's topic `linear-arithmetic`.
pub(crate) fn by_arithmetic<O: TypeOracle + LinearOracle, F: Below>(
    l: &Level<'_, '_, O, F>,
    steps: &mut Run<'_>,
    mode: Mode,
    at: &Place<'_>,
    t: &Term,
    f: &Symbol,
    us: &[Term],
) -> Result<Option<Tried<Equiv>>, NoMemory>
    requires level { IsLevel (F.may l.now.below.now) (F.gives l.now.below.now) l.now.r.now l.now.levels }
    requires facts { KnownFacts (defs_in l.now.r.now) at.now.ctx.now.0 }
    requires term { IsTrue (known (defs_in l.now.r.now) t.now) }
    requires call { t.now ≡ Call f.now us.now }
    requires here { Here l.now.r.now at.now steps.old.memo }
    ensures is { IfOk result (λ o. got_any o steps.new.left ≡ by_arithmetic (setting_of l.now.r.now) (inner_of l.now.r.now l.now.levels) (seen_at at.now) f.now us.now steps.old.left) }
    ensures from { IfOk result (λ o. IfSome o (λ a. IfSome (where_applied a) (From l.now.r.now.w.now mode at.now.ctx.now t.now))) }
    ensures kept { steps.new.memo ≡ steps.old.memo }
{
    match compared(l, steps, at, t, f, us)? {
        None => Ok(None),
        Some(Tried::PassedBy) => Ok(Some(Tried::PassedBy)),
        Some(Tried::Applied(q)) => {
            let there = in_mode(l.r.alloc, l.r.w, q, mode)?;
            Ok(Some(Tried::Applied(there)))
        }
    }
}
