//! The rows on inequalities.
ghost use Rattle.std.specs.Prelude.{◌≡◌, true, false, [], ◌∷◌, ◌++◌, IsTrue, length, replicate};
ghost use Rattle.ap_world.specs.Sound.{known};
ghost use Rattle.ap_world.specs.Facts.{KnownFacts};
ghost use Rattle.ap_world.specs.World.{function_of};
ghost use Rattle.ap_world.specs.Typing.{types};
ghost use Rattle.ap_poly.specs.Literals.{of_literal};
ghost use Rattle.ap_kernel.specs.declared.linear.Why.TheVariants.{Literal, Fact};
ghost use Rattle.ap_kernel.specs.Linear.{is_within_integers, less_of};
ghost use Rattle.ap_kernel.specs.Masks.{MaskHolds};
ghost use Rattle.ap_kernel.specs.Standing.{DefinesNot};

use crate::given::{symbol, term};
use ap_eval::is_known;
use ap_kernel::{
    Ctx, Equiv, Term, Why, World, both_not_less, by_certificate, by_fact, is_comparison,
};
use ap_linear::refute;
use ap_list::Seq;
use ap_poly::{Poly, of_literal};
use ap_reader::Form;
use ap_term::copy_term;
use ap_types::types_of;
use ap_world::Mask;
use std::alloc::Global;
use std::process::Abort;

/// That a term is true.
fn one_fact(rt: &impl Abort, alloc: Global, t: Term) -> Ctx
    ensures { result.0 ≡ (t, true) ∷ [] }
{
    let mut out = Seq::new(alloc);
    out.push((t, true)).expect(rt, "memory");
    Ctx::new(alloc, out).expect(rt, "memory")
}

/// Adds the reason that polynomials are those of the literal, for each.
fn push_literal(rt: &impl Abort, whys: &mut Seq<Why>, count: usize)
    ensures { whys.new ≡ whys.old ++ replicate count Literal }
{
    for _ in 0..count {
        whys.push(Why::Literal).expect(rt, "memory");
    }
}

/// Adds the reason that polynomials are those of the first fact, for each.
fn push_fact(rt: &impl Abort, whys: &mut Seq<Why>, count: usize)
    ensures { whys.new ≡ whys.old ++ replicate count (Fact 0) }
{
    for _ in 0..count {
        whys.push(Why::Fact(0)).expect(rt, "memory");
    }
}

/// The polynomials of a literal and of a fact that is true; the reason of each is added.
fn polys_of(
    rt: &impl Abort,
    alloc: Global,
    t: &Term,
    sign: bool,
    fact: &Term,
    whys: &mut Seq<Why>,
) -> Seq<Poly>
    requires none { whys.now ≡ [] }
    ensures polys { result ≡ of_literal t.now sign ++ of_literal fact.now true }
    ensures whys { whys.new ≡ replicate (length (of_literal t.now sign)) Literal ++ replicate (length (of_literal fact.now true)) (Fact 0) }
{
    let mut polys = of_literal(alloc, t, sign).expect(rt, "memory");
    push_literal(rt, whys, polys.len());
    let more = of_literal(alloc, fact, true).expect(rt, "memory");
    push_fact(rt, whys, more.len());
    polys.append(more).expect(rt, "memory");
    polys
}

/// A literal of this sign refuted under the fact that another term is true, where the search finds a certificate.
pub(crate) fn refuted(
    rt: &impl Abort,
    alloc: Global,
    w: &World,
    literal: &Form,
    sign: bool,
    fact: &Form,
) -> Option<Equiv> {
    let t = term(rt, alloc, w, literal);
    let fact = term(rt, alloc, w, fact);
    let mut whys = Seq::new(alloc);
    let polys = polys_of(rt, alloc, &t, sign, &fact, &mut whys);
    let ctx = one_fact(rt, alloc, fact);
    w.recall_sound();
    match refute(alloc, w, &polys).expect(rt, "memory") {
        Some(by) if is_comparison(&t) => {
            let answer = by_certificate(alloc, w, &ctx, &t, sign, polys, whys, by);
            Some(answer.expect(rt, "memory"))
        }
        _ => None,
    }
}

/// `(< a b)`, a term of the world.
#[tactic(auto, unfolding(ap_world::specs::Names::less_name))]
fn less(rt: &impl Abort, alloc: Global, w: &World, a: &Term, b: &Term) -> Term
    ensures is { result ≡ less_of a.now b.now }
    ensures known { IsTrue (known (function_of w.now.entries) result) }
{
    let mut parts = Seq::new(alloc);
    parts
        .push(copy_term(alloc, a).expect(rt, "memory"))
        .expect(rt, "memory");
    parts
        .push(copy_term(alloc, b).expect(rt, "memory"))
        .expect(rt, "memory");
    let t = Term::call(alloc, symbol(rt, alloc, b"<"), parts).expect(rt, "memory");
    assert!(rt; is_known(w, &t));
    t
}

/// That neither of two terms is less.
fn neither(rt: &impl Abort, alloc: Global, w: &World, a: &Term, b: &Term) -> Ctx
    ensures is { result.0 ≡ (less_of a.now b.now, false) ∷ (less_of b.now a.now, false) ∷ [] }
    ensures known { KnownFacts (function_of w.now.entries) result.0 }
{
    let mut out = Seq::new(alloc);
    out.push((less(rt, alloc, w, a, b), false))
        .expect(rt, "memory");
    out.push((less(rt, alloc, w, b, a), false))
        .expect(rt, "memory");
    Ctx::new(alloc, out).expect(rt, "memory")
}

/// The equation of two integers under the facts that neither is less.
fn by_both(
    rt: &impl Abort,
    alloc: Global,
    w: &World,
    ctx: &Ctx,
    a: &Term,
    b: &Term,
    left: Mask,
    right: Mask,
) -> Equiv
    requires is { ctx.now.0 ≡ (less_of a.now b.now, false) ∷ (less_of b.now a.now, false) ∷ [] }
    requires facts { KnownFacts (function_of w.now.entries) ctx.now.0 }
    requires left_holds { MaskHolds (function_of w.now.entries) ctx.now.0 a.now left }
    requires right_holds { MaskHolds (function_of w.now.entries) ctx.now.0 b.now right }
    requires left_exact { left.0 ≡ types w.now ctx.now.0 a.now }
    requires right_exact { right.0 ≡ types w.now ctx.now.0 b.now }
    requires left { IsTrue (is_within_integers left) }
    requires right { IsTrue (is_within_integers right) }
{
    let less = by_fact(alloc, w, ctx, 0).expect(rt, "memory");
    let more = by_fact(alloc, w, ctx, 1).expect(rt, "memory");
    both_not_less(alloc, w, ctx, less, more, left, right).expect(rt, "memory")
}

/// The equation of two forms under the facts that neither is less, where their types are within the integers.
pub(crate) fn equated(
    rt: &impl Abort,
    alloc: Global,
    w: &World,
    a: &Form,
    b: &Form,
) -> Option<Equiv>
    requires ground { DefinesNot (function_of w.now.entries) }
{
    let a = term(rt, alloc, w, a);
    let b = term(rt, alloc, w, b);
    let ctx = neither(rt, alloc, w, &a, &b);
    let left = types_of(alloc, w, &ctx, &a).expect(rt, "memory");
    let right = types_of(alloc, w, &ctx, &b).expect(rt, "memory");
    if left.0 & 1016 != 0 || right.0 & 1016 != 0 {
        return None;
    }
    Some(by_both(rt, alloc, w, &ctx, &a, &b, left, right))
}
