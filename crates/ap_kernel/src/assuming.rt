ghost use Rattle.std.specs.Prelude.{◌≡◌, ◌++◌, ◌<◌, IfOk, OnOk, length, not};
ghost use Rattle.ap_list.specs.Lists.{Each};
ghost use Rattle.ap_term.specs.Terms.{term_size};
ghost use Rattle.ap_world.specs.Shapes.{shape_of, choice, is_constant};
ghost use Rattle.ap_kernel.specs.Laws.{AssumedIsKnown, AssumedHolds};
ghost use Rattle.ap_world.specs.Assume.{parts, assumed, assume};
ghost use Rattle.ap_kernel.specs.Assume.{seen_halves};
ghost use Rattle.ap_kernel.specs.Reductions.{others, all_false};

use crate::objects::Ctx;
use ap_list::{NoMemory, Seq};
use ap_term::{Term, copy_term};
use ap_world::{ShapeRef, is_nil, shape_of};
use std::alloc::Global;

/// What a term's sign says of its parts: nothing more, one part's sign, or two parts' signs.
#[derive(Clone, Copy)]
enum Halves<'a> {
    Whole,
    One(&'a Term, bool),
    Two(&'a Term, bool, &'a Term, bool),
}

/// Whether a term is a constant that means something else than `nil`, where the sign is true, or `nil`,
/// where it is false.
pub fn is_constant(sign: bool, t: &Term) -> bool
    ensures { result ≡ is_constant sign t.now }
{
    match shape_of(t) {
        ShapeRef::Constant(v) => is_nil(v) != sign,
        _ => false,
    }
}

/// What the sign of an `if` says of its parts.
fn if_halves<'a>(a: &'a Term, b: &'a Term, c: &'a Term, sign: bool) -> Halves<'a>
    ensures { seen_halves result ≡ parts (λ u. u) (choice a.now b.now c.now) sign }
{
    if is_constant(!sign, c) {
        return Halves::Two(a, true, b, sign);
    }
    if is_constant(!sign, b) {
        return Halves::Two(a, false, c, sign);
    }
    Halves::Whole
}

/// What a term's sign says of its parts.
fn halves_of(t: &Term, sign: bool) -> Halves<'_>
    ensures is { seen_halves result ≡ parts (λ u. u) (shape_of t.now) sign }
    ensures smaller { Each (λ p. term_size p.0 < term_size t.now) (seen_halves result) }
{
    match shape_of(t) {
        ShapeRef::Not(a) => Halves::One(a, !sign),
        ShapeRef::If(a, b, c) => if_halves(a, b, c, sign),
        _ => Halves::Whole,
    }
}

/// Adds the facts that a term and a sign stand for.
#[cycle(assuming)]
fn push_assumed(
    alloc: Global,
    facts: &mut Seq<(Term, bool)>,
    t: &Term,
    sign: bool,
) -> Result<(), NoMemory>
    ensures { OnOk result (facts.new ≡ facts.old ++ assumed t.now sign) }
{
    match halves_of(t, sign) {
        Halves::Whole => facts.push((copy_term(alloc, t)?, sign)),
        Halves::One(a, s) => push_assumed(alloc, facts, a, s),
        Halves::Two(a, s, b, r) => {
            push_assumed(alloc, facts, a, s)?;
            push_assumed(alloc, facts, b, r)
        }
    }
}

/// A copy of facts, with room for two more.
fn copy_facts(alloc: Global, facts: &[(Term, bool)]) -> Result<Seq<(Term, bool)>, NoMemory>
    ensures { IfOk result (λ copy. copy ≡ facts.now) }
{
    let mut out = Seq::with_capacity(alloc, facts.len().saturating_add(2))?;
    for (t, sign) in facts {
        out.push((copy_term(alloc, t)?, *sign))?;
    }
    Ok(out)
}

/// The facts with what `t` and `sign` stand for at their end. `(not a)` assumes `a` with the other sign.
/// `(if a b 'NIL)` true assumes `a` and `b` true, `(if a 'NIL c)` true `a` false and `c` true; for a
/// constant `'k` other than `'NIL`, `(if a b 'k)` false assumes `a` true and `b` false, `(if a 'k c)` false
/// both `a` and `c` false. Of all else the term itself is assumed. It copies the facts, since those of the
/// context are shared, and each term that it adds: this is the one call that makes a longer list.
pub fn assume(alloc: Global, ctx: &Ctx, t: &Term, sign: bool) -> Result<Ctx, NoMemory>
    ensures { IfOk result (λ c. c.0 ≡ assume ctx.now.0 t.now sign) }
{
    let mut facts = copy_facts(alloc, ctx.facts())?;
    push_assumed(alloc, &mut facts, t, sign)?;
    Ctx::new(alloc, facts)
}

/// Adds the facts that each of some terms is `nil`, in their order.
fn push_false(alloc: Global, facts: &mut Seq<(Term, bool)>, ts: &[Term]) -> Result<(), NoMemory>
    ensures { OnOk result (facts.new ≡ facts.old ++ all_false ts.now) }
{
    for t in ts {
        push_assumed(alloc, facts, t, false)?;
    }
    Ok(())
}

/// The facts that each of some terms is `nil`, in their order: what is assumed where a clause of them fails.
pub fn all_false(alloc: Global, ts: &[Term]) -> Result<Ctx, NoMemory>
    ensures { IfOk result (λ c. c.0 ≡ all_false ts.now) }
{
    let mut facts = Seq::with_capacity(alloc, ts.len())?;
    push_false(alloc, &mut facts, ts)?;
    Ctx::new(alloc, facts)
}

/// The facts that each of a clause's literals but the one at a place is `nil`, in clause order: those under
/// which [`rewrite_literal`](crate::rewrite_literal) takes that literal. The time is linear in the literals.
pub fn others_false(alloc: Global, literals: &[Term], place: usize) -> Result<Ctx, NoMemory>
    requires { place < length literals.now }
    ensures { IfOk result (λ c. c.0 ≡ all_false (others place literals.now)) }
{
    let mut facts = Seq::with_capacity(alloc, literals.len())?;
    push_false(alloc, &mut facts, &literals[..place])?;
    push_false(alloc, &mut facts, &literals[place + 1..])?;
    let ctx = Ctx::new(alloc, facts)?;
    Ok(ctx)
}

/// What is assumed of a known term is known, and where the term has the sign's truth, and the facts of the
/// context hold, all of what `assume` gives holds.
pub fn assumed_facts_hold()
    ensures known { AssumedIsKnown }
    ensures hold { AssumedHolds }
{}
