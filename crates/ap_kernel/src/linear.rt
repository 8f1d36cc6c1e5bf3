ghost use Rattle.std.specs.Prelude.{◌≡◌, [], ◌∷◌, IsTrue, IfOk, IfSome, Some, false, map};
ghost use Rattle.ap_list.specs.Lists.{joined};
ghost use Rattle.ap_term.specs.declared.term.Term.{Term, Call};
ghost use Rattle.ap_world.specs.Names.{equal_name};
ghost use Rattle.ap_world.specs.Sound.{known};
ghost use Rattle.ap_world.specs.World.{function_of};
ghost use Rattle.ap_world.specs.Facts.{KnownFacts};
ghost use Rattle.ap_world.specs.Typing.{types};
ghost use Rattle.ap_poly.specs.Holding.{IsCertificate};
ghost use Rattle.ap_poly.specs.Elimination.{lin};
ghost use Rattle.ap_kernel.specs.Standing.{Stands};
ghost use Rattle.ap_kernel.specs.Equations.{equal_of};
ghost use Rattle.ap_kernel.specs.Deriving.{node, listed, why_of};
ghost use Rattle.ap_kernel.specs.declared.derivations.Row.TheVariants.{ByCertificate, BothNotLess};
ghost use Rattle.ap_kernel.specs.declared.linear.Why.TheVariants.{Theorem};
ghost use Rattle.ap_kernel.specs.Certificates.{source_of, shown_of};
ghost use Rattle.ap_kernel.specs.Reasons.{AllGiven};
ghost use Rattle.ap_kernel.specs.Linear.{compares, is_comparison, PolysHold, refuted_made, less_of, is_within_integers, not_less_made, equal_made, NeitherLess};

use crate::derivations::{Derivation, Row, Source, copy_subst, why_of, whys_of};
use crate::equations::truth_term;
use crate::objects::{Ctx, Equiv, Mode, copy_equiv};
use ap_list::{NoMemory, Seq, Shared};
use ap_poly::Poly;
use ap_term::{Shape, Subst, Term, copy_term};
use ap_value::{Symbol, copy_symbol};
use ap_world::{Mask, Primitive, World, equal_symbol, primitive_of, t_term};
use std::alloc::Global;

/// What refutes polynomials. The kernel doesn't trust it: what it answers is proved by whoever implements it.
pub trait LinearOracle {
    /// The first certificate of the polynomials, and `None` exactly where the definition has none. It is a
    /// multiplier for each, so often that the weighted sum is a negative constant.
    fn refute(
        &self,
        alloc: Global,
        w: &World,
        polys: &Seq<Poly>,
    ) -> Result<Option<Seq<u64>>, NoMemory>
        ensures first { IfOk result (λ o. o ≡ lin polys.now) }
        ensures certifies { IfOk result (λ o. IfSome o (λ by. IsCertificate polys.now by)) };
}

/// Whether a term is a call of `<` or of `equal`. Takes no memory.
#[tactic(auto, using(ap_term::proofs::Seen::trees))]
pub fn is_comparison(t: &Term) -> bool
    ensures { result ≡ is_comparison t.now }
{
    match &t.shape {
        Shape::Call(f, _) => match primitive_of(f) {
            Some(Primitive::Less) => true,
            Some(Primitive::Equal) => true,
            _ => false,
        },
        Shape::Var(_) => false,
        Shape::Quote(_) => false,
    }
}

/// Why a polynomial of a certificate holds where the facts hold and a comparison has a sign: it is one of the
/// comparison with that sign, of the fact at a place, of what the types of an atom say of it, or of an instance of a
/// linear theorem, of which each hypothesis leads to `'T`.
#[derive(Drop)]
pub enum Why {
    Literal,
    Fact(usize),
    Bound(Term),
    Theorem(Symbol, Subst, Seq<Equiv>),
}

/// The reason by a linear theorem: its name, the pairs and what shows its hypotheses are copied, which shares their
/// parts.
pub fn theorem_why(
    alloc: Global,
    name: &Symbol,
    s: &Subst,
    shown: &[Equiv],
) -> Result<Why, NoMemory>
    ensures { IfOk result (λ y. y ≡ Theorem name.now s.now shown.now) }
{
    let mut hyps = Seq::with_capacity(alloc, shown.len())?;
    for q in shown {
        hyps.push(copy_equiv(alloc, q)?)?;
    }
    let s = copy_subst(alloc, s)?;
    Ok(Why::Theorem(copy_symbol(alloc, name)?, s, hyps))
}

/// Where a polynomial comes from, without what shows a theorem's hypotheses.
fn source_of(alloc: Global, why: &Why) -> Result<Source, NoMemory>
    ensures { IfOk result (λ f. f ≡ source_of why.now) }
{
    match why {
        Why::Literal => Ok(Source::Literal),
        Why::Fact(place) => Ok(Source::Fact(*place)),
        Why::Bound(atom) => Ok(Source::Bound(copy_term(alloc, atom)?)),
        Why::Theorem(name, s, _) => {
            let s = copy_subst(alloc, s)?;
            Ok(Source::Theorem(copy_symbol(alloc, name)?, s))
        }
    }
}

/// What shows a theorem's hypotheses, lent. Takes no memory.
fn shown_of(why: &Why) -> &[Equiv]
    ensures { result.now ≡ shown_of why.now }
{
    match why {
        Why::Literal => &[],
        Why::Fact(_) => &[],
        Why::Bound(_) => &[],
        Why::Theorem(_, _, hyps) => hyps.as_slice(),
    }
}

/// Where each of some polynomials comes from.
fn sources_of(alloc: Global, whys: &[Why]) -> Result<Seq<Source>, NoMemory>
    ensures { IfOk result (λ fs. fs ≡ map source_of whys.now) }
{
    let mut out = Seq::with_capacity(alloc, whys.len())?;
    for why in whys {
        out.push(source_of(alloc, why)?)?;
    }
    Ok(out)
}

/// How that was made which shows the theorems' hypotheses, in order.
fn shown_whys(alloc: Global, whys: &[Why]) -> Result<Seq<Shared<Derivation>>, NoMemory>
    ensures { IfOk result (λ ds. ds ≡ map why_of (joined (map shown_of whys.now))) }
{
    let mut out = Seq::new(alloc);
    for why in whys {
        out.append(whys_of(alloc, shown_of(why))?)?;
    }
    Ok(out)
}

/// How a comparison is refuted by a certificate.
fn certificate_why(
    alloc: Global,
    ctx: &Ctx,
    t: &Term,
    sign: bool,
    polys: Seq<Poly>,
    whys: &[Why],
    by: Seq<u64>,
) -> Result<Shared<Derivation>, NoMemory>
    ensures { IfOk result (λ d. d ≡ listed (ByCertificate ctx.now t.now sign polys (map source_of whys.now) by) (map why_of (joined (map shown_of whys.now)))) }
{
    let from = shown_whys(alloc, whys)?;
    let sources = sources_of(alloc, whys)?;
    let ctx = ctx.share()?;
    let t = copy_term(alloc, t)?;
    let row = Row::ByCertificate(ctx, t, sign, polys, sources, by);
    let answer = Derivation::of_list(alloc, row, from)?;
    Ok(answer)
}

/// From a call of `<` or of `equal`, under equality, to `'NIL` where the sign is true and to `'T` where it is
/// false. Each of the polynomials holds wherever the facts hold and the term has that sign, and the sum of
/// them, each as often as its multiplier says, is a negative constant: so the term hasn't that sign. It
/// copies the term, since an equivalence owns its sides. See the manual's topic `linear-arithmetic`.
pub fn by_certificate(
    alloc: Global,
    w: &World,
    ctx: &Ctx,
    t: &Term,
    sign: bool,
    polys: Seq<Poly>,
    why: Seq<Why>,
    by: Seq<u64>,
) -> Result<Equiv, NoMemory>
    requires facts { KnownFacts (function_of w.now.entries) ctx.now.0 }
    requires term { IsTrue (known (function_of w.now.entries) t.now) }
    requires comparison { IsTrue (is_comparison t.now) }
    requires polys { PolysHold (function_of w.now.entries) ctx.now t.now sign polys }
    requires reasons { AllGiven w.now ctx.now t.now sign polys why }
    requires certificate { IsCertificate polys by }
    ensures stands { IfOk result (λ q. Stands w.now q) }
    ensures made { IfOk result (λ q. q.says ≡ refuted_made ctx.now t.now sign) }
{
    w.recall_sound();
    let why = certificate_why(alloc, ctx, t, sign, polys, why.as_slice(), by)?;
    let rhs = truth_term(!sign);
    let answer = Equiv::from_copy(alloc, ctx, Mode::Equal, t, rhs, why)?;
    Ok(answer)
}

/// The left side, moved.
fn left_of(q: Equiv) -> Term
    ensures { result ≡ q.says.lhs }
{
    let (_, _, lhs, _) = q.into_parts();
    lhs
}

/// The equation of the two sides of a call of `<`, which are moved.
#[tactic(auto, using(ap_term::proofs::Seen::trees))]
fn equated(alloc: Global, call: Term) -> Result<Term, NoMemory>
    requires { (a : Term) × (b : Term) × (call ≡ less_of a b) }
    ensures { IfOk result (λ u. (a b : Term) → call ≡ less_of a b → u ≡ equal_of a b) }
{
    match call.shape {
        Shape::Call(_, sides) => Ok(Term::call_of(equal_symbol(), sides)),
        Shape::Var(_) => unreachable!(),
        Shape::Quote(_) => unreachable!(),
    }
}

/// From that equation to `'T`.
fn equal_equiv(
    alloc: Global,
    ctx: &Ctx,
    call: Term,
    why: Shared<Derivation>,
) -> Result<Equiv, NoMemory>
    requires { (a : Term) × (b : Term) × (call ≡ less_of a b) }
    ensures says { IfOk result (λ q. (a b : Term) → call ≡ less_of a b → q.says ≡ equal_made ctx.now a b) }
    ensures why { IfOk result (λ q. q.why ≡ Some why) }
{
    let ctx = ctx.share()?;
    let lhs = equated(alloc, call)?;
    Ok(Equiv::made(ctx, Mode::Equal, lhs, t_term(), Some(why)))
}

/// How the equation of two integers is shown of which neither is less.
fn not_less_why(
    alloc: Global,
    ctx: &Ctx,
    less: &Equiv,
    more: &Equiv,
    left: Mask,
    right: Mask,
) -> Result<Shared<Derivation>, NoMemory>
    ensures { IfOk result (λ d. d ≡ node (BothNotLess ctx.now left right) (why_of less.now ∷ why_of more.now ∷ [])) }
{
    let first = why_of(alloc, less)?;
    let second = why_of(alloc, more)?;
    let ctx = ctx.share()?;
    let answer = Derivation::of_two(alloc, Row::BothNotLess(ctx, left, right), first, second)?;
    Ok(answer)
}

/// From `(equal a b)` to `'T`, under equality: `less` takes `(< a b)` and `more` takes `(< b a)` to `'NIL`
/// under the facts, and the masks, which hold of `a` and `b`, lie within the integers. The sides are those of
/// `less`, moved.
pub fn both_not_less(
    alloc: Global,
    w: &World,
    ctx: &Ctx,
    less: Equiv,
    more: Equiv,
    left: Mask,
    right: Mask,
) -> Result<Equiv, NoMemory>
    requires less { Stands w.now less }
    requires more { Stands w.now more }
    requires sides { NeitherLess (function_of w.now.entries) ctx.now less.says more.says left right }
    requires exact { (a b : Term) → less.says ≡ not_less_made ctx.now a b → (left.0 ≡ types w.now ctx.now.0 a) × (right.0 ≡ types w.now ctx.now.0 b) }
    requires left { IsTrue (is_within_integers left) }
    requires right { IsTrue (is_within_integers right) }
    ensures stands { IfOk result (λ q. Stands w.now q) }
    ensures made { IfOk result (λ q. (a b : Term) → less.says ≡ not_less_made ctx.now a b → q.says ≡ equal_made ctx.now a b) }
{
    w.recall_sound();
    let why = not_less_why(alloc, ctx, &less, &more, left, right)?;
    let answer = equal_equiv(alloc, ctx, left_of(less), why)?;
    Ok(answer)
}
