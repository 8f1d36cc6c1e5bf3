ghost use Rattle.std.specs.Prelude.{◌≡◌, [], IsTrue, IfOk};
ghost use Rattle.ap_world.specs.Meaning.{Defs};
ghost use Rattle.ap_world.specs.Sound.{known};
ghost use Rattle.ap_world.specs.World.{function_of};
ghost use Rattle.ap_world.specs.Clauses.{not_of};
ghost use Rattle.ap_world.specs.Facts.{KnownFacts};
ghost use Rattle.ap_world.specs.Shapes.{shape_of};
ghost use Rattle.ap_world.specs.Typing.{types};
ghost use Rattle.ap_kernel.specs.Standing.{DefinesNot, Stands};
ghost use Rattle.ap_kernel.specs.Masks.{MaskHolds};
ghost use Rattle.ap_kernel.specs.Answers.{if_of};
ghost use Rattle.ap_kernel.specs.Choices.{bare, bare_test, is_t_constant, is_truth, by_branches, if_shape, by_constant, choice_leads, is_choice, choice_made, seen_chosen};
ghost use Rattle.ap_kernel.specs.Deriving.{node};
ghost use Rattle.ap_kernel.specs.declared.derivations.Row.TheVariants.{IfShape};

use crate::assuming::is_constant;
use crate::derivations::{Derivation, Row};
use crate::lists::one;
use crate::objects::{Ctx, Equiv, Mode};
use ap_list::{NoMemory, Seq, Shared};
use ap_term::{Term, copy_term, is_same};
use ap_world::{Mask, ShapeRef, World, if_symbol, is_nil, is_t, masks, not_symbol, shape_of};
use std::alloc::Global;

/// What an `if` leads to: one of its parts, the negation of its test, or an `if`.
#[derive(Clone, Copy)]
enum Chosen<'a> {
    One(&'a Term),
    Not(&'a Term),
    If(&'a Term, &'a Term, &'a Term),
}

/// A term without the calls of `not` around it, and whether their number is odd. Takes no memory.
pub(crate) fn bare(t: &Term) -> (&Term, bool)
    ensures term { result.0.now ≡ (bare t.now).0 }
    ensures odd { result.1 ≡ (bare t.now).1 }
{
    let mut rest = t;
    let mut odd = false;
    while let ShapeRef::Not(a) = shape_of(rest) {
        rest = a;
        odd = !odd;
    }
    (rest, odd)
}

/// The test of an `if` without the calls of `not` around it: the term of which the mask that [`if_shape`]
/// is handed must hold. Of another term it is the term itself. Takes no memory.
pub fn bare_test(t: &Term) -> &Term
    ensures is { result.now ≡ bare_test t.now }
    ensures known { (D : Defs) → IsTrue (known D t.now) → IsTrue (known D result.now) }
{
    match shape_of(t) {
        ShapeRef::If(a, _, _) => bare(a).0,
        _ => t,
    }
}

/// Whether a term is a call of `if` on three arguments. Takes no memory.
pub fn is_choice(t: &Term) -> bool
    ensures { result ≡ is_choice (shape_of t.now) }
{
    matches!(shape_of(t), ShapeRef::If(_, _, _))
}

/// Whether a term is a constant that means `t`.
fn is_t_constant(t: &Term) -> bool
    ensures { result ≡ is_t_constant t.now }
{
    match shape_of(t) {
        ShapeRef::Constant(v) => is_t(v),
        _ => false,
    }
}

/// Whether only it counts whether a value is `nil`, or the mask has no value but `t` and `nil`.
fn is_truth(mode: Mode, mask: Mask) -> bool
    ensures { result ≡ is_truth mode mask }
{
    match mode {
        Mode::Iff => true,
        Mode::Equal => mask.0 & (masks::ALL ^ masks::TRUTHS) == 0,
    }
}

/// What an `if` whose test is no call of `not` leads to, by its branches.
fn by_branches<'a>(truth: bool, a: &'a Term, b: &'a Term, c: &'a Term) -> Chosen<'a>
    ensures { seen_chosen result ≡ by_branches truth a.now b.now c.now }
{
    if truth && is_t_constant(b) && is_constant(false, c) {
        return Chosen::One(a);
    }
    if is_constant(false, b) && is_t_constant(c) {
        return Chosen::Not(a);
    }
    Chosen::If(a, b, c)
}

/// What an `if` leads to whose test is no constant.
fn shaped<'a>(truth: bool, a: &'a Term, b: &'a Term, c: &'a Term) -> Chosen<'a>
    ensures { seen_chosen result ≡ if_shape truth a.now b.now c.now }
{
    if is_same(b, c) {
        return Chosen::One(b);
    }
    let (test, odd) = bare(a);
    if odd {
        by_branches(truth, test, c, b)
    } else {
        by_branches(truth, test, b, c)
    }
}

/// What an `if` leads to.
fn by_constant<'a>(truth: bool, a: &'a Term, b: &'a Term, c: &'a Term) -> Chosen<'a>
    ensures { seen_chosen result ≡ by_constant truth (shape_of a.now) a.now b.now c.now }
{
    match shape_of(a) {
        ShapeRef::Constant(v) => Chosen::One(if is_nil(v) { c } else { b }),
        _ => shaped(truth, a, b, c),
    }
}

/// What a term leads to: another than an `if` to itself.
fn choice_of(truth: bool, t: &Term) -> Chosen<'_>
    ensures { seen_chosen result ≡ choice_leads truth t.now (shape_of t.now) }
{
    match shape_of(t) {
        ShapeRef::If(a, b, c) => by_constant(truth, a, b, c),
        _ => Chosen::One(t),
    }
}

/// `(not a)`
pub fn not_term(alloc: Global, a: Term) -> Result<Term, NoMemory>
    ensures { IfOk result (λ u. u ≡ not_of a) }
{
    let parts = one(alloc, a)?;
    Term::call(alloc, not_symbol(), parts)
}

/// `(if a b c)` of copies.
pub(crate) fn copied_if(alloc: Global, a: &Term, b: &Term, c: &Term) -> Result<Term, NoMemory>
    ensures { IfOk result (λ u. u ≡ if_of a.now b.now c.now) }
{
    let mut parts = Seq::new(alloc);
    parts.push(copy_term(alloc, a)?)?;
    parts.push(copy_term(alloc, b)?)?;
    parts.push(copy_term(alloc, c)?)?;
    Term::call(alloc, if_symbol(), parts)
}

/// What an `if` leads to, built.
fn own_chosen(alloc: Global, chosen: Chosen<'_>) -> Result<Term, NoMemory>
    ensures { IfOk result (λ u. u ≡ seen_chosen chosen.entry) }
{
    match chosen {
        Chosen::One(a) => copy_term(alloc, a),
        Chosen::Not(a) => not_term(alloc, copy_term(alloc, a)?),
        Chosen::If(a, b, c) => copied_if(alloc, a, b, c),
    }
}

/// How an `if` is led to its shape.
fn shape_why(
    alloc: Global,
    ctx: &Ctx,
    mode: Mode,
    t: &Term,
    mask: Mask,
) -> Result<Shared<Derivation>, NoMemory>
    ensures { IfOk result (λ d. d ≡ node (IfShape ctx.now mode t.now mask) []) }
{
    let ctx = ctx.share()?;
    let t = copy_term(alloc, t)?;
    let answer = Derivation::leaf(alloc, Row::IfShape(ctx, mode, t, mask))?;
    Ok(answer)
}

/// From an `if`, under the mode that is asked for: to the branch that a constant test chooses. Else, where
/// both branches are one term, to that; calls of `not` around the test are taken off, each exchanging the
/// branches; and then to the test where the branches are `'T` and `'NIL`, under `iff` or where the mask has
/// no value but `t` and `nil`; to the test's negation where they are `'NIL` and `'T`; and to an `if` of
/// what is left. The mask is that of the test without the calls of `not` around it, as the definition of types
/// gives it. It copies the `if`,
/// since an equivalence owns its sides, and once more what of it the right side has, since the left side
/// keeps its own.
pub fn if_shape(
    alloc: Global,
    w: &World,
    ctx: &Ctx,
    mode: Mode,
    t: &Term,
    mask: Mask,
) -> Result<Equiv, NoMemory>
    requires ground { DefinesNot (function_of w.now.entries) }
    requires facts { KnownFacts (function_of w.now.entries) ctx.now.0 }
    requires term { IsTrue (known (function_of w.now.entries) t.now) }
    requires choice { IsTrue (is_choice (shape_of t.now)) }
    requires mask { MaskHolds (function_of w.now.entries) ctx.now.0 (bare_test t.now) mask }
    requires exact { mask.0 ≡ types w.now ctx.now.0 (bare_test t.now) }
    ensures stands { IfOk result (λ q. Stands w.now q) }
    ensures made { IfOk result (λ q. q.says ≡ choice_made ctx.now mode t.now mask) }
{
    w.recall_sound();
    let rhs = own_chosen(alloc, choice_of(is_truth(mode, mask), t))?;
    let why = shape_why(alloc, ctx, mode, t, mask)?;
    let answer = Equiv::from_copy(alloc, ctx, mode, t, rhs, why)?;
    Ok(answer)
}
