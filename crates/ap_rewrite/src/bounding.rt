// The polynomials that linear arithmetic begins with: those of a literal and of the facts, and what masks say of
// their atoms.
ghost use Rattle.std.specs.Prelude.{◌≡◌, ◌++◌, [], Bool, pos, IsTrue, IfOk, IfSome, OnOk, true, false, is_some, replicate};
ghost use Rattle.ap_value.specs.Values.{int_eq};
ghost use Rattle.ap_list.specs.Lists.{Each};
ghost use Rattle.ap_world.specs.Sound.{known};
ghost use Rattle.ap_world.specs.Facts.{KnownFacts};
ghost use Rattle.ap_poly.specs.Bounds.{first_atoms, one_part, bound};
ghost use Rattle.ap_rewrite.specs.Answering.{defs_in, Ready, setting_of};
ghost use Rattle.ap_rewrite.specs.Linear.{bounds, given, are_integers};
ghost use Rattle.ap_term.specs.declared.term.Term.{Term};
ghost use Rattle.ap_kernel.specs.Reasons.{AllGiven};
ghost use Rattle.ap_kernel.specs.declared.linear.Why.TheVariants.{Literal, Fact, Bound};
ghost use Rattle.ap_rewrite.specs.Refuting.{IntegersWithin};

use crate::rewriter::Rewriter;
use crate::settling::lacks;
use ap_kernel::{Ctx, Mask, NoMemory, Seq, Term, TypeOracle, Why};
use ap_poly::{Poly, of_literal};
use ap_rules::first_atoms;
use ap_term::copy_term;
use ap_world::masks;
use std::alloc::Global;

/// Adds the reason that polynomials are those of the comparison, for each.
fn push_literal(whys: &mut Seq<Why>, count: usize) -> Result<(), NoMemory>
    ensures { OnOk result (whys.new ≡ whys.old ++ replicate count Literal) }
{
    for _ in 0..count {
        whys.push(Why::Literal)?;
    }
    Ok(())
}

/// Adds the reason that polynomials are those of the fact at a place, for each.
fn push_fact(whys: &mut Seq<Why>, place: usize, count: usize) -> Result<(), NoMemory>
    ensures { OnOk result (whys.new ≡ whys.old ++ replicate count (Fact place)) }
{
    for _ in 0..count {
        whys.push(Why::Fact(place))?;
    }
    Ok(())
}

/// The polynomials that hold where the facts hold and a term has a sign: the term's, then those of the facts in
/// their order. The reason of each is added.
fn given<O>(
    r: &Rewriter<'_, O>,
    ctx: &Ctx,
    t: &Term,
    sign: bool,
    whys: &mut Seq<Why>,
) -> Result<Seq<Poly>, NoMemory>
    requires none { whys.now ≡ [] }
    requires facts { KnownFacts (defs_in r.now) ctx.now.0 }
    ensures polys { IfOk result (λ ps. ps ≡ given (setting_of r.now) ctx.now.0 t.now sign) }
    ensures reasons { IfOk result (λ ps. AllGiven r.now.w.now ctx.now t.now sign ps whys.new) }
{
    let mut polys = of_literal(r.alloc, t, sign)?;
    push_literal(whys, polys.len())?;
    let facts = ctx.facts();
    for i in 0..facts.len() {
        let (u, s) = &facts[i];
        let more = of_literal(r.alloc, u, *s)?;
        push_fact(whys, i, more.len())?;
        polys.append(more)?;
    }
    Ok(polys)
}

/// Adds the polynomial of a constant and one atom so many times.
fn push_part(
    alloc: Global,
    polys: &mut Seq<Poly>,
    constant: i128,
    t: &Term,
    k: i128,
) -> Result<(), NoMemory>
    requires { int_eq k (pos 0) ≡ false }
    ensures { OnOk result (polys.new ≡ polys.old ++ one_part constant t.now k) }
{
    let mut parts = Seq::new(alloc);
    parts.push((copy_term(alloc, t)?, k))?;
    polys.push(Poly { constant, parts })
}

/// Adds what a mask says of an atom.
fn push_bound(alloc: Global, polys: &mut Seq<Poly>, t: &Term, mask: Mask) -> Result<(), NoMemory>
    ensures { OnOk result (polys.new ≡ polys.old ++ bound t.now mask.0) }
{
    if lacks(mask, masks::ALL ^ masks::POSITIVE) {
        return push_part(alloc, polys, -1, t, 1);
    }
    if lacks(mask, masks::NEGATIVE) {
        return push_part(alloc, polys, 0, t, 1);
    }
    if lacks(mask, masks::ALL ^ masks::NEGATIVE) {
        return push_part(alloc, polys, -1, t, -1);
    }
    if lacks(mask, masks::POSITIVE) {
        return push_part(alloc, polys, 0, t, -1);
    }
    Ok(())
}

/// Adds the reason that polynomials are what the types of an atom say of it, for each.
fn push_atom(alloc: Global, whys: &mut Seq<Why>, t: &Term, count: usize) -> Result<(), NoMemory>
    ensures { OnOk result (whys.new ≡ whys.old ++ replicate count (Bound t.now)) }
{
    for _ in 0..count {
        whys.push(Why::Bound(copy_term(alloc, t)?))?;
    }
    Ok(())
}

/// Adds what the masks say of the atoms. The oracle is asked of each.
fn push_bounds<O: TypeOracle>(
    r: &Rewriter<'_, O>,
    ctx: &Ctx,
    atoms: &[Term],
    polys: &mut Seq<Poly>,
    whys: &mut Seq<Why>,
) -> Result<(), NoMemory>
    requires ready { Ready r.now }
    requires facts { KnownFacts (defs_in r.now) ctx.now.0 }
    requires atoms { Each (λ x. known (defs_in r.now) x ≡ true) atoms.now }
    ensures polys { OnOk result (polys.new ≡ polys.old ++ bounds (setting_of r.now) ctx.now.0 atoms.now) }
    ensures reasons { (u : Term) (s : Bool) → AllGiven r.now.w.now ctx.now u s polys.old whys.old → OnOk result (AllGiven r.now.w.now ctx.now u s polys.new whys.new) }
{
    for x in atoms {
        let mask = r.oracle.mask(r.alloc, r.w, ctx, x)?;
        let mut more = Seq::new(r.alloc);
        push_bound(r.alloc, &mut more, x, mask)?;
        push_atom(r.alloc, whys, x, more.len())?;
        polys.append(more)?;
    }
    Ok(())
}

/// What refuting a literal begins with: the polynomials that hold where the facts hold and a term has a sign, those
/// of the masks of their atoms behind them; the reason of each; and the atoms.
#[derive(Drop)]
pub(crate) struct Begun {
    pub polys: Seq<Poly>,
    pub whys: Seq<Why>,
    pub atoms: Seq<Term>,
}

/// The polynomials of a term with a sign and of the facts, behind them what the masks of their atoms say; and these
/// atoms, in order of first occurrence. See the manual's topic `linear-arithmetic`.
pub(crate) fn begin<O: TypeOracle>(
    r: &Rewriter<'_, O>,
    ctx: &Ctx,
    t: &Term,
    sign: bool,
) -> Result<Begun, NoMemory>
    requires ready { Ready r.now }
    requires facts { KnownFacts (defs_in r.now) ctx.now.0 }
    requires term { IsTrue (known (defs_in r.now) t.now) }
    ensures polys { IfOk result (λ b. b.polys ≡ given (setting_of r.now) ctx.now.0 t.now sign ++ bounds (setting_of r.now) ctx.now.0 b.atoms) }
    ensures reasons { IfOk result (λ b. AllGiven r.now.w.now ctx.now t.now sign b.polys b.whys) }
    ensures atoms { IfOk result (λ b. b.atoms ≡ first_atoms (given (setting_of r.now) ctx.now.0 t.now sign)) }
    ensures known { IfOk result (λ b. Each (λ x. known (defs_in r.now) x ≡ true) b.atoms) }
{
    let mut whys = Seq::new(r.alloc);
    let mut polys = given(r, ctx, t, sign, &mut whys)?;
    let atoms = first_atoms(r.alloc, polys.as_slice())?;
    push_bounds(r, ctx, atoms.as_slice(), &mut polys, &mut whys)?;
    Ok(Begun { polys, whys, atoms })
}

/// The types of two terms, where both are within the integers. The oracle is asked of each, of the second only where
/// the first's are.
pub(crate) fn integers<O: TypeOracle>(
    r: &Rewriter<'_, O>,
    ctx: &Ctx,
    a: &Term,
    b: &Term,
) -> Result<Option<(Mask, Mask)>, NoMemory>
    requires ready { Ready r.now }
    requires facts { KnownFacts (defs_in r.now) ctx.now.0 }
    requires left { IsTrue (known (defs_in r.now) a.now) }
    requires right { IsTrue (known (defs_in r.now) b.now) }
    ensures is { IfOk result (λ o. is_some o ≡ are_integers (setting_of r.now) ctx.now.0 a.now b.now) }
    ensures within { IfOk result (λ o. IfSome o (λ m. IntegersWithin r.now.w.now ctx.now.0 a.now b.now m.0 m.1)) }
{
    let left = r.oracle.mask(r.alloc, r.w, ctx, a)?;
    if !lacks(left, masks::ALL ^ masks::INTEGERS) {
        return Ok(None);
    }
    let right = r.oracle.mask(r.alloc, r.w, ctx, b)?;
    if !lacks(right, masks::ALL ^ masks::INTEGERS) {
        return Ok(None);
    }
    Ok(Some((left, right)))
}
