// The linear rules of the world on the atoms of polynomials.
ghost use Rattle.std.specs.Prelude.{◌≡◌, Bool, IsTrue, IfOk, IfSome, Some, [], true, nat_le, length};
ghost use Rattle.ap_list.specs.Lists.{Each};
ghost use Rattle.ap_term.specs.Matching.{matched};
ghost use Rattle.ap_world.specs.Facts.{KnownFacts};
ghost use Rattle.ap_world.specs.Holding.{KnownPairs};
ghost use Rattle.ap_world.specs.Sound.{known};
ghost use Rattle.ap_rules.specs.Linear.{LinearHolds};
ghost use Rattle.ap_term.specs.declared.term.Term.{Term};
ghost use Rattle.ap_kernel.specs.Reasons.{AllGiven};
ghost use Rattle.ap_rewrite.specs.Refuting.{IsToldBy};
ghost use Rattle.ap_rewrite.specs.Linear.{most_polys, at_match, at_atoms};
ghost use Rattle.ap_rewrite.specs.Answering.{defs_in, setting_of, inner_of, seen_at, got_polys, used, used_each, Here, IsLevel};

use crate::refuting::with_instance;
use crate::rewriter::{Below, Level, Place, Run, Tried};
use crate::rules::relieve;
use ap_kernel::{Equiv, Mode, NoMemory, Seq, Subst, Term, TypeOracle, Why};
use ap_poly::Poly;
use ap_rules::{LinearRule, linear_rule, linear_rules_hold};
use ap_term::one_way_match;
use ap_world::RuneKind;

/// Whether there is no room for the polynomials of a rule. Takes no memory.
fn is_full(polys: &Seq<Poly>) -> bool
    ensures { result ≡ nat_le most_polys (length polys.now) }
{
    polys.len() >= 32
}

/// The polynomials with those of a rule's instance behind them, where its hypotheses are relieved.
fn at_match<O: TypeOracle, F: Below>(
    l: &Level<'_, '_, O, F>,
    steps: &mut Run<'_>,
    at: &Place<'_>,
    g: &LinearRule,
    polys: Seq<Poly>,
    whys: &mut Seq<Why>,
    s: Subst,
) -> Result<Option<Seq<Poly>>, NoMemory>
    requires level { IsLevel (F.may l.now.below.now) (F.gives l.now.below.now) l.now.r.now l.now.levels }
    requires facts { KnownFacts (defs_in l.now.r.now) at.now.ctx.now.0 }
    requires rule { LinearHolds (defs_in l.now.r.now) g.now }
    requires told { IsToldBy l.now.r.now.w.now.entries g.now }
    requires pairs { KnownPairs (defs_in l.now.r.now) s.0 }
    requires here { Here l.now.r.now at.now steps.old.memo }
    ensures is { IfOk result (λ o. got_polys o steps.new.left ≡ at_match (setting_of l.now.r.now) (inner_of l.now.r.now l.now.levels) (seen_at at.now) g.now polys (Some s.0) steps.old.left) }
    ensures reasons { (u : Term) (s : Bool) → AllGiven l.now.r.now.w.now at.now.ctx.now u s polys whys.old → IfOk result (λ o. IfSome o (λ ps. AllGiven l.now.r.now.w.now at.now.ctx.now u s ps whys.new)) }
    ensures kept { steps.new.memo ≡ steps.old.memo }
{
    match relieve(l, steps, at, g.hyps.as_slice(), s)? {
        None => Ok(None),
        Some(Tried::PassedBy) => Ok(Some(polys)),
        Some(Tried::Applied(found)) => {
            let more = with_instance(l.r.alloc, polys, whys, g, &found)?;
            Ok(Some(more))
        }
    }
}

/// A rule at an atom, where its trigger matches.
fn at_atom<O: TypeOracle, F: Below>(
    l: &Level<'_, '_, O, F>,
    steps: &mut Run<'_>,
    at: &Place<'_>,
    g: &LinearRule,
    atom: &Term,
    polys: Seq<Poly>,
    whys: &mut Seq<Why>,
) -> Result<Option<Seq<Poly>>, NoMemory>
    requires level { IsLevel (F.may l.now.below.now) (F.gives l.now.below.now) l.now.r.now l.now.levels }
    requires facts { KnownFacts (defs_in l.now.r.now) at.now.ctx.now.0 }
    requires rule { LinearHolds (defs_in l.now.r.now) g.now }
    requires told { IsToldBy l.now.r.now.w.now.entries g.now }
    requires atom { IsTrue (known (defs_in l.now.r.now) atom.now) }
    requires here { Here l.now.r.now at.now steps.old.memo }
    ensures is { IfOk result (λ o. got_polys o steps.new.left ≡ at_match (setting_of l.now.r.now) (inner_of l.now.r.now l.now.levels) (seen_at at.now) g.now polys (matched g.now.trigger atom.now []) steps.old.left) }
    ensures reasons { (u : Term) (s : Bool) → AllGiven l.now.r.now.w.now at.now.ctx.now u s polys whys.old → IfOk result (λ o. IfSome o (λ ps. AllGiven l.now.r.now.w.now at.now.ctx.now u s ps whys.new)) }
    ensures kept { steps.new.memo ≡ steps.old.memo }
{
    let start = Subst(Seq::new(l.r.alloc));
    match one_way_match(l.r.alloc, &g.trigger, atom, &start)? {
        None => Ok(Some(polys)),
        Some(s) => at_match(l, steps, at, g, polys, whys, s),
    }
}

/// A rule at each atom, while there are fewer than 32 polynomials.
fn at_atoms<O: TypeOracle, F: Below>(
    l: &Level<'_, '_, O, F>,
    steps: &mut Run<'_>,
    at: &Place<'_>,
    g: &LinearRule,
    atoms: &[Term],
    polys: Seq<Poly>,
    whys: &mut Seq<Why>,
) -> Result<Option<Seq<Poly>>, NoMemory>
    requires level { IsLevel (F.may l.now.below.now) (F.gives l.now.below.now) l.now.r.now l.now.levels }
    requires facts { KnownFacts (defs_in l.now.r.now) at.now.ctx.now.0 }
    requires rule { LinearHolds (defs_in l.now.r.now) g.now }
    requires told { IsToldBy l.now.r.now.w.now.entries g.now }
    requires atoms { Each (λ x. known (defs_in l.now.r.now) x ≡ true) atoms.now }
    requires here { Here l.now.r.now at.now steps.old.memo }
    ensures is { IfOk result (λ o. got_polys o steps.new.left ≡ at_atoms (setting_of l.now.r.now) (inner_of l.now.r.now l.now.levels) (seen_at at.now) g.now atoms.now polys steps.old.left) }
    ensures reasons { (u : Term) (s : Bool) → AllGiven l.now.r.now.w.now at.now.ctx.now u s polys whys.old → IfOk result (λ o. IfSome o (λ ps. AllGiven l.now.r.now.w.now at.now.ctx.now u s ps whys.new)) }
    ensures kept { steps.new.memo ≡ steps.old.memo }
{
    let mut all = polys;
    for x in atoms {
        if is_full(&all) {
            return Ok(Some(all));
        }
        let Some(more) = at_atom(l, steps, at, g, x, all, whys)? else {
            return Ok(None);
        };
        all = more;
    }
    Ok(Some(all))
}

/// A rule at each atom, where the theory enables it.
fn used<O: TypeOracle, F: Below>(
    l: &Level<'_, '_, O, F>,
    steps: &mut Run<'_>,
    at: &Place<'_>,
    g: &LinearRule,
    atoms: &[Term],
    polys: Seq<Poly>,
    whys: &mut Seq<Why>,
) -> Result<Option<Seq<Poly>>, NoMemory>
    requires level { IsLevel (F.may l.now.below.now) (F.gives l.now.below.now) l.now.r.now l.now.levels }
    requires facts { KnownFacts (defs_in l.now.r.now) at.now.ctx.now.0 }
    requires rule { LinearHolds (defs_in l.now.r.now) g.now }
    requires told { IsToldBy l.now.r.now.w.now.entries g.now }
    requires atoms { Each (λ x. known (defs_in l.now.r.now) x ≡ true) atoms.now }
    requires here { Here l.now.r.now at.now steps.old.memo }
    ensures is { IfOk result (λ o. got_polys o steps.new.left ≡ used (setting_of l.now.r.now) (inner_of l.now.r.now l.now.levels) (seen_at at.now) g.now atoms.now polys steps.old.left) }
    ensures reasons { (u : Term) (s : Bool) → AllGiven l.now.r.now.w.now at.now.ctx.now u s polys whys.old → IfOk result (λ o. IfSome o (λ ps. AllGiven l.now.r.now.w.now at.now.ctx.now u s ps whys.new)) }
    ensures kept { steps.new.memo ≡ steps.old.memo }
{
    let usable = l.r.theory.is_enabled(RuneKind::Linear, &g.theorem);
    if !usable {
        return Ok(Some(polys));
    }
    at_atoms(l, steps, at, g, atoms, polys, whys)
}

/// The rules at places of the index, one after another.
pub(crate) fn used_each<O: TypeOracle, F: Below>(
    l: &Level<'_, '_, O, F>,
    steps: &mut Run<'_>,
    at: &Place<'_>,
    places: &[usize],
    atoms: &[Term],
    polys: Seq<Poly>,
    whys: &mut Seq<Why>,
) -> Result<Option<Seq<Poly>>, NoMemory>
    requires level { IsLevel (F.may l.now.below.now) (F.gives l.now.below.now) l.now.r.now l.now.levels }
    requires facts { KnownFacts (defs_in l.now.r.now) at.now.ctx.now.0 }
    requires atoms { Each (λ x. known (defs_in l.now.r.now) x ≡ true) atoms.now }
    requires here { Here l.now.r.now at.now steps.old.memo }
    ensures is { IfOk result (λ o. got_polys o steps.new.left ≡ used_each (setting_of l.now.r.now) (inner_of l.now.r.now l.now.levels) (seen_at at.now) l.now.r.now.rules.now.linear places.now atoms.now polys steps.old.left) }
    ensures reasons { (u : Term) (s : Bool) → AllGiven l.now.r.now.w.now at.now.ctx.now u s polys whys.old → IfOk result (λ o. IfSome o (λ ps. AllGiven l.now.r.now.w.now at.now.ctx.now u s ps whys.new)) }
    ensures kept { steps.new.memo ≡ steps.old.memo }
{
    linear_rules_hold();
    l.r.w.recall_sound();
    l.r.w.recall_distinct_names();
    let mut all = polys;
    for place in places {
        if let Some(g) = linear_rule(l.r.rules, *place) {
            let Some(more) = used(l, steps, at, g, atoms, all, whys)? else {
                return Ok(None);
            };
            all = more;
        }
    }
    Ok(Some(all))
}
