// Rules, the newest first.
ghost use Rattle.std.specs.Prelude.{◌≡◌, ◌<◌, ◌&&◌, IsTrue, IfOk, IfSome, Some, [], map, true};
ghost use Rattle.std.specs.Option.{option_map};
ghost use Rattle.ap_list.specs.Lists.{Each};
ghost use Rattle.ap_term.specs.declared.term.Term.{Call};
ghost use Rattle.ap_term.specs.Matching.{matched, Extends, is_bound};
ghost use Rattle.ap_term.specs.Metered.{first_that};
ghost use Rattle.ap_term.specs.Terms.{subst_of};
ghost use Rattle.ap_world.specs.declared.theory.Rune.TheVariants as rune;
ghost use Rattle.ap_world.specs.Theories.{is_enabled};
ghost use Rattle.ap_world.specs.Facts.{KnownFacts};
ghost use Rattle.ap_world.specs.Holding.{KnownPairs};
ghost use Rattle.ap_world.specs.Recursion.{t_constant};
ghost use Rattle.ap_world.specs.Shapes.{is_constant};
ghost use Rattle.ap_world.specs.Sound.{known};
ghost use Rattle.ap_rules.specs.Made.{rule_in};
ghost use Rattle.ap_kernel.specs.Applying.{AllLead};
ghost use Rattle.ap_world.specs.World.{function_of};
ghost use Rattle.ap_kernel.specs.Standing.{DefinesNot, Stands};
ghost use Rattle.ap_kernel.specs.declared.objects.Mode.TheVariants.{Iff};
ghost use Rattle.ap_rewrite.specs.Leading.{leads_made};
ghost use Rattle.ap_rewrite.specs.Settings.{relieving};
ghost use Rattle.ap_rewrite.specs.Relieving.{if_so, relieve_one, relieve};
ghost use Rattle.ap_rewrite.specs.Rewriting.{right, relieved, apply, fits_mode, try_rule, by_rules};
ghost use Rattle.ap_rewrite.specs.Answering.{defs_in, where_applied, Ready, setting_of, inner_of, seen_at, got, got_any, got_pairs, got_reliefs, IsRuleOf, Shows, From, Here, IsLevel};
ghost use Rattle.ap_rewrite.specs.Relieved.{RelievedFrom};

use crate::branching::go_on;
use crate::engines::answered;
use crate::facts::{Relieved, by_sign, is_bound};
use crate::laws::search_by_head;
use crate::ordering::{fits_mode, in_order_first, in_order_then};
use crate::rewriter::{Below, Level, Place, Rewriter, Run, Tried, deeper, from_found};
use crate::settling::{in_mode, to_true};
use crate::sizes::is_small;
use ap_kernel::{
    Ctx, Equiv, Mode, NoMemory, Seq, Subst, Symbol, Term, TypeOracle, World, apply_theorem,
    is_constant, subst,
};
use ap_rules::{RewriteRule, by_head, rules_are_parts};
use ap_term::one_way_match;
use ap_world::laws::rules_hold;
use ap_world::{RuneKind, Theory};
use std::alloc::Global;

/// The hypotheses of a rule that are relieved: the pairs that have come of it, and for each the equivalence that
/// leads from its instance to `'T`.
#[derive(Drop)]
pub(crate) struct Reliefs {
    pub pairs: Subst,
    pub shown: Seq<Equiv>,
}

/// The instance of a hypothesis, rewritten within one hypothesis more.
fn rewrite_instance<O: TypeOracle, F: Below>(
    l: &Level<'_, '_, O, F>,
    steps: &mut Run<'_>,
    at: &Place<'_>,
    h: &Term,
    s: &Subst,
) -> Result<Option<Equiv>, NoMemory>
    requires level { IsLevel (F.may l.now.below.now) (F.gives l.now.below.now) l.now.r.now l.now.levels }
    requires facts { KnownFacts (defs_in l.now.r.now) at.now.ctx.now.0 }
    requires hyp { IsTrue (known (defs_in l.now.r.now) h.now) }
    requires pairs { KnownPairs (defs_in l.now.r.now) s.now.0 }
    requires few { at.now.chain < 10 }
    requires here { Here l.now.r.now at.now steps.old.memo }
    ensures is { IfOk result (λ o. got o steps.new.left ≡ inner_of l.now.r.now l.now.levels Iff (relieving (seen_at at.now)) (subst_of s.now.0 h.now) steps.old.left) }
    ensures from { IfOk result (λ o. IfSome o (From l.now.r.now.w.now Iff at.now.ctx.now (subst_of s.now.0 h.now))) }
    ensures kept { steps.new.memo ≡ steps.old.memo }
{
    let instance = subst(l.r.alloc, h, s)?;
    let within = Place {
        ctx: at.ctx,
        closed: at.closed,
        chain: at.chain + 1,
    };
    let found = deeper(l, steps, Mode::Iff, &within, &instance)?;
    Ok(found)
}

/// What a hypothesis's instance leads to, where that is a constant other than `nil`: the pairs, which stay, and on
/// to `'T`.
fn where_true(alloc: Global, w: &World, q: Equiv, s: Subst) -> Result<Option<Relieved>, NoMemory>
    requires ground { DefinesNot (function_of w.now.entries) }
    requires stands { Stands w.now q }
    requires mode { q.says.mode ≡ Iff }
    ensures is { IfOk result (λ o. option_map (λ a. a.pairs.0) o ≡ if_so (is_constant true q.says.rhs) s.0) }
    ensures pairs { IfOk result (λ o. IfSome o (λ a. a.pairs ≡ s)) }
    ensures stands { IfOk result (λ o. IfSome o (λ a. Stands w.now a.shown)) }
    ensures made { IfOk result (λ o. IfSome o (λ a. a.shown.says ≡ leads_made q.says.ctx Iff q.says.lhs t_constant)) }
{
    if !is_constant(true, q.rhs()) {
        return Ok(None);
    }
    let shown = to_true(alloc, w, q)?;
    Ok(Some(Relieved { pairs: s, shown }))
}

/// A hypothesis whose variables all have terms: its instance is rewritten, within one hypothesis more, and has to
/// become a constant other than `nil`.
fn by_rewriting<O: TypeOracle, F: Below>(
    l: &Level<'_, '_, O, F>,
    steps: &mut Run<'_>,
    at: &Place<'_>,
    h: &Term,
    s: Subst,
) -> Result<Option<Tried<Relieved>>, NoMemory>
    requires level { IsLevel (F.may l.now.below.now) (F.gives l.now.below.now) l.now.r.now l.now.levels }
    requires facts { KnownFacts (defs_in l.now.r.now) at.now.ctx.now.0 }
    requires hyp { IsTrue (known (defs_in l.now.r.now) h.now) }
    requires pairs { KnownPairs (defs_in l.now.r.now) s.0 }
    requires bound { IsTrue (is_bound s.0 h.now) }
    requires few { at.now.chain < 10 }
    requires here { Here l.now.r.now at.now steps.old.memo }
    ensures is { IfOk result (λ o. got_pairs o steps.new.left ≡ relieve_one (inner_of l.now.r.now l.now.levels) (seen_at at.now) h.now s.0 steps.old.left) }
    ensures shown { IfOk result (λ o. IfSome o (λ a. IfSome (where_applied a) (RelievedFrom l.now.r.now.w.now at.now.ctx.now h.now s.0))) }
    ensures kept { steps.new.memo ≡ steps.old.memo }
{
    let Some(q) = rewrite_instance(l, steps, at, h, &s)? else {
        return Ok(None);
    };
    let found = where_true(l.r.alloc, l.r.w, q, s)?;
    Ok(Some(from_found(found)))
}

/// One hypothesis: an instance that becomes a constant other than `nil`, or, with variables that have no term, a fact,
/// which gives them theirs.
fn relieve_one<O: TypeOracle, F: Below>(
    l: &Level<'_, '_, O, F>,
    steps: &mut Run<'_>,
    at: &Place<'_>,
    h: &Term,
    s: Subst,
) -> Result<Option<Tried<Relieved>>, NoMemory>
    requires level { IsLevel (F.may l.now.below.now) (F.gives l.now.below.now) l.now.r.now l.now.levels }
    requires facts { KnownFacts (defs_in l.now.r.now) at.now.ctx.now.0 }
    requires hyp { IsTrue (known (defs_in l.now.r.now) h.now) }
    requires pairs { KnownPairs (defs_in l.now.r.now) s.0 }
    requires few { at.now.chain < 10 }
    requires here { Here l.now.r.now at.now steps.old.memo }
    ensures is { IfOk result (λ o. got_pairs o steps.new.left ≡ relieve_one (inner_of l.now.r.now l.now.levels) (seen_at at.now) h.now s.0 steps.old.left) }
    ensures shown { IfOk result (λ o. IfSome o (λ a. IfSome (where_applied a) (RelievedFrom l.now.r.now.w.now at.now.ctx.now h.now s.0))) }
    ensures kept { steps.new.memo ≡ steps.old.memo }
{
    if is_bound(s.0.as_slice(), h) {
        return by_rewriting(l, steps, at, h, s);
    }
    let found = by_sign(l.r.alloc, l.r.w, at.ctx, h, &s)?;
    Ok(Some(from_found(found)))
}

/// The hypotheses from left to right, each only where fewer than ten are being relieved around it.
pub(crate) fn relieve<O: TypeOracle, F: Below>(
    l: &Level<'_, '_, O, F>,
    steps: &mut Run<'_>,
    at: &Place<'_>,
    hs: &[Term],
    s: Subst,
) -> Result<Option<Tried<Reliefs>>, NoMemory>
    requires level { IsLevel (F.may l.now.below.now) (F.gives l.now.below.now) l.now.r.now l.now.levels }
    requires facts { KnownFacts (defs_in l.now.r.now) at.now.ctx.now.0 }
    requires hyps { Each (λ h. IsTrue (known (defs_in l.now.r.now) h)) hs.now }
    requires pairs { KnownPairs (defs_in l.now.r.now) s.0 }
    requires here { Here l.now.r.now at.now steps.old.memo }
    ensures is { IfOk result (λ o. got_reliefs o steps.new.left ≡ relieve (inner_of l.now.r.now l.now.levels) (seen_at at.now) hs.now s.0 steps.old.left) }
    ensures shown { IfOk result (λ o. IfSome o (λ a. IfSome (where_applied a) (Shows l.now.r.now.w.now at.now.ctx.now hs.now s.0))) }
    ensures kept { steps.new.memo ≡ steps.old.memo }
{
    let mut pairs = s;
    let mut shown = Seq::new(l.r.alloc);
    for h in hs {
        if at.chain >= 10 {
            return Ok(Some(Tried::PassedBy));
        }
        match relieve_one(l, steps, at, h, pairs)? {
            None => return Ok(None),
            Some(Tried::PassedBy) => return Ok(Some(Tried::PassedBy)),
            Some(Tried::Applied(found)) => {
                let Relieved {
                    pairs: more,
                    shown: q,
                } = found;
                pairs = more;
                shown.push(q)?;
            }
        }
    }
    Ok(Some(Tried::Applied(Reliefs { pairs, shown })))
}

/// From the instance of a rule's left side to that of its right side, under a mode, where its hypotheses are relieved.
fn applied<O: TypeOracle>(
    r: &Rewriter<'_, O>,
    ctx: &Ctx,
    mode: Mode,
    g: &RewriteRule,
    found: Reliefs,
) -> Result<Equiv, NoMemory>
    requires ready { Ready r.now }
    requires facts { KnownFacts (defs_in r.now) ctx.now.0 }
    requires rule { IsRuleOf r.now.w.now (rule_in g.now) }
    requires fits { IsTrue (fits_mode mode (rule_in g.now)) }
    requires pairs { KnownPairs (defs_in r.now) found.pairs.0 }
    requires hyps { Each (Stands r.now.w.now) found.shown }
    requires lead { AllLead ctx.now found.pairs.0 g.now.hyps found.shown }
    ensures is { IfOk result (λ q. q.says.rhs ≡ subst_of found.pairs.0 g.now.rhs) }
    ensures from { IfOk result (From r.now.w.now mode ctx.now (subst_of found.pairs.0 g.now.lhs)) }
{
    let Reliefs { pairs, shown } = found;
    let q = apply_theorem(r.alloc, r.w, ctx, &g.theorem, g.part, &pairs, shown)?;
    let answer = in_mode(r.alloc, r.w, q, mode)?;
    Ok(answer)
}

/// The instance of a rule's right side, which is rewritten, where it isn't too large.
fn right<O: TypeOracle, F: Below>(
    l: &Level<'_, '_, O, F>,
    steps: &mut Run<'_>,
    mode: Mode,
    at: &Place<'_>,
    g: &RewriteRule,
    found: Reliefs,
) -> Result<Option<Tried<Equiv>>, NoMemory>
    requires level { IsLevel (F.may l.now.below.now) (F.gives l.now.below.now) l.now.r.now l.now.levels }
    requires facts { KnownFacts (defs_in l.now.r.now) at.now.ctx.now.0 }
    requires rule { IsRuleOf l.now.r.now.w.now (rule_in g.now) }
    requires fits { IsTrue (fits_mode mode (rule_in g.now)) }
    requires shown { Shows l.now.r.now.w.now at.now.ctx.now g.now.hyps [] found }
    requires here { Here l.now.r.now at.now steps.old.memo }
    ensures is { IfOk result (λ o. got_any o steps.new.left ≡ right (setting_of l.now.r.now) (inner_of l.now.r.now l.now.levels) mode (seen_at at.now) (subst_of found.pairs.0 g.now.rhs) steps.old.left) }
    ensures from { IfOk result (λ o. IfSome o (λ a. IfSome (where_applied a) (From l.now.r.now.w.now mode at.now.ctx.now (subst_of found.pairs.0 g.now.lhs)))) }
    ensures kept { steps.new.memo ≡ steps.old.memo }
{
    let first = applied(l.r, at.ctx, mode, g, found)?;
    if !is_small(first.rhs()) {
        return Ok(Some(Tried::PassedBy));
    }
    let found = go_on(l, steps, mode, at, first)?;
    Ok(answered(found))
}

/// A rule whose hypotheses are relieved, where it is in order, if that couldn't be told before.
fn relieved<O: TypeOracle, F: Below>(
    l: &Level<'_, '_, O, F>,
    steps: &mut Run<'_>,
    mode: Mode,
    at: &Place<'_>,
    t: &Term,
    g: &RewriteRule,
    found: Reliefs,
) -> Result<Option<Tried<Equiv>>, NoMemory>
    requires level { IsLevel (F.may l.now.below.now) (F.gives l.now.below.now) l.now.r.now l.now.levels }
    requires facts { KnownFacts (defs_in l.now.r.now) at.now.ctx.now.0 }
    requires rule { IsRuleOf l.now.r.now.w.now (rule_in g.now) }
    requires fits { IsTrue (fits_mode mode (rule_in g.now)) }
    requires shown { Shows l.now.r.now.w.now at.now.ctx.now g.now.hyps [] found }
    requires instance { subst_of found.pairs.0 g.now.lhs ≡ t.now }
    requires here { Here l.now.r.now at.now steps.old.memo }
    ensures is { IfOk result (λ o. got_any o steps.new.left ≡ relieved (setting_of l.now.r.now) (inner_of l.now.r.now l.now.levels) mode (seen_at at.now) t.now (rule_in g.now) (Some found.pairs.0) steps.old.left) }
    ensures from { IfOk result (λ o. IfSome o (λ a. IfSome (where_applied a) (From l.now.r.now.w.now mode at.now.ctx.now t.now))) }
    ensures kept { steps.new.memo ≡ steps.old.memo }
{
    if !in_order_then(l.r.alloc, g, &found.pairs, t)? {
        return Ok(Some(Tried::PassedBy));
    }
    right(l, steps, mode, at, g, found)
}

/// A rule whose left side matches, where it is in order and its hypotheses are relieved.
fn apply<O: TypeOracle, F: Below>(
    l: &Level<'_, '_, O, F>,
    steps: &mut Run<'_>,
    mode: Mode,
    at: &Place<'_>,
    t: &Term,
    g: &RewriteRule,
    s: Subst,
) -> Result<Option<Tried<Equiv>>, NoMemory>
    requires level { IsLevel (F.may l.now.below.now) (F.gives l.now.below.now) l.now.r.now l.now.levels }
    requires facts { KnownFacts (defs_in l.now.r.now) at.now.ctx.now.0 }
    requires term { IsTrue (known (defs_in l.now.r.now) t.now) }
    requires rule { IsRuleOf l.now.r.now.w.now (rule_in g.now) }
    requires fits { IsTrue (fits_mode mode (rule_in g.now)) }
    requires matched { matched g.now.lhs t.now [] ≡ Some s.0 }
    requires here { Here l.now.r.now at.now steps.old.memo }
    ensures is { IfOk result (λ o. got_any o steps.new.left ≡ apply (setting_of l.now.r.now) (inner_of l.now.r.now l.now.levels) mode (seen_at at.now) t.now (rule_in g.now) (Some s.0) steps.old.left) }
    ensures from { IfOk result (λ o. IfSome o (λ a. IfSome (where_applied a) (From l.now.r.now.w.now mode at.now.ctx.now t.now))) }
    ensures kept { steps.new.memo ≡ steps.old.memo }
{
    if !in_order_first(l.r.alloc, g, &s, t)? {
        return Ok(Some(Tried::PassedBy));
    }
    match relieve(l, steps, at, g.hyps.as_slice(), s)? {
        None => Ok(None),
        Some(Tried::PassedBy) => Ok(Some(Tried::PassedBy)),
        Some(Tried::Applied(found)) => relieved(l, steps, mode, at, t, g, found),
    }
}

/// Whether the theory enables a rule, and it serves under the mode. Takes no memory.
fn may_serve(theory: &Theory, mode: Mode, g: &RewriteRule) -> bool
    ensures { result ≡ (is_enabled theory.now (rune.Rewrite g.now.theorem) && fits_mode mode (rule_in g.now)) }
{
    theory.is_enabled(RuneKind::Rewrite, &g.theorem) && fits_mode(mode, g)
}

/// A rule that the theory enables and that serves under the mode.
fn try_rule<O: TypeOracle, F: Below>(
    l: &Level<'_, '_, O, F>,
    steps: &mut Run<'_>,
    mode: Mode,
    at: &Place<'_>,
    t: &Term,
    g: &RewriteRule,
) -> Result<Option<Tried<Equiv>>, NoMemory>
    requires level { IsLevel (F.may l.now.below.now) (F.gives l.now.below.now) l.now.r.now l.now.levels }
    requires facts { KnownFacts (defs_in l.now.r.now) at.now.ctx.now.0 }
    requires term { IsTrue (known (defs_in l.now.r.now) t.now) }
    requires rule { IsRuleOf l.now.r.now.w.now (rule_in g.now) }
    requires here { Here l.now.r.now at.now steps.old.memo }
    ensures is { IfOk result (λ o. got_any o steps.new.left ≡ try_rule (setting_of l.now.r.now) (inner_of l.now.r.now l.now.levels) mode (seen_at at.now) t.now (rule_in g.now) steps.old.left) }
    ensures from { IfOk result (λ o. IfSome o (λ a. IfSome (where_applied a) (From l.now.r.now.w.now mode at.now.ctx.now t.now))) }
    ensures kept { steps.new.memo ≡ steps.old.memo }
{
    if !may_serve(l.r.theory, mode, g) {
        return Ok(Some(Tried::PassedBy));
    }
    let start = Subst(Seq::new(l.r.alloc));
    match one_way_match(l.r.alloc, &g.lhs, t, &start)? {
        None => Ok(Some(Tried::PassedBy)),
        Some(s) => apply(l, steps, mode, at, t, g, s),
    }
}

/// The first of some rules that applies.
fn each_rule<O: TypeOracle, F: Below>(
    l: &Level<'_, '_, O, F>,
    steps: &mut Run<'_>,
    mode: Mode,
    at: &Place<'_>,
    t: &Term,
    gs: &[RewriteRule],
) -> Result<Option<Tried<Equiv>>, NoMemory>
    requires level { IsLevel (F.may l.now.below.now) (F.gives l.now.below.now) l.now.r.now l.now.levels }
    requires facts { KnownFacts (defs_in l.now.r.now) at.now.ctx.now.0 }
    requires term { IsTrue (known (defs_in l.now.r.now) t.now) }
    requires rules { Each (IsRuleOf l.now.r.now.w.now) (map rule_in gs.now) }
    requires here { Here l.now.r.now at.now steps.old.memo }
    ensures is { IfOk result (λ o. got_any o steps.new.left ≡ first_that (map (try_rule (setting_of l.now.r.now) (inner_of l.now.r.now l.now.levels) mode (seen_at at.now) t.now) (map rule_in gs.now)) steps.old.left) }
    ensures from { IfOk result (λ o. IfSome o (λ a. IfSome (where_applied a) (From l.now.r.now.w.now mode at.now.ctx.now t.now))) }
    ensures kept { steps.new.memo ≡ steps.old.memo }
{
    for g in gs {
        match try_rule(l, steps, mode, at, t, g)? {
            None => return Ok(None),
            Some(Tried::Applied(q)) => return Ok(Some(Tried::Applied(q))),
            Some(Tried::PassedBy) => {}
        }
    }
    Ok(Some(Tried::PassedBy))
}

/// The first rule that applies, from the newest on.
pub fn by_rules<O: TypeOracle, F: Below>(
    l: &Level<'_, '_, O, F>,
    steps: &mut Run<'_>,
    mode: Mode,
    at: &Place<'_>,
    t: &Term,
    f: &Symbol,
    us: &[Term],
) -> Result<Option<Tried<Equiv>>, NoMemory>
    requires level { IsLevel (F.may l.now.below.now) (F.gives l.now.below.now) l.now.r.now l.now.levels }
    requires facts { KnownFacts (defs_in l.now.r.now) at.now.ctx.now.0 }
    requires term { IsTrue (known (defs_in l.now.r.now) t.now) }
    requires call { t.now ≡ Call f.now us.now }
    requires here { Here l.now.r.now at.now steps.old.memo }
    ensures is { IfOk result (λ o. got_any o steps.new.left ≡ by_rules (setting_of l.now.r.now) (inner_of l.now.r.now l.now.levels) mode (seen_at at.now) t.now steps.old.left) }
    ensures from { IfOk result (λ o. IfSome o (λ a. IfSome (where_applied a) (From l.now.r.now.w.now mode at.now.ctx.now t.now))) }
    ensures kept { steps.new.memo ≡ steps.old.memo }
{
    search_by_head();
    rules_are_parts();
    rules_hold();
    l.r.w.recall_sound();
    l.r.w.recall_distinct_names();
    let gs = by_head(l.r.rules, f);
    each_rule(l, steps, mode, at, t, gs)
}
