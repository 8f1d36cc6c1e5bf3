// Hypotheses that facts relieve.
ghost use Rattle.std.specs.Prelude.{◌≡◌, IsTrue, IfOk, IfSome, map, is_some, true, false};
ghost use Rattle.std.specs.Option.{option_map};
ghost use Rattle.ap_list.specs.Lists.{all_true, lookup_by};
ghost use Rattle.ap_value.specs.Values.{symbol_eq};
ghost use Rattle.ap_term.specs.Matching.{is_bound};
ghost use Rattle.ap_world.specs.Holding.{KnownPairs};
ghost use Rattle.ap_world.specs.World.{function_of};
ghost use Rattle.ap_world.specs.Facts.{KnownFacts};
ghost use Rattle.ap_world.specs.Shapes.{shape_of};
ghost use Rattle.ap_kernel.specs.Standing.{DefinesNot, Stands};
ghost use Rattle.ap_kernel.specs.declared.objects.Mode.TheVariants.{Equal};
ghost use Rattle.ap_world.specs.Clauses.{not_of};
ghost use Rattle.ap_world.specs.Recursion.{nil_constant, t_constant};
ghost use Rattle.ap_rewrite.specs.Leading.{leads_made};
ghost use Rattle.ap_rewrite.specs.Relieved.{MatchedAt, RelievedFrom};
ghost use Rattle.ap_rewrite.specs.Relieving.{by_facts, by_sign};

use crate::settling::nil_value;
use crate::shaping::not_constant;
use ap_kernel::{
    Ctx, Equiv, Mode, NoMemory, ShapeRef, Subst, Symbol, Term, World, by_fact, cong, is_symbol,
    not_symbol, shape_of, trans,
};
use ap_term::{Shape, one_way_match};
use std::alloc::Global;
use std::slice;

/// A hypothesis that is relieved: the pairs, which give each of its variables a term, and the equivalence that leads
/// from its instance to `'T`.
#[derive(Drop)]
pub struct Relieved {
    pub pairs: Subst,
    pub shown: Equiv,
}

/// Whether a variable has a pair.
fn has_pair(pairs: &[(Symbol, Term)], x: &Symbol) -> bool
    ensures { result ≡ is_some (lookup_by symbol_eq pairs.now x.now) }
{
    for (y, _) in pairs {
        if is_symbol(x, y) {
            return true;
        }
    }
    false
}

/// Whether each variable of a term has a pair. Takes no memory.
#[cycle(binding)]
#[tactic(auto, using(ap_term::proofs::Seen::trees))]
pub fn is_bound(pairs: &[(Symbol, Term)], t: &Term) -> bool
    ensures { result ≡ is_bound pairs.now t.now }
{
    match &t.shape {
        Shape::Var(x) => has_pair(pairs, x),
        Shape::Quote(_) => true,
        Shape::Call(_, ts) => are_bound(pairs, ts.as_slice()),
    }
}

#[cycle(binding)]
fn are_bound(pairs: &[(Symbol, Term)], ts: &[Term]) -> bool
    ensures { result ≡ all_true (map (is_bound pairs.now) ts.now) }
{
    for t in ts {
        if !is_bound(pairs, t) {
            return false;
        }
    }
    true
}

/// The place of a fact whose term a pattern matches, and the pairs that come of it.
#[derive(Drop)]
pub(crate) struct Matched {
    pub place: usize,
    pub pairs: Subst,
}

/// The first fact of a sign whose term a pattern matches beginning with these pairs.
fn by_facts(
    alloc: Global,
    facts: &[(Term, bool)],
    pattern: &Term,
    sign: bool,
    start: &Subst,
) -> Result<Option<Matched>, NoMemory>
    ensures found { IfOk result (λ o. option_map (λ m. m.pairs.0) o ≡ by_facts pattern.now sign start.now.0 facts.now) }
    ensures at { IfOk result (λ o. IfSome o (MatchedAt facts.now pattern.now sign start.now.0)) }
{
    for i in 0..facts.len() {
        let (t, b) = &facts[i];
        if *b == sign {
            if let Some(pairs) = one_way_match(alloc, pattern, t, start)? {
                return Ok(Some(Matched { place: i, pairs }));
            }
        }
    }
    Ok(None)
}

/// From the negation of a term to the negation of what it leads to.
pub fn not_equiv(alloc: Global, w: &World, ctx: &Ctx, q: Equiv) -> Result<Equiv, NoMemory>
    requires ground { DefinesNot (function_of w.now.entries) }
    requires facts { KnownFacts (function_of w.now.entries) ctx.now.0 }
    requires stands { Stands w.now q }
    requires ctx { q.says.ctx ≡ ctx.now }
    ensures stands { IfOk result (λ r. Stands w.now r) }
    ensures made { IfOk result (λ r. r.says ≡ leads_made ctx.now Equal (not_of q.says.lhs) (not_of q.says.rhs)) }
{
    let head = not_symbol();
    let r = cong(alloc, w, ctx, &head, slice::from_ref(&q))?;
    Ok(r)
}

/// From the negation of `'NIL` to `'T`.
fn nil_turned(alloc: Global, w: &World, ctx: &Ctx, t: &Term) -> Result<Equiv, NoMemory>
    requires ground { DefinesNot (function_of w.now.entries) }
    requires facts { KnownFacts (function_of w.now.entries) ctx.now.0 }
    requires negation { t.now ≡ not_of nil_constant }
    ensures stands { IfOk result (λ r. Stands w.now r) }
    ensures made { IfOk result (λ r. r.says ≡ leads_made ctx.now Equal t.now t_constant) }
{
    let nil = nil_value();
    let r = not_constant(alloc, w, ctx, Mode::Equal, t, &nil)?;
    Ok(r)
}

/// From the negation of what leads to `'NIL` to `'T`.
fn not_nil(alloc: Global, w: &World, ctx: &Ctx, q: Equiv) -> Result<Equiv, NoMemory>
    requires ground { DefinesNot (function_of w.now.entries) }
    requires facts { KnownFacts (function_of w.now.entries) ctx.now.0 }
    requires stands { Stands w.now q }
    requires ctx { q.says.ctx ≡ ctx.now }
    requires nil { q.says.rhs ≡ nil_constant }
    ensures stands { IfOk result (λ r. Stands w.now r) }
    ensures made { IfOk result (λ r. r.says ≡ leads_made ctx.now Equal (not_of q.says.lhs) t_constant) }
{
    let first = not_equiv(alloc, w, ctx, q)?;
    let more = nil_turned(alloc, w, ctx, first.rhs())?;
    let r = trans(alloc, w, first, more)?;
    Ok(r)
}

/// A hypothesis relieved by a true fact that it matches.
fn shown_true(
    alloc: Global,
    w: &World,
    ctx: &Ctx,
    h: &Term,
    start: &Subst,
    found: Matched,
) -> Result<Relieved, NoMemory>
    requires facts { KnownFacts (function_of w.now.entries) ctx.now.0 }
    requires pairs { KnownPairs (function_of w.now.entries) start.now.0 }
    requires found { MatchedAt ctx.now.0 h.now true start.now.0 found }
    ensures pairs { IfOk result (λ r. r.pairs ≡ found.pairs) }
    ensures shown { IfOk result (λ r. RelievedFrom w.now ctx.now h.now start.now.0 r) }
{
    let Matched { place, pairs } = found;
    let shown = by_fact(alloc, w, ctx, place)?;
    Ok(Relieved { pairs, shown })
}

/// A negation relieved by a false fact that its argument matches.
fn shown_false(
    alloc: Global,
    w: &World,
    ctx: &Ctx,
    a: &Term,
    start: &Subst,
    found: Matched,
) -> Result<Relieved, NoMemory>
    requires ground { DefinesNot (function_of w.now.entries) }
    requires facts { KnownFacts (function_of w.now.entries) ctx.now.0 }
    requires pairs { KnownPairs (function_of w.now.entries) start.now.0 }
    requires found { MatchedAt ctx.now.0 a.now false start.now.0 found }
    ensures pairs { IfOk result (λ r. r.pairs ≡ found.pairs) }
    ensures shown { IfOk result (λ r. RelievedFrom w.now ctx.now (not_of a.now) start.now.0 r) }
{
    let Matched { place, pairs } = found;
    let fact = by_fact(alloc, w, ctx, place)?;
    let shown = not_nil(alloc, w, ctx, fact)?;
    Ok(Relieved { pairs, shown })
}

/// The first true fact that a hypothesis matches.
fn by_true(
    alloc: Global,
    w: &World,
    ctx: &Ctx,
    h: &Term,
    start: &Subst,
) -> Result<Option<Relieved>, NoMemory>
    requires facts { KnownFacts (function_of w.now.entries) ctx.now.0 }
    requires pairs { KnownPairs (function_of w.now.entries) start.now.0 }
    ensures found { IfOk result (λ o. option_map (λ r. r.pairs.0) o ≡ by_facts h.now true start.now.0 ctx.now.0) }
    ensures shown { IfOk result (λ o. IfSome o (RelievedFrom w.now ctx.now h.now start.now.0)) }
{
    match by_facts(alloc, ctx.facts(), h, true, start)? {
        Some(found) => {
            let relieved = shown_true(alloc, w, ctx, h, start, found)?;
            Ok(Some(relieved))
        }
        None => Ok(None),
    }
}

/// The first false fact that the argument of a negation matches.
fn by_false(
    alloc: Global,
    w: &World,
    ctx: &Ctx,
    a: &Term,
    start: &Subst,
) -> Result<Option<Relieved>, NoMemory>
    requires ground { DefinesNot (function_of w.now.entries) }
    requires facts { KnownFacts (function_of w.now.entries) ctx.now.0 }
    requires pairs { KnownPairs (function_of w.now.entries) start.now.0 }
    ensures found { IfOk result (λ o. option_map (λ r. r.pairs.0) o ≡ by_facts a.now false start.now.0 ctx.now.0) }
    ensures shown { IfOk result (λ o. IfSome o (RelievedFrom w.now ctx.now (not_of a.now) start.now.0)) }
{
    match by_facts(alloc, ctx.facts(), a, false, start)? {
        Some(found) => {
            let relieved = shown_false(alloc, w, ctx, a, start, found)?;
            Ok(Some(relieved))
        }
        None => Ok(None),
    }
}

/// The first fact that relieves a hypothesis: a true fact that it matches, for `(not h)` a false fact that `h`
/// matches, beginning with these pairs. It gives its variables their terms.
pub fn by_sign(
    alloc: Global,
    w: &World,
    ctx: &Ctx,
    h: &Term,
    start: &Subst,
) -> Result<Option<Relieved>, NoMemory>
    requires ground { DefinesNot (function_of w.now.entries) }
    requires facts { KnownFacts (function_of w.now.entries) ctx.now.0 }
    requires pairs { KnownPairs (function_of w.now.entries) start.now.0 }
    ensures found { IfOk result (λ o. option_map (λ r. r.pairs.0) o ≡ by_sign h.now (shape_of h.now) start.now.0 ctx.now.0) }
    ensures shown { IfOk result (λ o. IfSome o (RelievedFrom w.now ctx.now h.now start.now.0)) }
{
    match shape_of(h) {
        ShapeRef::Not(a) => {
            let o = by_false(alloc, w, ctx, a, start)?;
            Ok(o)
        }
        _ => {
            let o = by_true(alloc, w, ctx, h, start)?;
            Ok(o)
        }
    }
}
