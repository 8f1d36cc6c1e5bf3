ghost use Rattle.std.specs.Prelude.{◌≡◌, cond, IfOk, Some, None, map};
ghost use Rattle.std.specs.Option.{option_map};
ghost use Rattle.ap_list.specs.Lists.{is_among, lookup_by};
ghost use Rattle.ap_value.specs.Values.{symbol_eq};
ghost use Rattle.ap_term.specs.declared.term.Term.{out-Term};
ghost use Rattle.ap_term.specs.Equal.{term_eq};
ghost use Rattle.ap_term.specs.Matching.{noted, match_all, match_call, matched, MatchesAreLeast, MatchesAreFound};

use crate::instance::{is_symbol, replacement};
use crate::shape::Shape;
use crate::term::Subst;
use crate::terms::{copy_term, same_term};
use crate::tree::Term;
use ap_value::{NoMemory, Seq, Symbol, copy_symbol};
use std::alloc::Global;

/// Whether two terms are one, as the test that definitions choose by. Takes no memory.
pub fn is_same(a: &Term, b: &Term) -> bool
    ensures { result ≡ term_eq a.now b.now }
{
    same_term(a, b)
}

/// Whether a term is one of a list. Takes no memory.
pub fn is_term_among(t: &Term, list: &[Term]) -> bool
    ensures { result ≡ is_among term_eq t.now list.now }
{
    for u in list {
        if is_same(t, u) {
            return true;
        }
    }
    false
}

/// Whether a variable's term is this one; where it has none, it gets this one at the end.
fn note(
    alloc: Global,
    x: &Symbol,
    t: &Term,
    pairs: &mut Seq<(Symbol, Term)>,
) -> Result<bool, NoMemory>
    ensures { IfOk result (λ b. noted x.now t.now pairs.old (lookup_by symbol_eq pairs.old x.now) ≡ cond b (Some pairs.new) None) }
{
    if let Some(u) = replacement(pairs.as_slice(), x) {
        return Ok(is_same(u, t));
    }
    pairs.push((copy_symbol(alloc, x)?, copy_term(alloc, t)?))?;
    Ok(true)
}

/// Whether the pattern matches the term, beginning with these pairs, which get those that it needs.
#[cycle(matching)]
#[tactic(auto, using(crate::proofs::Seen::trees))]
fn match_term(
    alloc: Global,
    pattern: &Term,
    t: &Term,
    pairs: &mut Seq<(Symbol, Term)>,
) -> Result<bool, NoMemory>
    ensures { IfOk result (λ b. matched pattern.now t.now pairs.old ≡ cond b (Some pairs.new) None) }
{
    match (&pattern.shape, &t.shape) {
        (Shape::Var(x), _) => note(alloc, x, t, pairs),
        (Shape::Quote(_), _) => Ok(is_same(pattern, t)),
        (Shape::Call(f, patterns), Shape::Call(g, ts)) => {
            if !is_symbol(f, g) {
                return Ok(false);
            }
            match_terms(alloc, patterns.as_slice(), ts.as_slice(), pairs)
        }
        _ => Ok(false),
    }
}

#[cycle(matching)]
fn match_terms(
    alloc: Global,
    patterns: &[Term],
    ts: &[Term],
    pairs: &mut Seq<(Symbol, Term)>,
) -> Result<bool, NoMemory>
    ensures { IfOk result (λ b. match_all (map matched patterns.now) ts.now pairs.old ≡ cond b (Some pairs.new) None) }
{
    if patterns.len() != ts.len() {
        return Ok(false);
    }
    for i in 0..patterns.len() {
        if !match_term(alloc, &patterns[i], &ts[i], pairs)? {
            return Ok(false);
        }
    }
    Ok(true)
}

/// The least extension of `start` that has a pair for each variable of the pattern, also for one that stands
/// for itself, and takes the pattern to the term; new pairs in order of first occurrence. `None` exactly
/// where there is none ([`matches_are_least`]). A constant matches itself alone: `'(a . b)` is no call of
/// `cons`. The only error is want of memory. See the manual's topic `rewrite`.
pub fn one_way_match(
    alloc: Global,
    pattern: &Term,
    t: &Term,
    start: &Subst,
) -> Result<Option<Subst>, NoMemory>
    ensures { IfOk result (λ o. option_map (λ s. s.0) o ≡ matched pattern.now t.now start.now.0) }
{
    let mut pairs = copy_pairs(alloc, start.0.as_slice())?;
    if match_term(alloc, pattern, t, &mut pairs)? {
        Ok(Some(Subst(pairs)))
    } else {
        Ok(None)
    }
}

/// A copy of pairs, each term of which is shared.
fn copy_pairs(alloc: Global, pairs: &[(Symbol, Term)]) -> Result<Seq<(Symbol, Term)>, NoMemory>
    ensures { IfOk result (λ r. r ≡ pairs.now) }
{
    let mut out = Seq::with_capacity(alloc, pairs.len())?;
    for (x, t) in pairs {
        out.push((copy_symbol(alloc, x)?, copy_term(alloc, t)?))?;
    }
    Ok(out)
}

/// The law of matching. A match gives the pairs that it began with and behind them one for each variable of
/// the pattern that had none, in order of first occurrence; under them the pattern is the term; and all its
/// pairs are among those of any other extension under which it is. Where there is such an extension, a match
/// is found.
pub fn matches_are_least()
    ensures least { MatchesAreLeast }
    ensures found { MatchesAreFound }
{}
