ghost use Rattle.std.specs.Prelude.{◌≡◌, [], IfOk, OnOk, map, zip};
ghost use Rattle.std.specs.Option.{option_copied};
ghost use Rattle.ap_list.specs.Lists.{in_turn, is_among, lookup_by};
ghost use Rattle.ap_value.specs.Values.{symbol_eq};
ghost use Rattle.ap_term.specs.Terms.{vars_after, subst_of};

use crate::shape::Shape;
use crate::term::Subst;
use crate::terms::copy_term;
use crate::tree::Term;
use ap_value::{NoMemory, Seq, Symbol, copy_symbol, same_symbol};
use std::alloc::Global;

/// Whether two symbols are one, as the test that definitions choose by. Takes no memory.
pub fn is_symbol(a: &Symbol, b: &Symbol) -> bool
    ensures { result ≡ symbol_eq a.now b.now }
{
    same_symbol(a, b)
}

/// Whether a symbol is one of a list. Takes no memory.
pub fn is_among(x: &Symbol, list: &[Symbol]) -> bool
    ensures { result ≡ is_among symbol_eq x.now list.now }
{
    for y in list {
        if is_symbol(x, y) {
            return true;
        }
    }
    false
}

/// Adds the variables of a term that aren't there yet.
#[cycle(collecting)]
#[tactic(auto, using(crate::proofs::Seen::trees))]
fn add_vars(alloc: Global, t: &Term, seen: &mut Seq<Symbol>) -> Result<(), NoMemory>
    ensures { OnOk result (seen.new ≡ vars_after t.now seen.old) }
{
    match &t.shape {
        Shape::Var(x) => {
            if !is_among(x, seen.as_slice()) {
                seen.push(copy_symbol(alloc, x)?)?;
            }
            Ok(())
        }
        Shape::Quote(_) => Ok(()),
        Shape::Call(_, ts) => add_all_vars(alloc, ts.as_slice(), seen),
    }
}

#[cycle(collecting)]
fn add_all_vars(alloc: Global, ts: &[Term], seen: &mut Seq<Symbol>) -> Result<(), NoMemory>
    ensures { OnOk result (seen.new ≡ in_turn (map vars_after ts.now) seen.old) }
{
    for t in ts {
        add_vars(alloc, t, seen)?;
    }
    Ok(())
}

/// The variables of a term, each once, in order of first occurrence. The only error is want of memory.
pub fn vars(alloc: Global, t: &Term) -> Result<Seq<Symbol>, NoMemory>
    ensures { IfOk result (λ xs. xs ≡ vars_after t.now []) }
{
    let mut seen = Seq::new(alloc);
    add_vars(alloc, t, &mut seen)?;
    Ok(seen)
}

/// What a variable is replaced by: the first pair of it counts. Takes no memory.
pub(crate) fn replacement<'a>(pairs: &'a [(Symbol, Term)], x: &Symbol) -> Option<&'a Term>
    ensures { option_copied result ≡ lookup_by symbol_eq pairs.now x.now }
{
    for (y, by) in pairs {
        if is_symbol(x, y) {
            return Some(by);
        }
    }
    None
}

/// The instance of a term: each variable that has a pair becomes the term of its first pair, and another
/// variable stays. What isn't changed is shared. The only error is want of memory. See the manual's topic
/// `instance`.
#[cycle(replacing)]
#[tactic(auto, using(crate::proofs::Seen::trees))]
pub fn subst(alloc: Global, t: &Term, s: &Subst) -> Result<Term, NoMemory>
    ensures { IfOk result (λ u. u ≡ subst_of s.now.0 t.now) }
{
    match &t.shape {
        Shape::Var(x) => match replacement(s.0.as_slice(), x) {
            Some(by) => copy_term(alloc, by),
            None => copy_term(alloc, t),
        },
        Shape::Quote(_) => copy_term(alloc, t),
        Shape::Call(f, ts) => {
            let parts = subst_all(alloc, ts.as_slice(), s)?;
            Term::call(alloc, copy_symbol(alloc, f)?, parts)
        }
    }
}

/// The instances of terms, in their order. The only error is want of memory.
#[cycle(replacing)]
pub fn subst_all(alloc: Global, ts: &[Term], s: &Subst) -> Result<Seq<Term>, NoMemory>
    ensures { IfOk result (λ us. us ≡ map (subst_of s.now.0) ts.now) }
{
    let mut out = Seq::with_capacity(alloc, ts.len())?;
    for t in ts {
        out.push(subst(alloc, t, s)?)?;
    }
    Ok(out)
}

/// Each of some variables with a term, up to the end of the shorter list. The only error is want of memory.
pub fn pairs_of(alloc: Global, names: &[Symbol], terms: &[Term]) -> Result<Subst, NoMemory>
    ensures { IfOk result (λ s. s.0 ≡ zip names.now terms.now) }
{
    let mut left = names;
    let mut values = terms;
    let mut out = Seq::new(alloc);
    while let [x, rest @ ..] = left {
        let [t, more @ ..] = values else {
            return Ok(Subst(out));
        };
        out.push((copy_symbol(alloc, x)?, copy_term(alloc, t)?))?;
        left = rest;
        values = more;
    }
    Ok(Subst(out))
}
