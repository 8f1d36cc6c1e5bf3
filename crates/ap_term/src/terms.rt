ghost use Rattle.std.specs.Prelude.{◌≡◌, ◌-◌, ◌^◌, ◌++◌, ◌<◌, ◌↔◌, true, IsTrue, IfOk, OnOk, IfSome, IfNone, map};
ghost use Rattle.ap_list.specs.Lists.{sum_of};
ghost use Rattle.ap_term.specs.declared.term.Term.{Term};
ghost use Rattle.ap_term.specs.Equal.{term_eq};
ghost use Rattle.ap_term.specs.Terms.{term_size};

use crate::arguments::Arguments;
use crate::shape::Shape;
use crate::tree::Term;
use ap_value::{NoMemory, Seq, Symbol, copy, copy_symbol, nodes, same, same_symbol};
use std::alloc::Global;

/// Whether two lists of terms may be one, by their hashes: those that are one have one hash. Takes one step.
fn may_be_same(xs: &Arguments, ys: &Arguments) -> bool
    ensures { xs.now ≡ ys.now → IsTrue result }
{
    xs.hash() == ys.hash()
}

/// Whether two terms are one. Takes no memory.
#[cycle(sameness)]
#[tactic(auto, using(crate::proofs::Seen::trees))]
pub fn same_term(a: &Term, b: &Term) -> bool
    ensures { IsTrue result ↔ (a.now ≡ b.now) }
{
    match (&a.shape, &b.shape) {
        (Shape::Var(x), Shape::Var(y)) => same_symbol(x, y),
        (Shape::Quote(v), Shape::Quote(w)) => same(v, w),
        (Shape::Call(f, xs), Shape::Call(g, ys)) => {
            if !may_be_same(xs, ys) {
                return false;
            }
            if !same_symbol(f, g) {
                return false;
            }
            same_terms(xs.as_slice(), ys.as_slice())
        }
        _ => false,
    }
}

/// Whether two lists of terms are one. Takes no memory.
#[cycle(sameness)]
pub fn same_terms(a: &[Term], b: &[Term]) -> bool
    ensures { IsTrue result ↔ (a.now ≡ b.now) }
{
    if a.len() != b.len() {
        return false;
    }
    for i in 0..a.len() {
        if !same_term(&a[i], &b[i]) {
            return false;
        }
    }
    true
}

/// A copy of a term, which shares its parts: it takes no memory.
#[tactic(auto, using(crate::proofs::Seen::trees))]
pub fn copy_term(alloc: Global, t: &Term) -> Result<Term, NoMemory>
    ensures { IfOk result (λ r. r ≡ t.now) }
{
    match &t.shape {
        Shape::Var(x) => Ok(Term::var(copy_symbol(alloc, x)?)),
        Shape::Quote(v) => Ok(Term::quote(copy(alloc, v)?)),
        Shape::Call(f, xs) => Ok(Term::call_of(copy_symbol(alloc, f)?, xs.share()?)),
    }
}

/// A copy of a list of terms, each of which shares its parts.
pub fn copy_terms(alloc: Global, xs: &[Term]) -> Result<Seq<Term>, NoMemory>
    ensures { IfOk result (λ r. r ≡ xs.now) }
{
    let mut out = Seq::with_capacity(alloc, xs.len())?;
    for x in xs {
        out.push(copy_term(alloc, x)?)?;
    }
    Ok(out)
}

/// Copies terms to the end of a list.
pub fn extend_terms(alloc: Global, out: &mut Seq<Term>, terms: &[Term]) -> Result<(), NoMemory>
    ensures { OnOk result (out.new ≡ out.old ++ terms.now) }
{
    for t in terms {
        out.push(copy_term(alloc, t)?)?;
    }
    Ok(())
}

/// The arguments of a call by value: the list itself where the call alone holds it, and else a copy.
pub fn owned(alloc: Global, arguments: Arguments) -> Result<Seq<Term>, NoMemory>
    ensures { IfOk result (λ r. r ≡ arguments) }
{
    match arguments.try_into_seq() {
        Ok(terms) => Ok(terms),
        Err(shared) => copy_terms(alloc, shared.as_slice()),
    }
}

/// A copy of a list of symbols.
pub fn copy_symbols(alloc: Global, xs: &[Symbol]) -> Result<Seq<Symbol>, NoMemory>
    ensures { IfOk result (λ r. r ≡ xs.now) }
{
    let mut out = Seq::with_capacity(alloc, xs.len())?;
    for x in xs {
        out.push(copy_symbol(alloc, x)?)?;
    }
    Ok(out)
}

/// The number of nodes: 1 for a variable, its value's nodes for a constant, 1 and its arguments' nodes
/// for a call. `None` exactly where it passes 64 bits. Takes no memory.
pub fn size(t: &Term) -> Option<u64>
    ensures fits { IfSome result (λ n. n ≡ term_size t.now) }
    ensures past { IfNone result (2 ^ 64 - 1 < term_size t.now) }
{
    let nodes = t.nodes_up_to();
    if nodes < u32::MAX {
        Some(u64::from(nodes))
    } else {
        walked_size(t)
    }
}

/// The same by a walk, for a term whose nodes pass 32 bits.
#[cycle(sizing)]
#[tactic(auto, using(crate::proofs::Seen::trees))]
fn walked_size(t: &Term) -> Option<u64>
    ensures fits { IfSome result (λ n. n ≡ term_size t.now) }
    ensures past { IfNone result (2 ^ 64 - 1 < term_size t.now) }
{
    match &t.shape {
        Shape::Var(_) => Some(1),
        Shape::Quote(v) => nodes(v),
        Shape::Call(_, xs) => sizes(xs.as_slice())?.checked_add(1),
    }
}

#[cycle(sizing)]
fn sizes(xs: &[Term]) -> Option<u64>
    ensures fits { IfSome result (λ n. n ≡ sum_of (map term_size xs.now)) }
    ensures past { IfNone result (2 ^ 64 - 1 < sum_of (map term_size xs.now)) }
{
    let mut total = 0u64;
    for x in xs {
        total = total.checked_add(walked_size(x)?)?;
    }
    Some(total)
}

/// The law of the test of equality that definitions choose by: it is true of two terms exactly where they
/// are one. It does nothing.
pub fn equality_of_terms()
    ensures { (a b : Term) → (term_eq a b ≡ true) ↔ (a ≡ b) }
{}
