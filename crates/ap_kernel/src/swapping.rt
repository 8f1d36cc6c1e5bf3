ghost use Rattle.std.specs.Prelude.{◌≡◌, IfOk, map};
ghost use Rattle.std.specs.Option.{option_copied};
ghost use Rattle.ap_list.specs.Lists.{lookup_by};
ghost use Rattle.ap_term.specs.Equal.{term_eq};
ghost use Rattle.ap_kernel.specs.Solving.{any_true};
ghost use Rattle.ap_kernel.specs.Swapping.{swapped, is_part};

use ap_list::{NoMemory, Seq};
use ap_term::{Shape, Term, copy_term, is_same};
use ap_value::copy_symbol;
use std::alloc::Global;

/// What a term is replaced by: the first pair of it counts. Takes no memory.
fn other_of<'a>(pairs: &'a [(Term, Term)], t: &Term) -> Option<&'a Term>
    ensures { option_copied result ≡ lookup_by term_eq pairs.now t.now }
{
    for (u, by) in pairs {
        if is_same(t, u) {
            return Some(by);
        }
    }
    None
}

/// A term in which each part that is the first of a pair becomes the second of the first such pair, the
/// outermost parts first. The time is linear in the term's size for pairs that are given. What isn't changed
/// within a call that is, is shared.
#[cycle(swapping)]
#[tactic(auto, using(ap_term::proofs::Seen::trees))]
pub(crate) fn swapped(alloc: Global, pairs: &[(Term, Term)], t: &Term) -> Result<Term, NoMemory>
    ensures { IfOk result (λ u. u ≡ swapped pairs.now t.now) }
{
    if let Some(by) = other_of(pairs, t) {
        return copy_term(alloc, by);
    }
    match &t.shape {
        Shape::Var(_) => copy_term(alloc, t),
        Shape::Quote(_) => copy_term(alloc, t),
        Shape::Call(f, ts) => {
            let parts = swapped_all(alloc, pairs, ts.as_slice())?;
            Term::call(alloc, copy_symbol(alloc, f)?, parts)
        }
    }
}

/// The same of each of some terms, in their order.
#[cycle(swapping)]
pub(crate) fn swapped_all(
    alloc: Global,
    pairs: &[(Term, Term)],
    ts: &[Term],
) -> Result<Seq<Term>, NoMemory>
    ensures { IfOk result (λ us. us ≡ map (swapped pairs.now) ts.now) }
{
    let mut out = Seq::new(alloc);
    for t in ts {
        out.push(swapped(alloc, pairs, t)?)?;
    }
    Ok(out)
}

/// Whether the second term is the first one or a part of it; constants have no parts. Takes no memory.
#[cycle(finding)]
#[tactic(auto, using(ap_term::proofs::Seen::trees))]
pub fn contains(u: &Term, t: &Term) -> bool
    ensures { result ≡ is_part t.now u.now }
{
    if is_same(t, u) {
        return true;
    }
    match &u.shape {
        Shape::Var(_) => false,
        Shape::Quote(_) => false,
        Shape::Call(_, us) => some_contains(us.as_slice(), t),
    }
}

/// Whether one of some terms contains a term. Takes no memory.
#[cycle(finding)]
pub fn some_contains(us: &[Term], t: &Term) -> bool
    ensures { result ≡ any_true (map (is_part t.now) us.now) }
{
    for u in us {
        if contains(u, t) {
            return true;
        }
    }
    false
}
