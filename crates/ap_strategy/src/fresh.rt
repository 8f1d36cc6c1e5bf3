// Copies that share no count of owners with what they were made from.
ghost use Rattle.std.specs.Prelude.{◌≡◌, [], IfOk, OnOk};

use crate::clauses::copy_clause;
use ap_list::{NoMemory, Seq};
use ap_term::{Clause, Shape, Term, copy_term};
use ap_value::copy_symbol;
use std::alloc::Global;

/// The most calls that are copied for one clause: below them parts are shared, so that the copy of a term whose parts
/// stand in it many times stays small.
const MOST_CALLS: u32 = 4096;

/// A copy of a term, of whose calls so many may be made anew.
#[cycle(renewing)]
#[tactic(auto, using(ap_term::proofs::Seen::trees))]
fn fresh_term(alloc: Global, t: &Term, calls: &mut u32) -> Result<Term, NoMemory>
    ensures { IfOk result (λ r. r ≡ t.now) }
{
    if *calls == 0 {
        return copy_term(alloc, t);
    }
    match &t.shape {
        Shape::Call(f, ts) => {
            *calls = *calls - 1;
            let arguments = fresh_terms(alloc, ts.as_slice(), calls)?;
            Term::call(alloc, copy_symbol(alloc, f)?, arguments)
        }
        _ => copy_term(alloc, t),
    }
}

/// The same of terms, in their order.
#[cycle(renewing)]
fn fresh_terms(alloc: Global, ts: &[Term], calls: &mut u32) -> Result<Seq<Term>, NoMemory>
    ensures { IfOk result (λ rs. rs ≡ ts.now) }
{
    let mut out = Seq::new(alloc);
    for t in ts {
        out.push(fresh_term(alloc, t, calls)?)?;
    }
    Ok(out)
}

/// A copy of a clause whose calls are its own: threads that work on clauses with the same parts would wait for each
/// other at the counts of owners of these. The only error is want of memory.
fn fresh_clause(alloc: Global, c: &Clause) -> Result<Clause, NoMemory>
    ensures { IfOk result (λ d. d ≡ c.now) }
{
    let mut calls = MOST_CALLS;
    Ok(Clause(fresh_terms(alloc, c.0.as_slice(), &mut calls)?))
}

/// A copy of a clause that shares its calls with it, or else has its own. The only error is want of memory.
pub(crate) fn own_clause(alloc: Global, c: &Clause, shares: bool) -> Result<Clause, NoMemory>
    ensures { IfOk result (λ d. d ≡ c.now) }
{
    if shares {
        return copy_clause(alloc, c);
    }
    fresh_clause(alloc, c)
}
