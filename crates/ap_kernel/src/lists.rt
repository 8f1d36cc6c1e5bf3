ghost use Rattle.std.specs.Prelude.{◌≡◌, ◌∷◌, [], IfOk};

use ap_list::{NoMemory, Seq};
use ap_term::{Clause, Term, copy_term};
use ap_value::{Symbol, copy_symbol};
use std::alloc::Global;

/// The list of one term, which is moved.
pub(crate) fn one(alloc: Global, a: Term) -> Result<Seq<Term>, NoMemory>
    ensures { IfOk result (λ ts. ts ≡ a ∷ []) }
{
    let items = Vec::from_array(alloc, [a])?;
    Ok(Seq::from_vec(items))
}

/// The list of two terms, which are moved.
pub(crate) fn two(alloc: Global, a: Term, b: Term) -> Result<Seq<Term>, NoMemory>
    ensures { IfOk result (λ ts. ts ≡ a ∷ b ∷ []) }
{
    let items = Vec::from_array(alloc, [a, b])?;
    Ok(Seq::from_vec(items))
}

/// The list of three terms, which are moved.
pub(crate) fn three(alloc: Global, a: Term, b: Term, c: Term) -> Result<Seq<Term>, NoMemory>
    ensures { IfOk result (λ ts. ts ≡ a ∷ b ∷ c ∷ []) }
{
    let items = Vec::from_array(alloc, [a, b, c])?;
    Ok(Seq::from_vec(items))
}

/// The list of one pair of terms, which are moved.
pub(crate) fn one_pair(alloc: Global, a: Term, b: Term) -> Result<Seq<(Term, Term)>, NoMemory>
    ensures { IfOk result (λ ps. ps ≡ (a, b) ∷ []) }
{
    let items = Vec::from_array(alloc, [(a, b)])?;
    Ok(Seq::from_vec(items))
}

/// The list of one clause, which is moved.
pub(crate) fn one_clause(alloc: Global, c: Clause) -> Result<Seq<Clause>, NoMemory>
    ensures { IfOk result (λ cs. cs ≡ c ∷ []) }
{
    let items = Vec::from_array(alloc, [c])?;
    Ok(Seq::from_vec(items))
}

/// The list of two clauses, which are moved.
pub(crate) fn two_clauses(alloc: Global, c: Clause, d: Clause) -> Result<Seq<Clause>, NoMemory>
    ensures { IfOk result (λ cs. cs ≡ c ∷ d ∷ []) }
{
    let items = Vec::from_array(alloc, [c, d])?;
    Ok(Seq::from_vec(items))
}

/// A variable and what stands for it, copied.
pub(crate) fn copied_pair(alloc: Global, x: &Symbol, t: &Term) -> Result<(Symbol, Term), NoMemory>
    ensures { IfOk result (λ p. p ≡ (x.now, t.now)) }
{
    let name = copy_symbol(alloc, x)?;
    let value = copy_term(alloc, t)?;
    Ok((name, value))
}
