ghost use Rattle.std.specs.Prelude.{◌≡◌, ◌↔◌, [], IfOk, IsTrue};
ghost use Rattle.ap_world.specs.Recursion.{args_eq};
ghost use Rattle.ap_strategy.specs.Steps.{is_repeated, unrepeated, is_alone};

use ap_list::{NoMemory, Seq};
use ap_term::{Clause, Term, copy_term, copy_terms, same_term};
use std::alloc::Global;

/// Whether two lists of terms are one. Takes no memory.
pub(crate) fn same_terms(a: &[Term], b: &[Term]) -> bool
    ensures { IsTrue result ↔ (a.now ≡ b.now) }
{
    if a.len() != b.len() {
        return false;
    }
    for i in 0..a.len() {
        if !same_term(&a[i], &b[i]) {
            return false;
        }
    }
    true
}

/// Whether two clauses are one, as the test that definitions choose by. Takes no memory.
fn is_same_clause(a: &Clause, b: &Clause) -> bool
    ensures { result ≡ args_eq a.now.0 b.now.0 }
{
    same_terms(a.0.as_slice(), b.0.as_slice())
}

/// A copy of a clause.
pub fn copy_clause(alloc: Global, c: &Clause) -> Result<Clause, NoMemory>
    ensures { IfOk result (λ d. d ≡ c.now) }
{
    Ok(Clause(copy_terms(alloc, c.0.as_slice())?))
}

/// Copies of clauses, in their order.
pub(crate) fn copy_clauses(alloc: Global, clauses: &[Clause]) -> Result<Seq<Clause>, NoMemory>
    ensures { IfOk result (λ ds. ds ≡ clauses.now) }
{
    let mut out = Seq::new(alloc);
    for c in clauses {
        out.push(copy_clause(alloc, c)?)?;
    }
    Ok(out)
}

/// A copy of a term, where there is one.
pub(crate) fn copy_scheme(alloc: Global, scheme: &Option<Term>) -> Result<Option<Term>, NoMemory>
    ensures { IfOk result (λ s. s ≡ scheme.now) }
{
    match scheme {
        Some(term) => Ok(Some(copy_term(alloc, term)?)),
        None => Ok(None),
    }
}

/// Whether a clause is one of a list. Takes no memory.
fn is_repeated(clauses: &[Clause], c: &Clause) -> bool
    ensures { result ≡ is_repeated clauses.now c.now }
{
    for other in clauses {
        if is_same_clause(c, other) {
            return true;
        }
    }
    false
}

/// The clauses without later equal ones. They are moved.
pub(crate) fn without_repeats(alloc: Global, clauses: Seq<Clause>) -> Result<Seq<Clause>, NoMemory>
    ensures { IfOk result (λ cs. cs ≡ unrepeated [] clauses) }
{
    let mut out = Seq::new(alloc);
    for c in clauses.into_vec() {
        if !is_repeated(out.as_slice(), &c) {
            out.push(c)?;
        }
    }
    Ok(out)
}

/// Whether clauses are one clause alone. Takes no memory.
pub(crate) fn is_alone(c: &Clause, clauses: &[Clause]) -> bool
    ensures { result ≡ is_alone c.now clauses.now }
{
    match clauses {
        [d] => is_same_clause(c, d),
        _ => false,
    }
}
