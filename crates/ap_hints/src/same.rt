//! Whether hints are one.
ghost use Rattle.std.specs.Prelude.{◌≡◌, ◌↔◌, IsTrue};

use crate::hint::{Hint, Hints};
use ap_names::same_name;
use ap_term::{Subst, Term, same_term, same_terms};
use ap_value::{Symbol, same_symbol};
use ap_walk::Process;
use ap_world::{Theory, same_theory};

/// Whether two lists of processes are one. Takes no memory.
fn same_processes(a: &[Process], b: &[Process]) -> bool
    ensures { IsTrue result ↔ (a.now ≡ b.now) }
{
    if a.len() != b.len() {
        return false;
    }
    for i in 0..a.len() {
        if a[i] != b[i] {
            return false;
        }
    }
    true
}

/// Whether a variable and what replaces it are one with another such pair. Takes no memory.
fn same_pair(a: &(Symbol, Term), b: &(Symbol, Term)) -> bool
    ensures { IsTrue result ↔ (a.now ≡ b.now) }
{
    same_symbol(&a.0, &b.0) && same_term(&a.1, &b.1)
}

/// Whether two lists of variables and what replaces them are one. Takes no memory.
fn same_pairs(a: &[(Symbol, Term)], b: &[(Symbol, Term)]) -> bool
    ensures { IsTrue result ↔ (a.now ≡ b.now) }
{
    if a.len() != b.len() {
        return false;
    }
    for i in 0..a.len() {
        if !same_pair(&a[i], &b[i]) {
            return false;
        }
    }
    true
}

/// Whether two uses of theorems are one. Takes no memory.
fn same_use(a: &(Symbol, Subst), b: &(Symbol, Subst)) -> bool
    ensures { IsTrue result ↔ (a.now ≡ b.now) }
{
    same_symbol(&a.0, &b.0) && same_pairs(a.1.0.as_slice(), b.1.0.as_slice())
}

/// Whether two lists of uses are one. Takes no memory.
fn same_uses(a: &[(Symbol, Subst)], b: &[(Symbol, Subst)]) -> bool
    ensures { IsTrue result ↔ (a.now ≡ b.now) }
{
    if a.len() != b.len() {
        return false;
    }
    for i in 0..a.len() {
        if !same_use(&a[i], &b[i]) {
            return false;
        }
    }
    true
}

/// Whether two theories are one, or neither is there. Takes no memory.
fn same_given_theory(a: &Option<Theory>, b: &Option<Theory>) -> bool
    ensures { IsTrue result ↔ (a.now ≡ b.now) }
{
    match (a, b) {
        (None, None) => true,
        (Some(a), Some(b)) => same_theory(a, b),
        _ => false,
    }
}

/// Whether two calls are one, or neither is there. Takes no memory.
fn same_scheme(a: &Option<Term>, b: &Option<Term>) -> bool
    ensures { IsTrue result ↔ (a.now ≡ b.now) }
{
    match (a, b) {
        (None, None) => true,
        (Some(a), Some(b)) => same_term(a, b),
        _ => false,
    }
}

/// Whether two hints are one. Takes no memory.
fn same_hint(a: &Hint, b: &Hint) -> bool
    ensures { IsTrue result ↔ (a.now ≡ b.now) }
{
    same_name(&a.goal, &b.goal)
        && same_given_theory(&a.theory, &b.theory)
        && same_terms(a.expand.as_slice(), b.expand.as_slice())
        && same_processes(a.skip.as_slice(), b.skip.as_slice())
        && same_uses(a.uses.as_slice(), b.uses.as_slice())
        && same_terms(a.cases.as_slice(), b.cases.as_slice())
        && same_scheme(&a.scheme, &b.scheme)
}

/// Whether two lists of hints are one. Takes no memory.
fn same_list(a: &[Hint], b: &[Hint]) -> bool
    ensures { IsTrue result ↔ (a.now ≡ b.now) }
{
    if a.len() != b.len() {
        return false;
    }
    for i in 0..a.len() {
        if !same_hint(&a[i], &b[i]) {
            return false;
        }
    }
    true
}

/// Whether the hints of two events are one. Takes no memory.
pub fn same_hints(a: &Hints, b: &Hints) -> bool
    ensures { IsTrue result ↔ (a.now ≡ b.now) }
{
    a.do_not_induct == b.do_not_induct && same_list(a.list.as_slice(), b.list.as_slice())
}
