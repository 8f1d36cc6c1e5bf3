ghost use Rattle.std.specs.Prelude.{◌≡◌, ◌↔◌, ◌<◌, IsTrue, length, slice_get};
ghost use Rattle.ap_world.specs.Alike.{SameFunction, SameButMask};

use crate::entry::{Case, Entry, Function, Measure, RuleClass, Theorem};
use crate::theory::{Rune, Theory, same_rune};
use crate::world::World;
use ap_list::Seq;
use ap_term::{Term, same_term, same_terms};
use ap_value::{Symbol, same, same_symbol};

/// Whether two lists of symbols are one. Takes no memory.
fn same_symbols(a: &[Symbol], b: &[Symbol]) -> bool
    ensures { IsTrue result ↔ (a.now ≡ b.now) }
{
    if a.len() != b.len() {
        return false;
    }
    for i in 0..a.len() {
        if !same_symbol(&a[i], &b[i]) {
            return false;
        }
    }
    true
}

/// Whether two lists of lists of terms are one. Takes no memory.
fn same_calls(a: &[Seq<Term>], b: &[Seq<Term>]) -> bool
    ensures { IsTrue result ↔ (a.now ≡ b.now) }
{
    if a.len() != b.len() {
        return false;
    }
    for i in 0..a.len() {
        if !same_terms(a[i].as_slice(), b[i].as_slice()) {
            return false;
        }
    }
    true
}

/// Whether two cases are one. Takes no memory.
fn same_case(a: &Case, b: &Case) -> bool
    ensures { IsTrue result ↔ (a.now ≡ b.now) }
{
    same_terms(a.tests.as_slice(), b.tests.as_slice())
        && same_calls(a.calls.as_slice(), b.calls.as_slice())
}

/// Whether two lists of cases are one. Takes no memory.
fn same_cases(a: &[Case], b: &[Case]) -> bool
    ensures { IsTrue result ↔ (a.now ≡ b.now) }
{
    if a.len() != b.len() {
        return false;
    }
    for i in 0..a.len() {
        if !same_case(&a[i], &b[i]) {
            return false;
        }
    }
    true
}

/// Whether two measures are one, or neither is there. Takes no memory.
fn same_measure(a: &Option<Measure>, b: &Option<Measure>) -> bool
    ensures { IsTrue result ↔ (a.now ≡ b.now) }
{
    match (a, b) {
        (None, None) => true,
        (Some(Measure(a)), Some(Measure(b))) => same_terms(a.as_slice(), b.as_slice()),
        _ => false,
    }
}

/// Whether two functions are one, whatever their masks. Takes no memory.
fn same_but_mask(a: &Function, b: &Function) -> bool
    ensures { IsTrue result ↔ SameFunction a.now b.now }
{
    same_symbol(&a.name, &b.name)
        && same_symbols(a.formals.as_slice(), b.formals.as_slice())
        && same_term(&a.body, &b.body)
        && same_measure(&a.measure, &b.measure)
        && same_cases(a.cases.as_slice(), b.cases.as_slice())
}

/// Whether two functions are one. Takes no memory.
fn same_function(a: &Function, b: &Function) -> bool
    ensures { IsTrue result ↔ (a.now ≡ b.now) }
{
    a.mask.0 == b.mask.0 && same_but_mask(a, b)
}

/// Whether two rule classes are one. Takes no memory.
fn same_class(a: RuleClass, b: RuleClass) -> bool
    ensures { IsTrue result ↔ (a ≡ b) }
{
    match (a, b) {
        (RuleClass::Rewrite, RuleClass::Rewrite) => true,
        (RuleClass::Linear, RuleClass::Linear) => true,
        (RuleClass::TypePrescription, RuleClass::TypePrescription) => true,
        (RuleClass::Elim, RuleClass::Elim) => true,
        _ => false,
    }
}

/// Whether two lists of rule classes are one. Takes no memory.
fn same_classes(a: &[RuleClass], b: &[RuleClass]) -> bool
    ensures { IsTrue result ↔ (a.now ≡ b.now) }
{
    if a.len() != b.len() {
        return false;
    }
    for i in 0..a.len() {
        if !same_class(a[i], b[i]) {
            return false;
        }
    }
    true
}

/// Whether two theorems are one. Takes no memory.
fn same_theorem(a: &Theorem, b: &Theorem) -> bool
    ensures { IsTrue result ↔ (a.now ≡ b.now) }
{
    same_symbol(&a.name, &b.name)
        && same_term(&a.term, &b.term)
        && same_classes(a.classes.as_slice(), b.classes.as_slice())
}

/// Whether two entries are one. Takes no memory.
pub fn same_entry(a: &Entry, b: &Entry) -> bool
    ensures { IsTrue result ↔ (a.now ≡ b.now) }
{
    match (a, b) {
        (Entry::Function(f), Entry::Function(g)) => same_function(f, g),
        (Entry::Theorem(t), Entry::Theorem(u)) => same_theorem(t, u),
        (Entry::Constant(x, v), Entry::Constant(y, w)) => same_symbol(x, y) && same(v, w),
        _ => false,
    }
}

/// Whether two entries are one, but that two functions may have different masks. Takes no memory.
pub fn alike_entry(a: &Entry, b: &Entry) -> bool
    ensures { IsTrue result ↔ SameButMask a.now b.now }
{
    match (a, b) {
        (Entry::Function(f), Entry::Function(g)) => same_but_mask(f, g),
        (Entry::Theorem(t), Entry::Theorem(u)) => same_theorem(t, u),
        (Entry::Constant(x, v), Entry::Constant(y, w)) => same_symbol(x, y) && same(v, w),
        _ => false,
    }
}

/// Whether two lists of runes are one. Takes no memory.
fn same_runes(a: &[Rune], b: &[Rune]) -> bool
    ensures { IsTrue result ↔ (a.now ≡ b.now) }
{
    if a.len() != b.len() {
        return false;
    }
    for i in 0..a.len() {
        if !same_rune(&a[i], &b[i]) {
            return false;
        }
    }
    true
}

/// Whether two theories are one. Takes no memory.
pub fn same_theory(a: &Theory, b: &Theory) -> bool
    ensures { IsTrue result ↔ (a.now ≡ b.now) }
{
    same_runes(a.disabled(), b.disabled())
}

/// Whether two lists of entries are one. Takes no memory.
fn same_entries(a: &[Entry], b: &[Entry]) -> bool
    ensures { IsTrue result ↔ (a.now ≡ b.now) }
{
    if a.len() != b.len() {
        return false;
    }
    for i in 0..a.len() {
        if !same_entry(&a[i], &b[i]) {
            return false;
        }
    }
    true
}

/// Whether two worlds are one: the same entries in the same order, and the same theory. Takes no memory.
pub fn same_world(a: &World, b: &World) -> bool
    ensures { IsTrue result ↔ (a.now ≡ b.now) }
{
    same_theory(a.theory(), b.theory()) && same_entries(a.entries(), b.entries())
}
