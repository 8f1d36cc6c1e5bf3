ghost use Rattle.std.specs.Prelude.{◌≡◌, ◌↔◌, [], ◌∷◌, IfOk, IsErrOf, IsTrue, None, Some, map, zip};
ghost use Rattle.std.specs.Option.{option_map};
ghost use Rattle.ap_list.specs.Lists.{all_true};
ghost use Rattle.ap_world.specs.Recursion.{count_of, is_changed, suits, chosen_measure, measure_of};
ghost use Rattle.ap_terminate.specs.Refusals.{is_nested, is_well_formed, has_bad_measure, lacks_measure};

use crate::cases::is_unnested;
use ap_kernel::{is_changed, mentions};
use ap_list::{NoMemory, Seq};
use ap_term::{Shape, Term, copy_terms};
use ap_value::{Fixed, Symbol, copy_symbol, named};
use ap_world::{Case, Defun, Measure, World};
use std::alloc::{AllocError, Global};

/// Why a recursive definition has no measure.
#[derive(Clone, Copy, Debug)]
pub enum TerminateError {
    /// No measure is given, and none can be chosen.
    NoMeasure,
    /// A test that tells cases apart, or an argument of a call of the function, has a call of the function.
    NestedRecursion,
    /// The given measure has no component, or more than four.
    BadMeasure,
    NoMemory,
}

impl From<AllocError> for TerminateError {
    ghost use Rattle.std.specs.Prelude.{◌≡◌};
    ghost use Rattle.ap_terminate.specs.declared.measures.TerminateError.TheVariants.{NoMemory};

    ghost from_gives = { λ _ e. e ≡ NoMemory };

    fn from(_error: AllocError) -> TerminateError {
        TerminateError::NoMemory
    }
}

/// Whether each of some calls changes a formal. Takes no memory.
fn each_changes(x: &Symbol, formals: &[Symbol], calls: &[Seq<Term>]) -> bool
    ensures { result ≡ all_true (map (λ c. is_changed x.now (zip formals.now c)) calls.now) }
{
    for call in calls {
        if !is_changed(x, formals, call.as_slice()) {
            return false;
        }
    }
    true
}

/// Whether a case has no call, or a test of it mentions the formal and each call changes it. Takes no
/// memory.
fn suits(formals: &[Symbol], x: &Symbol, case: &Case) -> bool
    ensures { result ≡ suits formals.now x.now case.now }
{
    let calls = case.calls.as_slice();
    match calls {
        [] => true,
        _ => mentions(x, case.tests.as_slice()) && each_changes(x, formals, calls),
    }
}

/// Whether the formal suits each of some cases. Takes no memory.
fn suits_each(formals: &[Symbol], x: &Symbol, cases: &[Case]) -> bool
    ensures { result ≡ all_true (map (suits formals.now x.now) cases.now) }
{
    for case in cases {
        if !suits(formals, x, case) {
            return false;
        }
    }
    true
}

/// The first formal that suits every case, whose count is the chosen measure. Takes no memory.
fn chosen<'a>(formals: &'a [Symbol], cases: &[Case]) -> Option<&'a Symbol>
    ensures { option_map (λ x. count_of x.now ∷ []) result ≡ chosen_measure formals.now cases.now }
{
    for x in formals {
        if suits_each(formals, x, cases) {
            return Some(x);
        }
    }
    None
}

/// `(acl2-count x)`
#[tactic(auto, unfolding(ap_world::specs::Names::acl2_count_name))]
fn count_term(alloc: Global, x: &Symbol) -> Result<Term, NoMemory>
    ensures { IfOk result (λ u. u ≡ count_of x.now) }
{
    let mut arguments = Seq::new(alloc);
    arguments.push(Term::var(copy_symbol(alloc, x)?))?;
    Term::call(alloc, named(Fixed::Acl2Count), arguments)
}

/// The measure that is the count of a formal.
fn count_measure(alloc: Global, x: &Symbol) -> Result<Measure, NoMemory>
    ensures { IfOk result (λ m. m.0 ≡ count_of x.now ∷ []) }
{
    let mut components = Seq::new(alloc);
    components.push(count_term(alloc, x)?)?;
    Ok(Measure(components))
}

/// Whether a measure has one to four components. Takes no memory.
fn is_well_formed(m: &Measure) -> bool
    ensures { result ≡ is_well_formed m.now }
{
    let count = m.0.len();
    1 <= count && count <= 4
}

/// The measure of a recursive definition, whose cases are those of its body: the given one, where it has one
/// to four components, or else the count of the first formal that in each case with calls a test mentions
/// and each call changes. `NestedRecursion` exactly where the recursion is nested, then `BadMeasure` exactly
/// where the given measure has another number of components, then `NoMeasure` exactly where no measure is
/// given and no formal suits; other errors are want of memory. See the manual's topic `measure`.
pub fn measure_for(alloc: Global, _w: &World, d: &Defun) -> Result<Measure, TerminateError>
    ensures made { IfOk result (λ m. measure_of d.now ≡ Some m.0) }
    ensures nested { IsErrOf result TerminateError.NestedRecursion ↔ IsTrue (is_nested d.now) }
    ensures bad { IsErrOf result TerminateError.BadMeasure ↔ IsTrue (has_bad_measure d.now) }
    ensures none { IsErrOf result TerminateError.NoMeasure ↔ IsTrue (lacks_measure d.now) }
{
    if !is_unnested(&d.name, &d.body) {
        return Err(TerminateError::NestedRecursion);
    }
    if let Some(given) = &d.measure {
        if !is_well_formed(given) {
            return Err(TerminateError::BadMeasure);
        }
        return Ok(Measure(copy_terms(alloc, given.0.as_slice())?));
    }
    match chosen(d.formals.as_slice(), d.cases.as_slice()) {
        Some(x) => Ok(count_measure(alloc, x)?),
        None => Err(TerminateError::NoMeasure),
    }
}
