ghost use Rattle.std.specs.Prelude.{◌≡◌, [], IfOk, map, nat_eq, zip};
ghost use Rattle.ap_list.specs.Lists.{is_among};
ghost use Rattle.ap_value.specs.Values.{symbol_eq};
ghost use Rattle.ap_term.specs.declared.term.Term.TheVariants.{Var};
ghost use Rattle.ap_term.specs.Equal.{term_eq};
ghost use Rattle.ap_term.specs.Terms.{vars_after};
ghost use Rattle.ap_world.specs.Recursion.{mentions, is_changed};
ghost use Rattle.ap_kernel.specs.Induction.{any_true, count_true, occurs, changes, is_led, follows, place_of, places_of};

use crate::solving::occurs;
use ap_list::{NoMemory, Seq};
use ap_term::{Shape, Term, copy_term, is_symbol};
use ap_value::{Symbol, copy_symbol};
use ap_world::{Case, Function};
use std::alloc::Global;

/// A formal, what a call has there, whether that is a variable that an induction replaces, and whether the
/// measure mentions the formal.
#[derive(Drop)]
pub struct Place {
    pub formal: Symbol,
    pub actual: Term,
    pub is_moved: bool,
    pub is_measured: bool,
}

/// Whether a variable is one of a term's. Takes no memory.
#[tactic(auto, using(crate::proofs::Mentioned::occurs_among))]
fn is_mentioned(x: &Symbol, t: &Term) -> bool
    ensures { result ≡ is_among symbol_eq x.now (vars_after t.now []) }
{
    occurs(x, t)
}

/// Whether a variable is one of some terms'. Takes no memory.
pub fn mentions(x: &Symbol, terms: &[Term]) -> bool
    ensures { result ≡ mentions x.now terms.now }
{
    for t in terms {
        if is_mentioned(x, t) {
            return true;
        }
    }
    false
}

/// Whether a term is a variable of this name. Takes no memory.
#[tactic(auto, using(ap_term::proofs::Seen::trees, crate::proofs::Mentioned::comparing))]
fn is_the_variable(t: &Term, x: &Symbol) -> bool
    ensures { result ≡ term_eq t.now (Var x.now) }
{
    match &t.shape {
        Shape::Var(y) => is_symbol(y, x),
        Shape::Quote(_) => false,
        Shape::Call(_, _) => false,
    }
}

/// Whether a call has something else than a formal itself at the formal's place. Takes no memory.
pub fn is_changed(x: &Symbol, formals: &[Symbol], arguments: &[Term]) -> bool
    ensures { result ≡ is_changed x.now (zip formals.now arguments.now) }
{
    let mut left = formals;
    let mut values = arguments;
    while let [formal, rest @ ..] = left {
        let [value, more @ ..] = values else {
            return false;
        };
        if is_symbol(x, formal) {
            return !is_the_variable(value, x);
        }
        left = rest;
        values = more;
    }
    false
}

/// Whether one of some calls changes a formal. Takes no memory.
fn some_changes(x: &Symbol, formals: &[Symbol], calls: &[Seq<Term>]) -> bool
    ensures { result ≡ any_true (map (λ c. is_changed x.now (zip formals.now c)) calls.now) }
{
    for call in calls {
        if is_changed(x, formals, call.as_slice()) {
            return true;
        }
    }
    false
}

/// Whether a call of one of some cases changes a formal. Takes no memory.
fn changes(formals: &[Symbol], cases: &[Case], x: &Symbol) -> bool
    ensures { result ≡ any_true (map (λ k. any_true (map (λ c. is_changed x.now (zip formals.now c)) k.calls)) cases.now) }
{
    for case in cases {
        if some_changes(x, formals, case.calls.as_slice()) {
            return true;
        }
    }
    false
}

/// Whether the measure mentions a formal that some call changes. Takes no memory.
pub fn is_led(function: &Function, measure: &[Term], x: &Symbol) -> bool
    ensures { result ≡ is_led function.now.formals measure.now function.now.cases x.now }
{
    mentions(x, measure) && changes(function.formals.as_slice(), function.cases.as_slice(), x)
}

/// Whether a variable is that of one of some terms alone. Takes no memory.
fn is_in_one(x: &Symbol, terms: &[Term]) -> bool
    ensures { result ≡ nat_eq (count_true (map (occurs x.now) terms.now)) 1 }
{
    let mut count: usize = 0;
    for t in terms {
        if occurs(x, t) {
            count += 1;
        }
    }
    count == 1
}

/// Whether a formal that some call changes has a variable as its actual that no other actual has. Takes no
/// memory.
#[tactic(auto, using(ap_term::proofs::Seen::trees))]
fn follows(
    function: &Function,
    measure: &[Term],
    actuals: &[Term],
    x: &Symbol,
    actual: &Term,
) -> bool
    ensures { result ≡ follows function.now.formals measure.now function.now.cases actuals.now (x.now, actual.now) }
{
    if !changes(function.formals.as_slice(), function.cases.as_slice(), x) {
        return false;
    }
    match &actual.shape {
        Shape::Var(y) => is_in_one(y, actuals),
        Shape::Quote(_) => false,
        Shape::Call(_, _) => false,
    }
}

/// The place of a formal.
fn place_of(
    alloc: Global,
    function: &Function,
    measure: &[Term],
    actuals: &[Term],
    x: &Symbol,
    actual: &Term,
) -> Result<Place, NoMemory>
    ensures { IfOk result (λ p. p ≡ place_of function.now.formals measure.now function.now.cases actuals.now (x.now, actual.now)) }
{
    let is_moved = is_led(function, measure, x) || follows(function, measure, actuals, x, actual);
    let is_measured = mentions(x, measure);
    Ok(Place {
        formal: copy_symbol(alloc, x)?,
        actual: copy_term(alloc, actual)?,
        is_moved,
        is_measured,
    })
}

/// The places of a function's formals in its call on these actuals.
pub(crate) fn places_of(
    alloc: Global,
    function: &Function,
    measure: &[Term],
    actuals: &[Term],
) -> Result<Seq<Place>, NoMemory>
    ensures { IfOk result (λ ps. ps ≡ places_of function.now.formals measure.now function.now.cases actuals.now) }
{
    let mut left = function.formals.as_slice();
    let mut values = actuals;
    let mut out = Seq::new(alloc);
    while let [x, rest @ ..] = left {
        let [actual, more @ ..] = values else {
            return Ok(out);
        };
        out.push(place_of(alloc, function, measure, actuals, x, actual)?)?;
        left = rest;
        values = more;
    }
    Ok(out)
}
