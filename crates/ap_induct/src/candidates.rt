ghost use Rattle.std.specs.Prelude.{◌≡◌, ◌++◌, IfOk, None, OnOk, cond, map, zip};
ghost use Rattle.ap_list.specs.Lists.{all_true};
ghost use Rattle.ap_term.specs.declared.term.Term.{out-Term};
ghost use Rattle.ap_world.specs.declared.theory.RuneKind.TheVariants.{Induction};
ghost use Rattle.ap_world.specs.Theories.{rune_of, is_enabled};
ghost use Rattle.ap_world.specs.World.{function_of};
ghost use Rattle.ap_kernel.specs.Induction.{led_names, is_apart, fits, is_candidate, is_variable};
ghost use Rattle.ap_induct.specs.Choosing.{replaced_by, function_replaces, replaces, with_names, candidates};

use crate::counting::are_few;
use crate::symbols::{is_apart, is_distinct};
use ap_kernel::{is_led, mentions, variable_of};
use ap_list::{NoMemory, Seq};
use ap_term::{Shape, Term, copy_term, vars};
use ap_value::Symbol;
use ap_world::{Function, RuneKind, Theory, World};
use std::alloc::Global;

/// The variables of the actuals of formals that the measure mentions and some call changes.
fn led_names(
    alloc: Global,
    function: &Function,
    measure: &[Term],
    actuals: &[Term],
) -> Result<Seq<Symbol>, NoMemory>
    ensures { IfOk result (λ xs. xs ≡ led_names function.now.formals measure.now function.now.cases (zip function.now.formals actuals.now)) }
{
    let mut left = function.formals.as_slice();
    let mut values = actuals;
    let mut out = Seq::new(alloc);
    while let [x, rest @ ..] = left {
        let [actual, more @ ..] = values else {
            return Ok(out);
        };
        if is_led(function, measure, x) {
            out.push(variable_of(alloc, actual)?)?;
        }
        left = rest;
        values = more;
    }
    Ok(out)
}

/// Whether a term is a variable. Takes no memory.
#[tactic(auto, using(ap_term::proofs::Seen::trees))]
fn is_variable(t: &Term) -> bool
    ensures { result ≡ is_variable t.now }
{
    match &t.shape {
        Shape::Var(_) => true,
        Shape::Quote(_) => false,
        Shape::Call(_, _) => false,
    }
}

/// Whether no variable of a term is one of some names.
fn has_none(alloc: Global, names: &[Symbol], t: &Term) -> Result<bool, NoMemory>
    ensures { IfOk result (λ b. b ≡ is_apart names.now t.now) }
{
    let found = vars(alloc, t)?;
    Ok(is_apart(found.as_slice(), names))
}

/// Whether a formal and its actual have a candidate's conditions.
fn fits(
    alloc: Global,
    function: &Function,
    measure: &[Term],
    names: &[Symbol],
    x: &Symbol,
    actual: &Term,
) -> Result<bool, NoMemory>
    ensures { IfOk result (λ b. b ≡ fits function.now.formals measure.now function.now.cases names.now (x.now, actual.now)) }
{
    if is_led(function, measure, x) {
        return Ok(is_variable(actual));
    }
    if !mentions(x, measure) {
        return Ok(true);
    }
    has_none(alloc, names, actual)
}

/// Whether each formal and its actual do.
fn all_fit(
    alloc: Global,
    function: &Function,
    measure: &[Term],
    names: &[Symbol],
    actuals: &[Term],
) -> Result<bool, NoMemory>
    ensures { IfOk result (λ b. b ≡ all_true (map (fits function.now.formals measure.now function.now.cases names.now) (zip function.now.formals actuals.now))) }
{
    let mut left = function.formals.as_slice();
    let mut values = actuals;
    while let [x, rest @ ..] = left {
        let [actual, more @ ..] = values else {
            return Ok(true);
        };
        if !fits(alloc, function, measure, names, x, actual)? {
            return Ok(false);
        }
        left = rest;
        values = more;
    }
    Ok(true)
}

/// Whether a call of a function on these actuals has a candidate's conditions.
fn is_candidate(
    alloc: Global,
    function: &Function,
    measure: &[Term],
    names: &[Symbol],
    actuals: &[Term],
) -> Result<bool, NoMemory>
    requires { names.now ≡ led_names function.now.formals measure.now function.now.cases (zip function.now.formals actuals.now) }
    ensures { IfOk result (λ b. b ≡ is_candidate function.now.formals measure.now function.now.cases actuals.now) }
{
    if function.formals.len() != actuals.len() {
        return Ok(false);
    }
    if !all_fit(alloc, function, measure, names, actuals)? {
        return Ok(false);
    }
    Ok(is_distinct(names))
}

/// The measured variables that an induction by a call of a recursive function replaces, where the call is a
/// candidate.
fn replaced_by(
    alloc: Global,
    function: &Function,
    literals: usize,
    actuals: &[Term],
) -> Result<Option<Seq<Symbol>>, NoMemory>
    ensures { IfOk result (λ o. o ≡ replaced_by function.now function.now.measure literals actuals.now) }
{
    let Some(measure) = &function.measure else {
        return Ok(None);
    };
    let names = led_names(alloc, function, measure.0.as_slice(), actuals)?;
    if !is_candidate(
        alloc,
        function,
        measure.0.as_slice(),
        names.as_slice(),
        actuals,
    )? {
        return Ok(None);
    }
    if !are_few(literals, function.cases.as_slice()) {
        return Ok(None);
    }
    Ok(Some(names))
}

/// The same by the name of a function, where its induction rune is enabled.
fn replaces_by(
    alloc: Global,
    w: &World,
    theory: &Theory,
    literals: usize,
    f: &Symbol,
    actuals: &[Term],
) -> Result<Option<Seq<Symbol>>, NoMemory>
    ensures { IfOk result (λ o. o ≡ cond (is_enabled theory.now (rune_of Induction f.now)) (function_replaces (function_of w.now.entries f.now) literals actuals.now) None) }
{
    if !theory.is_enabled(RuneKind::Induction, f) {
        return Ok(None);
    }
    match w.lookup_fun(f) {
        Some(function) => replaced_by(alloc, function, literals, actuals),
        None => Ok(None),
    }
}

/// The same of a term, which may be a call.
#[tactic(auto, using(ap_term::proofs::Seen::trees))]
fn replaces(
    alloc: Global,
    w: &World,
    theory: &Theory,
    literals: usize,
    t: &Term,
) -> Result<Option<Seq<Symbol>>, NoMemory>
    ensures { IfOk result (λ o. o ≡ replaces (function_of w.now.entries) theory.now literals (out-Term t.now)) }
{
    match &t.shape {
        Shape::Call(f, actuals) => replaces_by(alloc, w, theory, literals, f, actuals.as_slice()),
        Shape::Var(_) => Ok(None),
        Shape::Quote(_) => Ok(None),
    }
}

/// Adds a term, and the variables that it replaces, where it is a candidate.
fn push_candidate(
    alloc: Global,
    w: &World,
    theory: &Theory,
    literals: usize,
    t: &Term,
    out: &mut Seq<(Term, Seq<Symbol>)>,
) -> Result<(), NoMemory>
    ensures { OnOk result (out.new ≡ out.old ++ with_names (function_of w.now.entries) theory.now literals t.now (replaces (function_of w.now.entries) theory.now literals (out-Term t.now))) }
{
    match replaces(alloc, w, theory, literals, t)? {
        Some(names) => out.push((copy_term(alloc, t)?, names)),
        None => Ok(()),
    }
}

/// The candidates of a list, in their order, each with the measured variables that it replaces.
pub(crate) fn candidates(
    alloc: Global,
    w: &World,
    theory: &Theory,
    literals: usize,
    calls: &[Term],
) -> Result<Seq<(Term, Seq<Symbol>)>, NoMemory>
    ensures { IfOk result (λ ps. ps ≡ candidates (function_of w.now.entries) theory.now literals calls.now) }
{
    let mut out = Seq::new(alloc);
    for t in calls {
        push_candidate(alloc, w, theory, literals, t, &mut out)?;
    }
    Ok(out)
}
