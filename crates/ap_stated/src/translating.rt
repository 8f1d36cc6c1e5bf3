//! The parts of a definition as terms.
ghost use Rattle.std.specs.Prelude.{◌≡◌, [], IfOk, IfSome, IsTrue, OnOk, OnErr, Ok, Some, false, option_map};
ghost use Rattle.ap_list.specs.Lists.{Each, is_distinct};
ghost use Rattle.ap_value.specs.Values.{symbol_eq};
ghost use Rattle.ap_world.specs.declared.entry.Entry.TheVariants as entry;
ghost use Rattle.ap_world.specs.Sound.{known, speaks_of, components, HasFunctions, Sound};
ghost use Rattle.ap_world.specs.World.{added, function_of, has_name};
ghost use Rattle.ap_translate.specs.Answers.{Gives};
ghost use Rattle.ap_translate.specs.Laws.{HasMacroFunctions};
ghost use Rattle.ap_translate.specs.Names.{can_be_bound};
ghost use Rattle.ap_translate.specs.Table.{translated};
ghost use Rattle.ap_admit.specs.Admission.{with_function};
ghost use Rattle.ap_stated.specs.Shapes.{as_defined};
ghost use Rattle.ap_stated.specs.Prepared.{IsPrepared};
ghost use Rattle.ap_stated.specs.Translating.{formal_in, formal_names, component_forms, guard_forms, translated_all, translated_measure, stub, prepared_definition, translated_parts, translated_definition};

use crate::shapes::Definition;
use ap_kernel::nil_term;
use ap_list::{NoMemory, Seq};
use ap_reader::{Form, is_symbol, items, symbol};
use ap_rules::Ruled;
use ap_term::{Term, copy_symbols};
use ap_terminate::cases_of;
use ap_translate::{TransError, TransKind, can_be_bound, translate};
use ap_value::{Symbol, copy_symbol};
use ap_world::{AddError, Defun, Function, Mask, Measure, World, copy_theory, masks};
use std::alloc::{AllocError, Global};
use std::slice::from_ref;

/// The formal that a form is, after others.
fn formal<'a>(form: &'a Form, before: &[Symbol]) -> Option<&'a Symbol>
    ensures formal { option_map (λ s. s.now) result ≡ formal_in before.now form.now }
    ensures bound { IfSome result (λ s. IsTrue (can_be_bound s.now before.now)) }
{
    match symbol(form) {
        Some(symbol) if can_be_bound(symbol, before) => Some(symbol),
        _ => None,
    }
}

/// The formals of a definition: each may be a variable, and none stands twice.
#[tactic(auto, using(crate::proofs::Formals::distinct_last))]
fn formal_names(alloc: Global, forms: &[Form]) -> Result<Seq<Symbol>, TransError>
    ensures names { Gives result (formal_names [] forms.now) }
    ensures distinct { IfOk result (λ names. IsTrue (is_distinct symbol_eq names)) }
{
    let mut names = Seq::new(alloc);
    for form in forms {
        let Some(symbol) = formal(form, names.as_slice()) else {
            return Err(TransError::Fault {
                place: form.place,
                kind: TransKind::NotAVariable,
            });
        };
        names.push(copy_symbol(alloc, symbol)?)?;
    }
    Ok(names)
}

/// The components of a measure.
fn components(measure: &Form) -> &[Form]
    ensures { result.now ≡ component_forms measure.now }
{
    match items(measure) {
        Some([head, rest @ ..]) if is_symbol(head, b"LEX") => rest,
        _ => from_ref(measure),
    }
}

fn guard_forms(guard: Option<&Form>) -> &[Form]
    ensures { result.now ≡ guard_forms (option_map (λ f. f.now) guard.entry) }
{
    match guard {
        Some(guard) => from_ref(guard),
        None => &[],
    }
}

/// The terms of forms in which the formals are bound.
fn terms(
    alloc: Global,
    w: &World,
    forms: &[Form],
    formals: &Seq<Symbol>,
) -> Result<Seq<Term>, TransError>
    requires macros { HasMacroFunctions (function_of w.now.entries) }
    ensures made { Gives result (translated_all w.now.entries formals.now forms.now) }
    ensures speaks { IfOk result (Each (λ u. IsTrue (speaks_of formals.now u))) }
    ensures known { IfOk result (Each (λ u. IsTrue (known (function_of w.now.entries) u))) }
{
    let mut terms = Seq::new(alloc);
    for form in forms {
        terms.push(translate(alloc, w, form, Some(formals))?)?;
    }
    Ok(terms)
}

/// The terms of a guard, if one is given.
#[tactic(auto, using(crate::proofs::Defining::macro_functions))]
fn guard(
    alloc: Global,
    w: &Ruled,
    given: Option<&Form>,
    formals: &Seq<Symbol>,
) -> Result<Seq<Term>, TransError>
    requires functions { HasFunctions (function_of w.now.entries) }
    ensures { Gives result (translated_all w.now.entries formals.now (guard_forms (option_map (λ f. f.now) given.entry))) }
{
    terms(alloc, w.world(), guard_forms(given), formals)
}

/// The terms of a measure.
fn measure_terms(
    alloc: Global,
    w: &Ruled,
    form: &Form,
    formals: &Seq<Symbol>,
) -> Result<Seq<Term>, TransError>
    requires functions { HasFunctions (function_of w.now.entries) }
    ensures made { Gives result (translated_all w.now.entries formals.now (component_forms form.now)) }
    ensures speaks { IfOk result (Each (λ u. IsTrue (speaks_of formals.now u))) }
    ensures known { IfOk result (Each (λ u. IsTrue (known (function_of w.now.entries) u))) }
{
    terms(alloc, w.world(), components(form), formals)
}

/// The measure that is given, if one is.
fn measure(
    alloc: Global,
    w: &Ruled,
    given: Option<&Form>,
    formals: &Seq<Symbol>,
) -> Result<Option<Measure>, TransError>
    requires functions { HasFunctions (function_of w.now.entries) }
    ensures made { Gives result (translated_measure w.now.entries formals.now (option_map (λ f. f.now) given.entry)) }
    ensures speaks { IfOk result (λ m. Each (λ u. IsTrue (speaks_of formals.now u)) (components m)) }
    ensures known { IfOk result (λ m. Each (λ u. IsTrue (known (function_of w.now.entries) u)) (components m)) }
{
    match given {
        Some(form) => {
            let terms = measure_terms(alloc, w, form, formals)?;
            Ok(Some(Measure(terms)))
        }
        None => Ok(None),
    }
}

/// A function of this name and these formals whose body is `nil`.
fn stub(alloc: Global, name: &Symbol, formals: &Seq<Symbol>) -> Result<Function, NoMemory>
    ensures { IfOk result (λ f. f ≡ stub name.now formals.now) }
{
    let name = copy_symbol(alloc, name)?;
    let formals = copy_symbols(alloc, formals.as_slice())?;
    Ok(Function {
        name,
        formals,
        body: nil_term(),
        measure: None,
        cases: Seq::new(alloc),
        mask: Mask(masks::ALL),
    })
}

/// Adds a stub of a function whose name is free. Where memory is wanting the world stays as it was.
fn add_stub(
    alloc: Global,
    w: &mut Ruled,
    name: &Symbol,
    formals: &Seq<Symbol>,
) -> Result<(), NoMemory>
    requires sound { Sound w.old.entries }
    requires functions { HasFunctions (function_of w.old.entries) }
    requires free { has_name w.old.entries name.now ≡ false }
    requires distinct { IsTrue (is_distinct symbol_eq formals.now) }
    ensures ok { OnOk result (w.new ≡ added w.old (entry.Function (stub name.now formals.now))) }
    ensures err { OnErr result (w.new ≡ w.old) }
{
    let stub = stub(alloc, name, formals)?;
    match w.add_function(alloc, stub) {
        Ok(()) => Ok(()),
        Err(AddError::NoMemory) => Err(AllocError),
        Err(AddError::NameTaken) => unreachable!(),
    }
}

/// A ruled world is sound. Costs nothing.
fn recall_sound(w: &Ruled)
    ensures { Sound w.now.entries }
{
    w.world().recall_sound();
}

/// The term of a body, which may call the function: a stub of it is added to the world while the body is
/// translated, and then taken off again.
fn body(
    alloc: Global,
    w: &mut Ruled,
    name: &Symbol,
    form: &Form,
    formals: &Seq<Symbol>,
) -> Result<Term, TransError>
    requires functions { HasFunctions (function_of w.old.entries) }
    requires free { has_name w.old.entries name.now ≡ false }
    requires distinct { IsTrue (is_distinct symbol_eq formals.now) }
    ensures same { w.new ≡ w.old }
    ensures made { Gives result (translated (with_function w.old.entries (stub name.now formals.now)) (Some formals.now) form.now) }
    ensures speaks { IfOk result (λ u. IsTrue (speaks_of formals.now u)) }
    ensures known { IfOk result (λ u. IsTrue (known (function_of (with_function w.old.entries (stub name.now formals.now))) u)) }
{
    recall_sound(w);
    let count = w.world().count();
    let theory = copy_theory(alloc, w.world().theory())?;
    add_stub(alloc, w, name, formals)?;
    let body = translate(alloc, w.world(), form, Some(formals));
    w.back_to(count, theory);
    body
}

/// A definition by its parts: its cases are those of its body.
fn prepared(
    alloc: Global,
    name: &Symbol,
    formals: Seq<Symbol>,
    body: Term,
    measure: Option<Measure>,
) -> Result<Defun, TransError>
    ensures { Gives result (Ok (prepared_definition name.now formals body measure)) }
{
    let name = copy_symbol(alloc, name)?;
    let cases = cases_of(alloc, &name, &body)?;
    Ok(Defun {
        name,
        formals,
        body,
        measure,
        cases,
    })
}

/// Translates the guard, the body and the measure, in this order, where the formals are bound.
fn parts(
    alloc: Global,
    w: &mut Ruled,
    definition: &Definition<'_>,
    formals: Seq<Symbol>,
) -> Result<Defun, TransError>
    requires functions { HasFunctions (function_of w.old.entries) }
    requires free { has_name w.old.entries definition.now.name.now ≡ false }
    requires distinct { IsTrue (is_distinct symbol_eq formals) }
    ensures same { w.new ≡ w.old }
    ensures made { Gives result (translated_parts w.old.entries (as_defined definition.now) formals) }
    ensures name { IfOk result (λ d. d.name ≡ definition.now.name.now) }
    ensures prepared { IfOk result (IsPrepared w.old.entries) }
{
    guard(alloc, w, definition.xargs.guard, &formals)?;
    let body = body(alloc, w, definition.name, definition.body, &formals)?;
    let measure = measure(alloc, w, definition.xargs.measure, &formals)?;
    prepared(alloc, definition.name, formals, body, measure)
}

/// Translates a definition whose name is free: its formals, its guard, its body and its measure, in this
/// order. The world is as it was.
pub(crate) fn translated(
    alloc: Global,
    w: &mut Ruled,
    definition: &Definition<'_>,
) -> Result<Defun, TransError>
    requires functions { HasFunctions (function_of w.old.entries) }
    requires free { has_name w.old.entries definition.now.name.now ≡ false }
    ensures same { w.new ≡ w.old }
    ensures made { Gives result (translated_definition w.old.entries (as_defined definition.now)) }
    ensures name { IfOk result (λ d. d.name ≡ definition.now.name.now) }
    ensures prepared { IfOk result (IsPrepared w.old.entries) }
{
    let formals = formal_names(alloc, definition.formals)?;
    parts(alloc, w, definition, formals)
}
