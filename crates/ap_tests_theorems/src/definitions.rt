//! Definitions for tests, written as text.

use ap_list::{NoMemory, Seq};
use ap_reader::{Body, Form};
use ap_term::Term;
use ap_terminate::cases_of;
use ap_tests_terms::{read, written};
use ap_value::{Symbol, copy_symbol};
use ap_world::{Case, Defun, Measure};
use std::alloc::{AllocError, Global};

/// The symbol that is written.
fn symbol(alloc: Global, form: &Form) -> Result<Symbol, NoMemory> {
    match &form.body {
        Body::Sym(name) => copy_symbol(alloc, name),
        _ => Err(AllocError),
    }
}

/// The symbols that are written.
fn symbols(alloc: Global, forms: &[Form]) -> Result<Seq<Symbol>, NoMemory> {
    let mut out = Seq::new(alloc);
    for form in forms {
        out.push(symbol(alloc, form)?)?;
    }
    Ok(out)
}

/// The items of a list.
fn items(form: &Form) -> &[Form] {
    match &form.body {
        Body::List(items) => items.as_slice(),
        _ => &[],
    }
}

/// The components that are written.
fn components(alloc: Global, forms: &[Form]) -> Result<Seq<Term>, NoMemory> {
    let mut out = Seq::new(alloc);
    for form in forms {
        out.push(written(alloc, form)?)?;
    }
    Ok(out)
}

/// The measure that is written: a list of its components, or a word where none is given.
fn measure(alloc: Global, form: &Form) -> Result<Option<Measure>, NoMemory> {
    match &form.body {
        Body::Sym(_) => Ok(None),
        _ => Ok(Some(Measure(components(alloc, items(form))?))),
    }
}

/// The body that is written, and the cases of its calls of this name.
fn body_and_cases(
    alloc: Global,
    name: &Symbol,
    form: &Form,
) -> Result<(Term, Seq<Case>), NoMemory> {
    let body = written(alloc, form)?;
    let cases = cases_of(alloc, name, &body)?;
    Ok((body, cases))
}

/// The definition of these four forms: its name, its formals, its measure and its body, in translated form.
fn definition(alloc: Global, parts: &[Form]) -> Result<Defun, NoMemory> {
    let [name, formals, given, body] = parts else {
        return Err(AllocError);
    };
    let name = symbol(alloc, name)?;
    let formals = symbols(alloc, items(formals))?;
    let measure = measure(alloc, given)?;
    let (body, cases) = body_and_cases(alloc, &name, body)?;
    Ok(Defun {
        name,
        formals,
        body,
        measure,
        cases,
    })
}

/// The definition that is written.
pub(crate) fn defun(alloc: Global, text: &str) -> Result<Defun, NoMemory> {
    match read(alloc, text).as_slice() {
        [form] => definition(alloc, items(form)),
        _ => Err(AllocError),
    }
}
