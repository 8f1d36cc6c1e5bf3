ghost use Rattle.std.specs.Prelude.{◌≡◌, option_map, is_some, map};
ghost use Rattle.std.specs.List.{list_all};
ghost use Rattle.ap_translate.specs.Shapes.{arm_in, arm_seen, last_in, are_arms, binding_in, bind_seen, is_binding, is_symbolic, body_in, let_in, scope_seen, lambda_in, less_literal, literal_seen};

use crate::parts::{Name, integer, is_declare, name_in};
use ap_reader::{Form, is_symbol, items};
use ap_value::Symbol;
use std::slice::from_ref;

/// A clause of `cond`.
#[derive(Clone, Copy)]
pub enum Clause<'a> {
    /// `(a)`
    Alone(&'a Form),
    /// `(a b)`
    Pair(&'a Form, &'a Form),
    /// `(t b)`, after which no clause is looked at.
    Otherwise(&'a Form),
}

/// The clause of `cond` that a form is.
pub(crate) fn clause_in(form: &Form) -> Option<Clause<'_>>
    ensures { option_map arm_seen result ≡ arm_in form.now }
{
    match items(form)? {
        [test] => Some(Clause::Alone(test)),
        [test, value] => {
            if is_symbol(test, b"T") {
                Some(Clause::Otherwise(value))
            } else {
                Some(Clause::Pair(test, value))
            }
        }
        _ => None,
    }
}

/// The value of a clause that is the last one.
pub(crate) fn last_in<'a>(clause: Clause<'a>) -> Option<&'a Form>
    ensures { option_map (λ f. f.now) result ≡ last_in (arm_seen clause.entry) }
{
    match clause {
        Clause::Otherwise(value) => Some(value),
        _ => None,
    }
}

/// Whether the forms that are looked at are clauses of `cond`.
pub(crate) fn are_clauses(forms: &[Form]) -> bool
    ensures { result ≡ are_arms forms.now }
{
    let mut left = forms;
    while let [first, rest @ ..] = left {
        match clause_in(first) {
            None => return false,
            Some(Clause::Otherwise(_)) => return true,
            Some(_) => left = rest,
        }
    }
    true
}

/// `(v e)`, a variable and a form.
#[derive(Clone, Copy)]
pub struct Binding<'a> {
    pub place: usize,
    /// `None` for the empty list, which is `nil`.
    pub name: Option<&'a Symbol>,
    pub value: &'a Form,
}

/// The binding of a `let` that a form is.
pub(crate) fn binding_in(form: &Form) -> Option<Binding<'_>>
    ensures { option_map bind_seen result ≡ binding_in form.now }
{
    match items(form)? {
        [variable, value] => {
            let name = match name_in(variable) {
                Name::Nil => None,
                Name::Symbol(name) => Some(name),
                Name::Other => return None,
            };
            Some(Binding {
                place: variable.place,
                name,
                value,
            })
        }
        _ => None,
    }
}

/// Whether a form is a binding.
fn is_binding(form: &Form) -> bool
    ensures { result ≡ is_binding form.now }
{
    binding_in(form).is_some()
}

fn are_bindings(forms: &[Form]) -> bool
    ensures { result ≡ list_all is_binding forms.now }
{
    forms.iter().all(|form| is_binding(form))
}

/// Whether a form is a symbol.
fn is_symbolic(form: &Form) -> bool
    ensures { result ≡ is_symbolic form.now }
{
    match name_in(form) {
        Name::Other => false,
        _ => true,
    }
}

fn are_symbolic(forms: &[Form]) -> bool
    ensures { result ≡ list_all is_symbolic forms.now }
{
    forms.iter().all(|form| is_symbolic(form))
}

/// The last of the forms, where all before it are declarations.
fn body(forms: &[Form]) -> Option<&Form>
    ensures { option_map (λ f. f.now) result ≡ body_in forms.now }
{
    let mut left = forms;
    while let [first, rest @ ..] = left {
        if rest.is_empty() {
            return Some(first);
        }
        if !is_declare(first) {
            return None;
        }
        left = rest;
    }
    None
}

/// Forms of variables or of bindings, and the body in which they hold.
#[derive(Clone, Copy)]
pub struct Scoped<'a> {
    pub heads: &'a [Form],
    pub body: &'a Form,
}

/// The bindings and the body of a `let`, from its arguments.
pub(crate) fn let_parts(forms: &[Form]) -> Option<Scoped<'_>>
    ensures { option_map scope_seen result ≡ let_in forms.now }
{
    match forms {
        [first, rest @ ..] => {
            let heads = items(first)?;
            let body = body(rest)?;
            if are_bindings(heads) {
                Some(Scoped { heads, body })
            } else {
                None
            }
        }
        _ => None,
    }
}

/// The variables and the body of a `lambda`.
pub(crate) fn lambda_parts(form: &Form) -> Option<Scoped<'_>>
    ensures { option_map scope_seen result ≡ lambda_in form.now }
{
    match items(form)? {
        [head, first, rest @ ..] => {
            let heads = items(first)?;
            let body = body(rest)?;
            if is_symbol(head, b"LAMBDA") && are_symbolic(heads) {
                Some(Scoped { heads, body })
            } else {
                None
            }
        }
        _ => None,
    }
}

/// The first of two forms, by itself, and the negation of the second, where that is an integer whose
/// negation has 128 bits.
pub(crate) fn less_literal(forms: &[Form]) -> Option<(&[Form], i128)>
    ensures { option_map (λ x. (x.0.now, x.1)) result ≡ option_map literal_seen (less_literal forms.now) }
{
    match forms {
        [form, literal] => {
            let n = integer(literal)?;
            if n == i128::MIN {
                None
            } else {
                Some((from_ref(form), -n))
            }
        }
        _ => None,
    }
}
