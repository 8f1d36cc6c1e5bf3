//! The shapes of events.
ghost use Rattle.std.specs.Prelude.{◌≡◌, option_map, map};
ghost use Rattle.std.specs.List.{list_all};
ghost use Rattle.ap_stated.specs.Shapes.{name_in, constant_name_in, are_keyed, given_once, is_class, are_classes, none_or, as_chosen, chosen_of, as_stated, statement_of, as_xargs, no_xargs, truth_in, xargs_of, is_declaration, in_list, xargs_by, xargs_lists, at_most_one, declared_in, as_before, before_body, as_defined, formals_in, defined_in, definition_of, as_constant, constant_of};
ghost use Rattle.ap_reader.specs.Tops.{items_in};

use crate::forms::{are_symbols, is_string};
use ap_hints::{is_any_keyword, is_nil};
use ap_reader::{Form, is_keyword, is_symbol, items, symbol};
use ap_translate::{may_name, may_name_constant};
use ap_value::Symbol;

/// The name of a function or a theorem that a form is.
fn name(form: &Form) -> Option<&Symbol>
    ensures { option_map (λ s. s.now) result ≡ name_in form.now }
{
    match symbol(form) {
        Some(symbol) if may_name(symbol) => Some(symbol),
        _ => None,
    }
}

/// The name of a constant that a form is.
fn constant_name(form: &Form) -> Option<&Symbol>
    ensures { option_map (λ s. s.now) result ≡ constant_name_in form.now }
{
    match symbol(form) {
        Some(symbol) if may_name_constant(symbol) => Some(symbol),
        _ => None,
    }
}

/// Whether a list is of pairs, each of one of these keywords and a value.
fn are_keyed(names: &[&'static [u8]], options: &[Form]) -> bool
    ensures { result ≡ are_keyed (map (λ n. n.now) names.now) options.now }
{
    let mut left = options;
    while let [key, _, rest @ ..] = left {
        if !is_any_keyword(key, names) {
            return false;
        }
        left = rest;
    }
    left.is_empty()
}

/// The value that follows a keyword in a list of pairs, if there is one; `None` where there are two.
fn given<'a>(name: &[u8], options: &'a [Form]) -> Option<Option<&'a Form>>
    ensures { option_map (λ o. option_map (λ f. f.now) o) result ≡ given_once name.now options.now }
{
    let mut found = None;
    let mut left = options;
    while let [key, value, rest @ ..] = left {
        if is_keyword(key, name) {
            if found.is_some() {
                return None;
            }
            found = Some(value);
        }
        left = rest;
    }
    Some(found)
}

/// Whether a form is a rule class.
fn is_class(form: &Form) -> bool
    ensures { result ≡ is_class form.now }
{
    is_keyword(form, b"REWRITE")
        || is_keyword(form, b"LINEAR")
        || is_keyword(form, b"TYPE-PRESCRIPTION")
}

fn are_all_classes(items: &[Form]) -> bool
    ensures { result ≡ list_all is_class items.now }
{
    items.iter().all(|item| is_class(item))
}

/// Whether a form is what `:rule-classes` takes: `nil`, a class, or a list of classes.
fn are_classes(form: &Form) -> bool
    ensures { result ≡ are_classes form.now }
{
    match items(form) {
        Some(items) => are_all_classes(items),
        None => is_class(form),
    }
}

/// Whether rule classes, if they are given, are of their shape.
fn are_classes_if_given(classes: Option<&Form>) -> bool
    ensures { result ≡ none_or are_classes (option_map (λ f. f.now) classes.entry) }
{
    match classes {
        Some(classes) => are_classes(classes),
        None => true,
    }
}

/// What `:otf-flg` or `:verify-guards` says: `t` or `nil`, and `nil` where it isn't given.
fn truth(value: Option<&Form>) -> Option<bool>
    ensures { result ≡ truth_in (option_map (λ f. f.now) value.entry) }
{
    match value {
        None => Some(false),
        Some(value) => {
            if is_symbol(value, b"T") {
                Some(true)
            } else if is_nil(value) {
                Some(false)
            } else {
                None
            }
        }
    }
}

/// What follows a theorem's term.
#[derive(Clone, Copy)]
pub struct Choices<'a> {
    pub classes: Option<&'a Form>,
    pub hints: Option<&'a Form>,
    /// `:otf-flg` is given as `t`.
    pub otf: bool,
}

/// What follows a theorem's term: its classes and its hints, if they are given, and `:otf-flg`; `None` where it isn't of
/// the shape. What the hints say isn't looked at.
fn chosen(options: &[Form]) -> Option<Choices<'_>>
    ensures { option_map as_chosen result ≡ chosen_of options.now }
{
    if !are_keyed(&[b"RULE-CLASSES", b"HINTS", b"OTF-FLG"], options) {
        return None;
    }
    let classes = given(b"RULE-CLASSES", options)?;
    let hints = given(b"HINTS", options)?;
    let otf = truth(given(b"OTF-FLG", options)?)?;
    if are_classes_if_given(classes) {
        Some(Choices {
            classes,
            hints,
            otf,
        })
    } else {
        None
    }
}

/// A theorem as its event states it.
#[derive(Clone, Copy)]
pub struct Statement<'a> {
    pub name: &'a Symbol,
    pub term: &'a Form,
    pub choices: Choices<'a>,
}

/// What a `defthm` states, or `None` where it isn't `(defthm NAME TERM [:rule-classes C] [:hints H] [:otf-flg B])`, its
/// keywords in any order.
pub fn theorem_in(form: &Form) -> Option<Statement<'_>>
    ensures { option_map as_stated result ≡ statement_of form.now }
{
    match items(form) {
        Some([_, name_form, term, rest @ ..]) => {
            let name = name(name_form)?;
            let choices = chosen(rest)?;
            Some(Statement {
                name,
                term,
                choices,
            })
        }
        _ => None,
    }
}

/// What the `xargs` of a definition say.
#[derive(Clone, Copy)]
pub struct Declared<'a> {
    pub measure: Option<&'a Form>,
    pub hints: Option<&'a Form>,
    pub guard: Option<&'a Form>,
    /// `:verify-guards` is given as `t`.
    pub verify: bool,
    /// `:otf-flg` is given as `t`.
    pub otf: bool,
}

/// No `xargs`.
fn nothing_declared<'a>() -> Declared<'a>
    ensures { as_xargs result ≡ no_xargs }
{
    Declared {
        measure: None,
        hints: None,
        guard: None,
        verify: false,
        otf: false,
    }
}

/// What `xargs` say, by their keywords and values.
fn xargs(options: &[Form]) -> Option<Declared<'_>>
    ensures { option_map as_xargs result ≡ xargs_of options.now }
{
    if !are_keyed(
        &[b"MEASURE", b"HINTS", b"GUARD", b"VERIFY-GUARDS", b"OTF-FLG"],
        options,
    ) {
        return None;
    }
    let measure = given(b"MEASURE", options)?;
    let hints = given(b"HINTS", options)?;
    let guard = given(b"GUARD", options)?;
    let verify = truth(given(b"VERIFY-GUARDS", options)?)?;
    let otf = truth(given(b"OTF-FLG", options)?)?;
    Some(Declared {
        measure,
        hints,
        guard,
        verify,
        otf,
    })
}

/// Whether a form is what a `declare` holds: `xargs`, or what is passed over.
fn is_declaration(form: &Form) -> bool
    ensures { result ≡ is_declaration form.now }
{
    match items(form) {
        Some([head, ..]) => {
            is_symbol(head, b"IGNORE") || is_symbol(head, b"IGNORABLE") || is_symbol(head, b"XARGS")
        }
        _ => false,
    }
}

fn are_declarations(forms: &[Form]) -> bool
    ensures { result ≡ list_all is_declaration forms.now }
{
    forms.iter().all(|form| is_declaration(form))
}

/// The keywords and values of `xargs`.
fn xargs_options(form: &Form) -> Option<&[Form]>
    ensures { in_list (option_map (λ fs. fs.now) result) ≡ xargs_by (items_in form.now) }
{
    match items(form) {
        Some([head, rest @ ..]) if is_symbol(head, b"XARGS") => Some(rest),
        _ => None,
    }
}

/// The keywords and values of the `xargs` among declarations, if there are any; `None` where there are two.
fn sole_xargs(declarations: &[Form]) -> Option<Option<&[Form]>>
    ensures { option_map (λ o. option_map (λ fs. fs.now) o) result ≡ at_most_one (xargs_lists declarations.now) }
{
    let mut found = None;
    let mut left = declarations;
    while let [first, rest @ ..] = left {
        if let Some(options) = xargs_options(first) {
            if found.is_some() {
                return None;
            }
            found = Some(options);
        }
        left = rest;
    }
    Some(found)
}

/// What a `declare` says.
fn declared_in(form: &Form) -> Option<Declared<'_>>
    ensures { option_map as_xargs result ≡ declared_in form.now }
{
    match items(form) {
        Some([head, declarations @ ..])
            if is_symbol(head, b"DECLARE") && are_declarations(declarations) => {
            match sole_xargs(declarations)? {
                Some(options) => xargs(options),
                None => Some(nothing_declared()),
            }
        }
        _ => None,
    }
}

/// What stands before a definition's body, and the body.
#[derive(Clone, Copy)]
pub struct Preamble<'a> {
    pub xargs: Declared<'a>,
    pub body: &'a Form,
}

/// What follows a definition's formals: a text, a `declare`, or the one and then the other, and the body.
fn before_body(forms: &[Form]) -> Option<Preamble<'_>>
    ensures { option_map as_before result ≡ before_body forms.now }
{
    let (declaration, body) = match forms {
        [body] => (None, body),
        [first, body] if is_string(first) => (None, body),
        [declaration, body] => (Some(declaration), body),
        [text, declaration, body] if is_string(text) => (Some(declaration), body),
        _ => return None,
    };
    let xargs = match declaration {
        Some(form) => declared_in(form)?,
        None => nothing_declared(),
    };
    Some(Preamble { xargs, body })
}

/// A definition as its event states it.
#[derive(Clone, Copy)]
pub struct Definition<'a> {
    pub name: &'a Symbol,
    pub formals: &'a [Form],
    pub body: &'a Form,
    pub xargs: Declared<'a>,
}

/// The formals that a form lists.
fn formals(form: &Form) -> Option<&[Form]>
    ensures { option_map (λ fs. fs.now) result ≡ formals_in form.now }
{
    match items(form) {
        Some(forms) if are_symbols(forms) => Some(forms),
        _ => None,
    }
}

/// What is defined, by what is in place of the name and of the formals, and what follows.
fn defined<'a>(
    name_form: &'a Form,
    formals_form: &'a Form,
    rest: &'a [Form],
) -> Option<Definition<'a>>
    ensures { option_map as_defined result ≡ defined_in name_form.now formals_form.now rest.now }
{
    let name = name(name_form)?;
    let formals = formals(formals_form)?;
    let Preamble { xargs, body } = before_body(rest)?;
    Some(Definition {
        name,
        formals,
        body,
        xargs,
    })
}

/// What a `defun` defines, or `None` where it isn't `(defun NAME (V ..) [STRING] [(declare ..)] BODY)`.
pub fn definition_in(form: &Form) -> Option<Definition<'_>>
    ensures { option_map as_defined result ≡ definition_of form.now }
{
    match items(form) {
        Some([_, name_form, formals_form, rest @ ..]) => defined(name_form, formals_form, rest),
        _ => None,
    }
}

/// A constant as its event states it.
#[derive(Clone, Copy)]
pub struct Constant<'a> {
    pub name: &'a Symbol,
    pub value: &'a Form,
}

/// What a `defconst` states, or `None` where it isn't `(defconst *NAME* FORM)`. Whether the form is one of a
/// constant isn't looked at.
pub fn constant_in(form: &Form) -> Option<Constant<'_>>
    ensures { option_map as_constant result ≡ constant_of form.now }
{
    match items(form) {
        Some([_, name_form, value]) => {
            let name = constant_name(name_form)?;
            Some(Constant { name, value })
        }
        _ => None,
    }
}
