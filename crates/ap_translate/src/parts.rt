ghost use Rattle.std.specs.Prelude.{◌≡◌};
ghost use Rattle.ap_translate.specs.Parts.{symbol_in, integer_in, name_seen, is_declare};

use ap_reader::{Form, FormRef, is_symbol, lend};
use ap_value::Symbol;

/// What a form is as a name.
#[derive(Clone, Copy)]
pub(crate) enum Name<'a> {
    /// The empty list, which is `nil`.
    Nil,
    Symbol(&'a Symbol),
    /// No name.
    Other,
}

/// What a form is as a name.
pub(crate) fn name_in(form: &Form) -> Name<'_>
    ensures { name_seen result ≡ symbol_in form.now }
{
    match lend(form) {
        FormRef::Sym(symbol) => Name::Symbol(symbol),
        FormRef::List([]) => Name::Nil,
        _ => Name::Other,
    }
}

/// The integer that a form is.
pub(crate) fn integer(form: &Form) -> Option<i128>
    ensures { result ≡ integer_in form.now }
{
    match lend(form) {
        FormRef::Int(n) => Some(n),
        _ => None,
    }
}

/// Whether a form is `(declare ..)`.
pub(crate) fn is_declare(form: &Form) -> bool
    ensures { result ≡ is_declare form.now }
{
    match lend(form) {
        FormRef::List([head, ..]) => is_symbol(head, b"DECLARE"),
        _ => false,
    }
}
