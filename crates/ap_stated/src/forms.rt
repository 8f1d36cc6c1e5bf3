//! What a form is at its top, beyond what `ap_reader` tells.
ghost use Rattle.std.specs.Prelude.{◌≡◌, option_map, is_some};
ghost use Rattle.ap_translate.specs.Parts.{symbol_in};
ghost use Rattle.ap_stated.specs.Shapes.{head_of, is_string, are_symbols};

use ap_reader::{Form, FormRef, lend, string, symbol};
use ap_value::Symbol;

/// The symbol at the head of a list, or of a dotted one; `None` where there is none. Takes no memory.
pub fn head(form: &Form) -> Option<&Symbol>
    ensures { option_map (λ s. s.now) result ≡ head_of form.now }
{
    match lend(form) {
        FormRef::List([first, ..]) => symbol(first),
        FormRef::Dotted([first, ..], _) => symbol(first),
        _ => None,
    }
}

/// Whether a form is a string.
pub(crate) fn is_string(form: &Form) -> bool
    ensures { result ≡ is_string form.now }
{
    string(form).is_some()
}

/// Whether a form is a symbol; the empty list is `nil`.
fn is_symbolic(form: &Form) -> bool
    ensures { result ≡ is_some (symbol_in form.now) }
{
    match lend(form) {
        FormRef::Sym(_) => true,
        FormRef::List([]) => true,
        _ => false,
    }
}

/// Whether each form is a symbol.
pub(crate) fn are_symbols(forms: &[Form]) -> bool
    ensures { result ≡ are_symbols forms.now }
{
    forms.iter().all(|form| is_symbolic(form))
}
