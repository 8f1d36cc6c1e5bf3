ghost use Rattle.std.specs.Prelude.{◌≡◌};
ghost use Rattle.ap_reader.specs.Tops.{layer_of};
ghost use Rattle.ap_books.specs.Package.{is_package, says};

use ap_reader::{Form, FormRef, is_symbol, lend, string};

/// Whether a form is a string of these bytes.
fn says(form: &Form, bytes: &[u8]) -> bool
    ensures { result ≡ says bytes.now (layer_of form.now) }
{
    match string(form) {
        Some(text) => text == bytes,
        None => false,
    }
}

/// Whether a form is `(in-package "ACL2")`.
pub(crate) fn is_package(form: &Form) -> bool
    ensures { result ≡ is_package form.now }
{
    match lend(form) {
        FormRef::List([head, name]) => is_symbol(head, b"IN-PACKAGE") && says(name, b"ACL2"),
        _ => false,
    }
}
