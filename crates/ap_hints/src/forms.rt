//! What the parts of an event's form are, beyond what `ap_reader` tells of them.
ghost use Rattle.std.specs.Prelude.{◌≡◌, map};
ghost use Rattle.ap_hints.specs.Forms.{is_nil, any_keyword};

use ap_reader::{Form, is_keyword, items};

/// Whether a form is a keyword of one of these names.
pub fn is_any_keyword(form: &Form, names: &[&'static [u8]]) -> bool
    ensures { result ≡ any_keyword (map (λ n. n.now) names.now) form.now }
{
    for name in names {
        if is_keyword(form, name) {
            return true;
        }
    }
    false
}

/// Whether a form is `nil`, written so or as the empty list.
pub fn is_nil(form: &Form) -> bool
    ensures { result ≡ is_nil form.now }
{
    match items(form) {
        Some([]) => true,
        _ => false,
    }
}
