//! What a form is at its top, with its parts lent. Nothing here takes memory.
ghost use Rattle.std.specs.Prelude.{◌≡◌, option_map};
ghost use Rattle.ap_reader.specs.Tops.{layer_of, as_layer, symbol_at, string_at, items_in, is_symbol, is_keyword, quoted_in};

use crate::form::{Body, Form};
use ap_value::{Symbol, is_named};

/// What a form is, its parts lent.
#[derive(Clone, Copy)]
pub enum FormRef<'a> {
    Int(i128),
    Chr(u8),
    Str(&'a [u8]),
    Sym(&'a Symbol),
    List(&'a [Form]),
    /// `(a b . c)`: at least one form before the dot.
    Dotted(&'a [Form], &'a Form),
    /// `'x`
    Quoted(&'a Form),
    /// `` `x ``
    Quasi(&'a Form),
    /// `,x`
    Comma(&'a Form),
    /// `,@x`
    CommaAt(&'a Form),
}

/// What a form is, its parts lent.
pub fn lend(form: &Form) -> FormRef<'_>
    ensures lent { as_layer result ≡ layer_of form.now }
{
    match &form.body {
        Body::Int(n) => FormRef::Int(*n),
        Body::Chr(code) => FormRef::Chr(*code),
        Body::Str(bytes) => FormRef::Str(bytes.as_slice()),
        Body::Sym(symbol) => FormRef::Sym(symbol),
        Body::List(items) => FormRef::List(items.as_slice()),
        Body::Dotted(items, last) => FormRef::Dotted(items.as_slice(), last.get()),
        Body::Quoted(inner) => FormRef::Quoted(inner.get()),
        Body::Quasi(inner) => FormRef::Quasi(inner.get()),
        Body::Comma(inner) => FormRef::Comma(inner.get()),
        Body::CommaAt(inner) => FormRef::CommaAt(inner.get()),
    }
}

/// The symbol that a form is; the empty list is none here.
pub fn symbol(form: &Form) -> Option<&Symbol>
    ensures { option_map (λ s. s.now) result ≡ symbol_at (layer_of form.now) }
{
    match lend(form) {
        FormRef::Sym(symbol) => Some(symbol),
        _ => None,
    }
}

/// The bytes of the string that a form is.
pub fn string(form: &Form) -> Option<&[u8]>
    ensures { option_map (λ s. s.now) result ≡ string_at (layer_of form.now) }
{
    match lend(form) {
        FormRef::Str(bytes) => Some(bytes),
        _ => None,
    }
}

/// The forms of a list, or none of `nil`.
pub fn items(form: &Form) -> Option<&[Form]>
    ensures { option_map (λ fs. fs.now) result ≡ items_in form.now }
{
    match lend(form) {
        FormRef::List(items) => Some(items),
        FormRef::Sym(symbol) if is_named(symbol, b"NIL") => Some(&[]),
        _ => None,
    }
}

/// Whether a form is the symbol of package `ACL2` with this name.
pub fn is_symbol(form: &Form, name: &[u8]) -> bool
    ensures { result ≡ is_symbol name.now form.now }
{
    match lend(form) {
        FormRef::Sym(symbol) => is_named(symbol, name),
        _ => false,
    }
}

/// Whether a form is the keyword of this name.
pub fn is_keyword(form: &Form, name: &[u8]) -> bool
    ensures { result ≡ is_keyword name.now form.now }
{
    match symbol(form) {
        Some(symbol) => symbol.keyword && symbol.name.as_slice() == name,
        None => false,
    }
}

/// The `x` of `'x` or `(quote x)`.
pub fn quoted(form: &Form) -> Option<&Form>
    ensures { option_map (λ f. f.now) result ≡ quoted_in form.now }
{
    match lend(form) {
        FormRef::Quoted(inner) => Some(inner),
        FormRef::List([head, inner]) if is_symbol(head, b"QUOTE") => Some(inner),
        _ => None,
    }
}
