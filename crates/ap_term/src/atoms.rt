ghost use Rattle.std.specs.Prelude.{◌≡◌};
ghost use Rattle.ap_term.specs.Atoms.{ends_atom, is_plain, all_plain, begins_with_digit, after_sign, after_digits, is_digits, is_exponent, ends_fraction, ends_number, is_point_digits, is_number, all_dots, is_symbol_text, reads_back};

use ap_value::Symbol;

/// Whether a byte ends an atom: a blank, or one of `( ) ' " ; , and the backquote.
#[tactic(auto, unfolding(crate::specs::Atoms::ends_atom))]
fn ends_atom(c: u8) -> bool
    ensures { result ≡ ends_atom c }
{
    match c {
        9 | 10 | 12 | 13 | b' ' => true,
        b'(' | b')' | b'\'' | b'"' | b';' | b'`' | b',' => true,
        _ => false,
    }
}

/// Whether a byte stands for itself within a symbol.
#[tactic(auto, unfolding(crate::specs::Atoms::is_plain))]
fn is_plain(c: u8) -> bool
    ensures { result ≡ is_plain c }
{
    !(ends_atom(c) || c == b'|' || c == b'\\' || c == b':' || c.is_ascii_lowercase())
}

fn all_plain(text: &[u8]) -> bool
    ensures { result ≡ all_plain text.now }
{
    for c in text {
        if !is_plain(*c) {
            return false;
        }
    }
    true
}

fn begins_with_digit(text: &[u8]) -> bool
    ensures { result ≡ begins_with_digit text.now }
{
    match text {
        [] => false,
        [c, ..] => c.is_ascii_digit(),
    }
}

fn after_sign(text: &[u8]) -> &[u8]
    ensures { result.now ≡ after_sign text.now }
{
    match text {
        [b'+' | b'-', rest @ ..] => rest,
        _ => text,
    }
}

fn after_digits(text: &[u8]) -> &[u8]
    ensures { result.now ≡ after_digits text.now }
{
    let mut rest = text;
    while let [c, more @ ..] = rest {
        if !c.is_ascii_digit() {
            return rest;
        }
        rest = more;
    }
    rest
}

fn is_digits(text: &[u8]) -> bool
    ensures { result ≡ is_digits text.now }
{
    begins_with_digit(text) && after_digits(text).is_empty()
}

fn is_exponent(text: &[u8]) -> bool
    ensures { result ≡ is_exponent text.now }
{
    match text {
        [b'E' | b'e', rest @ ..] => is_digits(after_sign(rest)),
        _ => false,
    }
}

fn ends_fraction(text: &[u8]) -> bool
    ensures { result ≡ ends_fraction text.now }
{
    if text.is_empty() {
        return true;
    }
    let rest = after_digits(text);
    begins_with_digit(text) && (rest.is_empty() || is_exponent(rest))
}

fn ends_number(text: &[u8]) -> bool
    ensures { result ≡ ends_number text.now }
{
    match text {
        [] => true,
        [b'/', rest @ ..] => is_digits(rest),
        [b'.', rest @ ..] => ends_fraction(rest),
        _ => is_exponent(text),
    }
}

fn is_point_digits(text: &[u8]) -> bool
    ensures { result ≡ is_point_digits text.now }
{
    match text {
        [b'.', rest @ ..] => is_digits(rest),
        _ => false,
    }
}

/// Whether an atom without escapes is read as a number: an integer, or a ratio, a decimal or a number
/// with an exponent, which this fragment refuses.
fn is_number(text: &[u8]) -> bool
    ensures { result ≡ is_number text.now }
{
    let digits = after_sign(text);
    if begins_with_digit(digits) {
        ends_number(after_digits(digits))
    } else {
        is_point_digits(digits)
    }
}

fn all_dots(text: &[u8]) -> bool
    ensures { result ≡ all_dots text.now }
{
    for c in text {
        if *c != b'.' {
            return false;
        }
    }
    true
}

/// Whether plain bytes are read as the symbol with that name, and not as a number, as dots or after `#`.
fn is_symbol_text(text: &[u8]) -> bool
    ensures { result ≡ is_symbol_text text.now }
{
    match text {
        [b'#', ..] => false,
        _ => !(all_dots(text) || is_number(text)),
    }
}

/// Whether a symbol is read back as itself where its name is printed without bars. Takes no memory.
#[tactic(auto, unfolding(crate::specs::Atoms::reads_back))]
pub fn reads_back(symbol: &Symbol) -> bool
    ensures { result ≡ reads_back symbol.now }
{
    let name = symbol.name.as_slice();
    all_plain(name) && (symbol.keyword || is_symbol_text(name))
}
