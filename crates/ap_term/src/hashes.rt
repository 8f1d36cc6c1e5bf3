ghost use Rattle.std.specs.Prelude.{◌≡◌, length, slice_index};
ghost use Rattle.ap_term.specs.Hashes.{mixed, text_hash, symbol_hash, value_hash};

use ap_value::{Symbol, Text, Value};

/// A number that depends on two others.
#[tactic(auto, unfolding(crate::specs::Hashes::mixed))]
pub(crate) fn mixed(h: u64, n: u64) -> u64
    ensures { result ≡ mixed h n }
{
    h.wrapping_mul(1_000_003).wrapping_add(n)
}

/// The byte at a place, or 0 past the end.
fn byte_at(bytes: &[u8], i: usize) -> u64
    ensures { result ≡ slice_index bytes.now i }
{
    if i < bytes.len() {
        u64::from(bytes[i])
    } else {
        0
    }
}

/// A number that depends on a text's length, its first two bytes and its last one.
#[tactic(auto, unfolding(crate::specs::Hashes::text_hash))]
fn text_hash(text: &Text) -> u64
    ensures { result ≡ text_hash text.now }
{
    let bytes = text.as_slice();
    let length = bytes.len();
    let first = mixed(length as u64, byte_at(bytes, 0));
    mixed(
        mixed(first, byte_at(bytes, 1)),
        byte_at(bytes, length.saturating_sub(1)),
    )
}

/// A number that depends on a symbol's name.
pub(crate) fn symbol_hash(symbol: &Symbol) -> u64
    ensures { result ≡ symbol_hash symbol.now }
{
    text_hash(&symbol.name)
}

/// A number that depends on a value's kind, and on what it is unless it is a cons. Takes one step.
pub(crate) fn value_hash(v: &Value) -> u64
    ensures { result ≡ value_hash v.now }
{
    match v {
        Value::Int(n) => mixed(1, (n.unsigned_abs() % 18_446_744_073_709_551_616) as u64),
        Value::Chr(code) => mixed(2, u64::from(*code)),
        Value::Str(codes) => mixed(3, text_hash(codes)),
        Value::Sym(symbol) => mixed(4, symbol_hash(symbol)),
        Value::Cons(_, _) => 5,
    }
}
