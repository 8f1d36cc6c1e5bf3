// What a value is, as a test, and the constants that tests give.
ghost use Rattle.std.specs.Prelude.{◌≡◌, ◌<◌, ◌↔◌, ℕ, IsTrue, map, slice_index};
ghost use Rattle.ap_value.specs.Values.{val_of, byte_of, value_eq, acl2};
ghost use Rattle.ap_world.specs.Primitives.{symbol_value, nil, is_cons, is_integer, is_symbol, is_string, is_character};
ghost use Rattle.ap_world.specs.Names.{list_name};
ghost use Rattle.ap_world.specs.Units.{nil_constant, truth_constant};

use ap_list::Text;
use ap_value::{Fixed, Value, named, same};

/// The symbol `nil`. Takes no memory.
#[tactic(auto, unfolding(ap_world::specs::Names::nil_name))]
pub(crate) fn nil_value() -> Value
    ensures { result ≡ nil_constant }
{
    Value::Sym(named(Fixed::Nil))
}

/// `t` or `nil`. Takes no memory.
#[tactic(auto, unfolding(ap_world::specs::Names::t_name))]
pub(crate) fn truth_value(holds: bool) -> Value
    ensures { result ≡ truth_constant holds }
{
    if holds {
        Value::Sym(named(Fixed::T))
    } else {
        nil_value()
    }
}

/// A text's bytes, each below 256.
fn slice_of(text: &[u8]) -> &[u8]
    ensures value { result.now ≡ text.now }
    ensures small { (i : ℕ) → slice_index text.now i < 256 }
{
    text
}

/// Whether a name is spelt by these bytes.
fn spells(name: &Text, text: &[u8]) -> bool
    ensures { IsTrue result ↔ (map byte_of name.now ≡ map byte_of text.now) }
{
    slice_of(name.as_slice()) == slice_of(text)
}

/// Whether a value is the symbol of package `ACL2` with this name.
#[tactic(auto, unfolding(ap_value::specs::Values::value_eq))]
pub(crate) fn is_named(v: &Value, name: &[u8]) -> bool
    ensures { result ≡ value_eq (val_of v.now) (symbol_value (acl2 name.now)) }
{
    match v {
        Value::Sym(symbol) => !symbol.keyword && spells(&symbol.name, name),
        Value::Int(_) | Value::Chr(_) | Value::Str(_) | Value::Cons(_, _) => false,
    }
}

/// Whether a value is `nil`.
#[tactic(auto, unfolding(ap_world::specs::Primitives::nil, ap_world::specs::Names::nil_name))]
pub(crate) fn is_nil(v: &Value) -> bool
    ensures { result ≡ value_eq (val_of v.now) nil }
{
    is_named(v, b"NIL")
}

/// Whether a value is the symbol `list`.
#[tactic(auto, unfolding(ap_world::specs::Names::list_name))]
pub(crate) fn is_list_name(v: &Value) -> bool
    ensures { result ≡ value_eq (val_of v.now) (symbol_value list_name) }
{
    is_named(v, b"LIST")
}

/// Whether two values are one.
pub(crate) fn is_same(a: &Value, b: &Value) -> bool
    ensures { result ≡ value_eq (val_of a.now) (val_of b.now) }
{
    same(a, b)
}

/// Whether a value is a cons.
pub(crate) fn is_pair(v: &Value) -> bool
    ensures { result ≡ is_cons (val_of v.now) }
{
    matches!(v, Value::Cons(_, _))
}

/// Whether a value is an integer.
pub(crate) fn is_int(v: &Value) -> bool
    ensures { result ≡ is_integer (val_of v.now) }
{
    matches!(v, Value::Int(_))
}

/// Whether a value is a symbol.
pub(crate) fn is_sym(v: &Value) -> bool
    ensures { result ≡ is_symbol (val_of v.now) }
{
    matches!(v, Value::Sym(_))
}

/// Whether a value is a string.
pub(crate) fn is_text(v: &Value) -> bool
    ensures { result ≡ is_string (val_of v.now) }
{
    matches!(v, Value::Str(_))
}

/// Whether a value is a character.
pub(crate) fn is_char(v: &Value) -> bool
    ensures { result ≡ is_character (val_of v.now) }
{
    matches!(v, Value::Chr(_))
}
