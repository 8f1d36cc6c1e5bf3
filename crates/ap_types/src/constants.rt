ghost use Rattle.std.specs.Prelude.{◌≡◌, pos};
ghost use Rattle.ap_value.specs.Values.{int, val_of, value_eq};
ghost use Rattle.ap_world.specs.Primitives.{symbol_value};
ghost use Rattle.ap_world.specs.Names.{list_name};
ghost use Rattle.ap_world.specs.Types.{is_true_list};
ghost use Rattle.ap_world.specs.Kinds.{int_kind, symbol_kind, cons_kind, kind_of};

use ap_kernel::{is_acl2, is_nil, is_t};
use ap_value::{Value, same};
use ap_world::Kind;

/// Whether a value is the symbol `list`.
#[tactic(auto, unfolding(ap_world::specs::Names::list_name))]
pub(crate) fn is_list_name(v: &Value) -> bool
    ensures { result ≡ value_eq (val_of v.now) (symbol_value list_name) }
{
    is_acl2(v, b"LIST")
}

/// Whether a value is zero.
pub(crate) fn is_zero_value(v: &Value) -> bool
    ensures { result ≡ value_eq (val_of v.now) (int (pos 0)) }
{
    let zero = Value::Int(0);
    same(v, &zero)
}

/// Whether a value is a true list.
fn is_true_list(v: &Value) -> bool
    ensures { result ≡ is_true_list (val_of v.now) }
{
    match v {
        Value::Cons(_, rest) => is_true_list(rest.get()),
        _ => is_nil(v),
    }
}

/// The type of an integer.
fn int_kind(n: i128) -> Kind
    ensures { result ≡ int_kind n }
{
    if n == 0 {
        return Kind::Zero;
    }
    if n > 0 {
        return Kind::Positive;
    }
    Kind::Negative
}

/// The type of a symbol.
fn symbol_kind(v: &Value) -> Kind
    ensures { result ≡ symbol_kind (val_of v.now) }
{
    if is_nil(v) {
        return Kind::Nil;
    }
    if is_t(v) {
        return Kind::True;
    }
    Kind::OtherSymbol
}

/// The type of a cons with this rest.
fn cons_kind(rest: &Value) -> Kind
    ensures { result ≡ cons_kind (val_of rest.now) }
{
    if is_true_list(rest) {
        Kind::Proper
    } else {
        Kind::Improper
    }
}

/// The type of a value.
pub(crate) fn kind_of(v: &Value) -> Kind
    ensures { result ≡ kind_of (val_of v.now) }
{
    match v {
        Value::Int(n) => int_kind(*n),
        Value::Sym(_) => symbol_kind(v),
        Value::Cons(_, rest) => cons_kind(rest.get()),
        Value::Str(_) => Kind::Text,
        Value::Chr(_) => Kind::Character,
    }
}
