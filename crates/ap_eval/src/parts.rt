// The parts of values, each with what it is of a value that has none.
ghost use Rattle.std.specs.Prelude.{◌≡◌, ◌+ℤ◌, ◌*ℤ◌, neg_ℤ, int_lt, IfOk};
ghost use Rattle.ap_value.specs.declared.value.Value.{out-Value};
ghost use Rattle.ap_value.specs.Values.{val_of};
ghost use Rattle.ap_world.specs.Primitives.{int_of};
ghost use Rattle.ap_world.specs.Units.{narrow, int_constant, first_part, rest_part, code_part, character_part, name_part};

use crate::kinds::nil_value;
use ap_list::{Bytes, NoMemory};
use ap_value::{Value, copy};
use std::alloc::Global;

/// The integer that a value counts as.
fn integer_in(v: &Value) -> i128
    ensures { result ≡ int_of (val_of v.now) }
{
    match v {
        Value::Int(n) => *n,
        _ => 0,
    }
}

/// The sum, where 128 bits hold it.
fn narrow_sum(m: i128, n: i128) -> Option<i128>
    ensures { result ≡ narrow (m +ℤ n) }
{
    m.checked_add(n)
}

/// The product, where 128 bits hold it.
fn narrow_product(m: i128, n: i128) -> Option<i128>
    ensures { result ≡ narrow (m *ℤ n) }
{
    m.checked_mul(n)
}

/// The negation, where 128 bits hold it.
fn narrow_negation(n: i128) -> Option<i128>
    ensures { result ≡ narrow (neg_ℤ n) }
{
    n.checked_neg()
}

/// The value of an integer.
fn int_value(n: Option<i128>) -> Option<Value>
    ensures { result ≡ int_constant n }
{
    match n {
        Some(n) => Some(Value::Int(n)),
        None => None,
    }
}

/// `binary-+`.
pub(crate) fn sum(a: &Value, b: &Value) -> Option<Value>
    ensures { result ≡ int_constant (narrow (int_of (val_of a.now) +ℤ int_of (val_of b.now))) }
{
    int_value(narrow_sum(integer_in(a), integer_in(b)))
}

/// `binary-*`.
pub(crate) fn product(a: &Value, b: &Value) -> Option<Value>
    ensures { result ≡ int_constant (narrow (int_of (val_of a.now) *ℤ int_of (val_of b.now))) }
{
    int_value(narrow_product(integer_in(a), integer_in(b)))
}

/// `unary--`.
pub(crate) fn negation(v: &Value) -> Option<Value>
    ensures { result ≡ int_constant (narrow (neg_ℤ (int_of (val_of v.now)))) }
{
    int_value(narrow_negation(integer_in(v)))
}

/// `<`, as a test.
pub(crate) fn is_less(a: &Value, b: &Value) -> bool
    ensures { result ≡ int_lt (int_of (val_of a.now)) (int_of (val_of b.now)) }
{
    integer_in(a) < integer_in(b)
}

/// The first part of a cons, or `nil`.
pub(crate) fn first_of(alloc: Global, v: &Value) -> Result<Value, NoMemory>
    ensures { IfOk result (λ r. r ≡ first_part (out-Value v.now)) }
{
    match v {
        Value::Cons(first, _) => copy(alloc, first.get()),
        _ => Ok(nil_value()),
    }
}

/// The second part of a cons, or `nil`.
pub(crate) fn rest_of(alloc: Global, v: &Value) -> Result<Value, NoMemory>
    ensures { IfOk result (λ r. r ≡ rest_part (out-Value v.now)) }
{
    match v {
        Value::Cons(_, rest) => copy(alloc, rest.get()),
        _ => Ok(nil_value()),
    }
}

/// A character's code, or 0.
pub(crate) fn code_of(v: &Value) -> Value
    ensures { result ≡ code_part (out-Value v.now) }
{
    match v {
        Value::Chr(code) => Value::Int(i128::from(*code)),
        _ => Value::Int(0),
    }
}

/// The character of an integer from 0 to 255, or that of code 0.
pub(crate) fn character_of(v: &Value) -> Value
    ensures { result ≡ character_part (out-Value v.now) }
{
    match v {
        Value::Int(n) if 0 <= *n && *n < 256 => Value::Chr(*n as u8),
        _ => Value::Chr(0),
    }
}

/// A symbol's name as a string, or the empty string.
pub(crate) fn name_of(alloc: Global, v: &Value) -> Result<Value, NoMemory>
    ensures { IfOk result (λ r. r ≡ name_part (out-Value v.now)) }
{
    match v {
        Value::Sym(symbol) => Ok(Value::Str(symbol.name.share()?)),
        _ => Value::string(alloc, Bytes::new(alloc)),
    }
}
