// Strings and lists of characters.
ghost use Rattle.std.specs.Prelude.{◌≡◌, ◌++◌, IfOk, OnOk, map};
ghost use Rattle.ap_value.specs.declared.value.Value.{out-Value};
ghost use Rattle.ap_value.specs.Values.{val_of};
ghost use Rattle.ap_world.specs.Primitives.{char_in};
ghost use Rattle.ap_world.specs.Units.{characters, list_part, codes_in, coerced};

use crate::kinds::{is_list_name, nil_value};
use ap_list::{Bytes, NoMemory};
use ap_value::Value;
use std::alloc::Global;

/// The list of characters of these codes.
fn characters_of(alloc: Global, codes: &[u8]) -> Result<Value, NoMemory>
    ensures { IfOk result (λ r. r ≡ characters codes.now) }
{
    let mut list = nil_value();
    let mut left = codes.len();
    while left > 0 {
        left -= 1;
        list = Value::cons(alloc, Value::Chr(codes[left]), list)?;
    }
    Ok(list)
}

/// The list of a string's characters, or `nil`.
fn list_of(alloc: Global, v: &Value) -> Result<Value, NoMemory>
    ensures { IfOk result (λ r. r ≡ list_part (out-Value v.now)) }
{
    match v {
        Value::Str(codes) => characters_of(alloc, codes.as_slice()),
        _ => Ok(nil_value()),
    }
}

/// The code of a character, or 0.
fn code_in(v: &Value) -> u8
    ensures { result ≡ (char_in (val_of v.now)).code }
{
    match v {
        Value::Chr(code) => *code,
        _ => 0,
    }
}

/// The codes of a list's characters.
fn codes_of(alloc: Global, v: &Value) -> Result<Bytes, NoMemory>
    ensures { IfOk result (λ r. r ≡ codes_in v.now) }
{
    let mut codes = Bytes::new(alloc);
    let mut rest = v;
    while let Value::Cons(first, more) = rest {
        codes.push(code_in(first.get()))?;
        rest = more.get();
    }
    Ok(codes)
}

/// `coerce`: the list of a string's characters where the second value is the symbol `list`, else the
/// string of a list's characters.
pub(crate) fn coercion(alloc: Global, x: &Value, y: &Value) -> Result<Value, NoMemory>
    ensures { IfOk result (λ r. r ≡ coerced x.now y.now) }
{
    if is_list_name(y) {
        return list_of(alloc, x);
    }
    Value::string(alloc, codes_of(alloc, x)?)
}
