// The primitives on values.
ghost use Rattle.std.specs.Prelude.{◌≡◌, IfOk};
ghost use Rattle.ap_world.specs.Units.{unary, binary, prim_value};

use crate::kinds::{is_char, is_int, is_pair, is_same, is_sym, is_text, truth_value};
use crate::parts::{
    character_of, code_of, first_of, is_less, name_of, negation, product, rest_of, sum,
};
use crate::texts::coercion;
use ap_list::NoMemory;
use ap_value::{Value, copy};
use ap_world::Primitive;
use std::alloc::Global;

/// A primitive of one argument.
fn applied_to_one(alloc: Global, p: Primitive, x: &Value) -> Result<Option<Value>, NoMemory>
    ensures { IfOk result (λ r. r ≡ unary p x.now) }
{
    match p {
        Primitive::Consp => Ok(Some(truth_value(is_pair(x)))),
        Primitive::Integerp => Ok(Some(truth_value(is_int(x)))),
        Primitive::Symbolp => Ok(Some(truth_value(is_sym(x)))),
        Primitive::Stringp => Ok(Some(truth_value(is_text(x)))),
        Primitive::Characterp => Ok(Some(truth_value(is_char(x)))),
        Primitive::Car => Ok(Some(first_of(alloc, x)?)),
        Primitive::Cdr => Ok(Some(rest_of(alloc, x)?)),
        Primitive::Minus => Ok(negation(x)),
        Primitive::CharCode => Ok(Some(code_of(x))),
        Primitive::CodeChar => Ok(Some(character_of(x))),
        Primitive::SymbolName => Ok(Some(name_of(alloc, x)?)),
        _ => Ok(None),
    }
}

/// A cons of copies.
fn pair(alloc: Global, x: &Value, y: &Value) -> Result<Value, NoMemory>
    ensures { IfOk result (λ r. r ≡ Value.Cons x.now y.now) }
{
    Value::cons(alloc, copy(alloc, x)?, copy(alloc, y)?)
}

/// A primitive of two arguments.
fn applied_to_two(
    alloc: Global,
    p: Primitive,
    x: &Value,
    y: &Value,
) -> Result<Option<Value>, NoMemory>
    ensures { IfOk result (λ r. r ≡ binary p x.now y.now) }
{
    match p {
        Primitive::Equal => Ok(Some(truth_value(is_same(x, y)))),
        Primitive::Cons => Ok(Some(pair(alloc, x, y)?)),
        Primitive::Plus => Ok(sum(x, y)),
        Primitive::Times => Ok(product(x, y)),
        Primitive::Less => Ok(Some(truth_value(is_less(x, y)))),
        Primitive::Coerce => Ok(Some(coercion(alloc, x, y)?)),
        _ => Ok(None),
    }
}

/// The value of a primitive other than `if`: `None` where an integer leaves 128 bits (or the number of
/// arguments is another).
pub(crate) fn applied(
    alloc: Global,
    p: Primitive,
    values: &[Value],
) -> Result<Option<Value>, NoMemory>
    ensures { IfOk result (λ r. r ≡ prim_value p values.now) }
{
    match values {
        [x] => applied_to_one(alloc, p, x),
        [x, y] => applied_to_two(alloc, p, x, y),
        _ => Ok(None),
    }
}
