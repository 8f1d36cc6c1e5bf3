ghost use Rattle.std.specs.Prelude.{◌≡◌, ◌+◌, ◌-◌, ◌^◌, ◌<◌, ◌↔◌, true, IsTrue, IfOk, IfSome, IfNone};
ghost use Rattle.ap_value.specs.declared.value.Value.{Value, Str, Cons};
ghost use Rattle.ap_value.specs.Equal.{constant_eq};
ghost use Rattle.ap_value.specs.Values.{val_of};
ghost use Rattle.ap_value.specs.Counts.{node_count, acl2_count_of};

use crate::symbol::{Symbol, copy_symbol, same_code, same_symbol, same_text};
use ap_list::{Bytes, NoMemory, Shared, Text};
use std::alloc::Global;

/// A value: an integer, a character by its code, a string by the codes of its characters, a symbol, or
/// a cons of two values. Integers of the universe have no bound, those of a program 128 bits. Copies share
/// a string's codes and the parts of a cons.
#[derive(Debug, Drop, PartialEq, Eq, Hash)]
pub enum Value {
    Int(i128),
    Chr(u8),
    Str(Text),
    Sym(Symbol),
    Cons(Shared<Value>, Shared<Value>),
}

impl Value {
    /// The string of these codes, moved to where copies share them.
    pub fn string(alloc: Global, codes: Bytes) -> Result<Value, NoMemory>
        ensures { IfOk result (λ v. v ≡ Str codes) }
    {
        Ok(Value::Str(Text::new(alloc, codes)?))
    }

    /// The cons of two values, moved to where copies share them.
    pub fn cons(alloc: Global, first: Value, rest: Value) -> Result<Value, NoMemory>
        ensures { IfOk result (λ v. v ≡ Cons first rest) }
    {
        let first = Shared::new(alloc, first)?;
        let rest = Shared::new(alloc, rest)?;
        Ok(Value::Cons(first, rest))
    }
}

/// Whether two values are one: ACL2's `equal`. Takes no memory.
pub fn same(a: &Value, b: &Value) -> bool
    ensures equal { IsTrue result ↔ (a.now ≡ b.now) }
    ensures meant { IsTrue result ↔ (val_of a.now ≡ val_of b.now) }
{
    match (a, b) {
        (Value::Int(x), Value::Int(y)) => *x == *y,
        (Value::Chr(x), Value::Chr(y)) => same_code(*x, *y),
        (Value::Str(x), Value::Str(y)) => same_text(x, y),
        (Value::Sym(x), Value::Sym(y)) => same_symbol(x, y),
        (Value::Cons(x, xs), Value::Cons(y, ys)) => same(x.get(), y.get())
            && same(xs.get(), ys.get()),
        _ => false,
    }
}

/// A copy of a value, which shares its parts: it takes no memory.
pub fn copy(alloc: Global, v: &Value) -> Result<Value, NoMemory>
    ensures { IfOk result (λ r. r ≡ v.now) }
{
    match v {
        Value::Int(n) => Ok(Value::Int(*n)),
        Value::Chr(code) => Ok(Value::Chr(*code)),
        Value::Str(codes) => Ok(Value::Str(codes.share()?)),
        Value::Sym(symbol) => Ok(Value::Sym(copy_symbol(alloc, symbol)?)),
        Value::Cons(first, rest) => {
            let first = first.share()?;
            let rest = rest.share()?;
            Ok(Value::Cons(first, rest))
        }
    }
}

/// The number of nodes: 1 for an integer, a character and a symbol, 1 and its length for a string, 1 and
/// both parts for a cons. `None` exactly where it passes 64 bits. Takes no memory.
pub fn nodes(v: &Value) -> Option<u64>
    ensures fits { IfSome result (λ n. n ≡ node_count v.now) }
    ensures past { IfNone result (2 ^ 64 - 1 < node_count v.now) }
{
    match v {
        Value::Int(_) | Value::Chr(_) | Value::Sym(_) => Some(1),
        Value::Str(codes) => (codes.len() as u64).checked_add(1),
        Value::Cons(first, rest) => {
            let parts = nodes(first.get())?.checked_add(nodes(rest.get())?)?;
            parts.checked_add(1)
        }
    }
}

/// ACL2's `acl2-count`: an integer counts its absolute value, a string its length, a cons 1 and both
/// parts, all else 0. `None` exactly where it passes 128 bits. Takes no memory.
pub fn acl2_count(v: &Value) -> Option<u128>
    ensures fits { IfSome result (λ n. n ≡ acl2_count_of v.now) }
    ensures past { IfNone result (2 ^ 128 - 1 < acl2_count_of v.now) }
{
    match v {
        Value::Int(n) => Some(n.unsigned_abs()),
        Value::Str(codes) => Some(codes.len() as u128),
        Value::Chr(_) | Value::Sym(_) => Some(0),
        Value::Cons(first, rest) => {
            let parts = acl2_count(first.get())?.checked_add(acl2_count(rest.get())?)?;
            parts.checked_add(1)
        }
    }
}

/// The law of the test of equality that definitions choose by: it is true of two values exactly where they
/// are one. It does nothing.
pub fn equality_of_values()
    ensures { (a b : Value) → (constant_eq a b ≡ true) ↔ (a ≡ b) }
{}
