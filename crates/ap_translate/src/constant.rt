ghost use Rattle.std.specs.Prelude.{◌≡◌, ◌∷◌, [], Ok, Some, IfOk, IfSome};
ghost use Rattle.ap_value.specs.declared.value.Value.TheVariants.{Str, Sym, Cons};
ghost use Rattle.ap_translate.specs.Answers.{Gives, shaped, each};
ghost use Rattle.ap_translate.specs.Quoted.{nil_value, conses, quote_list, constants, constant_in, quote_name, list_constant, dotted_constant, quoted_constant};
ghost use Rattle.ap_translate.specs.Sizes.{small_value, few_values, capped, list_values, AreCounted, list_small};

use crate::fault::{TransError, TransKind, refused_at};
use crate::names::acl2;
use crate::sizes::{MOST_NODES, Values, add_value, no_values, small_value};
use ap_list::{Bytes, NoMemory, Seq};
use ap_reader::{Form, FormRef, lend};
use ap_value::{Value, copy_symbol};
use std::alloc::Global;

/// The constant that a string is, where it has at most 4,096 nodes.
pub(crate) fn string(alloc: Global, bytes: &[u8]) -> Result<Option<Value>, NoMemory>
    ensures { IfOk result (λ o. o ≡ small_value (Str bytes.now)) }
{
    if bytes.len() as u64 >= MOST_NODES {
        return Ok(None);
    }
    Ok(Some(Value::string(alloc, Bytes::from_slice(alloc, bytes)?)?))
}

/// The constant `nil`.
#[tactic(auto, unfolding(ap_world::specs::Names::nil_name))]
pub(crate) fn nil(alloc: Global) -> Result<Value, NoMemory>
    ensures { IfOk result (λ v. v ≡ nil_value) }
{
    Ok(Value::Sym(acl2(alloc, b"NIL")?))
}

/// The values alone.
fn values_of(list: Option<Values>) -> Option<Seq<Value>>
    ensures { result ≡ list_values list }
{
    match list {
        Some(list) => Some(list.values),
        None => None,
    }
}

/// Values as a list with this end.
#[tactic(auto, using(crate::proofs::Constants::conses_last))]
fn chained(alloc: Global, values: Seq<Value>, end: Value) -> Result<Value, NoMemory>
    ensures { IfOk result (λ v. v ≡ conses values end) }
{
    let mut left = values;
    let mut chain = end;
    while let Some(value) = left.pop() {
        chain = Value::cons(alloc, value, chain)?;
    }
    Ok(chain)
}

/// Values as a list with this end, where it has at most 4,096 nodes.
fn list_value(
    alloc: Global,
    list: Option<Seq<Value>>,
    end: Option<Value>,
) -> Result<Option<Value>, NoMemory>
    ensures { IfOk result (λ o. o ≡ list_small list end) }
{
    let (Some(list), Some(end)) = (list, end) else {
        return Ok(None);
    };
    let value = chained(alloc, list, end)?;
    Ok(small_value(value))
}

/// The symbol that a quote mark stands for.
#[tactic(auto, unfolding(crate::specs::Quoted::quote_name))]
pub(crate) fn quote_symbol(alloc: Global) -> Result<Value, NoMemory>
    ensures { IfOk result (λ v. v ≡ Sym quote_name) }
{
    Ok(Value::Sym(acl2(alloc, b"QUOTE")?))
}

/// Values as a list that ends with `nil`, where it has at most 4,096 nodes.
fn proper_list(alloc: Global, list: Option<Seq<Value>>) -> Result<Option<Value>, NoMemory>
    ensures { IfOk result (λ o. o ≡ list_small list (Some nil_value)) }
{
    let end = nil(alloc)?;
    list_value(alloc, list, Some(end))
}

/// The list `(X)` of a constant.
fn list_of_one(alloc: Global, inner: Value) -> Result<Value, NoMemory>
    ensures { IfOk result (λ v. v ≡ Cons inner nil_value) }
{
    let end = nil(alloc)?;
    Value::cons(alloc, inner, end)
}

/// The list `(QUOTE X)` of a constant.
fn quote_list(alloc: Global, inner: Value) -> Result<Value, NoMemory>
    ensures { IfOk result (λ v. v ≡ quote_list inner) }
{
    let rest = list_of_one(alloc, inner)?;
    Value::cons(alloc, quote_symbol(alloc)?, rest)
}

/// The constant that a form is within a quote. So many more may be nested in it.
#[cycle(constants)]
pub(crate) fn constant(alloc: Global, left: usize, form: &Form) -> Result<Option<Value>, TransError>
    ensures { Gives result (capped small_value (constant_in left form.now)) }
{
    let place = form.place;
    match lend(form) {
        FormRef::Int(n) => Ok(Some(Value::Int(n))),
        FormRef::Chr(code) => Ok(Some(Value::Chr(code))),
        FormRef::Str(bytes) => Ok(string(alloc, bytes)?),
        FormRef::Sym(symbol) => Ok(Some(Value::Sym(copy_symbol(alloc, symbol)?))),
        FormRef::List(items) => {
            let found = list(alloc, left, place, items)?;
            Ok(found)
        }
        FormRef::Dotted(items, last) => {
            let found = dotted(alloc, left, place, items, last)?;
            Ok(found)
        }
        FormRef::Quoted(inner) => {
            let found = quoted(alloc, left, place, inner)?;
            Ok(found)
        }
        FormRef::Quasi(_) => Err(refused_at(place, TransKind::BadForm)),
        FormRef::Comma(_) => Err(refused_at(place, TransKind::CommaOutside)),
        FormRef::CommaAt(_) => Err(refused_at(place, TransKind::CommaOutside)),
    }
}

/// The constants of a list's forms, and how many nodes a list of them has.
#[cycle(constants)]
fn constants(alloc: Global, left: usize, items: &[Form]) -> Result<Option<Seq<Value>>, TransError>
    ensures { Gives result (capped few_values (each (constant_in left) items.now)) }
{
    let mut out = Some(no_values(alloc));
    for item in items {
        let next = constant(alloc, left, item)?;
        out = add_value(out, next)?;
    }
    Ok(values_of(out))
}

#[cycle(constants)]
#[tactic(auto, using(crate::proofs::Nestings::nestings))]
fn list(
    alloc: Global,
    left: usize,
    place: usize,
    items: &[Form],
) -> Result<Option<Value>, TransError>
    ensures { Gives result (capped small_value (shaped place (constants left) (λ c. list_constant c items.now))) }
{
    if left == 0 {
        return Err(refused_at(place, TransKind::BadForm));
    }
    let values = constants(alloc, left - 1, items)?;
    let value = proper_list(alloc, values)?;
    Ok(value)
}

#[cycle(constants)]
#[tactic(auto, using(crate::proofs::Nestings::nestings))]
fn dotted(
    alloc: Global,
    left: usize,
    place: usize,
    items: &[Form],
    last: &Form,
) -> Result<Option<Value>, TransError>
    ensures { Gives result (capped small_value (shaped place (constants left) (λ c. dotted_constant c items.now last.now))) }
{
    if left == 0 {
        return Err(refused_at(place, TransKind::BadForm));
    }
    let values = constants(alloc, left - 1, items)?;
    let end = constant(alloc, left - 1, last)?;
    let value = list_value(alloc, values, end)?;
    Ok(value)
}

#[cycle(constants)]
#[tactic(auto, using(crate::proofs::Nestings::nestings))]
fn quoted(
    alloc: Global,
    left: usize,
    place: usize,
    inner: &Form,
) -> Result<Option<Value>, TransError>
    ensures { Gives result (capped small_value (shaped place (constants left) (λ c. quoted_constant c inner.now))) }
{
    if left == 0 {
        return Err(refused_at(place, TransKind::BadForm));
    }
    match constant(alloc, left - 1, inner)? {
        None => Ok(None),
        Some(inner) => {
            let value = quote_list(alloc, inner)?;
            Ok(small_value(value))
        }
    }
}
