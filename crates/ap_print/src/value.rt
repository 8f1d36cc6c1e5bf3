ghost use Rattle.std.specs.Prelude.{◌≡◌, ◌++◌, codes, OnOk, IfOk};
ghost use Rattle.ap_term.specs.Printed.{symbol_written, value_text, rest_text};

use crate::atom::{is_nil, put_character, put_integer, put_quoted, put_symbol};
use ap_term::{Bytes, NoMemory, Seq, Symbol, Value};
use std::alloc::Global;

/// Adds the dot before the last part of a list that `nil` doesn't end.
fn put_dot(text: &mut Bytes) -> Result<(), NoMemory>
    ensures { OnOk result (text.new ≡ text.old ++ codes " . ") }
{
    text.extend(b" . ")
}

/// Adds a value.
#[cycle(values)]
pub fn put_value(text: &mut Bytes, v: &Value) -> Result<(), NoMemory>
    ensures { OnOk result (text.new ≡ text.old ++ value_text v.now) }
{
    match v {
        Value::Int(n) => put_integer(text, *n),
        Value::Chr(code) => put_character(text, *code),
        Value::Str(codes) => put_quoted(text, b'"', codes.as_slice()),
        Value::Sym(symbol) => put_symbol(text, symbol),
        Value::Cons(first, rest) => {
            text.extend(b"(")?;
            put_value(text, first.get())?;
            put_rest(text, rest.get())
        }
    }
}

/// Adds a value as the rest of a list, with the closing parenthesis.
#[cycle(values)]
#[tactic(auto, unfolding(ap_term::specs::Printed::dotted_rest))]
fn put_rest(text: &mut Bytes, v: &Value) -> Result<(), NoMemory>
    ensures { OnOk result (text.new ≡ text.old ++ rest_text v.now) }
{
    match v {
        Value::Int(n) => {
            put_dot(text)?;
            put_integer(text, *n)?;
            text.extend(b")")
        }
        Value::Chr(code) => {
            put_dot(text)?;
            put_character(text, *code)?;
            text.extend(b")")
        }
        Value::Str(codes) => {
            put_dot(text)?;
            put_quoted(text, b'"', codes.as_slice())?;
            text.extend(b")")
        }
        Value::Sym(symbol) => put_last_symbol(text, symbol),
        Value::Cons(first, rest) => {
            text.extend(b" ")?;
            put_value(text, first.get())?;
            put_rest(text, rest.get())
        }
    }
}

/// Adds a symbol as the rest of a list: `nil` closes it.
#[tactic(auto, unfolding(ap_term::specs::Printed::dotted_rest))]
fn put_last_symbol(text: &mut Bytes, symbol: &Symbol) -> Result<(), NoMemory>
    ensures { OnOk result (text.new ≡ text.old ++ (symbol_written symbol.now).rest) }
{
    if is_nil(symbol) {
        return text.extend(b")");
    }
    put_dot(text)?;
    put_symbol(text, symbol)?;
    text.extend(b")")
}

/// The printed bytes of a value. An integer prints in decimal; a character as `#\` and its byte, or one
/// of the names `Space`, `Newline`, `Tab`, `Page` and `Rubout`; a string between `"`; a cons as a list,
/// with a dot before a last part other than `nil`; a keyword behind `:`. A symbol that wouldn't be read
/// back prints between bars. Within `"` and bars, `\` stands before the closing byte and before `\`.
pub fn print_value(alloc: Global, v: &Value) -> Result<Bytes, NoMemory>
    ensures { IfOk result (λ text. text ≡ value_text v.now) }
{
    let mut text = Seq::new(alloc);
    put_value(&mut text, v)?;
    Ok(text)
}
