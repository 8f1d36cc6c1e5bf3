//! What the tables of forms have in common.

use ap_list::{Bytes, NoMemory, Text};
use ap_reader::Form;
use ap_tests_terms::read;
use ap_translate::{TransError, TransKind};
use ap_value::Symbol;
use std::alloc::Global;

/// The one form of a text.
pub(crate) fn one_form(alloc: Global, text: &str) -> Option<Form> {
    let mut read = read(alloc, text);
    if read.len() == 1 { read.pop() } else { None }
}

/// A word.
pub(crate) fn word(alloc: Global, text: &str) -> Result<Bytes, NoMemory> {
    Bytes::from_slice(alloc, text.as_bytes())
}

/// A symbol that is no keyword.
pub(crate) fn symbol(alloc: Global, name: &str) -> Result<Symbol, NoMemory> {
    let name = Text::new(alloc, word(alloc, name)?)?;
    Ok(Symbol {
        keyword: false,
        name,
    })
}

/// What a refusal is written as: its number and its place.
pub(crate) fn refusal(alloc: Global, error: &TransError) -> Result<Bytes, NoMemory> {
    match error {
        TransError::Fault { place, kind } => numbered(alloc, *kind, *place),
        TransError::NoMemory => word(alloc, "no memory"),
    }
}

fn numbered(alloc: Global, kind: TransKind, place: usize) -> Result<Bytes, NoMemory> {
    let text = format!(in alloc; "{} at {place}", kind.number())?;
    word(alloc, text.as_str())
}
