ghost use Rattle.std.specs.Prelude.{◌≡◌, false, IfOk};
ghost use Rattle.ap_reader.specs.Faults.{Gives, at_place};
ghost use Rattle.ap_reader.specs.Strings.{unquoted, code_of};

use crate::fault::{ReadError, ReadKind, fault_at};
use ap_tokens::char_named;
use ap_value::{Bytes, NoMemory, Seq};
use std::alloc::Global;

/// The bytes of a string, from its first quote's next byte on. A backslash takes the next byte as it is.
#[tactic(auto, using(crate::proofs::Steps::steps))]
pub(crate) fn unquoted(alloc: Global, text: &[u8]) -> Result<Bytes, NoMemory>
    ensures { IfOk result (λ bytes. bytes ≡ unquoted false text.now) }
{
    let mut out = Seq::new(alloc);
    let (mut escape, mut n) = (false, 0);
    while n < text.len() {
        let byte = text[n];
        n += 1;
        if escape {
            escape = false;
            out.push(byte)?;
        } else if byte == b'"' {
            return Ok(out);
        } else if byte == b'\\' {
            escape = true;
        } else {
            out.push(byte)?;
        }
    }
    Ok(out)
}

/// The code of a character, from the byte after `#\` on.
pub(crate) fn code(place: usize, text: &[u8]) -> Result<u8, ReadError>
    ensures { Gives (λ c. c) result (at_place place (code_of text.now)) }
{
    if let [byte] = text {
        return Ok(*byte);
    }
    match char_named(text) {
        Some(byte) => Ok(byte),
        None => Err(fault_at(place, ReadKind::BadCharName)),
    }
}
