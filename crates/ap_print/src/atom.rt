ghost use Rattle.std.specs.Prelude.{◌≡◌, ◌++◌, OnOk};
ghost use Rattle.std.specs.Fmt.{signed_decimal};
ghost use Rattle.ap_term.specs.Printed.{escaped_byte, escaped, quoted, colon_text, symbol_text, character_name, character_text, is_nil};

use ap_term::{Bytes, NoMemory, Symbol, reads_back};
use itoa::Buffer;

/// Adds an integer in decimal.
pub fn put_integer(text: &mut Bytes, n: i128) -> Result<(), NoMemory>
    ensures { OnOk result (text.new ≡ text.old ++ signed_decimal n) }
{
    let mut buffer = Buffer::new();
    text.extend(buffer.format(n).as_bytes())
}

/// Adds a byte that stands between two closing ones.
fn put_escaped_byte(text: &mut Bytes, close: u8, c: u8) -> Result<(), NoMemory>
    ensures { OnOk result (text.new ≡ text.old ++ escaped_byte close c) }
{
    if c == close || c == b'\\' {
        text.push(b'\\')?;
    }
    text.push(c)
}

fn put_escaped(text: &mut Bytes, close: u8, codes: &[u8]) -> Result<(), NoMemory>
    ensures { OnOk result (text.new ≡ text.old ++ escaped close codes.now) }
{
    for c in codes {
        put_escaped_byte(text, close, *c)?;
    }
    Ok(())
}

/// Adds a text between two closing bytes, with `\` before each of them and before each `\`.
pub fn put_quoted(text: &mut Bytes, close: u8, codes: &[u8]) -> Result<(), NoMemory>
    ensures { OnOk result (text.new ≡ text.old ++ quoted close codes.now) }
{
    text.push(close)?;
    put_escaped(text, close, codes)?;
    text.push(close)
}

#[tactic(auto, unfolding(ap_term::specs::Printed::colon_text))]
fn put_colon(text: &mut Bytes, keyword: bool) -> Result<(), NoMemory>
    ensures { OnOk result (text.new ≡ text.old ++ colon_text keyword) }
{
    if keyword {
        text.extend(b":")?;
    }
    Ok(())
}

/// Adds a symbol: a keyword behind `:`, and a name that wouldn't be read back between bars.
#[tactic(auto, unfolding(ap_term::specs::Printed::symbol_text))]
pub fn put_symbol(text: &mut Bytes, symbol: &Symbol) -> Result<(), NoMemory>
    ensures { OnOk result (text.new ≡ text.old ++ symbol_text symbol.now) }
{
    put_colon(text, symbol.keyword)?;
    if reads_back(symbol) {
        text.extend(symbol.name.as_slice())
    } else {
        put_quoted(text, b'|', symbol.name.as_slice())
    }
}

/// Adds a character by its name, or as its byte.
#[tactic(auto, unfolding(ap_term::specs::Printed::character_name))]
fn put_character_name(text: &mut Bytes, code: u8) -> Result<(), NoMemory>
    ensures { OnOk result (text.new ≡ text.old ++ character_name code) }
{
    match code {
        32 => text.extend(b"Space"),
        10 => text.extend(b"Newline"),
        9 => text.extend(b"Tab"),
        12 => text.extend(b"Page"),
        127 => text.extend(b"Rubout"),
        _ => text.push(code),
    }
}

/// Adds a character behind `#` and a backslash.
#[tactic(auto, unfolding(ap_term::specs::Printed::character_text))]
pub fn put_character(text: &mut Bytes, code: u8) -> Result<(), NoMemory>
    ensures { OnOk result (text.new ≡ text.old ++ character_text code) }
{
    text.extend(b"#\\")?;
    put_character_name(text, code)
}

/// Whether a symbol is `nil`, which ends a list.
#[tactic(auto, unfolding(ap_term::specs::Printed::is_nil))]
pub fn is_nil(symbol: &Symbol) -> bool
    ensures { result ≡ is_nil symbol.now }
{
    !symbol.keyword && symbol.name.as_slice() == b"NIL".as_slice()
}
