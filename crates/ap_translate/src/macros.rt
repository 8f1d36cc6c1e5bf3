ghost use Rattle.std.specs.Prelude.{◌≡◌, map, option_map, get_or, take, drop};
ghost use Rattle.std.specs.List.{list_all};
ghost use Rattle.ap_list.specs.Lists.{lookup_by};
ghost use Rattle.ap_value.specs.Values.{symbol_eq, acl2};
ghost use Rattle.ap_translate.specs.Macros.{macro_of, path_of, is_macro, fits, is_turn, inner, accessor_path};

use crate::names::is_named;
use ap_value::Symbol;

/// The macros, but for the nested `car`s and `cdr`s.
#[derive(Clone, Copy, Debug)]
pub enum Macro {
    Quote,
    Cond,
    Let,
    LetStar,
    And,
    Or,
    Plus,
    Times,
    Minus,
    Greater,
    AtMost,
    AtLeast,
    Differs,
    Increment,
    Decrement,
    List,
    ListStar,
    Append,
}

/// What stands beside the name in a table.
fn find_named(symbol: &Symbol, table: &[(&'static [u8], Macro)]) -> Option<Macro>
    ensures { result ≡ lookup_by symbol_eq (map (λ p. (acl2 p.0.now, p.1)) table.now) symbol.now }
{
    for (name, found) in table {
        if is_named(symbol, name) {
            return Some(*found);
        }
    }
    None
}

/// The macro of a name, if it has one.
pub(crate) fn macro_of(name: &Symbol) -> Option<Macro>
    ensures { result ≡ macro_of name.now }
{
    find_named(
        name,
        &[
            (b"QUOTE", Macro::Quote),
            (b"COND", Macro::Cond),
            (b"LET", Macro::Let),
            (b"LET*", Macro::LetStar),
            (b"AND", Macro::And),
            (b"OR", Macro::Or),
            (b"+", Macro::Plus),
            (b"*", Macro::Times),
            (b"-", Macro::Minus),
            (b">", Macro::Greater),
            (b"<=", Macro::AtMost),
            (b">=", Macro::AtLeast),
            (b"/=", Macro::Differs),
            (b"1+", Macro::Increment),
            (b"1-", Macro::Decrement),
            (b"LIST", Macro::List),
            (b"LIST*", Macro::ListStar),
            (b"APPEND", Macro::Append),
        ],
    )
}

/// Whether a macro whose arguments are terms takes so many.
pub(crate) fn fits(found: Macro, count: usize) -> bool
    ensures { result ≡ fits found count }
{
    match found {
        Macro::And | Macro::Or | Macro::Plus | Macro::Times | Macro::List | Macro::Append => true,
        Macro::ListStar => count >= 1,
        Macro::Minus => count == 1 || count == 2,
        Macro::Increment | Macro::Decrement => count == 1,
        Macro::Greater | Macro::AtMost | Macro::AtLeast | Macro::Differs => count == 2,
        Macro::Quote | Macro::Cond | Macro::Let | Macro::LetStar => false,
    }
}

/// Whether a byte is an `A` or a `D`.
fn is_turn(byte: u8) -> bool
    ensures { result ≡ is_turn byte }
{
    byte == b'A' || byte == b'D'
}

fn are_turns(bytes: &[u8]) -> bool
    ensures { result ≡ list_all is_turn bytes.now }
{
    bytes.iter().all(|byte| is_turn(*byte))
}

/// The `A`s and `D`s of a name `C..R` with two to four of them.
fn accessor_path(name: &[u8]) -> Option<&[u8]>
    ensures { option_map (λ s. s.now) result ≡ accessor_path name.now }
{
    if name.len() < 4 || name.len() > 6 {
        return None;
    }
    let path = &name[1..name.len() - 1];
    if name[0] == b'C' && name[name.len() - 1] == b'R' && are_turns(path) {
        Some(path)
    } else {
        None
    }
}

/// The `A`s and `D`s that a name stands for, the outermost `car` or `cdr` first.
#[tactic(auto, unfolding(crate::specs::Macros::path_of))]
pub(crate) fn path_of(symbol: &Symbol) -> Option<&[u8]>
    ensures { option_map (λ s. s.now) result ≡ path_of symbol.now }
{
    if symbol.keyword {
        return None;
    }
    let name = symbol.name.as_slice();
    if is_named(symbol, b"FIRST") {
        Some(b"A")
    } else if is_named(symbol, b"SECOND") {
        Some(b"AD")
    } else if is_named(symbol, b"REST") {
        Some(b"D")
    } else {
        accessor_path(name)
    }
}

/// Whether a symbol is the name of a macro.
pub(crate) fn is_macro(symbol: &Symbol) -> bool
    ensures { result ≡ is_macro symbol.now }
{
    macro_of(symbol).is_some() || path_of(symbol).is_some()
}
