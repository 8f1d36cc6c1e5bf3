ghost use Rattle.std.specs.Prelude.{◌≡◌, map};
ghost use Rattle.ap_list.specs.Lists.{lookup_by};
ghost use Rattle.ap_value.specs.Values.{symbol_eq, acl2};
ghost use Rattle.ap_world.specs.Primitives.{prim_of};

use ap_value::{Symbol, is_named};

/// The primitives: the functions that no definition gives. Their values are those of the manual's topics
/// of these names.
#[derive(Clone, Copy, Debug)]
pub enum Primitive {
    If,
    Equal,
    Consp,
    Integerp,
    Symbolp,
    Stringp,
    Characterp,
    Cons,
    Car,
    Cdr,
    Plus,
    Times,
    Minus,
    Less,
    CharCode,
    CodeChar,
    SymbolName,
    Coerce,
}

/// What stands beside the name in a table.
fn find_named(symbol: &Symbol, table: &[(&'static [u8], Primitive)]) -> Option<Primitive>
    ensures { result ≡ lookup_by symbol_eq (map (λ p. (acl2 p.0.now, p.1)) table.now) symbol.now }
{
    for (name, primitive) in table {
        if is_named(symbol, name) {
            return Some(*primitive);
        }
    }
    None
}

/// The primitive of a name, if it has one: the names of its length are looked through. Takes no memory.
pub fn primitive_of(name: &Symbol) -> Option<Primitive>
    ensures { result ≡ prim_of name.now }
{
    match name.name.len() {
        1 => find_named(name, &[(b"<", Primitive::Less)]),
        2 => find_named(name, &[(b"IF", Primitive::If)]),
        3 => find_named(name, &[(b"CAR", Primitive::Car), (b"CDR", Primitive::Cdr)]),
        4 => find_named(name, &[(b"CONS", Primitive::Cons)]),
        5 => find_named(
            name,
            &[(b"EQUAL", Primitive::Equal), (b"CONSP", Primitive::Consp)],
        ),
        6 => find_named(name, &[(b"COERCE", Primitive::Coerce)]),
        7 => find_named(
            name,
            &[
                (b"SYMBOLP", Primitive::Symbolp),
                (b"STRINGP", Primitive::Stringp),
                (b"UNARY--", Primitive::Minus),
            ],
        ),
        8 => find_named(
            name,
            &[
                (b"INTEGERP", Primitive::Integerp),
                (b"BINARY-+", Primitive::Plus),
                (b"BINARY-*", Primitive::Times),
            ],
        ),
        9 => find_named(
            name,
            &[
                (b"CHAR-CODE", Primitive::CharCode),
                (b"CODE-CHAR", Primitive::CodeChar),
            ],
        ),
        10 => find_named(name, &[(b"CHARACTERP", Primitive::Characterp)]),
        11 => find_named(name, &[(b"SYMBOL-NAME", Primitive::SymbolName)]),
        _ => None,
    }
}
