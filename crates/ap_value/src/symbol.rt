ghost use Rattle.std.specs.Prelude.{◌≡◌, ◌<◌, ◌↔◌, ℕ, IsTrue, IfOk, slice_index, map};
ghost use Rattle.ap_list.specs.Texts.{fixed_bytes};
ghost use Rattle.ap_value.specs.Values.{acl2, byte_of, symbol_eq};

use ap_list::{Bytes, Fixed, NoMemory, Text};
use std::alloc::Global;

/// A symbol of the package `KEYWORD`, or else of `ACL2`, by its name as it is read: `car` has the name
/// `CAR`. The two packages are those of the manual's topic `packages` that this fragment has. Copies share
/// the name.
#[derive(Debug, Drop, PartialEq, Eq, Hash)]
pub struct Symbol {
    pub keyword: bool,
    pub name: Text,
}

/// The name of a book as the command's words have it, without `.lisp`.
#[derive(Debug, Drop)]
pub struct BookName(pub Bytes);

/// The bytes of a text, each below 256.
fn slice_of(text: &Text) -> &[u8]
    ensures value { result.now ≡ text.now }
    ensures small { (i : ℕ) → slice_index text.now i < 256 }
{
    let slice = text.as_slice();
    slice
}

/// Whether two characters have one code.
pub(crate) fn same_code(a: u8, b: u8) -> bool
    ensures same { IsTrue result ↔ (a ≡ b) }
    ensures meant { IsTrue result ↔ (byte_of a ≡ byte_of b) }
{
    a == b
}

/// Whether two texts have the same bytes. Takes no memory.
pub fn same_text(a: &Text, b: &Text) -> bool
    ensures same { IsTrue result ↔ (a.now ≡ b.now) }
    ensures meant { IsTrue result ↔ (map byte_of a.now ≡ map byte_of b.now) }
{
    // that the bytes are below 256 is known where they are lent
    let (_a, _b) = (slice_of(a), slice_of(b));
    a.same(b)
}

/// A copy of a text.
pub fn copy_bytes(alloc: Global, bytes: &Bytes) -> Result<Bytes, NoMemory>
    ensures { IfOk result (λ copy. copy ≡ bytes.now) }
{
    Bytes::from_slice(alloc, bytes.as_slice())
}

/// Whether two symbols are one. Takes no memory.
pub fn same_symbol(a: &Symbol, b: &Symbol) -> bool
    ensures same { IsTrue result ↔ (a.now ≡ b.now) }
    ensures meant { IsTrue result ↔ ((a.now.keyword ≡ b.now.keyword) × (map byte_of a.now.name ≡ map byte_of b.now.name)) }
{
    a.keyword == b.keyword && same_text(&a.name, &b.name)
}

/// A copy of a symbol, which shares the name: it takes no memory.
pub fn copy_symbol(_alloc: Global, symbol: &Symbol) -> Result<Symbol, NoMemory>
    ensures { IfOk result (λ copy. copy ≡ symbol.now) }
{
    let name = symbol.name.share()?;
    Ok(Symbol {
        keyword: symbol.keyword,
        name,
    })
}

/// The symbol of package `ACL2` with a name as it is read, in upper case.
pub fn acl2(alloc: Global, name: &[u8]) -> Result<Symbol, NoMemory>
    ensures { IfOk result (λ s. s ≡ acl2 name.now) }
{
    let name = Text::new(alloc, Bytes::from_slice(alloc, name)?)?;
    Ok(Symbol {
        keyword: false,
        name,
    })
}

/// The symbol of package `ACL2` with a name that the program itself has. Takes no memory.
pub fn named(name: Fixed) -> Symbol
    ensures { result ≡ acl2 (fixed_bytes name) }
{
    Symbol {
        keyword: false,
        name: Text::fixed(name),
    }
}

/// Whether a symbol is the one of package `ACL2` with this name. Takes no memory.
pub fn is_named(symbol: &Symbol, name: &[u8]) -> bool
    ensures { result ≡ symbol_eq symbol.now (acl2 name.now) }
{
    !symbol.keyword && symbol.name.as_slice() == name
}
