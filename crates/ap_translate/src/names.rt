ghost use Rattle.std.specs.Prelude.{◌≡◌, IfOk, get_or};
ghost use Rattle.ap_value.specs.Values.{symbol_eq, acl2};
ghost use Rattle.ap_world.specs.Names.{t_name, nil_name};
ghost use Rattle.ap_world.specs.Primitives.{prim_arity};
ghost use Rattle.ap_translate.specs.Names.{is_constant, is_starred, can_be_bound, is_word, may_name, may_name_constant};

use crate::macros::is_macro;
use ap_list::NoMemory;
use ap_term::is_among;
use ap_value::Symbol;
use ap_world::Primitive;
use std::alloc::Global;

/// The symbol of package `ACL2` with this name.
pub(crate) fn acl2(alloc: Global, name: &[u8]) -> Result<Symbol, NoMemory>
    ensures { IfOk result (λ s. s ≡ acl2 name.now) }
{
    ap_value::acl2(alloc, name)
}

/// Whether a symbol is the one of package `ACL2` with this name.
pub(crate) fn is_named(symbol: &Symbol, name: &[u8]) -> bool
    ensures { result ≡ symbol_eq symbol.now (acl2 name.now) }
{
    !symbol.keyword && symbol.name.as_slice() == name
}

/// Whether a symbol is a constant: `t`, `nil` or a keyword.
#[tactic(auto, unfolding(ap_world::specs::Names::t_name, ap_world::specs::Names::nil_name))]
pub(crate) fn is_constant(symbol: &Symbol) -> bool
    ensures { result ≡ is_constant symbol.now }
{
    symbol.keyword || is_named(symbol, b"T") || is_named(symbol, b"NIL")
}

/// Whether a name stands between asterisks.
pub(crate) fn is_starred(name: &[u8]) -> bool
    ensures { result ≡ is_starred name.now }
{
    name.len() >= 3 && name[0] == b'*' && name[name.len() - 1] == b'*'
}

/// Whether a symbol may be a variable besides those that are bound already.
pub fn can_be_bound(symbol: &Symbol, bound: &[Symbol]) -> bool
    ensures { result ≡ can_be_bound symbol.now bound.now }
{
    !is_constant(symbol) && !is_starred(symbol.name.as_slice()) && !is_among(symbol, bound)
}

/// Whether a symbol is the name of a macro, or `lambda`.
fn is_word(symbol: &Symbol) -> bool
    ensures { result ≡ is_word symbol.now }
{
    is_macro(symbol) || is_named(symbol, b"LAMBDA")
}

/// Whether a symbol may name a function or a theorem: it isn't `t`, `nil`, a keyword, the name of a macro or `lambda`,
/// and doesn't stand between asterisks. Takes no memory.
pub fn may_name(symbol: &Symbol) -> bool
    ensures { result ≡ may_name symbol.now }
{
    !is_constant(symbol) && !is_word(symbol) && !is_starred(symbol.name.as_slice())
}

/// Whether a symbol may name a constant: it stands between asterisks, with a byte between them, and isn't a
/// keyword. Takes no memory.
pub fn may_name_constant(symbol: &Symbol) -> bool
    ensures { result ≡ may_name_constant symbol.now }
{
    !is_constant(symbol) && !is_macro(symbol) && is_starred(symbol.name.as_slice())
}

/// How many arguments a primitive takes.
pub(crate) fn primitive_arity(primitive: Primitive) -> usize
    ensures { result ≡ prim_arity primitive }
{
    match primitive {
        Primitive::If => 3,
        Primitive::Equal
        | Primitive::Cons
        | Primitive::Plus
        | Primitive::Times
        | Primitive::Less
        | Primitive::Coerce => 2,
        _ => 1,
    }
}
