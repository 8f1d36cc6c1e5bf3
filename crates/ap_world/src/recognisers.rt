ghost use Rattle.std.specs.Prelude.{◌≡◌, map};
ghost use Rattle.ap_list.specs.Lists.{all_true, is_distinct, lookup_by};
ghost use Rattle.ap_value.specs.Values.{bytes_eq, symbol_eq, acl2};
ghost use Rattle.ap_term.specs.declared.term.Term.{out-Term};
ghost use Rattle.ap_term.specs.Equal.{term_eq};
ghost use Rattle.ap_world.specs.Rows.{recognised};
ghost use Rattle.ap_world.specs.Typing.{is_variable, are_distinct_variables};

use crate::masks;
use ap_term::{Shape, Term, is_term_among};
use ap_value::Symbol;

/// Whether a term is a variable. Takes no memory.
pub fn is_variable(t: &Term) -> bool
    ensures { result ≡ is_variable (out-Term t.now) }
{
    matches!(&t.shape, Shape::Var(_))
}

/// Whether all terms are variables.
fn are_variables(ts: &[Term]) -> bool
    ensures { result ≡ all_true (map (λ u. is_variable (out-Term u)) ts.now) }
{
    for t in ts {
        if !is_variable(t) {
            return false;
        }
    }
    true
}

/// Whether no term comes twice.
fn are_distinct(ts: &[Term]) -> bool
    ensures { result ≡ is_distinct term_eq ts.now }
{
    let mut left = ts;
    while let [first, rest @ ..] = left {
        if is_term_among(first, rest) {
            return false;
        }
        left = rest;
    }
    true
}

/// Whether the terms are variables, each once. Takes no memory.
pub fn are_distinct_variables(ts: &[Term]) -> bool
    ensures { result ≡ are_distinct_variables ts.now }
{
    are_variables(ts) && are_distinct(ts)
}

/// What stands beside the bytes in a table.
fn find_bytes(bytes: &[u8], table: &[(&'static [u8], u16)]) -> Option<u16>
    ensures { result ≡ lookup_by bytes_eq (map (λ p. (p.0.now, p.1)) table.now) bytes.now }
{
    for (name, mask) in table {
        if bytes == *name {
            return Some(*mask);
        }
    }
    None
}

/// What stands beside the name in a table of names of package `ACL2`. The symbol is looked at once.
fn find_named(symbol: &Symbol, table: &[(&'static [u8], u16)]) -> Option<u16>
    ensures { result ≡ lookup_by symbol_eq (map (λ p. (acl2 p.0.now, p.1)) table.now) symbol.now }
{
    if symbol.keyword {
        return None;
    }
    find_bytes(symbol.name.as_slice(), table)
}

/// The types that a recogniser of this name is true of. Takes no memory.
pub fn recognised(name: &Symbol) -> Option<u16>
    ensures { result ≡ recognised name.now }
{
    find_named(
        name,
        &[
            (b"CONSP", masks::PROPER + masks::IMPROPER),
            (b"INTEGERP", masks::INTEGERS),
            (b"SYMBOLP", masks::TRUTHS + masks::OTHER_SYMBOLS),
            (b"STRINGP", masks::STRINGS),
            (b"CHARACTERP", masks::CHARACTERS),
            (b"TRUE-LISTP", masks::TRUE_LISTS),
        ],
    )
}
