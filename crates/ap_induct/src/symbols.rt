ghost use Rattle.std.specs.Prelude.{◌≡◌, map, not};
ghost use Rattle.ap_list.specs.Lists.{all_true, is_among, is_distinct, is_within};
ghost use Rattle.ap_value.specs.Values.{symbol_eq};
ghost use Rattle.ap_induct.specs.Choosing.{are_same};

use ap_term::is_among;
use ap_value::Symbol;

/// Whether no symbol of a list comes again. Takes no memory.
pub(crate) fn is_distinct(list: &[Symbol]) -> bool
    ensures { result ≡ is_distinct symbol_eq list.now }
{
    let mut left = list;
    while let [x, rest @ ..] = left {
        if is_among(x, rest) {
            return false;
        }
        left = rest;
    }
    true
}

/// Whether each symbol of one list is one of another. Takes no memory.
fn is_within(list: &[Symbol], other: &[Symbol]) -> bool
    ensures { result ≡ is_within symbol_eq list.now other.now }
{
    for x in list {
        if !is_among(x, other) {
            return false;
        }
    }
    true
}

/// Whether two lists have the same symbols. Takes no memory.
pub(crate) fn are_same(list: &[Symbol], other: &[Symbol]) -> bool
    ensures { result ≡ are_same list.now other.now }
{
    is_within(list, other) && is_within(other, list)
}

/// Whether no symbol of a list is one of another. Takes no memory.
pub(crate) fn is_apart(list: &[Symbol], other: &[Symbol]) -> bool
    ensures { result ≡ all_true (map (λ x. not (is_among symbol_eq x other.now)) list.now) }
{
    for x in list {
        if is_among(x, other) {
            return false;
        }
    }
    true
}
