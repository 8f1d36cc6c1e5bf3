ghost use Rattle.std.specs.Prelude.{◌≡◌, ◌&&◌, true, map, is_some};
ghost use Rattle.ap_value.specs.Counts.{node_count};
ghost use Rattle.ap_value.specs.Values.{symbol_eq};
ghost use Rattle.ap_term.specs.Leaves.{product, choice_leaves, if_parts, leaves};
ghost use Rattle.ap_term.specs.Names.{if_name};
ghost use Rattle.ap_term.specs.Capped.{capped};
ghost use Rattle.ap_term.specs.Keeping.{IsKept};

use crate::hashes::mixed;
use crate::tree::Term;
use ap_value::{Symbol, Value, nodes};

/// What is counted of a term, each number as far as 32 bits hold it.
#[derive(Debug, Clone, Copy)]
pub(crate) struct Counts {
    /// The occurrences of variables.
    pub variables: u32,
    /// The calls.
    pub functions: u32,
    /// The nodes in constants.
    pub constants: u32,
    /// The leaves that splitting makes of it.
    pub leaves: u32,
    /// A number that equal terms have in common.
    pub hash: u64,
    /// Whether it has an `if`.
    pub has_if: bool,
}

/// What a call keeps of its arguments: the sums of their counts, and the product of their leaves.
#[derive(Debug, Clone, Copy)]
pub(crate) struct Kept {
    pub variables: u32,
    pub functions: u32,
    pub constants: u32,
    pub leaves: u32,
    /// The leaves of an `if` whose arguments these are.
    pub choice: u32,
    pub hash: u64,
    pub has_if: bool,
}

/// Whether a symbol is `if`. Takes no memory.
#[tactic(auto, unfolding(crate::specs::Names::if_name))]
fn is_if(symbol: &Symbol) -> bool
    ensures { result ≡ symbol_eq symbol.now if_name }
{
    !symbol.keyword && symbol.name.as_slice() == b"IF".as_slice()
}

/// Whether a call is an `if` of three arguments. Takes no memory.
pub(crate) fn chooses(f: &Symbol, ts: &[Term]) -> bool
    ensures { result ≡ is_some (if_parts (symbol_eq f.now if_name) ts.now) }
{
    match ts {
        [_, _, _] => is_if(f),
        _ => false,
    }
}

/// The nodes of a constant, as far as 32 bits hold them. Takes no memory.
pub(crate) fn constant_nodes(v: &Value) -> u32
    ensures { result ≡ capped (node_count v.now) }
{
    match nodes(v) {
        Some(n) => {
            if n < 4_294_967_295 {
                n as u32
            } else {
                u32::MAX
            }
        }
        None => u32::MAX,
    }
}

/// The leaves of an `if` with these arguments, whose product is known.
fn choice_of(ts: &[Term], all: u32) -> u32
    requires { all ≡ capped (product (map leaves ts.now)) }
    ensures { result ≡ capped (choice_leaves (if_parts true (map leaves ts.now)) (product (map leaves ts.now))) }
{
    match ts {
        [test, first, second] => {
            let both = first.leaves().saturating_add(second.leaves());
            test.leaves().saturating_mul(both)
        }
        _ => all,
    }
}

/// What is kept of these arguments. Takes no memory, and a few steps for each.
pub(crate) fn kept_of(ts: &[Term]) -> Kept
    ensures { IsKept result ts.now }
{
    let mut variables = 0u32;
    let mut functions = 0u32;
    let mut constants = 0u32;
    let mut leaves = 1u32;
    let mut hash = 8u64;
    let mut has_if = false;
    for t in ts {
        let more = t.counted();
        variables = variables.saturating_add(more.variables);
        functions = functions.saturating_add(more.functions);
        constants = constants.saturating_add(more.constants);
        leaves = leaves.saturating_mul(more.leaves);
        hash = mixed(hash, more.hash);
        has_if = has_if | more.has_if;
    }
    let choice = choice_of(ts, leaves);
    Kept {
        variables,
        functions,
        constants,
        leaves,
        choice,
        hash,
        has_if,
    }
}
