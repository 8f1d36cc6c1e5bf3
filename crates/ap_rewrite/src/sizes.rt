// Tests on terms by which the rewriter chooses.
ghost use Rattle.std.specs.Prelude.{◌≡◌, ◌*◌, nat_le, IsTrue, IfSome};
ghost use Rattle.ap_term.specs.Terms.{term_size};
ghost use Rattle.ap_rewrite.specs.Rewriting.{most_nodes, truth_of};

use ap_kernel::{ShapeRef, Term, is_nil, shape_of};
use ap_term::size;

/// Whether a constant means something else than `nil`; `None` of another term. Takes no memory.
pub fn truth_of(t: &Term) -> Option<bool>
    ensures { result ≡ truth_of t.now }
{
    match shape_of(t) {
        ShapeRef::Constant(v) => Some(!is_nil(v)),
        _ => None,
    }
}

/// Whether a term has at most 4,096 nodes. Takes no memory.
pub fn is_small(t: &Term) -> bool
    ensures { result ≡ nat_le (term_size t.now) most_nodes }
{
    match size(t) {
        Some(nodes) => nodes <= 4096,
        None => false,
    }
}

/// A number of nodes that no instance of a function's body at the arguments of a call passes. Takes no memory.
fn most_size(body: &Term, call: &Term) -> Option<u64>
    ensures { IfSome result (λ n. n ≡ term_size body.now * term_size call.now) }
{
    size(body)?.checked_mul(size(call)?)
}

/// Whether a bound says that the instance of a function's body at the arguments of a call has at most 4,096 nodes.
/// Takes no memory.
pub fn has_small_instance(body: &Term, call: &Term) -> bool
    ensures { IsTrue result → IsTrue (nat_le (term_size body.now * term_size call.now) most_nodes) }
{
    match most_size(body, call) {
        Some(nodes) => nodes <= 4096,
        None => false,
    }
}
