ghost use Rattle.std.specs.Prelude.{◌≡◌, ◌≤◌, false, min, map};
ghost use Rattle.ap_clausify.specs.Leaves.{product, leaves, clause_leaves, capped};
ghost use Rattle.ap_clausify.specs.Scanning.{Ready};

use ap_term::{Clause, Term};

/// A number, or the limit where that is less. Takes no memory.
fn at_most(n: u32, limit: u32) -> u32
    ensures { result ≡ min n limit }
{
    if n < limit { n } else { limit }
}

/// The number of leaves of a term, or the limit where there are more: 1 without an `if`, for an `if` its test's
/// times the sum of its branches', for another call the product of its arguments'. Takes one step.
fn leaves(t: &Term, limit: u32) -> u32
    requires { 1 ≤ limit }
    ensures { result ≡ capped limit (leaves t.now) }
{
    at_most(t.leaves(), limit)
}

/// The same of terms together, the product. It ends as soon as the limit is reached.
fn leaves_of(ts: &[Term], limit: u32) -> u32
    requires { 1 ≤ limit }
    ensures { result ≡ capped limit (product (map leaves ts.now)) }
{
    let mut all = 1u32;
    for t in ts {
        if all == limit {
            return limit;
        }
        all = at_most(all.saturating_mul(leaves(t, limit)), limit);
    }
    all
}

/// The number of clauses without `if` that a clause is split into, or the limit where there are more. The literals
/// before the cursor have no `if`, and aren't looked at. Takes no memory.
pub(crate) fn clause_leaves(c: &Clause, cursor: usize, limit: u32) -> u32
    requires some { 1 ≤ limit }
    requires ready { Ready c.now cursor false }
    ensures { result ≡ capped limit (clause_leaves c.now) }
{
    leaves_of(&c.0.as_slice()[cursor..], limit)
}
