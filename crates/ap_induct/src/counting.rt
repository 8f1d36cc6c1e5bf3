ghost use Rattle.std.specs.Prelude.{◌≡◌, ◌^◌, ◌<◌, ◌≤◌, IfSome, IfNone, length, nat_le};
ghost use Rattle.ap_induct.specs.Choosing.{clause_count};

use ap_world::Case;

/// The most clauses that an induction may have.
const MOST: usize = 1024;

/// A power that is at most the most clauses, or `None`. Takes no memory.
fn few_choices(literals: usize, calls: usize) -> Option<usize>
    ensures fits { IfSome result (λ n. (n ≡ literals ^ calls) × (n ≤ 1024)) }
    ensures past { IfNone result (1024 < literals ^ calls) }
{
    let mut count: usize = 1;
    let mut left = calls;
    while left > 0 {
        if literals > MOST || count * literals > MOST {
            return None;
        }
        count *= literals;
        left -= 1;
    }
    Some(count)
}

/// Whether an induction of a clause with so many literals has at most 1,024 clauses. Takes no memory.
pub(crate) fn are_few(literals: usize, cases: &[Case]) -> bool
    ensures { result ≡ nat_le (clause_count literals cases.now) 1024 }
{
    let mut count: usize = 0;
    for case in cases {
        let Some(more) = few_choices(literals, case.calls.len()) else {
            return false;
        };
        count += more;
        if count > MOST {
            return false;
        }
    }
    true
}
