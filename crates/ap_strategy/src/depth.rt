ghost use Rattle.std.specs.Prelude.{◌≡◌, ◌≤◌, ◌↔◌, IsTrue, map};
ghost use Rattle.ap_strategy.specs.Depths.{term_depth, greatest};

use ap_term::{Clause, Shape, Term};

/// The most calls that stand within each other in a goal that is stepped. What a step makes of such a clause, twice as deep
/// at most and ten thousand levels more, can be walked on a thread's stack of 256 MiB, by over 1,800 bytes a level.
const DEEPEST: u32 = 65_536;

/// Whether at most so many calls stand within each other in a term. Looks no deeper than that. Takes no memory.
#[cycle(depth)]
#[tactic(auto, using(ap_term::proofs::Seen::trees))]
fn is_within(t: &Term, levels: u32) -> bool
    ensures { IsTrue result ↔ (term_depth t.now ≤ levels) }
{
    match &t.shape {
        Shape::Var(_) | Shape::Quote(_) => true,
        Shape::Call(_, xs) => levels > 0 && are_within(xs.as_slice(), levels - 1),
    }
}

/// Whether each of some terms is so.
#[cycle(depth)]
fn are_within(xs: &[Term], levels: u32) -> bool
    ensures { IsTrue result ↔ (greatest (map term_depth xs.now) ≤ levels) }
{
    for x in xs {
        if !is_within(x, levels) {
            return false;
        }
    }
    true
}

/// Whether a clause is no deeper than a goal that is stepped may be. Takes no memory.
pub(crate) fn fits(c: &Clause) -> bool
    ensures { IsTrue result ↔ (greatest (map term_depth c.now.0) ≤ 65536) }
{
    are_within(c.0.as_slice(), DEEPEST)
}
