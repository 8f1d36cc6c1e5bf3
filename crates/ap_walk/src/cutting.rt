ghost use Rattle.std.specs.Prelude.{◌≡◌, take};
ghost use Rattle.ap_walk.specs.Tallies.{IsOpen};
ghost use Rattle.ap_walk.specs.Walks.{cut};

use crate::counting::{counted_mark, end_of_mark};
use crate::mark::{Mark, Walked};
use crate::rule::{End, Rule, Tally};
use ap_list::Seq;

/// How many of some marks a cut keeps, what they count, and how it ends.
struct Kept {
    count: usize,
    tally: Tally,
    end: End,
}

/// The first mark at which a walk from a tally ends, and what it counts there.
fn first_stop<T>(start: Tally, marks: &[Mark<T>], rule: Rule) -> Kept
    requires { IsOpen rule start }
    ensures { cut rule start marks.now ≡ record { marks = take result.count marks.now; tally = result.tally; end = result.end } }
{
    let mut tally = start;
    for (place, mark) in marks.iter().enumerate() {
        tally = counted_mark(tally, mark);
        let end = end_of_mark(rule, tally, mark);
        let End::Through = end else {
            let count = place + 1;
            return Kept { count, tally, end };
        };
    }
    Kept {
        count: marks.len(),
        tally,
        end: End::Through,
    }
}

/// The marks up to the first at which a walk from a tally ends, with what they count and how it ends. So
/// marks of walks that were made apart, joined in order, become the marks of one walk. Takes no memory.
pub fn cut_from<T: Drop>(start: Tally, marks: Seq<Mark<T>>, rule: Rule) -> Walked<T>
    requires { IsOpen rule start }
    ensures { result ≡ cut rule start marks }
{
    let Kept { count, tally, end } = first_stop(start, marks.as_slice(), rule);
    let mut marks = marks;
    marks.truncate(count);
    Walked { marks, tally, end }
}
