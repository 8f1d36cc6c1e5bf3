// The marks of an attempt's goals.
ghost use Rattle.std.specs.Prelude.{◌≡◌, IfOk};
ghost use Rattle.ap_chain.specs.Marks.{kept, kept_all};

use ap_list::{NoMemory, Seq};
use ap_walk::{End, Mark, Walked};
use std::alloc::Global;

/// The marks of walks so far, and those of one more; none where that one reverts. All is moved.
fn kept<T: Drop>(
    alloc: Global,
    end: End,
    before: Seq<Mark<T>>,
    own: Seq<Mark<T>>,
) -> Result<Seq<Mark<T>>, NoMemory>
    ensures { IfOk result (λ marks. marks ≡ kept end before own) }
{
    let mut out = before;
    match end {
        End::Revert => Ok(Seq::new(alloc)),
        _ => {
            out.append(own)?;
            Ok(out)
        }
    }
}

/// The marks of an attempt's walks, one walk behind another. Where a walk reverts, the attempt goes on with the
/// original, and the marks so far are left out. All is moved.
pub(crate) fn kept_all<T: Drop>(
    alloc: Global,
    walks: Seq<Walked<T>>,
) -> Result<Seq<Mark<T>>, NoMemory>
    ensures { IfOk result (λ marks. marks ≡ kept_all walks) }
{
    let mut out = Seq::new(alloc);
    for walked in walks.into_vec() {
        out = kept(alloc, walked.end, out, walked.marks)?;
    }
    Ok(out)
}
