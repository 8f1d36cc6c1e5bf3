ghost use Rattle.std.specs.Prelude.{◌≡◌, [], None, IfOk};

use crate::memos::Memo;
use ap_kernel::{NoMemory, Seq, Term, World};
use ap_world::Theory;
use std::alloc::Global;

/// A memo of nothing, for a world, a theory and the calls that are opened.
pub fn memo<'a>(
    alloc: Global,
    w: &'a World,
    theory: &'a Theory,
    expand: &'a Seq<Term>,
) -> Result<Memo<'a>, NoMemory>
    ensures { IfOk result (λ m. m ≡ record { world = w.now; theory = theory.now; expand = expand.now; place = None; around = [] }) }
{
    Ok(Memo::new(alloc, w, theory, expand, 0))
}
