ghost use Rattle.std.specs.Prelude.{◌≡◌, ◌++◌, IfOk, OnOk};
ghost use Rattle.ap_session.specs.Texts.{drop_text, trace_text};

use ap_attempt::DropNote;
use ap_list::{Bytes, NoMemory};
use std::alloc::Global;

/// The text of a usage error.
pub(crate) const USAGE: &[u8] =
    b"usage: acl2p [--workers N] [--steps N] [--goals N] [--revert N] [--trace] BOOK ..\n       acl2p [--workers N] --demo N\n";

/// Adds the line that tells of a goal that was dropped.
#[tactic(auto, unfolding(crate::specs::Texts::drop_text))]
fn put_drop(text: &mut Bytes, alloc: Global, note: &DropNote) -> Result<(), NoMemory>
    ensures { OnOk result (text.new ≡ text.old ++ drop_text note.now) }
{
    let dropped = note.dropped.print(alloc)?;
    let stopped = note.stopped.print(alloc)?;
    text.extend(b"Dropped ")?;
    text.extend(dropped.as_slice())?;
    text.extend(b" after ")?;
    text.extend(stopped.as_slice())?;
    text.push(10)
}

/// The lines that tell what was dropped, in order.
pub(crate) fn trace_text(alloc: Global, notes: &[DropNote]) -> Result<Bytes, NoMemory>
    ensures { IfOk result (λ text. text ≡ trace_text notes.now) }
{
    let mut text = Bytes::new(alloc);
    for note in notes {
        put_drop(&mut text, alloc, note)?;
    }
    Ok(text)
}
