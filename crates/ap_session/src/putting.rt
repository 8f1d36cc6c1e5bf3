ghost use Rattle.std.specs.Prelude.{◌≡◌, ◌≤◌, false, IfOk, OnOk, OnErr};
ghost use Rattle.ap_outside.specs.Faults.{Rose};
ghost use Rattle.ap_outside.specs.Gains.{Gained, GainedPart};
ghost use Rattle.ap_session.specs.Acts.{GainedLess};

use ap_outside::{Sink, WriteFault};

/// Appends a whole piece, by as many puts as it takes. Where one fails the sink has gained less than the piece, and the
/// fault of that put is answered.
pub(crate) fn put_whole<S: Sink>(sink: &mut S, piece: &[u8]) -> Result<(), WriteFault>
    ensures whole { OnOk result (Gained (S.content sink.old) (S.content sink.new) piece.now) }
    ensures part { OnErr result (GainedPart (S.content sink.old) (S.content sink.new) piece.now) }
    ensures unput { OnErr result (GainedLess (S.content sink.old) (S.content sink.new) piece.now) }
    ensures later { S.faults sink.old ≤ S.faults sink.new }
    ensures failed { result ≡ Err WriteFault.Failed → Rose (S.faults sink.old) (S.faults sink.new) }
{
    let mut done = 0;
    while done < piece.len() {
        done += sink.put(&piece[done..])?;
    }
    Ok(())
}

/// Puts what is printed of a book that has no events. Answers that such a book isn't certified.
pub(crate) fn put_unread<S: Sink>(sink: &mut S, text: &[u8]) -> Result<bool, WriteFault>
    ensures text { OnOk result (Gained (S.content sink.old) (S.content sink.new) text.now) }
    ensures certified { IfOk result (λ b. b ≡ false) }
    ensures part { OnErr result (GainedPart (S.content sink.old) (S.content sink.new) text.now) }
    ensures unput { result ≡ Err WriteFault.Failed → GainedLess (S.content sink.old) (S.content sink.new) text.now }
    ensures later { S.faults sink.old ≤ S.faults sink.new }
    ensures failed { result ≡ Err WriteFault.Failed → Rose (S.faults sink.old) (S.faults sink.new) }
{
    put_whole(sink, text)?;
    Ok(false)
}
