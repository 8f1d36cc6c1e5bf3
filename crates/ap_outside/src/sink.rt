ghost use Rattle.std.specs.Prelude.{◌≡◌, ℕ, ◌<◌, ◌≤◌, List, Option, IfOk, OnOk, OnErr, length, take};
ghost use Rattle.ap_outside.specs.Faults.{Rose};
ghost use Rattle.ap_outside.specs.Gains.{Gained, GainedPart};

use crate::fault::WriteFault;

/// A list of bytes that only grows, and can fail. Whether it tells what it holds doesn't change, and
/// its count of faults never falls.
pub trait Sink {
    /// What has been written, where the sink tells it.
    ghost content: { Self → Option (List ℕ) };

    /// The faults of puts.
    ghost faults: { Self → ℕ };

    /// Appends the first bytes of a piece, and answers how many: at least one of a piece that isn't
    /// empty. Where it fails it appends none.
    fn put(&mut self, piece: &[u8]) -> Result<usize, WriteFault>
        ensures bound { IfOk result (λ n. n ≤ length piece.now) }
        ensures moves { IfOk result (λ n. 0 < length piece.now → 0 < n) }
        ensures gained { IfOk result (λ n. Gained (content self.old) (content self.new) (take n piece.now)) }
        ensures none { OnErr result (content self.new ≡ content self.old) }
        ensures later { faults self.old ≤ faults self.new }
        ensures failed { result ≡ Err WriteFault.Failed → Rose (faults self.old) (faults self.new) };
}

/// Appends a whole piece, by as many puts as it takes. Where one fails the sink has gained a prefix of
/// the piece, and the fault of that put is answered.
pub fn put_all<S: Sink>(sink: &mut S, piece: &[u8]) -> Result<(), WriteFault>
    ensures whole { OnOk result (Gained (S.content sink.old) (S.content sink.new) piece.now) }
    ensures part { OnErr result (GainedPart (S.content sink.old) (S.content sink.new) piece.now) }
    ensures later { S.faults sink.old ≤ S.faults sink.new }
    ensures failed { result ≡ Err WriteFault.Failed → Rose (S.faults sink.old) (S.faults sink.new) }
{
    let mut done = 0;
    while done < piece.len() {
        done += sink.put(&piece[done..])?;
    }
    Ok(())
}
