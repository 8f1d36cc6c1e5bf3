ghost use Rattle.std.specs.Prelude.{◌≡◌, ◌≤◌, IfOk, length};

use crate::fault::WriteFault;
use crate::sink::Sink;
use std::io;
use std::io::Write;

/// A sink over a writer, as standard output is one. What it puts has left the writer's buffer. It tells
/// nothing of its content: what a device holds no contract can say.
#[derive(Debug, Drop)]
pub struct WriterSink<W: Write> {
    writer: W,
    faults: u64,
}

impl<W: Write> WriterSink<W> {
    /// A sink over a writer, with no fault yet.
    pub fn new(writer: W) -> WriterSink<W>
        ensures { ⟦<WriterSink<W> as Sink>⟧.faults result ≡ 0 }
    {
        WriterSink { writer, faults: 0 }
    }
}

impl<W: Write> Sink for WriterSink<W> {
    ghost use Rattle.std.specs.Prelude.{None};

    ghost content = { λ _. None };

    ghost faults = { λ sink. sink.faults };

    fn put(&mut self, piece: &[u8]) -> Result<usize, WriteFault> {
        match write_out(&mut self.writer, piece) {
            Ok(taken) if taken > 0 || piece.is_empty() => Ok(taken),
            _ => {
                self.faults = self.faults.saturating_add(1);
                Err(WriteFault::Failed)
            }
        }
    }
}

/// One write, out of the writer's buffer.
fn write_out<W: Write>(writer: &mut W, piece: &[u8]) -> io::Result<usize>
    ensures { IfOk result (λ taken. taken ≤ length piece.now) }
{
    let taken = writer.write(piece)?;
    writer.flush()?;
    Ok(taken)
}
