ghost use Rattle.std.specs.Prelude.{◌≡◌, ◌+◌, ◌-◌, ◌^◌, ◌<◌, ◌≤◌, ◌↔◌, [], ◌++◌, IfOk, IfErr, OnOk, OnErr, IsErrOf, Contains, length, take, min};
ghost use Rattle.std.specs.Int.NonZero.{non_zero_usize_get};
ghost use Rattle.ap_outside.specs.Faults.{Rose};
ghost use Rattle.ap_outside.specs.Gains.{Gained};

use crate::fault::WriteFault;
use crate::schedule::Schedule;
use crate::sink::Sink;
use ap_list::{Bytes, Seq};
use std::alloc::Global;
use std::marker::Model;
use std::num::NonZeroUsize;

/// A sink in memory that fails for want of memory alone. It takes each piece whole.
#[derive(Debug, Drop)]
pub struct FailFreeSink {
    content: Bytes,
}

impl Model for FailFreeSink {
    ghost use Rattle.std.specs.Prelude.{ℕ, List};

    ghost Value = { List ℕ };

    ghost view = { λ sink. sink.content };
}

impl FailFreeSink {
    /// A sink that holds nothing.
    pub fn new(alloc: Global) -> FailFreeSink
        ensures { result ≡ [] }
    {
        FailFreeSink {
            content: Bytes::new(alloc),
        }
    }

    /// What was put.
    pub fn content(&self) -> &[u8]
        ensures { result.now ≡ self.now }
    {
        self.content.as_slice()
    }
}

impl Sink for FailFreeSink {
    ghost use Rattle.std.specs.Prelude.{Some};

    ghost content = { λ sink. Some sink };

    ghost faults = { λ _. 0 };

    fn put(&mut self, piece: &[u8]) -> Result<usize, WriteFault> {
        take_whole(&mut self.content, piece)
    }
}

/// A sink in memory of which some calls fail. It takes each piece whole, or of a longer one so many bytes at a call.
#[derive(Debug, Drop)]
pub struct MemorySink {
    content: Bytes,
    most: NonZeroUsize,
    schedule: Schedule,
    faults: u64,
}

impl Model for MemorySink {
    ghost use Rattle.std.specs.Int.NonZero.{non_zero_usize_get};
    ghost use Rattle.ap_outside.specs.Memory.{SinkSeen};

    ghost Value = { SinkSeen };

    ghost view = { λ sink. record { content = sink.content; most = non_zero_usize_get sink.most; failing = sink.schedule.failing; calls = sink.schedule.calls; faults = sink.faults } };
}

impl MemorySink {
    /// A sink that holds nothing and takes each piece whole. `failing` has the numbers of the calls that fail, counted from 1.
    pub fn new(alloc: Global, failing: Seq<u32>) -> MemorySink
        ensures { result ≡ record { content = []; most = 2 ^ 64 - 1; failing = failing; calls = 0; faults = 0 } }
    {
        MemorySink::short(alloc, NonZeroUsize::MAX, failing)
    }

    /// A sink that holds nothing and takes at most so many bytes at a call, and of a shorter piece all. `failing` has the
    /// numbers of the calls that fail, counted from 1.
    pub fn short(alloc: Global, most: NonZeroUsize, failing: Seq<u32>) -> MemorySink
        ensures { result ≡ record { content = []; most = non_zero_usize_get most; failing = failing; calls = 0; faults = 0 } }
    {
        MemorySink {
            content: Bytes::new(alloc),
            most,
            schedule: Schedule { failing, calls: 0 },
            faults: 0,
        }
    }

    /// What was put.
    pub fn content(&self) -> &[u8]
        ensures { result.now ≡ self.now.content }
    {
        self.content.as_slice()
    }
}

impl Sink for MemorySink {
    ghost use Rattle.std.specs.Prelude.{Some};

    ghost content = { λ sink. Some sink.content };

    ghost faults = { λ sink. sink.faults };

    fn put(&mut self, piece: &[u8]) -> Result<usize, WriteFault>
        ensures bound { IfOk result (λ n. n ≤ length piece.now) }
        ensures moves { IfOk result (λ n. 0 < length piece.now → 0 < n) }
        ensures gained { IfOk result (λ n. Gained (Some self.old.content) (Some self.new.content) (take n piece.now)) }
        ensures none { OnErr result (self.new.content ≡ self.old.content) }
        ensures later { self.old.faults ≤ self.new.faults }
        ensures failed { result ≡ Err WriteFault.Failed → Rose self.old.faults self.new.faults }

        // no other answer raises the count
        ensures blameless { (IsErrOf result WriteFault.Failed → ⊥) → self.new.faults ≡ self.old.faults }

        // the calls of these numbers fail, and no others
        ensures counted { self.new.calls ≡ min (self.old.calls + 1) (2 ^ 64 - 1) }
        ensures failing { self.new.failing ≡ self.old.failing }
        ensures fails { IsErrOf result WriteFault.Failed ↔ Contains self.new.failing self.new.calls }
        ensures most { self.new.most ≡ self.old.most }

        // as much as it takes at a call, and of a shorter piece all
        ensures taken { IfOk result (λ n. n ≡ min (length piece.now) self.old.most) }
    {
        if self.schedule.next_fails() {
            self.faults = self.faults.saturating_add(1);
            return Err(WriteFault::Failed);
        }
        take_whole(&mut self.content, first_of(piece, self.most))
    }
}

/// The first bytes of a piece, at most so many.
fn first_of(piece: &[u8], most: NonZeroUsize) -> &[u8]
    ensures { result.now ≡ take (non_zero_usize_get most) piece.now }
{
    &piece[..piece.len().min(most.get())]
}

/// Appends a piece whole, and answers its length. Where memory is refused the content stays.
fn take_whole(content: &mut Bytes, piece: &[u8]) -> Result<usize, WriteFault>
    ensures ok { OnOk result (content.new ≡ content.old ++ piece.now) }
    ensures whole { IfOk result (λ taken. taken ≡ length piece.now) }
    ensures err { OnErr result (content.new ≡ content.old) }
    ensures fault { IfErr result (λ fault. fault ≡ WriteFault.NoMemory) }
{
    content.extend(piece)?;
    Ok(piece.len())
}
