ghost use Rattle.std.specs.Prelude.{◌≡◌, ◌+◌, ◌-◌, ◌^◌, ◌≤◌, ◌↔◌, Some, IfOk, OnOk, IsErrOf, Contains, min, option_map};
ghost use Rattle.ap_outside.specs.Faults.{Rose};
ghost use Rattle.ap_outside.specs.Files.{bytes_at, OthersStay};
ghost use Rattle.ap_outside.specs.Books.{answer_of, IsWithin};

use crate::fault::{ReadFault, WriteFault};
use crate::files;
use crate::library::{BookBytes, BookRead, LONGEST_BOOK, Library};
use crate::schedule::Schedule;
use ap_list::{Bytes, NoMemory, Seq};
use std::alloc::Global;
use std::marker::Model;

/// A library in memory that fails for want of memory alone.
#[derive(Debug, Drop)]
pub struct FailFreeLibrary {
    files: Vec<(Bytes, Bytes)>,
}

impl Model for FailFreeLibrary {
    ghost use Rattle.ap_outside.specs.Files.{Files};

    ghost Value = { Files };

    ghost view = { λ library. library.files.items };
}

impl FailFreeLibrary {
    /// A library of these files, each a name and its bytes. Where a name stands twice its first bytes
    /// count.
    pub fn new(files: Seq<(Bytes, Bytes)>) -> FailFreeLibrary
        ensures { result ≡ files }
    {
        FailFreeLibrary {
            files: files.into_vec(),
        }
    }

    /// The bytes at a name.
    pub fn stored(&self, name: &str) -> Option<&[u8]>
        ensures { option_map (λ bytes. bytes.now) result ≡ bytes_at self.now name.now }
    {
        files::bytes_at(self.files.as_slice(), name.as_bytes())
    }
}

impl Library for FailFreeLibrary {
    ghost use Rattle.std.specs.Prelude.{Some};

    ghost files = { λ library. Some library };

    ghost read_faults = { λ _. 0 };

    ghost store_faults = { λ _. 0 };

    fn read(&mut self, alloc: Global, name: &str) -> Result<BookRead, ReadFault> {
        match self.stored(name) {
            None => Ok(BookRead::Absent),
            Some(bytes) if bytes.len() > LONGEST_BOOK => Ok(BookRead::TooLong),
            Some(bytes) => Ok(BookRead::Found(BookBytes(Bytes::from_slice(alloc, bytes)?))),
        }
    }

    fn store(&mut self, alloc: Global, name: &str, bytes: &[u8]) -> Result<(), WriteFault> {
        let name = Bytes::from_slice(alloc, name.as_bytes())?;
        let bytes = Bytes::from_slice(alloc, bytes)?;
        files::put_at(&mut self.files, name, bytes)?;
        Ok(())
    }
}

/// A library in memory of which some calls fail.
#[derive(Debug, Drop)]
pub struct MemoryLibrary {
    library: FailFreeLibrary,
    schedule: Schedule,
    read_faults: u64,
    store_faults: u64,
}

impl Model for MemoryLibrary {
    ghost use Rattle.ap_outside.specs.Memory.{LibrarySeen};

    ghost Value = { LibrarySeen };

    ghost view = { λ it. record { files = it.library; failing = it.schedule.failing; calls = it.schedule.calls; read_faults = it.read_faults; store_faults = it.store_faults } };
}

impl MemoryLibrary {
    /// A library of these files. `failing` has the numbers of the calls that fail, of reads and stores
    /// together in their order, counted from 1.
    pub fn new(files: Seq<(Bytes, Bytes)>, failing: Seq<u32>) -> MemoryLibrary
        ensures { result ≡ record { files = files; failing = failing; calls = 0; read_faults = 0; store_faults = 0 } }
    {
        MemoryLibrary {
            library: FailFreeLibrary::new(files),
            schedule: Schedule { failing, calls: 0 },
            read_faults: 0,
            store_faults: 0,
        }
    }

    /// The bytes at a name.
    pub fn stored(&self, name: &str) -> Option<&[u8]>
        ensures { option_map (λ bytes. bytes.now) result ≡ bytes_at self.now.files name.now }
    {
        self.library.stored(name)
    }
}

impl Library for MemoryLibrary {
    ghost use Rattle.std.specs.Prelude.{Some};

    ghost files = { λ library. Some library.files };

    ghost read_faults = { λ library. library.read_faults };

    ghost store_faults = { λ library. library.store_faults };

    fn read(&mut self, alloc: Global, name: &str) -> Result<BookRead, ReadFault>
        ensures answer { IfOk result (λ read. read ≡ answer_of (bytes_at self.old.files name.now)) }
        ensures within { IfOk result IsWithin }
        ensures files { self.new.files ≡ self.old.files }
        ensures later { self.old.read_faults ≤ self.new.read_faults }
        ensures stores { self.new.store_faults ≡ self.old.store_faults }
        ensures failed { result ≡ Err ReadFault.Failed → Rose self.old.read_faults self.new.read_faults }

        // no other answer raises the count
        ensures blameless { (IsErrOf result ReadFault.Failed → ⊥) → self.new.read_faults ≡ self.old.read_faults }

        // the calls of these numbers fail, and no others
        ensures counted { self.new.calls ≡ min (self.old.calls + 1) (2 ^ 64 - 1) }
        ensures failing { self.new.failing ≡ self.old.failing }
        ensures fails { IsErrOf result ReadFault.Failed ↔ Contains self.new.failing self.new.calls }
    {
        if self.schedule.next_fails() {
            self.read_faults = self.read_faults.saturating_add(1);
            return Err(ReadFault::Failed);
        }
        self.library.read(alloc, name)
    }

    fn store(&mut self, alloc: Global, name: &str, bytes: &[u8]) -> Result<(), WriteFault>
        ensures stored { OnOk result (bytes_at self.new.files name.now ≡ Some bytes.now) }
        ensures others { OthersStay name.now (Some self.old.files) (Some self.new.files) }
        ensures reads { self.new.read_faults ≡ self.old.read_faults }
        ensures later { self.old.store_faults ≤ self.new.store_faults }
        ensures failed { result ≡ Err WriteFault.Failed → Rose self.old.store_faults self.new.store_faults }

        // no other answer raises the count
        ensures blameless { (IsErrOf result WriteFault.Failed → ⊥) → self.new.store_faults ≡ self.old.store_faults }

        // the calls of these numbers fail, and no others
        ensures counted { self.new.calls ≡ min (self.old.calls + 1) (2 ^ 64 - 1) }
        ensures failing { self.new.failing ≡ self.old.failing }
        ensures fails { IsErrOf result WriteFault.Failed ↔ Contains self.new.failing self.new.calls }
    {
        if self.schedule.next_fails() {
            self.store_faults = self.store_faults.saturating_add(1);
            return Err(WriteFault::Failed);
        }
        self.library.store(alloc, name, bytes)
    }
}
