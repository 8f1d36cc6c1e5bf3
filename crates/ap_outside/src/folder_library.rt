ghost use Rattle.std.specs.Prelude.{◌≡◌, IfOk};
ghost use Rattle.ap_outside.specs.Books.{IsWithin};

use crate::fault::{ReadFault, WriteFault};
use crate::library::{BookBytes, BookRead, LONGEST_BOOK, Library};
use ap_list::Bytes;
use std::alloc::Global;
use std::io::{ErrorKind, Read};
use std::rt::Files;
use std::{fs, io};

/// The current folder as a library. It tells nothing of its files: what a folder holds no contract can
/// say.
#[derive(Drop)]
pub struct FolderLibrary<'a, R: Files> {
    rt: &'a R,
    read_faults: u64,
    store_faults: u64,
}

impl<'a, R: Files> FolderLibrary<'a, R> {
    /// The current folder of this runtime, with no fault yet.
    pub fn new(rt: &'a R) -> FolderLibrary<'a, R>
        ensures reads { ⟦<FolderLibrary<'a, R> as Library>⟧.read_faults result ≡ 0 }
        ensures stores { ⟦<FolderLibrary<'a, R> as Library>⟧.store_faults result ≡ 0 }
    {
        FolderLibrary {
            rt,
            read_faults: 0,
            store_faults: 0,
        }
    }
}

impl<R: Files> Library for FolderLibrary<'_, R> {
    ghost use Rattle.std.specs.Prelude.{None};

    ghost files = { λ _. None };

    ghost read_faults = { λ library. library.read_faults };

    ghost store_faults = { λ library. library.store_faults };

    fn read(&mut self, alloc: Global, name: &str) -> Result<BookRead, ReadFault> {
        match read_file(self.rt, alloc, name) {
            Ok(read) => Ok(read),
            Err(fault) if fault.kind() == ErrorKind::OutOfMemory => Err(ReadFault::NoMemory),
            Err(_) => {
                self.read_faults = self.read_faults.saturating_add(1);
                Err(ReadFault::Failed)
            }
        }
    }

    fn store(&mut self, _alloc: Global, name: &str, bytes: &[u8]) -> Result<(), WriteFault> {
        match fs::write(self.rt, name, bytes) {
            Ok(()) => Ok(()),
            Err(_) => {
                self.store_faults = self.store_faults.saturating_add(1);
                Err(WriteFault::Failed)
            }
        }
    }
}

/// Reads a file, and no more of it than shows that it is too long for a book.
fn read_file<R: Files>(rt: &R, alloc: Global, name: &str) -> io::Result<BookRead>
    ensures { IfOk result IsWithin }
{
    let file = match fs::open(rt, name) {
        Ok(file) => file,
        Err(fault) if fault.kind() == ErrorKind::NotFound => return Ok(BookRead::Absent),
        Err(fault) => return Err(fault),
    };
    let mut bytes = Vec::new(alloc);
    file.take(LONGEST_BOOK as u64 + 1).read_to_end(&mut bytes)?;
    if bytes.len() > LONGEST_BOOK {
        return Ok(BookRead::TooLong);
    }
    Ok(BookRead::Found(BookBytes(Bytes::from_vec(bytes))))
}
