ghost use Rattle.std.specs.Prelude.{◌≡◌, ℕ, ◌≤◌, Option, Some, IfOk, IfSome, OnOk, OnErr, is_some, option_map};
ghost use Rattle.ap_outside.specs.Faults.{Rose};
ghost use Rattle.ap_outside.specs.Files.{Files, told_at, OthersStay};
ghost use Rattle.ap_outside.specs.Books.{answer_of, IsWithin};

use crate::fault::{ReadFault, WriteFault};
use ap_list::Bytes;
use std::alloc::Global;

/// The most bytes that a book may have.
pub const LONGEST_BOOK: usize = 4_194_304;

/// The bytes of a book.
#[derive(Debug, Drop)]
pub struct BookBytes(pub Bytes);

/// What a library has at a name: nothing, more bytes than a book may have, or these bytes.
#[derive(Debug, Drop)]
pub enum BookRead {
    Absent,
    TooLong,
    Found(BookBytes),
}

/// A finite map from names to bytes that can fail. Whether it tells what it holds doesn't change, and
/// neither count of faults ever falls.
pub trait Library {
    /// What is held, where the library tells it.
    ghost files: { Self → Option Files };

    /// The faults of reads.
    ghost read_faults: { Self → ℕ };

    /// The faults of stores.
    ghost store_faults: { Self → ℕ };

    /// What stands at a name. Leaves all but the count of reads as it was.
    fn read(&mut self, alloc: Global, name: &str) -> Result<BookRead, ReadFault>
        ensures answer { IfOk result (λ read. IfSome (told_at (files self.old) name.now) (λ found. read ≡ answer_of found)) }
        ensures within { IfOk result IsWithin }
        ensures files { files self.new ≡ files self.old }
        ensures later { read_faults self.old ≤ read_faults self.new }
        ensures stores { store_faults self.new ≡ store_faults self.old }
        ensures failed { result ≡ Err ReadFault.Failed → Rose (read_faults self.old) (read_faults self.new) };

    /// Puts bytes at a name, in place of what stood there. Other names stay as they were, and so does
    /// the count of reads; after a failure nothing is said of what stands at this name.
    fn store(&mut self, alloc: Global, name: &str, bytes: &[u8]) -> Result<(), WriteFault>
        ensures stored { OnOk result (told_at (files self.new) name.now ≡ option_map (λ _. Some bytes.now) (files self.old)) }
        ensures others { OthersStay name.now (files self.old) (files self.new) }
        ensures told { is_some (files self.new) ≡ is_some (files self.old) }
        ensures reads { read_faults self.new ≡ read_faults self.old }
        ensures later { store_faults self.old ≤ store_faults self.new }
        ensures failed { result ≡ Err WriteFault.Failed → Rose (store_faults self.old) (store_faults self.new) };
}
