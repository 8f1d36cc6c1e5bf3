ghost use Rattle.std.specs.Prelude.{◌≡◌};
ghost use Rattle.sha2.specs.Sha256.{sha256};

use sha2::{Digest, Sha256};

/// The SHA-256 of a book's bytes (FIPS 180-4). Takes no memory.
pub fn digest_of(book: &[u8]) -> [u8; 32]
    ensures { result ≡ sha256 book.now }
{
    Sha256::digest(book)
}
