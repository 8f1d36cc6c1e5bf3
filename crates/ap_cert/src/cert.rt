use ap_value::{BookName, Seq};
use std::alloc::AllocError;

/// What a certificate says of a book: its name, the SHA-256 of its bytes (FIPS 180-4), the books that it includes, in
/// their order, each with the digest of its own bytes, and the number of its events. A name is 1 to 64 of the
/// characters `a-z A-Z 0-9 - _`, a hyphen not first; one that isn't is written as it stands, and not read back.
#[derive(Debug, Drop)]
pub struct Cert {
    pub book: BookName,
    pub digest: [u8; 32],
    pub includes: Seq<(BookName, [u8; 32])>,
    pub events: u32,
}

/// Why a text isn't read as the certificate of a book. The first of these that holds is told.
#[derive(Clone, Copy, Debug, PartialEq, Eq)]
pub enum CertError {
    /// The first line doesn't begin with `acl2p certificate `.
    NotCert,
    /// The first line begins so, and its rest isn't `1`.
    Version,
    /// The first line is that of version 1, and the text isn't a certificate.
    Truncated,
    /// The certificate names another digest than the book's bytes have.
    HashDiffers { named: [u8; 32], found: [u8; 32] },
    /// Memory ran out.
    NoMemory,
}

impl From<AllocError> for CertError {
    ghost use Rattle.std.specs.Prelude.{◌≡◌};
    ghost use Rattle.ap_cert.specs.declared.cert.CertError.TheVariants.{NoMemory};

    ghost from_gives = { λ _ e. e ≡ NoMemory };

    fn from(_error: AllocError) -> CertError {
        CertError::NoMemory
    }
}
