//! A book with its certificate, and what texts are answered for it.

use ap_cert::{Bytes, Cert, CertError, NoMemory, read_cert, write_v1};
use std::alloc::Global;

/// A book of two lines.
pub const BOOK: &[u8] = b"(in-package \"ACL2\")\n(defthm refl (equal x x) :rule-classes nil)\n";

/// Its digest, as `sha256sum` prints it: 9a95ea139f2a507659c0b1a144b09abfd09af04dd84ed81cbecce0fad3bcfe1b.
pub const DIGEST: [u8; 32] = [
    0x9a, 0x95, 0xea, 0x13, 0x9f, 0x2a, 0x50, 0x76, 0x59, 0xc0, 0xb1, 0xa1, 0x44, 0xb0, 0x9a, 0xbf,
    0xd0, 0x9a, 0xf0, 0x4d, 0xd8, 0x4e, 0xd8, 0x1c, 0xbe, 0xcc, 0xe0, 0xfa, 0xd3, 0xbc, 0xfe, 0x1b,
];

/// The digest of no byte, as `sha256sum` prints it: e3b0c44298fc1c149afbf4c8996fb92427ae41e4649b934ca495991b7852b855.
pub const OF_NOTHING: [u8; 32] = [
    0xe3, 0xb0, 0xc4, 0x42, 0x98, 0xfc, 0x1c, 0x14, 0x9a, 0xfb, 0xf4, 0xc8, 0x99, 0x6f, 0xb9, 0x24,
    0x27, 0xae, 0x41, 0xe4, 0x64, 0x9b, 0x93, 0x4c, 0xa4, 0x95, 0x99, 0x1b, 0x78, 0x52, 0xb8, 0x55,
];

/// The first three lines of the book's certificate.
pub const FRONT: &str =
    "acl2p certificate 1\nbook refl\nsha256 9a95ea139f2a507659c0b1a144b09abfd09af04dd84ed81cbecce0fad3bcfe1b\n";

/// The book's certificate, where it has one event.
pub const TEXT: &str =
    "acl2p certificate 1\nbook refl\nsha256 9a95ea139f2a507659c0b1a144b09abfd09af04dd84ed81cbecce0fad3bcfe1b\nevents 1\nend\n";

/// The first three lines with other lines behind them.
pub fn with_front(alloc: Global, rest: &str) -> Result<Bytes, NoMemory> {
    let mut text = Bytes::from_slice(alloc, FRONT.as_bytes())?;
    text.extend(rest.as_bytes())?;
    Ok(text)
}

/// The certificate that a text is for the book, and whether it is written as that text again.
pub fn read(alloc: Global, text: &[u8]) -> Result<(Cert, bool), CertError> {
    let cert = read_cert(alloc, text, BOOK)?;
    let written = write_v1(alloc, &cert)?;
    let same = written.as_slice() == text;
    Ok((cert, same))
}

/// What a text is refused with for the book.
pub fn fault(alloc: Global, text: &[u8]) -> Option<CertError> {
    read_cert(alloc, text, BOOK).err()
}
