//! Texts that aren't certificates of the book.

use crate::texts::{BOOK, DIGEST, OF_NOTHING, TEXT, fault, read, with_front};
use ap_cert::{Bytes, CertError, NoMemory, read_cert};
use std::alloc::Global;
use std::process::Abort;
use std::test::Fail;

/// Texts that begin otherwise than a certificate, or with one of another version, and what each is told.
const FIRST_LINES: &[(&str, CertError)] = &[
    ("", CertError::NotCert),
    ("\n", CertError::NotCert),
    ("acl2p certificate\n1\n", CertError::NotCert),
    ("ACL2P certificate 1\n", CertError::NotCert),
    (" acl2p certificate 1\n", CertError::NotCert),
    ("book refl\n", CertError::NotCert),
    ("acl2p certificate ", CertError::Version),
    ("acl2p certificate \n1\n", CertError::Version),
    ("acl2p certificate 2\nbook refl\n", CertError::Version),
    ("acl2p certificate 01\n", CertError::Version),
    ("acl2p certificate 1 \n", CertError::Version),
    ("acl2p certificate 1\r\n", CertError::Version),
    ("acl2p certificate 1", CertError::Truncated),
    ("acl2p certificate 1\n", CertError::Truncated),
    ("acl2p certificate 1\n\n", CertError::Truncated),
];

/// What stands behind the first three lines of texts that are told to be truncated.
const RESTS: &[&str] = &[
    "",
    "events 1\n",
    "end\n",
    "events 1\nend",
    "events 1\nend \n",
    "events 1\nend\n\n",
    "events 1\nend\nend\n",
    "events 1\nend\nx",
    "events \nend\n",
    "events 01\nend\n",
    "events 00\nend\n",
    "events +1\nend\n",
    "events -1\nend\n",
    "events 1 \nend\n",
    "events  1\nend\n",
    "events 4294967296\nend\n",
    "events 18446744073709551617\nend\n",
    "events 1\nevents 1\nend\n",
    "events 1\ninclude a e3b0c44298fc1c149afbf4c8996fb92427ae41e4649b934ca495991b7852b855\nend\n",
    "include a E3B0C44298FC1C149AFBF4C8996FB92427AE41E4649B934CA495991B7852B855\nevents 1\nend\n",
    "include a e3b0c44298fc1c149afbf4c8996fb92427ae41e4649b934ca495991b7852b85\nevents 1\nend\n",
    "include a e3b0c44298fc1c149afbf4c8996fb92427ae41e4649b934ca495991b7852b8550\nevents 1\nend\n",
    "include a  e3b0c44298fc1c149afbf4c8996fb92427ae41e4649b934ca495991b7852b855\nevents 1\nend\n",
    "include  e3b0c44298fc1c149afbf4c8996fb92427ae41e4649b934ca495991b7852b855\nevents 1\nend\n",
    "include -a e3b0c44298fc1c149afbf4c8996fb92427ae41e4649b934ca495991b7852b855\nevents 1\nend\n",
    "include a.b e3b0c44298fc1c149afbf4c8996fb92427ae41e4649b934ca495991b7852b855\nevents 1\nend\n",
    "include 01234567890123456789012345678901234567890123456789012345678901234 e3b0c44298fc1c149afbf4c8996fb92427ae41e4649b934ca495991b7852b855\nevents 1\nend\n",
];

/// The book's certificate with its digest in upper case.
const UPPER: &str =
    "acl2p certificate 1\nbook refl\nsha256 9A95EA139F2A507659C0B1A144B09ABFD09AF04DD84ED81CBECCE0FAD3BCFE1B\nevents 1\nend\n";

#[test]
fn first_lines_are_told_apart(rt: HostRuntime) {
    for (text, wanted) in FIRST_LINES {
        assert_eq!(rt; fault(rt.alloc(), text.as_bytes()), Some(*wanted), "{text}");
    }
}

#[test]
fn what_no_certificate_has_is_refused(rt: HostRuntime) -> Result<(), Fail> {
    let alloc = rt.alloc();
    for rest in RESTS {
        let text = with_front(alloc, rest)?;
        assert_eq!(rt;
            fault(alloc, text.as_slice()),
            Some(CertError::Truncated),
            "{rest}"
        );
    }
    assert_eq!(rt; fault(alloc, UPPER.as_bytes()), Some(CertError::Truncated));
    Ok(())
}

#[test]
fn another_books_digest_is_told_with_both(rt: HostRuntime) {
    let found = read_cert(rt.alloc(), TEXT.as_bytes(), b"");
    let wanted = CertError::HashDiffers {
        named: DIGEST,
        found: OF_NOTHING,
    };
    assert_eq!(rt; found.err(), Some(wanted));
}

/// What the first bytes of a certificate are told, so many of them and not all.
fn told_of_front(kept: usize) -> CertError {
    if kept < 18 {
        CertError::NotCert
    } else if kept == 18 {
        CertError::Version
    } else {
        CertError::Truncated
    }
}

#[test]
fn each_front_of_a_certificate_is_refused(rt: HostRuntime) {
    let text = TEXT.as_bytes();
    for kept in 0..text.len() {
        assert_eq!(rt;
            fault(rt.alloc(), &text[..kept]),
            Some(told_of_front(kept)),
            "{kept}"
        );
    }
}

/// A text with another byte at a place.
fn changed(alloc: Global, text: &[u8], place: usize, byte: u8) -> Result<Bytes, NoMemory> {
    let mut other = Bytes::new(alloc);
    for (i, kept) in text.iter().enumerate() {
        other.push(if i == place { byte } else { *kept })?;
    }
    Ok(other)
}

/// With how many bytes at a place the book's certificate is read as one, which then is written as it stands.
fn readings(rt: &impl Abort, alloc: Global, place: usize) -> Result<u32, NoMemory> {
    let mut count: u32 = 0;
    for byte in 0..=255u8 {
        let text = changed(alloc, TEXT.as_bytes(), place, byte)?;
        match read(alloc, text.as_slice()) {
            Ok((_, same)) => {
                assert!(rt; same, "{place}: {byte}");
                count = count.saturating_add(1);
            }
            Err(e) => assert!(rt; e != CertError::NoMemory, "{place}: {byte}"),
        }
    }
    Ok(count)
}

/// The first byte of the name `refl` may be any of 63, the other three any of 64, and the one digit of the number any of
/// ten; any other byte may only stay.
#[test]
fn each_changed_byte_is_refused_or_read_as_it_stands(rt: HostRuntime) -> Result<(), Fail> {
    for place in 0..TEXT.len() {
        let wanted = match place {
            25 => 63,
            26..=28 => 64,
            109 => 10,
            _ => 1,
        };
        assert_eq!(rt; readings(&rt, rt.alloc(), place)?, wanted, "{place}");
    }
    Ok(())
}
