ghost use Rattle.std.specs.Prelude.{◌≡◌, ◌++◌, ◌∷◌, [], decimal, map, IfOk, OnOk};
ghost use Rattle.hex.specs.Hex.{encode_lower};
ghost use Rattle.ap_cert.specs.Cert.{cert_text, book_line, digest_line, include_line, events_line, ended};
ghost use Rattle.ap_cert.specs.Reads.{included};

use crate::cert::Cert;
use ap_value::{BookName, Bytes, NoMemory, Seq};
use itoa::Buffer;
use std::alloc::Global;

/// Adds a line.
#[tactic(auto, unfolding(crate::specs::Cert::ended))]
fn put_line(text: &mut Bytes, line: &[u8]) -> Result<(), NoMemory>
    ensures { OnOk result (text.new ≡ text.old ++ ended (line.now ∷ [])) }
{
    text.extend(line)?;
    text.push(b'\n')?;
    Ok(())
}

/// Adds a digest in 64 lower-case hexadecimal digits, and a newline.
fn put_digest(text: &mut Bytes, digest: &[u8; 32]) -> Result<(), NoMemory>
    ensures { OnOk result (text.new ≡ text.old ++ ended (encode_lower digest.now ∷ [])) }
{
    let mut digits = [0u8; 64];
    hex::encode_to_slice(digest.as_slice(), &mut digits).unwrap();
    put_line(text, &digits)
}

/// Adds the line of the book's name.
fn put_book(text: &mut Bytes, book: &BookName) -> Result<(), NoMemory>
    ensures { OnOk result (text.new ≡ text.old ++ ended (book_line book.now.0 ∷ [])) }
{
    text.extend(b"book ")?;
    put_line(text, book.0.as_slice())
}

/// Adds the line of the book's digest.
fn put_sha256(text: &mut Bytes, digest: &[u8; 32]) -> Result<(), NoMemory>
    ensures { OnOk result (text.new ≡ text.old ++ ended (digest_line digest.now ∷ [])) }
{
    text.extend(b"sha256 ")?;
    put_digest(text, digest)
}

/// Adds the line of an included book.
fn put_include(text: &mut Bytes, name: &BookName, digest: &[u8; 32]) -> Result<(), NoMemory>
    ensures { OnOk result (text.new ≡ text.old ++ ended (include_line (included name.now.0 digest.now) ∷ [])) }
{
    text.extend(b"include ")?;
    text.extend(name.0.as_slice())?;
    text.push(b' ')?;
    put_digest(text, digest)
}

/// Adds a line for each included book, in their order.
fn put_includes(text: &mut Bytes, includes: &[(BookName, [u8; 32])]) -> Result<(), NoMemory>
    ensures { OnOk result (text.new ≡ text.old ++ ended (map include_line includes.now)) }
{
    for (name, digest) in includes {
        put_include(text, name, digest)?;
    }
    Ok(())
}

/// Adds the line of the number of events.
fn put_events(text: &mut Bytes, events: u32) -> Result<(), NoMemory>
    ensures { OnOk result (text.new ≡ text.old ++ ended (events_line events ∷ [])) }
{
    let mut buffer = Buffer::new();
    text.extend(b"events ")?;
    put_line(text, buffer.format(events).as_bytes())
}

/// The text of a certificate, version 1. Its memory and time are linear in the text.
pub fn write_v1(alloc: Global, c: &Cert) -> Result<Bytes, NoMemory>
    ensures { IfOk result (λ t. t ≡ cert_text c.now) }
{
    let mut text = Seq::new(alloc);
    put_line(&mut text, b"acl2p certificate 1")?;
    put_book(&mut text, &c.book)?;
    put_sha256(&mut text, &c.digest)?;
    put_includes(&mut text, c.includes.as_slice())?;
    put_events(&mut text, c.events)?;
    put_line(&mut text, b"end")?;
    Ok(text)
}
