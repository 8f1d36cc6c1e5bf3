ghost use Rattle.std.specs.Prelude.{◌≡◌, IfOk};
ghost use Rattle.ap_reader.specs.Faults.{fault};
ghost use Rattle.ap_books.specs.Texts.{opening, closing, absent_text, too_long_text, read_error_text, kind_text};

use ap_list::{Bytes, NoMemory};
use ap_reader::ReadKind;
use itoa::Buffer;
use std::alloc::Global;

/// The book's first line.
#[tactic(auto, unfolding(crate::specs::Texts::opening))]
pub fn opening(alloc: Global, name: &[u8]) -> Result<Bytes, NoMemory>
    ensures { IfOk result (λ text. text ≡ opening name.now) }
{
    let mut text = Bytes::new(alloc);
    text.extend(b"Book ")?;
    text.extend(name)?;
    text.push(10)?;
    Ok(text)
}

/// The book's last line.
#[tactic(auto, unfolding(crate::specs::Texts::closing))]
pub fn closing(alloc: Global, name: &[u8], certified: bool) -> Result<Bytes, NoMemory>
    ensures { IfOk result (λ text. text ≡ closing name.now certified) }
{
    let mut text = Bytes::new(alloc);
    text.extend(b"Book ")?;
    text.extend(name)?;
    if certified {
        text.extend(b" certified\n")?;
        Ok(text)
    } else {
        text.extend(b" not certified\n")?;
        Ok(text)
    }
}

/// The name of a fault of reading.
#[tactic(auto, unfolding(crate::specs::Texts::kind_text))]
fn kind_name(kind: ReadKind) -> &'static [u8]
    ensures { result.now ≡ kind_text kind }
{
    match kind {
        ReadKind::OpenString => b"OpenString",
        ReadKind::OpenComment => b"OpenComment",
        ReadKind::OpenBar => b"OpenBar",
        ReadKind::BadHash => b"BadHash",
        ReadKind::BadCharName => b"BadCharName",
        ReadKind::OpenList => b"OpenList",
        ReadKind::StrayClose => b"StrayClose",
        ReadKind::NotInteger => b"NotInteger",
        ReadKind::IntegerTooWide => b"IntegerTooWide",
        ReadKind::TooDeep => b"TooDeep",
        ReadKind::BadDot => b"BadDot",
        ReadKind::BadPackage => b"BadPackage",
    }
}

/// What a book prints that isn't read.
#[tactic(auto, unfolding(crate::specs::Texts::read_error_text))]
pub(crate) fn read_error(alloc: Global, place: usize, kind: ReadKind) -> Result<Bytes, NoMemory>
    ensures { IfOk result (λ text. text ≡ read_error_text (fault place kind)) }
{
    let mut number = Buffer::new();
    let mut at = Buffer::new();
    let mut text = Bytes::new(alloc);
    text.extend(b"Read error ")?;
    text.extend(number.format(kind.number()).as_bytes())?;
    text.extend(b" ")?;
    text.extend(kind_name(kind))?;
    text.extend(b" at ")?;
    text.extend(at.format(place).as_bytes())?;
    text.extend(b"\n")?;
    Ok(text)
}
