ghost use Rattle.std.specs.Prelude.{◌≡◌, [], ◌↔◌, length, IsTrue, IfOk, ◌<◌, ◌≤◌, ℕ, slice_index};
ghost use Rattle.ap_list.specs.Rooms.{word};

use crate::seq::Seq;
use crate::shared_seq::SharedSeq;
use std::alloc::{AllocError, Global};
use std::marker::Model;

/// A name that the program itself has: a text of one takes no memory.
#[derive(Clone, Copy, Debug)]
pub enum Fixed {
    Nil,
    T,
    If,
    Not,
    Equal,
    Less,
    Implies,
    Natp,
    Acl2Count,
}

impl Fixed {
    ghost use Rattle.ap_list.specs.Texts.{fixed_bytes};

    /// The bytes of the name. Takes no memory.
    fn bytes(self) -> &'static [u8]
        ensures { result.now ≡ fixed_bytes self }
    {
        match self {
            Fixed::Nil => b"NIL",
            Fixed::T => b"T",
            Fixed::If => b"IF",
            Fixed::Not => b"NOT",
            Fixed::Equal => b"EQUAL",
            Fixed::Less => b"<",
            Fixed::Implies => b"IMPLIES",
            Fixed::Natp => b"NATP",
            Fixed::Acl2Count => b"ACL2-COUNT",
        }
    }
}

/// The most bytes that a text holds in itself.
const MOST_SHORT: usize = 15;

/// Up to 15 bytes, which copies don't share: a copy touches no count of owners, for which threads would wait. What is
/// left of the room is zeros, so two of these are compared by their rooms.
#[derive(Debug, Drop)]
struct Short {
    bytes: [u8; 15],
    length: u8,
}

impl Model for Short {
    ghost use Rattle.std.specs.Prelude.{List, ℕ, take};
    ghost use Rattle.std.specs.Coded.{coded_list, coded_ℕ};
    ghost use Rattle.ap_list.specs.Rooms.{IsRoom};

    ghost Value = { List ℕ };

    ghost coded = { coded_list coded_ℕ };

    ghost view = { λ s. take s.length s.bytes };

    ghost invariant = { λ s. IsRoom s.bytes s.length };
}

impl Short {
    ghost use Rattle.std.specs.Prelude.{IfSome, IfNone};

    /// The bytes, where they are few enough.
    fn of(bytes: &[u8]) -> Option<Short>
        ensures some { IfSome result (λ s. s ≡ bytes.now) }
        ensures none { IfNone result (15 < length bytes.now) }
    {
        let length = bytes.len();
        if length > MOST_SHORT {
            return None;
        }
        let mut room = [0; 15];
        room[..length].copy_from_slice(bytes);
        Some(Short {
            bytes: room,
            length: length as u8,
        })
    }

    /// The bytes, lent.
    fn as_slice(&self) -> &[u8]
        ensures { result.now ≡ self.now }
    {
        &self.bytes[..usize::from(self.length)]
    }

    /// The same bytes once more.
    fn copy(&self) -> Short
        ensures { result ≡ self.now }
    {
        Short {
            bytes: self.bytes,
            length: self.length,
        }
    }

    /// Whether they are the same bytes, by two words of each room that overlap. No branch depends on the bytes.
    fn same(&self, other: &Short) -> bool
        ensures { IsTrue result ↔ (self.now ≡ other.now) }
    {
        let (a, b) = (&self.bytes, &other.bytes);
        (self.length == other.length) & (word(a, 0) == word(b, 0)) & (word(a, 7) == word(b, 7))
    }
}

/// Eight bytes of a room from a place on, as one number.
fn word(room: &[u8; 15], at: usize) -> u64
    requires { at ≤ 7 }
    ensures value { result ≡ word room.now at }
    ensures small { (i : ℕ) → slice_index room.now i < 256 }
    ensures room { length room.now ≡ 15 }
{
    u64::from_le_bytes([
        room[at],
        room[at + 1],
        room[at + 2],
        room[at + 3],
        room[at + 4],
        room[at + 5],
        room[at + 6],
        room[at + 7],
    ])
}

/// Where the bytes of a text lie: in the program itself, in the text, or in memory that copies share.
#[derive(Debug, Drop)]
enum Held {
    Fixed(Fixed),
    Short(Short),
    Shared(SharedSeq<u8>),
}

/// A list of bytes: a symbol's name, a string's codes. One that the program itself has takes no memory; it is told by a
/// number, so that no type that holds texts holds a reference. One of up to 15 bytes lies in the text itself, and a longer
/// one in memory that copies share. Contracts see the bytes.
#[derive(Debug)]
pub struct Text {
    held: Held,
}

// One call wherever a text is let go, however its bytes lie.
impl Drop for Text {
    fn drop(self) {
        let Text { held: _held } = self;
    }
}

impl Model for Text {
    ghost use Rattle.std.specs.Prelude.{List, ℕ};
    ghost use Rattle.std.specs.Coded.{coded_list, coded_ℕ};
    ghost use Rattle.ap_list.specs.Texts.{bytes_in};

    ghost Value = { List ℕ };

    ghost coded = { coded_list coded_ℕ };

    ghost view = { λ t. bytes_in t.held };
}

impl Text {
    ghost use Rattle.ap_list.specs.Texts.{fixed_bytes};

    /// A text that the program itself has. Takes no memory.
    pub fn fixed(name: Fixed) -> Text
        ensures { result ≡ fixed_bytes name }
    {
        Text {
            held: Held::Fixed(name),
        }
    }

    /// A text of bytes, which are moved to where they can be shared if they are more than 15.
    pub fn new(alloc: Global, bytes: Seq<u8>) -> Result<Text, AllocError>
        ensures { IfOk result (λ t. t ≡ bytes) }
    {
        let held = match Short::of(bytes.as_slice()) {
            Some(short) => Held::Short(short),
            None => Held::Shared(SharedSeq::new(alloc, bytes)?),
        };
        Ok(Text { held })
    }

    /// The bytes, lent.
    pub fn as_slice(&self) -> &[u8]
        ensures { result.now ≡ self.now }
    {
        match &self.held {
            Held::Fixed(name) => name.bytes(),
            Held::Short(short) => short.as_slice(),
            Held::Shared(bytes) => bytes.as_slice(),
        }
    }

    /// Whether two texts have the same bytes. Takes no memory.
    pub fn same(&self, other: &Text) -> bool
        ensures { IsTrue result ↔ (self.now ≡ other.now) }
    {
        match (&self.held, &other.held) {
            (Held::Short(a), Held::Short(b)) => a.same(b),
            _ => self.as_slice() == other.as_slice(),
        }
    }

    /// The number of bytes.
    pub fn len(&self) -> usize
        ensures { result ≡ length self.now }
    {
        self.as_slice().len()
    }

    /// Whether there is no byte.
    pub fn is_empty(&self) -> bool
        ensures { IsTrue result ↔ (self.now ≡ []) }
    {
        self.as_slice().is_empty()
    }

    /// The same text for one more owner. It takes no memory, and fails only where the count of owners is
    /// full.
    pub fn share(&self) -> Result<Text, AllocError>
        ensures { IfOk result (λ t. t ≡ self.now) }
    {
        let held = match &self.held {
            Held::Fixed(name) => Held::Fixed(*name),
            Held::Short(short) => Held::Short(short.copy()),
            Held::Shared(bytes) => Held::Shared(bytes.share()?),
        };
        Ok(Text { held })
    }
}
