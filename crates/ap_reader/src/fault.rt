ghost use Rattle.std.specs.Prelude.{◌≡◌};
ghost use Rattle.ap_reader.specs.Faults.{number_of, error_of, broken};

use ap_tokens::{FaultKind, TokenFault};
use std::alloc::AllocError;

/// Why a text has no forms. The first five are faults of a token.
#[derive(Clone, Copy, Debug, PartialEq, Eq)]
pub enum ReadKind {
    /// The text ends within a string.
    OpenString,
    /// The text ends within a comment `#| .. |#`.
    OpenComment,
    /// The text ends within a stretch between bars, or after a backslash.
    OpenBar,
    /// A `#` that begins nothing, or a based number without digits or with a wrong one.
    BadHash,
    /// `#\` with several bytes that name no character.
    BadCharName,
    /// The text ends in a list, or after a quote mark, backquote or comma.
    OpenList,
    /// A `)` that closes nothing, or straight after a quote mark, backquote or comma.
    StrayClose,
    /// A ratio, or a number with a point or an exponent.
    NotInteger,
    /// An integer that doesn't fit 128 bits.
    IntegerTooWide,
    /// More than 400 lists, quote marks, backquotes and commas within each other.
    TooDeep,
    /// A dot that doesn't stand in a list, after a form and before its last one; or several dots alone. Where no
    /// form or more than one follows a list's dot, or another dot, the fault is at that first dot.
    BadDot,
    /// A symbol of another package than `ACL2` and `KEYWORD`.
    BadPackage,
}

impl ReadKind {
    /// The number by which a refusal prints the fault: 1 to 12, in the order of the variants.
    pub fn number(self) -> u32
        ensures { result ≡ number_of self }
    {
        match self {
            ReadKind::OpenString => 1,
            ReadKind::OpenComment => 2,
            ReadKind::OpenBar => 3,
            ReadKind::BadHash => 4,
            ReadKind::BadCharName => 5,
            ReadKind::OpenList => 6,
            ReadKind::StrayClose => 7,
            ReadKind::NotInteger => 8,
            ReadKind::IntegerTooWide => 9,
            ReadKind::TooDeep => 10,
            ReadKind::BadDot => 11,
            ReadKind::BadPackage => 12,
        }
    }
}

/// Why a text isn't read: a fault, at the first byte of its token, or want of memory.
#[derive(Clone, Copy, Debug, PartialEq, Eq)]
pub enum ReadError {
    Fault { place: usize, kind: ReadKind },
    NoMemory,
}

impl From<AllocError> for ReadError {
    ghost use Rattle.std.specs.Prelude.{◌≡◌};
    ghost use Rattle.ap_reader.specs.declared.fault.ReadError.TheVariants.{NoMemory};

    ghost from_gives = { λ _ e. e ≡ NoMemory };

    fn from(_error: AllocError) -> ReadError {
        ReadError::NoMemory
    }
}

/// The fault of this kind at this place.
pub(crate) fn fault_at(place: usize, kind: ReadKind) -> ReadError
    ensures { result ≡ error_of place kind }
{
    ReadError::Fault { place, kind }
}

/// A token's fault as one of the text.
pub(crate) fn broken_at(fault: TokenFault) -> ReadError
    ensures { result ≡ error_of fault.place (broken fault.kind) }
{
    let kind = match fault.kind {
        FaultKind::OpenString => ReadKind::OpenString,
        FaultKind::OpenComment => ReadKind::OpenComment,
        FaultKind::OpenBar => ReadKind::OpenBar,
        FaultKind::BadHash => ReadKind::BadHash,
        FaultKind::BadCharName => ReadKind::BadCharName,
    };
    fault_at(fault.place, kind)
}
