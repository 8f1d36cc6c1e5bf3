ghost use Rattle.std.specs.Prelude.{◌≡◌};
ghost use Rattle.ap_world.specs.Kinds.{kinds, bit, all, without, meets};
ghost use Rattle.ap_world.specs.Rows.{sign_of, sign_bit};

use ap_world::{Kind, Sign, masks};

/// The ten types.
pub(crate) fn kinds() -> [Kind; 10]
    ensures { result ≡ kinds }
{
    [
        Kind::Zero,
        Kind::Positive,
        Kind::Negative,
        Kind::Nil,
        Kind::True,
        Kind::OtherSymbol,
        Kind::Proper,
        Kind::Improper,
        Kind::Text,
        Kind::Character,
    ]
}

/// The mask of one type.
pub(crate) fn bit(kind: Kind) -> u16
    ensures { result ≡ bit kind }
{
    match kind {
        Kind::Zero => masks::ZERO,
        Kind::Positive => masks::POSITIVE,
        Kind::Negative => masks::NEGATIVE,
        Kind::Nil => masks::NIL,
        Kind::True => masks::T,
        Kind::OtherSymbol => masks::OTHER_SYMBOLS,
        Kind::Proper => masks::PROPER,
        Kind::Improper => masks::IMPROPER,
        Kind::Text => masks::STRINGS,
        Kind::Character => masks::CHARACTERS,
    }
}

/// All types but those of a mask.
pub(crate) fn without(mask: u16) -> u16
    ensures { result ≡ without mask }
{
    masks::ALL ^ mask
}

/// Whether two masks share a type.
pub(crate) fn meets(a: u16, b: u16) -> bool
    ensures { result ≡ meets a b }
{
    a & b != 0
}

/// A type's sign as a number; one that isn't an integer's counts as zero.
pub(crate) fn sign_of(kind: Kind) -> Sign
    ensures { result ≡ sign_of kind }
{
    match kind {
        Kind::Positive => Sign::Positive,
        Kind::Negative => Sign::Negative,
        _ => Sign::Zero,
    }
}

/// The mask of the integers of one sign.
pub(crate) fn sign_bit(sign: Sign) -> u16
    ensures { result ≡ sign_bit sign }
{
    match sign {
        Sign::Zero => 1,
        Sign::Positive => 2,
        Sign::Negative => 4,
    }
}
