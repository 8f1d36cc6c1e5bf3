//! Masks of types: the sum of the bits of some of the ten types that a value can have, by the numbers of
//! `specs/Types.antt`.

/// Zero.
pub const ZERO: u16 = 1;

/// The positive integers.
pub const POSITIVE: u16 = 2;

/// The negative integers.
pub const NEGATIVE: u16 = 4;

/// `nil`.
pub const NIL: u16 = 8;

/// `t`.
pub const T: u16 = 16;

/// The other symbols.
pub const OTHER_SYMBOLS: u16 = 32;

/// The conses that end in `nil`.
pub const PROPER: u16 = 64;

/// The other conses.
pub const IMPROPER: u16 = 128;

/// The strings.
pub const STRINGS: u16 = 256;

/// The characters.
pub const CHARACTERS: u16 = 512;

/// Zero, positive, negative.
pub const INTEGERS: u16 = 1 + 2 + 4;

/// Zero, positive.
pub const NATURALS: u16 = 1 + 2;

/// `t` and `nil`.
pub const TRUTHS: u16 = 8 + 16;

/// `nil`, a proper cons.
pub const TRUE_LISTS: u16 = 8 + 64;

/// All but negative.
pub const NO_NEGATIVES: u16 = 1019;

/// All ten.
pub const ALL: u16 = 1023;
