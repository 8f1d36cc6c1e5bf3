/// The ten basic types of a value: each value has one, and a [`Mask`](crate::Mask) is a set of them. See
/// the manual's topic `type-set`.
#[derive(Clone, Copy, Debug)]
pub enum Kind {
    Zero,
    Positive,
    Negative,
    Nil,
    True,
    OtherSymbol,
    Proper,
    Improper,
    Text,
    Character,
}

/// A type as a number: zero, positive or negative.
#[derive(Clone, Copy, Debug)]
pub enum Sign {
    Zero,
    Positive,
    Negative,
}
