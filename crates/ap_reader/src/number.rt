ghost use Rattle.std.specs.Prelude.{◌≡◌, ◌+◌, ◌*◌, ◌^◌, ◌<◌, ◌≤◌};
ghost use Rattle.std.specs.Option.{SomeIff};
ghost use Rattle.ap_reader.specs.Numbers.{is_digit, past_digits, has_digit, is_over, is_digits, past_sign, is_below, is_ratio, is_pointed, is_decimal, is_exponent, is_fraction, is_scaled, is_dots, is_number, shape_of, worth, value_after, is_minus, signed, integer_of};

fn is_digit(byte: u8) -> bool
    ensures { result ≡ is_digit byte }
{
    48 <= byte && byte <= 57
}

/// The text after the digits that it begins with.
#[tactic(auto, using(crate::proofs::Steps::steps))]
fn past_digits(text: &[u8]) -> &[u8]
    ensures { result.now ≡ past_digits text.now }
{
    let mut n = 0;
    while n < text.len() {
        if !is_digit(text[n]) {
            return &text[n..];
        }
        n += 1;
    }
    &text[n..]
}

fn has_digit(text: &[u8]) -> bool
    ensures { result ≡ has_digit text.now }
{
    match text.split_first() {
        Some((byte, _)) => is_digit(*byte),
        None => false,
    }
}

fn is_over(text: &[u8]) -> bool
    ensures { result ≡ is_over text.now }
{
    match text {
        [] => true,
        [_, ..] => false,
    }
}

fn is_digits(text: &[u8]) -> bool
    ensures { result ≡ is_digits text.now }
{
    has_digit(text) && is_over(past_digits(text))
}

/// The text after a sign, if it begins with one.
fn past_sign(text: &[u8]) -> &[u8]
    ensures { result.now ≡ past_sign text.now }
{
    match text {
        [b'+', rest @ ..] => rest,
        [b'-', rest @ ..] => rest,
        _ => text,
    }
}

fn is_below(text: &[u8]) -> bool
    ensures { result ≡ is_below text.now }
{
    match text {
        [b'/', rest @ ..] => is_digits(rest),
        _ => false,
    }
}

/// Digits, a slash and digits.
fn is_ratio(text: &[u8]) -> bool
    ensures { result ≡ is_ratio text.now }
{
    has_digit(text) && is_below(past_digits(text))
}

fn is_pointed(before: bool, text: &[u8]) -> bool
    ensures { result ≡ is_pointed before text.now }
{
    match text {
        [b'.', rest @ ..] => (before || has_digit(rest)) && is_over(past_digits(rest)),
        _ => false,
    }
}

/// Digits with one point among or beside them.
fn is_decimal(text: &[u8]) -> bool
    ensures { result ≡ is_decimal text.now }
{
    is_pointed(has_digit(text), past_digits(text))
}

fn is_exponent(text: &[u8]) -> bool
    ensures { result ≡ is_exponent text.now }
{
    match text {
        [b'e', rest @ ..] => is_digits(past_sign(rest)),
        [b'E', rest @ ..] => is_digits(past_sign(rest)),
        _ => false,
    }
}

fn is_fraction(text: &[u8]) -> bool
    ensures { result ≡ is_fraction text.now }
{
    match text {
        [b'.', rest @ ..] => has_digit(rest) && is_exponent(past_digits(rest)),
        _ => false,
    }
}

/// Digits, perhaps a point with digits, and an exponent.
fn is_scaled(text: &[u8]) -> bool
    ensures { result ≡ is_scaled text.now }
{
    has_digit(text) && (is_exponent(past_digits(text)) || is_fraction(past_digits(text)))
}

#[tactic(auto, using(crate::proofs::Steps::steps))]
fn is_dots(text: &[u8]) -> bool
    ensures { result ≡ is_dots text.now }
{
    for byte in text {
        if *byte != b'.' {
            return false;
        }
    }
    true
}

fn is_number(text: &[u8]) -> bool
    ensures { result ≡ is_number text.now }
{
    is_ratio(text) || is_decimal(text) || is_scaled(text)
}

/// What an atom without regard to its letters is.
#[derive(Clone, Copy)]
pub enum Shape {
    Integer,
    /// A number that isn't written as an integer.
    Fraction,
    /// Dots alone.
    Dots,
    /// A symbol's name.
    Name,
}

pub(crate) fn shape_at(text: &[u8]) -> Shape
    ensures { result ≡ shape_of text.now }
{
    let digits = past_sign(text);
    if is_digits(digits) {
        Shape::Integer
    } else if is_number(digits) {
        Shape::Fraction
    } else if is_dots(text) {
        Shape::Dots
    } else {
        Shape::Name
    }
}

/// What a digit is worth, letters of either case from 10 on.
fn worth(byte: u8) -> u8
    ensures { result ≡ worth byte }
{
    if byte < 65 {
        byte.saturating_sub(48)
    } else if byte < 97 {
        byte - 55
    } else {
        byte - 87
    }
}

/// A number with one more digit, where it fits 128 bits.
fn with_digit(n: u128, base: u128, byte: u8) -> Option<u128>
    ensures { SomeIff result (n * base + worth byte < 2 ^ 128) (n * base + worth byte) }
{
    n.checked_mul(base)?.checked_add(worth(byte) as u128)
}

/// What digits are worth, where that fits 128 bits.
#[tactic(auto, using(crate::proofs::Steps::steps))]
fn magnitude(base: u128, digits: &[u8]) -> Option<u128>
    requires { 1 ≤ base }
    ensures { SomeIff result (value_after base 0 digits.now < 2 ^ 128) (value_after base 0 digits.now) }
{
    let mut n = 0u128;
    for byte in digits {
        match with_digit(n, base, *byte) {
            Some(more) => n = more,
            None => return None,
        }
    }
    Some(n)
}

fn with_sign(minus: bool, n: u128) -> Option<i128>
    ensures { result ≡ signed minus n }
{
    if minus {
        0i128.checked_sub_unsigned(n)
    } else {
        0i128.checked_add_unsigned(n)
    }
}

fn is_minus(text: &[u8]) -> bool
    ensures { result ≡ is_minus text.now }
{
    match text {
        [b'-', ..] => true,
        _ => false,
    }
}

/// The integer that an optional sign and digits of a base spell, where it fits 128 bits.
#[tactic(auto, unfolding(crate::specs::Numbers::integer_of), using(crate::proofs::Steps::steps))]
pub(crate) fn integer(base: u128, text: &[u8]) -> Option<i128>
    requires { 1 ≤ base }
    ensures { result ≡ integer_of base text.now }
{
    match magnitude(base, past_sign(text)) {
        Some(n) => with_sign(is_minus(text), n),
        None => None,
    }
}
