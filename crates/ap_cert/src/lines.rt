ghost use Rattle.std.specs.Prelude.{◌≡◌, ◌↔◌, ◌∷◌, ◌++◌, List, ℕ, IsTrue, MatchOption};
ghost use Rattle.ap_cert.specs.Cert.{first_line};
ghost use Rattle.ap_cert.specs.Reads.{Without, IsCut};

/// A text up to the first such byte, and what stands after it; `None` exactly where there is none.
pub(crate) fn cut(text: &[u8], byte: u8) -> Option<(&[u8], &[u8])>
    ensures { MatchOption result (Without byte text.now) (λ p. IsCut byte text.now p.0.now p.1.now) }
{
    for (place, found) in text.iter().enumerate() {
        if *found == byte {
            return Some((&text[..place], &text[place + 1..]));
        }
    }
    None
}

/// The text after its first bytes, where those are `front`.
pub(crate) fn after<'a>(text: &'a [u8], front: &[u8]) -> Option<&'a [u8]>
    ensures { MatchOption result ((rest : List ℕ) → ¬ (text.now ≡ front.now ++ rest)) (λ rest. text.now ≡ front.now ++ rest.now) }
{
    text.strip_prefix(front)
}

/// Whether two texts are one.
pub(crate) fn is_same(text: &[u8], other: &[u8]) -> bool
    ensures { IsTrue result ↔ (text.now ≡ other.now) }
{
    text == other
}

/// The first line of a text, and what stands after its newline where it has one.
pub(crate) fn split_line(text: &[u8]) -> (&[u8], Option<&[u8]>)
    ensures first { result.0.now ≡ first_line text.now }
    ensures rest { MatchOption result.1 (Without 10 text.now) (λ rest. text.now ≡ result.0.now ++ 10 ∷ rest.now) }
{
    match cut(text, b'\n') {
        Some((line, rest)) => (line, Some(rest)),
        None => (text, None),
    }
}
