ghost use Rattle.std.specs.Prelude.{◌≡◌};
ghost use Rattle.ap_tokens.specs.Bytes.{is_blank, ends_atom};

/// Whether a byte is blank: a tab, a line feed, a form feed, a carriage return or a space.
#[tactic(auto, unfolding(crate::specs::Bytes::is_blank))]
pub fn is_blank(byte: u8) -> bool
    ensures { result ≡ is_blank byte }
{
    byte == 9 || byte == 10 || byte == 12 || byte == 13 || byte == 32
}

/// Whether a byte ends an atom: a blank or one of `( ) ' " ; ` ,`.
#[tactic(auto, unfolding(crate::specs::Bytes::ends_atom))]
pub fn ends_atom(byte: u8) -> bool
    ensures { result ≡ ends_atom byte }
{
    is_blank(byte)
        || byte == b'('
        || byte == b')'
        || byte == b'\''
        || byte == b'"'
        || byte == b';'
        || byte == b'`'
        || byte == b','
}
