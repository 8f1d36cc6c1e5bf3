use ap_tokens::{FaultKind, Kind, Token, TokenFault, over};
use std::process::Abort;

/// A text of which each token has its row: where it starts, its kind, and its text.
const TEXT: &[u8] = b"(a\\ |B c| ; x)\n #| \" #| |# |#`,@,'\"s\\\"\" #\\( #\\Space #X-1f .)";

const TOKENS: &[(usize, Kind, &[u8])] = &[
    (0, Kind::LeftParen, b"("),
    (1, Kind::Atom, b"a\\ |B c|"),
    (29, Kind::Backquote, b"`"),
    (30, Kind::CommaAt, b",@"),
    (32, Kind::Comma, b","),
    (33, Kind::Quote, b"'"),
    (34, Kind::Text, b"\"s\\\"\""),
    (40, Kind::Character, b"#\\("),
    (44, Kind::Character, b"#\\Space"),
    (52, Kind::Based, b"#X-1f"),
    (58, Kind::Dot, b"."),
    (59, Kind::RightParen, b")"),
];

/// Compares a token with its row.
fn expect_token(rt: &impl Abort, token: Token<'_>, start: usize, kind: Kind, text: &[u8]) {
    let is_right = token.start == start && token.kind == kind && token.text == text;
    assert!(rt; is_right, "at {start}");
}

#[test]
fn a_text_gives_its_tokens(rt: HostRuntime) {
    let mut tokens = over(TEXT);
    for (start, kind, text) in TOKENS {
        match tokens.next() {
            Ok(Some(token)) => expect_token(&rt, token, *start, *kind, *text),
            _ => assert!(rt; false, "a token at {start}"),
        }
    }
    assert!(rt; matches!(tokens.next(), Ok(None)));
}

/// Each row: a text, and its first fault.
const FAULTS: &[(&[u8], usize, FaultKind)] = &[
    (b" \"ab\\\"", 1, FaultKind::OpenString),
    (b"(in-package \"ACL2\")\n\"ab", 20, FaultKind::OpenString),
    (b"\n#| #| |#", 1, FaultKind::OpenComment),
    (b"(in-package \"ACL2\")\n#| x", 20, FaultKind::OpenComment),
    (b"a|b", 0, FaultKind::OpenBar),
    (b"a\\", 0, FaultKind::OpenBar),
    (b"(in-package \"ACL2\")\n(a b|c", 23, FaultKind::OpenBar),
    (b" #\\", 1, FaultKind::BadHash),
    (b"#a", 0, FaultKind::BadHash),
    (b"#b+", 0, FaultKind::BadHash),
    (b"#o18", 0, FaultKind::BadHash),
    (b"(in-package \"ACL2\")\n(a #y)", 23, FaultKind::BadHash),
    (b"  #\\Spac", 2, FaultKind::BadCharName),
    (
        b"(in-package \"ACL2\")\n'#\\Spac",
        21,
        FaultKind::BadCharName,
    ),
];

/// The first fault among the first twenty tokens of a text, where the next call answers it again.
fn fault(text: &[u8]) -> Option<TokenFault> {
    let mut tokens = over(text);
    for _ in 0..20 {
        if let Err(fault) = tokens.next() {
            return tokens.next().err().filter(|again| *again == fault);
        }
    }
    None
}

#[test]
fn a_fault_is_answered_again(rt: HostRuntime) {
    for (text, place, kind) in FAULTS {
        let wanted = TokenFault {
            place: *place,
            kind: *kind,
        };
        assert_eq!(rt; fault(*text), Some(wanted));
    }
}
