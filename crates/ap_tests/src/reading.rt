use ap_list::Seq;
use ap_reader::{Body, Form, ReadError, ReadKind, forms};
use ap_value::{Bytes, NoMemory, Symbol};
use std::alloc::Global;
use std::process::Abort;

/// A text after a book's first line, which has 20 bytes.
fn after_first_line(alloc: Global, rest: &[u8]) -> Result<Bytes, NoMemory> {
    let mut text = Bytes::from_slice(alloc, b"(in-package \"ACL2\")\n")?;
    text.extend(rest)?;
    Ok(text)
}

/// The kind of a text's fault with its number, and its place, where the text stands behind a book's first line.
fn fault(alloc: Global, rest: &[u8]) -> Result<Option<(ReadKind, u32, usize)>, NoMemory> {
    let text = after_first_line(alloc, rest)?;
    match forms(alloc, text.as_slice()) {
        Err(ReadError::Fault { place, kind }) => Ok(Some((kind, kind.number(), place))),
        _ => Ok(None),
    }
}

const OPEN_400: [u8; 400] = [b'('; 400];

const OPEN_401: [u8; 401] = [b'('; 401];

/// Each row: what stands behind a book's first line, and the kind, the number and the place of the fault, which is at the
/// first byte of its token.
const FAULTS: &[(&[u8], ReadKind, u32, usize)] = &[
    (b"(a \"b)", ReadKind::OpenString, 1, 23),
    (b"(a) #| #| |#", ReadKind::OpenComment, 2, 24),
    (b"a\\", ReadKind::OpenBar, 3, 20),
    (b"#x1g", ReadKind::BadHash, 4, 20),
    (b"#\\Nul", ReadKind::BadCharName, 5, 20),
    (&OPEN_400, ReadKind::OpenList, 6, 419),
    (b"(a '", ReadKind::OpenList, 6, 23),
    (b"(a . b", ReadKind::OpenList, 6, 20),
    (b"a)", ReadKind::StrayClose, 7, 21),
    (b"(a ')", ReadKind::StrayClose, 7, 24),
    (b"(a . ')", ReadKind::StrayClose, 7, 26),
    (b"1.", ReadKind::NotInteger, 8, 20),
    (b"(a . 1/2)", ReadKind::NotInteger, 8, 25),
    (b"-.5", ReadKind::NotInteger, 8, 20),
    (b"+1.5E-2", ReadKind::NotInteger, 8, 20),
    (
        b"(defthm w (equal x 170141183460469231731687303715884105728))",
        ReadKind::IntegerTooWide,
        9,
        39,
    ),
    (
        b"#x-80000000000000000000000000000001",
        ReadKind::IntegerTooWide,
        9,
        20,
    ),
    (&OPEN_401, ReadKind::TooDeep, 10, 420),
    (b"(. a)", ReadKind::BadDot, 11, 21),
    (b".", ReadKind::BadDot, 11, 20),
    (b"'.", ReadKind::BadDot, 11, 21),
    (b"(a . )", ReadKind::BadDot, 11, 23),
    (b"(a . b c)", ReadKind::BadDot, 11, 23),
    (b"(a . . b)", ReadKind::BadDot, 11, 23),
    (b"...", ReadKind::BadDot, 11, 20),
    (b"x:y", ReadKind::BadPackage, 12, 20),
    (b"acl2:x", ReadKind::BadPackage, 12, 20),
    (b"::x", ReadKind::BadPackage, 12, 20),
];

#[test]
fn each_fault_kind_has_its_number_and_its_place(rt: HostRuntime) -> Result<(), NoMemory> {
    for (rest, kind, number, place) in FAULTS {
        let found = fault(rt.alloc(), *rest)?;
        assert!(rt;
            found == Some((*kind, *number, *place)),
            "{number} at {place}"
        );
    }
    Ok(())
}

/// What a form is, with the number of its parts.
#[derive(Clone, Copy)]
enum Seen<'a> {
    Int(i128),
    Chr(u8),
    Str(&'a [u8]),
    Sym(&'a [u8]),
    Key(&'a [u8]),
    List(usize),
    Dotted(usize),
    Quoted,
    Quasi,
    Comma,
    CommaAt,
}

fn names(symbol: &Symbol, keyword: bool, name: &[u8]) -> bool {
    symbol.keyword == keyword && symbol.name.as_slice() == name
}

fn is_seen(form: &Form, seen: &Seen<'_>) -> bool {
    match (&form.body, seen) {
        (Body::Int(n), Seen::Int(m)) => *n == *m,
        (Body::Chr(c), Seen::Chr(d)) => *c == *d,
        (Body::Str(s), Seen::Str(t)) => s.as_slice() == *t,
        (Body::Sym(s), Seen::Sym(name)) => names(s, false, *name),
        (Body::Sym(s), Seen::Key(name)) => names(s, true, *name),
        (Body::List(items), Seen::List(n)) => items.len() == *n,
        (Body::Dotted(items, _), Seen::Dotted(n)) => items.len() == *n,
        (Body::Quoted(_), Seen::Quoted) => true,
        (Body::Quasi(_), Seen::Quasi) => true,
        (Body::Comma(_), Seen::Comma) => true,
        (Body::CommaAt(_), Seen::CommaAt) => true,
        _ => false,
    }
}

const TEXT: &[u8] =
    b"; x\n-12 +7 #xFf #b-101 #o17 -170141183460469231731687303715884105728 #\\a #\\NewLine #\\( \"a\\\"B\" cAr |a b|C\\d :Key acl2::X 1.e5 1+ || () (a (b) c) (a b . 'c) 'a `b ,c ,@d";

/// The forms of the text, each with its place.
const FORMS: &[(usize, Seen<'static>)] = &[
    (4, Seen::Int(-12)),
    (8, Seen::Int(7)),
    (11, Seen::Int(255)),
    (16, Seen::Int(-5)),
    (23, Seen::Int(15)),
    (28, Seen::Int(i128::MIN)),
    (69, Seen::Chr(97)),
    (73, Seen::Chr(10)),
    (83, Seen::Chr(40)),
    (87, Seen::Str(b"a\"B")),
    (94, Seen::Sym(b"CAR")),
    (98, Seen::Sym(b"a bCd")),
    (107, Seen::Key(b"KEY")),
    (112, Seen::Sym(b"X")),
    (120, Seen::Sym(b"1.E5")),
    (125, Seen::Sym(b"1+")),
    (128, Seen::Sym(b"")),
    (131, Seen::List(0)),
    (134, Seen::List(3)),
    (144, Seen::Dotted(2)),
    (155, Seen::Quoted),
    (158, Seen::Quasi),
    (161, Seen::Comma),
    (164, Seen::CommaAt),
];

/// The forms of a text, none where it has a fault.
fn read(alloc: Global, text: &[u8]) -> Seq<Form> {
    match forms(alloc, text) {
        Ok(read) => read,
        Err(_) => Seq::new(alloc),
    }
}

/// Compares forms with those of the text.
fn expect_forms(rt: &impl Abort, forms: &[Form]) {
    assert!(rt; forms.len() == FORMS.len(), "the number of forms");
    for (form, (place, seen)) in forms.iter().zip(FORMS) {
        assert!(rt; form.place == *place && is_seen(form, seen), "at {place}");
    }
}

#[test]
fn each_form_is_read(rt: HostRuntime) {
    let forms = read(rt.alloc(), TEXT);
    expect_forms(&rt, forms.as_slice());
}
