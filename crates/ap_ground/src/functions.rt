//! The tables of the functions of the ground world, in the order in which these are added. Each that calls itself has
//! the measure `(acl2-count x)`.

use crate::rows::{CaseRow, Row};
use crate::written::Word::{Int, One, Sym, Three, Two, Var};
use ap_world::masks::{ALL, INTEGERS, NATURALS, NO_NEGATIVES, TRUE_LISTS, TRUTHS};

/// Those of truth values, conses and equality.
pub(crate) const TRUTHS_AND_EQUALITY: &[Row] = &[
    // `(not p)` is `(if p nil t)`.
    Row {
        name: b"NOT",
        formals: &[b"P"],
        body: &[Three(b"IF"), Var(b"P"), Sym(b"NIL"), Sym(b"T")],
        cases: &[],
        mask: TRUTHS,
    },
    // `(implies p q)` is `(if p (if q t nil) t)`.
    Row {
        name: b"IMPLIES",
        formals: &[b"P", b"Q"],
        body: &[
            Three(b"IF"),
            Var(b"P"),
            Three(b"IF"),
            Var(b"Q"),
            Sym(b"T"),
            Sym(b"NIL"),
            Sym(b"T"),
        ],
        cases: &[],
        mask: TRUTHS,
    },
    // `(iff p q)` is `(if p (if q t nil) (if q nil t))`.
    Row {
        name: b"IFF",
        formals: &[b"P", b"Q"],
        body: &[
            Three(b"IF"),
            Var(b"P"),
            Three(b"IF"),
            Var(b"Q"),
            Sym(b"T"),
            Sym(b"NIL"),
            Three(b"IF"),
            Var(b"Q"),
            Sym(b"NIL"),
            Sym(b"T"),
        ],
        cases: &[],
        mask: TRUTHS,
    },
    // `(atom x)` is `(not (consp x))`.
    Row {
        name: b"ATOM",
        formals: &[b"X"],
        body: &[One(b"NOT"), One(b"CONSP"), Var(b"X")],
        cases: &[],
        mask: TRUTHS,
    },
    // `(endp x)` is `(not (consp x))`.
    Row {
        name: b"ENDP",
        formals: &[b"X"],
        body: &[One(b"NOT"), One(b"CONSP"), Var(b"X")],
        cases: &[],
        mask: TRUTHS,
    },
    // `(null x)` is `(equal x nil)`.
    Row {
        name: b"NULL",
        formals: &[b"X"],
        body: &[Two(b"EQUAL"), Var(b"X"), Sym(b"NIL")],
        cases: &[],
        mask: TRUTHS,
    },
    // `(eq x y)` is `(equal x y)`.
    Row {
        name: b"EQ",
        formals: &[b"X", b"Y"],
        body: &[Two(b"EQUAL"), Var(b"X"), Var(b"Y")],
        cases: &[],
        mask: TRUTHS,
    },
    // `(eql x y)` is `(equal x y)`.
    Row {
        name: b"EQL",
        formals: &[b"X", b"Y"],
        body: &[Two(b"EQUAL"), Var(b"X"), Var(b"Y")],
        cases: &[],
        mask: TRUTHS,
    },
];

/// Those that tell numbers and truth values, and make an integer of a value.
pub(crate) const RECOGNISERS: &[Row] = &[
    // `(= x y)` is `(equal x y)`.
    Row {
        name: b"=",
        formals: &[b"X", b"Y"],
        body: &[Two(b"EQUAL"), Var(b"X"), Var(b"Y")],
        cases: &[],
        mask: TRUTHS,
    },
    // `(acl2-numberp x)` is `(integerp x)`.
    Row {
        name: b"ACL2-NUMBERP",
        formals: &[b"X"],
        body: &[One(b"INTEGERP"), Var(b"X")],
        cases: &[],
        mask: TRUTHS,
    },
    // `(rationalp x)` is `(integerp x)`.
    Row {
        name: b"RATIONALP",
        formals: &[b"X"],
        body: &[One(b"INTEGERP"), Var(b"X")],
        cases: &[],
        mask: TRUTHS,
    },
    // `(booleanp x)` is `(if (equal x t) t (equal x nil))`.
    Row {
        name: b"BOOLEANP",
        formals: &[b"X"],
        body: &[
            Three(b"IF"),
            Two(b"EQUAL"),
            Var(b"X"),
            Sym(b"T"),
            Sym(b"T"),
            Two(b"EQUAL"),
            Var(b"X"),
            Sym(b"NIL"),
        ],
        cases: &[],
        mask: TRUTHS,
    },
    // `(fix x)` is `(if (integerp x) x 0)`.
    Row {
        name: b"FIX",
        formals: &[b"X"],
        body: &[Three(b"IF"), One(b"INTEGERP"), Var(b"X"), Var(b"X"), Int(0)],
        cases: &[],
        mask: INTEGERS,
    },
    // `(ifix x)` is `(if (integerp x) x 0)`.
    Row {
        name: b"IFIX",
        formals: &[b"X"],
        body: &[Three(b"IF"), One(b"INTEGERP"), Var(b"X"), Var(b"X"), Int(0)],
        cases: &[],
        mask: INTEGERS,
    },
    // `(natp x)` is `(if (integerp x) (not (< x 0)) nil)`.
    Row {
        name: b"NATP",
        formals: &[b"X"],
        body: &[
            Three(b"IF"),
            One(b"INTEGERP"),
            Var(b"X"),
            One(b"NOT"),
            Two(b"<"),
            Var(b"X"),
            Int(0),
            Sym(b"NIL"),
        ],
        cases: &[],
        mask: TRUTHS,
    },
    // `(posp x)` is `(if (integerp x) (< 0 x) nil)`.
    Row {
        name: b"POSP",
        formals: &[b"X"],
        body: &[
            Three(b"IF"),
            One(b"INTEGERP"),
            Var(b"X"),
            Two(b"<"),
            Int(0),
            Var(b"X"),
            Sym(b"NIL"),
        ],
        cases: &[],
        mask: TRUTHS,
    },
];

/// Those that make a natural of a value, and compare numbers.
pub(crate) const COMPARISONS: &[Row] = &[
    // `(nfix x)` is `(if (natp x) x 0)`.
    Row {
        name: b"NFIX",
        formals: &[b"X"],
        body: &[Three(b"IF"), One(b"NATP"), Var(b"X"), Var(b"X"), Int(0)],
        cases: &[],
        mask: ALL,
    },
    // `(zp x)` is `(if (integerp x) (not (< 0 x)) t)`.
    Row {
        name: b"ZP",
        formals: &[b"X"],
        body: &[
            Three(b"IF"),
            One(b"INTEGERP"),
            Var(b"X"),
            One(b"NOT"),
            Two(b"<"),
            Int(0),
            Var(b"X"),
            Sym(b"T"),
        ],
        cases: &[],
        mask: TRUTHS,
    },
    // `(zip x)` is `(if (integerp x) (equal x 0) t)`.
    Row {
        name: b"ZIP",
        formals: &[b"X"],
        body: &[
            Three(b"IF"),
            One(b"INTEGERP"),
            Var(b"X"),
            Two(b"EQUAL"),
            Var(b"X"),
            Int(0),
            Sym(b"T"),
        ],
        cases: &[],
        mask: TRUTHS,
    },
    // `(zerop x)` is `(equal x 0)`.
    Row {
        name: b"ZEROP",
        formals: &[b"X"],
        body: &[Two(b"EQUAL"), Var(b"X"), Int(0)],
        cases: &[],
        mask: TRUTHS,
    },
    // `(plusp x)` is `(< 0 x)`.
    Row {
        name: b"PLUSP",
        formals: &[b"X"],
        body: &[Two(b"<"), Int(0), Var(b"X")],
        cases: &[],
        mask: TRUTHS,
    },
    // `(minusp x)` is `(< x 0)`.
    Row {
        name: b"MINUSP",
        formals: &[b"X"],
        body: &[Two(b"<"), Var(b"X"), Int(0)],
        cases: &[],
        mask: TRUTHS,
    },
    // `(max x y)` is `(if (< y x) x y)`.
    Row {
        name: b"MAX",
        formals: &[b"X", b"Y"],
        body: &[
            Three(b"IF"),
            Two(b"<"),
            Var(b"Y"),
            Var(b"X"),
            Var(b"X"),
            Var(b"Y"),
        ],
        cases: &[],
        mask: ALL,
    },
    // `(min x y)` is `(if (< x y) x y)`.
    Row {
        name: b"MIN",
        formals: &[b"X", b"Y"],
        body: &[
            Three(b"IF"),
            Two(b"<"),
            Var(b"X"),
            Var(b"Y"),
            Var(b"X"),
            Var(b"Y"),
        ],
        cases: &[],
        mask: ALL,
    },
    // `(abs x)` is `(if (< x 0) (unary-- x) x)`.
    Row {
        name: b"ABS",
        formals: &[b"X"],
        body: &[
            Three(b"IF"),
            Two(b"<"),
            Var(b"X"),
            Int(0),
            One(b"UNARY--"),
            Var(b"X"),
            Var(b"X"),
        ],
        cases: &[],
        mask: NO_NEGATIVES,
    },
    // `(integer-abs x)` is `(if (integerp x) (if (< x 0) (unary-- x) x) 0)`.
    Row {
        name: b"INTEGER-ABS",
        formals: &[b"X"],
        body: &[
            Three(b"IF"),
            One(b"INTEGERP"),
            Var(b"X"),
            Three(b"IF"),
            Two(b"<"),
            Var(b"X"),
            Int(0),
            One(b"UNARY--"),
            Var(b"X"),
            Var(b"X"),
            Int(0),
        ],
        cases: &[],
        mask: NATURALS,
    },
];

/// Those of lists, most of which call themselves.
pub(crate) const LISTS: &[Row] = &[
    // `(true-listp x)` is `(if (consp x) (true-listp (cdr x)) (equal x nil))`.
    Row {
        name: b"TRUE-LISTP",
        formals: &[b"X"],
        body: &[
            Three(b"IF"),
            One(b"CONSP"),
            Var(b"X"),
            One(b"TRUE-LISTP"),
            One(b"CDR"),
            Var(b"X"),
            Two(b"EQUAL"),
            Var(b"X"),
            Sym(b"NIL"),
        ],
        cases: &[
            CaseRow {
                tests: &[&[One(b"CONSP"), Var(b"X")]],
                calls: &[&[&[One(b"CDR"), Var(b"X")]]],
            },
            CaseRow {
                tests: &[&[One(b"NOT"), One(b"CONSP"), Var(b"X")]],
                calls: &[],
            },
        ],
        mask: TRUTHS,
    },
    // `(len x)` is `(if (consp x) (+ 1 (len (cdr x))) 0)`.
    Row {
        name: b"LEN",
        formals: &[b"X"],
        body: &[
            Three(b"IF"),
            One(b"CONSP"),
            Var(b"X"),
            Two(b"BINARY-+"),
            Int(1),
            One(b"LEN"),
            One(b"CDR"),
            Var(b"X"),
            Int(0),
        ],
        cases: &[
            CaseRow {
                tests: &[&[One(b"CONSP"), Var(b"X")]],
                calls: &[&[&[One(b"CDR"), Var(b"X")]]],
            },
            CaseRow {
                tests: &[&[One(b"NOT"), One(b"CONSP"), Var(b"X")]],
                calls: &[],
            },
        ],
        mask: NATURALS,
    },
    // `(length x)` is `(if (stringp x) (len (coerce x 'list)) (len x))`.
    Row {
        name: b"LENGTH",
        formals: &[b"X"],
        body: &[
            Three(b"IF"),
            One(b"STRINGP"),
            Var(b"X"),
            One(b"LEN"),
            Two(b"COERCE"),
            Var(b"X"),
            Sym(b"LIST"),
            One(b"LEN"),
            Var(b"X"),
        ],
        cases: &[],
        mask: NATURALS,
    },
    // `(acl2-count x)` is `(if (consp x) (+ 1 (acl2-count (car x)) (acl2-count (cdr x))) (if (integerp x) (integer-abs x) (if (stringp x) (length x) 0)))`.
    Row {
        name: b"ACL2-COUNT",
        formals: &[b"X"],
        body: &[
            Three(b"IF"),
            One(b"CONSP"),
            Var(b"X"),
            Two(b"BINARY-+"),
            Int(1),
            Two(b"BINARY-+"),
            One(b"ACL2-COUNT"),
            One(b"CAR"),
            Var(b"X"),
            One(b"ACL2-COUNT"),
            One(b"CDR"),
            Var(b"X"),
            Three(b"IF"),
            One(b"INTEGERP"),
            Var(b"X"),
            One(b"INTEGER-ABS"),
            Var(b"X"),
            Three(b"IF"),
            One(b"STRINGP"),
            Var(b"X"),
            One(b"LENGTH"),
            Var(b"X"),
            Int(0),
        ],
        cases: &[
            CaseRow {
                tests: &[&[One(b"CONSP"), Var(b"X")]],
                calls: &[&[&[One(b"CAR"), Var(b"X")]], &[&[One(b"CDR"), Var(b"X")]]],
            },
            CaseRow {
                tests: &[&[One(b"NOT"), One(b"CONSP"), Var(b"X")]],
                calls: &[],
            },
        ],
        mask: NATURALS,
    },
    // `(binary-append x y)` is `(if (endp x) y (cons (car x) (binary-append (cdr x) y)))`.
    Row {
        name: b"BINARY-APPEND",
        formals: &[b"X", b"Y"],
        body: &[
            Three(b"IF"),
            One(b"ENDP"),
            Var(b"X"),
            Var(b"Y"),
            Two(b"CONS"),
            One(b"CAR"),
            Var(b"X"),
            Two(b"BINARY-APPEND"),
            One(b"CDR"),
            Var(b"X"),
            Var(b"Y"),
        ],
        cases: &[
            CaseRow {
                tests: &[&[One(b"ENDP"), Var(b"X")]],
                calls: &[],
            },
            CaseRow {
                tests: &[&[One(b"NOT"), One(b"ENDP"), Var(b"X")]],
                calls: &[&[&[One(b"CDR"), Var(b"X")], &[Var(b"Y")]]],
            },
        ],
        mask: ALL,
    },
    // `(member-equal a x)` is `(if (endp x) nil (if (equal a (car x)) x (member-equal a (cdr x))))`.
    Row {
        name: b"MEMBER-EQUAL",
        formals: &[b"A", b"X"],
        body: &[
            Three(b"IF"),
            One(b"ENDP"),
            Var(b"X"),
            Sym(b"NIL"),
            Three(b"IF"),
            Two(b"EQUAL"),
            Var(b"A"),
            One(b"CAR"),
            Var(b"X"),
            Var(b"X"),
            Two(b"MEMBER-EQUAL"),
            Var(b"A"),
            One(b"CDR"),
            Var(b"X"),
        ],
        cases: &[
            CaseRow {
                tests: &[&[One(b"ENDP"), Var(b"X")]],
                calls: &[],
            },
            CaseRow {
                tests: &[
                    &[One(b"NOT"), One(b"ENDP"), Var(b"X")],
                    &[Two(b"EQUAL"), Var(b"A"), One(b"CAR"), Var(b"X")],
                ],
                calls: &[],
            },
            CaseRow {
                tests: &[
                    &[One(b"NOT"), One(b"ENDP"), Var(b"X")],
                    &[
                        One(b"NOT"),
                        Two(b"EQUAL"),
                        Var(b"A"),
                        One(b"CAR"),
                        Var(b"X"),
                    ],
                ],
                calls: &[&[&[Var(b"A")], &[One(b"CDR"), Var(b"X")]]],
            },
        ],
        mask: ALL,
    },
    // `(make-character-list x)` is `(if (endp x) nil (cons (if (characterp (car x)) (car x) (code-char 0)) (make-character-list (cdr x))))`.
    Row {
        name: b"MAKE-CHARACTER-LIST",
        formals: &[b"X"],
        body: &[
            Three(b"IF"),
            One(b"ENDP"),
            Var(b"X"),
            Sym(b"NIL"),
            Two(b"CONS"),
            Three(b"IF"),
            One(b"CHARACTERP"),
            One(b"CAR"),
            Var(b"X"),
            One(b"CAR"),
            Var(b"X"),
            One(b"CODE-CHAR"),
            Int(0),
            One(b"MAKE-CHARACTER-LIST"),
            One(b"CDR"),
            Var(b"X"),
        ],
        cases: &[
            CaseRow {
                tests: &[&[One(b"ENDP"), Var(b"X")]],
                calls: &[],
            },
            CaseRow {
                tests: &[&[One(b"NOT"), One(b"ENDP"), Var(b"X")]],
                calls: &[&[&[One(b"CDR"), Var(b"X")]]],
            },
        ],
        mask: TRUE_LISTS,
    },
];
