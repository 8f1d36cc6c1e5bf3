//! The table of the rules of the ground world.

use crate::rows::RuleRow;
use crate::written::Word::{Int, One, Sym, Two, Var};
use ap_world::RuleClass::{Elim, Rewrite};

/// The rules, oldest first.
pub(crate) const RULES: &[RuleRow] = &[
    // `CAR-CONS` is `(equal (car (cons x y)) x)`.
    RuleRow {
        name: b"CAR-CONS",
        term: &[
            Two(b"EQUAL"),
            One(b"CAR"),
            Two(b"CONS"),
            Var(b"X"),
            Var(b"Y"),
            Var(b"X"),
        ],
        class: Rewrite,
    },
    // `CDR-CONS` is `(equal (cdr (cons x y)) y)`.
    RuleRow {
        name: b"CDR-CONS",
        term: &[
            Two(b"EQUAL"),
            One(b"CDR"),
            Two(b"CONS"),
            Var(b"X"),
            Var(b"Y"),
            Var(b"Y"),
        ],
        class: Rewrite,
    },
    // `CAR-CDR-ELIM` is `(implies (consp x) (equal (cons (car x) (cdr x)) x))`.
    RuleRow {
        name: b"CAR-CDR-ELIM",
        term: &[
            Two(b"IMPLIES"),
            One(b"CONSP"),
            Var(b"X"),
            Two(b"EQUAL"),
            Two(b"CONS"),
            One(b"CAR"),
            Var(b"X"),
            One(b"CDR"),
            Var(b"X"),
            Var(b"X"),
        ],
        class: Elim,
    },
    // `COMMUTATIVITY-OF-+` is `(equal (+ x y) (+ y x))`.
    RuleRow {
        name: b"COMMUTATIVITY-OF-+",
        term: &[
            Two(b"EQUAL"),
            Two(b"BINARY-+"),
            Var(b"X"),
            Var(b"Y"),
            Two(b"BINARY-+"),
            Var(b"Y"),
            Var(b"X"),
        ],
        class: Rewrite,
    },
    // `ASSOCIATIVITY-OF-+` is `(equal (+ (+ x y) z) (+ x (+ y z)))`.
    RuleRow {
        name: b"ASSOCIATIVITY-OF-+",
        term: &[
            Two(b"EQUAL"),
            Two(b"BINARY-+"),
            Two(b"BINARY-+"),
            Var(b"X"),
            Var(b"Y"),
            Var(b"Z"),
            Two(b"BINARY-+"),
            Var(b"X"),
            Two(b"BINARY-+"),
            Var(b"Y"),
            Var(b"Z"),
        ],
        class: Rewrite,
    },
    // `COMMUTATIVITY-2-OF-+` is `(equal (+ x (+ y z)) (+ y (+ x z)))`.
    RuleRow {
        name: b"COMMUTATIVITY-2-OF-+",
        term: &[
            Two(b"EQUAL"),
            Two(b"BINARY-+"),
            Var(b"X"),
            Two(b"BINARY-+"),
            Var(b"Y"),
            Var(b"Z"),
            Two(b"BINARY-+"),
            Var(b"Y"),
            Two(b"BINARY-+"),
            Var(b"X"),
            Var(b"Z"),
        ],
        class: Rewrite,
    },
    // `UNICITY-OF-0` is `(equal (+ 0 x) (fix x))`.
    RuleRow {
        name: b"UNICITY-OF-0",
        term: &[
            Two(b"EQUAL"),
            Two(b"BINARY-+"),
            Int(0),
            Var(b"X"),
            One(b"FIX"),
            Var(b"X"),
        ],
        class: Rewrite,
    },
    // `COMMUTATIVITY-OF-*` is `(equal (* x y) (* y x))`.
    RuleRow {
        name: b"COMMUTATIVITY-OF-*",
        term: &[
            Two(b"EQUAL"),
            Two(b"BINARY-*"),
            Var(b"X"),
            Var(b"Y"),
            Two(b"BINARY-*"),
            Var(b"Y"),
            Var(b"X"),
        ],
        class: Rewrite,
    },
    // `ASSOCIATIVITY-OF-*` is `(equal (* (* x y) z) (* x (* y z)))`.
    RuleRow {
        name: b"ASSOCIATIVITY-OF-*",
        term: &[
            Two(b"EQUAL"),
            Two(b"BINARY-*"),
            Two(b"BINARY-*"),
            Var(b"X"),
            Var(b"Y"),
            Var(b"Z"),
            Two(b"BINARY-*"),
            Var(b"X"),
            Two(b"BINARY-*"),
            Var(b"Y"),
            Var(b"Z"),
        ],
        class: Rewrite,
    },
    // `COMMUTATIVITY-2-OF-*` is `(equal (* x (* y z)) (* y (* x z)))`.
    RuleRow {
        name: b"COMMUTATIVITY-2-OF-*",
        term: &[
            Two(b"EQUAL"),
            Two(b"BINARY-*"),
            Var(b"X"),
            Two(b"BINARY-*"),
            Var(b"Y"),
            Var(b"Z"),
            Two(b"BINARY-*"),
            Var(b"Y"),
            Two(b"BINARY-*"),
            Var(b"X"),
            Var(b"Z"),
        ],
        class: Rewrite,
    },
    // `UNICITY-OF-1` is `(equal (* 1 x) (fix x))`.
    RuleRow {
        name: b"UNICITY-OF-1",
        term: &[
            Two(b"EQUAL"),
            Two(b"BINARY-*"),
            Int(1),
            Var(b"X"),
            One(b"FIX"),
            Var(b"X"),
        ],
        class: Rewrite,
    },
    // `TIMES-ZERO` is `(equal (* 0 x) 0)`.
    RuleRow {
        name: b"TIMES-ZERO",
        term: &[Two(b"EQUAL"), Two(b"BINARY-*"), Int(0), Var(b"X"), Int(0)],
        class: Rewrite,
    },
    // `DISTRIBUTIVITY` is `(equal (* x (+ y z)) (+ (* x y) (* x z)))`.
    RuleRow {
        name: b"DISTRIBUTIVITY",
        term: &[
            Two(b"EQUAL"),
            Two(b"BINARY-*"),
            Var(b"X"),
            Two(b"BINARY-+"),
            Var(b"Y"),
            Var(b"Z"),
            Two(b"BINARY-+"),
            Two(b"BINARY-*"),
            Var(b"X"),
            Var(b"Y"),
            Two(b"BINARY-*"),
            Var(b"X"),
            Var(b"Z"),
        ],
        class: Rewrite,
    },
    // `CODE-CHAR-CHAR-CODE` is `(implies (characterp x) (equal (code-char (char-code x)) x))`.
    RuleRow {
        name: b"CODE-CHAR-CHAR-CODE",
        term: &[
            Two(b"IMPLIES"),
            One(b"CHARACTERP"),
            Var(b"X"),
            Two(b"EQUAL"),
            One(b"CODE-CHAR"),
            One(b"CHAR-CODE"),
            Var(b"X"),
            Var(b"X"),
        ],
        class: Rewrite,
    },
    // `COERCE-INVERSE` is `(implies (stringp x) (equal (coerce (coerce x 'list) 'string) x))`.
    RuleRow {
        name: b"COERCE-INVERSE",
        term: &[
            Two(b"IMPLIES"),
            One(b"STRINGP"),
            Var(b"X"),
            Two(b"EQUAL"),
            Two(b"COERCE"),
            Two(b"COERCE"),
            Var(b"X"),
            Sym(b"LIST"),
            Sym(b"STRING"),
            Var(b"X"),
        ],
        class: Rewrite,
    },
];
