use crate::expect::expect;
use ap_list::{Bytes, NoMemory};
use ap_print::{Clause, print_clause};
use ap_tests_terms::terms;
use std::alloc::Global;
use std::test::Fail;

/// Each row: literals, and what the clause of them prints as: clauses, symbols, which stand between bars where they aren't
/// read back otherwise, constants and calls.
const CLAUSES: &[(&str, &str)] = &[
    ("", "NIL"),
    ("(p x)", "(P X)"),
    ("(not (p x)) (p y)", "(OR (NOT (P X)) (P Y))"),
    ("binary-+", "BINARY-+"),
    ("|foo bar|", "|foo bar|"),
    ("\\1", "|1|"),
    ("\\-1/2", "|-1/2|"),
    ("1.e5", "1.E5"),
    ("1+", "1+"),
    ("\\..", "|..|"),
    ("||", "||"),
    ("a\\|b\\\\", "|A\\|B\\\\|"),
    (":1", ":1"),
    ("#\\Space", "'#\\Space"),
    ("#\\a", "'#\\a"),
    ("\"a\\\"b\\\\\"", "'\"a\\\"b\\\\\""),
    ("'(1 -2)", "'(1 -2)"),
    ("'(a . b)", "'(A . B)"),
    (
        "(+ 1 170141183460469231731687303715884105727)",
        "(BINARY-+ '1 '170141183460469231731687303715884105727)",
    ),
];

/// What the clause of these literals prints as.
fn printed(alloc: Global, literals: &str) -> Result<Bytes, NoMemory> {
    let clause = Clause(terms(alloc, literals)?);
    print_clause(alloc, &clause)
}

#[test]
fn clauses_print_as_they_are_read_back(rt: HostRuntime) -> Result<(), Fail> {
    for (literals, text) in CLAUSES {
        let printed = printed(rt.alloc(), *literals)?;
        expect(&rt, printed.as_slice(), *text);
    }
    Ok(())
}
