//! Which call an induction goes by, and its clauses, by a table.
ghost use Rattle.ap_world.specs.Sound.{HasFunctions};
ghost use Rattle.ap_world.specs.World.{function_of};

use crate::clauses::{checked, clause, first_world};
use crate::expect::expect;
use ap_induct::{Scheme, scheme};
use ap_list::{Bytes, NoMemory, Seq};
use ap_print::print_term;
use ap_tests_terms::{shown, term, terms};
use ap_value::acl2;
use ap_world::{Rune, Theory, World};
use std::alloc::Global;
use std::process::Abort;

const LENGTHS: &str = "(equal (len x) (len y))";

/// 31 literals: an induction by the first has 31 times 31 clauses, and one.
const MANY: &str =
    "(acl2-count x) a b c d e f g h i j k l m n o p q r s u v w y z aa bb cc dd ee ff";

/// One more: 1,025 clauses.
const TOO_MANY: &str =
    "(acl2-count x) a b c d e f g h i j k l m n o p q r s u v w y z aa bb cc dd ee ff gg";

/// An induction as text, its call and its clauses, or a word where there is none.
fn told(alloc: Global, found: Option<Scheme>) -> Result<Bytes, NoMemory> {
    let Some(s) = found else {
        return Bytes::from_slice(alloc, b"none");
    };
    let mut text = print_term(alloc, &s.call)?;
    text.extend(b": ")?;
    text.append(shown(alloc, s.reduction.to().as_slice())?)?;
    Ok(text)
}

/// The induction of the clause of these literals.
fn by_clause(
    alloc: Global,
    w: &World,
    theory: &Theory,
    literals: &str,
) -> Result<Option<Scheme>, NoMemory>
    requires functions { HasFunctions (function_of w.now.entries) }
{
    let c = clause(w, terms(alloc, literals)?)?;
    scheme(alloc, w, theory, &c, None)
}

/// The same by the call of a hint.
fn by_hint(
    alloc: Global,
    w: &World,
    theory: &Theory,
    literals: &str,
    hint: &str,
) -> Result<Option<Scheme>, NoMemory>
    requires functions { HasFunctions (function_of w.now.entries) }
{
    let c = clause(w, terms(alloc, literals)?)?;
    let t = checked(w, term(alloc, hint)?)?;
    scheme(alloc, w, theory, &c, Some(&t))
}

/// The theory that disables the induction by `len`, or nothing.
fn theory(alloc: Global, is_without_len: bool) -> Result<Theory, NoMemory> {
    let mut runes = Seq::new(alloc);
    if is_without_len {
        runes.push(Rune::Induction(acl2(alloc, b"LEN")?))?;
    }
    Theory::disabling(alloc, runes)
}

/// The induction of the clause of these literals, by the call of a hint where one is written, as text.
fn text(
    alloc: Global,
    w: &World,
    is_without_len: bool,
    literals: &str,
    hint: &str,
) -> Result<Bytes, NoMemory>
    requires functions { HasFunctions (function_of w.now.entries) }
{
    let theory = theory(alloc, is_without_len)?;
    let found = if hint.is_empty() {
        by_clause(alloc, w, &theory, literals)?
    } else {
        by_hint(alloc, w, &theory, literals, hint)?
    };
    told(alloc, found)
}

/// Each row: whether the induction by `len` is disabled, the literals, the hint's call, and the induction.
const ROWS: &[(bool, &str, &str, &str)] = &[
    // The first of equal scores is chosen, where its induction is enabled.
    (
        false,
        LENGTHS,
        "",
        "(LEN X): (OR (NOT (CONSP X)) (NOT (EQUAL (LEN (CDR X)) (LEN Y))) (EQUAL (LEN X) (LEN Y))); (OR (CONSP X) (EQUAL (LEN X) (LEN Y)))",
    ),
    (true, LENGTHS, "", "none"),
    // The highest score is chosen.
    (
        false,
        "(equal (len y) (binary-append x (len x)))",
        "",
        "(BINARY-APPEND X (LEN X)): (OR (NOT (ENDP X)) (EQUAL (LEN Y) (BINARY-APPEND X (LEN X)))); (OR (ENDP X) (NOT (EQUAL (LEN Y) (BINARY-APPEND (CDR X) (LEN (CDR X))))) (EQUAL (LEN Y) (BINARY-APPEND X (LEN X))))",
    ),
    // A measured actual is a variable.
    (false, "(true-listp (cdr x))", "", "none"),
    (false, "(true-listp (cdr x))", "(true-listp 'nil)", "none"),
    (false, "(true-listp (cdr x))", "x", "none"),
    // A measured variable is replaced in another actual.
    (
        false,
        "(member-equal x x)",
        "",
        "(MEMBER-EQUAL X X): (OR (NOT (ENDP X)) (MEMBER-EQUAL X X)); (OR (ENDP X) (NOT (EQUAL X (CAR X))) (MEMBER-EQUAL X X)); (OR (ENDP X) (EQUAL X (CAR X)) (NOT (MEMBER-EQUAL (CDR X) (CDR X))) (MEMBER-EQUAL X X))",
    ),
    // Each literal is a hypothesis in turn.
    (
        false,
        "p (not (endp z))",
        "(acl2-count z)",
        "(ACL2-COUNT Z): (OR (NOT (CONSP Z)) (NOT P) (NOT P) P (NOT (ENDP Z))); (OR (NOT (CONSP Z)) (NOT P) (ENDP (CDR Z)) P (NOT (ENDP Z))); (OR (NOT (CONSP Z)) (ENDP (CAR Z)) (NOT P) P (NOT (ENDP Z))); (OR (NOT (CONSP Z)) (ENDP (CAR Z)) (ENDP (CDR Z)) P (NOT (ENDP Z))); (OR (CONSP Z) P (NOT (ENDP Z)))",
    ),
    // More than 1,024 clauses.
    (false, TOO_MANY, "", "none"),
];

/// Compares the inductions in a world with the table, and how many clauses one has.
fn expect_rows(rt: &impl Abort, alloc: Global, w: &World) -> Result<(), NoMemory>
    requires functions { HasFunctions (function_of w.now.entries) }
{
    for (is_without_len, literals, hint, wanted) in ROWS {
        let found = text(alloc, w, *is_without_len, *literals, *hint)?;
        expect(rt, found.as_slice(), *wanted, *literals);
    }
    let many = text(alloc, w, false, MANY, "")?;
    assert_eq!(rt;
        many.as_slice().iter().filter(|byte| **byte == b';').count(),
        961
    );
    Ok(())
}

#[test]
fn inductions_are_those_of_the_table(rt: HostRuntime) -> Result<(), NoMemory> {
    let world = first_world(rt.alloc())?;
    expect_rows(&rt, rt.alloc(), &world)
}
