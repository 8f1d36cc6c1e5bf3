//! The ground world, by a table.

use crate::expect::expect;
use ap_ground::ground_world;
use ap_list::{Bytes, NoMemory};
use ap_tests_terms::put_term;
use ap_value::Symbol;
use ap_world::{Entry, Function, RuleClass, Theorem, World, copy_entry, same_entry};
use std::alloc::Global;
use std::process::Abort;

/// The entries, oldest first: a function's name, its formals, and its body as it prints; or a rule's name, its theorem as it
/// prints, and whether it is one of elimination.
const ENTRIES: &str = "NOT (P) (IF P 'NIL 'T)
IMPLIES (P Q) (IF P (IF Q 'T 'NIL) 'T)
IFF (P Q) (IF P (IF Q 'T 'NIL) (IF Q 'NIL 'T))
ATOM (X) (NOT (CONSP X))
ENDP (X) (NOT (CONSP X))
NULL (X) (EQUAL X 'NIL)
EQ (X Y) (EQUAL X Y)
EQL (X Y) (EQUAL X Y)
= (X Y) (EQUAL X Y)
ACL2-NUMBERP (X) (INTEGERP X)
RATIONALP (X) (INTEGERP X)
BOOLEANP (X) (IF (EQUAL X 'T) 'T (EQUAL X 'NIL))
FIX (X) (IF (INTEGERP X) X '0)
IFIX (X) (IF (INTEGERP X) X '0)
NATP (X) (IF (INTEGERP X) (NOT (< X '0)) 'NIL)
POSP (X) (IF (INTEGERP X) (< '0 X) 'NIL)
NFIX (X) (IF (NATP X) X '0)
ZP (X) (IF (INTEGERP X) (NOT (< '0 X)) 'T)
ZIP (X) (IF (INTEGERP X) (EQUAL X '0) 'T)
ZEROP (X) (EQUAL X '0)
PLUSP (X) (< '0 X)
MINUSP (X) (< X '0)
MAX (X Y) (IF (< Y X) X Y)
MIN (X Y) (IF (< X Y) X Y)
ABS (X) (IF (< X '0) (UNARY-- X) X)
INTEGER-ABS (X) (IF (INTEGERP X) (IF (< X '0) (UNARY-- X) X) '0)
TRUE-LISTP (X) (IF (CONSP X) (TRUE-LISTP (CDR X)) (EQUAL X 'NIL))
LEN (X) (IF (CONSP X) (BINARY-+ '1 (LEN (CDR X))) '0)
LENGTH (X) (IF (STRINGP X) (LEN (COERCE X 'LIST)) (LEN X))
ACL2-COUNT (X) (IF (CONSP X) (BINARY-+ '1 (BINARY-+ (ACL2-COUNT (CAR X)) (ACL2-COUNT (CDR X)))) (IF (INTEGERP X) (INTEGER-ABS X) (IF (STRINGP X) (LENGTH X) '0)))
BINARY-APPEND (X Y) (IF (ENDP X) Y (CONS (CAR X) (BINARY-APPEND (CDR X) Y)))
MEMBER-EQUAL (A X) (IF (ENDP X) 'NIL (IF (EQUAL A (CAR X)) X (MEMBER-EQUAL A (CDR X))))
MAKE-CHARACTER-LIST (X) (IF (ENDP X) 'NIL (CONS (IF (CHARACTERP (CAR X)) (CAR X) (CODE-CHAR '0)) (MAKE-CHARACTER-LIST (CDR X))))
CAR-CONS (EQUAL (CAR (CONS X Y)) X)
CDR-CONS (EQUAL (CDR (CONS X Y)) Y)
CAR-CDR-ELIM (IMPLIES (CONSP X) (EQUAL (CONS (CAR X) (CDR X)) X)) elim
COMMUTATIVITY-OF-+ (EQUAL (BINARY-+ X Y) (BINARY-+ Y X))
ASSOCIATIVITY-OF-+ (EQUAL (BINARY-+ (BINARY-+ X Y) Z) (BINARY-+ X (BINARY-+ Y Z)))
COMMUTATIVITY-2-OF-+ (EQUAL (BINARY-+ X (BINARY-+ Y Z)) (BINARY-+ Y (BINARY-+ X Z)))
UNICITY-OF-0 (EQUAL (BINARY-+ '0 X) (FIX X))
COMMUTATIVITY-OF-* (EQUAL (BINARY-* X Y) (BINARY-* Y X))
ASSOCIATIVITY-OF-* (EQUAL (BINARY-* (BINARY-* X Y) Z) (BINARY-* X (BINARY-* Y Z)))
COMMUTATIVITY-2-OF-* (EQUAL (BINARY-* X (BINARY-* Y Z)) (BINARY-* Y (BINARY-* X Z)))
UNICITY-OF-1 (EQUAL (BINARY-* '1 X) (FIX X))
TIMES-ZERO (EQUAL (BINARY-* '0 X) '0)
DISTRIBUTIVITY (EQUAL (BINARY-* X (BINARY-+ Y Z)) (BINARY-+ (BINARY-* X Y) (BINARY-* X Z)))
CODE-CHAR-CHAR-CODE (IMPLIES (CHARACTERP X) (EQUAL (CODE-CHAR (CHAR-CODE X)) X))
COERCE-INVERSE (IMPLIES (STRINGP X) (EQUAL (COERCE (COERCE X 'LIST) 'STRING) X))";

/// Writes formals between parentheses.
fn put_formals(text: &mut Bytes, formals: &[Symbol]) -> Result<(), NoMemory> {
    let mut between = b"(".as_slice();
    for formal in formals {
        text.extend(between)?;
        text.extend(formal.name.as_slice())?;
        between = b" ";
    }
    text.extend(b") ")
}

/// Writes a function's formals, and its body.
fn put_function(alloc: Global, text: &mut Bytes, function: &Function) -> Result<(), NoMemory> {
    put_formals(text, function.formals.as_slice())?;
    put_term(alloc, text, &function.body)
}

/// Writes a theorem, and whether it is a rule of elimination.
fn put_theorem(alloc: Global, text: &mut Bytes, theorem: &Theorem) -> Result<(), NoMemory> {
    put_term(alloc, text, &theorem.term)?;
    if matches!(theorem.classes.get(0), Some(RuleClass::Elim)) {
        text.extend(b" elim")?;
    }
    Ok(())
}

/// An entry, as its line has it.
fn shown(alloc: Global, entry: &Entry) -> Result<Bytes, NoMemory> {
    let mut text = Bytes::from_slice(alloc, entry.name().name.as_slice())?;
    text.push(b' ')?;
    match entry {
        Entry::Function(function) => put_function(alloc, &mut text, function)?,
        Entry::Theorem(theorem) => put_theorem(alloc, &mut text, theorem)?,
        Entry::Constant(_, _) => {}
    }
    Ok(text)
}

/// Whether a copy of an entry is the same.
fn is_copied(alloc: Global, entry: &Entry) -> Result<bool, NoMemory> {
    let copy = copy_entry(alloc, entry)?;
    Ok(same_entry(entry, &copy))
}

fn expect_entries(rt: &impl Abort, alloc: Global, world: &World) -> Result<(), NoMemory> {
    assert_eq!(rt; (world.entries().len(), ENTRIES.lines().count()), (48, 48));
    for (entry, line) in world.entries().iter().zip(ENTRIES.lines()) {
        expect(rt, shown(alloc, entry)?.as_slice(), line, line);
        assert!(rt; is_copied(alloc, entry)?, "{line}");
    }
    Ok(())
}

#[test]
fn the_entries_are_those_of_the_table_and_are_copied(rt: HostRuntime) -> Result<(), NoMemory> {
    let world = ground_world(rt.alloc())?;
    expect_entries(&rt, rt.alloc(), &world)
}
