//! The types of terms, by tables.
ghost use Rattle.std.specs.Prelude.{◌≡◌, IfOk};
ghost use Rattle.ap_value.specs.Values.{acl2};
ghost use Rattle.ap_world.specs.Names.{integerp_name, nfix_name};
ghost use Rattle.ap_world.specs.Ground.{one, x};
ghost use Rattle.ap_world.specs.World.{function_of};
ghost use Rattle.ap_kernel.specs.Standing.{DefinesNot};

use crate::known::{are_facts, first_world};
use ap_eval::is_known;
use ap_ground::ground_world;
use ap_ground::laws::ground_has_its_functions;
use ap_list::{NoMemory, Seq};
use ap_tests_terms::term;
use ap_types::{Ctx, Term, World, kept_mask, types_of};
use ap_value::acl2;
use ap_world::{RuleClass, Rune, Theory};
use std::alloc::{AllocError, Global};
use std::test::Fail;

const ZERO: u16 = 1;

const POSITIVE: u16 = 2;

const NEGATIVE: u16 = 4;

const NIL: u16 = 8;

const TRUE: u16 = 16;

const SYMBOL: u16 = 32;

const PROPER: u16 = 64;

const IMPROPER: u16 = 128;

const TEXT: u16 = 256;

const CHARACTER: u16 = 512;

const TRUTHS: u16 = 24;

const INTEGERS: u16 = 7;

const ALL: u16 = 1023;

/// The types of a known term under known facts.
fn known_types(alloc: Global, w: &World, ctx: &Ctx, t: &Term) -> Result<u16, NoMemory>
    requires ground { DefinesNot (function_of w.now.entries) }
{
    if !are_facts(w, ctx.facts()) || !is_known(w, t) {
        return Err(AllocError);
    }
    let mask = types_of(alloc, w, ctx, t)?;
    Ok(mask.0)
}

/// The context of one fact; `'T` true says nothing.
fn context(alloc: Global, fact: &str, sign: bool) -> Result<Ctx, NoMemory> {
    let mut facts = Seq::new(alloc);
    facts.push((term(alloc, fact)?, sign))?;
    Ctx::new(alloc, facts)
}

/// A fact, its sign, a term, and the term's types under that fact.
type Row = (&'static str, bool, &'static str, u16);

/// Whether a term has the types of its row.
fn is_as_said(alloc: Global, w: &World, row: &Row) -> Result<bool, NoMemory>
    requires ground { DefinesNot (function_of w.now.entries) }
{
    let ctx = context(alloc, row.0, row.1)?;
    let t = term(alloc, row.2)?;
    let types = known_types(alloc, w, &ctx, &t)?;
    Ok(types == row.3)
}

/// Whether each term has the types of its row.
fn are_as_said(alloc: Global, w: &World, rows: &[Row]) -> Result<bool, NoMemory>
    requires ground { DefinesNot (function_of w.now.entries) }
{
    for row in rows {
        if !is_as_said(alloc, w, row)? {
            return Ok(false);
        }
    }
    Ok(true)
}

/// Each function of the ground world with its types, written by hand from its body.
const FUNCTIONS: &[(&[u8], u16)] = &[
    (b"NOT", 24),
    (b"IMPLIES", 24),
    (b"IFF", 24),
    (b"ATOM", 24),
    (b"ENDP", 24),
    (b"NULL", 24),
    (b"EQ", 24),
    (b"EQL", 24),
    (b"=", 24),
    (b"ACL2-NUMBERP", 24),
    (b"RATIONALP", 24),
    (b"BOOLEANP", 24),
    (b"FIX", 7),
    (b"IFIX", 7),
    (b"NATP", 24),
    (b"POSP", 24),
    (b"NFIX", 1023),
    (b"ZP", 24),
    (b"ZIP", 24),
    (b"ZEROP", 24),
    (b"PLUSP", 24),
    (b"MINUSP", 24),
    (b"MAX", 1023),
    (b"MIN", 1023),
    (b"ABS", 1019),
    (b"INTEGER-ABS", 3),
    (b"TRUE-LISTP", 24),
    (b"LEN", 3),
    (b"LENGTH", 3),
    (b"ACL2-COUNT", 3),
    (b"BINARY-APPEND", 1023),
    (b"MEMBER-EQUAL", 1023),
    (b"MAKE-CHARACTER-LIST", 72),
];

/// Whether a function keeps the mask of its types.
fn keeps(alloc: Global, w: &World, name: &[u8], types: u16) -> Result<bool, NoMemory> {
    let name = acl2(alloc, name)?;
    match w.lookup_fun(&name) {
        Some(g) => Ok(g.mask.0 == types && kept_mask(alloc, w, &name, &g.body)?.0 == types),
        None => Ok(false),
    }
}

/// Whether each function of the ground world keeps the mask of its types.
fn each_keeps(alloc: Global, w: &World) -> Result<bool, NoMemory> {
    for (name, types) in FUNCTIONS {
        if !keeps(alloc, w, name, *types)? {
            return Ok(false);
        }
    }
    Ok(true)
}

/// Terms under a fact, and their types.
const TERMS: &[Row] = &[
    // Each kind of fact, once true and once false, and what is left of the types of a variable.
    ("X", true, "X", ALL - NIL),
    ("X", false, "X", NIL),
    ("(CONSP X)", true, "X", PROPER + IMPROPER),
    ("(CONSP X)", false, "X", ALL - PROPER - IMPROPER),
    ("(INTEGERP X)", true, "X", INTEGERS),
    ("(INTEGERP X)", false, "X", ALL - INTEGERS),
    ("(SYMBOLP X)", true, "X", TRUTHS + SYMBOL),
    ("(SYMBOLP X)", false, "X", ALL - TRUTHS - SYMBOL),
    ("(STRINGP X)", true, "X", TEXT),
    ("(STRINGP X)", false, "X", ALL - TEXT),
    ("(CHARACTERP X)", true, "X", CHARACTER),
    ("(CHARACTERP X)", false, "X", ALL - CHARACTER),
    ("(TRUE-LISTP X)", true, "X", NIL + PROPER),
    ("(TRUE-LISTP X)", false, "X", ALL - NIL - PROPER),
    ("(EQUAL X 0)", true, "X", ZERO),
    ("(EQUAL X 0)", false, "X", ALL - ZERO),
    ("(EQUAL 0 X)", true, "X", ZERO),
    ("(EQUAL 0 X)", false, "X", ALL - ZERO),
    ("(EQUAL X 'NIL)", true, "X", NIL),
    ("(EQUAL X 'NIL)", false, "X", ALL - NIL),
    ("(EQUAL 'T X)", true, "X", TRUE),
    ("(EQUAL 'T X)", false, "X", ALL - TRUE),
    ("(EQUAL X 3)", true, "X", POSITIVE),
    ("(EQUAL X 3)", false, "X", ALL),
    ("(EQUAL 'A X)", true, "X", SYMBOL),
    ("(EQUAL 'A X)", false, "X", ALL),
    ("(< X 0)", true, "X", NEGATIVE),
    ("(< X 0)", false, "X", ALL - NEGATIVE),
    ("(< 0 X)", true, "X", POSITIVE),
    ("(< 0 X)", false, "X", ALL - POSITIVE),
    ("(< X 1)", true, "X", ALL),
    ("(< X 1)", false, "X", ALL),
    ("(NATP X)", true, "X", ALL),
    ("(NATP X)", false, "X", ALL),
    ("(CONSP X)", true, "Y", ALL),
    // Terms under a true fact.
    ("'T", true, "7", POSITIVE),
    ("'T", true, "'NIL", NIL),
    ("'T", true, "'A", SYMBOL),
    ("'T", true, "'(1 . 2)", IMPROPER),
    ("'T", true, "(EQUAL X Y)", TRUTHS),
    ("'T", true, "(EQUAL 1 'A)", NIL),
    ("'T", true, "(EQUAL 0 0)", TRUE),
    ("'T", true, "(EQUAL 1 1)", TRUTHS),
    ("'T", true, "(< (LEN X) 0)", NIL),
    ("'T", true, "(< 0 1)", TRUE),
    ("'T", true, "(< 'A 0)", NIL),
    ("'T", true, "(< 1 2)", TRUTHS),
    ("'T", true, "(BINARY-+ X Y)", INTEGERS),
    ("'T", true, "(BINARY-+ 1 (UNARY-- 1))", INTEGERS),
    ("'T", true, "(BINARY-+ 'A (UNARY-- 1))", NEGATIVE),
    ("'T", true, "(BINARY-* (UNARY-- 2) (UNARY-- 3))", POSITIVE),
    ("'T", true, "(BINARY-* X 'A)", ZERO),
    ("'T", true, "(CONS X 'NIL)", PROPER),
    ("'T", true, "(CONS X 1)", IMPROPER),
    ("(TRUE-LISTP X)", true, "(CDR X)", NIL + PROPER),
    ("(CONSP X)", true, "(CDR X)", ALL),
    ("(INTEGERP X)", true, "(CDR X)", NIL),
    ("(CONSP X)", true, "(CAR X)", ALL),
    ("(INTEGERP X)", true, "(CAR X)", NIL),
    ("'T", true, "(CHAR-CODE X)", ZERO + POSITIVE),
    ("(STRINGP X)", true, "(CHAR-CODE X)", ZERO),
    ("'T", true, "(CODE-CHAR X)", CHARACTER),
    ("'T", true, "(SYMBOL-NAME X)", TEXT),
    ("'T", true, "(COERCE X 'LIST)", NIL + PROPER),
    ("'T", true, "(COERCE X 'STRING)", TEXT),
    ("'T", true, "(COERCE X Y)", NIL + PROPER + TEXT),
    ("(CONSP X)", true, "(NOT X)", NIL),
    ("'T", true, "(TRUE-LISTP (CONS X 'NIL))", TRUE),
    ("'T", true, "(FIX X)", INTEGERS),
    (
        "'T",
        true,
        "(CONS (IF (TRUE-LISTP X) 1 2) (IF (CONSP X) X 'NIL))",
        PROPER + IMPROPER,
    ),
    ("'T", true, "(BINARY-+ 1 (LEN X))", POSITIVE),
    // Each branch is looked at under its test, and not at all where a fact decides the test.
    ("'T", true, "(IF (CONSP X) 1 'A)", POSITIVE + SYMBOL),
    ("(CONSP X)", true, "(IF (CONSP X) 1 'A)", POSITIVE),
    ("(CONSP X)", false, "(IF (CONSP X) 1 'A)", SYMBOL),
    ("'T", true, "(IF (INTEGERP X) X 0)", INTEGERS),
    (
        "'T",
        true,
        "(IF (CONSP X) (IF (TRUE-LISTP X) (CDR X) 1) (CAR X))",
        NIL + PROPER + POSITIVE,
    ),
];

/// The world where the type-prescription rune of this name is disabled.
fn without_types(alloc: Global, mut world: World, name: &[u8]) -> Result<World, NoMemory>
    requires ground { DefinesNot (function_of world.entries) }
    ensures { IfOk result (λ w. DefinesNot (function_of w.entries)) }
{
    let mut disabled = Seq::new(alloc);
    disabled.push(Rune::TypePrescription(acl2(alloc, name)?))?;
    world.set_theory(Theory::disabling(alloc, disabled)?);
    Ok(world)
}

/// Terms where the type-prescription rune of `len` is disabled, and their types.
const SILENT: &[Row] = &[
    ("'T", true, "(LEN X)", ALL),
    ("'T", true, "(LENGTH X)", ZERO + POSITIVE),
    ("'T", true, "(BINARY-+ 1 (LEN X))", INTEGERS),
];

/// Whether the terms have the types of their rows where the type-prescription rune of `len` is disabled.
fn hold_without_len(alloc: Global) -> Result<bool, NoMemory> {
    let world = first_world(alloc)?;
    let world = without_types(alloc, world, b"LEN")?;
    are_as_said(alloc, &world, SILENT)
}

/// The call of a function on one term.
fn one(alloc: Global, name: &[u8], t: Term) -> Result<Term, NoMemory>
    ensures { IfOk result (λ u. u ≡ one (acl2 name.now) t) }
{
    let mut terms = Seq::new(alloc);
    terms.push(t)?;
    Term::call(alloc, acl2(alloc, name)?, terms)
}

/// `(integerp (nfix x))`.
#[tactic(auto, unfolding(ap_world::specs::Names::integerp_name, ap_world::specs::Names::nfix_name, ap_world::specs::Names::x_name))]
fn integer_nfix(alloc: Global) -> Result<Term, NoMemory>
    ensures { IfOk result (λ u. u ≡ one integerp_name (one nfix_name x)) }
{
    let x = Term::var(acl2(alloc, b"X")?);
    one(alloc, b"INTEGERP", one(alloc, b"NFIX", x)?)
}

/// The ground world with the type-prescription theorem `integerp-nfix`, `(integerp (nfix x))`.
fn world_with_rule(alloc: Global) -> Result<World, NoMemory>
    ensures { IfOk result (λ w. DefinesNot (function_of w.entries)) }
{
    ground_has_its_functions();
    let mut world = ground_world(alloc)?;
    let name = acl2(alloc, b"INTEGERP-NFIX")?;
    let t = integer_nfix(alloc)?;
    let mut classes = Seq::new(alloc);
    classes.push(RuleClass::TypePrescription)?;
    match world.add_theorem(alloc, name, t, classes) {
        Ok(()) => Ok(world),
        Err(_) => Err(AllocError),
    }
}

/// Whether `(nfix x)` has these types in the world with that theorem, where the type-prescription rune of
/// this name is disabled.
fn nfix_has(alloc: Global, disabled: &[u8], types: u16) -> Result<bool, NoMemory> {
    let world = world_with_rule(alloc)?;
    let world = without_types(alloc, world, disabled)?;
    is_as_said(alloc, &world, &("'T", true, "(NFIX X)", types))
}

/// Whether all terms have the types of their rows, and the world's functions keep theirs.
fn hold(alloc: Global, w: &World) -> Result<bool, NoMemory>
    requires ground { DefinesNot (function_of w.now.entries) }
{
    Ok(each_keeps(alloc, w)? && are_as_said(alloc, w, TERMS)?)
}

/// The same in the ground world.
fn hold_at_first(alloc: Global) -> Result<bool, NoMemory> {
    let world = first_world(alloc)?;
    hold(alloc, &world)
}

#[test]
fn types_are_those_of_the_tables(rt: HostRuntime) -> Result<(), Fail> {
    assert!(rt; hold_at_first(rt.alloc())?, "the ground world");
    assert!(rt;
        hold_without_len(rt.alloc())?,
        "a disabled type prescription says nothing"
    );
    assert!(rt;
        nfix_has(rt.alloc(), b"LEN", INTEGERS)?,
        "an enabled theorem narrows"
    );
    assert!(rt; nfix_has(rt.alloc(), b"INTEGERP-NFIX", ALL)?);
    assert!(rt; nfix_has(rt.alloc(), b"NFIX", ALL)?);
    Ok(())
}
