//! What elimination, fertilization, generalization and irrelevance leave of clauses in the ground world.
ghost use Rattle.ap_world.specs.Sound.{HasFunctions};
ghost use Rattle.ap_world.specs.World.{function_of};
ghost use Rattle.ap_kernel.specs.Reductions.{KnownClause};

use crate::clauses::{clause, first_world};
use crate::expect::expect;
use ap_elim::elim;
use ap_kernel::Reduction;
use ap_list::{Bytes, NoMemory};
use ap_term::Clause;
use ap_tests_terms::{shown, terms};
use ap_types::Types;
use ap_weaken::{fertilize, generalize, irrelevance};
use ap_world::{Theory, World};
use std::alloc::Global;
use std::process::Abort;

/// The engines that are tested here.
#[derive(Clone, Copy)]
enum Engine {
    Elim,
    Fertilize,
    Generalize,
    Irrelevance,
}

/// What an engine answers for a clause, where each rune is enabled.
#[tactic(auto, using(ap_world::proofs::Grounded::has_not))]
fn answer(
    alloc: Global,
    engine: Engine,
    w: &World,
    c: &Clause,
) -> Result<Option<Reduction>, NoMemory>
    requires functions { HasFunctions (function_of w.now.entries) }
    requires clause { KnownClause (function_of w.now.entries) c.now }
{
    match engine {
        Engine::Elim => elim(alloc, w, &Theory::all_enabled(), c),
        Engine::Fertilize => fertilize(alloc, w, c),
        Engine::Generalize => generalize(alloc, w, &Types, c),
        Engine::Irrelevance => irrelevance(alloc, w, c),
    }
}

/// The clauses of a reduction as text, or a word where there is none.
fn told(alloc: Global, found: Option<Reduction>) -> Result<Bytes, NoMemory> {
    match &found {
        Some(r) => shown(alloc, r.to().as_slice()),
        None => Bytes::from_slice(alloc, b"none"),
    }
}

/// What an engine leaves of the clause of these literals, as text.
fn left(alloc: Global, engine: Engine, w: &World, literals: &str) -> Result<Bytes, NoMemory>
    requires functions { HasFunctions (function_of w.now.entries) }
{
    let c = clause(w, terms(alloc, literals)?)?;
    let found = answer(alloc, engine, w, &c)?;
    told(alloc, found)
}

/// Each row: an engine, the literals of a clause, and the clauses that are left.
const ROWS: &[(Engine, &str, &str)] = &[
    // The first variable with a `car` or `cdr` is eliminated.
    (
        Engine::Elim,
        "(equal z (cdr y)) (equal (car x) y)",
        "(OR (CONSP Y) (EQUAL Z (CDR Y)) (EQUAL (CAR X) Y)); (OR (EQUAL Z Y2) (EQUAL (CAR X) (CONS Y1 Y2)))",
    ),
    // Elimination uses that the variable is a cons.
    (
        Engine::Elim,
        "(not (consp x)) (equal (car x) x1)",
        "(EQUAL X2 X1)",
    ),
    (Engine::Elim, "(equal (len x) y)", "none"),
    // An equation is used in the right side or the left.
    (
        Engine::Fertilize,
        "(not (equal a b)) (equal (len a) (len b))",
        "(EQUAL (LEN A) (LEN A))",
    ),
    (
        Engine::Fertilize,
        "(not (equal a b)) (equal (len a) c)",
        "(EQUAL (LEN B) C)",
    ),
    (
        Engine::Fertilize,
        "(not (equal a b)) (not (equal c d)) (equal (len c) z)",
        "(OR (NOT (EQUAL A B)) (EQUAL (LEN D) Z))",
    ),
    // An equation with a constant isn't used.
    (
        Engine::Fertilize,
        "(not (equal a 1)) (equal (len a) 1)",
        "none",
    ),
    (Engine::Fertilize, "(not (equal 1 2)) (equal 2 1)", "none"),
    (
        Engine::Fertilize,
        "(not (equal a b)) (not (equal (len a) c))",
        "none",
    ),
    // The smallest common call is generalized.
    (
        Engine::Generalize,
        "(equal (len (binary-append x y)) (binary-+ (len x) (len y))) (< (len x) (len (binary-append x y)))",
        "(OR (NOT (INTEGERP L1)) (EQUAL (LEN (BINARY-APPEND X Y)) (BINARY-+ L1 (LEN Y))) (< L1 (LEN (BINARY-APPEND X Y))))",
    ),
    // A call in both sides is generalized.
    (
        Engine::Generalize,
        "(not (equal (binary-append x y) (cons z (binary-append x y))))",
        "(NOT (EQUAL B1 (CONS Z B1)))",
    ),
    (Engine::Generalize, "(equal (len x) (len y))", "none"),
    // A boolean call isn't generalized.
    (
        Engine::Generalize,
        "(true-listp x) (equal (true-listp x) y)",
        "none",
    ),
    // A restriction is by the call's types.
    (
        Engine::Generalize,
        "(equal (make-character-list x) y) (consp (make-character-list x))",
        "(OR (NOT (TRUE-LISTP M1)) (EQUAL M1 Y) (CONSP M1))",
    ),
    (
        Engine::Generalize,
        "(equal (len x) l1) (consp (len x))",
        "(OR (NOT (INTEGERP L2)) (EQUAL L2 L1) (CONSP L2))",
    ),
    // An irrelevant part is left out.
    (
        Engine::Irrelevance,
        "(true-listp x) (equal (len y) z) (not (consp x)) (not (consp z))",
        "(OR (EQUAL (LEN Y) Z) (NOT (CONSP Z)))",
    ),
    (
        Engine::Irrelevance,
        "(true-listp x) (not (consp y))",
        "none",
    ),
    (Engine::Irrelevance, "(equal x y) (consp x)", "none"),
];

fn expect_rows(rt: &impl Abort, alloc: Global, w: &World) -> Result<(), NoMemory>
    requires functions { HasFunctions (function_of w.now.entries) }
{
    for (engine, literals, wanted) in ROWS {
        let found = left(alloc, *engine, w, *literals)?;
        expect(rt, found.as_slice(), *wanted, *literals);
    }
    Ok(())
}

#[test]
fn engines_leave_the_clauses_of_the_table(rt: HostRuntime) -> Result<(), NoMemory> {
    let world = first_world(rt.alloc())?;
    expect_rows(&rt, rt.alloc(), &world)
}
