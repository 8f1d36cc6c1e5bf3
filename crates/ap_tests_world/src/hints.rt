//! What the hints of an event are read as: a form a line, and behind it the hints, each in brackets, or the refusal.
ghost use Rattle.std.specs.Prelude.{IfOk};
ghost use Rattle.ap_world.specs.World.{function_of};
ghost use Rattle.ap_translate.specs.Laws.{HasMacroFunctions};

use crate::expect::expect;
use crate::forms::{one_form, word};
use ap_ground::ground_world;
use ap_ground::laws::ground_has_its_functions;
use ap_hints::{Hint, HintError, Hints, hints_of, no_hints, same_hints};
use ap_list::{Bytes, NoMemory};
use ap_reader::Form;
use ap_term::{Subst, Term};
use ap_tests_terms::{put_term, sides};
use ap_value::Symbol;
use ap_walk::Process;
use ap_world::{Rune, RuneKind, Theory, World};
use std::alloc::Global;
use std::process::Abort;

/// Each key by itself, and hints of several goals.
const READ: &str = r#"() => nothing
nil => nothing
(("Goal")) => [Goal]
(("Goal" :expand (len x))) => [Goal expand (LEN X)]
(("Goal" :expand ((len x) (len (cdr y))))) => [Goal expand (LEN X) (LEN (CDR Y))]
(("Goal" :expand nil)) => [Goal]
(("goal'" :expand ((+ 1 x)))) => [Goal' expand (BINARY-+ '1 X)]
(("SUBGOAL 2.1''" :cases ((consp x) (natp y)))) => [Subgoal 2.1'' cases (CONSP X) (NATP Y)]
(("Goal" :cases ())) => [Goal]
(("Goal" :do-not '(generalize eliminate-destructors))) => [Goal skip generalize elim]
(("Goal" :do-not (quote (fertilize eliminate-irrelevance)))) => [Goal skip fertilize irrelevance]
(("Goal" :do-not 'nil)) => [Goal]
(("*1.2" :induct (len x))) => [*1.2 induct (LEN X)]
(("Goal" :do-not-induct t)) => [Goal] no induction
(("Goal" :use car-cons)) => [Goal use CAR-CONS]
(("Goal" :use nil)) => [Goal]
(("Goal" :use (car-cons cdr-cons))) => [Goal use CAR-CONS use CDR-CONS]
(("Goal" :use (:instance car-cons (y (car z)) (x y)))) => [Goal use CAR-CONS Y (CAR Z) X Y]
(("Goal" :use ((:instance cdr-cons) car-cons))) => [Goal use CDR-CONS use CAR-CONS]
(("Goal" :in-theory (disable len car-cons))) => [Goal theory definition LEN induction LEN rewrite CAR-CONS]
(("Goal" :in-theory (disable (:definition len) (:elim car-cdr-elim)))) => [Goal theory definition LEN elim CAR-CDR-ELIM]
(("Goal" :in-theory (enable len))) => [Goal theory]
(("Goal" :in-theory (e/d (len) ((:executable-counterpart len))))) => [Goal theory executable LEN]
(("Goal" :use car-cons :cases ((atom x)) :expand (len x) :do-not '(fertilize))) => [Goal expand (LEN X) skip fertilize use CAR-CONS cases (ATOM X)]
(("Subgoal *1/2" :expand (len x)) ("Goal" :cases (x)) ("*1" :induct (len y))) => [Subgoal *1/2 expand (LEN X)][Goal cases X][*1 induct (LEN Y)]"#;

/// Each refusal; of two the first in reading order.
const REFUSED: &str = r#"(("Subgoal 0" :cases (x))) => BadGoalName
("Goal") => BadGoalName
((:cases (x))) => BadGoalName
(()) => BadGoalName
(("Goal''''" :cases (x))) => BadGoalName
((goal :cases (x))) => BadGoalName
(("Goal" :foo t)) => UnknownKeyword
(("Goal" cases (x))) => UnknownKeyword
(("Goal" :cases)) => UnknownKeyword
(("Goal" :cases x)) => UnknownKeyword
(("Goal" :do-not '(simplify))) => UnknownKeyword
(("Goal" :do-not (generalize))) => UnknownKeyword
(("Goal" :do-not 'generalize)) => UnknownKeyword
(("Subgoal 1" :do-not-induct t)) => UnknownKeyword
(("Goal" :do-not-induct nil)) => UnknownKeyword
(("Goal" :induct x)) => UnknownKeyword
(("Goal" :in-theory len)) => UnknownKeyword
(("Goal" :use (:instance))) => UnknownKeyword
(("Goal" :use (:instance car-cons x))) => UnknownKeyword
(("Goal" :use (:instance car-cons (x)))) => UnknownKeyword
(("Goal" :use ((car-cons)))) => UnknownKeyword
(("Goal" :use (:instance "car-cons"))) => UnknownKeyword
(("Goal" :use (:instance car-cons ("x" z)))) => UnknownKeyword
(("Goal" :expand x)) => UnknownKeyword
("hints" . 1) => UnknownKeyword
hints => UnknownKeyword
(("Goal" :in-theory (enable foo))) => UnknownRune
(("Goal" :in-theory (disable (:linear car-cons)))) => UnknownRune
(("Goal" :in-theory (disable car))) => UnknownRune
(("Goal" :in-theory (disable (:foo len)))) => UnknownRune
(("Goal" :in-theory (disable (:definition "len")))) => UnknownRune
(("Goal" :in-theory (disable (:definition len len)))) => UnknownRune
(("Goal" :in-theory (disable "len"))) => UnknownRune
(("Goal" :use foo)) => BadInstance
(("Goal" :use (:instance car-cons (z x)))) => BadInstance
(("Goal" :use (:instance car-cons (x z) (x y)))) => BadInstance
(("Goal" :use (:instance car-cons (x (foo))))) => BadInstance
(("Goal" :use len)) => BadInstance
(("Goal" :cases ((foo x)))) => BadInstance
(("Goal" :expand (len))) => BadInstance
(("Goal" :induct (foo x))) => BadInstance
(("Goal" :cases (x)) ("GOAL" :expand (len x))) => Repeated
(("subgoal 1" :cases (x)) ("Subgoal 1" :foo x)) => Repeated
(("Goal" :cases (x) :cases (y))) => Repeated
(("Goal" :cases () :cases ())) => Repeated
(("Goal" :use foo :use foo)) => BadInstance
(("Goal" :use car-cons :use foo)) => Repeated
(("Goal" :do-not-induct t :do-not-induct t)) => Repeated
(("Goal" :in-theory (enable) :in-theory (enable))) => Repeated
(("Goal" :expand nil :expand nil)) => Repeated
(("Goal" :do-not 'nil :do-not 'nil)) => Repeated
(("Goal" :induct (len x) :induct (len y))) => Repeated
(("Goal" :in-theory (enable foo) :cases ((foo)))) => UnknownRune
(("Goal" :cases ((foo)) :in-theory (enable foo))) => BadInstance
(("Goal" :foo t) ("Subgoal 0")) => UnknownKeyword
(("Subgoal 0") ("Goal" :foo t)) => BadGoalName"#;

fn put_terms(alloc: Global, text: &mut Bytes, terms: &[Term]) -> Result<(), NoMemory> {
    for term in terms {
        text.extend(b" ")?;
        put_term(alloc, text, term)?;
    }
    Ok(())
}

/// A key and its terms, where there are any.
fn put_key(alloc: Global, text: &mut Bytes, key: &[u8], terms: &[Term]) -> Result<(), NoMemory> {
    if terms.is_empty() {
        return Ok(());
    }
    text.extend(key)?;
    put_terms(alloc, text, terms)
}

fn kind_word(kind: RuneKind) -> &'static [u8] {
    match kind {
        RuneKind::Definition => b" definition ",
        RuneKind::Executable => b" executable ",
        RuneKind::TypePrescription => b" type-prescription ",
        RuneKind::Induction => b" induction ",
        RuneKind::Rewrite => b" rewrite ",
        RuneKind::Linear => b" linear ",
        RuneKind::Elim => b" elim ",
    }
}

fn put_symbol(text: &mut Bytes, symbol: &Symbol) -> Result<(), NoMemory> {
    text.extend(symbol.name.as_slice())
}

fn put_rune(text: &mut Bytes, rune: &Rune) -> Result<(), NoMemory> {
    text.extend(kind_word(rune.kind()))?;
    put_symbol(text, rune.symbol())
}

/// What a theory disables.
fn put_theory(text: &mut Bytes, theory: &Theory) -> Result<(), NoMemory> {
    text.extend(b" theory")?;
    for rune in theory.disabled() {
        put_rune(text, rune)?;
    }
    Ok(())
}

fn process_word(process: Process) -> &'static [u8] {
    match process {
        Process::Generalize => b" generalize",
        Process::Fertilize => b" fertilize",
        Process::Elim => b" elim",
        Process::Irrelevance => b" irrelevance",
        _ => b" another",
    }
}

fn put_skip(text: &mut Bytes, skip: &[Process]) -> Result<(), NoMemory> {
    if skip.is_empty() {
        return Ok(());
    }
    text.extend(b" skip")?;
    for process in skip {
        text.extend(process_word(*process))?;
    }
    Ok(())
}

fn put_pair(alloc: Global, text: &mut Bytes, pair: &(Symbol, Term)) -> Result<(), NoMemory> {
    text.extend(b" ")?;
    put_symbol(text, &pair.0)?;
    text.extend(b" ")?;
    put_term(alloc, text, &pair.1)
}

/// A theorem that is used, and each variable with what replaces it.
fn put_use(alloc: Global, text: &mut Bytes, used: &(Symbol, Subst)) -> Result<(), NoMemory> {
    text.extend(b" use ")?;
    put_symbol(text, &used.0)?;
    for pair in used.1.0.as_slice() {
        put_pair(alloc, text, pair)?;
    }
    Ok(())
}

fn put_uses(alloc: Global, text: &mut Bytes, uses: &[(Symbol, Subst)]) -> Result<(), NoMemory> {
    for used in uses {
        put_use(alloc, text, used)?;
    }
    Ok(())
}

fn put_given_theory(text: &mut Bytes, theory: &Option<Theory>) -> Result<(), NoMemory> {
    match theory {
        Some(theory) => put_theory(text, theory),
        None => Ok(()),
    }
}

fn put_scheme(alloc: Global, text: &mut Bytes, scheme: &Option<Term>) -> Result<(), NoMemory> {
    match scheme {
        Some(scheme) => {
            text.extend(b" induct ")?;
            put_term(alloc, text, scheme)
        }
        None => Ok(()),
    }
}

fn put_hint(alloc: Global, text: &mut Bytes, hint: &Hint) -> Result<(), NoMemory> {
    text.extend(b"[")?;
    text.append(hint.goal.print(alloc)?)?;
    put_given_theory(text, &hint.theory)?;
    put_key(alloc, text, b" expand", hint.expand.as_slice())?;
    put_skip(text, hint.skip.as_slice())?;
    put_uses(alloc, text, hint.uses.as_slice())?;
    put_key(alloc, text, b" cases", hint.cases.as_slice())?;
    put_scheme(alloc, text, &hint.scheme)?;
    text.extend(b"]")
}

/// Hints as a line has them.
fn written(alloc: Global, hints: &Hints) -> Result<Bytes, NoMemory> {
    let mut text = Bytes::new(alloc);
    for hint in hints.list.as_slice() {
        put_hint(alloc, &mut text, hint)?;
    }
    if hints.do_not_induct {
        text.extend(b" no induction")?;
    }
    if text.is_empty() {
        text.extend(b"nothing")?;
    }
    Ok(text)
}

fn error_word(error: HintError) -> &'static str {
    match error {
        HintError::BadGoalName => "BadGoalName",
        HintError::UnknownKeyword => "UnknownKeyword",
        HintError::UnknownRune => "UnknownRune",
        HintError::BadInstance => "BadInstance",
        HintError::Repeated => "Repeated",
        HintError::NoMemory => "NoMemory",
    }
}

/// The hints of a form, or the refusal.
fn answer(alloc: Global, world: &World, form: &Form) -> Result<Bytes, NoMemory>
    requires { HasMacroFunctions (function_of world.now.entries) }
{
    match hints_of(alloc, world, form) {
        Ok(hints) => written(alloc, &hints),
        Err(error) => word(alloc, error_word(error)),
    }
}

/// The same of a text's one form.
fn answered(alloc: Global, world: &World, text: &str) -> Result<Bytes, NoMemory>
    requires { HasMacroFunctions (function_of world.now.entries) }
{
    match one_form(alloc, text) {
        Some(form) => answer(alloc, world, &form),
        None => word(alloc, "not one form"),
    }
}

/// The world that a book begins with, which has the functions that macros stand for.
fn world(alloc: Global) -> Result<World, NoMemory>
    ensures { IfOk result (λ w. HasMacroFunctions (function_of w.entries)) }
{
    ground_has_its_functions();
    let world = ground_world(alloc)?;
    Ok(world)
}

fn expect_all(rt: &impl Abort, alloc: Global, world: &World) -> Result<(), NoMemory>
    requires { HasMacroFunctions (function_of world.now.entries) }
{
    for table in [READ, REFUSED] {
        for line in table.lines() {
            let found = answered(alloc, world, sides(line).0)?;
            expect(rt, found.as_slice(), sides(line).1, line);
        }
    }
    Ok(())
}

/// The hints of a text's one form in the ground world, none where they are refused.
fn hints(alloc: Global, world: &World, text: &str) -> Hints
    requires { HasMacroFunctions (function_of world.now.entries) }
{
    match one_form(alloc, text) {
        Some(form) => match hints_of(alloc, world, &form) {
            Ok(hints) => hints,
            Err(_) => no_hints(alloc),
        },
        None => no_hints(alloc),
    }
}

/// Each row: two texts of hints, and whether the hints are one.
const SAME: &[(&str, &str, bool)] = &[
    (
        r#"(("Goal" :use (:instance car-cons (x z))))"#,
        r#"(("GOAL" :use ((:instance car-cons (x z)))))"#,
        true,
    ),
    (
        r#"(("Goal" :use (:instance car-cons (x z))))"#,
        r#"(("GOAL" :use ((:instance car-cons (x y)))))"#,
        false,
    ),
    (r#"(("Goal" :use (:instance car-cons (x z))))"#, "()", false),
];

/// Whether the hints of two texts are one.
fn are_same(alloc: Global, world: &World, a: &str, b: &str) -> bool
    requires { HasMacroFunctions (function_of world.now.entries) }
{
    same_hints(&hints(alloc, world, a), &hints(alloc, world, b))
}

fn expect_same(rt: &impl Abort, alloc: Global, world: &World)
    requires { HasMacroFunctions (function_of world.now.entries) }
{
    for (a, b, wanted) in SAME {
        assert_eq!(rt; are_same(alloc, world, *a, *b), *wanted, "{a} {b}");
    }
}

#[test]
fn hints_are_read_or_the_first_that_is_wrong_is_refused(rt: HostRuntime) -> Result<(), NoMemory> {
    assert_eq!(rt; (READ.lines().count(), REFUSED.lines().count()), (25, 56));
    let world = world(rt.alloc())?;
    expect_all(&rt, rt.alloc(), &world)?;
    expect_same(&rt, rt.alloc(), &world);
    Ok(())
}
