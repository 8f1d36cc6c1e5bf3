//! The linear rules of a world, and those that may bear on atoms.
ghost use Rattle.std.specs.Prelude.{◌≡◌, length, take, IfOk, OnOk};
ghost use Rattle.ap_world.specs.Names.{implies_name};
ghost use Rattle.ap_world.specs.Ground.{two};

use crate::expect::expect;
use crate::showing::{classes, put_hyps};
use ap_eval::is_known;
use ap_ground::ground_world;
use ap_list::{Bytes, NoMemory, Seq};
use ap_rules::{LinearRule, Ruled, linear_for, linear_rule};
use ap_term::{Term, copy_term};
use ap_tests_terms::{put_term, term, terms};
use ap_value::acl2;
use ap_world::copy_theory;
use std::alloc::{AllocError, Global};
use std::process::Abort;

/// Linear theorems, each by its name and the term that implies itself: its conjuncts are rules under all of them.
const THEOREMS: &[(&[u8], &str)] = &[
    (b"A", "(if (< (car x) (cdr x)) (not (< (car y) '3)) 'nil)"),
    (b"B", "(equal (cdr x) (+ x '1))"),
    (b"C", "(< x (car x))"),
];

/// Their rules: the theorem and the number, the trigger, the conclusion with `not` before it where it is `nil`, and the
/// hypotheses. The second one has a variable that isn't in its trigger.
const RULES: &str =
    r#"A0 (CAR X): (< (CAR X) (CDR X)) if (< (CAR X) (CDR X)) if (NOT (< (CAR Y) '3))
A1 (CAR Y): not (< (CAR Y) '3) if (< (CAR X) (CDR X)) if (NOT (< (CAR Y) '3))
B0 (CDR X): (EQUAL (CDR X) (BINARY-+ X '1)) if (EQUAL (CDR X) (BINARY-+ X '1))
C0 (CAR X): (< X (CAR X)) if (< X (CAR X))"#;

/// Atoms, and the rules that may bear on them.
const BEARING: &[(&str, &str)] = &[
    ("(car a)", "C0 A1 A0"),
    ("(cdr a)", "B0"),
    ("(cdr a) (car b) (cdr (car a))", "C0 B0 A1 A0"),
    ("a (consp a) '3", ""),
    ("", ""),
];

/// `(implies h h)`
#[tactic(auto, unfolding(ap_world::specs::Names::implies_name))]
fn implies_itself(alloc: Global, h: &Term) -> Result<Term, NoMemory>
    ensures { IfOk result (λ t. t ≡ two implies_name h.now h.now) }
{
    let mut parts = Seq::new(alloc);
    parts.push(copy_term(alloc, h)?)?;
    parts.push(copy_term(alloc, h)?)?;
    Term::call(alloc, acl2(alloc, b"IMPLIES")?, parts)
}

/// Adds the linear theorem that a term implies itself.
fn add(alloc: Global, world: &mut Ruled, name: &[u8], text: &str) -> Result<(), NoMemory>
    ensures { OnOk result (take (length world.old.entries) world.new.entries ≡ world.old.entries) }
{
    let t = implies_itself(alloc, &term(alloc, text)?)?;
    let name = acl2(alloc, name)?;
    let classes = classes(alloc, "l")?;
    world.world().recall_sound();
    if !is_known(world.world(), &t) {
        return Err(AllocError);
    }
    match world.add_theorem(alloc, name, t, classes) {
        Ok(()) => Ok(()),
        Err(_) => Err(AllocError),
    }
}

/// Adds the theorems.
fn add_theorems(alloc: Global, world: &mut Ruled) -> Result<(), NoMemory> {
    for (name, text) in THEOREMS {
        add(alloc, world, *name, *text)?;
    }
    Ok(())
}

/// The ground world with the theorems.
fn with_theorems(alloc: Global) -> Result<Ruled, NoMemory> {
    let mut world = Ruled::of(alloc, ground_world(alloc)?)?;
    add_theorems(alloc, &mut world)?;
    Ok(world)
}

/// Writes a rule's theorem and its number.
fn put_name(alloc: Global, out: &mut Bytes, rule: &LinearRule) -> Result<(), NoMemory> {
    out.extend(rule.theorem.name.as_slice())?;
    let number = format!(in alloc; "{}", rule.part)?;
    out.extend(number.as_bytes())
}

/// Writes a rule.
fn put_rule(alloc: Global, out: &mut Bytes, rule: &LinearRule) -> Result<(), NoMemory> {
    put_name(alloc, out, rule)?;
    out.extend(b" ")?;
    put_term(alloc, out, &rule.trigger)?;
    out.extend(if rule.sign { b": " } else { b": not " })?;
    put_term(alloc, out, &rule.concl)?;
    put_hyps(alloc, out, rule.hyps.as_slice())
}

/// A rule as text.
fn shown(alloc: Global, rule: &LinearRule) -> Result<Bytes, NoMemory> {
    let mut out = Bytes::new(alloc);
    put_rule(alloc, &mut out, rule)?;
    Ok(out)
}

/// Writes the names of the rules at places.
fn put_names(
    alloc: Global,
    out: &mut Bytes,
    world: &Ruled,
    places: &[usize],
) -> Result<(), NoMemory> {
    for place in places {
        if !out.is_empty() {
            out.extend(b" ")?;
        }
        if let Some(rule) = linear_rule(world.rules(), *place) {
            put_name(alloc, out, rule)?;
        }
    }
    Ok(())
}

/// The places of the rules that may bear on atoms.
fn places_for(alloc: Global, world: &Ruled, atoms: &str) -> Result<Seq<usize>, NoMemory> {
    let atoms = terms(alloc, atoms)?;
    linear_for(alloc, world.rules(), atoms.as_slice())
}

/// The rules that may bear on atoms.
fn bearing(alloc: Global, world: &Ruled, atoms: &str) -> Result<Bytes, NoMemory> {
    let places = places_for(alloc, world, atoms)?;
    let mut out = Bytes::new(alloc);
    put_names(alloc, &mut out, world, places.as_slice())?;
    Ok(out)
}

/// Compares each linear rule with its line; there are no others.
fn expect_rules(rt: &impl Abort, alloc: Global, world: &Ruled) -> Result<(), NoMemory> {
    for (place, wanted) in RULES.lines().enumerate() {
        let rule = linear_rule(world.rules(), place).expect(rt, "a rule");
        let found = shown(alloc, rule)?;
        expect(rt, found.as_slice(), wanted, wanted);
    }
    assert!(rt; linear_rule(world.rules(), RULES.lines().count()).is_none());
    Ok(())
}

/// Compares the rules that may bear on atoms with what they should be.
fn expect_bearing(
    rt: &impl Abort,
    alloc: Global,
    world: &Ruled,
    atoms: &str,
    wanted: &str,
) -> Result<(), NoMemory> {
    let found = bearing(alloc, world, atoms)?;
    expect(rt, found.as_slice(), wanted, atoms);
    Ok(())
}

/// The same for each row.
fn expect_all_bearing(rt: &impl Abort, alloc: Global, world: &Ruled) -> Result<(), NoMemory> {
    for (atoms, wanted) in BEARING {
        expect_bearing(rt, alloc, world, *atoms, *wanted)?;
    }
    Ok(())
}

/// Compares the rules that may bear on a call of `car` once a theorem more is added, and once it is taken away.
fn expect_there_and_back(
    rt: &impl Abort,
    alloc: Global,
    world: &mut Ruled,
) -> Result<(), NoMemory> {
    world.world().recall_sound();
    let count = world.world().count();
    let theory = copy_theory(alloc, world.world().theory())?;
    add(alloc, world, b"D", "(< (car x) '9)")?;
    expect_bearing(rt, alloc, world, "(car a)", "D0 C0 A1 A0")?;
    world.back_to(count, theory);
    expect_bearing(rt, alloc, world, "(car a)", "C0 A1 A0")
}

#[test]
fn each_conjunct_is_a_rule_which_is_found_by_heads_and_goes_with_its_theorem(
    rt: HostRuntime,
) -> Result<(), NoMemory> {
    let mut world = with_theorems(rt.alloc())?;
    expect_rules(&rt, rt.alloc(), &world)?;
    expect_all_bearing(&rt, rt.alloc(), &world)?;
    expect_there_and_back(&rt, rt.alloc(), &mut world)
}
