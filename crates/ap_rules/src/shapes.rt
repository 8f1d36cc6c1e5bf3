ghost use Rattle.std.specs.Prelude.{◌≡◌, IfOk, OnOk, is_some};
ghost use Rattle.ap_term.specs.declared.term.Term.{out-Term};
ghost use Rattle.ap_world.specs.Rows.{recognised};
ghost use Rattle.ap_poly.specs.Bounds.{seen_in, first_atoms};
ghost use Rattle.ap_rules.specs.Shapes.{told, is_trigger, first_trigger, trigger_of, is_inequality, all_inequalities, calls_variables, is_type_form};

use crate::refusing::are_within;
use ap_list::{NoMemory, Seq};
use ap_poly::{Poly, of_literal};
use ap_term::{Shape, Term, copy_term, is_term_among, vars};
use ap_value::Symbol;
use ap_world::{are_distinct_variables, is_not, recognised};
use std::alloc::Global;

/// What a conjunct says of integers.
#[tactic(auto, using(ap_term::proofs::Seen::trees))]
fn told(alloc: Global, t: &Term) -> Result<Seq<Poly>, NoMemory>
    ensures { IfOk result (λ ps. ps ≡ told t.now) }
{
    match &t.shape {
        Shape::Call(f, ts) => match (is_not(f), ts.as_slice()) {
            (true, [a]) => of_literal(alloc, a, false),
            _ => of_literal(alloc, t, true),
        },
        Shape::Var(_) => of_literal(alloc, t, true),
        Shape::Quote(_) => of_literal(alloc, t, true),
    }
}

/// Whether an atom is a call with all variables of a conjunct.
#[tactic(auto, using(ap_term::proofs::Seen::trees))]
fn is_trigger(alloc: Global, t: &Term, atom: &Term) -> Result<bool, NoMemory>
    ensures { IfOk result (λ b. b ≡ is_trigger t.now atom.now) }
{
    match &atom.shape {
        Shape::Call(_, _) => {
            let wanted = vars(alloc, t)?;
            let there = vars(alloc, atom)?;
            Ok(are_within(wanted.as_slice(), there.as_slice()))
        }
        Shape::Var(_) => Ok(false),
        Shape::Quote(_) => Ok(false),
    }
}

/// Adds the atoms of parts that aren't there yet.
fn add_atoms(alloc: Global, parts: &[(Term, i128)], atoms: &mut Seq<Term>) -> Result<(), NoMemory>
    ensures { OnOk result (atoms.new ≡ seen_in parts.now atoms.old) }
{
    for (t, _) in parts {
        if !is_term_among(t, atoms.as_slice()) {
            atoms.push(copy_term(alloc, t)?)?;
        }
    }
    Ok(())
}

/// The atoms of polynomials, each once, in order of first occurrence. The only error is want of memory.
pub fn first_atoms(alloc: Global, polys: &[Poly]) -> Result<Seq<Term>, NoMemory>
    ensures { IfOk result (λ us. us ≡ first_atoms polys.now) }
{
    let mut atoms = Seq::new(alloc);
    for p in polys {
        add_atoms(alloc, p.parts.as_slice(), &mut atoms)?;
    }
    Ok(atoms)
}

/// The first of the atoms that is a trigger.
fn first_trigger(alloc: Global, t: &Term, atoms: &[Term]) -> Result<Option<Term>, NoMemory>
    ensures { IfOk result (λ o. o ≡ first_trigger t.now atoms.now) }
{
    let mut left = atoms;
    while let [first, rest @ ..] = left {
        if is_trigger(alloc, t, first)? {
            return Ok(Some(copy_term(alloc, first)?));
        }
        left = rest;
    }
    Ok(None)
}

/// The trigger of a conjunct, where it has one.
pub(crate) fn trigger_of(alloc: Global, t: &Term) -> Result<Option<Term>, NoMemory>
    ensures { IfOk result (λ o. o ≡ trigger_of t.now) }
{
    let polys = told(alloc, t)?;
    let atoms = first_atoms(alloc, polys.as_slice())?;
    first_trigger(alloc, t, atoms.as_slice())
}

/// Whether a conjunct is an inequality with a trigger.
fn is_inequality(alloc: Global, t: &Term) -> Result<bool, NoMemory>
    ensures { IfOk result (λ b. b ≡ is_inequality t.now) }
{
    Ok(trigger_of(alloc, t)?.is_some())
}

/// Whether all conjuncts are inequalities with a trigger.
pub(crate) fn are_inequalities(alloc: Global, parts: &[Term]) -> Result<bool, NoMemory>
    ensures { IfOk result (λ b. b ≡ all_inequalities parts.now) }
{
    let mut left = parts;
    while let [first, rest @ ..] = left {
        if !is_inequality(alloc, first)? {
            return Ok(false);
        }
        left = rest;
    }
    Ok(true)
}

/// Whether a symbol names a recogniser.
fn is_recogniser(symbol: &Symbol) -> bool
    ensures { result ≡ is_some (recognised symbol.now) }
{
    recognised(symbol).is_some()
}

/// Whether a term is a call of distinct variables.
#[tactic(auto, using(ap_term::proofs::Seen::trees))]
fn calls_variables(t: &Term) -> bool
    ensures { result ≡ calls_variables (out-Term t.now) }
{
    match &t.shape {
        Shape::Call(_, ts) => are_distinct_variables(ts.as_slice()),
        Shape::Var(_) => false,
        Shape::Quote(_) => false,
    }
}

/// Whether a term is a recogniser on a call of distinct variables.
#[tactic(auto, using(ap_term::proofs::Seen::trees))]
pub(crate) fn is_type_form(t: &Term) -> bool
    ensures { result ≡ is_type_form (out-Term t.now) }
{
    match &t.shape {
        Shape::Call(r, ts) => match ts.as_slice() {
            [a] => is_recogniser(r) && calls_variables(a),
            _ => false,
        },
        Shape::Var(_) => false,
        Shape::Quote(_) => false,
    }
}
