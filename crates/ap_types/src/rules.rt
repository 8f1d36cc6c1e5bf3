ghost use Rattle.std.specs.Prelude.{◌≡◌};
ghost use Rattle.ap_term.specs.declared.term.Term.{out-Term};
ghost use Rattle.ap_world.specs.World.{function_of};
ghost use Rattle.ap_world.specs.Prescribing.{theorems_about};
ghost use Rattle.ap_world.specs.Typing.{types_on, prescribed_types, left_by, narrowed, kept_of, function_types};

use ap_term::{Shape, Term};
use ap_value::Symbol;
use ap_world::{RuneKind, Theorem, Theory, World, are_distinct_variables, masks, recognised};

/// The types that a recogniser leaves to a call of distinct variables; all to another term.
#[tactic(auto, using(ap_term::proofs::Seen::trees))]
fn types_on(types: Option<u16>, t: &Term) -> u16
    ensures { result ≡ types_on types (out-Term t.now) }
{
    match (types, &t.shape) {
        (Some(types), Shape::Call(_, ts)) => {
            if are_distinct_variables(ts.as_slice()) {
                types
            } else {
                masks::ALL
            }
        }
        _ => masks::ALL,
    }
}

/// The types that a term leaves to the call that it is a recogniser on.
#[tactic(auto, using(ap_term::proofs::Seen::trees))]
fn prescribed_types(t: &Term) -> u16
    ensures { result ≡ prescribed_types (out-Term t.now) }
{
    match &t.shape {
        Shape::Call(r, ts) => match ts.as_slice() {
            [a] => types_on(recognised(r), a),
            _ => masks::ALL,
        },
        _ => masks::ALL,
    }
}

/// The types that a theorem leaves to the calls of the function that it is about, where it is enabled.
fn left_by(theory: &Theory, theorem: &Theorem) -> u16
    ensures { result ≡ left_by theory.now theorem.now }
{
    if theory.is_enabled(RuneKind::TypePrescription, &theorem.name) {
        prescribed_types(&theorem.term)
    } else {
        masks::ALL
    }
}

/// A mask cut by the world's theorems about a function.
fn narrowed(w: &World, f: &Symbol, mask: u16) -> u16
    ensures { result ≡ narrowed w.now.theory (theorems_about f.now w.now.entries) mask }
{
    let mut out = mask;
    for number in 0..w.count() {
        match w.prescription(f, number) {
            None => return out,
            Some(theorem) => out = out & left_by(w.theory(), theorem),
        }
    }
    out
}

/// A function's kept mask.
fn kept_of(w: &World, f: &Symbol) -> u16
    ensures { result ≡ kept_of (function_of w.now.entries f.now) }
{
    match w.lookup_fun(f) {
        Some(function) => function.mask.0,
        None => masks::ALL,
    }
}

/// The types of a function's calls. Looks up the function and the theorems about it alone, by name.
pub(crate) fn function_types(w: &World, f: &Symbol) -> u16
    ensures { result ≡ function_types w.now f.now }
{
    if w.enabled_for(RuneKind::TypePrescription, f) {
        narrowed(w, f, kept_of(w, f))
    } else {
        masks::ALL
    }
}
