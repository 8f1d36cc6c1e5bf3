// The linear rules that may bear on atoms, found by the heads of their triggers.
ghost use Rattle.std.specs.Prelude.{◌≡◌, [], ◌∷◌, ◌++◌, Bool, List, Some, ◌||◌, map, reverse, slice_get, option_copied, IfOk};
ghost use Rattle.ap_term.specs.declared.term.Term.{Term};
ghost use Rattle.ap_rules.specs.declared.linear.LinearRule.{LinearRule};
ghost use Rattle.ap_rules.specs.Indexed.{kept};
ghost use Rattle.ap_rules.specs.Linear.{may_match};
ghost use Rattle.ap_rules.specs.Placed.{least, after, places_from};

use crate::linear::LinearRule;
use crate::linears::Linears;
use crate::table::RuleIndex;
use ap_list::{NoMemory, Seq};
use ap_term::{Shape, Term};
use std::alloc::Global;

/// The lesser of the first places of two lists.
fn least(xs: &[usize], ys: &[usize]) -> Option<usize>
    ensures { result ≡ least xs.now ys.now }
{
    match (xs, ys) {
        ([x, ..], [y, ..]) => Some(if *y < *x { *y } else { *x }),
        ([x, ..], []) => Some(*x),
        ([], [y, ..]) => Some(*y),
        ([], []) => None,
    }
}

/// The places without the first, where it is this one.
fn after<'a>(place: usize, xs: &'a [usize]) -> &'a [usize]
    ensures { result.now ≡ after place xs.now }
{
    match xs {
        [x, rest @ ..] if *x == place => rest,
        _ => xs,
    }
}

/// The places of two rising lists, rising, each once.
fn merged(alloc: Global, xs: &[usize], ys: &[usize]) -> Result<Seq<usize>, NoMemory>
    ensures { IfOk result (λ zs. (p q : LinearRule → Bool) (gs : List LinearRule) → xs.now ≡ places_from p 0 gs → ys.now ≡ places_from q 0 gs → zs ≡ places_from (λ g. p g || q g) 0 gs) }
{
    let mut out = Seq::new(alloc);
    let mut left = xs;
    let mut right = ys;
    while let Some(place) = least(left, right) {
        out.push(place)?;
        left = after(place, left);
        right = after(place, right);
    }
    Ok(out)
}

/// Adds the places of the rules whose trigger is a call of the head of one atom more.
#[tactic(auto, using(ap_term::proofs::Seen::trees))]
fn with_atom(
    alloc: Global,
    rules: &Linears,
    places: Seq<usize>,
    atom: &Term,
) -> Result<Seq<usize>, NoMemory>
    ensures { IfOk result (λ is. (xs : List Term) → places ≡ places_from (may_match xs) 0 rules.now → is ≡ places_from (may_match (xs ++ atom.now ∷ [])) 0 rules.now) }
{
    match &atom.shape {
        Shape::Call(f, _) => merged(alloc, places.as_slice(), rules.places_of(f)),
        Shape::Var(_) => Ok(places),
        Shape::Quote(_) => Ok(places),
    }
}

/// The places of the rules whose trigger is a call of the head of one of the atoms, rising.
fn rising(alloc: Global, rules: &Linears, atoms: &[Term]) -> Result<Seq<usize>, NoMemory>
    ensures { IfOk result (λ is. is ≡ places_from (may_match atoms.now) 0 rules.now) }
{
    let mut places = Seq::new(alloc);
    for atom in atoms {
        places = with_atom(alloc, rules, places, atom)?;
    }
    Ok(places)
}

/// The places of the linear rules whose trigger is a call of the head of one of the atoms, newest first. It looks
/// at these rules' places alone.
pub fn linear_for(alloc: Global, index: &RuleIndex, atoms: &[Term]) -> Result<Seq<usize>, NoMemory>
    ensures { IfOk result (λ is. map (slice_get index.now.linear) is ≡ map Some (kept (may_match atoms.now) (reverse index.now.linear))) }
{
    let mut places = rising(alloc, &index.linear, atoms)?.into_vec();
    places.reverse();
    Ok(Seq::from_vec(places))
}

/// The linear rule at a place, lent. Takes no memory.
pub fn linear_rule<'a>(index: &'a RuleIndex, place: usize) -> Option<&'a LinearRule>
    ensures { option_copied result ≡ slice_get index.now.linear place }
{
    index.linear.get(place)
}
