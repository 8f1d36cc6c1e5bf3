ghost use Rattle.std.specs.Prelude.{◌≡◌, IfOk, OnOk, ◌||◌};
ghost use Rattle.ap_term.specs.declared.term.Term.{out-Term};
ghost use Rattle.ap_world.specs.Shapes.{shape_of};
ghost use Rattle.ap_kernel.specs.Induction.{is_variable};
ghost use Rattle.ap_weaken.specs.Irrelevance.{vars_of, have_common, united, grown_by, grown, part_vars, is_lone, of_variable, negation_says_little, says_little, is_outside, is_irrelevant};

use ap_kernel::{ShapeRef, shape_of};
use ap_list::{NoMemory, Seq};
use ap_term::{Shape, Term, is_among, vars};
use ap_value::{Symbol, copy_symbol};
use std::alloc::Global;

/// Whether one of the second variables is one of the first. Takes no memory.
fn have_common(names: &[Symbol], others: &[Symbol]) -> bool
    ensures { result ≡ have_common names.now others.now }
{
    for y in others {
        if is_among(y, names) {
            return true;
        }
    }
    false
}

/// Adds the variables that aren't there yet.
fn unite(alloc: Global, names: &mut Seq<Symbol>, others: &[Symbol]) -> Result<(), NoMemory>
    ensures { OnOk result (names.new ≡ united names.old others.now) }
{
    for y in others {
        if !is_among(y, names.as_slice()) {
            names.push(copy_symbol(alloc, y)?)?;
        }
    }
    Ok(())
}

/// Adds the variables of a literal that has one of those that are there.
fn grow_by(alloc: Global, names: &mut Seq<Symbol>, t: &Term) -> Result<(), NoMemory>
    ensures { OnOk result (names.new ≡ grown_by names.old t.now) }
{
    let found = vars(alloc, t)?;
    if have_common(names.as_slice(), found.as_slice()) {
        return unite(alloc, names, found.as_slice());
    }
    Ok(())
}

/// Adds those of each such literal, one literal after another.
fn grow(alloc: Global, names: &mut Seq<Symbol>, literals: &[Term]) -> Result<(), NoMemory>
    ensures { OnOk result (names.new ≡ grown literals.now names.old) }
{
    for t in literals {
        grow_by(alloc, names, t)?;
    }
    Ok(())
}

/// The variables of a literal's part: its own, and as often as there are literals those of each literal that has
/// one of them. It ends with the first round that adds none.
fn part_vars(alloc: Global, literals: &[Term], t: &Term) -> Result<Seq<Symbol>, NoMemory>
    ensures { IfOk result (λ xs. xs ≡ part_vars literals.now t.now) }
{
    let mut names = vars(alloc, t)?;
    let mut left = literals.len();
    while left > 0 {
        let count = names.len();
        grow(alloc, &mut names, literals)?;
        if names.len() == count {
            return Ok(names);
        }
        left -= 1;
    }
    Ok(names)
}

/// Whether a term is a variable. Takes no memory.
#[tactic(auto, using(ap_term::proofs::Seen::trees))]
fn is_variable(t: &Term) -> bool
    ensures { result ≡ is_variable t.now }
{
    match &t.shape {
        Shape::Var(_) => true,
        Shape::Quote(_) => false,
        Shape::Call(_, _) => false,
    }
}

/// Whether terms are one variable. Takes no memory.
fn is_lone(ts: &[Term]) -> bool
    ensures { result ≡ is_lone ts.now }
{
    match ts {
        [t] => is_variable(t),
        _ => false,
    }
}

/// Whether a term is a call of one argument that is a variable. Takes no memory.
#[tactic(auto, using(ap_term::proofs::Seen::trees))]
fn of_variable(t: &Term) -> bool
    ensures { result ≡ of_variable (out-Term t.now) }
{
    match &t.shape {
        Shape::Var(_) => false,
        Shape::Quote(_) => false,
        Shape::Call(_, ts) => is_lone(ts.as_slice()),
    }
}

/// Whether a term is the negation of such a call. Takes no memory.
fn negation_says_little(t: &Term) -> bool
    ensures { result ≡ negation_says_little (shape_of t.now) }
{
    match shape_of(t) {
        ShapeRef::Not(a) => of_variable(a),
        _ => false,
    }
}

/// Whether a literal is such a call, negated or not. Takes no memory.
fn says_little(t: &Term) -> bool
    ensures { result ≡ says_little t.now }
{
    of_variable(t) || negation_says_little(t)
}

/// Whether a literal has none of some variables, or is such a call.
fn is_outside(alloc: Global, names: &[Symbol], t: &Term) -> Result<bool, NoMemory>
    ensures { IfOk result (λ b. b ≡ is_outside names.now t.now) }
{
    let found = vars(alloc, t)?;
    Ok(!have_common(names, found.as_slice()) || says_little(t))
}

/// Whether the part of a literal says too little: each of its literals is such a call.
pub(crate) fn is_irrelevant(alloc: Global, literals: &[Term], t: &Term) -> Result<bool, NoMemory>
    ensures { IfOk result (λ b. b ≡ is_irrelevant literals.now t.now) }
{
    if !says_little(t) {
        return Ok(false);
    }
    let names = part_vars(alloc, literals, t)?;
    for u in literals {
        if !is_outside(alloc, names.as_slice(), u)? {
            return Ok(false);
        }
    }
    Ok(true)
}
