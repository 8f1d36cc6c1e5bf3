ghost use Rattle.std.specs.Prelude.{◌≡◌, ◌<◌, ◌∷◌, ◌++◌, [], IfOk, IfSome, length};
ghost use Rattle.std.specs.Option.{option_map};
ghost use Rattle.ap_world.specs.World.{function_of};
ghost use Rattle.ap_kernel.specs.Standing.{DefinesNot};
ghost use Rattle.ap_kernel.specs.Reductions.{KnownClause, Reduces, others, to_one};
ghost use Rattle.ap_weaken.specs.Irrelevance.{some_irrelevant, some_relevant, left_out, irrelevance_made};

use crate::parts::is_irrelevant;
use ap_kernel::{Reduction, cases, drop_literal, then};
use ap_list::{NoMemory, Seq};
use ap_term::{Clause, Term, copy_term, copy_terms};
use ap_world::World;
use std::alloc::Global;

/// Whether a literal's part is irrelevant.
fn some_irrelevant(alloc: Global, literals: &[Term]) -> Result<bool, NoMemory>
    ensures { IfOk result (λ b. b ≡ some_irrelevant literals.now) }
{
    for t in literals {
        if is_irrelevant(alloc, literals, t)? {
            return Ok(true);
        }
    }
    Ok(false)
}

/// Whether a literal's part isn't.
fn some_relevant(alloc: Global, literals: &[Term]) -> Result<bool, NoMemory>
    ensures { IfOk result (λ b. b ≡ some_relevant literals.now) }
{
    for t in literals {
        if !is_irrelevant(alloc, literals, t)? {
            return Ok(true);
        }
    }
    Ok(false)
}

/// From a clause to its one clause, which is handed in too, without the literal at a place.
fn without(
    alloc: Global,
    w: &World,
    done: Reduction,
    left: Clause,
    place: usize,
) -> Result<Reduction, NoMemory>
    requires stands { Reduces w.now done }
    requires one { done.says.to ≡ left ∷ [] }
    requires place { place < length left.0 }
    ensures stands { IfOk result (λ r. Reduces w.now r) }
    ensures made { IfOk result (λ r. r.says ≡ to_one done.says.from (others place left.0)) }
{
    let next = drop_literal(alloc, w, left, place)?;
    let answer = then(alloc, w, done, next)?;
    Ok(answer)
}

/// The clause of some literals and others behind them.
fn joined(alloc: Global, first: &[Term], rest: &[Term]) -> Result<Clause, NoMemory>
    ensures { IfOk result (λ c. c.0 ≡ first.now ++ rest.now) }
{
    let mut out = copy_terms(alloc, first)?;
    out.append(copy_terms(alloc, rest)?)?;
    Ok(Clause(out))
}

/// From a clause to its one clause, which is some literals and others behind them, without the first of the
/// others.
fn without_next(
    alloc: Global,
    w: &World,
    done: Reduction,
    kept: &[Term],
    left: &[Term],
) -> Result<Reduction, NoMemory>
    requires stands { Reduces w.now done }
    requires one { done.says.to ≡ record { 0 = kept.now ++ left.now } ∷ [] }
    requires some { 0 < length left.now }
    ensures stands { IfOk result (λ r. Reduces w.now r) }
    ensures made { IfOk result (λ r. r.says ≡ to_one done.says.from (others (length kept.now) (kept.now ++ left.now))) }
{
    let now = joined(alloc, kept, left)?;
    let answer = without(alloc, w, done, now, kept.len())?;
    Ok(answer)
}

/// From a clause to the clause itself: there are no cases.
fn itself(alloc: Global, w: &World, c: &Clause) -> Result<Reduction, NoMemory>
    requires ground { DefinesNot (function_of w.now.entries) }
    requires clause { KnownClause (function_of w.now.entries) c.now }
    ensures stands { IfOk result (λ r. Reduces w.now r) }
    ensures made { IfOk result (λ r. r.says ≡ to_one c.now c.now.0) }
{
    let clause = Clause(copy_terms(alloc, c.0.as_slice())?);
    let none = Seq::new(alloc);
    let answer = cases(alloc, w, clause, &none)?;
    Ok(answer)
}

/// From a clause to the clause without the literals of irrelevant parts, which are dropped one after another.
fn left_out(alloc: Global, w: &World, c: &Clause) -> Result<Reduction, NoMemory>
    requires ground { DefinesNot (function_of w.now.entries) }
    requires clause { KnownClause (function_of w.now.entries) c.now }
    ensures stands { IfOk result (λ r. Reduces w.now r) }
    ensures made { IfOk result (λ r. r.says ≡ left_out c.now) }
{
    let literals = c.0.as_slice();
    let mut done = itself(alloc, w, c)?;
    let mut kept: Seq<Term> = Seq::new(alloc);
    let mut left = literals;
    while let [next, rest @ ..] = left {
        if is_irrelevant(alloc, literals, next)? {
            done = without_next(alloc, w, done, kept.as_slice(), left)?;
        } else {
            kept.push(copy_term(alloc, next)?)?;
        }
        left = rest;
    }
    Ok(done)
}

/// The clause without the literals of irrelevant parts, where some part is irrelevant and some part isn't.
/// Literals that share variables, by chains, form a part; it is irrelevant where each of its literals is a call,
/// negated or not, of one argument that is a variable. `None` exactly where all parts are irrelevant or none is.
/// The only error is want of memory. In `:do-not` of the manual's topic `hints` it is
/// `eliminate-irrelevance`.
pub fn irrelevance(alloc: Global, w: &World, c: &Clause) -> Result<Option<Reduction>, NoMemory>
    requires ground { DefinesNot (function_of w.now.entries) }
    requires clause { KnownClause (function_of w.now.entries) c.now }
    ensures stands { IfOk result (λ o. IfSome o (λ r. Reduces w.now r)) }
    ensures made { IfOk result (λ o. option_map (λ r. r.says) o ≡ irrelevance_made c.now) }
{
    if !some_irrelevant(alloc, c.0.as_slice())? || !some_relevant(alloc, c.0.as_slice())? {
        return Ok(None);
    }
    Ok(Some(left_out(alloc, w, c)?))
}
