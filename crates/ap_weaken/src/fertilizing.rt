ghost use Rattle.std.specs.Prelude.{◌≡◌, IfOk, IfSome, is_some};
ghost use Rattle.std.specs.Option.{option_map};
ghost use Rattle.ap_world.specs.World.{function_of};
ghost use Rattle.ap_kernel.specs.Standing.{DefinesNot};
ghost use Rattle.ap_kernel.specs.Reductions.{KnownClause, Reduces};
ghost use Rattle.ap_kernel.specs.Fertilising.{literal_fertilised, fertilise_made};
ghost use Rattle.ap_weaken.specs.Fertilize.{can_use, used_in, hypothesis, use_of, fertilize_made};

use ap_kernel::{Reduction, contains, fertilise, negated_sides, sides_of};
use ap_list::NoMemory;
use ap_term::{Clause, Term, copy_terms};
use ap_world::World;
use std::alloc::Global;

/// Whether the equation of two terms can be used in a literal: that is an equation whose right side contains the
/// second one, or whose left side contains the first. Takes no memory.
fn can_change(a: &Term, b: &Term, literal: &Term) -> bool
    ensures { result ≡ is_some (literal_fertilised (a.now, b.now) literal.now) }
{
    match sides_of(literal) {
        Some((l, r)) => contains(r, b) || contains(l, a),
        None => false,
    }
}

/// Whether the literal at the first place can be used in the one at the second. Takes no memory.
fn can_use(c: &Clause, i: usize, j: usize) -> bool
    ensures { result ≡ can_use c.now i j }
{
    let Some(hypothesis) = c.0.get(i) else {
        return false;
    };
    let Some((a, b)) = negated_sides(hypothesis) else {
        return false;
    };
    match c.0.get(j) {
        Some(literal) => can_change(a, b, literal),
        None => false,
    }
}

/// The place of the first literal that the one at a place can be used in. Takes no memory.
fn used_in(c: &Clause, i: usize) -> Option<usize>
    ensures { result ≡ used_in c.now i }
{
    for j in 0..c.0.len() {
        if can_use(c, i, j) {
            return Some(j);
        }
    }
    None
}

/// The place of the first literal that can be used in some literal. Takes no memory.
fn hypothesis(c: &Clause) -> Option<usize>
    ensures { result ≡ hypothesis c.now }
{
    for i in 0..c.0.len() {
        if used_in(c, i).is_some() {
            return Some(i);
        }
    }
    None
}

/// The places of the first hypothesis that can be used, and of the literal that it is used in. Takes no memory.
fn use_of(c: &Clause) -> Option<(usize, usize)>
    ensures { result ≡ use_of c.now }
{
    let i = hypothesis(c)?;
    let j = used_in(c, i)?;
    Some((i, j))
}

/// Cross-fertilization: the clause without its first literal that is the negation of an equation whose sides
/// are no constants, and that can be used, and with that equation used in the first literal that it can be
/// used in. `None` exactly where there is no such literal. The only error is want of memory. In `:do-not` of
/// the manual's topic `hints` it is `fertilize`.
pub fn fertilize(alloc: Global, w: &World, c: &Clause) -> Result<Option<Reduction>, NoMemory>
    requires ground { DefinesNot (function_of w.now.entries) }
    requires clause { KnownClause (function_of w.now.entries) c.now }
    ensures stands { IfOk result (λ o. IfSome o (λ r. Reduces w.now r)) }
    ensures made { IfOk result (λ o. option_map (λ r. r.says) o ≡ fertilize_made c.now) }
{
    let Some((i, j)) = use_of(c) else {
        return Ok(None);
    };
    let clause = Clause(copy_terms(alloc, c.0.as_slice())?);
    Ok(Some(fertilise(alloc, w, clause, i, j)?))
}
