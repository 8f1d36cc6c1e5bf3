ghost use Rattle.std.specs.Prelude.{◌≡◌, ◌∷◌, [], ◌<◌, IfOk, IsTrue, length, map, slice_get, Some};
ghost use Rattle.ap_list.specs.Lists.{Each};
ghost use Rattle.ap_world.specs.World.{function_of};
ghost use Rattle.ap_kernel.specs.Standing.{DefinesNot, Stands};
ghost use Rattle.ap_kernel.specs.Deriving.{node};
ghost use Rattle.ap_kernel.specs.declared.derivations.Row.TheVariants.{RewriteLiteral, DropLiteral, Cases};
ghost use Rattle.ap_kernel.specs.Reductions.{KnownClause, Reduces, put_at, others, all_false, to_one, dropped, rewritten, chained};

use crate::derivations::{Derivation, Row};
use crate::lists::{one, one_clause};
use crate::objects::Equiv;
use crate::reductions::Reduction;
use ap_list::{NoMemory, Seq, Shared};
use ap_term::{Clause, Term, copy_terms, extend_terms};
use ap_world::World;
use std::alloc::Global;

/// A copy of a list of terms in which the term at a place is replaced by a list, which is moved.
pub fn put_at(
    alloc: Global,
    terms: &[Term],
    place: usize,
    put: Seq<Term>,
) -> Result<Seq<Term>, NoMemory>
    requires { place < length terms.now }
    ensures { IfOk result (λ out. out ≡ put_at place put terms.now) }
{
    let mut out = Seq::with_capacity(alloc, terms.len().saturating_add(put.len()))?;
    extend_terms(alloc, &mut out, &terms[..place])?;
    out.append(put)?;
    extend_terms(alloc, &mut out, &terms[place + 1..])?;
    Ok(out)
}

/// A reduction to one clause.
pub(crate) fn to_one(
    alloc: Global,
    from: Shared<Clause>,
    to: Seq<Term>,
    why: Shared<Derivation>,
) -> Result<Reduction, NoMemory>
    ensures { IfOk result (λ r. r ≡ record { says = to_one from to; why = why }) }
{
    let goals = one_clause(alloc, Clause(to))?;
    Ok(Reduction::made(from, goals, why))
}

/// How a clause is kept: it is the one case of no terms.
fn keep_why(alloc: Global, c: &Shared<Clause>) -> Result<Shared<Derivation>, NoMemory>
    ensures { IfOk result (λ d. d ≡ node (Cases c.now []) []) }
{
    let c = c.share()?;
    let answer = Derivation::leaf(alloc, Row::Cases(c, Seq::new(alloc)))?;
    Ok(answer)
}

/// From a clause to itself. It copies the literals, since the reduction owns both clauses.
pub fn keep(alloc: Global, w: &World, c: Clause) -> Result<Reduction, NoMemory>
    requires clause { KnownClause (function_of w.now.entries) c }
    ensures stands { IfOk result (λ r. Reduces w.now r) }
    ensures made { IfOk result (λ r. r.says ≡ record { from = c; to = c ∷ [] }) }
{
    w.recall_sound();
    let literals = copy_terms(alloc, c.0.as_slice())?;
    let from = Shared::new(alloc, c)?;
    let why = keep_why(alloc, &from)?;
    let answer = to_one(alloc, from, literals, why)?;
    Ok(answer)
}

/// How a literal is left out.
fn drop_why(alloc: Global, c: &Shared<Clause>, index: usize) -> Result<Shared<Derivation>, NoMemory>
    ensures { IfOk result (λ d. d ≡ node (DropLiteral c.now index) []) }
{
    let c = c.share()?;
    let answer = Derivation::leaf(alloc, Row::DropLiteral(c, index))?;
    Ok(answer)
}

/// From a clause to the clause without the literal at a place. It copies the other literals, since the
/// reduction owns both clauses.
pub fn drop_literal(
    alloc: Global,
    w: &World,
    c: Clause,
    index: usize,
) -> Result<Reduction, NoMemory>
    requires clause { KnownClause (function_of w.now.entries) c }
    requires place { index < length c.0 }
    ensures stands { IfOk result (λ r. Reduces w.now r) }
    ensures made { IfOk result (λ r. r.says ≡ dropped c index) }
{
    w.recall_sound();
    let left = put_at(alloc, c.0.as_slice(), index, Seq::new(alloc))?;
    let from = Shared::new(alloc, c)?;
    let why = drop_why(alloc, &from, index)?;
    let answer = to_one(alloc, from, left, why)?;
    Ok(answer)
}

/// How a literal is replaced by what it leads to.
fn rewrite_why(
    alloc: Global,
    c: &Shared<Clause>,
    index: usize,
    first: Shared<Derivation>,
) -> Result<Shared<Derivation>, NoMemory>
    ensures { IfOk result (λ d. d ≡ node (RewriteLiteral c.now index) (first ∷ [])) }
{
    let c = c.share()?;
    let answer = Derivation::of_one(alloc, Row::RewriteLiteral(c, index), first)?;
    Ok(answer)
}

/// From a clause to the clause in which the literal at a place becomes what it leads to, where all other
/// literals are assumed false in clause order. It copies the other literals, since the reduction owns both
/// clauses; the new literal is moved.
pub fn rewrite_literal(
    alloc: Global,
    w: &World,
    c: Clause,
    index: usize,
    e: Equiv,
) -> Result<Reduction, NoMemory>
    requires ground { DefinesNot (function_of w.now.entries) }
    requires clause { KnownClause (function_of w.now.entries) c }
    requires leads { Stands w.now e }
    requires place { slice_get c.0 index ≡ Some e.says.lhs }
    requires facts { e.says.ctx.0 ≡ all_false (others index c.0) }
    ensures stands { IfOk result (λ r. Reduces w.now r) }
    ensures made { IfOk result (λ r. r.says ≡ rewritten c index e.says.rhs) }
{
    w.recall_sound();
    let (e, first) = e.into_made(alloc)?;
    let put = one(alloc, e.rhs)?;
    let literals = put_at(alloc, c.0.as_slice(), index, put)?;
    let from = Shared::new(alloc, c)?;
    let why = rewrite_why(alloc, &from, index, first)?;
    let answer = to_one(alloc, from, literals, why)?;
    Ok(answer)
}
