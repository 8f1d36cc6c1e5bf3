ghost use Rattle.std.specs.Prelude.{◌≡◌, [], ◌∷◌, ◌++◌, IfOk, IfSome, IsTrue, is_some};
ghost use Rattle.ap_list.specs.Lists.{Each};
ghost use Rattle.ap_term.specs.Terms.{subst_of};
ghost use Rattle.ap_world.specs.Clauses.{negate};
ghost use Rattle.ap_world.specs.Holding.{KnownPairs};
ghost use Rattle.ap_world.specs.Sound.{known};
ghost use Rattle.ap_world.specs.World.{function_of, theorem_of};
ghost use Rattle.ap_kernel.specs.Standing.{DefinesNot};
ghost use Rattle.ap_kernel.specs.Reductions.{KnownClause, Reduces};
ghost use Rattle.ap_kernel.specs.Deriving.{node};
ghost use Rattle.ap_kernel.specs.declared.derivations.Row.TheVariants.{Cases, UseFact};
ghost use Rattle.ap_kernel.specs.Hinting.{negated_cases, case_clauses, cased, used};

use crate::derivations::{Derivation, Row, copy_subst};
use crate::literals::to_one;
use crate::reductions::Reduction;
use crate::splits::{negated, negated_instance};
use ap_list::{NoMemory, Seq, Shared};
use ap_term::{Clause, Subst, Term, copy_terms};
use ap_value::{Symbol, copy_symbol};
use ap_world::World;
use std::alloc::Global;

/// A term, which is moved, and copies of literals behind it.
pub(crate) fn before(alloc: Global, first: Term, literals: &[Term]) -> Result<Seq<Term>, NoMemory>
    ensures { IfOk result (λ out. out ≡ first ∷ literals.now) }
{
    let mut out = Seq::new(alloc);
    out.push(first)?;
    out.append(copy_terms(alloc, literals)?)?;
    Ok(out)
}

/// The clauses in which a copy of the literals has the negation of one term before it.
fn negated_cases(alloc: Global, on: &[Term], literals: &[Term]) -> Result<Seq<Clause>, NoMemory>
    ensures { IfOk result (λ cs. cs ≡ negated_cases on.now literals.now) }
{
    let mut out = Seq::new(alloc);
    for u in on {
        let negation = negated(alloc, u)?;
        out.push(Clause(before(alloc, negation, literals)?))?;
    }
    Ok(out)
}

/// The clauses of all cases.
fn case_clauses(alloc: Global, on: &[Term], literals: &[Term]) -> Result<Seq<Clause>, NoMemory>
    ensures { IfOk result (λ cs. cs ≡ case_clauses on.now literals.now) }
{
    let mut out = negated_cases(alloc, on, literals)?;
    let mut last = copy_terms(alloc, on)?;
    last.append(copy_terms(alloc, literals)?)?;
    out.push(Clause(last))?;
    Ok(out)
}

/// How a clause is taken case by case.
fn cases_why(
    alloc: Global,
    c: &Shared<Clause>,
    on: &Seq<Term>,
) -> Result<Shared<Derivation>, NoMemory>
    ensures { IfOk result (λ d. d ≡ node (Cases c.now on.now) []) }
{
    let c = c.share()?;
    let on = copy_terms(alloc, on.as_slice())?;
    let answer = Derivation::leaf(alloc, Row::Cases(c, on))?;
    Ok(answer)
}

/// From a clause to one clause for each of some terms, the term's negation before the clause, and last to the
/// clause with all the terms before it. It copies the literals for each, since the reduction owns all clauses.
/// See the manual's topic `cases`.
pub fn cases(alloc: Global, w: &World, c: Clause, on: &Seq<Term>) -> Result<Reduction, NoMemory>
    requires ground { DefinesNot (function_of w.now.entries) }
    requires clause { KnownClause (function_of w.now.entries) c }
    requires terms { Each (λ u. IsTrue (known (function_of w.now.entries) u)) on.now }
    ensures stands { IfOk result (λ r. Reduces w.now r) }
    ensures made { IfOk result (λ r. r.says ≡ cased c on.now) }
{
    w.recall_sound();
    let goals = case_clauses(alloc, on.as_slice(), c.0.as_slice())?;
    let from = Shared::new(alloc, c)?;
    let why = cases_why(alloc, &from, on)?;
    Ok(Reduction::made(from, goals, why))
}

/// The literals with the negated instance of a term before them.
fn with_instance(
    alloc: Global,
    term: &Term,
    s: &Subst,
    literals: &[Term],
) -> Result<Seq<Term>, NoMemory>
    ensures { IfOk result (λ ts. ts ≡ negate (subst_of s.now.0 term.now) ∷ literals.now) }
{
    let negation = negated_instance(alloc, term, s)?;
    before(alloc, negation, literals)
}

/// How a theorem's instance is used.
fn use_why(
    alloc: Global,
    c: &Shared<Clause>,
    name: &Symbol,
    s: &Subst,
) -> Result<Shared<Derivation>, NoMemory>
    ensures { IfOk result (λ d. d ≡ node (UseFact c.now name.now s.now) []) }
{
    let c = c.share()?;
    let name = copy_symbol(alloc, name)?;
    let s = copy_subst(alloc, s)?;
    let answer = Derivation::leaf(alloc, Row::UseFact(c, name, s))?;
    Ok(answer)
}

/// From a clause to the clause with the negation of an instance of a theorem before it. It copies the
/// literals, since the reduction owns both clauses. See the manual's topics `use` and `instance`.
pub fn use_fact(
    alloc: Global,
    w: &World,
    c: Clause,
    name: &Symbol,
    s: &Subst,
) -> Result<Reduction, NoMemory>
    requires ground { DefinesNot (function_of w.now.entries) }
    requires clause { KnownClause (function_of w.now.entries) c }
    requires pairs { KnownPairs (function_of w.now.entries) s.now.0 }
    requires theorem { IsTrue (is_some (theorem_of w.now.entries name.now)) }
    ensures stands { IfOk result (λ r. Reduces w.now r) }
    ensures made { IfOk result (λ r. IfSome (theorem_of w.now.entries name.now) (λ u. r.says ≡ used c u.term s.now.0)) }
{
    w.recall_sound();
    let Some(theorem) = w.lookup_thm(name) else {
        unreachable!()
    };
    let literals = with_instance(alloc, &theorem.term, s, c.0.as_slice())?;
    let from = Shared::new(alloc, c)?;
    let why = use_why(alloc, &from, name, s)?;
    let answer = to_one(alloc, from, literals, why)?;
    Ok(answer)
}
