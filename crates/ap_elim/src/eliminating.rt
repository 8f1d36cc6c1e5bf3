ghost use Rattle.std.specs.Prelude.{◌≡◌, ◌∷◌, IfOk, IfSome, Some};
ghost use Rattle.std.specs.Option.{option_map};
ghost use Rattle.ap_value.specs.Values.{acl2};
ghost use Rattle.ap_term.specs.declared.term.Term.TheVariants.{Var};
ghost use Rattle.ap_world.specs.declared.theory.RuneKind.TheVariants.{Elim};
ghost use Rattle.ap_world.specs.Theories.{rune_of, is_enabled};
ghost use Rattle.ap_world.specs.World.{function_of};
ghost use Rattle.ap_kernel.specs.Standing.{DefinesNot};
ghost use Rattle.ap_kernel.specs.Reductions.{KnownClause, Reduces};
ghost use Rattle.ap_elim.specs.Naming.{new_name};
ghost use Rattle.ap_elim.specs.Eliminating.{car_cdr_elim_name, has_call, is_destructed, destructed, with_new, taken, elim_made};

use crate::naming::{new_name, vars_of};
use ap_kernel::{Reduction, eliminate, some_contains};
use ap_list::{NoMemory, Seq};
use ap_term::{Clause, Term, copy_terms};
use ap_value::{Symbol, acl2, copy_symbol};
use ap_world::{RuneKind, Theory, World};
use std::alloc::Global;

/// Whether the theorem that elimination goes by is enabled.
#[tactic(auto, unfolding(crate::specs::Eliminating::car_cdr_elim_name))]
fn is_on(alloc: Global, theory: &Theory) -> Result<bool, NoMemory>
    ensures { IfOk result (λ b. b ≡ is_enabled theory.now (rune_of Elim car_cdr_elim_name)) }
{
    let name = acl2(alloc, b"CAR-CDR-ELIM")?;
    Ok(theory.is_enabled(RuneKind::Elim, &name))
}

/// Whether the call of a function on a variable is a part of a literal.
fn has_call(alloc: Global, name: &[u8], literals: &[Term], v: &Symbol) -> Result<bool, NoMemory>
    ensures { IfOk result (λ b. b ≡ has_call (acl2 name.now) literals.now v.now) }
{
    let head = acl2(alloc, name)?;
    let mut parts = Seq::new(alloc);
    parts.push(Term::var(copy_symbol(alloc, v)?))?;
    let call = Term::call(alloc, head, parts)?;
    Ok(some_contains(literals, &call))
}

/// Whether the `car` or the `cdr` of a variable is.
#[tactic(auto, unfolding(ap_world::specs::Names::car_name, ap_world::specs::Names::cdr_name))]
fn is_destructed(alloc: Global, literals: &[Term], v: &Symbol) -> Result<bool, NoMemory>
    ensures { IfOk result (λ b. b ≡ is_destructed literals.now v.now) }
{
    if has_call(alloc, b"CAR", literals, v)? {
        return Ok(true);
    }
    has_call(alloc, b"CDR", literals, v)
}

/// The first variable, by first occurrence, of which that is so.
fn destructed(alloc: Global, literals: &[Term]) -> Result<Option<Symbol>, NoMemory>
    ensures { IfOk result (λ o. o ≡ destructed literals.now) }
{
    let names = vars_of(alloc, literals)?;
    for v in names.as_slice() {
        if is_destructed(alloc, literals, v)? {
            return Ok(Some(copy_symbol(alloc, v)?));
        }
    }
    Ok(None)
}

/// A name that is new in some literals and isn't a variable's.
fn second_name(
    alloc: Global,
    stem: &[u8],
    first: &Symbol,
    literals: &[Term],
) -> Result<Symbol, NoMemory>
    ensures { IfOk result (λ b. new_name stem.now (Var first.now ∷ literals.now) ≡ Some b) }
{
    let mut terms = Seq::new(alloc);
    terms.push(Term::var(copy_symbol(alloc, first)?))?;
    terms.append(copy_terms(alloc, literals)?)?;
    new_name(alloc, stem, terms.as_slice())
}

/// A variable with two new ones of its name.
fn with_new(
    alloc: Global,
    literals: &[Term],
    v: &Symbol,
) -> Result<(Symbol, Symbol, Symbol), NoMemory>
    ensures { IfOk result (λ p. with_new literals.now v.now ≡ Some p) }
{
    let stem = v.name.as_slice();
    let a = new_name(alloc, stem, literals)?;
    let b = second_name(alloc, stem, &a, literals)?;
    Ok((copy_symbol(alloc, v)?, a, b))
}

/// The variable that is taken apart, and the new ones for its `car` and `cdr`.
fn taken(
    alloc: Global,
    theory: &Theory,
    literals: &[Term],
) -> Result<Option<(Symbol, Symbol, Symbol)>, NoMemory>
    ensures { IfOk result (λ o. o ≡ taken theory.now literals.now) }
{
    if !is_on(alloc, theory)? {
        return Ok(None);
    }
    match destructed(alloc, literals)? {
        Some(v) => Ok(Some(with_new(alloc, literals, &v)?)),
        None => Ok(None),
    }
}

/// The elimination of a clause, where `CAR-CDR-ELIM` is enabled: of its first variable, by first occurrence,
/// whose `car` or `cdr` is a part of a literal. Two variables of its name and the least numbers that make them
/// new stand for these, the first for the `car`. `None` exactly where there is no such variable or the
/// theorem's rune is disabled. The only error is want of memory. See the manual's topic `elim`.
pub fn elim(
    alloc: Global,
    w: &World,
    theory: &Theory,
    c: &Clause,
) -> Result<Option<Reduction>, NoMemory>
    requires ground { DefinesNot (function_of w.now.entries) }
    requires clause { KnownClause (function_of w.now.entries) c.now }
    ensures stands { IfOk result (λ o. IfSome o (λ r. Reduces w.now r)) }
    ensures made { IfOk result (λ o. option_map (λ r. r.says) o ≡ elim_made theory.now c.now) }
{
    let Some((v, a, b)) = taken(alloc, theory, c.0.as_slice())? else {
        return Ok(None);
    };
    let clause = Clause(copy_terms(alloc, c.0.as_slice())?);
    Ok(Some(eliminate(alloc, w, clause, &v, a, b)?))
}
