// Whether one term is another with its variables renamed, and whether one has all variables of another.
ghost use Rattle.std.specs.Prelude.{◌≡◌, Some, None, IfOk, [], ◌∷◌, ◌++◌, cond, map};
ghost use Rattle.ap_list.specs.Lists.{is_within};
ghost use Rattle.ap_value.specs.Values.{symbol_eq};
ghost use Rattle.ap_term.specs.declared.term.Term.{fold-Term};
ghost use Rattle.ap_term.specs.Terms.{vars_after};
ghost use Rattle.ap_world.specs.Rules.{Renames, agrees, is_renaming, rename_all, rename_step};

use crate::refusing::are_within;
use ap_list::{NoMemory, Seq};
use ap_term::{Shape, Term, is_same, is_symbol, vars};
use ap_value::{Symbol, copy_symbol};
use std::alloc::Global;

/// Whether two variables agree with each pair: both are the pair's, or neither is.
fn agrees(x: &Symbol, y: &Symbol, pairs: &[(Symbol, Symbol)]) -> bool
    ensures { result ≡ agrees x.now y.now pairs.now }
{
    for (a, b) in pairs {
        if is_symbol(x, a) != is_symbol(y, b) {
            return false;
        }
    }
    true
}

/// Whether two variables agree with the pairs so far, which then get theirs.
fn rename_var(
    alloc: Global,
    x: &Symbol,
    y: &Symbol,
    pairs: &mut Seq<(Symbol, Symbol)>,
) -> Result<bool, NoMemory>
    ensures { IfOk result (λ b. cond (agrees x.now y.now pairs.old) (Some (pairs.old ++ (x.now, y.now) ∷ [])) None ≡ cond b (Some pairs.new) None) }
{
    if !agrees(x, y, pairs.as_slice()) {
        return Ok(false);
    }
    pairs.push((copy_symbol(alloc, x)?, copy_symbol(alloc, y)?))?;
    Ok(true)
}

/// Whether one term is the other with its variables renamed, beginning with these pairs, which get those that stand
/// in the same places.
#[cycle(renaming)]
#[tactic(auto, using(ap_term::proofs::Seen::trees))]
fn rename_term(
    alloc: Global,
    a: &Term,
    b: &Term,
    pairs: &mut Seq<(Symbol, Symbol)>,
) -> Result<bool, NoMemory>
    ensures { IfOk result (λ r. fold-Term Renames rename_step a.now b.now pairs.old ≡ cond r (Some pairs.new) None) }
{
    match (&a.shape, &b.shape) {
        (Shape::Var(x), Shape::Var(y)) => rename_var(alloc, x, y, pairs),
        (Shape::Quote(_), _) => Ok(is_same(a, b)),
        (Shape::Call(f, ts), Shape::Call(g, us)) => {
            if !is_symbol(f, g) {
                return Ok(false);
            }
            rename_terms(alloc, ts.as_slice(), us.as_slice(), pairs)
        }
        _ => Ok(false),
    }
}

#[cycle(renaming)]
fn rename_terms(
    alloc: Global,
    ts: &[Term],
    us: &[Term],
    pairs: &mut Seq<(Symbol, Symbol)>,
) -> Result<bool, NoMemory>
    ensures { IfOk result (λ r. rename_all (map (fold-Term Renames rename_step) ts.now) us.now pairs.old ≡ cond r (Some pairs.new) None) }
{
    if ts.len() != us.len() {
        return Ok(false);
    }
    for i in 0..ts.len() {
        if !rename_term(alloc, &ts[i], &us[i], pairs)? {
            return Ok(false);
        }
    }
    Ok(true)
}

/// Whether two terms differ by a renaming of variables. The only error is want of memory.
pub(crate) fn are_renamed(alloc: Global, a: &Term, b: &Term) -> Result<bool, NoMemory>
    ensures { IfOk result (λ r. r ≡ is_renaming (fold-Term Renames rename_step a.now b.now [])) }
{
    let mut pairs = Seq::new(alloc);
    rename_term(alloc, a, b, &mut pairs)
}

/// Whether each variable of one term is in another. The only error is want of memory.
pub(crate) fn is_bound_by(alloc: Global, a: &Term, b: &Term) -> Result<bool, NoMemory>
    ensures { IfOk result (λ r. r ≡ is_within symbol_eq (vars_after a.now []) (vars_after b.now [])) }
{
    let wanted = vars(alloc, a)?;
    let there = vars(alloc, b)?;
    Ok(are_within(wanted.as_slice(), there.as_slice()))
}
