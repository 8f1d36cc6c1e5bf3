ghost use Rattle.std.specs.Prelude.{◌≡◌, IfOk, IfSome, IsTrue};
ghost use Rattle.std.specs.Option.{option_copied, option_map, ForSome};
ghost use Rattle.ap_term.specs.declared.term.Term.{out-Term};
ghost use Rattle.ap_world.specs.Sound.{known, HasFunctions};
ghost use Rattle.ap_world.specs.World.{function_of};
ghost use Rattle.ap_kernel.specs.Reductions.{KnownClause, Reduces};
ghost use Rattle.ap_induct.specs.Choosing.{looked_at, chosen, scheme_of};

use crate::candidates::candidates;
use crate::choosing::{best_call, push_all_calls};
use crate::found::Scheme;
use ap_kernel::induct;
use ap_list::{NoMemory, Seq};
use ap_term::{Clause, Shape, Term, copy_term, copy_terms};
use ap_world::{Theory, World};
use std::alloc::Global;

/// The calls that are looked at: a hint's call alone, or those in the literals.
fn looked_at(alloc: Global, literals: &[Term], hint: Option<&Term>) -> Result<Seq<Term>, NoMemory>
    ensures { IfOk result (λ us. us ≡ looked_at literals.now (option_copied hint.entry)) }
{
    let mut out = Seq::new(alloc);
    match hint {
        Some(call) => out.push(copy_term(alloc, call)?)?,
        None => push_all_calls(alloc, literals, &mut out)?,
    }
    Ok(out)
}

/// The call that an induction of these literals goes by: the hint's, if it is a candidate, or the first of the
/// highest score among the calls in the literals. `None` exactly where there is no candidate. The only error is
/// want of memory.
pub fn chosen(
    alloc: Global,
    w: &World,
    theory: &Theory,
    literals: &[Term],
    hint: Option<&Term>,
) -> Result<Option<Term>, NoMemory>
    ensures { IfOk result (λ o. o ≡ chosen (function_of w.now.entries) theory.now literals.now (option_copied hint.entry)) }
{
    let calls = looked_at(alloc, literals, hint)?;
    let found = candidates(alloc, w, theory, literals.len(), calls.as_slice())?;
    match best_call(found.as_slice()) {
        Some(call) => Ok(Some(copy_term(alloc, call)?)),
        None => Ok(None),
    }
}

/// The induction of a clause: by the hint's call, which is then the only candidate, or by the first of the
/// calls in the clause, in preorder, that has the highest score among the candidates. `None` exactly where there
/// is no candidate. The only error is want of memory. See the manual's topic `induction`.
#[tactic(auto, using(ap_term::proofs::Seen::trees))]
pub fn scheme(
    alloc: Global,
    w: &World,
    theory: &Theory,
    c: &Clause,
    hint: Option<&Term>,
) -> Result<Option<Scheme>, NoMemory>
    requires functions { HasFunctions (function_of w.now.entries) }
    requires clause { KnownClause (function_of w.now.entries) c.now }
    requires hint { ForSome (option_copied hint) (λ u. IsTrue (known (function_of w.now.entries) u)) }
    ensures stands { IfOk result (λ o. IfSome o (λ s. Reduces w.now s.reduction)) }
    ensures made { IfOk result (λ o. option_map (λ s. (s.call, s.reduction.says)) o ≡ scheme_of (function_of w.now.entries) theory.now c.now (option_copied hint.entry)) }
{
    let Some(call) = chosen(alloc, w, theory, c.0.as_slice(), hint)? else {
        return Ok(None);
    };
    let Shape::Call(f, actuals) = &call.shape else {
        return Ok(None);
    };
    let clause = Clause(copy_terms(alloc, c.0.as_slice())?);
    let reduction = induct(alloc, w, clause, f, actuals.as_slice())?;
    Ok(Some(Scheme { call, reduction }))
}
