ghost use Rattle.std.specs.Prelude.{◌≡◌, ◌<◌, ◌^◌, length, IfOk, IfSome, MatchOption, IsTrue, is_some, Some, None};
ghost use Rattle.std.specs.Option.{option_map};
ghost use Rattle.ap_list.specs.Lists.{Each};
ghost use Rattle.ap_world.specs.Sound.{HasFunctions};
ghost use Rattle.ap_kernel.specs.Reductions.{KnownClause, Reduces};
ghost use Rattle.ap_kernel.specs.Solving.{solved_made};
ghost use Rattle.ap_clausify.specs.Splitting.{settled_all};
ghost use Rattle.ap_rewrite.specs.Literals.{simplify_of};
ghost use Rattle.ap_rewrite.specs.Answering.{Ready, setting_of as rewriter_setting};
ghost use Rattle.ap_strategy.specs.Goals.{defs_of};
ghost use Rattle.ap_strategy.specs.Steps.{setting_by, first_solved, opened, reduced, simplified, reduced_to};

use crate::clauses::{copy_clause, without_repeats};
use crate::oracles::Oracles;
use crate::plan::{Plan, Settings};
use ap_kernel::{Reduction, is_solvable, then, tidy, use_equality};
use ap_list::{NoMemory, Seq};
use ap_rewrite::Rewriter;
use ap_term::{Clause, Steps};
use ap_world::World;
use std::alloc::Global;

/// The place of the first literal that solves a variable. Takes no memory.
fn solvable_place(c: &Clause) -> Option<usize>
    ensures { MatchOption result (first_solved c.now 0 c.now.0 ≡ None) (λ i. IsTrue (is_some (solved_made c.now i)) × (first_solved c.now 0 c.now.0 ≡ solved_made c.now i)) }
{
    for place in 0..c.0.len() {
        if is_solvable(c, place) {
            return Some(place);
        }
    }
    None
}

/// What a goal's literals are rewritten by.
fn rewriter<'a>(alloc: Global, plan: &'a Plan, settings: &'a Settings) -> Rewriter<'a, Oracles>
    requires functions { HasFunctions (defs_of plan.now) }
    ensures ready { Ready result }
    ensures setting { rewriter_setting result ≡ setting_by plan.now settings.now }
    ensures world { result.w.now ≡ plan.now.world }
{
    Rewriter {
        alloc,
        w: plan.world.world(),
        rules: plan.world.rules(),
        theory: &settings.theory,
        expand: &settings.expand,
        oracle: &Oracles,
    }
}

/// From a clause to those that are left once its literals are rewritten and it is split, each tidied. `None`
/// where the steps ran out.
fn rewrite_settled(
    alloc: Global,
    plan: &Plan,
    settings: &Settings,
    c: Clause,
) -> Result<Option<Reduction>, NoMemory>
    requires functions { HasFunctions (defs_of plan.now) }
    requires clause { KnownClause (defs_of plan.now) c }
    ensures stands { IfOk result (λ o. IfSome o (Reduces plan.now.world)) }
    ensures made { IfOk result (λ o. option_map (λ r. r.says) o ≡ option_map (reduced_to c) (option_map settled_all (simplify_of (setting_by plan.now settings.now) plan.now.step_limit c))) }
{
    let by = rewriter(alloc, plan, settings);
    let mut steps = Steps {
        left: plan.step_limit,
    };
    let answer = ap_rewrite::simplify(&by, &mut steps, c)?;
    Ok(answer)
}

/// From a tidied clause to the one with a variable replaced that a literal solves, or else to those that are left
/// once it is rewritten. `None` where the steps ran out.
fn open(
    alloc: Global,
    plan: &Plan,
    settings: &Settings,
    c: Clause,
) -> Result<Option<Reduction>, NoMemory>
    requires functions { HasFunctions (defs_of plan.now) }
    requires clause { KnownClause (defs_of plan.now) c }
    ensures stands { IfOk result (λ o. IfSome o (Reduces plan.now.world)) }
    ensures made { IfOk result (λ o. option_map (λ r. r.says) o ≡ option_map (reduced_to c) (opened (setting_by plan.now settings.now) plan.now.step_limit c (first_solved c 0 c.0))) }
{
    match solvable_place(&c) {
        Some(place) => Ok(Some(use_equality(alloc, plan.world.world(), c, place)?)),
        None => rewrite_settled(alloc, plan, settings, c),
    }
}

/// From a clause to what it is reduced to. `None` where the steps ran out.
pub(crate) fn reduce(
    alloc: Global,
    plan: &Plan,
    settings: &Settings,
    c: Clause,
) -> Result<Option<Reduction>, NoMemory>
    requires functions { HasFunctions (defs_of plan.now) }
    requires clause { KnownClause (defs_of plan.now) c }
    ensures stands { IfOk result (λ o. IfSome o (Reduces plan.now.world)) }
    ensures made { IfOk result (λ o. option_map (λ r. r.says) o ≡ option_map (reduced_to c) (reduced (setting_by plan.now settings.now) plan.now.step_limit c)) }
{
    let w = plan.world.world();
    let tidied = tidy(alloc, w, c)?;
    let [plain] = tidied.to().as_slice() else {
        return Ok(Some(tidied));
    };
    let Some(opened) = open(alloc, plan, settings, copy_clause(alloc, plain)?)? else {
        return Ok(None);
    };
    Ok(Some(then(alloc, w, tidied, opened)?))
}

/// The clauses that simplification makes of a clause. `None` where the steps ran out.
pub(crate) fn simplify(
    alloc: Global,
    plan: &Plan,
    settings: &Settings,
    c: Clause,
) -> Result<Option<Seq<Clause>>, NoMemory>
    requires functions { HasFunctions (defs_of plan.now) }
    requires clause { KnownClause (defs_of plan.now) c }
    ensures made { IfOk result (λ o. o ≡ simplified (setting_by plan.now settings.now) plan.now.step_limit c) }
    ensures known { IfOk result (λ o. IfSome o (Each (KnownClause (defs_of plan.now)))) }
    ensures few { IfOk result (λ o. IfSome o (λ cs. length cs < 2 ^ 32)) }
{
    let _limit = plan.step_limit;
    let Some(reduction) = reduce(alloc, plan, settings, c)? else {
        return Ok(None);
    };
    let (_, clauses) = reduction.into_parts();
    Ok(Some(without_repeats(alloc, clauses)?))
}
