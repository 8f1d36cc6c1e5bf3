// When a rule fits a mode, and when the order of terms lets it be used.
ghost use Rattle.std.specs.Prelude.{◌≡◌, IfOk, not};
ghost use Rattle.ap_term.specs.Order.{term_less};
ghost use Rattle.ap_term.specs.Terms.{subst_of};
ghost use Rattle.ap_world.specs.Rules.{is_bound_by_left};
ghost use Rattle.ap_rules.specs.Made.{rule_in};
ghost use Rattle.ap_rewrite.specs.Rewriting.{in_order, fits_mode};

use crate::settling::is_iff;
use ap_kernel::{Mode, NoMemory, Subst, Term, subst};
use ap_poly::is_before;
use ap_rules::RewriteRule;
use std::alloc::Global;

/// Whether a rule serves under a mode: one under `iff` serves under `iff` alone. Takes no memory.
pub fn fits_mode(mode: Mode, rule: &RewriteRule) -> bool
    ensures { result ≡ fits_mode mode (rule_in rule.now) }
{
    is_iff(mode) || !rule.iff
}

/// Whether the instance of a rule's right side comes before a term. The only error is want of memory, as which it is
/// answered too where the nodes of one of them pass 64 bits.
fn comes_first(alloc: Global, rule: &RewriteRule, s: &Subst, t: &Term) -> Result<bool, NoMemory>
    ensures { IfOk result (λ b. b ≡ term_less (subst_of s.now.0 rule.now.rhs) t.now) }
{
    let instance = subst(alloc, &rule.rhs, s)?;
    is_before(&instance, t)
}

/// Whether a rule may be used on a term as far as the order of terms goes, before its hypotheses are relieved: a
/// permutative one whose left side binds all of its right side only where its right side's instance comes before the
/// term. The only error is want of memory, as which it is answered too where the nodes of one of them pass 64 bits.
/// See the manual's topic `loop-stopper`.
pub fn in_order_first(
    alloc: Global,
    rule: &RewriteRule,
    s: &Subst,
    t: &Term,
) -> Result<bool, NoMemory>
    ensures { IfOk result (λ b. b ≡ in_order (is_bound_by_left (rule_in rule.now)) (rule_in rule.now) s.now.0 t.now) }
{
    if !rule.permutative || !rule.bound_by_left {
        return Ok(true);
    }
    comes_first(alloc, rule, s, t)
}

/// The same behind its hypotheses, by the pairs that came of them: of a permutative rule whose hypotheses bind part
/// of its right side.
pub fn in_order_then(
    alloc: Global,
    rule: &RewriteRule,
    s: &Subst,
    t: &Term,
) -> Result<bool, NoMemory>
    ensures { IfOk result (λ b. b ≡ in_order (not (is_bound_by_left (rule_in rule.now))) (rule_in rule.now) s.now.0 t.now) }
{
    if !rule.permutative || rule.bound_by_left {
        return Ok(true);
    }
    comes_first(alloc, rule, s, t)
}
