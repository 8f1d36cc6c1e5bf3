ghost use Rattle.std.specs.Prelude.{◌≡◌, ◌∷◌, [], IfOk, map};
ghost use Rattle.ap_list.specs.Lists.{is_within, in_turn};
ghost use Rattle.ap_value.specs.Values.{symbol_eq};
ghost use Rattle.ap_term.specs.declared.term.Term.{out-Term};
ghost use Rattle.ap_term.specs.Terms.{vars_after};
ghost use Rattle.ap_world.specs.Rules.{vars_in};
ghost use Rattle.ap_rules.specs.Made.{rule_in};
ghost use Rattle.ap_rules.specs.Refused.{first_refusal, left_refusal, right_refusal, rule_refusal};

use crate::rule::RewriteRule;
use ap_list::{Fixed, NoMemory, Seq};
use ap_term::{Shape, Term, copy_term, is_among, vars};
use ap_value::{Symbol, named};
use ap_world::is_if;
use std::alloc::{AllocError, Global};

/// Why a theorem gives no rules of its classes: the left side of a rewrite rule is a variable, or a constant
/// or an `if`; a variable of its right side is neither in the left side nor in a hypothesis; a conjunct of a
/// linear theorem isn't an inequality with a trigger; a type prescription isn't a recogniser on a call of
/// distinct variables; or memory is wanting.
#[derive(Clone, Copy, Debug)]
pub enum RuleError {
    LhsVariable,
    LhsConstant,
    FreeInRhs,
    NotInequality,
    NotTypeForm,
    NoMemory,
}

impl From<AllocError> for RuleError {
    ghost use Rattle.std.specs.Prelude.{◌≡◌};
    ghost use Rattle.ap_rules.specs.declared.refusing.RuleError.TheVariants.{NoMemory};

    ghost from_gives = { λ _ e. e ≡ NoMemory };

    fn from(_error: AllocError) -> RuleError {
        RuleError::NoMemory
    }
}

/// Whether each symbol of a list is one of another.
pub(crate) fn are_within(xs: &[Symbol], ys: &[Symbol]) -> bool
    ensures { result ≡ is_within symbol_eq xs.now ys.now }
{
    let mut left = xs;
    while let [first, rest @ ..] = left {
        if !is_among(first, ys) {
            return false;
        }
        left = rest;
    }
    true
}

/// The variables of a rule's left side and of its hypotheses: those of a call of these.
#[tactic(auto, using(crate::proofs::Made::call_variables))]
fn bound_variables(alloc: Global, rule: &RewriteRule) -> Result<Seq<Symbol>, NoMemory>
    ensures { IfOk result (λ xs. xs ≡ vars_in rule.now.hyps (vars_after rule.now.lhs [])) }
{
    let mut terms = Seq::new(alloc);
    terms.push(copy_term(alloc, &rule.lhs)?)?;
    for hyp in rule.hyps.as_slice() {
        terms.push(copy_term(alloc, hyp)?)?;
    }
    let all = Term::call(alloc, named(Fixed::Nil), terms)?;
    vars(alloc, &all)
}

/// What a left side is refused for.
#[tactic(auto, using(ap_term::proofs::Seen::trees))]
fn left_refusal(t: &Term) -> Option<RuleError>
    ensures { result ≡ left_refusal (out-Term t.now) }
{
    match &t.shape {
        Shape::Var(_) => Some(RuleError::LhsVariable),
        Shape::Quote(_) => Some(RuleError::LhsConstant),
        Shape::Call(f, _) => {
            if is_if(f) {
                Some(RuleError::LhsConstant)
            } else {
                None
            }
        }
    }
}

/// What a right side is refused for.
fn right_refusal(alloc: Global, rule: &RewriteRule) -> Result<Option<RuleError>, NoMemory>
    ensures { IfOk result (λ o. o ≡ right_refusal (rule_in rule.now)) }
{
    let used = vars(alloc, &rule.rhs)?;
    let bound = bound_variables(alloc, rule)?;
    if are_within(used.as_slice(), bound.as_slice()) {
        Ok(None)
    } else {
        Ok(Some(RuleError::FreeInRhs))
    }
}

/// What a rule is refused for.
fn rule_refusal(alloc: Global, rule: &RewriteRule) -> Result<Option<RuleError>, NoMemory>
    ensures { IfOk result (λ o. o ≡ rule_refusal (rule_in rule.now)) }
{
    match left_refusal(&rule.lhs) {
        Some(error) => Ok(Some(error)),
        None => right_refusal(alloc, rule),
    }
}

/// What the first of the rules that is refused is refused for.
pub(crate) fn rewrite_refusal(
    alloc: Global,
    rules: &[RewriteRule],
) -> Result<Option<RuleError>, NoMemory>
    ensures { IfOk result (λ o. o ≡ first_refusal rule_refusal (map rule_in rules.now)) }
{
    let mut left = rules;
    while let [first, rest @ ..] = left {
        if let Some(error) = rule_refusal(alloc, first)? {
            return Ok(Some(error));
        }
        left = rest;
    }
    Ok(None)
}
