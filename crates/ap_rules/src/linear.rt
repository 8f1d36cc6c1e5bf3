ghost use Rattle.std.specs.Prelude.{◌≡◌, [], ◌∷◌, ◌++◌, cond, Some, IfOk, OnOk};
ghost use Rattle.ap_world.specs.declared.entry.Entry.TheVariants as entry;
ghost use Rattle.ap_rules.specs.Shapes.{signed, trigger_of, all_inequalities};
ghost use Rattle.ap_rules.specs.Linear.{linear_part, linear_from, linear_in_entry};

use crate::making::{is_linear, numbered};
use crate::shapes::{are_inequalities, trigger_of};
use crate::statement::{Statement, state};
use ap_list::{NoMemory, Seq};
use ap_term::{Shape, Term, copy_term, copy_terms};
use ap_value::{Symbol, copy_symbol};
use ap_world::{RuleClass, is_not};
use std::alloc::Global;

/// A part of a theorem as a linear rule: under the hypotheses the conclusion isn't `nil` where `sign` is true, and
/// is `nil` where it is false. It is tried on atoms that are instances of the trigger, a call in which each
/// variable of the conjunct is. `part` is the number of the conjunct of the theorem's conclusion, from 0.
#[derive(Debug, Drop)]
pub struct LinearRule {
    pub theorem: Symbol,
    pub part: u32,
    pub trigger: Term,
    pub concl: Term,
    pub sign: bool,
    pub hyps: Seq<Term>,
}

/// A conjunct as a literal: of `(not a)` that `a` is `nil`.
#[tactic(auto, using(ap_term::proofs::Seen::trees))]
fn signed(alloc: Global, t: &Term) -> Result<(Term, bool), NoMemory>
    ensures { IfOk result (λ s. s ≡ signed t.now) }
{
    match &t.shape {
        Shape::Call(f, ts) => match (is_not(f), ts.as_slice()) {
            (true, [a]) => Ok((copy_term(alloc, a)?, false)),
            _ => Ok((copy_term(alloc, t)?, true)),
        },
        Shape::Var(_) => Ok((copy_term(alloc, t)?, true)),
        Shape::Quote(_) => Ok((copy_term(alloc, t)?, true)),
    }
}

/// The rule of a conjunct with a trigger.
fn rule_of(
    alloc: Global,
    name: &Symbol,
    hyps: &[Term],
    part: u32,
    t: &Term,
    trigger: Term,
) -> Result<LinearRule, NoMemory>
    ensures { IfOk result (λ g. g ∷ [] ≡ linear_part name.now hyps.now part t.now (Some trigger)) }
{
    let (concl, sign) = signed(alloc, t)?;
    let theorem = copy_symbol(alloc, name)?;
    let hyps = copy_terms(alloc, hyps)?;
    Ok(LinearRule {
        theorem,
        part,
        trigger,
        concl,
        sign,
        hyps,
    })
}

/// Adds the rule of a conjunct, where it has a trigger.
fn push_part(
    alloc: Global,
    out: &mut Seq<LinearRule>,
    name: &Symbol,
    hyps: &[Term],
    part: u32,
    t: &Term,
) -> Result<(), NoMemory>
    ensures { OnOk result (out.new ≡ out.old ++ linear_part name.now hyps.now part t.now (trigger_of t.now)) }
{
    match trigger_of(alloc, t)? {
        Some(trigger) => out.push(rule_of(alloc, name, hyps, part, t, trigger)?),
        None => Ok(()),
    }
}

/// The rules of conjuncts under hypotheses, in their order.
fn linear_from(
    alloc: Global,
    name: &Symbol,
    hyps: &[Term],
    parts: &[Term],
) -> Result<Seq<LinearRule>, NoMemory>
    ensures { IfOk result (λ gs. gs ≡ linear_from name.now hyps.now 0 parts.now) }
{
    let mut out = Seq::new(alloc);
    for (place, t) in parts.iter().enumerate() {
        push_part(alloc, &mut out, name, hyps, numbered(place)?, t)?;
    }
    Ok(out)
}

/// The rules of a theorem's conjuncts, or none where one isn't an inequality with a trigger.
fn linear_of(
    alloc: Global,
    name: &Symbol,
    statement: &Statement,
) -> Result<Seq<LinearRule>, NoMemory>
    ensures { IfOk result (λ gs. gs ≡ cond (all_inequalities statement.now.parts) (linear_from name.now statement.now.hyps 0 statement.now.parts) []) }
{
    if are_inequalities(alloc, statement.parts.as_slice())? {
        linear_from(
            alloc,
            name,
            statement.hyps.as_slice(),
            statement.parts.as_slice(),
        )
    } else {
        Ok(Seq::new(alloc))
    }
}

/// The linear rules that a theorem gives.
pub(crate) fn theorem_linear(
    alloc: Global,
    name: &Symbol,
    term: &Term,
    classes: &[RuleClass],
) -> Result<Seq<LinearRule>, NoMemory>
    ensures made { IfOk result (λ gs. gs ≡ linear_in_entry (entry.Theorem (record { name = name.now; term = term.now; classes = classes.now }))) }
{
    if !is_linear(classes) {
        return Ok(Seq::new(alloc));
    }
    let statement = state(alloc, term)?;
    linear_of(alloc, name, &statement)
}
