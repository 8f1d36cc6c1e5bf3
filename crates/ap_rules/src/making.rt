ghost use Rattle.std.specs.Prelude.{◌≡◌, ◌⊎◌, [], IfOk, IfErr, OnOk, None, Some, map, true};
ghost use Rattle.ap_list.specs.Lists.{Each, is_within};
ghost use Rattle.ap_value.specs.Values.{symbol_eq};
ghost use Rattle.ap_term.specs.declared.term.Term.{out-Term, fold-Term};
ghost use Rattle.ap_term.specs.Terms.{vars_after};
ghost use Rattle.ap_world.specs.Prescribing.{prescribes};
ghost use Rattle.ap_world.specs.Rules.{is_left, rules_from, rules_of_term, rewrites, sound_rules, rules_in_entry, Renames, is_renaming, rename_step};
ghost use Rattle.ap_world.specs.declared.entry.Entry.TheVariants as entry;
ghost use Rattle.ap_rules.specs.Renaming.{as_rule};
ghost use Rattle.ap_rules.specs.Made.{rule_in, part_rule};
ghost use Rattle.ap_rules.specs.Shapes.{is_linear};
ghost use Rattle.ap_rules.specs.Linear.{linear_in_entry};
ghost use Rattle.ap_rules.specs.Refused.{or_else, first_refusal, rule_refusal, asked_rules, linear_refusal, type_refusal, refusal};

use crate::linear::{LinearRule, theorem_linear};
use crate::refusing::{RuleError, rewrite_refusal};
use crate::renaming::{are_renamed, is_bound_by};
use crate::rule::RewriteRule;
use crate::shapes::{are_inequalities, is_type_form};
use crate::statement::{Reading, sides, state};
use ap_list::{NoMemory, Seq};
use ap_term::{Term, copy_terms};
use ap_value::{Symbol, copy_symbol};
use ap_world::{Entry, RuleClass};
use std::alloc::{AllocError, Global};

/// The rules that an entry gives: its rewrite rules and its linear rules.
#[derive(Drop)]
pub(crate) struct EntryRules {
    pub rewrites: Seq<RewriteRule>,
    pub linear: Seq<LinearRule>,
}

impl EntryRules {
    /// No rules. Takes no memory.
    pub(crate) fn none(alloc: Global) -> EntryRules
        ensures rewrites { result.rewrites ≡ [] }
        ensures linear { result.linear ≡ [] }
    {
        EntryRules {
            rewrites: Seq::new(alloc),
            linear: Seq::new(alloc),
        }
    }
}

/// What the order of terms asks of the sides of a rule.
#[derive(Clone, Copy)]
struct Order {
    permutative: bool,
    bound_by_left: bool,
}

/// What it asks of these sides.
fn order_of(alloc: Global, lhs: &Term, rhs: &Term) -> Result<Order, NoMemory>
    ensures permutes { IfOk result (λ o. o.permutative ≡ is_renaming (fold-Term Renames rename_step lhs.now rhs.now [])) }
    ensures binds { IfOk result (λ o. o.bound_by_left ≡ is_within symbol_eq (vars_after rhs.now []) (vars_after lhs.now [])) }
{
    let permutative = are_renamed(alloc, lhs, rhs)?;
    let bound_by_left = is_bound_by(alloc, rhs, lhs)?;
    Ok(Order {
        permutative,
        bound_by_left,
    })
}

/// The rule with these parts.
fn with_order(
    alloc: Global,
    theorem: Symbol,
    part: u32,
    sides: Reading,
    hyps: Seq<Term>,
) -> Result<RewriteRule, NoMemory>
    ensures { IfOk result (λ g. rule_in g ≡ as_rule theorem part sides.iff sides.lhs sides.rhs hyps) }
{
    let order = order_of(alloc, &sides.lhs, &sides.rhs)?;
    Ok(RewriteRule {
        theorem,
        part,
        iff: sides.iff,
        lhs: sides.lhs,
        rhs: sides.rhs,
        hyps,
        permutative: order.permutative,
        bound_by_left: order.bound_by_left,
    })
}

/// The rule of a conjunct.
fn rule_of(
    alloc: Global,
    name: &Symbol,
    hyps: &[Term],
    part: u32,
    t: &Term,
) -> Result<RewriteRule, NoMemory>
    ensures { IfOk result (λ g. rule_in g ≡ part_rule name.now hyps.now part t.now) }
{
    let theorem = copy_symbol(alloc, name)?;
    let hyps = copy_terms(alloc, hyps)?;
    let sides = sides(alloc, t)?;
    with_order(alloc, theorem, part, sides, hyps)
}

/// A number of 32 bits. A theorem with more conjuncts doesn't fit the memory.
pub(crate) fn numbered(place: usize) -> Result<u32, NoMemory>
    ensures { IfOk result (λ n. n ≡ place) }
{
    match u32::try_from(place) {
        Ok(number) => Ok(number),
        Err(_) => Err(AllocError),
    }
}

/// The rules of conjuncts under hypotheses, in their order.
fn rules_from(
    alloc: Global,
    name: &Symbol,
    hyps: &[Term],
    parts: &[Term],
) -> Result<Seq<RewriteRule>, NoMemory>
    ensures { IfOk result (λ gs. map rule_in gs ≡ rules_from name.now hyps.now 0 parts.now) }
{
    let mut out = Seq::new(alloc);
    for (place, t) in parts.iter().enumerate() {
        out.push(rule_of(alloc, name, hyps, numbered(place)?, t)?)?;
    }
    Ok(out)
}

/// The rules that a theorem's term has, in the order of its conjuncts, whether or not they are refused.
pub(crate) fn parts_of(alloc: Global, name: &Symbol, t: &Term) -> Result<Seq<RewriteRule>, NoMemory>
    ensures { IfOk result (λ gs. map rule_in gs ≡ rules_of_term name.now t.now) }
{
    let statement = state(alloc, t)?;
    rules_from(
        alloc,
        name,
        statement.hyps.as_slice(),
        statement.parts.as_slice(),
    )
}

/// Whether the classes have that of rewrite rules.
pub(crate) fn rewrites(classes: &[RuleClass]) -> bool
    ensures { result ≡ rewrites classes.now }
{
    let mut left = classes;
    while let [first, rest @ ..] = left {
        if matches!(first, RuleClass::Rewrite) {
            return true;
        }
        left = rest;
    }
    false
}

/// The rules, or none where one of them is refused.
#[tactic(auto, using(crate::proofs::Refusals::none_refused, crate::proofs::Refusals::one_refused, crate::proofs::Refusals::all_left))]
fn sound_rules(alloc: Global, rules: Seq<RewriteRule>) -> Result<Seq<RewriteRule>, NoMemory>
    ensures made { IfOk result (λ gs. map rule_in gs ≡ sound_rules (map rule_in rules)) }
    ensures left { IfOk result (λ gs. Each (λ g. is_left (out-Term g.lhs) ≡ true) gs) }
{
    match rewrite_refusal(alloc, rules.as_slice())? {
        None => Ok(rules),
        Some(_) => Ok(Seq::new(alloc)),
    }
}

/// The rewrite rules that a theorem asks for, whether or not they are refused.
fn asked_rules(
    alloc: Global,
    name: &Symbol,
    term: &Term,
    classes: &[RuleClass],
) -> Result<Seq<RewriteRule>, NoMemory>
    ensures { IfOk result (λ gs. map rule_in gs ≡ asked_rules name.now term.now classes.now) }
{
    if rewrites(classes) {
        parts_of(alloc, name, term)
    } else {
        Ok(Seq::new(alloc))
    }
}

/// The rewrite rules that a theorem gives.
#[tactic(auto, using(crate::proofs::Refusals::asked_sound))]
fn theorem_rewrites(
    alloc: Global,
    name: &Symbol,
    term: &Term,
    classes: &[RuleClass],
) -> Result<Seq<RewriteRule>, NoMemory>
    ensures made { IfOk result (λ gs. map rule_in gs ≡ rules_in_entry (entry.Theorem (record { name = name.now; term = term.now; classes = classes.now }))) }
    ensures left { IfOk result (λ gs. Each (λ g. is_left (out-Term g.lhs) ≡ true) gs) }
{
    let rules = asked_rules(alloc, name, term, classes)?;
    sound_rules(alloc, rules)
}

/// Whether the classes have that of linear rules.
pub(crate) fn is_linear(classes: &[RuleClass]) -> bool
    ensures { result ≡ is_linear classes.now }
{
    let mut left = classes;
    while let [first, rest @ ..] = left {
        if matches!(first, RuleClass::Linear) {
            return true;
        }
        left = rest;
    }
    false
}

/// Whether the classes have that of type prescriptions.
fn prescribes(classes: &[RuleClass]) -> bool
    ensures { result ≡ prescribes classes.now }
{
    let mut left = classes;
    while let [first, rest @ ..] = left {
        if matches!(first, RuleClass::TypePrescription) {
            return true;
        }
        left = rest;
    }
    false
}

/// What a theorem is refused for as a linear one.
fn linear_refusal(
    alloc: Global,
    term: &Term,
    classes: &[RuleClass],
) -> Result<Option<RuleError>, NoMemory>
    ensures { IfOk result (λ o. o ≡ linear_refusal term.now classes.now) }
{
    if !is_linear(classes) {
        return Ok(None);
    }
    let statement = state(alloc, term)?;
    if are_inequalities(alloc, statement.parts.as_slice())? {
        Ok(None)
    } else {
        Ok(Some(RuleError::NotInequality))
    }
}

/// What a theorem is refused for as a type prescription.
fn type_refusal(term: &Term, classes: &[RuleClass]) -> Option<RuleError>
    ensures { result ≡ type_refusal term.now classes.now }
{
    if !prescribes(classes) || is_type_form(term) {
        None
    } else {
        Some(RuleError::NotTypeForm)
    }
}

/// What a theorem with these rewrite rules is refused for.
fn refusal(
    alloc: Global,
    rules: &[RewriteRule],
    term: &Term,
    classes: &[RuleClass],
) -> Result<Option<RuleError>, NoMemory>
    ensures { IfOk result (λ o. o ≡ or_else (first_refusal rule_refusal (map rule_in rules.now)) (or_else (linear_refusal term.now classes.now) (type_refusal term.now classes.now))) }
{
    if let Some(error) = rewrite_refusal(alloc, rules)? {
        return Ok(Some(error));
    }
    if let Some(error) = linear_refusal(alloc, term, classes)? {
        return Ok(Some(error));
    }
    Ok(type_refusal(term, classes))
}

/// The rules of a theorem of a name, in the order of its conjuncts: those of the class of rewrite rules, where
/// the classes have it. A rule is refused where its left side is a variable, or a constant or an `if`, or where
/// a variable of its right side is neither in its left side nor in a hypothesis; the first conjunct that is
/// refused decides. Then, where the classes have that of linear rules, each conjunct must be an inequality
/// with a trigger: `(< a b)`, its negation or `(equal a b)`, with an atom that is a call with all variables of
/// the conjunct. Then, where they have that of type prescriptions, the theorem must be a recogniser on a call
/// of distinct variables, without hypotheses.
#[tactic(auto, using(crate::proofs::Refusals::asked_made))]
pub fn rules_of(
    alloc: Global,
    name: &Symbol,
    term: &Term,
    classes: &Seq<RuleClass>,
) -> Result<Seq<RewriteRule>, RuleError>
    ensures made { IfOk result (λ gs. map rule_in gs ≡ rules_in_entry (entry.Theorem (record { name = name.now; term = term.now; classes = classes.now }))) }
    ensures ok { OnOk result (refusal name.now term.now classes.now ≡ None) }
    ensures refused { IfErr result (λ e. (e ≡ RuleError.NoMemory) ⊎ (refusal name.now term.now classes.now ≡ Some e)) }
{
    let rules = asked_rules(alloc, name, term, classes.as_slice())?;
    if let Some(error) = refusal(alloc, rules.as_slice(), term, classes.as_slice())? {
        return Err(error);
    }
    Ok(rules)
}

/// The rules that a theorem gives.
pub(crate) fn theorem_rules(
    alloc: Global,
    name: &Symbol,
    term: &Term,
    classes: &[RuleClass],
) -> Result<EntryRules, NoMemory>
    ensures made { IfOk result (λ r. map rule_in r.rewrites ≡ rules_in_entry (entry.Theorem (record { name = name.now; term = term.now; classes = classes.now }))) }
    ensures left { IfOk result (λ r. Each (λ g. is_left (out-Term g.lhs) ≡ true) r.rewrites) }
    ensures linear { IfOk result (λ r. r.linear ≡ linear_in_entry (entry.Theorem (record { name = name.now; term = term.now; classes = classes.now }))) }
{
    let rewrites = theorem_rewrites(alloc, name, term, classes)?;
    let linear = theorem_linear(alloc, name, term, classes)?;
    Ok(EntryRules { rewrites, linear })
}

/// The rules that an entry gives.
pub(crate) fn entry_rules(alloc: Global, entry: &Entry) -> Result<EntryRules, NoMemory>
    ensures made { IfOk result (λ r. map rule_in r.rewrites ≡ rules_in_entry entry.now) }
    ensures left { IfOk result (λ r. Each (λ g. is_left (out-Term g.lhs) ≡ true) r.rewrites) }
    ensures linear { IfOk result (λ r. r.linear ≡ linear_in_entry entry.now) }
{
    match entry {
        Entry::Theorem(theorem) => theorem_rules(
            alloc,
            &theorem.name,
            &theorem.term,
            theorem.classes.as_slice(),
        ),
        Entry::Function(_) => Ok(EntryRules::none(alloc)),
        Entry::Constant(_, _) => Ok(EntryRules::none(alloc)),
    }
}
