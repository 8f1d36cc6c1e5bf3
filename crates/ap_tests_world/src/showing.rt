//! Rules as text.

use ap_list::{Bytes, NoMemory, Seq};
use ap_rules::{RewriteRule, RuleError};
use ap_term::Term;
use ap_tests_terms::put_term;
use ap_world::RuleClass;
use std::alloc::Global;

/// The classes whose initials a text has: `r`, `l`, `t` and `e`.
pub(crate) fn classes(alloc: Global, text: &str) -> Result<Seq<RuleClass>, NoMemory> {
    let mut out = Seq::new(alloc);
    for initial in text.bytes() {
        match initial {
            b'r' => out.push(RuleClass::Rewrite)?,
            b'l' => out.push(RuleClass::Linear)?,
            b't' => out.push(RuleClass::TypePrescription)?,
            b'e' => out.push(RuleClass::Elim)?,
            _ => {}
        }
    }
    Ok(out)
}

/// Writes hypotheses.
pub(crate) fn put_hyps(alloc: Global, out: &mut Bytes, hyps: &[Term]) -> Result<(), NoMemory> {
    for hyp in hyps {
        out.extend(b" if ")?;
        put_term(alloc, out, hyp)?;
    }
    Ok(())
}

/// Writes a rule's theorem's name and its number.
fn put_place(alloc: Global, out: &mut Bytes, rule: &RewriteRule) -> Result<(), NoMemory> {
    out.extend(rule.theorem.name.as_slice())?;
    let number = format!(in alloc; " {} ", rule.part)?;
    out.extend(number.as_bytes())
}

/// Writes a rule: its theorem's name and its number, its sides with `=` or `~` between, and its hypotheses.
fn put_rule(alloc: Global, out: &mut Bytes, rule: &RewriteRule) -> Result<(), NoMemory> {
    put_place(alloc, out, rule)?;
    put_term(alloc, out, &rule.lhs)?;
    out.extend(if rule.iff { b" ~ " } else { b" = " })?;
    put_term(alloc, out, &rule.rhs)?;
    put_hyps(alloc, out, rule.hyps.as_slice())
}

/// The rules as text, with a `;` between.
pub(crate) fn shown(alloc: Global, rules: &[RewriteRule]) -> Result<Bytes, NoMemory> {
    let mut out = Bytes::new(alloc);
    for rule in rules {
        if !out.is_empty() {
            out.extend(b"; ")?;
        }
        put_rule(alloc, &mut out, rule)?;
    }
    Ok(out)
}

/// The word of a refusal.
pub(crate) fn word(error: RuleError) -> &'static str {
    match error {
        RuleError::LhsVariable => "LhsVariable",
        RuleError::LhsConstant => "LhsConstant",
        RuleError::FreeInRhs => "FreeInRhs",
        RuleError::NotInequality => "NotInequality",
        RuleError::NotTypeForm => "NotTypeForm",
        RuleError::NoMemory => "NoMemory",
    }
}
