//! Why an event is refused, and how that is printed.
ghost use Rattle.std.specs.Prelude.{◌≡◌, ◌++◌, IfOk, codes, decimal};
ghost use Rattle.ap_translate.specs.Answers.{Answer as Translation, Gives};
ghost use Rattle.ap_stated.specs.Refusals.{kind_text, translation_text, rule_text, hint_text, termination_text, reason_text, failure_text, refusal_text, as_translated};

use ap_hints::HintError;
use ap_list::{Bytes, NoMemory};
use ap_rules::RuleError;
use ap_terminate::TerminateError;
use ap_translate::{TransError, TransKind};
use ap_walk::Reason;
use itoa::Buffer;
use std::alloc::{AllocError, Global};

/// Why an event is refused.
#[derive(Clone, Copy, Debug)]
pub enum Refusal {
    /// The event isn't built.
    NotSupported,
    /// The form isn't of the shape of its head.
    BadEvent,
    /// The name is taken.
    NameTaken,
    /// A form is no term.
    Translation(TransKind),
    /// The theorem gives no rules of its classes.
    Rule(RuleError),
    /// The hints are none.
    Hint(HintError),
    /// The function has no measure.
    Termination(TerminateError),
    /// An attempt failed.
    Attempt(Reason),
    /// No earlier book of the session has this name.
    NoSuchBook,
    /// Guards are to be verified, which isn't built.
    GuardsAsked,
}

/// What translation answers, with a fault as a refusal. The only error is want of memory.
pub(crate) fn as_translated<T>(
    answer: Result<T, TransError>,
) -> Result<Result<T, Refusal>, NoMemory>
    ensures made { (a : Translation T) → Gives answer a → IfOk result (λ r. r ≡ as_translated a) }
    ensures same { IfOk result (λ r. IfOk r (λ value. answer ≡ Ok value)) }
{
    match answer {
        Ok(value) => Ok(Ok(value)),
        Err(TransError::NoMemory) => Err(AllocError),
        Err(TransError::Fault { kind, .. }) => Ok(Err(Refusal::Translation(kind))),
    }
}

/// A number and a word behind it, after what stands before the number.
fn numbered(alloc: Global, before: &[u8], number: u32, word: &[u8]) -> Result<Bytes, NoMemory>
    ensures { IfOk result (λ text. text ≡ before.now ++ decimal number ++ codes " " ++ word.now) }
{
    let mut buffer = Buffer::new();
    let mut text = Bytes::from_slice(alloc, before)?;
    text.extend(buffer.format(number).as_bytes())?;
    text.extend(b" ")?;
    text.extend(word)?;
    Ok(text)
}

/// The word of a form that is no term.
#[tactic(auto, unfolding(crate::specs::Refusals::kind_text))]
fn kind_text(kind: TransKind) -> &'static [u8]
    ensures { result.now ≡ kind_text kind }
{
    match kind {
        TransKind::UnknownName => b"UnknownName",
        TransKind::WrongArity => b"WrongArity",
        TransKind::BadForm => b"BadForm",
        TransKind::DottedForm => b"DottedForm",
        TransKind::TermTooLarge => b"TermTooLarge",
        TransKind::NotAVariable => b"NotAVariable",
        TransKind::CommaOutside => b"CommaOutside",
    }
}

/// Why a theorem gives no rules of its classes; nothing where memory is wanting.
#[tactic(auto, unfolding(crate::specs::Refusals::rule_text))]
fn rule_text(error: RuleError) -> &'static [u8]
    ensures { result.now ≡ rule_text error }
{
    match error {
        RuleError::LhsVariable => b"5.1 LhsVariable",
        RuleError::LhsConstant => b"5.2 LhsConstant",
        RuleError::FreeInRhs => b"5.3 FreeInRhs",
        RuleError::NotInequality => b"5.4 NotInequality",
        RuleError::NotTypeForm => b"5.5 NotTypeForm",
        RuleError::NoMemory => b"",
    }
}

/// Why hints are refused; nothing where memory is wanting.
#[tactic(auto, unfolding(crate::specs::Refusals::hint_text))]
fn hint_text(error: HintError) -> &'static [u8]
    ensures { result.now ≡ hint_text error }
{
    match error {
        HintError::BadGoalName => b"6.1 BadGoalName",
        HintError::UnknownKeyword => b"6.2 UnknownKeyword",
        HintError::UnknownRune => b"6.3 UnknownRune",
        HintError::BadInstance => b"6.4 BadInstance",
        HintError::Repeated => b"6.5 Repeated",
        HintError::NoMemory => b"",
    }
}

/// Why a function that calls itself has no measure; nothing where memory is wanting.
#[tactic(auto, unfolding(crate::specs::Refusals::termination_text))]
fn termination_text(error: TerminateError) -> &'static [u8]
    ensures { result.now ≡ termination_text error }
{
    match error {
        TerminateError::NoMeasure => b"7.1 NoMeasure",
        TerminateError::NestedRecursion => b"7.2 NestedRecursion",
        TerminateError::BadMeasure => b"7.3 BadMeasure",
        TerminateError::NoMemory => b"",
    }
}

/// The word of a reason to fail.
#[tactic(auto, unfolding(crate::specs::Refusals::reason_text))]
fn reason_text(reason: Reason) -> &'static [u8]
    ensures { result.now ≡ reason_text reason }
{
    match reason {
        Reason::NoScheme => b"NoScheme",
        Reason::EmptyClause => b"EmptyClause",
        Reason::GoalLimit => b"GoalLimit",
        Reason::PathDepth => b"PathDepth",
        Reason::InductionDepth => b"InductionDepth",
        Reason::DoNotInduct => b"DoNotInduct",
    }
}

/// A form that is no term, by its number and word.
#[tactic(auto, unfolding(crate::specs::Refusals::translation_text))]
fn translation_text(alloc: Global, kind: TransKind) -> Result<Bytes, NoMemory>
    ensures { IfOk result (λ text. text ≡ translation_text kind) }
{
    numbered(alloc, b"4.", kind.number(), kind_text(kind))
}

/// A failed attempt, by its number and word.
#[tactic(auto, unfolding(crate::specs::Refusals::failure_text))]
fn failure_text(alloc: Global, reason: Reason) -> Result<Bytes, NoMemory>
    ensures { IfOk result (λ text. text ≡ failure_text reason) }
{
    numbered(alloc, b"8.", reason.number(), reason_text(reason))
}

/// A refusal as it is printed: its number and its word, as `4.1 UnknownName`.
#[tactic(auto, unfolding(crate::specs::Refusals::refusal_text))]
pub(crate) fn refusal_text(alloc: Global, refusal: Refusal) -> Result<Bytes, NoMemory>
    ensures { IfOk result (λ text. text ≡ refusal_text refusal) }
{
    match refusal {
        Refusal::NotSupported => Bytes::from_slice(alloc, b"1 NotSupported"),
        Refusal::BadEvent => Bytes::from_slice(alloc, b"2 BadEvent"),
        Refusal::NameTaken => Bytes::from_slice(alloc, b"3 NameTaken"),
        Refusal::Translation(kind) => translation_text(alloc, kind),
        Refusal::Rule(error) => Bytes::from_slice(alloc, rule_text(error)),
        Refusal::Hint(error) => Bytes::from_slice(alloc, hint_text(error)),
        Refusal::Termination(error) => Bytes::from_slice(alloc, termination_text(error)),
        Refusal::Attempt(reason) => failure_text(alloc, reason),
        Refusal::NoSuchBook => Bytes::from_slice(alloc, b"9 NoSuchBook"),
        Refusal::GuardsAsked => Bytes::from_slice(alloc, b"11 GuardsAsked"),
    }
}
