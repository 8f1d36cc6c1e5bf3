ghost use Rattle.std.specs.Prelude.{◌≡◌, IfOk, IfSome, option_map};
ghost use Rattle.ap_translate.specs.Answers.{Gives};
ghost use Rattle.ap_translate.specs.Laws.{IsConstant};
ghost use Rattle.ap_translate.specs.Sizes.{small_value};
ghost use Rattle.ap_translate.specs.Written.{literal_in, kept_within, written};

use crate::constant::{constant, nil, string};
use crate::fault::{TransError, TransKind, refused_at};
use crate::names::is_constant;
use crate::translator::MOST_NESTED;
use ap_list::NoMemory;
use ap_reader::{Form, FormRef, lend, quoted};
use ap_value::{Value, copy_symbol};
use std::alloc::Global;

/// The value of a form that is a constant by itself, and whether it is one; the value is `None` where it has
/// more than 4,096 nodes.
fn literal(alloc: Global, form: &Form) -> Result<Option<Option<Value>>, NoMemory>
    ensures { IfOk result (λ o. o ≡ option_map small_value (literal_in form.now)) }
{
    match lend(form) {
        FormRef::Int(n) => Ok(Some(Some(Value::Int(n)))),
        FormRef::Chr(code) => Ok(Some(Some(Value::Chr(code)))),
        FormRef::Str(bytes) => Ok(Some(string(alloc, bytes)?)),
        FormRef::Sym(symbol) => {
            if is_constant(symbol) {
                Ok(Some(Some(Value::Sym(copy_symbol(alloc, symbol)?))))
            } else {
                Ok(None)
            }
        }
        FormRef::List(items) => {
            if items.is_empty() {
                Ok(Some(Some(nil(alloc)?)))
            } else {
                Ok(None)
            }
        }
        _ => Ok(None),
    }
}

/// A constant that is kept, or the refusal of one that has too many nodes.
fn within(place: usize, value: Option<Value>) -> Result<Option<Value>, TransError>
    ensures { result ≡ kept_within place value }
{
    match value {
        Some(value) => Ok(Some(value)),
        None => Err(refused_at(place, TransKind::TermTooLarge)),
    }
}

/// The value of a form that is a constant by itself or is quoted.
#[tactic(auto, using(crate::proofs::Writing::writings))]
fn value_of(alloc: Global, form: &Form) -> Result<Option<Value>, TransError>
    ensures { Gives result (written form.now) }
{
    if let Some(inner) = quoted(form) {
        let value = constant(alloc, MOST_NESTED - 1, inner)?;
        return within(form.place, value);
    }
    match literal(alloc, form)? {
        Some(value) => within(form.place, value),
        None => Ok(None),
    }
}

/// The value of a form that is a constant by itself (an integer, a character, a string, a keyword, `t`,
/// `nil`, `()`) or is quoted (`'x`, `(quote x)`): what `defconst` takes. `None` exactly where the form is
/// neither. What stands in the quote is refused as in a term, with its place, and so is a constant of more
/// than 4,096 nodes, as `TermTooLarge`. `NoMemory` where memory is wanting. The form's term is the constant
/// of that value.
pub fn constant_value(alloc: Global, f: &Form) -> Result<Option<Value>, TransError>
    ensures made { Gives result (written f.now) }
    ensures term { IfOk result (λ o. IfSome o (IsConstant f.now)) }
{
    value_of(alloc, f)
}
