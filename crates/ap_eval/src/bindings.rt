ghost use Rattle.std.specs.Prelude.{◌≡◌, zip};
ghost use Rattle.std.specs.Option.{option_copied};
ghost use Rattle.ap_list.specs.Lists.{lookup_by};
ghost use Rattle.ap_value.specs.Values.{symbol_eq};
ghost use Rattle.ap_eval.specs.Answers.{assigned};

use ap_list::Seq;
use ap_value::{Symbol, Value};

/// An assignment of values to variables, the first pair of a variable counting. One without a pair has
/// `nil`.
#[derive(Debug, Drop)]
pub struct Env(pub Seq<(Symbol, Value)>);

/// What variables are bound to: the pairs of an assignment, or formals beside their arguments.
#[derive(Drop)]
pub(crate) enum Bindings<'a> {
    Given(&'a Env),
    Bound(&'a [Symbol], Seq<Value>),
}

/// A variable's value in a list of pairs.
fn paired<'a>(pairs: &'a [(Symbol, Value)], x: &Symbol) -> Option<&'a Value>
    ensures { option_copied result ≡ lookup_by symbol_eq pairs.now x.now }
{
    for (name, value) in pairs {
        if *x == *name {
            return Some(value);
        }
    }
    None
}

/// A formal's argument.
fn bound<'a>(names: &'a [Symbol], values: &'a [Value], x: &Symbol) -> Option<&'a Value>
    ensures { option_copied result ≡ lookup_by symbol_eq (zip names.now values.now) x.now }
{
    let count = names.len().min(values.len());
    for i in 0..count {
        if *x == names[i] {
            return Some(&values[i]);
        }
    }
    None
}

/// A variable's value, if it has one.
pub(crate) fn value_in<'b>(bindings: &'b Bindings<'_>, x: &Symbol) -> Option<&'b Value>
    ensures { option_copied result ≡ lookup_by symbol_eq (assigned bindings.now) x.now }
{
    match bindings {
        Bindings::Given(env) => paired(env.0.as_slice(), x),
        Bindings::Bound(names, values) => bound(names, values.as_slice(), x),
    }
}
