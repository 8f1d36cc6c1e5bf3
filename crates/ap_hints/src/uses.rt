//! The theorems that a hint uses, and what replaces their variables.
ghost use Rattle.std.specs.Prelude.{◌≡◌, [], ◌∷◌, ◌++◌, Ok, IfOk, map, option_map};
ghost use Rattle.ap_list.specs.Lists.{is_among};
ghost use Rattle.ap_value.specs.Values.{symbol_eq};
ghost use Rattle.ap_reader.specs.Tops.{items_in};
ghost use Rattle.ap_hints.specs.Answers.{Gives, each};
ghost use Rattle.ap_hints.specs.Hinted.{variable_of, may_replace, replaced, pair_in, pairs_in, used, instance_of, instance_by, use_in, alone, is_instance, uses_in};

use crate::fault::HintError;
use crate::terms::term;
use ap_list::{NoMemory, Seq};
use ap_reader::{Form, is_keyword, items, symbol};
use ap_term::{Subst, Term, is_among, is_symbol, vars};
use ap_value::{Symbol, copy_symbol};
use ap_world::World;
use std::alloc::Global;

/// Whether a variable is replaced.
fn is_replaced(variable: &Symbol, pairs: &[(Symbol, Term)]) -> bool
    ensures { result ≡ is_among symbol_eq variable.now (map variable_of pairs.now) }
{
    for pair in pairs {
        if is_symbol(variable, &pair.0) {
            return true;
        }
    }
    false
}

/// Whether a variable is one of the theorem's, and isn't replaced so far.
fn may_replace(variables: &[Symbol], pairs: &[(Symbol, Term)], variable: &Symbol) -> bool
    ensures { result ≡ may_replace variables.now pairs.now variable.now }
{
    if is_replaced(variable, pairs) {
        false
    } else {
        is_among(variable, variables)
    }
}

/// Adds a variable and what replaces it.
fn with_pair(
    alloc: Global,
    mut pairs: Seq<(Symbol, Term)>,
    variable: &Symbol,
    by: Term,
) -> Result<Seq<(Symbol, Term)>, NoMemory>
    ensures { IfOk result (λ s. s ≡ pairs ++ (variable.now, by) ∷ []) }
{
    let variable = copy_symbol(alloc, variable)?;
    pairs.push((variable, by))?;
    Ok(pairs)
}

/// Adds a variable that may be replaced, and the term that a form is.
fn replaced(
    alloc: Global,
    w: &World,
    variables: &[Symbol],
    pairs: Seq<(Symbol, Term)>,
    variable: &Symbol,
    form: &Form,
) -> Result<Seq<(Symbol, Term)>, HintError>
    ensures { Gives result (replaced w.now.entries variables.now pairs variable.now form.now) }
{
    if !may_replace(variables, pairs.as_slice(), variable) {
        return Err(HintError::BadInstance);
    }
    let by = term(alloc, w, form)?;
    let pairs = with_pair(alloc, pairs, variable, by)?;
    Ok(pairs)
}

/// Adds what `(variable term)` replaces.
fn with_pair_in(
    alloc: Global,
    w: &World,
    variables: &[Symbol],
    pairs: Seq<(Symbol, Term)>,
    form: &Form,
) -> Result<Seq<(Symbol, Term)>, HintError>
    ensures { Gives result (pair_in w.now.entries variables.now pairs (items_in form.now)) }
{
    match items(form) {
        Some([variable, by]) => match symbol(variable) {
            Some(variable) => replaced(alloc, w, variables, pairs, variable, by),
            None => Err(HintError::UnknownKeyword),
        },
        _ => Err(HintError::UnknownKeyword),
    }
}

/// What replaces a theorem's variables.
fn pairs(
    alloc: Global,
    w: &World,
    variables: &[Symbol],
    forms: &[Form],
) -> Result<Seq<(Symbol, Term)>, HintError>
    ensures { Gives result (pairs_in w.now.entries variables.now [] forms.now) }
{
    let mut pairs = Seq::new(alloc);
    for form in forms {
        pairs = with_pair_in(alloc, w, variables, pairs, form)?;
    }
    Ok(pairs)
}

/// A theorem by its name, with what replaces its variables.
fn used(
    alloc: Global,
    name: &Symbol,
    pairs: Seq<(Symbol, Term)>,
) -> Result<(Symbol, Subst), NoMemory>
    ensures { IfOk result (λ u. u ≡ used name.now pairs) }
{
    let name = copy_symbol(alloc, name)?;
    Ok((name, Subst(pairs)))
}

/// A theorem that is used, and what replaces the variables that are given.
#[tactic(auto, unfolding(crate::specs::Hinted::instance_of))]
fn instance(
    alloc: Global,
    w: &World,
    name: &Symbol,
    forms: &[Form],
) -> Result<(Symbol, Subst), HintError>
    ensures { Gives result (instance_of w.now.entries name.now forms.now) }
{
    let Some(theorem) = w.lookup_thm(name) else {
        return Err(HintError::BadInstance);
    };
    let variables = vars(alloc, &theorem.term)?;
    let pairs = pairs(alloc, w, variables.as_slice(), forms)?;
    let used = used(alloc, name, pairs)?;
    Ok(used)
}

/// What `(:instance name (variable term) ..)` uses.
fn instance_by(alloc: Global, w: &World, form: &Form) -> Result<(Symbol, Subst), HintError>
    ensures { Gives result (instance_by w.now.entries (items_in form.now)) }
{
    match items(form) {
        Some([key, name, rest @ ..]) if is_keyword(key, b"INSTANCE") => match symbol(name) {
            Some(name) => instance(alloc, w, name, rest),
            None => Err(HintError::UnknownKeyword),
        },
        _ => Err(HintError::UnknownKeyword),
    }
}

/// What a theorem's name or an instance uses.
#[tactic(auto, unfolding(crate::specs::Hinted::use_in))]
fn use_in(alloc: Global, w: &World, form: &Form) -> Result<(Symbol, Subst), HintError>
    ensures { Gives result (use_in w.now.entries form.now) }
{
    match symbol(form) {
        Some(name) => instance(alloc, w, name, &[]),
        None => instance_by(alloc, w, form),
    }
}

/// What names and instances use.
fn all_uses(alloc: Global, w: &World, forms: &[Form]) -> Result<Seq<(Symbol, Subst)>, HintError>
    ensures { Gives result (each (use_in w.now.entries) forms.now) }
{
    let mut uses = Seq::new(alloc);
    for form in forms {
        uses.push(use_in(alloc, w, form)?)?;
    }
    Ok(uses)
}

/// What a name or an instance uses, alone in a list.
fn alone(alloc: Global, w: &World, form: &Form) -> Result<Seq<(Symbol, Subst)>, HintError>
    ensures { Gives result (alone w.now.entries form.now) }
{
    let used = use_in(alloc, w, form)?;
    let mut uses = Seq::new(alloc);
    uses.push(used)?;
    Ok(uses)
}

/// Whether a list is one instance, and not a list of names and instances.
fn is_instance(forms: &[Form]) -> bool
    ensures { result ≡ is_instance forms.now }
{
    match forms {
        [first, ..] => is_keyword(first, b"INSTANCE"),
        [] => false,
    }
}

/// What `:use` has: a list of names and instances, or one alone.
#[tactic(auto, unfolding(crate::specs::Hinted::uses_in))]
pub(crate) fn uses(alloc: Global, w: &World, form: &Form) -> Result<Seq<(Symbol, Subst)>, HintError>
    ensures { Gives result (uses_in w.now.entries form.now) }
{
    match items(form) {
        Some(forms) => {
            if is_instance(forms) {
                alone(alloc, w, form)
            } else {
                all_uses(alloc, w, forms)
            }
        }
        None => alone(alloc, w, form),
    }
}
