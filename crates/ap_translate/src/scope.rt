ghost use Rattle.std.specs.Prelude.{◌≡◌, ◌+◌, ◌∷◌, [], IfOk, OnOk, MatchResult, option_map};
ghost use Rattle.ap_value.specs.declared.value.Value.TheVariants.{Sym};
ghost use Rattle.ap_term.specs.declared.term.Term.TheVariants.{Quote};
ghost use Rattle.ap_world.specs.World.{constant_of};
ghost use Rattle.ap_translate.specs.declared.fault.TransKind.TheVariants.{BadForm};
ghost use Rattle.ap_translate.specs.Answers.{Gives, shaped, error_of};
ghost use Rattle.ap_translate.specs.Parts.{symbol_in, name_seen};
ghost use Rattle.ap_translate.specs.Quoted.{constant_in};
ghost use Rattle.ap_translate.specs.Sizes.{small, capped};
ghost use Rattle.ap_translate.specs.Shapes.{name_of};
ghost use Rattle.ap_translate.specs.Table.{scope_of, variables, with_bound, constant_term, variable_term, symbol_term, variable, quoted_term};

use crate::constant::constant;
use crate::fault::{TransError, TransKind, refused_at};
use crate::names::{acl2, can_be_bound, is_constant, is_starred};
use crate::parts::{Name, name_in};
use crate::sizes::small;
use ap_list::{NoMemory, Seq};
use ap_reader::Form;
use ap_term::{Term, copy_symbols, is_among};
use ap_value::{Symbol, Value, copy, copy_symbol, nodes};
use ap_world::World;
use std::alloc::Global;

/// The variables that are bound; `None`: each variable may stand.
pub struct Bound {
    pub names: Option<Seq<Symbol>>,
}

// One call wherever bound variables are let go, whether or not there is a list of them.
impl Drop for Bound {
    fn drop(self) {
        let Bound { names: _names } = self;
    }
}

/// A copy of the bound variables.
pub(crate) fn copy_bound(alloc: Global, bound: &Bound) -> Result<Bound, NoMemory>
    ensures { IfOk result (λ b. b ≡ bound.now) }
{
    match &bound.names {
        None => Ok(Bound { names: None }),
        Some(names) => Ok(Bound {
            names: Some(copy_symbols(alloc, names.as_slice())?),
        }),
    }
}

/// The bound variables with more behind them.
pub(crate) fn with_bound(alloc: Global, bound: &Bound, more: &[Symbol]) -> Result<Bound, NoMemory>
    ensures { IfOk result (λ b. b.names ≡ with_bound bound.now.names more.now) }
{
    match &bound.names {
        None => Ok(Bound { names: None }),
        Some(names) => {
            let mut all = copy_symbols(alloc, names.as_slice())?;
            all.append(copy_symbols(alloc, more)?)?;
            Ok(Bound { names: Some(all) })
        }
    }
}

/// Puts one more behind the bound variables in a `let*`, and leaves them as they are in a `let`.
pub(crate) fn widen(
    alloc: Global,
    bound: &mut Bound,
    name: &Symbol,
    in_turn: bool,
) -> Result<(), NoMemory>
    ensures { OnOk result (bound.new.names ≡ scope_of in_turn bound.old.names (name.now ∷ [])) }
{
    if !in_turn {
        return Ok(());
    }
    let name = copy_symbol(alloc, name)?;
    match &mut bound.names {
        None => Ok(()),
        Some(names) => names.push(name),
    }
}

/// One nesting less than are left; where none is left the form at the place is bad.
pub(crate) fn nested(left: usize, place: usize) -> Result<usize, TransError>
    ensures { MatchResult result (λ n. left ≡ n + 1) (λ e. (left ≡ 0) × (e ≡ error_of place BadForm)) }
{
    if left == 0 {
        Err(refused_at(place, TransKind::BadForm))
    } else {
        Ok(left - 1)
    }
}

/// The constant as a term.
pub(crate) fn quote(value: Option<Value>) -> Option<Term>
    ensures { result ≡ option_map Quote value }
{
    match value {
        Some(value) => Some(Term::quote(value)),
        None => None,
    }
}

/// A constant of the world as a term, where it has at most 4,096 nodes.
#[tactic(auto, using(crate::proofs::Smalls::smalls))]
fn quote_copy(alloc: Global, value: &Value) -> Result<Option<Term>, NoMemory>
    ensures { IfOk result (λ o. o ≡ small (Quote value.now)) }
{
    match nodes(value) {
        Some(count) if count <= 4096 => Ok(Some(Term::quote(copy(alloc, value)?))),
        _ => Ok(None),
    }
}

/// The constant of a name between asterisks, where it has at most 4,096 nodes.
fn constant_term(
    alloc: Global,
    world: &World,
    place: usize,
    symbol: &Symbol,
) -> Result<Option<Term>, TransError>
    ensures { Gives result (capped small (constant_term place (constant_of world.now.entries symbol.now))) }
{
    match world.lookup_const(symbol) {
        Some(value) => Ok(quote_copy(alloc, value)?),
        None => Err(refused_at(place, TransKind::UnknownName)),
    }
}

/// A variable, where it is bound.
#[tactic(auto, using(crate::proofs::Smalls::smalls))]
fn variable_term(
    alloc: Global,
    place: usize,
    bound: &Bound,
    symbol: &Symbol,
) -> Result<Option<Term>, TransError>
    ensures { Gives result (capped small (variable_term place bound.now.names symbol.now)) }
{
    match &bound.names {
        None => Ok(Some(Term::var(copy_symbol(alloc, symbol)?))),
        Some(names) => {
            if is_among(symbol, names.as_slice()) {
                Ok(Some(Term::var(copy_symbol(alloc, symbol)?)))
            } else {
                Err(refused_at(place, TransKind::UnknownName))
            }
        }
    }
}

/// The term that a symbol is.
#[tactic(auto, using(crate::proofs::Smalls::smalls))]
pub(crate) fn symbol_term(
    alloc: Global,
    world: &World,
    place: usize,
    bound: &Bound,
    symbol: &Symbol,
) -> Result<Option<Term>, TransError>
    ensures { Gives result (capped small (symbol_term world.now.entries place bound.now.names symbol.now)) }
{
    if is_constant(symbol) {
        Ok(Some(Term::quote(Value::Sym(copy_symbol(alloc, symbol)?))))
    } else if is_starred(symbol.name.as_slice()) {
        constant_term(alloc, world, place, symbol)
    } else {
        variable_term(alloc, place, bound, symbol)
    }
}

/// A variable in its place, after others.
pub(crate) fn variable(
    place: usize,
    before: &[Symbol],
    symbol: Symbol,
) -> Result<Symbol, TransError>
    ensures { Gives result (variable place before.now symbol) }
{
    if can_be_bound(&symbol, before) {
        Ok(symbol)
    } else {
        Err(refused_at(place, TransKind::NotAVariable))
    }
}

/// The name of a binding, as a symbol of its own.
#[tactic(auto, unfolding(ap_world::specs::Names::nil_name))]
pub(crate) fn bound_name(alloc: Global, name: Option<&Symbol>) -> Result<Symbol, NoMemory>
    ensures { IfOk result (λ s. s ≡ name_of (option_map (λ x. x.now) name.entry)) }
{
    match name {
        None => acl2(alloc, b"NIL"),
        Some(symbol) => copy_symbol(alloc, symbol),
    }
}

/// The name that a form is, as a symbol of its own.
#[tactic(auto, unfolding(ap_world::specs::Names::nil_name))]
fn named(alloc: Global, name: Name<'_>) -> Result<Option<Symbol>, NoMemory>
    ensures { IfOk result (λ o. o ≡ name_seen name.entry) }
{
    match name {
        Name::Nil => Ok(Some(acl2(alloc, b"NIL")?)),
        Name::Symbol(symbol) => Ok(Some(copy_symbol(alloc, symbol)?)),
        Name::Other => Ok(None),
    }
}

/// The variable of a `lambda` that a form is, after others.
fn variable_in(
    alloc: Global,
    place: usize,
    before: &[Symbol],
    form: &Form,
) -> Result<Symbol, TransError>
    ensures { Gives result (shaped place (symbol_in form.now) (variable form.now.place before.now)) }
{
    match named(alloc, name_in(form))? {
        Some(symbol) => variable(form.place, before, symbol),
        None => Err(refused_at(place, TransKind::BadForm)),
    }
}

/// The variables of a `lambda`.
pub(crate) fn variables(
    alloc: Global,
    place: usize,
    forms: &[Form],
) -> Result<Seq<Symbol>, TransError>
    ensures { Gives result (variables place [] forms.now) }
{
    let mut out = Seq::new(alloc);
    for form in forms {
        let symbol = variable_in(alloc, place, out.as_slice(), form)?;
        out.push(symbol)?;
    }
    Ok(out)
}

/// Variables, and what is kept of their terms.
#[derive(Drop)]
pub(crate) struct Bindings {
    pub(crate) names: Seq<Symbol>,
    pub(crate) terms: Seq<Option<Term>>,
}

/// `'x`, where so many more may be nested in `x`.
#[tactic(auto, using(crate::proofs::Smalls::quotes))]
pub(crate) fn quoted(alloc: Global, left: usize, inner: &Form) -> Result<Option<Term>, TransError>
    ensures { Gives result (capped small (quoted_term (constant_in left inner.now))) }
{
    let value = constant(alloc, left, inner)?;
    Ok(quote(value))
}
