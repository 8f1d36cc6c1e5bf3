ghost use Rattle.std.specs.Prelude.{◌≡◌, length, option_map};
ghost use Rattle.ap_translate.specs.Answers.{GivesAs, shaped};
ghost use Rattle.ap_translate.specs.Parts.{symbol_in};
ghost use Rattle.ap_translate.specs.Shapes.{scope_seen, let_in, lambda_in, less_literal};
ghost use Rattle.ap_translate.specs.Plans.{Plan, planned, quote_plan, cond_plan, plain_plan, minus_plan, macro_plan, access_plan, arity_in, call_plan, named_plan, lambda_plan, headed_plan, plan_in};

use crate::build::Maker;
use crate::fault::{TransError, TransKind, refused_at};
use crate::macros::{Macro, fits, macro_of, path_of};
use crate::names::{acl2, primitive_arity};
use crate::parts::{Name, name_in};
use crate::shapes::{Scoped, are_clauses, lambda_parts, less_literal, let_parts};
use ap_list::Bytes;
use ap_reader::Form;
use ap_value::{Symbol, copy_symbol};
use ap_world::{World, primitive_of};
use std::alloc::Global;

/// What a list asks for.
#[derive(Drop)]
pub enum Planned<'a> {
    /// The constant `nil`.
    Empty,
    /// The constant that a form is within a quote.
    Quotation(&'a Form),
    /// What is made of the terms of forms.
    Build(Maker, &'a [Form]),
    /// The clauses of `cond`.
    Arms(&'a [Form]),
    /// A `let`, or where it is true a `let*`.
    Let(Scoped<'a>, bool),
    /// A `lambda` with its actuals.
    Lambda(Scoped<'a>, &'a [Form]),
}

/// `(quote x)`
fn quote_plan(place: usize, rest: &[Form]) -> Result<Planned<'_>, TransError>
    ensures { GivesAs planned result (quote_plan place rest.now) }
{
    match rest {
        [form] => Ok(Planned::Quotation(form)),
        _ => Err(refused_at(place, TransKind::BadForm)),
    }
}

/// `(cond ..)`
fn cond_plan(place: usize, rest: &[Form]) -> Result<Planned<'_>, TransError>
    ensures { GivesAs planned result (cond_plan place rest.now) }
{
    if are_clauses(rest) {
        Ok(Planned::Arms(rest))
    } else {
        Err(refused_at(place, TransKind::BadForm))
    }
}

/// A macro whose arguments are terms.
fn plain_plan(place: usize, found: Macro, rest: &[Form]) -> Result<Planned<'_>, TransError>
    ensures { GivesAs planned result (plain_plan place found rest.now) }
{
    if fits(found, rest.len()) {
        Ok(Planned::Build(Maker::Macro(found), rest))
    } else {
        Err(refused_at(place, TransKind::BadForm))
    }
}

/// `(- a)`, `(- a k)`, `(- a b)`
fn minus_plan(place: usize, rest: &[Form]) -> Result<Planned<'_>, TransError>
    ensures { GivesAs planned result (minus_plan place (less_literal rest.now) rest.now) }
{
    match less_literal(rest) {
        Some((first, n)) => Ok(Planned::Build(Maker::Literal(n), first)),
        None => plain_plan(place, Macro::Minus, rest),
    }
}

/// A macro's form.
fn macro_plan(place: usize, found: Macro, rest: &[Form]) -> Result<Planned<'_>, TransError>
    ensures { GivesAs planned result (macro_plan place found rest.now) }
{
    match found {
        Macro::Quote => quote_plan(place, rest),
        Macro::Cond => cond_plan(place, rest),
        Macro::Let => match let_parts(rest) {
            Some(scope) => Ok(Planned::Let(scope, false)),
            None => Err(refused_at(place, TransKind::BadForm)),
        },
        Macro::LetStar => match let_parts(rest) {
            Some(scope) => Ok(Planned::Let(scope, true)),
            None => Err(refused_at(place, TransKind::BadForm)),
        },
        Macro::Minus => minus_plan(place, rest),
        _ => plain_plan(place, found, rest),
    }
}

/// `(caar x)` and the like.
fn access_plan<'a>(
    alloc: Global,
    place: usize,
    path: &[u8],
    rest: &'a [Form],
) -> Result<Planned<'a>, TransError>
    ensures { GivesAs planned result (access_plan place path.now rest.now) }
{
    if rest.len() == 1 {
        let path = Bytes::from_slice(alloc, path)?;
        Ok(Planned::Build(Maker::Path(path), rest))
    } else {
        Err(refused_at(place, TransKind::BadForm))
    }
}

/// How many arguments a name takes, where it is a function's.
fn arity(world: &World, name: &Symbol) -> Option<usize>
    ensures { result ≡ arity_in world.now.entries name.now }
{
    if let Some(primitive) = primitive_of(name) {
        return Some(primitive_arity(primitive));
    }
    match world.lookup_fun(name) {
        Some(function) => Some(function.formals.len()),
        None => None,
    }
}

/// `(f a ..)`
fn call_plan<'a>(
    alloc: Global,
    world: &World,
    place: usize,
    head: &Symbol,
    rest: &'a [Form],
) -> Result<Planned<'a>, TransError>
    ensures { GivesAs planned result (call_plan place head.now (arity_in world.now.entries head.now) rest.now) }
{
    match arity(world, head) {
        None => Err(refused_at(place, TransKind::UnknownName)),
        Some(count) => {
            if count == rest.len() {
                let head = copy_symbol(alloc, head)?;
                Ok(Planned::Build(Maker::Call(head), rest))
            } else {
                Err(refused_at(place, TransKind::WrongArity))
            }
        }
    }
}

/// A list by the name at its head.
fn named_plan<'a>(
    alloc: Global,
    world: &World,
    place: usize,
    head: &Symbol,
    rest: &'a [Form],
) -> Result<Planned<'a>, TransError>
    ensures { GivesAs planned result (named_plan world.now.entries place head.now rest.now) }
{
    match macro_of(head) {
        Some(found) => macro_plan(place, found, rest),
        None => match path_of(head) {
            Some(path) => access_plan(alloc, place, path, rest),
            None => call_plan(alloc, world, place, head, rest),
        },
    }
}

/// `((lambda (v ..) body) e ..)`
fn lambda_plan<'a>(
    place: usize,
    scope: Option<Scoped<'a>>,
    rest: &'a [Form],
) -> Result<Planned<'a>, TransError>
    ensures { GivesAs planned result (lambda_plan place (option_map scope_seen scope.entry) rest.now) }
{
    match scope {
        None => Err(refused_at(place, TransKind::BadForm)),
        Some(scope) => {
            if scope.heads.len() == rest.len() {
                Ok(Planned::Lambda(scope, rest))
            } else {
                Err(refused_at(place, TransKind::BadForm))
            }
        }
    }
}

/// A list by its head.
#[tactic(auto, unfolding(ap_world::specs::Names::nil_name))]
fn headed_plan<'a>(
    alloc: Global,
    world: &World,
    place: usize,
    head: &'a Form,
    rest: &'a [Form],
) -> Result<Planned<'a>, TransError>
    ensures { GivesAs planned result (headed_plan world.now.entries place (symbol_in head.now) (lambda_in head.now) rest.now) }
{
    match name_in(head) {
        Name::Nil => {
            let nil = acl2(alloc, b"NIL")?;
            named_plan(alloc, world, place, &nil, rest)
        }
        Name::Symbol(symbol) => named_plan(alloc, world, place, symbol, rest),
        Name::Other => lambda_plan(place, lambda_parts(head), rest),
    }
}

/// What a list asks for, or why it is refused before its parts are looked at.
pub(crate) fn plan_in<'a>(
    alloc: Global,
    world: &World,
    place: usize,
    items: &'a [Form],
) -> Result<Planned<'a>, TransError>
    ensures { GivesAs planned result (plan_in world.now.entries place items.now) }
{
    match items {
        [] => Ok(Planned::Empty),
        [head, rest @ ..] => headed_plan(alloc, world, place, head, rest),
    }
}
