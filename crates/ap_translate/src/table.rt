ghost use Rattle.std.specs.Prelude.{◌≡◌, [], length};
ghost use Rattle.ap_translate.specs.Answers.{Gives, each};
ghost use Rattle.ap_translate.specs.Sizes.{small, few, capped};
ghost use Rattle.ap_translate.specs.Shapes.{arm_seen, scope_seen};
ghost use Rattle.ap_translate.specs.Plans.{planned};
ghost use Rattle.ap_translate.specs.Kept.{small_piece, few_pieces, clause_kept, kept_bindings, each_small, Admitted};
ghost use Rattle.ap_translate.specs.Table.{bindings, scope_of, let_term, lambda_term, arms_term, plan_term, level, term_in, part_in, piece_in};

use crate::arms::{Arm, add_arm, alone, arms_built, no_arms, pair};
use crate::build::{
    Piece, add_piece, as_piece, made_of, nil_term, no_pieces, pieced_of, pieces_of, quoted_of,
};
use crate::constant::string;
use crate::fault::{TransError, TransKind, refused_at};
use crate::instance::body_replaced;
use crate::plans::{Planned, plan_in};
use crate::scope::{
    Bindings, Bound, bound_name, copy_bound, nested, quote, quoted, symbol_term, variable,
    variables, widen, with_bound,
};
use crate::shapes::{Clause, Scoped, binding_in, clause_in, last_in};
use crate::sizes::{add_term, no_terms, terms_of};
use ap_list::{NoMemory, Seq};
use ap_reader::{Form, FormRef, lend};
use ap_term::Term;
use ap_value::{Value, copy_symbol};
use ap_world::World;
use std::alloc::Global;

/// The term that a form is. So many more lists and marks may be nested in it.
#[cycle(translating)]
pub(crate) fn term(
    alloc: Global,
    world: &World,
    left: usize,
    bound: &Bound,
    form: &Form,
) -> Result<Option<Term>, TransError>
    ensures { Gives result (capped small (term_in world.now.entries left bound.now.names form.now)) }
{
    let place = form.place;
    match lend(form) {
        FormRef::Int(n) => Ok(Some(Term::quote(Value::Int(n)))),
        FormRef::Chr(code) => Ok(Some(Term::quote(Value::Chr(code)))),
        FormRef::Str(bytes) => Ok(quote(string(alloc, bytes)?)),
        FormRef::Sym(symbol) => symbol_term(alloc, world, place, bound, symbol),
        FormRef::List(items) => {
            let left = nested(left, place)?;
            let asked = plan_in(alloc, world, place, items)?;
            plan_term(alloc, world, left, bound, place, asked)
        }
        FormRef::Dotted(_, _) => Err(refused_at(place, TransKind::DottedForm)),
        FormRef::Quoted(inner) => {
            let left = nested(left, place)?;
            quoted(alloc, left, inner)
        }
        FormRef::Quasi(inner) => {
            let left = nested(left, place)?;
            part(alloc, world, left, bound, inner)
        }
        FormRef::Comma(_) => Err(refused_at(place, TransKind::CommaOutside)),
        FormRef::CommaAt(_) => Err(refused_at(place, TransKind::CommaOutside)),
    }
}

/// What a form is in a backquote.
#[cycle(translating)]
fn part(
    alloc: Global,
    world: &World,
    left: usize,
    bound: &Bound,
    form: &Form,
) -> Result<Option<Term>, TransError>
    ensures { Gives result (capped small (part_in world.now.entries left bound.now.names form.now)) }
{
    let place = form.place;
    match lend(form) {
        FormRef::Int(n) => Ok(Some(Term::quote(Value::Int(n)))),
        FormRef::Chr(code) => Ok(Some(Term::quote(Value::Chr(code)))),
        FormRef::Str(bytes) => Ok(quote(string(alloc, bytes)?)),
        FormRef::Sym(symbol) => Ok(Some(Term::quote(Value::Sym(copy_symbol(alloc, symbol)?)))),
        FormRef::List(items) => {
            let left = nested(left, place)?;
            let pieces = pieces(alloc, world, left, bound, items)?;
            let found = pieced_of(alloc, pieces)?;
            Ok(found)
        }
        FormRef::Dotted(_, _) => Err(refused_at(place, TransKind::DottedForm)),
        FormRef::Quoted(inner) => {
            let left = nested(left, place)?;
            let piece = piece(alloc, world, left, bound, inner)?;
            let found = quoted_of(alloc, piece)?;
            Ok(found)
        }
        FormRef::Quasi(_) => Err(refused_at(place, TransKind::BadForm)),
        FormRef::Comma(inner) => {
            let left = nested(left, place)?;
            term(alloc, world, left, bound, inner)
        }
        FormRef::CommaAt(_) => Err(refused_at(place, TransKind::BadForm)),
    }
}

/// What a form is in a backquoted list.
#[cycle(translating)]
fn piece(
    alloc: Global,
    world: &World,
    left: usize,
    bound: &Bound,
    form: &Form,
) -> Result<Option<Piece>, TransError>
    ensures { Gives result (capped small_piece (piece_in world.now.entries left bound.now.names form.now)) }
{
    match lend(form) {
        FormRef::CommaAt(inner) => {
            let left = nested(left, form.place)?;
            let found = term(alloc, world, left, bound, inner)?;
            Ok(as_piece(true, found))
        }
        _ => {
            let found = part(alloc, world, left, bound, form)?;
            Ok(as_piece(false, found))
        }
    }
}

/// What the forms of a backquoted list are.
#[cycle(translating)]
fn pieces(
    alloc: Global,
    world: &World,
    left: usize,
    bound: &Bound,
    items: &[Form],
) -> Result<Option<Seq<Piece>>, TransError>
    ensures { Gives result (capped few_pieces (each (piece_in world.now.entries left bound.now.names) items.now)) }
{
    let mut out = Some(no_pieces(alloc));
    for item in items {
        let next = piece(alloc, world, left, bound, item)?;
        out = add_piece(out, next)?;
    }
    Ok(pieces_of(out))
}

/// The term that a list asks for.
#[cycle(translating)]
fn plan_term(
    alloc: Global,
    world: &World,
    left: usize,
    bound: &Bound,
    place: usize,
    asked: Planned<'_>,
) -> Result<Option<Term>, TransError>
    requires { Admitted (planned asked) }
    ensures { Gives result (capped small (plan_term (level world.now.entries left) bound.now.names place (planned asked.entry))) }
{
    match asked {
        Planned::Empty => Ok(Some(nil_term(alloc)?)),
        Planned::Quotation(form) => quoted(alloc, left, form),
        Planned::Build(maker, forms) => {
            let terms = terms(alloc, world, left, bound, forms)?;
            let found = made_of(alloc, maker, terms)?;
            Ok(found)
        }
        Planned::Arms(forms) => arms(alloc, world, left, bound, place, forms),
        Planned::Let(scope, in_turn) => let_term(alloc, world, left, bound, place, scope, in_turn),
        Planned::Lambda(scope, forms) => lambda(alloc, world, left, bound, place, scope, forms),
    }
}

/// The terms that forms are, where they have at most 4,096 nodes together.
#[cycle(translating)]
fn terms(
    alloc: Global,
    world: &World,
    left: usize,
    bound: &Bound,
    forms: &[Form],
) -> Result<Option<Seq<Term>>, TransError>
    ensures { Gives result (capped few (each (term_in world.now.entries left bound.now.names) forms.now)) }
{
    let mut out = Some(no_terms(alloc));
    for form in forms {
        let next = term(alloc, world, left, bound, form)?;
        out = add_term(out, next)?;
    }
    Ok(terms_of(out))
}

/// What is kept of the terms of a clause of `cond`.
#[cycle(translating)]
fn arm(
    alloc: Global,
    world: &World,
    left: usize,
    bound: &Bound,
    clause: Clause<'_>,
) -> Result<Option<Arm>, TransError>
    ensures { Gives result (clause_kept (term_in world.now.entries left bound.now.names) (arm_seen clause.entry)) }
{
    match clause {
        Clause::Alone(test) => {
            let test = term(alloc, world, left, bound, test)?;
            Ok(alone(test))
        }
        Clause::Pair(test, value) => {
            let test = term(alloc, world, left, bound, test)?;
            let value = term(alloc, world, left, bound, value)?;
            Ok(pair(test, value))
        }
        Clause::Otherwise(value) => {
            let value = term(alloc, world, left, bound, value)?;
            Ok(alone(value))
        }
    }
}

/// `(cond ..)`
#[cycle(translating)]
fn arms(
    alloc: Global,
    world: &World,
    left: usize,
    bound: &Bound,
    place: usize,
    forms: &[Form],
) -> Result<Option<Term>, TransError>
    ensures { Gives result (capped small (arms_term (term_in world.now.entries left bound.now.names) place forms.now)) }
{
    let mut out = Some(no_arms(alloc));
    for form in forms {
        let Some(clause) = clause_in(form) else {
            return Err(refused_at(place, TransKind::BadForm));
        };
        match last_in(clause) {
            Some(value) => {
                let last = term(alloc, world, left, bound, value)?;
                let found = arms_built(alloc, out, last)?;
                return Ok(found);
            }
            None => {
                let next = arm(alloc, world, left, bound, clause)?;
                out = add_arm(out, next)?;
            }
        }
    }
    let last = nil_term(alloc)?;
    let found = arms_built(alloc, out, Some(last))?;
    Ok(found)
}

/// The bindings of a `let`, or of a `let*`, whose forms see the variables before them.
#[cycle(translating)]
fn bindings(
    alloc: Global,
    world: &World,
    left: usize,
    bound: &Bound,
    place: usize,
    forms: &[Form],
    in_turn: bool,
) -> Result<Bindings, TransError>
    ensures { Gives result (kept_bindings (bindings (λ before. term_in world.now.entries left (scope_of in_turn bound.now.names before)) place [] forms.now)) }
{
    let mut names = Seq::new(alloc);
    let mut terms = Seq::new(alloc);
    let mut scope = copy_bound(alloc, bound)?;
    for form in forms {
        let Some(found) = binding_in(form) else {
            return Err(refused_at(place, TransKind::BadForm));
        };
        let name = bound_name(alloc, found.name)?;
        let name = variable(found.place, names.as_slice(), name)?;
        let next = term(alloc, world, left, &scope, found.value)?;
        terms.push(next)?;
        widen(alloc, &mut scope, &name, in_turn)?;
        names.push(name)?;
    }
    Ok(Bindings { names, terms })
}

/// `(let ((v e) ..) body)`, or `let*` in turn.
#[cycle(translating)]
fn let_term(
    alloc: Global,
    world: &World,
    left: usize,
    bound: &Bound,
    place: usize,
    scope: Scoped<'_>,
    in_turn: bool,
) -> Result<Option<Term>, TransError>
    ensures { Gives result (capped small (let_term in_turn (level world.now.entries left) bound.now.names place (scope_seen scope.entry))) }
{
    let Bindings { names, terms } = bindings(
        alloc,
        world,
        left,
        bound,
        place,
        scope.heads,
        in_turn,
    )?;
    let inner = with_bound(alloc, bound, names.as_slice())?;
    let body = term(alloc, world, left, &inner, scope.body)?;
    let found = body_replaced(alloc, in_turn, names, terms, body)?;
    Ok(found)
}

/// The terms of a `lambda`'s actuals, each by itself.
#[cycle(translating)]
fn actuals(
    alloc: Global,
    world: &World,
    left: usize,
    bound: &Bound,
    forms: &[Form],
) -> Result<Seq<Option<Term>>, TransError>
    ensures { Gives result (each_small (each (term_in world.now.entries left bound.now.names) forms.now)) }
{
    let mut out = Seq::new(alloc);
    for form in forms {
        let next = term(alloc, world, left, bound, form)?;
        out.push(next)?;
    }
    Ok(out)
}

/// `((lambda (v ..) body) e ..)`
#[cycle(translating)]
fn lambda(
    alloc: Global,
    world: &World,
    left: usize,
    bound: &Bound,
    place: usize,
    scope: Scoped<'_>,
    forms: &[Form],
) -> Result<Option<Term>, TransError>
    requires { length scope.heads.now ≡ length forms.now }
    ensures { Gives result (capped small (lambda_term (level world.now.entries left) bound.now.names place (scope_seen scope.entry) forms.now)) }
{
    let names = variables(alloc, place, scope.heads)?;
    let inner = with_bound(alloc, bound, names.as_slice())?;
    let body = term(alloc, world, left, &inner, scope.body)?;
    let terms = actuals(alloc, world, left, bound, forms)?;
    let found = body_replaced(alloc, false, names, terms, body)?;
    Ok(found)
}
