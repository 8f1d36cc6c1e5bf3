ghost use Rattle.std.specs.Prelude.{◌≡◌, [], IsTrue, IfOk, IfSome, is_some};
ghost use Rattle.std.specs.Option.{option_map};
ghost use Rattle.ap_list.specs.Lists.{lookup_by};
ghost use Rattle.ap_term.specs.declared.term.Term.TheVariants.{Quote};
ghost use Rattle.ap_term.specs.Equal.{term_eq};
ghost use Rattle.ap_world.specs.Sound.{known};
ghost use Rattle.ap_world.specs.World.{function_of};
ghost use Rattle.ap_world.specs.Facts.{KnownFacts};
ghost use Rattle.ap_kernel.specs.Standing.{Stands};
ghost use Rattle.ap_kernel.specs.Deriving.{node};
ghost use Rattle.ap_kernel.specs.declared.derivations.Row.TheVariants.{ConsEqual};
ghost use Rattle.ap_kernel.specs.Equations.{equal_of, truth_constant, cons_parts, apart, sides_lead, equation_leads, equation_made, seen_parts, seen_leads};

use crate::calls::if_term;
use crate::derivations::{Derivation, Row};
use crate::lists::two;
use crate::objects::{Ctx, Equiv, Mode};
use ap_list::{NoMemory, Shared};
use ap_term::{Term, copy_term, is_same};
use ap_value::{Value, copy};
use ap_world::{ShapeRef, World, equal_symbol, nil_term, shape_of, t_term};
use std::alloc::Global;

/// The two parts of a cons: terms, or values that are constants.
#[derive(Clone, Copy)]
enum Parts<'a> {
    Terms(&'a Term, &'a Term),
    Constants(&'a Value, &'a Value),
}

/// Where an equation leads: to `'T` or `'NIL`, or to the equations of its sides' parts.
#[derive(Clone, Copy)]
enum Leads<'a> {
    Truth(bool),
    Apart(Parts<'a>, Parts<'a>),
}

/// Whether a term is `(equal a b)`. Takes no memory.
fn is_equation(t: &Term, a: &Term, b: &Term) -> bool
    ensures { result ≡ term_eq (equal_of a.now b.now) t.now }
{
    match shape_of(t) {
        ShapeRef::Equal(x, y) => is_same(a, x) && is_same(b, y),
        _ => false,
    }
}

/// The sign of the first fact on `(equal a b)`, which isn't built for it.
fn sign_of(facts: &[(Term, bool)], a: &Term, b: &Term) -> Option<bool>
    ensures { result ≡ lookup_by term_eq facts.now (equal_of a.now b.now) }
{
    for (t, sign) in facts {
        if is_equation(t, a, b) {
            return Some(*sign);
        }
    }
    None
}

/// The two parts of a cons, lent, where the term is one.
fn cons_parts(t: &Term) -> Option<Parts<'_>>
    ensures { option_map seen_parts result ≡ cons_parts t.now }
{
    match shape_of(t) {
        ShapeRef::Cons(a, b) => Some(Parts::Terms(a, b)),
        ShapeRef::Constant(Value::Cons(a, b)) => Some(Parts::Constants(a.get(), b.get())),
        _ => None,
    }
}

/// Where `(equal a b)` leads, if it does.
fn sides_lead<'a>(facts: &[(Term, bool)], a: &'a Term, b: &'a Term) -> Option<Leads<'a>>
    ensures { option_map seen_leads result ≡ sides_lead facts.now a.now b.now }
{
    if is_same(a, b) {
        return Some(Leads::Truth(true));
    }
    if let Some(sign) = sign_of(facts, b, a) {
        return Some(Leads::Truth(sign));
    }
    let first = cons_parts(a)?;
    let second = cons_parts(b)?;
    Some(Leads::Apart(first, second))
}

/// Where a term leads, if it is such an equation.
fn leads_of<'a>(facts: &[(Term, bool)], t: &'a Term) -> Option<Leads<'a>>
    ensures { option_map seen_leads result ≡ equation_leads facts.now t.now }
{
    match shape_of(t) {
        ShapeRef::Equal(a, b) => sides_lead(facts, a, b),
        _ => None,
    }
}

/// `(equal a b)`
pub fn equal_term(alloc: Global, a: Term, b: Term) -> Result<Term, NoMemory>
    ensures { IfOk result (λ u. u ≡ equal_of a b) }
{
    let sides = two(alloc, a, b)?;
    Term::call(alloc, equal_symbol(), sides)
}

/// `'T` or `'NIL`. Takes no memory.
pub fn truth_term(sign: bool) -> Term
    ensures { result ≡ truth_constant sign }
{
    if sign { t_term() } else { nil_term() }
}

/// A constant of a copy of a value.
fn own_constant(alloc: Global, v: &Value) -> Result<Term, NoMemory>
    ensures { IfOk result (λ u. u ≡ Quote v.now) }
{
    let value = copy(alloc, v)?;
    Ok(Term::quote(value))
}

/// The first part, copied.
fn own_first(alloc: Global, parts: Parts<'_>) -> Result<Term, NoMemory>
    ensures { IfOk result (λ u. u ≡ (seen_parts parts.entry).0) }
{
    match parts {
        Parts::Terms(a, _) => copy_term(alloc, a),
        Parts::Constants(a, _) => own_constant(alloc, a),
    }
}

/// The second part, copied.
fn own_second(alloc: Global, parts: Parts<'_>) -> Result<Term, NoMemory>
    ensures { IfOk result (λ u. u ≡ (seen_parts parts.entry).1) }
{
    match parts {
        Parts::Terms(_, b) => copy_term(alloc, b),
        Parts::Constants(_, b) => own_constant(alloc, b),
    }
}

/// The equation of the first parts of two conses.
fn firsts_equal(alloc: Global, p: Parts<'_>, q: Parts<'_>) -> Result<Term, NoMemory>
    ensures { IfOk result (λ u. u ≡ equal_of (seen_parts p.entry).0 (seen_parts q.entry).0) }
{
    let a = own_first(alloc, p)?;
    let b = own_first(alloc, q)?;
    equal_term(alloc, a, b)
}

/// The equation of the second parts of two conses.
fn seconds_equal(alloc: Global, p: Parts<'_>, q: Parts<'_>) -> Result<Term, NoMemory>
    ensures { IfOk result (λ u. u ≡ equal_of (seen_parts p.entry).1 (seen_parts q.entry).1) }
{
    let a = own_second(alloc, p)?;
    let b = own_second(alloc, q)?;
    equal_term(alloc, a, b)
}

/// The equations of the parts of two conses.
fn apart(alloc: Global, a: Parts<'_>, b: Parts<'_>) -> Result<Term, NoMemory>
    ensures { IfOk result (λ u. u ≡ apart (seen_parts a.entry) (seen_parts b.entry)) }
{
    let firsts = firsts_equal(alloc, a, b)?;
    let seconds = seconds_equal(alloc, a, b)?;
    if_term(alloc, firsts, seconds, nil_term())
}

/// Where an equation leads, built.
fn own_leads(alloc: Global, leads: Leads<'_>) -> Result<Term, NoMemory>
    ensures { IfOk result (λ u. u ≡ seen_leads leads.entry) }
{
    match leads {
        Leads::Truth(sign) => Ok(truth_term(sign)),
        Leads::Apart(a, b) => apart(alloc, a, b),
    }
}

/// Whether [`cons_equal`] leads on from a term: it is an equation of a term and itself, or one whose sides
/// exchanged are the term of a fact, or one of two conses. Takes no memory.
pub fn equation_leads(ctx: &Ctx, t: &Term) -> bool
    ensures { result ≡ is_some (equation_leads ctx.now.0 t.now) }
{
    leads_of(ctx.facts(), t).is_some()
}

/// How an equation is led on.
fn equal_why(alloc: Global, ctx: &Ctx, t: &Term) -> Result<Shared<Derivation>, NoMemory>
    ensures { IfOk result (λ d. d ≡ node (ConsEqual ctx.now t.now) []) }
{
    let ctx = ctx.share()?;
    let t = copy_term(alloc, t)?;
    let answer = Derivation::leaf(alloc, Row::ConsEqual(ctx, t))?;
    Ok(answer)
}

/// From an equation, under equality: of a term and itself to `'T`; where the first fact on the equation
/// with its sides exchanged is true to `'T`, where it is false to `'NIL`; else, of two conses, to the `if`
/// of the equation of their first parts, the equation of their second parts, and `'NIL`. A constant that
/// is a cons counts as the cons of its parts as constants. It copies the equation, since an equivalence
/// owns its sides, and the parts of conses, since the left side keeps its own.
pub fn cons_equal(alloc: Global, w: &World, ctx: &Ctx, t: &Term) -> Result<Equiv, NoMemory>
    requires facts { KnownFacts (function_of w.now.entries) ctx.now.0 }
    requires term { IsTrue (known (function_of w.now.entries) t.now) }
    requires leads { IsTrue (is_some (equation_leads ctx.now.0 t.now)) }
    ensures stands { IfOk result (λ q. Stands w.now q) }
    ensures made { IfOk result (λ q. IfSome (equation_leads ctx.now.0 t.now) (λ u. q.says ≡ equation_made ctx.now t.now u)) }
{
    w.recall_sound();
    let Some(leads) = leads_of(ctx.facts(), t) else {
        unreachable!()
    };
    let rhs = own_leads(alloc, leads)?;
    let why = equal_why(alloc, ctx, t)?;
    let answer = Equiv::from_copy(alloc, ctx, Mode::Equal, t, rhs, why)?;
    Ok(answer)
}
