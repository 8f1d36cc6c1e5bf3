//! The rows that answer clauses.
ghost use Rattle.std.specs.Prelude.{IsTrue};
ghost use Rattle.ap_world.specs.World.{function_of};
ghost use Rattle.ap_kernel.specs.Standing.{DefinesNot};
ghost use Rattle.ap_kernel.specs.Reductions.{KnownClause};

use crate::known::are_known;
use ap_clausify::{Steps, flat, split};
use ap_kernel::{
    Clause, NoMemory, Reduction, Seq, Term, World, drop_literal, is_choice_in, is_solvable,
    split_if, tidy, use_equality,
};
use ap_list::Bytes;
use ap_print::print_clause;
use ap_term::{Shape, copy_terms};
use ap_tests_terms::shown;
use ap_value::Value;
use std::alloc::{AllocError, Global};

/// Whether the literals of a clause are terms of the world.
fn is_clause(w: &World, c: &Clause) -> bool
    ensures { IsTrue result → KnownClause (function_of w.now.entries) c.now }
{
    are_known(w, c.0.as_slice())
}

/// The clause of these literals.
fn clause(alloc: Global, literals: &[Term]) -> Result<Clause, NoMemory> {
    Ok(Clause(copy_terms(alloc, literals)?))
}

/// The clause split at the `if` that is the first argument of its first literal, if it is one.
fn halves(alloc: Global, w: &World, c: Clause) -> Result<Option<Reduction>, NoMemory>
    requires ground { DefinesNot (function_of w.now.entries) }
    requires clause { KnownClause (function_of w.now.entries) c }
{
    let at = Seq::from_slice(alloc, &[0])?;
    if is_choice_in(&c, 0, &at) {
        return Ok(Some(split_if(alloc, w, c, 0, &at)?));
    }
    Ok(None)
}

/// The clause with the equation of its first literal used, if it solves a variable.
fn solved(alloc: Global, w: &World, c: Clause) -> Result<Option<Reduction>, NoMemory>
    requires ground { DefinesNot (function_of w.now.entries) }
    requires clause { KnownClause (function_of w.now.entries) c }
{
    if is_solvable(&c, 0) {
        return Ok(Some(use_equality(alloc, w, c, 0)?));
    }
    Ok(None)
}

/// The clause without its first literal, if it has one.
fn dropped(alloc: Global, w: &World, c: Clause) -> Result<Option<Reduction>, NoMemory>
    requires clause { KnownClause (function_of w.now.entries) c }
{
    if c.0.is_empty() {
        return Ok(None);
    }
    Ok(Some(drop_literal(alloc, w, c, 0)?))
}

/// What a clause is reduced to by what a word says.
fn reduction(alloc: Global, w: &World, word: &str, c: Clause) -> Result<Option<Reduction>, NoMemory>
    requires ground { DefinesNot (function_of w.now.entries) }
    requires clause { KnownClause (function_of w.now.entries) c }
{
    match word {
        "tidy" => Ok(Some(tidy(alloc, w, c)?)),
        "split" => halves(alloc, w, c),
        "solve" => solved(alloc, w, c),
        _ => dropped(alloc, w, c),
    }
}

/// The clauses that a reduction leads to, or a word where there is none.
fn told(alloc: Global, reduction: Option<Reduction>) -> Result<Bytes, NoMemory> {
    match &reduction {
        Some(r) => shown(alloc, r.to().as_slice()),
        None => Bytes::from_slice(alloc, b"none"),
    }
}

/// The clauses that the clause of these literals is reduced to.
pub(crate) fn reduced(
    alloc: Global,
    w: &World,
    word: &str,
    literals: &[Term],
) -> Result<Bytes, NoMemory>
    requires ground { DefinesNot (function_of w.now.entries) }
{
    let c = clause(alloc, literals)?;
    if !is_clause(w, &c) {
        return Err(AllocError);
    }
    let found = reduction(alloc, w, word, c)?;
    told(alloc, found)
}

/// The steps that are left, the clause and those that it is split into, or a word where no step is left.
fn split_told(alloc: Global, left: u32, found: &Option<Reduction>) -> Result<Bytes, NoMemory> {
    let mut text = Bytes::new(alloc);
    match found {
        Some(r) => {
            text.extend(format!(in alloc; "{left} left of ")?.as_bytes())?;
            text.append(print_clause(alloc, r.from())?)?;
            text.extend(b": ")?;
            text.append(shown(alloc, r.to().as_slice())?)?;
        }
        None => text.extend(if left == 0 {
            b"spent".as_slice()
        } else {
            b"stopped"
        })?,
    }
    Ok(text)
}

/// What the clause of these literals is split into, by so many steps.
pub(crate) fn halved(
    alloc: Global,
    w: &World,
    left: &Term,
    literals: &[Term],
) -> Result<Bytes, NoMemory>
    requires ground { DefinesNot (function_of w.now.entries) }
{
    let c = clause(alloc, literals)?;
    if !is_clause(w, &c) {
        return Err(AllocError);
    }
    let mut steps = Steps {
        left: number(left)?,
    };
    let answer = split(alloc, w, c, &mut steps)?;
    split_told(alloc, steps.left, &answer.reduction)
}

/// The number that is written.
fn number(t: &Term) -> Result<u32, NoMemory> {
    match &t.shape {
        Shape::Quote(Value::Int(n)) => u32::try_from(*n).ok().ok_or(AllocError),
        _ => Err(AllocError),
    }
}

/// The clause of a term.
pub(crate) fn flattened(alloc: Global, t: &Term) -> Result<Bytes, NoMemory> {
    let found = flat(alloc, t)?;
    print_clause(alloc, &found)
}
