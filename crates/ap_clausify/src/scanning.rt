ghost use Rattle.std.specs.Prelude.{◌≡◌, ◌&&◌, IfOk};
ghost use Rattle.ap_world.specs.Shapes.{shape_of};
ghost use Rattle.ap_kernel.specs.Tidying.{is_bare, is_plain, negates, is_denied};
ghost use Rattle.ap_clausify.specs.Scanning.{closed_by, is_kept, Ready, Finds};

use crate::places::{Place, USUAL_DEPTH, find};
use ap_kernel::{ShapeRef, is_constant, is_same, shape_of};
use ap_list::{NoMemory, Seq};
use ap_term::{Clause, Term, is_term_among};
use std::alloc::Global;

/// What a search from a clause's cursor on finds: the `if` that is split first, that the literals before hold
/// by themselves, and the place of the one that shows it, or that there is no `if`; and of the first and the last
/// whether the literals before are tidy.
#[derive(Drop)]
pub(crate) enum Scanned {
    Choice(Place, bool),
    Closed(usize),
    Whole(bool),
}

/// Whether a term is neither a constant nor a negation. Takes no memory.
fn is_bare(t: &Term) -> bool
    ensures { result ≡ is_bare (shape_of t.now) }
{
    match shape_of(t) {
        ShapeRef::Constant(_) | ShapeRef::Not(_) => false,
        _ => true,
    }
}

/// Whether a literal is in plain form at sight. Takes no memory.
fn is_plain(t: &Term) -> bool
    ensures { result ≡ is_plain (shape_of t.now) }
{
    match shape_of(t) {
        ShapeRef::Not(a) => is_bare(a),
        _ => true,
    }
}

/// Whether tidying keeps a literal behind these as it is. Takes no memory.
fn is_kept(before: &[Term], t: &Term) -> bool
    ensures { result ≡ is_kept before.now t.now }
{
    is_plain(t) && !is_constant(false, t) && !is_term_among(t, before)
}

/// Whether literals are tidy with one more behind them that doesn't close them, by whether they are without it.
/// Takes no memory.
fn stays_tidy(tidy: bool, before: &[Term], t: &Term) -> bool
    ensures { result ≡ (tidy && is_kept before.now t.now) }
{
    tidy && is_kept(before, t)
}

/// Whether a term is the negation of another. Takes no memory.
fn negates(t: &Term, u: &Term) -> bool
    ensures { result ≡ negates (shape_of t.now) u.now }
{
    match shape_of(t) {
        ShapeRef::Not(a) => is_same(a, u),
        _ => false,
    }
}

/// Whether one of a list is the negation of a term. Takes no memory.
fn is_denied(terms: &[Term], t: &Term) -> bool
    ensures { result ≡ is_denied terms.now t.now }
{
    for u in terms {
        if negates(u, t) {
            return true;
        }
    }
    false
}

/// Whether a literal beside these makes a clause hold by itself, in plain form at sight: a constant other than
/// `nil` by itself, a negation where its argument is one of them, another where its negation is. Takes no memory.
fn is_closed_by(before: &[Term], t: &Term) -> bool
    ensures { result ≡ closed_by before.now t.now (shape_of t.now) }
{
    match shape_of(t) {
        ShapeRef::Constant(_) => is_constant(true, t),
        ShapeRef::Not(a) => is_bare(a) && is_term_among(a, before),
        _ => is_denied(before, t),
    }
}

/// Goes on from a clause's cursor to the literal that is split first, and looks whether one before it closes the
/// clause.
pub(crate) fn scan(
    alloc: Global,
    c: &Clause,
    cursor: usize,
    tidy: bool,
) -> Result<Scanned, NoMemory>
    requires ready { Ready c.now cursor tidy }
    ensures { IfOk result (λ f. Finds c.now f) }
{
    let mut at = Seq::with_capacity(alloc, USUAL_DEPTH)?;
    let mut tidy = tidy;
    for literal in cursor..c.0.as_slice().len() {
        let t = &c.0.as_slice()[literal];
        if find(t, &mut at)? {
            return Ok(Scanned::Choice(Place { literal, at }, tidy));
        }
        let before = &c.0.as_slice()[..literal];
        if is_closed_by(before, t) {
            return Ok(Scanned::Closed(literal));
        }
        tidy = stays_tidy(tidy, before, t);
    }
    Ok(Scanned::Whole(tidy))
}
