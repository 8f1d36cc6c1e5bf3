//! The rows that answer an equivalence.
ghost use Rattle.ap_world.specs.World.{function_of};
ghost use Rattle.ap_kernel.specs.Standing.{DefinesNot};

use crate::known::are_facts;
use ap_eval::is_known;
use ap_kernel::{
    Ctx, Equiv, Mode, NoMemory, Seq, Term, TypeOracle, World, assume, bare_test, by_fact,
    cons_equal, equation_leads, if_shape, is_choice, refl, weaken_mode,
};
use ap_list::Bytes;
use ap_term::copy_term;
use ap_tests_terms::put_term;
use ap_types::Types;
use std::alloc::{AllocError, Global};

/// The context of one fact.
fn context(alloc: Global, t: &Term, sign: bool) -> Result<Ctx, NoMemory> {
    let mut facts = Seq::new(alloc);
    facts.push((copy_term(alloc, t)?, sign))?;
    Ctx::new(alloc, facts)
}

/// The fact at place 0, where there is one.
fn first_fact(alloc: Global, w: &World, ctx: &Ctx) -> Result<Equiv, NoMemory> {
    if !are_facts(w, ctx.facts()) || ctx.facts().is_empty() {
        return Err(AllocError);
    }
    by_fact(alloc, w, ctx, 0)
}

/// An equivalence as text.
fn told(alloc: Global, q: &Equiv) -> Result<Bytes, NoMemory> {
    let mode = match q.mode() {
        Mode::Equal => b"EQUAL ".as_slice(),
        Mode::Iff => b"IFF ",
    };
    let mut text = Bytes::from_slice(alloc, mode)?;
    put_term(alloc, &mut text, q.lhs())?;
    text.push(b' ')?;
    put_term(alloc, &mut text, q.rhs())?;
    Ok(text)
}

/// Where an equation leads under facts, if it does.
fn led_by(alloc: Global, w: &World, ctx: &Ctx, t: &Term) -> Result<Bytes, NoMemory> {
    if !is_known(w, t) || !are_facts(w, ctx.facts()) || !equation_leads(ctx, t) {
        return Bytes::from_slice(alloc, b"none");
    }
    let q = cons_equal(alloc, w, ctx, t)?;
    told(alloc, &q)
}

/// Where an equation leads under the fact that a term has a sign.
pub(crate) fn led(
    alloc: Global,
    w: &World,
    sign: bool,
    fact: &Term,
    t: &Term,
) -> Result<Bytes, NoMemory> {
    let ctx = context(alloc, fact, sign)?;
    led_by(alloc, w, &ctx, t)
}

/// Where an `if` leads under no facts.
fn shape(alloc: Global, w: &World, mode: Mode, t: &Term) -> Result<Equiv, NoMemory>
    requires ground { DefinesNot (function_of w.now.entries) }
{
    let ctx = Ctx::new(alloc, Seq::new(alloc))?;
    if !is_known(w, t) || !is_choice(t) || !are_facts(w, ctx.facts()) {
        return Err(AllocError);
    }
    let mask = Types.mask(alloc, w, &ctx, bare_test(t))?;
    if_shape(alloc, w, &ctx, mode, t, mask)
}

/// The same in a mode, as text.
pub(crate) fn shaped(alloc: Global, w: &World, is_iff: bool, t: &Term) -> Result<Bytes, NoMemory>
    requires ground { DefinesNot (function_of w.now.entries) }
{
    let mode = if is_iff { Mode::Iff } else { Mode::Equal };
    let q = shape(alloc, w, mode, t)?;
    told(alloc, &q)
}

/// Where the fact that a term has a sign leads.
pub(crate) fn fact_leads(
    alloc: Global,
    w: &World,
    sign: bool,
    t: &Term,
) -> Result<Bytes, NoMemory> {
    let ctx = context(alloc, t, sign)?;
    let q = first_fact(alloc, w, &ctx)?;
    told(alloc, &q)
}

/// A term to itself under facts, its equality weakened.
fn weakened(alloc: Global, w: &World, ctx: &Ctx, t: &Term) -> Result<Equiv, NoMemory> {
    if !is_known(w, t) || !are_facts(w, ctx.facts()) {
        return Err(AllocError);
    }
    let same = refl(alloc, w, ctx, Mode::Equal, t)?;
    weaken_mode(alloc, w, same)
}

/// The same under the fact that another one is true, as text.
pub(crate) fn same(alloc: Global, w: &World, fact: &Term, t: &Term) -> Result<Bytes, NoMemory> {
    let ctx = context(alloc, fact, true)?;
    let q = weakened(alloc, w, &ctx, t)?;
    told(alloc, &q)
}

/// Facts as text.
fn facts_told(alloc: Global, facts: &[(Term, bool)]) -> Result<Bytes, NoMemory> {
    let mut text = Bytes::new(alloc);
    for (t, sign) in facts {
        if !text.is_empty() {
            text.extend(b" and ")?;
        }
        text.extend(if *sign { b"".as_slice() } else { b"not " })?;
        put_term(alloc, &mut text, t)?;
    }
    Ok(text)
}

/// The facts that a term holds, and that it doesn't.
pub(crate) fn assumed(alloc: Global, t: &Term) -> Result<Bytes, NoMemory> {
    let ctx = context(alloc, t, true)?;
    let more = assume(alloc, &ctx, t, false)?;
    facts_told(alloc, more.facts())
}
