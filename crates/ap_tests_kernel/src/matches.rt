//! The rows on matches, instances and variables.

use ap_list::{Bytes, NoMemory, Seq};
use ap_term::{Shape, Subst, Term, copy_term, one_way_match, same_term, subst, subst_all, vars};
use ap_tests_terms::put_term;
use ap_value::{Symbol, copy_symbol};
use std::alloc::{AllocError, Global};

/// The pairs of a variable and a term, one after another.
fn pairs(alloc: Global, parts: &[Term]) -> Result<Subst, NoMemory> {
    let mut left = parts;
    let mut out = Seq::new(alloc);
    while let [first, by, rest @ ..] = left {
        let Shape::Var(x) = &first.shape else {
            break;
        };
        out.push((copy_symbol(alloc, x)?, copy_term(alloc, by)?))?;
        left = rest;
    }
    Ok(Subst(out))
}

/// Begins a word behind another.
fn put_space(text: &mut Bytes) -> Result<(), NoMemory> {
    if text.is_empty() {
        return Ok(());
    }
    text.push(b' ')
}

/// Pairs as text.
fn pairs_told(alloc: Global, pairs: &[(Symbol, Term)]) -> Result<Bytes, NoMemory> {
    let mut text = Bytes::new(alloc);
    for (x, t) in pairs {
        put_space(&mut text)?;
        text.extend(x.name.as_slice())?;
        text.push(b' ')?;
        put_term(alloc, &mut text, t)?;
    }
    Ok(text)
}

/// The pattern's match with the term, or a word where there is none.
pub(crate) fn matched(
    alloc: Global,
    pattern: &Term,
    t: &Term,
    start: &[Term],
) -> Result<Bytes, NoMemory> {
    let start = pairs(alloc, start)?;
    match one_way_match(alloc, pattern, t, &start)? {
        Some(s) => pairs_told(alloc, s.0.as_slice()),
        None => Bytes::from_slice(alloc, b"none"),
    }
}

/// Whether the instance of a term is another.
fn is_instance(alloc: Global, s: &Subst, t: &Term, u: &Term) -> Result<bool, NoMemory> {
    let instance = subst(alloc, t, s)?;
    Ok(same_term(&instance, u))
}

/// Whether the instance of each term is the one that is there.
fn are_instances(alloc: Global, s: &Subst, from: &[Term], to: &[Term]) -> Result<bool, NoMemory> {
    for (t, u) in from.iter().zip(to) {
        if !is_instance(alloc, s, t, u)? {
            return Ok(false);
        }
    }
    Ok(from.len() == to.len())
}

/// Terms as text.
fn terms_told(alloc: Global, ts: &[Term]) -> Result<Bytes, NoMemory> {
    let mut text = Bytes::new(alloc);
    for t in ts {
        put_space(&mut text)?;
        put_term(alloc, &mut text, t)?;
    }
    Ok(text)
}

/// The instances of terms all at once, where each one's is the same.
pub(crate) fn instances(alloc: Global, s: &[Term], from: &[Term]) -> Result<Bytes, NoMemory> {
    let s = pairs(alloc, s)?;
    let to = subst_all(alloc, from, &s)?;
    if !are_instances(alloc, &s, from, to.as_slice())? {
        return Err(AllocError);
    }
    terms_told(alloc, to.as_slice())
}

/// A term's variables.
pub(crate) fn variables(alloc: Global, t: &Term) -> Result<Bytes, NoMemory> {
    let found = vars(alloc, t)?;
    let mut text = Bytes::new(alloc);
    for x in found.as_slice() {
        put_space(&mut text)?;
        text.extend(x.name.as_slice())?;
    }
    Ok(text)
}
