// The atoms of polynomials with their coefficients, in the order of terms.
ghost use Rattle.std.specs.Prelude.{◌≡◌, [], ◌++◌, pos, IfOk, OnOk};
ghost use Rattle.ap_term.specs.Order.{term_less};
ghost use Rattle.ap_poly.specs.Polynomials.{with_part, put, add_parts, scale_parts};

use crate::numbers::{narrow_product, narrow_sum};
use ap_list::{NoMemory, Seq};
use ap_term::{Term, copy_term, is_same, term_less};
use std::alloc::{AllocError, Global};

/// Whether a term comes before another in the order of terms. A term whose nodes pass 64 bits has no place
/// in memory but by sharing: it is answered as want of memory. See the manual's topic `term-order`.
pub fn is_before(a: &Term, b: &Term) -> Result<bool, NoMemory>
    ensures { IfOk result (λ before. before ≡ term_less a.now b.now) }
{
    match term_less(a, b) {
        Some(before) => Ok(before),
        None => Err(AllocError),
    }
}

/// Copies parts to the end.
fn extend_parts(
    alloc: Global,
    out: &mut Seq<(Term, i128)>,
    parts: &[(Term, i128)],
) -> Result<(), NoMemory>
    ensures { OnOk result (out.new ≡ out.old ++ parts.now) }
{
    for (t, c) in parts {
        out.push((copy_term(alloc, t)?, *c))?;
    }
    Ok(())
}

/// A copy of parts, whose terms are shared.
pub(crate) fn copy_parts(
    alloc: Global,
    parts: &[(Term, i128)],
) -> Result<Seq<(Term, i128)>, NoMemory>
    ensures { IfOk result (λ copy. copy ≡ parts.now) }
{
    let mut out = Seq::new(alloc);
    extend_parts(alloc, &mut out, parts)?;
    Ok(out)
}

/// Adds a part at the end, or nothing where its coefficient is 0.
fn push_part(alloc: Global, out: &mut Seq<(Term, i128)>, t: &Term, c: i128) -> Result<(), NoMemory>
    ensures { OnOk result (out.new ≡ out.old ++ with_part t.now c []) }
{
    if c == 0 {
        return Ok(());
    }
    out.push((copy_term(alloc, t)?, c))?;
    Ok(())
}

/// The parts so far, this part and the rest.
fn joined(
    alloc: Global,
    front: Seq<(Term, i128)>,
    t: &Term,
    c: i128,
    rest: &[(Term, i128)],
) -> Result<Seq<(Term, i128)>, NoMemory>
    ensures { IfOk result (λ parts. parts ≡ front ++ with_part t.now c rest.now) }
{
    let mut out = front;
    push_part(alloc, &mut out, t, c)?;
    extend_parts(alloc, &mut out, rest)?;
    Ok(out)
}

/// The parts with a multiple of an atom added at its place. `None` exactly where the coefficient there
/// leaves 128 bits.
pub(crate) fn put(
    alloc: Global,
    t: &Term,
    k: i128,
    parts: &[(Term, i128)],
) -> Result<Option<Seq<(Term, i128)>>, NoMemory>
    ensures { IfOk result (λ o. o ≡ put t.now k parts.now) }
{
    let mut out = Seq::new(alloc);
    let mut left = parts;
    while let [(u, c), rest @ ..] = left {
        if is_same(t, u) {
            return match narrow_sum(k, *c) {
                Some(sum) => Ok(Some(joined(alloc, out, t, sum, rest)?)),
                None => Ok(None),
            };
        }
        if is_before(t, u)? {
            return Ok(Some(joined(alloc, out, t, k, left)?));
        }
        out.push((copy_term(alloc, u)?, *c))?;
        left = rest;
    }
    Ok(Some(joined(alloc, out, t, k, left)?))
}

/// The parts of a sum. `None` exactly where a coefficient leaves 128 bits.
pub(crate) fn add_parts(
    alloc: Global,
    a: &[(Term, i128)],
    b: &[(Term, i128)],
) -> Result<Option<Seq<(Term, i128)>>, NoMemory>
    ensures { IfOk result (λ o. o ≡ add_parts a.now b.now) }
{
    let mut sum = copy_parts(alloc, b)?;
    let mut left = a.len();
    while left > 0 {
        left -= 1;
        let (t, k) = &a[left];
        match put(alloc, t, *k, sum.as_slice())? {
            Some(more) => sum = more,
            None => return Ok(None),
        }
    }
    Ok(Some(sum))
}

/// The parts so many times. `None` exactly where a coefficient leaves 128 bits.
pub(crate) fn scale_parts(
    alloc: Global,
    k: u64,
    parts: &[(Term, i128)],
) -> Result<Option<Seq<(Term, i128)>>, NoMemory>
    ensures { IfOk result (λ o. o ≡ scale_parts k parts.now) }
{
    let mut out = Seq::new(alloc);
    let mut left = parts;
    while let [(t, c), rest @ ..] = left {
        let Some(product) = narrow_product(i128::from(k), *c) else {
            return Ok(None);
        };
        push_part(alloc, &mut out, t, product)?;
        left = rest;
    }
    Ok(Some(out))
}
