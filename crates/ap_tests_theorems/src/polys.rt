//! Polynomials as text.

use ap_list::{Bytes, NoMemory, Seq};
use ap_poly::{Poly, of_literal};
use ap_tests_terms::{put_term, term};
use std::alloc::Global;

/// The polynomials of a literal: its sign, `+` or `-`, and its form.
pub(crate) fn literal(alloc: Global, text: &str) -> Result<Seq<Poly>, NoMemory> {
    let (sign, form) = text.trim().split_once(' ').unwrap_or(("", text));
    let t = term(alloc, form)?;
    of_literal(alloc, &t, sign == "+")
}

/// Puts the polynomials of literals, between which a `;` stands.
pub(crate) fn put_literals(
    alloc: Global,
    polys: &mut Seq<Poly>,
    text: &str,
) -> Result<(), NoMemory> {
    for part in text.split(';') {
        polys.append(literal(alloc, part)?)?;
    }
    Ok(())
}

/// The polynomials of literals, between which a `;` stands.
pub(crate) fn literals(alloc: Global, text: &str) -> Result<Seq<Poly>, NoMemory> {
    let mut polys = Seq::new(alloc);
    put_literals(alloc, &mut polys, text)?;
    Ok(polys)
}

/// Writes a number.
fn put_number(alloc: Global, out: &mut Bytes, n: i128) -> Result<(), NoMemory> {
    let number = format!(in alloc; "{n}")?;
    out.extend(number.as_bytes())
}

/// Writes a polynomial as its constant, and each coefficient with its atom.
pub(crate) fn put_poly(alloc: Global, out: &mut Bytes, p: &Poly) -> Result<(), NoMemory> {
    put_number(alloc, out, p.constant)?;
    for (t, c) in p.parts.as_slice() {
        out.push(b' ')?;
        put_number(alloc, out, *c)?;
        out.push(b' ')?;
        put_term(alloc, out, t)?;
    }
    Ok(())
}

/// The polynomials as text, with a `;` between.
pub(crate) fn shown(alloc: Global, polys: &[Poly]) -> Result<Bytes, NoMemory> {
    let mut out = Bytes::new(alloc);
    for p in polys {
        if !out.is_empty() {
            out.extend(b"; ")?;
        }
        put_poly(alloc, &mut out, p)?;
    }
    Ok(out)
}
