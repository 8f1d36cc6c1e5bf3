// The polynomials of a literal.
ghost use Rattle.std.specs.Prelude.{◌≡◌, IfOk};
ghost use Rattle.ap_term.specs.declared.term.Term.{out-Term};
ghost use Rattle.ap_poly.specs.Literals.{add_constant, add_atom, add_product, add_call, into, paired, difference, less_polys, equal_polys, polys_by, of_literal};

use crate::numbers::{integer_in, narrow_negation, narrow_product, narrow_sum};
use crate::parts::put;
use crate::poly::Poly;
use ap_list::{NoMemory, Seq};
use ap_term::{Shape, Term};
use ap_world::{Primitive, primitive_of};
use std::alloc::Global;

/// A constant so many times, added. `None` where a number on the way leaves 128 bits.
fn add_constant(n: i128, k: i128, p: Poly) -> Option<Poly>
    ensures { result ≡ add_constant n k p }
{
    let product = narrow_product(k, n)?;
    let (constant, parts) = p.into_fields();
    let constant = narrow_sum(constant, product)?;
    Some(Poly::made(constant, parts))
}

/// An atom so many times, added. `None` where its coefficient leaves 128 bits.
fn add_atom(alloc: Global, t: &Term, k: i128, p: Poly) -> Result<Option<Poly>, NoMemory>
    ensures { IfOk result (λ o. o ≡ add_atom t.now k p) }
{
    let (constant, parts) = p.into_fields();
    match put(alloc, t, k, parts.as_slice())? {
        Some(parts) => Ok(Some(Poly::made(constant, parts))),
        None => Ok(None),
    }
}

/// A term so many times, added: sums, negations, constants and products with a constant on the left are
/// taken apart, and another term is an atom. `None` where a number on the way leaves 128 bits.
#[cycle(adding)]
fn add_term(alloc: Global, t: &Term, k: i128, p: Poly) -> Result<Option<Poly>, NoMemory>
    ensures { IfOk result (λ o. o ≡ into t.now k p) }
{
    match &t.shape {
        Shape::Var(_) => add_atom(alloc, t, k, p),
        Shape::Quote(v) => Ok(add_constant(integer_in(v), k, p)),
        Shape::Call(f, ts) => add_call(alloc, t, primitive_of(f), ts.as_slice(), k, p),
    }
}

/// A call so many times, added.
#[cycle(adding)]
fn add_call(
    alloc: Global,
    t: &Term,
    f: Option<Primitive>,
    ts: &[Term],
    k: i128,
    p: Poly,
) -> Result<Option<Poly>, NoMemory>
    ensures { IfOk result (λ o. o ≡ add_call f (paired ts.now) (add_atom t.now) k p) }
{
    match f {
        Some(Primitive::Plus) => match ts {
            [a, b] => match add_term(alloc, a, k, p)? {
                Some(p) => add_term(alloc, b, k, p),
                None => Ok(None),
            },
            _ => add_atom(alloc, t, k, p),
        },
        Some(Primitive::Minus) => match ts {
            [a] => match narrow_negation(k) {
                Some(m) => add_term(alloc, a, m, p),
                None => Ok(None),
            },
            _ => add_atom(alloc, t, k, p),
        },
        Some(Primitive::Times) => match ts {
            [a, b] => add_product(alloc, t, a, b, k, p),
            _ => add_atom(alloc, t, k, p),
        },
        _ => add_atom(alloc, t, k, p),
    }
}

/// A product so many times, added: it is taken apart where its left side is a constant.
#[cycle(adding)]
fn add_product(
    alloc: Global,
    t: &Term,
    a: &Term,
    b: &Term,
    k: i128,
    p: Poly,
) -> Result<Option<Poly>, NoMemory>
    ensures { IfOk result (λ o. o ≡ add_product (out-Term a.now) (into b.now) (add_atom t.now) k p) }
{
    match &a.shape {
        Shape::Quote(v) => match narrow_product(k, integer_in(v)) {
            Some(m) => add_term(alloc, b, m, p),
            None => Ok(None),
        },
        Shape::Var(_) => add_atom(alloc, t, k, p),
        Shape::Call(_, _) => add_atom(alloc, t, k, p),
    }
}

/// `a - b + n`. `None` where a number on the way leaves 128 bits.
fn difference(alloc: Global, a: &Term, b: &Term, n: i128) -> Result<Option<Poly>, NoMemory>
    ensures { IfOk result (λ o. o ≡ difference a.now b.now n) }
{
    let Some(left) = add_term(alloc, a, 1, Poly::zero(alloc))? else {
        return Ok(None);
    };
    match add_term(alloc, b, -1, left)? {
        Some(both) => Ok(add_constant(n, 1, both)),
        None => Ok(None),
    }
}

/// The polynomial of `(< a b)` or of its negation.
fn less_polys(alloc: Global, a: &Term, b: &Term, sign: bool) -> Result<Option<Seq<Poly>>, NoMemory>
    ensures { IfOk result (λ o. o ≡ less_polys a.now b.now sign) }
{
    let made = if sign {
        difference(alloc, b, a, -1)?
    } else {
        difference(alloc, a, b, 0)?
    };
    let Some(p) = made else {
        return Ok(None);
    };
    let mut polys = Seq::new(alloc);
    polys.push(p)?;
    Ok(Some(polys))
}

/// Both polynomials of `(equal a b)`.
fn equal_polys(alloc: Global, a: &Term, b: &Term) -> Result<Option<Seq<Poly>>, NoMemory>
    ensures { IfOk result (λ o. o ≡ equal_polys a.now b.now) }
{
    let Some(p) = difference(alloc, a, b, 0)? else {
        return Ok(None);
    };
    let Some(q) = difference(alloc, b, a, 0)? else {
        return Ok(None);
    };
    let mut polys = Seq::new(alloc);
    polys.push(p)?;
    polys.push(q)?;
    Ok(Some(polys))
}

/// The polynomials of a call, where it gives some.
fn polys_by(
    alloc: Global,
    f: Option<Primitive>,
    ts: &[Term],
    sign: bool,
) -> Result<Option<Seq<Poly>>, NoMemory>
    ensures { IfOk result (λ o. o ≡ polys_by f ts.now sign) }
{
    match (f, ts) {
        (Some(Primitive::Less), [a, b]) => less_polys(alloc, a, b, sign),
        (Some(Primitive::Equal), [a, b]) if sign => equal_polys(alloc, a, b),
        _ => Ok(None),
    }
}

/// The polynomials that hold where a term has the sign: of `(< a b)` it is `b - a - 1`, of its negation
/// `a - b`; of `(equal a b)` they are `a - b` and `b - a`. It is the empty list exactly where a literal is
/// another one, or a number on the way leaves 128 bits. See the manual's topic `linear-arithmetic`.
pub fn of_literal(alloc: Global, t: &Term, sign: bool) -> Result<Seq<Poly>, NoMemory>
    ensures { IfOk result (λ ps. ps ≡ of_literal t.now sign) }
{
    match &t.shape {
        Shape::Call(f, ts) => match polys_by(alloc, primitive_of(f), ts.as_slice(), sign)? {
            Some(polys) => Ok(polys),
            None => Ok(Seq::new(alloc)),
        },
        Shape::Var(_) => Ok(Seq::new(alloc)),
        Shape::Quote(_) => Ok(Seq::new(alloc)),
    }
}
