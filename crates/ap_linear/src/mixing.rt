// The sum of two rows in which an atom vanishes.
ghost use Rattle.std.specs.Prelude.{◌≡◌, ◌+◌, ◌*◌, ◌<◌, pos, ◌+ℤ◌, ◌*ℤ◌, IfOk};
ghost use Rattle.ap_poly.specs.Polynomials.{narrow};
ghost use Rattle.ap_poly.specs.Elimination.{gcd, multiplier, mixed};
ghost use Rattle.ap_linear.specs.Steps.{mix};
ghost use Rattle.ap_linear.specs.Ranked.{sum_of, times, sum_of_two, sums_of, constant_of, summed, combined, meeting};

use crate::rows::{Ranked, head, tail};
use ap_list::{NoMemory, Seq};
use std::alloc::Global;

/// The greatest common divisor, by Euclid's steps.
fn gcd(a: u128, b: u128) -> u128
    ensures { result ≡ gcd a b }
{
    let mut m = a;
    let mut n = b;
    while n != 0 {
        let rest = m % n;
        m = n;
        n = rest;
    }
    m
}

/// A multiplier, where 64 bits hold it.
fn multiplier(n: u128) -> Option<u64>
    ensures { result ≡ multiplier n }
{
    if n <= u64::MAX as u128 {
        Some(n as u64)
    } else {
        None
    }
}

/// The product as a multiplier.
fn product(m: u64, n: u64) -> Option<u64>
    ensures { result ≡ multiplier (m * n) }
{
    m.checked_mul(n)
}

/// The sum as a multiplier.
fn sum(m: u64, n: u64) -> Option<u64>
    ensures { result ≡ multiplier (m + n) }
{
    m.checked_add(n)
}

/// So often the one and so often the other multiplier.
fn mix(k: u64, x: u64, l: u64, y: u64) -> Option<u64>
    ensures { result ≡ mix k x l y }
{
    let first = product(k, x)?;
    let second = product(l, y)?;
    sum(first, second)
}

/// `k` times the first multipliers and `l` times the second. `None` where one leaves 64 bits.
fn mixed(
    alloc: Global,
    k: u64,
    xs: &[u64],
    l: u64,
    ys: &[u64],
) -> Result<Option<Seq<u64>>, NoMemory>
    ensures { IfOk result (λ o. o ≡ mixed k xs.now l ys.now) }
{
    let mut by = Seq::new(alloc);
    let mut left = xs;
    let mut right = ys;
    while let [x, more @ ..] = left {
        let [y, rest @ ..] = right else {
            return Ok(Some(by));
        };
        let Some(n) = mix(k, *x, l, *y) else {
            return Ok(None);
        };
        by.push(n)?;
        left = more;
        right = rest;
    }
    Ok(Some(by))
}

/// The product, where 128 bits hold it.
fn narrow_product(m: i128, n: i128) -> Option<i128>
    ensures { result ≡ narrow (m *ℤ n) }
{
    m.checked_mul(n)
}

/// A coefficient so many times, of which 0 stays. `None` where it leaves 128 bits.
fn times(k: u64, c: i128) -> Option<i128>
    ensures { result ≡ times k c }
{
    if c == 0 {
        Some(0)
    } else {
        narrow_product(i128::from(k), c)
    }
}

/// The sum, where 128 bits hold it.
fn narrow_sum(m: i128, n: i128) -> Option<i128>
    ensures { result ≡ narrow (m +ℤ n) }
{
    m.checked_add(n)
}

/// The sum, of which 0 is no side. `None` where it leaves 128 bits.
fn sum_of(a: i128, b: i128) -> Option<i128>
    ensures { result ≡ sum_of a b }
{
    if a == 0 {
        return Some(b);
    }
    if b == 0 {
        return Some(a);
    }
    narrow_sum(a, b)
}

/// So many of one coefficient and so many of another. `None` where a number leaves 128 bits.
fn sum_of_two(k: u64, a: i128, l: u64, b: i128) -> Option<i128>
    ensures { result ≡ sum_of_two k a l b }
{
    let first = times(k, a)?;
    let second = times(l, b)?;
    sum_of(first, second)
}

/// So many of one constant and so many of another. `None` where a number leaves 128 bits.
fn constant_of(k: u64, a: i128, l: u64, b: i128) -> Option<i128>
    ensures { result ≡ constant_of k a l b }
{
    let first = narrow_product(i128::from(k), a)?;
    let second = narrow_product(i128::from(l), b)?;
    narrow_sum(first, second)
}

/// So many of the first coefficients and so many of the second, of so many atoms. `None` where a number leaves 128 bits.
fn sums_of(
    alloc: Global,
    atoms: usize,
    k: u64,
    xs: &[i128],
    l: u64,
    ys: &[i128],
) -> Result<Option<Seq<i128>>, NoMemory>
    ensures { IfOk result (λ o. o ≡ sums_of atoms k xs.now l ys.now) }
{
    let mut out = Seq::with_capacity(alloc, atoms)?;
    let mut count = atoms;
    let mut left = xs;
    let mut right = ys;
    while count > 0 {
        let Some(c) = sum_of_two(k, head(left), l, head(right)) else {
            return Ok(None);
        };
        out.push(c)?;
        left = tail(left);
        right = tail(right);
        count -= 1;
    }
    Ok(Some(out))
}

/// So many of one row and so many of another, of so many atoms. `None` where a number leaves its type.
fn summed(
    alloc: Global,
    atoms: usize,
    k: u64,
    p: &Ranked,
    l: u64,
    q: &Ranked,
) -> Result<Option<Ranked>, NoMemory>
    ensures { IfOk result (λ o. o ≡ summed atoms k p.now l q.now) }
{
    let Some(constant) = constant_of(k, p.constant, l, q.constant) else {
        return Ok(None);
    };
    let xs = p.coefficients.as_slice();
    let Some(coefficients) = sums_of(alloc, atoms, k, xs, l, q.coefficients.as_slice())? else {
        return Ok(None);
    };
    match mixed(alloc, k, p.by.as_slice(), l, q.by.as_slice())? {
        Some(by) => Ok(Some(Ranked {
            constant,
            coefficients,
            by,
        })),
        None => Ok(None),
    }
}

/// The same, where the numbers are multipliers.
fn combined(
    alloc: Global,
    atoms: usize,
    k: u128,
    p: &Ranked,
    l: u128,
    q: &Ranked,
) -> Result<Option<Ranked>, NoMemory>
    ensures { IfOk result (λ o. o ≡ combined atoms k p.now l q.now) }
{
    let Some(k) = multiplier(k) else {
        return Ok(None);
    };
    let Some(l) = multiplier(l) else {
        return Ok(None);
    };
    summed(alloc, atoms, k, p, l, q)
}

/// Of a coefficient of each row, taken without its sign, the least multiples in which they meet.
pub(crate) fn meeting(
    alloc: Global,
    atoms: usize,
    c: u128,
    p: &Ranked,
    d: u128,
    q: &Ranked,
) -> Result<Option<Ranked>, NoMemory>
    requires { 0 < c }
    ensures { IfOk result (λ o. o ≡ meeting atoms c p.now d q.now) }
{
    let divisor = gcd(c, d);
    combined(alloc, atoms, d / divisor, p, c / divisor, q)
}
