use crate::expect::expect;
use crate::polys::{literals, put_literals};
use ap_linear::{Linear, LinearOracle, Poly, refute};
use ap_list::{Bytes, NoMemory, Seq};
use ap_tests_terms::sides;
use ap_world::World;
use std::alloc::Global;
use std::process::Abort;

/// Literals, and the multipliers that refute their polynomials.
const LISTS: &str = r#"+ (< y x) ; - (< y x) => 1 1
- (< x 0) => none
+ (< x y) ; + (< y z) ; + (< z x) => 1 1 1
- (< y x) ; - (< x y) => none
+ (< (+ x y) 1) ; + (< 0 x) ; + (< 0 y) => 1 1 1
+ (< 0 x) ; - (< 0 x) ; + (< 0 y) ; - (< 0 y) => 0 0 1 1
+ (< 0 z) ; - (< 0 z) ; + (< 0 (len a)) ; - (< 0 (len a)) => 0 0 1 1
- (< (* 4 y) (* 2 x)) ; - (< 5 0) ; + (< (* 6 y) (* 3 x)) => 3 0 2
+ (< (* 1267650600228229401496703205376 x) (* 1267650600228229401496703205376 y)) ; - (< (* 1267650600228229401496703205376 x) (* 1267650600228229401496703205376 y)) => 1 1
- (< (* 170141183460469231731687303715884105727 x) y) ; - (< y (- x)) ; + (< x 0) => none
- (< (* 1267650600228229401496703205376 x) 1) ; + (< (* 3 x) 1) => none
- (< (* 3 x) 1) ; + (< (* 1267650600228229401496703205376 x) 1) ; + (< x 0) => 1 0 3
- (< (+ (* 2 y) (* 85070591730234615865843651857942052864 x)) 0) ; + (< (* 3 y) 0) ; + (< x 0) => none
- (< (* 3 y) 0) ; - (< (* 85070591730234615865843651857942052864 x) (* 2 y)) ; + (< x 0) => none
- (< (* 3 z) 0) ; + (< (* 1099511627776 z) y) ; + (< (* 1099511627776 y) 0) => none
- (< (* 3 z) 0) ; + (< (* 1048576 z) y) ; + (< (* 1048576 y) 0) => 1099511627776 3145728 3
+ (< x x) => 1
+ (< 3 5) => none
+ (< 5 3) => 1"#;

/// The multipliers as text, or `none`.
fn shown(alloc: Global, found: Option<Seq<u64>>) -> Result<Bytes, NoMemory> {
    let mut out = Bytes::new(alloc);
    let Some(by) = found else {
        out.extend(b"none")?;
        return Ok(out);
    };
    for n in by.as_slice() {
        if !out.is_empty() {
            out.push(b' ')?;
        }
        let number = format!(in alloc; "{n}")?;
        out.extend(number.as_bytes())?;
    }
    Ok(out)
}

/// The multipliers that refute the polynomials of literals as text, or `none`.
fn certificate(alloc: Global, w: &World, text: &str) -> Result<Bytes, NoMemory> {
    let polys = literals(alloc, text)?;
    let found = Linear.refute(alloc, w, &polys)?;
    shown(alloc, found)
}

/// Compares each list's certificate with what its line says.
fn expect_certificates(rt: &impl Abort, alloc: Global, w: &World) -> Result<(), NoMemory> {
    for line in LISTS.lines() {
        let (text, wanted) = sides(line);
        let found = certificate(alloc, w, text)?;
        expect(rt, found.as_slice(), wanted, line);
    }
    Ok(())
}

/// Puts a literal's polynomials so many times, but for another one's at a place.
fn put_many(
    alloc: Global,
    polys: &mut Seq<Poly>,
    count: usize,
    text: &str,
    place: usize,
    other: &str,
) -> Result<(), NoMemory> {
    for i in 0..count {
        let text = if i == place { other } else { text };
        put_literals(alloc, polys, text)?;
    }
    Ok(())
}

/// So many times `x` and `100 - x`, but for one `x - 10` and one `9 - x`.
fn crowd(alloc: Global, count: usize, low: usize, high: usize) -> Result<Seq<Poly>, NoMemory> {
    let mut polys = Seq::new(alloc);
    put_many(alloc, &mut polys, count, "- (< x 0)", low, "- (< x 10)")?;
    put_many(alloc, &mut polys, count, "- (< 100 x)", high, "- (< 9 x)")?;
    Ok(polys)
}

/// Whether such a crowd is refuted.
fn is_refuted(
    alloc: Global,
    w: &World,
    count: usize,
    low: usize,
    high: usize,
) -> Result<bool, NoMemory> {
    let polys = crowd(alloc, count, low, high)?;
    Ok(refute(alloc, w, &polys)?.is_some())
}

/// Each row: a crowd's count and its two places, and whether it is refuted.
const CROWDS: &[(usize, usize, usize, bool)] = &[
    // 64 sums, the last one negative
    (8, 7, 7, true),
    // 81 sums: the 64th negative, the 65th, the last
    (9, 7, 0, true),
    (9, 7, 1, false),
    (9, 8, 8, false),
];

fn expect_crowds(rt: &impl Abort, alloc: Global, w: &World) -> Result<(), NoMemory> {
    for (count, low, high, wanted) in CROWDS {
        let found = is_refuted(alloc, w, *count, *low, *high)?;
        assert_eq!(rt; found, *wanted, "{count} {low} {high}");
    }
    Ok(())
}

#[test]
fn each_list_has_its_first_certificate_of_the_first_64_sums(
    rt: HostRuntime,
) -> Result<(), NoMemory> {
    assert_eq!(rt; LISTS.lines().count(), 19);
    let world = World::bare(rt.alloc());
    expect_certificates(&rt, rt.alloc(), &world)?;
    expect_crowds(&rt, rt.alloc(), &world)
}
