//! The polynomials of literals, their sums and multiples, by tables.

use crate::expect::expect;
use crate::polys::{literal, literals, put_poly, shown};
use ap_list::{Bytes, NoMemory};
use ap_poly::{Poly, add, scale};
use ap_tests_terms::sides;
use std::alloc::{AllocError, Global};

/// A polynomial as a literal, a factor, and the multiple.
const MULTIPLES: &str =
    r#"1 - (< (* 170141183460469231731687303715884105727 x) 0) => 0 170141183460469231731687303715884105727 X
2 - (< (* 170141183460469231731687303715884105727 x) 0) => none
0 - (< (* 170141183460469231731687303715884105727 x) 0) => 0
3 + (< x y) => -3 -3 X 3 Y
2 - (< -170141183460469231731687303715884105728 x) => none
1 - (< -170141183460469231731687303715884105728 x) => -170141183460469231731687303715884105728 -1 X"#;

/// Two polynomials as literals, and their sum.
const SUMS: &str = r#"+ (< x y) ; + (< y z) => -2 -1 X 1 Z
+ (< x y) ; - (< x y) => -1
+ (< x 1) ; + (< z y) => -1 -1 X 1 Y -1 Z
- (< (* 170141183460469231731687303715884105727 x) 0) ; - (< x 0) => none
- (< 170141183460469231731687303715884105727 x) ; - (< 1 y) => none
- (< (* 170141183460469231731687303715884105727 x) 0) ; - (< y x) => 0 170141183460469231731687303715884105726 X 1 Y"#;

/// A sign with a form, and the polynomials that hold where the form has that sign.
const LITERALS: &str = r#"+ (< x y) => -1 -1 X 1 Y
- (< x y) => 0 1 X -1 Y
+ (equal x 3) => -3 1 X; 3 -1 X
- (equal x 3) => none
+ (consp x) => none
+ x => none
+ 'a => none
+ (< (+ x (* 3 y)) (- z)) => -1 -1 X -3 Y -1 Z
+ (< (* y 3) x) => -1 1 X -1 (BINARY-* Y '3)
+ (< (* 2 (* 3 x)) 7) => 6 -6 X
+ (< (* "a" x) y) => -1 1 Y
+ (< x "a") => -1 -1 X
+ (< x x) => -1
- (< (+ x y) (+ y z)) => 0 1 X -1 Z
+ (< z (len a)) => -1 -1 Z 1 (LEN A)
+ (< 170141183460469231731687303715884105727 x) => -170141183460469231731687303715884105728 1 X
+ (< x -170141183460469231731687303715884105728) => none
- (< (* 170141183460469231731687303715884105727 x) 0) => 0 170141183460469231731687303715884105727 X
- (< (* 170141183460469231731687303715884105727 (* 2 x)) 0) => none
- (< (+ (* 170141183460469231731687303715884105727 x) x) x) => none
- (< (- -170141183460469231731687303715884105728) x) => none"#;

/// A polynomial as text, or `none`.
fn answered(alloc: Global, p: Option<Poly>) -> Result<Bytes, NoMemory> {
    let mut out = Bytes::new(alloc);
    match p {
        Some(p) => put_poly(alloc, &mut out, &p)?,
        None => out.extend(b"none")?,
    }
    Ok(out)
}

/// The multiple of a polynomial, or `none`.
fn multiple(alloc: Global, text: &str) -> Result<Bytes, NoMemory> {
    let (factor, text) = text.split_once(' ').unwrap_or((text, ""));
    match literals(alloc, text)?.as_slice() {
        [p] => answered(alloc, scale(alloc, p, factor.parse().unwrap_or(9))?),
        _ => Err(AllocError),
    }
}

/// The sum of two polynomials as text, or `none`.
fn sum(alloc: Global, text: &str) -> Result<Bytes, NoMemory> {
    match literals(alloc, text)?.as_slice() {
        [p, q] => answered(alloc, add(alloc, p, q)?),
        _ => Err(AllocError),
    }
}

/// The polynomials of a literal as text, or `none`.
fn of_one(alloc: Global, text: &str) -> Result<Bytes, NoMemory> {
    let polys = literal(alloc, text)?;
    if polys.is_empty() {
        return Bytes::from_slice(alloc, b"none");
    }
    shown(alloc, polys.as_slice())
}

/// What a line of a table is about.
#[derive(Clone, Copy)]
enum Rows {
    Multiples,
    Sums,
    Literals,
}

/// Each table, and how many lines it has.
const TABLES: &[(Rows, &str, usize)] = &[
    (Rows::Multiples, MULTIPLES, 6),
    (Rows::Sums, SUMS, 6),
    (Rows::Literals, LITERALS, 21),
];

/// What a line's left side gives.
fn found(alloc: Global, rows: Rows, text: &str) -> Result<Bytes, NoMemory> {
    match rows {
        Rows::Multiples => multiple(alloc, text),
        Rows::Sums => sum(alloc, text),
        Rows::Literals => of_one(alloc, text),
    }
}

#[test]
fn literals_have_their_polynomials_which_are_added_and_multiplied(
    rt: HostRuntime,
) -> Result<(), NoMemory> {
    for (rows, table, count) in TABLES {
        assert_eq!(rt; table.lines().count(), *count);
        for line in table.lines() {
            let (text, wanted) = sides(line);
            let found = found(rt.alloc(), *rows, text)?;
            expect(&rt, found.as_slice(), wanted, line);
        }
    }
    Ok(())
}
