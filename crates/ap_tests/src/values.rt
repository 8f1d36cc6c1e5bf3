use ap_tests_terms::value;
use ap_value::{NoMemory, Value, acl2_count, copy, nodes, same};
use std::alloc::Global;
use std::test::Fail;

/// So many conses, each in the car of the next, or in its cdr.
fn chain(alloc: Global, depth: u32, in_car: bool) -> Result<Value, NoMemory> {
    let mut v = Value::Int(0);
    for _ in 0..depth {
        v = if in_car {
            Value::cons(alloc, v, Value::Int(0))?
        } else {
            Value::cons(alloc, Value::Int(0), v)?
        };
    }
    Ok(v)
}

/// What a value is made of.
#[derive(Clone, Copy)]
enum Made {
    Read(&'static str),
    Chr(u8),
    /// So many conses, each in the car of the next.
    InCar(u32),
    /// So many conses, each in the cdr of the next.
    InCdr(u32),
}

/// Each row: what a value is made of, its nodes, and its `acl2-count`.
const ROWS: &[(Made, u64, u128)] = &[
    (Made::Read("-3"), 1, 3),
    (
        Made::Read("-170141183460469231731687303715884105728"),
        1,
        170_141_183_460_469_231_731_687_303_715_884_105_728,
    ),
    (Made::Chr(255), 1, 0),
    (Made::Read("\"abcd\""), 5, 4),
    (Made::Read("(car . :car)"), 3, 1),
    (Made::Read("(#\\a . \"abc\")"), 6, 4),
    (Made::InCar(4096), 8193, 4096),
    (Made::InCdr(4096), 8193, 4096),
];

/// The value that is made so.
fn value_of(alloc: Global, made: Made) -> Result<Value, NoMemory> {
    match made {
        Made::Read(text) => value(alloc, text),
        Made::Chr(code) => Ok(Value::Chr(code)),
        Made::InCar(depth) => chain(alloc, depth, true),
        Made::InCdr(depth) => chain(alloc, depth, false),
    }
}

/// Whether a value's copy is the same, the copy's counts, and whether the value is the character `a`.
type Counts = (bool, Option<u64>, Option<u128>, bool);

fn counts(v: &Value, again: &Value) -> Counts {
    let is_a = same(v, &Value::Chr(97));
    (same(v, again), nodes(again), acl2_count(again), is_a)
}

fn counted(alloc: Global, of: Made) -> Result<Counts, NoMemory> {
    let v = value_of(alloc, of)?;
    let again = copy(alloc, &v)?;
    Ok(counts(&v, &again))
}

/// Whether the constants of two texts are the same.
fn are_same(alloc: Global, a: &str, b: &str) -> Result<bool, NoMemory> {
    let v = value(alloc, a)?;
    Ok(same(&v, &value(alloc, b)?))
}

#[test]
fn values_are_copied_compared_and_counted(rt: HostRuntime) -> Result<(), Fail> {
    for (made, size, count) in ROWS {
        let found = counted(rt.alloc(), *made)?;
        assert_eq!(rt; found, (true, Some(*size), Some(*count), false));
    }
    assert!(rt; !are_same(rt.alloc(), "car", ":car")?);
    assert!(rt; !are_same(rt.alloc(), "car", "\"CAR\"")?);
    Ok(())
}
