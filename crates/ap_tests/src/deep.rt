//! The deepest terms and values that a book may have, on a thread of 2 MiB, which isn't the one that made
//! them. A reader stops at 400 lists within each other, and a translation at 4,096 nodes. The steps of `rt try`
//! take more stack than those of a built program, so there the first of these tests runs out of it.
use ap_print::print_term;
use ap_term::{
    NoMemory, Seq, Shape, Term, Value, copy_term, copy_terms, is_same, owned, same_term, size,
    term_less,
};
use ap_value::acl2;
use std::alloc::{AllocError, Global};
use std::test::Fail;
use std::thread::{Builder, Threads};

/// The stack of a thread.
const STACK: usize = 2 << 20;

/// The most nodes of a translated term.
const MOST_NODES: u32 = 4096;

/// `(F t)`
fn around(alloc: Global, t: Term) -> Result<Term, NoMemory> {
    let mut arguments = Seq::new(alloc);
    arguments.push(t)?;
    Term::call(alloc, acl2(alloc, b"F")?, arguments)
}

/// `(F (F .. X))` of so many nodes.
fn chain(alloc: Global, count: u32) -> Result<Term, NoMemory> {
    let mut t = Term::var(acl2(alloc, b"X")?);
    for _ in 1..count {
        t = around(alloc, t)?;
    }
    Ok(t)
}

/// `'(((.. . 0) . 0) . 0)` of so many conses.
fn nested(alloc: Global, count: u32) -> Result<Term, NoMemory> {
    let mut v = Value::Int(0);
    for _ in 0..count {
        v = Value::cons(alloc, v, Value::Int(0))?;
    }
    Ok(Term::quote(v))
}

/// The deepest term twice, or the deepest constant.
fn deepest(alloc: Global, is_call: bool) -> Result<Seq<Term>, NoMemory> {
    let mut ts = Seq::new(alloc);
    for _ in 0..2 {
        ts.push(if is_call {
            chain(alloc, MOST_NODES)?
        } else {
            nested(alloc, MOST_NODES)?
        })?;
    }
    Ok(ts)
}

/// Whether a term, a copy of it and another term are one by each test, its nodes, and the length of its text.
type Found = (bool, Option<u64>, usize);

/// The same of a term, where the copy is dropped.
fn looked_at(alloc: Global, t: &Term, other: &Term) -> Result<Found, NoMemory> {
    let shared = copy_term(alloc, t)?;
    let one = same_term(&shared, other) && is_same(t, other) && term_less(t, other) == Some(false);
    Ok((one, size(t), print_term(alloc, &shared)?.len()))
}

/// The same of the first of two terms, where both are dropped.
fn walked(alloc: Global, ts: Seq<Term>) -> Result<Found, NoMemory> {
    match ts.as_slice() {
        [t, other] => looked_at(alloc, t, other),
        _ => Err(AllocError),
    }
}

/// What another thread finds of two terms, which are dropped there.
fn elsewhere(rt: &impl Threads, alloc: Global, ts: Seq<Term>) -> Result<Found, NoMemory> {
    let spawned = Builder::new()
        .stack_size(STACK)
        .spawn(rt, move || walked(alloc, ts));
    let Ok(child) = spawned else {
        return Err(AllocError);
    };
    child.join(rt)
}

/// The same of the deepest, and how many nodes each has that shares all with what was dropped.
fn kept(rt: &impl Threads, alloc: Global, is_call: bool) -> Result<(Found, Option<u64>), NoMemory> {
    let ts = deepest(alloc, is_call)?;
    let kept = copy_terms(alloc, ts.as_slice())?;
    let found = elsewhere(rt, alloc, ts)?;
    Ok((found, kept.as_slice().first().and_then(|t| size(t))))
}

/// Each row: whether it is a call or a constant, its nodes, and the length of its text.
const ROWS: &[(bool, u64, usize)] = &[(true, 4096, 4 * 4095 + 1), (false, 8193, 6 * 4096 + 2)];

#[test]
fn the_deepest_are_copied_and_dropped_elsewhere_and_a_copy_outlives_them(
    rt: HostRuntime,
) -> Result<(), Fail> {
    for (is_call, nodes, length) in ROWS {
        let found = kept(&rt, rt.alloc(), *is_call)?;
        assert_eq!(rt; found, ((true, Some(*nodes), *length), Some(*nodes)));
    }
    Ok(())
}

/// `(F (F X))`, alone or before its copy.
fn shared(alloc: Global, is_alone: bool) -> Result<Seq<Term>, NoMemory> {
    let mut ts = Seq::new(alloc);
    ts.push(chain(alloc, 3)?)?;
    if !is_alone {
        let copies = copy_terms(alloc, ts.as_slice())?;
        ts.append(copies)?;
    }
    Ok(ts)
}

/// How many arguments the last of terms has, which are taken from it, and the nodes of the term before it.
fn taken(alloc: Global, mut ts: Seq<Term>) -> Result<(usize, Option<u64>), NoMemory> {
    match ts.pop() {
        Some(
            Term {
                shape: Shape::Call(_head, arguments),
            },
        ) => {
            let count = owned(alloc, arguments)?.len();
            Ok((count, ts.as_slice().first().and_then(|t| size(t))))
        }
        _ => Err(AllocError),
    }
}

#[test]
fn arguments_are_taken_from_a_call(rt: HostRuntime) -> Result<(), Fail> {
    assert_eq!(rt; taken(rt.alloc(), shared(rt.alloc(), true)?)?, (1, None));
    assert_eq!(rt;
        taken(rt.alloc(), shared(rt.alloc(), false)?)?,
        (1, Some(3))
    );
    Ok(())
}
