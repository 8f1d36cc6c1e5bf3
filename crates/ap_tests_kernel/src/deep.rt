//! A derivation deeper than goals and levels allow, made and let go on a thread of 2 MiB. Goals stand within each other 250
//! deep, rewriting goes 200 levels deep, and each adds some rows.
ghost use Rattle.std.specs.Prelude.{◌≡◌, IfOk};
ghost use Rattle.ap_world.specs.World.{function_of};
ghost use Rattle.ap_kernel.specs.Reductions.{KnownClause, Reduces, to_one};

use crate::known::{are_known, first_world};
use ap_kernel::{Clause, NoMemory, Reduction, Seq, Term, World, chain, keep};
use ap_term::copy_terms;
use ap_value::acl2;
use std::alloc::{AllocError, Global};
use std::test::Fail;
use std::thread::{Builder, Threads};

/// The stack of a thread.
const STACK: usize = 2 << 20;

/// How many reductions stand behind each other.
const DEEP: u32 = 100_000;

/// From a clause to itself.
fn kept(alloc: Global, w: &World, c: &Clause) -> Result<Reduction, NoMemory>
    requires clause { KnownClause (function_of w.now.entries) c.now }
    ensures stands { IfOk result (λ r. Reduces w.now r) }
    ensures says { IfOk result (λ r. r.says ≡ to_one c.now c.now.0) }
{
    let copy = Clause(copy_terms(alloc, c.0.as_slice())?);
    let r = keep(alloc, w, copy)?;
    Ok(r)
}

/// The same by two of them, one behind the other.
fn behind(alloc: Global, w: &World, c: &Clause, r: Reduction) -> Result<Reduction, NoMemory>
    requires clause { KnownClause (function_of w.now.entries) c.now }
    requires stands { Reduces w.now r }
    requires says { r.says ≡ to_one c.now c.now.0 }
    ensures stands { IfOk result (λ r. Reduces w.now r) }
    ensures says { IfOk result (λ r. r.says ≡ to_one c.now c.now.0) }
{
    let first = kept(alloc, w, c)?;
    let rest = Seq::from_vec(Vec::from_array(alloc, [r])?);
    let both = chain(alloc, w, first, rest)?;
    Ok(both)
}

/// The same by so many.
fn nested(alloc: Global, w: &World, c: &Clause, count: u32) -> Result<Reduction, NoMemory>
    requires clause { KnownClause (function_of w.now.entries) c.now }
    ensures stands { IfOk result (λ r. Reduces w.now r) }
    ensures says { IfOk result (λ r. r.says ≡ to_one c.now c.now.0) }
{
    let mut r = kept(alloc, w, c)?;
    for _ in 1..count {
        r = behind(alloc, w, c, r)?;
    }
    Ok(r)
}

/// How many clauses the deepest leads to, which is let go here.
fn deepest(alloc: Global) -> Result<usize, NoMemory> {
    let w = first_world(alloc)?;
    let mut literals = Seq::new(alloc);
    literals.push(Term::var(acl2(alloc, b"X")?))?;
    let c = Clause(literals);
    if !are_known(&w, c.0.as_slice()) {
        return Err(AllocError);
    }
    let r = nested(alloc, &w, &c, DEEP)?;
    Ok(r.to().len())
}

/// The same on another thread.
fn elsewhere(rt: &impl Threads, alloc: Global) -> Result<usize, NoMemory> {
    let spawned = Builder::new()
        .stack_size(STACK)
        .spawn(rt, move || deepest(alloc));
    let Ok(child) = spawned else {
        return Err(AllocError);
    };
    child.join(rt)
}

#[test]
fn a_deep_derivation_is_let_go_on_a_usual_stack(rt: HostRuntime) -> Result<(), Fail> {
    assert_eq!(rt; elsewhere(&rt, rt.alloc())?, 1);
    Ok(())
}
