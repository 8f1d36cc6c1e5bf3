//! What a row is read from, and what it is compared with.
ghost use Rattle.std.specs.Prelude.{◌≡◌, IsTrue};
ghost use Rattle.ap_value.specs.Values.{acl2};
ghost use Rattle.ap_world.specs.Sound.{known};
ghost use Rattle.ap_world.specs.World.{function_of};
ghost use Rattle.ap_kernel.specs.Standing.{DefinesNot};

use crate::expect::expect as compare;
use ap_eval::is_known;
use ap_ground::ground_world;
use ap_ground::laws::ground_has_its_functions;
use ap_kernel::{Equiv, Mode, World};
use ap_list::{Bytes, Seq};
use ap_print::print_term;
use ap_reader::Form;
use ap_term::Term;
use ap_tests_terms::{sides, written};
use ap_value::{Symbol, acl2};
use std::alloc::Global;
use std::process::Abort;

/// The ground world, which every book begins with.
pub(crate) fn first_world(rt: &impl Abort, alloc: Global) -> World
    ensures { DefinesNot (function_of result.entries) }
{
    ground_has_its_functions();
    ground_world(alloc).expect(rt, "memory")
}

/// A symbol.
pub(crate) fn symbol(rt: &impl Abort, alloc: Global, name: &[u8]) -> Symbol
    ensures { result ≡ acl2 name.now }
{
    acl2(alloc, name).expect(rt, "memory")
}

/// The term of a form, a term of the world.
pub(crate) fn term(rt: &impl Abort, alloc: Global, w: &World, form: &Form) -> Term
    ensures { IsTrue (known (function_of w.now.entries) result) }
{
    let t = written(alloc, form).expect(rt, "a term");
    assert!(rt; is_known(w, &t));
    t
}

/// A call on two terms.
fn call_on(rt: &impl Abort, alloc: Global, head: Symbol, a: Term, b: Term) -> Term {
    let mut parts = Seq::new(alloc);
    parts.push(a).expect(rt, "memory");
    parts.push(b).expect(rt, "memory");
    Term::call(alloc, head, parts).expect(rt, "memory")
}

/// An equivalence as the call of its mode on its sides.
fn printed(rt: &impl Abort, alloc: Global, q: Equiv) -> Bytes {
    let (_, mode, lhs, rhs) = q.into_parts();
    let head = match mode {
        Mode::Equal => symbol(rt, alloc, b"EQUAL"),
        Mode::Iff => symbol(rt, alloc, b"IFF"),
    };
    let t = call_on(rt, alloc, head, lhs, rhs);
    print_term(alloc, &t).expect(rt, "memory")
}

/// The same, or a word where there is none.
fn shown(rt: &impl Abort, alloc: Global, found: Option<Equiv>) -> Bytes {
    match found {
        Some(q) => printed(rt, alloc, q),
        None => Bytes::from_slice(alloc, b"none").expect(rt, "memory"),
    }
}

/// Compares an answer with what the line says.
pub(crate) fn expect(rt: &impl Abort, alloc: Global, line: &str, found: Option<Equiv>) {
    let text = shown(rt, alloc, found);
    compare(rt, text.as_slice(), sides(line).1, line);
}
