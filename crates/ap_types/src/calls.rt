ghost use Rattle.std.specs.Prelude.{◌≡◌};
ghost use Rattle.ap_world.specs.Primitives.{prim_of};
ghost use Rattle.ap_world.specs.Typing.{any_empty, one_types, two_types, other_types, table, call_types};
ghost use Rattle.ap_types.specs.Settings.{types_in};

use crate::base::Base;
use crate::rows::{coerce_types, over_one, over_two, test_types, tested};
use crate::rules::function_types;
use ap_kernel::is_symbol;
use ap_term::Term;
use ap_value::Symbol;
use ap_world::{Primitive, World, masks};
use std::alloc::Global;

/// A function whose calls have a mask of their own, whatever the world keeps of it.
#[derive(Clone, Copy, Drop)]
pub(crate) struct Own<'a> {
    pub(crate) name: &'a Symbol,
    pub(crate) mask: u16,
}

/// What stays the same while a term's types are computed.
#[derive(Drop)]
pub(crate) struct Setting<'a, 'w> {
    pub(crate) alloc: Global,
    pub(crate) w: &'w World,
    /// The facts that the term is asked under.
    pub(crate) base: Base<'a>,
    pub(crate) own: Option<Own<'a>>,
}

/// The types of a function's calls.
fn types_in(s: &Setting<'_, '_>, f: &Symbol) -> u16
    ensures { result ≡ types_in s.now.w.now s.now.own f.now }
{
    match s.own {
        Some(own) => {
            if is_symbol(f, own.name) {
                own.mask
            } else {
                function_types(s.w, f)
            }
        }
        None => function_types(s.w, f),
    }
}

/// Whether an argument has no type.
fn any_empty(masks: &[u16]) -> bool
    ensures { result ≡ any_empty masks.now }
{
    for mask in masks {
        if *mask == 0 {
            return true;
        }
    }
    false
}

/// A call of one argument.
fn one_types(
    s: &Setting<'_, '_>,
    f: &Symbol,
    p: Option<Primitive>,
    test: Option<u16>,
    mask: u16,
) -> u16
    ensures { result ≡ one_types (types_in s.now.w.now s.now.own) f.now p test mask }
{
    match (test, p) {
        (Some(types), _) => test_types(types, mask),
        (None, Some(p)) => over_one(p, mask),
        (None, None) => types_in(s, f),
    }
}

/// A call of two arguments.
fn two_types(
    s: &Setting<'_, '_>,
    f: &Symbol,
    p: Option<Primitive>,
    ts: &[Term],
    a: u16,
    b: u16,
) -> u16
    ensures { result ≡ two_types (types_in s.now.w.now s.now.own) f.now p ts.now a b }
{
    match p {
        Some(Primitive::Coerce) => coerce_types(ts),
        Some(p) => over_two(p, a, b),
        None => types_in(s, f),
    }
}

/// A call of another number of arguments.
fn other_types(s: &Setting<'_, '_>, f: &Symbol, p: Option<Primitive>) -> u16
    ensures { result ≡ other_types (types_in s.now.w.now s.now.own) f.now p }
{
    match p {
        Some(_) => masks::ALL,
        None => types_in(s, f),
    }
}

/// A call by its head, its arguments and their masks.
pub(crate) fn call_types(
    s: &Setting<'_, '_>,
    f: &Symbol,
    p: Option<Primitive>,
    ts: &[Term],
    masks: &[u16],
) -> u16
    ensures { result ≡ call_types (types_in s.now.w.now s.now.own) f.now p ts.now masks.now }
{
    if any_empty(masks) {
        return 0;
    }
    match masks {
        [mask] => one_types(s, f, p, tested(f), *mask),
        [a, b] => two_types(s, f, p, ts, *a, *b),
        _ => other_types(s, f, p),
    }
}
