//! Going back to earlier entries of a world, and entries that are alike but for a mask.

use crate::given::{first_world, symbol};
use ap_list::Seq;
use ap_value::Value;
use ap_world::{
    Entry, Mask, Rune, RuneKind, Theory, World, alike_entry, copy_function, same_entry,
};
use std::alloc::Global;
use std::process::Abort;

/// The theory that disables rewriting by `car-cons`.
fn without_one(rt: &impl Abort, alloc: Global) -> Theory {
    let mut disabled = Seq::new(alloc);
    disabled
        .push(Rune::Rewrite(symbol(rt, alloc, b"CAR-CONS")))
        .expect(rt, "memory");
    Theory::disabling(alloc, disabled).expect(rt, "memory")
}

/// Adds the constant `*d*`, and goes back to the entries before it with that theory.
fn go_back(rt: &impl Abort, alloc: Global, world: &mut World) {
    world.recall_sound();
    let count = world.count();
    let theory = without_one(rt, alloc);
    let added = world.add_constant(alloc, symbol(rt, alloc, b"*D*"), Value::Int(8));
    added.expect(rt, "a new name");
    world.back_to(count, theory);
    assert_eq!(rt; world.count(), count);
}

/// Each row: a name, whether the world has it after it went back, and whether rewriting by it is enabled.
const AFTER: &[(&[u8], bool, bool)] = &[
    (b"LEN", true, true),
    (b"*D*", false, true),
    (b"CAR-CONS", true, false),
    (b"CDR-CONS", true, true),
];

/// Compares a row with the world.
fn expect_name(
    rt: &impl Abort,
    alloc: Global,
    w: &World,
    name: &[u8],
    is_there: bool,
    is_enabled: bool,
) {
    let name = symbol(rt, alloc, name);
    assert_eq!(rt; w.has(&name), is_there);
    assert_eq!(rt; w.enabled_for(RuneKind::Rewrite, &name), is_enabled);
}

/// A function of the world with another mask.
fn masked(rt: &impl Abort, alloc: Global, w: &World, name: &str, mask: u16) -> Entry {
    let name = symbol(rt, alloc, name.as_bytes());
    let function = w.lookup_fun(&name).expect(rt, "a function");
    let mut function = copy_function(alloc, function).expect(rt, "memory");
    function.mask = Mask(mask);
    Entry::Function(function)
}

/// Each row: a function, its mask and another mask, another function, and whether the two are alike, and one.
const PAIRS: &[(&str, u16, u16, &str, bool, bool)] = &[
    ("LEN", 3, 3, "LEN", true, true),
    ("LEN", 3, 5, "LEN", true, false),
    ("LEN", 3, 3, "LENGTH", false, false),
    ("NATP", 24, 24, "POSP", false, false),
];

/// Compares two functions, the first of this name.
fn compare(rt: &impl Abort, name: &str, a: &Entry, b: &Entry, alike: bool, same: bool) {
    assert_eq!(rt; alike_entry(a, b), alike, "{name}");
    assert_eq!(rt; same_entry(a, b), same, "{name}");
}

/// Compares the two functions of a row.
fn expect_pair(
    rt: &impl Abort,
    alloc: Global,
    w: &World,
    row: &(&str, u16, u16, &str, bool, bool),
) {
    let (name, mask, other_mask, other_name, alike, same) = *row;
    let a = masked(rt, alloc, w, name, mask);
    let b = masked(rt, alloc, w, other_name, other_mask);
    compare(rt, name, &a, &b, alike, same);
}

#[test]
fn a_world_goes_back_with_a_theory_and_functions_are_alike_whatever_their_masks(rt: HostRuntime) {
    let mut world = first_world(&rt, rt.alloc());
    for row in PAIRS {
        expect_pair(&rt, rt.alloc(), &world, row);
    }
    go_back(&rt, rt.alloc(), &mut world);
    for (name, is_there, is_enabled) in AFTER {
        expect_name(&rt, rt.alloc(), &world, *name, *is_there, *is_enabled);
    }
}
