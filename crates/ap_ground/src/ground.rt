//! The world that every book begins with.
ghost use Rattle.std.specs.Prelude.{◌≡◌, [], ◌∷◌, ◌++◌, IfOk, OnOk, map};
ghost use Rattle.std.specs.Prelude.{false};
ghost use Rattle.ap_world.specs.Sound.{GoodTheorem};
ghost use Rattle.ap_world.specs.World.{function_of, has_name, added};
ghost use Rattle.ap_world.specs.declared.entry.Entry.TheVariants as Entry;
ghost use Rattle.ap_world.specs.Ground.{ground, ground_functions, ground_rules};
ghost use Rattle.ap_ground.specs.Tabled.{truths_and_equality, recognisers, comparisons, lists};

use crate::functions::{COMPARISONS, LISTS, RECOGNISERS, TRUTHS_AND_EQUALITY};
use crate::rows;
use crate::rules::RULES;
use ap_list::{NoMemory, Seq};
use ap_world::{AddError, Function, Theorem, World};
use std::alloc::{AllocError, Global};

/// The functions of truth values, conses and equality.
fn truths_and_equality(alloc: Global) -> Result<Seq<Function>, NoMemory>
    ensures { IfOk result (λ fs. fs ≡ truths_and_equality) }
{
    rows::functions(alloc, TRUTHS_AND_EQUALITY)
}

/// Those that tell numbers and truth values, and make an integer of a value.
fn recognisers(alloc: Global) -> Result<Seq<Function>, NoMemory>
    ensures { IfOk result (λ fs. fs ≡ recognisers) }
{
    rows::functions(alloc, RECOGNISERS)
}

/// Those that make a natural of a value, and compare numbers.
fn comparisons(alloc: Global) -> Result<Seq<Function>, NoMemory>
    ensures { IfOk result (λ fs. fs ≡ comparisons) }
{
    rows::functions(alloc, COMPARISONS)
}

/// Those of lists.
fn lists(alloc: Global) -> Result<Seq<Function>, NoMemory>
    ensures { IfOk result (λ fs. fs ≡ lists) }
{
    rows::functions(alloc, LISTS)
}

/// The functions, in the order of the tables.
fn functions(alloc: Global) -> Result<Seq<Function>, NoMemory>
    ensures { IfOk result (λ fs. fs ≡ ground_functions) }
{
    let mut all = truths_and_equality(alloc)?;
    all.append(recognisers(alloc)?)?;
    all.append(comparisons(alloc)?)?;
    all.append(lists(alloc)?)?;
    Ok(all)
}

/// The rules, oldest first.
fn rules(alloc: Global) -> Result<Seq<Theorem>, NoMemory>
    ensures { IfOk result (λ us. us ≡ ground_rules) }
{
    rows::rules(alloc, RULES)
}

/// Adds a rule.
fn add_rule(alloc: Global, world: &mut World, rule: Theorem) -> Result<(), NoMemory>
    requires good { GoodTheorem (function_of world.old.entries) rule }
    requires free { has_name world.old.entries rule.name ≡ false }
    ensures { OnOk result (world.new ≡ added world.old (Entry.Theorem rule)) }
{
    let Theorem {
        name,
        term,
        classes,
    } = rule;
    match world.add_theorem(alloc, name, term, classes) {
        Ok(()) => Ok(()),
        Err(AddError::NoMemory) => Err(AllocError),
        Err(AddError::NameTaken) => unreachable!(),
    }
}

/// The ground world: the functions and rules that every book begins with, everything enabled. See the
/// manual's topics on each function.
pub fn ground_world(alloc: Global) -> Result<World, NoMemory>
    ensures { IfOk result (λ w. w ≡ record { entries = ground; theory = record { disabled = [] } }) }
{
    let mut world = World::bare(alloc);
    match world.add_functions(alloc, functions(alloc)?) {
        Ok(()) => {}
        Err(AddError::NoMemory) => return Err(AllocError),
        Err(AddError::NameTaken) => unreachable!(),
    }
    for rule in rules(alloc)?.into_vec() {
        add_rule(alloc, &mut world, rule)?;
    }
    Ok(world)
}
