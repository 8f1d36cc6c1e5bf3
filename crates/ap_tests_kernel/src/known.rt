//! The tests that supply what a row of the kernel asks.
ghost use Rattle.std.specs.Prelude.{◌≡◌, IsTrue, IfOk, map};
ghost use Rattle.ap_list.specs.Lists.{all_true};
ghost use Rattle.ap_world.specs.Sound.{known};
ghost use Rattle.ap_world.specs.World.{function_of};
ghost use Rattle.ap_world.specs.Facts.{KnownFacts};
ghost use Rattle.ap_kernel.specs.Standing.{DefinesNot};

use ap_eval::is_known;
use ap_ground::ground_world;
use ap_ground::laws::ground_has_its_functions;
use ap_list::NoMemory;
use ap_term::Term;
use ap_world::World;
use std::alloc::Global;

/// The ground world, which every book begins with.
pub(crate) fn first_world(alloc: Global) -> Result<World, NoMemory>
    ensures { IfOk result (λ w. DefinesNot (function_of w.entries)) }
{
    ground_has_its_functions();
    let world = ground_world(alloc)?;
    Ok(world)
}

/// Whether terms are terms of the world.
pub(crate) fn are_known(w: &World, ts: &[Term]) -> bool
    ensures { result ≡ all_true (map (known (function_of w.now.entries)) ts.now) }
{
    for t in ts {
        if !is_known(w, t) {
            return false;
        }
    }
    true
}

/// Whether the terms of facts are terms of the world.
pub(crate) fn are_facts(w: &World, facts: &[(Term, bool)]) -> bool
    ensures { IsTrue result → KnownFacts (function_of w.now.entries) facts.now }
{
    for (t, _) in facts {
        if !is_known(w, t) {
            return false;
        }
    }
    true
}
