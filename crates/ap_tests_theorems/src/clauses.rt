//! The ground world, and the tests that supply what an induction asks.
ghost use Rattle.std.specs.Prelude.{◌≡◌, IsTrue, IfOk, map};
ghost use Rattle.ap_list.specs.Lists.{all_true};
ghost use Rattle.ap_world.specs.Sound.{known, HasFunctions};
ghost use Rattle.ap_world.specs.World.{function_of};
ghost use Rattle.ap_kernel.specs.Reductions.{KnownClause};

use ap_eval::is_known;
use ap_ground::ground_world;
use ap_ground::laws::ground_has_its_functions;
use ap_list::{NoMemory, Seq};
use ap_term::{Clause, Term};
use ap_world::World;
use std::alloc::{AllocError, Global};

/// The ground world, which every book begins with.
pub(crate) fn first_world(alloc: Global) -> Result<World, NoMemory>
    ensures { IfOk result (λ w. HasFunctions (function_of w.entries)) }
{
    ground_has_its_functions();
    let world = ground_world(alloc)?;
    Ok(world)
}

/// Whether terms are terms of the world.
fn are_known(w: &World, ts: &[Term]) -> bool
    ensures { result ≡ all_true (map (known (function_of w.now.entries)) ts.now) }
{
    for t in ts {
        if !is_known(w, t) {
            return false;
        }
    }
    true
}

/// The clause of literals, which are terms of the world.
pub(crate) fn clause(w: &World, literals: Seq<Term>) -> Result<Clause, NoMemory>
    ensures { IfOk result (λ c. KnownClause (function_of w.now.entries) c) }
{
    if are_known(w, literals.as_slice()) {
        Ok(Clause(literals))
    } else {
        Err(AllocError)
    }
}

/// A term, which is one of the world.
pub(crate) fn checked(w: &World, t: Term) -> Result<Term, NoMemory>
    ensures { IfOk result (λ u. IsTrue (known (function_of w.now.entries) u)) }
{
    if is_known(w, &t) {
        Ok(t)
    } else {
        Err(AllocError)
    }
}
