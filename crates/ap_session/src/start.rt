ghost use Rattle.std.specs.Prelude.{◌≡◌, IfOk};
ghost use Rattle.ap_session.specs.Working.{start};

use ap_events::Ruled;
use ap_ground::ground_world;
use ap_list::NoMemory;
use std::alloc::Global;

/// The world that a book begins with, and the index of its rules: the ground world.
#[tactic(auto, unfolding(crate::specs::Working::start))]
pub(crate) fn starting_world(alloc: Global) -> Result<Ruled, NoMemory>
    ensures { IfOk result (λ w. w ≡ start) }
{
    let world = ground_world(alloc)?;
    Ruled::of(alloc, world)
}

/// The same world once more: its entries are copied by their counts, and the index is made anew.
pub(crate) fn once_more(alloc: Global, world: &Ruled) -> Result<Ruled, NoMemory>
    ensures { IfOk result (λ w. w ≡ world.now) }
{
    let copy = world.world().copy_world(alloc)?;
    Ruled::of(alloc, copy)
}
