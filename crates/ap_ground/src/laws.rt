//! What is proved of the ground world, each the contract of a function that does nothing.
ghost use Rattle.ap_world.specs.Ground.{ground};
ghost use Rattle.ap_world.specs.Sound.{HasFunctions, Sound};
ghost use Rattle.ap_world.specs.World.{function_of};

/// The ground world is sound.
pub fn ground_is_sound()
    ensures { Sound ground }
{}

/// The ground world has each of its functions, as it is given.
pub fn ground_has_its_functions()
    ensures { HasFunctions (function_of ground) }
{}
