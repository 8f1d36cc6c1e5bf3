//! What is proved of types, each the contract of a function that does nothing.
ghost use Rattle.ap_types.specs.Laws.{KeptMaskHolds, GroundMasksAreKept};

/// A function that is added to a sound world has the types of its kept mask, whether or not it calls
/// itself.
pub fn kept_masks_hold()
    ensures { KeptMaskHolds }
{}

/// Each function of the ground world has the mask that its body gives back in the world of those before it.
pub fn ground_masks_are_kept()
    ensures { GroundMasksAreKept }
{}
