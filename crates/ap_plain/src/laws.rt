//! What events keep. Each law is the contract of a function that does nothing.
ghost use Rattle.ap_plain.specs.Laws.{EventsKeepGood};

/// Each world that an event passes through is sound, its names are distinct, and it has the functions of the ground
/// world, where that holds of the world before the event: each function of it is total, and each theorem of it has a
/// value other than `nil` under every assignment.
#[tactic(auto, using(crate::proofs::Sounding::events_keep_good))]
pub fn events_are_sound()
    ensures { EventsKeepGood }
{}
