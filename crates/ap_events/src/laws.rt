//! What nested events keep. Each law is the contract of a function that does nothing.
ghost use Rattle.ap_events.specs.Again.{AgainIsCovered};
ghost use Rattle.ap_events.specs.Counting.{PlainIsOne, SinglesAreHeld};
ghost use Rattle.ap_events.specs.Laws.{WorkedKeepGood, AgainKeepsGood, WorkedGrows, WorkedTells};
ghost use Rattle.ap_events.specs.Missing.{AgainMissesName};

/// What is made when a form is done again is covered by what was made when it was done first, where the world before is
/// covered by the world before then.
pub fn again_is_covered()
    ensures { AgainIsCovered }
{}

/// Where the same is refused when it is done again, a name isn't there any more: the line of one event alone is printed, with
/// `4.1 UnknownName`, and the world behind the first pass has a name that no world of the second one has.
pub fn again_misses_a_name()
    ensures { AgainMissesName }
{}

/// Each world that a form's events pass through is sound, its names are distinct, and it has the functions of the ground
/// world, where that holds of the world before them and of the worlds of earlier books; and so it is when they are done
/// again, where a sound list of entries has what they make.
pub fn nested_events_are_sound()
    ensures first { WorkedKeepGood }
    ensures again { AgainKeepsGood }
{}

/// A form that is admitted holds, as it is written, as many single events as are admitted where it is done first. A form
/// that holds no others is one.
pub fn singles_are_held()
    ensures held { SinglesAreHeld }
    ensures plain { PlainIsOne }
{}

/// The world after a form has the entries of the one before, and perhaps more; and it is one of those that were passed
/// through, or the one before.
pub fn worlds_grow()
    ensures grows { WorkedGrows }
    ensures tells { WorkedTells }
{}
