//! The law of hints, the contract of a function that does nothing.
ghost use Rattle.ap_hints.specs.Laws.{EachEntryIsOneHint};

/// Where hints are read, each entry of their list is one hint, in the order in which they stand: it is of the goal
/// that the string at the entry's front names, and no goal has two. Each part of it is what stands under that part's
/// key alone, whatever else is said and in which order; and induction is forbidden where some entry has that key.
pub fn each_entry_is_one_hint()
    ensures { EachEntryIsOneHint }
{}
