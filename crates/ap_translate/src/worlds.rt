//! What is proved of one form in two worlds, the contract of a function that does nothing.
ghost use Rattle.ap_translate.specs.Laws.{MoreIsTranslated, MoreAreTranslated, CoversKnowsMore};

/// A form that is a term where less is known is the same term where more is known, as in a world that covers
/// the other one. So what an event says in a second pass it said in the first.
pub fn more_is_translated()
    ensures more { MoreIsTranslated }
    ensures all { MoreAreTranslated }
    ensures covers { CoversKnowsMore }
{}
