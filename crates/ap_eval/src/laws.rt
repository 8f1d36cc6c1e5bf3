//! The laws of running, each the contract of a function that does nothing.
ghost use Rattle.ap_eval.specs.Laws.{DepthIsEnough, WideIsOverflow, KnownTermsHaveCosts};

/// Running never stops for the depth of its calls: where they may be nested deeper than there are units,
/// it gives the same.
pub fn depth_is_enough()
    ensures { DepthIsEnough }
{}

/// A primitive that means something at its arguments has no value exactly where that is an integer which
/// 128 bits don't hold.
pub fn wide_is_overflow()
    ensures { WideIsOverflow }
{}

/// In a total world running a known term has a cost. With fewer units it is spent; with as many or more it
/// ends the same, and what is more is left: with the term's value, or where an integer leaves 128 bits, or
/// where a value is too large.
pub fn known_terms_have_costs()
    ensures { KnownTermsHaveCosts }
{}
