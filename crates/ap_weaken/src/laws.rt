//! The laws of what gives up something of a clause, each the contract of a function that does nothing.
ghost use Rattle.ap_weaken.specs.Laws.{FertilizeFollows, GeneralizeFollows, IrrelevanceFollows, GeneralizeApplies, SmallestIsChosen, NoneMayBe, FirstUseIsTaken, FertilizeApplies, PartsAreClosed, PartsAreLeast};

/// One clause is left, from which the other follows, by the definitions alone: after fertilization in a total
/// world with `not`, after generalization in one with the ground world's functions where masks hold, and where
/// irrelevant parts are left out in any total world.
pub fn clauses_follow()
    ensures fertilized { FertilizeFollows }
    ensures generalized { GeneralizeFollows }
    ensures irrelevant { IrrelevanceFollows }
{}

/// There is a generalization wherever a call is chosen.
pub fn generalize_applies()
    ensures applies { GeneralizeApplies }
{}

/// The call that is generalized is one that may be, none that may be has fewer nodes, and none with as many stands
/// before it; and the call of which that is so is the one. There is none exactly where none may be.
pub fn smallest_is_chosen()
    ensures smallest { SmallestIsChosen }
    ensures none { NoneMayBe }
{}

/// Fertilization uses the first literal that can be used in some literal, in the first that it can be used in; and
/// there is a fertilization wherever some literal can be used in some literal.
pub fn fertilize_applies()
    ensures first { FirstUseIsTaken }
    ensures applies { FertilizeApplies }
{}

/// The variables of a literal's part are those that hang together with its own: where one of them is a
/// literal's, all of that literal's are among them, and they are the least that have its own and are so.
pub fn parts_are_least()
    ensures closed { PartsAreClosed }
    ensures least { PartsAreLeast }
{}
