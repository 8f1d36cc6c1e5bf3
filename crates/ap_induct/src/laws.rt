//! The laws of induction, each the contract of a function that does nothing.
ghost use Rattle.ap_kernel.specs.Induction.{InductionIsSound, InductionIsKnown, InductionFollows};
ghost use Rattle.ap_induct.specs.Laws.{FirstOfTheBest, NoneIsLeft};

/// The clauses of an induction by a call of a recursive function that is a candidate prove the clause, and are
/// of the world's terms; so that the clause follows from them, as the kernel's row `induct` says.
pub fn induction_is_sound()
    ensures sound { InductionIsSound }
    ensures known { InductionIsKnown }
    ensures row { InductionFollows }
{}

/// The call that is chosen is a candidate, none scores higher, and none with its score stands before it; and a
/// candidate of which that is so is the one that is chosen. None is chosen exactly where there is no candidate.
pub fn first_of_the_best()
    ensures best { FirstOfTheBest }
    ensures none { NoneIsLeft }
{}
