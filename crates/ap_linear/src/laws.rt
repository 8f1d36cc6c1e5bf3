//! The laws of the test that there is no certificate, each the contract of a function that does nothing.
ghost use Rattle.ap_linear.specs.Laws.{LoneAreUnused, StrikingIsSafe, NoneNegative, NoneFound, HopelessIsNone};
ghost use Rattle.ap_linear.specs.Marks.{MarksAreRight};

/// Polynomials with an atom of one sign have the multiplier 0 in each certificate, and so may be struck.
pub fn lone_are_unused()
    ensures unused { LoneAreUnused }
    ensures striking { StrikingIsSafe }
{}

/// Polynomials with no negative constant have no certificate, and where there is none, none is found.
pub fn none_is_found()
    ensures negative { NoneNegative }
    ensures found { NoneFound }
{}

/// After any number of rounds.
pub fn hopeless_is_none()
    ensures { HopelessIsNone }
{}

/// The test by two words for each polynomial, with any numbering of atoms.
pub fn marks_are_right()
    ensures { MarksAreRight }
{}
