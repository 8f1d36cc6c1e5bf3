//! The laws of polynomials and of certificates, each the contract of a function that does nothing.
ghost use Rattle.ap_poly.specs.Laws.{LiteralsHold, SumsMean, SumsHold, MultiplesMean, MultiplesHold, LinCertifies, CertificatesRefute, LiteralsAreOrdered, SumsAreOrdered, MultiplesAreOrdered, DivisorIsGreatest, ConstantsAreLeft, BoundsHold, LiteralsAreKnown, AtomsAreKnown};

/// The polynomials of a literal hold wherever the literal has the sign.
pub fn literals_hold()
    ensures law { LiteralsHold }
{}

/// Sums and multiples of polynomials have the values that they say, and so hold where their parts do.
pub fn sums_hold()
    ensures sums_mean { SumsMean }
    ensures sums { SumsHold }
    ensures multiples_mean { MultiplesMean }
    ensures multiples { MultiplesHold }
{}

/// The multipliers that are found give a negative constant, and polynomials that have such don't all hold.
pub fn lin_certifies()
    ensures certifies { LinCertifies }
    ensures refutes { CertificatesRefute }
{}

/// Polynomials that are made have distinct atoms in order and no coefficient 0.
pub fn polys_are_ordered()
    ensures literals { LiteralsAreOrdered }
    ensures sums { SumsAreOrdered }
    ensures multiples { MultiplesAreOrdered }
{}

/// Once every atom is eliminated, constants alone are left: two coefficients meet in their least multiples.
pub fn constants_are_left()
    ensures divisor { DivisorIsGreatest }
    ensures left { ConstantsAreLeft }
{}

/// What a mask says of an atom holds.
pub fn bounds_hold()
    ensures law { BoundsHold }
{}

/// Polynomials of the world's terms have atoms of the world.
pub fn atoms_are_known()
    ensures literals { LiteralsAreKnown }
    ensures atoms { AtomsAreKnown }
{}
