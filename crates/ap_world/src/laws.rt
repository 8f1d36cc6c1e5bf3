//! The laws of meaning and soundness, each the contract of a function that does nothing.
ghost use Rattle.ap_world.specs.Covering.{AlikeIsSame, ClashesAreOthers, IncludedIsSound, IncludedCovers, IncludedIsDistinct, CoversItself, CoversThrough, CoversGrown, CoversDefines, CoversFree, CoversAdded, CoversIncluded, TheoremAgain, ObligationsAgain};
ghost use Rattle.ap_world.specs.Holding.{PartsHold, RulesHold, InstancesKeepValues, InstancesAreKnown, MatchesAreKnown};
ghost use Rattle.ap_world.specs.Laws.{MoreFuelKeeps, ValuesAreUnique, CallsAreUnique, KnownTermsHaveValues, EntriesKeepValues, EntriesKeepValidity, EntriesAddNoValidity, WorldsThatAgree, AlikeKeepsValues, AlikeKeepsCalls, AlikeKeepsKnown, AlikeKeepsValidity, AlikeAddsNoValidity, AlikeAddsNoValues, NamesAreNoPrimitives, EqualSidesAreValid, StartingWorldIsSound, ConjunctsOfIf, FlatOfImplies, CasesOfIf, DecreaseIsFlat};

/// A value that some number of units gives, every greater number gives.
pub fn more_fuel()
    ensures { MoreFuelKeeps }
{}

/// A term has one value at most under an assignment, and a call has one at most.
pub fn value_is_unique()
    ensures terms { ValuesAreUnique }
    ensures calls { CallsAreUnique }
{}

/// Where every function is total, each known term has a value under every assignment.
pub fn known_terms_have_values()
    ensures { KnownTermsHaveValues }
{}

/// Entries that are added keep the value of every term, and what is valid. Of terms that the old world
/// knows they make nothing valid that wasn't.
pub fn entries_keep_values()
    ensures values { EntriesKeepValues }
    ensures valid { EntriesKeepValidity }
    ensures back { EntriesAddNoValidity }
{}

/// Worlds that define the functions of a clause, and all that these call, alike agree on its validity.
pub fn worlds_that_agree()
    ensures { WorldsThatAgree }
{}

/// A world that defines all that another one does with the same formals and bodies, whatever the masks, keeps
/// its values, what it knows and what is valid in it. Where the smaller one is total, nothing else is valid in
/// the larger one of terms that the smaller one knows, and a call of its functions has no other value.
pub fn worlds_that_define_alike()
    ensures values { AlikeKeepsValues }
    ensures calls { AlikeKeepsCalls }
    ensures known { AlikeKeepsKnown }
    ensures valid { AlikeKeepsValidity }
    ensures back { AlikeAddsNoValidity }
    ensures calls_back { AlikeAddsNoValues }
{}

/// The tests by which a book is included say what their names say: two entries are one but for a mask, and a
/// name of the book has another entry.
pub fn clashes_are_others()
    ensures alike { AlikeIsSame }
    ensures clashes { ClashesAreOthers }
{}

/// A world that includes another one without a clash is sound, its names are distinct, and it covers both.
pub fn included_worlds_are_sound()
    ensures sound { IncludedIsSound }
    ensures distinct { IncludedIsDistinct }
    ensures covers { IncludedCovers }
{}

/// A world that has each entry of another, masks aside, covers it: all that grows covers what it was, what is
/// covered is defined alike, and what is added to both, or included by both, keeps that.
pub fn worlds_that_cover()
    ensures itself { CoversItself }
    ensures through { CoversThrough }
    ensures grown { CoversGrown }
    ensures defines { CoversDefines }
    ensures free { CoversFree }
    ensures added { CoversAdded }
    ensures included { CoversIncluded }
{}

/// What a sound world has that defines alike all that this one does, this one may have too, where it is known
/// here: its theorems are valid here, and what its recursive functions owe. So a second pass proves nothing.
pub fn again_is_valid()
    ensures theorem { TheoremAgain }
    ensures obligations { ObligationsAgain }
{}

/// Where the names of a world's entries are distinct, as every world keeps, no function of it has a
/// primitive's name.
pub fn names_are_no_primitives()
    ensures { NamesAreNoPrimitives }
{}

/// In a total world a known term equals itself.
pub fn equal_sides_are_valid()
    ensures { EqualSidesAreValid }
{}

/// The world whose one entry is `not` is sound.
pub fn starting_world_is_sound()
    ensures { StartingWorldIsSound }
{}

/// The conjuncts of a conjunction, the clause of an implication and the cases of an `if`, as equations.
pub fn equations_of_terms()
    ensures conjuncts { ConjunctsOfIf }
    ensures clauses { FlatOfImplies }
    ensures cases { CasesOfIf }
{}

/// An obligation is the clause of the conjecture that the tests imply that the measure is less.
pub fn decrease_is_a_clause()
    ensures { DecreaseIsFlat }
{}

/// A term's instance is a term of the world, and has the values that the term has where each variable has its
/// replacement's value. The terms that a match of a term of the world gives are terms of the world.
pub fn instances_keep_values()
    ensures values { InstancesKeepValues }
    ensures known { InstancesAreKnown }
    ensures matches { MatchesAreKnown }
{}

/// In a sound world with `not` each part of a theorem holds wherever the theorem's hypotheses do, and so does
/// each rewrite rule.
pub fn rules_hold()
    ensures parts { PartsHold }
    ensures rules { RulesHold }
{}
