//! What is proved of rewriting, each the contract of a function that does nothing.
ghost use Rattle.ap_term.specs.declared.term.Term.{Term};
ghost use Rattle.ap_rewrite.specs.Arithmetic.{no_arithmetic, arithmetic_in};
ghost use Rattle.ap_rewrite.specs.Laws.{RewritingIsMetered, LiteralsAreMetered, CostIsExact, HitIsExact, StepsBoundLimits, CheapHitIsExact, SearchByHead, RewritingStands, LiteralsReduce, SimplifyingReduces, WorldIsSoundSetting, NothingIsSound, PolynomialsAreSound, WorldsIsSound, InWorldStands};

/// What a rewriting costs doesn't depend on the steps that are left: with more steps it is the same, with fewer
/// than it costs it runs out. So it is for a term, and for the literals of a clause.
pub fn rewriting_is_metered()
    ensures terms { RewritingIsMetered }
    ensures literals { LiteralsAreMetered }
{}

/// By one answer and its cost every other number of steps is answered: so what is kept of an answer charges its cost.
pub fn cost_is_exact()
    ensures any { CostIsExact Term }
    ensures rewriting { HitIsExact }
{}

/// An answer that cost no more steps than there were levels is known at each number of levels that is no less, and
/// within as many hypotheses as its steps can't tell apart.
pub fn steps_bound_limits()
    ensures same { StepsBoundLimits }
    ensures hit { CheapHitIsExact }
{}

/// A search over the rules of a call's head gives what the search over all rules gives, newest first.
pub fn search_by_head()
    ensures { SearchByHead }
{}

/// Rewriting leads a known term to a known one that has its value, or under `iff` its truth, wherever the facts
/// hold.
pub fn rewriting_stands()
    ensures { RewritingStands }
{}

/// A clause whose literals are rewritten in turn is valid where what is left of it is.
pub fn literals_reduce()
    ensures { LiteralsReduce }
{}

/// A clause whose literals are rewritten, and which is then split, is valid where all that is left are.
pub fn simplifying_reduces()
    ensures { SimplifyingReduces }
{}

/// Arithmetic that decides nothing is right, and so is that of polynomials in a total world, by linear rules that
/// hold, and in a sound world by its own rules that a theory enables.
pub fn arithmetic_is_sound()
    ensures nothing { NothingIsSound }
    ensures polynomials { PolynomialsAreSound }
    ensures world { WorldsIsSound }
{}

/// In a sound world with the ground functions, whose names are distinct, the world's own rules, definitions and
/// masks, and the values that running gives, are right: so what rewriting answers there stands, with nothing else
/// assumed, without arithmetic and with that of polynomials, by the world's own linear rules.
pub fn in_world_stands()
    ensures setting { WorldIsSoundSetting }
    ensures plain { InWorldStands (λ w h. no_arithmetic) }
    ensures linear { InWorldStands arithmetic_in }
{}
