//! The laws of rules, each the contract of a function that does nothing.
ghost use Rattle.ap_rules.specs.Laws.{RulesAreParts, LinearRulesHold, PermutativeRenames};

/// Each rule of a world whose names are distinct is the part with its number of the theorem with its name.
pub fn rules_are_parts()
    ensures { RulesAreParts }
{}

/// The linear rules of a sound world hold: the conclusion has its sign wherever the hypotheses aren't nil.
pub fn linear_rules_hold()
    ensures { LinearRulesHold }
{}

/// A rule is permutative exactly where its right side is its left side with the variables renamed, one to one.
pub fn permutative_renames()
    ensures { PermutativeRenames }
{}
