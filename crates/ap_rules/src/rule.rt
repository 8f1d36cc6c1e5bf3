ghost use Rattle.std.specs.Prelude.{◌≡◌};
ghost use Rattle.ap_world.specs.Rules.{is_permutative, is_bound_by_left};
ghost use Rattle.ap_rules.specs.Renaming.{as_rule};

use ap_list::Seq;
use ap_term::Term;
use ap_value::Symbol;

/// A part of a theorem as a rule: under the hypotheses an instance of the left side leads to that of the right
/// side, where `iff` is true only where it is asked whether a term is `nil`. `part` is the number of the
/// conjunct of the conclusion, from 0. The last two are told once, where the rule is made: whether its sides differ by
/// a renaming of variables, and whether its left side has all variables of its right side.
#[derive(Debug, Drop)]
pub struct RewriteRule {
    pub theorem: Symbol,
    pub part: u32,
    pub iff: bool,
    pub lhs: Term,
    pub rhs: Term,
    pub hyps: Seq<Term>,
    pub permutative: bool,
    pub bound_by_left: bool,
    pub ghost permutes: { permutative ≡ is_permutative (as_rule theorem part iff lhs rhs hyps) },
    pub ghost binds: { bound_by_left ≡ is_bound_by_left (as_rule theorem part iff lhs rhs hyps) },
}
