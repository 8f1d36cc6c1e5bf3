//! Laws of attempts. Each is the contract of a function that does nothing.
ghost use Rattle.std.specs.Prelude.{◌≡◌, ◌≤◌, ◌<◌, ℕ, Bool, List, map};
ghost use Rattle.ap_list.specs.Lists.{Each};
ghost use Rattle.ap_walk.specs.declared.rule.Rule.{Rule};
ghost use Rattle.ap_walk.specs.Laws.{pushed};
ghost use Rattle.ap_walk.specs.Tallies.{zero_tally};
ghost use Rattle.ap_walk.specs.Walks.{walk};
ghost use Rattle.ap_attempt.specs.Attempts.{Course, inductions, one_turn, turns_from};
ghost use Rattle.ap_attempt.specs.Laws.{push_names};
ghost use Rattle.ap_attempt.specs.declared.turn.Turn.{Turn};

use crate::prover::Prover;

/// All that follows from a turn on is that turn's walk, and then all that follows from the next turn on, as
/// long as there is one. Only one function of turns goes so, since each walk visits a goal, and the next
/// turn's rule has what is left as its limit.
pub fn attempt_goes_turn_by_turn<P: Prover>()
    ensures turns { (original : P.Task) (refuses : Bool) (turn : Turn P.Task) →
        turns_from P.step_of P.depth P.inducted original refuses turn
        ≡ one_turn P.step_of P.depth P.inducted original refuses (turns_from P.step_of P.depth P.inducted original refuses) turn }
    ensures only { (original : P.Task) (refuses : Bool) (follows : Turn P.Task → Course P.Task) →
        ((turn : Turn P.Task) → follows turn ≡ one_turn P.step_of P.depth P.inducted original refuses follows turn) →
        (turn : Turn P.Task) → follows turn ≡ turns_from P.step_of P.depth P.inducted original refuses turn }
{}

/// The inductions of pushed tasks have the names that the tasks are pushed as.
pub fn pushes_are_named<P: Prover>()
    ensures { (tasks : List P.Task) → map P.name (inductions P.inducted 1 tasks) ≡ push_names P.name 1 tasks }
{}

/// The induction of each task that a walk pushes has less rank than the task that was walked.
pub fn pushes_have_less_rank<P: Prover>()
    ensures { (rule : Rule) (task : P.Task) (k : ℕ) → 1 ≤ k →
        Each (λ t. P.rank (P.inducted t k) < P.rank task) (pushed (walk P.step_of P.depth rule task zero_tally).marks) }
{}
