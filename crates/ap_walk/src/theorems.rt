//! Laws of walks. Each is the contract of a function that does nothing.
ghost use Rattle.std.specs.Prelude.{◌≡◌, ◌+◌, ◌≤◌, ◌++◌, ◌∷◌, ℕ, List, length, take};
ghost use Rattle.ap_list.specs.Lists.{Each};
ghost use Rattle.ap_walk.specs.Visits.{Visit, out_children, visit_of};
ghost use Rattle.ap_walk.specs.Tallies.{AtMost, IsOpen, end_at, tally_at, zero_tally};
ghost use Rattle.ap_walk.specs.Walks.{all_marks, and_then, cut, first_visit, full, full_marks, join_each, walk, walk_all};
ghost use Rattle.ap_walk.specs.Laws.{CountsFrom, IsPath, StopsAt, end_when, pushed};
ghost use Rattle.ap_walk.specs.declared.rule.Rule.{Rule};
ghost use Rattle.ap_walk.specs.declared.rule.Tally.{Tally};

use crate::rule::End;
use crate::step::Step;

/// A walk is the visit of its root, and then the walks of the children in order. So it is the cut of the
/// root's own mark and then the full marks of the children, and the full walk is that cut from the empty
/// tally.
pub fn walk_is_visit_and_children<S: Step>()
    ensures walks { (rule : Rule) (task : S.Task) (tally : Tally) →
        walk S.step_of S.depth rule task tally
        ≡ and_then (first_visit S.step_of rule task tally) (walk_all S.step_of S.depth rule (out_children (S.step_of task).out)) }
    ensures cuts { (rule : Rule) (task : S.Task) (tally : Tally) →
        walk S.step_of S.depth rule task tally
        ≡ cut rule tally (visit_of task (S.step_of task) ∷ full_marks S.step_of S.depth rule (out_children (S.step_of task).out)) }
    ensures full { (rule : Rule) (task : S.Task) →
        full S.step_of S.depth rule task
        ≡ cut rule zero_tally (visit_of task (S.step_of task) ∷ full_marks S.step_of S.depth rule (out_children (S.step_of task).out)) }
{}

/// All marks of a task are its own mark, and then all marks of each child in order.
pub fn all_marks_are_own_and_children<S: Step>()
    ensures { (task : S.Task) →
        all_marks S.step_of S.depth task
        ≡ visit_of task (S.step_of task) ∷ join_each (all_marks S.step_of S.depth) (out_children (S.step_of task).out) }
{}

/// The cut law: from any tally the walk of a task is the cut of its full marks, and so of all its marks,
/// and the walk of siblings is the cut of their full marks joined in order. From the empty tally the walk
/// of a task is its full one.
pub fn walk_is_cut<S: Step>()
    ensures full { (rule : Rule) (task : S.Task) (tally : Tally) →
        walk S.step_of S.depth rule task tally ≡ cut rule tally (full S.step_of S.depth rule task).marks }
    ensures all { (rule : Rule) (task : S.Task) (tally : Tally) →
        walk S.step_of S.depth rule task tally ≡ cut rule tally (all_marks S.step_of S.depth task) }
    ensures siblings { (rule : Rule) (tasks : List S.Task) (tally : Tally) →
        walk_all S.step_of S.depth rule tasks tally ≡ cut rule tally (full_marks S.step_of S.depth rule tasks) }
    ensures zero { (rule : Rule) (task : S.Task) →
        walk S.step_of S.depth rule task zero_tally ≡ full S.step_of S.depth rule task }
{}

/// Cutting twice is cutting once, where the first cut counts from a tally that isn't above the second's,
/// also where more marks follow. The cut of joined marks is the cut of the first ones, and then of the
/// others.
pub fn cut_again<T>()
    ensures twice { (rule : Rule) (early late : Tally) (marks : List (Visit T)) →
        AtMost early late → cut rule late (cut rule early marks).marks ≡ cut rule late marks }
    ensures followed { (rule : Rule) (early late : Tally) (marks more : List (Visit T)) →
        AtMost early late → cut rule late ((cut rule early marks).marks ++ more) ≡ cut rule late (marks ++ more) }
    ensures joined { (rule : Rule) (tally : Tally) (marks more : List (Visit T)) →
        cut rule tally (marks ++ more) ≡ and_then (cut rule tally marks) (λ next. cut rule next more) }
{}

/// A good walk makes its root good: where a walk ends through and every pushed task is good, the root is
/// good.
pub fn good_walk_makes_root_good<S: Step>()
    ensures { (rule : Rule) (task : S.Task) (tally : Tally) →
        (walk S.step_of S.depth rule task tally).end ≡ End.Through →
        Each S.good (pushed (walk S.step_of S.depth rule task tally).marks) → S.good task }
{}

/// A walk from an open tally, as the empty one, ends where pushes are exactly 2, or goals are exactly the
/// limit, and where it goes through it leaves an open tally. It has no more marks than goals are left. No
/// path down from a task is longer than the depth of that task.
pub fn walk_is_bounded<S: Step>()
    ensures empty { (rule : Rule) → IsOpen rule zero_tally }
    ensures stops { (rule : Rule) (task : S.Task) (tally : Tally) →
        IsOpen rule tally → StopsAt rule (walk S.step_of S.depth rule task tally) }
    ensures marks { (rule : Rule) (task : S.Task) (tally : Tally) →
        IsOpen rule tally → tally.goals + length (walk S.step_of S.depth rule task tally).marks ≤ rule.goal_limit }
    ensures path { (task : S.Task) (path : List S.Task) →
        IsPath S.step_of task path → length path ≤ S.depth task }
{}

/// A cut is a prefix of its marks, and each of them counts one goal. From an open tally it ends where
/// pushes are exactly 2, or goals are exactly the limit, and where it goes through it leaves an open
/// tally: after a visit from an open tally the tests may be read as equalities.
pub fn cut_is_bounded<T>()
    ensures prefix { (rule : Rule) (tally : Tally) (marks : List (Visit T)) →
        (cut rule tally marks).marks ≡ take (length (cut rule tally marks).marks) marks }
    ensures stops { (rule : Rule) (tally : Tally) (marks : List (Visit T)) →
        IsOpen rule tally → StopsAt rule (cut rule tally marks) }
    ensures tests { (rule : Rule) (tally : Tally) (mark : Visit T) →
        IsOpen rule tally → end_at rule (tally_at mark tally) ≡ end_when rule (tally_at mark tally) }
    ensures counts { (rule : Rule) (tally : Tally) (marks : List (Visit T)) →
        CountsFrom tally (cut rule tally marks) }
{}
