use ap_list::Seq;
use ap_table::DropNote;
use ap_walk::{Reason, Walked};

/// What an attempt came to.
#[derive(Clone, Copy, Debug, PartialEq, Eq)]
pub enum Verdict {
    /// The root is proved.
    Qed,
    /// The attempt failed, for a reason of the walk's, or since no goals were left for a walk that was due,
    /// or since a hint forbids induction.
    Failed(Reason),
}

/// An attempt: its verdict, and its walks in the order in which they were made. The first is the root's. Each
/// other one is of the induction of a task that an earlier walk pushed, or of the induction of the original
/// where the first walk reverted.
///
/// Its lines are made walk by walk, and in a walk mark by mark: the name of the mark's task, and then what
/// its process did, with the mark's `children`. Where the task was pushed that is `push P`. The name P is
/// `push_name` of the task and `k`, where this push is the `k`-th of its walk, so the walk of the task's
/// induction begins with a line of P. Where the attempt stopped, `children` is the number of the reason.
/// After the last mark of a walk there is one line more where it ended by a revert or at the limit on goals;
/// a verdict of `GoalLimit` after any other walk adds none.
#[derive(Debug, Drop)]
pub struct Attempt<T> {
    pub verdict: Verdict,
    pub walks: Seq<Walked<T>>,
    /// The goals that workers dropped, walk by walk, and of one walk in the order in which they were. How many
    /// there are, and which, may differ from one attempt to the next.
    pub drops: Seq<DropNote>,
}
