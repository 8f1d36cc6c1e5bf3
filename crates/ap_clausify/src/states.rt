use ap_kernel::Reduction;
use ap_list::Seq;
use ap_term::Clause;

/// The clauses without `if` that a clause is split into, each tidied, or nothing where the steps ran out.
#[derive(Drop)]
pub struct Split {
    pub reduction: Option<Reduction>,
}

/// A clause that waits while its cases are split: its two cases, and what the first of these are reduced to.
/// The cases have the clause's literals before the place of the one that is split, and it is known of these
/// whether they are tidy.
#[derive(Drop)]
pub(crate) struct Frame {
    pub split: Reduction,
    pub done: Seq<Reduction>,
    pub literal: usize,
    pub tidy: bool,
}

/// A clause that is to be split. The literals before the cursor have no `if`. Where they are known to be tidy, tidying
/// leaves them as they are.
#[derive(Drop)]
pub(crate) struct Case {
    pub clause: Clause,
    pub cursor: usize,
    pub tidy: bool,
}

/// What is at hand: a clause that is to be split, or one that is.
#[derive(Drop)]
pub(crate) enum Task {
    Open(Case),
    Done(Reduction),
}

/// The clauses that wait, the outermost first, and what the last of them waits for.
#[derive(Drop)]
pub(crate) struct State {
    pub frames: Seq<Frame>,
    pub task: Task,
}

/// What a turn leaves: the next state, what the first clause is reduced to, or nothing where the steps ran
/// out.
#[derive(Drop)]
pub(crate) enum Turn {
    On(State),
    Through(Reduction),
    Out,
}
