use ap_list::Seq;

/// Why an attempt fails at a goal. Each has its number, from 1 in this order.
#[derive(Clone, Copy, Debug, PartialEq, Eq)]
pub enum Reason {
    /// A goal was pushed for which there is no induction.
    NoScheme,
    /// A goal is the empty clause.
    EmptyClause,
    /// No goals are left.
    GoalLimit,
    /// A goal lies too deep below its root.
    PathDepth,
    /// A goal lies under too many inductions.
    InductionDepth,
    /// A hint forbids induction.
    DoNotInduct,
}

impl Reason {
    ghost use Rattle.std.specs.Prelude.{◌≡◌};
    ghost use Rattle.ap_walk.specs.Visits.{reason_number};

    /// The number of the reason, 1 to 6.
    pub fn number(self) -> u32
        ensures { result ≡ reason_number self }
    {
        match self {
            Reason::NoScheme => 1,
            Reason::EmptyClause => 2,
            Reason::GoalLimit => 3,
            Reason::PathDepth => 4,
            Reason::InductionDepth => 5,
            Reason::DoNotInduct => 6,
        }
    }
}

/// The process of the waterfall that acted on a goal, in the order of the manual's topic
/// `hints-and-the-waterfall`; `Push` sends the goal to the pool, and `Stop` ends the attempt.
#[derive(Clone, Copy, Debug, PartialEq, Eq)]
pub enum Process {
    Hint,
    Simplify,
    Elim,
    Fertilize,
    Generalize,
    Irrelevance,
    Induct,
    Push,
    Stop,
}

/// What a step did: the process, whether simplification missed, and whether it met the limit on steps.
#[derive(Clone, Copy, Debug, PartialEq, Eq)]
pub struct Act {
    pub process: Process,
    pub missed: bool,
    pub limited: bool,
}

/// What comes of a task: the tasks that it splits into, none where it is proved; or it is pushed; or the
/// attempt stops at it.
#[derive(Debug, Drop)]
pub enum Out<T> {
    Split(Seq<T>),
    Push,
    Stop(Reason),
}

/// One step of a task.
#[derive(Debug, Drop)]
pub struct Stepped<T> {
    pub act: Act,
    pub out: Out<T>,
}
