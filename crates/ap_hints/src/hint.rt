ghost use Rattle.std.specs.Prelude.{◌≡◌};
ghost use Rattle.ap_hints.specs.Known.{no_hints};

use ap_list::Seq;
use ap_names::GoalName;
use ap_term::{Subst, Term};
use ap_value::Symbol;
use ap_walk::Process;
use ap_world::Theory;
use std::alloc::Global;

/// What a user says of one goal. `theory`, `expand` and `skip` hold for the goal and all below it: the theory in
/// place of what holds above, the calls to open and the processes that don't apply beside it. Each of `uses` is a
/// theorem and what replaces its variables, whose instance is assumed; `cases` are the terms by which the goal is
/// split; `scheme` is the call by which it is proved by induction at once.
#[derive(Debug, Drop)]
pub struct Hint {
    pub goal: GoalName,
    pub theory: Option<Theory>,
    pub expand: Seq<Term>,
    pub skip: Seq<Process>,
    pub uses: Seq<(Symbol, Subst)>,
    pub cases: Seq<Term>,
    pub scheme: Option<Term>,
}

/// The hints of an event: one for a goal at most, in the order in which they are written, and whether nothing is to
/// be proved by induction.
#[derive(Debug, Drop)]
pub struct Hints {
    pub list: Seq<Hint>,
    pub do_not_induct: bool,
}

/// The hints of an event without any. Takes no memory.
pub fn no_hints(alloc: Global) -> Hints
    ensures { result ≡ no_hints }
{
    Hints {
        list: Seq::new(alloc),
        do_not_induct: false,
    }
}
