use crate::act::Act;
use crate::rule::{End, Tally};
use ap_list::Seq;
use std::marker::Model;

/// One visit of a walk: the task, what its step did, and the number of its children, or the greatest
/// `u32` where there are more. `children` is 0 where the task was pushed, and the number of the reason,
/// 1 to 6, where the walk stops.
#[derive(Debug, Drop)]
pub struct Mark<T> {
    pub task: T,
    pub act: Act,
    pub children: u32,
}

impl<T> Model for Mark<T> {
    ghost use Rattle.ap_walk.specs.Visits.{Visit, IsCounted};

    ghost Value = { Visit T };

    ghost view = { λ m. record { task = m.task; act = m.act; children = m.children } };

    ghost invariant = { λ m. IsCounted m.act.process m.children };
}

/// A walk: its visits in order, what they count, and how it ended.
#[derive(Debug, Drop)]
pub struct Walked<T> {
    pub marks: Seq<Mark<T>>,
    pub tally: Tally,
    pub end: End,
}
