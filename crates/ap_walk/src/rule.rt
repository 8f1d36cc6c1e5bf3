ghost use Rattle.std.specs.Prelude.{◌≤◌};

use crate::act::Reason;

/// The goals that were visited so far, and how many of them were pushed.
#[derive(Clone, Copy, Debug, PartialEq, Eq)]
pub struct Tally {
    pub pushes: u32,
    pub goals: u32,
}

/// What a walk is held to: whether it is the initial one of its attempt, whether `:otf-flg` is set, at how many
/// pushes it reverts, which is 2 to 100, and the number of goals at which it ends, which is 1 to 200,002.
#[derive(Clone, Copy, Debug, PartialEq, Eq)]
pub struct Rule {
    pub initial: bool,
    pub otf: bool,
    pub revert: u32,
    pub goal_limit: u32,
    pub ghost limited: { (1 ≤ goal_limit) × (goal_limit ≤ 200002) },
    pub ghost reverting: { (2 ≤ revert) × (revert ≤ 100) },
}

/// How a walk ends: it goes through; it reverts to the original goal; it is at the limit on goals; it
/// stops for a reason.
#[derive(Clone, Copy, Debug, PartialEq, Eq)]
pub enum End {
    Through,
    Revert,
    Limit,
    Stopped(Reason),
}
