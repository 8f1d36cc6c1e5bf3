use std::collections::LinkedList;

/// What one sibling of a family counts, or several together: the pushes and goals of the serial walk of its
/// task alone, and whether that walk stopped.
#[derive(Clone, Copy, Debug)]
pub struct Counted {
    pub pushes: u64,
    pub goals: u64,
    pub stopped: bool,
}

/// The numbers of a walk's rule: the pushes at which it reverts, if it does, and its limit on goals.
#[derive(Clone, Copy, Debug)]
pub struct Numbers {
    pub revert: Option<u32>,
    pub goal_limit: u32,
}

/// A family of siblings: their true tallies in serial order, and the rule's numbers. No value of it is made:
/// it is what proofs know of a word.
pub struct Family {
    pub tallies: LinkedList<Counted>,
    pub numbers: Numbers,
}

/// What a seat knows: whether it was told its family, the family, the least number that it saw or marked,
/// and how often it looked. No value of it is made.
pub struct View {
    pub told: bool,
    pub family: Family,
    pub low: u64,
    pub looks: u64,
}

/// A value that means the true tallies of a family, one entry a sibling in serial order.
pub trait Tallies {
    ghost use Rattle.std.specs.Prelude.{List};
    ghost use Rattle.ap_word.specs.declared.family.Counted.{Counted};

    ghost tallies: { Self → List Counted };
}
