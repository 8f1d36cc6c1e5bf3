ghost use Rattle.ap_plain.specs.Bounds.{WithinLimits};

/// How many steps simplification may spend on a clause, 1 to 1,000,000; how many goals an attempt may visit, 1 to
/// 100,000; and at how many pushes an attempt's first walk reverts to its goal, 2 to 100.
#[derive(Clone, Copy, Debug, PartialEq, Eq)]
pub struct Limits {
    pub steps: u32,
    pub goals: u32,
    pub revert: u32,
    pub ghost within: { WithinLimits steps goals revert },
}

impl Limits {
    ghost use Rattle.std.specs.Prelude.{◌≡◌};
    ghost use Rattle.ap_plain.specs.Limits.{limits_of};

    /// These numbers as limits, or `None` where one of them isn't within its bounds.
    pub fn new(steps: u32, goals: u32, revert: u32) -> Option<Limits>
        ensures { result ≡ limits_of steps goals revert }
    {
        if 1 <= steps
            && steps <= 1_000_000
            && 1 <= goals
            && goals <= 100_000
            && 2 <= revert
            && revert <= 100
        {
            Some(Limits {
                steps,
                goals,
                revert,
            })
        } else {
            None
        }
    }
}
