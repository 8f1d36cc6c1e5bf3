ghost use Rattle.std.specs.Prelude.{◌≡◌, ◌+◌, ◌-◌, ◌^◌, ◌↔◌, Contains, IsTrue, min};

use ap_list::Seq;

/// Which of an object's calls are to fail, by their numbers from 1 on, and how many there were.
#[derive(Debug, Drop)]
pub struct Schedule {
    pub failing: Seq<u32>,
    pub calls: u64,
}

impl Schedule {
    /// Counts a call, and says whether it is to fail.
    pub fn next_fails(&mut self) -> bool
        ensures counted { self.new ≡ record self.old { calls = min (self.old.calls + 1) (2 ^ 64 - 1) } }
        ensures fails { IsTrue result ↔ Contains self.old.failing self.new.calls }
    {
        self.calls = self.calls.saturating_add(1);
        self.failing
            .as_slice()
            .iter()
            .any(|number| u64::from(*number) == self.calls)
    }
}
