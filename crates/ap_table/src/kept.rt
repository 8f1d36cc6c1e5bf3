//! The seats that the table keeps, and those that jobs have.
ghost use Rattle.std.specs.Prelude.{◌≡◌, ◌≤◌, IfOk};
ghost use Rattle.ap_word.specs.Words.{IsPlace, IsStop, family_of, looked, made};
ghost use Rattle.ap_word.specs.Seats.{seat_view};
ghost use Rattle.ap_table.specs.Kept.{kept_marked};
ghost use Rattle.ap_table.specs.Seated.{IsCut, SameSeat};

use crate::link::Link;
use crate::seats::{AncestorSeat, KeptSeat};
use ap_list::{NoMemory, Shared};
use ap_word::{Tallies, new_family};
use std::alloc::Global;

impl KeptSeat {
    /// The first seat of a new word. The only error is want of memory.
    pub(crate) fn new<X: Tallies>(
        alloc: Global,
        of: &X,
        revert: Option<u32>,
        goal_limit: u32,
    ) -> Result<KeptSeat, NoMemory>
        ensures { IfOk result (λ k. k.view ≡ made (family_of (X.tallies of.now) revert goal_limit)) }
    {
        let (word, seat) = new_family(alloc, of, revert, goal_limit)?;
        let word = Shared::new(alloc, word)?;
        Ok(KeptSeat { word, seat })
    }

    /// A seat of the same word for a job, at a place of the family.
    pub(crate) fn cut(&mut self, link: Link) -> Result<AncestorSeat, NoMemory>
        ensures same { self.new ≡ self.old }
        ensures seat { IfOk result (λ s. IsCut self.old link s) }
    {
        let word = self.word.share()?;
        let seat = self.word.split(&mut self.seat)?;
        Ok(AncestorSeat {
            family: link.family,
            place: link.place,
            word,
            seat,
        })
    }

    /// Marks a place by which the family stops.
    pub(crate) fn mark(&mut self, place: u64)
        requires { IsStop self.old.view.family place }
        ensures { self.new ≡ kept_marked self.old place }
    {
        self.word.mark(&mut self.seat, place);
    }
}

impl AncestorSeat {
    /// Looks at the family's word: `u64::MAX`, or a place by which the family stops, not above what the seat knew. It
    /// doesn't wait, and takes no memory.
    pub fn look(&mut self) -> u64
        ensures same { SameSeat self.old self.new }
        ensures stop { IsPlace (seat_view self.old.seat).family result }
        ensures falls { result ≤ (seat_view self.old.seat).low }
        ensures view { seat_view self.new.seat ≡ looked (seat_view self.old.seat) result }
    {
        self.word.look(&mut self.seat)
    }

    /// The family's number, which is that of the node whose children it holds.
    pub fn family(&self) -> u32
        ensures { result ≡ self.now.family }
    {
        self.family
    }

    /// The place in the family of the job's node, or of its ancestor there.
    pub fn place(&self) -> u32
        ensures { result ≡ self.now.place }
    {
        self.place
    }
}
