ghost use Rattle.std.specs.Prelude.{◌≡◌, ◌<◌, true};

use crate::family::View;
use crate::steps::{Copies, Looks, Marks, Stops};
use ap_list::NoMemory;
use atomic_table::{Seat, Table};
use std::alloc::Global;

/// The word that marks a family of siblings: `u64::MAX` while nothing is known, else a place by which the
/// serial walk of the family has stopped. It only falls.
#[derive(Drop)]
pub struct FamilyWord {
    pub(crate) table: Table<(), View, (), Stops, Global>,
    ghost has_word: { 0 < table.shared.table_id.words },
}

/// What one holder of a word knows of it: the family's true tallies with the rule's numbers, the least
/// number that it saw or marked, and how many looks it made.
#[derive(Drop)]
pub struct WordSeat {
    pub(crate) seat: Seat<(), View>,
    ghost was_told: { seat.me.0.told ≡ true },
}

impl FamilyWord {
    ghost use Rattle.std.specs.Prelude.{◌≡◌, ◌≤◌, IfOk};
    ghost use Rattle.ap_word.specs.Words.{IsPlace, IsStop, looked, marked, unlooked};
    ghost use Rattle.ap_word.specs.Seats.{word_table, seat_table, seat_view};

    /// Loads the word: `u64::MAX`, or a place by which the family stops, not above what the seat knew. It
    /// doesn't wait, and takes no memory.
    pub fn look(&self, seat: &mut WordSeat) -> u64
        requires { seat_table seat.old ≡ word_table self.now }
        ensures table { seat_table seat.new ≡ seat_table seat.old }
        ensures stop { IsPlace (seat_view seat.old).family result }
        ensures falls { result ≤ (seat_view seat.old).low }
        ensures view { seat_view seat.new ≡ looked (seat_view seat.old) result }
    {
        self.table.shared.load::<Looks>(&mut seat.seat, 0)
    }

    /// Marks a place by which the family stops: the word becomes the lesser of itself and that place. It
    /// doesn't wait, and takes no memory.
    pub fn mark(&self, seat: &mut WordSeat, place: u64)
        requires table { seat_table seat.old ≡ word_table self.now }
        requires stops { IsStop (seat_view seat.old).family place }
        ensures table { seat_table seat.new ≡ seat_table seat.old }
        ensures view { seat_view seat.new ≡ marked (seat_view seat.old) place }
    {
        self.table
            .shared
            .fetch_min::<Marks>(&mut seat.seat, 0, place);
    }

    /// A second seat, which knows what this one does and has made no look. The only error is want of memory,
    /// which it never meets.
    pub fn split(&self, seat: &mut WordSeat) -> Result<WordSeat, NoMemory>
        requires { seat_table seat.old ≡ word_table self.now }
        ensures table { (seat_table seat.new ≡ seat_table seat.old) × (seat_view seat.new ≡ seat_view seat.old) }
        ensures view { IfOk result (λ new. (seat_table new ≡ seat_table seat.old) × (seat_view new ≡ unlooked (seat_view seat.old))) }
    {
        let seat = self.table.shared.split_seat::<Copies>(&mut seat.seat);
        Ok(WordSeat { seat })
    }
}
