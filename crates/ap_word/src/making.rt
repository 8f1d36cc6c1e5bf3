ghost use Rattle.std.specs.Prelude.{◌≡◌, ◌<◌, false, IfOk};
ghost use Rattle.ap_word.specs.Words.{family_of, made, told};
ghost use Rattle.ap_word.specs.Seats.{word_table, seat_table, seat_view};

use crate::family::{Tallies, View};
use crate::steps::{Stops, Tells, Truth};
use crate::word::{FamilyWord, WordSeat};
use ap_list::NoMemory;
use atomic_table::{Seat, Table};
use std::alloc::Global;
use std::marker::Brand;

/// Tells the first seat its family.
fn tell<F: Truth, X: Tallies>(
    of: &X,
    revert: Option<u32>,
    goal_limit: u32,
    table: &Table<(), View, (), Stops, Global>,
    seat: &mut Seat<(), View>,
)
    requires truth { F.truth ≡ family_of (X.tallies of.now) revert goal_limit }
    requires table { seat.old.table_id ≡ table.now.shared.table_id }
    requires words { 0 < table.now.shared.table_id.words }
    requires untold { seat.old.me.0.told ≡ false }
    ensures table { seat.new.table_id ≡ seat.old.table_id }
    ensures view { seat.new.me.0 ≡ told seat.old.me.0 (family_of (X.tallies of.now) revert goal_limit) }
{
    table.shared.load::<Tells<F>>(seat, 0);
}

/// A word for the family that `of` means, under a rule that reverts at so many pushes, if it does, and has
/// this limit on goals; and the first seat of it. Nothing is marked. `of` isn't read. The only error is want
/// of memory.
pub fn new_family<X: Tallies>(
    alloc: Global,
    of: &X,
    revert: Option<u32>,
    goal_limit: u32,
) -> Result<(FamilyWord, WordSeat), NoMemory>
    ensures seat { IfOk result (λ r. seat_table r.1 ≡ word_table r.0) }
    ensures view { IfOk result (λ r. seat_view r.1 ≡ made (family_of (X.tallies of.now) revert goal_limit)) }
{
    let (table, mut seat) = Table::of_words(alloc, &[u64::MAX], &())?;
    tell::<Brand, X>(of, revert, goal_limit, &table, &mut seat);
    Ok((FamilyWord { table }, WordSeat { seat }))
}
