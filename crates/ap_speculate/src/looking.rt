//! Looks at the words of the families above a node.
ghost use Rattle.std.specs.Prelude.{IfSome, IfNone};
ghost use Rattle.ap_list.specs.Lists.{AnyOf};
ghost use Rattle.ap_speculate.specs.Jobs.{Both, Stays, LookedOn, ReadBelow};

use ap_table::{AncestorSeat, License};

/// Looks at a family's word. A number below the seat's place is a licence.
fn look_at(seat: &mut AncestorSeat) -> Option<License>
    ensures stays { Stays seat.old seat.new }
    ensures looked { IfNone result (LookedOn 1 seat.old seat.new) }
    ensures dropped { IfSome result (λ l. ReadBelow l seat.new) }
{
    let found = seat.look();
    if found >= seat.place() as u64 {
        return None;
    }
    Some(License {
        family: seat.family(),
        index: found as u32,
    })
}

/// Looks at the word of each family, up to the first that reads a number below the seat's place.
pub(crate) fn look_at_all(seats: &mut [AncestorSeat]) -> Option<License>
    ensures stays { Both Stays seats.old seats.new }
    ensures looked { IfNone result (Both (LookedOn 1) seats.old seats.new) }
    ensures dropped { IfSome result (λ l. AnyOf (ReadBelow l) seats.new) }
{
    for seat in seats.iter_mut() {
        if let Some(license) = look_at(seat) {
            return Some(license);
        }
    }
    None
}
