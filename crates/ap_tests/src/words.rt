ghost use Rattle.std.specs.Prelude.{◌≡◌, ◌∷◌, [], None, true, false, IfOk};
ghost use Rattle.ap_word.specs.declared.family.Counted.{Counted};
ghost use Rattle.ap_word.specs.Words.{family_of, made};
ghost use Rattle.ap_word.specs.Seats.{word_table, seat_table, seat_view};
ghost use Rattle.ap_tests.specs.Families.{second_stops};

use ap_list::NoMemory;
use ap_word::{FamilyWord, Tallies, WordSeat, new_family};
use std::alloc::Global;
use std::test::Fail;

/// A family of two, whose second sibling stops.
struct SecondStops;

impl Tallies for SecondStops {
    ghost use Rattle.ap_tests.specs.Families.{second_stops};

    ghost tallies = { λ _. second_stops };
}

/// Its word.
fn word_of_two(alloc: Global) -> Result<(FamilyWord, WordSeat), NoMemory>
    ensures seat { IfOk result (λ r. seat_table r.1 ≡ word_table r.0) }
    ensures view { IfOk result (λ r. (seat_view r.1).family ≡ family_of second_stops None 10) }
{
    new_family(alloc, &SecondStops, None, 10)
}

#[test]
fn a_look_answers_another_seats_mark(rt: HostRuntime) -> Result<(), Fail> {
    let (word, mut seat) = word_of_two(rt.alloc())?;
    let mut other = word.split(&mut seat)?;
    assert_eq!(rt; word.look(&mut other), u64::MAX);
    word.mark(&mut seat, 1);
    assert_eq!(rt; word.look(&mut other), 1);
    assert_eq!(rt; word.look(&mut seat), 1);
    Ok(())
}
