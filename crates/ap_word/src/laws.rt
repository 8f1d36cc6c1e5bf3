//! The laws of where a family stops, as the contract of a function that does nothing.
ghost use Rattle.std.specs.Prelude.{◌≡◌, ◌≤◌, ℕ, List, Option, Some, true};
ghost use Rattle.ap_word.specs.declared.family.Counted.{Counted};
ghost use Rattle.ap_word.specs.declared.family.Numbers.{Numbers};
ghost use Rattle.ap_word.specs.Stops.{stops_by, EachFewer, AreTrue, known_stop};

/// A family that stops by a place stops by each later one, and where each of its siblings counts more.
/// Where the finished siblings tell a stop, the family stops there, whatever the others come to.
pub fn families_stop()
    ensures later { (n : Numbers) (ts : List Counted) (i j : ℕ) → i ≤ j → stops_by n ts i ≡ true → stops_by n ts j ≡ true }
    ensures more { (n : Numbers) (ts us : List Counted) (i : ℕ) → EachFewer ts us → stops_by n ts i ≡ true → stops_by n us i ≡ true }
    ensures known { (n : Numbers) (os : List (Option Counted)) (ts : List Counted) (i : ℕ) → AreTrue os ts → known_stop n os ≡ Some i → stops_by n ts i ≡ true }
{}
