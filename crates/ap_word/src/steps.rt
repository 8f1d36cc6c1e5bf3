//! The rule of a word, and what each of its steps tells.
use crate::family::View;
use atomic_table::{Play, Split, TableRule};
use std::marker::{Brand, PhantomData};

/// The word is a place by which the family stops, or none, and no seat knows a lesser number.
pub(crate) struct Stops;

impl TableRule<(), View, ()> for Stops {
    ghost use Rattle.ap_word.specs.Words.{Keeps, untold};

    ghost holds = { λ _ s. Keeps s.words s.views };

    ghost first = { λ _. untold };
}

/// A load by a seat that was told its family.
pub(crate) struct Looks;

impl Play<(), View> for Looks {
    ghost use Rattle.std.specs.Prelude.{◌≡◌, ◌≤◌};
    ghost use Rattle.ap_word.specs.Words.{IsPlace, looked};

    ghost then = { λ _ v found w. (w.0 ≡ looked v.0 found) × (w.1 ≡ v.1) × IsPlace v.0.family found × (found ≤ v.0.low) };
}

/// A `fetch_min` by a seat whose family stops by the number.
pub(crate) struct Marks;

impl Play<(), View> for Marks {
    ghost use Rattle.std.specs.Prelude.{◌≡◌};
    ghost use Rattle.ap_word.specs.Words.{marked};

    ghost then = { λ s v _ w. (w.0 ≡ marked v.0 s.first) × (w.1 ≡ v.1) };
}

/// The new seat knows what the old one does, and has made no look.
pub(crate) struct Copies;

impl Split<View> for Copies {
    ghost use Rattle.ap_word.specs.Words.{unlooked};

    ghost left = { λ v. v };

    ghost right = { unlooked };
}

/// A family that a call picks.
pub(crate) trait Truth {
    ghost use Rattle.ap_word.specs.declared.family.Family.{Family};

    ghost truth: { Family };
}

impl Truth for Brand {
    ghost use Rattle.ap_word.specs.Words.{no_family};

    ghost truth = { no_family };
}

/// A load by which the first seat is told its family.
pub(crate) struct Tells<F>(PhantomData<F>);

impl<F: Truth> Play<(), View> for Tells<F> {
    ghost use Rattle.std.specs.Prelude.{◌≡◌};
    ghost use Rattle.ap_word.specs.Words.{told};

    ghost then = { λ _ v _ w. (w.0 ≡ told v.0 F.truth) × (w.1 ≡ v.1) };
}
