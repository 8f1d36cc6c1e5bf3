//! The seats of the words of families: one that the table keeps for each family, and one for each family above a
//! job's node.
ghost use Rattle.std.specs.Prelude.{◌≡◌};
ghost use Rattle.ap_word.specs.Seats.{word_table, seat_table};

use ap_list::{Seq, Shared};
use ap_word::{FamilyWord, WordSeat};
use std::marker::Model;

/// A family above a job's node, the place in it of the node or of its ancestor there, the family's word and a
/// seat of it. It comes with a job that a table hands out, and nobody else can make one.
#[derive(Drop)]
pub struct AncestorSeat {
    pub(crate) family: u32,
    pub(crate) place: u32,
    pub(crate) word: Shared<FamilyWord>,
    pub(crate) seat: WordSeat,
    ghost of_word: { seat_table seat ≡ word_table word },
}

/// A word with the seat of it that the table keeps. Contracts see which word it is, and what the seat knows.
#[derive(Drop)]
pub(crate) struct KeptSeat {
    pub(crate) word: Shared<FamilyWord>,
    pub(crate) seat: WordSeat,
}

impl Model for KeptSeat {
    ghost use Rattle.std.specs.Prelude.{◌≡◌};
    ghost use Rattle.ap_word.specs.Seats.{word_table, seat_table, seat_view};
    ghost use Rattle.ap_table.specs.Kept.{Kept};

    ghost Value = { Kept };

    ghost view = { λ k. record { table = seat_table k.seat; view = seat_view k.seat } };

    ghost invariant = { λ k. seat_table k.seat ≡ word_table k.word };
}

/// What is kept beside a node: the seats for its job, while it is free, and the seat of its children's word, once
/// these are in the table.
#[derive(Drop)]
pub(crate) struct Beside {
    pub(crate) job: Option<Seq<AncestorSeat>>,
    pub(crate) kept: Option<KeptSeat>,
}
