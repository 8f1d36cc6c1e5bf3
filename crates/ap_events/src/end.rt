ghost use Rattle.std.specs.Prelude.{◌≡◌};
ghost use Rattle.ap_events.specs.Ends.{end_of};

use ap_attempt::DropNote;
use ap_list::{Bytes, Seq};
use ap_plain::Outcome;
use ap_world::World;

/// What an event in a world came to: the world after it, what it printed, and what was dropped. A refused event
/// leaves the world as it was.
#[derive(Drop)]
pub enum EventEnd {
    Admitted(World, Bytes, Seq<DropNote>),
    Refused(World, Bytes, Seq<DropNote>),
}

/// An outcome with the world that was left.
pub(crate) fn end_in(w: World, outcome: Outcome) -> EventEnd
    ensures { result ≡ end_of outcome.admitted w outcome.text outcome.drops }
{
    let Outcome {
        text,
        admitted,
        goals: _,
        drops,
    } = outcome;
    if admitted {
        EventEnd::Admitted(w, text, drops)
    } else {
        EventEnd::Refused(w, text, drops)
    }
}
