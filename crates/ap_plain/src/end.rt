ghost use Rattle.std.specs.Prelude.{◌≡◌, [], IfOk};
ghost use Rattle.ap_world.specs.World.{Shown};
ghost use Rattle.ap_plain.specs.Ends.{Did, refused_alone};

use ap_attempt::DropNote;
use ap_list::{Bytes, NoMemory, Seq};
use ap_stated::{Refusal, texts};
use std::alloc::Global;

/// What an event came to: what it printed, whether it is admitted, how many goals its attempts visited, and which goals
/// workers dropped in them: attempt by attempt, and in each walk by walk.
#[derive(Drop)]
pub struct Outcome {
    pub text: Bytes,
    pub admitted: bool,
    pub goals: usize,
    pub drops: Seq<DropNote>,
}

/// What an event came to that made no attempt. Takes no memory.
pub fn without_drops(alloc: Global, text: Bytes, admitted: bool) -> Outcome
    ensures { result ≡ record { text = text; admitted = admitted; goals = 0; drops = [] } }
{
    Outcome {
        text,
        admitted,
        goals: 0,
        drops: Seq::new(alloc),
    }
}

/// An event that is refused before it does anything: it prints its last line alone. The only error is want of memory.
pub fn refused_alone(alloc: Global, title: &[u8], refusal: Refusal) -> Result<Outcome, NoMemory>
    ensures done { IfOk result (λ e. (w : Shown) → Did (refused_alone title.now refusal) w w e) }
    ensures alone { IfOk result (λ e. e.drops ≡ []) }
{
    let text = texts::refused_line(alloc, title, refusal)?;
    Ok(without_drops(alloc, text, false))
}
