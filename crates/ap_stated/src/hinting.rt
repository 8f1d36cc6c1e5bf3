//! The hints that an event gives.
ghost use Rattle.std.specs.Prelude.{◌≡◌, IfOk, option_map};
ghost use Rattle.ap_world.specs.Sound.{HasFunctions};
ghost use Rattle.ap_world.specs.World.{function_of};
ghost use Rattle.ap_hints.specs.Known.{KnownHints};
ghost use Rattle.ap_stated.specs.Hinting.{given_hints};

use crate::refusing::Refusal;
use ap_hints::{HintError, Hints, hints_of, no_hints};
use ap_list::NoMemory;
use ap_reader::Form;
use ap_rules::Ruled;
use std::alloc::{AllocError, Global};

/// The hints that an event gives in the world before it, or why they are refused. The only error is want of
/// memory.
pub fn given_hints(
    alloc: Global,
    w: &Ruled,
    given: Option<&Form>,
) -> Result<Result<Hints, Refusal>, NoMemory>
    requires functions { HasFunctions (function_of w.now.entries) }
    ensures made { IfOk result (λ r. r ≡ given_hints w.now (option_map (λ f. f.now) given.entry)) }
    ensures known { IfOk result (λ r. IfOk r (KnownHints w.now.entries)) }
{
    let Some(form) = given else {
        return Ok(Ok(no_hints(alloc)));
    };
    match hints_of(alloc, w.world(), form) {
        Ok(hints) => Ok(Ok(hints)),
        Err(HintError::NoMemory) => Err(AllocError),
        Err(error) => Ok(Err(Refusal::Hint(error))),
    }
}
