//! One event in a world alone.
ghost use Rattle.std.specs.Prelude.{◌≡◌, ◌≤◌, [], IfOk};
ghost use Rattle.ap_list.specs.Lists.{Each};
ghost use Rattle.ap_world.specs.Sound.{HasFunctions};
ghost use Rattle.ap_world.specs.World.{function_of};
ghost use Rattle.ap_plain.specs.Drops.{DividedWalks};
ghost use Rattle.ap_plain.specs.Ends.{walks_in, worlds_in};
ghost use Rattle.ap_events.specs.Backing.{CoversAdded, HasDefinitions};
ghost use Rattle.ap_events.specs.Ends.{text_in, next_in, drops_in, world_in, Kept};
ghost use Rattle.ap_events.specs.Books.{include_of, worked, worked_again};

use crate::end::{EventEnd, end_in};
use crate::kept::include_of;
use crate::nested::{work, work_again};
use ap_attempt::Gate;
use ap_list::NoMemory;
use ap_plain::Limits;
use ap_reader::Form;
use ap_rules::Ruled;
use ap_world::World;
use std::alloc::Global;
use std::sync::Wait;
use std::thread::Threads;

/// Does an event in a world, as [`work`] does: the index of the world's rules is made first, and left out of the answer.
pub fn event<R: Threads + Wait + Sync, G: Gate + Sync>(
    rt: &R,
    alloc: Global,
    w: World,
    f: &Form,
    limits: &Limits,
    workers: u32,
    gate: &G,
) -> Result<EventEnd, NoMemory>
    requires { HasFunctions (function_of w.entries) }
    ensures text { IfOk result (λ e. text_in e ≡ (worked limits.now [] w f.now).text) }
    ensures next { IfOk result (λ e. next_in e ≡ (worked limits.now [] w f.now).next) }
    ensures refused { IfOk result (λ e. Kept w e) }
    ensures drops { IfOk result (λ e. DividedWalks (drops_in e) (walks_in (worked limits.now [] w f.now).told)) }
    ensures alone { IfOk result (λ e. workers ≤ 1 → drops_in e ≡ []) }
    ensures ground { IfOk result (λ e. HasFunctions (function_of (world_in e).entries)) }
{
    let mut ruled = Ruled::of(alloc, w)?;
    let outcome = work(rt, alloc, &mut ruled, &[], f, limits, workers, gate)?;
    Ok(end_in(ruled.into_world(), outcome))
}

/// Does an event in a world again, as [`work_again`] does: without hints, without proofs, and without what is local in
/// it. A world in which it was done before has the functions and the constants of this one, and what is made, masks of
/// functions aside. Nothing is dropped.
pub fn event_again(alloc: Global, w: World, f: &Form, from: &World) -> Result<EventEnd, NoMemory>
    requires functions { HasFunctions (function_of w.entries) }
    requires source { HasFunctions (function_of from.now.entries) }
    requires made { Each (λ v. CoversAdded w.entries v.entries from.now.entries) (worlds_in (worked_again [] w f.now).told) }
    requires has { HasDefinitions w.entries from.now.entries }
    ensures text { IfOk result (λ e. text_in e ≡ (worked_again [] w f.now).text) }
    ensures next { IfOk result (λ e. next_in e ≡ (worked_again [] w f.now).next) }
    ensures refused { IfOk result (λ e. Kept w e) }
    ensures alone { IfOk result (λ e. drops_in e ≡ []) }
    ensures ground { IfOk result (λ e. HasFunctions (function_of (world_in e).entries)) }
{
    from.recall_sound();
    let mut ruled = Ruled::of(alloc, w)?;
    let outcome = work_again(alloc, &mut ruled, &[], f)?;
    Ok(end_in(ruled.into_world(), outcome))
}

/// Includes a book's kept world by the book's name in a world: the event is refused where another entry stands there
/// under a name of the book's, masks aside. Nothing is dropped. See the manual's topic `include-book`.
pub fn include(alloc: Global, w: World, name: &[u8], kept: &World) -> Result<EventEnd, NoMemory>
    requires functions { HasFunctions (function_of w.entries) }
    requires source { HasFunctions (function_of kept.now.entries) }
    ensures text { IfOk result (λ e. text_in e ≡ (include_of w name.now kept.now).text) }
    ensures next { IfOk result (λ e. next_in e ≡ (include_of w name.now kept.now).next) }
    ensures refused { IfOk result (λ e. Kept w e) }
    ensures alone { IfOk result (λ e. drops_in e ≡ []) }
    ensures ground { IfOk result (λ e. HasFunctions (function_of (world_in e).entries)) }
{
    let mut ruled = Ruled::of(alloc, w)?;
    let outcome = include_of(alloc, &mut ruled, name, kept)?;
    Ok(end_in(ruled.into_world(), outcome))
}
