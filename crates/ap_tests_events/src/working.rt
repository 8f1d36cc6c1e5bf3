//! Events worked one after another.
ghost use Rattle.std.specs.Prelude.{◌≡◌, [], IfOk};
ghost use Rattle.ap_world.specs.Ground.{ground};
ghost use Rattle.ap_world.specs.Sound.{HasFunctions};
ghost use Rattle.ap_world.specs.World.{function_of};
ghost use Rattle.ap_events.specs.Ends.{world_in};

use ap_events::{Bytes, EventEnd, Form, Limits, NoGate, NoMemory, World, event};
use ap_ground::ground_world;
use ap_ground::laws::ground_has_its_functions;
use ap_reader::forms;
use ap_value::acl2;
use std::alloc::{AllocError, Global};
use std::sync::Wait;
use std::test::Fail;
use std::thread::Threads;

/// What an event comes to, whether or not it is admitted.
pub(crate) fn parts(end: EventEnd) -> (World, Bytes)
    ensures { result.0 ≡ world_in end }
{
    match end {
        EventEnd::Admitted(next, text, _) => (next, text),
        EventEnd::Refused(same, text, _) => (same, text),
    }
}

/// Does an event in a world, and adds what it prints. Answers the world behind it.
pub(crate) fn after<R: Threads + Wait + Sync>(
    rt: &R,
    alloc: Global,
    w: World,
    form: &Form,
    limits: &Limits,
    printed: &mut Bytes,
) -> Result<World, NoMemory>
    requires { HasFunctions (function_of w.entries) }
    ensures { IfOk result (λ v. HasFunctions (function_of v.entries)) }
{
    let (world, text) = parts(event(rt, alloc, w, form, limits, 1, &NoGate)?);
    printed.extend(text.as_slice())?;
    Ok(world)
}

/// Does the events of a text one after another, past refused ones. Answers the last world.
fn all_events<R: Threads + Wait + Sync>(
    rt: &R,
    alloc: Global,
    w: World,
    list: &[Form],
    limits: &Limits,
    printed: &mut Bytes,
) -> Result<World, NoMemory>
    requires { HasFunctions (function_of w.entries) }
{
    match list {
        [] => Ok(w),
        [form, rest @ ..] => {
            let next = after(rt, alloc, w, form, limits, printed)?;
            all_events(rt, alloc, next, rest, limits, printed)
        }
    }
}

/// The world that every book begins with.
pub(crate) fn first_world(alloc: Global) -> Result<World, NoMemory>
    ensures is { IfOk result (λ w. w ≡ record { entries = ground; theory = record { disabled = [] } }) }
    ensures functions { IfOk result (λ w. HasFunctions (function_of w.entries)) }
{
    ground_has_its_functions();
    ground_world(alloc)
}

/// The world behind a text's events, and what they print, with attempts of at most so many goals.
pub(crate) fn worked_within<R: Threads + Wait + Sync>(
    rt: &R,
    alloc: Global,
    text: &str,
    goals: u32,
    printed: &mut Bytes,
) -> Result<World, NoMemory> {
    let Some(limits) = Limits::new(1000, goals, 2) else {
        return Err(AllocError);
    };
    let Ok(list) = forms(alloc, text.as_bytes()) else {
        return Err(AllocError);
    };
    let world = first_world(alloc)?;
    all_events(rt, alloc, world, list.as_slice(), &limits, printed)
}

/// The same with at most ten goals.
pub(crate) fn worked<R: Threads + Wait + Sync>(
    rt: &R,
    alloc: Global,
    text: &str,
    printed: &mut Bytes,
) -> Result<World, NoMemory> {
    worked_within(rt, alloc, text, 10, printed)
}

/// What a text's events print, with attempts of at most a hundred goals.
pub(crate) fn printed_by<R: Threads + Wait + Sync>(
    rt: &R,
    alloc: Global,
    text: &str,
) -> Result<Bytes, NoMemory> {
    let mut printed = Bytes::new(alloc);
    worked_within(rt, alloc, text, 100, &mut printed)?;
    Ok(printed)
}

/// A line on a function of the world: its name and the types that its calls may have.
pub(crate) fn told(alloc: Global, w: &World, name: &str) -> Result<String, Fail> {
    let symbol = acl2(alloc, name.as_bytes())?;
    match w.lookup_fun(&symbol) {
        Some(found) => Ok(format!(in alloc; "{name} {}", found.mask.0)?),
        None => Ok(format!(in alloc; "{name} none")?),
    }
}
