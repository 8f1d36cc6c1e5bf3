//! Events with all that they hold, in a world with the index of its rules.
ghost use Rattle.std.specs.Prelude.{◌≡◌, ◌≤◌, List, [], Some, None, cond, IfOk, OnErr, false};
ghost use Rattle.ap_world.specs.declared.entry.Entry.{Entry};
ghost use Rattle.ap_world.specs.Sound.{HasFunctions};
ghost use Rattle.ap_world.specs.World.{function_of};
ghost use Rattle.ap_plain.specs.Drops.{DividedWalks};
ghost use Rattle.ap_plain.specs.Ends.{Did, goals_in, walks_in};
ghost use Rattle.ap_events.specs.Backing.{Backed};
ghost use Rattle.ap_events.specs.Books.{worked, worked_again};

use crate::first::{Crew, first_in};
use crate::kept::KeptBook;
use crate::second::again_in;
use ap_attempt::Gate;
use ap_list::NoMemory;
use ap_plain::{Limits, Outcome};
use ap_reader::Form;
use ap_rules::Ruled;
use std::alloc::Global;
use std::sync::Wait;
use std::thread::Threads;

/// Does an event in a world with the index of its rules, by the form that states it, with all events that it holds:
/// `local`, `progn` and `encapsulate` hold events, `include-book` has the kept world of an earlier book of the session,
/// and the others are those of [`ap_plain::work`]. Answers what it prints, whether it is admitted, how many goals its
/// attempts visited, and what was dropped in them. Up to 64 workers make the attempts; with one worker nothing is
/// dropped, and the code starts no thread, which no clause says. Where the event is admitted the world is the next one;
/// where it is refused, or where memory is wanting, the world is as it was. It costs what the event costs, whatever the
/// world has already, and no world is copied. The only error is want of memory, for which more goals than a machine
/// word counts is taken too.
pub fn work<R: Threads + Wait + Sync, G: Gate + Sync>(
    rt: &R,
    alloc: Global,
    w: &mut Ruled,
    earlier: &[KeptBook],
    f: &Form,
    limits: &Limits,
    workers: u32,
    gate: &G,
) -> Result<Outcome, NoMemory>
    requires { HasFunctions (function_of w.old.entries) }
    ensures text { IfOk result (λ e. e.text ≡ (worked limits.now earlier.now w.old f.now).text) }
    ensures next { IfOk result (λ e. (worked limits.now earlier.now w.old f.now).next ≡ cond e.admitted (Some w.new) None) }
    ensures refused { IfOk result (λ e. e.admitted ≡ false → w.new ≡ w.old) }
    ensures goals { IfOk result (λ e. e.goals ≡ goals_in (worked limits.now earlier.now w.old f.now).told) }
    ensures drops { IfOk result (λ e. DividedWalks e.drops (walks_in (worked limits.now earlier.now w.old f.now).told)) }
    ensures alone { IfOk result (λ e. workers ≤ 1 → e.drops ≡ []) }
    ensures error { OnErr result (w.new ≡ w.old) }
    ensures ground { HasFunctions (function_of w.new.entries) }
{
    let crew = Crew {
        rt,
        limits,
        workers,
        gate,
    };
    first_in(&crew, alloc, w, earlier, 400, f)
}

/// Does an event again in a world with the index of its rules, without hints and without proofs, and without what is
/// local in it: a sound list of entries, as that of a world in which it was done before, defines alike what the world
/// defines, and has what is made. Nothing is printed where it is admitted, and the refused line alone where not. Where
/// it is admitted the world is the next one; where it is refused, or where memory is wanting, the world is as it was.
/// The only error is want of memory.
pub fn work_again(
    alloc: Global,
    w: &mut Ruled,
    earlier: &[KeptBook],
    f: &Form,
) -> Result<Outcome, NoMemory>
    requires functions { HasFunctions (function_of w.old.entries) }
    requires backed { (U : List Entry) × Backed (worked_again earlier.now w.old f.now) w.old U }
    ensures done { IfOk result (Did (worked_again earlier.now w.old f.now) w.old w.new) }
    ensures alone { IfOk result (λ e. e.drops ≡ []) }
    ensures error { OnErr result (w.new ≡ w.old) }
    ensures ground { HasFunctions (function_of w.new.entries) }
{
    again_in(alloc, w, earlier, 400, f)
}
