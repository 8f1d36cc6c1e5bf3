//! The demo: a book that the program makes and works, of which one line is printed.
ghost use Rattle.std.specs.Prelude.{◌≡◌, ◌≤◌, ◌+◌, [], false, Err, IfOk, IfSome, OnOk, OnErr};
ghost use Rattle.ap_outside.specs.Faults.{Rose};
ghost use Rattle.ap_outside.specs.Gains.{Gained, GainedPart};
ghost use Rattle.ap_books.specs.Bodies.{worked, body_by, forms_by, events_in as events_of};
ghost use Rattle.ap_plain.specs.Ends.{goals_in};
ghost use Rattle.ap_session.specs.Acts.{GainedLess};
ghost use Rattle.ap_session.specs.Working.{start, admits, ends};
ghost use Rattle.ap_session.specs.Admitting.{left_in, Behind, Led};
ghost use Rattle.ap_session.specs.Command.{shown_demo};
ghost use Rattle.ap_session.specs.Demo.{demo_read, admitted_of, tally_by, counted, demo_line};
ghost use Rattle.ap_session.specs.Session.{last_of, demo_session};

use crate::admitting::Admitting;
use crate::command::Demo;
use crate::putting::put_whole;
use ap_attempt::Gate;
use ap_books::{Events, demo_book, events_in};
use ap_list::{Bytes, NoMemory};
use ap_outside::{BookBytes, BookRead, Sink, WriteFault};
use ap_reader::Form;
use itoa::Buffer;
use std::alloc::{AllocError, Global};
use std::sync::Wait;
use std::thread::Threads;

/// How many events were admitted, and how many goals their attempts visited.
#[derive(Clone, Copy)]
pub(crate) struct Tally {
    pub(crate) events: usize,
    pub(crate) goals: usize,
}

/// An event more. `None` where a count has no room.
fn add(tally: Tally, refused: bool, goals: usize) -> Option<Tally>
    ensures { IfSome result (λ t. t ≡ tally_by tally refused goals) }
{
    let more = if refused { 0 } else { 1 };
    let events = tally.events.checked_add(more)?;
    let goals = tally.goals.checked_add(goals)?;
    Some(Tally { events, goals })
}

/// Works an event, and counts it. Answers whether it was refused. More goals than a machine word counts is taken for want
/// of memory.
fn count_event<R: Threads + Wait + Sync, G: Gate + Sync>(
    rt: &R,
    alloc: Global,
    form: &Form,
    admitting: &mut Admitting<'_, G>,
    tally: &mut Tally,
) -> Result<bool, NoMemory>
    ensures refused { IfOk result (λ b. (admits admitting.old.working form.now).refused ≡ b) }
    ensures next { OnOk result ((admits admitting.old.working form.now).next ≡ admitting.new.working) }
    ensures tally { OnOk result (tally.new ≡ counted tally.old (admits admitting.old.working form.now)) }
    ensures behind { Behind admitting.old admitting.new (admits admitting.old.working form.now).log }
{
    let done = admitting.admit(rt, alloc, form)?;
    match add(*tally, done.refused, done.goals) {
        Some(more) => {
            *tally = more;
            Ok(done.refused)
        }
        None => Err(AllocError),
    }
}

/// Works the events of a book up to the first that is refused, and counts them; where none is, the second pass ends the
/// book. Answers whether nothing was refused.
fn count_events<R: Threads + Wait + Sync, G: Gate + Sync>(
    rt: &R,
    alloc: Global,
    forms: &[Form],
    admitting: &mut Admitting<'_, G>,
    tally: &mut Tally,
) -> Result<bool, NoMemory>
    ensures certified { IfOk result (λ b. (worked admits ends forms.now admitting.old.working).certified ≡ b) }
    ensures state { OnOk result ((worked admits ends forms.now admitting.old.working).state ≡ admitting.new.working) }
    ensures events { OnOk result (tally.new.events ≡ tally.old.events + admitted_of forms.now admitting.old.working) }
    ensures goals { OnOk result (tally.new.goals ≡ tally.old.goals + goals_in (worked admits ends forms.now admitting.old.working).log) }
    ensures behind { Behind admitting.old admitting.new (worked admits ends forms.now admitting.old.working).log }
{
    for form in forms {
        if count_event(rt, alloc, form, admitting, tally)? {
            return Ok(false);
        }
    }
    let ended = admitting.end(alloc)?;
    Ok(!ended.refused)
}

/// Works the events of a book, where it has any, and counts them. Answers whether the book is certified.
fn count_body<R: Threads + Wait + Sync, G: Gate + Sync>(
    rt: &R,
    alloc: Global,
    events: &Result<Events, Bytes>,
    admitting: &mut Admitting<'_, G>,
    tally: &mut Tally,
) -> Result<bool, NoMemory>
    ensures certified { IfOk result (λ b. (body_by admits ends events.now admitting.old.working).certified ≡ b) }
    ensures state { OnOk result ((body_by admits ends events.now admitting.old.working).state ≡ admitting.new.working) }
    ensures events { OnOk result (tally.new.events ≡ tally.old.events + admitted_of (forms_by events.now) admitting.old.working) }
    ensures goals { OnOk result (tally.new.goals ≡ tally.old.goals + goals_in (body_by admits ends events.now admitting.old.working).log) }
    ensures behind { Behind admitting.old admitting.new (body_by admits ends events.now admitting.old.working).log }
{
    match events {
        Ok(events) => count_events(rt, alloc, events.as_slice(), admitting, tally),
        Err(_) => Ok(false),
    }
}

/// Works a book that was begun, counts its events, and keeps its world where it is certified, which is answered.
fn count_begun<R: Threads + Wait + Sync, G: Gate + Sync>(
    rt: &R,
    alloc: Global,
    events: &Result<Events, Bytes>,
    admitting: &mut Admitting<'_, G>,
    tally: &mut Tally,
) -> Result<bool, NoMemory>
    requires begun { admitting.old.working.world ≡ start }
    requires unkept { admitting.old.kept ≡ false }
    ensures certified { IfOk result (λ b. (body_by admits ends events.now admitting.old.working).certified ≡ b) }
    ensures events { OnOk result (tally.new.events ≡ tally.old.events + admitted_of (forms_by events.now) admitting.old.working) }
    ensures goals { OnOk result (tally.new.goals ≡ tally.old.goals + goals_in (body_by admits ends events.now admitting.old.working).log) }
    ensures last { OnOk result (last_of (body_by admits ends events.now admitting.old.working) ≡ left_in admitting.new) }
    ensures led { Led admitting.old admitting.new (body_by admits ends events.now admitting.old.working).log }
{
    let certified = count_body(rt, alloc, events, admitting, tally)?;
    if !certified {
        return Ok(false);
    }
    admitting.keep(alloc, b"demo")?;
    Ok(true)
}

/// What is printed of the demo.
#[tactic(auto, unfolding(crate::specs::Demo::demo_line))]
fn line(alloc: Global, number: u32, tally: Tally, certified: bool) -> Result<Bytes, NoMemory>
    ensures { IfOk result (λ text. text ≡ demo_line number tally.events tally.goals certified) }
{
    let mut functions = Buffer::new();
    let mut events = Buffer::new();
    let mut goals = Buffer::new();
    let mut text = Bytes::new(alloc);
    text.extend(b"Demo ")?;
    text.extend(functions.format(number).as_bytes())?;
    text.extend(b" events ")?;
    text.extend(events.format(tally.events).as_bytes())?;
    text.extend(b" goals ")?;
    text.extend(goals.format(tally.goals).as_bytes())?;
    if certified {
        text.extend(b" certified\n")?;
        Ok(text)
    } else {
        text.extend(b" not certified\n")?;
        Ok(text)
    }
}

/// The events of the demo's book of so many functions.
fn demo_events(alloc: Global, number: u32) -> Result<Result<Events, Bytes>, NoMemory>
    ensures { IfOk result (λ events. events ≡ events_of (demo_read number)) }
{
    let read = BookRead::Found(BookBytes(demo_book(alloc, number)?));
    let events = events_in(alloc, &read)?;
    Ok(events)
}

/// Works the demo's book, from the world that each book begins with. Answers its line, and whether it is certified.
fn work_demo<R: Threads + Wait + Sync, G: Gate + Sync>(
    rt: &R,
    alloc: Global,
    demo: Demo,
    admitting: &mut Admitting<'_, G>,
) -> Result<(Bytes, bool), NoMemory>
    requires limits { admitting.old.working.limits ≡ demo.limits }
    requires unkept { admitting.old.working.earlier ≡ [] }
    ensures text { IfOk result (λ p. p.0 ≡ (demo_session (shown_demo demo)).text) }
    ensures certified { IfOk result (λ p. (demo_session (shown_demo demo)).certified ≡ p.1) }
    ensures last { OnOk result ((demo_session (shown_demo demo)).last ≡ left_in admitting.new) }
    ensures led { Led admitting.old admitting.new (demo_session (shown_demo demo)).told }
{
    let events = demo_events(alloc, demo.number)?;
    admitting.begin(alloc)?;
    let mut tally = Tally {
        events: 0,
        goals: 0,
    };
    let certified = count_begun(rt, alloc, &events, admitting, &mut tally)?;
    let text = line(alloc, demo.number, tally, certified)?;
    Ok((text, certified))
}

/// Works the demo's book, and puts its line. Answers whether the book is certified.
pub(crate) fn show_demo<R: Threads + Wait + Sync, G: Gate + Sync, S: Sink>(
    rt: &R,
    alloc: Global,
    demo: Demo,
    admitting: &mut Admitting<'_, G>,
    sink: &mut S,
) -> Result<bool, WriteFault>
    requires limits { admitting.old.working.limits ≡ demo.limits }
    requires unkept { admitting.old.working.earlier ≡ [] }
    ensures text { OnOk result (Gained (S.content sink.old) (S.content sink.new) (demo_session (shown_demo demo)).text) }
    ensures certified { IfOk result (λ b. (demo_session (shown_demo demo)).certified ≡ b) }
    ensures last { OnOk result ((demo_session (shown_demo demo)).last ≡ left_in admitting.new) }
    ensures part { OnErr result (GainedPart (S.content sink.old) (S.content sink.new) (demo_session (shown_demo demo)).text) }
    ensures unput { result ≡ Err WriteFault.Failed → GainedLess (S.content sink.old) (S.content sink.new) (demo_session (shown_demo demo)).text }
    ensures led { Led admitting.old admitting.new (demo_session (shown_demo demo)).told }
    ensures later { S.faults sink.old ≤ S.faults sink.new }
    ensures failed { result ≡ Err WriteFault.Failed → Rose (S.faults sink.old) (S.faults sink.new) }
{
    let (text, certified) = work_demo(rt, alloc, demo, admitting)?;
    put_whole(sink, text.as_slice())?;
    Ok(certified)
}
