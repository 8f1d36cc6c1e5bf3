ghost use Rattle.std.specs.Prelude.{◌≡◌, ◌≤◌, ◌⊎◌, false, Err, IfOk, OnOk, OnErr};
ghost use Rattle.ap_outside.specs.Faults.{Rose};
ghost use Rattle.ap_outside.specs.Gains.{Gained, GainedPart};
ghost use Rattle.ap_books.specs.Bodies.{worked, body_by, body_of, forms_by, forms_of, opened, Ran, Reached};

use crate::admitter::{Admitter, BookFault, BookSeen};
use crate::events::{Events, events_in};
use crate::texts;
use ap_list::Bytes;
use ap_outside::{Sink, WriteFault, put_all};
use ap_reader::Form;
use std::alloc::Global;
use std::sync::Wait;
use std::thread::Threads;

/// Works a form, and puts what it gave. Answers whether it was refused.
fn show_form<R: Threads + Wait + Sync, A: Admitter, S: Sink>(
    rt: &R,
    alloc: Global,
    form: &Form,
    admitter: &mut A,
    sink: &mut S,
) -> Result<bool, WriteFault>
    ensures text { OnOk result (Gained (S.content sink.old) (S.content sink.new) (A.admits (A.state admitter.old) form.now).text) }
    ensures refused { IfOk result (λ b. (A.admits (A.state admitter.old) form.now).refused ≡ b) }
    ensures next { OnOk result ((A.admits (A.state admitter.old) form.now).next ≡ A.state admitter.new) }
    ensures part { OnErr result (GainedPart (S.content sink.old) (S.content sink.new) (A.admits (A.state admitter.old) form.now).text) }
    ensures links { OnOk result (A.links admitter.old form.now admitter.new) }
    ensures ran { OnErr result (Ran A.state A.admits A.links A.rests form.now admitter.old admitter.new) }
    ensures later { S.faults sink.old ≤ S.faults sink.new }
    ensures failed { result ≡ Err WriteFault.Failed → Rose (S.faults sink.old) (S.faults sink.new) }
{
    let ended = admitter.admit_form(rt, alloc, form)?;
    put_all(sink, ended.text.as_slice())?;
    Ok(ended.refused)
}

/// Ends the book, and puts what that gave. Answers whether it was refused.
fn show_end<R: Threads + Wait + Sync, A: Admitter, S: Sink>(
    rt: &R,
    alloc: Global,
    admitter: &mut A,
    sink: &mut S,
) -> Result<bool, WriteFault>
    ensures text { OnOk result (Gained (S.content sink.old) (S.content sink.new) (A.ends (A.state admitter.old)).text) }
    ensures refused { IfOk result (λ b. (A.ends (A.state admitter.old)).refused ≡ b) }
    ensures next { OnOk result ((A.ends (A.state admitter.old)).next ≡ A.state admitter.new) }
    ensures rests { A.rests admitter.old admitter.new }
    ensures ran { OnErr result ((A.state admitter.new ≡ A.state admitter.old) ⊎ ((A.ends (A.state admitter.old)).next ≡ A.state admitter.new)) }
    ensures part { OnErr result (GainedPart (S.content sink.old) (S.content sink.new) (A.ends (A.state admitter.old)).text) }
    ensures later { S.faults sink.old ≤ S.faults sink.new }
    ensures failed { result ≡ Err WriteFault.Failed → Rose (S.faults sink.old) (S.faults sink.new) }
{
    let ended = admitter.end_book(rt, alloc)?;
    put_all(sink, ended.text.as_slice())?;
    Ok(ended.refused)
}

/// Works forms up to the first that is refused, and puts the text of each. Answers whether all were admitted, and
/// the book's end too.
fn show_events<R: Threads + Wait + Sync, A: Admitter, S: Sink>(
    rt: &R,
    alloc: Global,
    forms: &[Form],
    admitter: &mut A,
    sink: &mut S,
) -> Result<bool, WriteFault>
    ensures text { OnOk result (Gained (S.content sink.old) (S.content sink.new) (worked A.admits A.ends forms.now (A.state admitter.old)).text) }
    ensures certified { IfOk result (λ b. (worked A.admits A.ends forms.now (A.state admitter.old)).certified ≡ b) }
    ensures reached { Reached A.state A.admits A.ends A.links A.rests forms.now admitter.old admitter.new }
    ensures state { OnOk result ((worked A.admits A.ends forms.now (A.state admitter.old)).state ≡ A.state admitter.new) }
    ensures part { OnErr result (GainedPart (S.content sink.old) (S.content sink.new) (worked A.admits A.ends forms.now (A.state admitter.old)).text) }
    ensures later { S.faults sink.old ≤ S.faults sink.new }
    ensures failed { result ≡ Err WriteFault.Failed → Rose (S.faults sink.old) (S.faults sink.new) }
{
    for form in forms {
        if show_form(rt, alloc, form, admitter, sink)? {
            return Ok(false);
        }
    }
    Ok(!show_end(rt, alloc, admitter, sink)?)
}

/// Puts what is printed of a book that has no events. Answers that such a book isn't certified.
///
/// `Failed` comes only where the sink failed and counted it; after an Err the sink gained a prefix of the text.
pub fn put_text<S: Sink>(text: &[u8], sink: &mut S) -> Result<bool, WriteFault>
    ensures text { OnOk result (Gained (S.content sink.old) (S.content sink.new) text.now) }
    ensures certified { IfOk result (λ b. b ≡ false) }
    ensures part { OnErr result (GainedPart (S.content sink.old) (S.content sink.new) text.now) }
    ensures later { S.faults sink.old ≤ S.faults sink.new }
    ensures failed { result ≡ Err WriteFault.Failed → Rose (S.faults sink.old) (S.faults sink.new) }
{
    put_all(sink, text)?;
    Ok(false)
}

/// Puts the text behind a book's first line. Answers whether the book is certified.
fn show_body<R: Threads + Wait + Sync, A: Admitter, S: Sink>(
    rt: &R,
    alloc: Global,
    events: &Result<Events, Bytes>,
    admitter: &mut A,
    sink: &mut S,
) -> Result<bool, WriteFault>
    ensures text { OnOk result (Gained (S.content sink.old) (S.content sink.new) (body_by A.admits A.ends events.now (A.state admitter.old)).text) }
    ensures certified { IfOk result (λ b. (body_by A.admits A.ends events.now (A.state admitter.old)).certified ≡ b) }
    ensures reached { Reached A.state A.admits A.ends A.links A.rests (forms_by events.now) admitter.old admitter.new }
    ensures state { OnOk result ((body_by A.admits A.ends events.now (A.state admitter.old)).state ≡ A.state admitter.new) }
    ensures part { OnErr result (GainedPart (S.content sink.old) (S.content sink.new) (body_by A.admits A.ends events.now (A.state admitter.old)).text) }
    ensures later { S.faults sink.old ≤ S.faults sink.new }
    ensures failed { result ≡ Err WriteFault.Failed → Rose (S.faults sink.old) (S.faults sink.new) }
{
    match events {
        Ok(events) => show_events(rt, alloc, events.as_slice(), admitter, sink),
        Err(text) => put_text(text.as_slice(), sink),
    }
}

/// Puts the line `Book NAME` and the body.
#[tactic(auto, using(ap_outside::proofs::Gains::gains), unfolding(crate::specs::Bodies::opened))]
fn show_book<R: Threads + Wait + Sync, A: Admitter, S: Sink>(
    rt: &R,
    alloc: Global,
    book: &BookSeen,
    admitter: &mut A,
    sink: &mut S,
) -> Result<bool, WriteFault>
    ensures text { OnOk result (Gained (S.content sink.old) (S.content sink.new) (opened book.now.name.0 (body_of A.admits A.ends book.now.read (A.state admitter.old)))) }
    ensures certified { IfOk result (λ b. (body_of A.admits A.ends book.now.read (A.state admitter.old)).certified ≡ b) }
    ensures reached { Reached A.state A.admits A.ends A.links A.rests (forms_of book.now.read) admitter.old admitter.new }
    ensures state { OnOk result ((body_of A.admits A.ends book.now.read (A.state admitter.old)).state ≡ A.state admitter.new) }
    ensures part { OnErr result (GainedPart (S.content sink.old) (S.content sink.new) (opened book.now.name.0 (body_of A.admits A.ends book.now.read (A.state admitter.old)))) }
    ensures later { S.faults sink.old ≤ S.faults sink.new }
    ensures failed { result ≡ Err WriteFault.Failed → Rose (S.faults sink.old) (S.faults sink.new) }
{
    let first = texts::opening(alloc, book.name.0.as_slice())?;
    put_all(sink, first.as_slice())?;
    let events = events_in(alloc, &book.read)?;
    show_body(rt, alloc, &events, admitter, sink)
}

/// Certifies a book that was read: puts the line `Book NAME` and what stands in its body, and works its forms by the
/// admitter, up to the first that is refused; where none was, the admitter ends the book. Answers whether the book is
/// certified, which it is where nothing was refused. The closing line isn't put, since what a certified book leaves is
/// stored before it.
///
/// `Write` comes only where the sink failed and counted it, `NoMemory` is want of memory; then the sink gained a prefix
/// of that text. In every case the admitter was led by a prefix of the book's forms, in order, of which none
/// but the last was refused, and its state is what these leave, or what the book's end leaves behind all of them.
pub fn certify_book<R: Threads + Wait + Sync, A: Admitter, S: Sink>(
    rt: &R,
    alloc: Global,
    book: &BookSeen,
    admitter: &mut A,
    sink: &mut S,
) -> Result<bool, BookFault>
    ensures text { OnOk result (Gained (S.content sink.old) (S.content sink.new) (opened book.now.name.0 (body_of A.admits A.ends book.now.read (A.state admitter.old)))) }
    ensures certified { IfOk result (λ b. (body_of A.admits A.ends book.now.read (A.state admitter.old)).certified ≡ b) }
    ensures state { OnOk result ((body_of A.admits A.ends book.now.read (A.state admitter.old)).state ≡ A.state admitter.new) }
    ensures part { OnErr result (GainedPart (S.content sink.old) (S.content sink.new) (opened book.now.name.0 (body_of A.admits A.ends book.now.read (A.state admitter.old)))) }
    ensures reached { Reached A.state A.admits A.ends A.links A.rests (forms_of book.now.read) admitter.old admitter.new }
    ensures later { S.faults sink.old ≤ S.faults sink.new }
    ensures failed { result ≡ Err BookFault.Write → Rose (S.faults sink.old) (S.faults sink.new) }
{
    match show_book(rt, alloc, book, admitter, sink) {
        Ok(certified) => Ok(certified),
        Err(WriteFault::Failed) => Err(BookFault::Write),
        Err(WriteFault::NoMemory) => Err(BookFault::NoMemory),
    }
}
