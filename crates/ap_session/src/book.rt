ghost use Rattle.std.specs.Prelude.{◌≡◌, ◌≤◌, ◌⊎◌, ◌∷◌, [], true, false, is_some, string_bytes, IfOk, IfErr, IfSome, OnOk, OnErr};
ghost use Rattle.ap_outside.specs.Faults.{Rose};
ghost use Rattle.ap_outside.specs.Gains.{Gained, GainedPart};
ghost use Rattle.ap_books.specs.Bodies.{worked, body_by, body_of, forms_by, forms_of, opened};
ghost use Rattle.ap_books.specs.Texts.{closing};
ghost use Rattle.ap_events.specs.Held.{held_in};
ghost use Rattle.ap_session.specs.Acts.{outside, Tied};
ghost use Rattle.ap_session.specs.Certs.{seen_in, cert_name, files_by};
ghost use Rattle.ap_session.specs.Showing.{Puts, BookWorked};
ghost use Rattle.ap_session.specs.Storing.{Stored, StoredPart};
ghost use Rattle.ap_session.specs.Working.{start, admits, ends};
ghost use Rattle.ap_session.specs.Admitting.{left_in, Behind, Led};
ghost use Rattle.ap_session.specs.Session.{read_body, kept_more, last_of, end_acts};

use crate::admitting::Admitting;
use crate::certs::{cert_text, held_of};
use crate::fault::Fault;
use crate::putting::{put_unread, put_whole};
use ap_attempt::Gate;
use ap_books::{BookSeen, Events, closing, events_in, opening};
use ap_events::Held;
use ap_list::Bytes;
use ap_outside::{Library, Sink, WriteFault};
use ap_reader::Form;
use std::alloc::Global;
use std::sync::Wait;
use std::thread::Threads;

/// Works an event, and puts what it gave. Answers whether it was refused.
fn show_event<R: Threads + Wait + Sync, G: Gate + Sync, S: Sink>(
    rt: &R,
    alloc: Global,
    form: &Form,
    admitting: &mut Admitting<'_, G>,
    sink: &mut S,
) -> Result<bool, WriteFault>
    ensures puts { Puts (S.content sink.old) (S.content sink.new) (S.faults sink.old) (S.faults sink.new) result (admits admitting.old.working form.now).text }
    ensures refused { IfOk result (λ b. (admits admitting.old.working form.now).refused ≡ b) }
    ensures next { OnOk result ((admits admitting.old.working form.now).next ≡ admitting.new.working) }
    ensures behind { Behind admitting.old admitting.new (admits admitting.old.working form.now).log }
{
    let done = admitting.admit(rt, alloc, form)?;
    put_whole(sink, done.text.as_slice())?;
    Ok(done.refused)
}

/// Ends a book whose events were all admitted, and puts what its second pass printed. Answers whether that refused one.
fn show_end<G, S: Sink>(
    alloc: Global,
    admitting: &Admitting<'_, G>,
    sink: &mut S,
) -> Result<bool, WriteFault>
    ensures puts { Puts (S.content sink.old) (S.content sink.new) (S.faults sink.old) (S.faults sink.new) result (ends admitting.now.working).text }
    ensures refused { IfOk result (λ b. (ends admitting.now.working).refused ≡ b) }
{
    let ended = admitting.end(alloc)?;
    put_whole(sink, ended.text.as_slice())?;
    Ok(ended.refused)
}

/// Works the events of a book up to the first that is refused, and puts the text of each; where none is, the second pass
/// ends the book. Answers whether nothing was refused.
fn show_events<R: Threads + Wait + Sync, G: Gate + Sync, S: Sink>(
    rt: &R,
    alloc: Global,
    forms: &[Form],
    admitting: &mut Admitting<'_, G>,
    sink: &mut S,
) -> Result<bool, WriteFault>
    ensures puts { Puts (S.content sink.old) (S.content sink.new) (S.faults sink.old) (S.faults sink.new) result (worked admits ends forms.now admitting.old.working).text }
    ensures certified { IfOk result (λ b. (worked admits ends forms.now admitting.old.working).certified ≡ b) }
    ensures behind { Behind admitting.old admitting.new (worked admits ends forms.now admitting.old.working).log }
    ensures state { OnOk result ((worked admits ends forms.now admitting.old.working).state ≡ admitting.new.working) }
{
    for form in forms {
        if show_event(rt, alloc, form, admitting, sink)? {
            return Ok(false);
        }
    }
    Ok(!show_end(alloc, admitting, sink)?)
}

/// Puts the text between a book's first and last lines. Answers whether the book is certified.
fn show_body<R: Threads + Wait + Sync, G: Gate + Sync, S: Sink>(
    rt: &R,
    alloc: Global,
    events: &Result<Events, Bytes>,
    admitting: &mut Admitting<'_, G>,
    sink: &mut S,
) -> Result<bool, WriteFault>
    ensures puts { Puts (S.content sink.old) (S.content sink.new) (S.faults sink.old) (S.faults sink.new) result (body_by admits ends events.now admitting.old.working).text }
    ensures certified { IfOk result (λ b. (body_by admits ends events.now admitting.old.working).certified ≡ b) }
    ensures behind { Behind admitting.old admitting.new (body_by admits ends events.now admitting.old.working).log }
    ensures state { OnOk result ((body_by admits ends events.now admitting.old.working).state ≡ admitting.new.working) }
{
    match events {
        Ok(events) => show_events(rt, alloc, events.as_slice(), admitting, sink),
        Err(text) => put_unread(sink, text.as_slice()),
    }
}

/// Puts the text between a book's first and last lines. Answers what the book's events hold, where it is certified.
#[tactic(auto, using(ap_outside::proofs::Gains::part_all))]
fn show_held<R: Threads + Wait + Sync, G: Gate + Sync, S: Sink>(
    rt: &R,
    alloc: Global,
    events: &Result<Events, Bytes>,
    admitting: &mut Admitting<'_, G>,
    sink: &mut S,
) -> Result<Option<Held>, WriteFault>
    ensures puts { Puts (S.content sink.old) (S.content sink.new) (S.faults sink.old) (S.faults sink.new) result (body_by admits ends events.now admitting.old.working).text }
    ensures certified { IfOk result (λ o. (body_by admits ends events.now admitting.old.working).certified ≡ is_some o) }
    ensures held { IfOk result (λ o. IfSome o (λ h. h ≡ held_in (forms_by events.now))) }
    ensures behind { Behind admitting.old admitting.new (body_by admits ends events.now admitting.old.working).log }
    ensures state { OnOk result ((body_by admits ends events.now admitting.old.working).state ≡ admitting.new.working) }
{
    if !show_body(rt, alloc, events, admitting, sink)? {
        return Ok(None);
    }
    let held = held_of(alloc, events)?;
    Ok(Some(held))
}

/// Puts a book's first line and its body. Answers what the book's events hold, where it is certified.
#[tactic(auto, using(ap_outside::proofs::Gains::gains), unfolding(ap_books::specs::Bodies::opened))]
fn show_opened<R: Threads + Wait + Sync, G: Gate + Sync, S: Sink>(
    rt: &R,
    alloc: Global,
    book: &BookSeen,
    admitting: &mut Admitting<'_, G>,
    sink: &mut S,
) -> Result<Option<Held>, WriteFault>
    ensures puts { Puts (S.content sink.old) (S.content sink.new) (S.faults sink.old) (S.faults sink.new) result (opened book.now.name.0 (body_of admits ends book.now.read admitting.old.working)) }
    ensures certified { IfOk result (λ o. (body_of admits ends book.now.read admitting.old.working).certified ≡ is_some o) }
    ensures held { IfOk result (λ o. IfSome o (λ h. h ≡ held_in (forms_of book.now.read))) }
    ensures state { OnOk result ((body_of admits ends book.now.read admitting.old.working).state ≡ admitting.new.working) }
    ensures behind { Behind admitting.old admitting.new (body_of admits ends book.now.read admitting.old.working).log }
{
    let first = opening(alloc, book.name.0.as_slice())?;
    put_whole(sink, first.as_slice())?;
    let events = events_in(alloc, &book.read)?;
    show_held(rt, alloc, &events, admitting, sink)
}

/// Stores the text of a certificate under a book's name.
#[tactic(auto, using(crate::proofs::Storing::stored_one, crate::proofs::Storing::part_failed, crate::proofs::Storing::part_none))]
fn store_text<L: Library>(
    alloc: Global,
    name: &String,
    text: &[u8],
    library: &mut L,
) -> Result<(), WriteFault>
    ensures stored { OnOk result (Stored (L.files library.old) (L.files library.new) ((cert_name (string_bytes name.now), text.now) ∷ [])) }
    ensures part { OnErr result (StoredPart (L.files library.old) (L.files library.new) ((cert_name (string_bytes name.now), text.now) ∷ [])) }
    ensures reads { L.read_faults library.new ≡ L.read_faults library.old }
    ensures later { L.store_faults library.old ≤ L.store_faults library.new }
    ensures failed { result ≡ Err WriteFault.Failed → Rose (L.store_faults library.old) (L.store_faults library.new) }
{
    let file = format!(in alloc; "{name}.cert")?;
    library.store(alloc, file.as_str(), text)
}

/// Stores the certificate of a book that is certified, by what its events hold. For another book it does nothing.
#[tactic(auto, using(crate::proofs::Storing::stored_none, crate::proofs::Storing::part_none))]
fn store_cert<L: Library>(
    alloc: Global,
    name: &String,
    before: &[BookSeen],
    book: &BookSeen,
    held: Option<&Held>,
    library: &mut L,
) -> Result<(), WriteFault>
    requires named { string_bytes name.now ≡ book.now.name.0 }
    requires held { IfSome held (λ h. h.now ≡ held_in (forms_of book.now.read)) }
    ensures files { OnOk result (Stored (L.files library.old) (L.files library.new) (files_by (seen_in before.now) book.now.name.0 book.now.read (is_some held.entry))) }
    ensures part { OnErr result (StoredPart (L.files library.old) (L.files library.new) (files_by (seen_in before.now) book.now.name.0 book.now.read (is_some held.entry))) }
    ensures certified { OnErr result (is_some held.entry ≡ true) }
    ensures reads { L.read_faults library.new ≡ L.read_faults library.old }
    ensures later { L.store_faults library.old ≤ L.store_faults library.new }
    ensures failed { result ≡ Err WriteFault.Failed → Rose (L.store_faults library.old) (L.store_faults library.new) }
{
    let Some(held) = held else {
        return Ok(());
    };
    let text = cert_text(alloc, before, book, held)?;
    store_text(alloc, name, text.as_slice(), library)
}

/// Ends a book by what its events hold: stores its certificate where it is certified, and puts its last line, for which
/// memory is taken before.
#[tactic(auto, using(ap_outside::proofs::Gains::gains, crate::proofs::Storing::part_none, crate::proofs::Storing::part_all))]
fn end_book<L: Library, S: Sink>(
    alloc: Global,
    name: &String,
    before: &[BookSeen],
    book: &BookSeen,
    held: Option<&Held>,
    library: &mut L,
    sink: &mut S,
) -> Result<(), WriteFault>
    requires named { string_bytes name.now ≡ book.now.name.0 }
    requires held { IfSome held (λ h. h.now ≡ held_in (forms_of book.now.read)) }
    ensures text { OnOk result (Gained (S.content sink.old) (S.content sink.new) (closing book.now.name.0 (is_some held.entry))) }
    ensures files { OnOk result (Stored (L.files library.old) (L.files library.new) (files_by (seen_in before.now) book.now.name.0 book.now.read (is_some held.entry))) }
    ensures part { OnErr result (GainedPart (S.content sink.old) (S.content sink.new) (closing book.now.name.0 (is_some held.entry))) }
    ensures stored { OnErr result (StoredPart (L.files library.old) (L.files library.new) (files_by (seen_in before.now) book.now.name.0 book.now.read (is_some held.entry))) }
    ensures tied { IfErr result (λ e. Tied (outside (S.content sink.old) (S.faults sink.old) (L.files library.old) (L.store_faults library.old)) (outside (S.content sink.new) (S.faults sink.new) (L.files library.new) (L.store_faults library.new)) (e ≡ WriteFault.Failed) (end_acts (seen_in before.now) book.now.name.0 book.now.read (is_some held.entry))) }
    ensures reads { L.read_faults library.new ≡ L.read_faults library.old }
    ensures stores { L.store_faults library.old ≤ L.store_faults library.new }
    ensures later { S.faults sink.old ≤ S.faults sink.new }
    ensures failed { result ≡ Err WriteFault.Failed → Rose (L.store_faults library.old) (L.store_faults library.new) ⊎ Rose (S.faults sink.old) (S.faults sink.new) }
{
    let last = closing(alloc, book.name.0.as_slice(), held.is_some())?;
    store_cert(alloc, name, before, book, held, library)?;
    put_whole(sink, last.as_slice())
}

/// Puts a book's text, from its first line to its last, and stores its certificate before the last line where it is
/// certified. Answers whether it is. A fault is the session's.
#[tactic(auto, using(ap_outside::proofs::Gains::gains, crate::proofs::Storing::part_none, crate::proofs::Storing::part_all), unfolding(crate::specs::Session::book_text))]
fn show_book<R: Threads + Wait + Sync, L: Library, G: Gate + Sync, S: Sink>(
    rt: &R,
    alloc: Global,
    name: &String,
    before: &[BookSeen],
    book: &BookSeen,
    admitting: &mut Admitting<'_, G>,
    library: &mut L,
    sink: &mut S,
) -> Result<bool, Fault>
    requires named { string_bytes name.now ≡ book.now.name.0 }
    ensures book { BookWorked (outside (S.content sink.old) (S.faults sink.old) (L.files library.old) (L.store_faults library.old)) (outside (S.content sink.new) (S.faults sink.new) (L.files library.new) (L.store_faults library.new)) result before.now book.now (body_of admits ends book.now.read admitting.old.working) }
    ensures certified { IfOk result (λ b. (body_of admits ends book.now.read admitting.old.working).certified ≡ b) }
    ensures state { OnOk result ((body_of admits ends book.now.read admitting.old.working).state ≡ admitting.new.working) }
    ensures behind { Behind admitting.old admitting.new (body_of admits ends book.now.read admitting.old.working).log }
    ensures reads { L.read_faults library.new ≡ L.read_faults library.old }
{
    let held = show_opened(rt, alloc, book, admitting, sink)?;
    end_book(alloc, name, before, book, held.as_ref(), library, sink)?;
    Ok(held.is_some())
}

/// Works a book that was begun, puts its text, and keeps its world where it is certified, which is answered.
#[tactic(auto, using(ap_outside::proofs::Gains::gains, crate::proofs::Storing::part_all))]
fn work_begun<R: Threads + Wait + Sync, L: Library, G: Gate + Sync, S: Sink>(
    rt: &R,
    alloc: Global,
    name: &String,
    before: &[BookSeen],
    book: &BookSeen,
    admitting: &mut Admitting<'_, G>,
    library: &mut L,
    sink: &mut S,
) -> Result<bool, Fault>
    requires begun { admitting.old.working.world ≡ start }
    requires unkept { admitting.old.kept ≡ false }
    requires named { string_bytes name.now ≡ book.now.name.0 }
    ensures book { BookWorked (outside (S.content sink.old) (S.faults sink.old) (L.files library.old) (L.store_faults library.old)) (outside (S.content sink.new) (S.faults sink.new) (L.files library.new) (L.store_faults library.new)) result before.now book.now (body_of admits ends book.now.read admitting.old.working) }
    ensures certified { IfOk result (λ b. (body_of admits ends book.now.read admitting.old.working).certified ≡ b) }
    ensures earlier { OnOk result (kept_more admitting.old.working.earlier book.now.name.0 (body_of admits ends book.now.read admitting.old.working) ≡ admitting.new.working.earlier) }
    ensures last { OnOk result (last_of (body_of admits ends book.now.read admitting.old.working) ≡ left_in admitting.new) }
    ensures led { Led admitting.old admitting.new (body_of admits ends book.now.read admitting.old.working).log }
    ensures reads { L.read_faults library.new ≡ L.read_faults library.old }
{
    let certified = show_book(rt, alloc, name, before, book, admitting, library, sink)?;
    if !certified {
        return Ok(false);
    }
    admitting.keep(alloc, book.name.0.as_slice())?;
    Ok(true)
}

/// Works a book that was read, from the world that each book begins with, and puts its text. A certified one's world is
/// kept. Answers whether it is certified.
#[tactic(auto, using(crate::proofs::Storing::part_none))]
pub(crate) fn work_book<R: Threads + Wait + Sync, L: Library, G: Gate + Sync, S: Sink>(
    rt: &R,
    alloc: Global,
    name: &String,
    before: &[BookSeen],
    book: &BookSeen,
    admitting: &mut Admitting<'_, G>,
    library: &mut L,
    sink: &mut S,
) -> Result<bool, Fault>
    requires named { string_bytes name.now ≡ book.now.name.0 }
    ensures book { BookWorked (outside (S.content sink.old) (S.faults sink.old) (L.files library.old) (L.store_faults library.old)) (outside (S.content sink.new) (S.faults sink.new) (L.files library.new) (L.store_faults library.new)) result before.now book.now (read_body admitting.old.working.limits admitting.old.working.earlier book.now.read) }
    ensures certified { IfOk result (λ b. (read_body admitting.old.working.limits admitting.old.working.earlier book.now.read).certified ≡ b) }
    ensures earlier { OnOk result (kept_more admitting.old.working.earlier book.now.name.0 (read_body admitting.old.working.limits admitting.old.working.earlier book.now.read) ≡ admitting.new.working.earlier) }
    ensures last { OnOk result (last_of (read_body admitting.old.working.limits admitting.old.working.earlier book.now.read) ≡ left_in admitting.new) }
    ensures led { Led admitting.old admitting.new (read_body admitting.old.working.limits admitting.old.working.earlier book.now.read).log }
    ensures reads { L.read_faults library.new ≡ L.read_faults library.old }
{
    match admitting.begin(alloc) {
        Ok(()) => work_begun(rt, alloc, name, before, book, admitting, library, sink),
        Err(_) => Err(Fault::NoMemory),
    }
}
