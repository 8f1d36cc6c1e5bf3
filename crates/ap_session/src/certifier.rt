ghost use Rattle.std.specs.Prelude.{◌≡◌, ◌≢◌, ◌≤◌, ◌⊎◌, ◌↔◌, ◌&&◌, ℕ, true, false, cond, List, [], ◌∷◌, ◌++◌, Some, None, Ok, Err, IfOk, IfErr, IfSome, OnOk, OnErr, map, string_bytes};
ghost use Rattle.ap_list.specs.Lists.{Each};
ghost use Rattle.ap_tokens.specs.Gaps.{at};
ghost use Rattle.ap_reader.specs.declared.form.Form.{Form};
ghost use Rattle.ap_reader.specs.Faults as faults;
ghost use Rattle.ap_reader.specs.Grammar.{Reads};
ghost use Rattle.ap_reader.specs.Breaks.{Faults};
ghost use Rattle.ap_outside.specs.Faults.{Rose};
ghost use Rattle.ap_outside.specs.Gains.{Gained, GainedPart};
ghost use Rattle.ap_outside.specs.Files.{told_at};
ghost use Rattle.ap_outside.specs.Books.{answer_of};
ghost use Rattle.ap_world.specs.Sound.{Sound, HasFunctions};
ghost use Rattle.ap_world.specs.World.{function_of};
ghost use Rattle.ap_books.specs.Bodies.{forms_in};
ghost use Rattle.ap_plain.specs.Ends.{worlds_in, walks_in};
ghost use Rattle.ap_plain.specs.Drops.{DividedWalks};
ghost use Rattle.ap_session.specs.Texts.{usage_text, trace_text};
ghost use Rattle.ap_session.specs.Acts.{outside, GainedLess, Tied};
ghost use Rattle.ap_session.specs.Certs.{EndsOtherwise};
ghost use Rattle.ap_session.specs.Storing.{Stored, StoredPart};
ghost use Rattle.ap_session.specs.Working.{start, bare};
ghost use Rattle.ap_session.specs.Admitting.{notes_in, left_in};
ghost use Rattle.ap_session.specs.Session.{session, demo_session, worked_books, Worked, Kept, status_of, fault_status, usage, output, acts_of, ActsAgree, PassedThrough, reads_in, file_name, IsNext, Listed, is_done, EndsItself};
ghost use Rattle.ap_session.specs.Command.{command_of, books_in, workers_in, of_books, of_demo, shown_order, shown_demo};

use crate::admitting::Admitting;
use crate::book::work_book;
use crate::command::{Command, Demo, Order, command_in};
use crate::demo::show_demo;
use crate::fault::{Fault, at_read, at_write, fault_status};
use crate::putting::put_whole;
use crate::report::{Report, Status};
use crate::start::starting_world;
use crate::texts;
use ap_attempt::{DropNote, Gate};
use ap_books::{BookSeen, books_are_read_by_the_grammar};
use ap_events::{Ruled, again_is_covered, nested_events_are_sound, worlds_grow};
use ap_ground::laws::ground_is_sound;
use ap_list::{Bytes, NoMemory, Seq};
use ap_outside::{Library, ReadFault, Sink, WriteFault};
use ap_value::BookName;
use ap_world::World;
use std::alloc::Global;
use std::sync::Wait;
use std::thread::Threads;

/// Reads the book of a name, as it was answered.
fn read_book<L: Library>(
    alloc: Global,
    name: &String,
    library: &mut L,
) -> Result<BookSeen, ReadFault>
    ensures name { IfOk result (λ b. b.name.0 ≡ string_bytes name.now) }
    ensures told { IfOk result (λ b. IfSome (told_at (L.files library.old) (file_name (string_bytes name.now))) (λ found. b.read ≡ answer_of found)) }
    ensures files { L.files library.new ≡ L.files library.old }
    ensures later { L.read_faults library.old ≤ L.read_faults library.new }
    ensures stores { L.store_faults library.new ≡ L.store_faults library.old }
    ensures failed { result ≡ Err ReadFault.Failed → Rose (L.read_faults library.old) (L.read_faults library.new) }
{
    let copied = BookName(Bytes::from_slice(alloc, name.as_bytes())?);
    let file = format!(in alloc; "{name}.lisp")?;
    let read = library.read(alloc, file.as_str())?;
    Ok(BookSeen { name: copied, read })
}

/// Lists a book that was read. Where memory is wanting the list stays.
fn list(books: &mut Seq<BookSeen>, book: BookSeen) -> Result<(), Fault>
    ensures ok { OnOk result (books.new ≡ books.old ++ book ∷ []) }
    ensures err { OnErr result (books.new ≡ books.old) }
    ensures memory { IfErr result (λ fault. fault ≡ Fault.NoMemory) }
{
    match books.push(book) {
        Ok(()) => Ok(()),
        Err(_) => Err(Fault::NoMemory),
    }
}

/// Reads the book of a name, and lists it. Where it isn't read the list stays.
fn read_next<L: Library>(
    alloc: Global,
    name: &String,
    books: &mut Seq<BookSeen>,
    library: &mut L,
) -> Result<(), Fault>
    ensures ok { OnOk result (IsNext (L.files library.old) (string_bytes name.now) books.old books.new) }
    ensures err { OnErr result (books.new ≡ books.old) }
    ensures files { L.files library.new ≡ L.files library.old }
    ensures later { L.read_faults library.old ≤ L.read_faults library.new }
    ensures stores { L.store_faults library.new ≡ L.store_faults library.old }
    ensures failed { result ≡ Err Fault.Read → Rose (L.read_faults library.old) (L.read_faults library.new) }
    ensures unwritten { result ≢ Err Fault.Write }
{
    match read_book(alloc, name, library) {
        Ok(book) => list(books, book),
        Err(fault) => Err(at_read(fault)),
    }
}

/// Whether all are certified where these and this one are.
fn all_with(all: bool, good: bool) -> bool
    ensures { result ≡ (all && good) }
{
    all && good
}

/// Reads and works the books of these names in order, puts the text of each, and lists them as they were read. Answers
/// whether all are certified.
fn work_books<R: Threads + Wait + Sync, L: Library, S: Sink, G: Gate + Sync>(
    rt: &R,
    alloc: Global,
    names: &[String],
    books: &mut Seq<BookSeen>,
    admitting: &mut Admitting<'_, G>,
    library: &mut L,
    sink: &mut S,
) -> Result<bool, Fault>
    requires unread { books.old ≡ [] }
    requires begun { left_in admitting.old ≡ start }
    requires unkept { admitting.old.working.earlier ≡ [] }
    requires unnoted { notes_in admitting.old ≡ [] }
    ensures worked { IfOk result (λ b. Worked (S.content sink.old) (S.content sink.new) (L.files library.old) (L.files library.new) (worked_books admitting.old (map string_bytes names.now) books.new) b admitting.new) }
    ensures all { OnOk result (map (λ b. b.name.0) books.new ≡ map string_bytes names.now) }
    ensures part { OnErr result (GainedPart (S.content sink.old) (S.content sink.new) (worked_books admitting.old (map string_bytes names.now) books.new).text) }
    ensures whole { result ≡ Err Fault.Read → Gained (S.content sink.old) (S.content sink.new) (worked_books admitting.old (map string_bytes names.now) books.new).text }
    ensures kept { Kept (worked_books admitting.old (map string_bytes names.now) books.new) admitting.old admitting.new }
    ensures books { Listed (L.files library.old) (map string_bytes names.now) books.new }
    ensures stored { OnErr result (StoredPart (L.files library.old) (L.files library.new) (worked_books admitting.old (map string_bytes names.now) books.new).files) }
    ensures stored_whole { result ≡ Err Fault.Read → Stored (L.files library.old) (L.files library.new) (worked_books admitting.old (map string_bytes names.now) books.new).files }
    ensures tied { IfErr result (λ e. Tied (outside (S.content sink.old) (S.faults sink.old) (L.files library.old) (L.store_faults library.old)) (outside (S.content sink.new) (S.faults sink.new) (L.files library.new) (L.store_faults library.new)) (e ≡ Fault.Write) (worked_books admitting.old (map string_bytes names.now) books.new).acts) }
    ensures reads { L.read_faults library.old ≤ L.read_faults library.new }
    ensures stores { L.store_faults library.old ≤ L.store_faults library.new }
    ensures puts { S.faults sink.old ≤ S.faults sink.new }
    ensures read { result ≡ Err Fault.Read → Rose (L.read_faults library.old) (L.read_faults library.new) }
    ensures write { result ≡ Err Fault.Write → Rose (L.store_faults library.old) (L.store_faults library.new) ⊎ Rose (S.faults sink.old) (S.faults sink.new) }
{
    let mut certified = true;
    for name in names {
        let place = books.len();
        read_next(alloc, name, books, library)?;
        let listed = books.as_slice();
        let good = work_book(
            rt,
            alloc,
            name,
            &listed[..place],
            &listed[place],
            admitting,
            library,
            sink,
        )?;
        certified = all_with(certified, good);
    }
    Ok(certified)
}

/// Tells what was dropped, where that is asked for.
fn put_trace<S: Sink>(
    alloc: Global,
    trace: bool,
    notes: &[DropNote],
    sink: &mut S,
) -> Result<(), WriteFault>
    ensures text { OnOk result (Gained (S.content sink.old) (S.content sink.new) (cond trace (trace_text notes.now) [])) }
    ensures part { OnErr result (GainedPart (S.content sink.old) (S.content sink.new) (cond trace (trace_text notes.now) [])) }
    ensures unput { result ≡ Err WriteFault.Failed → GainedLess (S.content sink.old) (S.content sink.new) (cond trace (trace_text notes.now) []) }
    ensures later { S.faults sink.old ≤ S.faults sink.new }
    ensures failed { result ≡ Err WriteFault.Failed → Rose (S.faults sink.old) (S.faults sink.new) }
{
    if !trace {
        return Ok(());
    }
    let text = texts::trace_text(alloc, notes)?;
    put_whole(sink, text.as_slice())
}

/// The status of a session whose books were all worked, behind what tells of drops.
fn end_status<S: Sink>(
    alloc: Global,
    trace: bool,
    certified: bool,
    notes: &[DropNote],
    sink: &mut S,
) -> Status
    ensures text { is_done result ≡ true → Gained (S.content sink.old) (S.content sink.new) (cond trace (trace_text notes.now) []) }
    ensures status { is_done result ≡ true → result ≡ cond certified Status.Certified Status.NotCertified }
    ensures part { is_done result ≡ false → GainedPart (S.content sink.old) (S.content sink.new) (cond trace (trace_text notes.now) []) }
    ensures unput { result ≡ Status.WriteFault → GainedLess (S.content sink.old) (S.content sink.new) (cond trace (trace_text notes.now) []) }
    ensures later { S.faults sink.old ≤ S.faults sink.new }
    ensures read { result ≢ Status.ReadFault }
    ensures write { result ≡ Status.WriteFault → Rose (S.faults sink.old) (S.faults sink.new) }
{
    match put_trace(alloc, trace, notes, sink) {
        Ok(()) if certified => Status::Certified,
        Ok(()) => Status::NotCertified,
        Err(fault) => fault_status(at_write(fault)),
    }
}

/// The last world.
fn last_world<G>(admitting: Admitting<'_, G>) -> World
    ensures world { result ≡ left_in admitting.entry }
    ensures sound { Sound result.entries }
{
    let world = admitting.into_world();
    world.recall_sound();
    world
}

/// The report of a session that a fault cut off. Where memory is wanting the notes are lost.
fn cut_off<G>(
    alloc: Global,
    fault: Fault,
    books: Seq<BookSeen>,
    mut admitting: Admitting<'_, G>,
) -> Report
    ensures status { result.status ≡ fault_status fault }
    ensures books { result.books ≡ books }
    ensures world { result.world ≡ left_in admitting.entry }
    ensures drops { (result.drops ≡ notes_in admitting.entry) ⊎ (result.drops ≡ []) }
    ensures sound { Sound result.world.entries }
{
    let drops = match admitting.take_notes(alloc) {
        Ok(drops) => drops,
        Err(_) => Seq::new(alloc),
    };
    let world = last_world(admitting);
    Report {
        status: fault_status(fault),
        books,
        world,
        drops,
    }
}

/// The report of a session whose books were all worked: tells what was dropped, where that is asked for. Where memory is
/// wanting the notes are lost, and the session ends so.
fn end<G, S: Sink>(
    alloc: Global,
    trace: bool,
    certified: bool,
    books: Seq<BookSeen>,
    mut admitting: Admitting<'_, G>,
    sink: &mut S,
) -> Report
    ensures text { is_done result.status ≡ true → Gained (S.content sink.old) (S.content sink.new) (cond trace (trace_text result.drops) []) }
    ensures status { is_done result.status ≡ true → result.status ≡ cond certified Status.Certified Status.NotCertified }
    ensures part { is_done result.status ≡ false → GainedPart (S.content sink.old) (S.content sink.new) (cond trace (trace_text result.drops) []) }
    ensures unput { result.status ≡ Status.WriteFault → GainedLess (S.content sink.old) (S.content sink.new) (cond trace (trace_text result.drops) []) }
    ensures books { result.books ≡ books }
    ensures world { result.world ≡ left_in admitting.entry }
    ensures drops { (result.drops ≡ notes_in admitting.entry) ⊎ (result.drops ≡ []) }
    ensures noted { is_done result.status ≡ true → result.drops ≡ notes_in admitting.entry }
    ensures sound { Sound result.world.entries }
    ensures later { S.faults sink.old ≤ S.faults sink.new }
    ensures read { result.status ≢ Status.ReadFault }
    ensures write { result.status ≡ Status.WriteFault → Rose (S.faults sink.old) (S.faults sink.new) }
{
    match admitting.take_notes(alloc) {
        Ok(drops) => {
            let status = end_status(alloc, trace, certified, drops.as_slice(), sink);
            Report {
                status,
                books,
                world: last_world(admitting),
                drops,
            }
        }
        Err(_) => cut_off(alloc, Fault::NoMemory, books, admitting),
    }
}

/// Works the books of an order, and then tells what was dropped, where that is asked for.
fn certify_books<R: Threads + Wait + Sync, L: Library, S: Sink, G: Gate + Sync>(
    rt: &R,
    alloc: Global,
    order: Order<'_>,
    world: Ruled,
    library: &mut L,
    sink: &mut S,
    gate: &G,
) -> Report
    requires begun { world ≡ start }
    requires functions { HasFunctions (function_of world.entries) }
    ensures text { let c = Some (of_books (shown_order order.entry)) in is_done result.status ≡ true → Gained (S.content sink.old) (S.content sink.new) (output c (session c (reads_in result.books)) result.drops) }
    ensures status { let c = Some (of_books (shown_order order.entry)) in is_done result.status ≡ true → result.status ≡ status_of c (session c (reads_in result.books)).certified }
    ensures world { let c = Some (of_books (shown_order order.entry)) in is_done result.status ≡ true → (session c (reads_in result.books)).last ≡ result.world }
    ensures part { let c = Some (of_books (shown_order order.entry)) in is_done result.status ≡ false → GainedPart (S.content sink.old) (S.content sink.new) (output c (session c (reads_in result.books)) result.drops) }
    ensures whole { let c = Some (of_books (shown_order order.entry)) in result.status ≡ Status.ReadFault → Gained (S.content sink.old) (S.content sink.new) (session c (reads_in result.books)).text }
    ensures passed { let c = Some (of_books (shown_order order.entry)) in PassedThrough (session c (reads_in result.books)) result.world }
    ensures sound { Sound result.world.entries }
    ensures drops { let c = Some (of_books (shown_order order.entry)) in DividedWalks result.drops (walks_in (session c (reads_in result.books)).told) }
    ensures alone { order.entry.workers ≤ 1 → result.drops ≡ [] }
    ensures books { Listed (L.files library.old) (books_in (Some (of_books (shown_order order.entry)))) result.books }
    ensures all { is_done result.status ≡ true → map (λ b. b.name.0) result.books ≡ books_in (Some (of_books (shown_order order.entry))) }
    ensures files { let c = Some (of_books (shown_order order.entry)) in is_done result.status ≡ true → Stored (L.files library.old) (L.files library.new) (session c (reads_in result.books)).files }
    ensures stored { let c = Some (of_books (shown_order order.entry)) in is_done result.status ≡ false → StoredPart (L.files library.old) (L.files library.new) (session c (reads_in result.books)).files }
    ensures stored_whole { let c = Some (of_books (shown_order order.entry)) in result.status ≡ Status.ReadFault → Stored (L.files library.old) (L.files library.new) (session c (reads_in result.books)).files }
    ensures tied { let c = Some (of_books (shown_order order.entry)) in is_done result.status ≡ false → Tied (outside (S.content sink.old) (S.faults sink.old) (L.files library.old) (L.store_faults library.old)) (outside (S.content sink.new) (S.faults sink.new) (L.files library.new) (L.store_faults library.new)) (result.status ≡ Status.WriteFault) (acts_of c (session c (reads_in result.books)) result.drops) }
    ensures others { (name : List ℕ) → EndsOtherwise name → told_at (L.files library.new) name ≡ told_at (L.files library.old) name }
    ensures reads { L.read_faults library.old ≤ L.read_faults library.new }
    ensures stores { L.store_faults library.old ≤ L.store_faults library.new }
    ensures puts { S.faults sink.old ≤ S.faults sink.new }
    ensures read { result.status ≡ Status.ReadFault → Rose (L.read_faults library.old) (L.read_faults library.new) }
    ensures write { result.status ≡ Status.WriteFault → Rose (L.store_faults library.old) (L.store_faults library.new) ⊎ Rose (S.faults sink.old) (S.faults sink.new) }
{
    let mut admitting = Admitting::new(alloc, order.limits, order.workers, world, gate);
    let mut books = Seq::new(alloc);
    let ended = work_books(
        rt,
        alloc,
        order.books,
        &mut books,
        &mut admitting,
        library,
        sink,
    );
    match ended {
        Ok(certified) => end(alloc, order.trace, certified, books, admitting, sink),
        Err(fault) => cut_off(alloc, fault, books, admitting),
    }
}

/// Works the demo, and puts its line.
fn certify_demo<R: Threads + Wait + Sync, S: Sink, G: Gate + Sync>(
    rt: &R,
    alloc: Global,
    demo: Demo,
    world: Ruled,
    sink: &mut S,
    gate: &G,
) -> Report
    requires begun { world ≡ start }
    requires functions { HasFunctions (function_of world.entries) }
    ensures text { let c = Some (of_demo (shown_demo demo)) in is_done result.status ≡ true → Gained (S.content sink.old) (S.content sink.new) (output c (session c (reads_in result.books)) result.drops) }
    ensures status { let c = Some (of_demo (shown_demo demo)) in is_done result.status ≡ true → result.status ≡ status_of c (session c (reads_in result.books)).certified }
    ensures world { let c = Some (of_demo (shown_demo demo)) in is_done result.status ≡ true → (session c (reads_in result.books)).last ≡ result.world }
    ensures part { let c = Some (of_demo (shown_demo demo)) in is_done result.status ≡ false → GainedPart (S.content sink.old) (S.content sink.new) (output c (session c (reads_in result.books)) result.drops) }
    ensures unput { result.status ≡ Status.WriteFault → GainedLess (S.content sink.old) (S.content sink.new) (demo_session (shown_demo demo)).text }
    ensures passed { let c = Some (of_demo (shown_demo demo)) in PassedThrough (session c (reads_in result.books)) result.world }
    ensures sound { Sound result.world.entries }
    ensures drops { let c = Some (of_demo (shown_demo demo)) in DividedWalks result.drops (walks_in (session c (reads_in result.books)).told) }
    ensures alone { demo.workers ≤ 1 → result.drops ≡ [] }
    ensures books { result.books ≡ [] }
    ensures later { S.faults sink.old ≤ S.faults sink.new }
    ensures read { result.status ≢ Status.ReadFault }
    ensures write { result.status ≡ Status.WriteFault → Rose (S.faults sink.old) (S.faults sink.new) }
{
    let mut admitting = Admitting::new(alloc, demo.limits, demo.workers, world, gate);
    let ended = show_demo(rt, alloc, demo, &mut admitting, sink);
    let books = Seq::new(alloc);
    match ended {
        Ok(certified) => end(alloc, false, certified, books, admitting, sink),
        Err(fault) => cut_off(alloc, at_write(fault), books, admitting),
    }
}

/// Puts the usage text.
#[tactic(auto, unfolding(crate::specs::Texts::usage_text))]
fn put_usage<S: Sink>(sink: &mut S) -> Result<(), WriteFault>
    ensures text { OnOk result (Gained (S.content sink.old) (S.content sink.new) usage_text) }
    ensures part { OnErr result (GainedPart (S.content sink.old) (S.content sink.new) usage_text) }
    ensures unput { result ≡ Err WriteFault.Failed → GainedLess (S.content sink.old) (S.content sink.new) usage_text }
    ensures later { S.faults sink.old ≤ S.faults sink.new }
    ensures failed { result ≡ Err WriteFault.Failed → Rose (S.faults sink.old) (S.faults sink.new) }
{
    put_whole(sink, texts::USAGE)
}

/// The status of a session whose words are no command, behind the usage text.
fn usage_status<S: Sink>(sink: &mut S) -> Status
    ensures text { is_done result ≡ true → Gained (S.content sink.old) (S.content sink.new) usage_text }
    ensures status { is_done result ≡ true → result ≡ Status.Usage }
    ensures part { is_done result ≡ false → GainedPart (S.content sink.old) (S.content sink.new) usage_text }
    ensures unput { result ≡ Status.WriteFault → GainedLess (S.content sink.old) (S.content sink.new) usage_text }
    ensures later { S.faults sink.old ≤ S.faults sink.new }
    ensures read { result ≢ Status.ReadFault }
    ensures write { result ≡ Status.WriteFault → Rose (S.faults sink.old) (S.faults sink.new) }
{
    match put_usage(sink) {
        Ok(()) => Status::Usage,
        Err(fault) => fault_status(at_write(fault)),
    }
}

/// The report of a session whose words are no command.
fn usage_report<S: Sink>(alloc: Global, world: Ruled, sink: &mut S) -> Report
    requires begun { world ≡ start }
    ensures text { is_done result.status ≡ true → Gained (S.content sink.old) (S.content sink.new) (output None usage result.drops) }
    ensures status { is_done result.status ≡ true → result.status ≡ Status.Usage }
    ensures part { is_done result.status ≡ false → GainedPart (S.content sink.old) (S.content sink.new) (output None usage result.drops) }
    ensures unput { result.status ≡ Status.WriteFault → GainedLess (S.content sink.old) (S.content sink.new) usage_text }
    ensures world { result.world ≡ start }
    ensures sound { Sound result.world.entries }
    ensures books { result.books ≡ [] }
    ensures drops { result.drops ≡ [] }
    ensures later { S.faults sink.old ≤ S.faults sink.new }
    ensures read { result.status ≢ Status.ReadFault }
    ensures write { result.status ≡ Status.WriteFault → Rose (S.faults sink.old) (S.faults sink.new) }
{
    let status = usage_status(sink);
    let world = world.into_world();
    world.recall_sound();
    Report {
        status,
        books: Seq::new(alloc),
        world,
        drops: Seq::new(alloc),
    }
}

/// The report where memory is wanting before a book is read.
fn no_report(alloc: Global, world: World) -> Report
    ensures status { result.status ≡ Status.NoMemory }
    ensures books { result.books ≡ [] }
    ensures world { result.world ≡ world }
    ensures sound { Sound result.world.entries }
    ensures drops { result.drops ≡ [] }
{
    world.recall_sound();
    Report {
        status: Status::NoMemory,
        books: Seq::new(alloc),
        world,
        drops: Seq::new(alloc),
    }
}

/// Works the command's words: reads the books that they name, does their events in two passes, puts what a session prints,
/// and answers its status with the books as they were read, the world that it ended in, and what was dropped in its
/// attempts. This is all that the program decides.
///
/// `Usage` comes exactly where the words aren't a command, `Certified` and `NotCertified` exactly where the session says
/// so. `ReadFault` and `WriteFault` come only where a call of the library or the sink failed and was counted in this call;
/// `NoMemory` is want of memory. Then a prefix of the session's text was put, and the world is one that the session passed
/// through.
#[tactic(auto, using(crate::proofs::Storing::stored_none, crate::proofs::Storing::part_none))]
pub fn certify<R: Threads + Wait + Sync, L: Library, S: Sink, G: Gate + Sync>(
    rt: &R,
    alloc: Global,
    words: &[String],
    library: &mut L,
    sink: &mut S,
    gate: &G,
) -> Report
    // what is printed, the status and the world are the session's, by the words and the books as they were read
    ensures text { let c = command_of (map string_bytes words.now) in is_done result.status ≡ true → Gained (S.content sink.old) (S.content sink.new) (output c (session c (reads_in result.books)) result.drops) }
    ensures status { let c = command_of (map string_bytes words.now) in is_done result.status ≡ true → result.status ≡ status_of c (session c (reads_in result.books)).certified }
    ensures world { let c = command_of (map string_bytes words.now) in is_done result.status ≡ true → (session c (reads_in result.books)).last ≡ result.world }

    // where a fault ended it, a prefix was printed: with a fault of reading the whole text of the books before
    ensures part { let c = command_of (map string_bytes words.now) in is_done result.status ≡ false → GainedPart (S.content sink.old) (S.content sink.new) (output c (session c (reads_in result.books)) result.drops) }
    ensures whole { let c = command_of (map string_bytes words.now) in result.status ≡ Status.ReadFault → Gained (S.content sink.old) (S.content sink.new) (session c (reads_in result.books)).text }

    // and the world is one that the session passed through, or with want of memory the one of no entries
    ensures passed { let c = command_of (map string_bytes words.now) in PassedThrough (session c (reads_in result.books)) result.world ⊎ ((result.status ≡ Status.NoMemory) × (result.world ≡ bare)) }

    // every function of the world, and of each that the session passed through, is total, and every theorem is true
    ensures sound { Sound result.world.entries }
    ensures all_sound { let c = command_of (map string_bytes words.now) in Each (λ w. Sound w.entries) (worlds_in (session c (reads_in result.books)).told) }

    // what was dropped was dropped in the session's walks, each as the walk allows it; one worker drops nothing
    ensures drops { let c = command_of (map string_bytes words.now) in DividedWalks result.drops (walks_in (session c (reads_in result.books)).told) }
    ensures alone { workers_in (command_of (map string_bytes words.now)) ≤ 1 → result.drops ≡ [] }

    // the books are those that the words name, in order, as the library told them at the start: all where no fault ended it
    ensures books { Listed (L.files library.old) (books_in (command_of (map string_bytes words.now))) result.books }
    ensures all_books { is_done result.status ≡ true → map (λ b. b.name.0) result.books ≡ books_in (command_of (map string_bytes words.now)) }

    // what is read of a book is what the reader's grammar has
    ensures forms { (t : List ℕ) (fs : List Form) → Reads (at 0 t) fs ↔ (forms_in t ≡ Ok fs) }
    ensures fault { (t : List ℕ) (e : faults.ReadFault) → Faults (at 0 t) e ↔ (forms_in t ≡ Err e) }

    // the library has the session's certificates, or where a fault ended it the first of them, and of the file of the one
    // behind these nothing is said; a file whose name doesn't end in `.cert` is as it was
    ensures files { let c = command_of (map string_bytes words.now) in is_done result.status ≡ true → Stored (L.files library.old) (L.files library.new) (session c (reads_in result.books)).files }
    ensures stored { let c = command_of (map string_bytes words.now) in is_done result.status ≡ false → StoredPart (L.files library.old) (L.files library.new) (session c (reads_in result.books)).files }
    ensures stored_whole { let c = command_of (map string_bytes words.now) in result.status ≡ Status.ReadFault → Stored (L.files library.old) (L.files library.new) (session c (reads_in result.books)).files }
    ensures others { (name : List ℕ) → EndsOtherwise name → told_at (L.files library.new) name ≡ told_at (L.files library.old) name }

    // text and certificates are put and stored in the session's order: where a fault ended it, the first of its acts were
    // done, and of the one behind them at most a part; where a put or a store failed it is that one
    ensures tied { let c = command_of (map string_bytes words.now) in is_done result.status ≡ false → Tied (outside (S.content sink.old) (S.faults sink.old) (L.files library.old) (L.store_faults library.old)) (outside (S.content sink.new) (S.faults sink.new) (L.files library.new) (L.store_faults library.new)) (result.status ≡ Status.WriteFault) (acts_of c (session c (reads_in result.books)) result.drops) }
    ensures acts { let c = command_of (map string_bytes words.now) in ActsAgree (session c (reads_in result.books)) }

    // no count of faults falls
    ensures reads { L.read_faults library.old ≤ L.read_faults library.new }
    ensures stores { L.store_faults library.old ≤ L.store_faults library.new }
    ensures puts { S.faults sink.old ≤ S.faults sink.new }

    // each fault has its cause, and without one the session ends by itself or memory is wanting
    ensures read { result.status ≡ Status.ReadFault → Rose (L.read_faults library.old) (L.read_faults library.new) }
    ensures write { result.status ≡ Status.WriteFault → Rose (L.store_faults library.old) (L.store_faults library.new) ⊎ Rose (S.faults sink.old) (S.faults sink.new) }
    ensures complete { ¬ Rose (L.read_faults library.old) (L.read_faults library.new) → ¬ Rose (L.store_faults library.old) (L.store_faults library.new) → ¬ Rose (S.faults sink.old) (S.faults sink.new) → EndsItself result.status }
{
    again_is_covered();
    nested_events_are_sound();
    worlds_grow();
    ground_is_sound();
    books_are_read_by_the_grammar();
    let Ok(world) = starting_world(alloc) else {
        return no_report(alloc, World::bare(alloc));
    };
    match command_in(alloc, words) {
        Ok(Some(Command::Certify(order))) => {
            certify_books(rt, alloc, order, world, library, sink, gate)
        }
        Ok(Some(Command::Show(demo))) => certify_demo(rt, alloc, demo, world, sink, gate),
        Ok(None) => usage_report(alloc, world, sink),
        Err(_) => no_report(alloc, world.into_world()),
    }
}
