use crate::expect::expect;
use ap_list::{Bytes, NoMemory, Seq};
use ap_outside::{
    BookRead, FailFreeLibrary, FailFreeSink, FolderLibrary, LONGEST_BOOK, Library, MemoryLibrary,
    MemorySink, ReadFault, Sink, WriteFault, WriterSink, put_all,
};
use std::alloc::Global;
use std::fs;
use std::process::Abort;
use std::test::Fail;

/// One file of a library.
fn file(alloc: Global, name: &[u8], bytes: &[u8]) -> Result<Seq<(Bytes, Bytes)>, NoMemory> {
    let name = Bytes::from_slice(alloc, name)?;
    let bytes = Bytes::from_slice(alloc, bytes)?;
    let mut files = Seq::new(alloc);
    files.push((name, bytes))?;
    Ok(files)
}

/// That many bytes.
fn bytes_of(alloc: Global, count: usize) -> Result<Vec<u8>, NoMemory> {
    vec![in alloc; 59u8; count]
}

/// The word for what a read answered, where a book of these bytes may be there.
fn word(read: &Result<BookRead, ReadFault>, bytes: &[u8]) -> &'static str {
    match read {
        Ok(BookRead::Found(book)) if book.0.as_slice() == bytes => "found",
        Ok(BookRead::Found(_)) => "other",
        Ok(BookRead::Absent) => "absent",
        Ok(BookRead::TooLong) => "too long",
        Err(ReadFault::Failed) => "failed",
        Err(ReadFault::NoMemory) => "no memory",
    }
}

/// The word for what a library answers where a book is read that may have these bytes.
fn read<L: Library>(library: &mut L, alloc: Global, name: &str, bytes: &[u8]) -> &'static str {
    let answer = library.read(alloc, name);
    word(&answer, bytes)
}

/// The word for what a library answers where these bytes are stored.
fn store<L: Library>(library: &mut L, alloc: Global, name: &str, bytes: &[u8]) -> &'static str {
    match library.store(alloc, name, bytes) {
        Ok(()) => "stored",
        Err(WriteFault::Failed) => "failed",
        Err(WriteFault::NoMemory) => "no memory",
    }
}

/// Each row: a piece, and what is answered where the second put fails.
const PIECES: &[(&[u8], Result<(), WriteFault>)] = &[
    (b"ab", Ok(())),
    (b"cd", Err(WriteFault::Failed)),
    (b"ef", Ok(())),
];

#[test]
fn a_failing_put_appends_nothing(rt: HostRuntime) -> Result<(), Fail> {
    let mut sink = MemorySink::new(rt.alloc(), Seq::from_slice(rt.alloc(), &[2])?);
    for (piece, answer) in PIECES {
        assert!(rt; put_all(&mut sink, *piece) == *answer);
    }
    expect(&rt, sink.content(), "abef");
    Ok(())
}

#[test]
fn a_sink_that_never_fails_holds_what_was_put(rt: HostRuntime) {
    let mut sink = FailFreeSink::new(rt.alloc());
    assert_eq!(rt; sink.put(b"ab"), Ok(2));
    expect(&rt, sink.content(), "ab");
}

/// Whether a book is read or stored, its name, its bytes, and what is answered.
type Call = (bool, &'static str, &'static [u8], &'static str);

/// What a library answers to a call.
fn answer<L: Library>(library: &mut L, alloc: Global, call: &Call) -> &'static str {
    let (is_read, name, bytes, _) = *call;
    if is_read {
        read(library, alloc, name, bytes)
    } else {
        store(library, alloc, name, bytes)
    }
}

/// Makes calls, one after another.
fn expect_calls<L: Library>(rt: &impl Abort, library: &mut L, alloc: Global, calls: &[Call]) {
    for call in calls {
        assert_eq!(rt; answer(library, alloc, call), call.3);
    }
}

/// Where the third and the fifth call fail.
const COUNTED: &[Call] = &[
    (true, "a", b"1", "found"),
    (false, "a", b"2", "stored"),
    (true, "a", b"", "failed"),
    (true, "b", b"", "absent"),
    (false, "b", b"3", "failed"),
    (false, "b", b"4", "stored"),
];

/// A library of the book `a`, whose third and fifth call fail.
fn failing(alloc: Global) -> Result<MemoryLibrary, NoMemory> {
    let files = file(alloc, b"a", b"1")?;
    Ok(MemoryLibrary::new(files, Seq::from_slice(alloc, &[3, 5])?))
}

#[test]
fn reads_and_stores_are_counted_together(rt: HostRuntime) -> Result<(), Fail> {
    let mut library = failing(rt.alloc())?;
    expect_calls(&rt, &mut library, rt.alloc(), COUNTED);
    expect(&rt, library.stored("a").unwrap_or(b""), "2");
    expect(&rt, library.stored("b").unwrap_or(b""), "4");
    Ok(())
}

/// Whether a book of the most bytes is stored, is read back, and is the only one.
fn is_longest_held(alloc: Global, library: &mut FailFreeLibrary) -> Result<bool, NoMemory> {
    let most = bytes_of(alloc, LONGEST_BOOK)?;
    Ok(
        store(library, alloc, "b", most.as_slice()) == "stored"
            && read(library, alloc, "b", most.as_slice()) == "found"
            && library.stored("gone").is_none(),
    )
}

/// A library of a book that is one byte too long.
fn too_long(alloc: Global) -> Result<FailFreeLibrary, NoMemory> {
    let long = bytes_of(alloc, LONGEST_BOOK + 1)?;
    Ok(FailFreeLibrary::new(file(alloc, b"b", long.as_slice())?))
}

#[test]
fn a_book_has_at_most_4_194_304_bytes(rt: HostRuntime) -> Result<(), Fail> {
    let mut library = too_long(rt.alloc())?;
    expect_calls(
        &rt,
        &mut library,
        rt.alloc(),
        &[(true, "b", b"", "too long")],
    );
    assert!(rt; is_longest_held(rt.alloc(), &mut library)?);
    Ok(())
}

const BOOK: &[u8] = b"(in-package)";

const KEPT: &[Call] = &[
    (true, "ap_outside-stored", BOOK, "absent"),
    (false, "ap_outside-stored", BOOK, "stored"),
    (true, "ap_outside-stored", BOOK, "found"),
    (false, "ap_outside-stored", b"x", "stored"),
    (true, "ap_outside-stored", b"x", "found"),
    (true, ".", b"", "failed"),
    (false, ".", b"", "failed"),
];

/// Whether a file is too long to be read that is one byte longer than a book may be.
fn is_too_long<L: Library>(library: &mut L, alloc: Global, name: &str) -> Result<bool, NoMemory> {
    let long = bytes_of(alloc, LONGEST_BOOK + 1)?;
    Ok(
        store(library, alloc, name, long.as_slice()) == "stored"
            && read(library, alloc, name, b"") == "too long",
    )
}

#[test]
fn a_folder_gives_back_what_was_stored_and_is_no_file(rt: HostRuntime) -> Result<(), Fail> {
    let mut folder = FolderLibrary::new(&rt);
    expect_calls(&rt, &mut folder, rt.alloc(), KEPT);
    assert!(rt; is_too_long(&mut folder, rt.alloc(), "ap_outside-long")?);
    fs::remove_file(&rt, "ap_outside-stored")?;
    fs::remove_file(&rt, "ap_outside-long")?;
    Ok(())
}

/// Each row: a piece, and what a writer with room for two more bytes answers.
const PUTS: &[(&[u8], Result<usize, WriteFault>)] = &[
    (b"def", Ok(2)),
    (b"", Ok(0)),
    (b"f", Err(WriteFault::Failed)),
];

/// Puts pieces where there is room for five bytes.
fn fill(rt: &impl Abort, room: &mut [u8]) {
    let mut sink = WriterSink::new(room);
    assert!(rt; put_all(&mut sink, b"abc") == Ok(()));
    for (piece, answer) in PUTS {
        assert!(rt; sink.put(*piece) == *answer);
    }
}

#[test]
fn a_full_writer_is_a_fault(rt: HostRuntime) {
    let mut room = [0u8; 5];
    fill(&rt, room.as_mut_slice());
    expect(&rt, room.as_slice(), "abcde");
}
