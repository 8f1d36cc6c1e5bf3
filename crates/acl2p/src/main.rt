//! `acl2p` certifies ACL2 books: it reads the books that its words name from the current folder, proves their
//! theorems, and prints each event's goals and verdict. All its work is [`certify`], which it hands on from `ap_session`;
//! here stand the words that the system gives, the folder and the streams, and the exit status.
#![tactic(auto)]

ghost use Rattle.std.specs.Prelude.{◌≡◌, ◌≢◌, [], take, drop, IfOk, IfErr, IsOkAnd, IsErr};
ghost use Rattle.std.specs.IoError.{error_kind};
ghost use Rattle.std.specs.Vec.Iter.{into_iter_items, into_iter_len};
ghost use Rattle.ap_session.specs.Session.{number_of};

use ap_outside::{FolderLibrary, WriterSink};
pub use ap_session::{Report, Status, certify};
use ap_session::{NoGate, NoMemory, tell};
use std::alloc::{AllocError, Global};
use std::env::Args;
use std::io::ErrorKind;
use std::process::ExitCode;
use std::rt::Files;
use std::sync::Wait;
use std::thread::{Builder, Threads};
use std::{env, io, thread};

/// The stack of the thread that does the work, by which a goal's terms may be as deep as its step lets them. Its pages are
/// taken only where they are reached.
const STACK: usize = 256 * 1024 * 1024;

/// The words behind the program's name, of what the system answered for all of them. Words that are no text are no
/// command, as none are.
fn words_of(alloc: Global, answered: io::Result<Args>) -> Result<Vec<String>, NoMemory>
    // in order: those that the answer still gives, but for the first
    ensures behind { IfOk answered (λ all. IfOk result (λ words. words.items ≡ drop 1 (take (into_iter_len all) (into_iter_items all)))) }
    ensures no_text { IfErr answered (λ error. error_kind error ≢ ErrorKind.OutOfMemory → IsOkAnd result (λ words. words.items ≡ [])) }
    ensures no_memory { IfErr answered (λ error. error_kind error ≡ ErrorKind.OutOfMemory → IsErr result) }
{
    match answered {
        Ok(all) => all.skip(1).collect(alloc),
        Err(error) if error.kind() == ErrorKind::OutOfMemory => Err(AllocError),
        Err(_) => Ok(Vec::new(alloc)),
    }
}

/// The exit status of a session.
fn exit(status: Status) -> u8
    ensures { result ≡ number_of status }
{
    match status {
        Status::Certified => 0,
        Status::NotCertified => 1,
        Status::Usage => 2,
        Status::ReadFault => 3,
        Status::WriteFault => 4,
        Status::NoMemory => 5,
    }
}

/// Works what the words ask for, over the current folder and standard output.
fn worked<R: Files + Print + Threads + Wait + Sync>(
    rt: &R,
    alloc: Global,
    words: &[String],
) -> Status {
    let mut library = FolderLibrary::new(rt);
    let mut sink = WriterSink::new(io::writer(rt));
    let report = certify(rt, alloc, words, &mut library, &mut sink, &NoGate);
    report.status
}

fn main(rt: HostRuntime) -> ExitCode {
    let alloc = rt.alloc();
    let status = match words_of(alloc, env::args(&rt)) {
        Ok(words) => thread::scope(thread::scope_env(), &rt, |scope| {
            let words = words.as_slice();
            let started = Builder::new()
                .stack_size(STACK)
                .spawn_scoped(scope, || worked(&rt, alloc, words));
            match started {
                Ok(thread) => thread.join(&rt),
                Err(_) => Status::NoMemory,
            }
        }),
        Err(_) => Status::NoMemory,
    };
    let mut errors = WriterSink::new(rt.stderr());
    let _ = tell(status, &mut errors);
    ExitCode::from(exit(status))
}
