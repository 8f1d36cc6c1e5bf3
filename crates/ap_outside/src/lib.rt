//! What the program asks of the world outside: a library of named files, and a sink for what is
//! printed. Each counts its faults, so that a failure is never answered without a cause; memory and
//! fail-free implementations are for tests, a folder and a writer are the program's edge.
#![tactic(auto)]

mod fault;
mod files;
mod folder_library;
mod library;
mod memory_library;
mod memory_sink;
mod schedule;
mod sink;
mod writer_sink;

pub use fault::{ReadFault, WriteFault};
pub use folder_library::FolderLibrary;
pub use library::{BookBytes, BookRead, LONGEST_BOOK, Library};
pub use memory_library::{FailFreeLibrary, MemoryLibrary};
pub use memory_sink::{FailFreeSink, MemorySink};
pub use sink::{Sink, put_all};
pub use writer_sink::WriterSink;
