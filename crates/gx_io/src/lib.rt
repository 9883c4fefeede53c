//! Where files come from and where bytes go: a library of files and a sink, each as a trait, in memory, and over std.
#![tactic(auto)]

mod errors;
mod file_library;
mod library;
mod memory_library;
mod memory_sink;
mod sink;
mod writer_sink;

pub use errors::{LoadError, PutError};
pub use file_library::{FileLibrary, read_within};
pub use library::Library;
pub use memory_library::{MemoryLibrary, law_of_names};
pub use memory_sink::MemorySink;
pub use sink::Sink;
pub use writer_sink::WriterSink;
