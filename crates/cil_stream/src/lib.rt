//! Sources that give bytes and sinks that take them: over memory, and over the readers and writers of std.
#![tactic(auto)]

mod memory_sink;
mod memory_source;
mod retrying;
mod sink;
mod source;

pub use memory_sink::MemorySink;
pub use memory_source::MemorySource;
pub use sink::{Sink, SinkFault, WriterSink, write_all, write_pieces};
pub use source::{ReaderSource, Source, SourceFault};
