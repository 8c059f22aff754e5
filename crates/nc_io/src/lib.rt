//! Sources and sinks of bytes that count their failures: over memory, and over std's readers and writers.
#![tactic(auto)]

mod memory_sink;
mod memory_source;
mod sinks;
mod sources;
mod standard;
mod whole;

pub use memory_sink::MemorySink;
pub use memory_source::MemorySource;
pub use sinks::Sink;
pub use sources::Source;
pub use standard::{StdSink, StdSource};
pub use whole::{Fault, put_whole, take_whole};

/// A read or a write failed. The source or the sink has counted it.
#[derive(Clone, Copy, Debug, PartialEq, Eq)]
pub struct Failed;
