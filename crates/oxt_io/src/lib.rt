// Reading and writing bytes, by objects that say what passed through them and why a call failed.
//
// A `Source` or a `Sink` counts its own faults. Code over the traits cannot raise that count, so a
// clause 'this error only where the count rose' holds of no body that gives up by itself.
#![tactic(auto)]

mod memory;
mod outcome;
mod plan;
mod reading;
mod std_adapters;
mod sure;
mod writing;

pub use memory::{MemorySink, MemorySource};
pub use outcome::{Failed, InputFault};
pub use oxt_names::ids::OutOfMemory;
pub use reading::{PIECE, Source, read_to_limit};
pub use std_adapters::{ReaderSource, WriterSink};
pub use sure::{SureSink, SureSource};
pub use writing::{Sink, write_all};
