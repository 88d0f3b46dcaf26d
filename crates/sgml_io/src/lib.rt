//! The outside: stores, sinks and gates, and the records of a text.
#![tactic(auto)]

mod asked;
mod failing;
mod fetching;
mod gate;
mod memory;
mod memory_sink;
mod outside;
mod real;
mod records;

pub use failing::FailingStore;
pub use fetching::{FetchError, fetch};
pub use gate::{FreeGate, Gate};
pub use memory::{MemoryFile, MemoryStore};
pub use memory_sink::MemorySink;
pub use outside::{Sink, SinkFault, Store, StoreError, write_whole};
pub use real::{FileStore, StdSink};
pub use records::{RecordReader, text_of_records, to_records};
