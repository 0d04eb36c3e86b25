//! Where the bytes of a text come from, and where those of an answer go.
#![tactic(auto)]

pub mod adapters;
mod byte_buffer;
mod fault_plan;
pub mod infallible_ports;
mod lines;
pub mod memory;
pub mod ports;
pub mod single_byte_ports;

pub use adapters::{ReaderSource, WriterSink};
pub use infallible_ports::{SureSink, SureSource};
pub use lines::first_line;
pub use memory::{MemorySink, MemorySource};
pub use ports::{Failed, MAX_TEXT, ReadTextFault, Sink, Source, WriteFault, read_text, write_all};
pub use single_byte_ports::{SmallSink, SmallSource};
