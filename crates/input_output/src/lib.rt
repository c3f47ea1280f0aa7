//! What lies outside the program: files to take, a sink for what is written, and a gate for tests.
//!
//! A fault comes only where a count of faults rose, and the content is stated where it's told:
//! in memory always, of real files and standard output never. The implementations over memory are
//! for tests and for the promise that nothing but a fault keeps a program from its answer.
//! Stands on `names_and_numbers` and `crossbeam_utils`.
#![tactic(auto)]

mod file_bytes;
mod file_shelf;
mod gate;
mod hold_gate;
mod in_memory;
mod memory_shelf;
mod memory_sink;
mod open_part;
mod plain_shelf;
mod plain_sink;
mod share_gate;
mod shelf;
mod sink;
mod std_sink;
mod waiting;

pub use file_bytes::FileBytes;
pub use file_shelf::FileShelf;
pub use gate::{Gate, Moment, OpenGate};
pub use hold_gate::HoldGate;
pub use memory_shelf::MemoryShelf;
pub use memory_sink::MemorySink;
pub use plain_shelf::PlainShelf;
pub use plain_sink::PlainSink;
pub use share_gate::ShareGate;
pub use shelf::{Shelf, ShelfFault};
pub use sink::{Sink, SinkFault};
pub use std_sink::StdSink;
