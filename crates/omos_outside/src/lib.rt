//! What a run takes in and gives out: sources and sinks of bytes, doors that links come through,
//! and gates. Sources, sinks and doors count their faults.
//!
//! The traits say what callers may rely on; the forms in memory are the plain ones and those that
//! give or take small pieces and fail at listed calls. The forms over real streams and sockets
//! stand in the crate omos_adapt, files in omos_files.
#![tactic(auto)]

mod calls;
mod door;
mod fixed_sink;
mod flag;
mod gate;
mod memory_door;
mod memory_sink;
mod memory_source;
mod pieces;
mod plain_source;
mod sink;
mod source;
mod writing;

pub use door::{Came, Door};
pub use fixed_sink::FixedSink;
pub use flag::Flag;
pub use gate::{Gate, HoldGate, OpenGate};
pub use memory_door::MemoryDoor;
pub use memory_sink::MemorySink;
pub use memory_source::MemorySource;
pub use plain_source::PlainSource;
pub use sink::{Sink, Took};
pub use source::{Got, Source};
pub use writing::{Sent, write_all, write_both};
