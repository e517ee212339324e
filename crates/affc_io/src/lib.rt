//! What the compiler asks of the outside: a folder of named files, and sinks for bytes.
#![tactic(auto)]

pub mod examples;
mod files;
mod folder;
mod memory;
mod put;
mod reads;
mod sink;
mod standard;

pub use folder::{Folder, LONGEST_READ, ReadFault, WriteFault, longest_read};
pub use memory::{MemFolder, MemSink, SureSink};
pub use put::{PutCause, PutFault, put_all};
pub use reads::ReadLog;
pub use sink::{Sink, SinkFault, pieces_join};
pub use standard::{StdFolder, StdSink};
