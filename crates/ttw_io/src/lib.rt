//! Files and sinks: all that the product reads and writes outside itself.
#![tactic(auto)]

mod buffer;
mod line_reader;
#[cfg(test)]
mod line_tests;
mod memory;
mod outside;
mod reading;
mod system;
#[cfg(test)]
mod tests;
mod writing;

pub use buffer::Buffer;
pub use line_reader::{LineEnd, LineReader};
pub use memory::{MemFiles, MemSink, SureFiles, SureSink};
pub use outside::{Failed, Files, Sink};
pub use reading::{ReadEnd, read_all};
pub use system::{DiskFiles, StdSink};
pub use writing::write_all;
