//! Replays: the trace of a world over a script, line by line. docs/TRACE.md has the lines.
#![tactic(auto)]

mod counts;
pub mod laws;
mod line;
mod names;
mod replaying;
#[cfg(test)]
mod tests;
mod tracer;

pub use counts::Counts;
pub use replaying::{ReplayEnd, replay};
