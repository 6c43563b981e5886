//! The drill: a mode set that a number generates, a script, and the line that sums up a run.
#![tactic(auto)]

mod generated;
mod laws;
mod script_lines;
mod summary;
#[cfg(test)]
mod tests;

pub use generated::generate;
pub use laws::drill_law;
pub use script_lines::script;
pub use summary::Summary;
