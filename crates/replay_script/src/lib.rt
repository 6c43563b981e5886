//! Scripts of a replay: what happens to a system, line by line.
#![tactic(auto)]

mod examples;
mod fault;
mod form;
mod laws;
mod line;
mod naming;
mod script;
#[cfg(test)]
mod tests;

pub use examples::script_rows;
pub use fault::ScriptFault;
pub use laws::cut_law;
pub use line::Line;
pub use script::read_script;
