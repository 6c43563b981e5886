//! Bodies of tasks: what a task answers to its inputs, and the numbers that are kept between its runs.
#![tactic(auto)]

mod body;
mod hold;
mod numbers;
mod tally;
#[cfg(test)]
mod tests;

pub use body::TaskBody;
pub use hold::Hold;
pub use tally::Tally;
