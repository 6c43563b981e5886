//! Lines, words, names and numbers of texts, and a text that is built.
#![tactic(auto)]

mod bytes;
mod laws;
mod lines;
mod names;
mod numbers;
mod output;
#[cfg(test)]
mod tests;
mod word;

pub use laws::{lines_law, spelling_law, words_law};
pub use lines::{cut, without_feed};
pub use names::is_name;
pub use numbers::{read_u64, read_up_to};
pub use output::Out;
pub use word::{Parts, words};
