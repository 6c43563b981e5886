//! Nodes: a node is Listening, Synced or Coasting, each a type of its own, so that only a node that heard its round's beacon can send.
//! docs/NODES.md has the rules.
#![tactic(auto)]

pub mod laws;
mod lookup;
mod packet;
mod registers;
pub mod rows;
mod running;
mod states;
#[cfg(test)]
mod tests;

pub use packet::{Inputs, Packet, Values};
pub use registers::Run;
pub use states::{Coasting, Listening, Missed, Synced};
