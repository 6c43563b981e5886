//! The runtime: the timeline of modes, the entries of a cycle, what each event of a list does, and the part of the plans that a node keeps.
#![tactic(auto)]

pub mod laws;
pub mod rows;
