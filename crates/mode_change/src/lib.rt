//! Changes of mode: the host, which keeps the timeline and makes the beacons.
#![tactic(auto)]

mod host;
mod phase;
#[cfg(test)]
mod tests;

pub use host::Host;
pub use phase::Phase;
