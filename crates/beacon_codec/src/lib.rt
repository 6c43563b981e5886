//! A beacon as four bytes.
#![tactic(auto)]

mod codec;
mod packet;
#[cfg(test)]
mod tests;

pub use codec::{decode, encode, flags};
pub use packet::{Beacon, BeaconFault};
