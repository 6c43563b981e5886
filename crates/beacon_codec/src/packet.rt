//! What a beacon says.

use thiserror::Error;

/// A round's beacon.
#[derive(Clone, Copy, Debug, PartialEq, Eq)]
pub struct Beacon {
    /// The number of the round, from 1 over the rounds of all modes.
    pub round: u16,
    /// The number of the announced mode during a change, else of the running one.
    pub mode: u8,
    /// This hyperperiod drains, and the announced mode begins after it.
    pub trigger: bool,
    /// This hyperperiod is the mode's opening one.
    pub opening: bool,
}

/// What is wrong with the bytes of a beacon. The first that holds, in this order, counts.
#[derive(Clone, Copy, Debug, PartialEq, Eq, Error)]
pub enum BeaconFault {
    #[error("a beacon has four bytes")]
    Length,
    #[error("no round has this number")]
    Round,
    #[error("no mode has this number")]
    Mode,
    #[error("no beacon has these flags")]
    Flags,
}
