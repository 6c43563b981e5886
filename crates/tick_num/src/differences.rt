//! Bounds on the difference of two variables.

/// Variable `x` minus variable `y` is at most `c`.
#[derive(Clone, Copy, Debug, PartialEq, Eq, Drop)]
pub struct Diff {
    /// The number of the one variable, from 0.
    pub x: u32,
    /// The number of the other variable, from 0.
    pub y: u32,
    /// The bound, in ticks.
    pub c: i64,
}
