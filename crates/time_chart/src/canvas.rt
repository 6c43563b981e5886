//! Where things stand on the canvas, in units of which it has 1,240 across.

ghost use Rattle.std.specs.Prelude.{◌≡◌, ◌+◌, ◌<◌, ◌≤◌, IfOk};
ghost use Rattle.time_chart.specs.Canvas as canvas;

use std::alloc::AllocError;

/// How many units the canvas has across.
pub(crate) const WIDTH: u64 = 1240;

/// Where the ticks begin.
pub(crate) const LEFT: u64 = 220;

/// How many units a hyperperiod has across.
pub(crate) const BREADTH: u64 = 960;

/// How high a row is.
pub(crate) const ROW: u64 = 24;

/// A rectangle.
#[derive(Clone, Copy, Debug, PartialEq, Eq, Drop)]
pub(crate) struct Place {
    /// Its left side.
    pub(crate) x: u64,
    /// Its upper side.
    pub(crate) y: u64,
    /// How wide it is.
    pub(crate) width: u64,
    /// How high it is.
    pub(crate) height: u64,
}

/// Where a tick of the hyperperiod stands.
#[tactic(auto, unfolding(crate::specs::Canvas::across))]
pub(crate) fn across(hyper: u64, tick: u64) -> u64
    requires some { 0 < hyper }
    requires most { hyper ≤ 1000000000000 }
    ensures value { result ≡ canvas.across hyper tick }
    ensures least { 220 ≤ result }
    ensures most { result ≤ 1180 }
{
    LEFT + tick.min(hyper) * BREADTH / hyper
}

/// What stands so many units below. A place past 64 bits has no room in memory.
pub(crate) fn below(y: u64, height: u64) -> Result<u64, AllocError>
    ensures { IfOk result (λ n. n ≡ y + height) }
{
    match y.checked_add(height) {
        Some(sum) => Ok(sum),
        None => Err(AllocError),
    }
}

/// So many rows, in units.
pub(crate) fn rows_height(rows: usize) -> Result<u64, AllocError>
    ensures { IfOk result (λ n. n ≡ canvas.rows_height rows) }
{
    match (rows as u64).checked_mul(ROW) {
        Some(product) => Ok(product),
        None => Err(AllocError),
    }
}
