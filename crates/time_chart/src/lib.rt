//! Charts of what recurs in a period of time, as SVG: lanes of rows, with bars over the ticks.
#![tactic(auto)]

mod canvas;
mod chart;
mod drawing;
mod elements;
pub mod laws;
mod sheet;
#[cfg(test)]
mod tests;

pub use chart::{Chart, Row, Section, Span};
pub use elements::Look;
pub use sheet::write_sheet;
