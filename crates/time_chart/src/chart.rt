//! What a chart shows, in ticks.

use crate::elements::Look;
use app_graph::ListOf;
use ttw_text::Out;

/// What recurs: it begins at `start` and again every `period` ticks, and lasts `length` ticks.
#[derive(Drop)]
pub struct Span {
    /// How it is drawn.
    pub look: Look,
    /// What it is called.
    pub name: Out,
    /// When it first begins, in ticks.
    pub start: u64,
    /// How many ticks it lasts.
    pub length: u64,
    /// After how many ticks it begins again.
    pub period: u64,
}

/// A row: what recurs in it.
#[derive(Drop)]
pub struct Row {
    /// The name of the lane that begins with it; empty where it goes on.
    pub lane: Out,
    /// What it is called in its lane.
    pub name: Out,
    /// What recurs in it, in the order in which it is drawn.
    pub spans: ListOf<Span>,
}

/// A chart over one hyperperiod, after which everything recurs.
#[derive(Drop)]
pub struct Chart {
    /// How many ticks it has, from 1 to 1,000,000,000,000.
    pub hyper: u64,
    /// Its rows, from the top down.
    pub rows: ListOf<Row>,
}

/// A heading, and the chart below it, where there is one.
#[derive(Drop)]
pub struct Section {
    /// The heading.
    pub heading: Out,
    /// The chart.
    pub chart: Option<Chart>,
}
