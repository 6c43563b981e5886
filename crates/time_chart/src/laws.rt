//! A law of sheets.

ghost use Rattle.time_chart.specs.Within.{ElementsAreWithin};

/// Every element of a sheet lies within its canvas, whatever the sheet says.
pub fn elements_are_within()
    ensures { ElementsAreWithin }
{}
