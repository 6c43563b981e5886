//! Rows of bars over the ticks of a hyperperiod.

ghost use Rattle.std.specs.Prelude.{◌≡◌, ◌++◌, ◌+◌, ◌<◌, ◌≤◌, IfOk, OnOk, map};
ghost use Rattle.std.specs.List.{flat_map};
ghost use Rattle.time_chart.specs.Drawing as drawing;
ghost use Rattle.time_chart.specs.Drawing.{axis, grid, inside, inside_of, lane_elements, lasting, name_elements, part, recurring, row_elements, rows_from};
ghost use Rattle.time_chart.specs.Elements.{element_text, svg};

use crate::canvas::{Place, ROW, across, below};
use crate::chart::{Row, Span};
use crate::elements::{Lettering, Look, write_bar, write_shape, write_words};
use std::alloc::{AllocError, Global};
use ttw_text::Out;

/// How many ticks have a line and a number: those at the tenths of the hyperperiod.
const MARKS: u64 = 11;

/// The place of a bar of the row at `y`, from one tick to another.
fn bar_place(hyper: u64, y: u64, look: Look, from: u64, until: u64) -> Result<Place, AllocError>
    requires some { 0 < hyper }
    requires most { hyper ≤ 1000000000000 }
    ensures { IfOk result (λ p. p ≡ drawing.bar_place hyper y look from until) }
{
    let x = across(hyper, from);
    let inset = look.inset();
    Ok(Place {
        x,
        y: below(y, inset)?,
        width: across(hyper, until).saturating_sub(x).max(2),
        height: ROW - (inset + inset),
    })
}

/// Adds a name in the middle of a bar of the row at `y`, where it has room.
fn write_inside(y: u64, bar: Place, name: &[u8], out: &mut Out) -> Result<(), AllocError>
    ensures { OnOk result (out.new ≡ out.old ++ svg (inside y bar name.now)) }
{
    if name.len() as u64 > bar.width / 7 {
        return Ok(());
    }
    let place = Place {
        x: bar.x,
        y,
        width: bar.width,
        height: ROW,
    };
    write_words(Lettering::Inside, place, name, out)
}

/// Adds the name in a bar, where it is that of a slot.
fn write_inside_of(
    look: Look,
    y: u64,
    bar: Place,
    name: &[u8],
    out: &mut Out,
) -> Result<(), AllocError>
    ensures { OnOk result (out.new ≡ out.old ++ svg (inside_of look y bar name.now)) }
{
    match look {
        Look::Slot => write_inside(y, bar, name, out),
        _ => Ok(()),
    }
}

/// Adds the part between two ticks of what lasts from a moment on.
fn write_part(
    hyper: u64,
    y: u64,
    span: &Span,
    moment: u64,
    from: u64,
    until: u64,
    out: &mut Out,
) -> Result<(), AllocError>
    requires some { 0 < hyper }
    requires most { hyper ≤ 1000000000000 }
    requires moment { moment < hyper }
    ensures { OnOk result (out.new ≡ out.old ++ svg (part hyper y span.now moment from until)) }
{
    let place = bar_place(hyper, y, span.look, from, until)?;
    let name = span.name.bytes();
    let end = moment + span.length.min(hyper);
    write_bar(span.look, place, name, moment, end, out)?;
    write_inside_of(span.look, y, place, name, out)
}

/// Adds what lasts from a moment of the hyperperiod on.
fn write_lasting(
    hyper: u64,
    y: u64,
    span: &Span,
    moment: u64,
    out: &mut Out,
) -> Result<(), AllocError>
    requires some { 0 < hyper }
    requires most { hyper ≤ 1000000000000 }
    requires moment { moment < hyper }
    ensures { OnOk result (out.new ≡ out.old ++ svg (lasting hyper y span.now moment)) }
{
    let end = moment + span.length.min(hyper);
    if end <= hyper {
        return write_part(hyper, y, span, moment, moment, end, out);
    }
    write_part(hyper, y, span, moment, moment, hyper, out)?;
    write_part(hyper, y, span, moment, 0, end - hyper, out)
}

/// When it begins for the k-th time, from 0, in ticks of the hyperperiod.
fn moment(hyper: u64, span: &Span, k: u64) -> u64
    requires some { 0 < hyper }
    requires most { hyper ≤ 1000000000000 }
    requires repeat { k < drawing.repeats hyper span.now }
    ensures value { result ≡ drawing.moment hyper span.now k }
    ensures within { result < hyper }
{
    (span.start % hyper + k * span.period.max(1)) % hyper
}

/// Adds all that recurs of it in a hyperperiod.
fn write_recurring(hyper: u64, y: u64, span: &Span, out: &mut Out) -> Result<(), AllocError>
    requires some { 0 < hyper }
    requires most { hyper ≤ 1000000000000 }
    ensures { OnOk result (out.new ≡ out.old ++ svg (recurring hyper y span.now)) }
{
    for k in 0..hyper / span.period.max(1) {
        write_lasting(hyper, y, span, moment(hyper, span, k), out)?;
    }
    Ok(())
}

/// Adds the bars of a row at `y`.
fn write_spans(hyper: u64, y: u64, spans: &[Span], out: &mut Out) -> Result<(), AllocError>
    requires some { 0 < hyper }
    requires most { hyper ≤ 1000000000000 }
    ensures { OnOk result (out.new ≡ out.old ++ svg (flat_map (recurring hyper y) spans.now)) }
{
    for span in spans {
        write_recurring(hyper, y, span, out)?;
    }
    Ok(())
}

/// Adds the line and the name of a lane that begins at `y`.
fn write_lane(y: u64, name: &[u8], out: &mut Out) -> Result<(), AllocError>
    ensures { OnOk result (out.new ≡ out.old ++ svg (lane_elements y name.now)) }
{
    if name.is_empty() {
        return Ok(());
    }
    let line = Place {
        x: 8,
        y,
        width: 1224,
        height: 1,
    };
    write_shape(Look::Line, line, out)?;
    let place = Place {
        x: 8,
        y,
        width: 96,
        height: ROW,
    };
    write_words(Lettering::Lane, place, name, out)
}

/// Adds the name of a row at `y`.
fn write_name(y: u64, name: &[u8], out: &mut Out) -> Result<(), AllocError>
    ensures { OnOk result (out.new ≡ out.old ++ svg (name_elements y name.now)) }
{
    if name.is_empty() {
        return Ok(());
    }
    let place = Place {
        x: 108,
        y,
        width: 104,
        height: ROW,
    };
    write_words(Lettering::Name, place, name, out)
}

/// Adds a row at `y`.
fn write_row(hyper: u64, y: u64, row: &Row, out: &mut Out) -> Result<(), AllocError>
    requires some { 0 < hyper }
    requires most { hyper ≤ 1000000000000 }
    ensures { OnOk result (out.new ≡ out.old ++ svg (row_elements hyper y row.now)) }
{
    write_lane(y, row.lane.bytes(), out)?;
    write_name(y, row.name.bytes(), out)?;
    write_spans(hyper, y, row.spans.as_slice(), out)
}

/// Adds the rows from `y` down.
pub(crate) fn write_rows(hyper: u64, y: u64, rows: &[Row], out: &mut Out) -> Result<(), AllocError>
    requires some { 0 < hyper }
    requires most { hyper ≤ 1000000000000 }
    ensures { OnOk result (out.new ≡ out.old ++ svg (rows_from hyper y rows.now)) }
{
    let mut top = y;
    for row in rows {
        write_row(hyper, top, row, out)?;
        top = below(top, ROW)?;
    }
    Ok(())
}

/// Adds a line at each tenth of the hyperperiod.
pub(crate) fn write_grid(hyper: u64, y: u64, height: u64, out: &mut Out) -> Result<(), AllocError>
    requires some { 0 < hyper }
    requires most { hyper ≤ 1000000000000 }
    ensures { OnOk result (out.new ≡ out.old ++ svg (grid hyper y height)) }
{
    for mark in 0..MARKS {
        let place = Place {
            x: across(hyper, mark * hyper / 10),
            y,
            width: 1,
            height,
        };
        write_shape(Look::Grid, place, out)?;
    }
    Ok(())
}

/// Adds the number of the tick at so many tenths of the hyperperiod.
fn write_tick(alloc: Global, hyper: u64, y: u64, mark: u64, out: &mut Out) -> Result<(), AllocError>
    requires some { 0 < hyper }
    requires most { hyper ≤ 1000000000000 }
    requires mark { mark < 11 }
    ensures { OnOk result (out.new ≡ out.old ++ element_text (drawing.tick_number hyper y mark)) }
{
    let tick = mark * hyper / 10;
    let mut digits = Out::make(alloc);
    digits.number(tick)?;
    let place = Place {
        x: across(hyper, tick) - 42,
        y,
        width: 84,
        height: ROW,
    };
    write_words(Lettering::Number, place, digits.bytes(), out)
}

/// Adds the numbers of the ticks at the tenths.
fn write_ticks(alloc: Global, hyper: u64, y: u64, out: &mut Out) -> Result<(), AllocError>
    requires some { 0 < hyper }
    requires most { hyper ≤ 1000000000000 }
    ensures { OnOk result (out.new ≡ out.old ++ svg (map (drawing.tick_number hyper y) (drawing.below 11))) }
{
    for mark in 0..MARKS {
        write_tick(alloc, hyper, y, mark, out)?;
    }
    Ok(())
}

/// Adds the axis at `y`.
pub(crate) fn write_axis(alloc: Global, hyper: u64, y: u64, out: &mut Out) -> Result<(), AllocError>
    requires some { 0 < hyper }
    requires most { hyper ≤ 1000000000000 }
    ensures { OnOk result (out.new ≡ out.old ++ svg (axis hyper y)) }
{
    let place = Place {
        x: 108,
        y,
        width: 64,
        height: ROW,
    };
    write_words(Lettering::Name, place, b"tick", out)?;
    write_ticks(alloc, hyper, y, out)
}
