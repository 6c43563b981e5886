//! The lane of the messages.

ghost use Rattle.std.specs.Prelude.{◌≡◌, ◌++◌, [], ◌∷◌, IfOk, OnOk, map, unsigned_abs};
ghost use Rattle.std.specs.List.{zip};
ghost use Rattle.plan_picture.specs.Picture as picture;
ghost use Rattle.plan_picture.specs.Picture.{window_rows};

use crate::texts::{behind, text};
use app_graph::{App, ListOf, Message};
use std::alloc::{AllocError, Global};
use tick_num::Time;
use time_chart::{Look, Row, Span};
use ttw_text::Out;

/// The windows of a message, which recur after a period, from where the first one opens to where it closes.
fn window_span(
    alloc: Global,
    period: u64,
    message: &Message,
    window: &(Time, Time),
) -> Result<Span, AllocError>
    ensures { IfOk result (λ span. span ≡ picture.window_span period (message.now, window.now)) }
{
    let (opens, closes) = (window.0.unsigned_abs(), window.1.unsigned_abs());
    Ok(Span {
        look: Look::Window,
        name: text(alloc, message.name.as_bytes())?,
        start: opens,
        length: closes.saturating_sub(opens),
        period,
    })
}

/// The row of a message.
fn window_row(
    alloc: Global,
    period: u64,
    message: &Message,
    window: &(Time, Time),
) -> Result<Row, AllocError>
    ensures { IfOk result (λ row. row ≡ picture.window_row period (message.now, window.now)) }
{
    let mut spans = Vec::new(alloc);
    spans.push(window_span(alloc, period, message, window)?)?;
    Ok(Row {
        lane: Out::make(alloc),
        name: text(alloc, message.name.as_bytes())?,
        spans: ListOf::from_vec(spans),
    })
}

/// Adds the rows of the messages of an application, whose windows stand first.
fn add_app(
    alloc: Global,
    period: u64,
    messages: &[Message],
    windows: &[(Time, Time)],
    rows: &mut Vec<Row>,
) -> Result<(), AllocError>
    ensures { OnOk result (rows.new.items ≡ rows.old.items
        ++ map (picture.window_row period) (zip messages.now windows.now)) }
{
    for (message, window) in messages.iter().zip(windows) {
        rows.push(window_row(alloc, period, message, window)?)?;
    }
    Ok(())
}

/// Adds the rows of the messages of all applications.
pub(crate) fn add_windows(
    alloc: Global,
    apps: &[App],
    windows: &[(Time, Time)],
    rows: &mut Vec<Row>,
) -> Result<(), AllocError>
    ensures { OnOk result (rows.new.items ≡ rows.old.items ++ window_rows apps.now windows.now) }
{
    let mut left = windows;
    for app in apps {
        let messages = app.messages.as_slice();
        add_app(alloc, app.period.unsigned_abs(), messages, left, rows)?;
        left = behind(left, messages.len());
    }
    Ok(())
}
