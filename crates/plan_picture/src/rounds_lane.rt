//! The lane of the rounds.

ghost use Rattle.std.specs.Prelude.{◌≡◌, ◌++◌, ◌+◌, ◌*◌, [], ◌∷◌, IfOk, OnOk, map, nat_eq, find};
ghost use Rattle.std.specs.List.{flat_map, zip, enumerate_from};
ghost use Rattle.std.specs.Option.{option_copied};
ghost use Rattle.proof_tree.specs.Names.{messages_in, name_of};
ghost use Rattle.plan_picture.specs.Picture as picture;
ghost use Rattle.plan_picture.specs.Picture.{round_span, round_spans, slot_span, slot_spans};

use crate::texts::text;
use app_graph::{App, ListOf, Message};
use sched_model::Schedule;
use std::alloc::{AllocError, Global};
use tick_num::Time;
use time_chart::{Look, Row, Span};
use ttw_text::Out;

/// The rounds of a mode. Durations are in ticks.
#[derive(Clone, Copy, Drop)]
pub(crate) struct Rounds {
    /// The hyperperiod.
    pub(crate) hyper: u64,
    /// The length of a round.
    pub(crate) length: u64,
    /// The length of a slot.
    pub(crate) part: u64,
}

/// The message of this number, where there is one.
fn message_of(apps: &[App], number: u32) -> Option<&Message>
    ensures { option_copied result ≡ find (λ message. nat_eq message.number number) (messages_in apps.now) }
{
    apps.iter()
        .flat_map(|app| app.messages.as_slice())
        .find(|message| message.number == number)
}

/// The name of the message of this number.
fn name_of_message(apps: &[App], number: u32) -> &[u8]
    ensures { result.now ≡ name_of (messages_in apps.now) number }
{
    match message_of(apps, number) {
        Some(message) => message.name.as_bytes(),
        None => b"",
    }
}

/// When slot k of the round with this start begins. A moment past 64 bits counts as want of memory.
fn slot_start(start: u64, k: u64, part: u64) -> Result<u64, AllocError>
    ensures { IfOk result (λ n. n ≡ start + k * part) }
{
    match k.checked_mul(part) {
        Some(behind) => start.checked_add(behind).ok_or(AllocError),
        None => Err(AllocError),
    }
}

/// Adds slot k, from 1, of the round with this start, and its message.
fn add_slot(
    alloc: Global,
    rounds: Rounds,
    name: &[u8],
    moment: u64,
    spans: &mut Vec<Span>,
) -> Result<(), AllocError>
    ensures { OnOk result (spans.new.items ≡ spans.old.items
        ++ record { look = Look.Slot; name = name.now; start = moment; length = rounds.part; period = rounds.hyper } ∷ []) }
{
    spans.push(Span {
        look: Look::Slot,
        name: text(alloc, name)?,
        start: moment,
        length: rounds.part,
        period: rounds.hyper,
    })?;
    Ok(())
}

/// Adds the slots in use of the round with this start.
fn add_slots(
    alloc: Global,
    rounds: Rounds,
    apps: &[App],
    start: u64,
    table: &[u32],
    spans: &mut Vec<Span>,
) -> Result<(), AllocError>
    ensures { OnOk result (spans.new.items ≡ spans.old.items
        ++ slot_spans rounds (messages_in apps.now) start table.now) }
{
    for (at, number) in table.iter().enumerate() {
        let moment = slot_start(start, at as u64 + 1, rounds.part)?;
        add_slot(alloc, rounds, name_of_message(apps, *number), moment, spans)?;
    }
    Ok(())
}

/// Adds the round with this start.
fn add_round(
    alloc: Global,
    rounds: Rounds,
    start: u64,
    spans: &mut Vec<Span>,
) -> Result<(), AllocError>
    ensures { OnOk result (spans.new.items ≡ spans.old.items ++ round_span rounds start ∷ []) }
{
    spans.push(Span {
        look: Look::Round,
        name: text(alloc, b"round")?,
        start,
        length: rounds.length,
        period: rounds.hyper,
    })?;
    Ok(())
}

/// Adds the round with this start and its slots in use.
fn add_round_spans(
    alloc: Global,
    rounds: Rounds,
    apps: &[App],
    start: Time,
    table: &[u32],
    spans: &mut Vec<Span>,
) -> Result<(), AllocError>
    ensures { OnOk result (spans.new.items ≡ spans.old.items
        ++ round_spans rounds (messages_in apps.now) (start, table.now)) }
{
    let start = start.unsigned_abs();
    add_round(alloc, rounds, start, spans)?;
    add_slots(alloc, rounds, apps, start, table, spans)
}

/// Adds the rounds with these starts, and their slots in use.
fn add_rounds(
    alloc: Global,
    rounds: Rounds,
    apps: &[App],
    starts: &[Time],
    tables: &[ListOf<u32>],
    spans: &mut Vec<Span>,
) -> Result<(), AllocError>
    ensures { OnOk result (spans.new.items ≡ spans.old.items
        ++ flat_map (round_spans rounds (messages_in apps.now)) (zip starts.now tables.now)) }
{
    for (start, table) in starts.iter().zip(tables) {
        add_round_spans(alloc, rounds, apps, *start, table.as_slice(), spans)?;
    }
    Ok(())
}

/// The row of all rounds.
pub(crate) fn rounds_row(
    alloc: Global,
    rounds: Rounds,
    apps: &[App],
    s: &Schedule,
) -> Result<Row, AllocError>
    ensures { IfOk result (λ row. row ≡ picture.rounds_row rounds apps.now s.now) }
{
    let mut spans = Vec::new(alloc);
    let (starts, tables) = (s.starts.as_slice(), s.tables.as_slice());
    add_rounds(alloc, rounds, apps, starts, tables, &mut spans)?;
    Ok(Row {
        lane: text(alloc, b"rounds")?,
        name: Out::make(alloc),
        spans: ListOf::from_vec(spans),
    })
}
