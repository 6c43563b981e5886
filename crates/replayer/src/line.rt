//! The line of what happened.

ghost use Rattle.std.specs.Prelude.{◌≡◌, ◌++◌, ◌∷◌, [], codes, if◌then◌else◌};
ghost use Rattle.ttw_io.specs.Buffering.{HasPut, OnlyWrites};
ghost use Rattle.ttw_text.specs.Numbers.{signed_spelled, spelled};
ghost use Rattle.world_core.specs.Done.{whole};
ghost use Rattle.world_core.specs.declared.happened.Happened.TheVariants.{Beacon as Beaconed, Ended, Sent, Started};
ghost use Rattle.replayer.specs.Trace.{done_line, input_text, inputs_text, line, message_name, node_name};
ghost use Rattle.replayer.specs.Trace.{nodes_text, task_text, values_text};

use crate::names::Names;
use beacon_codec::{Beacon, flags};
use itoa::Buffer as Digits;
use node_core::{Inputs, Packet, Values};
use tick_num::Time;
use ttw_io::{Buffer, Failed, Sink};
use world_core::Done;

/// The spelling of a number.
fn number(digits: &mut Digits, n: u64) -> &[u8]
    ensures { result.now ≡ spelled n }
{
    digits.format(n).as_bytes()
}

/// The spelling of a signed number.
fn signed(digits: &mut Digits, n: i64) -> &[u8]
    ensures { result.now ≡ signed_spelled n }
{
    digits.format(n).as_bytes()
}

/// Puts the name of a node behind a blank, where the node is in a set.
fn put_node<S: Sink>(
    names: &Names,
    node: usize,
    is_in: bool,
    buffer: &mut Buffer,
    out: &mut S,
) -> Result<(), Failed>
    ensures put { HasPut result (S.held out.old) (S.held out.new) buffer.old buffer.new
        (if is_in then 32 ∷ node_name names.now node else []) }
    ensures sink { OnlyWrites result (S.faults out.old) (S.faults out.new)
        (S.flushes out.old) (S.flushes out.new) }
{
    if !is_in {
        return Ok(());
    }
    buffer.put_all(&[b" ", names.node(node)], out)
}

/// Puts the names of the nodes in a set, each behind a blank.
fn put_nodes<S: Sink>(
    names: &Names,
    nodes: u64,
    buffer: &mut Buffer,
    out: &mut S,
) -> Result<(), Failed>
    ensures put { HasPut result (S.held out.old) (S.held out.new) buffer.old buffer.new
        (nodes_text names.now nodes) }
    ensures sink { OnlyWrites result (S.faults out.old) (S.faults out.new)
        (S.flushes out.old) (S.flushes out.new) }
{
    // The bits of the nodes that are still to come.
    let mut left = nodes;
    for node in 0..names.nodes() {
        put_node(names, node, left % 2 == 1, buffer, out)?;
        left /= 2;
    }
    Ok(())
}

/// Puts the values of a packet, each behind a blank.
fn put_values<S: Sink>(values: &Values, buffer: &mut Buffer, out: &mut S) -> Result<(), Failed>
    ensures put { HasPut result (S.held out.old) (S.held out.new) buffer.old buffer.new
        (values_text values.now) }
    ensures sink { OnlyWrites result (S.faults out.old) (S.faults out.new)
        (S.flushes out.old) (S.flushes out.new) }
{
    for value in values.as_slice() {
        let mut digits = Digits::new();
        buffer.put_all(&[b" ", signed(&mut digits, *value)], out)?;
    }
    Ok(())
}

/// The text of an input.
fn input_bytes<'a>(input: &Option<i64>, digits: &'a mut Digits) -> &'a [u8]
    ensures { result.now ≡ input_text input.now }
{
    match input {
        Some(value) => signed(digits, *value),
        None => b"-",
    }
}

/// Puts the inputs of a start, each behind a blank.
fn put_inputs<S: Sink>(inputs: &Inputs, buffer: &mut Buffer, out: &mut S) -> Result<(), Failed>
    ensures put { HasPut result (S.held out.old) (S.held out.new) buffer.old buffer.new
        (inputs_text inputs.now) }
    ensures sink { OnlyWrites result (S.faults out.old) (S.faults out.new)
        (S.flushes out.old) (S.flushes out.new) }
{
    for input in inputs.as_slice() {
        let mut digits = Digits::new();
        buffer.put_all(&[b" ", input_bytes(input, &mut digits)], out)?;
    }
    Ok(())
}

/// Puts a line of a word and a name.
fn put_named<S: Sink>(
    at: Time,
    word: &[u8],
    name: &[u8],
    buffer: &mut Buffer,
    out: &mut S,
) -> Result<(), Failed>
    ensures put { HasPut result (S.held out.old) (S.held out.new) buffer.old buffer.new
        (signed_spelled at ++ ((word.now ++ name.now) ++ 10 ∷ [])) }
    ensures sink { OnlyWrites result (S.faults out.old) (S.faults out.new)
        (S.flushes out.old) (S.flushes out.new) }
{
    let mut tick = Digits::new();
    buffer.put_all(&[signed(&mut tick, at), word, name, b"\n"], out)
}

/// Puts a line of a word, a node and a task.
fn put_task<S: Sink>(
    names: &Names,
    at: Time,
    word: &[u8],
    node: u32,
    task: u32,
    buffer: &mut Buffer,
    out: &mut S,
) -> Result<(), Failed>
    ensures put { HasPut result (S.held out.old) (S.held out.new) buffer.old buffer.new
        (signed_spelled at ++ ((word.now ++ task_text names.now node task) ++ 10 ∷ [])) }
    ensures sink { OnlyWrites result (S.faults out.old) (S.faults out.new)
        (S.flushes out.old) (S.flushes out.new) }
{
    let mut tick = Digits::new();
    let node = names.node(node as usize);
    let task = names.task(task);
    buffer.put_all(
        &[signed(&mut tick, at), word, b" ", node, b" ", task, b"\n"],
        out,
    )
}

/// Puts the line of the end of a run.
fn put_ended<S: Sink>(
    names: &Names,
    at: Time,
    node: u32,
    task: u32,
    value: i64,
    buffer: &mut Buffer,
    out: &mut S,
) -> Result<(), Failed>
    ensures put { HasPut result (S.held out.old) (S.held out.new) buffer.old buffer.new
        (line names.now (Ended at node task value)) }
    ensures sink { OnlyWrites result (S.faults out.old) (S.faults out.new)
        (S.flushes out.old) (S.flushes out.new) }
{
    let mut tick = Digits::new();
    let mut digits = Digits::new();
    let node = names.node(node as usize);
    let task = names.task(task);
    let value = signed(&mut digits, value);
    buffer.put_all(
        &[
            signed(&mut tick, at),
            b" end ",
            node,
            b" ",
            task,
            b" ",
            value,
            b"\n",
        ],
        out,
    )
}

/// Puts the line of a start.
fn put_started<S: Sink>(
    names: &Names,
    at: Time,
    node: u32,
    task: u32,
    inputs: &Inputs,
    buffer: &mut Buffer,
    out: &mut S,
) -> Result<(), Failed>
    ensures put { HasPut result (S.held out.old) (S.held out.new) buffer.old buffer.new
        (line names.now (Started at node task inputs.now)) }
    ensures sink { OnlyWrites result (S.faults out.old) (S.faults out.new)
        (S.flushes out.old) (S.flushes out.new) }
{
    let mut tick = Digits::new();
    let node = names.node(node as usize);
    let task = names.task(task);
    buffer.put_all(&[signed(&mut tick, at), b" start ", node, b" ", task], out)?;
    put_inputs(inputs, buffer, out)?;
    buffer.put(b"\n", out)
}

/// Puts the words of a packet's line before the nodes that took it.
fn put_packet<S: Sink>(
    names: &Names,
    at: Time,
    node: u32,
    packet: &Packet,
    buffer: &mut Buffer,
    out: &mut S,
) -> Result<(), Failed>
    ensures put { HasPut result (S.held out.old) (S.held out.new) buffer.old buffer.new
        (signed_spelled at ++ (codes " send " ++ (node_name names.now node
        ++ 32 ∷ (message_name names.now packet.now.message
        ++ (values_text packet.now.values ++ codes " taken"))))) }
    ensures sink { OnlyWrites result (S.faults out.old) (S.faults out.new)
        (S.flushes out.old) (S.flushes out.new) }
{
    let mut tick = Digits::new();
    let node = names.node(node as usize);
    let message = names.message(packet.message);
    buffer.put_all(
        &[signed(&mut tick, at), b" send ", node, b" ", message],
        out,
    )?;
    put_values(&packet.values, buffer, out)?;
    buffer.put(b" taken", out)
}

/// Puts the line of a packet.
fn put_sent<S: Sink>(
    names: &Names,
    at: Time,
    node: u32,
    packet: &Packet,
    taken: u64,
    buffer: &mut Buffer,
    out: &mut S,
) -> Result<(), Failed>
    ensures put { HasPut result (S.held out.old) (S.held out.new) buffer.old buffer.new
        (line names.now (Sent at node packet.now taken)) }
    ensures sink { OnlyWrites result (S.faults out.old) (S.faults out.new)
        (S.flushes out.old) (S.flushes out.new) }
{
    put_packet(names, at, node, packet, buffer, out)?;
    put_nodes(names, taken, buffer, out)?;
    buffer.put(b"\n", out)
}

/// Puts the line of a beacon.
fn put_beacon<S: Sink>(
    names: &Names,
    at: Time,
    beacon: Beacon,
    heard: u64,
    buffer: &mut Buffer,
    out: &mut S,
) -> Result<(), Failed>
    ensures put { HasPut result (S.held out.old) (S.held out.new) buffer.old buffer.new
        (line names.now (Beaconed at beacon heard)) }
    ensures sink { OnlyWrites result (S.faults out.old) (S.faults out.new)
        (S.flushes out.old) (S.flushes out.new) }
{
    let mut tick = Digits::new();
    let mut round = Digits::new();
    let mut digits = Digits::new();
    let tick = signed(&mut tick, at);
    let round = number(&mut round, u64::from(beacon.round));
    let mode = names.mode(usize::from(beacon.mode));
    let flags = number(&mut digits, u64::from(flags(beacon)));
    buffer.put_all(
        &[tick, b" beacon ", round, b" ", mode, b" ", flags, b" heard"],
        out,
    )?;
    put_nodes(names, heard, buffer, out)?;
    buffer.put(b"\n", out)
}

/// Puts the line of what happened.
pub(crate) fn put_line<S: Sink>(
    names: &Names,
    done: &Done,
    inputs: &Inputs,
    buffer: &mut Buffer,
    out: &mut S,
) -> Result<(), Failed>
    ensures put { HasPut result (S.held out.old) (S.held out.new) buffer.old buffer.new
        (line names.now (whole done.now inputs.now)) }
    ensures sink { OnlyWrites result (S.faults out.old) (S.faults out.new)
        (S.flushes out.old) (S.flushes out.new) }
{
    match done {
        Done::Beacon { at, beacon, heard } => put_beacon(names, *at, *beacon, *heard, buffer, out),
        Done::Sent {
            at,
            node,
            packet,
            taken,
        } => put_sent(names, *at, *node, packet, *taken, buffer, out),
        Done::Silent { at, message } => put_named(
            *at,
            b" silent ",
            names.message(*message),
            buffer,
            out,
        ),
        Done::Started { at, node, task } => put_started(
            names, *at, *node, *task, inputs, buffer, out,
        ),
        Done::Off { at, node, task } => put_task(names, *at, b" off", *node, *task, buffer, out),
        Done::Ended {
            at,
            node,
            task,
            value,
        } => put_ended(names, *at, *node, *task, *value, buffer, out),
        Done::Void { at, node, task } => put_task(names, *at, b" void", *node, *task, buffer, out),
        Done::Requested { at, mode } => put_named(
            *at,
            b" request ",
            names.mode(*mode as usize),
            buffer,
            out,
        ),
        Done::Restarted { at, node } => put_named(
            *at,
            b" restart ",
            names.node(*node as usize),
            buffer,
            out,
        ),
    }
}

/// Puts the last line, behind so many others.
pub(crate) fn put_done<S: Sink>(events: u64, buffer: &mut Buffer, out: &mut S) -> Result<(), Failed>
    ensures put { HasPut result (S.held out.old) (S.held out.new) buffer.old buffer.new
        (done_line events) }
    ensures sink { OnlyWrites result (S.faults out.old) (S.faults out.new)
        (S.flushes out.old) (S.flushes out.new) }
{
    let mut digits = Digits::new();
    buffer.put_all(&[b"done ", number(&mut digits, events), b"\n"], out)
}
