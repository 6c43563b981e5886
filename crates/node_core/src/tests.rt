//! Nodes that hear, miss, send and run, over the tables of a loop of three tasks.

ghost use Rattle.std.specs.Prelude.{◌≡◌, IfOk, [], false, ◌∷◌};
ghost use Rattle.node_core.specs.Rows.{control_ended, control_second, control_table, idle_mode, sense_table};
ghost use Rattle.node_core.specs.Rules.{first_heard};

use crate::{Coasting, Listening, Missed, Packet, Synced, Values};
use app_graph::ListOf;
use beacon_codec::{Beacon, encode};
use node_tables::{ModeTable, NodeTable, OwnMessage, OwnRound, OwnSlot, OwnTask};
use std::alloc::{AllocError, Global};
use std::test::Fail;
use task_body::Tally;

/// The numbers as a list.
fn numbers(alloc: Global, items: &[u32]) -> Result<ListOf<u32>, AllocError>
    ensures { IfOk result (λ list. list ≡ items.now) }
{
    Ok(ListOf::from_vec(items.to_vec(alloc)?))
}

/// The mode in which a node does nothing.
fn idle_mode(alloc: Global) -> Result<ModeTable, AllocError>
    ensures { IfOk result (λ m. m ≡ idle_mode) }
{
    let round = OwnRound {
        start: 0,
        slots: ListOf::from_vec(Vec::new(alloc)),
    };
    Ok(ModeTable {
        hyper: 100,
        first_round: 3,
        tasks: ListOf::from_vec(Vec::new(alloc)),
        messages: ListOf::from_vec(Vec::new(alloc)),
        rounds: ListOf::from_vec(vec![in alloc; round]?),
    })
}

/// The table of the node of `sense`.
fn sense_table(alloc: Global) -> Result<NodeTable, AllocError>
    ensures { IfOk result (λ t. t ≡ sense_table) }
{
    let task = OwnTask {
        number: 0,
        period: 100,
        offset: 21,
        wcet: 2,
    };
    let message = OwnMessage {
        number: 0,
        role: 1,
        producers: numbers(alloc, &[0])?,
        consumers: numbers(alloc, &[])?,
    };
    let first = OwnRound {
        start: 0,
        slots: ListOf::from_vec(Vec::new(alloc)),
    };
    let slot = OwnSlot {
        slot: 1,
        message: 0,
        release: 0,
        copy: 1,
    };
    let second = OwnRound {
        start: 23,
        slots: ListOf::from_vec(vec![in alloc; slot]?),
    };
    let mode = ModeTable {
        hyper: 100,
        first_round: 1,
        tasks: ListOf::from_vec(vec![in alloc; task]?),
        messages: ListOf::from_vec(vec![in alloc; message]?),
        rounds: ListOf::from_vec(vec![in alloc; first, second]?),
    };
    let idle = idle_mode(alloc)?;
    Ok(NodeTable {
        node: 1,
        modes: ListOf::from_vec(vec![in alloc; mode, idle]?),
    })
}

/// The slots of a round: one, for this message and release.
fn slot_of(alloc: Global, message: u32, release: i64) -> Result<ListOf<OwnSlot>, AllocError>
    ensures { IfOk result (λ list. list
        ≡ record { slot = 1; message = message; release = release; copy = 1 } ∷ []) }
{
    let slot = OwnSlot {
        slot: 1,
        message,
        release,
        copy: 1,
    };
    Ok(ListOf::from_vec(vec![in alloc; slot]?))
}

/// The table of the node of `ctrl`.
fn control_table(alloc: Global) -> Result<NodeTable, AllocError>
    ensures { IfOk result (λ t. t ≡ control_table) }
{
    let task = OwnTask {
        number: 1,
        period: 100,
        offset: 43,
        wcet: 5,
    };
    let taken = OwnMessage {
        number: 0,
        role: 2,
        producers: numbers(alloc, &[0])?,
        consumers: numbers(alloc, &[1])?,
    };
    let sent = OwnMessage {
        number: 1,
        role: 1,
        producers: numbers(alloc, &[1])?,
        consumers: numbers(alloc, &[])?,
    };
    let first = OwnRound {
        start: 0,
        slots: slot_of(alloc, 1, -100)?,
    };
    let second = OwnRound {
        start: 23,
        slots: slot_of(alloc, 0, 0)?,
    };
    let mode = ModeTable {
        hyper: 100,
        first_round: 1,
        tasks: ListOf::from_vec(vec![in alloc; task]?),
        messages: ListOf::from_vec(vec![in alloc; taken, sent]?),
        rounds: ListOf::from_vec(vec![in alloc; first, second]?),
    };
    let idle = idle_mode(alloc)?;
    Ok(NodeTable {
        node: 0,
        modes: ListOf::from_vec(vec![in alloc; mode, idle]?),
    })
}

/// A beacon of the loop's mode.
fn beacon(round: u16, opening: bool) -> Beacon
    ensures { result ≡ record { round = round; mode = 0; trigger = false; opening = opening } }
{
    Beacon {
        round,
        mode: 0,
        trigger: false,
        opening,
    }
}

/// The node of `sense` in the second round.
fn sense_in_second_round(alloc: Global, mode: u8) -> Result<Synced, AllocError>
    ensures { IfOk result (λ n. n ≡ first_heard sense_table (record { round = 2; mode = mode; trigger = false; opening = false })) }
{
    let node = Listening::make(alloc, sense_table(alloc)?)?;
    Ok(node.hear(Beacon {
        round: 2,
        mode,
        trigger: false,
        opening: false,
    }))
}

#[test]
fn misses(rt: HostRuntime) -> Result<(), Fail> {
    assert_eq!(rt; encode(beacon(2, false)), [0, 2, 0, 0]);
    let mut node = sense_in_second_round(rt.alloc(), 0)?;
    let mut body = Tally::make(rt.alloc())?;
    node.pass(77);
    match node.miss() {
        Missed::Coasted(mut coasting) => {
            coasting.pass(21);
            assert_eq!(rt;
                coasting
                    .start(0, &mut body)
                    .map(|inputs| inputs.as_slice().len()),
                Some(0)
            );
            coasting.pass(2);
            assert_eq!(rt; coasting.end(0), Some(1));
            let listening = coasting.miss();
            let again = listening.hear(beacon(2, false));
            assert!(rt; again.slot(1).is_none());
        }
        Missed::StoodDown(_) => assert!(rt; false, "it coasts"),
    }
    Ok(())
}

#[test]
fn misses_after_an_announced_change(rt: HostRuntime) -> Result<(), Fail> {
    let warning = Beacon {
        mode: 1,
        ..beacon(2, false)
    };
    assert_eq!(rt; encode(warning), [0, 2, 1, 0]);
    let mut node = sense_in_second_round(rt.alloc(), 1)?;
    node.pass(77);
    match node.miss() {
        Missed::Coasted(_) => assert!(rt; false, "it stands down"),
        Missed::StoodDown(listening) => {
            let again = listening.restart().hear(beacon(1, true));
            assert!(rt; again.slot(1).is_none());
        }
    }
    Ok(())
}

/// The node of `ctrl` in the second round of an opening hyperperiod.
fn control_in_second_round(alloc: Global) -> Result<Synced, AllocError>
    ensures { IfOk result (λ n. n ≡ control_second) }
{
    let node = Listening::make(alloc, control_table(alloc)?)?;
    let mut first = node.hear(beacon(1, true));
    first.pass(23);
    Ok(first.hear(beacon(2, true)))
}

/// The node of `ctrl` at the end of its run in that hyperperiod.
fn control_after_run(alloc: Global) -> Result<Synced, AllocError>
    ensures { IfOk result (λ n. n ≡ control_ended) }
{
    let mut node = control_in_second_round(alloc)?;
    let mut body = Tally::make(alloc)?;
    node.pass(20);
    let _inputs = node.start(1, &mut body);
    node.pass(5);
    let _value = node.end(1);
    Ok(node)
}

/// The values of a packet, if it is of this message.
fn values_of(packet: &Option<Packet>, message: u32) -> Option<&[i64]> {
    match packet {
        Some(packet) if packet.message == message => Some(packet.values.as_slice()),
        _ => None,
    }
}

#[test]
fn beacon_of_another_mode_empties(rt: HostRuntime) -> Result<(), Fail> {
    let node = control_after_run(rt.alloc())?;
    let node = node.hear(beacon(1, false));
    assert_eq!(rt; values_of(&node.slot(1), 1), Some([1].as_slice()));
    let node = node.hear(Beacon {
        round: 3,
        mode: 1,
        trigger: false,
        opening: true,
    });
    let node = node.hear(beacon(1, false));
    assert!(rt; node.slot(1).is_none());
    Ok(())
}

#[test]
fn earlier_slot_of_opening_hyperperiod(rt: HostRuntime) -> Result<(), Fail> {
    let node = control_after_run(rt.alloc())?;
    let node = node.hear(beacon(1, true));
    assert!(rt; node.slot(1).is_none());
    let node = node.hear(beacon(1, false));
    assert!(rt; node.slot(1).is_some());
    assert!(rt; node.slot(2).is_none());
    let listening = node.restart();
    let node = listening.hear(beacon(1, false));
    assert!(rt; node.slot(1).is_none());
    Ok(())
}

#[test]
fn packet_is_input(rt: HostRuntime) -> Result<(), Fail> {
    let node = Listening::make(rt.alloc(), control_table(rt.alloc())?)?;
    let mut body = Tally::make(rt.alloc())?;
    let mut node = node.hear(beacon(2, false));
    let mut values = Values::new();
    values.push(7);
    let packet = Packet { message: 0, values };
    assert!(rt; node.receive(1, &packet));
    node.pass(20);
    let inputs = node.start(1, &mut body);
    assert_eq!(rt;
        inputs.map(|inputs| inputs.as_slice() == [Some(7)].as_slice()),
        Some(true)
    );
    node.pass(5);
    assert_eq!(rt; node.end(0), None);
    assert_eq!(rt; node.end(1), Some(8));
    assert_eq!(rt; node.end(1), None);
    Ok(())
}

/// What the calls below answer.
#[derive(Clone, Copy, Debug, PartialEq, Eq)]
struct NoCall;

/// Stands in for the calls that only a Synced node has. A method of a type's own comes before one of a trait,
/// so the test below compiles only while the two types have no such methods.
trait Silent {
    fn slot(&self, _slot: u8) -> NoCall {
        NoCall
    }

    fn receive(&mut self, _slot: u8, _packet: &Packet) -> NoCall
        ensures { self.new ≡ self.old }
    {
        NoCall
    }
}

impl Silent for Listening {}

impl Silent for Coasting {}

#[test]
fn only_a_synced_node_sends_and_takes(rt: HostRuntime) -> Result<(), Fail> {
    let packet = Packet {
        message: 0,
        values: Values::new(),
    };
    let mut listening = Listening::make(rt.alloc(), sense_table(rt.alloc())?)?;
    let answers: (NoCall, NoCall) = (listening.slot(1), listening.receive(1, &packet));
    assert_eq!(rt; answers, (NoCall, NoCall));
    let mut node = listening.hear(beacon(2, false));
    node.pass(77);
    if let Missed::Coasted(mut coasting) = node.miss() {
        let answers: (NoCall, NoCall) = (coasting.slot(1), coasting.receive(1, &packet));
        assert_eq!(rt; answers, (NoCall, NoCall));
    }
    Ok(())
}
