//! The images of the nodes of a small system, made from its plans.

ghost use Rattle.std.specs.Prelude.{◌≡◌, ◌<◌, ◌∷◌, [], IfOk, IsTrue, codes, length};
ghost use Rattle.app_graph.specs.Validation.{KeepsRules};
ghost use Rattle.runtime_model.specs.Plans.{AreSchedules};
ghost use Rattle.node_tables.specs.TestPlans.{double_mode, double_schedule, idle_mode, idle_schedule, loop_mode, loop_schedule, loop_with, set_with};

use crate::{tables_of, write_image};
use app_graph::{App, ListOf, Message, Mode, ModeSet, Name, Task};
use sched_model::{Schedule, verify};
use std::alloc::{AllocError, Global};
use std::test::Fail;
use tick_num::Time;
use ttw_text::Out;

fn name(alloc: Global, text: &str) -> Result<Name, AllocError>
    ensures { IfOk result (λ n. n ≡ text.now) }
{
    Name::copied(alloc, text.as_bytes())
}

/// An empty list.
fn none<T: Drop>(alloc: Global) -> ListOf<T>
    ensures { result ≡ [] }
{
    ListOf::from_vec(Vec::new(alloc))
}

/// A list of one.
fn one<T: Drop>(alloc: Global, item: T) -> Result<ListOf<T>, AllocError>
    ensures { IfOk result (λ list. list ≡ item ∷ []) }
{
    let mut items = Vec::new(alloc);
    items.push(item)?;
    Ok(ListOf::from_vec(items))
}

/// A list of two.
fn two<T: Drop>(alloc: Global, first: T, second: T) -> Result<ListOf<T>, AllocError>
    ensures { IfOk result (λ list. list ≡ first ∷ second ∷ []) }
{
    let mut items = Vec::new(alloc);
    items.push(first)?;
    items.push(second)?;
    Ok(ListOf::from_vec(items))
}

/// A list of three.
fn three<T: Drop>(alloc: Global, first: T, second: T, third: T) -> Result<ListOf<T>, AllocError>
    ensures { IfOk result (λ list. list ≡ first ∷ second ∷ third ∷ []) }
{
    let mut items = Vec::new(alloc);
    items.push(first)?;
    items.push(second)?;
    items.push(third)?;
    Ok(ListOf::from_vec(items))
}

fn task(alloc: Global, text: &str, node: u32, wcet: Time, number: u32) -> Result<Task, AllocError>
    ensures { IfOk result (λ t. t ≡ record { name = text.now; node = node; wcet = wcet; body = codes "tally"; number = number }) }
{
    Ok(Task {
        name: name(alloc, text)?,
        node,
        wcet,
        body: name(alloc, "tally")?,
        number,
    })
}

/// A message from one task to one.
fn message(
    alloc: Global,
    text: &str,
    from: u32,
    to: u32,
    number: u32,
    copies: u32,
) -> Result<Message, AllocError>
    ensures { IfOk result (λ m. m ≡ record { name = text.now; from = from ∷ []; to = to ∷ []; number = number; copies = copies }) }
{
    Ok(Message {
        name: name(alloc, text)?,
        from: one(alloc, from)?,
        to: one(alloc, to)?,
        number,
        copies,
    })
}

/// The control loop, whose first message has so many copies.
fn loop_with(alloc: Global, copies: u32) -> Result<Mode, AllocError>
    ensures { IfOk result (λ m. m ≡ loop_with copies) }
{
    let sense = task(alloc, "sense", 1, 2, 0)?;
    let ctrl = task(alloc, "ctrl", 0, 5, 1)?;
    let act = task(alloc, "act", 2, 1, 2)?;
    let first = message(alloc, "m1", 0, 1, 0, copies)?;
    let second = message(alloc, "m2", 1, 2, 1, 1)?;
    let app = App {
        name: name(alloc, "loop")?,
        period: 100,
        deadline: 100,
        tasks: three(alloc, sense, ctrl, act)?,
        messages: two(alloc, first, second)?,
    };
    Ok(Mode {
        name: name(alloc, "run")?,
        apps: one(alloc, app)?,
    })
}

fn idle_mode(alloc: Global) -> Result<Mode, AllocError>
    ensures { IfOk result (λ m. m ≡ idle_mode) }
{
    let led = task(alloc, "led", 2, 1, 3)?;
    let app = App {
        name: name(alloc, "blink")?,
        period: 100,
        deadline: 100,
        tasks: one(alloc, led)?,
        messages: none(alloc),
    };
    Ok(Mode {
        name: name(alloc, "idle")?,
        apps: one(alloc, app)?,
    })
}

/// Three nodes with these modes.
fn set_with(alloc: Global, modes: ListOf<Mode>) -> Result<ModeSet, AllocError>
    ensures { IfOk result (λ set. set ≡ set_with modes) }
{
    let nodes = three(
        alloc,
        name(alloc, "n0")?,
        name(alloc, "n1")?,
        name(alloc, "n2")?,
    )?;
    Ok(ModeSet {
        slots: 2,
        round: 20,
        gap: 100,
        host: 0,
        nodes,
        modes,
    })
}

fn loop_schedule(alloc: Global) -> Result<Schedule, AllocError>
    ensures { IfOk result (λ s. s ≡ loop_schedule) }
{
    let first = one(alloc, 1)?;
    let second = one(alloc, 0)?;
    Ok(Schedule {
        starts: two(alloc, 0, 23)?,
        tasks: three(alloc, 21, 43, 120)?,
        messages: two(alloc, (23, 43), (48, 120))?,
        tables: two(alloc, first, second)?,
    })
}

fn double_schedule(alloc: Global) -> Result<Schedule, AllocError>
    ensures { IfOk result (λ s. s ≡ double_schedule) }
{
    let first = one(alloc, 1)?;
    let second = one(alloc, 0)?;
    let third = one(alloc, 0)?;
    Ok(Schedule {
        starts: three(alloc, 0, 23, 43)?,
        tasks: three(alloc, 21, 63, 120)?,
        messages: two(alloc, (23, 63), (68, 120))?,
        tables: three(alloc, first, second, third)?,
    })
}

fn idle_schedule(alloc: Global) -> Result<Schedule, AllocError>
    ensures { IfOk result (λ s. s ≡ idle_schedule) }
{
    Ok(Schedule {
        starts: one(alloc, 0)?,
        tasks: one(alloc, 0)?,
        messages: none(alloc),
        tables: one(alloc, none(alloc))?,
    })
}

/// Whether the node's image is this one.
fn has_image(
    alloc: Global,
    set: &ModeSet,
    plans: &[Schedule],
    node: u32,
    image: &[u8],
) -> Result<bool, AllocError>
    requires rules { KeepsRules set.now }
    requires schedules { AreSchedules set.now plans.now }
    requires node { node < length set.now.nodes }
{
    let table = tables_of(alloc, set, plans, node)?;
    let mut out = Out::make(alloc);
    write_image(alloc, &table, &mut out)?;
    Ok(out.bytes() == image)
}

/// Whether the loop's schedule is right.
fn is_loop_right(set: &ModeSet, plans: &[Schedule]) -> bool
    requires set { set.now ≡ set_with (loop_mode ∷ []) }
    requires plans { plans.now ≡ loop_schedule ∷ [] }
    ensures rules { KeepsRules set.now }
    ensures right { IsTrue result → AreSchedules set.now plans.now }
{
    verify(set, 0, &plans[0]).is_ok()
}

/// Whether the images of the loop's three nodes are these.
fn has_loop_images(alloc: Global, images: [&[u8]; 3]) -> Result<bool, AllocError> {
    let set = set_with(alloc, one(alloc, loop_with(alloc, 1)?)?)?;
    let plans = [loop_schedule(alloc)?];
    if !is_loop_right(&set, &plans) {
        return Ok(false);
    }
    let [first, second, third] = images;
    let controller = has_image(alloc, &set, &plans, 0, first)?;
    let sensor = has_image(alloc, &set, &plans, 1, second)?;
    let actuator = has_image(alloc, &set, &plans, 2, third)?;
    Ok(controller && sensor && actuator)
}

/// Whether the schedule of the loop with two copies is right.
fn is_double_right(set: &ModeSet, plans: &[Schedule]) -> bool
    requires set { set.now ≡ set_with (double_mode ∷ []) }
    requires plans { plans.now ≡ double_schedule ∷ [] }
    ensures rules { KeepsRules set.now }
    ensures right { IsTrue result → AreSchedules set.now plans.now }
{
    verify(set, 0, &plans[0]).is_ok()
}

/// Whether this is node 0's image of the loop with two copies.
fn has_double_image(alloc: Global, image: &[u8]) -> Result<bool, AllocError> {
    let set = set_with(alloc, one(alloc, loop_with(alloc, 2)?)?)?;
    let plans = [double_schedule(alloc)?];
    if !is_double_right(&set, &plans) {
        return Ok(false);
    }
    has_image(alloc, &set, &plans, 0, image)
}

/// Whether the schedules of the loop and of the idle mode are right.
fn are_both_right(set: &ModeSet, plans: &[Schedule]) -> bool
    requires set { set.now ≡ set_with (loop_mode ∷ idle_mode ∷ []) }
    requires plans { plans.now ≡ loop_schedule ∷ idle_schedule ∷ [] }
    ensures rules { KeepsRules set.now }
    ensures right { IsTrue result → AreSchedules set.now plans.now }
{
    if verify(set, 0, &plans[0]).is_err() {
        return false;
    }
    verify(set, 1, &plans[1]).is_ok()
}

/// Whether this is node 1's image of the loop and the idle mode.
fn has_two_modes_image(alloc: Global, image: &[u8]) -> Result<bool, AllocError> {
    let set = set_with(alloc, two(alloc, loop_with(alloc, 1)?, idle_mode(alloc)?)?)?;
    let plans = [loop_schedule(alloc)?, idle_schedule(alloc)?];
    if !are_both_right(&set, &plans) {
        return Ok(false);
    }
    has_image(alloc, &set, &plans, 1, image)
}

/// Node 0 takes `m1`, and sends `m2` in the window of the hyperperiod before.
const CONTROLLER: [u8; 103] = [
    2, 0, 1, // version, node, modes
    0, 0, 0, 0, 0, 0, 0, 100, 0, 1, 0, 2, // hyperperiod, first round, rounds
    0, 1, 0, 1, // tasks, number
    0, 0, 0, 0, 0, 0, 0, 100, // period
    0, 0, 0, 0, 0, 0, 0, 43, // offset
    0, 0, 0, 0, 0, 0, 0, 5, // wcet
    0, 2, 0, 0, 2, 1, 0, 0, 1, 0, 1, // messages, number, role, producers, consumers
    0, 1, 1, 1, 0, 1, 0, // number, role, producers, consumers
    0, 0, 0, 0, 0, 0, 0, 0, 1, // start, slots
    1, 0, 1, // slot, message
    255, 255, 255, 255, 255, 255, 255, 156, 1, // release, copy
    0, 0, 0, 0, 0, 0, 0, 23, 1, // start, slots
    1, 0, 0, // slot, message
    0, 0, 0, 0, 0, 0, 0, 0, 1, // release, copy
];

/// Node 1 sends `m1`.
const SENSOR: [u8; 82] = [
    2, 1, 1, // version, node, modes
    0, 0, 0, 0, 0, 0, 0, 100, 0, 1, 0, 2, // hyperperiod, first round, rounds
    0, 1, 0, 0, // tasks, number
    0, 0, 0, 0, 0, 0, 0, 100, // period
    0, 0, 0, 0, 0, 0, 0, 21, // offset
    0, 0, 0, 0, 0, 0, 0, 2, // wcet
    0, 1, 0, 0, 1, 1, 0, 0, 0, // messages, number, role, producers, consumers
    0, 0, 0, 0, 0, 0, 0, 0, 0, // start, slots
    0, 0, 0, 0, 0, 0, 0, 23, 1, // start, slots
    1, 0, 0, // slot, message
    0, 0, 0, 0, 0, 0, 0, 0, 1, // release, copy
];

/// Node 2 takes `m2`.
const ACTUATOR: [u8; 84] = [
    2, 2, 1, // version, node, modes
    0, 0, 0, 0, 0, 0, 0, 100, 0, 1, 0, 2, // hyperperiod, first round, rounds
    0, 1, 0, 2, // tasks, number
    0, 0, 0, 0, 0, 0, 0, 100, // period
    0, 0, 0, 0, 0, 0, 0, 120, // offset
    0, 0, 0, 0, 0, 0, 0, 1, // wcet
    0, 1, 0, 1, 2, 1, 0, 1, 1, 0, 2, // messages, number, role, producers, consumers
    0, 0, 0, 0, 0, 0, 0, 0, 1, // start, slots
    1, 0, 1, // slot, message
    255, 255, 255, 255, 255, 255, 255, 156, 1, // release, copy
    0, 0, 0, 0, 0, 0, 0, 23, 0, // start, slots
];

/// With two copies of `m1`, node 0 takes them in two rounds.
const DOUBLE: [u8; 124] = [
    2, 0, 1, // version, node, modes
    0, 0, 0, 0, 0, 0, 0, 100, 0, 1, 0, 3, // hyperperiod, first round, rounds
    0, 1, 0, 1, // tasks, number
    0, 0, 0, 0, 0, 0, 0, 100, // period
    0, 0, 0, 0, 0, 0, 0, 63, // offset
    0, 0, 0, 0, 0, 0, 0, 5, // wcet
    0, 2, 0, 0, 2, 1, 0, 0, 1, 0, 1, // messages, number, role, producers, consumers
    0, 1, 1, 1, 0, 1, 0, // number, role, producers, consumers
    0, 0, 0, 0, 0, 0, 0, 0, 1, // start, slots
    1, 0, 1, // slot, message
    255, 255, 255, 255, 255, 255, 255, 156, 1, // release, copy
    0, 0, 0, 0, 0, 0, 0, 23, 1, // start, slots
    1, 0, 0, // slot, message
    0, 0, 0, 0, 0, 0, 0, 0, 1, // release, copy
    0, 0, 0, 0, 0, 0, 0, 43, 1, // start, slots
    1, 0, 0, // slot, message
    0, 0, 0, 0, 0, 0, 0, 0, 2, // release, copy
];

/// What node 1 keeps of the idle mode: nothing but its one round, the third of the file.
const IDLE: [u8; 25] = [
    0, 0, 0, 0, 0, 0, 0, 100, 0, 3, 0, 1, // hyperperiod, first round, rounds
    0, 0, 0, 0, // tasks, messages
    0, 0, 0, 0, 0, 0, 0, 0, 0, // start, slots
];

#[test]
fn part_images(rt: HostRuntime) -> Result<(), Fail> {
    let images = [
        CONTROLLER.as_slice(),
        SENSOR.as_slice(),
        ACTUATOR.as_slice(),
    ];
    assert!(rt; has_loop_images(rt.alloc(), images)?);
    Ok(())
}

#[test]
fn part_of_two_copies(rt: HostRuntime) -> Result<(), Fail> {
    assert!(rt; has_double_image(rt.alloc(), &DOUBLE)?);
    Ok(())
}

#[test]
fn part_of_two_modes(rt: HostRuntime) -> Result<(), Fail> {
    let mut image = Vec::from_slice(rt.alloc(), &SENSOR)?;
    image[2] = 2;
    image.extend_from_slice(&IDLE)?;
    assert!(rt; has_two_modes_image(rt.alloc(), image.as_slice())?);
    Ok(())
}
