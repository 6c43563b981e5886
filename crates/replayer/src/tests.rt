//! Lines of a worked trace.

ghost use Rattle.std.specs.Prelude.{◌≡◌, ◌+◌, ◌<◌, List};
ghost use Rattle.world_core.specs.declared.happened.Happened.{Happened};
ghost use Rattle.replayer.specs.Counting.{HasRoom, counts_of};

use crate::tracer::Tracer;
use app_graph::{App, ListOf, Message, Mode, ModeSet, Name, Task};
use beacon_codec::Beacon;
use node_core::Inputs;
use std::alloc::{AllocError, Global};
use std::test::Fail;
use ttw_io::{Failed, MemSink};
use world_core::Done;

fn named(alloc: Global, names: &[&str]) -> Result<ListOf<Name>, AllocError> {
    let mut list = Vec::new(alloc);
    for name in names {
        list.push(Name::copied(alloc, name.as_bytes())?)?;
    }
    Ok(ListOf::from_vec(list))
}

fn task(alloc: Global, name: &str, node: u32, number: u32) -> Result<Task, AllocError> {
    Ok(Task {
        name: Name::copied(alloc, name.as_bytes())?,
        node,
        wcet: 1,
        body: Name::copied(alloc, b"count")?,
        number,
    })
}

fn message(alloc: Global, name: &str, number: u32) -> Result<Message, AllocError> {
    Ok(Message {
        name: Name::copied(alloc, name.as_bytes())?,
        from: ListOf::from_vec(Vec::new(alloc)),
        to: ListOf::from_vec(Vec::new(alloc)),
        number,
        copies: 1,
    })
}

/// A sensor, a controller and an actuator, each on its node.
fn control_loop(alloc: Global) -> Result<ModeSet, AllocError> {
    let mut tasks = Vec::new(alloc);
    tasks.push(task(alloc, "sense", 1, 0)?)?;
    tasks.push(task(alloc, "ctrl", 0, 1)?)?;
    tasks.push(task(alloc, "act", 2, 2)?)?;
    let mut messages = Vec::new(alloc);
    messages.push(message(alloc, "m1", 0)?)?;
    messages.push(message(alloc, "m2", 1)?)?;
    let mut apps = Vec::new(alloc);
    apps.push(App {
        name: Name::copied(alloc, b"loop")?,
        period: 100,
        deadline: 100,
        tasks: ListOf::from_vec(tasks),
        messages: ListOf::from_vec(messages),
    })?;
    let mut modes = Vec::new(alloc);
    modes.push(Mode {
        name: Name::copied(alloc, b"run")?,
        apps: ListOf::from_vec(apps),
    })?;
    Ok(ModeSet {
        slots: 1,
        round: 20,
        gap: 100,
        host: 0,
        nodes: named(alloc, &["n0", "n1", "n2"])?,
        modes: ListOf::from_vec(modes),
    })
}

/// A beacon of the opening hyperperiod.
fn opening(round: u16) -> Beacon {
    Beacon {
        round,
        mode: 0,
        trigger: false,
        opening: true,
    }
}

/// Tells one thing more to a tracer to which few were told.
fn tell(tracer: &mut Tracer<'_>, done: &Done, out: &mut MemSink) -> Result<(), Failed>
    requires few { tracer.old.counts.events < 100 }
    requires room { HasRoom tracer.old.counts }
    requires counted { (hs : List Happened) × (tracer.old.counts ≡ counts_of hs) }

    ensures events { tracer.new.counts.events ≡ tracer.old.counts.events + 1 }
    ensures room { HasRoom tracer.new.counts }
    ensures counted { (hs : List Happened) × (tracer.new.counts ≡ counts_of hs) }
{
    tracer.tell(done, &Inputs::new(), out)
}

#[test]
fn lines_of_a_worked_trace(rt: HostRuntime) -> Result<(), Fail> {
    let set = control_loop(rt.alloc())?;
    let mut tracer = Tracer::make(rt.alloc(), &set)?;
    let mut out = MemSink::make(rt.alloc(), 400, 7, Vec::new(rt.alloc()))?;
    tell(
        &mut tracer,
        &Done::Beacon {
            at: 0,
            beacon: opening(1),
            heard: 7,
        },
        &mut out,
    )?;
    tell(&mut tracer, &Done::Silent { at: 0, message: 1 }, &mut out)?;
    tell(
        &mut tracer,
        &Done::Off {
            at: 20,
            node: 2,
            task: 2,
        },
        &mut out,
    )?;
    tell(
        &mut tracer,
        &Done::Void {
            at: 21,
            node: 2,
            task: 2,
        },
        &mut out,
    )?;
    tell(
        &mut tracer,
        &Done::Ended {
            at: 23,
            node: 1,
            task: 0,
            value: 1,
        },
        &mut out,
    )?;
    tell(
        &mut tracer,
        &Done::Beacon {
            at: 23,
            beacon: opening(2),
            heard: 5,
        },
        &mut out,
    )?;
    tell(&mut tracer, &Done::Silent { at: 23, message: 0 }, &mut out)?;
    tell(
        &mut tracer,
        &Done::Ended {
            at: 48,
            node: 0,
            task: 1,
            value: -3,
        },
        &mut out,
    )?;
    tell(&mut tracer, &Done::Requested { at: 48, mode: 0 }, &mut out)?;
    tell(&mut tracer, &Done::Restarted { at: 48, node: 2 }, &mut out)?;
    tracer.done(&mut out)?;
    assert_eq!(rt;
        out.bytes(),
        b"0 beacon 1 run 2 heard n0 n1 n2
0 silent m2
20 off n2 act
21 void n2 act
23 end n1 sense 1
23 beacon 2 run 2 heard n0 n2
23 silent m1
48 end n0 ctrl -3
48 request run
48 restart n2
done 10
"
            .as_slice()
    );
    Ok(())
}
