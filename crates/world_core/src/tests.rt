//! Traces of small systems, event by event.

ghost use Rattle.std.specs.Prelude.{◌≡◌, IfOk, IsTrue, Some, length, map};
ghost use Rattle.app_graph.specs.Validation.{KeepsRules};
ghost use Rattle.runtime_model.specs.Plans.{AreSchedules};
ghost use Rattle.world_core.specs.TestWorlds.{IsOfSet, MayHappenIn};

use crate::{Event, Happened, World, missing_body};
use app_graph::{ListOf, ModeSet, Name};
use cert_checker::check;
use mode_file::read_modes;
use sched_model::Schedule;
use std::alloc::{AllocError, Global};
use std::test::Fail;
use task_body::{Hold, Tally, TaskBody};

/// A body that always answers the same number.
#[derive(Drop)]
struct Always {
    name: Name,
    value: i64,
}

impl TaskBody for Always {
    ghost use Rattle.std.specs.Prelude.{[]};

    ghost seen = { λ body. record {
      name = body.name;
      numbers = [];
      answer = λ numbers task inputs. body.value;
      after_fire = λ numbers task inputs. numbers;
    } };

    fn name_is(&self, text: &str) -> bool {
        text.as_bytes() == self.name.as_bytes()
    }

    fn fire(&mut self, _task: u32, _inputs: &[Option<i64>]) -> i64 {
        self.value
    }

    fn reset(&mut self, _task: u32) {}
}

/// A body that a test hands in.
#[derive(Clone, Copy, Drop)]
enum Kind<'a> {
    Tally,
    Hold,
    /// It has this name, and always answers this number.
    Always(&'a str, i64),
}

/// The bodies of a list.
const TALLY: [Kind<'static>; 1] = [Kind::Tally];

/// The control loop of three nodes, where `sense` and `act` have these bodies.
fn loop_with(alloc: Global, sense: &str, act: &str) -> Result<String, AllocError> {
    format!(in alloc;
        "
slots = 2
round = 20
gap = 100
host = 'n0'
nodes = ['n0', 'n1', 'n2']
[[mode]]
name = 'run'
[[mode.app]]
name = 'loop'
period = 100
deadline = 100
[[mode.app.task]]
name = 'sense'
node = 'n1'
wcet = 2
body = '{sense}'
[[mode.app.task]]
name = 'ctrl'
node = 'n0'
wcet = 5
[[mode.app.task]]
name = 'act'
node = 'n2'
wcet = 1
body = '{act}'
[[mode.app.message]]
name = 'm1'
from = ['sense']
to = ['ctrl']
[[mode.app.message]]
name = 'm2'
from = ['ctrl']
to = ['act']
"
    )
}

/// A plan of the loop, without its end.
const LOOP_PLAN: &str = "ttw 1
mode run
refute 1
branch
cycle 17 2 6
branch
cycle 19 4 11
cycle 19 18 9 11
cycle 20 14 16 3
cycle 18 7 3
schedule 2
start 0 23
task sense 21
task ctrl 43
task act 120
message m1 23 43
message m2 48 120
table 1 m2
table 2 m1
";

/// A second mode, of one task on the third node.
const IDLE: &str = "
[[mode]]
name = 'idle'
[[mode.app]]
name = 'lamp'
period = 100
deadline = 100
[[mode.app.task]]
name = 'blink'
node = 'n2'
wcet = 1
";

const IDLE_PLAN: &str = "mode idle
schedule 1
start 0
task blink 0
table 1
";

/// Two modes of one task, both on the second node.
const PAIR: &str = "
slots = 1
round = 20
gap = 100
host = 'n0'
nodes = ['n0', 'n2']
[[mode]]
name = 'a'
[[mode.app]]
name = 'first'
period = 100
deadline = 100
[[mode.app.task]]
name = 'x'
node = 'n2'
wcet = 1
[[mode]]
name = 'b'
[[mode.app]]
name = 'second'
period = 100
deadline = 100
[[mode.app.task]]
name = 'y'
node = 'n2'
wcet = 1
";

const PAIR_PLAN: &str = "ttw 1
mode a
schedule 1
start 0
task x 0
table 1
mode b
schedule 1
start 0
task y 0
table 1
end
";

/// The nodes in a set of bits, from the first on.
fn nodes_of(alloc: Global, bits: u64) -> Result<String, AllocError> {
    let mut text = String::new(alloc);
    for node in 0..64_u32 {
        if bits >> node & 1 == 1 {
            text.push_str(format!(in alloc; " n{node}")?.as_str())?;
        }
    }
    Ok(text)
}

/// Values in order, with a blank before each.
fn values_of(alloc: Global, values: &[i64]) -> Result<String, AllocError> {
    let mut text = String::new(alloc);
    for value in values {
        text.push_str(format!(in alloc; " {value}")?.as_str())?;
    }
    Ok(text)
}

/// Inputs in order, with a blank before each; `-` is an absent one.
fn inputs_of(alloc: Global, inputs: &[Option<i64>]) -> Result<String, AllocError> {
    let mut text = String::new(alloc);
    for input in inputs {
        match input {
            Some(value) => text.push_str(format!(in alloc; " {value}")?.as_str())?,
            None => text.push_str(" -")?,
        }
    }
    Ok(text)
}

/// What happened as a line of a trace, in which modes, tasks and messages go by their numbers.
fn line(alloc: Global, happened: &Happened) -> Result<String, AllocError> {
    match happened {
        Happened::Beacon { at, beacon, heard } => {
            let flags = beacon.trigger as u8 + 2 * beacon.opening as u8;
            let nodes = nodes_of(alloc, *heard)?;
            format!(in alloc;
                "{at} beacon {} {} {flags} heard{nodes}\n",
                beacon.round, beacon.mode
            )
        }
        Happened::Sent {
            at,
            node,
            packet,
            taken,
        } => {
            let values = values_of(alloc, packet.values.as_slice())?;
            let nodes = nodes_of(alloc, *taken)?;
            format!(in alloc;
                "{at} send n{node} {}{values} taken{nodes}\n",
                packet.message
            )
        }
        Happened::Silent { at, message } => format!(in alloc; "{at} silent {message}\n"),
        Happened::Started {
            at,
            node,
            task,
            inputs,
        } => {
            let inputs = inputs_of(alloc, inputs.as_slice())?;
            format!(in alloc; "{at} start n{node} {task}{inputs}\n")
        }
        Happened::Off { at, node, task } => format!(in alloc; "{at} off n{node} {task}\n"),
        Happened::Ended {
            at,
            node,
            task,
            value,
        } => format!(in alloc; "{at} end n{node} {task} {value}\n"),
        Happened::Void { at, node, task } => format!(in alloc; "{at} void n{node} {task}\n"),
        Happened::Requested { at, mode } => format!(in alloc; "{at} request {mode}\n"),
        Happened::Restarted { at, node } => format!(in alloc; "{at} restart n{node}\n"),
    }
}

/// The schedules of a plan that has one for each mode.
fn all_schedules(alloc: Global, plans: ListOf<Option<Schedule>>) -> Result<Vec<Schedule>, Fail>
    ensures { IfOk result (λ s. plans ≡ map Some s.items) }
{
    let mut schedules = Vec::new(alloc);
    for plan in plans.into_vec() {
        match plan {
            Some(schedule) => schedules.push(schedule)?,
            None => return Err(Fail::new("a mode has no schedule")),
        }
    }
    Ok(schedules)
}

/// The schedules of an accepted plan.
#[tactic(auto, using(crate::proofs::TestWorldLemmas::schedules_right))]
fn schedules(alloc: Global, set: &ModeSet, plan: &str) -> Result<Vec<Schedule>, Fail>
    requires { KeepsRules set.now }
    ensures { IfOk result (λ s. AreSchedules set.now s.items) }
{
    let accepted = check(alloc, set, plan.as_bytes())?;
    all_schedules(alloc, accepted.modes)
}

/// Whether the event may happen in a world of the set.
fn may_happen(set: &ModeSet, event: Event) -> bool
    ensures { IsTrue result → MayHappenIn set.now event }
{
    match event {
        Event::Advance(_) => true,
        Event::Request(mode) => (mode as usize) < set.modes.as_slice().len(),
        Event::Restart(node) => {
            if node == set.host {
                return false;
            }
            (node as usize) < set.nodes.as_slice().len()
        }
    }
}

/// A tick past which no test goes.
const LATE: i64 = 1_000_000;

/// Performs an event.
fn step(
    set: &ModeSet,
    world: &mut World,
    event: Event,
    bodies: &mut Vec<Box<dyn TaskBody>>,
) -> Result<Happened, Fail>
    requires { IsOfSet set.now (length bodies.old.items) world.old }
    ensures { IsOfSet set.now (length bodies.new.items) world.new }
{
    if world.now() > LATE || !may_happen(set, event) {
        return Err(Fail::new("the event can't happen"));
    }
    Ok(world.step(event, bodies))
}

/// The world before its first event.
fn make(
    alloc: Global,
    set: &ModeSet,
    plans: &[Schedule],
    bodies: &Vec<Box<dyn TaskBody>>,
) -> Result<World, Fail>
    requires rules { KeepsRules set.now }
    requires schedules { AreSchedules set.now plans.now }
    ensures { IfOk result (IsOfSet set.now (length bodies.now.items)) }
{
    match missing_body(set, bodies) {
        None => Ok(World::make(alloc, set, plans, bodies)?),
        Some(task) => Err(Fail::new(task)),
    }
}

/// The trace of the events.
fn play(
    alloc: Global,
    set: &ModeSet,
    plans: &[Schedule],
    bodies: &mut Vec<Box<dyn TaskBody>>,
    events: &[Event],
) -> Result<String, Fail>
    requires rules { KeepsRules set.now }
    requires schedules { AreSchedules set.now plans.now }
{
    let mut world = make(alloc, set, plans, bodies)?;
    let mut text = String::new(alloc);
    for event in events {
        let happened = step(set, &mut world, *event, bodies)?;
        text.push_str(line(alloc, &happened)?.as_str())?;
    }
    Ok(text)
}

/// Each event as often as is said.
fn events(alloc: Global, script: &[(Event, u32)]) -> Result<Vec<Event>, AllocError> {
    let mut events = Vec::new(alloc);
    for (event, times) in script {
        for _ in 0..*times {
            events.push(*event)?;
        }
    }
    Ok(events)
}

/// The trace of a script, where the plan is for the modes, and these bodies are handed in.
fn trace(
    alloc: Global,
    modes: &str,
    plan: &str,
    kinds: &[Kind<'_>],
    script: &[(Event, u32)],
) -> Result<String, Fail> {
    let set = match read_modes(alloc, modes.as_bytes()) {
        Ok(set) => set,
        Err(_) => return Err(Fail::new("the modes have a fault")),
    };
    let plans = schedules(alloc, &set, plan)?;
    let mut bodies = Vec::new(alloc);
    for kind in kinds {
        let body: Box<dyn TaskBody> = match kind {
            Kind::Tally => Box::new(alloc, Tally::make(alloc)?)?,
            Kind::Hold => Box::new(alloc, Hold::make(alloc)?)?,
            Kind::Always(name, value) => Box::new(
                alloc,
                Always {
                    name: Name::copied(alloc, name.as_bytes())?,
                    value: *value,
                },
            )?,
        };
        bodies.push(body)?;
    }
    let events = events(alloc, script)?;
    play(alloc, &set, &plans, &mut bodies, &events)
}

/// An Advance that no node loses.
const GO: Event = Event::Advance(0);

const N1: u64 = 2;

const N2: u64 = 4;

/// The trace of the loop.
fn loop_trace(
    alloc: Global,
    sense: &str,
    act: &str,
    kinds: &[Kind<'_>],
    script: &[(Event, u32)],
) -> Result<String, Fail> {
    let modes = loop_with(alloc, sense, act)?;
    let plan = format!(in alloc; "{LOOP_PLAN}end\n")?;
    trace(alloc, modes.as_str(), plan.as_str(), kinds, script)
}

/// The trace of the loop with the second mode.
fn two_trace(alloc: Global, script: &[(Event, u32)]) -> Result<String, Fail> {
    let mut modes = loop_with(alloc, "tally", "tally")?;
    modes.push_str(IDLE)?;
    let plan = format!(in alloc; "{LOOP_PLAN}{IDLE_PLAN}end\n")?;
    trace(alloc, modes.as_str(), plan.as_str(), &TALLY, script)
}

const LOST_BEACON: [(Event, u32); 3] = [(GO, 6), (Event::Advance(N1), 1), (GO, 9)];

const LOST_BEACON_TRACE: &str = "0 beacon 1 0 2 heard n0 n1 n2
0 silent 1
20 off n2 2
21 void n2 2
21 start n1 0
23 end n1 0 1
23 beacon 2 0 2 heard n0 n2
23 silent 0
43 start n0 1 -
48 end n0 1 1
100 beacon 1 0 0 heard n0 n1 n2
100 send n0 1 1 taken n2
120 start n2 2 1
121 end n2 2 2
121 start n1 0
123 end n1 0 2
";

/// The end of that trace where `act` has the body `hold`.
const HELD: &str = "
100 send n0 1 1 taken n2
120 start n2 2 1
121 end n2 2 1
121 start n1 0
123 end n1 0 2
";

#[test]
fn lost_beacon(rt: HostRuntime) -> Result<(), Fail> {
    let trace = loop_trace(rt.alloc(), "tally", "tally", &TALLY, &LOST_BEACON)?;
    assert_eq!(rt; trace.as_str(), LOST_BEACON_TRACE);
    Ok(())
}

#[test]
fn coasts_then_stands_down(rt: HostRuntime) -> Result<(), Fail> {
    let lose = Event::Advance(N1);
    let script = [(GO, 10), (lose, 1), (GO, 5), (lose, 1), (GO, 1)];
    let trace = loop_trace(rt.alloc(), "tally", "tally", &TALLY, &script)?;
    let wanted = "
100 beacon 1 0 0 heard n0 n2
100 send n0 1 2 taken n2
120 start n2 2 2
121 end n2 2 3
121 start n1 0
123 end n1 0 2
123 beacon 2 0 0 heard n0 n2
123 silent 0
";
    assert!(rt; trace.as_str().ends_with(wanted), "{trace}");
    Ok(())
}

#[test]
fn mode_change(rt: HostRuntime) -> Result<(), Fail> {
    let lose = Event::Advance(N2);
    let script = [
        (GO, 2),
        (Event::Request(1), 1),
        (GO, 14),
        (lose, 1),
        (GO, 3),
        (lose, 1),
        (GO, 11),
    ];
    let trace = two_trace(rt.alloc(), &script)?;
    let wanted = "
123 beacon 2 1 0 heard n0 n1
123 send n1 0 2 taken n0
143 start n0 1 2
148 end n0 1 4
200 beacon 1 1 1 heard n0 n1
200 send n0 1 4 taken
220 off n2 2
221 void n2 2
221 off n1 0
223 void n1 0
223 beacon 2 1 1 heard n0 n1 n2
223 silent 0
243 off n0 1
248 void n0 1
300 beacon 3 1 2 heard n0 n1 n2
300 start n2 3
";
    assert!(rt; trace.as_str().ends_with(wanted), "{trace}");
    Ok(())
}

#[test]
fn missed_warning_runs_old_mode(rt: HostRuntime) -> Result<(), Fail> {
    // The node `n2` of the file is the second one.
    let script = [
        (GO, 3),
        (Event::Request(1), 1),
        (Event::Advance(N1), 1),
        (GO, 8),
    ];
    let trace = trace(rt.alloc(), PAIR, PAIR_PLAN, &TALLY, &script)?;
    let wanted = "0 beacon 1 0 2 heard n0 n1
0 start n1 0
1 end n1 0 1
1 request 1
100 beacon 1 1 0 heard n0
100 start n1 0
101 end n1 0 2
200 beacon 1 1 1 heard n0 n1
200 off n1 0
201 void n1 0
300 beacon 2 1 2 heard n0 n1
300 start n1 1
301 end n1 1 1
";
    assert_eq!(rt; trace.as_str(), wanted);
    Ok(())
}

#[test]
fn restart_empties_registers(rt: HostRuntime) -> Result<(), Fail> {
    let restart = Event::Restart(1);
    for (before, after, wanted) in [
        (
            6,
            2,
            "
23 restart n1
23 restart n1
23 beacon 2 0 2 heard n0 n1 n2
23 silent 0
",
        ),
        (
            7,
            1,
            "
23 beacon 2 0 2 heard n0 n1 n2
23 restart n1
23 restart n1
23 silent 0
",
        ),
    ] {
        let script = [(GO, before), (restart, 2), (GO, after)];
        let trace = loop_trace(rt.alloc(), "tally", "tally", &TALLY, &script)?;
        assert!(rt; trace.as_str().ends_with(wanted), "{trace}");
    }
    Ok(())
}

#[test]
fn latest_request_counts(rt: HostRuntime) -> Result<(), Fail> {
    for (first, second, wanted) in [
        (1, 0, "\n100 beacon 1 0 0 heard n0 n1 n2\n"),
        (0, 1, "\n100 beacon 1 1 0 heard n0 n1 n2\n"),
    ] {
        let script = [
            (GO, 2),
            (Event::Request(first), 1),
            (Event::Request(second), 1),
            (GO, 9),
        ];
        let trace = two_trace(rt.alloc(), &script)?;
        assert!(rt; trace.as_str().ends_with(wanted), "{trace}");
    }
    Ok(())
}

/// The first missing body, where the bodies are `tally` and `hold`.
fn first_missing(alloc: Global, modes: &str) -> Result<Option<u32>, Fail> {
    let set = match read_modes(alloc, modes.as_bytes()) {
        Ok(set) => set,
        Err(_) => return Err(Fail::new("the modes have a fault")),
    };
    let mut bodies: Vec<Box<dyn TaskBody>> = Vec::new(alloc);
    bodies.push(Box::new(alloc, Tally::make(alloc)?)?)?;
    bodies.push(Box::new(alloc, Hold::make(alloc)?)?)?;
    Ok(missing_body(&set, &bodies))
}

#[test]
fn hold_body_and_missing_body(rt: HostRuntime) -> Result<(), Fail> {
    let kinds = [Kind::Tally, Kind::Hold];
    let trace = loop_trace(rt.alloc(), "tally", "hold", &kinds, &LOST_BEACON)?;
    assert!(rt; trace.as_str().ends_with(HELD), "{trace}");
    for (act, wanted) in [("hold", None), ("spin", Some(2))] {
        let modes = loop_with(rt.alloc(), "tally", act)?;
        assert_eq!(rt; first_missing(rt.alloc(), modes.as_str())?, wanted);
    }
    Ok(())
}

#[test]
fn hold_before_tally(rt: HostRuntime) -> Result<(), Fail> {
    let kinds = [Kind::Hold, Kind::Tally];
    let tallied = loop_trace(rt.alloc(), "tally", "tally", &kinds, &LOST_BEACON)?;
    assert_eq!(rt; tallied.as_str(), LOST_BEACON_TRACE);
    let held = loop_trace(rt.alloc(), "tally", "hold", &kinds, &LOST_BEACON)?;
    assert!(rt; held.as_str().ends_with(HELD), "{held}");
    Ok(())
}

#[test]
fn first_body_of_a_name(rt: HostRuntime) -> Result<(), Fail> {
    let kinds = [Kind::Tally, Kind::Always("tally", 0)];
    let trace = loop_trace(rt.alloc(), "tally", "tally", &kinds, &LOST_BEACON)?;
    assert_eq!(rt; trace.as_str(), LOST_BEACON_TRACE);
    Ok(())
}

#[test]
fn saturating_values(rt: HostRuntime) -> Result<(), Fail> {
    for (value, wanted) in [
        (
            i64::MAX,
            "
23 beacon 2 0 2 heard n0 n1 n2
23 send n1 0 9223372036854775807 taken n0
43 start n0 1 9223372036854775807
48 end n0 1 9223372036854775807
",
        ),
        (i64::MIN, "\n48 end n0 1 -9223372036854775807\n"),
    ] {
        let kinds = [Kind::Tally, Kind::Always("top", value)];
        let trace = loop_trace(rt.alloc(), "top", "tally", &kinds, &[(GO, 10)])?;
        assert!(rt; trace.as_str().ends_with(wanted), "{trace}");
    }
    Ok(())
}
