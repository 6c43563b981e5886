//! Traces of small systems, through the program's own call.

use super::*;
use crate::tests::{BLINK, DOUBLE_PLAN, LOOP, LOOP_PLAN, PAIR, loop_with_copies, three_messages};
use app_graph::Name;
use std::alloc::Global;
use std::test::Fail;
use ttw_io::{MemFiles, MemSink};

/// A body that always answers 0, in place of a count.
#[derive(Drop)]
struct Zero {
    name: Name,
}

impl TaskBody for Zero {
    ghost use Rattle.std.specs.Prelude.{[], pos};

    ghost seen = { λ body. record {
      name = body.name;
      numbers = [];
      answer = λ numbers task inputs. pos 0;
      after_fire = λ numbers task inputs. numbers;
    } };

    fn name_is(&self, text: &str) -> bool {
        text.as_bytes() == self.name.as_bytes()
    }

    fn fire(&mut self, _task: u32, _inputs: &[Option<i64>]) -> i64 {
        0
    }

    fn reset(&mut self, _task: u32) {}
}

/// A body that a test hands in.
#[derive(Clone, Copy)]
enum Kind {
    Tally,
    Hold,
    /// It is named `tally`, and always answers 0.
    Zero,
}

/// The bodies of the program.
const OWN: [Kind; 2] = [Kind::Tally, Kind::Hold];

/// The mode file, the plan and the script of a test.
#[derive(Clone, Copy)]
struct Texts<'a> {
    modes: &'a str,
    plan: &'a str,
    script: &'a str,
}

/// The files of a test, whose numbered reads fail.
fn files_of(alloc: Global, texts: Texts<'_>, fail: &[u64]) -> Result<MemFiles, Fail> {
    let mut files = Vec::new(alloc);
    for (name, text) in [
        ("modes", texts.modes),
        ("plan", texts.plan),
        ("script", texts.script),
    ] {
        files.push((name.to_string(alloc)?, text.as_bytes().to_vec(alloc)?))?;
    }
    Ok(MemFiles::make(files, fail.to_vec(alloc)?))
}

/// The status and the text of a replay with these bodies, where the numbered reads and writes fail.
fn replayed(
    alloc: Global,
    texts: Texts<'_>,
    kinds: &[Kind],
    reads: &[u64],
    writes: &[u64],
) -> Result<(Status, Vec<u8>), Fail> {
    let mut bodies: Vec<Box<dyn TaskBody>> = Vec::new(alloc);
    for kind in kinds {
        let body: Box<dyn TaskBody> = match *kind {
            Kind::Tally => Box::new(alloc, Tally::make(alloc)?)?,
            Kind::Hold => Box::new(alloc, Hold::make(alloc)?)?,
            Kind::Zero => Box::new(
                alloc,
                Zero {
                    name: Name::copied(alloc, b"tally")?,
                },
            )?,
        };
        bodies.push(body)?;
    }
    let mut files = files_of(alloc, texts, reads)?;
    let mut out = MemSink::make(alloc, 4096, 4096, writes.to_vec(alloc)?)?;
    let words = ["replay", "modes", "plan", "script"];
    let status = run(alloc, &words, &mut files, &mut out, bodies);
    Ok((status, out.bytes().to_vec(alloc)?))
}

/// Whether a replay with these bodies ends with this status and this text.
fn replays(
    alloc: Global,
    texts: Texts<'_>,
    kinds: &[Kind],
    wanted: (Status, &str),
) -> Result<bool, Fail> {
    let (status, text) = replayed(alloc, texts, kinds, &[], &[])?;
    Ok(status == wanted.0 && text.as_slice() == wanted.1.as_bytes())
}

/// Whether the trace of a script has these lines at its end.
fn ends_with(alloc: Global, texts: Texts<'_>, last: &str) -> Result<bool, Fail> {
    let (status, text) = replayed(alloc, texts, &OWN, &[], &[])?;
    Ok(status == Status::Done && text.as_slice().ends_with(last.as_bytes()))
}

/// This script over the loop.
fn of_loop(script: &str) -> Texts<'_> {
    Texts {
        modes: LOOP,
        plan: LOOP_PLAN,
        script,
    }
}

/// The sensor misses the second beacon, so the controller has no input.
const LOST: &str = "go 6\nlose n1\ngo 9\n";

const LOST_TRACE: &str = "0 beacon 1 run 2 heard n0 n1 n2
0 silent m2
20 off n2 act
21 void n2 act
21 start n1 sense
23 end n1 sense 1
23 beacon 2 run 2 heard n0 n2
23 silent m1
43 start n0 ctrl -
48 end n0 ctrl 1
100 beacon 1 run 0 heard n0 n1 n2
100 send n0 m2 1 taken n2
120 start n2 act 1
121 end n2 act 2
121 start n1 sense
123 end n1 sense 2
done 16
";

#[test]
fn lost_beacon(rt: HostRuntime) -> Result<(), Fail> {
    let due = (Status::Done, LOST_TRACE);
    assert!(rt; replays(rt.alloc(), of_loop(LOST), &OWN, due)?);
    Ok(())
}

/// What the loop does until the second round, where its first message has two copies.
const DOUBLE_BEGIN: &str = "0 beacon 1 run 2 heard n0 n1 n2
0 silent m2
20 off n2 act
21 void n2 act
21 start n1 sense
23 end n1 sense 1
23 beacon 2 run 2 heard n0 n1 n2
";

/// Whether the script over the loop with two copies of its first message gives this trace after its begin.
fn doubles(alloc: Global, script: &str, rest: &str) -> Result<bool, Fail> {
    let modes = loop_with_copies(alloc, "2")?;
    let texts = Texts {
        modes: modes.as_str(),
        plan: DOUBLE_PLAN,
        script,
    };
    let trace = format!(in alloc; "{DOUBLE_BEGIN}{rest}")?;
    replays(alloc, texts, &OWN, (Status::Done, trace.as_str()))
}

/// The first copy is lost to the controller, which takes the second one.
#[test]
fn copy_lost(rt: HostRuntime) -> Result<(), Fail> {
    let rest = "23 send n1 m1 1 taken
43 beacon 3 run 2 heard n0 n1 n2
43 send n1 m1 1 taken n0
63 start n0 ctrl 1
68 end n0 ctrl 2
done 12
";
    assert!(rt; doubles(rt.alloc(), "go 7\nlose n0\ngo 4\n", rest)?);
    Ok(())
}

/// The controller has taken the first copy, so it passes over the second one.
#[test]
fn copy_passed_over(rt: HostRuntime) -> Result<(), Fail> {
    let rest = "23 send n1 m1 1 taken n0
43 beacon 3 run 2 heard n0 n1 n2
43 send n1 m1 1 taken
63 start n0 ctrl 1
68 end n0 ctrl 2
done 12
";
    assert!(rt; doubles(rt.alloc(), "go 12\n", rest)?);
    Ok(())
}

/// A list with another order, and one with a second body of the same name.
#[test]
fn first_body_of_a_name(rt: HostRuntime) -> Result<(), Fail> {
    let due = (Status::Done, LOST_TRACE);
    let exchanged = [Kind::Hold, Kind::Tally];
    assert!(rt; replays(rt.alloc(), of_loop(LOST), &exchanged, due)?);
    let two = [Kind::Tally, Kind::Zero];
    assert!(rt; replays(rt.alloc(), of_loop(LOST), &two, due)?);
    Ok(())
}

#[test]
fn coasts_then_stands_down(rt: HostRuntime) -> Result<(), Fail> {
    let script = "go 10\nlose n1\nuntil beacon\nlose n1\ngo 1\n";
    let last = "100 beacon 1 run 0 heard n0 n2
100 send n0 m2 2 taken n2
120 start n2 act 2
121 end n2 act 3
121 start n1 sense
123 end n1 sense 2
123 beacon 2 run 0 heard n0 n2
123 silent m1
done 18
";
    assert!(rt; ends_with(rt.alloc(), of_loop(script), last)?);
    Ok(())
}

/// The loop with a second mode, of one task on the third node.
fn two_modes(alloc: Global) -> Result<(String, String), Fail> {
    let mut modes = LOOP.to_string(alloc)?;
    modes.push_str(
        "[[mode]]\nname = \"idle\"\n[[mode.app]]\nname = \"lamp\"\nperiod = 100\ndeadline = 100\n[[mode.app.task]]\nname = \"blink\"\nnode = \"n2\"\nwcet = 1\n",
    )?;
    let idle = "mode idle\nschedule 1\nstart 0\ntask blink 0\ntable 1\nend\n";
    let plan = LOOP_PLAN.replace(alloc, "end\n", idle)?;
    Ok((modes, plan))
}

#[test]
fn mode_change(rt: HostRuntime) -> Result<(), Fail> {
    let (modes, plan) = two_modes(rt.alloc())?;
    let texts = Texts {
        modes: modes.as_str(),
        plan: plan.as_str(),
        script: "go 2\nrequest idle\ngo 14\nlose n2\ngo 3\nlose n2\ngo 11\n",
    };
    let last = "123 beacon 2 idle 0 heard n0 n1
123 send n1 m1 2 taken n0
143 start n0 ctrl 2
148 end n0 ctrl 4
200 beacon 1 idle 1 heard n0 n1
200 send n0 m2 4 taken
220 off n2 act
221 void n2 act
221 off n1 sense
223 void n1 sense
223 beacon 2 idle 1 heard n0 n1 n2
223 silent m1
243 off n0 ctrl
248 void n0 ctrl
300 beacon 3 idle 2 heard n0 n1 n2
300 start n2 blink
done 33
";
    assert!(rt; ends_with(rt.alloc(), texts, last)?);
    Ok(())
}

#[test]
fn missed_warning_runs_old_mode(rt: HostRuntime) -> Result<(), Fail> {
    let texts = Texts {
        modes: PAIR,
        plan: "ttw 1\nmode a\nschedule 1\nstart 0\ntask x 0\ntable 1\nmode b\nschedule 1\nstart 0\ntask y 0\ntable 1\nend\n",
        script: "go 3\nrequest b\nlose n2\ngo 8\n",
    };
    let trace = "0 beacon 1 a 2 heard n0 n2
0 start n2 x
1 end n2 x 1
1 request b
100 beacon 1 b 0 heard n0
100 start n2 x
101 end n2 x 2
200 beacon 1 b 1 heard n0 n2
200 off n2 x
201 void n2 x
300 beacon 2 b 2 heard n0 n2
300 start n2 y
301 end n2 y 1
done 13
";
    assert!(rt; replays(rt.alloc(), texts, &OWN, (Status::Done, trace))?);
    Ok(())
}

/// A restart before the beacon, and one after it, whose node waits for the next.
#[test]
fn restart_empties_registers(rt: HostRuntime) -> Result<(), Fail> {
    let before = "go 6\nrestart n1\nrestart n1\ngo 2\n";
    let last = "23 end n1 sense 1
23 restart n1
23 restart n1
23 beacon 2 run 2 heard n0 n1 n2
23 silent m1
done 10
";
    assert!(rt; ends_with(rt.alloc(), of_loop(before), last)?);
    let after = "go 7\nrestart n1\nrestart n1\ngo 1\n";
    let last = "23 end n1 sense 1
23 beacon 2 run 2 heard n0 n1 n2
23 restart n1
23 restart n1
23 silent m1
done 10
";
    assert!(rt; ends_with(rt.alloc(), of_loop(after), last)?);
    Ok(())
}

#[test]
fn latest_request_counts(rt: HostRuntime) -> Result<(), Fail> {
    let (modes, plan) = two_modes(rt.alloc())?;
    for (script, last) in [
        (
            "go 2\nrequest idle\nrequest run\ngo 9\n",
            "100 beacon 1 run 0 heard n0 n1 n2\ndone 13\n",
        ),
        (
            "go 2\nrequest run\nrequest idle\ngo 9\n",
            "100 beacon 1 idle 0 heard n0 n1 n2\ndone 13\n",
        ),
    ] {
        let texts = Texts {
            modes: modes.as_str(),
            plan: plan.as_str(),
            script,
        };
        assert!(rt; ends_with(rt.alloc(), texts, last)?);
    }
    Ok(())
}

#[test]
fn empty_script(rt: HostRuntime) -> Result<(), Fail> {
    let due = (Status::Done, "done 0\n");
    for script in ["", "# nothing\n\n# at all"] {
        assert!(rt; replays(rt.alloc(), of_loop(script), &OWN, due)?);
    }
    Ok(())
}

#[test]
fn script_faults(rt: HostRuntime) -> Result<(), Fail> {
    for (script, line) in [
        ("go 01\n", "script: bad line 1\n"),
        ("lose n9\n", "script: unknown line 1\n"),
        ("restart n0\n", "script: host line 1\n"),
        ("go 1000000\ngo 1000000\n", "script: too many line 2\n"),
    ] {
        let due = (Status::Script, line);
        assert!(rt; replays(rt.alloc(), of_loop(script), &OWN, due)?);
    }
    Ok(())
}

/// The actuator answers its input with `hold`, and has no body with `spin`, which is told before a
/// plan that is refused and a script that is.
#[test]
fn hold_body_and_missing_body(rt: HostRuntime) -> Result<(), Fail> {
    let alloc = rt.alloc();
    let held = LOOP.replace(alloc, "wcet = 1", "wcet = 1\nbody = \"hold\"")?;
    let texts = Texts {
        modes: held.as_str(),
        plan: LOOP_PLAN,
        script: LOST,
    };
    let trace = LOST_TRACE.replace(alloc, "121 end n2 act 2", "121 end n2 act 1")?;
    assert!(rt; replays(alloc, texts, &OWN, (Status::Done, trace.as_str()))?);
    let spun = LOOP.replace(alloc, "wcet = 1", "wcet = 1\nbody = \"spin\"")?;
    for (plan, script) in [(LOOP_PLAN, LOST), ("", "go 01")] {
        let texts = Texts {
            modes: spun.as_str(),
            plan,
            script,
        };
        let due = (Status::ModeFile, "modes: no body spin\n");
        assert!(rt; replays(alloc, texts, &OWN, due)?);
    }
    Ok(())
}

/// A refused plan, and one without a schedule, are told before a script that is refused.
#[test]
fn replays_of_other_plans(rt: HostRuntime) -> Result<(), Fail> {
    let alloc = rt.alloc();
    let refused = Texts {
        modes: LOOP,
        plan: "",
        script: "go 01",
    };
    let due = (Status::Plan, "plan: grammar line 1\n");
    assert!(rt; replays(alloc, refused, &OWN, due)?);
    let modes = three_messages(alloc)?;
    let none = Texts {
        modes: modes.as_str(),
        plan: "ttw 1\nmode run\nrefute 1\nshort\nrefute 2\nshort\nnone\nend\n",
        script: "go 01",
    };
    assert!(rt; replays(alloc, none, &OWN, (Status::Plan, "plan: none run\n"))?);
    let later = BLINK.replace(alloc, "deadline = 100", "deadline = 101")?;
    let broken = Texts {
        modes: later.as_str(),
        plan: "",
        script: "go 01",
    };
    let due = (Status::ModeFile, "modes: deadline lamp\n");
    assert!(rt; replays(alloc, broken, &OWN, due)?);
    Ok(())
}

/// Each of the three files is read in two calls; the trace is one write, and then there is a flush.
#[test]
fn failing_calls_of_a_replay(rt: HostRuntime) -> Result<(), Fail> {
    for fail in 1..7 {
        let (status, text) = replayed(rt.alloc(), of_loop(LOST), &OWN, &[fail], &[])?;
        assert!(rt; status == Status::ReadFault);
        assert_eq!(rt; text.as_slice(), b"read fault\n".as_slice());
    }
    let (status, text) = replayed(rt.alloc(), of_loop(LOST), &OWN, &[7], &[1])?;
    assert!(rt; status == Status::WriteFault);
    assert_eq!(rt; text.as_slice(), b"".as_slice());
    let (status, text) = replayed(rt.alloc(), of_loop(LOST), &OWN, &[], &[2])?;
    assert!(rt; status == Status::WriteFault);
    assert_eq!(rt; text.as_slice(), LOST_TRACE.as_bytes());
    Ok(())
}
