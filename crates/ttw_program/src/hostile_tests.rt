//! Every read and every call of the sink fails in turn, a plan is cut at every byte, and texts are as deep and as long as
//! they can be. The text of a run in which nothing fails is what the other tests say of its command.

use super::*;
use crate::tests::{LOOP, LOOP_PLAN, SHARE};
use app_graph::Name;
use std::alloc::Global;
use std::test::Fail;
use ttw_io::{Failed, Files, MemFiles, MemSink};

/// Files of which one read gives at most so many bytes, and which count their reads.
#[derive(Drop)]
struct Pieces {
    files: MemFiles,
    piece: usize,
    reads: u64,
}

impl Files for Pieces {
    ghost use Rattle.ttw_io.specs.Outside.{untold};

    ghost contents = { λ _ _. untold };

    ghost faults = { λ p. p.files.faults };

    fn read_at(&mut self, name: &str, at: u64, into: &mut [u8]) -> Result<usize, Failed> {
        self.reads = self.reads.saturating_add(1);
        let room = into.len().min(self.piece);
        self.files.read_at(name, at, &mut into[..room])
    }
}

/// A body named `top` that always answers the same number.
#[derive(Drop)]
struct Always {
    name: Name,
    value: i64,
}

impl TaskBody for Always {
    ghost use Rattle.std.specs.Prelude.{[]};

    ghost seen = { λ body. record {
      name = body.name;
      numbers = [];
      answer = λ numbers task inputs. body.value;
      after_fire = λ numbers task inputs. numbers;
    } };

    fn name_is(&self, text: &str) -> bool {
        text.as_bytes() == self.name.as_bytes()
    }

    fn fire(&mut self, _task: u32, _inputs: &[Option<i64>]) -> i64 {
        self.value
    }

    fn reset(&mut self, _task: u32) {}
}

/// A command over the files `modes`, `plan` and `script`, of which a read gives `piece` bytes at most. A call with the
/// number of `failing_read` or `failing_write` fails, from 1; the flush is numbered behind the writes.
#[derive(Clone, Copy)]
struct Run<'a> {
    words: &'a [&'a str],
    modes: &'a [u8],
    plan: &'a [u8],
    script: &'a [u8],
    piece: usize,
    failing_read: u64,
    failing_write: u64,
    /// What the body `top` answers.
    top: i64,
}

/// The script of a lost beacon.
const LOST: &str = "go 6\nlose n1\ngo 9\n";

/// The words over the loop, its plan and a script.
fn of_loop<'a>(words: &'a [&'a str]) -> Run<'a> {
    Run {
        words,
        modes: LOOP.as_bytes(),
        plan: LOOP_PLAN.as_bytes(),
        script: LOST.as_bytes(),
        piece: 16_384,
        failing_read: 0,
        failing_write: 0,
        top: 0,
    }
}

/// How a run ended, and how many reads it made.
#[derive(Drop)]
struct Ended {
    status: Status,
    text: Vec<u8>,
    reads: u64,
}

impl Ended {
    fn is(&self, status: Status, text: &[u8]) -> bool {
        self.status == status && self.text.as_slice() == text
    }
}

fn end_of(alloc: Global, row: Run<'_>) -> Result<Ended, Fail> {
    let mut bodies: Vec<Box<dyn TaskBody>> = Vec::new(alloc);
    bodies.push(Box::new(alloc, Tally::make(alloc)?)?)?;
    bodies.push(Box::new(alloc, Hold::make(alloc)?)?)?;
    let name = Name::copied(alloc, b"top")?;
    let value = row.top;
    bodies.push(Box::new(alloc, Always { name, value })?)?;
    let mut list = Vec::new(alloc);
    for (name, bytes) in [
        ("modes", row.modes),
        ("plan", row.plan),
        ("script", row.script),
    ] {
        list.push((name.to_string(alloc)?, bytes.to_vec(alloc)?))?;
    }
    let mut files = Pieces {
        files: MemFiles::make(list, vec![in alloc; row.failing_read]?),
        piece: row.piece,
        reads: 0,
    };
    let mut out = MemSink::make(alloc, 1 << 20, 8, vec![in alloc; row.failing_write]?)?;
    let status = run(alloc, row.words, &mut files, &mut out, bodies);
    Ok(Ended {
        status,
        text: out.bytes().to_vec(alloc)?,
        reads: files.reads,
    })
}

/// More calls than a run of these tests makes.
const CALLS: u64 = 1_000;

/// Whether each read in turn ends the run with the read fault, or with the refusal of an earlier line, until no read fails.
fn each_read_fails(alloc: Global, row: Run<'_>, due: &Ended) -> Result<bool, Fail> {
    for failing_read in 1..CALLS {
        let failed = end_of(
            alloc,
            Run {
                failing_read,
                ..row
            },
        )?;
        if failed.reads < failing_read {
            return Ok(failed.is(due.status, due.text.as_slice()));
        }
        let refused = due.status == Status::Plan && failed.is(due.status, due.text.as_slice());
        if !refused && !failed.is(Status::ReadFault, b"read fault\n") {
            return Ok(false);
        }
    }
    Ok(false)
}

/// Whether each write in turn ends the run with the write fault and a proper prefix of the text, and then the flush with the
/// whole text, until no call fails.
fn each_call_of_the_sink_fails(alloc: Global, row: Run<'_>, due: &Ended) -> Result<bool, Fail> {
    let mut whole = false;
    for failing_write in 1..CALLS {
        let failed = end_of(
            alloc,
            Run {
                failing_write,
                ..row
            },
        )?;
        if failed.status != Status::WriteFault {
            return Ok(whole && failed.is(due.status, due.text.as_slice()));
        }
        if whole || !due.text.as_slice().starts_with(failed.text.as_slice()) {
            return Ok(false);
        }
        whole = failed.text.len() == due.text.len();
    }
    Ok(false)
}

/// A plan of the loop whose first wrong line is the fifth.
const BAD_LEAF: &str = "ttw 1\nmode run\nrefute 1\nbranch\ncycle 17 2 7\nbranch\nend\n";

#[test]
fn failing_sink_and_files(rt: HostRuntime) -> Result<(), Fail> {
    let alloc = rt.alloc();
    let plan = of_loop(&["plan", "modes", "13"]);
    let check = of_loop(&["check", "modes", "plan"]);
    let tables = of_loop(&["tables", "modes", "plan", "n1"]);
    let replay = of_loop(&["replay", "modes", "plan", "script"]);
    let share = SHARE.as_bytes();
    let bad = BAD_LEAF.as_bytes();
    for (row, status) in [
        (plan, Status::Done),
        (check, Status::Done),
        (tables, Status::Done),
        (replay, Status::Done),
        (
            Run {
                modes: share,
                ..plan
            },
            Status::NoSchedule,
        ),
        (Run { modes: bad, ..plan }, Status::ModeFile),
        (Run { plan: bad, ..check }, Status::Plan),
        (
            Run {
                plan: bad,
                ..tables
            },
            Status::Plan,
        ),
        (
            Run {
                plan: bad,
                ..replay
            },
            Status::Plan,
        ),
        (
            Run {
                script: bad,
                ..replay
            },
            Status::Script,
        ),
    ] {
        for piece in [7, 16_384] {
            let row = Run { piece, ..row };
            let due = end_of(alloc, row)?;
            assert!(rt; due.status == status, "{status:?}");
            assert!(rt; each_read_fails(alloc, row, &due)?, "{status:?}");
            assert!(rt;
                each_call_of_the_sink_fails(alloc, row, &due)?,
                "{status:?}"
            );
        }
    }
    Ok(())
}

/// A plan that is cut is refused at the line in which it is, whatever the command.
#[test]
fn plan_prefixes(rt: HostRuntime) -> Result<(), Fail> {
    let alloc = rt.alloc();
    let mut line = 1_u64;
    for (end, byte) in LOOP_PLAN.as_bytes().iter().enumerate() {
        let text = format!(in alloc; "plan: grammar line {line}\n")?;
        let plan = &LOOP_PLAN.as_bytes()[..end];
        for words in [
            ["check", "modes", "plan"].as_slice(),
            &["tables", "modes", "plan", "n1"],
            &["replay", "modes", "plan", "script"],
        ] {
            let cut = end_of(
                alloc,
                Run {
                    plan,
                    ..of_loop(words)
                },
            )?;
            assert!(rt; cut.is(Status::Plan, text.as_bytes()), "at {end}");
        }
        if *byte == b'\n' {
            line = line.saturating_add(1);
        }
    }
    Ok(())
}

/// A mode file with 91 tasks of one node, each pair of which is a decision.
fn crowd(alloc: Global) -> Result<String, Fail> {
    let mut file =
        "slots = 1\nround = 10\ngap = 1000\nhost = \"n0\"\nnodes = [\"n0\"]\n[[mode]]\nname = \"run\"\n[[mode.app]]\nname = \"a\"\nperiod = 1000\ndeadline = 1000\n".to_string(
            alloc,
        )?;
    for number in 0..91 {
        let task = format!(in alloc;
            "[[mode.app.task]]\nname = \"t{number}\"\nnode = \"n0\"\nwcet = 1\n"
        )?;
        file.push_str(task.as_str())?;
    }
    Ok(file)
}

#[test]
fn deep_branches(rt: HostRuntime) -> Result<(), Fail> {
    let alloc = rt.alloc();
    let modes = crowd(alloc)?;
    let branches = "branch\n".repeat(alloc, 4096)?;
    let plan = format!(in alloc; "ttw 1\nmode run\nrefute 1\n{branches}")?;
    let row = Run {
        modes: modes.as_bytes(),
        plan: plan.as_bytes(),
        ..of_loop(&["check", "modes", "plan"])
    };
    assert!(rt; end_of(alloc, row)?.is(Status::Plan, b"plan: bad leaf line 4099\n"));
    Ok(())
}

/// Mode files that are nested as deep as their bytes allow. Reading takes 80 levels, each of them with a key of 80 parts; half
/// of them stand here, for the larger frames of a checked build, and all of them in `bench/hostile`.
#[test]
fn deep_tables(rt: HostRuntime) -> Result<(), Fail> {
    let alloc = rt.alloc();
    let keys = "a.".repeat(alloc, 79)?;
    let keys_in_table = format!(in alloc; "{{{keys}a=")?;
    let refused = "modes: not TOML\n";
    for (front, opening, depth, middle, closing, line) in [
        ("x=", "[", 1_048_574, "", "", refused),
        ("x=", "[", 524_287, "", "]", refused),
        ("x=", "{a=", 262_143, "1", "}", refused),
        ("", "a.", 524_286, "a=1", "", refused),
        ("[", "a.", 524_286, "a]", "", refused),
        ("[[", "a.", 524_285, "a]]", "", refused),
        (
            "x=",
            keys_in_table.as_str(),
            40,
            "1",
            "}",
            "modes: missing slots\n",
        ),
        ("x=", keys_in_table.as_str(), 81, "1", "}", refused),
    ] {
        let opened = opening.repeat(alloc, depth)?;
        let closed = closing.repeat(alloc, depth)?;
        let modes = format!(in alloc; "{front}{opened}{middle}{closed}")?;
        let row = Run {
            modes: modes.as_bytes(),
            ..of_loop(&["plan", "modes", "13"])
        };
        assert!(rt;
            end_of(alloc, row)?.is(Status::ModeFile, line.as_bytes()),
            "{opening}"
        );
    }
    Ok(())
}

#[test]
fn long_scripts(rt: HostRuntime) -> Result<(), Fail> {
    let alloc = rt.alloc();
    for (line, lines, status, last) in [
        ("go 1\n", 10_000, Status::Done, "\ndone 10000\n"),
        (
            "go 1\n",
            10_001,
            Status::Script,
            "script: too many line 10001\n",
        ),
        (
            "restart n2\n",
            10_000,
            Status::Done,
            "\n0 restart n2\ndone 10000\n",
        ),
        ("#\n", 10_000, Status::Done, "done 0\n"),
    ] {
        let script = line.repeat(alloc, lines)?;
        let row = Run {
            script: script.as_bytes(),
            ..of_loop(&["replay", "modes", "plan", "script"])
        };
        let now = end_of(alloc, row)?;
        assert!(rt; now.status == status, "{line}");
        assert!(rt; now.text.as_slice().ends_with(last.as_bytes()), "{line}");
    }
    Ok(())
}

/// The sensor answers the greatest and the least number. Sums with them stand still at the ends.
#[test]
fn saturating_values(rt: HostRuntime) -> Result<(), Fail> {
    let alloc = rt.alloc();
    let modes = LOOP.replace(alloc, "wcet = 2", "wcet = 2\nbody = \"top\"")?;
    for (top, last) in [
        (
            i64::MAX,
            "\n23 beacon 2 run 2 heard n0 n1 n2\n23 send n1 m1 9223372036854775807 taken n0\n43 start n0 ctrl 9223372036854775807\n48 end n0 ctrl 9223372036854775807\ndone 10\n",
        ),
        (i64::MIN, "\n48 end n0 ctrl -9223372036854775807\ndone 10\n"),
    ] {
        let row = Run {
            modes: modes.as_bytes(),
            script: b"go 10\n",
            top,
            ..of_loop(&["replay", "modes", "plan", "script"])
        };
        let now = end_of(alloc, row)?;
        assert!(rt; now.status == Status::Done);
        assert!(rt; now.text.as_slice().ends_with(last.as_bytes()), "{top}");
    }
    Ok(())
}
