//! Documents of small modes that are accepted, and one wrong document for each refusal of each place.

ghost use Rattle.std.specs.Prelude.{IfOk};
ghost use Rattle.app_graph.specs.Validation.{KeepsRules};

use crate::{Accepted, CheckEnd, Refused, check, check_from};
use app_graph::{
    GraphFault, ListOf, ModeSet, Name, RawApp, RawMessage, RawMode, RawSet, RawTask, validate,
};
use std::alloc::{AllocError, Global};
use std::test::Fail;
use ttw_io::MemFiles;

/// An application: its name, its period, which is its deadline, its tasks with node and wcet, and its messages from one task to one.
#[derive(Clone, Copy, Drop)]
struct SampleApp<'a> {
    name: &'a str,
    period: i64,
    tasks: &'a [(&'a str, &'a str, i64)],
    messages: &'a [(&'a str, &'a str, &'a str)],
}

/// A mode file whose host is the first node.
#[derive(Clone, Copy, Drop)]
struct Sample<'a> {
    slots: i64,
    round: i64,
    gap: i64,
    nodes: &'a [&'a str],
    modes: &'a [(&'a str, &'a [SampleApp<'a>])],
}

fn name(alloc: Global, text: &str) -> Result<Name, AllocError> {
    Name::copied(alloc, text.as_bytes())
}

fn names(alloc: Global, texts: &[&str]) -> Result<ListOf<Name>, AllocError> {
    let mut list = Vec::new(alloc);
    for text in texts {
        list.push(name(alloc, text)?)?;
    }
    Ok(ListOf::from_vec(list))
}

fn tasks(alloc: Global, rows: &[(&str, &str, i64)]) -> Result<ListOf<RawTask>, AllocError> {
    let mut list = Vec::new(alloc);
    for (task, node, wcet) in rows {
        list.push(RawTask {
            name: name(alloc, task)?,
            node: name(alloc, node)?,
            wcet: *wcet,
            body: name(alloc, "tally")?,
        })?;
    }
    Ok(ListOf::from_vec(list))
}

fn messages(alloc: Global, rows: &[(&str, &str, &str)]) -> Result<ListOf<RawMessage>, AllocError> {
    let mut list = Vec::new(alloc);
    for (message, from, to) in rows {
        list.push(RawMessage {
            name: name(alloc, message)?,
            from: names(alloc, &[from])?,
            to: names(alloc, &[to])?,
            copies: 1,
        })?;
    }
    Ok(ListOf::from_vec(list))
}

fn apps(alloc: Global, rows: &[SampleApp<'_>]) -> Result<ListOf<RawApp>, AllocError> {
    let mut list = Vec::new(alloc);
    for app in rows {
        list.push(RawApp {
            name: name(alloc, app.name)?,
            period: app.period,
            deadline: app.period,
            tasks: tasks(alloc, app.tasks)?,
            messages: messages(alloc, app.messages)?,
        })?;
    }
    Ok(ListOf::from_vec(list))
}

fn modes(alloc: Global, rows: &[(&str, &[SampleApp<'_>])]) -> Result<ListOf<RawMode>, AllocError> {
    let mut list = Vec::new(alloc);
    for (mode, rows) in rows {
        list.push(RawMode {
            name: name(alloc, mode)?,
            apps: apps(alloc, rows)?,
        })?;
    }
    Ok(ListOf::from_vec(list))
}

fn raw_of(alloc: Global, sample: &Sample<'_>) -> Result<RawSet, AllocError> {
    Ok(RawSet {
        slots: sample.slots,
        round: sample.round,
        gap: sample.gap,
        host: name(alloc, sample.nodes.first().copied().unwrap_or(""))?,
        nodes: names(alloc, sample.nodes)?,
        modes: modes(alloc, sample.modes)?,
    })
}

fn set_of(alloc: Global, sample: &Sample<'_>) -> Result<ModeSet, GraphFault>
    ensures { IfOk result KeepsRules }
{
    let raw = raw_of(alloc, sample)?;
    validate(alloc, &raw)
}

/// A control loop over three nodes, whose fewest rounds are two.
const LOOP: Sample<'static> = Sample {
    slots: 2,
    round: 20,
    gap: 100,
    nodes: &["n0", "n1", "n2"],
    modes: &[(
        "run",
        &[SampleApp {
            name: "loop",
            period: 100,
            tasks: &[("sense", "n1", 2), ("ctrl", "n0", 5), ("act", "n2", 1)],
            messages: &[("m1", "sense", "ctrl"), ("m2", "ctrl", "act")],
        }],
    )],
};

/// The document of the control loop, line by line.
const LOOP_LINES: [&str; 20] = [
    "ttw 1",
    "mode run",
    "refute 1",
    "branch",
    "cycle 17 2 6",
    "branch",
    "cycle 19 4 11",
    "cycle 19 18 9 11",
    "cycle 20 14 16 3",
    "cycle 18 7 3",
    "schedule 2",
    "start 0 23",
    "task sense 21",
    "task ctrl 43",
    "task act 120",
    "message m1 23 43",
    "message m2 48 120",
    "table 1 m2",
    "table 2 m1",
    "end",
];

/// What a document is: accepted, with so many rounds in its first mode or none, or refused.
#[derive(Clone, Copy, Debug, PartialEq, Eq)]
enum Verdict {
    Accepted(usize, Option<usize>),
    Refused(Refused),
    ReadFault,
    NoSet,
    /// The text and a file with it have other answers, or there was no memory for the file.
    Differ,
}

/// How many modes are accepted, and the rounds of the first.
fn said(accepted: &Accepted) -> Verdict {
    let modes = accepted.modes.as_slice();
    let rounds = match modes.first() {
        Some(Some(schedule)) => Some(schedule.starts.as_slice().len()),
        _ => None,
    };
    Verdict::Accepted(modes.len(), rounds)
}

/// The answer to a file with this text, of which the reads of these numbers fail.
fn answer_of_file(
    alloc: Global,
    set: &ModeSet,
    text: &[u8],
    fail: Vec<u64>,
) -> Result<Verdict, AllocError>
    requires { KeepsRules set.now }
{
    let mut list = Vec::new(alloc);
    list.push((
        String::from_str(alloc, "plan")?,
        Vec::from_slice(alloc, text)?,
    ))?;
    let mut files = MemFiles::make(list, fail);
    Ok(match check_from(alloc, set, &mut files, "plan") {
        Ok(accepted) => said(&accepted),
        Err(CheckEnd::Refused(refused)) => Verdict::Refused(refused),
        Err(CheckEnd::ReadFault) => Verdict::ReadFault,
    })
}

/// The answer to a text, where a file with it has the same.
fn answer_on(alloc: Global, set: &ModeSet, text: &[u8]) -> Verdict
    requires { KeepsRules set.now }
{
    let of_text = match check(alloc, set, text) {
        Ok(accepted) => said(&accepted),
        Err(refused) => Verdict::Refused(refused),
    };
    match answer_of_file(alloc, set, text, Vec::new(alloc)) {
        Ok(of_file) if of_file == of_text => of_text,
        _ => Verdict::Differ,
    }
}

fn answer(alloc: Global, sample: &Sample<'_>, text: &[u8]) -> Verdict {
    match set_of(alloc, sample) {
        Ok(set) => answer_on(alloc, &set, text),
        Err(_) => Verdict::NoSet,
    }
}

/// Adds a line.
fn add(text: &mut Vec<u8>, line: &str) -> Result<(), AllocError> {
    text.extend_from_slice(line.as_bytes())?;
    text.push(b'\n')?;
    Ok(())
}

/// A change of a document. Lines are numbered from 1.
#[derive(Clone, Copy)]
enum Edit<'a> {
    /// The line has this text.
    Put(usize, &'a str),
    /// A line with this text stands before it.
    Before(usize, &'a str),
    /// The line is left out.
    Without(usize),
    /// The document ends after so many lines.
    Cut(usize),
}

/// The changed document.
fn edited(alloc: Global, lines: &[&str], edit: Edit<'_>) -> Result<Vec<u8>, AllocError> {
    let mut text = Vec::new(alloc);
    for (at, line) in lines.iter().enumerate() {
        let number = at + 1;
        match edit {
            Edit::Put(here, new) => {
                if here == number {
                    add(&mut text, new)?;
                } else {
                    add(&mut text, line)?;
                }
            }
            Edit::Before(here, new) => {
                if here == number {
                    add(&mut text, new)?;
                }
                add(&mut text, line)?;
            }
            Edit::Without(here) => {
                if here != number {
                    add(&mut text, line)?;
                }
            }
            Edit::Cut(count) => {
                if number <= count {
                    add(&mut text, line)?;
                }
            }
        }
    }
    Ok(text)
}

/// Whether each change of the control loop's document is refused so.
fn all_refused(alloc: Global, rows: &[(Edit<'_>, Refused)]) -> Result<bool, GraphFault> {
    let set = set_of(alloc, &LOOP)?;
    for (edit, refused) in rows {
        let text = edited(alloc, &LOOP_LINES, *edit)?;
        if answer_on(alloc, &set, text.as_slice()) != Verdict::Refused(*refused) {
            return Ok(false);
        }
    }
    Ok(true)
}

fn is_true(answer: Result<bool, GraphFault>) -> bool {
    match answer {
        Ok(all) => all,
        Err(_) => false,
    }
}

#[test]
fn check_accepts_and_bad_leaf(rt: HostRuntime) -> Result<(), Fail> {
    let alloc = rt.alloc();
    let text = edited(alloc, &LOOP_LINES, Edit::Cut(20))?;
    let wrong = edited(alloc, &LOOP_LINES, Edit::Put(5, "cycle 17 2 7"))?;
    assert_eq!(rt;
        answer(alloc, &LOOP, text.as_slice()),
        Verdict::Accepted(1, Some(2))
    );
    assert_eq!(rt;
        answer(alloc, &LOOP, wrong.as_slice()),
        Verdict::Refused(Refused::BadLeaf(5))
    );
    Ok(())
}

/// The answer to a file with a document of the control loop, where this read fails.
fn with_failing_read(alloc: Global, text: &[u8], call: u64) -> Result<Verdict, AllocError> {
    let mut fail = Vec::new(alloc);
    fail.push(call)?;
    match set_of(alloc, &LOOP) {
        Ok(set) => answer_of_file(alloc, &set, text, fail),
        Err(_) => Ok(Verdict::NoSet),
    }
}

#[test]
fn refused_before_failing_read(rt: HostRuntime) -> Result<(), Fail> {
    let alloc = rt.alloc();
    // More bytes than one read gives. The third read of the right document is not made.
    let mut wrong = edited(alloc, &LOOP_LINES, Edit::Put(5, "cycle 17 2 7"))?;
    for _line in 0..20000 {
        add(&mut wrong, "end")?;
    }
    let right = edited(alloc, &LOOP_LINES, Edit::Cut(20))?;
    let bad_leaf = Verdict::Refused(Refused::BadLeaf(5));
    for (call, of_wrong, of_right) in [
        (1, Verdict::ReadFault, Verdict::ReadFault),
        (2, bad_leaf, Verdict::ReadFault),
        (3, bad_leaf, Verdict::Accepted(1, Some(2))),
    ] {
        assert_eq!(rt; with_failing_read(alloc, wrong.as_slice(), call)?, of_wrong);
        assert_eq!(rt; with_failing_read(alloc, right.as_slice(), call)?, of_right);
    }
    Ok(())
}

#[test]
fn lines_after_end(rt: HostRuntime) -> Result<(), Fail> {
    let alloc = rt.alloc();
    let mut text = edited(alloc, &LOOP_LINES, Edit::Cut(20))?;
    for _line in 0..20000 {
        add(&mut text, "end")?;
    }
    let verdict = Verdict::Refused(Refused::Grammar(21));
    assert_eq!(rt; answer(alloc, &LOOP, text.as_slice()), verdict);
    assert_eq!(rt; with_failing_read(alloc, text.as_slice(), 2)?, verdict);
    Ok(())
}

#[test]
fn cut_plans(rt: HostRuntime) {
    let rows = [
        (Edit::Cut(9), Refused::Grammar(10)),
        (Edit::Without(10), Refused::Unfinished(0)),
        (Edit::Put(12, "start 0 22"), Refused::Schedule(0, 7)),
    ];
    assert!(rt; is_true(all_refused(rt.alloc(), &rows)));
}

#[test]
fn first_line_and_modes(rt: HostRuntime) {
    let rows = [
        (Edit::Cut(0), Refused::Grammar(1)),
        (Edit::Put(1, "ttw 2"), Refused::Grammar(1)),
        (Edit::Put(1, "ttw 1 "), Refused::Grammar(1)),
        (Edit::Put(1, "mode run"), Refused::Grammar(1)),
        (Edit::Cut(1), Refused::Grammar(2)),
        (Edit::Put(2, "mode walk"), Refused::Names(2)),
        (Edit::Put(2, "end"), Refused::Grammar(2)),
        (Edit::Put(2, "refute 1"), Refused::Grammar(2)),
        (Edit::Put(20, "none"), Refused::Grammar(20)),
        (Edit::Put(20, "mode run"), Refused::Grammar(20)),
        (Edit::Cut(19), Refused::Grammar(20)),
        (Edit::Before(20, "end"), Refused::Grammar(21)),
    ];
    assert!(rt; is_true(all_refused(rt.alloc(), &rows)));
}

#[test]
fn numbers_of_rounds(rt: HostRuntime) {
    let rows = [
        (Edit::Cut(2), Refused::Grammar(3)),
        (Edit::Put(3, "branch"), Refused::Grammar(3)),
        (Edit::Put(3, "cycle 1"), Refused::Grammar(3)),
        (Edit::Put(3, "refute 2"), Refused::MissingCount(0, 1)),
        (Edit::Put(3, "schedule 2"), Refused::MissingCount(0, 1)),
        (Edit::Put(3, "none"), Refused::MissingCount(0, 1)),
        (Edit::Put(3, "start 0"), Refused::Grammar(3)),
        (Edit::Put(3, "mode run"), Refused::Grammar(3)),
        (Edit::Before(11, "branch"), Refused::Extra(11)),
        (Edit::Before(11, "short"), Refused::Extra(11)),
        (Edit::Before(11, "full 1"), Refused::Extra(11)),
        (Edit::Before(11, "cycle 18 7 3"), Refused::Extra(11)),
        (Edit::Put(11, "refute 3"), Refused::MissingCount(0, 2)),
        (Edit::Put(11, "schedule 1"), Refused::MissingCount(0, 2)),
        (Edit::Put(11, "none"), Refused::MissingCount(0, 2)),
    ];
    assert!(rt; is_true(all_refused(rt.alloc(), &rows)));
}

#[test]
fn nodes_that_are_not_so(rt: HostRuntime) {
    let rows = [
        (Edit::Put(4, "short"), Refused::BadLeaf(4)),
        (Edit::Put(4, "full 0"), Refused::BadLeaf(4)),
        (Edit::Put(4, "full 1"), Refused::BadLeaf(4)),
        (Edit::Put(4, "full 2"), Refused::BadLeaf(4)),
        (Edit::Put(4, "full 2000000000000"), Refused::BadLeaf(4)),
        (Edit::Put(4, "full 2000000000001"), Refused::Grammar(4)),
        (Edit::Put(4, "cycle 1"), Refused::BadLeaf(4)),
        (Edit::Put(4, "cycle 2 3"), Refused::BadLeaf(4)),
        (Edit::Put(5, "cycle 17 2"), Refused::BadLeaf(5)),
        (Edit::Put(5, "cycle 19 4 11"), Refused::BadLeaf(5)),
        (Edit::Put(7, "branch"), Refused::BadLeaf(7)),
        (Edit::Put(7, "cycle 20 14 16 3"), Refused::BadLeaf(7)),
    ];
    assert!(rt; is_true(all_refused(rt.alloc(), &rows)));
}

#[test]
fn lines_that_are_no_nodes(rt: HostRuntime) {
    let rows = [
        (Edit::Put(4, "refute 2"), Refused::Unfinished(0)),
        (Edit::Put(4, "schedule 1"), Refused::Unfinished(0)),
        (Edit::Put(4, "none"), Refused::Unfinished(0)),
        (Edit::Put(4, "mode run"), Refused::Unfinished(0)),
        (Edit::Put(4, "end"), Refused::Unfinished(0)),
        (Edit::Put(4, "ttw 1"), Refused::Grammar(4)),
        (Edit::Put(4, "start 0"), Refused::Grammar(4)),
        (Edit::Put(4, "task sense 1"), Refused::Grammar(4)),
        (Edit::Put(4, "message m1 1 2"), Refused::Grammar(4)),
        (Edit::Put(4, "table 1"), Refused::Grammar(4)),
        (Edit::Put(4, "cycle"), Refused::Grammar(4)),
        (Edit::Put(4, "cycle 01"), Refused::Grammar(4)),
        (Edit::Put(4, ""), Refused::Grammar(4)),
    ];
    assert!(rt; is_true(all_refused(rt.alloc(), &rows)));
}

#[test]
fn schedules_that_are_not_right(rt: HostRuntime) {
    let rows = [
        (Edit::Put(12, "start 0"), Refused::Grammar(12)),
        (Edit::Put(12, "start 0 23 60"), Refused::Grammar(12)),
        (Edit::Put(12, "task sense 21"), Refused::Grammar(12)),
        (Edit::Put(13, "task ctrl 21"), Refused::Names(13)),
        (Edit::Put(13, "message m1 23 43"), Refused::Grammar(13)),
        (Edit::Put(16, "message m2 23 43"), Refused::Names(16)),
        (Edit::Put(16, "table 1 m2"), Refused::Grammar(16)),
        (Edit::Put(18, "table 2 m2"), Refused::Grammar(18)),
        (Edit::Put(18, "table 0 m2"), Refused::Grammar(18)),
        (Edit::Put(18, "table 1 m9"), Refused::Names(18)),
        (Edit::Put(18, "table 1 m2 m2"), Refused::Schedule(0, 7)),
        (Edit::Put(12, "start 1 23"), Refused::Schedule(0, 1)),
        (Edit::Put(14, "task ctrl 42"), Refused::Schedule(0, 4)),
        (Edit::Cut(18), Refused::Grammar(19)),
    ];
    assert!(rt; is_true(all_refused(rt.alloc(), &rows)));
}

/// A lamp with room for three rounds and more.
const BLINK: Sample<'static> = Sample {
    slots: 2,
    round: 10,
    gap: 40,
    nodes: &["n0", "n1"],
    modes: &[(
        "run",
        &[SampleApp {
            name: "lamp",
            period: 100,
            tasks: &[("blink", "n1", 3)],
            messages: &[],
        }],
    )],
};

/// The lamp in so short a period that no round fits.
const BRIEF: Sample<'static> = Sample {
    slots: 2,
    round: 20,
    gap: 40,
    nodes: &["n0", "n1"],
    modes: &[(
        "run",
        &[SampleApp {
            name: "lamp",
            period: 10,
            tasks: &[("blink", "n1", 3)],
            messages: &[],
        }],
    )],
};

/// Two tasks of one node that have no room beside each other.
const SHARED: Sample<'static> = Sample {
    slots: 1,
    round: 3,
    gap: 12,
    nodes: &["n0"],
    modes: &[(
        "run",
        &[
            SampleApp {
                name: "a",
                period: 4,
                tasks: &[("x", "n0", 1)],
                messages: &[],
            },
            SampleApp {
                name: "b",
                period: 6,
                tasks: &[("y", "n0", 2)],
                messages: &[],
            },
        ],
    )],
};

/// The same, where they have room.
const BESIDE: Sample<'static> = Sample {
    slots: 1,
    round: 3,
    gap: 12,
    nodes: &["n0"],
    modes: &[(
        "run",
        &[
            SampleApp {
                name: "a",
                period: 4,
                tasks: &[("x", "n0", 1)],
                messages: &[],
            },
            SampleApp {
                name: "b",
                period: 6,
                tasks: &[("y", "n0", 1)],
                messages: &[],
            },
        ],
    )],
};

/// Three messages and two slots.
const CROWDED: Sample<'static> = Sample {
    slots: 1,
    round: 50,
    gap: 100,
    nodes: &["n0", "n1"],
    modes: &[(
        "run",
        &[
            SampleApp {
                name: "a",
                period: 100,
                tasks: &[("s0", "n0", 1), ("c0", "n1", 1)],
                messages: &[("x0", "s0", "c0")],
            },
            SampleApp {
                name: "b",
                period: 100,
                tasks: &[("s1", "n0", 1), ("c1", "n1", 1)],
                messages: &[("x1", "s1", "c1")],
            },
            SampleApp {
                name: "c",
                period: 100,
                tasks: &[("s2", "n0", 1), ("c2", "n1", 1)],
                messages: &[("x2", "s2", "c2")],
            },
        ],
    )],
};

/// Two messages, which have slots in two rounds.
const PAIR: Sample<'static> = Sample {
    slots: 1,
    round: 20,
    gap: 100,
    nodes: &["n0", "n1"],
    modes: &[(
        "run",
        &[SampleApp {
            name: "a",
            period: 100,
            tasks: &[("s", "n0", 1), ("c", "n1", 1), ("d", "n1", 1)],
            messages: &[("x", "s", "c"), ("y", "s", "d")],
        }],
    )],
};

/// Two modes, each of one lamp.
const TWO: Sample<'static> = Sample {
    slots: 1,
    round: 20,
    gap: 100,
    nodes: &["n0"],
    modes: &[
        (
            "day",
            &[SampleApp {
                name: "lamp",
                period: 100,
                tasks: &[("blink", "n0", 1)],
                messages: &[],
            }],
        ),
        (
            "night",
            &[SampleApp {
                name: "lamp",
                period: 100,
                tasks: &[("glow", "n0", 1)],
                messages: &[],
            }],
        ),
    ],
};

#[test]
fn blink_plan(rt: HostRuntime) {
    let alloc = rt.alloc();
    let text =
        b"ttw 1\nmode run\nrefute 1\ncycle 1\nrefute 2\ncycle 1 3\nschedule 3\nstart 0 20 60\ntask blink 0\ntable 1\ntable 2\ntable 3\nend\n";
    assert_eq!(rt;
        answer(alloc, &BLINK, text.as_slice()),
        Verdict::Accepted(1, Some(3))
    );
    let zero = b"ttw 1\nmode run\nrefute 1\ncycle 1\nrefute 2\ncycle 1\n";
    assert_eq!(rt;
        answer(alloc, &BLINK, zero.as_slice()),
        Verdict::Refused(Refused::BadLeaf(6))
    );
}

#[test]
fn no_round_fits(rt: HostRuntime) {
    let alloc = rt.alloc();
    assert_eq!(rt;
        answer(alloc, &BRIEF, b"ttw 1\nmode run\nnone\nend\n"),
        Verdict::Accepted(1, None)
    );
    assert_eq!(rt;
        answer(alloc, &BRIEF, b"ttw 1\nmode run\nrefute 1\nshort\n"),
        Verdict::Refused(Refused::Extra(3))
    );
    assert_eq!(rt;
        answer(
            alloc,
            &BRIEF,
            b"ttw 1\nmode run\nschedule 1\nstart 0\ntask blink 0\ntable 1\nend\n"
        ),
        Verdict::Refused(Refused::Schedule(0, 1))
    );
}

#[test]
fn shared_nodes(rt: HostRuntime) {
    let alloc = rt.alloc();
    let text =
        b"ttw 1\nmode run\nrefute 1\nbranch\nrefute 2\nbranch\nrefute 3\nbranch\nrefute 4\nbranch\nnone\nend\n";
    let early =
        b"ttw 1\nmode run\nrefute 1\nbranch\nrefute 2\nbranch\nrefute 3\nbranch\nnone\nend\n";
    let room = b"ttw 1\nmode run\nschedule 1\nstart 0\ntask x 3\ntask y 0\ntable 1\nend\n";
    let meet = b"ttw 1\nmode run\nschedule 1\nstart 0\ntask x 2\ntask y 0\ntable 1\nend\n";
    assert_eq!(rt;
        answer(alloc, &SHARED, text.as_slice()),
        Verdict::Accepted(1, None)
    );
    assert_eq!(rt;
        answer(alloc, &SHARED, early.as_slice()),
        Verdict::Refused(Refused::MissingCount(0, 4))
    );
    assert_eq!(rt;
        answer(alloc, &BESIDE, room.as_slice()),
        Verdict::Accepted(1, Some(1))
    );
    assert_eq!(rt;
        answer(alloc, &BESIDE, meet.as_slice()),
        Verdict::Refused(Refused::Schedule(0, 6))
    );
}

#[test]
fn slots_short(rt: HostRuntime) {
    let alloc = rt.alloc();
    let text = b"ttw 1\nmode run\nrefute 1\nshort\nrefute 2\nshort\nnone\nend\n";
    let full = b"ttw 1\nmode run\nrefute 1\nshort\nrefute 2\nbranch\nbranch\nfull 1\n";
    let other = b"ttw 1\nmode run\nrefute 1\nshort\nrefute 2\nbranch\nbranch\nfull 2\n";
    let early = b"ttw 1\nmode run\nrefute 1\nshort\nrefute 2\nbranch\nfull 1\n";
    assert_eq!(rt;
        answer(alloc, &CROWDED, text.as_slice()),
        Verdict::Accepted(1, None)
    );
    assert_eq!(rt;
        answer(alloc, &PAIR, full.as_slice()),
        Verdict::Refused(Refused::Grammar(9))
    );
    assert_eq!(rt;
        answer(alloc, &PAIR, other.as_slice()),
        Verdict::Refused(Refused::BadLeaf(8))
    );
    assert_eq!(rt;
        answer(alloc, &PAIR, early.as_slice()),
        Verdict::Refused(Refused::BadLeaf(7))
    );
}

#[test]
fn modes_in_file_order(rt: HostRuntime) {
    let alloc = rt.alloc();
    let text =
        b"ttw 1\nmode day\nschedule 1\nstart 0\ntask blink 0\ntable 1\nmode night\nschedule 1\nstart 0\ntask glow 99\ntable 1\nend\n";
    let one = b"ttw 1\nmode day\nschedule 1\nstart 0\ntask blink 0\ntable 1\nend\n";
    let late =
        b"ttw 1\nmode day\nschedule 1\nstart 0\ntask blink 0\ntable 1\nmode night\nschedule 1\nstart 0\ntask glow 100\ntable 1\nend\n";
    let name = b"ttw 1\nmode day\nschedule 1\nstart 0\ntask blink 100\ntable 1 glow\n";
    assert_eq!(rt;
        answer(alloc, &TWO, text.as_slice()),
        Verdict::Accepted(2, Some(1))
    );
    assert_eq!(rt;
        answer(alloc, &TWO, one.as_slice()),
        Verdict::Refused(Refused::Grammar(7))
    );
    assert_eq!(rt;
        answer(alloc, &TWO, late.as_slice()),
        Verdict::Refused(Refused::Schedule(1, 3))
    );
    assert_eq!(rt;
        answer(alloc, &TWO, name.as_slice()),
        Verdict::Refused(Refused::Names(6))
    );
}

#[test]
fn ends_of_lines(rt: HostRuntime) -> Result<(), Fail> {
    let alloc = rt.alloc();
    assert_eq!(rt;
        answer(alloc, &LOOP, b"ttw 1"),
        Verdict::Refused(Refused::Grammar(1))
    );
    assert_eq!(rt;
        answer(alloc, &BRIEF, b"ttw 1\nmode run\nnone\nend"),
        Verdict::Refused(Refused::Grammar(4))
    );
    assert_eq!(rt;
        answer(alloc, &BRIEF, b"ttw 1\nmode run\nnone\nend\n\n"),
        Verdict::Refused(Refused::Grammar(5))
    );
    assert_eq!(rt;
        answer(alloc, &BRIEF, b"ttw 1\nmode run\nnone\nend\nx"),
        Verdict::Refused(Refused::Grammar(5))
    );
    for (last, refused) in [(" 10", Refused::BadLeaf(4)), (" 10 1", Refused::Grammar(4))] {
        let mut text = edited(alloc, &LOOP_LINES, Edit::Cut(3))?;
        text.extend_from_slice(b"cycle")?;
        for _number in 0..2044 {
            text.extend_from_slice(b" 1")?;
        }
        add(&mut text, last)?;
        assert_eq!(rt;
            answer(alloc, &LOOP, text.as_slice()),
            Verdict::Refused(refused)
        );
    }
    Ok(())
}

/// So many tasks of one node, each pair of which is a decision.
fn crowd(alloc: Global, count: u32) -> Result<RawSet, AllocError> {
    let mut tasks = Vec::new(alloc);
    for number in 0..count {
        let text = format!(in alloc; "t{number}")?;
        tasks.push(RawTask {
            name: name(alloc, text.as_str())?,
            node: name(alloc, "n0")?,
            wcet: 1,
            body: name(alloc, "tally")?,
        })?;
    }
    let mut apps = Vec::new(alloc);
    apps.push(RawApp {
        name: name(alloc, "a")?,
        period: 1000,
        deadline: 1000,
        tasks: ListOf::from_vec(tasks),
        messages: ListOf::from_vec(Vec::new(alloc)),
    })?;
    let mut modes = Vec::new(alloc);
    modes.push(RawMode {
        name: name(alloc, "run")?,
        apps: ListOf::from_vec(apps),
    })?;
    Ok(RawSet {
        slots: 1,
        round: 10,
        gap: 1000,
        host: name(alloc, "n0")?,
        nodes: names(alloc, &["n0"])?,
        modes: ListOf::from_vec(modes),
    })
}

fn deep(alloc: Global, branches: u32) -> Result<Verdict, GraphFault> {
    let raw = crowd(alloc, 91)?;
    let set = validate(alloc, &raw)?;
    let mut text = edited(alloc, &LOOP_LINES, Edit::Cut(3))?;
    for _branch in 0..branches {
        add(&mut text, "branch")?;
    }
    Ok(answer_on(alloc, &set, text.as_slice()))
}

#[test]
fn deep_branches(rt: HostRuntime) {
    for (branches, line) in [
        (4095, Refused::Grammar(4099)),
        (4096, Refused::BadLeaf(4099)),
    ] {
        match deep(rt.alloc(), branches) {
            Ok(verdict) => assert_eq!(rt; verdict, Verdict::Refused(line)),
            Err(_) => assert!(rt; false, "no set"),
        }
    }
}
